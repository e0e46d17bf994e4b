// What is known of a cell, and of each cell of a row. It has no bytes.
ghost use Rattle.std.specs.Prelude.{◌≡◌, ◌≢◌, ◌<◌, ◌++◌, ◌∷◌, [], List, Some, None, length, slice_get, slice_set};
ghost use base.Stored.{coded_list};
ghost use denote.Sharing.{said};
ghost use Rattle.cell_core.specs.Member.{MemberView, member_coded, member, members, HasOneLess};

use crate::slot::steps::Written;
use std::marker::{Model, PhantomData};

// Evidence that a cell has its value, or that its former name never gets one.
pub(crate) struct RawMember<T> {
    pub(crate) marker: PhantomData<T>,
    pub(crate) ghost of: { MemberView T } by { member_coded T.code },
}

impl<T> Model for RawMember<T> {
    ghost also_owns = { λ m. member T.row m.of };

    ghost also_shares = { λ m _ κ. said (member T.row m.of) κ };
}

impl<T> RawMember<T> {
    // Of a cell with a value, by its token.
    pub(crate) fn filled(written: &Written<T>) -> RawMember<T>
        ensures { (result.of.value ≡ Some written.now.value) × (result.of.name ≡ written.now.of) }
    {
        RawMember {
            marker: PhantomData,
        }
    }

    pub(crate) fn again(&self) -> RawMember<T>
        ensures { result.of ≡ self.now.of }
    {
        RawMember {
            marker: PhantomData,
        }
    }

    // The token of a cell with a value.
    pub(crate) fn written(&self) -> Written<T>
        requires { self.now.of.value ≢ None }
        ensures { (Some result.value ≡ self.now.of.value) × (result.of ≡ self.now.of.name) }
    {
        Written {
            marker: PhantomData,
        }
    }

    // Shows a proof that what is known by a name is what the name's token says.
    pub(crate) fn agrees(&self, written: &Written<T>)
        ensures { self.now.of.name ≡ written.now.of → self.now.of.value ≡ Some written.now.value }
    {}
}

// What is known of each cell of a row.
pub(crate) struct RawRow<T> {
    pub(crate) marker: PhantomData<T>,
    pub(crate) ghost of: { List (MemberView T) } by { coded_list (member_coded T.code) },
}

impl<T> Model for RawRow<T> {
    ghost also_owns = { λ r. members T.row r.of };

    ghost also_shares = { λ r _ κ. said (members T.row r.of) κ };
}

impl<T> RawRow<T> {
    // Of no cell.
    pub(crate) fn empty() -> RawRow<T>
        ensures { result.of ≡ [] }
    {
        RawRow {
            marker: PhantomData,
        }
    }

    // One cell more.
    pub(crate) fn longer(self, member: &RawMember<T>) -> RawRow<T>
        ensures { result.of ≡ self.of ++ member.now.of ∷ [] }
    {
        let RawRow { marker: _ } = self;
        RawRow {
            marker: PhantomData,
        }
    }

    // The cells of another row too.
    #[inline(always)]
    pub(crate) fn joined(self, other: RawRow<T>) -> RawRow<T>
        ensures { result.of ≡ self.of ++ other.of }
    {
        let RawRow { marker: _ } = self;
        let RawRow { marker: _ } = other;
        RawRow {
            marker: PhantomData,
        }
    }

    // The last cell given up.
    pub(crate) fn shorter(self) -> RawRow<T>
        requires { 0 < length self.of }
        ensures { HasOneLess self.of result.of }
    {
        let RawRow { marker: _ } = self;
        RawRow {
            marker: PhantomData,
        }
    }

    // Replaces what is known of the cell at an index.
    pub(crate) fn with(self, index: u64, member: &RawMember<T>) -> RawRow<T>
        ensures { result.of ≡ slice_set self.of index member.now.of }
    {
        let RawRow { marker: _ } = self;
        RawRow {
            marker: PhantomData,
        }
    }

    // What is known of the cell at an index.
    pub(crate) fn at(&self, index: u64) -> RawMember<T>
        requires { index < length self.now.of }
        ensures { slice_get self.now.of index ≡ Some result.of }
    {
        RawMember {
            marker: PhantomData,
        }
    }
}

impl<T> Drop for RawMember<T> {
    fn drop(self) {
        let Self { marker: _ } = self;
    }
}

impl<T> Drop for RawRow<T> {
    fn drop(self) {
        let Self { marker: _ } = self;
    }
}

unsafe impl<T> Send for RawMember<T> {}

unsafe impl<T> Sync for RawMember<T> {}

unsafe impl<T> Send for RawRow<T> {}

unsafe impl<T> Sync for RawRow<T> {}
