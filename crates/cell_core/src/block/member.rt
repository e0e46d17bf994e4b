// What is known of a cell, and of each cell of a row.
ghost use Rattle.std.specs.Prelude.{◌≡◌, ◌≢◌, ◌<◌, ◌++◌, ◌∷◌, [], Some, None, length, slice_get, slice_set};
ghost use Rattle.cell_core.specs.Member.{HasOneLess};

use crate::block::placed::Placed;
use crate::slot::member;
use std::marker::Model;
use std::mem::replace;

/// An exclusive owner's knowledge of a cell: the value that it always keeps, or its epoch, if it is broken
/// until that ends. It has no bytes.
pub struct Member<T> {
    pub(crate) member: member::RawMember<T>,
}

impl<T> Model for Member<T> {
    ghost use Rattle.cell_core.specs.Member.{MemberView, member_coded};

    ghost Value = { MemberView T };

    ghost coded = { member_coded T.code };

    ghost view = { λ m. m.member.of };
}

// By hand, so that proofs of callers do not go into its fields.
impl<T> Drop for Member<T> {
    #[inline(always)]
    fn drop(self) {
        let Self { member: _ } = self;
    }
}

impl<T> Member<T> {
    /// Makes the member of a filled cell from its token.
    pub fn of(placed: &Placed<T>) -> Member<T>
        ensures value { result.value ≡ Some placed.now.value }
        ensures name { result.name ≡ placed.now.name }
    {
        Member {
            member: member::RawMember::filled(&placed.written),
        }
    }

    /// Duplicates the member.
    pub fn again(&self) -> Member<T>
        ensures { result ≡ self.now }
    {
        Member {
            member: self.member.again(),
        }
    }

    /// Returns the token of the cell that has this value, as that of the cell at an offset.
    pub fn placed(&self, offset: u64) -> Placed<T>
        requires { self.now.value ≢ None }
        ensures offset { result.offset ≡ offset }
        ensures value { Some result.value ≡ self.now.value }
        ensures name { result.name ≡ self.now.name }
    {
        Placed {
            offset,
            written: self.member.written(),
        }
    }

    /// Shows a proof that a member and a token of one name have one value.
    pub fn agree(&self, placed: &Placed<T>)
        ensures { self.now.name ≡ placed.now.name → self.now.value ≡ Some placed.now.value }
    {
        self.member.agrees(&placed.written);
    }
}

/// The knowledge of each cell of a row, in order. It has no bytes, at any length.
pub struct Row<T> {
    pub(crate) row: member::RawRow<T>,
}

impl<T> Model for Row<T> {
    ghost use Rattle.std.specs.Prelude.{List};
    ghost use base.Stored.{coded_list};
    ghost use Rattle.cell_core.specs.Member.{MemberView, member_coded};

    ghost Value = { List (MemberView T) };

    ghost coded = { coded_list (member_coded T.code) };

    ghost view = { λ r. r.row.of };
}

// By hand, so that proofs of callers do not go into its fields.
impl<T> Drop for Row<T> {
    #[inline(always)]
    fn drop(self) {
        let Self { row: _ } = self;
    }
}

impl<T> Row<T> {
    /// Makes a row of no cells.
    pub fn new() -> Row<T>
        ensures { result ≡ [] }
    {
        Row {
            row: member::RawRow::empty(),
        }
    }

    /// Appends what is known of one cell.
    pub fn push(&mut self, member: &Member<T>)
        ensures { self.new ≡ self.old ++ member.now ∷ [] }
    {
        self.row = replace(&mut self.row, member::RawRow::empty()).longer(&member.member);
    }

    /// Appends what is known of the cells of another row.
    #[inline(always)]
    pub fn append(&mut self, other: Row<T>)
        ensures { self.new ≡ self.old ++ other }
    {
        let Row { row } = other;
        self.row = replace(&mut self.row, member::RawRow::empty()).joined(row);
    }

    /// Removes the last cell.
    pub fn pop(&mut self)
        requires { 0 < length self.old }
        ensures { HasOneLess self.old self.new }
    {
        self.row = replace(&mut self.row, member::RawRow::empty()).shorter();
    }

    /// Replaces what is known of the cell at an offset of the row.
    pub fn set(&mut self, offset: u64, member: &Member<T>)
        requires { offset < length self.old }
        ensures { self.new ≡ slice_set self.old offset member.now }
    {
        self.row = replace(&mut self.row, member::RawRow::empty()).with(offset, &member.member);
    }

    /// Returns what is known of the cell at an offset of the row.
    pub fn at(&self, offset: u64) -> Member<T>
        requires { offset < length self.now }
        ensures { slice_get self.now offset ≡ Some result }
    {
        Member {
            member: self.row.at(offset),
        }
    }
}
