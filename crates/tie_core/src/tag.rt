// The tie of a cell, whose codes are known to be those of a table's views.
ghost use Rattle.std.specs.Prelude.{◌≡◌, ℕ};
ghost use denote.Sharing.{said};
ghost use Rattle.atomic_table.specs.Seated.{TableId};
ghost use Rattle.tie_core.specs.Tie.{Tie, tie_coded, tie_further, tie_numbered};
ghost use Rattle.tie_core.specs.Desk.{AreAlike, IsTieOf, tagged};

use crate::play::Staged;
use std::marker::{Model, PhantomData};

/// Has the number of a seat, for proofs.
pub trait Numbered {
    ghost number: { Self → ℕ };
}

/// Evidence that a tie's seat shows the stages of its cell by these views. It has no bytes, and says nothing of who has
/// the seat.
pub struct Tag<V, P: Staged<V>> {
    pub(crate) marker: PhantomData<(V, P)>,
    pub ghost tie: { Tie } by { tie_coded },
}

impl<V, P: Staged<V>> Model for Tag<V, P> {
    ghost also_owns = { λ t. tagged V.row.coded.code P.shows t.tie };

    ghost also_shares = { λ t _ κ. said (tagged V.row.coded.code P.shows t.tie) κ };
}

impl<V, P: Staged<V>> Tag<V, P> {
    /// Returns the tag of the seat whose number is larger by `n`.
    pub fn further(&self, n: u64) -> Tag<V, P>
        ensures tie { result.tie ≡ tie_further self.now.tie n }
        ensures table { (z : TableId) (floor : ℕ) → IsTieOf z floor self.now.tie
            → IsTieOf z floor result.tie }
    {
        // In the proof, the codes are those of each seat.
        Tag {
            marker: PhantomData,
        }
    }

    /// Returns the tag of the seat that has this number.
    pub fn numbered<B: Numbered>(&self, of: &B) -> Tag<V, P>
        ensures tie { result.tie ≡ tie_numbered self.now.tie (B.number of.now) }
        ensures table { (z : TableId) (floor : ℕ) → IsTieOf z floor self.now.tie
            → IsTieOf z floor result.tie }
    {
        // In the proof, the codes are those of every number.
        Tag {
            marker: PhantomData,
        }
    }

    /// Duplicates the tag.
    pub fn again(&self) -> Tag<V, P>
        ensures { result.tie ≡ self.now.tie }
    {
        self.further(0)
    }

    /// Shows a proof that two tags of one desk differ in the numbers of their seats alone. The call does nothing.
    pub fn agrees(&self, other: &Tag<V, P>)
        ensures { AreAlike self.now.tie other.now.tie }
    {
        self.has_codes_of(other);
    }

    // Both have the codes of the same views.
    fn has_codes_of(&self, other: &Tag<V, P>)
        ensures { AreAlike self.now.tie other.now.tie }
    {}
}

impl<V, P: Staged<V>> Drop for Tag<V, P> {
    fn drop(self) {
        let Self { marker: _ } = self;
    }
}

unsafe impl<V, P: Staged<V>> Send for Tag<V, P> {}

unsafe impl<V, P: Staged<V>> Sync for Tag<V, P> {}
