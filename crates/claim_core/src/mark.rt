//! The mark of a word and its hands. Only clauses read it.
ghost use Rattle.std.specs.Prelude.{◌≡◌, ℕ, Bool, List, []};
ghost use base.Fml.{ftrue};
ghost use base.Stored.{coded_bool, coded_list};

use std::marker::{Model, PhantomData};

/// A way to read a mark off a value.
pub trait Marks<X> {
    /// The numbers.
    ghost numbers: { X → List ℕ };

    /// For each place that the word begins with, `true` if it has a value.
    ghost filled: { X → List Bool } = { λ _. [] };
}

/// The numbers that mark a word and each of its hands, for example which segments belong to it; and which of
/// the places that the word begins with have a value. A mark has no bytes and owns nothing.
pub struct Mark {
    marker: PhantomData<()>,
    pub ghost numbers: { List ℕ },
    pub ghost filled: { List Bool } by { coded_list coded_bool },
}

impl Model for Mark {
    ghost also_owns = { λ _. ftrue };
}

impl Mark {
    /// Returns the mark that is read off the value.
    pub fn of<X, M: Marks<X>>(x: &X) -> Mark
        ensures { (result.numbers ≡ M.numbers x.now) × (result.filled ≡ M.filled x.now) }
    {
        // Only the contract speaks of `x`.
        let _ = x;
        Mark {
            marker: PhantomData,
        }
    }

    /// Returns the mark without numbers and without places that have a value.
    pub fn none() -> Mark
        ensures numbers { result.numbers ≡ [] }
        ensures filled { result.filled ≡ [] }
    {
        Mark::of::<(), Nothing>(&())
    }

    // Duplicates the mark.
    pub(crate) fn again(&self) -> Mark
        ensures { (result.numbers ≡ self.now.numbers) × (result.filled ≡ self.now.filled) }
    {
        Mark::of::<Mark, Itself>(self)
    }
}

struct Nothing;

impl Marks<()> for Nothing {
    ghost numbers = { λ _. [] };
}

struct Itself;

impl Marks<Mark> for Itself {
    ghost numbers = { λ mark. mark.numbers };

    ghost filled = { λ mark. mark.filled };
}

impl Drop for Mark {
    fn drop(self) {
        let Self { marker: _ } = self;
    }
}

unsafe impl Send for Mark {}

unsafe impl Sync for Mark {}
