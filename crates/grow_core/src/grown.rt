//! The token of a run.
ghost use Rattle.std.specs.Prelude.{◌≡◌, ◌+◌, ◌<◌, slice_get, Some};
ghost use Rattle.grow_core.specs.Vector.{VectorView, IsPlacedOf};
ghost use Rattle.grow_core.specs.Grown.{IsGrownOf, IsInOrder, values_of};

use crate::filled::Filled;
use crate::token::Placed;
use claim_core::Run;
use std::fmt;
use std::marker::Model;

/// Evidence that each place of a run holds its value. It takes 24 bytes, however long the run is.
#[derive(Drop)]
pub struct Grown<T> {
    pub(crate) run: Run,
    pub(crate) filled: Filled<T>,
}

impl<T> Model for Grown<T> {
    ghost use Rattle.grow_core.specs.Grown.{GrownView, grown_coded, tokens_of, IsKnownRun};

    ghost Value = { GrownView T };

    ghost coded = { grown_coded T.code };

    ghost view = { λ g. record { run = g.run; tokens = tokens_of g.filled.keys g.run.from g.filled.row } };

    ghost invariant = { λ g. IsKnownRun g.run g.filled.keys g.filled.row };
}

impl<T> fmt::Debug for Grown<T> {
    fn fmt<W: fmt::Write>(&self, f: &mut fmt::Formatter<W>) -> fmt::Result {
        f.debug_struct("Grown")
            .field("run", &self.run)
            .finish_non_exhaustive()
    }
}

impl<T> Grown<T> {
    /// Returns the places of the run.
    pub fn run(&self) -> Run
        ensures { result ≡ self.now.run }
    {
        self.run
    }

    /// Shows a proof that there is a token of each place of the run, in order. The call does nothing.
    pub fn laws(&self)
        ensures { IsInOrder self.now.run self.now.tokens }
    {
        self.in_order();
    }

    // The same, from the type's invariant.
    fn in_order(&self)
        ensures { IsInOrder self.now.run self.now.tokens }
    {
        // For the proof: reading a field shows the type's invariant.
        let _run = self.run;
    }

    /// Returns the token of place `i` of the run.
    pub fn placed(&self, i: u64) -> Placed<T>
        requires { i < self.now.run.n }
        ensures place { result.place ≡ self.now.run.from + i }
        ensures value { slice_get (values_of self.now) i ≡ Some result.value }
        ensures of { (v : VectorView T) → IsGrownOf v self.now → IsPlacedOf v result }
    {
        let Filled { keys, row } = &self.filled;
        let (segment, offset) = keys.layout().locate(self.run.from + i);
        Placed {
            key: keys.key(segment),
            cell: row.at(i).placed(offset),
        }
    }
}
