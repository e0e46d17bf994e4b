// The token of a filled cell.
ghost use Rattle.std.specs.Prelude.{◌≡◌};

use crate::slot::steps::Written;
use std::fmt;
use std::marker::Model;

// `grow_core` has a `Placed` too: this one, with the key of its segment.
/// Evidence that the cell at an offset holds a value, which it keeps. It has no bytes except its offset.
pub struct Placed<T> {
    pub(crate) offset: u64,
    pub(crate) written: Written<T>,
}

impl<T> Model for Placed<T> {
    ghost use Rattle.cell_core.specs.Block.{PlacedView, placed_coded};

    ghost Value = { PlacedView T };

    ghost coded = { placed_coded T.code };

    ghost view = { λ p. record {
      offset = p.offset;
      value = p.written.value;
      name = p.written.of;
      found = p.written.found;
    } };
}

// By hand, so that proofs of callers do not go into its fields.
impl<T> Drop for Placed<T> {
    #[inline(always)]
    fn drop(self) {
        let Self {
            offset: _,
            written: _,
        } = self;
    }
}

impl<T> fmt::Debug for Placed<T> {
    fn fmt<W: fmt::Write>(&self, f: &mut fmt::Formatter<W>) -> fmt::Result {
        f.debug_struct("Placed")
            .field("offset", &self.offset)
            .finish_non_exhaustive()
    }
}

impl<T> Placed<T> {
    /// Returns the cell's offset in its block.
    pub fn offset(&self) -> u64
        ensures { result ≡ self.now.offset }
    {
        self.offset
    }

    /// Duplicates the token.
    pub fn again(&self) -> Placed<T>
        ensures { result ≡ self.now }
    {
        Placed {
            offset: self.offset,
            written: self.written.again(),
        }
    }
}
