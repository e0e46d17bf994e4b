// The token of a cell that was broken.
ghost use Rattle.std.specs.Prelude.{◌≡◌};

use crate::slot::steps::RawBroken;
use std::fmt;
use std::marker::Model;

// `grow_core` has a `Spoilt` too: this one, with the key of its segment.
/// Evidence that the cell at an offset was once broken. It has no bytes except its offset.
pub struct Spoilt {
    pub(crate) offset: u64,
    pub(crate) broken: RawBroken,
}

impl Model for Spoilt {
    ghost use Rattle.cell_core.specs.Block.{SpoiltView};

    ghost Value = { SpoiltView };

    ghost view = { λ s. record { offset = s.offset; name = s.broken.of } };
}

// By hand, so that proofs of callers do not go into its fields.
impl Drop for Spoilt {
    #[inline(always)]
    fn drop(self) {
        let Self {
            offset: _,
            broken: _,
        } = self;
    }
}

impl fmt::Debug for Spoilt {
    fn fmt<W: fmt::Write>(&self, f: &mut fmt::Formatter<W>) -> fmt::Result {
        f.debug_struct("Spoilt")
            .field("offset", &self.offset)
            .finish_non_exhaustive()
    }
}

impl Spoilt {
    /// Returns the cell's offset in its block.
    pub fn offset(&self) -> u64
        ensures { result ≡ self.now.offset }
    {
        self.offset
    }

    /// Duplicates the token.
    pub fn again(&self) -> Spoilt
        ensures { result ≡ self.now }
    {
        Spoilt {
            offset: self.offset,
            broken: self.broken.again(),
        }
    }
}
