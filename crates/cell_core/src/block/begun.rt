// The token of a cell that another call began.
ghost use Rattle.std.specs.Prelude.{◌≡◌};

use crate::slot::steps;
use std::fmt;
use std::marker::Model;

/// Evidence that another call began the cell at an offset. It has no bytes except its offset.
pub struct Begun {
    pub(crate) offset: u64,
    pub(crate) begun: steps::RawBegun,
}

impl Model for Begun {
    ghost use Rattle.cell_core.specs.Block.{BegunView, begun_coded};

    ghost Value = { BegunView };

    ghost coded = { begun_coded };

    ghost view = { λ b. record { offset = b.offset; cell = b.begun.of } };
}

// By hand, so that proofs of callers do not go into its fields.
impl Drop for Begun {
    #[inline(always)]
    fn drop(self) {
        let Self {
            offset: _,
            begun: _,
        } = self;
    }
}

impl fmt::Debug for Begun {
    fn fmt<W: fmt::Write>(&self, f: &mut fmt::Formatter<W>) -> fmt::Result {
        f.debug_struct("Begun")
            .field("offset", &self.offset)
            .finish_non_exhaustive()
    }
}

impl Begun {
    /// Returns the cell's offset in its block.
    pub fn offset(&self) -> u64
        ensures { result ≡ self.now.offset }
    {
        self.offset
    }
}
