// An epoch: while it lasts, what its owner broke stays broken.
ghost use Rattle.std.specs.Prelude.{◌≡◌};

use crate::slot::epoch;
use std::marker::Model;

/// A period: until it ends, the cells that an exclusive owner broke stay broken. It has no bytes.
pub struct Epoch {
    pub(crate) epoch: epoch::RawEpoch,
}

impl Model for Epoch {
    ghost use Rattle.std.specs.Prelude.{[], ◌∷◌};
    ghost use base.Stored.{coded_list, coded_ℕ};
    ghost use base.Fml.{Lft};

    ghost Value = { Lft };

    ghost coded = { coded_list coded_ℕ };

    ghost view = { λ e. e.epoch.of ∷ [] };
}

// By hand, so that proofs of callers do not go into its fields.
impl Drop for Epoch {
    #[inline(always)]
    fn drop(self) {
        let Self { epoch: _ } = self;
    }
}

impl Epoch {
    /// Begins an epoch.
    pub fn new() -> Epoch {
        Epoch {
            epoch: epoch::RawEpoch::begin(),
        }
    }

    /// Ends the epoch. Others may then mend what was broken in it.
    pub fn end(self) -> EndedEpoch
        ensures { result ≡ self }
    {
        let Epoch { epoch } = self;
        EndedEpoch { ended: epoch.end() }
    }
}

/// Evidence that an epoch has ended. It has no bytes.
pub struct EndedEpoch {
    pub(crate) ended: epoch::RawEnded,
}

impl Model for EndedEpoch {
    ghost use Rattle.std.specs.Prelude.{[], ◌∷◌};
    ghost use base.Stored.{coded_list, coded_ℕ};
    ghost use base.Fml.{Lft};

    ghost Value = { Lft };

    ghost coded = { coded_list coded_ℕ };

    ghost view = { λ e. e.ended.of ∷ [] };
}

// By hand, so that proofs of callers do not go into its fields.
impl Drop for EndedEpoch {
    #[inline(always)]
    fn drop(self) {
        let Self { ended: _ } = self;
    }
}

impl EndedEpoch {
    /// Duplicates the evidence.
    pub fn again(&self) -> EndedEpoch
        ensures { result ≡ self.now }
    {
        EndedEpoch {
            ended: self.ended.again(),
        }
    }
}
