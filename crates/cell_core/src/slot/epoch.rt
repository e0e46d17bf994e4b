// A period: until it ends, the cells that an exclusive owner broke stay broken. It is a lifetime of the
// logic, and has no bytes.
ghost use Rattle.std.specs.Prelude.{◌≡◌, ℕ, [], ◌∷◌};
ghost use base.Fraction.{full_share};
ghost use base.Fml.{flft, fdead};
ghost use base.Before.{before};
ghost use denote.Sharing.{said};

use std::marker::{Model, PhantomData};

// The whole of the lifetime's token, which is the right to end the lifetime.
pub(crate) struct RawEpoch {
    marker: PhantomData<u8>,
    pub(crate) ghost of: { ℕ },
}

impl Model for RawEpoch {
    ghost also_owns = { λ e. flft (e.of ∷ []) full_share };

    ghost also_shares = { λ e _ κ. before κ (e.of ∷ []) };
}

// Evidence that the lifetime has ended.
pub(crate) struct RawEnded {
    marker: PhantomData<u8>,
    pub(crate) ghost of: { ℕ },
}

impl Model for RawEnded {
    ghost also_owns = { λ e. fdead (e.of ∷ []) };

    ghost also_shares = { λ e _ κ. said (fdead (e.of ∷ [])) κ };
}

impl RawEpoch {
    pub(crate) fn begin() -> RawEpoch {
        RawEpoch {
            marker: PhantomData,
        }
    }

    pub(crate) fn end(self) -> RawEnded
        ensures { result.of ≡ self.of }
    {
        let RawEpoch { marker: _ } = self;
        RawEnded {
            marker: PhantomData,
        }
    }
}

impl RawEnded {
    pub(crate) fn again(&self) -> RawEnded
        ensures { result.of ≡ self.now.of }
    {
        RawEnded {
            marker: PhantomData,
        }
    }
}

impl Drop for RawEpoch {
    fn drop(self) {
        let Self { marker: _ } = self;
    }
}

impl Drop for RawEnded {
    fn drop(self) {
        let Self { marker: _ } = self;
    }
}

unsafe impl Send for RawEpoch {}

unsafe impl Sync for RawEpoch {}

unsafe impl Send for RawEnded {}

unsafe impl Sync for RawEnded {}
