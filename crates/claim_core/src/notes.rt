//! The events that a step logs if it claims nothing.
use std::marker::Brand;

/// For each size the events that a step logs if it finds it and claims nothing: a refusal, for example.
/// A call that passes `Brand` chooses them.
pub trait Notes {
    ghost use Rattle.std.specs.Prelude.{ℕ};
    ghost use Rattle.claim_core.specs.History.{Log};

    ghost note: { ℕ → Log };
}

impl Notes for Brand {
    ghost use Rattle.claim_core.specs.History.{no_note};

    ghost note = { no_note };
}

/// No event.
pub(crate) struct NoNote;

impl Notes for NoNote {
    ghost use Rattle.claim_core.specs.History.{no_note};

    ghost note = { no_note };
}

/// The size is asked for.
pub(crate) struct SizeNote;

impl Notes for SizeNote {
    ghost use Rattle.claim_core.specs.History.{size_note};

    ghost note = { size_note };
}
