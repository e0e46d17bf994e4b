//! Which vectors the writers of a type may be of.
use std::marker::Brand;

/// Which vectors the writers of a type may be of.
///
/// A function that takes a writer of `with_writers` is generic in it, and needs nothing of it.
pub trait Tie {
    ghost use Rattle.std.specs.Prelude.{Option};
    ghost use Rattle.claim_core.specs.Word.{WordView};

    /// The claim word of the one vector that they are of. With `None` each may be of any.
    ghost tied: { Option WordView };
}

/// The tie of writers that may be of any vector.
#[derive(Clone, Copy, Debug)]
pub struct Untied;

impl Tie for Untied {
    ghost use Rattle.std.specs.Prelude.{None};

    ghost tied = { None };
}

impl Tie for Brand {
    ghost use Rattle.std.specs.Prelude.{None};

    ghost tied = { None };
}
