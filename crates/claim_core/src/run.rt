//! Results of a claim.
use std::error::Error;
use std::fmt;

/// The places that a call won: `n` of them, from `from` on.
#[derive(Clone, Copy, Debug, PartialEq, Eq)]
pub struct Run {
    pub from: u64,
    pub n: u64,
}

/// The size differed from what the caller expected. Nothing was claimed.
#[derive(Clone, Copy, Debug, PartialEq, Eq)]
pub struct Moved {
    pub size: u64,
}

/// The size was large enough. Nothing was claimed.
#[derive(Clone, Copy, Debug, PartialEq, Eq)]
pub struct Enough {
    pub size: u64,
}

impl fmt::Display for Moved {
    ghost use Rattle.std.specs.Prelude.{Some};
    ghost use Rattle.claim_core.specs.Errors.{moved_text};

    ghost output = { λ moved. Some (moved_text moved) };

    fn fmt<W: fmt::Write>(&self, f: &mut fmt::Formatter<W>) -> fmt::Result {
        write!(f, "the size has moved to {}", self.size)
    }
}

impl Error for Moved {}

impl fmt::Display for Enough {
    ghost use Rattle.std.specs.Prelude.{Some};
    ghost use Rattle.claim_core.specs.Errors.{enough_text};

    ghost output = { λ enough. Some (enough_text enough) };

    fn fmt<W: fmt::Write>(&self, f: &mut fmt::Formatter<W>) -> fmt::Result {
        write!(f, "the size is already {}", self.size)
    }
}

impl Error for Enough {}
