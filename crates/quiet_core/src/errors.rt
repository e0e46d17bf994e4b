//! Why a call on a list was refused.
use std::error::Error;
use std::fmt;

/// The reason why the list did not grow. What was moved in comes back.
#[derive(Clone, Copy, Debug, PartialEq, Eq)]
pub enum QuietError {
    /// There was no memory. The members are unchanged.
    NoMemory,
    /// The length would be above the limit. Nothing is changed, and no memory was asked for.
    TooLong,
    /// A value could not be made, after `made` values were. The list has the length that was asked for, and
    /// its members from there on are broken.
    Refused { made: u64 },
}

impl fmt::Display for QuietError {
    ghost use Rattle.std.specs.Prelude.{Some};
    ghost use Rattle.quiet_core.specs.Errors.{quiet_error_text};

    ghost output = { λ error. Some (quiet_error_text error) };

    fn fmt<W: fmt::Write>(&self, f: &mut fmt::Formatter<W>) -> fmt::Result {
        match self {
            QuietError::NoMemory => write!(f, "out of memory"),
            QuietError::TooLong => write!(f, "longer than the limit"),
            QuietError::Refused { made } => write!(f, "a value was refused after {made} were made"),
        }
    }
}

impl Error for QuietError {}

/// The reason why a place has no value to lend.
#[derive(Clone, Copy, Debug, PartialEq, Eq)]
pub enum QuietAt {
    /// The place is not below the length, `size`.
    OutOfRange { size: u64 },
    /// The member is broken.
    Broken,
}

impl fmt::Display for QuietAt {
    ghost use Rattle.std.specs.Prelude.{Some};
    ghost use Rattle.quiet_core.specs.Errors.{quiet_at_text};

    ghost output = { λ error. Some (quiet_at_text error) };

    fn fmt<W: fmt::Write>(&self, f: &mut fmt::Formatter<W>) -> fmt::Result {
        match self {
            QuietAt::OutOfRange { size } => write!(f, "out of the {size} places"),
            QuietAt::Broken => write!(f, "broken"),
        }
    }
}

impl Error for QuietAt {}

/// The reason why a member was not mended.
#[derive(Clone, Copy, Debug, PartialEq, Eq)]
pub enum QuietMendError {
    /// The place is not below the length, `size`.
    OutOfRange { size: u64 },
    /// The member has a value.
    Filled,
}

impl fmt::Display for QuietMendError {
    ghost use Rattle.std.specs.Prelude.{Some};
    ghost use Rattle.quiet_core.specs.Errors.{quiet_mend_error_text};

    ghost output = { λ error. Some (quiet_mend_error_text error) };

    fn fmt<W: fmt::Write>(&self, f: &mut fmt::Formatter<W>) -> fmt::Result {
        match self {
            QuietMendError::OutOfRange { size } => write!(f, "out of the {size} places"),
            QuietMendError::Filled => write!(f, "filled"),
        }
    }
}

impl Error for QuietMendError {}

/// The reason why a list was not turned into a vector of its values. The list comes back.
#[derive(Clone, Copy, Debug, PartialEq, Eq)]
pub enum IntoVecError {
    /// There was no memory for the vector.
    NoMemory,
    /// The member at this place is broken. It is the first that is.
    Broken { place: u64 },
}

impl fmt::Display for IntoVecError {
    ghost use Rattle.std.specs.Prelude.{Some};
    ghost use Rattle.quiet_core.specs.Errors.{into_vec_error_text};

    ghost output = { λ error. Some (into_vec_error_text error) };

    fn fmt<W: fmt::Write>(&self, f: &mut fmt::Formatter<W>) -> fmt::Result {
        match self {
            IntoVecError::NoMemory => write!(f, "out of memory"),
            IntoVecError::Broken { place } => write!(f, "broken at place {place}"),
        }
    }
}

impl Error for IntoVecError {}
