//! Why a play or a machine isn't made.
use std::error::Error;
use std::fmt;

/// The reason why a schedule was not played. Refusals 2, 3 and 4 are looked for in this order, before
/// anything is played; 1 comes last.
#[derive(Clone, Copy, Debug, PartialEq, Eq)]
pub enum PlayError {
    NoMemory = 1,
    /// The limit isn't from 1 to 2^40.
    BadLimit = 2,
    /// A `fail` has its construction refused at a place that it doesn't ask for.
    BadCommand = 3,
    /// An item is of an actor without a program.
    BadActor = 4,
}

impl fmt::Display for PlayError {
    ghost use Rattle.std.specs.Prelude.{Some};
    ghost use Rattle.step_core.specs.Errors.{play_error_text};

    ghost output = { λ error. Some (play_error_text error) };

    fn fmt<W: fmt::Write>(&self, f: &mut fmt::Formatter<W>) -> fmt::Result {
        match self {
            PlayError::NoMemory => write!(f, "out of memory"),
            PlayError::BadLimit => write!(f, "the limit is not from 1 to 1099511627776"),
            PlayError::BadCommand => write!(
                f,
                "a refused construction is past the end of its call"
            ),
            PlayError::BadActor => write!(f, "an item is of an actor without a program"),
        }
    }
}

impl Error for PlayError {}

/// The reason why a machine was not made. Refusal 2 is looked for before 3, and 1 comes last.
#[derive(Clone, Copy, Debug, PartialEq, Eq)]
pub enum MakeError {
    NoMemory = 1,
    /// The limit isn't from 1 to 2^40.
    BadLimit = 2,
    /// A `fail` has its construction refused at a place that it doesn't ask for.
    BadCommand = 3,
}

impl fmt::Display for MakeError {
    ghost use Rattle.std.specs.Prelude.{Some};
    ghost use Rattle.step_core.specs.Errors.{make_error_text};

    ghost output = { λ error. Some (make_error_text error) };

    fn fmt<W: fmt::Write>(&self, f: &mut fmt::Formatter<W>) -> fmt::Result {
        match self {
            MakeError::NoMemory => write!(f, "out of memory"),
            MakeError::BadLimit => write!(f, "the limit is not from 1 to 1099511627776"),
            MakeError::BadCommand => write!(
                f,
                "a refused construction is past the end of its call"
            ),
        }
    }
}

impl Error for MakeError {}

impl From<MakeError> for PlayError {
    ghost use Rattle.std.specs.Prelude.{◌≡◌};
    ghost use Rattle.step_core.specs.Errors.{play_error_of};

    ghost from_gives = { λ made error. error ≡ play_error_of made };

    fn from(made: MakeError) -> Self {
        match made {
            MakeError::NoMemory => PlayError::NoMemory,
            MakeError::BadLimit => PlayError::BadLimit,
            MakeError::BadCommand => PlayError::BadCommand,
        }
    }
}
