//! Why a text is not a script.
ghost use Rattle.std.specs.Prelude.{◌≡◌};
ghost use Rattle.script_core.specs.Reading.{script_error};
ghost use Rattle.script_core.specs.ScriptError.{number_of, line_of, error_at};

use std::alloc::{AllocError, AllocFailed};
use std::error::Error;
use std::fmt;

/// The reason why a text was not read: its first fault, with the number of its line from 1, or out of memory.
#[derive(Clone, Copy, Debug, PartialEq, Eq)]
pub enum ScriptError {
    NoMemory,
    /// There are no bytes.
    Empty { line: u64 },
    /// The limit is not a number, or not from 1 to 65,536.
    BadLimit { line: u64 },
    /// The line is of no kind that is allowed here.
    BadLine { line: u64 },
    /// A name is not one letter from a to z, or an item names no actor of the script.
    BadName { line: u64 },
    /// An earlier actor has the name.
    TwiceNamed { line: u64 },
    /// A command is unknown, has the wrong number of words, or has an argument that it cannot have.
    BadCommand { line: u64 },
    /// A number is above 2^64 - 1.
    NumberTooLarge { line: u64 },
    /// There are too many bytes, actors, commands or items.
    TooMany { line: u64 },
    /// The lines end without an items line.
    NoItems { line: u64 },
    /// The layout is not a number, or not from 1 to 8.
    BadFirst { line: u64 },
}

impl ScriptError {
    /// Returns the fault's number, from 1 to 11.
    pub fn number(&self) -> u8
        ensures { result ≡ number_of self.now }
    {
        match self {
            ScriptError::NoMemory => 1,
            ScriptError::Empty { .. } => 2,
            ScriptError::BadLimit { .. } => 3,
            ScriptError::BadLine { .. } => 4,
            ScriptError::BadName { .. } => 5,
            ScriptError::TwiceNamed { .. } => 6,
            ScriptError::BadCommand { .. } => 7,
            ScriptError::NumberTooLarge { .. } => 8,
            ScriptError::TooMany { .. } => 9,
            ScriptError::NoItems { .. } => 10,
            ScriptError::BadFirst { .. } => 11,
        }
    }

    /// Returns the line of the fault. `NoMemory` has none.
    pub fn line(&self) -> Option<u64>
        ensures { result ≡ line_of self.now }
    {
        match self {
            ScriptError::NoMemory => None,
            ScriptError::Empty { line }
            | ScriptError::BadLimit { line }
            | ScriptError::BadLine { line }
            | ScriptError::BadName { line }
            | ScriptError::TwiceNamed { line }
            | ScriptError::BadCommand { line }
            | ScriptError::NumberTooLarge { line }
            | ScriptError::TooMany { line }
            | ScriptError::NoItems { line }
            | ScriptError::BadFirst { line } => Some(*line),
        }
    }
}

impl fmt::Display for ScriptError {
    ghost use Rattle.std.specs.Prelude.{Some};
    ghost use Rattle.script_core.specs.ScriptError.{fault_text};

    ghost output = { λ e. Some (fault_text e) };

    fn fmt<W: fmt::Write>(&self, f: &mut fmt::Formatter<W>) -> fmt::Result {
        match self.line() {
            None => write!(f, "memory"),
            Some(line) => write!(f, "line {line}: fault {}", self.number()),
        }
    }
}

impl Error for ScriptError {}

impl From<AllocError> for ScriptError {
    ghost use Rattle.script_core.specs.declared.error.ScriptError.TheVariants.{NoMemory};

    ghost from_gives = { λ _ e. e ≡ NoMemory };

    fn from(_e: AllocError) -> ScriptError {
        ScriptError::NoMemory
    }
}

impl<T: Drop> From<AllocFailed<T>> for ScriptError {
    ghost use Rattle.script_core.specs.declared.error.ScriptError.TheVariants.{NoMemory};

    ghost from_gives = { λ _ e. e ≡ NoMemory };

    fn from(_e: AllocFailed<T>) -> ScriptError {
        ScriptError::NoMemory
    }
}

// What may be wrong inside a line.
#[derive(Clone, Copy, Debug, PartialEq, Eq)]
pub(crate) enum Fault {
    BadLimit,
    BadLine,
    BadName,
    TwiceNamed,
    BadCommand,
    NumberTooLarge,
    TooMany,
    BadFirst,
}

// Why a line was not read to its end.
#[derive(Clone, Copy, Debug, PartialEq, Eq)]
pub(crate) enum Stop {
    Memory,
    Fault(Fault),
}

impl Stop {
    // The same, with the number of the line.
    pub(crate) fn at(self, line: u64) -> ScriptError
        ensures { result ≡ script_error line self }
    {
        match self {
            Stop::Memory => ScriptError::NoMemory,
            Stop::Fault(fault) => fault.at(line),
        }
    }
}

impl Fault {
    pub(crate) fn at(self, line: u64) -> ScriptError
        ensures { result ≡ error_at line self }
    {
        match self {
            Fault::BadLimit => ScriptError::BadLimit { line },
            Fault::BadLine => ScriptError::BadLine { line },
            Fault::BadName => ScriptError::BadName { line },
            Fault::TwiceNamed => ScriptError::TwiceNamed { line },
            Fault::BadCommand => ScriptError::BadCommand { line },
            Fault::NumberTooLarge => ScriptError::NumberTooLarge { line },
            Fault::TooMany => ScriptError::TooMany { line },
            Fault::BadFirst => ScriptError::BadFirst { line },
        }
    }
}

impl From<Fault> for Stop {
    ghost use Rattle.script_core.specs.declared.error.Stop.TheVariants as stops;

    ghost from_gives = { λ fault stop. stop ≡ stops.Fault fault };

    fn from(fault: Fault) -> Stop {
        Stop::Fault(fault)
    }
}

impl From<AllocError> for Stop {
    ghost use Rattle.script_core.specs.declared.error.Stop.TheVariants as stops;

    ghost from_gives = { λ _ stop. stop ≡ stops.Memory };

    fn from(_e: AllocError) -> Stop {
        Stop::Memory
    }
}

impl<T: Drop> From<AllocFailed<T>> for Stop {
    ghost use Rattle.script_core.specs.declared.error.Stop.TheVariants as stops;

    ghost from_gives = { λ _ stop. stop ≡ stops.Memory };

    fn from(_e: AllocFailed<T>) -> Stop {
        Stop::Memory
    }
}
