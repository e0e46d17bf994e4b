//! Why a run ends without its whole text.
ghost use Rattle.std.specs.Prelude.{◌≡◌};
ghost use Rattle.engine_core.specs.RunError.{number_of};

use script_core::{ScriptError, WriteFault};
use std::alloc::AllocError;
use std::error::Error;
use std::fmt;

/// The reason why a run ended without its whole text. `NoMemory` and `Read` may come for any input.
#[derive(Clone, Copy, Debug, PartialEq, Eq)]
pub enum RunError {
    /// The input is not a script. The fault is never `NoMemory`.
    Script(ScriptError),
    NoMemory,
    /// The reader failed, or was interrupted too often.
    Read,
    /// The writer failed, took no byte, or was interrupted too often.
    Write,
}

impl RunError {
    /// Returns the error's number, from 1 to 4.
    pub fn number(&self) -> u8
        ensures { result ≡ number_of self.now }
    {
        match self {
            RunError::Script(_) => 1,
            RunError::NoMemory => 2,
            RunError::Read => 3,
            RunError::Write => 4,
        }
    }
}

impl fmt::Display for RunError {
    ghost use Rattle.std.specs.Prelude.{Some};
    ghost use Rattle.engine_core.specs.RunError.{error_text};

    ghost output = { λ e. Some (error_text e) };

    fn fmt<W: fmt::Write>(&self, f: &mut fmt::Formatter<W>) -> fmt::Result {
        match self {
            RunError::Script(fault) => write!(f, "{fault}"),
            RunError::NoMemory => write!(f, "memory"),
            RunError::Read => write!(f, "read fault"),
            RunError::Write => write!(f, "write fault"),
        }
    }
}

impl Error for RunError {}

impl From<AllocError> for RunError {
    ghost use Rattle.engine_core.specs.declared.error.RunError.TheVariants.{NoMemory};

    ghost from_gives = { λ _ e. e ≡ NoMemory };

    fn from(_: AllocError) -> Self {
        RunError::NoMemory
    }
}

impl From<WriteFault> for RunError {
    ghost use Rattle.engine_core.specs.declared.error.RunError.TheVariants.{Write};

    ghost from_gives = { λ _ e. e ≡ Write };

    fn from(_: WriteFault) -> Self {
        RunError::Write
    }
}
