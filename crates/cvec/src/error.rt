//! Why the program has not done what it was asked for.
ghost use Rattle.std.specs.Prelude.{◌≡◌};
ghost use Rattle.cvec.specs.ProgramError.{fault_meaning, run_meaning, status_of};

use engine_core::RunError;
use race_core::RaceError;
use script_core::ScriptError;
use std::error::Error;
use std::fmt;

/// The reason why the program has not done what it was asked for.
#[derive(Clone, Copy, Debug, PartialEq, Eq)]
pub enum ProgramError {
    /// A script was not run, or a text was not written.
    Run(RunError),
    /// A race was refused.
    Race(RaceError),
}

impl ProgramError {
    /// Returns the program's exit status.
    pub fn status(&self) -> u8
        ensures { result ≡ status_of self.now }
    {
        match self {
            ProgramError::Run(RunError::Script(_)) => 2,
            ProgramError::Run(RunError::NoMemory) | ProgramError::Race(RaceError::NoMemory) => 3,
            ProgramError::Run(RunError::Read | RunError::Write) => 4,
            ProgramError::Race(_) => 6,
        }
    }
}

impl fmt::Display for ProgramError {
    ghost use Rattle.std.specs.Prelude.{Some};
    ghost use Rattle.cvec.specs.ProgramError.{program_error_text};

    ghost output = { λ e. Some (program_error_text e) };

    fn fmt<W: fmt::Write>(&self, f: &mut fmt::Formatter<W>) -> fmt::Result {
        match self {
            ProgramError::Run(error) => write!(f, "{error}"),
            ProgramError::Race(RaceError::NoMemory) => write!(f, "memory"),
            ProgramError::Race(RaceError::BadSize) => write!(f, "race: fault 2"),
            ProgramError::Race(RaceError::Stuck) => write!(f, "race: fault 3"),
            ProgramError::Race(RaceError::Grow { .. }) => write!(f, "race: fault 4"),
        }
    }
}

impl Error for ProgramError {}

impl From<RunError> for ProgramError {
    ghost use Rattle.cvec.specs.declared.error.ProgramError.TheVariants.{Run};

    ghost from_gives = { λ run e. e ≡ Run run };

    fn from(error: RunError) -> Self {
        ProgramError::Run(error)
    }
}

impl From<RaceError> for ProgramError {
    ghost use Rattle.cvec.specs.declared.error.ProgramError.TheVariants.{Race};

    ghost from_gives = { λ race e. e ≡ Race race };

    fn from(error: RaceError) -> Self {
        ProgramError::Race(error)
    }
}

// What a fault of a script means.
fn fault_meaning(fault: &ScriptError) -> &'static str
    ensures { result.now ≡ fault_meaning fault.now }
{
    match fault {
        ScriptError::NoMemory => "out of memory",
        ScriptError::Empty { .. } => "there are no bytes",
        ScriptError::BadLimit { .. } => "the limit is not a number, or not from 1 to 65,536",
        ScriptError::BadLine { .. } => "a line is of no kind that is allowed at its position",
        ScriptError::BadName { .. } => {
            "a name is not one letter from a to z, or an item names no actor of the script"
        }
        ScriptError::TwiceNamed { .. } => "an earlier actor has the name",
        ScriptError::BadCommand { .. } => {
            "a command is unknown, has the wrong number of words, or has an argument that it cannot have"
        }
        ScriptError::NumberTooLarge { .. } => "a number is above 18,446,744,073,709,551,615",
        ScriptError::TooMany { .. } => {
            "there are more than 1,048,576 bytes, 16 actors, 1,000 commands of an actor, or 100,000 items"
        }
        ScriptError::NoItems { .. } => "the lines end without an items line",
        ScriptError::BadFirst { .. } => "the layout is not a number, or not from 1 to 8",
    }
}

// What the error of a run means.
pub(crate) fn run_meaning(error: &RunError) -> &'static str
    ensures { result.now ≡ run_meaning error.now }
{
    match error {
        RunError::Script(fault) => fault_meaning(fault),
        RunError::NoMemory => "out of memory",
        RunError::Read => "standard input failed",
        RunError::Write => "standard output failed or took no byte",
    }
}
