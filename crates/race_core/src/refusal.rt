//! Why a race is refused.
ghost use Rattle.std.specs.Prelude.{◌≡◌};
ghost use Rattle.grow_core.specs.Growth.{IsNotMoved};
ghost use Rattle.race_core.specs.Race.{IsReportedAs, IsWorkers, race_number};

use grow_core::{GrowError, Never};
use span_core::Refusal;
use std::alloc::AllocError;
use thiserror::Error;

/// The reason why a race has no report. All workers that were started have ended.
#[derive(Clone, Copy, Debug, PartialEq, Eq, Error)]
pub enum RaceError {
    /// Memory was refused, or a thread could not be started.
    #[error("out of memory, or a thread could not be started")]
    NoMemory,
    /// The number of workers is not from 1 to 64, or that of values not from 1 to 100,000. Nothing was
    /// started.
    #[error("a race has 1 to 64 workers, and 1 to 100000 values of each")]
    BadSize,
    /// The gate refused a worker.
    #[error("the gate refused a worker")]
    Stuck,
    /// A growth was refused: number 2 if the vector was full, 5 if a place was taken.
    #[error("growth refusal {number}")]
    Grow { number: u8 },
}

impl RaceError {
    /// Returns the number that the program prints.
    pub fn number(&self) -> u8
        ensures { result ≡ race_number self.now }
    {
        match self {
            RaceError::NoMemory => 1,
            RaceError::BadSize => 2,
            RaceError::Stuck => 3,
            RaceError::Grow { .. } => 4,
        }
    }
}

impl From<AllocError> for RaceError {
    ghost use Rattle.race_core.specs.declared.refusal.RaceError.TheVariants.{NoMemory};

    ghost from_gives = { λ _ e. e ≡ NoMemory };

    fn from(_: AllocError) -> Self {
        RaceError::NoMemory
    }
}

impl From<Refusal<RaceError>> for RaceError {
    ghost use Rattle.race_core.specs.Race.{race_refusal};

    ghost from_gives = { λ refusal e. e ≡ race_refusal refusal };

    fn from(refusal: Refusal<RaceError>) -> Self {
        match refusal {
            Refusal::NoMemory | Refusal::NoThread => RaceError::NoMemory,
            Refusal::Stuck => RaceError::Stuck,
            Refusal::Worker(error) => error,
        }
    }
}

/// Returns what a race reports of a refused growth: number 2 for a full vector, 5 for a taken place, and
/// otherwise out of memory.
pub fn race_error_of(error: GrowError<u64, u64, Never>) -> RaceError
    requires { IsNotMoved error }
    ensures reported { IsReportedAs error result }
    ensures workers { IsWorkers result }
{
    match error {
        GrowError::NoMemory { back: _ } => RaceError::NoMemory,
        GrowError::Full { .. } => RaceError::Grow { number: 2 },
        GrowError::Taken { found, .. } => {
            drop(found);
            RaceError::Grow { number: 5 }
        }
        GrowError::Moved { .. } => unreachable!(),
        GrowError::Refused { cause, .. } => match cause {},
    }
}
