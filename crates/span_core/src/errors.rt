//! Why a loop was refused.
ghost use Rattle.std.specs.Prelude.{◌≡◌};
ghost use Rattle.span_core.specs.declared.errors.Refusal.TheVariants.{NoMemory};

use std::alloc::AllocError;
use std::error::Error;
use std::fmt;

/// The reason why a loop has no result. All workers that were started have ended.
#[derive(Clone, Copy, Debug, PartialEq, Eq)]
pub enum ParError {
    /// There was no memory, or a thread couldn't be started.
    NoMemory = 1,
    /// The number of workers is not from 1 to 64. Nothing was started.
    BadWorkers = 2,
    /// The gate refused a worker.
    Stuck = 3,
}

impl fmt::Display for ParError {
    ghost use Rattle.std.specs.Prelude.{Some};
    ghost use Rattle.span_core.specs.Errors.{par_error_text};

    ghost output = { λ error. Some (par_error_text error) };

    fn fmt<W: fmt::Write>(&self, f: &mut fmt::Formatter<W>) -> fmt::Result {
        match self {
            ParError::NoMemory => write!(f, "out of memory"),
            ParError::BadWorkers => write!(f, "the number of workers is not from 1 to 64"),
            ParError::Stuck => write!(f, "the gate refused a worker"),
        }
    }
}

impl Error for ParError {}

/// The reason why a range of workers has no result. All workers that were started have ended.
#[derive(Clone, Copy, Debug, PartialEq, Eq)]
pub enum Refusal<E> {
    /// There was no memory. From `with_hands` and `run_gated` also: a thread couldn't be started.
    NoMemory,
    /// A thread couldn't be started, so nobody worked. Only `with_writers` returns it.
    NoThread,
    /// The gate refused a worker.
    Stuck,
    /// A worker refused.
    Worker(E),
}

impl<E> From<AllocError> for Refusal<E> {
    ghost from_gives = { λ _ e. e ≡ NoMemory };

    fn from(_error: AllocError) -> Self {
        Self::NoMemory
    }
}

impl<E: fmt::Display> fmt::Display for Refusal<E> {
    ghost use Rattle.span_core.specs.Errors.{refusal_text};

    ghost output = { refusal_text E.output };

    fn fmt<W: fmt::Write>(&self, f: &mut fmt::Formatter<W>) -> fmt::Result {
        match self {
            Refusal::NoMemory => write!(f, "out of memory"),
            Refusal::NoThread => write!(f, "a thread could not be started"),
            Refusal::Stuck => write!(f, "the gate refused a worker"),
            Refusal::Worker(error) => write!(f, "{error}"),
        }
    }
}

impl<E: fmt::Display + fmt::Debug + Drop> Error for Refusal<E> {}
