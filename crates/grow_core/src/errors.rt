//! Why a call was refused.
use crate::grown::Grown;
use crate::token::{Found, Placed, Spoilt};
use claim_core::Run;
use std::error::Error;
use std::fmt;

/// The cause that never comes.
#[derive(Clone, Copy)]
pub enum Never {}

/// The reason why a growth was refused. `V` is what was moved in, and `E` the cause of a refused
/// construction.
#[derive(Drop)]
pub enum GrowError<T, V, E> {
    /// There was no memory. Nothing was claimed.
    NoMemory { back: V },
    /// The size and the new places are together above the limit. Nothing was claimed.
    Full { size: u64, back: V },
    /// Another caller claimed first, so the size differed. Nothing was claimed.
    Moved { size: u64, back: V },
    /// A value could not be made. The run is claimed: its first places have the values that were
    /// made, and the others are broken.
    Refused { run: Run, made: Grown<T>, cause: E },
    /// A place of the run was not empty. No call returns this.
    Taken { place: u64, found: Found<T> },
}

/// The reason why `at` returns no value.
#[derive(Debug, Drop)]
pub enum AtError {
    /// The place is not below the size.
    OutOfRange { size: u64 },
    /// The place is claimed, but not filled yet.
    Pending,
    /// The place is broken.
    Broken(Spoilt),
}

/// The reason why a place was not mended.
#[derive(Drop)]
pub enum MendError<T> {
    /// The place is not below the size.
    OutOfRange { size: u64 },
    /// The place is claimed but not finished yet, or another caller is mending it.
    Pending,
    /// The place has a value.
    Filled(Placed<T>),
}

/// The reason why no room was reserved.
#[derive(Clone, Copy, Debug, PartialEq, Eq)]
pub enum ReserveError {
    /// There was no memory. Segments that were installed before stay.
    NoMemory,
    /// The places are more than the limit. No memory was asked for.
    TooLong,
}

impl<T, V, E> fmt::Display for GrowError<T, V, E> {
    ghost use Rattle.std.specs.Prelude.{Some};
    ghost use Rattle.grow_core.specs.Errors.{grow_error_text};

    ghost output = { λ error. Some (grow_error_text error) };

    fn fmt<W: fmt::Write>(&self, f: &mut fmt::Formatter<W>) -> fmt::Result {
        match self {
            GrowError::NoMemory { back: _ } => write!(f, "out of memory"),
            GrowError::Full { size, back: _ } => write!(f, "no room at size {size}"),
            GrowError::Moved { size, back: _ } => write!(f, "the size has moved to {size}"),
            GrowError::Refused { made, .. } => {
                write!(f, "a value was refused after {} were made", made.run.n)
            }
            GrowError::Taken { place, found: _ } => write!(f, "place {place} is taken"),
        }
    }
}

// Shows the refusal by name, and neither the values nor the cause, which need not implement `Debug`.
impl<T, V, E> fmt::Debug for GrowError<T, V, E> {
    fn fmt<W: fmt::Write>(&self, f: &mut fmt::Formatter<W>) -> fmt::Result {
        match self {
            GrowError::NoMemory { back: _ } => write!(f, "NoMemory"),
            GrowError::Full { size, back: _ } => write!(f, "Full {{ size: {size}, .. }}"),
            GrowError::Moved { size, back: _ } => write!(f, "Moved {{ size: {size}, .. }}"),
            GrowError::Refused { made, .. } => write!(f, "Refused {{ made: {}, .. }}", made.run.n),
            GrowError::Taken { place, found: _ } => write!(f, "Taken {{ place: {place}, .. }}"),
        }
    }
}

impl<T: Drop, V: Drop, E: Drop> Error for GrowError<T, V, E> {}

impl fmt::Display for AtError {
    ghost use Rattle.std.specs.Prelude.{Some};
    ghost use Rattle.grow_core.specs.Errors.{at_error_text};

    ghost output = { λ error. Some (at_error_text error) };

    fn fmt<W: fmt::Write>(&self, f: &mut fmt::Formatter<W>) -> fmt::Result {
        match self {
            AtError::OutOfRange { size } => write!(f, "not below size {size}"),
            AtError::Pending => write!(f, "not filled yet"),
            AtError::Broken(_) => write!(f, "broken"),
        }
    }
}

impl Error for AtError {}

impl<T> fmt::Display for MendError<T> {
    ghost use Rattle.std.specs.Prelude.{Some};
    ghost use Rattle.grow_core.specs.Errors.{mend_error_text};

    ghost output = { λ error. Some (mend_error_text error) };

    fn fmt<W: fmt::Write>(&self, f: &mut fmt::Formatter<W>) -> fmt::Result {
        match self {
            MendError::OutOfRange { size } => write!(f, "not below size {size}"),
            MendError::Pending => write!(f, "not finished yet"),
            MendError::Filled(_) => write!(f, "filled"),
        }
    }
}

impl<T> fmt::Debug for MendError<T> {
    fn fmt<W: fmt::Write>(&self, f: &mut fmt::Formatter<W>) -> fmt::Result {
        match self {
            MendError::OutOfRange { size } => write!(f, "OutOfRange {{ size: {size} }}"),
            MendError::Pending => write!(f, "Pending"),
            MendError::Filled(placed) => write!(f, "Filled {{ place: {}, .. }}", placed.place()),
        }
    }
}

impl<T: Drop> Error for MendError<T> {}

impl fmt::Display for ReserveError {
    ghost use Rattle.std.specs.Prelude.{Some};
    ghost use Rattle.grow_core.specs.Errors.{reserve_error_text};

    ghost output = { λ error. Some (reserve_error_text error) };

    fn fmt<W: fmt::Write>(&self, f: &mut fmt::Formatter<W>) -> fmt::Result {
        match self {
            ReserveError::NoMemory => write!(f, "out of memory"),
            ReserveError::TooLong => write!(f, "longer than the limit"),
        }
    }
}

impl Error for ReserveError {}
