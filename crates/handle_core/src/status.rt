//! Why a call was refused.
ghost use Rattle.std.specs.Prelude.{◌≡◌, pos};
ghost use Rattle.handle_core.specs.Status.{IsDone, number_of};
ghost use Rattle.handle_core.specs.Outcomes.{growth_status, read_status, mend_status, reserve_status, close_status};
ghost use Rattle.handle_core.specs.Outcomes.{member_status};

use grow_core::{AtError, GrowError, MendError, Never, ReserveError};
use quiet_core::QuietAt;

/// The reason why a call did not do what it was asked.
#[derive(Clone, Copy)]
pub enum Status {
    NoMemory,
    BadLimit,
    Moved,
    BadHandle,
    BadNumber,
    NotWhole,
    BadSize,
    OutOfRange,
    Pending,
    Broken,
    Full,
    Taken,
    Filled,
    OtherVector,
}

/// The number of a call that did what it was asked.
pub const DONE: i32 = 0;

impl Status {
    /// Returns the number of the reason.
    pub fn code(self) -> i32
        ensures number { result ≡ pos (number_of self) }
        ensures refused { ¬ IsDone result }
    {
        match self {
            Status::NoMemory => 1,
            Status::BadLimit => 2,
            Status::Moved => 3,
            Status::BadHandle => 4,
            Status::BadNumber => 5,
            Status::NotWhole => 6,
            Status::BadSize => 7,
            Status::OutOfRange => 8,
            Status::Pending => 9,
            Status::Broken => 10,
            Status::Full => 11,
            Status::Taken => 12,
            Status::Filled => 13,
            Status::OtherVector => 14,
        }
    }
}

// The status of a refused growth.
pub(crate) fn of_growth<T: Drop, V: Drop>(refused: GrowError<T, V, Never>) -> Status
    ensures { result ≡ growth_status refused }
{
    let status = match &refused {
        GrowError::NoMemory { .. } => Status::NoMemory,
        GrowError::Full { .. } => Status::Full,
        GrowError::Moved { .. } => Status::Moved,
        GrowError::Refused { .. } | GrowError::Taken { .. } => Status::Taken,
    };
    drop(refused);
    status
}

// The status of a refused read.
pub(crate) fn of_read(refused: AtError) -> Status
    ensures { result ≡ read_status refused }
{
    let status = match &refused {
        AtError::OutOfRange { .. } => Status::OutOfRange,
        AtError::Pending => Status::Pending,
        AtError::Broken(_) => Status::Broken,
    };
    drop(refused);
    status
}

// The status of a refused mend.
pub(crate) fn of_mend<T: Drop>(refused: MendError<T>) -> Status
    ensures { result ≡ mend_status refused }
{
    let status = match &refused {
        MendError::OutOfRange { .. } => Status::OutOfRange,
        MendError::Pending => Status::Pending,
        MendError::Filled(_) => Status::Filled,
    };
    drop(refused);
    status
}

// The status of a refused call for room.
pub(crate) fn of_reserve(refused: ReserveError) -> Status
    ensures { result ≡ reserve_status refused }
{
    match refused {
        ReserveError::NoMemory => Status::NoMemory,
        ReserveError::TooLong => Status::Full,
    }
}

// The status of a refused read of a member.
pub(crate) fn of_member(refused: QuietAt) -> Status
    ensures { result ≡ member_status refused }
{
    match refused {
        QuietAt::OutOfRange { .. } => Status::OutOfRange,
        QuietAt::Broken => Status::Broken,
    }
}

// The status of a vector that was not closed, by whether its hand has all shares.
pub(crate) fn of_close(whole: bool) -> Status
    ensures { result ≡ close_status whole }
{
    if whole {
        // Somebody else owns a part of the vector, which does not come.
        Status::Taken
    } else {
        Status::NotWhole
    }
}
