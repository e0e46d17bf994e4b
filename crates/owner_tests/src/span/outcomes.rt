// What a growth came to.
use grow_core::{AtLeast, GrowError, Grown, MendError, Never, Placed, Run};

// Why nothing was appended.
#[derive(Clone, Copy, PartialEq, Eq)]
pub(super) enum Why {
    Full(u64),
    NoMemory,
    Other,
}

// The run that was appended.
pub(super) type Outcome = Result<Run, Why>;

pub(super) fn reason_of<V: Drop, E: Drop>(refused: &GrowError<u64, V, E>) -> Why {
    match refused {
        GrowError::Full { size, .. } => Why::Full(*size),
        GrowError::NoMemory { .. } => Why::NoMemory,
        _ => Why::Other,
    }
}

pub(super) fn placed(pushed: Result<Placed<u64>, GrowError<u64, u64, Never>>) -> Outcome {
    let outcome = match &pushed {
        Ok(placed) => Ok(Run {
            from: placed.place(),
            n: 1,
        }),
        Err(refused) => Err(reason_of(refused)),
    };
    drop(pushed);
    outcome
}

pub(super) fn grown<V: Drop, E: Drop>(grown: Result<Grown<u64>, GrowError<u64, V, E>>) -> Outcome {
    let outcome = match &grown {
        Ok(grown) => Ok(grown.run()),
        Err(refused) => Err(reason_of(refused)),
    };
    drop(grown);
    outcome
}

pub(super) fn appended<V: Drop>(appended: Result<Run, GrowError<u64, V, Never>>) -> Outcome {
    let outcome = match &appended {
        Ok(run) => Ok(*run),
        Err(refused) => Err(reason_of(refused)),
    };
    drop(appended);
    outcome
}

pub(super) fn reached(reached: Result<AtLeast<u64>, GrowError<u64, (), Never>>) -> Outcome {
    let outcome = match &reached {
        Ok(AtLeast::Ran(run)) => Ok(run.run()),
        Ok(AtLeast::Enough { .. }) => Err(Why::Other),
        Err(refused) => Err(reason_of(refused)),
    };
    drop(reached);
    outcome
}

// Tests whether a place was mended. It is false if the place had a value already, and 7 came back.
pub(super) fn mended(mended: Result<Placed<u64>, (MendError<u64>, u64)>) -> Option<bool> {
    let is_new = match &mended {
        Ok(_placed) => Some(true),
        Err((MendError::Filled(_), 7)) => Some(false),
        Err(_refused) => None,
    };
    drop(mended);
    is_new
}
