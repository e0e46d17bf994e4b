// Calls of a list and looks at it, as data.
use quiet_core::{Quiet, QuietAt, QuietError, QuietMendError};
use std::alloc::Global;

// Each call with what it returns, and each look with what it shows.
pub(super) enum Step {
    Push(u64, Result<u64, (QuietError, u64)>),
    // Each number from one up to another is pushed at its own place.
    PushAll(u64, u64),
    Reserve(u64, Result<(), QuietError>),
    Assign(&'static [u64], Result<(), QuietError>),
    // A length, the number that the maker refuses, what the call returns, and how many numbers the maker is
    // asked for, in turn from 0 on. Each other number plus ten is the maker's value for it.
    Resize(u64, u64, Result<(), QuietError>, u64),
    Replace(u64, u64, Result<u64, (QuietAt, u64)>),
    Mend(u64, u64, Result<(), (QuietMendError, u64)>),
    Clear,
    Shrink,
    Get(u64, Result<u64, QuietAt>),
    Len(u64),
    Capacity(u64),
    Limit(u64),
}

pub(crate) fn pushes_all(list: &mut Quiet<u64>, from: u64, to: u64) -> bool {
    for place in from..to {
        if list.push(place).ok() != Some(place) {
            return false;
        }
    }
    true
}

// Makes a list longer or shorter. The maker's value for a number is the number plus `first`. Returns also how
// many numbers the maker was asked for, if these came in turn.
pub(crate) fn resized(
    list: &mut Quiet<u64>,
    len: u64,
    first: u64,
    refused: u64,
) -> (Result<(), QuietError>, Option<u64>) {
    let mut asked = Some(0u64);
    let make = |i: u64| -> Result<u64, u64> {
        asked = if asked == Some(i) {
            i.checked_add(1)
        } else {
            None
        };
        if i == refused {
            Err(i)
        } else {
            Ok(i.wrapping_add(first))
        }
    };
    let returned = list.resize(len, make);
    (returned, asked)
}

// What the list returns to other values, if there is memory for a `Vec` of them.
fn assigned(
    alloc: Global,
    list: &mut Quiet<u64>,
    values: &[u64],
) -> Option<Result<(), QuietError>> {
    let values = Vec::from_slice(alloc, values).ok()?;
    match list.assign(values) {
        Ok(()) => Some(Ok(())),
        Err((error, _back)) => Some(Err(error)),
    }
}

fn is_right(alloc: Global, list: &mut Quiet<u64>, step: &Step) -> bool {
    match step {
        Step::Push(value, returns) => list.push(*value) == *returns,
        Step::PushAll(from, to) => pushes_all(list, *from, *to),
        Step::Reserve(n, returns) => list.reserve(*n) == *returns,
        Step::Assign(values, returns) => assigned(alloc, list, values) == Some(*returns),
        Step::Resize(len, refused, returns, asked) => {
            resized(list, *len, 10, *refused) == (*returns, Some(*asked))
        }
        Step::Replace(place, value, returns) => list.replace(*place, *value) == *returns,
        Step::Mend(place, value, returns) => list.mend(*place, *value) == *returns,
        Step::Clear => {
            list.clear();
            true
        }
        Step::Shrink => {
            list.shrink_to_fit();
            true
        }
        Step::Get(place, shows) => list.get(*place).copied() == *shows,
        Step::Len(len) => list.len() == *len,
        Step::Capacity(capacity) => list.capacity() == *capacity,
        Step::Limit(limit) => list.limit() == *limit,
    }
}

// The number of the first step that returns or shows something else.
pub(super) fn first_wrong(alloc: Global, list: &mut Quiet<u64>, steps: &[Step]) -> Option<usize> {
    for number in 0..steps.len() {
        if !is_right(alloc, list, &steps[number]) {
            return Some(number);
        }
    }
    None
}
