// The calls of a shared writer that try once, copy, break or mend, and what `at` finds. Their clauses are those of the
// vector's calls; these tests show that none of them gives up.
use super::writer_of;
use crate::results::succeeded;
use crate::span::outcomes::{Outcome, Why, appended, grown, mended, placed};
use crate::span::ways::{Listed, numbers};
use crate::span::writers::shows_below;
use grow_core::{AtError, Never, ReserveError, Run};
use span_core::SharedWriter;
use std::alloc::{AllocError, Global};
use std::sync::Wait;

// A way to append.
enum Way {
    TryVec,
    TryWith,
    TryBy,
    TryFrom,
    From,
    Source,
    TryCopies,
    Copies,
    TryBreak,
    Break,
    Reserved,
}

fn move_in<R: Wait>(
    rt: &R,
    writer: &mut SharedWriter<u64>,
    way: &Way,
    values: Vec<u64>,
) -> Outcome {
    match way {
        Way::TryVec => grown(writer.try_grow_vec(values)),
        Way::TryFrom => grown(writer.try_grow_from(values.as_slice())),
        Way::From => grown(writer.grow_from(rt, values.as_slice())),
        _ => grown(writer.try_grow_source(&Listed {
            values: values.as_slice(),
        })),
    }
}

// Breaks n places, and mends each.
fn break_and_mend<R: Wait>(rt: &R, writer: &mut SharedWriter<u64>, way: &Way, n: u64) -> Outcome {
    let outcome = match way {
        Way::TryBreak => appended(writer.try_break_run(n)),
        _ => appended(writer.break_run(rt, n)),
    };
    if let Ok(run) = outcome {
        for place in run.from..run.from.saturating_add(run.n) {
            if mended(writer.mend(place, place)) != Some(true) {
                return Err(Why::Other);
            }
        }
    }
    outcome
}

// Appends a number once there is room for it. The hand knows the place's segment by what it appended before, unless the
// place is past the limit.
fn push_reserved(writer: &mut SharedWriter<u64>, number: u64) -> Outcome {
    let has_room = match writer.reserve(number.saturating_add(1)) {
        Ok(()) => true,
        Err(ReserveError::TooLong) => false,
        Err(ReserveError::NoMemory) => return Err(Why::NoMemory),
    };
    if writer.knows_next() == has_room {
        placed(writer.try_push_seen(number))
    } else {
        Err(Why::Other)
    }
}

// Appends n numbers from one on by any way, or clones of it.
fn append<R: Wait>(
    rt: &R,
    alloc: Global,
    writer: &mut SharedWriter<u64>,
    way: &Way,
    first: u64,
    n: u64,
) -> Outcome {
    let make = |i: u64| -> Result<u64, Never> { Ok(first.wrapping_add(i)) };
    match way {
        Way::TryWith => grown(writer.try_grow_with(n, make)),
        Way::TryBy => grown(writer.try_grow_by(n, &first)),
        Way::TryCopies => grown(writer.try_grow_copies(n, first)),
        Way::Copies => grown(writer.grow_copies(rt, n, first)),
        Way::TryBreak | Way::Break => break_and_mend(rt, writer, way, n),
        Way::Reserved => push_reserved(writer, first),
        _ => match numbers(alloc, first, n) {
            Ok(values) => move_in(rt, writer, way, values),
            Err(AllocError) => Err(Why::NoMemory),
        },
    }
}

// Each way, and how many numbers it appends. Those that may append only a part of them append one.
static WAYS: [(Way, u64); 11] = [
    (Way::TryVec, 2),
    (Way::TryWith, 2),
    (Way::TryBy, 1),
    (Way::TryFrom, 2),
    (Way::From, 3),
    (Way::Source, 2),
    (Way::TryCopies, 1),
    (Way::Copies, 1),
    (Way::TryBreak, 2),
    (Way::Break, 2),
    (Way::Reserved, 1),
];

// How many numbers these are in all.
pub(super) const LIMIT: u64 = 19;

// Tests whether each way appends its numbers at their own places, at the second try if the first found no memory.
pub(super) fn fills<R: Wait>(rt: &R, alloc: Global, writer: &mut SharedWriter<u64>) -> bool {
    let mut next = 0u64;
    for (way, n) in WAYS.as_slice() {
        let mut outcome = append(rt, alloc, writer, way, next, *n);
        if outcome == Err(Why::NoMemory) {
            outcome = append(rt, alloc, writer, way, next, *n);
        }
        if outcome != Ok(Run { from: next, n: *n }) {
            return false;
        }
        next = next.wrapping_add(*n);
    }
    true
}

// Tests whether no way appends one more.
fn is_full<R: Wait>(rt: &R, alloc: Global, writer: &mut SharedWriter<u64>) -> bool {
    for (way, _n) in WAYS.as_slice() {
        if append(rt, alloc, writer, way, LIMIT, 1) != Err(Why::Full(LIMIT)) {
            return false;
        }
    }
    true
}

// Tests whether each way fills a vector to its limit.
fn fills_to_the_limit<R: Wait>(rt: &R, alloc: Global) -> Option<bool> {
    let mut writer = writer_of(alloc, LIMIT)?;
    let is_right = fills(rt, alloc, &mut writer)
        && is_full(rt, alloc, &mut writer)
        && shows_below(writer.vector(), LIMIT);
    drop(writer);
    Some(is_right)
}

#[test]
fn each_further_way_to_append_fills_a_shared_vector(rt: HostRuntime) {
    assert!(rt; fills_to_the_limit(&rt, rt.alloc()) == Some(true));
}

// Tests whether a place has its own number, found without a token and with one.
fn finds(writer: &mut SharedWriter<u64>, place: u64) -> bool {
    match writer.at(place, None) {
        Ok(placed) => {
            *writer.get(&placed) == place && succeeded(writer.at(place, Some(&placed)))
        }
        Err(_refused) => false,
    }
}

// Tests whether the second of three places is broken, and the fourth out of range.
fn tells_why(writer: &mut SharedWriter<u64>) -> bool {
    let found = writer.at(1, None);
    let is_broken = matches!(&found, Err(AtError::Broken(_)));
    drop(found);
    let found = writer.at(3, None);
    let is_past = matches!(&found, Err(AtError::OutOfRange { size: 3 }));
    drop(found);
    is_broken && is_past
}

// Tests whether two broken places are mended once each, and no other place is.
fn mends_once(writer: &mut SharedWriter<u64>) -> bool {
    let make = |i: u64| -> Result<u64, u64> { if i == 1 { Err(i) } else { Ok(i) } };
    grown(writer.try_grow_with(3, make)) == Err(Why::Other)
        && tells_why(writer)
        && mended(writer.mend(1, 1)) == Some(true)
        && mended(writer.mend(2, 2)) == Some(true)
        && mended(writer.mend(1, 7)) == Some(false)
        && mended(writer.mend(3, 7)) == None
}

// Tests whether three places of a vector have their own numbers once two of them are mended.
fn mends_and_finds(alloc: Global) -> Option<bool> {
    let mut writer = writer_of(alloc, 6)?;
    let is_right = mends_once(&mut writer)
        && finds(&mut writer, 0)
        && finds(&mut writer, 1)
        && finds(&mut writer, 2);
    drop(writer);
    Some(is_right)
}

#[test]
fn broken_places_of_a_shared_vector_are_mended_and_read_by_their_tokens(rt: HostRuntime) {
    assert!(rt; mends_and_finds(rt.alloc()) == Some(true));
}
