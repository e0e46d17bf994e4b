// The ways to append by a writer.
ghost use Rattle.std.specs.Prelude.{◌≡◌, ◌<◌, Some, length, slice_get};

use super::outcomes::{Outcome, Why, appended, grown, mended, placed, reached, reason_of};
use grow_core::{Never, ReserveError, Run, Source};
use span_core::Writer;
use std::alloc::{AllocError, AllocGlobal, Global};
use std::sync::Wait;

// A way to append.
enum Way {
    TryPush,
    Push,
    All,
    TryVec,
    Vec,
    Append,
    TryWith,
    With,
    TryBy,
    By,
    UpTo,
    TryFrom,
    From,
    Source,
    TryCopies,
    Copies,
    TryBreak,
    Break,
    Reserved,
}

// The numbers from one on, in order.
pub(super) fn numbers(alloc: Global, first: u64, n: u64) -> Result<Vec<u64>, AllocError> {
    let mut made = Vec::with_capacity(alloc, n as usize)?;
    made.extend(first..first.saturating_add(n))?;
    Ok(made)
}

fn push_all<R: Wait>(rt: &R, writer: &mut Writer<'_, u64>, first: u64, n: u64) -> Outcome {
    let pushed = writer.push_all(rt, first..first.saturating_add(n));
    let outcome = match &pushed {
        Ok(count) => Ok(Run {
            from: first,
            n: *count,
        }),
        Err((_count, refused)) => Err(reason_of(refused)),
    };
    drop(pushed);
    outcome
}

fn move_in<R: Wait>(rt: &R, writer: &mut Writer<'_, u64>, way: &Way, values: Vec<u64>) -> Outcome {
    match way {
        Way::TryVec => grown(writer.try_grow_vec(values)),
        Way::Vec => grown(writer.grow_vec(rt, values)),
        _ => appended(writer.append(rt, values)),
    }
}

fn make<R: Wait>(rt: &R, writer: &mut Writer<'_, u64>, way: &Way, first: u64, n: u64) -> Outcome {
    let make = |i: u64| -> Result<u64, Never> { Ok(first.wrapping_add(i)) };
    match way {
        Way::TryWith => grown(writer.try_grow_with(n, make)),
        Way::With => grown(writer.grow_with(rt, n, make)),
        _ => reached(writer.grow_to_at_least(first.wrapping_add(n), make)),
    }
}

// A source of a caller's own.
#[derive(Drop)]
pub(super) struct Listed<'a> {
    pub(super) values: &'a [u64],
}

impl<'a> Source<u64> for Listed<'a> {
    ghost values = { λ s. s.values.now };

    fn len(&self) -> u64
        ensures { result ≡ length self.now.values.now }
    {
        self.values.len() as u64
    }

    fn value(&self, i: u64) -> u64
        requires { i < length self.now.values.now }
        ensures { slice_get self.now.values.now i ≡ Some result }
    {
        self.values[i as usize]
    }
}

fn copy<R: Wait>(rt: &R, writer: &mut Writer<'_, u64>, way: &Way, values: &[u64]) -> Outcome {
    match way {
        Way::TryFrom => grown(writer.try_grow_from(values)),
        Way::From => grown(writer.grow_from(rt, values)),
        _ => grown(writer.try_grow_source(&Listed { values })),
    }
}

// Breaks n places, and mends each.
fn break_and_mend<R: Wait>(rt: &R, writer: &mut Writer<'_, u64>, way: &Way, n: u64) -> Outcome {
    let outcome = match way {
        Way::TryBreak => appended(writer.try_break_run(n)),
        _ => appended(writer.break_run(rt, n)),
    };
    if let Ok(run) = outcome {
        for place in run.from..run.from.saturating_add(run.n) {
            if mended(writer.mend(place, place)) != Some(true) {
                return Err(Why::Other);
            }
        }
    }
    outcome
}

// Tests whether the hand knows the segment of the next place only if it has appended a number there.
fn knows_its_segments(writer: &Writer<'_, u64>, next: u64) -> bool {
    if next == 0 || LIMIT <= next {
        return !writer.knows_next();
    }
    let layout = writer.vector().layout();
    let (segment, _) = layout.locate(next);
    let (last, _) = layout.locate(next - 1);
    writer.knows_next() == (segment == last)
}

// Appends a number once there is room for it. The hand does not learn the segments that are reserved.
fn push_reserved(writer: &mut Writer<'_, u64>, number: u64) -> Outcome {
    match writer.reserve(number.saturating_add(1)) {
        Ok(()) | Err(ReserveError::TooLong) => {}
        Err(ReserveError::NoMemory) => return Err(Why::NoMemory),
    }
    if knows_its_segments(writer, number) {
        placed(writer.try_push_seen(number))
    } else {
        Err(Why::Other)
    }
}

// Appends n numbers from one on by any way, or clones of it.
fn append<R: AllocGlobal + Wait>(
    rt: &R,
    writer: &mut Writer<'_, u64>,
    way: &Way,
    first: u64,
    n: u64,
) -> Outcome {
    match way {
        Way::TryPush => placed(writer.try_push_back(first)),
        Way::Push => placed(writer.push_back(rt, first)),
        Way::All => push_all(rt, writer, first, n),
        Way::TryVec | Way::Vec | Way::Append => match numbers(rt.alloc(), first, n) {
            Ok(values) => move_in(rt, writer, way, values),
            Err(AllocError) => Err(Why::NoMemory),
        },
        Way::TryBy => grown(writer.try_grow_by(n, &first)),
        Way::By => grown(writer.grow_by(rt, n, &first)),
        Way::TryFrom | Way::From | Way::Source => match numbers(rt.alloc(), first, n) {
            Ok(values) => copy(rt, writer, way, values.as_slice()),
            Err(AllocError) => Err(Why::NoMemory),
        },
        Way::TryCopies => grown(writer.try_grow_copies(n, first)),
        Way::Copies => grown(writer.grow_copies(rt, n, first)),
        Way::TryBreak | Way::Break => break_and_mend(rt, writer, way, n),
        Way::Reserved => push_reserved(writer, first),
        _ => make(rt, writer, way, first, n),
    }
}

// Each way, and how many numbers it appends. Those that may append only a part of them append one.
static WAYS: [(Way, u64); 19] = [
    (Way::TryPush, 1),
    (Way::Push, 1),
    (Way::All, 1),
    (Way::TryVec, 2),
    (Way::Vec, 3),
    (Way::Append, 2),
    (Way::TryWith, 2),
    (Way::With, 3),
    (Way::TryBy, 1),
    (Way::By, 1),
    (Way::UpTo, 2),
    (Way::TryFrom, 2),
    (Way::From, 3),
    (Way::Source, 2),
    (Way::TryCopies, 1),
    (Way::Copies, 1),
    (Way::TryBreak, 2),
    (Way::Break, 2),
    (Way::Reserved, 1),
];

// How many numbers these are in all.
pub(super) const LIMIT: u64 = 33;

// Tests whether each way appends its numbers at their own places, at the second try if there may be one and the
// first found no memory.
pub(super) fn fills<R: AllocGlobal + Wait>(
    rt: &R,
    writer: &mut Writer<'_, u64>,
    tries_again: bool,
) -> bool {
    let mut next = 0u64;
    for (way, n) in WAYS.as_slice() {
        let mut outcome = append(rt, writer, way, next, *n);
        if tries_again && outcome == Err(Why::NoMemory) {
            outcome = append(rt, writer, way, next, *n);
        }
        if outcome != Ok(Run { from: next, n: *n }) {
            return false;
        }
        next = next.wrapping_add(*n);
    }
    true
}

// Tests whether no way appends one more.
pub(super) fn is_full<R: AllocGlobal + Wait>(rt: &R, writer: &mut Writer<'_, u64>) -> bool {
    for (way, _n) in WAYS.as_slice() {
        if append(rt, writer, way, LIMIT, 1) != Err(Why::Full(LIMIT)) {
            return false;
        }
    }
    true
}
