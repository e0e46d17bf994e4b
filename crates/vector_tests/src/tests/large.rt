// Growths, limits and values that are large.
use super::callers::{Callers, on_two, succeeded};
use super::edits::Found::Sizes;
use super::edits::{Edit, Found, ends_as};
use super::steps::Call::{Grow, Read, TryGrow, TryPush};
use super::steps::Reply::{At, Is, OutOfRange, Ran};
use super::steps::Step::{A, B};
use super::steps::{Reply, Step, ends_after, first_wrong};
use super::ways::{Way, append, look_at, numbers};
use grow_core::{GrowError, Parts, Run, Shared, Shown};
use std::alloc::{AllocError, AllocGlobal, Global};
use std::process::Abort;
use std::sync::Wait;

// Tests whether numbers from one on are appended at a place, and another caller reads each of them.
fn appends_numbers(two: &mut Callers<u64>, alloc: Global, from: u64, first: u64, n: u64) -> bool {
    let Some(values) = numbers(alloc, first, n) else {
        return false;
    };
    if two.grow_a(values) != Some(Run { from, n }) {
        return false;
    }
    for j in 0..n {
        if two.at_b(from.wrapping_add(j)) != Some(first.wrapping_add(j)) {
            return false;
        }
    }
    true
}

#[test]
fn two_growths_are_appended_over_twelve_segments(rt: HostRuntime) {
    let mut two = Callers::new(&rt, 1 << 40);
    let first = appends_numbers(&mut two, rt.alloc(), 0, 7, 1_000);
    let second = appends_numbers(&mut two, rt.alloc(), 1_000, 5_000, 1_100);
    let sizes = [(Edit::Sizes, Sizes(2_100, 1 << 40, 4_096))];
    let ends = ends_as(two.close(), &sizes);
    assert!(rt; first);
    assert!(rt; second);
    assert!(rt; ends);
}

#[test]
fn a_thousand_values_are_appended_over_ten_segments(rt: HostRuntime) {
    let mut two = Callers::new(&rt, 1 << 40);
    let is_appended = appends_numbers(&mut two, rt.alloc(), 0, 7, 1_000);
    let sizes = [(Edit::Sizes, Sizes(1_000, 1 << 40, 1_024))];
    let ends = ends_as(two.close(), &sizes);
    assert!(rt; is_appended);
    assert!(rt; ends);
}

// Tests whether a vector has this limit, and is pushed to.
fn has_limit<R: AllocGlobal + Wait>(rt: &R, two: &mut Callers<u64>, limit: u64) -> bool {
    let steps = [
        (A(TryPush(5)), At(0)),
        (B(Read(0)), Is(5)),
        (B(Read(limit)), OutOfRange(1)),
    ];
    two.vector.limit() == limit && two.first_wrong(rt, &steps) == None
}

// The same of a new vector.
fn opens_with<R: AllocGlobal + Wait + Abort>(rt: &R, limit: u64) -> bool {
    if limit == 0 || limit > 1_099_511_627_776 {
        return false;
    }
    let mut two = Callers::new(rt, limit);
    let is_right = has_limit(rt, &mut two, limit);
    drop(two);
    is_right
}

// The greatest limit is 2^40.
static LIMITS: [u64; 7] = [
    4_294_967_296,
    8_589_934_592,
    8_589_934_593,
    68_719_476_736,
    549_755_813_889,
    1_099_511_627_775,
    1_099_511_627_776,
];

#[test]
fn a_vector_may_have_a_limit_up_to_the_greatest(rt: HostRuntime) {
    for limit in LIMITS.as_slice() {
        assert!(rt; opens_with(&rt, *limit), "{limit}");
    }
}

// Tests whether a large value is read at the place of its number.
fn reads_large(two: &mut Callers<[u64; 32]>, j: u64) -> bool {
    let at = two.vector.at(&mut two.b, j, None);
    let is_same = match &at {
        Ok(at) => *at.value == [j; 32],
        Err(_refused) => false,
    };
    drop(at);
    is_same
}

// Tests whether each of a hundred large values is read, once all are appended.
fn keeps_large(two: &mut Callers<[u64; 32]>) -> bool {
    for j in 0..100u64 {
        if two.push_a([j; 32]) != Some(j) {
            return false;
        }
    }
    for j in 0..100u64 {
        if !reads_large(two, j) {
            return false;
        }
    }
    true
}

#[test]
fn values_may_be_large(rt: HostRuntime) {
    assert!(rt; on_two(&rt, 100, keeps_large));
}

// Pushes by either caller, and the length, the limit and the capacity of the list that is closed after them.
static PUSHES: [(&'static [(Step, Reply)], Found); 4] = [
    (&[], Sizes(0, 1_000, 0)),
    (&[(A(TryPush(0)), At(0))], Sizes(1, 1_000, 2)),
    (
        &[(A(TryPush(0)), At(0)), (B(TryPush(1)), At(1))],
        Sizes(2, 1_000, 2),
    ),
    (
        &[
            (A(TryPush(0)), At(0)),
            (B(TryPush(1)), At(1)),
            (A(TryPush(2)), At(2)),
        ],
        Sizes(3, 1_000, 4),
    ),
];

// A new vector has no segment. Three places lie in two of them.
#[test]
fn segments_are_installed_as_they_are_needed(rt: HostRuntime) {
    for (pushes, sizes) in PUSHES.as_slice() {
        let edits = [(Edit::Sizes, *sizes)];
        assert!(rt; ends_after(&rt, 1_000, *pushes, &edits), "{}", pushes.len());
    }
}

static NOTHING: [(Step, Reply); 4] = [
    (B(TryPush(5)), At(0)),
    (A(TryGrow(&[])), Ran(1, 0)),
    (B(TryPush(6)), At(1)),
    (A(Grow(&[])), Ran(2, 0)),
];

// A growth of nothing looks at the size, which another caller has moved.
#[test]
fn a_growth_of_nothing_returns_the_size_that_it_finds(rt: HostRuntime) {
    assert_eq!(rt; first_wrong(&rt, 8, &NOTHING), None);
}

// How many values are made with tokens: 2^17.
const TOKENS: u64 = 131_072;

static GROWTHS: [Way; 6] = [
    Way::TryVec,
    Way::Vec,
    Way::With,
    Way::UpTo,
    Way::TryBy,
    Way::By,
];

// The first growth that does not append its run. The values of each are the numbers from 5 on, or clones of 5.
fn wrong_growth<R: AllocGlobal + Wait>(rt: &R, two: &mut Callers<u64>) -> Option<&'static Way> {
    let mut from = 0u64;
    for growth in GROWTHS.as_slice() {
        let run = Run { from, n: TOKENS };
        let (outcome, _asked) = append(rt, two, growth, run, 5);
        if outcome != Ok(run) {
            return Some(growth);
        }
        from = from.wrapping_add(TOKENS);
    }
    None
}

#[test]
fn each_growth_may_have_many_tokens(rt: HostRuntime) {
    let mut two = Callers::new(&rt, 1 << 36);
    let wrong = wrong_growth(&rt, &mut two);
    drop(two);
    if let Some(growth) = wrong {
        panic!(rt; "{growth:?}");
    }
}

// How many bytes are appended at once, into segments of up to 2^22 places, and how many places are then
// broken at once.
const BYTES: u64 = 4_194_307;

fn byte_of(place: u64) -> u8 {
    (place % 251) as u8
}

// Tests whether BYTES bytes are appended, without tokens.
fn appends_bytes<R: AllocGlobal + Wait>(rt: &R, two: &mut Callers<u8>) -> bool {
    match (0..BYTES).map(byte_of).collect(rt.alloc()) {
        Ok(values) => {
            let run = two.vector.append(rt, &mut two.a, values).ok();
            run == Some(Run { from: 0, n: BYTES })
        }
        Err(AllocError) => false,
    }
}

// Tests whether a look and a walk show each byte.
fn shows_bytes(vector: &Shared<u8>) -> bool {
    let mut place = 0u64;
    for item in vector.published() {
        let wanted = byte_of(place);
        if item != Some(&wanted) || look_at(vector, place) != Some(wanted) {
            return false;
        }
        place = place.wrapping_add(1);
    }
    place == BYTES
}

// Tests whether these are the bytes of places from one on.
fn are_bytes(from: u64, bytes: &[u8]) -> bool {
    let mut place = from;
    for byte in bytes {
        if *byte != byte_of(place) {
            return false;
        }
        place = place.wrapping_add(1);
    }
    true
}

// Tests whether the segments show each byte.
fn shows_bytes_by_segments(vector: &Shared<u8>) -> bool {
    let mut place = 0u64;
    for cells in vector.segments() {
        let bytes = cells.filled(0);
        if cells.from() != place || bytes.len() as u64 != cells.len() || !are_bytes(place, bytes) {
            return false;
        }
        place = place.wrapping_add(cells.len());
    }
    place == BYTES
}

// Tests whether a caller without a token reads the last byte.
fn reads_last_byte(two: &mut Callers<u8>) -> bool {
    let at = two.vector.at(&mut two.b, BYTES - 1, None);
    let is_read = match &at {
        Ok(at) => *at.value == byte_of(BYTES - 1),
        Err(_refused) => false,
    };
    drop(at);
    is_read
}

// Tests whether a look shows that a place is broken.
fn is_broken(vector: &Shared<u8>, place: u64) -> bool {
    let shown = vector.look(place);
    let is_broken = matches!(&shown, Shown::Broken(_));
    drop(shown);
    is_broken
}

// Tests whether a construction of BYTES places is refused at its second, and the others show that they are
// broken.
fn breaks_many(two: &mut Callers<u8>) -> bool {
    let make = |i: u64| -> Result<u8, u64> { if i == 0 { Ok(9) } else { Err(i) } };
    let grown = two.vector.try_grow_with(&mut two.a, BYTES, make);
    let is_refused = match &grown {
        Err(GrowError::Refused { made, .. }) => made.run().n == 1,
        _ => false,
    };
    drop(grown);
    for place in BYTES + 1..2 * BYTES {
        if !is_broken(&two.vector, place) {
            return false;
        }
    }
    is_refused
}

// Tests whether 2^17 of them are mended, the last of them first.
fn mends_many(two: &mut Callers<u8>) -> bool {
    for place in (2 * BYTES - TOKENS..2 * BYTES).rev() {
        if !succeeded(two.vector.mend(&mut two.b, place, byte_of(place))) {
            return false;
        }
    }
    true
}

// The members that a closed list has from one place on to another: how many have their byte, and how many
// are broken.
fn count_members(parts: &Parts<u8>, from: u64, end: u64) -> (u64, u64) {
    let (mut bytes, mut broken) = (0u64, 0u64);
    for place in from..end.min(parts.len()) {
        match parts.get(place) {
            Some(byte) if *byte == byte_of(place) => bytes = bytes.wrapping_add(1),
            Some(_other) => {}
            None => broken = broken.wrapping_add(1),
        }
    }
    (bytes, broken)
}

// Tests whether the list has the bytes, the broken places and the mended ones, and the capacity of 24
// segments.
fn has_bytes(parts: &Parts<u8>) -> bool {
    let mended = 2 * BYTES - TOKENS;
    (parts.len(), parts.capacity()) == (2 * BYTES, 1 << 24)
        && count_members(parts, 0, BYTES) == (BYTES, 0)
        && count_members(parts, BYTES + 1, mended) == (0, mended - BYTES - 1)
        && count_members(parts, mended, 2 * BYTES) == (TOKENS, 0)
}

// Tests whether a life of BYTES bytes shows each of them, and the list has them.
fn lives_with_bytes<R: AllocGlobal + Wait>(rt: &R, mut two: Callers<u8>) -> bool {
    let is_shown = appends_bytes(rt, &mut two)
        && shows_bytes(&two.vector)
        && shows_bytes_by_segments(&two.vector)
        && reads_last_byte(&mut two)
        && breaks_many(&mut two)
        && mends_many(&mut two);
    match two.close() {
        Some(parts) => {
            let has_them = has_bytes(&parts);
            drop(parts);
            is_shown && has_them
        }
        None => false,
    }
}

#[test]
fn four_million_places_are_shown_and_four_million_are_broken(rt: HostRuntime) {
    let two = Callers::new(&rt, 1 << 36);
    assert!(rt; lives_with_bytes(&rt, two));
}
