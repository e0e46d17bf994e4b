// What a shared vector shows segment by segment, and what a walk shows of places that are filled meanwhile.
use super::callers::{Callers, on_two, succeeded};
use super::parts::{append, room};
use super::ways::numbers;
use grow_core::{Parts, Published, Run, Shared, ShownCells};
use std::alloc::{AllocGlobal, Global};
use std::sync::Wait;

fn sum(values: &[u64]) -> u64 {
    let mut sum: u64 = 0;
    for value in values {
        sum = sum.wrapping_add(*value);
    }
    sum
}

// The first place of a segment, how many there are, how many are filled from the first on, and the sum of these.
type Seen = (u64, u64, u64, u64);

fn seen(cells: &ShownCells<'_, u64>) -> Seen {
    let n = cells.len();
    let filled = cells.filled(0);
    (cells.from(), n, filled.len() as u64, sum(filled))
}

// Tests whether the segments are these, in order.
fn are_seen(vector: &Shared<u64>, wanted: &[Seen]) -> bool {
    let mut left = wanted.iter();
    for cells in vector.segments() {
        if left.next() != Some(&seen(&cells)) {
            return false;
        }
    }
    left.next().is_none()
}

// The last segment of the vector.
fn last_of(vector: &Shared<u64>) -> Option<ShownCells<'_, u64>> {
    let mut last = None;
    for cells in vector.segments() {
        last = Some(cells);
    }
    last
}

fn appends<R: AllocGlobal + Wait>(rt: &R, two: &mut Callers<u64>, n: u64) -> bool {
    match numbers(rt.alloc(), 0, n) {
        Some(values) => two.vector.append(rt, &mut two.a, values).ok() == Some(Run { from: 0, n }),
        None => false,
    }
}

// Claims `n` places, and makes values for the first ones alone: their numbers plus 1000.
fn makes_few(two: &mut Callers<u64>, n: u64, made: u64) -> bool {
    let make = |i: u64| -> Result<u64, u64> {
        if i < made {
            Ok(1000u64.wrapping_add(i))
        } else {
            Err(i)
        }
    };
    !succeeded(two.vector.try_grow_with(&mut two.a, n, make))
}

fn mends(two: &mut Callers<u64>, place: u64, value: u64) -> bool {
    succeeded(two.vector.mend(&mut two.b, place, value))
}

static HUNDRED: [Seen; 7] = [
    (0, 2, 2, 1),
    (2, 2, 2, 5),
    (4, 4, 4, 22),
    (8, 8, 8, 92),
    (16, 16, 16, 376),
    (32, 32, 32, 1520),
    (64, 36, 36, 2934),
];

// Three values are made above, and then forty places are broken.
static WITH_BROKEN_ONES: [Seen; 8] = [
    (0, 2, 2, 1),
    (2, 2, 2, 5),
    (4, 4, 4, 22),
    (8, 8, 8, 92),
    (16, 16, 16, 376),
    (32, 32, 32, 1520),
    (64, 64, 39, 5937),
    (128, 15, 0, 0),
];

// Tests whether the segments of a new vector have its places in order, as it grows.
fn have_their_places<R: AllocGlobal + Wait>(rt: &R, two: &mut Callers<u64>) -> bool {
    are_seen(&two.vector, &[])
        && appends(rt, two, 100)
        && are_seen(&two.vector, &HUNDRED)
        && makes_few(two, 43, 3)
        && are_seen(&two.vector, &WITH_BROKEN_ONES)
}

#[test]
fn the_segments_of_a_vector_have_its_places_in_order(rt: HostRuntime) {
    assert!(rt; on_two(&rt, 1000, |two| have_their_places(&rt, two)));
}

// What three places show, and how many are filled from each on.
type Three = [(Option<u64>, usize); 3];

// A place before the broken ones, and two of them.
fn shows(cells: &ShownCells<'_, u64>) -> Option<Three> {
    if cells.len() < 6 {
        return None;
    }
    let one = |i: u64| -> (Option<u64>, usize) { (cells.get(i).copied(), cells.filled(i).len()) };
    Some([one(2), one(4), one(5)])
}

static BROKEN: Three = [(Some(1002), 2), (None, 0), (None, 0)];

static MENDED: Three = [(Some(1002), 3), (Some(7), 1), (None, 0)];

// Tests whether the last segment shows these.
fn last_shows(vector: &Shared<u64>, wanted: &Three) -> bool {
    last_of(vector).as_ref().and_then(shows) == Some(*wanted)
}

// Tests whether a stretch ends at a broken place, until that is mended.
fn ends_where_broken<R: AllocGlobal + Wait>(rt: &R, two: &mut Callers<u64>) -> bool {
    appends(rt, two, 16)
        && makes_few(two, 8, 4)
        && last_shows(&two.vector, &BROKEN)
        && mends(two, 20, 7)
        && last_shows(&two.vector, &MENDED)
}

#[test]
fn a_stretch_of_filled_places_ends_at_a_broken_one(rt: HostRuntime) {
    assert!(rt; on_two(&rt, 100, |two| ends_where_broken(&rt, two)));
}

// A place, how many places a run from there shows, and the sum of their values.
static RUNS: [(u64, usize, u64); 8] = [
    (0, 2, 1),
    (1, 1, 1),
    (17, 15, 360),
    (64, 39, 5937),
    (102, 1, 1002),
    (103, 0, 0),
    (1000, 0, 0),
    (u64::MAX, 0, 0),
];

fn runs_are_shown(vector: &Shared<u64>) -> bool {
    for (place, n, wanted) in RUNS.as_slice() {
        let run = vector.shown_run(*place);
        if run.len() != *n || sum(run) != *wanted {
            return false;
        }
    }
    true
}

// The same once a hundred places are filled, and then three of 43.
fn runs_are_shown_then<R: AllocGlobal + Wait>(rt: &R, two: &mut Callers<u64>) -> bool {
    appends(rt, two, 100) && makes_few(two, 43, 3) && runs_are_shown(&two.vector)
}

#[test]
fn a_shown_run_ends_with_its_segment_or_before_a_place_without_a_value(rt: HostRuntime) {
    assert!(rt; on_two(&rt, 1000, |two| runs_are_shown_then(&rt, two)));
}

// Appends twenty members. The tenth is broken, and each other one is its place.
fn takes_twenty(parts: &mut Parts<u64>) -> bool {
    if room(parts, 20) != Ok(true) {
        return false;
    }
    for place in 0..20u64 {
        let member = if place == 9 { None } else { Some(place) };
        if !append(parts, member) {
            return false;
        }
    }
    true
}

// The list of these members.
fn twenty(alloc: Global) -> Option<Parts<u64>> {
    let mut parts = Parts::new(alloc, 100);
    takes_twenty(&mut parts).then_some(parts)
}

static TWENTY: [Seen; 5] = [
    (0, 2, 2, 1),
    (2, 2, 2, 5),
    (4, 4, 4, 22),
    (8, 8, 1, 8),
    (16, 4, 4, 70),
];

// What a walk shows in all: the sum of the values, and the places without one.
fn walked(walk: Published<'_, u64>) -> (u64, u64) {
    let (mut sum, mut none) = (0u64, 0u64);
    for item in walk {
        match item {
            Some(value) => sum = sum.wrapping_add(*value),
            None => none = none.wrapping_add(1),
        }
    }
    (sum, none)
}

// Tests whether the vector that is opened on the list shows all of them.
fn shows_twenty(vector: &Shared<u64>) -> bool {
    are_seen(vector, &TWENTY)
        && walked(vector.published()) == (181, 1)
        && vector.published_count() == 19
}

fn twenty_are_shown(alloc: Global) -> Option<bool> {
    let (vector, hand) = Shared::of_parts(twenty(alloc)?).ok()?;
    let are_shown = shows_twenty(&vector);
    drop((vector, hand));
    Some(are_shown)
}

#[test]
fn the_values_of_an_opened_list_are_shown_by_segments(rt: HostRuntime) {
    assert!(rt; twenty_are_shown(rt.alloc()) == Some(true));
}

// Tests whether of eight places of the last segment the first `made` show 1, and the others nothing: also the next one,
// whose maker calls this.
fn shows_made(vector: &Shared<u64>, made: u64) -> bool {
    match last_of(vector) {
        Some(cells) if made < cells.len() && cells.len() == 8 => {
            cells.get(made).is_none()
                && cells.filled(made).is_empty()
                && cells.filled(0).len() as u64 == made
                && walked(cells.iter()) == (made, 8 - made)
        }
        _ => false,
    }
}

// Appends eight values, and then makes eight in the next segment, each if the segment shows those before it.
fn makes_in_view<R: AllocGlobal + Wait>(rt: &R, two: &mut Callers<u64>) -> bool {
    if !appends(rt, two, 8) {
        return false;
    }
    let vector = &two.vector;
    let make = |i: u64| -> Result<u64, u64> { if shows_made(vector, i) { Ok(1) } else { Err(i) } };
    succeeded(vector.try_grow_with(&mut two.a, 8, make)) && walked(vector.published()) == (36, 0)
}

#[test]
fn a_place_whose_value_is_being_made_shows_none_in_its_segment(rt: HostRuntime) {
    assert!(rt; on_two(&rt, 100, |two| makes_in_view(&rt, two)));
}

// A walk over three broken places. The second place is mended when the first item has come.
fn walk(two: &mut Callers<u64>) -> [Option<Option<u64>>; 4] {
    let mut walk = two.vector.published();
    let first = walk.next().map(|item| item.copied());
    let is_mended = succeeded(two.vector.mend(&mut two.b, 1, 7));
    [
        first,
        walk.next().map(|item| item.copied()),
        walk.next().map(|item| item.copied()),
        if is_mended {
            walk.next().map(|item| item.copied())
        } else {
            None
        },
    ]
}

static WALKED: [Option<Option<u64>>; 4] = [Some(None), Some(Some(7)), Some(None), None];

fn walks_over_three(two: &mut Callers<u64>) -> bool {
    makes_few(two, 3, 0) && walk(two) == WALKED
}

#[test]
fn a_walk_shows_what_is_filled_before_its_item_is_asked_for(rt: HostRuntime) {
    assert!(rt; on_two(&rt, 8, walks_over_three));
}

// How many places show a value: at first, once the maker has made 130 values of 200, once a broken place is mended, and
// at the limit.
fn counts<R: AllocGlobal + Wait>(rt: &R, two: &mut Callers<u64>) -> Option<[u64; 4]> {
    let none = two.vector.published_count();
    let is_made = makes_few(two, 200, 130);
    let made = two.vector.published_count();
    let is_mended = mends(two, 170, 7) && two.vector.claimed() == 200;
    let mended = two.vector.published_count();
    let values = numbers(rt.alloc(), 0, 100)?;
    let is_full = succeeded(two.vector.append(rt, &mut two.a, values))
        && two.vector.claimed() == 300;
    (is_made && is_mended && is_full).then_some([none, made, mended, two.vector.published_count()])
}

#[test]
fn places_that_show_a_value_are_counted(rt: HostRuntime) {
    assert!(rt; on_two(&rt, 300, |two| counts(&rt, two) == Some([0, 130, 131, 231])));
}
