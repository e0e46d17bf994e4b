// Members that lie side by side, as slices.
use super::parts::{append, pop, replace, room};
use grow_core::Parts;

// How many members lie side by side from a place on, and the sum of their values, unless one of them is broken.
fn side(parts: &Parts<u64>, place: u64) -> (u64, Option<u64>) {
    if place >= parts.len() {
        return (0, None);
    }
    let n = parts.side_by_side(place);
    (n, parts.slice(place, n).map(sum))
}

fn sum(values: &[u64]) -> u64 {
    let mut sum: u64 = 0;
    for value in values {
        sum = sum.wrapping_add(*value);
    }
    sum
}

// Appends this many values, each twice its place.
fn appends(parts: &mut Parts<u64>, n: u64) -> bool {
    for place in 0..n {
        if !append(parts, Some(place.wrapping_mul(2))) {
            return false;
        }
    }
    true
}

static SIDES: [(u64, (u64, Option<u64>)); 8] = [
    (0, (2, Some(2))),
    (1, (1, Some(2))),
    (2, (2, Some(10))),
    (4, (4, Some(44))),
    (63, (1, Some(126))),
    (64, (36, Some(5868))),
    (99, (1, Some(198))),
    (100, (0, None)),
];

static SIDES_WITH_A_BROKEN_ONE: [(u64, (u64, Option<u64>)); 3] = [
    (64, (36, None)),
    (79, (21, None)),
    (80, (20, Some(3580))),
];

fn has_sides(parts: &Parts<u64>, sides: &[(u64, (u64, Option<u64>))]) -> bool {
    for (place, wanted) in sides {
        if side(parts, *place) != *wanted {
            return false;
        }
    }
    true
}

// Tests whether a list of a hundred lends its sides, also while one of its members is broken.
fn lends_its_sides(parts: &mut Parts<u64>) -> bool {
    room(parts, 100) == Ok(true)
        && appends(parts, 100)
        && has_sides(parts, &SIDES)
        && replace(parts, 79, None) == Some(Some(158))
        && has_sides(parts, &SIDES_WITH_A_BROKEN_ONE)
        && replace(parts, 79, Some(158)) == Some(None)
        && has_sides(parts, &SIDES)
}

#[test]
fn members_of_a_segment_are_lent_as_a_slice(rt: HostRuntime) {
    let mut parts = Parts::new(rt.alloc(), 200);
    let lends = lends_its_sides(&mut parts);
    drop(parts);
    assert!(rt; lends);
}

// Tests whether the list tells, after each append and pop, that a member is broken.
fn counts_at_its_end(parts: &mut Parts<u64>) -> bool {
    room(parts, 8) == Ok(true)
        && parts.is_unbroken()
        && append(parts, None)
        && append(parts, Some(1))
        && append(parts, None)
        && pop(parts) == Some(None)
        && !parts.is_unbroken()
        && pop(parts) == Some(Some(1))
        && pop(parts) == Some(None)
        && parts.is_unbroken()
        && append(parts, Some(1))
        && append(parts, Some(2))
}

// Tests whether the list tells, after each change of a member, that one is broken.
fn counts_at_its_places(parts: &mut Parts<u64>) -> bool {
    parts.is_unbroken()
        && replace(parts, 0, None) == Some(Some(1))
        && replace(parts, 1, None) == Some(Some(2))
        && replace(parts, 0, Some(3)) == Some(None)
        && !parts.is_unbroken()
        && replace(parts, 1, None) == Some(None)
        && replace(parts, 1, Some(4)) == Some(None)
        && replace(parts, 1, Some(5)) == Some(Some(4))
        && parts.is_unbroken()
}

#[test]
fn lists_count_their_broken_members(rt: HostRuntime) {
    let mut parts = Parts::new(rt.alloc(), 8);
    let counts = counts_at_its_end(&mut parts) && counts_at_its_places(&mut parts);
    drop(parts);
    assert!(rt; counts);
}
