//! Facts that no clause states: that the calls succeed if there is memory, and the worked examples.
ghost use Rattle.seg_core.specs.Segment.{IsLimit};

mod compact;
mod cuts;
mod drops;
mod layouts;
mod lives;
mod members;
mod memory;
mod scripts;
mod steps;
mod uses;
mod vectors;

use layouts::are_equal;
pub(crate) use layouts::layout_of;
use quiet_core::{MemberSegment, Quiet, QuietAt, QuietError};
use std::alloc::{AllocGlobal, Global};
use std::process::Abort;
pub(crate) use steps::{pushes_all, resized};
use steps::{Step, first_wrong};

// The values in a `Vec`.
fn vec_of<R: AllocGlobal + Abort>(rt: &R, values: &[u64]) -> Vec<u64> {
    match Vec::from_slice(rt.alloc(), values) {
        Ok(made) => made,
        Err(_refused) => panic!(rt; "no memory"),
    }
}

fn listed<R: AllocGlobal + Abort>(rt: &R, limit: u64, values: Vec<u64>) -> Quiet<u64>
    requires { IsLimit limit }
{
    match Quiet::from_vec(rt.alloc(), limit, values).ok() {
        Some(list) => list,
        None => panic!(rt; "no memory"),
    }
}

pub(crate) fn list_of<R: AllocGlobal + Abort>(rt: &R, values: &[u64]) -> Quiet<u64> {
    listed(rt, 16, vec_of(rt, values))
}

// A value and then a broken member.
fn broken_after<R: AllocGlobal + Abort>(rt: &R, first: u64) -> Quiet<u64> {
    let mut list = Quiet::new(rt.alloc(), 16);
    let refused = Err(QuietError::Refused { made: 1 });
    let is_refused = resized(&mut list, 2, first, 1) == (refused, Some(2));
    match is_refused.then_some(list) {
        Some(list) => list,
        None => panic!(rt; "no broken member"),
    }
}

// Tests whether a list has the value at a place.
fn has(list: &Quiet<u64>, place: u64, value: u64) -> bool {
    list.get(place) == Ok(&value)
}

// Tests whether a list has this length and this capacity.
fn measures(list: &Quiet<u64>, len: u64, capacity: u64) -> bool {
    list.len() == len && list.capacity() == capacity
}

// Tests whether a list with a broken member is less than one with a zero there.
fn is_less(broken: Quiet<u64>, zero: Quiet<u64>) -> bool {
    broken < zero
        && broken != zero
        && broken.get(1) == Err(QuietAt::Broken)
        && broken.get(2) == Err(QuietAt::OutOfRange { size: 2 })
}

#[test]
fn broken_is_less_than_every_value(rt: HostRuntime) {
    assert!(rt;
        is_less(broken_after(&rt, 1), list_of(&rt, &[1, 0]))
            && are_equal(broken_after(&rt, 1), broken_after(&rt, 1))
    );
}

fn gives_from_both_ends(list: &Quiet<u64>) -> bool {
    let mut members = list.iter();
    members.len() == 3
        && members.next().flatten().copied() == Some(1)
        && members.next_back().flatten().copied() == Some(3)
        && members.len() == 1
}

fn sum(list: &Quiet<u64>) -> u64 {
    let mut sum = 0u64;
    for value in list.into_iter().flatten() {
        sum = sum.wrapping_add(*value);
    }
    sum
}

#[test]
fn members_come_from_both_ends(rt: HostRuntime) {
    let list = list_of(&rt, &[1, 2, 3]);
    assert!(rt; gives_from_both_ends(&list) && sum(&list) == 6);
}

// A number with the digits of `before`, and then these values as digits.
fn digits(before: u64, values: &[u64]) -> u64 {
    let mut number = before;
    for value in values {
        number = number.wrapping_mul(10).wrapping_add(*value);
    }
    number
}

// Digits for the values that the segments lend, for the numbers of members of these segments, and for the first place
// and the number of members of each segment that lends none.
fn walk(list: &Quiet<u64>) -> (u64, u64, u64) {
    let (mut lent, mut lengths, mut broken) = (0u64, 0u64, 0u64);
    for segment in list.segments() {
        match segment {
            MemberSegment::Values(values) => {
                lent = digits(lent, values);
                lengths = digits(lengths, &[values.len() as u64]);
            }
            MemberSegment::Broken { from, n } => broken = digits(broken, &[from, n]),
        }
    }
    (lent, lengths, broken)
}

// The same of a list that goes.
fn walked(list: Quiet<u64>) -> (u64, u64, u64) {
    walk(&list)
}

// Makes five members of three, the last one broken, and then six. Tests whether the segments before it still lend.
fn lends_the_others(mut list: Quiet<u64>) -> bool {
    let refused = Err(QuietError::Refused { made: 1 });
    resized(&mut list, 5, 4, 1) == (refused, Some(2))
        && walk(&list) == (1_234, 22, 41)
        && list.push(6).is_ok()
        && walk(&list) == (1_234, 22, 42)
}

#[test]
fn segments_lend_their_members_in_order(rt: HostRuntime) {
    assert!(rt;
        walked(list_of(&rt, &[])) == (0, 0, 0)
            && walked(list_of(&rt, &[1, 2, 3, 4, 5])) == (12_345, 221, 0)
            && lends_the_others(list_of(&rt, &[1, 2, 3]))
    );
}

// A list with a limit of five refuses six values and takes five.
static ASSIGNS_FIVE: [Step; 4] = [
    Step::Assign(&[0; 6], Err(QuietError::TooLong)),
    Step::Assign(&[9; 5], Ok(())),
    Step::Len(5),
    Step::Capacity(8),
];

// Tests whether three values of a limit of 16 and none of a limit of five are exchanged.
fn are_exchanged(list: &mut Quiet<u64>, other: &mut Quiet<u64>) -> bool {
    list.swap(other);
    list.len() == 0 && list.limit() == 5 && other.len() == 3 && other.limit() == 16
}

// The same of lists that go, and whether the first one then takes five values.
fn are_exchanged_and_replaced(alloc: Global, mut list: Quiet<u64>, mut other: Quiet<u64>) -> bool {
    are_exchanged(&mut list, &mut other) && first_wrong(alloc, &mut list, &ASSIGNS_FIVE) == None
}

#[test]
fn lists_are_exchanged_and_replaced(rt: HostRuntime) {
    let other = Quiet::new(rt.alloc(), 5);
    assert!(rt; are_exchanged_and_replaced(rt.alloc(), list_of(&rt, &[1, 2, 3]), other));
}

// Five values are then where a million were. The capacity stays.
static AFTER_A_MILLION: [Step; 8] = [
    Step::PushAll(1_000_000, 1_048_577),
    Step::Len(1_048_577),
    Step::Capacity(1 << 21),
    Step::Reserve(5_000_000, Ok(())),
    Step::Assign(&[9; 5], Ok(())),
    Step::Len(5),
    Step::Capacity(1 << 23),
    Step::Get(4, Ok(9)),
];

#[test]
fn a_million_values_are_moved_in_and_pushed_on(rt: HostRuntime) {
    match vec![in rt.alloc(); 7u64; 1_000_000] {
        Ok(million) => {
            let mut list = listed(&rt, 1 << 32, million);
            assert_eq!(rt; first_wrong(rt.alloc(), &mut list, &AFTER_A_MILLION), None);
        }
        Err(_refused) => panic!(rt; "no memory"),
    }
}
