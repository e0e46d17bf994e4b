// Looks of a caller without a hand, and values that are appended without tokens.
use super::callers::Callers;
use super::steps::Call::{Append, Make, TryPush};
use super::steps::Reply::{At, Broken, Done, Full, Is, Pending, Ran, Refused};
use super::steps::Step::{A, B, Look, Walk};
use super::steps::{Form, Reply, Step, first_wrong};
use super::ways::numbers;
use grow_core::{Run, Shared};
use std::alloc::AllocGlobal;
use std::sync::Wait;

// A walk shows values, broken places and no others, none at first.
static WALKS: [(Step, Reply); 5] = [
    (Walk(&[]), Done),
    (A(TryPush(5)), At(0)),
    (A(Make(Form::Try, 3, 1)), Refused(1, 3, 1)),
    (B(Append(&[8, 9])), Ran(4, 2)),
    (Walk(&[5, 7, 0, 0, 8, 9]), Done),
];

#[test]
fn a_walk_shows_each_place_below_the_size(rt: HostRuntime) {
    assert_eq!(rt; first_wrong(&rt, 8, &WALKS), None);
}

// A look shows values, broken places, and nothing yet where nobody claimed or can claim.
static LOOKS: [(Step, Reply); 7] = [
    (A(TryPush(5)), At(0)),
    (A(Make(Form::Try, 3, 1)), Refused(1, 3, 1)),
    (Look(0), Is(5)),
    (Look(1), Is(7)),
    (Look(3), Broken),
    (Look(4), Pending),
    (Look(u64::MAX), Pending),
];

#[test]
fn a_look_needs_no_hand(rt: HostRuntime) {
    assert_eq!(rt; first_wrong(&rt, 8, &LOOKS), None);
}

// A vector of limit 2 with one value gives two back, and takes one, and none.
static GIVES_BACK: [(Step, Reply); 5] = [
    (A(TryPush(5)), At(0)),
    (B(Append(&[6, 7])), Full(1)),
    (B(Append(&[6])), Ran(1, 1)),
    (B(Append(&[])), Ran(2, 0)),
    (Walk(&[5, 6]), Done),
];

#[test]
fn a_full_vector_gives_appended_values_back(rt: HostRuntime) {
    assert_eq!(rt; first_wrong(&rt, 2, &GIVES_BACK), None);
}

// The sum of what a walk shows, and how many places it has.
fn sum_of(vector: &Shared<u64>) -> (u64, u64) {
    let mut sum: u64 = 0;
    let mut places: u64 = 0;
    for item in vector.published() {
        sum = sum.wrapping_add(item.copied().unwrap_or(0));
        places = places.wrapping_add(1);
    }
    (sum, places)
}

// Tests whether a million values come to their places.
fn appends_a_million<R: AllocGlobal + Wait>(rt: &R, two: &mut Callers<u64>) -> bool {
    let Some(values) = numbers(rt.alloc(), 0, 1_000_000) else {
        return false;
    };
    let run = Run {
        from: 0,
        n: 1_000_000,
    };
    two.vector.append(rt, &mut two.b, values).ok() == Some(run)
        && sum_of(&two.vector) == (499_999_500_000, 1_000_000)
        && two.vector.published_count() == 1_000_000
}

#[test]
fn a_million_values_are_appended_without_tokens(rt: HostRuntime) {
    let mut two = Callers::new(&rt, 4_294_967_296);
    let appends = appends_a_million(&rt, &mut two);
    drop(two);
    assert!(rt; appends);
}
