// What a refusal gives back.
ghost use Rattle.seg_core.specs.Segment.{IsLimit};

use super::callers::Callers;
use super::steps::Call::{Grow, Push, Read, Size, TryGrow, TryPush};
use super::steps::Reply::{At, Full, Is, OutOfRange, Ran};
use super::steps::Step::{A, B};
use super::steps::{Reply, Step, first_wrong};
use super::ways::{Way, append_again};
use grow_core::{GrowError, Run};
use std::alloc::AllocGlobal;
use std::process::Abort;
use std::sync::Wait;

// Two values fill a vector of limit 2.
static FULL: [(Step, Reply); 4] = [
    (B(TryGrow(&[5, 6])), Ran(0, 2)),
    (A(TryPush(7)), Full(2)),
    (A(Push(7)), Full(2)),
    (B(Size), Is(2)),
];

#[test]
fn a_full_vector_gives_the_value_back(rt: HostRuntime) {
    assert_eq!(rt; first_wrong(&rt, 2, &FULL), None);
}

// A vector of limit 4 with one value has room for three.
static FOUR: [(Step, Reply); 3] = [
    (A(TryPush(5)), At(0)),
    (A(TryGrow(&[6, 7, 8, 9])), Full(1)),
    (B(Size), Is(1)),
];

#[test]
fn a_whole_vec_comes_back(rt: HostRuntime) {
    assert_eq!(rt; first_wrong(&rt, 4, &FOUR), None);
}

// One value fills a vector of limit 1.
static NOTHING: [(Step, Reply); 3] = [
    (A(TryPush(5)), At(0)),
    (A(TryGrow(&[])), Ran(1, 0)),
    (A(Grow(&[])), Ran(1, 0)),
];

#[test]
fn an_empty_growth_returns_an_empty_run(rt: HostRuntime) {
    assert_eq!(rt; first_wrong(&rt, 1, &NOTHING), None);
}

static NO_PLACE: [(Step, Reply); 2] = [
    (B(Read(0)), OutOfRange(0)),
    (B(Read(u64::MAX)), OutOfRange(0)),
];

#[test]
fn a_place_at_the_size_is_out_of_range(rt: HostRuntime) {
    assert_eq!(rt; first_wrong(&rt, 4, &NO_PLACE), None);
}

// A new vector, by a second call if memory was refused to the first.
pub(super) fn fresh_again<T: Drop, R: AllocGlobal + Abort>(rt: &R, limit: u64) -> Callers<T>
    requires { IsLimit limit }
{
    match Callers::try_new(rt.alloc(), limit) {
        Ok(two) => two,
        Err(_refused) => Callers::new(rt, limit),
    }
}

// Tests whether a value is appended, by a second call if memory was refused to the first.
fn push_again(two: &mut Callers<u64>, value: u64) -> bool {
    let pushed = two.vector.try_push_back(&mut two.a, value);
    let (is_pushed, back) = match &pushed {
        Ok(placed) => (*two.vector.get(placed) == value, None),
        Err(GrowError::NoMemory { back }) => (false, Some(*back)),
        Err(_other) => (false, None),
    };
    drop(pushed);
    is_pushed || back == Some(value) && two.push_a(value).is_some()
}

// Tests whether a value and then two are appended, each by a second call if memory was refused to the first.
fn appends_three<R: AllocGlobal + Wait>(rt: &R, two: &mut Callers<u64>) -> bool {
    let run = Run { from: 1, n: 2 };
    push_again(two, 5)
        && append_again(rt, two, &Way::TryVec, run, 6) == (Ok(run), 0)
        && two.size_b() == 3
}

// It passes too if any one allocation is made to fail: the call that asked for it gives back what it was
// given, and succeeds when it is called again.
#[test]
fn a_refused_allocation_gives_the_values_back(rt: HostRuntime) {
    let mut two = fresh_again(&rt, 8);
    let appends = appends_three(&rt, &mut two);
    drop(two);
    assert!(rt; appends);
}
