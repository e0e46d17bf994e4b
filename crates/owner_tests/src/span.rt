//! Facts that no clause states: that the loops return if there is memory, that two threads really run at
//! once, and the gate's order.
ghost use Rattle.std.specs.Prelude.{◌<◌, ◌≤◌, length};

mod all_come;
mod buffered_writers;
mod halves;
mod hands;
mod lent_writers;
mod many_hands;
mod memory;
mod outcomes;
mod ratios;
mod refusals;
mod segments;
mod shared_writers;
mod stuck;
mod uses;
mod watch;
mod ways;
mod writer_calls;
mod writers;

use crate::quiet::{list_of, pushes_all};
use quiet_core::Quiet;
use span_core::{Free, Gate, PairGate, ParError, Span, par_map, par_reduce};
use std::alloc::{AllocGlobal, Global};
use std::process::Abort;
use std::sync::Wait;
use std::thread::Threads;

// Tests whether leaves have these bounds.
fn have_bounds(leaves: &[Span], bounds: &[(u64, u64)]) -> bool {
    if leaves.len() != bounds.len() {
        return false;
    }
    for number in 0..leaves.len() {
        let leaf = &leaves[number];
        if (leaf.from(), leaf.to()) != bounds[number] {
            return false;
        }
    }
    true
}

fn is_cut(alloc: Global, span: Span, bounds: &[(u64, u64)]) -> Option<bool> {
    let leaves = span.leaves(alloc).ok()?;
    Some(have_bounds(leaves.as_slice(), bounds))
}

static TEN: [(u64, u64); 4] = [(0, 2), (2, 5), (5, 7), (7, 10)];

static NONE: [(u64, u64); 1] = [(4, 4)];

#[test]
fn leaves_are_cut_in_the_middle(rt: HostRuntime) {
    assert!(rt; is_cut(rt.alloc(), Span::new(0, 10, 3), &TEN) == Some(true));
    assert!(rt; is_cut(rt.alloc(), Span::new(4, 4, 1), &NONE) == Some(true));
}

// A list of the numbers below n.
fn numbered<R: AllocGlobal + Abort>(rt: &R, n: u64) -> Quiet<u64> {
    let mut list = Quiet::new(rt.alloc(), 1 << 32);
    assert!(rt; pushes_all(&mut list, 0, n));
    list
}

// Tests whether a map returns these places with their values.
fn maps<R: Threads + Wait + Sync, G: Gate + Sync>(
    rt: &R,
    alloc: Global,
    list: &Quiet<u64>,
    span: Span,
    workers: u32,
    gate: &G,
    wanted: &[(u64, Option<u64>)],
) -> Result<bool, ParError>
    requires { span.to ≤ length list.now.members }
{
    let f = |place: u64, value: Option<&u64>| (place, value.copied());
    let all = par_map(rt, alloc, list, span, workers, f, gate)?;
    Ok(all.as_slice() == wanted)
}

// The sum of the values of a list, by leaves of `grain` places at most.
fn sum_of<R: Threads + Wait + Sync, G: Gate + Sync>(
    rt: &R,
    alloc: Global,
    list: &Quiet<u64>,
    grain: u64,
    workers: u32,
    gate: &G,
) -> Result<u64, ParError>
    requires { 0 < grain }
{
    let f = |_place: u64, value: Option<&u64>| value.copied().unwrap_or(0);
    let join = |a: u64, b: u64| a.wrapping_add(b);
    let span = Span::new(0, list.len(), grain);
    par_reduce(rt, alloc, list, span, workers, f, 0u64, join, gate)
}

static SQUARES: [u64; 10] = [0, 1, 4, 9, 16, 25, 36, 49, 64, 81];

static THREE: [(u64, Option<u64>); 3] = [(2, Some(4)), (3, Some(9)), (4, Some(16))];

fn every_number_of_workers_answers_the_same<R: Threads + Wait + Sync>(
    rt: &R,
    alloc: Global,
    squares: &Quiet<u64>,
) -> bool {
    if squares.len() != 10 {
        return false;
    }
    for workers in 1..7 {
        let span = Span::new(2, 5, 1);
        if maps(rt, alloc, squares, span, workers, &Free, &THREE) != Ok(true)
            || sum_of(rt, alloc, squares, 3, workers, &Free) != Ok(285)
        {
            return false;
        }
    }
    true
}

// Sums of numbers of each type that is unsigned, in pairs.
type Sums = ((u8, u16), ((u32, u128), usize));

fn sums_of_one(n: u8) -> Sums {
    (
        (n, u16::from(n)),
        ((u32::from(n), u128::from(n)), usize::from(n)),
    )
}

fn joined(a: Sums, b: Sums) -> Sums {
    let ((a0, a1), ((a2, a3), a4)) = a;
    let ((b0, b1), ((b2, b3), b4)) = b;
    (
        (a0.wrapping_add(b0), a1.wrapping_add(b1)),
        (
            (a2.wrapping_add(b2), a3.wrapping_add(b3)),
            a4.wrapping_add(b4),
        ),
    )
}

// The sums of the values of a list, by some workers.
fn sums_of<R: Threads + Wait + Sync>(
    rt: &R,
    alloc: Global,
    list: &Quiet<u64>,
    workers: u32,
) -> Result<Sums, ParError> {
    let f = |_place: u64, value: Option<&u64>| -> Sums {
        sums_of_one(u8::try_from(value.copied().unwrap_or(0)).unwrap_or(0))
    };
    let join = |a: Sums, b: Sums| -> Sums { joined(a, b) };
    let span = Span::new(0, list.len(), 3);
    par_reduce(
        rt,
        alloc,
        list,
        span,
        workers,
        f,
        sums_of_one(0),
        join,
        &Free,
    )
}

// The sum of the squares is 285, and 29 in eight bits.
#[test]
fn numbers_of_all_types_are_summed_in_pairs(rt: HostRuntime) {
    let list = list_of(&rt, &SQUARES);
    for workers in [1, 3].as_slice() {
        let sums = sums_of(&rt, rt.alloc(), &list, *workers);
        assert!(rt; sums == Ok(((29, 285), ((285, 285), 285))), "{workers}");
    }
}

static ALL: [(u64, Option<u64>); 10] = [
    (0, Some(0)),
    (1, Some(1)),
    (2, Some(4)),
    (3, Some(9)),
    (4, Some(16)),
    (5, Some(25)),
    (6, Some(36)),
    (7, Some(49)),
    (8, Some(64)),
    (9, Some(81)),
];

// A number of workers, how often one of a pair looks for the other, and whether a map in four leaves returns
// all values.
static PAIRS: [(u32, u64, Result<bool, ParError>); 3] = [
    (2, 1_000_000_000, Ok(true)),
    (2, 0, Err(ParError::Stuck)),
    (1, 1000, Err(ParError::Stuck)),
];

#[test]
fn loops_over_ten_squares_return_if_the_gate_lets_them_through(rt: HostRuntime) {
    let list = list_of(&rt, &SQUARES);
    assert!(rt; every_number_of_workers_answers_the_same(&rt, rt.alloc(), &list));
    for (workers, turns, returned) in PAIRS.as_slice() {
        let gate = PairGate::new(*turns);
        let span = Span::new(0, list.len(), 3);
        let mapped = maps(&rt, rt.alloc(), &list, span, *workers, &gate, &ALL);
        assert!(rt; mapped == *returned, "{workers} {turns}");
    }
}

#[test]
fn one_of_a_pair_waits_in_vain_until_the_other_came(rt: HostRuntime) {
    let gate = PairGate::new(5);
    let through = [
        gate.before(0),
        gate.before(1),
        gate.before(0),
        gate.before(2),
    ];
    assert!(rt; through == [false, true, true, true]);
}
