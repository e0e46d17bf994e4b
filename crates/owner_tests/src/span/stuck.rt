// Loops under a gate that refuses some workers: each worker passes the gate twice, also one that has no work.
ghost use Rattle.std.specs.Prelude.{◌<◌};

use super::{maps, numbered, sum_of};
use crate::gates::Refusing;
use crate::quiet::list_of;
use quiet_core::Quiet;
use span_core::{ParError, Span};
use std::alloc::Global;
use std::sync::Wait;
use std::thread::Threads;

// Tests whether all workers pass the gate, and both loops are stuck if it refuses a worker.
fn loops_pass<R: Threads + Wait + Sync>(
    rt: &R,
    alloc: Global,
    list: &Quiet<u64>,
    grain: u64,
    workers: u32,
    refused: (u32, u32),
) -> bool
    requires { 0 < grain }
{
    let (from, to) = refused;
    let (first, second) = (Refusing::new(from, to), Refusing::new(from, to));
    let stuck = if from < workers {
        Some(ParError::Stuck)
    } else {
        None
    };
    let span = Span::new(0, list.len(), grain);
    maps(rt, alloc, list, span, workers, &first, &[]).err() == stuck
        && sum_of(rt, alloc, list, grain, workers, &second).err() == stuck
        && first.is_passed(u64::from(workers))
        && second.is_passed(u64::from(workers))
}

// How many workers there are, and which of them are refused: from one number up to another.
static REFUSED: [(u32, (u32, u32)); 6] = [
    (3, (0, 1)),
    (3, (1, 2)),
    (3, (2, 3)),
    (9, (8, 9)),
    (16, (7, 8)),
    (64, (63, 64)),
];

#[test]
fn loops_are_stuck_whichever_worker_is_refused(rt: HostRuntime) {
    let list = numbered(&rt, 12);
    for (workers, refused) in REFUSED.as_slice() {
        assert!(rt;
            loops_pass(&rt, rt.alloc(), &list, 2, *workers, *refused),
            "{workers} {}",
            refused.0
        );
    }
}

#[test]
fn workers_without_work_pass_the_gate(rt: HostRuntime) {
    let list = list_of(&rt, &[0, 1, 4, 9, 16, 25, 36, 49, 64, 81]);
    assert!(rt; loops_pass(&rt, rt.alloc(), &list, 5, 5, (5, u32::MAX)));
    assert!(rt; loops_pass(&rt, rt.alloc(), &list, 5, 5, (2, u32::MAX)));
}
