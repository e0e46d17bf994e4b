//! Workers that walk over a shared vector together: each place is one worker's, in order, and is looked at once.

use super::numbered;
use grow_core::{Shared, ShownCells};
use span_core::{Free, Gate, PairGate, ParError, WorkerCells, par_for_segments};
use std::alloc::{AllocGlobal, Global};
use std::process::Abort;
use std::sync::Wait;
use std::thread::Threads;

// The places next to each other that are one worker's.
const STRETCH: u64 = 4096;

// What workers found: the sum of what their places show, the number of these places, and whether each worker was given
// its own, in order.
#[derive(Clone, Copy, PartialEq)]
struct Found {
    sum: u64,
    places: u64,
    are_own: bool,
}

// The sum of the values that the places show.
fn sum_shown(cells: &ShownCells<'_, u64>) -> u64 {
    let mut sum: u64 = 0;
    for item in cells.iter() {
        sum = sum.wrapping_add(item.copied().unwrap_or(0));
    }
    sum
}

// Tests whether the places are all in one stretch of this worker, and not before place `after`.
fn are_next(cells: &ShownCells<'_, u64>, worker: u64, workers: u64, after: u64) -> bool {
    let stretch = cells.from() / STRETCH;
    let last = cells.from().wrapping_add(cells.len() - 1) / STRETCH;
    stretch % workers.max(1) == worker && last == stretch && cells.from() >= after
}

// What one of these workers finds.
fn find(cells: WorkerCells<'_, u64>, workers: u32) -> Found {
    let worker = cells.worker() as u64;
    let mut after: u64 = 0;
    let mut found = Found {
        sum: 0,
        places: 0,
        are_own: true,
    };
    for part in cells {
        found.are_own = found.are_own && are_next(&part, worker, workers as u64, after);
        found.sum = found.sum.wrapping_add(sum_shown(&part));
        found.places = found.places.wrapping_add(part.len());
        after = part.from().wrapping_add(part.len());
        drop(part);
    }
    found
}

// What all of them found.
fn all_found(each: &[Found]) -> Found {
    let mut all = Found {
        sum: 0,
        places: 0,
        are_own: true,
    };
    for found in each {
        all.sum = all.sum.wrapping_add(found.sum);
        all.places = all.places.wrapping_add(found.places);
        all.are_own = all.are_own && found.are_own;
    }
    all
}

// What this number of workers find.
fn found_by<R: Threads + Wait + Sync, G: Gate + Sync>(
    rt: &R,
    alloc: Global,
    vector: &Shared<u64>,
    workers: u32,
    gate: &G,
) -> Result<Found, ParError> {
    let work = |cells: WorkerCells<'_, u64>| -> Found { find(cells, workers) };
    let each = par_for_segments(rt, alloc, vector, workers, &work, gate)?;
    Ok(all_found(each.as_slice()))
}

// Tests whether each of these numbers of workers finds all values: the numbers below the size.
fn find_all_of<R: Threads + Wait + Sync>(
    rt: &R,
    alloc: Global,
    vector: &Shared<u64>,
    size: u64,
    numbers: &[u32],
) -> bool {
    let wanted = Found {
        sum: size.wrapping_mul(size.saturating_sub(1)) / 2,
        places: size,
        are_own: true,
    };
    for workers in numbers {
        if found_by(rt, alloc, vector, *workers, &Free) != Ok(wanted) {
            return false;
        }
    }
    true
}

// The same of a new vector.
fn find_all<R: Threads + Wait + Sync + AllocGlobal + Abort>(
    rt: &R,
    size: u64,
    numbers: &[u32],
) -> Option<bool> {
    let (vector, hand) = numbered(rt, size).open().ok()?;
    let is_found = find_all_of(rt, rt.alloc(), &vector, size, numbers);
    drop((vector, hand));
    Some(is_found)
}

static NUMBERS: [u32; 5] = [1, 2, 3, 7, 64];

#[test]
fn workers_find_each_place_once(rt: HostRuntime) {
    for size in [0u64, 1, 4095, 4096, 4097, 50_000] {
        assert!(rt;
            find_all(&rt, size, NUMBERS.as_slice()) == Some(true),
            "{size}"
        );
    }
}

#[test]
fn four_workers_find_two_million_places(rt: HostRuntime) {
    assert!(rt; find_all(&rt, (1 << 21) + 5, &[4]) == Some(true));
}

// Why no worker walks, if none does.
fn refusal_of<R: Threads + Wait + Sync + AllocGlobal + Abort, G: Gate + Sync>(
    rt: &R,
    workers: u32,
    gate: &G,
) -> Option<ParError> {
    let (vector, hand) = numbered(rt, 10).open().ok()?;
    let refusal = found_by(rt, rt.alloc(), &vector, workers, gate).err();
    drop((vector, hand));
    refusal
}

#[test]
fn no_worker_walks_if_there_are_none_or_too_many_or_the_gate_stays_shut(rt: HostRuntime) {
    assert!(rt; refusal_of(&rt, 0, &Free) == Some(ParError::BadWorkers));
    assert!(rt; refusal_of(&rt, 65, &Free) == Some(ParError::BadWorkers));
    assert!(rt; refusal_of(&rt, 1, &PairGate::new(100)) == Some(ParError::Stuck));
}
