//! Walks over a list, and of several workers over a vector together.
ghost use Rattle.std.specs.Thread.{IsSync};

use crate::lists::open_cut;
use crate::reads::{ROUNDS, count_odd};
use crate::shared_vector::{open_empty, push};
use crate::trial::{print_nanoseconds, time_threads};
use anyhow::{Result, ensure};
use grow_core::Shared;
use quiet_core::Quiet;
use seg_core::Layout;
use span_core::{Free, WorkerCells, par_for_segments};
use std::alloc::{AllocGlobal, Global};
use std::rt::Clock;
use std::sync::Wait;
use std::thread::Threads;

// The most workers that walk together.
const MOST_WORKERS: usize = 64;

// Walks over the first members of a list, and returns how many of them were odd.
#[inline(never)]
fn read_list(list: &Quiet<u64>, reads: u64) -> u64 {
    let mut odd: u64 = 0;
    let mut left = reads;
    for item in list.iter() {
        if left == 0 {
            break;
        }
        left -= 1;
        odd = odd.wrapping_add(item.copied().unwrap_or(0) & 1);
    }
    odd
}

// Walks over them again and again, with this many reads in all, and returns how many were odd.
fn read_list_walks(list: &Quiet<u64>, reads: u64) -> u64 {
    let mut odd: u64 = 0;
    for _round in 0..ROUNDS {
        odd = odd.wrapping_add(read_list(list, reads / ROUNDS));
    }
    odd
}

/// Walks over the members of a list in this many threads, each with this many reads, and prints the nanoseconds that the
/// walks took.
pub fn print_iter_time<R: Threads + Clock + Print + AllocGlobal + Sync>(
    rt: &R,
    filled: u64,
    reads: u64,
    threads: usize,
) -> Result<()> {
    let (vector, hand) = open_cut(rt.alloc(), Layout::default(), filled, filled)?;
    let list = Quiet::close(vector, hand);
    let timed = time_threads(
        rt,
        threads,
        &|_: usize| -> u64 { read_list_walks(&list, reads) },
    );
    drop(list);
    let (took, _odd) = timed?;
    print_nanoseconds(rt, took)
}

// How many values of a worker's places are odd.
#[inline(never)]
fn count_odd_of(parts: WorkerCells<'_, u64>) -> u64 {
    let mut odd: u64 = 0;
    for cells in parts {
        odd = odd.wrapping_add(count_odd(cells.filled(0)));
    }
    odd
}

// Lets workers walk over a vector once, and returns how many values were odd: none if there was no memory or no thread.
fn read_by_workers<R: Threads + Wait + Sync>(
    rt: &R,
    alloc: Global,
    vector: &Shared<u64>,
    workers: u32,
) -> u64 {
    let work = |parts: WorkerCells<'_, u64>| -> u64 { count_odd_of(parts) };
    match par_for_segments(rt, alloc, vector, workers, &work, &Free) {
        Ok(counts) => counts
            .iter()
            .fold(0u64, |sum, count| sum.wrapping_add(*count)),
        Err(_) => 0,
    }
}

// Lets them walk over it again and again.
fn read_walks_by_workers<R: Threads + Wait + AllocGlobal + Sync>(
    rt: &R,
    vector: &Shared<u64>,
    workers: u32,
    rounds: u64,
) -> u64 {
    let mut odd: u64 = 0;
    for _round in 0..rounds {
        odd = odd.wrapping_add(read_by_workers(rt, rt.alloc(), vector, workers));
    }
    odd
}

/// Lets this many workers walk over the values of a new vector together, with this many reads in all, and prints the
/// nanoseconds that the walks took. The workers' threads start in this time.
pub fn print_parallel_time<R: Threads + Wait + Clock + Print + AllocGlobal + Sync>(
    rt: &R,
    filled: u64,
    reads: u64,
    workers: usize,
) -> Result<()> {
    let (vector, hand) = open_empty(rt.alloc(), filled)?;
    let filled = push(rt, &vector, hand, filled);
    let rounds = reads / filled.max(1);
    let count = workers.min(MOST_WORKERS) as u32;
    let timed = time_threads(
        rt,
        1,
        &|_: usize| -> u64
            requires { IsSync R.row }
        { read_walks_by_workers(rt, &vector, count, rounds) },
    );
    drop(vector);
    let (took, odd) = timed?;
    ensure!(odd == rounds.wrapping_mul(filled / 2), "values were lost");
    print_nanoseconds(rt, took)
}
