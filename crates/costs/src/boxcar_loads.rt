//! The loads on `boxcar::Vec`: a push, and reads at random places.
use crate::loads::{FILLED, FRESH, MORE};
use crate::other_vectors::push_boxcar;
use crate::reads::read_boxcar;
use crate::trial::{print_nanoseconds, time_threads};
use anyhow::Result;
use std::alloc::AllocGlobal;
use std::rt::Clock;
use std::sync::Wait;
use std::thread::Threads;

// Pushes the load's values on this one, and prints the nanoseconds that it took.
fn print_boxcar_time_on<R: Threads + Wait + Clock + Print + AllocGlobal + Sync>(
    rt: &R,
    list: &boxcar::Vec<u64>,
    threads: usize,
) -> Result<()> {
    let times = FRESH / (threads as u64).max(1);
    let (took, _wins) = time_threads(rt, threads, &|_| push_boxcar(rt, list, times))?;
    print_nanoseconds(rt, took)
}

// Reads as many values of this one as the load `at`, and prints the nanoseconds that it took.
fn print_boxcar_reads_on<R: Threads + Wait + Clock + Print + AllocGlobal + Sync>(
    rt: &R,
    list: &boxcar::Vec<u64>,
    threads: usize,
) -> Result<()> {
    push_boxcar(rt, list, FILLED);
    let times = MORE / (threads as u64).max(1);
    let (took, _odd) = time_threads(rt, threads, &|_| read_boxcar(list, times))?;
    print_nanoseconds(rt, took)
}

/// Fills a new `boxcar::Vec`, reads it at random places, and prints the nanoseconds that the reads took.
pub fn print_boxcar_reads<R: Threads + Wait + Clock + Print + AllocGlobal + Sync>(
    rt: &R,
    threads: usize,
) -> Result<()> {
    let list = boxcar::Vec::new(rt.alloc())?;
    let printed = print_boxcar_reads_on(rt, &list, threads);
    drop(list);
    printed
}

/// Pushes as many values as the load `push` on a new `boxcar::Vec`, and prints the nanoseconds that it took.
pub fn print_boxcar_time<R: Threads + Wait + Clock + Print + AllocGlobal + Sync>(
    rt: &R,
    threads: usize,
) -> Result<()> {
    let list = boxcar::Vec::new(rt.alloc())?;
    let printed = print_boxcar_time_on(rt, &list, threads);
    drop(list);
    printed
}
