//! The figures, which are printed only when they are asked for.
use crate::operation::{GROUPS, Group, Operation};
use anyhow::Result;
use std::alloc::AllocGlobal;
use std::rt::Clock;
use std::sync::Wait;
use std::thread::Threads;

// How often each operation is measured.
const ROUNDS: usize = 7;

// How many threads there are.
static THREADS: [usize; 3] = [1, 2, 4];

// The least, the middle and the greatest time of the rounds.
#[derive(Clone, Copy)]
struct Spread {
    least: u64,
    middle: u64,
    most: u64,
}

// The picoseconds that a try takes a thread.
fn time_of<R: Threads + Wait + Clock + AllocGlobal + Sync>(
    rt: &R,
    operation: Operation,
    threads: usize,
    tries: u64,
) -> Result<u64> {
    let took = operation.run(rt, threads, tries)?.took.as_nanos();
    Ok(u64::try_from(took.saturating_mul(1000) / u128::from(tries.max(1))).unwrap_or(u64::MAX))
}

// The times of a group's operations.
fn round_of<R: Threads + Wait + Clock + AllocGlobal + Sync>(
    rt: &R,
    group: Group,
    threads: usize,
) -> Result<[u64; 3]> {
    let [first, second, third] = group.operations;
    Ok([
        time_of(rt, first, threads, group.tries)?,
        time_of(rt, second, threads, group.tries)?,
        time_of(rt, third, threads, group.tries)?,
    ])
}

// The times of a group's operations, in each round. The operations take turns, so that other work on the
// machine meets all.
fn rounds_of<R: Threads + Wait + Clock + AllocGlobal + Sync>(
    rt: &R,
    group: Group,
    threads: usize,
) -> Result<Vec<[u64; 3]>> {
    let mut rounds = Vec::new(rt.alloc());
    for _round in 0..ROUNDS {
        rounds.push(round_of(rt, group, threads)?)?;
    }
    Ok(rounds)
}

// The time at this index.
fn time_at(times: &[u64], index: usize) -> u64 {
    times.get(index).copied().unwrap_or(0)
}

// How the times of the operation at this index of its group are spread.
fn spread_of<R: AllocGlobal>(rt: &R, rounds: &[[u64; 3]], index: usize) -> Result<Spread> {
    let mut times = Vec::new(rt.alloc());
    for round in rounds {
        times.push(time_at(round.as_slice(), index))?;
    }
    times.sort()?;
    Ok(Spread {
        least: time_at(times.as_slice(), 0),
        middle: time_at(times.as_slice(), ROUNDS / 2),
        most: time_at(times.as_slice(), ROUNDS - 1),
    })
}

// Picoseconds as nanoseconds, with one digit after the point.
fn print_time<R: Print>(rt: &R, time: u64) -> Result<()> {
    print!(rt; " {:>6}.{}", time / 1000, time / 100 % 10)?;
    Ok(())
}

// One row. The ratio is the middle time of the group's first operation to this one's.
fn print_row<R: Print>(
    rt: &R,
    threads: usize,
    operation: Operation,
    time: Spread,
    first: Spread,
) -> Result<()> {
    let name = operation.name();
    print!(rt; "{threads:<8} {name:<15}")?;
    print_time(rt, time.least)?;
    print_time(rt, time.middle)?;
    print_time(rt, time.most)?;
    let ratio = first.middle.saturating_mul(100) / time.middle.max(1);
    println!(rt; " {:>5}.{:02}", ratio / 100, ratio % 100)?;
    Ok(())
}

fn print_group<R: Threads + Wait + Clock + Print + AllocGlobal + Sync>(
    rt: &R,
    group: Group,
    threads: usize,
) -> Result<()> {
    let rounds = rounds_of(rt, group, threads)?;
    let first = spread_of(rt, rounds.as_slice(), 0)?;
    for index in 0..group.operations.len() {
        let time = spread_of(rt, rounds.as_slice(), index)?;
        print_row(rt, threads, group.operations[index], time, first)?;
    }
    Ok(())
}

fn print_operations<R: Threads + Wait + Clock + Print + AllocGlobal + Sync>(
    rt: &R,
    group: Group,
) -> Result<()> {
    for threads in THREADS.as_slice() {
        print_group(rt, group, *threads)?;
    }
    Ok(())
}

fn print_head<R: Print>(rt: &R) -> Result<()> {
    println!(rt;
        "nanoseconds a try, of {ROUNDS} rounds; the ratio of a group's first operation to each"
    )?;
    println!(rt; "threads  what               least   middle     most    ratio")?;
    Ok(())
}

/// Prints the nanoseconds per try and thread, for one, two and four threads.
pub fn print_figures<R: Threads + Wait + Clock + Print + AllocGlobal + Sync>(rt: &R) -> Result<()> {
    print_head(rt)?;
    for group in GROUPS.as_slice() {
        print_operations(rt, *group)?;
    }
    Ok(())
}
