//! What one run of a measured operation gives, and the time that its threads take.
ghost use Rattle.std.specs.Fork.{AcceptsJobs};
ghost use Rattle.std.specs.Thread.{IsSync};

use crate::start::{Start, Timed};
use anyhow::{Result, bail};
use std::alloc::AllocGlobal;
use std::rt::Clock;
use std::thread;
use std::thread::Threads;
use std::time::Duration;

/// The time of the tries, the number of wins, and the size that they left; the last two are equal if no win
/// is lost.
#[derive(Clone, Copy)]
pub struct Trial {
    pub took: Duration,
    pub wins: u64,
    pub size: u64,
}

// What all threads did together. The list is empty if there was no thread.
fn all_of(parts: &[Option<Timed>]) -> Result<Option<Timed>> {
    let mut all: Option<Timed> = None;
    for part in parts {
        let Some(timed) = *part else {
            bail!("the clock cannot be read")
        };
        all = match all {
            Some(before) => Some(before.with(timed)),
            None => Some(timed),
        };
    }
    Ok(all)
}

// The time from the beginning of the first thread's tries to the end of the last one's, and all wins.
fn total_of(parts: &[Option<Timed>]) -> Result<(Duration, u64)> {
    match all_of(parts)? {
        Some(all) => Ok((all.ended.duration_since(all.begun), all.wins)),
        None => Ok((Duration::ZERO, 0)),
    }
}

/// Runs the tries in this many threads, and returns their time and the number of wins. Several threads first gather
/// (`Start`): the time goes from when all have come to the end of the last one's tries.
pub fn time_threads<R: Threads + Clock + AllocGlobal + Sync, F: Fn(usize) -> u64 + Sync>(
    rt: &R,
    threads: usize,
    tries_of: &F,
) -> Result<(Duration, u64)>
    requires callable { F.IsAlwaysCallable tries_of.now }
{
    let start = Start::new(threads);
    let parts = thread::map_indices(
        rt,
        rt.alloc(),
        threads,
        &|i: usize| -> Option<Timed>
            requires { IsSync R.row × IsSync F.row × F.pre tries_of.now i }
        {
            let begun = start.begin(rt)?;
            Timed::until_now(rt, begun, tries_of(i))
        },
    )?;
    total_of(parts.as_slice())
}

/// Times the tries like `time_threads`, with one thread per hand.
pub fn time_hands<R: Threads + Clock + Sync, H: Send + Drop, F: Fn(H) -> u64 + Sync>(
    rt: &R,
    hands: Vec<H>,
    tries_of: &F,
) -> Result<(Duration, u64)>
    requires callable { AcceptsJobs F.Fn tries_of.now hands.items }
{
    let start = Start::new(hands.len());
    let parts = thread::map_vec(
        rt,
        hands,
        &|hand: H| -> Option<Timed>
            requires { IsSync R.row × IsSync F.row × F.pre tries_of.now hand }
        {
            let begun = start.begin(rt)?;
            Timed::until_now(rt, begun, tries_of(hand))
        },
    )?;
    total_of(parts.as_slice())
}

/// Tests whether a call succeeded. It is generic, and drops the result, so that no caller's proof has to.
#[inline(always)]
pub fn succeeded<T: Drop, E: Drop>(answer: Result<T, E>) -> bool {
    answer.is_ok()
}

/// Prints the nanoseconds of a time.
pub fn print_nanoseconds<R: Print>(rt: &R, time: Duration) -> Result<()> {
    println!(rt; "{}", time.as_nanos())?;
    Ok(())
}
