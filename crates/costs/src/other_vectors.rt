//! The yardsticks of a push: a `Vec` under a lock, and `boxcar`, the kit's vector that threads push on
//! without one. Each has room for all values before the time starts.
use crate::trial::{Trial, time_threads};
use anyhow::Result;
use std::alloc::AllocGlobal;
use std::rt::Clock;
use std::sync::{Mutex, Wait};
use std::thread::Threads;

// How many of the pushes appended a value.
fn count_pushes<F: Fn(u64) -> bool>(tries: u64, push: &F) -> u64
    requires callable { F.IsAlwaysCallable push.now }
{
    let mut won: u64 = 0;
    for value in 0..tries {
        if push(value) {
            won = won.wrapping_add(1);
        }
    }
    won
}

fn push_locked<R: Wait>(rt: &R, list: &Mutex<Vec<u64>>, tries: u64) -> u64 {
    count_pushes(tries, &|value| list.lock(rt).push(value).is_ok())
}

/// Pushes into a `Vec` under a `Mutex`.
pub fn run_locked<R: Threads + Wait + Clock + AllocGlobal + Sync>(
    rt: &R,
    threads: usize,
    tries: u64,
) -> Result<Trial> {
    let room = threads.saturating_mul(tries as usize);
    let list = Mutex::new(Vec::with_capacity(rt.alloc(), room)?);
    let timed = time_threads(rt, threads, &|_| push_locked(rt, &list, tries));
    let size = list.into_inner().len() as u64;
    let (took, wins) = timed?;
    Ok(Trial { took, wins, size })
}

/// Pushes values and returns how many were appended.
pub fn push_boxcar<R: Wait>(rt: &R, list: &boxcar::Vec<u64>, tries: u64) -> u64 {
    count_pushes(tries, &|value| list.push(rt, value).is_ok())
}

fn push_on_boxcar<R: Threads + Wait + Clock + AllocGlobal + Sync>(
    rt: &R,
    list: &boxcar::Vec<u64>,
    threads: usize,
    tries: u64,
) -> Result<Trial> {
    let (took, wins) = time_threads(rt, threads, &|_| push_boxcar(rt, list, tries))?;
    Ok(Trial {
        took,
        wins,
        size: list.count() as u64,
    })
}

/// Pushes on a `boxcar::Vec`.
pub fn run_boxcar<R: Threads + Wait + Clock + AllocGlobal + Sync>(
    rt: &R,
    threads: usize,
    tries: u64,
) -> Result<Trial> {
    let room = threads.saturating_mul(tries as usize);
    let list = boxcar::Vec::with_capacity(rt.alloc(), room)?;
    let pushed = push_on_boxcar(rt, &list, threads, tries);
    drop(list);
    pushed
}
