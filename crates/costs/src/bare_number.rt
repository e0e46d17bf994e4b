//! The yardsticks: bare steps on one atomic number.
use crate::trial::{Trial, time_threads};
use anyhow::Result;
use std::alloc::AllocGlobal;
use std::rt::Clock;
use std::sync::atomic::{AtomicU64, Ordering};
use std::thread::Threads;

/// The kinds of step.
#[derive(Clone, Copy)]
pub enum Step {
    Exchange,
    Addition,
}

// One exchange a try, from what the try before found.
fn exchange(number: &AtomicU64, tries: u64) -> u64 {
    let mut from: u64 = 0;
    let mut won: u64 = 0;
    for _try in 0..tries {
        let to = from.wrapping_add(1);
        from = match number.compare_exchange(from, to, Ordering::SeqCst, Ordering::SeqCst) {
            Ok(_) => {
                won = won.wrapping_add(1);
                to
            }
            Err(found) => found,
        };
    }
    won
}

fn add(number: &AtomicU64, tries: u64) -> u64 {
    for _try in 0..tries {
        number.fetch_add(1, Ordering::SeqCst);
    }
    tries
}

// The tries of one thread on the number: how many of them won.
fn tries_of(step: Step, number: &AtomicU64, tries: u64) -> u64 {
    match step {
        Step::Exchange => exchange(number, tries),
        Step::Addition => add(number, tries),
    }
}

/// Runs bare steps of one kind.
pub fn run_steps<R: Threads + Clock + AllocGlobal + Sync>(
    rt: &R,
    step: Step,
    threads: usize,
    tries: u64,
) -> Result<Trial> {
    let number = AtomicU64::new(0);
    let (took, wins) = time_threads(rt, threads, &|_| tries_of(step, &number, tries))?;
    Ok(Trial {
        took,
        wins,
        size: number.load(Ordering::SeqCst),
    })
}
