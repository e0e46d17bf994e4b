//! A walk over a vector while other threads append to it.
ghost use Rattle.std.specs.Prelude.{◌<◌};
ghost use Rattle.std.specs.Thread.{IsSync};
ghost use Rattle.grow_core.specs.Vector.{IsHandOf};

use crate::reads::read_walk;
use crate::shared_vector::{hands_for, open_empty, push, push_once};
use crate::trial::{print_nanoseconds, time_hands};
use anyhow::Result;
use grow_core::{Hand, Shared};
use std::alloc::AllocGlobal;
use std::rt::Clock;
use std::sync::Wait;
use std::sync::atomic::{AtomicBool, AtomicU64, Ordering};
use std::thread::Threads;

// The places that are filled before: the last one is the first of its segment.
const FILLED: u64 = (1 << 23) + 1;

// The places that the walk is over.
const WALKED: u64 = 8_000_000;

// The values that each of the other threads appends at most: more than it can during the walk.
const MORE: u64 = 2_000_000;

// What the threads share: how many have begun, and whether the walk is over.
#[derive(Drop)]
struct Walk {
    begun: AtomicU64,
    is_over: AtomicBool,
}

// Pushes values until the walk is over, and returns how many were appended.
fn push_until<R: Wait>(
    rt: &R,
    vector: &Shared<u64>,
    mut hand: Hand<u64>,
    is_over: &AtomicBool,
) -> u64
    requires ours { IsHandOf vector.now hand }
{
    let mut won: u64 = 0;
    for value in 0..MORE {
        if is_over.load(Ordering::SeqCst) {
            break;
        }
        if push_once(rt, vector, &mut hand, value) {
            won = won.wrapping_add(1);
        }
    }
    drop(hand);
    won
}

// One thread's part: the first one walks, and the others push meanwhile.
fn walk_or_push<R: Wait>(rt: &R, vector: &Shared<u64>, hand: Hand<u64>, walk: &Walk) -> u64
    requires ours { IsHandOf vector.now hand }
{
    if walk.begun.fetch_add(1, Ordering::SeqCst) > 0 {
        return push_until(rt, vector, hand, &walk.is_over);
    }
    let odd = read_walk(vector, WALKED);
    walk.is_over.store(true, Ordering::SeqCst);
    drop(hand);
    odd
}

// Walks over the first places while this many threads push, and prints the nanoseconds until the walk is over.
fn print_walk_on<R: Threads + Wait + Clock + Print + AllocGlobal + Sync>(
    rt: &R,
    vector: &Shared<u64>,
    hand: &mut Hand<u64>,
    threads: usize,
) -> Result<()>
    requires ours { IsHandOf vector.now hand.old }
    requires more_than_one { 1 < hand.old.shares }
{
    push(rt, vector, vector.split(hand, 1), FILLED);
    let hands = hands_for(rt.alloc(), vector, hand, threads.saturating_add(1), 1)?;
    let walk = Walk {
        begun: AtomicU64::new(0),
        is_over: AtomicBool::new(false),
    };
    let timed = time_hands(
        rt,
        hands,
        &|hand: Hand<u64>| -> u64
            requires { IsSync R.row × IsHandOf vector.now hand }
        { walk_or_push(rt, vector, hand, &walk) },
    );
    drop(walk);
    let (took, _wins) = timed?;
    print_nanoseconds(rt, took)
}

/// Walks over eight million places of a new vector while this many threads push, and prints the nanoseconds until the
/// walk is over.
pub fn print_pushed_walk<R: Threads + Wait + Clock + Print + AllocGlobal + Sync>(
    rt: &R,
    threads: usize,
) -> Result<()> {
    let limit = (threads as u64).saturating_mul(MORE).saturating_add(FILLED);
    let (vector, mut hand) = open_empty(rt.alloc(), limit)?;
    let printed = print_walk_on(rt, &vector, &mut hand, threads);
    drop((hand, vector));
    printed
}
