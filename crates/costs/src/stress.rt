//! The stress: on one small vector after another, threads with many hands each make random calls, and then
//! each place is compared with what the calls returned.
ghost use Rattle.std.specs.Prelude.{◌≡◌, All, IfOk};
ghost use Rattle.std.specs.Thread.{IsSync};
ghost use Rattle.grow_core.specs.Vector.{IsHandOf};

mod calls;
mod compare;
mod growths;
mod job;
mod random;
mod record;

use crate::shared_vector::open_empty;
use crate::stress::compare::compare_all;
use crate::stress::job::{Job, Outcome, run_job};
use crate::stress::random::Random;
use crate::stress::record::{Counts, Record};
use anyhow::{Result, ensure};
use grow_core::{Hand, Shared};
use std::alloc::{AllocError, AllocGlobal, Global};
use std::rt::Clock;
use std::sync::Wait;
use std::thread;
use std::thread::Threads;
use std::time::{Duration, Instant};

const THREADS: u64 = 4;

// How many shares each thread gets.
const SHARES: u32 = 10_000;

// The limits of the vectors are not above it.
const MOST: u64 = 65_536;

// A hand for each thread.
fn jobs_for(
    alloc: Global,
    number: u64,
    vector: &Shared<u64>,
    hand: &mut Hand<u64>,
) -> Result<Vec<Job>, AllocError>
    requires ours { IsHandOf vector.now hand.old }
    ensures of { hand.new.of ≡ hand.old.of }
    ensures jobs { IfOk result (λ jobs. All (λ job. IsHandOf vector.now job.hand) jobs.items) }
{
    let mut jobs = Vec::new(alloc);
    for thread in 0..THREADS {
        if hand.share() > SHARES {
            jobs.push(Job {
                vector: number,
                thread,
                hand: vector.split(hand, SHARES),
            })?;
        }
    }
    Ok(jobs)
}

// Joins the threads' hands to the hand, and returns what the threads' calls returned.
fn join_outcomes(
    alloc: Global,
    vector: &Shared<u64>,
    hand: &mut Hand<u64>,
    outcomes: Vec<Result<Outcome>>,
) -> Result<Vec<Record>>
    requires ours { IsHandOf vector.now hand.old }
    requires others_ours { All (λ o. IfOk o (λ o. IsHandOf vector.now o.hand)) outcomes.items }
    ensures of { hand.new.of ≡ hand.old.of }
{
    let mut records = Vec::new(alloc);
    for outcome in outcomes {
        let Outcome {
            hand: other,
            record,
        } = outcome?;
        vector.join(hand, other);
        records.push(record)?;
    }
    Ok(records)
}

// Runs all threads' calls by hands that are split off this one, and returns what they returned.
fn records_of<R: Threads + Wait + AllocGlobal + Sync>(
    rt: &R,
    number: u64,
    vector: &Shared<u64>,
    hand: &mut Hand<u64>,
) -> Result<Vec<Record>>
    requires ours { IsHandOf vector.now hand.old }
    ensures of { hand.new.of ≡ hand.old.of }
{
    let jobs = jobs_for(rt.alloc(), number, vector, hand)?;
    let outcomes = thread::map_vec(
        rt,
        jobs,
        &|job: Job| -> Result<Outcome>
            requires { IsSync R.row × IsHandOf vector.now job.hand }
            ensures { IfOk result (λ outcome. IsHandOf vector.entry.now outcome.hand) }
        { run_job(rt, vector, job) },
    )?;
    join_outcomes(rt.alloc(), vector, hand, outcomes)
}

// All threads' calls and the comparison.
fn stress_on<R: Threads + Wait + AllocGlobal + Sync>(
    rt: &R,
    number: u64,
    vector: &Shared<u64>,
    hand: &mut Hand<u64>,
    counts: &mut Counts,
) -> Result<()>
    requires ours { IsHandOf vector.now hand.old }
    ensures of { hand.new.of ≡ hand.old.of }
{
    let records = records_of(rt, number, vector, hand)?;
    counts.add(records.as_slice());
    compare_all(rt, vector, hand, records.as_slice())
}

// Closes the vector with a hand, if that has all shares.
fn close_vector(vector: Shared<u64>, hand: Hand<u64>) -> bool
    requires ours { IsHandOf vector hand }
{
    let is_whole = hand.is_whole();
    if is_whole {
        drop(vector.into_parts(hand));
    } else {
        drop((hand, vector));
    }
    is_whole
}

// The limit of the vector of this number.
fn limit_of(number: u64) -> u64 {
    1 + Random::new(number, THREADS).below(MOST)
}

// The vector of this number: all threads' calls, the comparison, and the close.
fn stress_one<R: Threads + Wait + AllocGlobal + Sync>(
    rt: &R,
    number: u64,
    counts: &mut Counts,
) -> Result<()> {
    let (vector, mut hand) = open_empty(rt.alloc(), limit_of(number))?;
    let compared = stress_on(rt, number, &vector, &mut hand, counts);
    let is_closed = close_vector(vector, hand);
    compared?;
    ensure!(is_closed, "shares were lost");
    Ok(())
}

/// Stresses one vector after another for this number of seconds, and prints the counts.
pub fn print_stress<R: Threads + Wait + Clock + Print + AllocGlobal + Sync>(
    rt: &R,
    seconds: u64,
) -> Result<()> {
    let mut counts = Counts::default();
    let start = Instant::now(rt)?;
    for number in 0..u64::MAX {
        if start.elapsed(rt)? >= Duration::from_secs(seconds) {
            break;
        }
        stress_one(rt, number, &mut counts)?;
    }
    println!(rt; "{counts}")?;
    Ok(())
}
