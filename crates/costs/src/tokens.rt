//! Reads by tokens at places that are picked at random.
ghost use Rattle.std.specs.Prelude.{◌<◌, length, IfOk};
ghost use Rattle.std.specs.List.{All};
ghost use Rattle.grow_core.specs.Vector.{IsHandOf, IsPlacedOf};
ghost use Rattle.grow_core.specs.Grown.{IsGrownOf};

use crate::reads::{last_place, sum_at_random};
use crate::shared_vector::open_empty;
use crate::trial::{print_nanoseconds, time_threads};
use anyhow::{Result, bail};
use grow_core::{Grown, Hand, Never, Placed, Shared};
use std::alloc::{AllocError, AllocGlobal, Global};
use std::rt::Clock;
use std::sync::Wait;
use std::thread::Threads;
use std::time::Duration;

// How many tokens are kept at most: the last place that is read has one.
const KEPT: u64 = 1 << 15;

// The last bit of a value that was appended.
#[inline(always)]
fn get_once(vector: &Shared<u64>, grown: &Grown<u64>, i: u64) -> u64
    requires ours { IsGrownOf vector.now grown.now }
    requires inside { i < grown.now.run.n }
{
    let placed = grown.placed(i);
    let bit = *vector.get(&placed) & 1;
    drop(placed);
    bit
}

// Reads by `get`, and returns how many values were odd.
#[inline(never)]
fn read_get(vector: &Shared<u64>, grown: &Grown<u64>, reads: u64) -> u64
    requires ours { IsGrownOf vector.now grown.now }
{
    let n = grown.run().n;
    if n == 0 {
        return 0;
    }
    sum_at_random(
        last_place(n),
        reads,
        &|i: u64| -> u64
            requires { IsGrownOf vector.now grown.now × (i < grown.now.run.n) }
        { get_once(vector, grown, i) },
    )
}

// How long it takes to read by `get` in this many threads, if each read makes its token out of the run's.
fn time_get<R: Threads + Clock + AllocGlobal + Sync>(
    rt: &R,
    vector: &Shared<u64>,
    grown: &Grown<u64>,
    reads: u64,
    threads: usize,
) -> Result<Duration>
    requires ours { IsGrownOf vector.now grown.now }
{
    let (took, _odd) = time_threads(
        rt,
        threads,
        &|_: usize| -> u64
            requires { IsGrownOf vector.now grown.now }
        { read_get(vector, grown, reads) },
    )?;
    Ok(took)
}

// Makes the tokens of the first places of a run.
fn keep_tokens(
    alloc: Global,
    _vector: &Shared<u64>,
    grown: &Grown<u64>,
) -> Result<Vec<Placed<u64>>, AllocError>
    requires ours { IsGrownOf _vector.now grown.now }
    ensures ours { IfOk result (λ kept. All (IsPlacedOf _vector.now) kept.items) }
{
    let mut kept = Vec::new(alloc);
    for i in 0..grown.run().n.min(KEPT) {
        kept.push(grown.placed(i))?;
    }
    Ok(kept)
}

// The last bit of the value of a token that was kept.
#[inline(always)]
fn get_kept(vector: &Shared<u64>, kept: &[Placed<u64>], i: u64) -> u64
    requires ours { All (IsPlacedOf vector.now) kept.now }
    requires inside { i < length kept.now }
{
    *vector.get(&kept[i as usize]) & 1
}

// Reads by `get` with tokens that were kept, and returns how many values were odd.
#[inline(never)]
fn read_kept(vector: &Shared<u64>, kept: &[Placed<u64>], reads: u64) -> u64
    requires ours { All (IsPlacedOf vector.now) kept.now }
{
    if kept.is_empty() {
        return 0;
    }
    sum_at_random(
        last_place(kept.len() as u64),
        reads,
        &|i: u64| -> u64
            requires { All (IsPlacedOf vector.now) kept.now × (i < length kept.now) }
        { get_kept(vector, kept, i) },
    )
}

// How long it takes to read by `get` in this many threads, with tokens that are made before the time starts.
fn time_kept<R: Threads + Clock + AllocGlobal + Sync>(
    rt: &R,
    vector: &Shared<u64>,
    grown: &Grown<u64>,
    reads: u64,
    threads: usize,
) -> Result<Duration>
    requires ours { IsGrownOf vector.now grown.now }
{
    let kept = keep_tokens(rt.alloc(), vector, grown)?;
    let timed = time_threads(
        rt,
        threads,
        &|_: usize| -> u64
            requires { All (IsPlacedOf vector.now) kept.items }
        { read_kept(vector, kept.as_slice(), reads) },
    );
    drop(kept);
    let (took, _odd) = timed?;
    Ok(took)
}

// Appends values, reads them by their tokens in this many threads, and returns how long the reads took.
fn time_reads<R: Threads + Wait + Clock + AllocGlobal + Sync>(
    rt: &R,
    vector: &Shared<u64>,
    hand: &mut Hand<u64>,
    filled: u64,
    reads: u64,
    threads: usize,
    are_kept: bool,
) -> Result<Duration>
    requires ours { IsHandOf vector.now hand.old }
{
    let number = |i: u64| -> Result<u64, Never> { Ok(i) };
    let Some(grown) = vector.grow_with(rt, hand, filled, number).ok() else {
        bail!("the values to be read were not appended")
    };
    let took = if are_kept {
        time_kept(rt, vector, &grown, reads, threads)
    } else {
        time_get(rt, vector, &grown, reads, threads)
    };
    drop(grown);
    took
}

/// Appends values to a new vector, reads them by their tokens in this many threads, and prints the nanoseconds that
/// the reads took. Either some tokens are made before, and kept, or each read makes its own.
pub fn print_get_time<R: Threads + Wait + Clock + Print + AllocGlobal + Sync>(
    rt: &R,
    filled: u64,
    reads: u64,
    threads: usize,
    are_kept: bool,
) -> Result<()> {
    let (vector, mut hand) = open_empty(rt.alloc(), filled)?;
    let took = time_reads(rt, &vector, &mut hand, filled, reads, threads, are_kept);
    drop((hand, vector));
    print_nanoseconds(rt, took?)
}
