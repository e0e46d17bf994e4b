//! How long it takes to open a list of values as a shared vector, to close it into a list again, and to move the
//! values out of that.
ghost use Rattle.claim_core.specs.Hand.{IsWholeHand};
ghost use Rattle.grow_core.specs.Vector.{IsHandOf};

use crate::lists::{fill_list, open_list};
use crate::trial::print_nanoseconds;
use anyhow::{Result, bail, ensure};
use grow_core::{Hand, Parts, Shared};
use quiet_core::Quiet;
use seg_core::Layout;
use std::alloc::AllocGlobal;
use std::io;
use std::rt::Clock;
use std::time::{Duration, Instant};

/// The values of a list, unless a number is given.
pub const LISTED: u64 = 10_000_000;

/// What is timed.
#[derive(Clone, Copy)]
pub enum Turn {
    /// The list is dropped.
    Discard,
    /// The list is opened.
    Open,
    /// The vector is closed.
    Close,
    /// The vector is closed, and its values are moved into a `Vec`.
    IntoVec,
}

// How long it took from the start to now.
fn time_since<R: Clock>(rt: &R, start: io::Result<Instant>) -> Result<Duration> {
    Ok(start?.elapsed(rt)?)
}

// Reports that a list was not opened.
fn check_open(is_open: bool) -> Result<()> {
    ensure!(is_open, "no memory");
    Ok(())
}

// Reports that a list has too few values.
fn check_size(size: u64, values: u64) -> Result<()> {
    ensure!(size == values, "values were lost");
    Ok(())
}

// How long the list takes to be dropped.
fn time_discard<R: Clock>(rt: &R, parts: Parts<u64>) -> Result<Duration> {
    let start = Instant::now(rt);
    drop(parts);
    time_since(rt, start)
}

// How long the list takes to be opened.
fn time_open<R: Clock>(rt: &R, parts: Parts<u64>) -> Result<Duration> {
    let start = Instant::now(rt);
    let opened = open_list(parts);
    let took = time_since(rt, start);
    let is_open = opened.is_some();
    drop(opened);
    check_open(is_open).and(took)
}

// How long the vector takes to be closed.
fn time_close<R: Clock>(
    rt: &R,
    vector: Shared<u64>,
    hand: Hand<u64>,
    values: u64,
) -> Result<Duration>
    requires ours { IsHandOf vector hand }
    requires whole { IsWholeHand hand }
{
    let start = Instant::now(rt);
    let parts = vector.into_parts(hand);
    let took = time_since(rt, start);
    let size = parts.len();
    drop(parts);
    check_size(size, values).and(took)
}

// Reports what a vector lacks that was moved into a `Vec`.
fn check_values(moved: &Option<Vec<u64>>, values: u64) -> Result<()> {
    let Some(moved) = moved else {
        bail!("no vector")
    };
    check_size(moved.len() as u64, values)
}

// How long the vector takes to be closed and moved into a `Vec`.
fn time_into_vec<R: Clock>(
    rt: &R,
    vector: Shared<u64>,
    hand: Hand<u64>,
    values: u64,
) -> Result<Duration>
    requires ours { IsHandOf vector hand }
    requires whole { IsWholeHand hand }
{
    let start = Instant::now(rt);
    let moved = Quiet::close(vector, hand).into_vec().ok();
    let took = time_since(rt, start);
    let checked = check_values(&moved, values);
    drop(moved);
    checked.and(took)
}

// How long a vector of the list takes to be closed, by one of these.
fn time_closing<R: Clock>(rt: &R, parts: Parts<u64>, into_vec: bool) -> Result<Duration> {
    let values = parts.len();
    let Some((vector, hand)) = open_list(parts) else {
        bail!("no memory")
    };
    if into_vec {
        time_into_vec(rt, vector, hand, values)
    } else {
        time_close(rt, vector, hand, values)
    }
}

// How long it took to drop the list, to open it, or then to close the vector.
fn time_turn<R: Clock>(rt: &R, parts: Parts<u64>, turn: Turn) -> Result<Duration> {
    match turn {
        Turn::Discard => time_discard(rt, parts),
        Turn::Open => time_open(rt, parts),
        Turn::Close => time_closing(rt, parts, false),
        Turn::IntoVec => time_closing(rt, parts, true),
    }
}

/// Fills a list of this many values, opens and closes it as far as is timed, and prints the nanoseconds that this turn
/// took.
pub fn print_turn<R: Clock + Print + AllocGlobal>(rt: &R, turn: Turn, values: u64) -> Result<()> {
    let took = time_turn(rt, fill_list(rt.alloc(), Layout::default(), values)?, turn)?;
    print_nanoseconds(rt, took)
}
