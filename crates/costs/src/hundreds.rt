//! Many vectors of a hundred values each, one after another.
use crate::shared_vector::{open_empty_in, push};
use crate::trial::print_nanoseconds;
use anyhow::{Result, ensure};
use grow_core::OpenError;
use seg_core::Layout;
use std::alloc::AllocGlobal;
use std::rt::Clock;
use std::sync::Wait;
use std::time::Instant;

const VALUES: u64 = 100;

const VECTORS: u64 = 100_000;

// Makes a vector, appends its values, and drops it: how many it had.
fn fill_one<R: Wait + AllocGlobal>(rt: &R, layout: Layout) -> Result<u64, OpenError> {
    let (vector, hand) = open_empty_in(rt.alloc(), layout, VALUES)?;
    let pushed = push(rt, &vector, hand, VALUES);
    drop(vector);
    Ok(pushed)
}

fn fill_all<R: Wait + AllocGlobal>(rt: &R, layout: Layout) -> Result<()> {
    for _vector in 0..VECTORS {
        ensure!(fill_one(rt, layout)? == VALUES, "a value was lost");
    }
    Ok(())
}

/// Fills the vectors in segments of this layout, and prints the nanoseconds that all took.
pub fn print_hundreds<R: Wait + Clock + Print + AllocGlobal>(rt: &R, layout: Layout) -> Result<()> {
    let start = Instant::now(rt)?;
    fill_all(rt, layout)?;
    print_nanoseconds(rt, start.elapsed(rt)?)
}
