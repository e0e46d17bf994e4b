//! Lists of numbers, and vectors that begin with one.
ghost use Rattle.std.specs.Prelude.{IfSome, IfOk};
ghost use Rattle.claim_core.specs.Hand.{IsWholeHand};
ghost use Rattle.grow_core.specs.Vector.{IsHandOf};

use anyhow::{Result, bail};
use grow_core::{Hand, Parts, Shared};
use seg_core::{Layout, MOST_PLACES};
use std::alloc::Global;

// Appends numbers to a list that has room for them, up to its limit.
fn append_all(parts: &mut Parts<u64>) {
    for value in 0..parts.limit() {
        if parts.len() < parts.limit() && parts.len() < parts.capacity() {
            parts.append(Some(value));
        }
    }
}

// Moves members out of the list until this many are left.
fn cut(parts: &mut Parts<u64>, len: u64) {
    for _member in len..parts.len() {
        if parts.len() > 0 {
            parts.pop();
        }
    }
}

/// Makes a list of numbers that is as long as its limit.
pub fn fill_list(alloc: Global, layout: Layout, limit: u64) -> Result<Parts<u64>> {
    if limit == 0 || limit > MOST_PLACES {
        bail!("no list has this limit")
    }
    let mut parts = Parts::new_in(alloc, layout, limit);
    parts.room(limit)?;
    append_all(&mut parts);
    Ok(parts)
}

/// Opens the list as a vector with its hand, if there is memory.
pub fn open_list(parts: Parts<u64>) -> Option<(Shared<u64>, Hand<u64>)>
    ensures ours { IfSome result (λ (vector, hand). IsHandOf vector hand) }
    ensures whole { IfSome result (λ (_, hand). IsWholeHand hand) }
{
    Shared::of_parts(parts).ok()
}

/// Opens a list of this length that had as many members as its limit before. So the system has given its segments
/// their memory.
pub fn open_cut(
    alloc: Global,
    layout: Layout,
    limit: u64,
    len: u64,
) -> Result<(Shared<u64>, Hand<u64>)>
    ensures hand { IfOk result (λ (vector, hand). IsHandOf vector hand × IsWholeHand hand) }
{
    let mut parts = fill_list(alloc, layout, limit)?;
    cut(&mut parts, len);
    let Some(opened) = open_list(parts) else {
        bail!("no memory")
    };
    Ok(opened)
}
