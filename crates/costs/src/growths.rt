//! The growths of the loads: lists of 64 values, copies of one list, and values that are made in place.
ghost use Rattle.std.specs.Prelude.{◌≡◌};
ghost use Rattle.grow_core.specs.Vector.{IsHandOf};

use crate::trial::succeeded;
use grow_core::{Hand, Never, Shared};
use std::alloc::{AllocError, AllocGlobal};
use std::sync::Wait;

// The values of a growth.
const LIST: u64 = 64;

// A list of a growth.
fn list_from<R: AllocGlobal>(rt: &R, from: u64) -> Result<Vec<u64>, AllocError> {
    let mut list = Vec::with_capacity(rt.alloc(), LIST as usize)?;
    for i in 0..LIST {
        list.push(from.wrapping_add(i))?;
    }
    Ok(list)
}

// Appends the values with tokens, and returns whether that was done.
#[inline(always)]
fn grow_by_list<R: Wait>(rt: &R, vector: &Shared<u64>, hand: &mut Hand<u64>, list: Vec<u64>) -> bool
    requires ours { IsHandOf vector.now hand.old }
    ensures of { hand.new.of ≡ hand.old.of }
{
    succeeded(vector.grow_vec(rt, hand, list))
}

// Appends the values without tokens, and returns whether that was done.
#[inline(always)]
fn append_list<R: Wait>(rt: &R, vector: &Shared<u64>, hand: &mut Hand<u64>, list: Vec<u64>) -> bool
    requires ours { IsHandOf vector.now hand.old }
    ensures of { hand.new.of ≡ hand.old.of }
{
    succeeded(vector.append(rt, hand, list))
}

// Appends a list of values, with tokens or without: whether that was done, or nothing without memory for the list.
fn grow_once<R: Wait + AllocGlobal>(
    rt: &R,
    vector: &Shared<u64>,
    hand: &mut Hand<u64>,
    from: u64,
    has_tokens: bool,
) -> Option<bool>
    requires ours { IsHandOf vector.now hand.old }
    ensures of { hand.new.of ≡ hand.old.of }
{
    let list = list_from(rt, from).ok()?;
    if has_tokens {
        Some(grow_by_list(rt, vector, hand, list))
    } else {
        Some(append_list(rt, vector, hand, list))
    }
}

/// Appends the values, a list at a time, and returns how many were appended.
pub fn append_lists<R: Wait + AllocGlobal>(
    rt: &R,
    vector: &Shared<u64>,
    mut hand: Hand<u64>,
    values: u64,
    has_tokens: bool,
) -> u64
    requires ours { IsHandOf vector.now hand }
{
    let mut won: u64 = 0;
    for i in 0..values / LIST {
        let Some(is_done) = grow_once(rt, vector, &mut hand, i, has_tokens) else {
            break;
        };
        if is_done {
            won = won.wrapping_add(LIST);
        }
    }
    drop(hand);
    won
}

/// Appends copies of one list, and returns how many values were appended.
pub fn append_copies<R: Wait + AllocGlobal>(
    rt: &R,
    vector: &Shared<u64>,
    mut hand: Hand<u64>,
    values: u64,
) -> u64
    requires ours { IsHandOf vector.now hand }
{
    let Ok(list) = list_from(rt, 0) else {
        drop(hand);
        return 0;
    };
    let mut won: u64 = 0;
    for _growth in 0..values / LIST {
        if vector.grow_from(rt, &mut hand, list.as_slice()).is_ok() {
            won = won.wrapping_add(LIST);
        }
    }
    drop((list, hand));
    won
}

// Appends values that are made in place: whether that was done.
fn make_once<R: Wait>(rt: &R, vector: &Shared<u64>, hand: &mut Hand<u64>, from: u64) -> bool
    requires ours { IsHandOf vector.now hand.old }
    ensures of { hand.new.of ≡ hand.old.of }
{
    let make = |i: u64| -> Result<u64, Never> { Ok(from.wrapping_add(i)) };
    succeeded(vector.grow_with(rt, hand, LIST, make))
}

// Grows the vector up to 64 places above what the hand has seen, and returns whether that was done.
fn raise_once(vector: &Shared<u64>, hand: &mut Hand<u64>, from: u64) -> bool
    requires ours { IsHandOf vector.now hand.old }
    ensures of { hand.new.of ≡ hand.old.of }
{
    let make = |i: u64| -> Result<u64, Never> { Ok(from.wrapping_add(i)) };
    let size = hand.seen().saturating_add(LIST);
    succeeded(vector.grow_to_at_least(hand, size, make))
}

/// Appends values by calls with a maker for 64 each, and returns how many were appended.
pub fn append_made<R: Wait>(
    rt: &R,
    vector: &Shared<u64>,
    mut hand: Hand<u64>,
    values: u64,
    is_up_to: bool,
) -> u64
    requires ours { IsHandOf vector.now hand }
{
    let mut won: u64 = 0;
    for i in 0..values / LIST {
        let is_done = if is_up_to {
            raise_once(vector, &mut hand, i)
        } else {
            make_once(rt, vector, &mut hand, i)
        };
        if is_done {
            won = won.wrapping_add(LIST);
        }
    }
    drop(hand);
    won
}
