//! The shared vector: each thread has a hand, and appends one value after another.
ghost use Rattle.std.specs.Prelude.{◌≡◌, ◌<◌, All, IfOk};
ghost use Rattle.std.specs.Thread.{IsSync};
ghost use Rattle.claim_core.specs.Hand.{IsWholeHand};
ghost use Rattle.grow_core.specs.Vector.{IsHandOf};

use crate::trial::{Trial, time_hands};
use anyhow::Result;
use grow_core::{Hand, OpenError, Parts, Shared};
use seg_core::{Layout, MOST_PLACES};
use std::alloc::{AllocError, AllocGlobal, Global};
use std::rt::Clock;
use std::sync::Wait;
use std::thread::Threads;

/// Makes an empty vector with this limit, and the hand that has all shares.
pub fn open_empty<T: Drop>(alloc: Global, limit: u64) -> Result<(Shared<T>, Hand<T>), OpenError>
    ensures hand { IfOk result (λ (vector, hand). IsHandOf vector hand × IsWholeHand hand) }
{
    open_empty_in(alloc, Layout::default(), limit)
}

/// Makes an empty vector like `empty`, with this layout.
pub fn open_empty_in<T: Drop>(
    alloc: Global,
    layout: Layout,
    limit: u64,
) -> Result<(Shared<T>, Hand<T>), OpenError>
    ensures hand { IfOk result (λ (vector, hand). IsHandOf vector hand × IsWholeHand hand) }
{
    if limit == 0 || limit > MOST_PLACES {
        return Err(OpenError::BadLimit);
    }
    match Shared::of_parts(Parts::new_in(alloc, layout, limit)) {
        Ok(opened) => Ok(opened),
        Err((parts, error)) => {
            drop(parts);
            Err(error)
        }
    }
}

// Appends a value, and returns whether that was done.
#[inline(always)]
pub(crate) fn push_once<R: Wait>(
    rt: &R,
    vector: &Shared<u64>,
    hand: &mut Hand<u64>,
    value: u64,
) -> bool
    requires ours { IsHandOf vector.now hand.old }
    ensures of { hand.new.of ≡ hand.old.of }
{
    vector.push_back(rt, hand, value).is_ok()
}

// The same as a call that the compiler does not lay into the loop.
#[inline(never)]
fn call_push<R: Wait>(rt: &R, vector: &Shared<u64>, hand: &mut Hand<u64>, value: u64) -> bool
    requires ours { IsHandOf vector.now hand.old }
    ensures of { hand.new.of ≡ hand.old.of }
{
    push_once(rt, vector, hand, value)
}

/// Pushes like `push`, with one call that is not inlined per value.
pub fn push_by_calls<R: Wait>(rt: &R, vector: &Shared<u64>, mut hand: Hand<u64>, tries: u64) -> u64
    requires ours { IsHandOf vector.now hand }
{
    let mut won: u64 = 0;
    for value in 0..tries {
        if call_push(rt, vector, &mut hand, value) {
            won = won.wrapping_add(1);
        }
    }
    drop(hand);
    won
}

/// Pushes values and returns how many were appended.
pub fn push<R: Wait>(rt: &R, vector: &Shared<u64>, mut hand: Hand<u64>, tries: u64) -> u64
    requires ours { IsHandOf vector.now hand }
{
    let mut won: u64 = 0;
    for value in 0..tries {
        if push_once(rt, vector, &mut hand, value) {
            won = won.wrapping_add(1);
        }
    }
    drop(hand);
    won
}

/// Splits hands of `each` shares off the given hand for as long as it has more.
pub fn hands_for(
    alloc: Global,
    vector: &Shared<u64>,
    hand: &mut Hand<u64>,
    count: usize,
    shares: u32,
) -> Result<Vec<Hand<u64>>, AllocError>
    requires ours { IsHandOf vector.now hand.old }
    requires some_shares { 0 < shares }
    ensures of { hand.new.of ≡ hand.old.of }
    ensures hands { IfOk result (λ hands. All (IsHandOf vector.now) hands.items) }
{
    let mut hands = Vec::new(alloc);
    for _hand in 0..count {
        if hand.share() > shares {
            hands.push(vector.split(hand, shares))?;
        }
    }
    Ok(hands)
}

// Pushes by hands that are cut from this one.
fn push_on<R: Threads + Wait + Clock + AllocGlobal + Sync>(
    rt: &R,
    vector: &Shared<u64>,
    hand: &mut Hand<u64>,
    threads: usize,
    tries: u64,
) -> Result<Trial>
    requires ours { IsHandOf vector.now hand.old }
{
    let hands = hands_for(rt.alloc(), vector, hand, threads, 1)?;
    let (took, wins) = time_hands(
        rt,
        hands,
        &|hand: Hand<u64>| -> u64
            requires { IsSync R.row × IsHandOf vector.now hand }
        { push(rt, vector, hand, tries) },
    )?;
    Ok(Trial {
        took,
        wins,
        size: vector.size(hand),
    })
}

/// Pushes on one shared vector, which has room for all of them and is made before the time starts.
pub fn run_pushes<R: Threads + Wait + Clock + AllocGlobal + Sync>(
    rt: &R,
    threads: usize,
    tries: u64,
) -> Result<Trial> {
    let limit = (threads as u64).saturating_mul(tries);
    let (vector, mut hand) = open_empty(rt.alloc(), limit)?;
    let pushed = push_on(rt, &vector, &mut hand, threads, tries);
    drop((hand, vector));
    pushed
}
