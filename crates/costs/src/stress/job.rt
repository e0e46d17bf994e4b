//! One thread of the stress: many hands, and random calls by them.
ghost use Rattle.std.specs.Prelude.{◌≡◌, All, IfOk, IfSome};
ghost use Rattle.grow_core.specs.Vector.{IsHandOf, IsPlacedOf};

use crate::shared_vector::hands_for;
use crate::stress::calls::{Caller, make_call};
use crate::stress::record::Record;
use anyhow::Result;
use grow_core::{Hand, Placed, Shared};
use std::alloc::{AllocGlobal, Global};
use std::mem;
use std::sync::Wait;

// How many hands a thread has, and how many shares it gives to each of them but the first.
const HANDS: usize = 10;

const SHARES: u32 = 1_000;

// How many calls a thread makes.
const CALLS: u64 = 2_000;

/// The start of a thread: the number of its vector, its own, and a hand.
#[derive(Drop)]
pub struct Job {
    pub vector: u64,
    pub thread: u64,
    pub hand: Hand<u64>,
}

/// The outcome of a thread: a hand with all of its shares and runs, and the results of its calls.
#[derive(Drop)]
pub struct Outcome {
    pub hand: Hand<u64>,
    pub record: Record,
}

// A random call by the hand and a random one of the others, which change places after it.
fn call_with_another<R: Wait>(
    rt: &R,
    alloc: Global,
    vector: &Shared<u64>,
    hand: &mut Hand<u64>,
    others: &mut [Hand<u64>],
    token: Option<Placed<u64>>,
    caller: &mut Caller,
) -> Result<Option<Placed<u64>>>
    requires ours { IsHandOf vector.now hand.old }
    requires others_ours { All (IsHandOf vector.now) others.old }
    requires token_ours { IfSome token (IsPlacedOf vector.now) }
    ensures ours { IsHandOf vector.now hand.new }
    ensures others_ours { All (IsHandOf vector.now) others.new }
    ensures token { IfOk result (λ token. IfSome token (IsPlacedOf vector.now)) }
{
    if others.is_empty() {
        return Ok(token);
    }
    let index = caller.below(others.len());
    let other = &mut others[index];
    let token = make_call(rt, alloc, vector, hand, other, token, caller)?;
    mem::swap(hand, other);
    Ok(token)
}

// All random calls of a thread.
fn call_often<R: Wait>(
    rt: &R,
    alloc: Global,
    vector: &Shared<u64>,
    hand: &mut Hand<u64>,
    others: &mut [Hand<u64>],
    caller: &mut Caller,
) -> Result<()>
    requires ours { IsHandOf vector.now hand.old }
    requires others_ours { All (IsHandOf vector.now) others.old }
    ensures ours { IsHandOf vector.now hand.new }
    ensures others_ours { All (IsHandOf vector.now) others.new }
{
    let mut token = None;
    for _call in 0..CALLS {
        token = call_with_another(rt, alloc, vector, hand, others, token, caller)?;
    }
    drop(token);
    Ok(())
}

/// Joins all other hands to the hand.
pub fn join_all(vector: &Shared<u64>, hand: &mut Hand<u64>, others: Vec<Hand<u64>>)
    requires ours { IsHandOf vector.now hand.old }
    requires others_ours { All (IsHandOf vector.now) others.items }
    ensures of { hand.new.of ≡ hand.old.of }
{
    for other in others {
        vector.join(hand, other);
    }
}

// All calls by the hand and others that are cut from it, and joined to one at the end.
fn call_by_many<R: Wait>(
    rt: &R,
    alloc: Global,
    vector: &Shared<u64>,
    hand: &mut Hand<u64>,
    caller: &mut Caller,
) -> Result<()>
    requires ours { IsHandOf vector.now hand.old }
    ensures ours { IsHandOf vector.now hand.new }
{
    let mut others = hands_for(alloc, vector, hand, HANDS - 1, SHARES)?;
    let called = call_often(rt, alloc, vector, hand, others.as_mut_slice(), caller);
    join_all(vector, hand, others);
    called
}

/// Runs the calls of one thread.
pub fn run_job<R: Wait + AllocGlobal>(rt: &R, vector: &Shared<u64>, job: Job) -> Result<Outcome>
    requires ours { IsHandOf vector.now job.hand }
    ensures ours { IfOk result (λ outcome. IsHandOf vector.now outcome.hand) }
{
    let mut hand = job.hand;
    let alloc = rt.alloc();
    let mut caller = Caller::new(alloc, job.vector, job.thread);
    call_by_many(rt, alloc, vector, &mut hand, &mut caller)?;
    let Caller { record, .. } = caller;
    Ok(Outcome { hand, record })
}
