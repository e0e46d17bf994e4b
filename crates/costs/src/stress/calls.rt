//! Random calls of one thread.
ghost use Rattle.std.specs.Prelude.{◌≡◌, ◌<◌, ◌≤◌, ◌^◌, IfOk, IfSome};
ghost use Rattle.grow_core.specs.Vector.{IsHandOf, IsPlacedOf};

use crate::stress::growths::{grow, grow_by, grow_to_at_least, grow_with};
use crate::stress::random::Random;
use crate::stress::record::Record;
use anyhow::Result;
use grow_core::{AtError, GrowError, Hand, Never, Placed, Shared};
use std::alloc::Global;
use std::sync::Wait;

// The greatest number of values that most growths append, and how far above the size a look goes.
const FEW: u64 = 5;

// The greatest number of values that some growths append: they cross several segments.
const MOST: u64 = 1_000;

// The kinds of call.
#[derive(Clone, Copy)]
enum Kind {
    TryPush,
    Push,
    Grow,
    GrowFar,
    GrowBy,
    GrowWith,
    GrowToAtLeast,
    Size,
    Look,
    LookByToken,
    Meet,
    Share,
}

static KINDS: [Kind; 12] = [
    Kind::TryPush,
    Kind::Push,
    Kind::Grow,
    Kind::GrowFar,
    Kind::GrowBy,
    Kind::GrowWith,
    Kind::GrowToAtLeast,
    Kind::Size,
    Kind::Look,
    Kind::LookByToken,
    Kind::Meet,
    Kind::Share,
];

/// A thread that makes calls, with their results.
#[derive(Drop)]
pub struct Caller {
    random: Random,
    next: u64,
    pub record: Record,
}

impl Caller {
    /// Begins the calls of a thread on the vector with this number.
    pub fn new(alloc: Global, vector: u64, thread: u64) -> Caller {
        Caller {
            random: Random::new(vector, thread),
            next: thread << 32,
            record: Record::new(alloc),
        }
    }

    /// Returns a random number up to this one.
    pub fn up_to(&mut self, most: u64) -> u64
        requires { most < 2 ^ 32 }
        ensures { result ≤ most }
    {
        self.random.below(most + 1)
    }

    /// Returns a random number below the bound.
    pub fn below(&mut self, bound: usize) -> usize
        requires { 0 < bound }
        ensures { result < bound }
    {
        self.random.below(bound as u64) as usize
    }

    /// Reserves `n` values that no call has appended yet, and returns the first.
    pub fn take_values(&mut self, n: u64) -> u64 {
        let first = self.next;
        self.next = first.wrapping_add(n);
        first
    }
}

// Notes the result of a push.
fn note_answer(
    record: &mut Record,
    value: u64,
    answer: &Result<Placed<u64>, GrowError<u64, u64, Never>>,
) -> Result<()> {
    match answer {
        Ok(placed) => record.note_placed(placed.place(), Some(value)),
        Err(error) => record.note_refused(error),
    }
}

// The same, and returns the token.
fn note_push(
    vector: &Shared<u64>,
    caller: &mut Caller,
    value: u64,
    answer: Result<Placed<u64>, GrowError<u64, u64, Never>>,
) -> Result<Option<Placed<u64>>>
    requires { IfOk answer (IsPlacedOf vector.now) }
    ensures { IfOk result (λ token. IfSome token (IsPlacedOf vector.now)) }
{
    note_answer(&mut caller.record, value, &answer)?;
    Ok(answer.ok())
}

fn try_push(
    vector: &Shared<u64>,
    hand: &mut Hand<u64>,
    caller: &mut Caller,
) -> Result<Option<Placed<u64>>>
    requires ours { IsHandOf vector.now hand.old }
    ensures of { hand.new.of ≡ hand.old.of }
    ensures token { IfOk result (λ token. IfSome token (IsPlacedOf vector.now)) }
{
    let value = caller.take_values(1);
    let answer = vector.try_push_back(hand, value);
    note_push(vector, caller, value, answer)
}

fn push<R: Wait>(
    rt: &R,
    vector: &Shared<u64>,
    hand: &mut Hand<u64>,
    caller: &mut Caller,
) -> Result<Option<Placed<u64>>>
    requires ours { IsHandOf vector.now hand.old }
    ensures of { hand.new.of ≡ hand.old.of }
    ensures token { IfOk result (λ token. IfSome token (IsPlacedOf vector.now)) }
{
    let value = caller.take_values(1);
    let answer = vector.push_back(rt, hand, value);
    note_push(vector, caller, value, answer)
}

// Looks at a place, which may not be filled yet.
fn look(
    vector: &Shared<u64>,
    hand: &mut Hand<u64>,
    caller: &mut Caller,
    place: u64,
    known: Option<&Placed<u64>>,
) -> Result<()>
    requires ours { IsHandOf vector.now hand.old }
    requires known { IfSome known (λ p. IsPlacedOf vector.now p.now × (p.now.place ≡ place)) }
    ensures of { hand.new.of ≡ hand.old.of }
{
    let answer = vector.at(hand, place, known);
    let noted = match &answer {
        Ok(at) => caller.record.note_read(place, Some(*at.value)),
        Err(AtError::Broken(_)) => caller.record.note_read(place, None),
        Err(AtError::OutOfRange { .. } | AtError::Pending) => Ok(()),
    };
    drop(answer);
    noted
}

// Looks at the token's place, if there is a token.
fn look_by_token(
    vector: &Shared<u64>,
    hand: &mut Hand<u64>,
    caller: &mut Caller,
    token: &Option<Placed<u64>>,
) -> Result<()>
    requires ours { IsHandOf vector.now hand.old }
    requires token_ours { IfSome token.now (IsPlacedOf vector.now) }
    ensures of { hand.new.of ≡ hand.old.of }
{
    match token {
        Some(placed) => look(vector, hand, caller, placed.place(), Some(placed)),
        None => Ok(()),
    }
}

// Gives a share of the one hand to the other.
fn share(vector: &Shared<u64>, hand: &mut Hand<u64>, other: &mut Hand<u64>)
    requires ours { IsHandOf vector.now hand.old }
    requires also_ours { IsHandOf vector.now other.old }
    ensures of { hand.new.of ≡ hand.old.of }
    ensures also_of { other.new.of ≡ other.old.of }
{
    if hand.share() > 1 {
        let part = vector.split(hand, 1);
        vector.join(other, part);
    }
}

// A call of a kind that gives no token; no other kind is asked for.
fn make_plain_call(
    kind: Kind,
    alloc: Global,
    vector: &Shared<u64>,
    hand: &mut Hand<u64>,
    other: &mut Hand<u64>,
    token: &Option<Placed<u64>>,
    caller: &mut Caller,
) -> Result<()>
    requires ours { IsHandOf vector.now hand.old }
    requires also_ours { IsHandOf vector.now other.old }
    requires token_ours { IfSome token.now (IsPlacedOf vector.now) }
    ensures of { hand.new.of ≡ hand.old.of }
    ensures also_of { other.new.of ≡ other.old.of }
{
    match kind {
        Kind::TryPush | Kind::Push => {}
        Kind::Grow => return grow(alloc, vector, hand, caller, FEW),
        Kind::GrowFar => return grow(alloc, vector, hand, caller, MOST),
        Kind::GrowBy => return grow_by(vector, hand, caller, FEW),
        Kind::GrowWith => return grow_with(vector, hand, caller, FEW),
        Kind::GrowToAtLeast => return grow_to_at_least(vector, hand, caller, FEW),
        Kind::Size => {
            vector.size(hand);
        }
        Kind::Look => {
            let place = caller.random.below(hand.seen().saturating_add(FEW));
            return look(vector, hand, caller, place, None);
        }
        Kind::LookByToken => return look_by_token(vector, hand, caller, token),
        Kind::Meet => vector.meet(hand, other),
        Kind::Share => share(vector, hand, other),
    }
    Ok(())
}

/// Makes one random call with the hand, and for some kinds with `other` too. `token` is that of the thread's
/// last push.
pub fn make_call<R: Wait>(
    rt: &R,
    alloc: Global,
    vector: &Shared<u64>,
    hand: &mut Hand<u64>,
    other: &mut Hand<u64>,
    token: Option<Placed<u64>>,
    caller: &mut Caller,
) -> Result<Option<Placed<u64>>>
    requires ours { IsHandOf vector.now hand.old }
    requires also_ours { IsHandOf vector.now other.old }
    requires token_ours { IfSome token (IsPlacedOf vector.now) }
    ensures of { hand.new.of ≡ hand.old.of }
    ensures also_of { other.new.of ≡ other.old.of }
    ensures token { IfOk result (λ token. IfSome token (IsPlacedOf vector.now)) }
{
    match KINDS[caller.below(KINDS.len())] {
        Kind::TryPush => try_push(vector, hand, caller),
        Kind::Push => push(rt, vector, hand, caller),
        kind => {
            make_plain_call(kind, alloc, vector, hand, other, &token, caller)?;
            Ok(token)
        }
    }
}
