//! The wins of several workers together.
ghost use Rattle.std.specs.Prelude.{◌≡◌, ℕ, ◌+◌, ◌≤◌, [], IfErr, OnOk};
ghost use Rattle.grow_core.specs.Vector.{IsHandOf};
ghost use Rattle.race_core.specs.Race.{IsWorkers, IsPushRefusal, IsTeam, LogsMoreWins, team_of};

use crate::refusal::{RaceError, race_error_of};
use grow_core::{Hand, Shared, laws};
use span_core::Gate;
use std::alloc::Global;
use std::sync::Wait;

// A place that a worker won, and the value that it appended there.
#[derive(Clone, Copy, Debug, PartialEq, Eq)]
pub(crate) struct Win {
    pub(crate) worker: u32,
    pub(crate) place: u64,
    pub(crate) value: u64,
}

// Nothing is won yet.
pub(crate) fn begin_wins(alloc: Global, hand: &Hand<u64>) -> Vec<Win>
    requires { hand.now.mine ≡ [] }
    ensures team { (from : ℕ) → IsTeam hand.now.of hand.now.shares from from
        (team_of hand.now result.items) }
    ensures none { result.items ≡ [] }
{
    // For the proof: the promise speaks of the hand.
    let _hand = hand;
    Vec::new(alloc)
}

// A worker appends a value, and reads it back by its token.
fn push_value<R: Wait>(
    rt: &R,
    vector: &Shared<u64>,
    worker: u32,
    hand: &mut Hand<u64>,
    wins: &mut Vec<Win>,
    value: u64,
) -> Result<(), RaceError>
    requires { IsHandOf vector.now hand.old }
    ensures of { hand.new.of ≡ hand.old.of }
    ensures shares { hand.new.shares ≡ hand.old.shares }
    ensures refused { IfErr result IsWorkers }
    ensures due { IfErr result (IsPushRefusal vector.now hand.old) }
    ensures team { (shares from : ℕ)
        → IsTeam vector.now.word shares from value (team_of hand.old wins.old.items)
        → OnOk result
        (IsTeam vector.now.word shares from (value + 1) (team_of hand.new wins.new.items)) }
    // The history gets the claim and the fill of the win's place.
    ensures logs { OnOk result
        (LogsMoreWins hand.old hand.new wins.old.items wins.new.items) }
{
    // For the proof: the new place is the last of those that the hand knows, and its others stay.
    hand.laws();
    laws::added_runs_are_last();
    laws::places_stay();
    laws::seen_runs_stay();
    let placed = match vector.push_back(rt, hand, value) {
        Ok(placed) => placed,
        Err(error) => return Err(race_error_of(error)),
    };
    let win = Win {
        worker,
        place: placed.place(),
        value: *vector.get(&placed),
    };
    drop(placed);
    match wins.push(win) {
        Ok(()) => Ok(()),
        Err(_) => Err(RaceError::NoMemory),
    }
}

// One worker appends the values from one number up to another, in order. It came through the gate.
pub(crate) fn push_all<R: Wait, G: Gate>(
    rt: &R,
    gate: &G,
    vector: &Shared<u64>,
    worker: u32,
    hand: &mut Hand<u64>,
    wins: &mut Vec<Win>,
    from: u64,
    to: u64,
) -> Result<(), RaceError>
    requires through { G.lets_through gate.now worker }
    requires ours { IsHandOf vector.now hand.old }
    requires order { from ≤ to }
    ensures of { hand.new.of ≡ hand.old.of }
    ensures shares { hand.new.shares ≡ hand.old.shares }
    ensures refused { IfErr result IsWorkers }
    ensures team { (shares : ℕ)
        → IsTeam vector.now.word shares from from (team_of hand.old wins.old.items)
        → OnOk result (IsTeam vector.now.word shares from to (team_of hand.new wins.new.items)) }
    // The history gets the claims and the fills of the wins' places, in order.
    ensures logs { OnOk result
        (LogsMoreWins hand.old hand.new wins.old.items wins.new.items) }
{
    // For the proof: the condition speaks of the gate.
    let _gate = gate;
    for value in from..to {
        push_value(rt, vector, worker, hand, wins, value)?;
    }
    Ok(())
}
