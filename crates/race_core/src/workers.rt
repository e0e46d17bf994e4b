//! The workers of a race: each is lent a hand, and appends its values.
ghost use Rattle.std.specs.Prelude.{◌≡◌, ◌+◌, IfOk, IfErr};
ghost use Rattle.std.specs.List.{flat_map};
ghost use Rattle.claim_core.specs.Hand.{SeesOwn};
ghost use Rattle.race_core.specs.Race.{IsTeamOf, IsUnusedHand, IsWorkers, AreFew, LogsWins, team_of};

use crate::refusal::RaceError;
use crate::team::{Win, begin_wins, push_all};
use grow_core::{Hand, Shared};
use span_core::Gate;
use std::alloc::{AllocError, Global};
use std::sync::Wait;

// A worker's wins, or why it has none.
pub(crate) type Won = Result<Vec<Win>, RaceError>;

// Appends one worker's values and returns its wins. The worker has come through the gate.
pub(crate) fn append_each<R: Wait, G: Gate>(
    rt: &R,
    alloc: Global,
    gate: &G,
    vector: &Shared<u64>,
    worker: u32,
    each: u64,
    hand: &mut Hand<u64>,
) -> Won
    requires through { G.lets_through gate.now worker }
    requires unused { IsUnusedHand vector.now hand.old × (hand.old.shares ≡ 1) }
    requires few { AreFew (worker + 1) each }
    ensures of { hand.new.of ≡ hand.old.of }
    ensures shares { hand.new.shares ≡ hand.old.shares }
    ensures own { SeesOwn hand.new }
    ensures answer { IfOk result
        (λ wins. IsTeamOf vector.now.word each worker (team_of hand.new wins.items)) }
    // The history gets the claims and the fills of the wins' places, in order.
    ensures logs { IfOk result (λ wins. LogsWins hand.old hand.new wins.items) }
    ensures refused { IfErr result IsWorkers }
{
    let from = u64::from(worker) * each;
    let to = (u64::from(worker) + 1) * each;
    let mut wins = begin_wins(alloc, hand);
    let pushed = push_all(rt, gate, vector, worker, hand, &mut wins, from, to);
    // For the proof: the hand has seen its own places.
    hand.laws();
    pushed?;
    Ok(wins)
}

// The wins of all workers, in order.
pub(crate) fn join_wins(alloc: Global, teams: Vec<Vec<Win>>) -> Result<Vec<Win>, AllocError>
    ensures { IfOk result (λ all. all.items ≡ flat_map (λ wins. wins.items) teams.items) }
{
    let mut all = Vec::new(alloc);
    for mut wins in teams {
        all.append(&mut wins)?;
    }
    Ok(all)
}
