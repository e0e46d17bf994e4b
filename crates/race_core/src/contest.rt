//! Workers that append to one shared vector concurrently, and the check that their wins are a history.
ghost use Rattle.std.specs.Prelude.{◌≡◌, ℕ, ◌+◌, ◌*◌, ◌<◌, ◌≤◌, ◌↔◌, true, false, Err, IfOk, IfErr, IsErrOf};
ghost use Rattle.claim_core.specs.Hand.{IsNewHand, SeesOwn};
ghost use Rattle.claim_core.specs.Shares.{all_shares};
ghost use Rattle.span_core.specs.Hands.{KeepsShares};
ghost use Rattle.span_core.specs.Workers.{MayRefuseOne};
ghost use Rattle.race_core.specs.Race.{sum_below, IsBadSize, IsGrowth, IsTeam, IsTeamOf, IsUnusedHand, IsWorkers, AreFew, LogsWins, team_of};

use crate::refusal::RaceError;
use crate::report::{RaceReport, report_of};
use crate::team::Win;
use crate::workers::{Won, append_each, join_wins};
use grow_core::{Hand, Shared, laws};
use quiet_core::Quiet;
use span_core::{Gate, with_hands};
use std::alloc::Global;
use std::sync::Wait;
use std::thread::Threads;

/// The most workers of a race.
pub const MOST_WORKERS: u32 = 64;

/// The most values of each worker.
pub const MOST_EACH: u32 = 100_000;

// Tells numbers of workers and values that are zero, or above the most.
fn is_bad_size(workers: u32, each: u32) -> bool
    ensures bad { (result ≡ true) ↔ IsBadSize workers each }
    ensures within { result ≡ false → (0 < workers * each) × (workers * each ≤ 6400000) }
    ensures few { result ≡ false → (0 < workers) × AreFew workers each }
{
    workers == 0 || workers > MOST_WORKERS || each == 0 || each > MOST_EACH
}

// The wins of all workers, which append to a new vector by hands that are split off its first one.
fn win_all<R: Threads + Wait + Sync, G: Gate + Sync>(
    rt: &R,
    alloc: Global,
    vector: &Shared<u64>,
    hand: &mut Hand<u64>,
    workers: u32,
    each: u64,
    size: u64,
    gate: &G,
) -> Result<Vec<Win>, RaceError>
    requires new { IsNewHand vector.now.word hand.old }
    requires few { (0 < workers) × AreFew workers each }
    requires size { size ≡ workers * each }
    ensures of { hand.new.of ≡ hand.old.of }
    ensures team { IfOk result
        (λ wins. IsTeam vector.now.word all_shares 0 size (team_of hand.new wins.items)) }
    ensures bad_size { IsErrOf result RaceError.BadSize → ⊥ }
    ensures stuck { IsErrOf result RaceError.Stuck
        → MayRefuseOne (G.may_refuse gate.now) 0 workers }
    ensures grow { (number : ℕ) → result ≡ Err (RaceError.Grow number) → IsGrowth number }
{
    let work = |vector: &Shared<u64>, worker: u32, hand: &mut Hand<u64>| -> Won
        requires { G.lets_through gate.now worker
            × (IsUnusedHand vector.now hand.old × (hand.old.shares ≡ 1))
            × AreFew (worker + 1) each }
        ensures kept { KeepsShares hand.old hand.new }
        ensures own { SeesOwn hand.new }
        ensures answer { IfOk result
            (λ wins. IsTeamOf vector.entry.now.word each worker (team_of hand.new wins.items)) }
        ensures logs { IfOk result (λ wins. LogsWins hand.old hand.new wins.items) }
        ensures refused { IfErr result IsWorkers }
    { append_each(rt, alloc, gate, vector, worker, each, hand) };
    let teams = with_hands(rt, alloc, vector, hand, workers, &work, gate)?;
    let wins = join_wins(alloc, teams)?;
    // For the proof: what the workers' hands knew, the whole hand knows.
    hand.laws();
    laws::places_stay();
    laws::seen_runs_stay();
    Ok(wins)
}

/// Runs workers that append to one shared vector concurrently, and checks what they won. Worker w appends
/// w * each + j for j from 0 to each - 1. It passes the gate before its first value and after its last. Time
/// and memory are linear in the number of values.
pub fn race<R: Threads + Wait + Sync, G: Gate + Sync>(
    rt: &R,
    alloc: Global,
    workers: u32,
    each: u32,
    gate: &G,
) -> Result<RaceReport, RaceError>
    ensures size { IfOk result (λ report. report.size ≡ workers * each) }
    ensures sum { IfOk result (λ report. report.sum ≡ sum_below (workers * each)) }
    ensures legal { IfOk result (λ report. report.legal ≡ true) }
    // The numbers are looked at before anything is started.
    ensures bad_size { IsErrOf result RaceError.BadSize ↔ IsBadSize workers each }
    ensures stuck { IsErrOf result RaceError.Stuck
        → MayRefuseOne (G.may_refuse gate.now) 0 workers }
    ensures grow { (number : ℕ) → result ≡ Err (RaceError.Grow number) → IsGrowth number }
{
    if is_bad_size(workers, each) {
        return Err(RaceError::BadSize);
    }
    let each = u64::from(each);
    let size = u64::from(workers) * each;
    let (vector, mut hand) = match Quiet::new(alloc, size).open() {
        Ok(opened) => opened,
        Err(refused) => {
            drop(refused);
            return Err(RaceError::NoMemory);
        }
    };
    match win_all(rt, alloc, &vector, &mut hand, workers, each, size, gate) {
        Ok(wins) => Ok(report_of(alloc, vector, hand, wins, size)?),
        Err(error) => {
            drop((vector, hand));
            Err(error)
        }
    }
}
