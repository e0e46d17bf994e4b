//! The two steps that claim places.
ghost use Rattle.std.specs.Prelude.{◌≡◌, ◌+◌, ◌<◌, ◌≤◌, [], ◌∷◌, IsOk, IfOk, IfErr};
ghost use Rattle.claim_core.specs.Hand.{IsHandOf, IsWholeHand, KeepsCells, seen_size};
ghost use Rattle.claim_core.specs.Hand.{AddsRun, SeesSize, LogsRun, LogsRaise};
ghost use Rattle.claim_core.specs.History.{AddsEvents, IsNote, enough_event};

use crate::hand::Hand;
use crate::notes::{NoNote, Notes};
use crate::rule::{ExchangeAs, Raise};
use crate::run::{Enough, Moved, Run};
use crate::word::{SIZE_AT, Word};
use std::alloc::Allocator;

impl<A: Allocator> Word<A> {
    /// Tries once to move the size from `from` to `from + n`. It waits for nobody.
    pub fn exchange(&self, hand: &mut Hand, from: u64, n: u64) -> Result<Run, Moved>
        requires ours { IsHandOf self.now hand.old }
        requires some_places { 0 < n }
        requires within_limit { from + n ≤ self.now.limit }
        requires not_ahead { from ≤ seen_size hand.old }
        // Won: this step is the linearization point of the growth.
        ensures run { IfOk result (λ run. run ≡ record { from = from; n = n }) }
        ensures claimed { IfOk result (λ run. AddsRun hand.old hand.new run) }
        ensures not_below { IfOk result (λ run. seen_size hand.old ≤ run.from) }
        // Lost: nothing is claimed, and the hand has seen the size that comes with the refusal.
        ensures moved { IfErr result (λ lost. from < lost.size) }
        ensures seen { IfErr result (λ lost. SeesSize hand.old hand.new lost.size) }
        // The history gets the claim of the run, or nothing.
        ensures logs { IfOk result (λ run. LogsRun hand.old hand.new run) }
        ensures logs_nothing { IfErr result (λ _. AddsEvents hand.old.log [] hand.new.log) }
        // What the hand knows of cells stays.
        ensures cells { KeepsCells hand.old hand.new }
        // Nobody else can claim while one hand has all shares.
        ensures whole { IsWholeHand hand.old → from ≡ seen_size hand.old → IsOk result }
    {
        self.exchange_as::<NoNote>(hand, from, n)
    }

    /// Tries once like `exchange`. If it is lost, it logs the note's events of the size that it finds.
    #[inline]
    pub fn exchange_as<N: Notes>(&self, hand: &mut Hand, from: u64, n: u64) -> Result<Run, Moved>
        requires ours { IsHandOf self.now hand.old }
        requires some_places { 0 < n }
        requires within_limit { from + n ≤ self.now.limit }
        requires not_ahead { from ≤ seen_size hand.old }
        requires note { IsNote self.now.limit N.note }
        ensures run { IfOk result (λ run. run ≡ record { from = from; n = n }) }
        ensures claimed { IfOk result (λ run. AddsRun hand.old hand.new run) }
        ensures not_below { IfOk result (λ run. seen_size hand.old ≤ run.from) }
        ensures moved { IfErr result (λ lost. from < lost.size) }
        ensures seen { IfErr result (λ lost. SeesSize hand.old hand.new lost.size) }
        ensures logs { IfOk result (λ run. LogsRun hand.old hand.new run) }
        ensures logs_note { IfErr result
            (λ lost. AddsEvents hand.old.log (N.note lost.size) hand.new.log) }
        ensures cells { KeepsCells hand.old hand.new }
        ensures whole { IsWholeHand hand.old → from ≡ seen_size hand.old → IsOk result }
    {
        let shared = &self.table.shared;
        let mut seat = hand.take_seat();
        let found = shared.compare_exchange::<ExchangeAs<N>>(&mut seat, SIZE_AT, from, from + n);
        if found == from {
            hand.put_seat(seat, from + n);
            Ok(Run { from, n })
        } else {
            hand.put_seat(seat, found);
            Err(Moved { size: found })
        }
    }

    /// Raises the size to `to`, if it is smaller, by one step. It waits for nobody.
    pub fn raise(&self, hand: &mut Hand, to: u64) -> Result<Run, Enough>
        requires ours { IsHandOf self.now hand.old }
        requires within_limit { to ≤ self.now.limit }
        // The size grew: this step is the linearization point of the growth.
        ensures run { IfOk result (λ run. run.from + run.n ≡ to) }
        ensures claimed { IfOk result (λ run. AddsRun hand.old hand.new run) }
        ensures not_below { IfOk result (λ run. seen_size hand.old ≤ run.from) }
        // The size was large enough: nothing is claimed, and the hand has seen the size that comes with the
        // refusal.
        ensures enough { IfErr result (λ enough. to ≤ enough.size) }
        ensures seen { IfErr result (λ enough. SeesSize hand.old hand.new enough.size) }
        // The history gets the claim of the run, or that the size was enough.
        ensures logs { IfOk result (λ run. LogsRaise hand.old hand.new to run) }
        ensures logs_enough { IfErr result (λ enough.
            AddsEvents hand.old.log (enough_event to enough.size ∷ []) hand.new.log) }
        // What the hand knows of cells stays.
        ensures cells { KeepsCells hand.old hand.new }
        // Nobody else can claim while one hand has all shares.
        ensures whole { IsWholeHand hand.old → IfOk result (λ run. run.from ≡ seen_size hand.old) }
        ensures whole_enough { IsWholeHand hand.old
            → IfErr result (λ enough. enough.size ≡ seen_size hand.old) }
    {
        let shared = &self.table.shared;
        let mut seat = hand.take_seat();
        let found = shared.fetch_max::<Raise>(&mut seat, SIZE_AT, to);
        if found < to {
            hand.put_seat(seat, to);
            Ok(Run {
                from: found,
                n: to - found,
            })
        } else {
            hand.put_seat(seat, found);
            Err(Enough { size: found })
        }
    }
}
