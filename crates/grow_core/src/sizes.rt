//! Loads of the size that log what the size decides: a refusal, or that nothing has to be claimed.
ghost use Rattle.std.specs.Prelude.{◌≡◌, ◌+◌, ◌-◌, ◌<◌, ◌≤◌, ◌∷◌, [], length};
ghost use Rattle.claim_core.specs.Hand.{IsWholeHand, SeesSize, seen_size};
ghost use Rattle.claim_core.specs.History.{AddsEvents, IsNote, claim_event, enough_event, full_event, past_event};
ghost use Rattle.grow_core.specs.Vector.{IsHandOf, limit_of};
ghost use Rattle.grow_core.specs.Logs.{LogsNothing};

use crate::hand::Hand;
use crate::vector::Shared;
use claim_core::{Notes, laws};
use std::marker::Brand;

impl<T> Shared<T> {
    // The size now, by one load that logs the note's events of it. Only the note may speak of the number.
    #[inline]
    fn size_as<N: Notes>(&self, hand: &mut Hand<T>, about: u64) -> u64
        requires ours { IsHandOf self.now hand.old }
        requires note { IsNote (limit_of self.now) N.note }
        ensures seen { SeesSize hand.old hand.new result }
        ensures grows { seen_size hand.old ≤ result }
        ensures opened { length self.now.opened ≤ result }
        ensures logs { AddsEvents hand.old.log (N.note result) hand.new.log }
        ensures whole { IsWholeHand hand.old → result ≡ seen_size hand.old }
    {
        // Only the contract speaks of the number.
        let _ = about;
        // For the proof: a hand that has seen more owns the same places.
        self.laws();
        hand.claims.laws();
        laws::own_places_stay();
        self.word.size_as::<N>(&mut hand.claims)
    }

    // The size now. The load logs nothing.
    #[inline]
    pub(crate) fn look_at_size(&self, hand: &mut Hand<T>) -> u64
        requires ours { IsHandOf self.now hand.old }
        ensures seen { SeesSize hand.old hand.new result }
        ensures grows { seen_size hand.old ≤ result }
        ensures whole { IsWholeHand hand.old → result ≡ seen_size hand.old }
        ensures goes_on { LogsNothing hand.old hand.new }
    {
        // For the proof: nothing is legal at every size.
        laws::refusals_are_notes();
        self.size_as::<Brand>(hand, 0)
    }

    // The size now. The load logs a growth by no places, or for the refusal of one by `n`.
    #[inline]
    pub(crate) fn size_for(&self, hand: &mut Hand<T>, n: u64) -> u64
        requires ours { IsHandOf self.now hand.old }
        ensures seen { SeesSize hand.old hand.new result }
        ensures grows { seen_size hand.old ≤ result }
        ensures whole { IsWholeHand hand.old → result ≡ seen_size hand.old }
        ensures none { n ≡ 0 → AddsEvents hand.old.log
            (claim_event 0 record { from = result; n = n } ∷ []) hand.new.log }
        ensures full { 0 < n → limit_of self.now < result + n
            → AddsEvents hand.old.log (full_event n result ∷ []) hand.new.log }
        ensures goes_on { LogsNothing hand.old hand.new }
    {
        // For the proof: the refusal is legal at the size.
        laws::refusals_are_notes();
        self.size_as::<Brand>(hand, n)
    }

    // The size now. The load logs a growth up to a size that is not needed, or is above the limit.
    #[inline]
    pub(crate) fn size_up_to(&self, hand: &mut Hand<T>, to: u64) -> u64
        requires ours { IsHandOf self.now hand.old }
        ensures seen { SeesSize hand.old hand.new result }
        ensures grows { seen_size hand.old ≤ result }
        ensures whole { IsWholeHand hand.old → result ≡ seen_size hand.old }
        ensures enough { to ≤ result
            → AddsEvents hand.old.log (enough_event to result ∷ []) hand.new.log }
        ensures full { result < to → limit_of self.now < to
            → AddsEvents hand.old.log (full_event (to - result) result ∷ []) hand.new.log }
        ensures goes_on { LogsNothing hand.old hand.new }
    {
        // For the proof: the refusal is legal at the size.
        laws::refusals_are_notes();
        self.size_as::<Brand>(hand, to)
    }

    // The size now. The load logs a look at the place, if that is not below the size.
    #[inline]
    pub(crate) fn size_past(&self, hand: &mut Hand<T>, place: u64) -> u64
        requires ours { IsHandOf self.now hand.old }
        ensures seen { SeesSize hand.old hand.new result }
        ensures grows { seen_size hand.old ≤ result }
        ensures opened { length self.now.opened ≤ result }
        ensures whole { IsWholeHand hand.old → result ≡ seen_size hand.old }
        ensures past { result ≤ place
            → AddsEvents hand.old.log (past_event place result ∷ []) hand.new.log }
        ensures goes_on { LogsNothing hand.old hand.new }
    {
        // For the proof: the refusal is legal at the size.
        laws::refusals_are_notes();
        self.size_as::<Brand>(hand, place)
    }

    // A size that the hand has seen: the one that it knows if that is above the place, otherwise the size now. The load
    // logs a look at the place, if that is not below the size.
    #[inline(always)]
    pub(crate) fn size_seen(&self, hand: &mut Hand<T>, place: u64) -> u64
        requires ours { IsHandOf self.now hand.old }
        ensures seen { SeesSize hand.old hand.new result }
        ensures grows { seen_size hand.old ≤ result }
        ensures opened { length self.now.opened ≤ result }
        ensures past { result ≤ place
            → AddsEvents hand.old.log (past_event place result ∷ []) hand.new.log }
        ensures goes_on { LogsNothing hand.old hand.new }
    {
        // For the proof: a hand has seen the opened list.
        self.laws();
        hand.laws();
        let seen = hand.seen();
        if place < seen {
            return seen;
        }
        self.size_past(hand, place)
    }
}
