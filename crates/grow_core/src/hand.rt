//! A caller's token of what it has seen.
ghost use Rattle.std.specs.Prelude.{◌≡◌, ℕ, ◌+◌, ◌<◌, ◌≤◌, ◌↔◌, nat_eq, IsTrue, All, Contains, length, []};
ghost use Rattle.std.specs.List.{IsDistinct};
ghost use Rattle.claim_core.specs.Lengths.{Tiles, times};
ghost use Rattle.claim_core.specs.Hand.{IsWholeHand, OwnsPlace, SeesBegun, seen_size, own_places};
ghost use Rattle.claim_core.specs.History.{IsHistoryOf, lengths_of};
ghost use Rattle.claim_core.specs.Laws.{OwnPlacesStay, AddedPlacesAreOfTheRun, AddedPlacesAreOwned, AddedRunsAreOwned, FullIsNote};
ghost use Rattle.claim_core.specs.Laws.{AddedPlacesAreNotBegun, AddedRunsAreLast, SeenRunsHavePlaces, EventsFollow, StepsGoOn};
ghost use Rattle.claim_core.specs.Shares.{all_shares};
ghost use Rattle.seg_core.specs.Segment.{HasPlace, most_segments};
ghost use Rattle.grow_core.specs.Keys.{IsKeyed, IsKeyAt, AreKeys, HasKeysOfPlaces, layout_in};
ghost use Rattle.grow_core.specs.Ties.{KnowsRow, KnowsRows};
ghost use mathlib.Core.List.{IsPrefix};

use crate::keys::{Keys, key_of, no_keys};
use claim_core::{Hand as ClaimHand, laws};
use std::fmt;
use std::marker::{Model, PhantomData};
use table_core::Key;

// Shows a proof what a claim keeps of a hand: its places, and those of the run that it gains; and that a lost one may
// log a refusal. The call does nothing.
pub(crate) fn claiming_laws(claims: &ClaimHand)
    ensures within { seen_size claims.now ≤ claims.now.of.limit }
    ensures below { (k : ℕ) → Contains claims.now.mine k → k < length claims.now.seen }
    ensures stay { OwnPlacesStay }
    ensures places { AddedPlacesAreOfTheRun }
    ensures owned { AddedPlacesAreOwned }
    ensures runs { AddedRunsAreOwned }
    ensures full { FullIsNote }
    ensures begun { SeesBegun claims.now }
    ensures fresh { AddedPlacesAreNotBegun }
    ensures last { AddedRunsAreLast }
    ensures have { SeenRunsHavePlaces }
    ensures follow { EventsFollow }
    ensures go_on { StepsGoOn }
{
    // For the proof: what holds of the hand's runs, and of any run that is added; and how steps add events.
    claims.laws();
    laws::own_places_stay();
    laws::added_places_are_of_the_run();
    laws::added_places_are_owned();
    laws::added_runs_are_owned();
    laws::refusals_are_notes();
    laws::added_places_are_not_begun();
    laws::added_runs_are_last();
    laws::seen_runs_have_places();
    laws::events_follow();
    laws::steps_go_on();
}

// The `Hand` of `claim_core`, with the keys of its runs' segments.
/// A caller's knowledge of the vector's size, and its shares. Closing needs all shares, so once a hand is
/// dropped the vector can only be dropped.
#[derive(Drop)]
pub struct Hand<T> {
    pub(crate) claims: ClaimHand,
    pub(crate) keys: Keys,
    pub(crate) marker: PhantomData<T>,
}

impl<T> Model for Hand<T> {
    ghost use Rattle.claim_core.specs.Hand.{HandView};
    ghost use Rattle.grow_core.specs.Keys.{IsKeyed};
    ghost use Rattle.grow_core.specs.Ties.{KnowsRows};

    ghost Value = { HandView };

    ghost view = { λ h. h.claims };

    ghost invariant = { λ h. IsKeyed h.claims h.keys × KnowsRows h.claims h.keys };
}

impl<T> fmt::Debug for Hand<T> {
    fn fmt<W: fmt::Write>(&self, f: &mut fmt::Formatter<W>) -> fmt::Result {
        self.claims.fmt(f)
    }
}

impl<T> Hand<T> {
    // The hand of a vector around that of its claim word. It has no key.
    pub(crate) fn of(claims: ClaimHand) -> Hand<T>
        requires { claims.mine ≡ [] }
        ensures { result ≡ claims }
    {
        Hand {
            claims,
            keys: no_keys(),
            marker: PhantomData,
        }
    }

    // What every hand keeps: it has the key of each segment that its own runs touch, and knows where the places of
    // tied ones stand. It does nothing but show the row.
    pub(crate) fn keys(&self) -> &Keys
        ensures keyed { IsKeyed self.now result.now }
        ensures rows { KnowsRows self.now result.now }
    {
        &self.keys
    }

    // What a whole hand keeps: it has the key of the segment of each place that was claimed. It does nothing
    // but show the row.
    pub(crate) fn whole_keys(&self) -> &Keys
        requires whole { IsWholeHand self.now }
        ensures keys { AreKeys self.now.of.mark result.now }
        ensures all { HasKeysOfPlaces (layout_in self.now.of.mark) result.now self.now.of.base
            (seen_size self.now) }
    {
        // For the proof: a whole hand owns every place.
        self.whole_laws();
        self.keys()
    }

    // The key of a segment that has a place of the hand's own.
    pub(crate) fn key(&self, segment: u32, place: u64) -> Key
        requires small { segment < most_segments }
        requires owned { OwnsPlace self.now place }
        requires there { HasPlace (layout_in self.now.of.mark) segment place }
        ensures key { IsKeyAt self.now.of.mark segment result }
        ensures row { KnowsRow self.now segment result.block }
    {
        // Only the contract speaks of the place.
        let _ = place;
        match key_of(&self.keys, segment) {
            Some(key) => key,
            None => unreachable!(),
        }
    }

    /// Returns the hand's shares.
    pub fn share(&self) -> u32
        ensures { result ≡ self.now.shares }
    {
        self.claims.share()
    }

    /// Tests whether the hand has all shares.
    pub fn is_whole(&self) -> bool
        ensures { IsTrue result ↔ IsWholeHand self.now }
    {
        self.claims.is_whole()
    }

    /// Returns the size that the hand has seen.
    pub fn seen(&self) -> u64
        ensures { result ≡ seen_size self.now }
    {
        self.claims.seen()
    }

    /// Shows a proof what every hand keeps. The call does nothing.
    pub fn laws(&self)
        ensures positive { All (λ n. 0 < n) self.now.seen }
        ensures within { seen_size self.now ≤ self.now.of.limit }
        // It has seen each run that it owns, and owns none twice.
        ensures below { (k : ℕ) → Contains self.now.mine k → k < length self.now.seen }
        ensures once { (k : ℕ) → times k self.now.mine ≤ 1 }
        ensures distinct { IsDistinct nat_eq self.now.mine }
        ensures places { self.now.of.base + own_places self.now ≤ seen_size self.now }
        ensures some_shares { 0 < self.now.shares }
        ensures not_more { self.now.shares ≤ all_shares }
        // The history that it has seen is legal, and claims all runs that the hand has seen, each once.
        ensures history { IsHistoryOf self.now.of.limit self.now.of.base self.now.of.filled
            self.now.log }
        ensures lengths { IsPrefix self.now.seen (lengths_of self.now.log) }
    {
        // For the proof: what holds of the hand's runs.
        self.claims.laws();
    }

    /// Shows a proof what a whole hand keeps: it has seen all that was claimed, and owns it. The size is the
    /// base plus the places of all its runs. The call does nothing.
    pub fn whole_laws(&self)
        requires whole { IsWholeHand self.now }
        ensures all { (k : ℕ) → k < length self.now.seen → Contains self.now.mine k }
        ensures tiles { Tiles self.now.of.base self.now.seen self.now.mine }
        ensures size { seen_size self.now ≡ self.now.of.base + own_places self.now }
        ensures claims { lengths_of self.now.log ≡ self.now.seen }
    {
        // For the proof: a whole hand owns every place.
        self.claims.whole_laws();
    }
}
