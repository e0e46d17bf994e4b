//! A caller's token of what it has seen.
ghost use Rattle.std.specs.Prelude.{◌≡◌, ℕ, ◌+◌, ◌<◌, ◌≤◌, ◌↔◌, nat_eq, IsTrue, All, Contains, length};
ghost use Rattle.std.specs.List.{IsDistinct};
ghost use Rattle.claim_core.specs.Lengths.{Tiles, times};
ghost use Rattle.claim_core.specs.Hand.{IsWholeHand, SeesBegun, seen_size, own_places};
ghost use Rattle.claim_core.specs.Shares.{all_shares};
ghost use Rattle.claim_core.specs.History.{IsHistoryOf, lengths_of};
ghost use Rattle.claim_core.specs.Rule.{word_count};
ghost use Rattle.claim_core.specs.Seat.{IsHeld, hand_view};
ghost use mathlib.Core.List.{IsPrefix};

use crate::mark::Mark;
use crate::rule::ClaimSeat;
use crate::seat_view::SeatView;
use atomic_table::Badge;
use std::fmt;
use std::marker::Model;

// The shares of a whole hand.
pub(crate) const WHOLE: u32 = 65536;

// `grow_core` has a `Hand` too: this one, with the keys of its runs' segments.
/// A caller's knowledge of the size, and its shares. Closing the word needs all shares, so once a hand is
/// dropped the word can only be dropped. It takes 16 bytes. While an offer or a visit has its seat, it is a
/// hand of no word, so no call of a word takes it.
pub struct Hand {
    pub(crate) badge: Badge<SeatView>,
    // The number of the word's desk.
    pub(crate) floor: Mark,
    pub(crate) shares: u32,
    pub(crate) seen: u64,
}

impl Model for Hand {
    ghost use Rattle.claim_core.specs.Hand.{HandView};

    ghost Value = { HandView };

    ghost use Rattle.claim_core.specs.Seat.{floor_in, hand_by, IsKept};

    ghost view = { λ h.
        hand_by (floor_in h.floor.numbers) h.badge.table_id h.badge.views h.shares h.seen };

    ghost invariant = { λ h. IsKept h.badge.views h.shares h.seen };
}

// By hand, so that proofs of callers do not go into its fields.
impl Drop for Hand {
    #[inline(always)]
    fn drop(self) {
        let Self {
            badge: _,
            floor: _,
            shares: _,
            seen: _,
        } = self;
    }
}

impl fmt::Debug for Hand {
    fn fmt<W: fmt::Write>(&self, f: &mut fmt::Formatter<W>) -> fmt::Result {
        f.debug_struct("Hand")
            .field("seen", &self.seen)
            .field("shares", &self.shares)
            .finish_non_exhaustive()
    }
}

impl Hand {
    /// Returns the hand's shares.
    pub fn share(&self) -> u32
        ensures { result ≡ self.now.shares }
    {
        self.shares
    }

    /// Tests whether the hand has all shares.
    pub fn is_whole(&self) -> bool
        ensures { IsTrue result ↔ IsWholeHand self.now }
    {
        self.share() == WHOLE
    }

    /// Shows a proof what every hand keeps. The call does nothing.
    pub fn laws(&self)
        ensures positive { All (λ n. 0 < n) self.now.seen }
        ensures within { seen_size self.now ≤ self.now.of.limit }
        // It has seen each run that it owns, and owns none twice.
        ensures below { (k : ℕ) → Contains self.now.mine k → k < length self.now.seen }
        ensures once { (k : ℕ) → times k self.now.mine ≤ 1 }
        ensures distinct { IsDistinct nat_eq self.now.mine }
        ensures places { self.now.of.base + own_places self.now ≤ seen_size self.now }
        ensures some_shares { 0 < self.now.shares }
        ensures not_more { self.now.shares ≤ all_shares }
        // The history that it has seen is legal, and claims all runs that the hand has seen, each once.
        ensures history { IsHistoryOf self.now.of.limit self.now.of.base self.now.of.filled
            self.now.log }
        ensures lengths { IsPrefix self.now.seen (lengths_of self.now.log) }
        // It has seen the places that it knows begun.
        ensures begun { SeesBegun self.now }
    {
        self.show_kept();
    }

    /// Shows a proof what a whole hand keeps: it has seen all that was claimed, and owns it. The size is the
    /// base plus the places of all its runs. The call does nothing.
    pub fn whole_laws(&self)
        requires whole { IsWholeHand self.now }
        ensures all { (k : ℕ) → k < length self.now.seen → Contains self.now.mine k }
        ensures tiles { Tiles self.now.of.base self.now.seen self.now.mine }
        ensures size { seen_size self.now ≡ self.now.of.base + own_places self.now }
        ensures claims { lengths_of self.now.log ≡ self.now.seen }
    {
        // For the proof: reading a field shows the type's invariant.
        let _shares = self.shares;
    }

    /// Returns the size that the hand has seen.
    pub fn seen(&self) -> u64
        ensures { result ≡ seen_size self.now }
    {
        self.seen
    }

    // Takes the seat out of a hand that is given up.
    #[inline(always)]
    pub(crate) fn into_seat(self) -> ClaimSeat
        requires { self.of.table.words ≡ word_count }
        ensures seat { hand_view self.of.floor result ≡ self }
        ensures held { IsHeld result self.shares (seen_size self) }
    {
        let Hand {
            badge,
            floor: _,
            shares: _,
            seen: _,
        } = self;
        badge.into_seat()
    }
}
