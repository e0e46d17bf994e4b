//! The seat of a hand, which each step of the word takes out of its badge and puts back.
ghost use Rattle.std.specs.Prelude.{◌≡◌};
ghost use Rattle.claim_core.specs.Hand.{seen_size};
ghost use Rattle.claim_core.specs.Lent.{lent_hand};
ghost use Rattle.claim_core.specs.Rule.{word_count};
ghost use Rattle.claim_core.specs.Seat.{IsHeld, IsSound, floor_in, hand_view};

use crate::hand::Hand;
use crate::mark::Mark;
use crate::rule::ClaimSeat;
use atomic_table::Badge;
use std::mem;

impl Hand {
    // Makes a hand of a seat, of the word whose desk has the number in the mark.
    #[inline(always)]
    pub(crate) fn around(seat: ClaimSeat, floor: Mark, shares: u32, seen: u64) -> Hand
        requires { IsHeld seat shares seen }
        ensures { result ≡ hand_view (floor_in floor.numbers) seat }
    {
        Hand {
            badge: seat.into_badge(),
            floor,
            shares,
            seen,
        }
    }

    // Makes a hand of another seat of the same word.
    #[inline(always)]
    pub(crate) fn like(&self, seat: ClaimSeat, shares: u32, seen: u64) -> Hand
        requires { IsHeld seat shares seen }
        ensures { result ≡ hand_view self.now.of.floor seat }
    {
        Hand::around(seat, self.floor.again(), shares, seen)
    }

    // Takes the seat out of the badge, for one call of the word.
    #[inline(always)]
    pub(crate) fn take_seat(&mut self) -> ClaimSeat
        requires { self.old.of.table.words ≡ word_count }
        ensures seat { hand_view self.old.of.floor result ≡ self.old }
        ensures held { IsHeld result self.old.shares (seen_size self.old) }
        ensures lent { self.new ≡ lent_hand self.old }
    {
        mem::replace(&mut self.badge, Badge::blank()).into_seat()
    }

    // Puts a seat into the badge, which has seen the same size.
    #[inline(always)]
    pub(crate) fn put_back(&mut self, seat: ClaimSeat)
        requires { IsHeld seat self.old.shares (seen_size self.old) }
        ensures { self.new ≡ hand_view self.old.of.floor seat }
    {
        self.badge = seat.into_badge();
    }

    // Puts a seat into the badge, which has seen this size.
    #[inline(always)]
    pub(crate) fn put_seat(&mut self, seat: ClaimSeat, seen: u64)
        requires { IsHeld seat self.old.shares seen }
        ensures { self.new ≡ hand_view self.old.of.floor seat }
    {
        self.badge = seat.into_badge();
        self.seen = seen;
    }

    // Puts a seat into the badge, which has these shares and has seen this size.
    #[inline(always)]
    pub(crate) fn put_shares(&mut self, seat: ClaimSeat, shares: u32, seen: u64)
        requires { IsHeld seat shares seen }
        ensures { self.new ≡ hand_view self.old.of.floor seat }
    {
        self.badge = seat.into_badge();
        self.shares = shares;
        self.seen = seen;
    }

    // Shows a proof what every hand keeps.
    pub(crate) fn show_kept(&self)
        ensures { IsSound self.now }
    {
        // For the proof: reading a field shows the type's invariant.
        let _seen = self.seen;
    }
}
