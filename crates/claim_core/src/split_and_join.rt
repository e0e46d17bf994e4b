//! How hands are cut in two, put together, and shown to each other.
ghost use Rattle.std.specs.Prelude.{◌≡◌, ◌+◌, ◌-◌, ◌<◌, ◌++◌, ◌⊎◌, []};
ghost use mathlib.Core.List.{IsPrefix};
ghost use Rattle.claim_core.specs.Hand.{IsHandOf, KeepsOwn, KnowsBoth, OwnApart};
ghost use Rattle.claim_core.specs.Seat.{IsPair, SeesAsOne};

use crate::hand::Hand;
use crate::rule::{Both, ClaimSeat, ClaimTable, Cut, Divides, Load, Settle};
use crate::word::{SIZE_AT, Word};
use std::alloc::Allocator;
use std::marker::Brand;

impl<A: Allocator> Word<A> {
    /// Splits shares off into a new hand, which has seen the same. It takes one load of the word, which shows
    /// no size.
    pub fn split(&self, hand: &mut Hand, shares: u32) -> Hand
        requires ours { IsHandOf self.now hand.old }
        requires some_shares { 0 < shares }
        requires not_all { shares < hand.old.shares }
        ensures kept { hand.new ≡ record hand.old { shares = hand.old.shares - shares } }
        ensures given { result ≡ record hand.old { mine = []; shares = shares } }
    {
        self.give::<Brand>(hand, shares)
    }

    // The same, by what the caller picks for the two parts.
    fn give<P: Divides>(&self, hand: &mut Hand, shares: u32) -> Hand
        requires ours { IsHandOf self.now hand.old }
        requires some_shares { 0 < shares }
        requires not_all { shares < hand.old.shares }
        requires kept_runs { P.kept_runs ≡ hand.old.mine }
        requires kept_shares { P.kept_shares ≡ hand.old.shares - shares }
        requires given_runs { P.given_runs ≡ [] }
        requires given_shares { P.given_shares ≡ shares }
        ensures kept { hand.new ≡ record hand.old { shares = hand.old.shares - shares } }
        ensures given { result ≡ record hand.old { mine = []; shares = shares } }
    {
        let shared = &self.table.shared;
        let left = hand.share() - shares;
        let seen = hand.seen();
        let mut seat = hand.take_seat();
        let part = shared.split_seat::<Cut<P>>(&mut seat);
        hand.put_shares(seat, left, seen);
        hand.like(part, shares, seen)
    }

    /// Joins the other hand's runs and shares into the hand, which has then seen whichever is more of what
    /// the two had seen. It takes two loads of the word, which show no size.
    pub fn join(&self, hand: &mut Hand, other: Hand)
        requires ours { IsHandOf self.now hand.old }
        requires also_ours { IsHandOf self.now other }
        ensures of { hand.new.of ≡ hand.old.of }
        ensures mine { hand.new.mine ≡ hand.old.mine ++ other.mine }
        ensures shares { hand.new.shares ≡ hand.old.shares + other.shares }
        ensures seen { (hand.new.seen ≡ hand.old.seen) ⊎ (hand.new.seen ≡ other.seen) }
        ensures begins { IsPrefix hand.old.seen hand.new.seen }
        ensures also_begins { IsPrefix other.seen hand.new.seen }
        ensures begins_log { IsPrefix hand.old.log hand.new.log }
        ensures also_begins_log { IsPrefix other.log hand.new.log }
        ensures cells { KnowsBoth hand.old other hand.new }
        ensures apart { OwnApart hand.old other }
    {
        let shared = &self.table.shared;
        let given = other.share();
        let seen = hand.seen().max(other.seen());
        let mut seat = hand.take_seat();
        let part = other.into_seat();
        let shares = hand.share() + given;
        shared.join_seat::<Both>(&mut seat, part);
        shared.load::<Settle>(&mut seat, SIZE_AT);
        hand.put_shares(seat, shares, seen);
    }

    /// Shows two hands to each other: both have then seen all that was claimed before one load of the size.
    /// It takes two more loads, which show no size.
    pub fn meet(&self, a: &mut Hand, b: &mut Hand)
        requires ours { IsHandOf self.now a.old }
        requires also_ours { IsHandOf self.now b.old }
        ensures own { KeepsOwn a.old a.new }
        ensures also_own { KeepsOwn b.old b.new }
        ensures begins { IsPrefix a.old.seen a.new.seen }
        ensures also_begins { IsPrefix b.old.seen a.new.seen }
        ensures same { b.new.seen ≡ a.new.seen }
        ensures begins_log { IsPrefix a.old.log a.new.log }
        ensures also_begins_log { IsPrefix b.old.log a.new.log }
        ensures same_log { b.new.log ≡ a.new.log }
        ensures cells { KnowsBoth a.old b.old a.new }
        ensures also_cells { KnowsBoth a.old b.old b.new }
        ensures apart { OwnApart a.new b.new }
    {
        let shared = &self.table.shared;
        let mut seat = a.take_seat();
        let part = b.take_seat();
        let (size, part) = show::<Brand>(shared, &mut seat, part);
        a.put_seat(seat, size);
        b.put_seat(part, size);
    }
}

// Joins a seat to another, looks at the size, and cuts it off again with what it had.
fn show<P: Divides>(shared: &ClaimTable, seat: &mut ClaimSeat, other: ClaimSeat) -> (u64, ClaimSeat)
    requires pair { IsPair shared.now.table_id shared.now.key seat.old other }
    requires kept_runs { P.kept_runs ≡ seat.old.me.0.mine }
    requires kept_shares { P.kept_shares ≡ seat.old.me.0.shares }
    requires given_runs { P.given_runs ≡ other.me.0.mine }
    requires given_shares { P.given_shares ≡ other.me.0.shares }
    ensures { SeesAsOne seat.old other result.0 seat.new result.1 }
{
    shared.join_seat::<Both>(seat, other);
    let size = shared.load::<Load>(seat, SIZE_AT);
    (size, shared.split_seat::<Cut<P>>(seat))
}
