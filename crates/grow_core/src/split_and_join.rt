//! How hands are cut in two, put together, and shown to each other.
ghost use Rattle.std.specs.Prelude.{◌≡◌, ◌+◌, ◌-◌, ◌<◌, ◌++◌, ◌⊎◌, []};
ghost use mathlib.Core.List.{IsPrefix};
ghost use Rattle.claim_core.specs.Hand.{KeepsOwn, OwnApart};
ghost use Rattle.grow_core.specs.Vector.{IsHandOf};

use crate::hand::Hand;
use crate::keys::put_keys;
use crate::vector::Shared;
use claim_core::laws;

impl<T> Shared<T> {
    /// Splits shares off into a new hand, which has seen the same. It shows no size.
    pub fn split(&self, hand: &mut Hand<T>, shares: u32) -> Hand<T>
        requires ours { IsHandOf self.now hand.old }
        requires some_shares { 0 < shares }
        requires not_all { shares < hand.old.shares }
        ensures kept { hand.new ≡ record hand.old { shares = hand.old.shares - shares } }
        ensures given { result ≡ record hand.old { mine = []; shares = shares } }
    {
        // For the proof: the hand keeps its places.
        hand.claims.laws();
        laws::own_places_stay();
        Hand::of(self.word.split(&mut hand.claims, shares))
    }

    /// Joins the other hand's runs and shares into the hand, which has then seen whichever is more of what
    /// the two had seen.
    pub fn join(&self, hand: &mut Hand<T>, other: Hand<T>)
        requires ours { IsHandOf self.now hand.old }
        requires also_ours { IsHandOf self.now other }
        ensures of { hand.new.of ≡ hand.old.of }
        ensures mine { hand.new.mine ≡ hand.old.mine ++ other.mine }
        ensures shares { hand.new.shares ≡ hand.old.shares + other.shares }
        ensures seen { (hand.new.seen ≡ hand.old.seen) ⊎ (hand.new.seen ≡ other.seen) }
        ensures begins { IsPrefix hand.old.seen hand.new.seen }
        ensures also_begins { IsPrefix other.seen hand.new.seen }
        ensures begins_log { IsPrefix hand.old.log hand.new.log }
        ensures also_begins_log { IsPrefix other.log hand.new.log }
        ensures apart { OwnApart hand.old other }
    {
        // For the proof: a place of the joined hand was a place of either.
        hand.claims.laws();
        other.claims.laws();
        laws::joined_places_are_of_either();
        let Hand {
            claims,
            keys,
            marker: _,
        } = other;
        self.word.join(&mut hand.claims, claims);
        put_keys(&mut hand.keys, &keys);
    }

    /// Shows two hands to each other, by one load of the size: both have then seen all that was claimed.
    pub fn meet(&self, a: &mut Hand<T>, b: &mut Hand<T>)
        requires ours { IsHandOf self.now a.old }
        requires also_ours { IsHandOf self.now b.old }
        ensures own { KeepsOwn a.old a.new }
        ensures also_own { KeepsOwn b.old b.new }
        ensures begins { IsPrefix a.old.seen a.new.seen }
        ensures also_begins { IsPrefix b.old.seen a.new.seen }
        ensures same { b.new.seen ≡ a.new.seen }
        ensures begins_log { IsPrefix a.old.log a.new.log }
        ensures also_begins_log { IsPrefix b.old.log a.new.log }
        ensures same_log { b.new.log ≡ a.new.log }
        ensures apart { OwnApart a.new b.new }
    {
        // For the proof: each hand keeps its places.
        a.claims.laws();
        b.claims.laws();
        laws::own_places_stay();
        self.word.meet(&mut a.claims, &mut b.claims);
    }
}
