// A layer above, in small: each hand counts the places that it won. When the word is closed, its size is the
// base and the count of the one hand that is left, by the public clauses alone.
ghost use Rattle.std.specs.Prelude.{◌≡◌, ◌+◌, ◌-◌, ◌<◌, []};
ghost use Rattle.claim_core.specs.Hand.{IsHandOf, IsWholeHand, KeepsOwn, own_places};

use claim_core::{Hand, Word, laws};
use std::alloc::Allocator;
use std::marker::Model;
use std::test::Fail;

#[derive(Drop)]
struct CountingHand {
    hand: Hand,
    won: u64,
}

impl Model for CountingHand {
    ghost use Rattle.std.specs.Prelude.{◌≡◌};
    ghost use Rattle.claim_core.specs.Hand.{HandView, own_places};

    ghost Value = { HandView };

    ghost view = { λ h. h.hand };

    ghost invariant = { λ h. h.won ≡ own_places h.hand };
}

impl CountingHand {
    fn new(hand: Hand) -> CountingHand
        requires { hand.mine ≡ [] }
        ensures { result ≡ hand }
    {
        CountingHand { hand, won: 0 }
    }

    fn won(&self) -> u64
        ensures { result ≡ own_places self.now }
    {
        self.won
    }

    // Claims up to n places, as far as there is room.
    fn claim<A: Allocator>(&mut self, word: &Word<A>, n: u64)
        requires ours { IsHandOf word.now self.old }
        ensures of { self.new.of ≡ self.old.of }
        ensures shares { self.new.shares ≡ self.old.shares }
    {
        word.laws();
        self.hand.laws();
        let to = self.hand.seen().saturating_add(n).min(word.limit());
        laws::added_places_add_up();
        laws::own_counts_stay();
        if let Ok(run) = word.raise(&mut self.hand, to) {
            self.hand.laws();
            self.won += run.n;
        }
    }

    fn split<A: Allocator>(&mut self, word: &Word<A>, shares: u32) -> CountingHand
        requires ours { IsHandOf word.now self.old }
        requires some_shares { 0 < shares }
        requires not_all { shares < self.old.shares }
        ensures kept { self.new ≡ record self.old { shares = self.old.shares - shares } }
        ensures given { result ≡ record self.old { mine = []; shares = shares } }
    {
        CountingHand::new(word.split(&mut self.hand, shares))
    }

    fn join<A: Allocator>(&mut self, word: &Word<A>, other: CountingHand)
        requires ours { IsHandOf word.now self.old }
        requires also_ours { IsHandOf word.now other }
        ensures of { self.new.of ≡ self.old.of }
        ensures shares { self.new.shares ≡ self.old.shares + other.shares }
        ensures places { own_places self.new ≡ own_places self.old + own_places other }
    {
        word.laws();
        self.hand.laws();
        other.hand.laws();
        laws::joined_places_add_up();
        let CountingHand { hand, won } = other;
        word.join(&mut self.hand, hand);
        self.hand.laws();
        self.won += won;
    }

    fn meet<A: Allocator>(&mut self, word: &Word<A>, other: &mut CountingHand)
        requires ours { IsHandOf word.now self.old }
        requires also_ours { IsHandOf word.now other.old }
        ensures own { KeepsOwn self.old self.new }
        ensures also_own { KeepsOwn other.old other.new }
    {
        self.hand.laws();
        other.hand.laws();
        laws::own_counts_stay();
        word.meet(&mut self.hand, &mut other.hand);
    }

    // Ends the word: the size, and how many places were won.
    fn close<A: Allocator>(self, word: Word<A>) -> (u64, u64)
        requires ours { IsHandOf word self }
        requires whole { IsWholeHand self }
        ensures { result.0 ≡ word.base + result.1 }
    {
        self.hand.whole_laws();
        let CountingHand { hand, won } = self;
        (word.close(hand), won)
    }
}

// The wins and sizes of two hands before they are joined, and then the size at the close.
fn count_by_two<A: Allocator>(
    word: Word<A>,
    mut a: CountingHand,
) -> ((u64, u64), Option<(u64, u64)>)
    requires ours { IsHandOf word a }
    requires some_shares { 1 < a.shares }
{
    a.claim(&word, 5);
    let mut b = a.split(&word, 1);
    b.claim(&word, 20);
    a.meet(&word, &mut b);
    a.claim(&word, 7);
    let won = (a.won(), b.won());
    a.join(&word, b);
    if a.hand.is_whole() {
        (won, Some(a.close(word)))
    } else {
        (won, None)
    }
}

#[test]
fn the_size_at_close_is_the_base_and_all_own_runs(rt: HostRuntime) -> Result<(), Fail> {
    let (word, hand) = Word::open(rt.alloc(), 100, 10)?;
    let counted = count_by_two(word, CountingHand::new(hand));
    assert!(rt; counted == ((12, 20), Some((42, 32))));
    Ok(())
}
