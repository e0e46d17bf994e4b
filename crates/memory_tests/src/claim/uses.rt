// What callers prove by the public clauses alone.
ghost use Rattle.std.specs.Prelude.{◌≡◌, ◌<◌, IfSome};
ghost use Rattle.claim_core.specs.Lengths.{Tiles};
ghost use Rattle.claim_core.specs.Hand.{IsHandOf, IsWholeHand, HasSeen, OwnsRun, AreDisjoint, seen_size};

use claim_core::{Hand, Run, Word, laws};
use std::alloc::Allocator;
use std::test::Fail;

// Claims one place, if there is room.
fn claim_one<A: Allocator>(word: &Word<A>, hand: &mut Hand) -> Option<Run>
    requires ours { IsHandOf word.now hand.old }
    ensures of { hand.new.of ≡ hand.old.of }
    ensures shares { hand.new.shares ≡ hand.old.shares }
    ensures owned { IfSome result (OwnsRun hand.new) }
{
    let from = word.size(hand);
    if from == word.limit() {
        return None;
    }
    laws::added_runs_are_owned();
    word.exchange(hand, from, 1).ok()
}

// Two hands claim a place each, and meet: their runs are disjoint, and both have seen both.
fn claim_two<A: Allocator>(word: &Word<A>, a: &mut Hand, b: &mut Hand) -> Option<(Run, Run)>
    requires ours { IsHandOf word.now a.old }
    requires also_ours { IsHandOf word.now b.old }
    ensures of { (a.new.of ≡ a.old.of) × (b.new.of ≡ b.old.of) }
    ensures shares { (a.new.shares ≡ a.old.shares) × (b.new.shares ≡ b.old.shares) }
    ensures disjoint { IfSome result (λ (x, y). AreDisjoint x y) }
    ensures seen { IfSome result (λ (x, y). HasSeen a.new x × HasSeen a.new y) }
    ensures also_seen { IfSome result (λ (x, y). HasSeen b.new x × HasSeen b.new y) }
{
    let first = claim_one(word, a)?;
    let second = claim_one(word, b)?;
    word.meet(a, b);
    laws::seen_runs_stay();
    laws::own_runs_stay();
    laws::owners_are_apart();
    Some((first, second))
}

// Two hands claim a place each, and become one without a meeting: their runs are disjoint, and it has seen
// both.
fn claim_joined<A: Allocator>(word: &Word<A>, a: &mut Hand, mut b: Hand) -> Option<(Run, Run)>
    requires ours { IsHandOf word.now a.old }
    requires also_ours { IsHandOf word.now b }
    ensures of { a.new.of ≡ a.old.of }
    ensures disjoint { IfSome result (λ (x, y). AreDisjoint x y) }
    ensures seen { IfSome result (λ (x, y). HasSeen a.new x × HasSeen a.new y) }
{
    let first = claim_one(word, a)?;
    let second = claim_one(word, &mut b)?;
    laws::seen_runs_stay();
    laws::joined_owners_are_apart();
    word.join(a, b);
    Some((first, second))
}

// A whole hand claims: its runs tile the places from the base to the size.
fn claim_all<A: Allocator>(word: Word<A>, mut hand: Hand) -> (u64, Hand)
    requires ours { IsHandOf word hand }
    requires whole { IsWholeHand hand }
    ensures size { result.0 ≡ seen_size result.1 }
    ensures tiles { Tiles word.base result.1.seen result.1.mine }
{
    let _first = claim_one(&word, &mut hand);
    let _second = claim_one(&word, &mut hand);
    let size = word.size(&mut hand);
    hand.whole_laws();
    (size, hand)
}

type Two = Option<(Run, Run)>;

// The claims of two hands and what they have then seen, and their claims before they are joined.
fn claim_by_two<A: Allocator>(word: &Word<A>, a: &mut Hand) -> (Two, (u64, u64), Two)
    requires ours { IsHandOf word.now a.old }
    requires some_shares { 1 < a.old.shares }
    ensures of { a.new.of ≡ a.old.of }
{
    word.laws();
    a.laws();
    laws::runs_stay();
    laws::runs_are_apart();
    let mut b = word.split(a, 1);
    let won = claim_two(word, a, &mut b);
    let seen = (a.seen(), b.seen());
    (won, seen, claim_joined(word, a, b))
}

// The size that a whole hand leaves.
fn size_after<A: Allocator>(word: Word<A>, hand: Hand) -> Option<u64>
    requires ours { IsHandOf word hand }
{
    if hand.is_whole() {
        Some(claim_all(word, hand).0)
    } else {
        None
    }
}

// Two runs of a place each, from here on.
fn two_from(from: u64) -> Two {
    let second = from.wrapping_add(1);
    Some((Run { from, n: 1 }, Run { from: second, n: 1 }))
}

#[test]
fn two_hands_claim_meet_and_join(rt: HostRuntime) -> Result<(), Fail> {
    let (word, mut a) = Word::open(rt.alloc(), 8, 0)?;
    let (won, seen, joined) = claim_by_two(&word, &mut a);
    assert!(rt; won == two_from(0) && seen == (2, 2) && joined == two_from(2));
    assert!(rt; size_after(word, a) == Some(6));
    Ok(())
}
