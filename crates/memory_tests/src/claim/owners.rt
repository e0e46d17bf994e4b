// What callers prove of runs and places that hands own, by the public clauses and laws alone.
ghost use Rattle.std.specs.Prelude.{◌≡◌, ◌≢◌, ◌+◌, ◌<◌, IfSome};
ghost use Rattle.claim_core.specs.Hand.{IsHandOf, OwnsRun, IsOwnRun, single, seen_size, own_places};

use claim_core::{Hand, Run, Word, laws};
use std::alloc::Allocator;
use std::test::Fail;

// Claims one place, if there is room: the hand has then seen the place's end, and owns one more place.
fn claim_one<A: Allocator>(word: &Word<A>, hand: &mut Hand) -> Option<u64>
    requires ours { IsHandOf word.now hand.old }
    ensures of { hand.new.of ≡ hand.old.of }
    ensures owned { IfSome result (λ place. OwnsRun hand.new (single place)) }
    ensures ends { IfSome result (λ place. seen_size hand.new ≡ place + 1) }
    ensures places { IfSome result (λ _. own_places hand.new ≡ own_places hand.old + 1) }
{
    hand.laws();
    let from = hand.seen();
    if from == word.limit() {
        return None;
    }
    laws::added_runs_are_owned();
    laws::added_places_add_up();
    match word.exchange(hand, from, 1) {
        Ok(_run) => Some(from),
        Err(_moved) => None,
    }
}

// Single places of hands that met differ.
fn differ<A: Allocator>(word: &Word<A>, a: &mut Hand, b: &mut Hand, x: u64, y: u64)
    requires ours { IsHandOf word.now a.old }
    requires also_ours { IsHandOf word.now b.old }
    requires owned { OwnsRun a.old (single x) }
    requires also_owned { OwnsRun b.old (single y) }
    ensures of { a.new.of ≡ a.old.of }
    ensures also_of { b.new.of ≡ b.old.of }
    ensures still_owned { OwnsRun a.new (single x) }
    ensures also_still_owned { OwnsRun b.new (single y) }
    ensures differ { x ≢ y }
{
    // Only the contract speaks of the places.
    let _ = (x, y);
    word.meet(a, b);
    laws::own_runs_stay();
    laws::single_places_differ();
}

// A joined hand owns the runs of both hands, and the sum of their places.
fn join<A: Allocator>(word: &Word<A>, a: &mut Hand, b: Hand, x: u64, y: u64)
    requires ours { IsHandOf word.now a.old }
    requires also_ours { IsHandOf word.now b }
    requires owned { OwnsRun a.old (single x) }
    requires also_owned { OwnsRun b (single y) }
    ensures of { a.new.of ≡ a.old.of }
    ensures owned { OwnsRun a.new (single x) }
    ensures also_owned { OwnsRun a.new (single y) }
    ensures places { own_places a.new ≡ own_places a.old + own_places b }
{
    // Only the contract speaks of the places.
    let _ = (x, y);
    a.laws();
    b.laws();
    laws::joined_places_add_up();
    laws::joined_hands_own_runs();
    word.join(a, b);
}

// A hand with a place that it owns.
#[derive(Drop)]
struct Owner {
    hand: Hand,
    place: u64,
    ghost owned: { IsOwnRun hand (single place) },
}

// Both hands claim a place, meet and are joined: the places differ, and the hand owns the first.
fn claim_by_two<A: Allocator>(word: &Word<A>, mut a: Hand, mut b: Hand) -> Option<Owner>
    requires ours { IsHandOf word.now a }
    requires also_ours { IsHandOf word.now b }
{
    let x = claim_one(word, &mut a)?;
    b.laws();
    let _size = word.size(&mut b);
    let y = claim_one(word, &mut b)?;
    differ(word, &mut a, &mut b, x, y);
    join(word, &mut a, b, x, y);
    laws::own_runs_are_facts();
    Some(Owner { hand: a, place: x })
}

// An owner's hand owns its place.
fn place_of(owner: &Owner) -> Run
    ensures { OwnsRun owner.now.hand result }
{
    laws::own_runs_are_facts();
    Run {
        from: owner.place,
        n: 1,
    }
}

// An owner's place, and what its hand has seen.
fn owned_by_two<A: Allocator>(word: &Word<A>, mut a: Hand) -> Option<(Run, u64)>
    requires ours { IsHandOf word.now a }
    requires some_shares { 1 < a.shares }
{
    let b = word.split(&mut a, 1);
    let owner = claim_by_two(word, a, b)?;
    Some((place_of(&owner), owner.hand.seen()))
}

#[test]
fn a_hand_owns_what_two_claimed(rt: HostRuntime) -> Result<(), Fail> {
    let (word, a) = Word::open(rt.alloc(), 8, 3)?;
    assert!(rt; owned_by_two(&word, a) == Some((Run { from: 3, n: 1 }, 5)));
    Ok(())
}
