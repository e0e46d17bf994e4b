// A layer above, in small: places lie in 32 blocks, and a hand carries the key of each block that one of its
// runs touches. That every key is there is kept through claim, split, join and meet, by the public clauses
// alone.
ghost use Rattle.std.specs.Prelude.{◌≡◌, ◌+◌, ◌-◌, ◌<◌, ◌≤◌, ◌++◌, [], ℕ, IsSome, IfSome, slice_index_or, None};
ghost use Rattle.claim_core.specs.Hand.{IsHandOf, KeepsOwn, OwnsRun};

use claim_core::{Hand, Run, Word, laws};
use std::alloc::Allocator;
use std::marker::Model;
use std::test::Fail;

// The places of a block.
const BLOCK: u64 = 1 << 35;

// Evidence that a block is there.
#[derive(Clone, Copy, PartialEq, Eq)]
struct Key;

type Row = [Option<Key>; 32];

#[derive(Drop)]
struct KeyedHand {
    hand: Hand,
    row: Row,
}

impl Model for KeyedHand {
    ghost use Rattle.std.specs.Prelude.{ℕ, ◌/◌, IsSome, slice_index_or, None};
    ghost use Rattle.claim_core.specs.Hand.{HandView, OwnsPlace};

    ghost Value = { HandView };

    ghost view = { λ h. h.hand };

    // Each block that has an own place has its key in the row.
    ghost invariant = { λ h. (place : ℕ) → OwnsPlace h.hand place
        → IsSome (slice_index_or h.row (place / 34359738368) None) };
}

// Puts the other row's keys into the row.
fn put_keys(row: &mut Row, other: &Row)
    ensures kept { (b : ℕ) → IsSome (slice_index_or row.old b None)
        → IsSome (slice_index_or row.new b None) }
    ensures put { (b : ℕ) → IsSome (slice_index_or other.now b None)
        → IsSome (slice_index_or row.new b None) }
{
    for b in 0..32usize {
        if row[b].is_none() {
            row[b] = other[b];
        }
    }
}

impl KeyedHand {
    fn new(hand: Hand) -> KeyedHand
        requires { hand.mine ≡ [] }
        ensures { result ≡ hand }
    {
        KeyedHand {
            hand,
            row: [None; 32],
        }
    }

    // Claims n places, at most a block, so that they lie in one block or two.
    fn claim<A: Allocator>(&mut self, word: &Word<A>, n: u64) -> Option<Run>
        requires ours { IsHandOf word.now self.old }
        requires some_places { 0 < n }
        requires at_most_a_block { n ≤ 34359738368 }
        ensures of { self.new.of ≡ self.old.of }
        ensures shares { self.new.shares ≡ self.old.shares }
        ensures owned { IfSome result (OwnsRun self.new) }
    {
        word.laws();
        self.hand.laws();
        laws::own_places_stay();
        laws::added_runs_are_owned();
        laws::added_places_are_of_the_run();
        let from = self.hand.seen();
        if n > word.limit() - from {
            return None;
        }
        let Ok(run) = word.exchange(&mut self.hand, from, n) else {
            return None;
        };
        self.row[(from / BLOCK) as usize] = Some(Key);
        self.row[((from + n - 1) / BLOCK) as usize] = Some(Key);
        Some(run)
    }

    // Tests whether it has the keys of the first three blocks alone.
    fn has_first_keys(&self) -> bool {
        self.row[..3] == [Some(Key); 3] && self.row[3].is_none()
    }

    fn split<A: Allocator>(&mut self, word: &Word<A>, shares: u32) -> KeyedHand
        requires ours { IsHandOf word.now self.old }
        requires some_shares { 0 < shares }
        requires not_all { shares < self.old.shares }
        ensures kept { self.new ≡ record self.old { shares = self.old.shares - shares } }
        ensures given { result ≡ record self.old { mine = []; shares = shares } }
    {
        KeyedHand::new(word.split(&mut self.hand, shares))
    }

    fn join<A: Allocator>(&mut self, word: &Word<A>, other: KeyedHand)
        requires ours { IsHandOf word.now self.old }
        requires also_ours { IsHandOf word.now other }
        ensures of { self.new.of ≡ self.old.of }
        ensures mine { self.new.mine ≡ self.old.mine ++ other.mine }
        ensures shares { self.new.shares ≡ self.old.shares + other.shares }
    {
        self.hand.laws();
        other.hand.laws();
        laws::joined_places_are_of_either();
        let KeyedHand { hand, row } = other;
        word.join(&mut self.hand, hand);
        put_keys(&mut self.row, &row);
    }

    fn meet<A: Allocator>(&mut self, word: &Word<A>, other: &mut KeyedHand)
        requires ours { IsHandOf word.now self.old }
        requires also_ours { IsHandOf word.now other.old }
        ensures own { KeepsOwn self.old self.new }
        ensures also_own { KeepsOwn other.old other.new }
    {
        self.hand.laws();
        other.hand.laws();
        laws::own_places_stay();
        word.meet(&mut self.hand, &mut other.hand);
    }

    // The key of a place's block, if the hand owns a run that has the place.
    fn key<A: Allocator>(&self, word: &Word<A>, run: Run, place: u64) -> Key
        requires ours { IsHandOf word.now self.now }
        requires owned { OwnsRun self.now run }
        requires from { run.from ≤ place }
        requires before { place < run.from + run.n }
    {
        word.laws();
        self.hand.laws();
        laws::seen_runs_are_within();
        laws::seen_runs_have_places();
        let entry = self.row[(place / BLOCK) as usize];
        entry.unwrap()
    }
}

// The run of n places that a hand claims, and the keys of its first and its last place.
fn claim_and_look<A: Allocator>(
    word: &Word<A>,
    hand: &mut KeyedHand,
    n: u64,
) -> Option<(Run, Key, Key)>
    requires ours { IsHandOf word.now hand.old }
    requires some_places { 0 < n }
    requires at_most_a_block { n ≤ 34359738368 }
    ensures of { hand.new.of ≡ hand.old.of }
    ensures shares { hand.new.shares ≡ hand.old.shares }
{
    let run = hand.claim(word, n)?;
    if run.n == 0 || run.from > BLOCK * 32 || run.n > BLOCK {
        return None;
    }
    let first = hand.key(word, run, run.from);
    Some((run, first, hand.key(word, run, run.from + (run.n - 1))))
}

// The runs of two hands, if the row of keys has those of both once they are joined.
fn claim_by_two<A: Allocator>(word: &Word<A>, mut a: KeyedHand) -> Option<(Run, Run)>
    requires ours { IsHandOf word.now a }
    requires some_shares { 1 < a.shares }
{
    let runs = claim_and_join(word, &mut a);
    let has_keys = runs.is_some() && a.has_first_keys() && a.hand.is_whole();
    drop(a);
    if has_keys { runs } else { None }
}

// The runs of two hands, which are then joined.
fn claim_and_join<A: Allocator>(word: &Word<A>, a: &mut KeyedHand) -> Option<(Run, Run)>
    requires ours { IsHandOf word.now a.old }
    requires some_shares { 1 < a.old.shares }
{
    let (first, _, _) = claim_and_look(word, a, 2)?;
    let mut b = a.split(word, 1);
    let Some((second, _, _)) = claim_and_look(word, &mut b, BLOCK) else {
        drop(b);
        return None;
    };
    a.meet(word, &mut b);
    a.join(word, b);
    Some((first, second))
}

const FIRST: Run = Run {
    from: BLOCK - 1,
    n: 2,
};

const SECOND: Run = Run {
    from: BLOCK + 1,
    n: BLOCK,
};

#[test]
fn keys_stay_with_their_runs(rt: HostRuntime) -> Result<(), Fail> {
    let (word, hand) = Word::open(rt.alloc(), 1 << 40, BLOCK - 1)?;
    let claimed = claim_by_two(&word, KeyedHand::new(hand));
    assert!(rt; claimed == Some((FIRST, SECOND)));
    Ok(())
}
