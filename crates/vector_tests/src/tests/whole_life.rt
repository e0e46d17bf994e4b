// A whole life of a vector, by the public clauses alone. It is opened on a value and two broken members. Three threads fail a
// construction, push, read and mend. It is closed, opened again, and read. There are two histories: the second begins with the
// list in which the first has ended, and each value that a token names is where the token says.
ghost use Rattle.std.specs.Prelude.{◌≡◌, ◌+◌, ◌<◌, [], ◌∷◌, Some, None, IfSome, IsTrue, length};
ghost use Rattle.std.specs.Thread.{IsSync};
ghost use Rattle.claim_core.specs.Shares.{all_shares};
ghost use Rattle.claim_core.specs.Hand.{IsNewHand};
ghost use Rattle.grow_core.specs.Closing.{IsOfClosed};
ghost use Rattle.grow_core.specs.Vector.{IsHandOf, IsOpenedAt, BeginsAsOpened};
ghost use Rattle.vector_tests.specs.WholeLife.{IsKept, IsSaid, EndsIn, LivesOn};

use super::histories::one_of_three;
use grow_core::{Hand, Parts, Placed, Shared, laws};
use std::alloc::Global;
use std::thread::{Threads, join};

// The cause of a construction that is refused on purpose.
#[derive(Drop)]
struct Stopped;

// Fails a construction of two values at the second.
fn fail_once(vector: &Shared<u64>, hand: &mut Hand<u64>)
    requires ours { IsHandOf vector.now hand.old }
    ensures of { hand.new.of ≡ hand.old.of }
    ensures shares { hand.new.shares ≡ hand.old.shares }
{
    drop(vector.try_grow_with(hand, 2, |i: u64| -> Result<u64, Stopped> {
        if i == 0 { Ok(7) } else { Err(Stopped) }
    }));
}

// Fails a construction, and then pushes a value.
fn fail_and_push(
    vector: &Shared<u64>,
    mut hand: Hand<u64>,
    value: u64,
) -> (Hand<u64>, Option<Placed<u64>>)
    requires ours { IsHandOf vector.now hand }
    ensures of { result.0.of ≡ vector.now.word }
    ensures shares { result.0.shares ≡ hand.shares }
    ensures kept { IfSome result.1 (IsKept vector.now result.0 value) }
{
    fail_once(vector, &mut hand);
    match vector.try_push_back(&mut hand, value) {
        Ok(placed) => (hand, Some(placed)),
        Err(_) => (hand, None),
    }
}

// Fills a broken place.
fn mend_one(
    vector: &Shared<u64>,
    mut hand: Hand<u64>,
    place: u64,
    value: u64,
) -> (Hand<u64>, Option<Placed<u64>>)
    requires ours { IsHandOf vector.now hand }
    ensures of { result.0.of ≡ vector.now.word }
    ensures shares { result.0.shares ≡ hand.shares }
    ensures kept { IfSome result.1 (IsKept vector.now result.0 value) }
{
    match vector.mend(&mut hand, place, value) {
        Ok(placed) => (hand, Some(placed)),
        Err(_) => (hand, None),
    }
}

// The value of the opened list at a place.
fn read_opened(vector: &Shared<u64>, hand: &mut Hand<u64>, place: u64, value: u64) -> u64
    requires ours { IsHandOf vector.now hand.old }
    requires opened { IsOpenedAt vector.now place value }
    ensures of { hand.new.of ≡ hand.old.of }
    ensures shares { hand.new.shares ≡ hand.old.shares }
    ensures same { result ≡ value }
{
    // Only the contract speaks of the value.
    let _ = value;
    match vector.at(hand, place, None) {
        Ok(at) => *at.value,
        Err(_) => unreachable!(),
    }
}

// Reads the first place, and then fills another one.
fn read_and_mend(
    vector: &Shared<u64>,
    mut hand: Hand<u64>,
    first: u64,
    place: u64,
    value: u64,
) -> (Hand<u64>, Option<Placed<u64>>)
    requires ours { IsHandOf vector.now hand }
    requires opened { IsOpenedAt vector.now 0 first }
    ensures of { result.0.of ≡ vector.now.word }
    ensures shares { result.0.shares ≡ hand.shares }
    ensures kept { IfSome result.1 (IsKept vector.now result.0 value) }
{
    if read_opened(vector, &mut hand, 0, first) != first {
        unreachable!()
    }
    mend_one(vector, hand, place, value)
}

// Two threads fill the broken places, and one of them reads the first. Their hands are joined.
fn mend_by_two<R: Threads + Sync>(
    rt: &R,
    vector: &Shared<u64>,
    b: Hand<u64>,
    c: Hand<u64>,
    first: u64,
) -> (Hand<u64>, Option<Placed<u64>>, Option<Placed<u64>>)
    requires ours { IsHandOf vector.now b }
    requires also_ours { IsHandOf vector.now c }
    requires opened { IsOpenedAt vector.now 0 first }
    ensures of { result.0.of ≡ vector.now.word }
    ensures shares { result.0.shares ≡ b.shares + c.shares }
    ensures one { IfSome result.1 (IsKept vector.now result.0 6) }
    ensures other { IfSome result.2 (IsKept vector.now result.0 7) }
{
    let ((mut all, one), (hand, other)) = join(
        rt,
        || -> (Hand<u64>, Option<Placed<u64>>)
            requires { IsHandOf vector.now b }
            ensures of { result.0.of ≡ vector.entry.now.word }
            ensures shares { result.0.shares ≡ b.shares }
            ensures kept { IfSome result.1 (IsKept vector.entry.now result.0 6) }
        { mend_one(vector, b, 1, 6) },
        || -> (Hand<u64>, Option<Placed<u64>>)
            requires { IsHandOf vector.now c × IsOpenedAt vector.now 0 first }
            ensures of { result.0.of ≡ vector.entry.now.word }
            ensures shares { result.0.shares ≡ c.shares }
            ensures kept { IfSome result.1 (IsKept vector.entry.now result.0 7) }
        { read_and_mend(vector, c, first, 2, 7) },
    );
    vector.join(&mut all, hand);
    (all, one, other)
}

// What a token says, by the closed list: its place and its value.
fn recalled(parts: &Parts<u64>, token: &Option<Placed<u64>>) -> Option<(u64, u64)>
    requires of { IfSome token.now (IsOfClosed parts.now.closed) }
    requires below { IfSome token.now (λ p. p.place < length parts.now.members) }
    ensures there { IsSaid parts.now.members result }
{
    let Some(placed) = token else { return None };
    Some((placed.place(), *parts.recall(placed)))
}

// What the tokens of three threads say, once their vector is closed.
#[derive(Drop)]
struct Said {
    pushed: Option<(u64, u64)>,
    one: Option<(u64, u64)>,
    other: Option<(u64, u64)>,
}

// A thread pushes a value, two others fill the broken places, and the vector is closed. Its list is that of its history, and
// has the value of each token at the token's place.
fn live_once<R: Threads + Sync>(
    rt: &R,
    vector: Shared<u64>,
    a: Hand<u64>,
    b: Hand<u64>,
    c: Hand<u64>,
    first: u64,
) -> (Parts<u64>, Said)
    requires ours { IsHandOf vector a }
    requires also_ours { IsHandOf vector b }
    requires third_ours { IsHandOf vector c }
    requires whole { a.shares + b.shares + c.shares ≡ all_shares }
    requires opened { IsOpenedAt vector 0 first }
    ensures history { EndsIn vector result.0.members }
    ensures pushed { IsSaid result.0.members result.1.pushed }
    ensures one { IsSaid result.0.members result.1.one }
    ensures other { IsSaid result.0.members result.1.other }
{
    let vector_ref = &vector;
    let ((mut all, pushed), (hand, one, other)) = join(
        rt,
        || -> (Hand<u64>, Option<Placed<u64>>)
            requires { IsHandOf vector_ref.now a }
            ensures of { result.0.of ≡ vector_ref.entry.now.word }
            ensures shares { result.0.shares ≡ a.shares }
            ensures kept { IfSome result.1 (IsKept vector_ref.entry.now result.0 5) }
        { fail_and_push(vector_ref, a, 5) },
        || -> (Hand<u64>, Option<Placed<u64>>, Option<Placed<u64>>)
            requires { IsSync R.row × IsHandOf vector_ref.now b × IsHandOf vector_ref.now c
                × IsOpenedAt vector_ref.now 0 first }
            ensures of { result.0.of ≡ vector_ref.entry.now.word }
            ensures shares { result.0.shares ≡ b.shares + c.shares }
            ensures one { IfSome result.1 (IsKept vector_ref.entry.now result.0 6) }
            ensures other { IfSome result.2 (IsKept vector_ref.entry.now result.0 7) }
        { mend_by_two(rt, vector_ref, b, c, first) },
    );
    vector.join(&mut all, hand);
    all.laws();
    all.whole_laws();
    let parts = vector.into_parts(all);
    let said = Said {
        pushed: recalled(&parts, &pushed),
        one: recalled(&parts, &one),
        other: recalled(&parts, &other),
    };
    (parts, said)
}

// Opens a list into a vector, whose history begins with it.
fn open(parts: Parts<u64>) -> Option<(Shared<u64>, Hand<u64>)>
    ensures hand { IfSome result (λ (vector, hand). IsNewHand vector.word hand) }
    ensures opened { IfSome result (λ (vector, _). vector.opened ≡ parts.members) }
    ensures begins { IfSome result (λ (vector, _). BeginsAsOpened vector) }
{
    match Shared::of_parts(parts) {
        Ok((vector, hand)) => {
            vector.laws();
            Some((vector, hand))
        }
        Err(refused) => {
            drop(refused);
            None
        }
    }
}

// Reads what a token of the first life says in the second one.
fn read_again(vector: &Shared<u64>, hand: &mut Hand<u64>, said: Option<(u64, u64)>) -> bool
    requires ours { IsHandOf vector.now hand.old }
    requires said { IsSaid vector.now.opened said }
    ensures of { hand.new.of ≡ hand.old.of }
    ensures same { IsTrue result }
{
    match said {
        Some((place, value)) => read_opened(vector, hand, place, value) == value,
        None => true,
    }
}

// Opens the list, lives once, opens the closed list again, and reads each value that a token names.
fn live_twice<R: Threads + Sync>(
    rt: &R,
    parts: Parts<u64>,
    first: u64,
) -> Option<(Shared<u64>, Hand<u64>, bool)>
    requires members { parts.members ≡ Some first ∷ None ∷ None ∷ [] }
    ensures ours { IfSome result (λ (vector, hand, _). IsHandOf vector hand) }
    ensures lives { IfSome result (λ (vector, _, _). LivesOn parts.members vector) }
    ensures same { IfSome result (λ (_, _, same). IsTrue same) }
{
    let (vector, mut a) = open(parts)?;
    let b = vector.split(&mut a, 100);
    let c = vector.split(&mut a, 100);
    let (list, said) = live_once(rt, vector, a, b, c, first);
    let Said { pushed, one, other } = said;
    let (again, mut hand) = open(list)?;
    let same = read_again(&again, &mut hand, pushed)
        && read_again(&again, &mut hand, one)
        && read_again(&again, &mut hand, other);
    Some((again, hand, same))
}

// The size of the second vector, if there is memory for both lives.
fn size_of_second<R: Threads + Sync>(rt: &R, alloc: Global, first: u64) -> Option<u64> {
    let parts = one_of_three(alloc, first)?;
    let (vector, mut hand, _) = live_twice(rt, parts, first)?;
    let size = vector.size(&mut hand);
    drop(hand);
    drop(vector);
    Some(size)
}

// The refused construction has claimed two places, and the push one, unless they met.
#[test]
fn a_second_life_begins_where_the_first_has_ended(rt: HostRuntime) {
    let size = size_of_second(&rt, rt.alloc(), 5).unwrap_or(0);
    assert!(rt; size >= 4 && size <= 6);
}
