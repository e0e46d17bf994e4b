// What callers prove by the public clauses alone.
ghost use Rattle.std.specs.Prelude.{◌≡◌, ◌+◌, ◌<◌, ◌≤◌, ◌++◌, ℕ, List, Some, IfSome, slice_get};
ghost use Rattle.claim_core.specs.Shares.{all_shares};
ghost use Rattle.grow_core.specs.Lengths.{Tiles, runs_end};
ghost use Rattle.grow_core.specs.Hand.{OwnsRun, AreDisjoint, IsWholeHand, seen_size};
ghost use Rattle.grow_core.specs.Vector.{IsHandOf, IsPlacedOf, IsOpenedAt, base_of, limit_of};
ghost use Rattle.grow_core.specs.Closing.{KeepsValues};
ghost use Rattle.grow_core.specs.Growth.{single};

use super::callers::{Callers, empty};
use super::parts::member;
use grow_core::{Hand, Parts, Placed, Shared, laws};
use std::alloc::Global;
use std::thread::{Threads, join};

// Appends a value, in whatever thread it is called.
fn push_one(
    vector: &Shared<u64>,
    mut hand: Hand<u64>,
    value: u64,
) -> (Hand<u64>, Option<Placed<u64>>)
    requires ours { IsHandOf vector.now hand }
    ensures of { result.0.of ≡ vector.now.word }
    ensures shares { result.0.shares ≡ hand.shares }
    ensures owned { IfSome result.1 (λ p. OwnsRun result.0 (single p.place)) }
    ensures below { IfSome result.1 (λ p. p.place < seen_size result.0) }
    ensures token { IfSome result.1 (IsPlacedOf vector.now) }
    ensures value { IfSome result.1 (λ p. p.value ≡ value) }
{
    let placed = vector.try_push_back(&mut hand, value).ok();
    (hand, placed)
}

// Two threads append a value each, and their hands meet: they have two places.
fn push_in_two_threads<R: Threads + Sync>(
    rt: &R,
    vector: &Shared<u64>,
    a: Hand<u64>,
    b: Hand<u64>,
) -> Option<(Placed<u64>, Placed<u64>)>
    requires ours { IsHandOf vector.now a }
    requires also_ours { IsHandOf vector.now b }
    ensures disjoint { IfSome result (λ (x, y). AreDisjoint (single x.place) (single y.place)) }
    ensures tokens { IfSome result (λ (x, y). IsPlacedOf vector.now x × IsPlacedOf vector.now y) }
{
    let ((mut a, x), (mut b, y)) = join(
        rt,
        || -> (Hand<u64>, Option<Placed<u64>>)
            requires { IsHandOf vector.now a }
            ensures of { result.0.of ≡ vector.entry.now.word }
            ensures owned { IfSome result.1 (λ p. OwnsRun result.0 (single p.place)) }
            ensures token { IfSome result.1 (IsPlacedOf vector.entry.now) }
        { push_one(vector, a, 5) },
        || -> (Hand<u64>, Option<Placed<u64>>)
            requires { IsHandOf vector.now b }
            ensures of { result.0.of ≡ vector.entry.now.word }
            ensures owned { IfSome result.1 (λ p. OwnsRun result.0 (single p.place)) }
            ensures token { IfSome result.1 (IsPlacedOf vector.entry.now) }
        { push_one(vector, b, 6) },
    );
    vector.meet(&mut a, &mut b);
    drop(a);
    drop(b);
    laws::own_runs_stay();
    laws::owners_are_apart();
    let x = x?;
    let y = y?;
    Some((x, y))
}

// The number of places that a walk finds, and of those that show a value.
fn count_both(vector: &Shared<u64>) -> (usize, u64)
    ensures places { result.0 ≤ limit_of vector.now }
    ensures values { result.1 ≤ limit_of vector.now }
{
    (vector.published().count(), vector.published_count())
}

// A value that one thread appends is the value that another reads by its token.
fn push_here_read_there<R: Threads + Sync>(
    rt: &R,
    vector: &Shared<u64>,
    hand: Hand<u64>,
    value: u64,
) -> Option<u64>
    requires ours { IsHandOf vector.now hand }
    ensures { IfSome result (λ read. read ≡ value) }
{
    let (hand, placed) = push_one(vector, hand, value);
    drop(hand);
    let placed = placed?;
    let (read, ()) = join(
        rt,
        || -> u64
            requires { IsPlacedOf vector.now placed }
            ensures { result ≡ placed.value }
        { *vector.get(&placed) },
        || (),
    );
    drop(placed);
    Some(read)
}

// Once two hands that have all shares are joined, their runs tile the length of the list that the vector is
// closed into.
fn close_both(vector: Shared<u64>, mut a: Hand<u64>, b: Hand<u64>) -> u64
    requires ours { IsHandOf vector a }
    requires also_ours { IsHandOf vector b }
    requires whole { a.shares + b.shares ≡ all_shares }
    ensures { (lengths : List ℕ)
        × Tiles (base_of vector) lengths (a.mine ++ b.mine)
        × (result ≡ runs_end (base_of vector) lengths) }
{
    vector.join(&mut a, b);
    a.whole_laws();
    let parts = vector.into_parts(a);
    let len = parts.len();
    drop(parts);
    len
}

// The same if they have all shares.
fn close_whole(vector: Shared<u64>, a: Hand<u64>, b: Hand<u64>) -> Option<u64>
    requires ours { IsHandOf vector a }
    requires also_ours { IsHandOf vector b }
{
    if u64::from(a.share()) + u64::from(b.share()) == 65_536 {
        Some(close_both(vector, a, b))
    } else {
        drop((vector, a, b));
        None
    }
}

// A value of the opened list is what anybody reads at its place, with a token of the place or without.
fn read_opened(
    vector: &Shared<u64>,
    hand: &mut Hand<u64>,
    place: u64,
    known: Option<&Placed<u64>>,
) -> Option<u64>
    requires ours { IsHandOf vector.now hand.old }
    requires known { IfSome known (λ p. IsPlacedOf vector.now p.now × (p.now.place ≡ place)) }
    ensures { (x : ℕ) → IsOpenedAt vector.now place x → result ≡ Some x }
{
    match vector.at(hand, place, known) {
        Ok(at) => Some(*at.value),
        Err(refused) => {
            drop(refused);
            None
        }
    }
}

// A value of a list is read at its place, once the list is opened.
fn open_and_read(parts: Parts<u64>, place: u64) -> Option<Option<u64>>
    ensures { (x : ℕ) → slice_get parts.members place ≡ Some (Some x)
        → IfSome result (λ read. read ≡ Some x) }
{
    match Shared::of_parts(parts) {
        Ok((vector, mut hand)) => {
            let read = read_opened(&vector, &mut hand, place, None);
            drop(hand);
            drop(vector);
            Some(read)
        }
        Err(refused) => {
            drop(refused);
            None
        }
    }
}

// The value of a push is recalled by its token, once the vector is closed.
fn push_and_recall(vector: Shared<u64>, mut hand: Hand<u64>, value: u64) -> Option<u64>
    requires ours { IsHandOf vector hand }
    requires whole { IsWholeHand hand }
    ensures { IfSome result (λ read. read ≡ value) }
{
    let placed = vector.try_push_back(&mut hand, value).ok()?;
    let parts = vector.into_parts(hand);
    Some(*parts.recall(&placed))
}

// The value of a push is the closed list's member at its place, and each opened value is still at its own.
fn push_and_close(vector: Shared<u64>, hand: Hand<u64>, value: u64) -> Option<(Parts<u64>, u64)>
    requires ours { IsHandOf vector hand }
    requires whole { IsWholeHand hand }
    ensures member { IfSome result (λ (parts, place).
        slice_get parts.members place ≡ Some (Some value)) }
    ensures opened { IfSome result (λ (parts, _). KeepsValues vector.opened parts.members) }
{
    let (hand, placed) = push_one(&vector, hand, value);
    let parts = vector.into_parts(hand);
    match placed {
        Some(placed) => {
            let _value = parts.recall(&placed);
            let place = placed.place();
            drop(placed);
            Some((parts, place))
        }
        None => {
            drop(parts);
            None
        }
    }
}

// A value of a list is still its member after a life with another appended value.
fn live_once(parts: Parts<u64>, value: u64) -> Option<Parts<u64>>
    ensures { IfSome result (λ after. KeepsValues parts.members after.members) }
{
    match Shared::of_parts(parts) {
        Ok((vector, hand)) => match push_and_close(vector, hand, value) {
            Some((after, _place)) => Some(after),
            None => None,
        },
        Err(refused) => {
            drop(refused);
            None
        }
    }
}

// The values and the sum of the places of a value that each of two threads appends.
fn read_of_two<R: Threads + Sync>(
    rt: &R,
    vector: &Shared<u64>,
    a: Hand<u64>,
    b: Hand<u64>,
) -> Option<(u64, u64, u64)>
    requires ours { IsHandOf vector.now a }
    requires also_ours { IsHandOf vector.now b }
{
    let pushed = push_in_two_threads(rt, vector, a, b);
    let read = match &pushed {
        Some((x, y)) => Some((
            *vector.get(x),
            *vector.get(y),
            x.place().wrapping_add(y.place()),
        )),
        None => None,
    };
    drop(pushed);
    read
}

#[test]
fn two_threads_append_and_join(rt: HostRuntime) {
    let Callers { vector, a, b } = Callers::new(&rt, 8);
    let read = read_of_two(&rt, &vector, a, b);
    drop(vector);
    assert!(rt; read == Some((5, 6, 1)));
}

#[test]
fn a_walk_has_no_more_places_than_the_limit(rt: HostRuntime) {
    let mut two = Callers::new(&rt, 2);
    let is_full = two.push_a(5) == Some(0) && two.push_b(6) == Some(1);
    let counted = count_both(&two.vector);
    drop(two);
    assert!(rt; is_full && counted == (2, 2));
}

#[test]
fn a_value_is_read_in_another_thread(rt: HostRuntime) {
    let Callers { vector, a, b } = Callers::new(&rt, 8);
    let read = push_here_read_there(&rt, &vector, a, 7);
    drop(b);
    drop(vector);
    assert_eq!(rt; read, Some(7));
}

#[test]
fn hands_that_were_joined_close_the_vector(rt: HostRuntime) {
    let mut two = Callers::new(&rt, 8);
    let _first = two.push_a(5);
    let _second = two.push_b(6);
    let Callers { vector, a, b, .. } = two;
    assert_eq!(rt; close_whole(vector, a, b), Some(2));
}

// The first member of a list that was opened and closed twice.
fn read_after_two_lives(alloc: Global) -> Option<Option<u64>> {
    let parts = live_once(Parts::new(alloc, 8), 5)?;
    match live_once(parts, 6) {
        Some(parts) => {
            if parts.len() == 2 {
                open_and_read(parts, 0)
            } else {
                drop(parts);
                None
            }
        }
        None => None,
    }
}

#[test]
fn a_member_lives_on_from_list_to_list(rt: HostRuntime) {
    assert!(rt; read_after_two_lives(rt.alloc()) == Some(Some(5)));
}

// The value of a push on a new vector, recalled once the vector is closed.
fn recall_of_new(alloc: Global, value: u64) -> Option<u64> {
    match empty(alloc, 8) {
        Ok((vector, hand)) => push_and_recall(vector, hand, value),
        Err(_error) => None,
    }
}

// The member at its place in the closed list.
fn member_of_new(alloc: Global, value: u64) -> Option<Option<u64>> {
    match empty(alloc, 8) {
        Ok((vector, hand)) => match push_and_close(vector, hand, value) {
            Some((parts, place)) => {
                let found = member(&parts, place);
                drop(parts);
                found
            }
            None => None,
        },
        Err(_error) => None,
    }
}

#[test]
fn a_pushed_value_is_a_member_of_the_closed_list(rt: HostRuntime) {
    assert!(rt; recall_of_new(rt.alloc(), 7) == Some(7));
    assert!(rt; member_of_new(rt.alloc(), 7) == Some(Some(7)));
}
