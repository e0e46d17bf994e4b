// What callers prove of the running vector and of its list by the public clauses alone.
ghost use Rattle.std.specs.Prelude.{◌≡◌, ◌+◌, ◌<◌, ◌≤◌, Some, IfSome, IfOk, IfErr, ℕ, length, slice_get, true};
ghost use Rattle.grow_core.specs.Vector.{IsHandOf, IsOpenedAt, IsSpoiltOf};
ghost use Rattle.grow_core.specs.Closing.{KeepsValues};

use crate::quiet::resized;
use crate::results::succeeded;
use grow_core::{AtError, AtLeast, GrowError, Hand, Shared, Shown, Spoilt, makers};
use quiet_core::{Quiet, QuietMendError, laws};
use std::alloc::AllocGlobal;

// Grows by `n` values of 7; the maker refuses number `at`, and its cause is 9. If the construction is refused,
// returns the run's first place and its length, the number of values that were made, and the reported cause.
pub(crate) fn grow_refused(
    vector: &Shared<u64>,
    hand: &mut Hand<u64>,
    n: u64,
    at: u64,
) -> Option<(u64, u64, u64, u64)>
    requires ours { IsHandOf vector.now hand.old }
    ensures of { hand.new.of ≡ hand.old.of }
    ensures shares { hand.new.shares ≡ hand.old.shares }
    ensures left { IfSome result (λ (_, n, made, _). made < n) }
    ensures cause { IfSome result (λ (_, _, _, why). why ≡ 9) }
{
    let make = |i: u64| -> Result<u64, u64>
        ensures { IfErr result (λ why. why ≡ 9) }
    { if i == at { Err(9) } else { Ok(7) } };
    let grown = vector.try_grow_with(hand, n, make);
    let told = match &grown {
        Err(GrowError::Refused { run, made, cause }) => {
            Some((run.from, run.n, made.run().n, *cause))
        }
        _ => None,
    };
    drop(grown);
    told
}

// Grows by `n` values, the first being 70; the maker refuses number `at`. If the construction is
// refused after the first value, returns that value.
fn first_of_refused(vector: &Shared<u64>, hand: &mut Hand<u64>, n: u64, at: u64) -> Option<u64>
    requires ours { IsHandOf vector.now hand.old }
    ensures { IfSome result (λ first. first ≡ 70) }
{
    let make = |i: u64| -> Result<u64, u64>
        ensures { i ≡ 0 → IfOk result (λ x. x ≡ 70) }
    {
        if i == at {
            Err(i)
        } else if i == 0 {
            Ok(70)
        } else {
            Ok(i)
        }
    };
    makers::first_is_for_zero(&make);
    let made = match vector.try_grow_with(hand, n, make) {
        Err(GrowError::Refused { made, .. }) => made,
        _ => return None,
    };
    if made.run().n == 0 {
        return None;
    }
    Some(*vector.get(&made.placed(0)))
}

// Makes the size at least `size`, and returns the size that is then known.
fn grow_to(vector: &Shared<u64>, hand: &mut Hand<u64>, size: u64) -> Option<u64>
    requires ours { IsHandOf vector.now hand.old }
    ensures of { hand.new.of ≡ hand.old.of }
    ensures enough { IfSome result (λ known. size ≤ known) }
{
    let make = |i: u64| -> Result<u64, u64> { Ok(i) };
    let grown = vector.grow_to_at_least(hand, size, make);
    let known = match &grown {
        Ok(AtLeast::Ran(_grown)) => Some(size),
        Ok(AtLeast::Enough { size }) => Some(*size),
        Err(_refused) => None,
    };
    drop(grown);
    known
}

// The first item of a walk over a vector is the first value that it was opened with.
fn first_shown(vector: &Shared<u64>) -> Option<u64>
    ensures { (x : ℕ) → IsOpenedAt vector.now 0 x → result ≡ Some x }
{
    // For the proof: the walk is not at its end if there is such a value.
    vector.laws();
    match vector.published().next() {
        Some(Some(value)) => Some(*value),
        _ => None,
    }
}

// The first item of a walk over an opened list is its first value.
fn first_published(list: Quiet<u64>) -> Option<Option<u64>>
    ensures { (x : ℕ) → slice_get list.members 0 ≡ Some (Some x)
        → IfSome result (λ shown. shown ≡ Some x) }
{
    let (vector, hand) = list.open().ok()?;
    let shown = first_shown(&vector);
    drop((vector, hand));
    Some(shown)
}

// The place of the token that a look at a broken place gives is that place, and so is the one that `at`
// gives.
fn broken_places(vector: &Shared<u64>, hand: &mut Hand<u64>, place: u64) -> Option<(u64, u64)>
    requires ours { IsHandOf vector.now hand.old }
    ensures { IfSome result (λ (looked, read). (looked ≡ place) × (read ≡ place)) }
{
    let shown = vector.look(place);
    let looked = match &shown {
        Shown::Broken(spoilt) => Some(spoilt.place()),
        _ => None,
    };
    drop(shown);
    let looked = looked?;
    let found = vector.at(hand, place, None);
    let both = match &found {
        Err(AtError::Broken(spoilt)) => Some((looked, spoilt.place())),
        _ => None,
    };
    drop(found);
    both
}

// The token that a look gives of a broken place. It is of this vector.
fn spoilt_shown(vector: &Shared<u64>, place: u64) -> Option<Spoilt>
    ensures { IfSome result (IsSpoiltOf vector.now) }
{
    match vector.look(place) {
        Shown::Broken(spoilt) => Some(spoilt),
        _ => None,
    }
}

// The same of the token that `at` gives.
fn spoilt_at(vector: &Shared<u64>, hand: &mut Hand<u64>, place: u64) -> Option<Spoilt>
    requires ours { IsHandOf vector.now hand.old }
    ensures of { hand.new.of ≡ hand.old.of }
    ensures ours { IfSome result (IsSpoiltOf vector.now) }
{
    match vector.at(hand, place, None) {
        Err(AtError::Broken(spoilt)) => Some(spoilt),
        _ => None,
    }
}

// Mends a member of a list, and returns the value that it has afterwards.
fn mended_or_there(list: &mut Quiet<u64>, place: u64, value: u64) -> u64
    requires there { place < length list.old.members }
    ensures { slice_get list.new.members place ≡ Some (Some result) }
{
    match list.mend(place, value) {
        Ok(()) => value,
        Err((QuietMendError::Filled, _)) => match list.get(place) {
            Ok(there) => *there,
            Err(_broken) => unreachable!(),
        },
        Err((QuietMendError::OutOfRange { .. }, _)) => unreachable!(),
    }
}

// Requests more room. Granted or refused, the room that the list had is still there for a push.
fn push_with_room(list: &mut Quiet<u64>, more: u64, value: u64)
    requires below { length list.old.members < list.old.limit }
    requires room { length list.old.members < list.old.capacity }
    ensures { length list.new.members ≡ length list.old.members + 1 }
{
    let _granted = list.reserve(more).is_ok();
    let pushed = succeeded(list.push(value));
    prove!(pushed);
}

// The value that is read at a place, without a token.
pub(crate) fn read(vector: &Shared<u64>, hand: &mut Hand<u64>, place: u64) -> Option<u64>
    requires ours { IsHandOf vector.now hand.old }
    ensures of { hand.new.of ≡ hand.old.of }
    ensures opened { (x : ℕ) → IsOpenedAt vector.now place x → result ≡ Some x }
{
    match vector.at(hand, place, None) {
        Ok(at) => Some(*at.value),
        Err(_refused) => None,
    }
}

// Opens a list, and reads two of its places.
fn read_two(list: Quiet<u64>, a: u64, b: u64) -> Option<(Option<u64>, Option<u64>)>
    ensures first { (x : ℕ) → slice_get list.members a ≡ Some (Some x)
        → IfSome result (λ (first, _). first ≡ Some x) }
    ensures second { (x : ℕ) → slice_get list.members b ≡ Some (Some x)
        → IfSome result (λ (_, second). second ≡ Some x) }
{
    let (vector, mut hand) = list.open().ok()?;
    let first = read(&vector, &mut hand, a);
    let second = read(&vector, &mut hand, b);
    drop((vector, hand));
    Some((first, second))
}

// Opens a list, appends a value, and closes it: the list then, and the value's place.
fn pushed_in_one_life(list: Quiet<u64>, value: u64) -> Option<(Quiet<u64>, u64)>
    ensures old { IfSome result (λ (after, _). KeepsValues list.members after.members) }
    ensures new { IfSome result
        (λ (after, place). slice_get after.members place ≡ Some (Some value)) }
{
    let (vector, mut hand) = list.open().ok()?;
    let placed = vector.try_push_back(&mut hand, value).ok()?;
    let list = Quiet::close(vector, hand);
    let _value = list.recall(&placed);
    Some((list, placed.place()))
}

// Opens a list, appends a value, closes it, and opens it again: what is then read at an old place, and at the
// place that was appended.
fn read_in_the_next_life(
    list: Quiet<u64>,
    old: u64,
    value: u64,
) -> Option<(Option<u64>, Option<u64>)>
    ensures first { (x : ℕ) → slice_get list.members old ≡ Some (Some x)
        → IfSome result (λ (first, _). first ≡ Some x) }
    ensures second { IfSome result (λ (_, second). second ≡ Some value) }
{
    let (list, place) = pushed_in_one_life(list, value)?;
    read_two(list, old, place)
}

// Requests more room for a list. It then equals every list that had its members before.
fn equals_with_room(list: &mut Quiet<u64>, other: &Quiet<u64>, n: u64) -> bool
    requires same { list.old.members ≡ other.now.members }
    ensures { result ≡ true }
{
    laws::equal_members_are_equal::<u64>();
    let _granted = list.reserve(n).is_ok();
    *list == *other
}

// The list of `n` numbers from 0 on. Number `refused` is refused, and its place is broken, as are those after
// it.
fn numbers<R: AllocGlobal>(rt: &R, n: u64, refused: u64) -> Quiet<u64> {
    let mut list = Quiet::new(rt.alloc(), 8);
    drop(resized(&mut list, n, 0, refused));
    list
}

// The values that callers know after a growth that was refused its second value, after a growth to a size of
// four, and of the last two places.
type Learned = ((u64, u64, u64, u64), u64, (u64, u64), (u64, u64));

fn learned(vector: &Shared<u64>, hand: &mut Hand<u64>) -> Option<Learned>
    requires ours { IsHandOf vector.now hand.old }
{
    let refused = grow_refused(vector, hand, 3, 1)?;
    let size = grow_to(vector, hand, 4)?;
    let looked = spoilt_shown(vector, 4)?;
    let read = spoilt_at(vector, hand, 4)?;
    let broken = broken_places(vector, hand, 5)?;
    Some((refused, size, (looked.place(), read.place()), broken))
}

fn grown_over(list: Quiet<u64>) -> Option<Learned> {
    let (vector, mut hand) = list.open().ok()?;
    let told = learned(&vector, &mut hand);
    drop((vector, hand));
    told
}

// The first value of a growth that is refused its third one.
fn first_made(list: Quiet<u64>) -> Option<u64> {
    let (vector, mut hand) = list.open().ok()?;
    let first = first_of_refused(&vector, &mut hand, 4, 2);
    drop((vector, hand));
    first
}

#[test]
fn callers_know_what_a_growth_reports(rt: HostRuntime) {
    assert!(rt; grown_over(numbers(&rt, 3, 9)) == Some(((3, 3, 1, 9), 6, (4, 4), (5, 5))));
    assert!(rt; first_made(numbers(&rt, 3, 9)) == Some(70));
}

#[test]
fn callers_know_the_values_of_an_opened_list(rt: HostRuntime) {
    assert!(rt;
        first_published(numbers(&rt, 3, 9)) == Some(Some(0))
            && read_in_the_next_life(numbers(&rt, 3, 9), 1, 7) == Some((Some(1), Some(7)))
    );
}

// Tests whether a member has this value once it is mended with seven.
fn has_once_mended(list: &mut Quiet<u64>, place: u64, value: u64) -> bool {
    place < list.len() && mended_or_there(list, place, 7) == value
}

// Appends a fourth member in the room of three.
fn pushes_a_fourth(list: &mut Quiet<u64>) -> bool {
    if list.len() < list.capacity() && list.len() < list.limit() {
        push_with_room(list, 9, 5);
    }
    list.len() == 4
}

#[test]
fn lists_of_equal_members_are_equal(rt: HostRuntime) {
    let mut list = numbers(&rt, 3, 1);
    let other = numbers(&rt, 3, 1);
    let are_equal = list.reserve(8).is_ok() && list == other && list.capacity() > other.capacity();
    drop((list, other));
    assert!(rt; are_equal);
}

#[test]
fn callers_know_what_a_refusal_leaves_of_a_list(rt: HostRuntime) {
    let mut broken = numbers(&rt, 3, 1);
    let mut list = numbers(&rt, 3, 9);
    let is_left = has_once_mended(&mut broken, 0, 0)
        && has_once_mended(&mut broken, 2, 7)
        && pushes_a_fourth(&mut list);
    drop((broken, list));
    assert!(rt; is_left);
}
