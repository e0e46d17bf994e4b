// Lists that were opened and closed, and what comes out of them.
ghost use Rattle.std.specs.Prelude.{◌≡◌, ◌+◌, IfSome, length};
ghost use Rattle.grow_core.specs.Hand.{IsWholeHand};
ghost use Rattle.grow_core.specs.Vector.{IsHandOf, IsPlacedOf};

use super::steps::{Step, first_wrong};
use super::{broken_after, list_of};
use crate::vector::{grow_refused, read};
use grow_core::{AtError, Placed};
use quiet_core::{Hand, Quiet, QuietAt, Shared};
use std::alloc::{AllocGlobal, Global};
use std::process::Abort;
use std::sync::Wait;

// Opens the list, appends a value, closes it, and recalls the value by its token, if there is memory and
// room.
fn pushed_while_open(list: Quiet<u64>, value: u64) -> Option<(Quiet<u64>, u64)>
    ensures read { IfSome result (λ (_, read). read ≡ value) }
    ensures more { IfSome result (λ (new, _). length new.members ≡ length list.members + 1) }
    ensures limit { IfSome result (λ (new, _). new.limit ≡ list.limit) }
{
    let (vector, mut hand) = list.open().ok()?;
    let placed = vector.try_push_back(&mut hand, value).ok()?;
    let closed = Quiet::close(vector, hand);
    let read = *closed.recall(&placed);
    Some((closed, read))
}

// The list after ten lives; each appends a value and reads it.
fn live_ten_times(mut list: Quiet<u64>) -> Option<Quiet<u64>> {
    for value in 10..20u64 {
        let (closed, read) = pushed_while_open(list, value)?;
        list = (read == value).then_some(closed)?;
    }
    Some(list)
}

// The old members are there, and the new ones from ten on.
static AFTER_TEN_LIVES: [Step; 15] = [
    Step::Len(13),
    Step::Capacity(16),
    Step::Limit(16),
    Step::Get(0, Ok(1)),
    Step::Get(2, Ok(3)),
    Step::Get(3, Ok(10)),
    Step::Get(4, Ok(11)),
    Step::Get(5, Ok(12)),
    Step::Get(6, Ok(13)),
    Step::Get(7, Ok(14)),
    Step::Get(8, Ok(15)),
    Step::Get(9, Ok(16)),
    Step::Get(10, Ok(17)),
    Step::Get(11, Ok(18)),
    Step::Get(12, Ok(19)),
];

#[test]
fn ten_lives_lose_nothing(rt: HostRuntime) {
    match live_ten_times(list_of(&rt, &[1, 2, 3])) {
        Some(mut list) => {
            let wrong = first_wrong(rt.alloc(), &mut list, &AFTER_TEN_LIVES);
            drop(list);
            assert_eq!(rt; wrong, None);
        }
        None => panic!(rt; "no list"),
    }
}

// Tests whether a place is past the end of a vector of this size.
fn is_past_the_end(vector: &Shared<u64>, hand: &mut Hand<u64>, place: u64, size: u64) -> bool
    requires ours { IsHandOf vector.now hand.old }
{
    let found = vector.at(hand, place, None);
    let is_past = match &found {
        Err(AtError::OutOfRange { size: known }) => *known == size,
        _ => false,
    };
    drop(found);
    is_past
}

// Tests whether one hand appends a value, and two others that were there before it see it.
fn see_one_push<R: Wait>(
    rt: &R,
    vector: &Shared<u64>,
    h: &mut Hand<u64>,
    g: &mut Hand<u64>,
    k: &mut Hand<u64>,
) -> bool
    requires ours { IsHandOf vector.now h.old }
    requires second { IsHandOf vector.now g.old }
    requires third { IsHandOf vector.now k.old }
{
    let pushed = vector.push_back(rt, h, 5);
    let is_first = match &pushed {
        Ok(placed) => placed.place() == 0,
        Err(_refused) => false,
    };
    drop(pushed);
    is_first
        && read(vector, g, 0) == Some(5)
        && is_past_the_end(vector, g, 1, 1)
        && vector.size(k) == 1
}

// The same of three hands that are split from one.
fn three_see_one_push<R: Wait>(rt: &R, vector: &Shared<u64>, h: &mut Hand<u64>) -> bool
    requires ours { IsHandOf vector.now h.old }
    requires shares { IsWholeHand h.old }
{
    let mut g = vector.split(h, 1);
    let mut k = vector.split(h, 1);
    let is_seen = see_one_push(rt, vector, h, &mut g, &mut k);
    drop((g, k));
    is_seen
}

fn shows_its_hands<R: Wait>(rt: &R, list: Quiet<u64>) -> Option<bool> {
    let (vector, mut h) = list.open().ok()?;
    let is_seen = three_see_one_push(rt, &vector, &mut h);
    drop((vector, h));
    Some(is_seen)
}

#[test]
fn three_hands_see_one_push(rt: HostRuntime) {
    assert!(rt; shows_its_hands(&rt, Quiet::new(rt.alloc(), 8)) == Some(true));
}

// Opens a list, grows it by three values with the second refused, and closes it. Returns the report of that
// growth and the closed list.
fn closed_after_refusal(list: Quiet<u64>) -> Option<(Option<(u64, u64, u64, u64)>, Quiet<u64>)> {
    let (vector, mut hand) = list.open().ok()?;
    let refused = grow_refused(&vector, &mut hand, 3, 1);
    Some((refused, Quiet::close(vector, hand)))
}

static BROKEN_FROM_THE_SECOND: [Step; 5] = [
    Step::Len(3),
    Step::Capacity(4),
    Step::Get(0, Ok(7)),
    Step::Get(1, Err(QuietAt::Broken)),
    Step::Get(2, Err(QuietAt::Broken)),
];

// Tests whether a list is broken from its second member on, after such a growth.
fn is_broken_after_refusal(alloc: Global, list: Quiet<u64>) -> Option<bool> {
    let (refused, mut list) = closed_after_refusal(list)?;
    let wrong = first_wrong(alloc, &mut list, &BROKEN_FROM_THE_SECOND);
    drop(list);
    Some(refused == Some((0, 3, 1, 9)) && wrong == None)
}

#[test]
fn a_refused_value_breaks_the_places_of_the_closed_list(rt: HostRuntime) {
    let list = Quiet::new(rt.alloc(), 8);
    assert!(rt; is_broken_after_refusal(rt.alloc(), list) == Some(true));
}

// The token of the value at a place, read without one.
fn token_at(vector: &Shared<u64>, hand: &mut Hand<u64>, place: u64) -> Option<Placed<u64>>
    requires ours { IsHandOf vector.now hand.old }
    ensures of { hand.new.of ≡ hand.old.of }
    ensures shares { hand.new.shares ≡ hand.old.shares }
    ensures token { IfSome result (IsPlacedOf vector.now) }
{
    let at = vector.at(hand, place, None).ok()?;
    Some(at.placed)
}

// The token of a value that is appended.
fn pushed(vector: &Shared<u64>, hand: &mut Hand<u64>, value: u64) -> Option<Placed<u64>>
    requires ours { IsHandOf vector.now hand.old }
    ensures of { hand.new.of ≡ hand.old.of }
    ensures shares { hand.new.shares ≡ hand.old.shares }
    ensures token { IfSome result (IsPlacedOf vector.now) }
{
    vector.try_push_back(hand, value).ok()
}

fn tokens(
    vector: &Shared<u64>,
    hand: &mut Hand<u64>,
    place: u64,
    value: u64,
) -> Option<(Placed<u64>, Placed<u64>)>
    requires ours { IsHandOf vector.now hand.old }
    ensures of { hand.new.of ≡ hand.old.of }
    ensures shares { hand.new.shares ≡ hand.old.shares }
    ensures old { IfSome result (λ (old, _). IsPlacedOf vector.now old) }
    ensures new { IfSome result (λ (_, new). IsPlacedOf vector.now new) }
{
    let old = token_at(vector, hand, place)?;
    match pushed(vector, hand, value) {
        Some(new) => Some((old, new)),
        None => {
            drop(old);
            None
        }
    }
}

// Closes a vector. Returns what it has by the first token, and what the closed list recalls by both.
fn recalled_by(vector: Shared<u64>, hand: Hand<u64>, old: Placed<u64>, new: Placed<u64>) -> [u64; 3]
    requires ours { IsHandOf vector hand }
    requires whole { IsWholeHand hand }
    requires old { IsPlacedOf vector old }
    requires new { IsPlacedOf vector new }
{
    let read = *vector.get(&old);
    let list = Quiet::close(vector, hand);
    let all = [read, *list.recall(&old), *list.recall(&new)];
    drop((old, new));
    drop(list);
    all
}

// Opens a list, reads one of its places, appends a value, and closes it. Returns what was read, and what the
// closed list recalls by the two tokens.
fn recalled(list: Quiet<u64>, place: u64, value: u64) -> Option<[u64; 3]> {
    let (vector, mut hand) = list.open().ok()?;
    match tokens(&vector, &mut hand, place, value) {
        Some((old, new)) => Some(recalled_by(vector, hand, old, new)),
        None => {
            drop((vector, hand));
            None
        }
    }
}

#[test]
fn old_and_new_places_are_recalled(rt: HostRuntime) {
    for place in 0..3u64 {
        let value = place + 1;
        assert!(rt; recalled(list_of(&rt, &[1, 2, 3]), place, 4) == Some([value, value, 4]));
    }
}

// Tests whether the values of a list are these, without its broken members.
fn has_values<R: AllocGlobal + Abort>(rt: &R, list: Quiet<u64>, wanted: &[u64]) -> bool {
    match list.into_iter().flatten().collect::<Vec<u64>>(rt.alloc()) {
        Ok(values) => values.as_slice() == wanted,
        Err(_refused) => panic!(rt; "no memory"),
    }
}

// Tests whether the members of three come from both ends.
fn comes_from_both_ends(list: Quiet<u64>) -> bool {
    let mut members = list.into_iter();
    let come = members.next_back() == Some(Some(3))
        && members.next() == Some(Some(1))
        && members.len() == 1
        && members.next() == Some(Some(2))
        && (members.next(), members.next_back()) == (None, None);
    drop(members);
    come
}

#[test]
fn values_come_out_in_order(rt: HostRuntime) {
    assert!(rt;
        has_values(&rt, list_of(&rt, &[1, 2, 3]), &[1, 2, 3])
            && has_values(&rt, broken_after(&rt, 7), &[7])
            && comes_from_both_ends(list_of(&rt, &[1, 2, 3]))
    );
}

#[test]
fn a_list_shows_its_members(rt: HostRuntime) {
    let list = broken_after(&rt, 7);
    let text = format!(in rt.alloc(); "{list:?}");
    drop(list);
    match text {
        Ok(text) => assert!(rt; text.as_str() == "[Some(7), None]"),
        Err(_refused) => panic!(rt; "no memory"),
    }
}
