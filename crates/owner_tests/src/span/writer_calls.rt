// The calls of a writer. Their clauses are those of the vector's calls; these tests show that none of them gives up.
ghost use Rattle.std.specs.Prelude.{◌≡◌};

use super::outcomes::{Why, grown, mended, placed};
use super::ways::{LIMIT, fills, is_full};
use super::writers::shows_below;
use grow_core::{AtError, GrowError, Shown};
use quiet_core::Quiet;
use span_core::Writer;
use std::alloc::{AllocGlobal, Global};
use std::sync::Wait;

// Tests whether a place has its own number, however it is read.
fn reads(writer: &mut Writer<'_, u64>, place: u64) -> bool {
    let shown = writer.look(place);
    let is_shown = match &shown {
        Shown::Filled(at) => *at.value == place,
        _ => false,
    };
    drop(shown);
    let found = writer.at(place, None);
    let is_read = match &found {
        Ok(at) => *at.value == place && *writer.get(&at.placed) == place,
        Err(_refused) => false,
    };
    drop(found);
    is_shown && is_read
}

// Tests whether each place below the limit has its own number, and there is no other place.
fn reads_all(writer: &mut Writer<'_, u64>) -> bool {
    for place in 0..LIMIT {
        if !reads(writer, place) {
            return false;
        }
    }
    writer.size() == LIMIT
        && writer.published().count() as u64 == LIMIT
        && shows_below(writer.vector(), LIMIT)
        && ends_at_the_limit(writer)
}

// Tests whether the place after the last one is pending, and out of range.
fn ends_at_the_limit(writer: &mut Writer<'_, u64>) -> bool {
    let shown = writer.look(LIMIT);
    let is_pending = matches!(&shown, Shown::Pending);
    drop(shown);
    let found = writer.at(LIMIT, None);
    let is_past = matches!(&found, Err(AtError::OutOfRange { size }) if *size == LIMIT);
    drop(found);
    is_pending && is_past
}

fn fills_and_reads<R: AllocGlobal + Wait>(rt: &R) -> Option<bool> {
    let (vector, hand) = Quiet::new(rt.alloc(), LIMIT).open().ok()?;
    let mut writer = Writer::new(&vector, hand);
    let is_right = fills(rt, &mut writer, false)
        && is_full(rt, &mut writer)
        && reads_all(&mut writer);
    drop(writer);
    drop(vector);
    Some(is_right)
}

#[test]
fn each_way_to_append_fills_a_vector_to_its_limit(rt: HostRuntime) {
    assert!(rt; fills_and_reads(&rt) == Some(true));
}

// Tests whether two broken places are mended, one of them once.
fn mends_once<R: Wait>(rt: &R, writer: &mut Writer<'_, u64>) -> bool {
    let make = |i: u64| -> Result<u64, u64> { if i == 1 { Err(i) } else { Ok(i) } };
    let is_refused = grown(writer.grow_with(rt, 3, make)) == Err(Why::Other);
    let shown = writer.look(1);
    let is_broken = matches!(&shown, Shown::Broken(_));
    drop(shown);
    is_refused
        && is_broken
        && mended(writer.mend(1, 1)) == Some(true)
        && mended(writer.mend(2, 2)) == Some(true)
        && mended(writer.mend(1, 7)) == Some(false)
}

// Tests whether an iterator of five numbers stops at the fourth, if there is room for three.
fn stops_at_the_limit<R: Wait>(rt: &R, writer: &mut Writer<'_, u64>) -> bool {
    let stopped = writer.push_all(rt, 3..8u64);
    let is_told = matches!(&stopped, Err((3, GrowError::Full { size: 6, back: 6 })));
    drop(stopped);
    is_told && shows_below(writer.vector(), 6)
}

fn mends_and_stops<R: Wait>(rt: &R, alloc: Global) -> Option<bool> {
    let (vector, hand) = Quiet::new(alloc, 6).open().ok()?;
    let mut writer = Writer::new(&vector, hand);
    let is_right = mends_once(rt, &mut writer) && stops_at_the_limit(rt, &mut writer);
    drop(writer);
    drop(vector);
    Some(is_right)
}

#[test]
fn broken_places_are_mended_and_items_appended_up_to_the_limit(rt: HostRuntime) {
    assert!(rt; mends_and_stops(&rt, rt.alloc()) == Some(true));
}

// Tests whether a look at the size shows what others appended, and two writers that meet see what a third did.
fn see_each_other<R: Wait>(
    rt: &R,
    a: &mut Writer<'_, u64>,
    b: &mut Writer<'_, u64>,
    c: &mut Writer<'_, u64>,
) -> bool
    requires { b.old.vector ≡ a.old.vector }
    ensures a { a.new.vector ≡ a.old.vector }
    ensures b { b.new.vector ≡ b.old.vector }
    ensures c { c.new.vector ≡ c.old.vector }
{
    let is_pushed = placed(b.push_back(rt, 5)).is_ok();
    let is_seen = a.hand().seen() == 0 && a.size() == 1;
    let is_more = placed(c.push_back(rt, 6)).is_ok();
    a.meet(b);
    is_pushed && is_seen && is_more && a.hand().seen() == 2 && b.hand().seen() == 2
}

// Tests whether three writers close their vector once they are joined.
fn closes_by_three<R: Wait>(rt: &R, alloc: Global) -> Option<bool> {
    let (vector, hand) = Quiet::new(alloc, 2).open().ok()?;
    let mut a = Writer::new(&vector, hand);
    let mut b = a.split(1);
    let mut c = a.split(2);
    let is_seen = see_each_other(rt, &mut a, &mut b, &mut c);
    a.join(b);
    a.join(c);
    let hand = a.into_hand();
    let list = Quiet::try_close(vector, hand).ok()?;
    let is_closed = is_seen && list.get(0) == Ok(&5) && list.get(1) == Ok(&6) && list.len() == 2;
    drop(list);
    Some(is_closed)
}

#[test]
fn writers_meet_and_join(rt: HostRuntime) {
    assert!(rt; closes_by_three(&rt, rt.alloc()) == Some(true));
}
