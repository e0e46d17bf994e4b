// Lists that an exclusive owner holds.
use super::drops::Counted;
use super::edits::Edit::{Append, Cut, Get, Members, Pop, Room, Sizes};
use super::edits::Found::{Capacity, Done, Member, NotMade};
use super::edits::{Edit, Found, first_wrong_of_new};
use grow_core::Parts;
use std::alloc::AllocError;
use std::sync::atomic::{AtomicU64, Ordering};

// Appends a member, if there is room for it.
pub(super) fn append<T: Drop>(parts: &mut Parts<T>, member: Option<T>) -> bool {
    if parts.len() < parts.limit() && parts.len() < parts.capacity() {
        parts.append(member);
        return true;
    }
    false
}

// The last member, if there is one.
pub(super) fn pop<T: Drop>(parts: &mut Parts<T>) -> Option<Option<T>> {
    if parts.len() == 0 {
        return None;
    }
    Some(parts.pop())
}

// The member at a place, if there is one.
pub(super) fn member(parts: &Parts<u64>, place: u64) -> Option<Option<u64>> {
    if place >= parts.len() {
        return None;
    }
    Some(parts.get(place).copied())
}

// Makes room, below the limit.
pub(super) fn room<T: Drop>(parts: &mut Parts<T>, n: u64) -> Result<bool, AllocError> {
    if n > parts.limit() {
        return Ok(false);
    }
    match parts.room(n) {
        Ok(()) => Ok(true),
        Err(error) => Err(error),
    }
}

// Tests whether the members are these, in order.
pub(super) fn has_members(parts: &Parts<u64>, members: &[Option<u64>]) -> bool {
    let mut place = 0u64;
    for wanted in members {
        if member(parts, place) != Some(*wanted) {
            return false;
        }
        place = place.wrapping_add(1);
    }
    parts.len() == place && member(parts, place) == None
}

// Exchanges a member, if there is one.
pub(super) fn replace(
    parts: &mut Parts<u64>,
    place: u64,
    value: Option<u64>,
) -> Option<Option<u64>> {
    if place >= parts.len() {
        return None;
    }
    Some(parts.replace(place, value))
}

static IN_ORDER: [(Edit, Found); 15] = [
    (Sizes, Found::Sizes(0, 8, 0)),
    (Append(Some(1)), NotMade),
    (Room(5), Capacity(8)),
    (Append(Some(10)), Done),
    (Append(None), Done),
    (Append(Some(30)), Done),
    (Sizes, Found::Sizes(3, 8, 8)),
    (Members(&[Some(10), None, Some(30)]), Done),
    (Pop, Member(Some(30))),
    (Pop, Member(None)),
    (Append(Some(20)), Done),
    (Get(1), Member(Some(20))),
    (Pop, Member(Some(20))),
    (Pop, Member(Some(10))),
    (Pop, NotMade),
];

#[test]
fn members_are_in_order(rt: HostRuntime) {
    assert_eq!(rt; first_wrong_of_new(rt.alloc(), 8, &IN_ORDER), None);
}

static ROOM: [(Edit, Found); 17] = [
    (Room(0), Capacity(0)),
    (Room(1), Capacity(2)),
    (Room(3), Capacity(4)),
    (Room(2), Capacity(4)),
    (Room(5), Capacity(8)),
    (Room(17), Capacity(32)),
    (Room(101), NotMade),
    (Append(Some(0)), Done),
    (Append(Some(1)), Done),
    (Append(Some(2)), Done),
    (Cut, Found::Sizes(3, 100, 4)),
    (Pop, Member(Some(2))),
    (Cut, Found::Sizes(2, 100, 2)),
    (Get(1), Member(Some(1))),
    (Pop, Member(Some(1))),
    (Pop, Member(Some(0))),
    (Cut, Found::Sizes(0, 100, 0)),
];

#[test]
fn room_is_whole_segments(rt: HostRuntime) {
    assert_eq!(rt; first_wrong_of_new(rt.alloc(), 100, &ROOM), None);
}

const MILLION: u64 = 1 << 20;

fn appends_a_million(parts: &mut Parts<u64>) -> bool {
    for value in 0..MILLION {
        if !append(parts, Some(value)) {
            return false;
        }
    }
    (parts.len(), parts.capacity()) == (MILLION, MILLION)
}

fn has_a_million(parts: &Parts<u64>) -> bool {
    for place in 0..MILLION {
        if member(parts, place) != Some(Some(place)) {
            return false;
        }
    }
    true
}

fn gives_a_million_back(parts: &mut Parts<u64>) -> bool {
    for value in (0..MILLION).rev() {
        if pop(parts) != Some(Some(value)) {
            return false;
        }
    }
    parts.len() == 0
}

#[test]
fn a_million_members_come_and_go(rt: HostRuntime) {
    let mut parts = Parts::new(rt.alloc(), 4_294_967_296);
    let is_so = room(&mut parts, MILLION) == Ok(true)
        && appends_a_million(&mut parts)
        && has_a_million(&parts)
        && gives_a_million_back(&mut parts);
    drop(parts);
    assert!(rt; is_so);
}

// Tests whether five members are appended. Each counts its drop.
fn appends_five<'a>(parts: &mut Parts<Counted<'a>>, drops: &'a AtomicU64) -> bool {
    for _each in 0..5 {
        if !append(parts, Some(Counted(drops))) {
            return false;
        }
    }
    true
}

// Tests whether one member is dropped when it is taken out, and none when the list is cut, which gives three
// segments up.
fn drops_one<'a>(parts: &mut Parts<Counted<'a>>, drops: &'a AtomicU64) -> bool {
    let before = drops.load(Ordering::SeqCst);
    drop(pop(parts));
    let after = drops.load(Ordering::SeqCst);
    let has_broken = append(parts, None);
    parts.cut();
    (before, after, has_broken) == (0, 1, true)
        && drops.load(Ordering::SeqCst) == 1
        && parts.capacity() == 8
}

#[test]
fn each_member_is_dropped_once(rt: HostRuntime) {
    let drops = AtomicU64::new(0);
    let mut parts = Parts::new(rt.alloc(), 64);
    let is_so = room(&mut parts, 64) == Ok(true)
        && appends_five(&mut parts, &drops)
        && drops_one(&mut parts, &drops);
    drop(parts);
    assert!(rt; is_so);
    assert!(rt; drops.load(Ordering::SeqCst) == 5);
}

// Tests whether room is made, by a second call if memory was refused to the first, which kept the members and
// left less room.
fn has_room_again(parts: &mut Parts<u64>, n: u64, members: &[Option<u64>]) -> bool {
    room(parts, n).is_ok()
        || (has_members(parts, members) && parts.capacity() < n && room(parts, n) == Ok(true))
}

// Tests whether a new list of limit 64 has room for two members and then for 64, and has its member still.
fn keeps_members(parts: &mut Parts<u64>) -> bool {
    has_room_again(parts, 2, &[])
        && append(parts, Some(7))
        && has_room_again(parts, 64, &[Some(7)])
        && parts.capacity() == 64
        && member(parts, 0) == Some(Some(7))
}

// It passes too if any one allocation is made to fail.
#[test]
fn a_refused_room_keeps_the_members(rt: HostRuntime) {
    let mut parts = Parts::new(rt.alloc(), 64);
    let keeps = keeps_members(&mut parts);
    drop(parts);
    assert!(rt; keeps);
}
