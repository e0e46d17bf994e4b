// Whole lives of a vector: a list is opened, its caller appends to it and reads it, and it is closed.
ghost use Rattle.seg_core.specs.Segment.{IsLimit};

mod life;
mod threads;
mod tokens;
mod values;

use super::edits::Edit::{Append, Get, Members, Replace, Room, Sizes};
use super::edits::Found::{Capacity, Done, Member};
use super::edits::{Edit, Found, edited, ends_as, first_wrong_edit};
use super::steps::Call::{Make, Read, TryGrow, TryPush};
use super::steps::Reply::{At, Broken, Is, Ran, Refused};
use super::steps::{Call, Form, Reply};
use grow_core::{OpenError, Parts, Shared};
pub(super) use life::{Life, live};
use seg_core::Layout;
use std::alloc::{AllocGlobal, Global};
use std::sync::Wait;

// The calls of a life, and edits of the list that it ends with.
pub(super) type Story = (&'static [(Call, Reply)], &'static [(Edit, Found)]);

// The list after the edits of a story, if it has the layout, and each of them returns what it should.
fn after_edits(
    parts: Option<Parts<u64>>,
    layout: Layout,
    edits: &[(Edit, Found)],
) -> Option<Parts<u64>> {
    match parts {
        Some(mut parts) => {
            if parts.layout() == layout && first_wrong_edit(&mut parts, edits) == None {
                Some(parts)
            } else {
                drop(parts);
                None
            }
        }
        None => None,
    }
}

// Tests whether a list lives so, again and again, in the layout that it has at first.
fn lives_on<R: AllocGlobal + Wait>(rt: &R, parts: Parts<u64>, stories: &[Story]) -> bool {
    let layout = parts.layout();
    let mut after = Some(parts);
    for (calls, edits) in stories {
        after = after_edits(live(rt, after, calls), layout, edits);
    }
    let lives = after.is_some();
    drop(after);
    lives
}

// Tests whether a new list whose first segment has 2^f places lives so, after these edits.
pub(super) fn has_lives<R: AllocGlobal + Wait>(
    rt: &R,
    f: u32,
    limit: u64,
    edits: &[(Edit, Found)],
    stories: &[Story],
) -> bool
    requires { IsLimit limit }
{
    match edited(rt.alloc(), f, limit, edits) {
        Some(parts) => lives_on(rt, parts, stories),
        None => false,
    }
}

static THREE: [(Edit, Found); 4] = [
    (Room(3), Capacity(4)),
    (Append(Some(10)), Done),
    (Append(None), Done),
    (Append(Some(30)), Done),
];

// A list of three members; the second is broken.
pub(super) fn three(alloc: Global, limit: u64) -> Option<Parts<u64>>
    requires { IsLimit limit }
{
    edited(alloc, 1, limit, &THREE)
}

static GROWN: [Story; 1] = [(
    &[
        (Read(0), Is(10)),
        (Read(1), Broken),
        (Read(2), Is(30)),
        (TryPush(40), At(3)),
        (Read(3), Is(40)),
    ],
    &[
        (Sizes, Found::Sizes(4, 8, 4)),
        (Members(&[Some(10), None, Some(30), Some(40)]), Done),
    ],
)];

#[test]
fn a_list_is_opened_read_grown_and_closed(rt: HostRuntime) {
    assert!(rt; has_lives(&rt, 1, 8, &THREE, &GROWN));
}

static BROKEN_AND_MENDED: [Story; 2] = [
    (
        &[
            (Make(Form::Try, 1, 0), Refused(3, 1, 0)),
            (TryPush(50), At(4)),
            (Read(3), Broken),
        ],
        &[
            (Members(&[Some(10), None, Some(30), None, Some(50)]), Done),
            (Replace(3, Some(40)), Member(None)),
        ],
    ),
    (&[(Read(3), Is(40))], &[]),
];

#[test]
fn a_place_that_broke_is_broken_in_the_list_and_mended(rt: HostRuntime) {
    assert!(rt; has_lives(&rt, 1, 8, &THREE, &BROKEN_AND_MENDED));
}

static TEN: [Story; 10] = [
    (&[(TryPush(0), At(0)), (TryPush(0), At(1))], &[]),
    (&[(TryPush(1), At(2)), (TryPush(1), At(3))], &[]),
    (&[(TryPush(2), At(4)), (TryPush(2), At(5))], &[]),
    (&[(TryPush(3), At(6)), (TryPush(3), At(7))], &[]),
    (&[(TryPush(4), At(8)), (TryPush(4), At(9))], &[]),
    (&[(TryPush(5), At(10)), (TryPush(5), At(11))], &[]),
    (&[(TryPush(6), At(12)), (TryPush(6), At(13))], &[]),
    (&[(TryPush(7), At(14)), (TryPush(7), At(15))], &[]),
    (&[(TryPush(8), At(16)), (TryPush(8), At(17))], &[]),
    (
        &[(TryPush(9), At(18)), (TryPush(9), At(19))],
        &[
            (Sizes, Found::Sizes(20, 32, 32)),
            (Members(&TEN_TWICE), Done),
        ],
    ),
];

const TEN_TWICE: [Option<u64>; 20] = [
    Some(0),
    Some(0),
    Some(1),
    Some(1),
    Some(2),
    Some(2),
    Some(3),
    Some(3),
    Some(4),
    Some(4),
    Some(5),
    Some(5),
    Some(6),
    Some(6),
    Some(7),
    Some(7),
    Some(8),
    Some(8),
    Some(9),
    Some(9),
];

#[test]
fn ten_lives_lose_nothing(rt: HostRuntime) {
    assert!(rt; has_lives(&rt, 1, 32, &[], &TEN));
}

static TWO_SEGMENTS: [Story; 1] = [(
    &[(TryGrow(&[5, 6, 7]), Ran(0, 3))],
    &[(Sizes, Found::Sizes(3, 8, 4))],
)];

// The capacity of a list is that of the segments that its vector had.
#[test]
fn the_capacity_is_that_of_the_installed_segments(rt: HostRuntime) {
    assert!(rt; has_lives(&rt, 1, 8, &[], &TWO_SEGMENTS));
}

const GREATEST: u64 = 1_099_511_627_776;

static NO_CALL: [Story; 1] = [(&[], &[(Sizes, Found::Sizes(0, GREATEST, 0))])];

#[test]
fn a_list_may_have_the_greatest_limit(rt: HostRuntime) {
    assert!(rt; has_lives(&rt, 1, GREATEST, &[], &NO_CALL));
}

static EXCHANGES: [(Edit, Found); 5] = [
    (Replace(0, Some(11)), Member(Some(10))),
    (Replace(1, Some(20)), Member(None)),
    (Replace(2, None), Member(Some(30))),
    (Replace(2, None), Member(None)),
    (Members(&[Some(11), Some(20), None]), Done),
];

#[test]
fn a_member_is_exchanged(rt: HostRuntime) {
    assert!(rt; ends_as(three(rt.alloc(), 8), &EXCHANGES));
}

static SAME_THREE: [(Edit, Found); 2] = [
    (Sizes, Found::Sizes(3, 8, 4)),
    (Get(2), Member(Some(30))),
];

// The vector of a list of three that was given back.
fn open_three(mut back: Parts<u64>) -> Option<Life<u64>> {
    if first_wrong_edit(&mut back, &SAME_THREE) == None {
        Life::open(back)
    } else {
        drop(back);
        None
    }
}

// The vector of a list of three, by a second call if memory was refused to the first.
fn open_again(parts: Parts<u64>) -> Option<Life<u64>> {
    match Shared::of_parts(parts) {
        Ok((vector, hand)) => Some(Life { vector, hand }),
        Err((back, OpenError::NoMemory)) => open_three(back),
        Err((back, OpenError::BadLimit)) => {
            drop(back);
            None
        }
    }
}

// A list of three, by a second call if memory was refused to the first.
fn three_again(alloc: Global) -> Option<Parts<u64>> {
    match three(alloc, 8) {
        Some(parts) => Some(parts),
        None => three(alloc, 8),
    }
}

static READ_TWO: [(Call, Reply); 2] = [(Read(0), Is(10)), (Read(1), Broken)];

// The list after a life that began at a second call.
fn live_again<R: AllocGlobal + Wait>(rt: &R) -> Option<Parts<u64>> {
    match three_again(rt.alloc()) {
        Some(parts) => match open_again(parts) {
            Some(life) => life.close_after(rt, &READ_TWO),
            None => None,
        },
        None => None,
    }
}

// It passes too if any one allocation is made to fail.
#[test]
fn a_refused_open_gives_the_list_back(rt: HostRuntime) {
    assert!(rt; ends_as(live_again(&rt), &SAME_THREE));
}
