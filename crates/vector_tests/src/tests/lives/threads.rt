// Lives with two threads that append.
use super::super::edits::Edit::Get;
use super::super::edits::Found::Member;
use super::super::edits::ends_as;
use super::super::parts::member;
use super::super::race::{EACH, count_next, push_by_two};
use super::{Life, three};
use grow_core::Parts;
use std::alloc::AllocGlobal;
use std::process::Abort;
use std::sync::Wait;
use std::thread::Threads;

// Lets two threads append, if the hand can be split.
fn append_by_threads<R: Threads + Wait + Abort + Sync>(rt: &R, life: Life<u64>) -> Life<u64> {
    let Life { vector, mut hand } = life;
    if hand.share() < 2 {
        return Life { vector, hand };
    }
    let other = vector.split(&mut hand, 1);
    let hand = push_by_two(rt, &vector, hand, other, 0);
    Life { vector, hand }
}

// Opens the list, lets two threads append, and closes it.
fn grow_by_threads<R: Threads + Wait + Abort + Sync>(
    rt: &R,
    parts: Option<Parts<u64>>,
) -> Option<Parts<u64>> {
    match parts {
        Some(parts) => match Life::open(parts) {
            Some(life) => append_by_threads(rt, life).close(),
            None => None,
        },
        None => None,
    }
}

// How far each thread's values have come, in order of place. It stops at a value that is out of its thread's
// order.
fn count_in_order(parts: &Parts<u64>, from: u64) -> [u64; 2] {
    let mut next = [0; 2];
    for place in from..parts.len() {
        let Some(Some(value)) = member(parts, place) else {
            break
        };
        if !count_next(&mut next, value) {
            break;
        }
    }
    next
}

// Tests whether the list has exactly the values of each life, in order. A count of a life's values stops at the
// first value of the next life.
fn has_orders(parts: &Parts<u64>, from: u64, lives: u64) -> bool {
    let mut begin = from;
    for _life in 0..lives {
        if count_in_order(parts, begin) != [EACH; 2] {
            return false;
        }
        begin = begin.wrapping_add(2 * EACH);
    }
    parts.len() == begin
}

// The list after lives with two threads that append the same values.
fn live_by_threads<R: Threads + Wait + Abort + Sync>(
    rt: &R,
    parts: Parts<u64>,
    lives: u64,
) -> Option<Parts<u64>> {
    let mut after = Some(parts);
    for _life in 0..lives {
        after = grow_by_threads(rt, after);
    }
    after
}

// The list, if these values are there after its members.
fn in_order(parts: Option<Parts<u64>>, from: u64, lives: u64) -> Option<Parts<u64>> {
    match parts {
        Some(parts) => {
            if has_orders(&parts, from, lives) {
                Some(parts)
            } else {
                drop(parts);
                None
            }
        }
        None => None,
    }
}

// The list after two threads have appended to three members.
fn grow_three_by_threads<R: AllocGlobal + Threads + Wait + Abort + Sync>(
    rt: &R,
) -> Option<Parts<u64>> {
    match three(rt.alloc(), 3 + 2 * EACH) {
        Some(parts) => in_order(live_by_threads(rt, parts, 1), 3, 1),
        None => None,
    }
}

#[test]
fn what_two_threads_append_is_in_the_closed_list(rt: HostRuntime) {
    assert!(rt; ends_as(grow_three_by_threads(&rt), &[(Get(2), Member(Some(30)))]));
}

#[test]
fn ten_lives_by_two_threads_lose_nothing(rt: HostRuntime) {
    let parts = live_by_threads(&rt, Parts::new(rt.alloc(), 20 * EACH), 10);
    let kept = in_order(parts, 0, 10);
    let is_kept = kept.is_some();
    drop(kept);
    assert!(rt; is_kept);
}
