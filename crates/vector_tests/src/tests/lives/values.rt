// Lives with values that count their drops, and with values that own memory.
use super::super::drops::Counted;
use super::super::parts::{append, pop, room};
use super::Life;
use grow_core::Parts;
use std::alloc::Global;
use std::sync::atomic::{AtomicU64, Ordering};

// A list of a value and a broken member, opened.
fn open_counted<'a>(alloc: Global, drops: &'a AtomicU64) -> Option<Life<Counted<'a>>> {
    let mut parts = Parts::new(alloc, 8);
    let _has_room = room(&mut parts, 2);
    let _both = append(&mut parts, Some(Counted(drops))) && append(&mut parts, None);
    Life::open(parts)
}

// The list after a life with two appended values.
fn push_counted<'a>(alloc: Global, drops: &'a AtomicU64) -> Option<Parts<Counted<'a>>> {
    let mut life = open_counted(alloc, drops)?;
    let both = (life.push(Counted(drops)), life.push(Counted(drops)));
    if both == (Some(2), Some(3)) {
        life.close()
    } else {
        drop(life);
        None
    }
}

// How many values were dropped before the last is taken out and dropped, after that, and once the list is
// dropped.
fn drops_of_a_life(alloc: Global, drops: &AtomicU64) -> Option<(u64, u64, u64)> {
    let mut parts = push_counted(alloc, drops)?;
    let before = drops.load(Ordering::SeqCst);
    drop(pop(&mut parts));
    let popped = drops.load(Ordering::SeqCst);
    drop(parts);
    Some((before, popped, drops.load(Ordering::SeqCst)))
}

#[test]
fn a_life_drops_each_value_once_at_its_end(rt: HostRuntime) {
    let drops = AtomicU64::new(0);
    assert!(rt; drops_of_a_life(rt.alloc(), &drops) == Some((0, 1, 3)));
}

// Splits a hand off and drops it.
fn lose_a_hand<T: Drop>(life: &mut Life<T>) {
    if life.hand.share() > 1 {
        drop(life.vector.split(&mut life.hand, 1));
    }
}

// How many values were dropped after a push to a vector that can't be closed without one of its hands.
fn push_without_a_hand<'a>(life: &mut Life<Counted<'a>>, drops: &'a AtomicU64) -> Option<u64> {
    lose_a_hand(life);
    if life.push(Counted(drops)) == Some(2) {
        Some(drops.load(Ordering::SeqCst))
    } else {
        None
    }
}

// How many values were dropped before such a vector ends, and after.
fn drops_without_a_hand(alloc: Global, drops: &AtomicU64) -> Option<(u64, u64)> {
    match open_counted(alloc, drops) {
        Some(mut life) => {
            let before = push_without_a_hand(&mut life, drops);
            let closed = life.close();
            let is_lost = closed.is_none();
            drop(closed);
            match (before, is_lost) {
                (Some(before), true) => Some((before, drops.load(Ordering::SeqCst))),
                _ => None,
            }
        }
        None => None,
    }
}

#[test]
fn a_vector_that_lost_a_hand_drops_each_value_once(rt: HostRuntime) {
    let drops = AtomicU64::new(0);
    assert!(rt; drops_without_a_hand(rt.alloc(), &drops) == Some((0, 2)));
}

// How many texts are appended.
const MANY: u64 = 1 << 20;

fn append_texts(parts: &mut Parts<String>, alloc: Global) -> bool {
    for value in 0..MANY {
        let is_appended = match format!(in alloc; "{value}") {
            Ok(text) => append(parts, Some(text)),
            Err(_refused) => false,
        };
        if !is_appended {
            return false;
        }
    }
    parts.len() == MANY
}

// Tests whether the last text is that of the number, and takes it out.
fn pops_text(parts: &mut Parts<String>, value: u64) -> bool {
    let popped = pop(parts);
    let is_so = match &popped {
        Some(Some(text)) => text.as_str().parse::<u64>() == Ok(value),
        _ => false,
    };
    drop(popped);
    is_so
}

// Tests whether the texts come back, the last first.
fn pop_texts(parts: &mut Parts<String>) -> bool {
    for value in (0..MANY).rev() {
        if !pops_text(parts, value) {
            return false;
        }
    }
    parts.len() == 0
}

// Tests whether the texts of the list come back after a life.
fn lives_with_texts(parts: Parts<String>) -> Option<bool> {
    let mut parts = Life::open(parts)?.close()?;
    let is_so = parts.len() == MANY && pop_texts(&mut parts);
    drop(parts);
    Some(is_so)
}

#[test]
fn a_million_owning_values_come_back(rt: HostRuntime) {
    let mut parts = Parts::new(rt.alloc(), MANY);
    let is_made = room(&mut parts, MANY) == Ok(true) && append_texts(&mut parts, rt.alloc());
    let lives = lives_with_texts(parts);
    assert!(rt; is_made);
    assert!(rt; lives == Some(true));
}
