// Values that count their drops.
ghost use Rattle.std.specs.Prelude.{◌≡◌};
ghost use Rattle.grow_core.specs.Vector.{IsHandOf};

use super::callers::{Callers, succeeded};
use grow_core::{GrowError, Hand, Shared};
use seg_core::Layout;
use std::alloc::{AllocGlobal, Global};
use std::sync::Wait;
use std::sync::atomic::{AtomicU64, Ordering};

pub(crate) struct Counted<'a>(pub(crate) &'a AtomicU64);

impl Drop for Counted<'_> {
    fn drop(self) {
        let Counted(drops) = self;
        drops.fetch_add(1, Ordering::SeqCst);
    }
}

// Values that count their drops.
fn many_counted<'a>(alloc: Global, drops: &'a AtomicU64, n: u64) -> Option<Vec<Counted<'a>>> {
    (0..n).map(|_number| Counted(drops)).collect(alloc).ok()
}

fn grow_two<'a>(two: &mut Callers<Counted<'a>>, drops: &'a AtomicU64, alloc: Global) -> bool {
    match many_counted(alloc, drops, 2) {
        Some(others) => succeeded(two.vector.try_grow_vec(&mut two.b, others)),
        None => false,
    }
}

// Appends three values. None is dropped.
fn push_three<'a>(two: &mut Callers<Counted<'a>>, drops: &'a AtomicU64, alloc: Global) -> bool {
    two.push_a(Counted(drops)).is_some()
        && grow_two(two, drops, alloc)
        && drops.load(Ordering::SeqCst) == 0
}

// The same, and each is dropped once the list is.
fn close_three<'a>(mut two: Callers<Counted<'a>>, drops: &'a AtomicU64, alloc: Global) -> bool {
    let is_pushed = push_three(&mut two, drops, alloc);
    two.end() == Some(3) && is_pushed && drops.load(Ordering::SeqCst) == 3
}

#[test]
fn a_closed_vector_drops_each_value_once(rt: HostRuntime) {
    let drops = AtomicU64::new(0);
    assert!(rt; close_three(Callers::new(&rt, 4), &drops, rt.alloc()));
}

// Drops a hand and the vector, and leaves the other hand.
fn drop_vector<T: Drop>(two: Callers<T>) -> Hand<T> {
    let Callers { vector, a, b } = two;
    drop(vector);
    drop(b);
    a
}

#[test]
fn a_vector_with_a_lost_hand_drops_each_value_once(rt: HostRuntime) {
    let drops = AtomicU64::new(0);
    let mut two = Callers::new(&rt, 4);
    let _first = two.push_a(Counted(&drops));
    let _second = two.push_b(Counted(&drops));
    let hand = drop_vector(two);
    let before = drops.load(Ordering::SeqCst);
    drop(hand);
    assert!(rt; (before, drops.load(Ordering::SeqCst)) == (2, 2));
}

// Tests whether a second value comes back, and how many were dropped then, and once it was dropped too.
fn drop_refused<'a>(two: &mut Callers<Counted<'a>>, drops: &'a AtomicU64) -> (bool, u64, u64) {
    let _first = two.push_a(Counted(drops));
    let refused = two.vector.try_push_back(&mut two.a, Counted(drops));
    let before = drops.load(Ordering::SeqCst);
    let is_back = matches!(&refused, Err(GrowError::Full { .. }));
    drop(refused);
    (is_back, before, drops.load(Ordering::SeqCst))
}

#[test]
fn a_value_that_comes_back_is_not_dropped(rt: HostRuntime) {
    let drops = AtomicU64::new(0);
    let mut two = Callers::new(&rt, 1);
    let came = drop_refused(&mut two, &drops);
    drop(two);
    assert!(rt; came == (true, 0, 1));
}

// How many values come back of a growth without tokens by n values: none or all of them.
fn append_counted<'a, R: AllocGlobal + Wait>(
    rt: &R,
    vector: &Shared<Counted<'a>>,
    hand: &mut Hand<Counted<'a>>,
    drops: &'a AtomicU64,
    n: u64,
) -> Option<u64>
    requires ours { IsHandOf vector.now hand.old }
    ensures of { hand.new.of ≡ hand.old.of }
{
    let values = many_counted(rt.alloc(), drops, n)?;
    let appended = vector.append(rt, hand, values);
    let came_back = match &appended {
        Ok(_run) => Some(0),
        Err(GrowError::Full { back, .. }) => Some(back.len() as u64),
        Err(_other) => None,
    };
    drop(appended);
    came_back
}

// Tests whether n values are appended without any drop. If a growth finds no room, its values come back.
fn appends_counted<'a, R: AllocGlobal + Wait>(
    rt: &R,
    two: &mut Callers<Counted<'a>>,
    drops: &'a AtomicU64,
    n: u64,
) -> bool {
    append_counted(rt, &two.vector, &mut two.a, drops, n) == Some(0)
        && append_counted(rt, &two.vector, &mut two.b, drops, n) == Some(n)
        && drops.load(Ordering::SeqCst) == n
}

// How many values were dropped before a list is, and after it.
fn drops_with<T: Drop>(list: T, drops: &AtomicU64) -> (u64, u64) {
    let before = drops.load(Ordering::SeqCst);
    drop(list);
    (before, drops.load(Ordering::SeqCst))
}

// The same of the closed list, by n values that came back and n that were appended.
fn drops_at_close<R: AllocGlobal + Wait>(
    rt: &R,
    f: u32,
    n: u64,
    drops: &AtomicU64,
) -> Option<(u64, u64)> {
    if n == 0 || n > 1_000 {
        return None;
    }
    let mut two = Callers::try_new_in(rt.alloc(), Layout::new(f)?, n).ok()?;
    let is_appended = appends_counted(rt, &mut two, drops, n);
    let dropped = drops_with(two.close(), drops);
    if is_appended { Some(dropped) } else { None }
}

#[test]
fn values_without_tokens_are_dropped_once_in_each_layout(rt: HostRuntime) {
    for (f, n) in [(1u32, 14u64), (3, 30), (8, 1_000)].as_slice() {
        let drops = AtomicU64::new(0);
        assert!(rt;
            drops_at_close(&rt, *f, *n, &drops) == Some((*n, 2 * *n)),
            "{f}"
        );
    }
}

// Tests whether a construction of three values is refused at the second, and how many of the value and the
// cause are dropped with the refusal.
fn drops_of_a_cause<'a>(two: &mut Callers<Counted<'a>>, drops: &'a AtomicU64) -> (bool, u64, u64) {
    let make = |i: u64| -> Result<Counted<'_>, Counted<'_>> {
        if i == 1 {
            Err(Counted(drops))
        } else {
            Ok(Counted(drops))
        }
    };
    let refused = two.vector.try_grow_with(&mut two.a, 3, make);
    let is_refused = matches!(&refused, Err(GrowError::Refused { .. }));
    let before = drops.load(Ordering::SeqCst);
    drop(refused);
    (is_refused, before, drops.load(Ordering::SeqCst))
}

#[test]
fn a_cause_is_dropped_once_and_the_values_before_it_stay(rt: HostRuntime) {
    let drops = AtomicU64::new(0);
    let mut two = Callers::new(&rt, 4);
    let came = drops_of_a_cause(&mut two, &drops);
    drop(two);
    assert!(rt; came == (true, 0, 1));
    assert!(rt; drops.load(Ordering::SeqCst) == 2);
}
