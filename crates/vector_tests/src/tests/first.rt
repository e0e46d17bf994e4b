// The first pushes of two threads on new vectors.
ghost use Rattle.grow_core.specs.Vector.{IsHandOf};

use super::callers::{empty, succeeded};
use super::steps::Reply::Is;
use super::steps::read;
use grow_core::{Hand, Shared};
use std::alloc::AllocGlobal;
use std::process::Abort;
use std::sync::Arc;
use std::sync::atomic::{AtomicU64, Ordering};
use std::thread::{Threads, join};

// How many new vectors both threads push on.
const VECTORS: u64 = 10_000;

// How often a thread looks at most whether the other came.
const LOOKS: u64 = 1_000_000;

// A thread's part of a new vector.
#[derive(Drop)]
struct Seat {
    vector: Arc<Shared<u64>>,
    hand: Hand<u64>,
    ghost ours: { IsHandOf vector.value hand },
}

// The seats of both threads at a new vector.
fn seats<R: AllocGlobal>(rt: &R) -> Option<(Seat, Seat)> {
    let (vector, mut hand) = empty(rt.alloc(), 2).ok()?;
    let vector = Arc::new(rt.alloc(), vector).ok()?;
    let also = Arc::try_clone(&vector).ok()?;
    let other = vector.split(&mut hand, 1);
    let first = Seat { vector, hand };
    let second = Seat {
        vector: also,
        hand: other,
    };
    Some((first, second))
}

// Waits for the other thread, so that both go on together.
fn meet(mine: &AtomicU64, other: &AtomicU64, turn: u64) {
    mine.store(turn, Ordering::SeqCst);
    for _look in 0..LOOKS {
        if other.load(Ordering::SeqCst) >= turn {
            break;
        }
        std::hint::spin_loop();
    }
}

fn try_push(seat: &mut Seat, value: u64) -> bool {
    succeeded(seat.vector.try_push_back(&mut seat.hand, value))
}

// Pushes, and again if the other thread was first.
fn push<R: Abort>(rt: &R, seat: &mut Seat, value: u64) {
    let pushed = try_push(seat, value) || try_push(seat, value);
    assert!(rt; pushed, "{value}");
}

// Pushes on each vector together with the other thread. Both want the first segment, and one of them installs
// it.
fn push_each<R: Abort>(
    rt: &R,
    mut seats: Vec<Seat>,
    value: u64,
    mine: &AtomicU64,
    other: &AtomicU64,
) -> Vec<Seat> {
    let mut turn: u64 = 0;
    for seat in &mut seats {
        turn = turn.wrapping_add(1);
        meet(mine, other, turn);
        push(rt, seat, value);
    }
    seats
}

// Tests whether there is memory for one more vector.
fn add_seats<R: AllocGlobal>(rt: &R, a: &mut Vec<Seat>, b: &mut Vec<Seat>) -> bool {
    match seats(rt) {
        Some((first, second)) => {
            let is_added = succeeded(a.push(first));
            succeeded(b.push(second)) && is_added
        }
        None => false,
    }
}

// The seats of both threads at all vectors.
fn all_seats<R: AllocGlobal>(rt: &R) -> Option<(Vec<Seat>, Vec<Seat>)> {
    let mut a = Vec::with_capacity(rt.alloc(), VECTORS as usize).ok()?;
    let mut b = Vec::with_capacity(rt.alloc(), VECTORS as usize).ok()?;
    for _vector in 0..VECTORS {
        if !add_seats(rt, &mut a, &mut b) {
            drop((a, b));
            return None;
        }
    }
    Some((a, b))
}

// The seats of one thread, once both have pushed on each vector.
fn push_by_both<R: Threads + Abort + Sync>(rt: &R, a: Vec<Seat>, b: Vec<Seat>) -> Vec<Seat> {
    let (first, second) = (AtomicU64::new(0), AtomicU64::new(0));
    let (a, b) = join(
        rt,
        || push_each(rt, a, 5, &first, &second),
        || push_each(rt, b, 6, &second, &first),
    );
    drop(b);
    a
}

// Tests whether both values are on each vector.
fn have_both(seats: &mut [Seat]) -> bool {
    for seat in seats {
        let first = read(&seat.vector, &mut seat.hand, 0);
        let second = read(&seat.vector, &mut seat.hand, 1);
        if (first, second) != (Is(5), Is(6)) && (first, second) != (Is(6), Is(5)) {
            return false;
        }
    }
    true
}

#[test]
fn two_first_pushes_share_one_segment(rt: HostRuntime) {
    match all_seats(&rt) {
        Some((a, b)) => {
            let mut seats = push_by_both(&rt, a, b);
            let is_so = have_both(&mut seats);
            drop(seats);
            assert!(rt; is_so);
        }
        None => panic!(rt; "no memory"),
    }
}
