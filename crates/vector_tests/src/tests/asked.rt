// How often a maker is asked, at each outcome of each growth that has one. A maker that is the `next` of
// an iterator would lose each value that it is asked for in vain.
ghost use Rattle.std.specs.Prelude.{◌≡◌};
ghost use Rattle.std.specs.Thread.{IsSync};
ghost use Rattle.grow_core.specs.Vector.{IsHandOf};

use super::callers::Callers;
use super::steps::Call::{Append, Clones, Grow, Make, TryGrow};
use super::steps::Form::{Again, Try, UpTo};
use super::steps::Reply::{Enough, Full, Moved, Ran, Refused};
use super::steps::Step::{A, B};
use super::steps::{Call, NONE, Reply, by_hand, first_wrong};
use grow_core::{Hand, Shared};
use std::alloc::AllocGlobal;
use std::sync::Wait;
use std::thread::{Threads, join};

// Growths of a vector of limit 5,000 with two values, and what comes of each. The player counts how often the
// maker is asked.
static ASKED: [(Call, Reply); 24] = [
    (Make(Try, 0, 0), Ran(2, 0)),
    (Make(Try, 1, NONE), Ran(2, 1)),
    (Make(Try, 3, NONE), Ran(2, 3)),
    (Make(Try, 3, 0), Refused(2, 3, 0)),
    (Make(Try, 3, 1), Refused(2, 3, 1)),
    (Make(Try, 3, 2), Refused(2, 3, 2)),
    (Make(Try, 2_000, NONE), Ran(2, 2_000)),
    (Make(Try, 2_000, 1_000), Refused(2, 2_000, 1_000)),
    (Make(Try, 4_999, NONE), Full(2)),
    (Make(Again, 0, 0), Ran(2, 0)),
    (Make(Again, 3, NONE), Ran(2, 3)),
    (Make(Again, 3, 0), Refused(2, 3, 0)),
    (Make(Again, 3, 1), Refused(2, 3, 1)),
    (Make(Again, 3, 2), Refused(2, 3, 2)),
    (Make(Again, 2_000, NONE), Ran(2, 2_000)),
    (Make(Again, 4_999, NONE), Full(2)),
    (Make(UpTo, 1, NONE), Enough(2)),
    (Make(UpTo, 2, NONE), Enough(2)),
    (Make(UpTo, 5, NONE), Ran(2, 3)),
    (Make(UpTo, 5, 0), Refused(2, 3, 0)),
    (Make(UpTo, 5, 2), Refused(2, 3, 2)),
    (Make(UpTo, 2_002, NONE), Ran(2, 2_000)),
    (Make(UpTo, 2_002, 1_000), Refused(2, 2_000, 1_000)),
    (Make(UpTo, 5_001, NONE), Full(2)),
];

#[test]
fn a_maker_is_asked_for_each_value_once_and_for_none_after_a_refusal(rt: HostRuntime) {
    let mut row = 0u64;
    for (call, reply) in ASKED.as_slice() {
        let steps = [(B(TryGrow(&[5, 6])), Ran(0, 2)), (A(*call), *reply)];
        assert!(rt; first_wrong(&rt, 5_000, &steps) == None, "row {row}");
        row = row.wrapping_add(1);
    }
}

// How many runs each of two threads appends, and how many values a run has.
const RUNS: u64 = 2_000;

const LONG: u64 = 1_000;

static SEVENS: [u64; 1_000] = [7; 1_000];

// How many exchanges a run may lose.
const TRIES: u64 = 1_000_000;

// Tests whether a run is appended by tries: each that lost its exchange is followed by another.
fn try_to_win<R: AllocGlobal + Wait>(rt: &R, vector: &Shared<u64>, hand: &mut Hand<u64>) -> bool
    requires ours { IsHandOf vector.now hand.old }
    ensures of { hand.new.of ≡ hand.old.of }
{
    for _try in 0..TRIES {
        match by_hand(rt, vector, hand, Make(Try, LONG, NONE)) {
            Ran(_, n) => return n == LONG,
            Moved => {}
            _ => return false,
        }
    }
    false
}

// Tests whether a run is appended, in a form that the number names.
fn grow_long<R: AllocGlobal + Wait>(
    rt: &R,
    vector: &Shared<u64>,
    hand: &mut Hand<u64>,
    number: u64,
) -> bool
    requires ours { IsHandOf vector.now hand.old }
    ensures of { hand.new.of ≡ hand.old.of }
{
    let call = match number % 5 {
        0 => Grow(&SEVENS),
        1 => Append(&SEVENS),
        2 => Clones(LONG, 7),
        3 => Make(Again, LONG, NONE),
        _ => return try_to_win(rt, vector, hand),
    };
    matches!(by_hand(rt, vector, hand, call), Ran(_, LONG))
}

// How many of a thread's runs are appended.
fn grow_each<R: AllocGlobal + Wait>(
    rt: &R,
    vector: &Shared<u64>,
    mut hand: Hand<u64>,
) -> (Hand<u64>, u64)
    requires ours { IsHandOf vector.now hand }
    ensures { result.0.of ≡ vector.now.word }
{
    let mut won = 0u64;
    for number in 0..RUNS {
        if grow_long(rt, vector, &mut hand, number) {
            won = won.wrapping_add(1);
        }
    }
    (hand, won)
}

// How many runs of both threads are appended, and the size after it.
fn grow_by_two<R: AllocGlobal + Threads + Wait + Sync>(
    rt: &R,
    vector: &Shared<u64>,
    a: Hand<u64>,
    b: Hand<u64>,
) -> (u64, u64)
    requires ours { IsHandOf vector.now a }
    requires also_ours { IsHandOf vector.now b }
{
    let ((mut all, first), (other, second)) = join(
        rt,
        || -> (Hand<u64>, u64)
            requires { IsSync R.row × IsHandOf vector.now a }
            ensures { result.0.of ≡ vector.entry.now.word }
        { grow_each(rt, vector, a) },
        || -> (Hand<u64>, u64)
            requires { IsSync R.row × IsHandOf vector.now b }
            ensures { result.0.of ≡ vector.entry.now.word }
        { grow_each(rt, vector, b) },
    );
    let size = vector.size(&mut all);
    drop((all, other));
    (first.wrapping_add(second), size)
}

// The vector has just room for all runs. A run whose exchange is lost is none that finds no memory, and
// its maker is not asked.
#[test]
fn a_lost_exchange_of_a_long_run_asks_for_nothing_and_is_no_refusal(rt: HostRuntime) {
    let Callers { vector, a, b } = Callers::new(&rt, 2 * RUNS * LONG);
    let came = grow_by_two(&rt, &vector, a, b);
    drop(vector);
    assert!(rt; came == (2 * RUNS, 2 * RUNS * LONG));
}
