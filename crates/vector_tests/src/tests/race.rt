// Threads that append and read concurrently.
ghost use Rattle.std.specs.Prelude.{◌≡◌, ◌<◌};
ghost use Rattle.std.specs.Thread.{IsSync};
ghost use Rattle.grow_core.specs.Vector.{IsHandOf};

mod work;

use super::callers::{Callers, empty};
use super::edits::Found::Sizes;
use super::edits::{Edit, ends_as};
use super::lives::Life;
use super::steps::Reply::Is;
use super::steps::read;
use grow_core::{Hand, Shared};
use std::process::Abort;
use std::sync::Wait;
use std::test::Fail;
use std::thread::{Threads, join};
use work::{Work, work_each};

// How many values each thread appends.
pub(super) const EACH: u64 = 25_000;

// How many values one thread appends while another reads.
const READ: u64 = 100_000;

// How many runs of three values each of two threads appends.
const RUNS: u64 = 10_000;

// Two threads work, and their hands are joined.
fn work_by_two<R: Threads + Wait + Abort + Sync>(
    rt: &R,
    vector: &Shared<u64>,
    a: Hand<u64>,
    b: Hand<u64>,
    works: &[Work; 2],
) -> Hand<u64>
    requires ours { IsHandOf vector.now a }
    requires also_ours { IsHandOf vector.now b }
    ensures { result.of ≡ vector.now.word }
{
    let [work, other_work] = works;
    let (mut all, other) = join(
        rt,
        || -> Hand<u64>
            requires { IsSync R.row × IsHandOf vector.now a }
            ensures { result.of ≡ vector.entry.now.word }
        { work_each(rt, vector, a, work) },
        || -> Hand<u64>
            requires { IsSync R.row × IsHandOf vector.now b }
            ensures { result.of ≡ vector.entry.now.word }
        { work_each(rt, vector, b, other_work) },
    );
    vector.join(&mut all, other);
    all
}

// Two threads append EACH values, from the first on.
pub(super) fn push_by_two<R: Threads + Wait + Abort + Sync>(
    rt: &R,
    vector: &Shared<u64>,
    a: Hand<u64>,
    b: Hand<u64>,
    first: u64,
) -> Hand<u64>
    requires ours { IsHandOf vector.now a }
    requires also_ours { IsHandOf vector.now b }
    ensures { result.of ≡ vector.now.word }
{
    let works = [
        Work::Push { first, n: EACH },
        Work::Push {
            first: first.wrapping_add(EACH),
            n: EACH,
        },
    ];
    work_by_two(rt, vector, a, b, &works)
}

fn push_by_four<R: Threads + Wait + Abort + Sync>(
    rt: &R,
    vector: &Shared<u64>,
    mut a: Hand<u64>,
) -> Hand<u64>
    requires ours { IsHandOf vector.now a }
    requires enough { 3 < a.shares }
    ensures { result.of ≡ vector.now.word }
{
    let b = vector.split(&mut a, 1);
    let c = vector.split(&mut a, 1);
    let d = vector.split(&mut a, 1);
    let (mut all, other) = join(
        rt,
        || -> Hand<u64>
            requires { IsSync R.row × IsHandOf vector.now a × IsHandOf vector.now b }
            ensures { result.of ≡ vector.entry.now.word }
        { push_by_two(rt, vector, a, b, 0) },
        || -> Hand<u64>
            requires { IsSync R.row × IsHandOf vector.now c × IsHandOf vector.now d }
            ensures { result.of ≡ vector.entry.now.word }
        { push_by_two(rt, vector, c, d, 2 * EACH) },
    );
    vector.join(&mut all, other);
    all
}

// How far each thread's values have come, in order of place. It stops at a value that is out of its thread's
// order.
fn count_in_order(vector: &Shared<u64>, hand: &mut Hand<u64>) -> [u64; 4]
    requires ours { IsHandOf vector.now hand.old }
    ensures { hand.new.of ≡ hand.old.of }
{
    let mut next = [0; 4];
    for place in 0..4 * EACH {
        let Is(value) = read(vector, hand, place) else {
            break
        };
        if !count_next(&mut next, value) {
            break;
        }
    }
    next
}

// Counts a value if it is the next one of its thread, and returns whether it is.
pub(super) fn count_next(next: &mut [u64], value: u64) -> bool {
    let (thread, j) = ((value / EACH) as usize, value % EACH);
    match next.get_mut(thread) {
        Some(count) if *count == j => {
            *count = j + 1;
            true
        }
        _ => false,
    }
}

// Tests whether nothing was lost, and each thread's values are in its order.
fn keeps_all(vector: &Shared<u64>, hand: &mut Hand<u64>) -> bool
    requires ours { IsHandOf vector.now hand.old }
    ensures { hand.new.of ≡ hand.old.of }
{
    vector.size(hand) == 4 * EACH && count_in_order(vector, hand) == [EACH; 4]
}

#[test]
fn four_threads_lose_nothing_and_keep_their_orders(rt: HostRuntime) -> Result<(), Fail> {
    let (vector, hand) = empty(rt.alloc(), 4 * EACH)?;
    let mut hand = push_by_four(&rt, &vector, hand);
    let keeps = keeps_all(&vector, &mut hand);
    let sizes = [(Edit::Sizes, Sizes(4 * EACH, 4 * EACH, 131_072))];
    let ends = ends_as(Life { vector, hand }.close(), &sizes);
    assert!(rt; keeps);
    assert!(rt; ends);
    Ok(())
}

#[test]
fn a_thread_reads_what_another_appends(rt: HostRuntime) {
    let Callers { vector, a, b, .. } = Callers::new(&rt, READ);
    let works = [Work::Push { first: 0, n: READ }, Work::Read { n: READ }];
    let hand = work_by_two(&rt, &vector, a, b, &works);
    let sizes = [(Edit::Sizes, Sizes(READ, READ, 131_072))];
    assert!(rt; ends_as(Life { vector, hand }.close(), &sizes));
}

// How many runs of three equal values there are, one after the other.
fn count_runs(vector: &Shared<u64>, hand: &mut Hand<u64>) -> u64
    requires ours { IsHandOf vector.now hand.old }
    ensures { hand.new.of ≡ hand.old.of }
{
    let mut runs: u64 = 0;
    for k in 0..2 * RUNS {
        let first = read(vector, hand, 3 * k);
        if matches!(first, Is(_))
            && first == read(vector, hand, 3 * k + 1)
            && first == read(vector, hand, 3 * k + 2)
        {
            runs = runs.wrapping_add(1);
        }
    }
    runs
}

// Two threads append runs to a vector with just enough room, and both succeed.
#[test]
fn two_threads_append_runs_that_stay_whole(rt: HostRuntime) {
    let Callers { vector, a, b, .. } = Callers::new(&rt, 6 * RUNS);
    let alloc = rt.alloc();
    let works = [Work::Grow { alloc, n: RUNS }, Work::Grow { alloc, n: RUNS }];
    let mut hand = work_by_two(&rt, &vector, a, b, &works);
    let runs = count_runs(&vector, &mut hand);
    let sizes = [(Edit::Sizes, Sizes(6 * RUNS, 6 * RUNS, 65_536))];
    let ends = ends_as(Life { vector, hand }.close(), &sizes);
    assert!(rt; runs == 2 * RUNS);
    assert!(rt; ends);
}
