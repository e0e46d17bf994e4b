// Workers that append by a writer each. Nothing is proved of their shares: each test closes the vector if the
// hand is whole.
ghost use Rattle.std.specs.Prelude.{◌<◌, ◌≤◌};
ghost use Rattle.grow_core.specs.Vector.{IsHandOf};

use super::hands::are_all;
use grow_core::{Hand, Shared};
use quiet_core::Quiet;
use span_core::{Free, Gate, PairGate, Refusal, Tie, Writer, WriterJob, with_writers};
use std::alloc::Global;
use std::sync::Wait;
use std::sync::atomic::{AtomicU64, Ordering};
use std::thread::{Threads, yield_now};

// Each worker appends `each` values and returns its number. Those from number `stops` on stop after half of
// them.
#[derive(Drop)]
pub(super) struct Appends<'a, R> {
    rt: &'a R,
    each: u64,
    stops: u32,
}

impl<'a, R> Appends<'a, R> {
    pub(super) fn new(rt: &'a R, each: u64, stops: u32) -> Appends<'a, R> {
        Appends { rt, each, stops }
    }
}

// The error of a worker whose growth was refused. One that stops returns its number.
const GROWTH: u32 = u32::MAX;

impl<'a, R: Wait> WriterJob<u64, u32, u32> for Appends<'a, R> {
    fn work<B: Tie>(&self, writer: &mut Writer<'_, u64, B>, worker: u32) -> Result<u32, u32> {
        let stops = worker >= self.stops;
        let n = if stops { self.each / 2 } else { self.each };
        for count in 0..n {
            if writer.push_back(self.rt, count).is_err() {
                return Err(GROWTH);
            }
        }
        if stops { Err(worker) } else { Ok(worker) }
    }
}

// What workers returned on a new vector. Then the length of its list if the hand was whole, and otherwise the
// shares that the hand had.
type Written<A> = (Result<Vec<A>, Refusal<u32>>, Result<u64, u32>);

// The length of the list of a vector, or the shares of a hand that is not whole.
pub(super) fn len_or_shares(vector: Shared<u64>, hand: Hand<u64>) -> Result<u64, u32>
    requires { IsHandOf vector hand }
{
    let closed = Quiet::try_close(vector, hand);
    let told = match &closed {
        Ok(list) => Ok(list.len()),
        Err((_vector, hand)) => Err(hand.share()),
    };
    drop(closed);
    told
}

// Lets workers write to a new vector.
pub(super) fn write_new<
    R: Threads + Wait + Sync,
    A: Send + Drop,
    W: WriterJob<u64, A, u32> + Sync,
    G: Gate + Sync,
>(rt: &R, alloc: Global, limit: u64, workers: u32, job: &W, gate: &G) -> Option<Written<A>>
    requires { 0 < limit × limit ≤ 1000 }
{
    if workers == 0 || workers > 300 {
        return None;
    }
    let (vector, mut hand) = Quiet::new(alloc, limit).open().ok()?;
    let told = with_writers(rt, alloc, &vector, &mut hand, workers, job, gate);
    Some((told, len_or_shares(vector, hand)))
}

// The same of workers that append. Returns whether each returned its number, in order.
pub(super) fn append_new<R: Threads + Wait + Sync, G: Gate + Sync>(
    rt: &R,
    alloc: Global,
    limit: u64,
    workers: u32,
    job: &Appends<'_, R>,
    gate: &G,
) -> Option<(Result<bool, Refusal<u32>>, Result<u64, u32>)>
    requires { 0 < limit × limit ≤ 1000 }
{
    let (told, closed) = write_new(rt, alloc, limit, workers, job, gate)?;
    match told {
        Ok(numbers) => Some((Ok(are_all(numbers.as_slice(), workers)), closed)),
        Err(refusal) => Some((Err(refusal), closed)),
    }
}

// The first of eight workers that stop after five of ten values, what they return, and the length of the list.
static STOPS: [(u32, Result<bool, Refusal<u32>>, u64); 4] = [
    (8, Ok(true), 80),
    (7, Err(Refusal::Worker(7)), 75),
    (3, Err(Refusal::Worker(3)), 55),
    (0, Err(Refusal::Worker(0)), 40),
];

#[test]
fn the_lowest_worker_that_stops_is_reported_and_no_hand_is_lost(rt: HostRuntime) {
    for (stops, told, len) in STOPS.as_slice() {
        let job = Appends::new(&rt, 10, *stops);
        let ended = append_new(&rt, rt.alloc(), 80, 8, &job, &Free);
        assert!(rt; ended == Some((*told, Ok(*len))), "{stops}");
    }
}

#[test]
fn no_hand_is_lost_if_growths_or_workers_are_refused(rt: HostRuntime) {
    let job = Appends::new(&rt, 10, 8);
    let full = append_new(&rt, rt.alloc(), 30, 8, &job, &Free);
    assert!(rt; full == Some((Err(Refusal::Worker(GROWTH)), Ok(30))));
    let stuck = append_new(&rt, rt.alloc(), 80, 8, &job, &PairGate::new(0));
    assert!(rt; stuck == Some((Err(Refusal::Stuck), Ok(60))));
}

// Each worker returns the shares of its writer, and drops some of them.
#[derive(Drop)]
struct Parts {
    dropped: u32,
}

impl WriterJob<u64, u32, u32> for Parts {
    fn work<B: Tie>(&self, writer: &mut Writer<'_, u64, B>, _worker: u32) -> Result<u32, u32> {
        let shares = writer.hand().share();
        if 0 < self.dropped && self.dropped < shares {
            let _dropped = writer.split(self.dropped);
        }
        Ok(shares)
    }
}

// Tests whether there are n numbers, and each is this one.
fn are_same(numbers: &[u32], n: u32, wanted: u32) -> bool {
    let mut count = 0;
    for number in numbers {
        if count >= n || *number != wanted {
            return false;
        }
        count += 1;
    }
    count == n
}

// Tests whether each worker gets these shares, and how the vector is closed.
fn get_shares<R: Threads + Wait + Sync>(
    rt: &R,
    alloc: Global,
    workers: u32,
    shares: u32,
    dropped: u32,
) -> Option<(bool, Result<u64, u32>)> {
    let (told, closed) = write_new(rt, alloc, 8, workers, &Parts { dropped }, &Free)?;
    match told {
        Ok(numbers) => Some((are_same(numbers.as_slice(), workers, shares), closed)),
        Err(_refusal) => Some((false, closed)),
    }
}

// The number of workers, the shares of each, those that each drops, and the length of the closed list or the
// shares that are left.
static SHARES: [(u32, u32, u32, Result<u64, u32>); 7] = [
    (1, 32_768, 0, Ok(0)),
    (2, 21_845, 0, Ok(0)),
    (9, 6553, 0, Ok(0)),
    (64, 1008, 0, Ok(0)),
    (1, 32_768, 1, Err(65_535)),
    (9, 6553, 1000, Err(56_536)),
    (64, 1008, 1007, Err(1088)),
];

#[test]
fn each_worker_gets_an_equal_part_and_what_it_drops_is_lost(rt: HostRuntime) {
    for (workers, shares, dropped, closed) in SHARES.as_slice() {
        let got = get_shares(&rt, rt.alloc(), *workers, *shares, *dropped);
        assert!(rt; got == Some((true, *closed)), "{workers} {dropped}");
    }
}

// Each worker waits until all have begun, and returns its number.
#[derive(Drop)]
pub(super) struct Meets<'a, R> {
    rt: &'a R,
    workers: u64,
    pub(super) begun: AtomicU64,
}

impl<'a, R> Meets<'a, R> {
    pub(super) fn new(rt: &'a R, workers: u32) -> Meets<'a, R> {
        Meets {
            rt,
            workers: u64::from(workers),
            begun: AtomicU64::new(0),
        }
    }
}

impl<'a, R: Wait> WriterJob<u64, u32, u32> for Meets<'a, R> {
    fn work<B: Tie>(&self, _writer: &mut Writer<'_, u64, B>, worker: u32) -> Result<u32, u32> {
        self.begun.fetch_add(1, Ordering::SeqCst);
        for _ in self.rt.forever() {
            if self.begun.load(Ordering::SeqCst) >= self.workers {
                break;
            }
            yield_now();
        }
        Ok(worker)
    }
}

// Tests whether workers that wait for one another all return.
fn all_meet<R: Threads + Wait + Sync>(rt: &R, alloc: Global, workers: u32) -> Option<bool> {
    let (told, closed) = write_new(rt, alloc, 8, workers, &Meets::new(rt, workers), &Free)?;
    match told {
        Ok(numbers) => Some(are_all(numbers.as_slice(), workers) && closed == Ok(0)),
        Err(_refusal) => Some(false),
    }
}

#[test]
fn a_worker_may_wait_for_all_others(rt: HostRuntime) {
    for workers in [1, 2, 9, 64, 300].as_slice() {
        assert!(rt;
            all_meet(&rt, rt.alloc(), *workers) == Some(true),
            "{workers}"
        );
    }
}

// Each worker splits a part off its writer, appends by that, and joins it again.
#[derive(Drop)]
struct Splits<'a, R> {
    rt: &'a R,
}

impl<'a, R: Wait> WriterJob<u64, u32, u32> for Splits<'a, R> {
    fn work<B: Tie>(&self, writer: &mut Writer<'_, u64, B>, worker: u32) -> Result<u32, u32> {
        if writer.hand().share() <= 100 {
            return Err(worker);
        }
        let mut part = writer.split(100);
        let is_pushed = part.push_back(self.rt, 7).is_ok();
        writer.join(Writer::tied(writer.vector(), part.into_hand()));
        if is_pushed { Ok(worker) } else { Err(GROWTH) }
    }
}

// Tests whether workers that split their writers all return, and no hand is lost.
fn all_split<R: Threads + Wait + Sync>(rt: &R, alloc: Global, workers: u32) -> Option<bool> {
    let (told, closed) = write_new(rt, alloc, 100, workers, &Splits { rt }, &Free)?;
    match told {
        Ok(numbers) => Some(
            are_all(numbers.as_slice(), workers) && closed == Ok(u64::from(workers)),
        ),
        Err(_refusal) => Some(false),
    }
}

#[test]
fn a_worker_splits_its_writer_and_joins_the_part(rt: HostRuntime) {
    assert!(rt; all_split(&rt, rt.alloc(), 9) == Some(true));
}
