//! Work of a range of workers, each in a thread of its own, started by halves.
ghost use Rattle.std.specs.Prelude.{ℕ, ◌+◌, ◌^◌, ◌<◌, IfOk, IfErr};

use std::marker::PhantomData;
use std::snapshot::Snapshot;
use std::sync::Wait;
use std::sync::atomic::{AtomicBool, Ordering};
use std::thread;
use std::thread::{Promise, Threads};

/// Work that workers do together: one alone, and a range by its halves. A range of workers brings an `S`, and
/// gives a result `A`, or `E` if it has none.
pub trait ForkJoin<S, A, E> {
    /// What a range may bring, by its first worker and its number of workers.
    ghost brings: { Self → ℕ → ℕ → S → Type 0 };

    /// What a range may return.
    ghost gives: { Self → ℕ → ℕ → A → Type 0 };

    /// Why a range may have no result.
    ghost refuses: { Self → ℕ → ℕ → E → Type 0 };

    /// Does the work of one worker.
    fn work(&self, worker: u32, brought: S) -> Result<A, E>
        requires { brings self.now worker 1 brought }
        ensures answer { IfOk result (gives self.now worker 1) }
        ensures refused { IfErr result (refuses self.now worker 1) };

    /// Divides what a range brings, for its `low` lowest workers and for the `high` others.
    fn cut(&self, brought: S, first: u32, low: u32, high: u32) -> (S, S)
        requires { brings self.now first (low + high) brought × (0 < low) × (0 < high) }
        ensures lower { brings self.now first low result.0 }
        ensures upper { brings self.now (first + low) high result.1 };

    /// Combines the results of the two halves of a range.
    fn join_halves(
        &self,
        first: u32,
        low: u32,
        high: u32,
        lower: Result<A, E>,
        upper: Result<A, E>,
    ) -> Result<A, E>
        requires lower { IfOk lower (gives self.now first low)
            × IfErr lower (refuses self.now first low) }
        requires upper { IfOk upper (gives self.now (first + low) high)
            × IfErr upper (refuses self.now (first + low) high) }
        ensures answer { IfOk result (gives self.now first (low + high)) }
        ensures refused { IfErr result (refuses self.now first (low + high)) };

    /// Returns the result of a range that does not work, because a thread could not be started.
    fn unstarted(&self, brought: S, first: u32, count: u32) -> Result<A, E>
        requires { brings self.now first count brought × (0 < count) }
        ensures answer { IfOk result (gives self.now first count) }
        ensures refused { IfErr result (refuses self.now first count) };
}

// The pending result of the upper half of a range.
#[derive(Drop)]
struct Upper<S, J> {
    brought: PhantomData<S>,
    job: Snapshot<J>,
    first: u32,
    count: u32,
}

impl<S, A, E, J: ForkJoin<S, A, E>> Promise<Result<A, E>> for Upper<S, J> {
    ghost use Rattle.std.specs.Prelude.{IfOk, IfErr};

    ghost kept_by = { λ p r. IfOk r (J.gives p.job.value p.first p.count)
        × IfErr r (J.refuses p.job.value p.first p.count) };
}

/// Does the work of a range of workers.
///
/// A range of one is the worker; a larger one starts a thread for its upper half, does its lower half itself,
/// and joins. If that thread cannot be started, nobody of the range works, and each half returns its
/// `unstarted` result with what it brought. By then, every thread that was started has ended.
#[cycle(work_by_halves)]
pub fn fork_join<
    R: Threads + Wait + Sync,
    S: Send + Drop,
    A: Send + Drop,
    E: Send + Drop,
    J: ForkJoin<S, A, E> + Sync,
>(rt: &R, job: &J, brought: S, first: u32, count: u32) -> Result<A, E>
    requires brought { J.brings job.now first count brought }
    requires some { 0 < count }
    requires fits { first + count < 2 ^ 32 }
    ensures answer { IfOk result (J.gives job.now first count) }
    ensures refused { IfErr result (J.refuses job.now first count) }
{
    if count == 1 {
        return job.work(first, brought);
    }
    let low = count / 2;
    work_by_halves(rt, job, brought, first, low, count - low)
}

// The same for a range of at least two workers.
#[cycle(work_by_halves)]
fn work_by_halves<
    R: Threads + Wait + Sync,
    S: Send + Drop,
    A: Send + Drop,
    E: Send + Drop,
    J: ForkJoin<S, A, E> + Sync,
>(rt: &R, job: &J, brought: S, first: u32, low: u32, high: u32) -> Result<A, E>
    requires brought { J.brings job.now first (low + high) brought }
    requires some { 0 < low × 0 < high }
    requires fits { first + low + high < 2 ^ 32 }
    ensures answer { IfOk result (J.gives job.now first (low + high)) }
    ensures refused { IfErr result (J.refuses job.now first (low + high)) }
{
    let middle = first + low;
    let (for_lower, for_upper) = job.cut(brought, first, low, high);
    let stops = AtomicBool::new(false);
    let promise: Upper<S, J> = Upper {
        brought: PhantomData,
        job: Snapshot::of(job),
        first: middle,
        count: high,
    };
    let (lower, upper) = call_both(
        rt,
        &stops,
        || -> Result<A, E>
            requires { J.brings job.now first low for_lower × (0 < low) × (first + low < 2 ^ 32) }
            ensures answer { IfOk result (J.gives job.entry.now first low) }
            ensures refused { IfErr result (J.refuses job.entry.now first low) }
        { work_unless(&stops, rt, job, for_lower, first, low) },
        promise,
        || -> Result<A, E>
            requires { J.brings job.now middle high for_upper × (0 < high)
                × (middle + high < 2 ^ 32) }
            ensures answer { IfOk result (J.gives job.entry.now middle high) }
            ensures refused { IfErr result (J.refuses job.entry.now middle high) }
        { work_unless(&stops, rt, job, for_upper, middle, high) },
    );
    job.join_halves(first, low, high, lower, upper)
}

// The same for a half of a range, which does not work if `stops` is set.
#[cycle(work_by_halves)]
fn work_unless<
    R: Threads + Wait + Sync,
    S: Send + Drop,
    A: Send + Drop,
    E: Send + Drop,
    J: ForkJoin<S, A, E> + Sync,
>(stops: &AtomicBool, rt: &R, job: &J, brought: S, first: u32, count: u32) -> Result<A, E>
    requires brought { J.brings job.now first count brought }
    requires some { 0 < count }
    requires fits { first + count < 2 ^ 32 }
    ensures answer { IfOk result (J.gives job.now first count) }
    ensures refused { IfErr result (J.refuses job.now first count) }
{
    if stops.load(Ordering::SeqCst) {
        return job.unstarted(brought, first, count);
    }
    fork_join(rt, job, brought, first, count)
}

// Calls `here` in this thread and `there` in a thread of its own. If that thread cannot be started, sets
// `stops`, and then calls both in this thread.
fn call_both<
    R: Threads + Wait,
    T: Send + Drop,
    P: Promise<T> + Drop,
    F: FnOnce() -> T,
    G: FnOnce() -> T + Send,
>(rt: &R, stops: &AtomicBool, here: F, promise: P, there: G) -> (T, T)
    requires runs { F.pre here × G.pre there }
    requires keeps { (r : T) → G.post there r → P.kept_by promise r }
    ensures here { F.post here result.0 }
    ensures there { P.kept_by promise result.1 }
{
    thread::scope(
        thread::scope_env(),
        rt,
        |scope| -> (T, T)
            requires { F.pre here × G.pre there × ((r : T) → G.post there r → P.kept_by promise r) }
            ensures here { F.post here result.0 }
            ensures there { P.kept_by promise result.1 }
        {
            match scope.spawn_with(promise, there) {
                Ok(thread) => (here(), thread.join(rt)),
                // `there` comes back with all that it captured.
                Err(refused) => {
                    stops.store(true, Ordering::SeqCst);
                    (here(), (refused.value)())
                }
            }
        },
    )
}
