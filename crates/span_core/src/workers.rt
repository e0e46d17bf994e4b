//! Workers that each pass a gate before and after their work, and return one result each.
ghost use Rattle.std.specs.Prelude.{◌≡◌, ◌≢◌, ℕ, ◌+◌, ◌<◌, ◌≤◌, [], ◌∷◌, ◌++◌, ◌⊎◌, ◌↔◌};
ghost use Rattle.std.specs.Prelude.{Vec, Ok, IfOk, IfErr, IsErrOf, Err};
ghost use Rattle.std.specs.Bool.{MatchBool};
ghost use Rattle.span_core.specs.Workers.{AreReadyBy, EachGives, RefusesLowest, IsOfRange, IsBadNumber};

use crate::by_halves::{ForkJoin, fork_join};
use crate::errors::{ParError, Refusal};
use crate::gate::Gate;
use std::alloc::{AllocError, Global};
use std::sync::Wait;
use std::thread::Threads;

/// The work of each worker of a team.
pub trait Job<A> {
    /// When this worker may begin: mostly once a gate let it through.
    ghost ready: { Self → ℕ → Type 0 };

    /// What this worker may return.
    ghost gives: { Self → ℕ → A → Type 0 };

    /// Does the work of one worker.
    fn work(&self, worker: u32) -> Result<A, AllocError>
        requires { ready self.now worker }
        ensures { IfOk result (gives self.now worker) };
}

/// The work of each worker of a range, with what the range brings.
pub trait Gated<S, A, E> {
    /// When this worker may begin: mostly once a gate let it through.
    ghost ready: { Self → ℕ → Type 0 };

    /// What a range may bring, by its first worker and its number of workers.
    ghost brings: { Self → ℕ → ℕ → S → Type 0 };

    /// What this worker may return.
    ghost gives: { Self → ℕ → A → Type 0 };

    /// Why this worker may have no result.
    ghost refuses: { Self → ℕ → E → Type 0 };

    /// Does the work of one worker.
    fn work(&self, worker: u32, brought: S) -> Result<A, E>
        requires ready { ready self.now worker }
        requires brought { brings self.now worker 1 brought }
        ensures answer { IfOk result (gives self.now worker) }
        ensures refused { IfErr result (refuses self.now worker) };

    /// Divides what a range brings, for its `low` lowest workers and for the `high` others.
    fn cut(&self, brought: S, first: u32, low: u32, high: u32) -> (S, S)
        requires { brings self.now first (low + high) brought × (0 < low) × (0 < high) }
        ensures lower { brings self.now first low result.0 }
        ensures upper { brings self.now (first + low) high result.1 };
}

// The results of both halves, or why there are none.
pub(crate) fn join_results<A: Drop, E: Drop>(
    lower: Result<Vec<A>, Refusal<E>>,
    upper: Result<Vec<A>, Refusal<E>>,
) -> Result<Vec<A>, Refusal<E>>
    ensures answers { IfOk result (λ all. (xs : Vec A Global) × (ys : Vec A Global)
        × (lower ≡ Ok xs) × (upper ≡ Ok ys) × (all.items ≡ xs.items ++ ys.items)) }
    // Whatever the upper half did.
    ensures lower_first { (e : Refusal E) → lower ≡ Err e → result ≡ Err e }
    ensures upper_next { (xs : Vec A Global) (e : Refusal E) → lower ≡ Ok xs → upper ≡ Err e
        → result ≡ Err e }
    ensures refused { IfErr result (λ e. (e ≡ Refusal.NoMemory) ⊎ ((lower ≡ Err e)
        ⊎ ((xs : Vec A Global) × (lower ≡ Ok xs) × (upper ≡ Err e)))) }
{
    let mut answers = lower?;
    let mut more = upper?;
    answers.append(&mut more)?;
    Ok(answers)
}

// What workers do, and the gate that they pass.
#[derive(Drop)]
struct GatedWorkers<'a, W, G> {
    alloc: Global,
    work: &'a W,
    gate: &'a G,
}

impl<'a, S: Drop, A: Drop, E: Drop, W: Gated<S, A, E>, G: Gate> ForkJoin<S, Vec<A>, Refusal<E>>
    for GatedWorkers<'a, W, G> {
    ghost use Rattle.std.specs.Prelude.{ℕ, ◌+◌, ◌<◌, IfOk, IfErr, Result};
    ghost use Rattle.span_core.specs.Workers.{AreReadyBy, EachGives, IsOfRange};

    ghost brings = { λ c first count brought. W.brings c.work.now first count brought
        × AreReadyBy (G.lets_through c.gate.now) (W.ready c.work.now) };

    ghost gives = { λ c first count answers. EachGives
        (W.gives c.work.now) first count answers.items };

    ghost refuses = { λ c first count.
        IsOfRange (W.gives c.work.now) (W.refuses c.work.now) (G.may_refuse c.gate.now) first count };

    // One worker passes the gate and works.
    fn work(&self, worker: u32, brought: S) -> Result<Vec<A>, Refusal<E>>
        requires { W.brings self.now.work.now worker 1 brought
            × AreReadyBy (G.lets_through self.now.gate.now) (W.ready self.now.work.now) }
        ensures answer { IfOk result
            (λ answers. EachGives (W.gives self.now.work.now) worker 1 answers.items) }
        ensures refused { IfErr result (IsOfRange (W.gives self.now.work.now)
            (W.refuses self.now.work.now) (G.may_refuse self.now.gate.now) worker 1) }
    {
        if !self.gate.before(worker) {
            self.gate.after(worker);
            return Err(Refusal::Stuck);
        }
        let answer = self.work.work(worker, brought);
        self.gate.after(worker);
        match answer {
            Ok(answer) => list_answer(self.alloc, answer),
            Err(error) => Err(Refusal::Worker(error)),
        }
    }

    fn cut(&self, brought: S, first: u32, low: u32, high: u32) -> (S, S)
        requires { (W.brings self.now.work.now first (low + high) brought
            × AreReadyBy (G.lets_through self.now.gate.now) (W.ready self.now.work.now))
            × (0 < low) × (0 < high) }
        ensures lower { W.brings self.now.work.now first low result.0
            × AreReadyBy (G.lets_through self.now.gate.now) (W.ready self.now.work.now) }
        ensures upper { W.brings self.now.work.now (first + low) high result.1
            × AreReadyBy (G.lets_through self.now.gate.now) (W.ready self.now.work.now) }
    {
        self.work.cut(brought, first, low, high)
    }

    fn join_halves(
        &self,
        first: u32,
        low: u32,
        high: u32,
        lower: Result<Vec<A>, Refusal<E>>,
        upper: Result<Vec<A>, Refusal<E>>,
    ) -> Result<Vec<A>, Refusal<E>>
        requires lower { IfOk lower (λ xs. EachGives (W.gives self.now.work.now) first low xs.items)
            × IfErr lower (IsOfRange (W.gives self.now.work.now) (W.refuses self.now.work.now)
            (G.may_refuse self.now.gate.now) first low) }
        requires upper { IfOk upper
            (λ ys. EachGives (W.gives self.now.work.now) (first + low) high ys.items)
            × IfErr upper (IsOfRange (W.gives self.now.work.now) (W.refuses self.now.work.now)
            (G.may_refuse self.now.gate.now) (first + low) high) }
        ensures answer { IfOk result
            (λ all. EachGives (W.gives self.now.work.now) first (low + high) all.items) }
        ensures refused { IfErr result (IsOfRange (W.gives self.now.work.now)
            (W.refuses self.now.work.now) (G.may_refuse self.now.gate.now) first (low + high)) }
    {
        join_results(lower, upper)
    }

    fn unstarted(&self, _brought: S, _first: u32, _count: u32) -> Result<Vec<A>, Refusal<E>>
        requires { (W.brings self.now.work.now _first _count _brought
            × AreReadyBy (G.lets_through self.now.gate.now) (W.ready self.now.work.now))
            × (0 < _count) }
        ensures answer { IfOk result
            (λ answers. EachGives (W.gives self.now.work.now) _first _count answers.items) }
        ensures refused { IfErr result (IsOfRange (W.gives self.now.work.now)
            (W.refuses self.now.work.now) (G.may_refuse self.now.gate.now) _first _count) }
    {
        Err(Refusal::NoMemory)
    }
}

// The result of one worker.
pub(crate) fn list_answer<A: Drop, E>(alloc: Global, answer: A) -> Result<Vec<A>, Refusal<E>>
    ensures answer { IfOk result (λ answers. answers.items ≡ answer ∷ []) }
    ensures memory { IfErr result (λ e. e ≡ Refusal.NoMemory) }
{
    let mut answers = Vec::new(alloc);
    match answers.push(answer) {
        Ok(()) => Ok(answers),
        Err(_) => Err(Refusal::NoMemory),
    }
}

/// Runs the work of each worker, all except the first in a thread of their own, and returns their results in
/// order.
///
/// Each worker passes the gate before its work and after it. `fork_join` starts them; if a range's thread
/// cannot be started, nobody of the range passes the gate. The refusal of the worker with the lowest number
/// is returned. By then, every thread that was started has ended.
pub fn run_gated<
    R: Threads + Wait + Sync,
    S: Send + Drop,
    A: Send + Drop,
    E: Send + Drop,
    W: Gated<S, A, E> + Sync,
    G: Gate + Sync,
>(rt: &R, alloc: Global, work: &W, gate: &G, brought: S, workers: u32) -> Result<Vec<A>, Refusal<E>>
    requires ready { AreReadyBy (G.lets_through gate.now) (W.ready work.now) }
    requires brought { W.brings work.now 0 workers brought }
    requires some { 0 < workers }
    ensures answers { IfOk result
        (λ answers. EachGives (W.gives work.now) 0 workers answers.items) }
    // Each worker below the one that was refused has returned.
    ensures refused { IfErr result (IsOfRange (W.gives work.now) (W.refuses work.now)
        (G.may_refuse gate.now) 0 workers) }
{
    let job = GatedWorkers { alloc, work, gate };
    fork_join(rt, &job, brought, 0, workers)
}

// A job as gated work that brings nothing.
#[derive(Drop)]
struct GatedJob<'a, J> {
    job: &'a J,
}

impl<'a, A, J: Job<A>> Gated<(), A, AllocError> for GatedJob<'a, J> {
    ghost use Rattle.std.specs.Prelude.{IfOk, IfErr, ⊤};

    ghost ready = { λ p. J.ready p.job.now };

    ghost brings = { λ _ _ _ _. ⊤ };

    ghost gives = { λ p. J.gives p.job.now };

    ghost refuses = { λ _ _ _. ⊤ };

    fn work(&self, worker: u32, _brought: ()) -> Result<A, AllocError>
        requires ready { J.ready self.now.job.now worker }
        ensures answer { IfOk result (J.gives self.now.job.now worker) }
        ensures refused { IfErr result (λ _. ⊤) }
    {
        self.job.work(worker)
    }

    fn cut(&self, brought: (), _first: u32, _low: u32, _high: u32) -> ((), ()) {
        (brought, brought)
    }
}

/// Runs the job of each worker, all except the first in a thread of their own, and returns their results in
/// order.
///
/// They are started by `run_gated`.
pub fn run_workers<R: Threads + Wait + Sync, A: Send + Drop, J: Job<A> + Sync, G: Gate + Sync>(
    rt: &R,
    alloc: Global,
    job: &J,
    gate: &G,
    workers: u32,
) -> Result<Vec<A>, ParError>
    requires { AreReadyBy (G.lets_through gate.now) (J.ready job.now) }
    ensures answers { IfOk result (λ answers. EachGives (J.gives job.now) 0 workers answers.items) }
    // The number is looked at before anything is started.
    ensures bad_workers { IsErrOf result ParError.BadWorkers ↔ IsBadNumber workers }
    // Each worker below the one that was refused has returned.
    ensures stuck { IsErrOf result ParError.Stuck
        → RefusesLowest (J.gives job.now) (G.may_refuse gate.now) 0 workers }
{
    if !are_workers(workers) {
        return Err(ParError::BadWorkers);
    }
    match run_gated(rt, alloc, &GatedJob { job }, gate, (), workers) {
        Ok(answers) => Ok(answers),
        Err(Refusal::NoMemory | Refusal::NoThread | Refusal::Worker(AllocError)) => {
            Err(ParError::NoMemory)
        }
        Err(Refusal::Stuck) => Err(ParError::Stuck),
    }
}

// Tests whether there may be this number of workers.
pub(crate) fn are_workers(workers: u32) -> bool
    ensures { MatchBool result (workers ≢ 0 × workers ≤ 64) (IsBadNumber workers) }
{
    1 <= workers && workers <= 64
}
