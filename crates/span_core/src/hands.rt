//! Workers on one shared vector, each with a hand of its own.
ghost use Rattle.std.specs.Prelude.{◌≡◌, ◌+◌, ◌<◌, [], ◌∷◌, Ok, Err, IfOk, IfErr};
ghost use mathlib.Core.List.{IsPrefix};
ghost use Rattle.grow_core.specs.Vector.{IsHandOf};
ghost use Rattle.span_core.specs.Hands.{AreCallable, HaveAnswered, IsOfHands, KeepHands, Leaves, of_answer};
ghost use Rattle.span_core.specs.Hands.{BringsHand, LeavesHand};

use crate::by_halves::{ForkJoin, fork_join};
use crate::errors::Refusal;
use crate::gate::Gate;
use crate::workers::{join_results, list_answer};
use grow_core::{Hand, Never, Shared};
use std::alloc::Global;
use std::sync::Wait;
use std::thread::Threads;

// What workers do with their hands, and the gate that they pass.
#[derive(Drop)]
struct HandWorkers<'a, T, F, G> {
    alloc: Global,
    vector: &'a Shared<T>,
    work: &'a F,
    gate: &'a G,
    workers: u32,
}

// What a range of workers leaves: one hand, and their results.
#[derive(Drop)]
pub(crate) struct Left<T, A, E> {
    pub(crate) hand: Hand<T>,
    pub(crate) answers: Result<Vec<A>, Refusal<E>>,
}

impl<
    'a,
    T,
    A: Drop,
    E: Drop,
    F: Fn(&Shared<T>, u32, &mut Hand<T>) -> Result<A, E>,
    G: Gate,
> ForkJoin<Hand<T>, Left<T, A, E>, Never> for HandWorkers<'a, T, F, G> {
    ghost use Rattle.std.specs.Prelude.{◌≡◌, ◌+◌, ◌<◌, [], IfOk, IfErr};
    ghost use Rattle.span_core.specs.Hands.{BringsHand, LeavesHand};

    // The hand has a share for each worker.
    ghost brings = { λ c first count hand. BringsHand (F.pre c.work.now) (F.post c.work.now)
        (G.lets_through c.gate.now) c.vector.now c.workers first count hand };

    ghost gives = { λ c first count left. LeavesHand (F.post c.work.now) (G.may_refuse c.gate.now)
        c.vector.now first count left.hand left.answers };

    ghost refuses = { λ _ _ _ _. ⊥ };

    // One worker passes the gate and works.
    fn work(&self, worker: u32, brought: Hand<T>) -> Result<Left<T, A, E>, Never>
        requires { BringsHand (F.pre self.now.work.now) (F.post self.now.work.now)
            (G.lets_through self.now.gate.now) self.now.vector.now self.now.workers
            worker 1 brought }
        ensures answer { IfOk result (λ left. LeavesHand (F.post self.now.work.now)
            (G.may_refuse self.now.gate.now) self.now.vector.now worker 1 left.hand left.answers) }
        ensures refused { IfErr result (λ _. ⊥) }
    {
        let mut hand = brought;
        if !self.gate.before(worker) {
            self.gate.after(worker);
            let answers = Err(Refusal::Stuck);
            return Ok(Left { hand, answers });
        }
        let answer = (self.work)(self.vector, worker, &mut hand);
        self.gate.after(worker);
        let answers = list_result(self.alloc, answer);
        Ok(Left { hand, answers })
    }

    fn cut(&self, brought: Hand<T>, first: u32, low: u32, high: u32) -> (Hand<T>, Hand<T>)
        requires { (BringsHand (F.pre self.now.work.now) (F.post self.now.work.now)
            (G.lets_through self.now.gate.now) self.now.vector.now self.now.workers
            first (low + high) brought) × (0 < low) × (0 < high) }
        ensures lower { BringsHand (F.pre self.now.work.now) (F.post self.now.work.now)
            (G.lets_through self.now.gate.now) self.now.vector.now self.now.workers
            first low result.0 }
        ensures upper { BringsHand (F.pre self.now.work.now) (F.post self.now.work.now)
            (G.lets_through self.now.gate.now) self.now.vector.now self.now.workers
            (first + low) high result.1 }
    {
        // Only the contract speaks of the first worker.
        let _first = first;
        let mut lower = brought;
        let upper = self.vector.split(&mut lower, high);
        (lower, upper)
    }

    fn join_halves(
        &self,
        first: u32,
        low: u32,
        high: u32,
        lower: Result<Left<T, A, E>, Never>,
        upper: Result<Left<T, A, E>, Never>,
    ) -> Result<Left<T, A, E>, Never>
        requires lower { IfOk lower (λ left. LeavesHand (F.post self.now.work.now)
            (G.may_refuse self.now.gate.now) self.now.vector.now first low left.hand left.answers)
            × IfErr lower (λ _. ⊥) }
        requires upper { IfOk upper (λ left. LeavesHand (F.post self.now.work.now)
            (G.may_refuse self.now.gate.now) self.now.vector.now
            (first + low) high left.hand left.answers)
            × IfErr upper (λ _. ⊥) }
        ensures answer { IfOk result (λ left. LeavesHand (F.post self.now.work.now)
            (G.may_refuse self.now.gate.now) self.now.vector.now
            first (low + high) left.hand left.answers) }
        ensures refused { IfErr result (λ _. ⊥) }
    {
        let Left { mut hand, answers } = left_by(lower);
        let Left {
            hand: other,
            answers: more,
        } = left_by(upper);
        self.vector.join(&mut hand, other);
        let answers = join_results(answers, more);
        Ok(Left { hand, answers })
    }

    // The hand comes back as it was.
    fn unstarted(&self, brought: Hand<T>, _first: u32, _count: u32) -> Result<Left<T, A, E>, Never>
        requires { (BringsHand (F.pre self.now.work.now) (F.post self.now.work.now)
            (G.lets_through self.now.gate.now) self.now.vector.now self.now.workers
            _first _count brought) × (0 < _count) }
        ensures answer { IfOk result (λ left. LeavesHand (F.post self.now.work.now)
            (G.may_refuse self.now.gate.now) self.now.vector.now
            _first _count left.hand left.answers) }
        ensures refused { IfErr result (λ _. ⊥) }
    {
        let answers = Err(Refusal::NoMemory);
        Ok(Left {
            hand: brought,
            answers,
        })
    }
}

// What a range of workers leaves. It is never refused.
pub(crate) fn left_by<T, A, E>(left: Result<Left<T, A, E>, Never>) -> Left<T, A, E>
    ensures { left ≡ Ok result }
{
    match left {
        Ok(given) => given,
        Err(never) => match never {},
    }
}

// The result of one worker as that of a range.
pub(crate) fn list_result<A: Drop, E>(
    alloc: Global,
    answer: Result<A, E>,
) -> Result<Vec<A>, Refusal<E>>
    ensures answer { (a : A) → answer ≡ Ok a → IfOk result (λ all. all.items ≡ a ∷ []) }
    ensures memory { (a : A) → answer ≡ Ok a → IfErr result (λ e. e ≡ Refusal.NoMemory) }
    ensures refused { (e : E) → answer ≡ Err e → result ≡ Err (Refusal.Worker e) }
{
    match answer {
        Ok(answer) => list_answer(alloc, answer),
        Err(error) => Err(Refusal::Worker(error)),
    }
}

/// Lets workers append to one vector, all except the first in a thread of their own, and returns their results
/// in order, or the refusal of the worker with the lowest number. Each borrows a hand with one of the shares of
/// `hand`, and passes the gate before its work and after it. All hands are joined again, whatever the workers
/// return and also if a thread cannot be started. `fork_join` starts the workers.
pub fn with_hands<
    R: Threads + Wait + Sync,
    T: Send + Sync,
    A: Send + Drop,
    E: Send + Drop,
    F: Fn(&Shared<T>, u32, &mut Hand<T>) -> Result<A, E> + Sync,
    G: Gate + Sync,
>(
    rt: &R,
    alloc: Global,
    vector: &Shared<T>,
    hand: &mut Hand<T>,
    workers: u32,
    work: &F,
    gate: &G,
) -> Result<Vec<A>, Refusal<E>>
    requires ours { IsHandOf vector.now hand.old }
    requires some { 0 < workers }
    // The hand keeps one share itself.
    requires fewer { workers < hand.old.shares }
    requires callable { AreCallable (F.pre work.now) (G.lets_through gate.now) vector.now workers }
    requires keeps { KeepHands (F.post work.now) vector.now workers }
    ensures of { hand.new.of ≡ hand.old.of }
    ensures shares { hand.new.shares ≡ hand.old.shares }
    ensures begins { IsPrefix hand.old.seen hand.new.seen }
    // Its history goes on, and has that of each worker's hand.
    ensures begins_log { IsPrefix hand.old.log hand.new.log }
    ensures mine { IsPrefix hand.old.mine hand.new.mine }
    ensures answers { IfOk result (λ answers. HaveAnswered
        (of_answer (Leaves (F.post work.now) vector.now)) hand.old hand.new workers answers.items) }
    // Each worker below the one that was refused has returned.
    ensures refused { IfErr result (IsOfHands (Leaves (F.post work.now) vector.now) hand.new
        (G.may_refuse gate.now) 0 workers) }
{
    let theirs = vector.split(hand, workers);
    let Left { hand: own, answers } = share_hand(rt, alloc, vector, theirs, workers, work, gate);
    vector.join(hand, own);
    answers
}

// Shares a hand among all workers, and returns one that has their shares and runs, with their results.
fn share_hand<
    R: Threads + Wait + Sync,
    T: Send + Sync,
    A: Send + Drop,
    E: Send + Drop,
    F: Fn(&Shared<T>, u32, &mut Hand<T>) -> Result<A, E> + Sync,
    G: Gate + Sync,
>(
    rt: &R,
    alloc: Global,
    vector: &Shared<T>,
    hand: Hand<T>,
    workers: u32,
    work: &F,
    gate: &G,
) -> Left<T, A, E>
    requires some { 0 < workers }
    requires brings { BringsHand (F.pre work.now) (F.post work.now) (G.lets_through gate.now)
        vector.now workers 0 workers hand }
    ensures { LeavesHand (F.post work.now) (G.may_refuse gate.now)
        vector.now 0 workers result.hand result.answers }
{
    let job = HandWorkers {
        alloc,
        vector,
        work,
        gate,
        workers,
    };
    match fork_join(rt, &job, hand, 0, workers) {
        Ok(left) => left,
        Err(never) => match never {},
    }
}
