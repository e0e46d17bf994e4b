//! Workers that append to one shared vector, each by a writer of its own.
ghost use Rattle.std.specs.Prelude.{◌≡◌, ◌+◌, ◌*◌, ◌<◌, IfOk, IfErr};
ghost use mathlib.Core.List.{IsPrefix};
ghost use Rattle.grow_core.specs.Vector.{IsHandOf};
ghost use Rattle.span_core.specs.Crew.{BringsParts, HaveWritten, IsOfWriters, LeavesPart, LeavesParts};

use crate::by_halves::{ForkJoin, fork_join};
use crate::crew::Crew;
use crate::errors::Refusal;
use crate::gate::Gate;
use crate::hands::{Left, left_by, list_result};
use crate::tie::Tie;
use crate::workers::join_results;
use crate::writer::Writer;
use grow_core::{Hand, Never, Shared};
use std::alloc::Global;
use std::marker::{Brand, PhantomData};
use std::sync::Wait;
use std::thread::Threads;

/// The work of each worker that `with_writers` lends a writer.
///
/// It is a trait and no closure, since only a method can be generic in `B`. `B` says that the writer is always of
/// the same vector, so that no clause has to.
pub trait WriterJob<T, A, E> {
    ghost use Rattle.std.specs.Prelude.{ℕ, Result, ⊤};
    ghost use Rattle.claim_core.specs.Hand.{HandView};
    ghost use Rattle.grow_core.specs.Vector.{VectorView};

    /// What a worker may return, by the hand that its writer had and the one that it then has. Work that states
    /// nothing may return anything.
    ghost says: { Self → VectorView T → ℕ → HandView → HandView → Result A E → Type 0 } = { λ _ _ _ _ _ _. ⊤ };

    /// Does the work of one worker.
    fn work<B: Tie>(&self, writer: &mut Writer<'_, T, B>, worker: u32) -> Result<A, E>
        ensures { says self.now writer.old.vector worker writer.old.hand writer.new.hand result };
}

// What workers do with their writers, and what they pass before.
#[derive(Drop)]
struct WriterWorkers<'a, R, T, W, G, J> {
    rt: &'a R,
    alloc: Global,
    vector: &'a Shared<T>,
    work: &'a W,
    gate: &'a G,
    crew: &'a Crew,
    // The shares that each worker gets.
    shares: u32,
    tie: PhantomData<J>,
}

impl<'a, R: Wait, T, A: Drop, E: Drop, W: WriterJob<T, A, E>, G: Gate, J: Tie> ForkJoin<
    Hand<T>,
    Left<T, A, E>,
    Never,
> for WriterWorkers<'a, R, T, W, G, J> {
    ghost use Rattle.std.specs.Prelude.{◌+◌, ◌<◌, IfOk, IfErr};
    ghost use Rattle.span_core.specs.Crew.{BringsParts, LeavesParts};

    ghost brings = { λ c _ count hand. BringsParts J.tied c.vector.now c.shares count hand };

    ghost gives = { λ c first count left. LeavesParts (W.says c.work.now) (G.may_refuse c.gate.now)
        c.vector.now c.shares first count left.hand left.answers };

    ghost refuses = { λ _ _ _ _. ⊥ };

    // One worker waits for the others to come, passes the gate, and works.
    fn work(&self, worker: u32, brought: Hand<T>) -> Result<Left<T, A, E>, Never>
        requires { BringsParts J.tied self.now.vector.now self.now.shares 1 brought }
        ensures answer { IfOk result (λ left. LeavesParts (W.says self.now.work.now)
            (G.may_refuse self.now.gate.now) self.now.vector.now self.now.shares
            worker 1 left.hand left.answers) }
        ensures refused { IfErr result (λ _. ⊥) }
    {
        if !self.crew.begins(self.rt) {
            let answers = Err(Refusal::NoThread);
            return Ok(Left {
                hand: brought,
                answers,
            });
        }
        if !self.gate.before(worker) {
            self.gate.after(worker);
            let answers = Err(Refusal::Stuck);
            return Ok(Left {
                hand: brought,
                answers,
            });
        }
        let (hand, answer) = self.lend(worker, brought);
        self.gate.after(worker);
        // For the proof: a hand has a share.
        hand.laws();
        let answers = list_result(self.alloc, answer);
        Ok(Left { hand, answers })
    }

    fn cut(&self, brought: Hand<T>, first: u32, low: u32, high: u32) -> (Hand<T>, Hand<T>)
        requires { (BringsParts J.tied self.now.vector.now self.now.shares (low + high) brought)
            × (0 < low) × (0 < high) }
        ensures lower { BringsParts J.tied self.now.vector.now self.now.shares low result.0 }
        ensures upper { BringsParts J.tied self.now.vector.now self.now.shares high result.1 }
    {
        // Only the contract speaks of the first worker.
        let _first = first;
        // For the proof: no hand has more shares than there are.
        brought.laws();
        let mut lower = brought;
        let upper = self.vector.split(&mut lower, high * self.shares);
        (lower, upper)
    }

    fn join_halves(
        &self,
        first: u32,
        low: u32,
        high: u32,
        lower: Result<Left<T, A, E>, Never>,
        upper: Result<Left<T, A, E>, Never>,
    ) -> Result<Left<T, A, E>, Never>
        requires lower { IfOk lower (λ left. LeavesParts (W.says self.now.work.now)
            (G.may_refuse self.now.gate.now) self.now.vector.now self.now.shares
            first low left.hand left.answers) × IfErr lower (λ _. ⊥) }
        requires upper { IfOk upper (λ left. LeavesParts (W.says self.now.work.now)
            (G.may_refuse self.now.gate.now) self.now.vector.now self.now.shares
            (first + low) high left.hand left.answers) × IfErr upper (λ _. ⊥) }
        ensures answer { IfOk result (λ left. LeavesParts (W.says self.now.work.now)
            (G.may_refuse self.now.gate.now) self.now.vector.now self.now.shares
            first (low + high) left.hand left.answers) }
        ensures refused { IfErr result (λ _. ⊥) }
    {
        let Left { mut hand, answers } = left_by(lower);
        let Left {
            hand: other,
            answers: more,
        } = left_by(upper);
        self.vector.join(&mut hand, other);
        let answers = join_results(answers, more);
        Ok(Left { hand, answers })
    }

    // The hand comes back as it was, and nobody of the whole crew works.
    fn unstarted(&self, brought: Hand<T>, _first: u32, _count: u32) -> Result<Left<T, A, E>, Never>
        requires { (BringsParts J.tied self.now.vector.now self.now.shares _count brought)
            × (0 < _count) }
        ensures answer { IfOk result (λ left. LeavesParts (W.says self.now.work.now)
            (G.may_refuse self.now.gate.now) self.now.vector.now self.now.shares
            _first _count left.hand left.answers) }
        ensures refused { IfErr result (λ _. ⊥) }
    {
        self.crew.fail();
        let answers = Err(Refusal::NoThread);
        Ok(Left {
            hand: brought,
            answers,
        })
    }
}

impl<'a, R, T, W, G, J: Tie> WriterWorkers<'a, R, T, W, G, J> {
    // Lends a worker a writer of its hand. Returns the hand that the writer then has, with the result.
    fn lend<A, E>(&self, worker: u32, brought: Hand<T>) -> (Hand<T>, Result<A, E>)
    where
        W: WriterJob<T, A, E>,
        requires { BringsParts J.tied self.now.vector.now self.now.shares 1 brought }
        ensures of { result.0.of ≡ self.now.vector.now.word }
        ensures says { LeavesPart (W.says self.now.work.now) self.now.vector.now self.now.shares
            worker result.0 result.1 }
    {
        let mut writer: Writer<'_, T, J> = Writer::tied(self.vector, brought);
        let answer = self.work.work(&mut writer, worker);
        (writer.into_hand(), answer)
    }
}

/// Lets workers append to one vector, all except the first in a thread of their own, and returns their results
/// in order, or the refusal of the lowest. Each borrows a writer with an equal part of the shares of `hand`. All
/// hands are joined again, so `hand` lacks only shares that a worker gave away or dropped (`Quiet::try_close`
/// tests that). No worker begins before all threads have been started, so a worker may wait for any other one;
/// if a thread cannot be started, nobody passes the gate or works, and the refusal is `NoThread`.
pub fn with_writers<
    R: Threads + Wait + Sync,
    T: Send + Sync,
    A: Send + Drop,
    E: Send + Drop,
    W: WriterJob<T, A, E> + Sync,
    G: Gate + Sync,
>(
    rt: &R,
    alloc: Global,
    vector: &Shared<T>,
    hand: &mut Hand<T>,
    workers: u32,
    work: &W,
    gate: &G,
) -> Result<Vec<A>, Refusal<E>>
    requires ours { IsHandOf vector.now hand.old }
    requires some { 0 < workers }
    // The hand keeps a part itself.
    requires fewer { workers < hand.old.shares }
    ensures of { hand.new.of ≡ hand.old.of }
    // So the same number of workers may come again. Nothing else is known of its shares.
    ensures again { workers < hand.new.shares }
    ensures begins { IsPrefix hand.old.seen hand.new.seen }
    // Its history goes on, and has that of each worker's hand.
    ensures begins_log { IsPrefix hand.old.log hand.new.log }
    ensures mine { IsPrefix hand.old.mine hand.new.mine }
    ensures answers { IfOk result (λ answers.
        HaveWritten (W.says work.now) vector.now hand.old hand.new workers answers.items) }
    ensures refused { IfErr result (IsOfWriters (W.says work.now) vector.now hand.old hand.new
        (G.may_refuse gate.now) workers) }
{
    // For the proof: no hand has more shares than there are.
    hand.laws();
    let shares = hand.share() / (workers + 1);
    let theirs = vector.split(hand, workers * shares);
    let Left { hand: own, answers } = lend_parts::<Brand, R, T, A, E, W, G>(
        rt, alloc, vector, theirs, shares, workers, work, gate,
    );
    vector.join(hand, own);
    answers
}

// Lends each worker a part of a hand, and returns one hand of all that they leave, with their results.
fn lend_parts<
    J: Tie + Sync,
    R: Threads + Wait + Sync,
    T: Send + Sync,
    A: Send + Drop,
    E: Send + Drop,
    W: WriterJob<T, A, E> + Sync,
    G: Gate + Sync,
>(
    rt: &R,
    alloc: Global,
    vector: &Shared<T>,
    hand: Hand<T>,
    shares: u32,
    workers: u32,
    work: &W,
    gate: &G,
) -> Left<T, A, E>
    requires some { 0 < workers }
    requires brings { BringsParts J.tied vector.now shares workers hand }
    ensures { LeavesParts (W.says work.now) (G.may_refuse gate.now)
        vector.now shares 0 workers result.hand result.answers }
{
    let crew = Crew::new(workers);
    let job: WriterWorkers<'_, R, T, W, G, J> = WriterWorkers {
        rt,
        alloc,
        vector,
        work,
        gate,
        crew: &crew,
        shares,
        tie: PhantomData,
    };
    match fork_join(rt, &job, hand, 0, workers) {
        Ok(left) => left,
        Err(never) => match never {},
    }
}
