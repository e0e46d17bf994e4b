//! The fold of a function's results for each member of a span, by several workers.
ghost use Rattle.std.specs.Prelude.{◌≤◌, ◌+◌, ◌<◌, ◌^◌, ◌↔◌, Some, List, length, IfOk, IsErrOf};
ghost use Rattle.std.specs.List.{AllZip};
ghost use Rattle.span_core.specs.Loops.{AnswersAt, FoldsOver, Merges, SumsUpTo};
ghost use Rattle.span_core.specs.Span.{Interval, AreLeaves};
ghost use Rattle.span_core.specs.Workers.{MayRefuseOne, IsBadNumber};

use crate::errors::ParError;
use crate::gate::Gate;
use crate::leaf_shares::{LeafJob, work_leaves};
use crate::map::call_on_next;
use crate::span::Span;
use quiet_core::Quiet;
use std::alloc::{AllocError, Global};
use std::sync::Wait;
use std::thread::Threads;

/// Types with a fact that holds for each of their values, such as that a number fits its type.
pub trait Domain {
    ghost is_in: { Self → Type 0 };

    /// Shows a proof that this value is one of the domain. It does nothing.
    fn tell(&self)
        ensures { is_in self.now };
}

impl Domain for u64 {
    ghost is_in = { λ n. n < 2 ^ 64 };

    fn tell(&self) {
        // For the proof: a value that is read is in its type's range.
        let _value: u64 = *self;
    }
}

impl Domain for u8 {
    ghost is_in = { λ n. n < 2 ^ 8 };

    fn tell(&self) {
        // For the proof: a value that is read is in its type's range.
        let _value: u8 = *self;
    }
}

impl Domain for u16 {
    ghost is_in = { λ n. n < 2 ^ 16 };

    fn tell(&self) {
        // For the proof: a value that is read is in its type's range.
        let _value: u16 = *self;
    }
}

impl Domain for u32 {
    ghost is_in = { λ n. n < 2 ^ 32 };

    fn tell(&self) {
        // For the proof: a value that is read is in its type's range.
        let _value: u32 = *self;
    }
}

impl Domain for u128 {
    ghost is_in = { λ n. n < 2 ^ 128 };

    fn tell(&self) {
        // For the proof: a value that is read is in its type's range.
        let _value: u128 = *self;
    }
}

impl Domain for usize {
    ghost is_in = { λ n. n < 2 ^ 64 };

    fn tell(&self) {
        // For the proof: a value that is read is in its type's range.
        let _value: usize = *self;
    }
}

impl<A: Domain, B: Domain> Domain for (A, B) {
    ghost is_in = { λ (a, b). A.is_in a × B.is_in b };

    fn tell(&self) {
        self.0.tell();
        self.1.tell();
    }
}

// Joins two sums, if there are two.
fn merge<U: Domain, J: Fn(U, U) -> U>(join: &J, sum: Option<U>, part: Option<U>) -> Option<U>
    requires { J.IsAlwaysCallable join.now }
    ensures { Merges (J.post join.now) U.is_in sum part result }
{
    match sum {
        None => part,
        Some(a) => match part {
            None => Some(a),
            Some(b) => {
                let made = join(a, b);
                made.tell();
                Some(made)
            }
        },
    }
}

// The sum of the results for a leaf.
#[derive(Drop)]
struct ReduceLeaf<'a, T, F, J> {
    list: &'a Quiet<T>,
    f: &'a F,
    join: &'a J,
}

impl<'a, T, U: Domain + Drop, F: Fn(u64, Option<&T>) -> U, J: Fn(U, U) -> U> LeafJob<Option<U>>
    for ReduceLeaf<'a, T, F, J> {
    ghost ready = { λ r. F.IsAlwaysCallable r.f.now × J.IsAlwaysCallable r.join.now };

    ghost gives = { λ r leaf sum.
        SumsUpTo (J.post r.join.now) U.is_in (AnswersAt (F.post r.f.now) r.list.now.members)
        leaf.from leaf.to sum };

    fn work_leaf(&self, leaf: Span) -> Result<Option<U>, AllocError> {
        let mut sum = None;
        let mut members = self.list.range(leaf.from(), leaf.to());
        for place in leaf.from()..leaf.to() {
            let answer = call_on_next(self.f, place, &mut members);
            answer.tell();
            sum = merge(self.join, sum, Some(answer));
        }
        Ok(sum)
    }
}

impl<'a, T, F, J> ReduceLeaf<'a, T, F, J> {
    // Joins the sums of all leaves, in order.
    fn add_up<U: Domain + Drop>(&self, span: Span, parts: Vec<Option<U>>) -> Option<U>
    where
        F: Fn(u64, Option<&T>) -> U,
        J: Fn(U, U) -> U,
        requires callable { J.IsAlwaysCallable self.now.join.now }
        requires parts { (leaves : List Interval) × AreLeaves span leaves
            × AllZip (λ leaf sum. SumsUpTo (J.post self.now.join.now) U.is_in
            (AnswersAt (F.post self.now.f.now) self.now.list.now.members) leaf.from leaf.to sum)
            leaves parts.items }
        ensures { SumsUpTo (J.post self.now.join.now) U.is_in
            (AnswersAt (F.post self.now.f.now) self.now.list.now.members) span.from span.to result }
    {
        let mut sum = None;
        for part in parts {
            sum = merge(self.join, sum, part);
        }
        sum
    }
}

/// Folds the results of `f` for the places of a span and their members by `join`, from `unit`, by a number of
/// workers.
///
/// A member is `None` if it is broken. Each leaf has a sum of its own, and these are joined in order, so the
/// result is that of a single thread if `join` may be grouped in any way. Its work is linear in the places,
/// and it takes memory for the leaves.
pub fn par_reduce<
    R: Threads + Wait + Sync,
    T: Send + Sync,
    U: Domain + Send + Drop,
    F: Fn(u64, Option<&T>) -> U + Sync,
    J: Fn(U, U) -> U + Sync,
    G: Gate + Sync,
>(
    rt: &R,
    alloc: Global,
    list: &Quiet<T>,
    span: Span,
    workers: u32,
    f: F,
    unit: U,
    join: J,
    gate: &G,
) -> Result<U, ParError>
    requires callable { F.IsAlwaysCallable f × J.IsAlwaysCallable join }
    requires inside { span.to ≤ length list.now.members }
    ensures fold { IfOk result (λ sum. FoldsOver (F.post f) (J.post join) U.is_in
        list.now.members span unit sum) }
    // The number is looked at before anything is started.
    ensures bad_workers { IsErrOf result ParError.BadWorkers ↔ IsBadNumber workers }
    ensures stuck { IsErrOf result ParError.Stuck → MayRefuseOne (G.may_refuse gate.now) 0 workers }
{
    let each = ReduceLeaf {
        list,
        f: &f,
        join: &join,
    };
    let parts = work_leaves(rt, alloc, span, workers, &each, gate)?;
    match each.add_up(span, parts) {
        Some(sum) => Ok(sum),
        None => Ok(unit),
    }
}
