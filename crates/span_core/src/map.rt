//! The results of a function for each member of a span, by several workers.
ghost use Rattle.std.specs.Prelude.{◌≡◌, ◌≤◌, ◌↔◌, None, List, length, drop, slice_index_or, IfOk, IsErrOf};
ghost use Rattle.std.specs.Option.{option_copied};
ghost use Rattle.std.specs.List.{AllZip};
ghost use Rattle.span_core.specs.Loops.{AnswersFirst, AnswersOver};
ghost use Rattle.span_core.specs.Span.{Interval, AreLeaves};
ghost use Rattle.span_core.specs.Workers.{MayRefuseOne, IsBadNumber};

use crate::errors::ParError;
use crate::gate::Gate;
use crate::leaf_shares::{LeafJob, work_leaves};
use crate::span::Span;
use quiet_core::{Members, Quiet};
use std::alloc::{AllocError, Global};
use std::sync::Wait;
use std::thread::Threads;

// Calls a function for each member of a leaf.
#[derive(Drop)]
struct MapLeaf<'a, T, F> {
    alloc: Global,
    list: &'a Quiet<T>,
    f: &'a F,
}

impl<'a, T, U: Drop, F: Fn(u64, Option<&T>) -> U> LeafJob<Vec<U>> for MapLeaf<'a, T, F> {
    ghost ready = { λ m. F.IsAlwaysCallable m.f.now };

    ghost gives = { λ m leaf answers. AnswersOver
        (F.post m.f.now) m.list.now.members leaf answers.items };

    fn work_leaf(&self, leaf: Span) -> Result<Vec<U>, AllocError> {
        let mut answers = Vec::new(self.alloc);
        let mut members = self.list.range(leaf.from(), leaf.to());
        for place in leaf.from()..leaf.to() {
            let answer = call_on_next(self.f, place, &mut members);
            answers.push(answer).map_err(AllocError::from)?;
        }
        Ok(answers)
    }
}

// Calls a function for a place, with the first of the members that are left.
pub(crate) fn call_on_next<T, U, F: Fn(u64, Option<&T>) -> U>(
    f: &F,
    place: u64,
    members: &mut Members<'_, T>,
) -> U
    requires { F.IsAlwaysCallable f.now }
    ensures answer { AnswersFirst (F.post f.now) members.old place result }
    ensures rest { members.new ≡ drop 1 members.old }
{
    f(place, take_first(members))
}

// Takes the first of the members that are left: its value, or `None` if it is broken or if there is none.
fn take_first<'a, T>(members: &mut Members<'a, T>) -> Option<&'a T>
    ensures first { option_copied result ≡ slice_index_or members.old 0 None }
    ensures rest { members.new ≡ drop 1 members.old }
{
    match members.next() {
        Some(first) => first,
        None => None,
    }
}

impl<'a, T, F> MapLeaf<'a, T, F> {
    // Puts the results for all leaves into one list.
    fn flatten<U: Drop>(&self, span: Span, parts: Vec<Vec<U>>) -> Result<Vec<U>, AllocError>
    where
        F: Fn(u64, Option<&T>) -> U,
        requires { (leaves : List Interval) × AreLeaves span leaves
            × AllZip (λ leaf part.
            AnswersOver (F.post self.now.f.now) self.now.list.now.members leaf part.items)
            leaves parts.items }
        ensures { IfOk result (λ all.
            AnswersOver (F.post self.now.f.now) self.now.list.now.members span all.items) }
    {
        let mut all = Vec::with_capacity(self.alloc, span.size() as usize)?;
        for mut part in parts {
            all.append(&mut part)?;
        }
        Ok(all)
    }
}

/// Calls `f` for the places of a span and their members, by a number of workers, and returns the results in
/// order of place.
///
/// A member is `None` if it is broken. Leaf i of the span is the work of worker i mod the number of workers.
/// The results are those of a single thread. Its work is linear in the places; it takes memory for the leaves
/// and, twice, for the results.
pub fn par_map<
    R: Threads + Wait + Sync,
    T: Send + Sync,
    U: Send + Drop,
    F: Fn(u64, Option<&T>) -> U + Sync,
    G: Gate + Sync,
>(
    rt: &R,
    alloc: Global,
    list: &Quiet<T>,
    span: Span,
    workers: u32,
    f: F,
    gate: &G,
) -> Result<Vec<U>, ParError>
    requires callable { F.IsAlwaysCallable f }
    requires inside { span.to ≤ length list.now.members }
    ensures answers { IfOk result (λ all.
        AnswersOver (F.post f) list.now.members span all.items) }
    // The number is looked at before anything is started.
    ensures bad_workers { IsErrOf result ParError.BadWorkers ↔ IsBadNumber workers }
    ensures stuck { IsErrOf result ParError.Stuck → MayRefuseOne (G.may_refuse gate.now) 0 workers }
{
    let each = MapLeaf { alloc, list, f: &f };
    let parts = work_leaves(rt, alloc, span, workers, &each, gate)?;
    each.flatten(span, parts).map_err(|_| ParError::NoMemory)
}
