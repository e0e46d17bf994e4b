//! The leaves of a span, distributed among workers, and their results put in order again.
ghost use Rattle.std.specs.Prelude.{◌≡◌, ◌<◌, ◌↔◌, List, IfOk, IsErrOf, length};
ghost use Rattle.std.specs.List.{AllZip};
ghost use Rattle.span_core.specs.Each.{EachFrom};
ghost use Rattle.span_core.specs.Shares.{GivesLeaf, IsShare};
ghost use Rattle.span_core.specs.Span.{Interval, AreLeaves};
ghost use Rattle.span_core.specs.Workers.{MayRefuseOne, IsBadNumber};

use crate::errors::ParError;
use crate::gate::Gate;
use crate::span::Span;
use crate::workers::{Job, are_workers, run_workers};
use std::alloc::{AllocError, Global};
use std::collections::VecDeque;
use std::sync::Wait;
use std::thread::Threads;

// What is done with each leaf.
pub(crate) trait LeafJob<A> {
    // When leaves may be asked for.
    ghost ready: { Self → Type 0 };

    // What may be returned for a leaf.
    ghost gives: { Self → Interval → A → Type 0 };

    // Does the work of a leaf.
    fn work_leaf(&self, leaf: Span) -> Result<A, AllocError>
        requires { ready self.now }
        ensures { IfOk result (gives self.now leaf) };
}

// Leaf i is the work of worker i mod the number of workers.
#[derive(Drop)]
struct Shares<'a, L, G> {
    alloc: Global,
    each: &'a L,
    gate: &'a G,
    leaves: &'a [Span],
    workers: u32,
    ghost some: { 0 < workers },
}

impl<'a, A: Drop, L: LeafJob<A>, G: Gate> Job<VecDeque<A>> for Shares<'a, L, G> {
    ghost ready = { λ s worker. L.ready s.each.now × G.lets_through s.gate.now worker };

    ghost gives = { λ s worker share.
        IsShare (GivesLeaf (L.gives s.each.now) s.leaves.now) (length s.leaves.now)
        s.workers worker share.items };

    fn work(&self, worker: u32) -> Result<VecDeque<A>, AllocError> {
        let mut share = VecDeque::new(self.alloc);
        let mut next = worker as usize;
        while next < self.leaves.len() {
            let answer = self.each.work_leaf(self.leaves[next])?;
            if share.push_back(answer).is_err() {
                return Err(AllocError);
            }
            next += self.workers as usize;
        }
        Ok(share)
    }
}

impl<'a, L, G> Shares<'a, L, G> {
    // The results in order of their leaves: each share in turn gives its next.
    fn gather<A: Drop>(&self, mut shares: VecDeque<VecDeque<A>>) -> Result<Vec<A>, AllocError>
    where
        L: LeafJob<A>,
        requires shares { EachFrom (λ worker share.
            IsShare (GivesLeaf (L.gives self.now.each.now) self.now.leaves.now)
            (length self.now.leaves.now) self.now.workers worker share.items) 0 shares.items }
        requires workers { length shares.items ≡ self.now.workers }
        ensures { IfOk result (λ all. AllZip
            (L.gives self.now.each.now) self.now.leaves.now all.items) }
    {
        let mut all = Vec::with_capacity(self.alloc, self.leaves.len())?;
        for _leaf in 0..self.leaves.len() {
            let Some(mut share) = shares.pop_front() else {
                unreachable!()
            };
            let Some(answer) = share.pop_front() else {
                unreachable!()
            };
            all.push(answer).map_err(AllocError::from)?;
            shares.push_back(share).map_err(AllocError::from)?;
        }
        Ok(all)
    }
}

// Does the work of each leaf of the span, and returns the results in order.
pub(crate) fn work_leaves<
    R: Threads + Wait + Sync,
    A: Send + Drop,
    L: LeafJob<A> + Sync,
    G: Gate + Sync,
>(rt: &R, alloc: Global, span: Span, workers: u32, each: &L, gate: &G) -> Result<Vec<A>, ParError>
    requires { L.ready each.now }
    ensures answers { IfOk result (λ all. (leaves : List Interval) × AreLeaves span leaves
        × AllZip (L.gives each.now) leaves all.items) }
    ensures bad_workers { IsErrOf result ParError.BadWorkers ↔ IsBadNumber workers }
    ensures stuck { IsErrOf result ParError.Stuck → MayRefuseOne (G.may_refuse gate.now) 0 workers }
{
    if !are_workers(workers) {
        return Err(ParError::BadWorkers);
    }
    let Ok(leaves) = span.leaves(alloc) else {
        return Err(ParError::NoMemory);
    };
    let job = Shares {
        alloc,
        each,
        gate,
        leaves: leaves.as_slice(),
        workers,
    };
    let shares = run_workers(rt, alloc, &job, gate, workers)?;
    job.gather(VecDeque::from(shares))
        .map_err(|_| ParError::NoMemory)
}
