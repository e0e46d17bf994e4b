//! Workers that walk over a shared vector together, segment by segment.
ghost use Rattle.std.specs.Prelude.{◌≡◌, ◌-◌, ◌^◌, ◌<◌, ◌≤◌, ◌↔◌, IfOk, IsErrOf};
ghost use Rattle.std.specs.Iterator.{at_most};
ghost use Rattle.grow_core.specs.Vector.{limit_of};
ghost use Rattle.span_core.specs.Segments.{WorkerCellsView, GoesOnByPart, IsNextPlace, IsOfWorker, AreOfSegments};
ghost use Rattle.span_core.specs.Workers.{MayRefuseOne, IsBadNumber};

use crate::errors::ParError;
use crate::gate::Gate;
use crate::workers::{Job, are_workers, run_workers};
use grow_core::{Shared, ShownCells};
use std::alloc::{AllocError, Global};
use std::iter::FusedIterator;
use std::marker::Model;
use std::sync::Wait;
use std::thread::Threads;

// How many places next to each other are one worker's.
const STRETCH: u64 = 4096;

/// The places of one worker, in order: an item has those of a stretch of 4,096 places, as far as they are in one
/// segment. Stretch i of the vector is worker i's, modulo their number.
#[derive(Drop)]
pub struct WorkerCells<'a, T> {
    vector: &'a Shared<T>,
    place: u64,
    end: u64,
    worker: u32,
    workers: u32,
}

impl<'a, T> Model for WorkerCells<'a, T> {
    ghost use Rattle.std.specs.Prelude.{◌<◌, ◌≤◌};
    ghost use Rattle.grow_core.specs.Vector.{limit_of};
    ghost use Rattle.span_core.specs.Segments.{WorkerCellsView, worker_cells_coded, IsOfWorker};

    ghost Value = { WorkerCellsView T };

    ghost coded = { worker_cells_coded T.code };

    ghost view = { λ w. record {
      vector = w.vector.now;
      place = w.place;
      end = w.end;
      worker = w.worker;
      workers = w.workers;
    } };

    ghost invariant = { λ w. (0 < w.workers) × (w.end ≤ limit_of w.vector.now)
        × IsOfWorker w.workers w.worker w.place };
}

impl<'a, T> WorkerCells<'a, T> {
    /// Shows a proof whose place the next one is.
    pub fn laws(&self)
        ensures some { 0 < self.now.workers }
        ensures within { self.now.end ≤ limit_of self.now.vector }
        ensures place { IsOfWorker self.now.workers self.now.worker self.now.place }
    {
        // For the proof: reading a field shows the type's invariant.
        let _ = &self.vector;
    }

    /// Returns the number of the worker.
    pub fn worker(&self) -> u32
        ensures { result ≡ self.now.worker }
    {
        self.worker
    }
}

// The next place of a worker, if this is the next one of the vector.
fn next_place(workers: u32, past: u64) -> u64
    requires some { 0 < workers }
    requires fits { past < 2 ^ 63 }
    ensures { IsNextPlace workers past result }
{
    if past % STRETCH == 0 {
        past + (workers as u64 - 1) * STRETCH
    } else {
        past
    }
}

impl<'a, T> Iterator for WorkerCells<'a, T> {
    type Item = ShownCells<'a, T>;

    ghost next_gives = { GoesOnByPart };

    ghost remaining = { λ w. at_most (w.end - w.place) };

    fn next(&mut self) -> Option<ShownCells<'a, T>> {
        let (vector, from) = (self.vector, self.place);
        if from >= self.end {
            return None;
        }
        // For the proof: the limit is that of a vector.
        vector.laws();
        let stretch_end = from / STRETCH * STRETCH + STRETCH;
        let cells = vector.cells(from, stretch_end.min(self.end));
        self.place = next_place(self.workers, from + cells.len());
        Some(cells)
    }
}

impl<'a, T> FusedIterator for WorkerCells<'a, T> {}

// What workers do with their places of a vector.
#[derive(Drop)]
struct SegmentWorkers<'a, T, F> {
    vector: &'a Shared<T>,
    work: &'a F,
    workers: u32,
    end: u64,
    ghost some: { 0 < workers },
    ghost within: { end ≤ limit_of vector.now },
}

impl<'a, T, A, F: Fn(WorkerCells<'_, T>) -> A> Job<A> for SegmentWorkers<'a, T, F> {
    ghost use Rattle.std.specs.Prelude.{◌≡◌};
    ghost use Rattle.span_core.specs.Segments.{WorkerCellsView, cells_of};

    ghost ready = { λ s _. (w : WorkerCellsView T) → w.vector ≡ s.vector.now → F.pre s.work.now w };

    ghost gives = { λ s worker. F.post s.work.now (cells_of s.vector.now s.end s.workers worker) };

    fn work(&self, worker: u32) -> Result<A, AllocError> {
        let cells = WorkerCells {
            vector: self.vector,
            place: worker as u64 * STRETCH,
            end: self.end,
            worker,
            workers: self.workers,
        };
        Ok((self.work)(cells))
    }
}

/// Lets a number of workers walk over what a shared vector shows, all except the first in a thread of their own, and
/// returns their results in order.
///
/// One load finds the size; the places below it are divided into stretches of 4,096, and stretch i is the work of
/// worker i mod the number of workers. Each worker looks at its places when it asks for them, so what others publish
/// meanwhile may be shown. It takes memory for the results.
pub fn par_for_segments<
    R: Threads + Wait + Sync,
    T: Send + Sync,
    A: Send + Drop,
    F: Fn(WorkerCells<'_, T>) -> A + Sync,
    G: Gate + Sync,
>(
    rt: &R,
    alloc: Global,
    vector: &Shared<T>,
    workers: u32,
    work: &F,
    gate: &G,
) -> Result<Vec<A>, ParError>
    requires callable { (w : WorkerCellsView T) → w.vector ≡ vector.now → F.pre work.now w }
    ensures answers { IfOk result (λ answers.
        AreOfSegments (F.post work.now) vector.now workers answers.items) }
    // The number is looked at before anything is started.
    ensures bad_workers { IsErrOf result ParError.BadWorkers ↔ IsBadNumber workers }
    ensures stuck { IsErrOf result ParError.Stuck → MayRefuseOne (G.may_refuse gate.now) 0 workers }
{
    if !are_workers(workers) {
        return Err(ParError::BadWorkers);
    }
    let job = SegmentWorkers {
        vector,
        work,
        workers,
        end: vector.claimed(),
    };
    run_workers(rt, alloc, &job, gate, workers)
}
