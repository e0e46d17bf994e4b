// Runs: cells next to each other, whose states are in one word, that one call begins and fills together.
ghost use Rattle.std.specs.Prelude.{◌≡◌, ◌+◌, ◌-◌, ◌%◌, ◌<◌, ◌≤◌, ◌++◌, ◌∷◌, ◌⊎◌, [], length, IfSome};
ghost use Rattle.cell_core.specs.Block.{block_len};
ghost use Rattle.cell_core.specs.Laid.{word_cells};
ghost use Rattle.cell_core.specs.Run.{IsRunPenAt, PartsFirst, cells_from, members_of};
ghost use Rattle.cell_core.specs.Slot.{ArePlain};

use crate::block::fields::{WORD_CELLS, are_empty, in_fields, word_of};
use crate::block::pen::Pen;
use crate::block::{Block, Kind, Plain, Row};
use crate::slot::run::RawRun;
use crate::slot::steps::{BUSY, FILLED};
use std::alloc::Allocator;
use std::marker::{Model, PhantomData};

/// The right to fill the cells of a run, which are busy until then. A run must be spent: by `publish`, once each of its
/// cells has its value, or cell by cell, by `first`. The run of a tied block is published by `publish_for`.
pub struct RunPen<'a, T, B: Kind = Plain> {
    pub(crate) offset: u64,
    pub(crate) n: u64,
    pub(crate) written: u64,
    pub(crate) run: RawRun<'a, T>,
    pub(crate) marker: PhantomData<B>,
}

impl<'a, T, B: Kind> Model for RunPen<'a, T, B> {
    ghost use Rattle.std.specs.Prelude.{◌≡◌, ◌+◌, ◌%◌, ◌<◌, ◌≤◌, length};
    ghost use Rattle.cell_core.specs.Laid.{word_cells};
    ghost use Rattle.cell_core.specs.Run.{AreRunOfKind, RunView, run_coded};

    ghost Value = { RunView T };

    ghost coded = { run_coded T.code };

    ghost view = { λ p. record { offset = p.offset; cells = p.run.of; values = p.run.values } };

    ghost invariant = { λ p. (p.run.found ≡ p.run.sought) × (p.run.index ≡ p.offset % word_cells)
        × (length p.run.of ≡ p.n) × (length p.run.values ≡ p.written) × (0 < p.n)
        × (p.offset % word_cells + p.n ≤ word_cells) × AreRunOfKind B.tied p.run.of
        × (p.run.first ≡ B.first) };
}

impl<T, A: Allocator, B: Kind> Block<T, A, B> {
    /// Returns how many cells a run from an offset on can have: these, up to the end of the block, whose states are in
    /// one word.
    pub fn longest_run(&self, offset: u64) -> u64
        requires { offset < block_len self.now }
        ensures some { 0 < result }
        ensures within { offset + result ≤ block_len self.now }
        ensures word { offset % word_cells + result ≤ word_cells }
        ensures most { (offset + result ≡ block_len self.now)
            ⊎ ((offset + result) % word_cells ≡ 0) }
    {
        (WORD_CELLS - offset % WORD_CELLS).min(self.len - offset)
    }

    /// Returns how many of `n` cells from an offset on have their states in one word with the last of them.
    pub fn last_run(&self, offset: u64, n: u64) -> u64
        requires some { 0 < n }
        requires within { offset + n ≤ block_len self.now }
        ensures some { 0 < result }
        ensures few { result ≤ n }
        ensures word { (offset + n - result) % word_cells + result ≤ word_cells }
        ensures most { (result ≡ n) ⊎ ((offset + n - result) % word_cells ≡ 0) }
    {
        // For the proof: reading a field shows the type's invariant, and so that the sum fits.
        let _len = self.len;
        ((offset + n - 1) % WORD_CELLS + 1).min(n)
    }
}

impl<T, A: Allocator> Block<T, A> {
    /// Begins `n` cells from an offset on, whose states are in one word, by one step. Returns `None`, and begins none,
    /// if one of them is not empty, or if another call changed the word meanwhile.
    #[inline(always)]
    pub fn begin_run(&self, offset: u64, n: u64) -> Option<RunPen<'_, T>>
        requires within { offset + n ≤ block_len self.now }
        requires some { 0 < n }
        requires word { offset % word_cells + n ≤ word_cells }
        ensures { IfSome result (IsRunPenAt self.now offset n) }
    {
        self.kind_laws();
        self.begin_run_plain(offset, n)
    }
}

impl<T, A: Allocator, B: Kind> Block<T, A, B> {
    /// Begins `n` cells like `begin_run`. They are not tied, though others of the block may be.
    #[tactic(auto, using(crate::proofs::RunParts::from_length))]
    pub fn begin_run_plain(&self, offset: u64, n: u64) -> Option<RunPen<'_, T>>
        requires within { offset + n ≤ block_len self.now }
        requires some { 0 < n }
        requires word { offset % word_cells + n ≤ word_cells }
        requires plain { ArePlain (cells_from n offset self.now.cells) }
        ensures { IfSome result (IsRunPenAt self.now offset n) }
    {
        let (word, sight) = self.cell(offset).sight();
        sight.unused();
        if !are_empty(word, n, offset) {
            return None;
        }
        let begun = word.wrapping_add(in_fields(BUSY, n, offset));
        let (found, run) = self
            .laid
            .cells(self.link, word_of(offset), offset as usize, n as usize)
            .begin(word, begun);
        if found == word {
            Some(RunPen {
                offset,
                n,
                written: 0,
                run,
                marker: PhantomData,
            })
        } else {
            run.unused();
            None
        }
    }
}

impl<'a, T, B: Kind> RunPen<'a, T, B> {
    /// Returns how many cells the run has.
    pub fn len(&self) -> u64
        ensures { result ≡ length self.now.cells }
    {
        self.n
    }

    /// Writes the value of the first cell that has none yet. Nobody sees it before `publish`.
    pub fn write(self, value: T) -> RunPen<'a, T, B>
        requires { length self.values < length self.cells }
        ensures offset { result.offset ≡ self.entry.offset }
        ensures cells { result.cells ≡ self.entry.cells }
        ensures values { result.values ≡ self.entry.values ++ value ∷ [] }
    {
        let RunPen {
            offset,
            n,
            written,
            run,
            marker,
        } = self;
        let run = run.write(value, written as usize);
        RunPen {
            offset,
            n,
            written: written + 1,
            run,
            marker,
        }
    }

    /// Parts the first cell from those after it: returns its pen, and the run of the others, if there are any. No cell
    /// may have a value yet. It takes no step.
    #[tactic(auto, using(crate::proofs::PlainCells::run_first, crate::proofs::PlainCells::run_others))]
    pub fn first(self) -> (Pen<'a, T, B>, Option<RunPen<'a, T, B>>)
        requires { self.values ≡ [] }
        ensures { PartsFirst self.entry result.0 result.1 }
    {
        let RunPen {
            offset,
            n,
            written: _,
            run,
            marker: _,
        } = self;
        let (pen, others) = run.first();
        let pen = Pen {
            offset,
            pen,
            marker: PhantomData,
        };
        if n == 1 {
            others.end();
            return (pen, None);
        }
        let rest = RunPen {
            offset: offset + 1,
            n: n - 1,
            written: 0,
            run: others,
            marker: PhantomData,
        };
        (pen, Some(rest))
    }
}

impl<'a, T> RunPen<'a, T> {
    /// Publishes the values of all cells by one step, and returns what is then known of the cells, in order.
    pub fn publish(self) -> Row<T>
        requires { length self.values ≡ length self.cells }
        ensures { result ≡ members_of self.entry.cells self.entry.values }
    {
        let RunPen {
            offset,
            n,
            written: _,
            run,
            marker: _,
        } = self;
        Row {
            row: run.publish(in_fields(FILLED - BUSY, n, offset)),
        }
    }
}
