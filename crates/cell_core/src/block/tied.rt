// Steps on cells that are tied to a table. Each call has one atomic step, which is its linearization point and runs an
// update that the caller brings.
ghost use Rattle.std.specs.Prelude.{◌≡◌, ◌<◌, ◌≤◌, ◌+◌, ℕ, Some, None, IfOk, IfErr, length};
ghost use Rattle.cell_core.specs.Block.{block_len, cell_at, IsPenAt, IsBrokenState, IsFresh, IsMending};
ghost use Rattle.cell_core.specs.Shown.{IsFoundIn, IsFoundOf, IsLookAt, IsLookOf, IsNotBroken};
ghost use Rattle.cell_core.specs.Slot.{AreTied, empty_state, filled_state};
ghost use Rattle.cell_core.specs.Fixed.{AreTies};
ghost use Rattle.cell_core.specs.Member.{IsUntied, KnowsCells};
ghost use Rattle.cell_core.specs.Mould.{first_seat, last_seat, mould_of, row_mould, tie_in};
ghost use Rattle.cell_core.specs.Run.{AreTiedTo, cells_from};
ghost use Rattle.tie_core.specs.Tie.{Tie, Begun, Mending, Filled, Broken, HasMade, begins, breaks, fills, looks, mends, row_of, tie_further, tie_numbered};
ghost use Rattle.tie_core.specs.Run.{run_of};

use crate::block::fields::{all_but, in_field, state_in};
use crate::block::{
    Block, First, Found, Look, Pen, Placed, Row, Spoilt, Tied, lay_for, reserve_rows,
};
use crate::slot::steps::{BROKEN, BROKEN_BY_OWNER, BUSY, FILLED};
use std::alloc::{AllocError, Allocator};
use std::marker::PhantomData;
use tie_core::{Book, Numbered, Offer, Seats, TiedCells};

// A block has the number of its first cell's seat.
impl<T, A: Allocator> Numbered for Block<T, A, Tied> {
    ghost number = { λ block. first_seat block.cells };
}

// It has the ties of its cells.
impl<T, A: Allocator> TiedCells for Block<T, A, Tied> {
    ghost tie_at = { λ block i. tie_in (cell_at block i).tied };
}

impl<T, A: Allocator> Block<T, A, Tied> {
    /// Makes a block of `n` empty cells that are tied to these seats, in order. It requests memory like `new`. If
    /// memory is refused, the seats are given up.
    #[tactic(auto, using(crate::proofs::PlainCells::tied_kind))]
    pub fn new_for(alloc: A, n: u64, seats: Seats) -> Result<Block<T, A, Tied>, AllocError>
        requires { length seats.ties ≡ n }
        ensures len { IfOk result (λ block. block_len block ≡ n) }
        ensures ties { IfOk result (λ block. AreTied seats.ties block.cells) }
    {
        let (link, laid) = reserve_rows(&alloc, n)?;
        let laid = lay_for(laid, link.words, n, seats);
        Ok(Block {
            alloc,
            link,
            laid,
            len: n,
            marker: PhantomData,
        })
    }

    /// Makes the block one of cells that are not tied: each cell's seat is given up. What is known of the cells by a
    /// row, whose member at `from` is the first cell, stays known; tokens of these cells stay good. The call does
    /// nothing.
    #[tactic(auto, using(crate::proofs::Untied::untied_cells))]
    pub fn untie(self, row: &Row<T>, from: u64) -> Block<T, A>
        requires { KnowsCells row.now from self.cells }
        ensures len { block_len result ≡ block_len self }
        ensures known { KnowsCells row.now from result.cells }
        ensures each { (i : ℕ) → i < block_len self
            → IsUntied (cell_at self i) (cell_at result i) }
    {
        let Block {
            alloc,
            link,
            laid,
            len,
            marker: _,
        } = self;
        let mut laid = laid;
        laid.untie(&row.row, from);
        Block {
            alloc,
            link,
            laid,
            len,
            marker: PhantomData,
        }
    }

    /// Shows a proof how cells whose seats have numbers in a row are tied, and what the mould of a block tells: the
    /// seats have numbers in a row from the first one's on, and the block's own seat is the one behind them. Each of
    /// such ties is one. The call does nothing.
    pub fn ties_laws(&self)
        ensures row { (t : Tie) (n i : ℕ) → AreTied (row_of t n) self.now.cells → i < n
            → (cell_at self.now i).tied ≡ Some (tie_further t i) }
        ensures mould { (t : Tie) (n : ℕ) → AreTied (row_of t n) self.now.cells
            → mould_of self.now.cells ≡ row_mould t n }
        ensures tied { (t : Tie) (n : ℕ) → mould_of self.now.cells ≡ row_mould t n
            → AreTied (row_of (tie_numbered t (first_seat self.now.cells)) n) self.now.cells }
        ensures run { (t : Tie) (m offset n : ℕ) → AreTied (row_of t m) self.now.cells
            → offset + n ≤ m
            → AreTiedTo (run_of (tie_further t offset) n) (cells_from n offset self.now.cells) }
        ensures last { (t : Tie) (n : ℕ) → AreTied (row_of t n) self.now.cells → 0 < n
            → last_seat self.now.cells ≡ t.id + n }
        ensures ties { (t : Tie) (n : ℕ) → AreTies (row_of t n) }
    {}

    /// Looks at what a tied cell shows now, by one load. The offer's update runs in the load. A cell that is begun
    /// shows that it is empty.
    #[inline(always)]
    pub fn look_for<'a, 'b, X, K: Book<X>>(
        &'a self,
        offset: u64,
        offer: Offer<'b, X, K>,
    ) -> (Look<'a, T>, Offer<'b, X, K>)
        requires within { offset < block_len self.now }
        requires tie { (cell_at self.now offset).tied ≡ Some offer.tie }
        requires step { (offer.step ≡ looks) × (offer.made ≡ None) }
        ensures look { IsLookAt self.now offset result.0 }
        ensures made { (n : ℕ) × HasMade looks n result.1.made × IsLookOf n result.0 }
        ensures offer { (result.1.tie ≡ offer.entry.tie) × (result.1.about ≡ offer.entry.about) }
    {
        let (word, sight, offer) = self.cell(offset).sight_for(offer);
        let found = state_in(word, offset);
        if found == FILLED {
            let written = sight.written();
            let value = self.cell(offset).value(&written);
            (Look::Filled(value, Placed { offset, written }), offer)
        } else {
            (self.look_unfilled(offset, found, sight), offer)
        }
    }

    /// Begins a tied cell. The offer's update shows that nobody has begun the cell, so this never fails. It runs in a
    /// load of the call's own, which reads no state. The pen is the right to fill or break the cell.
    #[inline(always)]
    pub fn begin_for<'a, 'b, X, K: Book<X>>(
        &'a self,
        offset: u64,
        offer: Offer<'b, X, K>,
    ) -> (Pen<'a, T, First>, Offer<'b, X, K>)
        requires within { offset < block_len self.now }
        requires tie { (cell_at self.now offset).tied ≡ Some offer.tie }
        requires step { (offer.step ≡ begins) × (offer.made ≡ None) }
        ensures pen { IsPenAt self.now offset result.0 }
        ensures fresh { IsFresh result.0 }
        ensures made { HasMade begins empty_state result.1.made }
        ensures offer { (result.1.tie ≡ offer.entry.tie) × (result.1.about ≡ offer.entry.about) }
    {
        let (pen, offer) = self.cell(offset).begin_for(offer);
        let pen = Pen {
            offset,
            pen,
            marker: PhantomData,
        };
        (pen, offer)
    }

    /// Takes a broken cell by one step from broken to busy, whoever broke it. The cell has a seat, so if an owner broke
    /// it, the owner's epoch has ended. The offer's update runs in the step, whatever the step finds. If the call does
    /// not take the cell, it did not find it broken.
    #[tactic(auto, using(crate::proofs::FoundCells::not_broken))]
    pub fn mend_for<'a, 'b, X, K: Book<X>>(
        &'a self,
        offset: u64,
        offer: Offer<'b, X, K>,
    ) -> (Result<Pen<'a, T, Tied>, Found<T>>, Offer<'b, X, K>)
        requires within { offset < block_len self.now }
        requires tie { (cell_at self.now offset).tied ≡ Some offer.tie }
        requires step { (offer.step ≡ mends) × (offer.made ≡ None) }
        requires seated { offer.tie.fixed ≡ None }
        ensures pen { IfOk result.0 (IsPenAt self.now offset) }
        ensures broken { IfOk result.0 IsMending }
        ensures made { IfOk result.0 (λ _.
            (n : ℕ) × IsBrokenState n × HasMade mends n result.1.made) }
        ensures found { IfErr result.0 (IsFoundIn self.now offset) }
        ensures not_broken { IfErr result.0 IsNotBroken }
        ensures lost { IfErr result.0 (λ found.
            (n : ℕ) × HasMade mends n result.1.made × (n ≤ filled_state) × IsFoundOf n found) }
        ensures offer { (result.1.tie ≡ offer.entry.tie) × (result.1.about ≡ offer.entry.about) }
    {
        let mask = all_but(BROKEN - BUSY + (BROKEN_BY_OWNER - BUSY), offset);
        let (word, pen, offer) = self.cell(offset).mend_for(mask, offer);
        let found = state_in(word, offset);
        if found > FILLED {
            let pen = Pen {
                offset,
                pen,
                marker: PhantomData,
            };
            (Ok(pen), offer)
        } else {
            (Err(self.lost(offset, found, pen)), offer)
        }
    }
}

impl<'a, T> Pen<'a, T, First> {
    /// Writes the value, and then the state, which publishes it. The offer's update runs in that step.
    #[inline(always)]
    pub fn fill_for<'b, X, K: Book<X>>(
        self,
        value: T,
        offer: Offer<'b, X, K>,
    ) -> (Placed<T>, Offer<'b, X, K>)
        requires tie { self.cell.tied ≡ Some offer.tie }
        requires step { (offer.step ≡ fills) × (offer.made ≡ None) }
        ensures offset { result.0.offset ≡ self.entry.offset }
        ensures value { result.0.value ≡ value }
        ensures name { result.0.name ≡ self.entry.cell.value_name }
        ensures found { result.0.found ≡ self.entry.found }
        ensures made { result.1.made ≡ Some (Begun, Filled) }
        ensures offer { (result.1.tie ≡ offer.entry.tie) × (result.1.about ≡ offer.entry.about) }
    {
        let Pen {
            offset,
            pen,
            marker: _,
        } = self;
        let (written, offer) = pen.fill_for(value, in_field(FILLED, offset), offer);
        (Placed { offset, written }, offer)
    }

    /// Breaks the cell: it holds no value until somebody mends it. The offer's update runs in that step.
    pub fn spoil_for<'b, X, K: Book<X>>(self, offer: Offer<'b, X, K>) -> (Spoilt, Offer<'b, X, K>)
        requires tie { self.cell.tied ≡ Some offer.tie }
        requires step { (offer.step ≡ breaks) × (offer.made ≡ None) }
        ensures offset { result.0.offset ≡ self.entry.offset }
        ensures name { result.0.name ≡ self.entry.cell.broken_name }
        ensures made { result.1.made ≡ Some (Begun, Broken) }
        ensures offer { (result.1.tie ≡ offer.entry.tie) × (result.1.about ≡ offer.entry.about) }
    {
        let Pen {
            offset,
            pen,
            marker: _,
        } = self;
        let (broken, offer) = pen.break_for(in_field(BROKEN, offset), offer);
        (Spoilt { offset, broken }, offer)
    }
}

impl<'a, T> Pen<'a, T, Tied> {
    /// Writes the value of a cell that this pen mends, and then the state, which publishes it. The offer's update runs
    /// in that step.
    #[inline(always)]
    pub fn fill_for<'b, X, K: Book<X>>(
        self,
        value: T,
        offer: Offer<'b, X, K>,
    ) -> (Placed<T>, Offer<'b, X, K>)
        requires tie { self.cell.tied ≡ Some offer.tie }
        requires step { (offer.step ≡ fills) × (offer.made ≡ None) }
        ensures offset { result.0.offset ≡ self.entry.offset }
        ensures value { result.0.value ≡ value }
        ensures name { result.0.name ≡ self.entry.cell.value_name }
        ensures found { result.0.found ≡ self.entry.found }
        ensures made { result.1.made ≡ Some (Mending, Filled) }
        ensures offer { (result.1.tie ≡ offer.entry.tie) × (result.1.about ≡ offer.entry.about) }
    {
        let Pen {
            offset,
            pen,
            marker: _,
        } = self;
        let (written, offer) = pen.fill_for(value, in_field(FILLED - BUSY, offset), offer);
        (Placed { offset, written }, offer)
    }

    /// Breaks the cell again: it holds no value until somebody mends it. The offer's update runs in that step.
    pub fn spoil_for<'b, X, K: Book<X>>(self, offer: Offer<'b, X, K>) -> (Spoilt, Offer<'b, X, K>)
        requires tie { self.cell.tied ≡ Some offer.tie }
        requires step { (offer.step ≡ breaks) × (offer.made ≡ None) }
        ensures offset { result.0.offset ≡ self.entry.offset }
        ensures name { result.0.name ≡ self.entry.cell.broken_name }
        ensures made { result.1.made ≡ Some (Mending, Broken) }
        ensures offer { (result.1.tie ≡ offer.entry.tie) × (result.1.about ≡ offer.entry.about) }
    {
        let Pen {
            offset,
            pen,
            marker: _,
        } = self;
        let (broken, offer) = pen.break_for(in_field(BROKEN - BUSY, offset), offer);
        (Spoilt { offset, broken }, offer)
    }
}
