// The raw steps on the two rows of a block, one of words and one of rooms: their memory, the states of more cells, and
// what an exclusive owner does with the cell at an index.
ghost use Rattle.std.specs.Prelude.{◌≡◌, ℕ, ◌+◌, ◌*◌, ◌-◌, ◌/◌, ◌%◌, ◌^◌, ◌<◌, ◌≤◌, true, List, [], ◌∷◌, drop, length, None, IfOk};
ghost use base.Stored.{coded_list};
ghost use prog.Memory.{capped};
ghost use denote.RawPtr.{Ptr, coded_ptr};
ghost use Rattle.cell_core.specs.Slot.{Names, names_coded, cell_in, step, filled_state, owner_broken_state};
ghost use Rattle.cell_core.specs.Laid.{Extent, extent_coded, rooms_owned, laid, laid_lent, word_cells, FitsMemory, IsLinked, IsFieldOf, HasMore, HasMoreTied, HasOneRenamed, IsFixedAt};
ghost use Rattle.cell_core.specs.Fixed.{HasValueByStage, AreTies, AreAtStages, AreBrokenFor, tied_cells};
ghost use Rattle.tie_core.specs.Tie.{Idle, Filled, Broken};
ghost use Rattle.cell_core.specs.Member.{AreUntied, KnowsCells, Settles};
ghost use Rattle.cell_core.specs.Run.{cells_from};

use crate::block::fields::{keep_of, state_in, word_of};
use crate::slot::epoch::{RawEnded, RawEpoch};
use crate::slot::member::{RawMember, RawRow};
use crate::slot::run::RawCells;
use crate::slot::steps::{FILLED, RawSlot, Written};
use std::alloc::{AllocError, Allocator};
use std::marker::{Model, PhantomData};
use std::mem::{align_of, size_of};
use tie_core::{Seats, StagedSeats};

// The addresses of the row of words and of the row of rooms. It owns nothing.
pub(crate) struct Link<T> {
    pub(crate) words: *mut u64,
    pub(crate) rooms: *mut T,
    marker: PhantomData<T>,
}

impl<T> Link<T> {
    pub(crate) fn of(words: *mut u64, rooms: *mut T) -> Link<T>
        ensures { (result.words ≡ words) × (result.rooms ≡ rooms) }
    {
        Link {
            words,
            rooms,
            marker: PhantomData,
        }
    }
}

impl<T> Clone for Link<T> {
    ghost is_clone = { λ x y. y ≡ x };

    ghost is_infallible = { λ _. Unit {0} };

    fn clone(&self) -> Result<Link<T>, AllocError> {
        Ok(*self)
    }
}

impl<T> Copy for Link<T> {}

unsafe impl<T> Send for Link<T> {}

unsafe impl<T> Sync for Link<T> {}

// Room for `len` values at `at`, and the right to free it. It has no bytes.
pub(crate) struct Rooms<X, A: Allocator> {
    // `*mut` makes the type invariant, since values go in.
    marker: PhantomData<*mut (X, A)>,
    pub(crate) ghost heap: { A },
    pub(crate) ghost at: { Ptr } by { coded_ptr },
    pub(crate) ghost len: { ℕ },
}

impl<X, A: Allocator> Model for Rooms<X, A> {
    ghost also_owns = { λ r. rooms_owned X.row (A.dealloc_token r.heap) r.at r.len };
}

fn room_size<X>() -> usize
    ensures { result ≡ capped (step X.row) }
{
    size_of::<X>()
}

// Returns whether `len` values take fewer than 2^63 bytes.
#[tactic(auto, using(crate::proofs::LaidMade::bytes_fit))]
fn fits<X>(len: usize) -> bool
    ensures { result ≡ true → FitsMemory X.row len }
{
    match len.checked_mul(room_size::<X>()) {
        Some(bytes) => bytes < 1 << 63,
        None => false,
    }
}

impl<X, A: Allocator> Rooms<X, A> {
    fn allocate(alloc: &A, len: usize) -> Result<(*mut X, Rooms<X, A>), AllocError>
        requires { FitsMemory X.row len }
        ensures { IfOk result
            (λ l. (l.1.heap ≡ alloc.now) × IsLinked l.1.at l.0 × (l.1.len ≡ len)) }
    {
        match alloc.allocate(len * size_of::<X>(), align_of::<X>()) {
            Ok(room) => {
                let marker = PhantomData;
                Ok((room as *mut X, Rooms { marker }))
            }
            Err(error) => Err(error),
        }
    }

    // Requests room for `len` values. It refuses 2^63 bytes or more, which no allocator can give.
    pub(crate) fn reserve(alloc: &A, len: usize) -> Result<(*mut X, Rooms<X, A>), AllocError>
        ensures { IfOk result
            (λ l. (l.1.heap ≡ alloc.now) × IsLinked l.1.at l.0 × (l.1.len ≡ len)) }
    {
        if !fits::<X>(len) {
            return Err(AllocError);
        }
        Rooms::allocate(alloc, len)
    }

    // Frees the row.
    pub(crate) fn free(self, alloc: &A, ptr: *mut X, len: usize)
        requires { (self.heap ≡ alloc.now) × (self.at ≡ ptr) × (self.len ≡ len) }
    {
        let Rooms { marker: _ } = self;
        unsafe {
            alloc.deallocate(ptr as *mut u8, len * size_of::<X>(), align_of::<X>());
        }
    }
}

// Cells in their two rows, with room for more, and the right to free both rows. It has no bytes.
pub(crate) struct Laid<T, A: Allocator> {
    // `*mut` makes the type invariant, since values go in through a `&`.
    marker: PhantomData<*mut (T, A)>,
    pub(crate) ghost heap: { A },
    pub(crate) ghost rows: { Extent } by { extent_coded },
    pub(crate) ghost cells: { List Names } by { coded_list names_coded },
}

impl<T, A: Allocator> Model for Laid<T, A> {
    ghost also_owns = { λ l. laid T.row (A.dealloc_token l.heap) l.rows l.cells };

    ghost also_shares = { λ l _ κ. laid_lent T.row l.rows l.cells κ };
}

impl<T, A: Allocator> Laid<T, A> {
    // No cell yet, in room for both rows.
    pub(crate) fn new(words: Rooms<u64, A>, rooms: Rooms<T, A>) -> Laid<T, A>
        requires { words.heap ≡ rooms.heap }
        ensures { (result.heap ≡ rooms.heap) × (result.cells ≡ [])
            × (result.rows
            ≡ record { at = words.at; rooms = rooms.at; words = 0; more = words.len; left = rooms.len }) }
    {
        let Rooms { marker: _ } = words;
        let Rooms { marker: _ } = rooms;
        Laid {
            marker: PhantomData,
        }
    }

    // The room of both rows, whatever is in the cells. Values that are still there are not dropped.
    pub(crate) fn into_rooms(self) -> (Rooms<u64, A>, Rooms<T, A>)
        ensures { (result.0.heap ≡ self.heap) × (result.1.heap ≡ self.heap)
            × (result.0.at ≡ self.rows.at) × (result.0.len ≡ self.rows.words + self.rows.more)
            × (result.1.at ≡ self.rows.rooms) × (result.1.len ≡ length self.cells + self.rows.left) }
    {
        let Laid { marker: _ } = self;
        (
            Rooms {
                marker: PhantomData,
            },
            Rooms {
                marker: PhantomData,
            },
        )
    }

    // The same cells without their ties: each seat is given up. What is known of cells by the row, from an index on,
    // stays known. It is no instruction.
    pub(crate) fn untie(&mut self, row: &RawRow<T>, from: u64)
        requires { KnowsCells row.now.of from self.old.cells }
        ensures { (self.new.heap ≡ self.old.heap) × (self.new.rows ≡ self.old.rows)
            × AreUntied self.old.cells self.new.cells × KnowsCells row.now.of from self.new.cells }
    {}

    // The same cells, which have no seats, with these: each seat is at the stage of its cell. A cell that an owner broke
    // gets a seat by evidence that the epoch has ended. Returns a value with no seats left. It is no instruction.
    pub(crate) fn retie(&mut self, seats: StagedSeats, ended: &RawEnded) -> StagedSeats
        requires { (length seats.ties ≡ length self.old.cells)
            × (length seats.stages ≡ length self.old.cells) × AreTies seats.ties
            × AreAtStages seats.stages self.old.cells
            × AreBrokenFor seats.stages self.old.cells (ended.now.of ∷ []) }
        ensures { (self.new.heap ≡ self.old.heap) × (self.new.rows ≡ self.old.rows)
            × (self.new.cells ≡ tied_cells seats.ties self.old.cells) }
    {
        seats
    }

    // One more word, of `n` empty cells.
    pub(crate) fn push(&mut self, words: *mut u64, word: usize, n: usize)
        requires { IsLinked self.old.rows.at words × (word ≡ self.old.rows.words)
            × (0 < self.old.rows.more)
            × (length self.old.cells ≡ word * word_cells) × (n ≤ word_cells) × (n ≤ self.old.rows.left) }
        ensures { (self.new.heap ≡ self.old.heap) × HasMore self.old.cells n self.new.cells
            × (self.new.rows ≡ record self.old.rows {
              words = self.old.rows.words + 1;
              more = self.old.rows.more - 1;
              left = self.old.rows.left - n;
            }) }
    {
        // For the proof: the contract alone speaks of how many cells there are.
        let _n = n;
        unsafe {
            words.add(word).write(0);
        }
    }

    // One more word, of `n` empty cells, with the first `n` ties. Returns the others.
    pub(crate) fn push_for(
        &mut self,
        states: *mut u64,
        word: usize,
        n: usize,
        seats: Seats,
    ) -> Seats
        requires { IsLinked self.old.rows.at states × (word ≡ self.old.rows.words)
            × (0 < self.old.rows.more)
            × (length self.old.cells ≡ word * word_cells) × (n ≤ word_cells) × (n ≤ self.old.rows.left)
            × (n ≤ length seats.ties) }
        ensures { (self.new.heap ≡ self.old.heap)
            × HasMoreTied self.old.cells n self.new.cells seats.ties
            × (self.new.rows ≡ record self.old.rows {
              words = self.old.rows.words + 1;
              more = self.old.rows.more - 1;
              left = self.old.rows.left - n;
            })
            × (result.ties ≡ drop n seats.ties) }
    {
        // For the proof: the contract alone speaks of how many cells there are.
        let _n = n;
        unsafe {
            states.add(word).write(0);
        }
        seats
    }

    // The cell at an index, whose state is in this word.
    pub(crate) fn cell<'a>(&'a self, link: Link<T>, word: usize, index: usize) -> RawSlot<'a, T>
        requires { (self.now.rows.at ≡ link.words) × (self.now.rows.rooms ≡ link.rooms)
            × (index < length self.now.cells) × (word ≡ index / word_cells) }
        ensures { (result.of ≡ cell_in self.now.cells index) × (result.index ≡ index % word_cells) }
    {
        unsafe {
            RawSlot {
                word: link.words.add(word),
                room: link.rooms.add(index),
                marker: PhantomData,
            }
        }
    }

    // `n` cells from an index on, whose states are all in this word.
    pub(crate) fn cells<'a>(
        &'a self,
        link: Link<T>,
        word: usize,
        index: usize,
        n: usize,
    ) -> RawCells<'a, T>
        requires { (self.now.rows.at ≡ link.words) × (self.now.rows.rooms ≡ link.rooms)
            × (0 < n) × (index + n ≤ length self.now.cells) × (index % word_cells + n ≤ word_cells)
            × (word ≡ index / word_cells) }
        ensures { (result.of ≡ cells_from n index self.now.cells)
            × (result.index ≡ index % word_cells) }
    {
        // For the proof: the contract alone speaks of how many cells there are.
        let _n = n;
        unsafe {
            RawCells {
                word: link.words.add(word),
                room: link.rooms.add(index),
                marker: PhantomData,
            }
        }
    }

    // Moves out the value of the cell at an index, by evidence that it has one. The cell is then empty and
    // has fresh names.
    pub(crate) fn take_written(
        &mut self,
        link: Link<T>,
        word: usize,
        index: usize,
        keep: u64,
        written: &Written<T>,
    ) -> T
        requires { IsLinked self.old.rows.at link.words × IsLinked self.old.rows.rooms link.rooms
            × IsFieldOf self.old.cells index word keep
            × (written.now.of ≡ (cell_in self.old.cells index).value_name) }
        ensures { (self.new.heap ≡ self.old.heap) × (self.new.rows ≡ self.old.rows)
            × HasOneRenamed self.old.cells index self.new.cells × (result ≡ written.now.value)
            × IsFixedAt self.old.cells index self.new.cells Idle }
    {
        unsafe {
            let place = link.words.add(word);
            let found = place.read();
            place.write(found & keep);
            link.rooms.add(index).read()
        }
    }

    // Empties the cell at an index. What it held is forgotten: a value that is still there is not dropped. The cell
    // has fresh names.
    pub(crate) fn empty(&mut self, link: Link<T>, word: usize, index: usize, keep: u64)
        requires { IsLinked self.old.rows.at link.words × IsLinked self.old.rows.rooms link.rooms
            × IsFieldOf self.old.cells index word keep }
        ensures { (self.new.heap ≡ self.old.heap) × (self.new.rows ≡ self.old.rows)
            × HasOneRenamed self.old.cells index self.new.cells
            × IsFixedAt self.old.cells index self.new.cells Idle }
    {
        unsafe {
            let place = link.words.add(word);
            let found = place.read();
            place.write(found & keep);
        }
    }

    // Writes a value, and `state`, which is that of a filled cell. What the cell held is forgotten: a value that is
    // still there is not dropped. The cell has fresh names.
    pub(crate) fn fill(
        &mut self,
        link: Link<T>,
        word: usize,
        index: usize,
        keep: u64,
        state: u64,
        value: T,
    ) -> Written<T>
        requires { IsLinked self.old.rows.at link.words × IsLinked self.old.rows.rooms link.rooms
            × IsFieldOf self.old.cells index word keep
            × (state ≡ filled_state * 16 ^ (index % word_cells)) }
        ensures { (self.new.heap ≡ self.old.heap) × (self.new.rows ≡ self.old.rows)
            × HasOneRenamed self.old.cells index self.new.cells
            × (result.of ≡ (cell_in self.new.cells index).value_name) × (result.value ≡ value)
            × IsFixedAt self.old.cells index self.new.cells Filled }
    {
        unsafe {
            let place = link.words.add(word);
            let found = place.read();
            place.write((found & keep) + state);
            link.rooms.add(index).write(value);
        }
        Written {
            marker: PhantomData,
        }
    }

    // Breaks the cell for the epoch: `state` is that of a cell that an owner broke. What it held is forgotten: a value
    // that is still there is not dropped. The cell has fresh names.
    pub(crate) fn break_cell(
        &mut self,
        link: Link<T>,
        word: usize,
        index: usize,
        keep: u64,
        state: u64,
        epoch: &RawEpoch,
    ) -> RawMember<T>
        requires { IsLinked self.old.rows.at link.words × IsLinked self.old.rows.rooms link.rooms
            × IsFieldOf self.old.cells index word keep
            × (state ≡ owner_broken_state * 16 ^ (index % word_cells)) }
        ensures { (self.new.heap ≡ self.old.heap) × (self.new.rows ≡ self.old.rows)
            × HasOneRenamed self.old.cells index self.new.cells
            × (result.of.epoch ≡ (cell_in self.new.cells index).epoch) × (result.of.value ≡ None)
            × (result.of.epoch ≡ epoch.now.of ∷ [])
            × IsFixedAt self.old.cells index self.new.cells Broken }
    {
        unsafe {
            let place = link.words.add(word);
            let found = place.read();
            place.write((found & keep) + state);
        }
        RawMember {
            marker: PhantomData,
        }
    }

    // What is known of the cell. One without a value is broken then for the epoch, and has fresh names.
    pub(crate) fn settle(
        &mut self,
        link: Link<T>,
        word: usize,
        index: usize,
        keep: u64,
        filled: u64,
        state: u64,
        epoch: &RawEpoch,
    ) -> RawMember<T>
        requires { IsLinked self.old.rows.at link.words × IsLinked self.old.rows.rooms link.rooms
            × IsFieldOf self.old.cells index word keep
            × (filled ≡ filled_state * 16 ^ (index % word_cells))
            × (state ≡ owner_broken_state * 16 ^ (index % word_cells)) }
        ensures { (self.new.heap ≡ self.old.heap) × (self.new.rows ≡ self.old.rows)
            × (result.of.name ≡ (cell_in self.old.cells index).value_name)
            × Settles self.old.cells index self.new.cells result.of.value result.of.epoch
            × (result.of.epoch ≡ epoch.now.of ∷ [])
            × (result.of.value ≡ None → IsFixedAt self.old.cells index self.new.cells Broken)
            × HasValueByStage (cell_in self.old.cells index) result.of.value }
    {
        unsafe {
            let place = link.words.add(word);
            let found = place.read();
            let kept = found & keep;
            if found - kept != filled {
                place.write(kept + state);
            }
        }
        RawMember {
            marker: PhantomData,
        }
    }

    // Moves out the value of the cell at an offset, if it holds one. The cell is then empty and has fresh names.
    pub(crate) fn take(&mut self, link: Link<T>, offset: u64) -> Option<T>
        requires { IsLinked self.old.rows.at link.words × IsLinked self.old.rows.rooms link.rooms
            × (offset < length self.old.cells) }
        ensures { (self.new.heap ≡ self.old.heap) × (self.new.rows ≡ self.old.rows)
            × HasOneRenamed self.old.cells offset self.new.cells
            × IsFixedAt self.old.cells offset self.new.cells Idle }
    {
        let (word, index, keep) = (word_of(offset), offset as usize, keep_of(offset));
        let (found, sight) = self.cell(link, word, index).sight();
        match state_in(found, offset) {
            FILLED => {
                let written = sight.written();
                Some(self.take_written(link, word, index, keep, &written))
            }
            _ => {
                sight.unused();
                self.empty(link, word, index, keep);
                None
            }
        }
    }
}

unsafe impl<T: Send + Sync, A: Allocator + Send> Send for Laid<T, A> {}

unsafe impl<T: Send + Sync, A: Allocator + Send> Sync for Laid<T, A> {}
