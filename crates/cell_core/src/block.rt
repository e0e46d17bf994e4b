//! A block of cells, laid raw in two rows: the values side by side, and words with the states of sixteen cells each.
ghost use Rattle.std.specs.Prelude.{◌≡◌, ◌≢◌, ◌+◌, ◌/◌, ◌%◌, ◌<◌, ℕ, [], false, Some, None, IsSomeAnd, IfSome, IfOk, IfErr, IsErrAnd, length};
ghost use Rattle.cell_core.specs.Block.{block_len, cell_at, IsPenAt, IsFresh, IsMending, IsPlacedIn, IsPlacedAt, IsMemberAt};
ghost use Rattle.cell_core.specs.Slot.{ArePlain, AreTied, IsPlain, empty_state, filled_state};
ghost use Rattle.cell_core.specs.Laid.{AreOfKind, HasEachRenamed, IsLinked, IsWhole, word_cells};
ghost use Rattle.cell_core.specs.Run.{cells_from};
ghost use Rattle.cell_core.specs.Shown.{IsFoundIn, IsFoundOf, IsNotEmpty, ShowsFilled, IsLookAt, IsLookOf};

mod begun;
mod epoch;
mod fields;
mod filled;
mod fixed;
mod kind;
mod member;
mod owner;
mod pen;
mod placed;
mod plain;
mod run;
mod seated;
mod shown;
mod slice;
mod spoilt;
mod steps;
mod tied;
mod tied_run;

use crate::slot::steps::{BUSY, EMPTY, FILLED, RawPen, RawSight, RawSlot};
pub use begun::Begun;
pub use epoch::{EndedEpoch, Epoch};
use fields::{WORD_CELLS, state_in, word_of, words_for};
pub use kind::{First, Kind, Plain, Tied};
pub use member::{Member, Row};
pub use pen::Pen;
pub use placed::Placed;
pub use run::RunPen;
pub use shown::{Found, Look};
pub use spoilt::Spoilt;
use std::alloc::{AllocError, Allocator, Global};
use std::marker::{Model, PhantomData};
use steps::{Laid, Link, Rooms};
use tie_core::Seats;

/// A row of cells that are each filled at most once and keep their value; a broken one may be mended. Each
/// has four bits of state beyond its value. `B` says whether cells are tied to a table.
pub struct Block<T, A: Allocator = Global, B: Kind = Plain> {
    alloc: A,
    link: Link<T>,
    laid: Laid<T, A>,
    len: u64,
    marker: PhantomData<B>,
}

impl<T, A: Allocator, B: Kind> Model for Block<T, A, B> {
    ghost use Rattle.cell_core.specs.Block.{BlockView, block_coded};
    ghost use Rattle.cell_core.specs.Laid.{AreOfKind, IsLinked, IsWhole};
    ghost use Rattle.std.specs.Prelude.{◌≡◌, length};

    ghost Value = { BlockView };

    ghost coded = { block_coded };

    ghost view = { λ b. record { cells = b.laid.cells } };

    ghost invariant = { λ b. (b.laid.heap ≡ b.alloc) × IsLinked b.laid.rows.at b.link.words
        × IsLinked b.laid.rows.rooms b.link.rooms × (length b.laid.cells ≡ b.len)
        × IsWhole b.laid.rows b.len × AreOfKind B.tied b.laid.cells };
}

impl<T, A: Allocator> Block<T, A> {
    /// Makes a block of `n` empty cells, by two requests for memory and a store for each sixteen cells. Values of 2^63
    /// bytes or more are refused before memory is requested, since no allocator can give room for them.
    pub fn new(alloc: A, n: u64) -> Result<Block<T, A>, AllocError>
        ensures { IfOk result (λ block. block_len block ≡ n) }
    {
        Block::new_plain(alloc, n)
    }
}

impl<T, A: Allocator, B: Kind> Block<T, A, B> {
    /// Returns the number of cells.
    pub fn len(&self) -> u64
        ensures { result ≡ block_len self.now }
    {
        self.len
    }

    /// Returns the address of the words with the cells' states, for programs in C: sixteen cells a word, four bits a
    /// cell, from the lowest bits up. The bits are 3 exactly if the cell is filled. Only tests show that.
    pub fn states(&self) -> *mut u64 {
        self.link.words
    }

    fn cell(&self, offset: u64) -> RawSlot<'_, T>
        requires { offset < block_len self.now }
        ensures { (result.of ≡ cell_at self.now offset) × (result.index ≡ offset % word_cells) }
    {
        self.laid.cell(self.link, word_of(offset), offset as usize)
    }

    // What a step that lost a cell found there.
    fn lost(&self, offset: u64, found: u64, pen: RawPen<'_, T>) -> Found<T>
        requires { (offset < block_len self.now) × (pen.of ≡ cell_at self.now offset)
            × (pen.found ≡ found) × (found ≢ pen.sought) }
        ensures found { IsFoundIn self.now offset result }
        ensures state { IsFoundOf found result }
        ensures not_empty { found ≢ empty_state → IsNotEmpty result }
    {
        match found {
            EMPTY => {
                pen.unused();
                Found::Empty
            }
            BUSY => Found::Busy(Begun {
                offset,
                begun: pen.begun(),
            }),
            FILLED => {
                let written = pen.written();
                Found::Filled(Placed { offset, written })
            }
            _ => {
                let broken = pen.broken();
                Found::Broken(Spoilt { offset, broken })
            }
        }
    }
}

impl<T, A: Allocator> Block<T, A> {
    // Shows a proof that no cell of a block of this kind is tied. The call does nothing.
    #[tactic(auto, using(crate::proofs::PlainCells::cell_plain, crate::proofs::PlainCells::plain_from))]
    #[inline(always)]
    fn kind_laws(&self)
        ensures each { (i : ℕ) → IsPlain (cell_at self.now i) }
        ensures run { (n i : ℕ) → ArePlain (cells_from n i self.now.cells) }
    {
        // For the proof: the kind of the cells is a fact of the block's fields.
        let _len = self.len;
    }

    /// Begins a cell by one step from empty to busy. The pen is the right to fill or break the cell. Calls on the
    /// other cells whose states are in the same word, up to fifteen, may make the processor retry the step.
    #[inline(always)]
    pub fn begin(&self, offset: u64) -> Result<Pen<'_, T>, Found<T>>
        requires { offset < block_len self.now }
        ensures pen { IfOk result (IsPenAt self.now offset) }
        ensures fresh { IfOk result IsFresh }
        ensures found { IfErr result (IsFoundIn self.now offset) }
        ensures not_empty { IfErr result IsNotEmpty }
    {
        self.kind_laws();
        self.begin_plain(offset)
    }

    /// Takes a broken cell by one step from broken to busy. If an owner broke the cell, this returns
    /// `Found::Broken`; `mend_member` mends such a cell.
    #[inline(always)]
    pub fn mend(&self, offset: u64) -> Result<Pen<'_, T>, Found<T>>
        requires { offset < block_len self.now }
        ensures pen { IfOk result (IsPenAt self.now offset) }
        ensures broken { IfOk result IsMending }
        ensures found { IfErr result (IsFoundIn self.now offset) }
    {
        self.kind_laws();
        self.mend_plain(offset)
    }

    /// Takes a broken cell like `mend`, also one that an owner broke in an epoch that has ended.
    #[inline(always)]
    pub fn mend_member(
        &self,
        offset: u64,
        member: &Member<T>,
        ended: &EndedEpoch,
    ) -> Result<Pen<'_, T>, Found<T>>
        requires member { IsMemberAt self.now offset member.now }
        requires epoch { member.now.value ≡ None → member.now.epoch ≡ ended.now }
        ensures pen { IfOk result (IsPenAt self.now offset) }
        ensures broken { IfOk result IsMending }
        ensures found { IfErr result (IsFoundIn self.now offset) }
        ensures filled { (x : T) → member.now.value ≡ Some x → IsErrAnd result (ShowsFilled x) }
    {
        self.kind_laws();
        self.mend_member_plain(offset, member, ended)
    }

    /// Looks at what the cell shows now, by one load.
    #[inline(always)]
    pub fn look(&self, offset: u64) -> Look<'_, T>
        requires { offset < block_len self.now }
        ensures { IsLookAt self.now offset result }
    {
        self.look_alone(offset)
    }
}

impl<T, A: Allocator, B: Kind> Block<T, A, B> {
    /// Looks at what the cell shows now, by one load. The cell may be tied, but the look runs no offer: it leaves the
    /// seat alone. A tied cell that is begun shows that it is empty.
    #[inline(always)]
    pub fn look_alone(&self, offset: u64) -> Look<'_, T>
        requires { offset < block_len self.now }
        ensures { IsLookAt self.now offset result }
    {
        let (word, sight) = self.cell(offset).sight();
        let found = state_in(word, offset);
        if found == FILLED {
            let written = sight.written();
            let value = self.cell(offset).value(&written);
            Look::Filled(value, Placed { offset, written })
        } else {
            self.look_unfilled(offset, found, sight)
        }
    }

    // Looks at a cell that is not filled. It is a function of its own, so that only calls that come here clear the room
    // for the result of `unfilled`.
    #[inline(always)]
    fn look_unfilled(&self, offset: u64, found: u64, sight: RawSight<T>) -> Look<'_, T>
        requires { (offset < block_len self.now) × (sight.of ≡ cell_at self.now offset)
            × (sight.found ≡ found) × (found ≢ filled_state) }
        ensures look { IsLookAt self.now offset result }
        ensures state { IsLookOf found result }
    {
        match self.unfilled(offset, found, sight) {
            Look::Empty => Look::Empty,
            Look::Busy => Look::Busy,
            Look::Filled(value, placed) => Look::Filled(value, placed),
            Look::Broken(spoilt) => Look::Broken(spoilt),
        }
    }

    // The same, by a call.
    #[cold]
    #[inline(never)]
    fn unfilled(&self, offset: u64, found: u64, sight: RawSight<T>) -> Look<'_, T>
        requires { (offset < block_len self.now) × (sight.of ≡ cell_at self.now offset)
            × (sight.found ≡ found) × (found ≢ filled_state) }
        ensures look { IsLookAt self.now offset result }
        ensures state { IsLookOf found result }
    {
        match found {
            EMPTY => {
                sight.unused();
                Look::Empty
            }
            BUSY => {
                sight.unused();
                Look::Busy
            }
            _ => {
                let broken = sight.broken();
                Look::Broken(Spoilt { offset, broken })
            }
        }
    }

    /// Returns the token's value. It takes no step.
    pub fn value<'a>(&'a self, placed: &Placed<T>) -> &'a T
        requires { IsPlacedIn self.now placed.now }
        ensures { result.now ≡ placed.now.value }
    {
        self.cell(placed.offset).value(&placed.written)
    }

    /// Shows a proof that two tokens of one offset have one value.
    pub fn agree(&self, a: &Placed<T>, b: &Placed<T>)
        requires a { IsPlacedIn self.now a.now }
        requires b { IsPlacedIn self.now b.now }
        ensures { a.now.offset ≡ b.now.offset → a.now.value ≡ b.now.value }
    {
        if a.offset == b.offset {
            a.written.agrees(&b.written);
        }
    }

    /// Returns the value of a cell with its token, by one load. A cell that `member` knows to be filled shows
    /// its value; any other cell shows nothing, or the value that mended it.
    pub fn known<'a>(&'a self, offset: u64, member: &Member<T>) -> Option<(&'a T, Placed<T>)>
        requires { IsMemberAt self.now offset member.now }
        ensures value { (x : T) → member.now.value ≡ Some x
            → IsSomeAnd result (λ (value, _). value.now ≡ x) }
        ensures placed { IfSome result (λ (value, placed).
            IsPlacedAt self.now offset placed × (placed.value ≡ value.now)) }
    {
        let (word, sight) = self.cell(offset).known(&member.member);
        match state_in(word, offset) {
            FILLED => {
                let written = sight.written();
                member.member.agrees(&written);
                let value = self.cell(offset).value(&written);
                Some((value, Placed { offset, written }))
            }
            _ => {
                sight.unused();
                None
            }
        }
    }

    /// Frees the memory without a look at the cells: no value is dropped.
    pub fn free(self) {
        let Block {
            alloc,
            link,
            laid,
            len,
            marker: _,
        } = self;
        free_rows(&alloc, link, laid, len);
    }
}

impl<T: Drop, A: Allocator, B: Kind> Drop for Block<T, A, B> {
    fn drop(self) {
        let Block {
            alloc,
            link,
            laid,
            len,
            marker: _,
        } = self;
        let laid = drop_values(laid, link, len);
        free_rows(&alloc, link, laid, len);
    }
}

// Drops the value of each cell that has one: each cell is then empty, and has fresh names.
fn drop_values<T: Drop, A: Allocator>(laid: Laid<T, A>, link: Link<T>, len: u64) -> Laid<T, A>
    requires { IsLinked laid.rows.at link.words × IsLinked laid.rows.rooms link.rooms
        × (length laid.cells ≡ len) }
    ensures rows { (result.heap ≡ laid.heap) × (result.rows ≡ laid.rows)
        × (length result.cells ≡ len) }
    ensures each { HasEachRenamed laid.cells result.cells }
{
    let mut laid = laid;
    let mut offset = 0;
    'cells: while offset < len {
        drop(laid.take(link, offset));
        offset += 1;
    }
    laid
}

// Room for the two rows of `n` cells, by two requests for memory. No cell is laid yet.
fn reserve_rows<T, A: Allocator>(alloc: &A, n: u64) -> Result<(Link<T>, Laid<T, A>), AllocError>
    ensures heap { IfOk result (λ (_, laid). laid.heap ≡ alloc.now) }
    ensures words { IfOk result (λ (link, laid). IsLinked laid.rows.at link.words) }
    ensures rooms { IfOk result (λ (link, laid). IsLinked laid.rows.rooms link.rooms) }
    ensures none { IfOk result (λ (_, laid). (laid.cells ≡ []) × (laid.rows.words ≡ 0)) }
    ensures room { IfOk result
        (λ (_, laid). (laid.rows.more ≡ (n + 15) / word_cells) × (laid.rows.left ≡ n)) }
{
    let (rooms, values) = Rooms::reserve(alloc, n as usize)?;
    let (words, states) = match Rooms::reserve(alloc, words_for(n)) {
        Ok(row) => row,
        Err(error) => {
            values.free(alloc, rooms, n as usize);
            return Err(error);
        }
    };
    Ok((Link::of(words, rooms), Laid::new(states, values)))
}

// The words for `n` cells, all empty and none of them tied.
fn lay<T, A: Allocator>(laid: Laid<T, A>, words: *mut u64, n: u64) -> Laid<T, A>
    requires { IsLinked laid.rows.at words × (laid.cells ≡ []) × (laid.rows.words ≡ 0)
        × (laid.rows.more ≡ (n + 15) / word_cells) × (laid.rows.left ≡ n) }
    ensures { (result.heap ≡ laid.heap) × (result.rows.at ≡ laid.rows.at)
        × (result.rows.rooms ≡ laid.rows.rooms)
        × (length result.cells ≡ n) × IsWhole result.rows n × AreOfKind false result.cells }
{
    let mut laid = laid;
    let mut word = 0;
    let mut left = n;
    'words: while left > 0 {
        let cells = left.min(WORD_CELLS);
        laid.push(words, word, cells as usize);
        word += 1;
        left -= cells;
    }
    laid
}

// The words for `n` cells, all empty, with these ties.
fn lay_for<T, A: Allocator>(laid: Laid<T, A>, words: *mut u64, n: u64, seats: Seats) -> Laid<T, A>
    requires { IsLinked laid.rows.at words × (laid.cells ≡ []) × (laid.rows.words ≡ 0)
        × (laid.rows.more ≡ (n + 15) / word_cells) × (laid.rows.left ≡ n) × (length seats.ties ≡ n) }
    ensures { (result.heap ≡ laid.heap) × (result.rows.at ≡ laid.rows.at)
        × (result.rows.rooms ≡ laid.rows.rooms)
        × (length result.cells ≡ n) × IsWhole result.rows n × AreTied seats.ties result.cells }
{
    let mut laid = laid;
    let mut seats = seats;
    let mut word = 0;
    let mut left = n;
    'words: while left > 0 {
        let cells = left.min(WORD_CELLS);
        seats = laid.push_for(words, word, cells as usize, seats);
        word += 1;
        left -= cells;
    }
    laid
}

// Gives both rows back, whatever is in their cells.
fn free_rows<T, A: Allocator>(alloc: &A, link: Link<T>, laid: Laid<T, A>, len: u64)
    requires { (laid.heap ≡ alloc.now) × (laid.rows.at ≡ link.words)
        × (laid.rows.rooms ≡ link.rooms)
        × (length laid.cells ≡ len) × IsWhole laid.rows len }
{
    let (words, rooms) = laid.into_rooms();
    words.free(alloc, link.words, words_for(len));
    rooms.free(alloc, link.rooms, len as usize);
}
