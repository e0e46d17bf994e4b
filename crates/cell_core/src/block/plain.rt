// Cells that are not tied, in a block of any kind: blocks that have no others, and the steps on such a cell.
ghost use Rattle.std.specs.Prelude.{◌≡◌, ◌<◌, ℕ, Some, None, IfOk, IfErr, IsErrAnd};
ghost use Rattle.cell_core.specs.Block.{block_len, cell_at, IsPenAt, IsFresh, IsMending, IsMemberAt};
ghost use Rattle.cell_core.specs.Run.{cells_from};
ghost use Rattle.cell_core.specs.Slot.{ArePlain, IsPlain};
ghost use Rattle.cell_core.specs.Shown.{IsFoundIn, IsNotEmpty, ShowsFilled};

use crate::block::fields::{all_but, in_field, state_in};
use crate::block::{Block, EndedEpoch, Found, Kind, Member, Pen, Placed, lay, reserve_rows};
use crate::slot::steps::{BROKEN, BROKEN_BY_OWNER, BUSY, EMPTY, FILLED};
use std::alloc::{AllocError, Allocator};
use std::marker::PhantomData;

impl<T, A: Allocator, B: Kind> Block<T, A, B> {
    /// Makes a block of `n` empty cells like `new`. They are not tied, though cells of its kind may be.
    #[tactic(auto, using(crate::proofs::PlainCells::plain_kind, crate::proofs::PlainCells::all_plain))]
    pub fn new_plain(alloc: A, n: u64) -> Result<Block<T, A, B>, AllocError>
        ensures len { IfOk result (λ block. block_len block ≡ n) }
        ensures plain { IfOk result (λ block. ArePlain block.cells) }
    {
        let (link, laid) = reserve_rows(&alloc, n)?;
        let laid = lay(laid, link.words, n);
        Ok(Block {
            alloc,
            link,
            laid,
            len: n,
            marker: PhantomData,
        })
    }

    /// Shows a proof what it says of a block that its cells are not tied: it says so of each cell and of each run, and
    /// follows if it holds of each cell. The call does nothing.
    pub fn plain_laws(&self)
        ensures each { ArePlain self.now.cells → (i : ℕ) → IsPlain (cell_at self.now i) }
        ensures run { ArePlain self.now.cells → (n i : ℕ) → ArePlain (cells_from n i self.now.cells) }
        ensures all { ((i : ℕ) → i < block_len self.now → IsPlain (cell_at self.now i))
            → ArePlain self.now.cells }
    {}

    /// Begins a cell like `begin`. The cell is not tied, though others of the block may be.
    pub fn begin_plain(&self, offset: u64) -> Result<Pen<'_, T>, Found<T>>
        requires within { offset < block_len self.now }
        requires plain { IsPlain (cell_at self.now offset) }
        ensures pen { IfOk result (IsPenAt self.now offset) }
        ensures fresh { IfOk result IsFresh }
        ensures found { IfErr result (IsFoundIn self.now offset) }
        ensures not_empty { IfErr result IsNotEmpty }
    {
        let (word, pen) = self.cell(offset).begin(in_field(BUSY, offset));
        let found = state_in(word, offset);
        if found == EMPTY {
            Ok(Pen {
                offset,
                pen,
                marker: PhantomData,
            })
        } else {
            Err(self.lost(offset, found, pen))
        }
    }

    /// Takes a broken cell like `mend`. The cell is not tied, though others of the block may be.
    pub fn mend_plain(&self, offset: u64) -> Result<Pen<'_, T>, Found<T>>
        requires within { offset < block_len self.now }
        requires plain { IsPlain (cell_at self.now offset) }
        ensures pen { IfOk result (IsPenAt self.now offset) }
        ensures broken { IfOk result IsMending }
        ensures found { IfErr result (IsFoundIn self.now offset) }
    {
        let (word, pen) = self.cell(offset).mend(all_but(BROKEN - BUSY, offset));
        let found = state_in(word, offset);
        if found == BROKEN {
            Ok(Pen {
                offset,
                pen,
                marker: PhantomData,
            })
        } else {
            Err(self.lost(offset, found, pen))
        }
    }

    /// Takes a broken cell like `mend_member`. The cell is not tied, though others of the block may be.
    pub fn mend_member_plain(
        &self,
        offset: u64,
        member: &Member<T>,
        ended: &EndedEpoch,
    ) -> Result<Pen<'_, T>, Found<T>>
        requires member { IsMemberAt self.now offset member.now }
        requires epoch { member.now.value ≡ None → member.now.epoch ≡ ended.now }
        requires plain { IsPlain (cell_at self.now offset) }
        ensures pen { IfOk result (IsPenAt self.now offset) }
        ensures broken { IfOk result IsMending }
        ensures found { IfErr result (IsFoundIn self.now offset) }
        ensures filled { (x : T) → member.now.value ≡ Some x → IsErrAnd result (ShowsFilled x) }
    {
        let mask = all_but(BROKEN_BY_OWNER - BUSY, offset);
        let (word, pen) = self.cell(offset).reopen(mask, &member.member, &ended.ended);
        let found = state_in(word, offset);
        match found {
            BROKEN_BY_OWNER => Ok(Pen {
                offset,
                pen,
                marker: PhantomData,
            }),
            BROKEN => {
                pen.unused();
                self.mend_plain(offset)
            }
            FILLED => {
                let written = pen.written();
                member.member.agrees(&written);
                Err(Found::Filled(Placed { offset, written }))
            }
            _ => Err(self.lost(offset, found, pen)),
        }
    }
}
