// Calls of an exclusive owner of a block's cells, and what it learns of them.
ghost use Rattle.std.specs.Prelude.{◌≡◌, ◌≢◌, ◌<◌, Some, None, MatchOption, IfSome};
ghost use Rattle.cell_core.specs.Block.{block_len, cell_at, IsPlacedIn, IsPlacedAt, IsMemberAt, FixesTie, KeepsOtherCells, RenewsCell, StaysPlain};
ghost use Rattle.cell_core.specs.Fixed.{HasValueByStage};
ghost use Rattle.tie_core.specs.Tie.{Idle, Filled, Broken};

use crate::block::fields::{in_field, keep_of, state_in, word_of};
use crate::block::{Block, Epoch, Kind, Member, Placed};
use crate::slot::steps::{BROKEN_BY_OWNER, FILLED, Written};
use std::alloc::Allocator;

impl<T, A: Allocator, B: Kind> Block<T, A, B> {
    /// Moves the cell's value out, if it holds one. The cell is then empty and has fresh names, so no older
    /// token applies to it.
    pub fn take(&mut self, offset: u64) -> Option<T>
        requires { offset < block_len self.old }
        ensures len { block_len self.new ≡ block_len self.old }
        ensures another { RenewsCell self.old self.new offset }
        ensures fixed { FixesTie self.old self.new offset Idle }
        ensures others { KeepsOtherCells self.old self.new offset }
    {
        self.laid.take(self.link, offset)
    }

    /// Moves the token's value out. The cell is then empty and has fresh names, so no older token applies to
    /// it.
    pub fn take_value(&mut self, placed: &Placed<T>) -> T
        requires { IsPlacedIn self.old placed.now }
        ensures value { result ≡ placed.now.value }
        ensures len { block_len self.new ≡ block_len self.old }
        ensures another { RenewsCell self.old self.new placed.now.offset }
        ensures fixed { FixesTie self.old self.new placed.now.offset Idle }
        ensures others { KeepsOtherCells self.old self.new placed.now.offset }
    {
        let offset = placed.offset;
        self.take_written(offset, &placed.written)
    }

    // Moves out the value of the cell at an offset, by evidence that it has one.
    fn take_written(&mut self, offset: u64, written: &Written<T>) -> T
        requires within { offset < block_len self.old }
        requires written { written.now.of ≡ (cell_at self.old offset).value_name }
        ensures value { result ≡ written.now.value }
        ensures len { block_len self.new ≡ block_len self.old }
        ensures another { RenewsCell self.old self.new offset }
        ensures fixed { FixesTie self.old self.new offset Idle }
        ensures others { KeepsOtherCells self.old self.new offset }
    {
        let (word, keep) = (word_of(offset), keep_of(offset));
        self.laid
            .take_written(self.link, word, offset as usize, keep, written)
    }

    /// Settles the cell and returns what is known of it. If it holds no value it is now broken until the
    /// epoch ends, and has fresh names, so no older token applies to it and none has a value. A cell that is fixed at a
    /// stage has a value exactly if it is filled by its stage.
    pub fn settle_now(&mut self, offset: u64, epoch: &Epoch) -> Member<T>
        requires { offset < block_len self.old }
        ensures member { IsMemberAt self.new offset result }
        ensures name { result.name ≡ (cell_at self.old offset).value_name }
        ensures filled { result.value ≢ None → self.new ≡ self.old }
        ensures stage { HasValueByStage (cell_at self.old offset) result.value }
        ensures epoch { result.value ≡ None → result.epoch ≡ epoch.now }
        ensures another { result.value ≡ None → RenewsCell self.old self.new offset }
        ensures fixed { result.value ≡ None → FixesTie self.old self.new offset Broken }
        ensures len { block_len self.new ≡ block_len self.old }
        ensures others { KeepsOtherCells self.old self.new offset }
    {
        let member = self.laid.settle(
            self.link,
            word_of(offset),
            offset as usize,
            keep_of(offset),
            in_field(FILLED, offset),
            in_field(BROKEN_BY_OWNER, offset),
            &epoch.epoch,
        );
        Member { member }
    }

    /// Settles the cell like `settle_now`, when something is known of it: a known value stays.
    #[tactic(auto, using(crate::proofs::PlainCells::settled_plain))]
    pub fn settle_known(&mut self, offset: u64, known: &Member<T>, epoch: &Epoch) -> Member<T>
        requires { IsMemberAt self.old offset known.now }
        ensures member { IsMemberAt self.new offset result }
        ensures name { result.name ≡ (cell_at self.old offset).value_name }
        ensures kept { known.now.value ≢ None → result.value ≡ known.now.value }
        ensures filled { result.value ≢ None → self.new ≡ self.old }
        ensures stage { HasValueByStage (cell_at self.old offset) result.value }
        ensures epoch { result.value ≡ None → result.epoch ≡ epoch.now }
        ensures fixed { result.value ≡ None → FixesTie self.old self.new offset Broken }
        ensures plain { StaysPlain self.old self.new offset }
        ensures len { block_len self.new ≡ block_len self.old }
        ensures others { KeepsOtherCells self.old self.new offset }
    {
        let (word, sight) = self.cell(offset).known(&known.member);
        match state_in(word, offset) {
            FILLED => {
                let written = sight.written();
                known.member.agrees(&written);
                Member::of(&Placed { offset, written })
            }
            _ => {
                sight.unused();
                self.settle_now(offset, epoch)
            }
        }
    }

    /// Returns the token of the cell if the cell is filled, and changes nothing.
    pub fn token_now(&mut self, offset: u64) -> Option<Placed<T>>
        requires { offset < block_len self.old }
        ensures placed { IfSome result (IsPlacedAt self.new offset) }
        ensures unchanged { self.new ≡ self.old }
    {
        let (word, sight) = self.cell(offset).sight();
        match state_in(word, offset) {
            FILLED => {
                let written = sight.written();
                Some(Placed { offset, written })
            }
            _ => {
                sight.unused();
                None
            }
        }
    }

    /// Fills the cell with the value, whatever it held, and returns its token and the value that it held, if
    /// any.
    #[tactic(auto, using(crate::proofs::PlainCells::fixed_again, crate::proofs::PlainCells::fixed_plain))]
    pub fn put_now(&mut self, offset: u64, value: T) -> (Placed<T>, Option<T>)
        requires { offset < block_len self.old }
        ensures placed { IsPlacedAt self.new offset result.0 }
        ensures value { result.0.value ≡ value }
        ensures fixed { FixesTie self.old self.new offset Filled }
        ensures plain { StaysPlain self.old self.new offset }
        ensures len { block_len self.new ≡ block_len self.old }
        ensures others { KeepsOtherCells self.old self.new offset }
    {
        let held = self.take(offset);
        let written = self.laid.fill(
            self.link,
            word_of(offset),
            offset as usize,
            keep_of(offset),
            in_field(FILLED, offset),
            value,
        );
        (Placed { offset, written }, held)
    }

    /// Breaks the cell until the epoch ends, and returns what is then known of it and the value that it held,
    /// if any.
    #[tactic(auto, using(crate::proofs::PlainCells::fixed_again, crate::proofs::PlainCells::fixed_plain))]
    pub fn spoil_now(&mut self, offset: u64, epoch: &Epoch) -> (Member<T>, Option<T>)
        requires { offset < block_len self.old }
        ensures member { IsMemberAt self.new offset result.0 }
        ensures broken { result.0.value ≡ None }
        ensures epoch { result.0.epoch ≡ epoch.now }
        ensures fixed { FixesTie self.old self.new offset Broken }
        ensures plain { StaysPlain self.old self.new offset }
        ensures len { block_len self.new ≡ block_len self.old }
        ensures others { KeepsOtherCells self.old self.new offset }
    {
        let held = self.take(offset);
        let member = self.laid.break_cell(
            self.link,
            word_of(offset),
            offset as usize,
            keep_of(offset),
            in_field(BROKEN_BY_OWNER, offset),
            &epoch.epoch,
        );
        (Member { member }, held)
    }

    /// Returns the cell's value with its token, or `None` if it is broken, by one load. The epoch must last.
    pub fn member<'a>(
        &'a self,
        offset: u64,
        member: &Member<T>,
        epoch: &Epoch,
    ) -> Option<(&'a T, Placed<T>)>
        requires member { IsMemberAt self.now offset member.now }
        requires epoch { member.now.value ≡ None → member.now.epoch ≡ epoch.now }
        ensures value { MatchOption result (member.now.value ≡ None)
            (λ (value, _). member.now.value ≡ Some value.now) }
        ensures placed { IfSome result (λ (value, placed).
            IsPlacedAt self.now offset placed × (placed.value ≡ value.now)) }
    {
        let word = self.cell(offset).lasting(&member.member, &epoch.epoch);
        match state_in(word, offset) {
            FILLED => {
                let written = member.member.written();
                let value = self.cell(offset).value(&written);
                Some((value, Placed { offset, written }))
            }
            _ => None,
        }
    }
}

impl<T: Drop, A: Allocator, B: Kind> Block<T, A, B> {
    /// Moves the cell's value out, or returns `None` if it is broken. The epoch must last. The cell is then
    /// empty and has fresh names, so no older token applies to it.
    pub fn take_member(&mut self, offset: u64, member: &Member<T>, epoch: &Epoch) -> Option<T>
        requires member { IsMemberAt self.old offset member.now }
        requires epoch { member.now.value ≡ None → member.now.epoch ≡ epoch.now }
        ensures value { result ≡ member.now.value }
        ensures another { RenewsCell self.old self.new offset }
        ensures fixed { FixesTie self.old self.new offset Idle }
        ensures len { block_len self.new ≡ block_len self.old }
        ensures others { KeepsOtherCells self.old self.new offset }
    {
        let word = self.cell(offset).lasting(&member.member, &epoch.epoch);
        match state_in(word, offset) {
            FILLED => {
                let written = member.member.written();
                Some(self.take_written(offset, &written))
            }
            _ => {
                drop(self.take(offset));
                None
            }
        }
    }
}
