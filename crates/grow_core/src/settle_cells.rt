// How cells are settled at a close.
ghost use Rattle.std.specs.Prelude.{◌≡◌, ◌≢◌, ◌+◌, ◌<◌, ◌≤◌, ℕ, Some, None, MatchOption, IfSome, length, slice_get};
ghost use Rattle.seg_core.specs.Segment.{most_places};
ghost use Rattle.cell_core.specs.Block.{block_len, cell_at, AreFilledFrom, IsMemberAt, KeepsOtherCells};
ghost use Rattle.cell_core.specs.Fixed.{HasValueByStage};
ghost use Rattle.cell_core.specs.Member.{MemberView};
ghost use Rattle.grow_core.specs.Parts.{IsBrokenIn, RestagesCell, broken_count, member_stage, one_if_broken, values_in};
ghost use Rattle.grow_core.specs.Closing.{AreSettled, KeepsKnown, KeepsKnownFrom};

use crate::ties::CellBlock;
use cell_core::block::{Epoch, Member, Placed, Row};
use std::marker::Model;

// What is known of the cell from now on: without a value it is broken, and a known value stays. A cell that was fixed at
// a stage is then fixed at that of a filled cell, or of a broken one.
#[tactic(auto, using(crate::proofs::Staged::restaged_settled))]
fn settle<T>(
    block: &mut CellBlock<T>,
    offset: u64,
    known: &Option<Member<T>>,
    epoch: &Epoch,
) -> Member<T>
    requires within { offset < block_len block.old }
    requires known { IfSome known.now (IsMemberAt block.old offset) }
    ensures member { IsMemberAt block.new offset result }
    ensures name { result.name ≡ (cell_at block.old offset).value_name }
    ensures kept { IfSome known.now (λ k. k.value ≢ None → result.value ≡ k.value) }
    ensures stage { HasValueByStage (cell_at block.old offset) result.value }
    ensures broken { IsBrokenIn epoch.now result }
    ensures staged { RestagesCell block.old block.new offset (member_stage (Some result)) }
    ensures len { block_len block.new ≡ block_len block.old }
    ensures others { KeepsOtherCells block.old block.new offset }
{
    match known {
        Some(known) => block.settle_known(offset, known, epoch),
        None => block.settle_now(offset, epoch),
    }
}

// Counts a cell by what is known of it: 1 if it is broken, otherwise 0. It loads the cell's state.
fn count_broken<T>(block: &CellBlock<T>, offset: u64, member: &Member<T>, epoch: &Epoch) -> u64
    requires member { IsMemberAt block.now offset member.now }
    requires broken { IsBrokenIn epoch.now member.now }
    ensures { result ≡ one_if_broken member.now.value }
{
    match block.member(offset, member, epoch) {
        Some(_) => 0,
        None => 1,
    }
}

// The list that a vector was opened from: its length, and what is known of each member.
#[derive(Drop)]
pub(crate) struct Opened<T> {
    pub(crate) row: Row<T>,
    pub(crate) base: u64,
}

impl<T> Model for Opened<T> {
    ghost use Rattle.std.specs.Prelude.{◌≡◌, List, length};
    ghost use base.Stored.{coded_list};
    ghost use Rattle.cell_core.specs.Member.{MemberView, member_coded};

    ghost Value = { List (MemberView T) };

    ghost coded = { coded_list (member_coded T.code) };

    ghost view = { λ o. o.row };

    ghost invariant = { λ o. length o.row ≡ o.base };
}

impl<T> Opened<T> {
    // What is known of a place, if the list has a member there.
    fn at(&self, place: u64) -> Option<Member<T>>
        ensures { MatchOption result (length self.now ≤ place)
            (λ m. slice_get self.now place ≡ Some m) }
    {
        if place < self.base {
            Some(self.row.at(place))
        } else {
            None
        }
    }

    // Shows a proof that a filled cell has the value that was known of its place, if one was.
    fn agree(&self, place: u64, placed: &Placed<T>)
        requires { (m : MemberView T) → slice_get self.now place ≡ Some m → m.value ≢ None
            → m.name ≡ placed.now.name }
        ensures { (m : MemberView T) → slice_get self.now place ≡ Some m
            → KeepsKnown m.value (Some placed.now.value) }
    {
        if place < self.base {
            self.row.at(place).agree(placed);
        }
    }

    // Shows the same of cells next to each other that were found filled. They are the places from `place` on.
    fn agree_all(&self, place: u64, block: &CellBlock<T>, offset: u64, found: &Row<T>, n: u64)
        requires places { place + n ≤ most_places }
        requires filled { AreFilledFrom block.now offset found.now }
        requires n { length found.now ≡ n }
        requires known { (i : ℕ) (m : MemberView T) → i < n
            → slice_get self.now (place + i) ≡ Some m
            → IsMemberAt block.now (offset + i) m }
        ensures { KeepsKnownFrom self.now place found.now }
    {
        for i in 0..n {
            let placed = block.token_at(offset, found, i);
            self.agree(place + i, &placed);
        }
    }
}

// How many cells were settled, and how many of these are broken.
#[derive(Drop)]
struct Counts {
    settled: u64,
    broken: u64,
}

// Settles the cells of a block from an offset on, up to the first that is not filled, that one too, and `n` at most.
// They are the places of the vector from `place` on. Adds to the row what is known of each from now on, and counts
// them. It loads each word of states of the filled cells once.
fn settle_stretch<T>(
    block: &mut CellBlock<T>,
    offset: u64,
    opened: &Opened<T>,
    place: u64,
    n: u64,
    row: &mut Row<T>,
    epoch: &Epoch,
) -> Counts
    requires some { 0 < n }
    requires within { offset + n ≤ block_len block.old }
    requires places { place + n ≤ most_places }
    requires before { offset ≤ place }
    requires known { (i : ℕ) (m : MemberView T) → i < n → slice_get opened.now (place + i) ≡ Some m
        → IsMemberAt block.old (offset + i) m }
    ensures some { 0 < result.settled }
    ensures most { result.settled ≤ n }
    ensures settled { AreSettled block.old block.new
        offset opened.now place row.old row.new epoch.now result.settled }
    ensures broken { broken_count (values_in row.new)
        ≡ broken_count (values_in row.old) + result.broken }
    ensures few { result.broken ≤ result.settled }
{
    let (count, found) = block.filled_row(offset, n);
    opened.agree_all(place, block, offset, &found, count);
    row.append(found);
    if count == n {
        return Counts {
            settled: n,
            broken: 0,
        };
    }
    let known = opened.at(place + count);
    let member = settle(block, offset + count, &known, epoch);
    row.push(&member);
    Counts {
        settled: count + 1,
        broken: count_broken(block, offset + count, &member, epoch),
    }
}

// Settles n cells of a block from an offset on. They are the places of the vector from `place` on. Adds to the
// row what is known of each from now on, and returns how many of them are broken.
pub(crate) fn settle_cells<T>(
    block: &mut CellBlock<T>,
    offset: u64,
    opened: &Opened<T>,
    place: u64,
    n: u64,
    row: &mut Row<T>,
    epoch: &Epoch,
) -> u64
    requires within { offset + n ≤ block_len block.old }
    requires places { place + n ≤ most_places }
    requires before { offset ≤ place }
    requires known { (i : ℕ) (m : MemberView T) → i < n → slice_get opened.now (place + i) ≡ Some m
        → IsMemberAt block.old (offset + i) m }
    ensures settled { AreSettled
        block.old block.new offset opened.now place row.old row.new epoch.now n }
    ensures broken { broken_count (values_in row.new)
        ≡ broken_count (values_in row.old) + result }
{
    let mut done = 0;
    let mut broken = 0;
    'stretches: while done < n {
        let counts = settle_stretch(
            block,
            offset + done,
            opened,
            place + done,
            n - done,
            row,
            epoch,
        );
        done += counts.settled;
        broken += counts.broken;
    }
    broken
}
