//! The members of an owner's list that lie side by side, as slices.
ghost use Rattle.std.specs.Prelude.{◌≡◌, ◌≢◌, ◌+◌, ◌<◌, ◌≤◌, ℕ, Some, None, MatchOption, IsTrue, IsFalse, length, map, slice_get, take, drop};
ghost use Rattle.seg_core.specs.Segment.{most_places};
ghost use Rattle.cell_core.specs.Block.{IsMemberAt};
ghost use Rattle.cell_core.specs.Member.{MemberView};
ghost use Rattle.grow_core.specs.Parts.{AreBrokenIn, broken_count, values_in};
ghost use Rattle.grow_core.specs.Slices.{HasBroken, IsInOneSegment, IsToTheEnd};

use crate::blocks::cell_of;
use crate::parts::Parts;
use crate::ties::CellBlock;
use cell_core::block::{Epoch, Row};

// Tests whether one of `n` members from a place on is broken: those of the cells of a block from an offset on. It looks
// at none if no member of the row is broken, and otherwise at each up to the first that is.
fn has_broken<T>(
    block: &CellBlock<T>,
    offset: u64,
    row: &Row<T>,
    place: u64,
    n: u64,
    epoch: &Epoch,
    broken: u64,
) -> bool
    requires within { place + n ≤ length row.now }
    requires places { length row.now ≤ most_places }
    requires before { offset ≤ place }
    requires known { (i : ℕ) (m : MemberView T) → i < n → slice_get row.now (place + i) ≡ Some m
        → IsMemberAt block.now (offset + i) m }
    requires epoch { AreBrokenIn epoch.now row.now }
    requires broken { broken ≡ broken_count (values_in row.now) }
    ensures some { IsTrue result → HasBroken (take n (drop place (values_in row.now))) }
    ensures none { IsFalse result → (i : ℕ) (m : MemberView T) → i < n
        → slice_get row.now (place + i) ≡ Some m → m.value ≢ None }
{
    if broken == 0 {
        return false;
    }
    for i in 0..n {
        let member = row.at(place + i);
        match block.member(offset + i, &member, epoch) {
            Some(_) => {}
            None => return true,
        }
    }
    false
}

// What is known of `n` members from a place on.
fn part_of<T>(row: &Row<T>, place: u64, n: u64) -> Row<T>
    requires within { place + n ≤ length row.now }
    requires places { length row.now ≤ most_places }
    ensures { result ≡ take n (drop place row.now) }
{
    let mut part = Row::new();
    for i in 0..n {
        let known = row.at(place + i);
        part.push(&known);
    }
    part
}

impl<T> Parts<T> {
    /// Returns how many members lie side by side from a place on: those up to the end of its segment, or of the list.
    pub fn side_by_side(&self, place: u64) -> u64
        requires { place < length self.now.members }
        ensures some { 0 < result }
        ensures within { place + result ≤ length self.now.members }
        ensures segment { IsInOneSegment self.now.layout place result }
        ensures most { IsToTheEnd self.now.layout place result (length self.now.members) }
    {
        // For the proof: reading a field shows the type's invariant.
        let _ = &self.table;
        let layout = self.layout();
        let (segment, _) = layout.locate(place);
        let end = layout.first(segment) + layout.len(segment);
        end.min(self.len) - place
    }

    /// Returns `n` members from a place on as a slice, or `None` if one of them is broken. It looks at none of them if
    /// the list has no broken member.
    pub fn slice(&self, place: u64, n: u64) -> Option<&[T]>
        requires some { 0 < n }
        requires within { place + n ≤ length self.now.members }
        requires segment { IsInOneSegment self.now.layout place n }
        ensures { MatchOption result (HasBroken (take n (drop place self.now.members)))
            (λ values. map Some values.now ≡ take n (drop place self.now.members)) }
    {
        let (_, offset, key) = cell_of(&self.table, &self.keys, self.count, place);
        let block = self.table.known(&key);
        let (row, epoch, broken) = (&self.row, &self.epoch, self.broken);
        if has_broken(block, offset, row, place, n, epoch, broken) {
            return None;
        }
        let row = part_of(row, place, n);
        Some(block.values(offset, n, &row))
    }
}
