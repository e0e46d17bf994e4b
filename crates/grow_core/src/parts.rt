//! What an exclusive owner holds of a vector: a list of values and broken members.
ghost use Rattle.std.specs.Prelude.{◌≡◌, ℕ, ◌+◌, ◌-◌, ◌<◌, ◌≤◌, ◌++◌, ◌∷◌, [], Some, None, MatchOption, IsOk, IfOk, IfErr, IsTrue, IsFalse, length, slice_get, slice_set};
ghost use Rattle.seg_core.specs.Segment.{IsLimit, segment_start, segment_count};
ghost use Rattle.grow_core.specs.Parts.{IsSpare, capacity_of, one_if_broken};
ghost use Rattle.grow_core.specs.PopSegment.{IsUnbroken};
ghost use Rattle.grow_core.specs.Slices.{HasBroken};

use crate::blocks::{cell_of, clear_entry, put_block, take_block, write};
use crate::keys::{Keys, no_keys};
use crate::ties::SegmentTable;
use cell_core::block::{Block, Epoch, Row};
use claim_core::Mark;
use seg_core::Layout;
use std::alloc::{AllocError, Global};
use std::marker::Model;
use table_core::Table;

/// The parts of a vector that an exclusive owner holds. It lends no cell, so nothing of it changes through a
/// `&`. Contracts see it as a list of values and broken members (`None`), with its limit and the number of
/// its segments.
#[derive(Drop)]
pub struct Parts<T> {
    pub(crate) table: SegmentTable<T>,
    pub(crate) keys: Keys,
    pub(crate) row: Row<T>,
    // As long as it lasts, the broken members stay broken.
    pub(crate) epoch: Epoch,
    // How many members are broken.
    pub(crate) broken: u64,
    pub(crate) len: u64,
    pub(crate) limit: u64,
    pub(crate) count: u32,
    pub(crate) alloc: Global,
    // Of the vector that the list was closed from: the keys of its first segments as they were before, and
    // its segments' mark.
    pub(crate) before: Keys,
    pub(crate) closed: Option<Mark>,
}

impl<T> Model for Parts<T> {
    ghost use Rattle.std.specs.Prelude.{◌≡◌, option_map};
    ghost use Rattle.grow_core.specs.Parts.{PartsView, parts_coded, broken_count, values_in, AreWhole, AreBrokenIn, AreStaged};
    ghost use Rattle.grow_core.specs.Closing.{IsKept};

    ghost Value = { PartsView T };

    ghost coded = { parts_coded T.code };

    ghost view = { λ p. record {
      members = values_in p.row;
      limit = p.limit;
      layout = p.table.layout;
      segments = p.count;
      closed = option_map (λ m. m.numbers) p.closed;
    } };

    ghost invariant = { λ p. AreWhole p.table.layout p.table.names p.keys p.row p.len p.limit
        p.count
        × IsKept p.table.layout (option_map (λ m. m.numbers) p.closed) p.before p.table.names p.keys p.row p.count
        × AreBrokenIn p.epoch p.row × (p.broken ≡ broken_count (values_in p.row))
        × AreStaged p.table.layout p.keys p.row p.count };
}

// Counts a member: 1 if it is broken, otherwise 0.
fn count_broken<T>(member: &Option<T>) -> u64
    ensures { result ≡ one_if_broken member.now }
{
    match member {
        Some(_) => 0,
        None => 1,
    }
}

impl<T> Parts<T> {
    /// Makes an empty list whose first segment has two places. It takes no memory yet.
    pub fn new(alloc: Global, limit: u64) -> Parts<T>
        requires { IsLimit limit }
        ensures members { result.members ≡ [] }
        ensures limit { result.limit ≡ limit }
        ensures layout { result.layout ≡ 1 }
        ensures capacity { capacity_of result ≡ 0 }
    {
        Parts::new_in(alloc, Layout::default(), limit)
    }

    /// Makes an empty list with the segments of the layout. It takes no memory yet.
    pub fn new_in(alloc: Global, layout: Layout, limit: u64) -> Parts<T>
        requires { IsLimit limit }
        ensures members { result.members ≡ [] }
        ensures limit { result.limit ≡ limit }
        ensures layout { result.layout ≡ layout }
        ensures capacity { capacity_of result ≡ 0 }
    {
        // For the proof: its f is that of a layout.
        let _f = layout.f();
        Parts {
            table: Table::new_for(alloc, layout),
            keys: no_keys(),
            row: Row::new(),
            epoch: Epoch::new(),
            broken: 0,
            len: 0,
            limit,
            count: 0,
            alloc,
            before: no_keys(),
            closed: None,
        }
    }

    /// Returns the number of members.
    pub fn len(&self) -> u64
        ensures value { result ≡ length self.now.members }
        ensures within { result ≤ self.now.limit }
    {
        self.len
    }

    /// Returns the greatest length that the list may reach.
    pub fn limit(&self) -> u64
        ensures value { result ≡ self.now.limit }
        ensures range { IsLimit result }
    {
        self.limit
    }

    /// Sets the greatest length that the list may reach. It takes no memory.
    pub fn set_limit(&mut self, limit: u64)
        requires limit { IsLimit limit }
        requires within { length self.old.members ≤ limit }
        ensures { self.new ≡ record self.old { limit = limit } }
    {
        self.limit = limit;
    }

    /// Returns how the vector's places are divided into segments.
    pub fn layout(&self) -> Layout
        ensures { result ≡ self.now.layout }
    {
        self.table.layout()
    }

    /// Returns the places of the installed segments: the number of members that fit without more memory.
    pub fn capacity(&self) -> u64
        ensures value { result ≡ capacity_of self.now }
        ensures room { length self.now.members ≤ result }
    {
        if self.count == 0 {
            return 0;
        }
        let last = self.count - 1;
        let layout = self.layout();
        layout.first(last) + layout.len(last)
    }

    /// Tests whether no member is broken. It looks at none of them: the list counts the broken ones.
    pub fn is_unbroken(&self) -> bool
        ensures none { IsTrue result → IsUnbroken self.now.members }
        ensures some { IsFalse result → HasBroken self.now.members }
    {
        self.broken == 0
    }

    /// Returns the member at the place, or `None` if it is broken.
    pub fn get(&self, place: u64) -> Option<&T>
        requires { place < length self.now.members }
        ensures { MatchOption result (slice_get self.now.members place ≡ Some None)
            (λ value. slice_get self.now.members place ≡ Some (Some value.now)) }
    {
        let (_, offset, key) = cell_of(&self.table, &self.keys, self.count, place);
        let (value, _) = self
            .table
            .known(&key)
            .member(offset, &self.row.at(place), &self.epoch)?;
        Some(value)
    }
}

impl<T: Drop> Parts<T> {
    // Tests whether there is no room for n members.
    #[tactic(auto, using(crate::proofs::Places::few_below))]
    fn lacks_room(&self, n: u64) -> bool
        requires { n ≤ self.now.limit }
        ensures lacks { IsTrue result
            → (capacity_of self.now < n) × (self.now.segments < segment_count self.now.layout) }
        ensures has { IsFalse result → n ≤ capacity_of self.now }
    {
        // For the proof: reading a field shows the type's invariant.
        let _ = &self.table;
        self.capacity() < n
    }

    // Tests whether the last segment lies wholly above the members.
    fn has_spare(&self) -> bool
        ensures spare { IsTrue result → IsSpare self.now }
        ensures none { IsFalse result → ¬ IsSpare self.now }
    {
        self.count > 0 && self.layout().first(self.count - 1) >= self.len
    }

    // One segment more. Its cells are empty.
    fn add_segment(&mut self) -> Result<(), AllocError>
        requires { self.old.segments < segment_count self.old.layout }
        ensures rest_kept { self.new ≡ record self.old
            { segments = self.new.segments; closed = self.new.closed } }
        ensures more { IfOk result (λ _. self.new.segments ≡ self.old.segments + 1) }
        ensures same { IfErr result (λ _. self.new.segments ≡ self.old.segments) }
    {
        self.closed = None;
        // The entry may be set still, if a vector was closed into the list.
        clear_entry(&mut self.table, &mut self.keys, self.count);
        let n = self.table.layout().len(self.count);
        let block = Box::new(self.alloc, Block::new_idle(self.alloc, n)?)?;
        put_block(&mut self.table, &mut self.keys, self.count, block);
        self.count += 1;
        Ok(())
    }

    /// Makes room for n members in all: the capacity is then that of the fewest segments that hold them, or
    /// stays if it was larger. After a refusal nothing else has changed, and the capacity may be larger.
    pub fn room(&mut self, n: u64) -> Result<(), AllocError>
        requires { n ≤ self.old.limit }
        ensures rest_kept { self.new ≡ record self.old
            { segments = self.new.segments; closed = self.new.closed } }
        ensures room { IfOk result (λ _. n ≤ capacity_of self.new) }
        // If there is room, no memory is asked for.
        ensures spare { n ≤ capacity_of self.old → IsOk result }
        ensures kept { self.old.segments ≤ self.new.segments }
        ensures least { (k : ℕ) → self.old.segments ≤ k → k < self.new.segments
            → segment_start self.old.layout k < n }
    {
        while self.lacks_room(n) {
            self.add_segment()?;
        }
        Ok(())
    }

    // The last segment given up: it has no member.
    fn drop_segment(&mut self)
        requires { IsSpare self.old }
        ensures rest_kept { self.new ≡ record self.old
            { segments = self.new.segments; closed = self.new.closed } }
        ensures fewer { self.new.segments + 1 ≡ self.old.segments }
    {
        self.closed = None;
        self.count -= 1;
        self.table.give_up(self.count);
        self.keys.set(self.count, None);
    }

    /// Drops each segment that lies wholly above the members. It takes no memory.
    pub fn cut(&mut self)
        ensures rest_kept { self.new ≡ record self.old
            { segments = self.new.segments; closed = self.new.closed } }
        ensures fewer { self.new.segments ≤ self.old.segments }
        ensures least { (k : ℕ) → k < self.new.segments
            → segment_start self.new.layout k < length self.new.members }
    {
        while self.has_spare() {
            self.drop_segment();
        }
    }

    /// Appends a value or, with `None`, a broken member. It takes no memory.
    pub fn append(&mut self, value: Option<T>)
        requires below { length self.old.members < self.old.limit }
        requires room { length self.old.members < capacity_of self.old }
        ensures members { self.new.members ≡ self.old.members ++ value ∷ [] }
        ensures rest_kept { self.new ≡ record self.old
            { members = self.new.members; closed = self.new.closed } }
    {
        self.closed = None;
        self.broken += count_broken(&value);
        let (segment, offset, mut block) = take_block(
            &mut self.table,
            &self.keys,
            self.count,
            self.len,
        );
        let (member, held) = write(&mut block, offset, value, &self.epoch);
        drop(held);
        put_block(&mut self.table, &mut self.keys, segment, block);
        self.row.push(&member);
        self.len += 1;
    }

    /// Moves the last member out, or returns `None` if it was broken. It takes no memory.
    pub fn pop(&mut self) -> Option<T>
        requires { 0 < length self.old.members }
        ensures member { self.old.members ≡ self.new.members ++ result ∷ [] }
        ensures rest_kept { self.new ≡ record self.old
            { members = self.new.members; closed = self.new.closed } }
    {
        self.closed = None;
        self.len -= 1;
        let (segment, offset, mut block) = take_block(
            &mut self.table,
            &self.keys,
            self.count,
            self.len,
        );
        let value = block.take_member(offset, &self.row.at(self.len), &self.epoch);
        put_block(&mut self.table, &mut self.keys, segment, block);
        self.row.pop();
        self.broken -= count_broken(&value);
        value
    }

    /// Replaces the member at the place by a value or, with `None`, breaks it, and returns the value that was
    /// there, or `None` if it was broken. It takes no memory.
    pub fn replace(&mut self, place: u64, value: Option<T>) -> Option<T>
        requires { place < length self.old.members }
        ensures members { self.new.members ≡ slice_set self.old.members place value }
        ensures member { slice_get self.old.members place ≡ Some result }
        ensures rest_kept { self.new ≡ record self.old
            { members = self.new.members; closed = self.new.closed } }
    {
        self.closed = None;
        let (segment, offset, mut block) = take_block(
            &mut self.table,
            &self.keys,
            self.count,
            place,
        );
        let held = block.take_member(offset, &self.row.at(place), &self.epoch);
        self.broken = self.broken + count_broken(&value) - count_broken(&held);
        let (member, none) = write(&mut block, offset, value, &self.epoch);
        drop(none);
        put_block(&mut self.table, &mut self.keys, segment, block);
        self.row.set(place, &member);
        held
    }
}
