//! The segments of the machine: an entry for each, empty or a block with a slot for each of its places.
ghost use Rattle.std.specs.Prelude.{◌≡◌, ◌<◌, true, length, replicate, slice_get, slice_set, IfOk, OnOk};
ghost use Rattle.std.specs.Prelude.{OnErr, IsOk, IsSome, IfSome, Some, None};
ghost use Rattle.std.specs.Option.{option_map};
ghost use Rattle.std.specs.FinMap as map;
ghost use Rattle.std.specs.FinSet as set;
ghost use Rattle.seg_core.specs.Segment.{IsLayout, most_places, segment_count, segment_of};
ghost use Rattle.step_core.specs.machine.Blocks.{flattened};

use crate::machine::phase::CellSlot;
use seg_core::{Layout, MOST_PLACES, MOST_SEGMENTS};
use std::alloc::{AllocError, Global};
use std::array;
use std::marker::Model;

// The slots of one segment, in the order of its places; `None` is an empty one.
#[derive(Drop)]
struct CellBlock {
    slots: Vec<Option<CellSlot>>,
}

impl Model for CellBlock {
    ghost use Rattle.std.specs.Prelude.{List, Option};
    ghost use Rattle.step_core.specs.declared.machine.phase.CellSlot.{CellSlot};

    ghost Value = { List (Option CellSlot) };

    ghost view = { λ b. b.slots.items };
}

impl CellBlock {
    // A block of empty slots, made in one pass.
    fn new(alloc: Global, len: u64) -> Result<Self, AllocError>
        ensures { IfOk result (λ block. block ≡ replicate len None) }
    {
        Ok(CellBlock {
            slots: vec![in alloc; None; len as usize]?,
        })
    }

    fn get(&self, offset: u64) -> Option<CellSlot>
        ensures { result ≡ flattened (slice_get self.now offset) }
    {
        self.slots.get(offset as usize).copied().flatten()
    }

    fn set(&mut self, offset: u64, slot: CellSlot)
        requires { offset < length self.old }
        ensures { self.new ≡ slice_set self.old offset (Some slot) }
    {
        self.slots[offset as usize] = Some(slot);
    }
}

// The entries of the segments. There is room for those of every layout.
#[derive(Drop)]
pub(crate) struct Blocks {
    alloc: Global,
    layout: Layout,
    entries: [Option<CellBlock>; MOST_SEGMENTS],
}

impl Model for Blocks {
    ghost use Rattle.step_core.specs.machine.Blocks.{Shown, shown_code, shown, AreBlocks};

    ghost Value = { Shown };

    ghost coded = { shown_code };

    ghost view = { λ b. shown b.layout b.entries };

    ghost invariant = { λ b. AreBlocks b.layout b.entries };
}

impl Blocks {
    ghost use Rattle.step_core.specs.machine.Blocks.{shown_with_segment, shown_with_slot};

    pub(crate) fn new(alloc: Global, layout: Layout) -> Self
        ensures empty { result ≡ record
            { layout = layout; installed = set.empty; slots = map.empty } }
        ensures layout { IsLayout layout }
    {
        // For the proof: its f is that of a layout.
        let _f = layout.f();
        Blocks {
            alloc,
            layout,
            entries: array::from_fn(|_| None),
        }
    }

    // How the places are cut into segments.
    pub(crate) fn layout(&self) -> Layout
        ensures value { result ≡ self.now.layout }
        ensures layout { IsLayout result }
    {
        self.layout
    }

    // Tests whether a segment is installed.
    pub(crate) fn has(&self, segment: u32) -> bool
        requires { segment < segment_count self.now.layout }
        ensures { result ≡ set.contains self.now.installed segment }
    {
        self.entries[segment as usize].is_some()
    }

    // What the slot of a place holds; nothing past all segments.
    pub(crate) fn get(&self, place: u64) -> Option<CellSlot>
        ensures { result ≡ map.get self.now.slots place }
    {
        let entries = &self.entries;
        if MOST_PLACES <= place {
            return None;
        }
        let (segment, offset) = self.layout.locate(place);
        match &entries[segment as usize] {
            Some(block) => block.get(offset),
            None => None,
        }
    }

    // Sets the slot of a place whose segment is installed. It takes no memory.
    pub(crate) fn set(&mut self, place: u64, slot: CellSlot)
        requires place { place < most_places }
        requires there { set.contains self.old.installed (segment_of self.old.layout place) ≡ true }
        ensures { self.new ≡ shown_with_slot self.old place slot }
    {
        let (segment, offset) = self.layout.locate(place);
        set_in(&mut self.entries[segment as usize], offset, slot);
    }

    // Makes the block of a segment, if it has none, in one pass over it. Only then does it take memory.
    pub(crate) fn install(&mut self, segment: u32) -> Result<(), AllocError>
        requires { segment < segment_count self.old.layout }
        ensures ok { OnOk result (self.new ≡ shown_with_segment self.old segment) }
        ensures err { OnErr result (self.new ≡ self.old) }
        ensures there { set.contains self.old.installed segment ≡ true → IsOk result }
    {
        if self.has(segment) {
            return Ok(());
        }
        make_in(
            &mut self.entries[segment as usize],
            self.alloc,
            self.layout.len(segment),
        )?;
        Ok(())
    }
}

// The slot at this offset of the block holds this now.
fn set_in(entry: &mut Option<CellBlock>, offset: u64, slot: CellSlot)
    requires there { IsSome entry.old }
    requires inside { IfSome entry.old (λ block. offset < length block) }
    ensures { entry.new ≡ option_map (λ block. slice_set block offset (Some slot)) entry.old }
{
    match entry {
        Some(block) => block.set(offset, slot),
        None => unreachable!(),
    }
}

// The entry has an empty block of this length; if memory runs out, it is as it was.
fn make_in(entry: &mut Option<CellBlock>, alloc: Global, len: u64) -> Result<(), AllocError>
    ensures ok { OnOk result (entry.new ≡ Some (replicate len None)) }
    ensures err { OnErr result (entry.new ≡ entry.old) }
{
    *entry = Some(CellBlock::new(alloc, len)?);
    Ok(())
}
