//! What the actors of the machine share. Each kind of step has a file of its own.
ghost use Rattle.std.specs.Prelude.{◌≡◌, ◌-◌, ◌≤◌, ◌<◌, IfOk, OnErr, Some, None};
ghost use Rattle.std.specs.FinMap as map;
ghost use Rattle.std.specs.FinSet as set;
ghost use Rattle.seg_core.specs.Segment.{IsLayout, most_places};

mod claim;
mod load;
mod places;
mod segments;

use crate::machine::blocks::Blocks;
use crate::machine::phase::{CellSlot, Next, Phase};
use book_core::{Answer, Command, Event, Reply};
use seg_core::Layout;
use std::alloc::{AllocError, Global};
use std::marker::Model;

// The size, and the blocks of the installed segments.
#[derive(Drop)]
pub(crate) struct Storage {
    size: u64,
    blocks: Blocks,
}

impl Model for Storage {
    ghost use Rattle.step_core.specs.machine.Storage.{Storage as StorageView, storage_code};

    ghost Value = { StorageView };

    ghost coded = { storage_code };

    ghost view = { λ s. record {
      layout = s.blocks.layout;
      size = s.size;
      installed = s.blocks.installed;
      slots = s.blocks.slots;
    } };
}

// What a step gives besides what it leaves: at most one event with its reply, and what follows.
#[derive(Clone, Copy)]
pub(crate) struct StepOutcome {
    pub(crate) event: Option<(Event, Reply)>,
    pub(crate) next: Next,
}

pub(crate) fn go_on_to(phase: Phase) -> StepOutcome
    ensures { (result.event ≡ None) × (result.next ≡ Next.Goes phase) }
{
    StepOutcome {
        event: None,
        next: Next::Goes(phase),
    }
}

pub(crate) fn end_call(event: Event, reply: Reply, answer: Answer) -> StepOutcome
    ensures { (result.event ≡ Some (event, reply)) × (result.next ≡ Next.Ends answer) }
{
    StepOutcome {
        event: Some((event, reply)),
        next: Next::Ends(answer),
    }
}

impl Storage {
    ghost use Rattle.step_core.specs.machine.Step.{outcome_of};
    ghost use Rattle.step_core.specs.machine.Bounds.{IsWithin, given};
    ghost use Rattle.step_core.specs.machine.Installed.{HasPassed, TakesMemory};

    pub(crate) fn new(alloc: Global, layout: Layout) -> Self
        ensures empty { result ≡ record
            { layout = layout; size = 0; installed = set.empty; slots = map.empty } }
        ensures layout { IsLayout layout }
    {
        Storage {
            size: 0,
            blocks: Blocks::new(alloc, layout),
        }
    }

    // How the places are cut into segments.
    pub(crate) fn layout(&self) -> Layout
        ensures { result ≡ self.now.layout }
    {
        self.blocks.layout()
    }

    // How many places are claimed.
    pub(crate) fn size(&self) -> u64
        ensures { result ≡ self.now.size }
    {
        self.size
    }

    // What the slot of a place holds.
    pub(crate) fn slot(&self, place: u64) -> Option<CellSlot>
        ensures { result ≡ map.get self.now.slots place }
    {
        self.blocks.get(place)
    }

    // One step of an actor in this phase of this call.
    pub(crate) fn step(
        &mut self,
        limit: u64,
        actor: u32,
        command: &Command,
        memory: bool,
        phase: Phase,
    ) -> Result<StepOutcome, AllocError>
        requires limit { limit ≤ most_places }
        requires size { self.old.size ≤ limit }
        requires phase { IsWithin self.old.layout limit command.now phase }
        requires passed { HasPassed self.old phase }
        ensures gives { IfOk result (λ outcome. given self.new outcome
            ≡ outcome_of limit self.old actor command.now memory phase) }
        ensures err { OnErr result (self.new ≡ self.old) }
        ensures memory { OnErr result (TakesMemory self.old phase memory) }
    {
        match phase {
            Phase::Load => Ok(self.load(limit, actor, command)),
            Phase::Scout { from, n, segment } => Ok(self.scout(command, from, n, segment)),
            Phase::Put { from, n, segment } => self.put(actor, command, memory, from, n, segment),
            Phase::Exchange { from, n } => Ok(self.exchange(limit, actor, from, n)),
            Phase::Raise { to } => Ok(self.raise(actor, to)),
            Phase::Begin { from, n, place } => Ok(self.begin(actor, command, from, n, place)),
            Phase::Fill { from, n, place } => Ok(self.fill(actor, command, from, n, place)),
            Phase::Spoil { from, n, place } => Ok(self.spoil(actor, command, from, n, place)),
            Phase::Mend { place } => Ok(self.mend(actor, place)),
            Phase::FillMended { place } => Ok(self.fill_mended(actor, command, place)),
            Phase::Look { place } => Ok(self.look(actor, place)),
        }
    }
}
