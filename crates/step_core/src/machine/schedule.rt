//! Plays of the machine: each item of a schedule is one atomic step.
ghost use Rattle.std.specs.Prelude.{◌≡◌, ◌≤◌, ◌↔◌, ◌++◌, length, replicate, IfOk, IfSome, OnOk, Some, IsErrOf};
ghost use Rattle.std.specs.FinMap as map;
ghost use Rattle.seg_core.specs.Segment.{IsLayout, IsLimit};
ghost use Rattle.book_core.specs.Commands.{AreSound, HavePrograms, HaveActors, most_programs};
ghost use Rattle.book_core.specs.History.{run_of};
ghost use Rattle.step_core.specs.machine.Owners.{owners_of};
ghost use Rattle.step_core.specs.machine.Work.{AreOfActors, play_shown};

use crate::errors::PlayError;
use crate::machine::counts::CountedPlay;
use crate::machine::phase::CellSlot;
use crate::machine::{Machine, PhasedStep};
use crate::programs::{Played, check_schedule};
use book_core::{Cell, Command, Ended, Event, Item, Reply, Sequence, Work};
use seg_core::Layout;
use std::alloc::{AllocError, Global};
use std::marker::Model;

// A play so far.
#[derive(Drop)]
pub(crate) struct MachinePlay {
    machine: Machine,
    events: Vec<(Event, Reply)>,
    ended: Vec<Ended>,
}

impl Model for MachinePlay {
    ghost use Rattle.step_core.specs.machine.Play.{Play, play_code};

    ghost Value = { Play };

    ghost coded = { play_code };

    ghost view = { λ p. record { at = p.machine; events = p.events.items; ended = p.ended.items } };
}

impl MachinePlay {
    ghost use Rattle.book_core.specs.History.{runs_of};
    ghost use Rattle.step_core.specs.machine.Owners.{cells_from, played_by_owners};
    ghost use Rattle.step_core.specs.machine.Play.{with_step, cell_of};
    ghost use Rattle.step_core.specs.machine.Step.{step_of};
    ghost use Rattle.step_core.specs.machine.Tallies.{HasRoom, phases_at};

    pub(crate) fn layout(&self) -> Layout
        ensures { result ≡ self.now.at.storage.layout }
    {
        self.machine.layout()
    }

    // One step.
    pub(crate) fn play_item(&mut self, item: &Item) -> Result<PhasedStep, AllocError>
        ensures step { OnOk result
            (self.new ≡ with_step self.old (step_of self.old.at item.now.actor item.now.memory)) }
        ensures ended { IfOk result (λ step.
            step.stepped.ended ≡ (step_of self.old.at item.now.actor item.now.memory).ended) }
        ensures phases { IfOk result
            (λ step. step.phases ≡ phases_at self.old.at self.new.at item.now.actor) }
        ensures room { IfOk result (λ step. IfSome step.phases (λ (_, after). HasRoom after)) }
    {
        let step = self.machine.step_phases(item.actor, item.memory)?;
        if let Some(row) = step.stepped.event {
            self.events.push(row)?;
        }
        if let Some(ended) = step.stepped.ended {
            self.ended.push(ended)?;
        }
        Ok(step)
    }

    // The owner of each claimed place, in order.
    fn owners(&self, alloc: Global) -> Result<Vec<u32>, AllocError>
        ensures { IfOk result (λ owners. owners.items ≡ owners_of (runs_of self.now.events)) }
    {
        let mut owners = Vec::new(alloc);
        for row in &self.events {
            push_run(&mut owners, row)?;
        }
        Ok(owners)
    }

    fn cell(&self, owner: u32, place: u64) -> Cell
        ensures { result ≡ cell_of (Some owner) (map.get self.now.at.storage.slots place) }
    {
        match self.machine.slot(place) {
            None => Cell::Pending(owner),
            Some(CellSlot::Busy(actor)) => Cell::Pending(actor),
            Some(CellSlot::Filled(value)) => Cell::Filled(value),
            Some(CellSlot::Broken) => Cell::Broken,
        }
    }

    fn cells(&self, alloc: Global, owners: &[u32]) -> Result<Vec<Cell>, AllocError>
        ensures { IfOk result (λ cells. cells.items
            ≡ cells_from (map.get self.now.at.storage.slots) 0 owners.now) }
    {
        let mut cells = Vec::new(alloc);
        for owner in owners {
            cells.push(self.cell(*owner, cells.len() as u64))?;
        }
        Ok(cells)
    }

    // The cells of all claimed places, in order.
    fn all_cells(&self, alloc: Global) -> Result<Vec<Cell>, AllocError>
        ensures { IfOk result (λ cells. cells.items
            ≡ cells_from (map.get self.now.at.storage.slots) 0 (owners_of (runs_of self.now.events))) }
    {
        let owners = self.owners(alloc)?;
        let cells = self.cells(alloc, &owners);
        drop(owners);
        cells
    }

    // What the play shows, with what its calls took.
    pub(crate) fn into_played(self, alloc: Global, work: Vec<Work>) -> Result<Played, AllocError>
        ensures { IfOk result (λ played. played ≡ played_by_owners self work.items) }
    {
        let shown = self.all_cells(alloc);
        let MachinePlay {
            machine,
            events,
            ended,
        } = self;
        drop(machine);
        match shown {
            Ok(cells) => Ok(Played {
                events: Sequence::from_vec(events),
                ended: Sequence::from_vec(ended),
                cells: Sequence::from_vec(cells),
                work: Sequence::from_vec(work),
            }),
            Err(error) => {
                drop((events, ended, work));
                Err(error)
            }
        }
    }
}

fn push_owner(owners: &mut Vec<u32>, owner: u32, n: u64) -> Result<(), AllocError>
    ensures { OnOk result (owners.new.items ≡ owners.old.items ++ replicate n owner) }
{
    for _more in 0..n {
        owners.push(owner)?;
    }
    Ok(())
}

// The owner of the run that an event won, once for each of its places.
fn push_run(owners: &mut Vec<u32>, row: &(Event, Reply)) -> Result<(), AllocError>
    ensures { OnOk result (owners.new.items ≡ owners.old.items
        ++ owners_of (run_of row.now.0 row.now.1)) }
{
    match *row {
        (Event::Claim { actor, .. } | Event::Raise { actor, .. }, Reply::Run { n, .. }) => {
            push_owner(owners, actor, n)
        }
        _ => Ok(()),
    }
}

/// Plays one atomic step per item like [`play_in`], of a limit, programs and items that are known to be in
/// order, as those of a script are. It looks at none of them again.
pub fn play_valid(
    alloc: Global,
    layout: Layout,
    limit: u64,
    programs: Sequence<Sequence<Command>>,
    items: &[Item],
) -> Result<Played, AllocError>
    requires few { length programs ≤ most_programs }
    requires limit { IsLimit limit }
    requires sound { AreSound programs }
    requires programs { HavePrograms programs items.now }
    ensures played { IfOk result (λ played. played ≡ play_shown layout limit programs items.now) }
    ensures actors { IfOk result (λ played. HaveActors (length programs) played.ended) }
    ensures work { IfOk result (λ played. AreOfActors (length programs) played.work) }
    ensures layout { OnOk result (IsLayout layout) }
{
    let actors = programs.len();
    let play = MachinePlay {
        machine: Machine::of_sound(alloc, layout, limit, programs)?,
        events: Vec::new(alloc),
        ended: Vec::new(alloc),
    };
    let mut counted = CountedPlay::new(alloc, play, actors)?;
    counted.play(items)?;
    counted.into_played(alloc)
}

/// Plays one atomic step per item, with a first segment of two places. An item of an actor with nothing left
/// changes nothing.
///
/// A reader finds a place pending if nobody has finished or broken it, or if it is being mended. Its time and
/// memory are linear in the items, and in the places of the installed segments.
pub fn play(
    alloc: Global,
    limit: u64,
    programs: Sequence<Sequence<Command>>,
    items: &[Item],
) -> Result<Played, PlayError>
    requires { length programs ≤ most_programs }
    ensures played { IfOk result (λ played. played ≡ play_shown 1 limit programs items.now) }
    ensures actors { IfOk result (λ played. HaveActors (length programs) played.ended) }
    ensures work { IfOk result (λ played. AreOfActors (length programs) played.work) }
    // What the laws ask for.
    ensures limit { OnOk result (IsLimit limit) }
    ensures sound { OnOk result (AreSound programs) }
    ensures bad_limit { IsErrOf result PlayError.BadLimit ↔ (IsLimit limit → ⊥) }
    ensures bad_command { IsErrOf result PlayError.BadCommand
        ↔ IsLimit limit × (AreSound programs → ⊥) }
    ensures bad_actor { IsErrOf result PlayError.BadActor
        ↔ IsLimit limit × AreSound programs × (HavePrograms programs items.now → ⊥) }
{
    play_in(alloc, Layout::default(), limit, programs, items)
}

/// Plays one atomic step per item like [`play`], with segments of this layout.
pub fn play_in(
    alloc: Global,
    layout: Layout,
    limit: u64,
    programs: Sequence<Sequence<Command>>,
    items: &[Item],
) -> Result<Played, PlayError>
    requires { length programs ≤ most_programs }
    ensures played { IfOk result (λ played. played ≡ play_shown layout limit programs items.now) }
    ensures actors { IfOk result (λ played. HaveActors (length programs) played.ended) }
    ensures work { IfOk result (λ played. AreOfActors (length programs) played.work) }
    // What the laws ask for.
    ensures layout { OnOk result (IsLayout layout) }
    ensures limit { OnOk result (IsLimit limit) }
    ensures sound { OnOk result (AreSound programs) }
    ensures bad_limit { IsErrOf result PlayError.BadLimit ↔ (IsLimit limit → ⊥) }
    ensures bad_command { IsErrOf result PlayError.BadCommand
        ↔ IsLimit limit × (AreSound programs → ⊥) }
    ensures bad_actor { IsErrOf result PlayError.BadActor
        ↔ IsLimit limit × AreSound programs × (HavePrograms programs items.now → ⊥) }
{
    check_schedule(limit, programs.as_slice(), items)?;
    play_valid(alloc, layout, limit, programs, items).map_err(|_| PlayError::NoMemory)
}
