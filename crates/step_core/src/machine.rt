//! The machine of atomic steps.
ghost use Rattle.std.specs.Prelude.{◌≡◌, ◌≤◌, ◌<◌, ◌↔◌, length, IfOk, IfSome, OnOk, OnErr, IsErrOf, Some, None};
ghost use Rattle.std.specs.Prelude.{map as list_map};
ghost use Rattle.std.specs.FinMap as map;
ghost use Rattle.seg_core.specs.Segment.{IsLayout, IsLimit};
ghost use Rattle.book_core.specs.Commands.{AreSound, most_programs};
ghost use Rattle.step_core.specs.machine.Step.{step_of, IsStepped};
ghost use Rattle.step_core.specs.machine.Bounds.{IsInLimit};
ghost use Rattle.step_core.specs.machine.Installed.{HasSegments, MayRunOut};
ghost use Rattle.step_core.specs.machine.Tallies.{phases_at};

mod blocks;
mod counts;
mod phase;
mod schedule;
mod storage;
mod trace;

use crate::errors::MakeError;
use crate::machine::storage::Storage;
use crate::programs::check_programs;
use book_core::{Command, Ended, Event, Reply, Sequence};
pub use phase::{Actor, CellSlot, Next, Phase};
pub use schedule::{play, play_in, play_valid};
use seg_core::Layout;
use std::alloc::{AllocError, Global};
use std::marker::Model;
pub use trace::{Finding, TracedItem, TracedStep};

/// The result of one step: at most one event with its reply, and at most one ended call.
#[derive(Clone, Copy, Debug, PartialEq, Eq)]
pub struct Stepped {
    pub event: Option<(Event, Reply)>,
    pub ended: Option<Ended>,
}

// A step, and the phases of the call that took it, before it and after it, if the actor had a call.
#[derive(Clone, Copy)]
pub(crate) struct PhasedStep {
    pub(crate) stepped: Stepped,
    pub(crate) phases: Option<(Phase, Phase)>,
}

const NO_STEP: PhasedStep = PhasedStep {
    stepped: Stepped {
        event: None,
        ended: None,
    },
    phases: None,
};

/// Actors with programs on one vector, which they change by one atomic step at a time.
pub struct Machine {
    limit: u64,
    storage: Storage,
    actors: Vec<Actor>,
}

impl Model for Machine {
    ghost use Rattle.step_core.specs.machine.Step.{Configuration, configuration_code};
    ghost use Rattle.step_core.specs.machine.Bounds.{IsInLimit};
    ghost use Rattle.step_core.specs.machine.Installed.{HasSegments};

    ghost Value = { Configuration };

    ghost coded = { configuration_code };

    ghost view = { λ m. record { limit = m.limit; storage = m.storage; actors = m.actors.items } };

    ghost invariant = { λ m. IsInLimit
        (record { limit = m.limit; storage = m.storage; actors = m.actors.items })
        × HasSegments (record { limit = m.limit; storage = m.storage; actors = m.actors.items }) };
}

// By hand, so that proofs of callers do not go into its fields.
impl Drop for Machine {
    fn drop(self) {
        let Self {
            limit: _,
            storage: _,
            actors: _,
        } = self;
    }
}

impl Machine {
    ghost use Rattle.step_core.specs.machine.Step.{first_configuration, step_of};
    ghost use Rattle.step_core.specs.machine.Step.{IsStepped};
    ghost use Rattle.step_core.specs.machine.Installed.{MayRunOut};
    ghost use Rattle.step_core.specs.machine.Tallies.{HasRoom, phases_at};

    /// Makes a machine before its first step, with a first segment of two places. Its memory is linear in the
    /// actors.
    pub fn new(
        alloc: Global,
        limit: u64,
        programs: Sequence<Sequence<Command>>,
    ) -> Result<Machine, MakeError>
        requires { length programs ≤ most_programs }
        ensures made { IfOk result (λ machine. machine ≡ first_configuration 1 limit programs) }
        // What the laws ask for.
        ensures limit { OnOk result (IsLimit limit) }
        ensures sound { OnOk result (AreSound programs) }
        ensures bad_limit { IsErrOf result MakeError.BadLimit ↔ (IsLimit limit → ⊥) }
        ensures bad_command { IsErrOf result MakeError.BadCommand
            ↔ IsLimit limit × (AreSound programs → ⊥) }
    {
        Machine::new_in(alloc, Layout::default(), limit, programs)
    }

    /// Makes a machine before its first step, with segments of this layout.
    pub fn new_in(
        alloc: Global,
        layout: Layout,
        limit: u64,
        programs: Sequence<Sequence<Command>>,
    ) -> Result<Machine, MakeError>
        requires { length programs ≤ most_programs }
        ensures made { IfOk result
            (λ machine. machine ≡ first_configuration layout limit programs) }
        // What the laws ask for.
        ensures layout { OnOk result (IsLayout layout) }
        ensures limit { OnOk result (IsLimit limit) }
        ensures sound { OnOk result (AreSound programs) }
        ensures bad_limit { IsErrOf result MakeError.BadLimit ↔ (IsLimit limit → ⊥) }
        ensures bad_command { IsErrOf result MakeError.BadCommand
            ↔ IsLimit limit × (AreSound programs → ⊥) }
    {
        check_programs(limit, programs.as_slice())?;
        Machine::of_sound(alloc, layout, limit, programs).map_err(|_| MakeError::NoMemory)
    }

    /// Makes a machine like [`Machine::new_in`], of a limit and commands that are known to be in order, as
    /// those of a script are. It looks at none of them again.
    pub fn of_sound(
        alloc: Global,
        layout: Layout,
        limit: u64,
        programs: Sequence<Sequence<Command>>,
    ) -> Result<Machine, AllocError>
        requires few { length programs ≤ most_programs }
        requires limit { IsLimit limit }
        requires sound { AreSound programs }
        ensures made { IfOk result
            (λ machine. machine ≡ first_configuration layout limit programs) }
        ensures layout { OnOk result (IsLayout layout) }
    {
        Ok(Machine {
            limit,
            storage: Storage::new(alloc, layout),
            actors: actors_of(alloc, programs)?,
        })
    }

    /// Returns the number of actors.
    pub fn actors(&self) -> usize
        ensures { result ≡ length self.now.actors }
    {
        self.actors.len()
    }

    /// Returns the number of claimed places.
    pub fn size(&self) -> u64
        ensures { result ≡ self.now.storage.size }
    {
        self.storage.size()
    }

    /// Returns what the slot of a place holds, or `None` if it is empty.
    pub fn slot(&self, place: u64) -> Option<CellSlot>
        ensures { result ≡ map.get self.now.storage.slots place }
    {
        self.storage.slot(place)
    }

    // How the places are cut into segments.
    pub(crate) fn layout(&self) -> Layout
        ensures { result ≡ self.now.storage.layout }
    {
        self.storage.layout()
    }

    /// Takes one atomic step of an actor. An actor with nothing left, or without a program, changes nothing.
    ///
    /// `memory` says whether a request for a segment is granted in this step. A step takes constant time,
    /// except that Put of a segment that is not installed makes its block, in one pass over it.
    pub fn step(&mut self, actor: u32, memory: bool) -> Result<Stepped, AllocError>
        ensures steps { IfOk result (λ stepped.
            IsStepped (step_of self.old actor memory) self.new stepped) }
        // Real memory ran out, which `memory` does not cause: at Put of a new segment alone.
        ensures err { OnErr result (self.new ≡ self.old) }
        ensures memory { OnErr result (MayRunOut self.old actor memory) }
    {
        Ok(self.step_phases(actor, memory)?.stepped)
    }

    // The same step, with the phases before it and after it.
    pub(crate) fn step_phases(&mut self, actor: u32, memory: bool) -> Result<PhasedStep, AllocError>
        ensures steps { IfOk result (λ step.
            IsStepped (step_of self.old actor memory) self.new step.stepped) }
        ensures phases { IfOk result (λ step. step.phases ≡ phases_at self.old self.new actor) }
        ensures room { IfOk result (λ step. IfSome step.phases (λ (_, after). HasRoom after)) }
        ensures err { OnErr result (self.new ≡ self.old) }
        ensures memory { OnErr result (MayRunOut self.old actor memory) }
    {
        step_among(
            self.limit,
            &mut self.storage,
            &mut self.actors,
            actor,
            memory,
        )
    }
}

fn step_among(
    limit: u64,
    storage: &mut Storage,
    actors: &mut Vec<Actor>,
    actor: u32,
    memory: bool,
) -> Result<PhasedStep, AllocError>
    requires limit { IsInLimit
        (record { limit = limit; storage = storage.old; actors = actors.old.items }) }
    requires segments { HasSegments
        (record { limit = limit; storage = storage.old; actors = actors.old.items }) }
    ensures steps { IfOk result (λ step. IsStepped
        (step_of (record { limit = limit; storage = storage.old; actors = actors.old.items })
        actor memory)
        (record { limit = limit; storage = storage.new; actors = actors.new.items })
        step.stepped) }
    ensures phases { IfOk result (λ step. step.phases ≡ phases_at
        (record { limit = limit; storage = storage.old; actors = actors.old.items })
        (record { limit = limit; storage = storage.new; actors = actors.new.items }) actor) }
    ensures err { OnErr result
        ((storage.new ≡ storage.old) × (actors.new.items ≡ actors.old.items)) }
    ensures memory { OnErr result
        (MayRunOut (record { limit = limit; storage = storage.old; actors = actors.old.items })
        actor memory) }
{
    let Some(current) = actors.get_mut(actor as usize) else {
        return Ok(NO_STEP);
    };
    let Some(command) = current.command() else {
        return Ok(NO_STEP);
    };
    let before = current.phase;
    let outcome = storage.step(limit, actor, &command, memory, before)?;
    let ended = current.follow(actor, command, outcome.next);
    Ok(PhasedStep {
        stepped: Stepped {
            event: outcome.event,
            ended,
        },
        phases: Some((before, current.phase)),
    })
}

fn actors_of(alloc: Global, programs: Sequence<Sequence<Command>>) -> Result<Vec<Actor>, AllocError>
    ensures { IfOk result (λ actors. actors.items
        ≡ list_map (λ program. record { program = program; ended = 0; phase = Phase.Load })
        programs) }
{
    programs
        .into_vec()
        .into_iter()
        .map(|program| Actor {
            program,
            ended: 0,
            phase: Phase::Load,
        })
        .collect(alloc)
}
