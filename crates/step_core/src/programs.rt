//! Programs and schedules, and what a play of them gives.
ghost use Rattle.std.specs.Prelude.{◌<◌, ◌↔◌, IsTrue, OnOk, IsErrOf, All};
ghost use Rattle.seg_core.specs.Segment.{IsLimit};
ghost use Rattle.book_core.specs.Commands.{IsSound, AreSound, HavePrograms};

use crate::errors::{MakeError, PlayError};
use book_core::{Cell, CellVec, Command, Ended, Event, Item, Reply, Sequence, Work};

/// The result of a play: the events with their replies and the ended calls, each in order; the cells at the
/// end; and what each ended call took, in the order of `ended`. A play of whole calls has no counts.
#[derive(Debug, Drop)]
pub struct Played {
    pub events: Sequence<(Event, Reply)>,
    pub ended: Sequence<Ended>,
    pub cells: Sequence<Cell>,
    pub work: Sequence<Work>,
}

fn is_sound(command: &Command) -> bool
    ensures { IsTrue result ↔ IsSound command.now }
{
    match command {
        Command::Fail { n, at, .. } => at < n,
        _ => true,
    }
}

fn is_sound_program(program: &Sequence<Command>) -> bool
    ensures { IsTrue result ↔ All (λ command. IsSound command) program.now }
{
    program.as_slice().iter().all(is_sound)
}

fn are_sound(programs: &[Sequence<Command>]) -> bool
    ensures { IsTrue result ↔ AreSound programs.now }
{
    programs.iter().all(is_sound_program)
}

fn have_programs(programs: &[Sequence<Command>], items: &[Item]) -> bool
    ensures { IsTrue result ↔ HavePrograms programs.now items.now }
{
    let count = programs.len();
    items.iter().all(|item| (item.actor as usize) < count)
}

// Tests whether the programs can be run: the limit is looked at first, then the commands.
pub(crate) fn check_programs(limit: u64, programs: &[Sequence<Command>]) -> Result<(), MakeError>
    ensures limit { OnOk result (IsLimit limit) }
    ensures sound { OnOk result (AreSound programs.now) }
    ensures bad_limit { IsErrOf result MakeError.BadLimit ↔ (IsLimit limit → ⊥) }
    ensures bad_command { IsErrOf result MakeError.BadCommand
        ↔ IsLimit limit × (AreSound programs.now → ⊥) }
    ensures no_memory_taken { IsErrOf result MakeError.NoMemory → ⊥ }
{
    if !CellVec::is_limit(limit) {
        return Err(MakeError::BadLimit);
    }
    if !are_sound(programs) {
        return Err(MakeError::BadCommand);
    }
    Ok(())
}

// Tests whether the schedule can be played: the programs are looked at first, and then whether each item has
// one.
pub(crate) fn check_schedule(
    limit: u64,
    programs: &[Sequence<Command>],
    items: &[Item],
) -> Result<(), PlayError>
    ensures limit { OnOk result (IsLimit limit) }
    ensures sound { OnOk result (AreSound programs.now) }
    ensures items { OnOk result (HavePrograms programs.now items.now) }
    ensures bad_limit { IsErrOf result PlayError.BadLimit ↔ (IsLimit limit → ⊥) }
    ensures bad_command { IsErrOf result PlayError.BadCommand
        ↔ IsLimit limit × (AreSound programs.now → ⊥) }
    ensures bad_actor { IsErrOf result PlayError.BadActor
        ↔ IsLimit limit × AreSound programs.now × (HavePrograms programs.now items.now → ⊥) }
    ensures no_memory_taken { IsErrOf result PlayError.NoMemory → ⊥ }
{
    check_programs(limit, programs)?;
    if !have_programs(programs, items) {
        return Err(PlayError::BadActor);
    }
    Ok(())
}
