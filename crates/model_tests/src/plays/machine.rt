//! The machine, one step after another.

use super::{UNSOUND, one_call};
use book_core::{Answer, Command, Event, Reply, Sequence};
use script_core::read;
use std::alloc::{AllocError, Global};
use std::test::Fail;
use step_core::{CellSlot, Machine, MakeError, Stepped};

// An actor's step with memory, the size after it, and whether it is an event.
pub(super) type Row = (u32, u64, bool);

// Two pushes; the second loses its first exchange.
#[rattlefmt::skip]
const LOST: [Row; 13] = [
    (0, 0, false), (1, 0, false), (0, 0, false), (0, 0, false), (1, 0, false), (0, 1, true),
    (1, 1, false), (1, 1, false), (1, 2, true), (1, 2, false), (1, 2, true), (0, 2, false),
    (0, 2, true),
];

// Two growths to a size; the first finds enough.
#[rattlefmt::skip]
const RAISED: [Row; 22] = [
    (0, 0, false), (0, 0, false), (0, 0, false), (0, 0, false), (0, 0, false), (1, 0, false),
    (1, 0, false), (1, 0, false), (1, 0, false), (1, 0, false), (1, 5, true), (1, 5, false),
    (1, 5, true), (1, 5, false), (1, 5, true), (1, 5, false), (1, 5, true), (1, 5, false),
    (1, 5, true), (1, 5, false), (1, 5, true), (0, 5, true),
];

// A growth whose construction is refused at its second place.
#[rattlefmt::skip]
const BROKEN: [Row; 12] = [
    (0, 0, false), (0, 0, false), (0, 0, false), (0, 0, false), (0, 0, false), (0, 3, true),
    (0, 3, false), (0, 3, true), (0, 3, false), (0, 3, true), (0, 3, false), (0, 3, true),
];

#[rattlefmt::skip]
pub(super) static PLAYS: [(&'static str, &'static [Row]); 3] = [
    ("limit 8\nactor a push 5\nactor b push 5\nsteps", &LOST),
    ("limit 8\nactor a atleast 4 0\nactor b atleast 5 1\nsteps", &RAISED),
    ("limit 8\nactor a fail 3 7 1\nsteps", &BROKEN),
];

// A machine at the programs of a script.
pub(super) fn machine(alloc: Global, script: &str) -> Result<Machine, Fail> {
    let script = read(alloc, script.as_bytes())?;
    Ok(Machine::new(alloc, script.limit, script.programs)?)
}

// Tests whether the size and the events after each step of a machine are those of these rows.
fn takes(mut machine: Machine, rows: &[Row]) -> Result<bool, Fail> {
    for (actor, size, is_event) in rows {
        let stepped = machine.step(*actor, true)?;
        if machine.size() != *size || stepped.event.is_some() != *is_event {
            return Ok(false);
        }
    }
    Ok(true)
}

#[test]
fn the_size_moves_at_the_claiming_steps(rt: HostRuntime) -> Result<(), Fail> {
    for (script, rows) in PLAYS.as_slice() {
        assert!(rt; takes(machine(rt.alloc(), script)?, rows)?, "{script}");
    }
    Ok(())
}

// A step whose mark refuses memory takes none: a caller's proof, by the clauses of `step` alone.
fn refused_step(machine: &mut Machine, actor: u32) -> Stepped {
    match machine.step(actor, false) {
        Ok(stepped) => stepped,
        Err(_) => unreachable!(),
    }
}

const PUSHES: &str = "limit 8\nactor a push 5\nactor b push 6\nsteps";

static SLOTS: [Option<CellSlot>; 6] = [
    None,
    None,
    None,
    None,
    Some(CellSlot::Busy(1)),
    Some(CellSlot::Filled(6)),
];

// Tests whether the first place has these slots after one step each of the second actor.
fn has_slots(machine: &mut Machine, slots: &[Option<CellSlot>]) -> bool {
    for slot in slots {
        if machine.step(1, true).is_err() || machine.slot(0) != *slot {
            return false;
        }
    }
    true
}

#[test]
fn a_slot_is_busy_for_the_actor_that_began_it(rt: HostRuntime) -> Result<(), Fail> {
    let mut machine = machine(rt.alloc(), PUSHES)?;
    assert!(rt; has_slots(&mut machine, SLOTS.as_slice()) && machine.slot(1).is_none());
    Ok(())
}

// The actors whose steps come before that of the refused segment. None of them is an event.
static BEFORE: [u32; 5] = [0, 0, 1, 1, 1];

fn have_no_event(machine: &mut Machine, actors: &[u32]) -> bool {
    for actor in actors {
        match machine.step(*actor, true) {
            Ok(stepped) if stepped.event.is_none() => {}
            _ => return false,
        }
    }
    true
}

// Tests whether a refused step of the first actor ends its call without memory.
fn ends_without_memory(machine: &mut Machine) -> bool {
    let stepped = refused_step(machine, 0);
    let answer = stepped.ended.map(|ended| ended.answer);
    stepped.event == Some((Event::RefusedMemory { actor: 0 }, Reply::NoMemory))
        && answer == Some(Answer::NoMemory)
}

#[test]
fn a_refused_segment_ends_the_call_though_it_is_there(rt: HostRuntime) -> Result<(), Fail> {
    let mut machine = machine(rt.alloc(), PUSHES)?;
    assert!(rt; have_no_event(&mut machine, BEFORE.as_slice()));
    assert!(rt; machine.actors() == 2 && machine.size() == 0 && machine.slot(0).is_none());
    assert!(rt; ends_without_memory(&mut machine));
    Ok(())
}

// An actor for each number below a bound, each with one call.
fn one_call_each(
    alloc: Global,
    actors: u32,
    call: Command,
) -> Result<Sequence<Sequence<Command>>, AllocError> {
    let mut programs = Vec::new(alloc);
    for _actor in 0..actors {
        programs.push(Sequence::from_vec(vec![in alloc; call]?))?;
    }
    Ok(Sequence::from_vec(programs))
}

// Takes six steps of an actor, and returns whether there was memory.
fn takes_six_steps(machine: &mut Machine, actor: u32) -> bool {
    for _step in 0..6 {
        if machine.step(actor, true).is_err() {
            return false;
        }
    }
    true
}

// Tests whether each of 65,536 actors fills a place by its six steps.
fn is_filled_by_all(machine: &mut Machine) -> bool {
    for actor in 0..65_536 {
        if !takes_six_steps(machine, actor) {
            return false;
        }
    }
    machine.actors() == 65_536
        && machine.size() == 65_536
        && machine.slot(65_535) == Some(CellSlot::Filled(9))
}

#[test]
fn the_most_programs_are_played(rt: HostRuntime) -> Result<(), Fail> {
    let programs = one_call_each(rt.alloc(), 65_536, Command::Push { value: 9 })?;
    assert!(rt; programs.len() == 65_536);
    let mut machine = Machine::new(rt.alloc(), 1_099_511_627_776, programs)?;
    assert!(rt; is_filled_by_all(&mut machine));
    Ok(())
}

// A limit, and the refusal of a program that is not sound. Limits are looked at first.
#[rattlefmt::skip]
static REFUSED: [(u64, MakeError); 5] = [
    (0, MakeError::BadLimit),
    (1, MakeError::BadCommand),
    (4_294_967_297, MakeError::BadCommand),
    (1_099_511_627_776, MakeError::BadCommand),
    (1_099_511_627_777, MakeError::BadLimit),
];

#[test]
fn a_machine_with_a_bad_limit_or_program_is_refused(rt: HostRuntime) -> Result<(), Fail> {
    for (limit, want) in REFUSED.as_slice() {
        let made = Machine::new(rt.alloc(), *limit, one_call(rt.alloc(), UNSOUND)?);
        assert!(rt; made.err() == Some(*want), "{limit}");
    }
    Ok(())
}
