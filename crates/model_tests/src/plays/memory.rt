//! Any one request for memory may be refused: then a call says so, and the next one succeeds. `tests/refuse-memory`
//! refuses each request in turn.

ghost use Rattle.std.specs.Prelude.{◌≤◌, IfOk, length};
ghost use Rattle.book_core.specs.Commands.{most_programs};

use super::{histories, layouts, lines, machine, scripts, whole_calls, work};
use book_core::{Event, Reply};
use script_core::{Script, ScriptError, read};
use std::alloc::Global;
use step_core::{Machine, MakeError, PlayError, Stepped, play, play_calls, play_in};

fn is_read_again(alloc: Global, row: &scripts::Row) -> bool {
    let mut answer = scripts::is_read(alloc, row);
    if answer == Err(ScriptError::NoMemory) {
        answer = scripts::is_read(alloc, row);
    }
    answer == Ok(true)
}

// What is no script, and its fault.
#[rattlefmt::skip]
static FAULTS: [(&'static str, ScriptError); 7] = [
    ("limit 65537\nsteps", ScriptError::BadLimit { line: 1 }),
    ("limit 8\nfirst 9\nactor a push 5\nsteps", ScriptError::BadFirst { line: 2 }),
    ("limit 8\nactor a push 5\nstep a", ScriptError::BadLine { line: 3 }),
    ("limit 8\nactor a push 5\nsteps a b", ScriptError::BadName { line: 3 }),
    ("limit 8\nactor a push 5\nactor a size\nsteps", ScriptError::TwiceNamed { line: 3 }),
    ("limit 8\nactor a push 5, fail 2 7 2\nsteps", ScriptError::BadCommand { line: 2 }),
    ("limit 8\nactor a push 5\nactor b size", ScriptError::NoItems { line: 4 }),
];

fn fault_again(alloc: Global, text: &str) -> Option<ScriptError> {
    let mut fault = read(alloc, text.as_bytes()).err();
    if fault == Some(ScriptError::NoMemory) {
        fault = read(alloc, text.as_bytes()).err();
    }
    fault
}

#[test]
fn texts_are_read_again(rt: HostRuntime) {
    for row in scripts::ROWS.as_slice() {
        assert!(rt; is_read_again(rt.alloc(), row), "{}", row.0);
    }
    for (text, fault) in FAULTS.as_slice() {
        assert!(rt; fault_again(rt.alloc(), text) == Some(*fault), "{text}");
    }
}

// Tests whether a line is written, at the second try if its writer was refused memory.
fn is_written_again(alloc: Global, row: &lines::Row) -> bool {
    let mut line = lines::line_of(alloc, row);
    if line.is_err() {
        line = lines::line_of(alloc, row);
    }
    match line {
        Ok(line) => line.as_slice() == row.3.as_bytes(),
        Err(_fault) => false,
    }
}

#[test]
fn lines_are_written_again(rt: HostRuntime) {
    for row in lines::ANSWERS.as_slice() {
        assert!(rt; is_written_again(rt.alloc(), row), "{}", row.3);
    }
}

// A script, at the second try if memory was refused.
fn script_again(alloc: Global, text: &str) -> Result<Script, ScriptError>
    ensures { IfOk result (λ script. length script.programs ≤ most_programs) }
{
    match read(alloc, text.as_bytes()) {
        Err(ScriptError::NoMemory) => read(alloc, text.as_bytes()),
        ended => ended,
    }
}

// The machine of a script, by `new_in`, or by `new` if no layout is named.
fn machine_of(alloc: Global, first: Option<u32>, text: &str) -> Result<Machine, MakeError> {
    let Ok(script) = script_again(alloc, text) else {
        return Err(MakeError::BadLimit);
    };
    match first {
        Some(f) => Machine::new_in(alloc, layouts::layout_of(f), script.limit, script.programs),
        None => Machine::new(alloc, script.limit, script.programs),
    }
}

// The same at the second try if memory was refused.
fn machine_again(alloc: Global, first: Option<u32>, text: &str) -> Result<Machine, MakeError> {
    match machine_of(alloc, first, text) {
        Ok(machine) => Ok(machine),
        Err(_refused) => machine_of(alloc, first, text),
    }
}

// The step of an actor. If memory runs out in it, the machine is as before, and the same step is asked for
// again.
fn step_again(machine: &mut Machine, actor: u32) -> Option<Stepped> {
    let (size, slot) = (machine.size(), machine.slot(0));
    match machine.step(actor, true) {
        Ok(stepped) => Some(stepped),
        Err(_) if machine.size() == size && machine.slot(0) == slot => {
            machine.step(actor, true).ok()
        }
        Err(_) => None,
    }
}

// Tests whether a machine takes its steps as these rows have them.
fn steps_again(alloc: Global, first: Option<u32>, text: &str, rows: &[machine::Row]) -> bool {
    let Ok(mut machine) = machine_again(alloc, first, text) else {
        return false;
    };
    for (actor, size, is_event) in rows {
        match step_again(&mut machine, *actor) {
            Some(stepped) if stepped.event.is_some() == *is_event && machine.size() == *size => {}
            _ => return false,
        }
    }
    true
}

#[test]
fn machines_are_made_again_and_steps_taken_again(rt: HostRuntime) {
    for (text, rows) in machine::PLAYS.as_slice() {
        assert!(rt; steps_again(rt.alloc(), None, text, rows), "{text}");
        assert!(rt; steps_again(rt.alloc(), Some(1), text, rows), "{text}");
    }
}

// Tests whether the play of a script, by `play` or `play_calls`, has these events.
fn has_events(
    alloc: Global,
    by_steps: bool,
    text: &str,
    events: &[(Event, Reply)],
) -> Result<bool, PlayError> {
    let Ok(script) = script_again(alloc, text) else {
        return Err(PlayError::BadLimit);
    };
    let (limit, programs, items) = (script.limit, script.programs, script.items);
    let played = if by_steps {
        play(alloc, limit, programs, items.as_slice())?
    } else {
        play_calls(alloc, limit, programs, items.as_slice())?
    };
    Ok(played.events.as_slice() == events)
}

fn has_events_again(alloc: Global, by_steps: bool, text: &str, events: &[(Event, Reply)]) -> bool {
    let mut answer = has_events(alloc, by_steps, text, events);
    if answer == Err(PlayError::NoMemory) {
        answer = has_events(alloc, by_steps, text, events);
    }
    answer == Ok(true)
}

#[test]
fn schedules_are_played_again(rt: HostRuntime) {
    for (text, events) in histories::ROWS.as_slice() {
        assert!(rt; has_events_again(rt.alloc(), true, text, events), "{text}");
    }
    let events = whole_calls::EVENTS.as_slice();
    assert!(rt; has_events_again(rt.alloc(), false, whole_calls::EVERY_COMMAND, events));
}

// Tests whether the play of a script by `play_in` took what its row has.
fn took(alloc: Global, row: &work::Row) -> Result<bool, PlayError> {
    let Ok(script) = script_again(alloc, row.0) else {
        return Err(PlayError::BadLimit);
    };
    let layout = layouts::layout_of(script.first);
    let (limit, programs, items) = (script.limit, script.programs, script.items);
    let played = play_in(alloc, layout, limit, programs, items.as_slice())?;
    Ok(played.work.as_slice() == row.1)
}

fn took_again(alloc: Global, row: &work::Row) -> bool {
    let mut answer = took(alloc, row);
    if answer == Err(PlayError::NoMemory) {
        answer = took(alloc, row);
    }
    answer == Ok(true)
}

#[test]
fn schedules_are_played_again_in_their_layouts(rt: HostRuntime) {
    for row in work::ROWS.as_slice() {
        assert!(rt; took_again(rt.alloc(), row), "{}", row.0);
    }
}
