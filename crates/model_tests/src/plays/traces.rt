//! What single steps of the machine find, and the calls and phases of their actors.

use super::machine::machine;
use book_core::{Command, Item};
use script_core::command_word;
use std::test::Fail;
use step_core::{Finding, Machine, Phase};

// A script, and the actor of each step with what that step finds or does.
type Row = (&'static str, &'static [(u32, Finding)]);

// Two pushes; the second finds the segment of the first, and loses its first exchange.
#[rattlefmt::skip]
const LOST: [(u32, Finding); 9] = [
    (0, Finding::Loaded), (1, Finding::Loaded), (0, Finding::Missing), (0, Finding::Installed),
    (1, Finding::Installed), (0, Finding::Won), (1, Finding::Lost), (1, Finding::Installed), (1, Finding::Won),
];

// A refused construction, what a reader and a mend find there, and an actor with no call left.
#[rattlefmt::skip]
const BROKEN: [(u32, Finding); 15] = [
    (0, Finding::Loaded), (0, Finding::Missing), (0, Finding::Installed), (0, Finding::Won), (0, Finding::Taken),
    (1, Finding::Loaded), (1, Finding::Pending), (0, Finding::Broken), (1, Finding::Loaded), (1, Finding::Taken),
    (1, Finding::Filled), (1, Finding::Loaded), (1, Finding::Filled), (1, Finding::OutOfRange),
    (1, Finding::Nothing),
];

// A raise that finds enough, and a growth past the limit.
#[rattlefmt::skip]
const FULL: [(u32, Finding); 4] = [
    (0, Finding::Enough), (0, Finding::Full), (0, Finding::Won), (0, Finding::Nothing),
];

#[rattlefmt::skip]
static TRACES: [Row; 3] = [
    ("limit 8\nactor a push 5\nactor b push 6\nsteps", &LOST),
    ("limit 8\nactor a fail 1 7 0\nactor b read 0, mend 0 9, read 0, read 1\nsteps", &BROKEN),
    ("limit 8\nactor a atleast 0 1, grow 9 1, grow 0 1\nsteps", &FULL),
];

// Tests whether the steps of a machine find this.
fn finds(mut machine: Machine, steps: &[(u32, Finding)]) -> Result<bool, Fail> {
    for (actor, want) in steps {
        let item = Item {
            actor: *actor,
            memory: true,
        };
        let found = machine.trace_step(&item)?.step.map(|step| step.finding);
        if found.unwrap_or(Finding::Nothing) != *want {
            return Ok(false);
        }
    }
    Ok(true)
}

#[test]
fn each_step_finds_what_the_table_says(rt: HostRuntime) -> Result<(), Fail> {
    for (script, steps) in TRACES.as_slice() {
        assert!(rt; finds(machine(rt.alloc(), script)?, steps)?, "{script}");
    }
    Ok(())
}

const PUSH: Command = Command::Push { value: 5 };

#[rattlefmt::skip]
static PHASES: [Phase; 6] = [
    Phase::Load, Phase::Scout { from: 0, n: 1, segment: 0 }, Phase::Put { from: 0, n: 1, segment: 0 },
    Phase::Exchange { from: 0, n: 1 }, Phase::Begin { from: 0, n: 1, place: 0 },
    Phase::Fill { from: 0, n: 1, place: 0 },
];

#[test]
fn a_push_has_six_phases_and_then_no_call_is_left(rt: HostRuntime) -> Result<(), Fail> {
    let mut machine = machine(rt.alloc(), "limit 8\nactor a push 5\nsteps")?;
    for phase in PHASES.as_slice() {
        assert!(rt; machine.call(0) == Some((1, PUSH)) && machine.phase(0) == *phase);
        machine.step(0, true)?;
    }
    assert!(rt; machine.call(0).is_none() && machine.phase(0) == Phase::Load);
    Ok(())
}

#[test]
fn a_command_has_its_word(rt: HostRuntime) {
    assert!(rt; command_word(&PUSH) == b"push".as_slice());
}
