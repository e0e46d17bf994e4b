// Any one request for memory may be refused: then a run says so and writes nothing, and the next one writes
// its whole text. `tests/refuse-memory` refuses each request in turn.
use super::run;
use engine_core::{Engine, RunError};
use script_core::ScriptError;
use std::alloc::Global;

// A script, and how its run ends, with what it writes.
type Row = (&'static str, Result<(), RunError>, &'static str);

const BAD_COMMAND: Result<(), RunError> = Err(RunError::Script(ScriptError::BadCommand {
    line: 3,
}));

#[rattlefmt::skip]
static CALLS: [Row; 6] = [
    ("limit 8\nactor a push 5, size\nactor b push 6\nsteps a b a", Ok(()),
        "a1 push at 0\nb1 push at 1\na2 size 2\nsize 2: 5 6\n"),
    ("limit 4\nactor a fail 3 7 1, atleast 2 0, read 3, grow 2 1\nactor b read 1, atleast 9 0\nsteps a a a a b b",
        Ok(()),
        "a1 fail broken 0 3 1\na2 atleast enough 3\na3 read outofrange 3\na4 grow full 3\nb1 read broken\n\
        b2 atleast full 3\nsize 3: 7 x x\n"),
    ("limit 8\nactor a atleast 4 0\nactor b atleast 5 1\nsteps a b", Ok(()),
        "a1 atleast run 0 4\nb1 atleast run 4 1\nsize 5: 0 0 0 0 1\n"),
    ("limit 8\nactor a push 5, grow 3 7\nsteps a a", Ok(()),
        "a1 push at 0\na2 grow run 1 3\nsize 4: 5 7 7 7\n"),
    ("limit 8\nsteps", Ok(()), "size 0:\n"),
    ("limit 8\nactor a push 5\nactor b fail 2 7 2\nsteps a b", BAD_COMMAND, ""),
];

#[rattlefmt::skip]
static STEPS: [Row; 6] = [
    ("limit 8\nactor a push 5\nactor b push 6\nsteps a b a a b a b b b b b a a", Ok(()),
        "b1 push at 1\na1 push at 0\nsize 2: 5 6\n"),
    ("limit 3\nactor a grow 3 1\nactor b grow 2 2, read 0\nsteps a b a b a b a b a b a b a b a b a b a b", Ok(()),
        "a1 grow full 2\nb1 grow run 0 2\nb2 read value 2\nsize 2: 2 2\n"),
    ("limit 8\nactor a atleast 4 0\nactor b push 9, size\nsteps a a a a a b b b a a a a a a a", Ok(()),
        "a1 atleast run 1 3\nsize 4: . 0 0 0\n"),
    ("limit 8\nactor a fail 3 7 1\nsteps a a a a a a a a a a a a", Ok(()),
        "a1 fail broken 0 3 1\nsize 3: 7 x x\n"),
    ("limit 8\nactor a push 5\nactor b push 6\nsteps a a b b b a!", Ok(()),
        "a1 push nomemory\nsize 0:\n"),
    ("limit 8\nactor a push 5\nactor b fail 2 7 2\nsteps a b", BAD_COMMAND, ""),
];

#[rattlefmt::skip]
static COUNTED: [Row; 3] = [
    ("limit 8\nactor a push 5\nactor b push 6\nsteps a b a a b a b b b b b a a", Ok(()),
        "b1 push at 1\na1 push at 0\nsize 2: 5 6\nb1 lost 1 steps 7\na1 lost 0 steps 6\n"),
    ("limit 8\nfirst 2\nactor a fail 3 7 1\nactor b mend 1 9, size\nsteps a a a a a a a a a a b b b b", Ok(()),
        "a1 fail broken 0 3 1\nb1 mend at 1\nb2 size 3\nsize 3: 7 9 x\na1 lost 0 steps 10\nb1 lost 0 steps 3\n\
        b2 lost 0 steps 1\n"),
    ("limit 8\nactor a push 5\nactor b fail 2 7 2\nsteps a b", BAD_COMMAND, ""),
];

// Room for a text, at the second try if need be.
fn room(alloc: Global) -> Vec<u8> {
    match Vec::with_capacity(alloc, 200) {
        Ok(text) => text,
        Err(_refused) => Vec::with_capacity(alloc, 200).unwrap_or(Vec::new(alloc)),
    }
}

// Tests whether a run ends as its row says, at the second try if the first had no memory and wrote
// nothing.
fn ends(alloc: Global, engine: Engine, row: &Row) -> bool {
    let (script, want, written) = row;
    let mut text = room(alloc);
    let mut got = run(alloc, engine, &mut script.as_bytes(), &mut text);
    if got == Err(RunError::NoMemory) && text.is_empty() {
        got = run(alloc, engine, &mut script.as_bytes(), &mut text);
    }
    got == *want && text.as_slice() == written.as_bytes()
}

#[test]
fn whole_calls_are_run_again(rt: HostRuntime) {
    for row in CALLS.as_slice() {
        assert!(rt; ends(rt.alloc(), Engine::Calls, row), "{}", row.0);
    }
}

#[test]
fn atomic_steps_are_run_again(rt: HostRuntime) {
    for row in STEPS.as_slice() {
        assert!(rt; ends(rt.alloc(), Engine::Steps, row), "{}", row.0);
    }
}

#[test]
fn counted_steps_are_run_again(rt: HostRuntime) {
    for row in COUNTED.as_slice() {
        assert!(rt; ends(rt.alloc(), Engine::Counted, row), "{}", row.0);
    }
}
