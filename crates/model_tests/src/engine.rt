//! What no row of the program shows: readers and writers that give or take little, fail, or are interrupted,
//! and memory that is refused.

mod lines;
mod memory;
mod slow_streams;
mod streams;

use engine_core::{Engine, RunError, run_calls, run_script, run_steps, run_steps_counted};
use script_core::ScriptError;
use std::alloc::Global;
use std::io::{Read, Write};

// Runs the script that a reader has.
fn run<R: Read, W: Write>(
    alloc: Global,
    engine: Engine,
    reader: &mut R,
    writer: &mut W,
) -> Result<(), RunError> {
    match engine {
        Engine::Calls => run_calls(alloc, reader, writer),
        Engine::Steps => run_steps(alloc, reader, writer),
        Engine::Counted => run_steps_counted(alloc, reader, writer),
        Engine::Traced | Engine::TracedCounted => run_script(alloc, engine, reader, writer),
    }
}

#[rattlefmt::skip]
static NUMBERS: [(RunError, u8); 4] = [
    (RunError::Script(ScriptError::Empty { line: 1 }), 1), (RunError::NoMemory, 2), (RunError::Read, 3),
    (RunError::Write, 4),
];

#[test]
fn each_error_has_its_number(rt: HostRuntime) {
    for (error, number) in NUMBERS.as_slice() {
        assert!(rt; error.number() == *number, "{error:?}");
    }
}
