//! Plays from readers and to writers that give or take little, fail, or are interrupted.

use super::run;
use super::slow_streams::{
    Interrupted, Interruptions, LongLine, Narrow, Pages, Patient, Slow, Unflushed,
};
use engine_core::{Engine, RunError};
use script_core::ScriptError;
use std::alloc::{AllocError, Global};
use std::io::ErrorKind;

const SCRIPT: &[u8] = b"limit 8\nactor a push 5, size\nactor b push 6\nsteps a b a\n";

const TEXT: &[u8] = b"a1 push at 0\nb1 push at 1\na2 size 2\nsize 2: 5 6\n";

// An engine, a script and the text of its play.
type Row = (Engine, &'static [u8], &'static [u8]);

const STEPS: &[u8] = b"limit 8\nactor a push 5\nactor b push 6\nsteps a b a a b a b b b b b a a";

#[rattlefmt::skip]
static PLAYS: [Row; 3] = [
    (Engine::Calls, SCRIPT, TEXT),
    (Engine::Steps, STEPS, b"b1 push at 1\na1 push at 0\nsize 2: 5 6\n"),
    (Engine::Counted, STEPS, b"b1 push at 1\na1 push at 0\nsize 2: 5 6\nb1 lost 1 steps 7\na1 lost 0 steps 6\n"),
];

static ENGINES: [Engine; 3] = [Engine::Calls, Engine::Steps, Engine::Counted];

// Tests whether a play that is read a byte at a time is whole, and its input is used up.
fn is_read_slowly(alloc: Global, row: &Row) -> bool {
    let (engine, rest, written) = *row;
    let mut text = Vec::new(alloc);
    let mut reader = Slow {
        rest,
        interrupted: false,
        fails: false,
    };
    let fault = RunError::Script(ScriptError::Empty { line: 1 });
    run(alloc, engine, &mut reader, &mut text) == Ok(())
        && run(alloc, engine, &mut reader, &mut text) == Err(fault)
        && text.as_slice() == written
}

#[test]
fn a_reader_may_give_a_byte_at_a_time(rt: HostRuntime) {
    for row in PLAYS.as_slice() {
        assert!(rt; is_read_slowly(rt.alloc(), row), "{:?}", row.0);
    }
}

// Tests whether a reader that fails after any number of bytes has no text.
fn fails_without_text(alloc: Global, row: &Row) -> bool {
    let (engine, script, _text) = *row;
    for given in 0..script.len() + 1 {
        let mut text = Vec::new(alloc);
        let mut reader = Slow {
            rest: &script[..given],
            interrupted: false,
            fails: true,
        };
        let ended = run(alloc, engine, &mut reader, &mut text);
        if ended != Err(RunError::Read) || !text.is_empty() {
            return false;
        }
    }
    true
}

#[test]
fn a_reader_that_fails_has_no_text(rt: HostRuntime) {
    for row in PLAYS.as_slice() {
        assert!(rt; fails_without_text(rt.alloc(), row), "{:?}", row.0);
    }
}

#[test]
fn a_read_may_be_interrupted_less_than_1_048_576_times(rt: HostRuntime) {
    for engine in ENGINES.as_slice() {
        let mut text = Vec::new(rt.alloc());
        let mut reader = Interrupted { times: 0 };
        let ended = run(rt.alloc(), *engine, &mut reader, &mut text);
        assert!(rt; ended == Err(RunError::Read), "{engine:?}");
        assert!(rt; reader.times == 1_048_576 && text.is_empty(), "{engine:?}");
    }
}

#[test]
fn a_write_may_be_interrupted_less_than_1_048_576_times(rt: HostRuntime) {
    for engine in ENGINES.as_slice() {
        let mut writer = Interrupted { times: 0 };
        let ended = run(rt.alloc(), *engine, &mut &SCRIPT[..], &mut writer);
        assert!(rt; ended == Err(RunError::Write), "{engine:?}");
        assert!(rt; writer.times == 1_048_576, "{engine:?}");
    }
}

const MOST_INTERRUPTIONS: usize = 1_048_576;

// How a play ends whose reader, or otherwise its writer, is interrupted this many times in all, and whether
// its text is whole.
fn ended_after(
    alloc: Global,
    row: &Row,
    times: usize,
    reads: bool,
) -> (Result<(), RunError>, bool) {
    let (engine, rest, text) = *row;
    let interruptions = Interruptions {
        now: 30_000,
        all: times,
    };
    let mut slow = Patient {
        rest,
        text: Vec::new(alloc),
        interruptions,
    };
    let mut whole = Vec::new(alloc);
    let mut reader = rest;
    if reads {
        let ended = run(alloc, engine, &mut slow, &mut whole);
        (ended, whole.as_slice() == text)
    } else {
        let ended = run(alloc, engine, &mut reader, &mut slow);
        (ended, slow.text.as_slice() == text)
    }
}

#[test]
fn interruptions_are_counted_over_all_reads_and_writes(rt: HostRuntime) {
    for row in PLAYS.as_slice() {
        for (reads, fault) in [(true, RunError::Read), (false, RunError::Write)].as_slice() {
            let passed = ended_after(rt.alloc(), row, MOST_INTERRUPTIONS - 1, *reads);
            assert!(rt; passed == (Ok(()), true), "{:?}", row.0);
            let failed = ended_after(rt.alloc(), row, MOST_INTERRUPTIONS, *reads);
            assert!(rt; failed == (Err(*fault), false), "{:?}", row.0);
        }
    }
}

// The length of a line that is no script, its fault, and how many bytes of it are read.
#[rattlefmt::skip]
static LONG_LINES: [(usize, ScriptError, usize); 3] = [
    (1_048_576, ScriptError::BadLine { line: 1 }, 1_048_576),
    (1_048_577, ScriptError::TooMany { line: 1 }, 1_048_577),
    (usize::MAX, ScriptError::TooMany { line: 1 }, 1_048_577),
];

// Tests whether a long line has its fault, and only this many bytes of it are read.
fn is_read_to_its_fault(alloc: Global, engine: Engine, line: &(usize, ScriptError, usize)) -> bool {
    let (rest, fault, given) = *line;
    let mut text = Vec::new(alloc);
    let mut reader = LongLine {
        rest,
        given: 0,
        interrupted: false,
    };
    let ended = run(alloc, engine, &mut reader, &mut text);
    ended == Err(RunError::Script(fault)) && reader.given == given && text.is_empty()
}

#[test]
fn one_byte_too_many_is_read_of_an_endless_line(rt: HostRuntime) {
    for engine in ENGINES.as_slice() {
        for line in LONG_LINES.as_slice() {
            assert!(rt;
                is_read_to_its_fault(rt.alloc(), *engine, line),
                "{engine:?} {line:?}"
            );
        }
    }
}

// A script whose play fills 49,000 places.
fn long_script(alloc: Global) -> Result<Vec<u8>, AllocError> {
    let mut script = Vec::new(alloc);
    script.extend_from_slice(b"limit 65536\nactor a grow 49000 18446744073709551615\nsteps")?;
    for _step in 0..98_034 {
        script.extend_from_slice(b" a")?;
    }
    Ok(script)
}

// An engine, and how long the text of that play is: a line of the growth, one of the cells with 21 bytes a
// place, and one of counts.
#[rattlefmt::skip]
static LONG_TEXTS: [(Engine, usize); 3] = [
    (Engine::Calls, 1_029_032), (Engine::Steps, 1_029_032), (Engine::Counted, 1_029_054),
];

// Tests whether a writer with that much room ends a long play in this way, with this many bytes of its text,
// and is flushed if they are all.
fn ends_late(
    alloc: Global,
    engine: Engine,
    script: &[u8],
    room: usize,
    want: Result<(), RunError>,
) -> bool {
    let mut reader = script;
    let mut writer = Pages {
        taken: 0,
        room,
        interrupted: false,
        flushed: false,
    };
    let ended = run(alloc, engine, &mut reader, &mut writer);
    ended == want && writer.taken == room && writer.flushed == want.is_ok()
}

#[test]
fn a_long_text_is_written_to_its_end_or_to_a_late_fault(rt: HostRuntime) -> Result<(), AllocError> {
    let script = long_script(rt.alloc())?;
    for (engine, length) in LONG_TEXTS.as_slice() {
        let whole = ends_late(rt.alloc(), *engine, &script, *length, Ok(()));
        assert!(rt; whole, "{engine:?}");
        let fault = Err(RunError::Write);
        let part = ends_late(rt.alloc(), *engine, &script, *length - 1, fault);
        assert!(rt; part, "{engine:?}");
    }
    Ok(())
}

// Adds a text this many times.
fn add_times(text: &mut Vec<u8>, added: &[u8], times: u32) -> Result<(), AllocError> {
    for _time in 0..times {
        text.extend_from_slice(added)?;
    }
    Ok(())
}

// A script of a thousand calls that take one step each.
fn many_calls(alloc: Global) -> Result<Vec<u8>, AllocError> {
    let mut script = Vec::new(alloc);
    script.extend_from_slice(b"limit 8\nactor a size")?;
    add_times(&mut script, b", size", 999)?;
    script.extend_from_slice(b"\nsteps")?;
    add_times(&mut script, b" a", 1_000)?;
    Ok(script)
}

// An engine, and how long the text of that play is: a line of each call, one of no cells, and one of counts for
// each call.
#[rattlefmt::skip]
static MANY_CALLS: [(Engine, usize); 3] = [
    (Engine::Calls, 11_901), (Engine::Steps, 11_901), (Engine::Counted, 31_794),
];

#[test]
fn a_text_of_many_calls_is_flushed(rt: HostRuntime) -> Result<(), AllocError> {
    let script = many_calls(rt.alloc())?;
    for (engine, length) in MANY_CALLS.as_slice() {
        let whole = ends_late(rt.alloc(), *engine, &script, *length, Ok(()));
        assert!(rt; whole, "{engine:?}");
    }
    Ok(())
}

// Tests whether a play is written whole if few bytes are taken at a time.
fn is_written_slowly(alloc: Global, row: &Row) -> bool {
    let (engine, script, text) = *row;
    let mut reader = script;
    let mut writer = Narrow::new(alloc, 100, None);
    run(alloc, engine, &mut reader, &mut writer) == Ok(()) && writer.text.as_slice() == text
}

#[test]
fn a_writer_may_take_a_few_bytes_at_a_time(rt: HostRuntime) {
    for row in PLAYS.as_slice() {
        assert!(rt; is_written_slowly(rt.alloc(), row), "{:?}", row.0);
    }
}

// Tests whether a writer that fails has exactly the first bytes of the text, however many it has room for.
fn fails_at_a_prefix(alloc: Global, row: &Row) -> bool {
    let (engine, script, text) = *row;
    for room in 0..text.len() {
        let mut reader = script;
        let mut writer = Narrow::new(alloc, room, Some(ErrorKind::StorageFull));
        let ended = run(alloc, engine, &mut reader, &mut writer);
        if ended != Err(RunError::Write) || writer.text.as_slice() != &text[..room] {
            return false;
        }
    }
    true
}

#[test]
fn a_writer_that_fails_has_a_prefix(rt: HostRuntime) {
    for row in PLAYS.as_slice() {
        assert!(rt; fails_at_a_prefix(rt.alloc(), row), "{:?}", row.0);
    }
}

#[test]
fn a_writer_that_takes_no_byte_fails(rt: HostRuntime) {
    for engine in ENGINES.as_slice() {
        let mut writer = Narrow::new(rt.alloc(), 0, None);
        let ended = run(rt.alloc(), *engine, &mut &SCRIPT[..], &mut writer);
        assert!(rt; ended == Err(RunError::Write), "{engine:?}");
        assert!(rt; writer.text.is_empty(), "{engine:?}");
    }
}

#[test]
fn a_text_that_is_not_flushed_is_a_fault(rt: HostRuntime) {
    for (engine, script, written) in PLAYS.as_slice() {
        let text = Vec::new(rt.alloc());
        let mut writer = Unflushed { text };
        let mut reader = *script;
        let ended = run(rt.alloc(), *engine, &mut reader, &mut writer);
        assert!(rt; ended == Err(RunError::Write), "{engine:?}");
        assert!(rt; writer.text.as_slice() == *written, "{engine:?}");
    }
}
