//! Scripts as values: what is read, and how a fault is shown.

use book_core::{Command, Item};
use script_core::{ScriptError, read};
use std::alloc::Global;
use std::test::Fail;

const A: Item = Item {
    actor: 0,
    memory: true,
};

const B: Item = Item {
    actor: 1,
    memory: true,
};

const REFUSED: Item = Item {
    actor: 0,
    memory: false,
};

// A text, the limit, the layout, the letters and the items.
pub(super) type Row = (&'static str, u64, u32, &'static [u8], &'static [Item]);

#[rattlefmt::skip]
pub(super) static ROWS: [Row; 7] = [
    ("limit 1\nsteps", 1, 1, b"", &[]),
    ("limit 65536\nsteps\n", 65_536, 1, b"", &[]),
    ("limit 8\nfirst 1\nsteps", 8, 1, b"", &[]),
    ("limit 8\nfirst 8\nsteps\n", 8, 8, b"", &[]),
    ("limit 8\nfirst 2\nactor a grow 3 7\nsteps a a a a a a a a a a", 8, 2, b"a", &[A, A, A, A, A, A, A, A, A, A]),
    ("limit 8\nactor a push 18446744073709551615\nsteps a! a", 8, 1, b"a", &[REFUSED, A]),
    ("limit 2\nactor z size\nactor b size\nsteps z b z!\n", 2, 1, b"zb", &[A, B, REFUSED]),
];

// Tests whether a text is read as these values.
pub(super) fn is_read(alloc: Global, row: &Row) -> Result<bool, ScriptError> {
    let (text, limit, first, names, items) = row;
    let script = read(alloc, text.as_bytes())?;
    Ok(
        script.limit == *limit
            && script.first == *first
            && script.names.as_slice() == *names
            && script.items.as_slice() == *items
            && script.programs.len() == names.len(),
    )
}

#[test]
fn scripts_are_read(rt: HostRuntime) -> Result<(), Fail> {
    for row in ROWS.as_slice() {
        assert!(rt; is_read(rt.alloc(), row)?, "{}", row.0);
    }
    Ok(())
}

static PROGRAM: [Command; 6] = [
    Command::Push { value: u64::MAX },
    Command::Grow { n: 0, value: 7 },
    Command::AtLeast { to: 9, value: 2 },
    Command::Fail {
        n: 3,
        value: 7,
        at: 2,
    },
    Command::Read { place: 1 },
    Command::Size,
];

const COMMANDS: &str =
    "limit 2\nactor z push 18446744073709551615, grow 0 7, atleast 9 2, fail 3 7 2, read 1, size\nsteps";

#[test]
fn each_command_is_read(rt: HostRuntime) -> Result<(), Fail> {
    let programs = read(rt.alloc(), COMMANDS.as_bytes())?.programs;
    assert!(rt; programs.len() == 1);
    assert!(rt; programs.as_slice()[0].as_slice() == PROGRAM.as_slice());
    Ok(())
}

#[test]
fn an_error_is_shown_in_one_line(rt: HostRuntime) -> Result<(), Fail> {
    let fault = ScriptError::BadCommand { line: 2 }.to_string(rt.alloc())?;
    assert!(rt; fault.as_str() == "line 2: fault 7");
    let memory = ScriptError::NoMemory.to_string(rt.alloc())?;
    assert!(rt; memory.as_str() == "memory");
    assert!(rt; ScriptError::NoMemory.number() == 1 && ScriptError::NoMemory.line().is_none());
    Ok(())
}
