//! Answer lines, and the line of the cells.

use book_core::{Answer, Cell, Command, Ended};
use script_core::{WriteFault, write_cells, write_reply};
use std::alloc::Global;

const MOST: u64 = u64::MAX;

// The number of a call, the call, its answer, and the line.
pub(super) type Row = (u64, Command, Answer, &'static str);

#[rattlefmt::skip]
pub(super) static ANSWERS: [Row; 12] = [
    (10, Command::Push { value: 7 }, Answer::At { place: 0 }, "a10 push at 0\n"),
    (10, Command::Grow { n: 3, value: 7 }, Answer::Run { from: 4, n: 3 }, "a10 grow run 4 3\n"),
    (10, Command::Grow { n: 3, value: 7 }, Answer::Full { size: 4 }, "a10 grow full 4\n"),
    (10, Command::Grow { n: 3, value: 7 }, Answer::NoMemory, "a10 grow nomemory\n"),
    (10, Command::AtLeast { to: 3, value: 7 }, Answer::Enough { size: 4 }, "a10 atleast enough 4\n"),
    (10, Command::Fail { n: 3, value: 7, at: 1 }, Answer::BrokenRun { from: 0, n: 3, made: 1 },
        "a10 fail broken 0 3 1\n"),
    (10, Command::Read { place: 3 }, Answer::Value { value: MOST }, "a10 read value 18446744073709551615\n"),
    (10, Command::Read { place: 3 }, Answer::Pending, "a10 read pending\n"),
    (10, Command::Read { place: 3 }, Answer::Broken, "a10 read broken\n"),
    (10, Command::Read { place: 3 }, Answer::OutOfRange { size: 3 }, "a10 read outofrange 3\n"),
    (10, Command::Size, Answer::Size { size: 3 }, "a10 size 3\n"),
    // The longest line.
    (MOST, Command::Fail { n: MOST, value: MOST, at: 0 }, Answer::BrokenRun { from: MOST, n: MOST, made: MOST },
        "a18446744073709551615 fail broken 18446744073709551615 18446744073709551615 18446744073709551615\n"),
];

// The line of a row.
pub(super) fn line_of(alloc: Global, row: &Row) -> Result<Vec<u8>, WriteFault> {
    let ended = Ended {
        actor: 0,
        number: row.0,
        command: row.1,
        answer: row.2,
    };
    let mut text = Vec::new(alloc);
    write_reply(&mut text, b'a', &ended)?;
    Ok(text)
}

#[test]
fn answer_lines_are_written(rt: HostRuntime) -> Result<(), WriteFault> {
    for row in ANSWERS.as_slice() {
        assert!(rt;
            line_of(rt.alloc(), row)?.as_slice() == row.3.as_bytes(),
            "{}",
            row.3
        );
    }
    Ok(())
}

static CELLS: [Cell; 3] = [Cell::Filled(7), Cell::Pending(1), Cell::Broken];

#[test]
fn cells_are_written(rt: HostRuntime) -> Result<(), WriteFault> {
    let mut text = Vec::new(rt.alloc());
    write_cells(&mut text, &[])?;
    write_cells(&mut text, &CELLS)?;
    assert!(rt; text.as_slice() == b"size 0:\nsize 3: 7 . x\n".as_slice());
    Ok(())
}
