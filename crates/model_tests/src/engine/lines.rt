//! Answer lines, and the line of the cells, to writers that fail.

use super::slow_streams::{Interrupted, Narrow};
use book_core::{Answer, Cell, Command, Ended};
use script_core::{WriteFault, write_cells, write_reply};
use std::io::ErrorKind;

static CELLS: [Cell; 3] = [Cell::Filled(7), Cell::Pending(1), Cell::Broken];

const CELLS_LINE: &[u8] = b"size 3: 7 . x\n";

const ENDED: Ended = Ended {
    actor: 0,
    number: 10,
    command: Command::Read { place: 3 },
    answer: Answer::Pending,
};

#[test]
fn a_writer_that_fails_has_a_prefix_of_the_cells(rt: HostRuntime) {
    for room in 0..CELLS_LINE.len() {
        let mut narrow = Narrow::new(rt.alloc(), room, Some(ErrorKind::StorageFull));
        let ended = write_cells(&mut narrow, &CELLS);
        assert!(rt;
            ended
                == Err(WriteFault {
                    kind: ErrorKind::StorageFull
                }),
            "{room}"
        );
        assert!(rt; narrow.text.as_slice() == &CELLS_LINE[..room], "{room}");
    }
}

#[test]
fn a_writer_that_takes_no_byte_is_a_fault(rt: HostRuntime) {
    let mut narrow = Narrow::new(rt.alloc(), 3, None);
    let ended = write_reply(&mut narrow, b'a', &ENDED);
    assert!(rt;
        ended
            == Err(WriteFault {
                kind: ErrorKind::WriteZero
            })
    );
    assert!(rt; narrow.text.as_slice() == b"a10".as_slice());
}

#[test]
fn an_interrupted_write_is_tried_again(rt: HostRuntime) -> Result<(), WriteFault> {
    let mut narrow = Narrow::new(rt.alloc(), 100, None);
    write_reply(&mut narrow, b'a', &ENDED)?;
    write_cells(&mut narrow, &CELLS)?;
    assert!(rt; narrow.text.as_slice() == b"a10 read pending\nsize 3: 7 . x\n".as_slice());
    Ok(())
}

#[test]
fn one_write_may_be_interrupted_less_than_1_048_576_times(rt: HostRuntime) {
    let fault = Err(WriteFault {
        kind: ErrorKind::Interrupted,
    });
    let mut writer = Interrupted { times: 0 };
    assert!(rt; write_reply(&mut writer, b'a', &ENDED) == fault);
    assert!(rt; writer.times == 1_048_576);
    assert!(rt; write_cells(&mut writer, &CELLS) == fault);
    assert!(rt; writer.times == 2_097_152);
}
