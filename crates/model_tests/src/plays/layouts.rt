//! Machines and plays with segments of each layout.

use book_core::{Answer, Cell};
use script_core::{Script, read};
use seg_core::Layout;
use std::alloc::Global;
use std::test::Fail;
use step_core::{CellSlot, Machine, Played, play_in};

// The number of a layout, and how many steps a growth by 300 takes up to its claim: a load, two for each
// segment of its places, and an exchange.
#[rattlefmt::skip]
static STEPS: [(u32, u32); 8] = [
    (1, 20), (2, 18), (3, 16), (4, 14), (5, 12), (6, 10), (7, 8), (8, 6),
];

pub(super) fn layout_of(f: u32) -> Layout {
    Layout::new(f).unwrap_or(Layout::default())
}

// A new machine at the programs of a script.
fn machine_in(alloc: Global, f: u32, text: &[u8]) -> Result<Machine, Fail> {
    let script = read(alloc, text)?;
    Ok(Machine::new_in(alloc, layout_of(f), script.limit, script.programs)?)
}

// The size of a new machine after some steps of its one actor, which grows it by 300.
fn size_after(alloc: Global, f: u32, steps: u32) -> Result<u64, Fail> {
    let mut machine = machine_in(alloc, f, b"limit 300\nactor a grow 300 7\nsteps")?;
    for _step in 0..steps {
        machine.step(0, true)?;
    }
    Ok(machine.size())
}

#[test]
fn a_growth_looks_for_the_segments_of_its_layout(rt: HostRuntime) -> Result<(), Fail> {
    for (f, steps) in STEPS.as_slice() {
        assert!(rt; size_after(rt.alloc(), *f, *steps - 1)? == 0, "{f}");
        assert!(rt; size_after(rt.alloc(), *f, *steps)? == 300, "{f}");
    }
    Ok(())
}

// The number of a layout, and how many steps a growth by 65,536 takes: those up to its claim, and two for
// each place.
#[rattlefmt::skip]
static FILLED: [(u32, u32); 8] = [
    (1, 131_106), (2, 131_104), (3, 131_102), (4, 131_100), (5, 131_098), (6, 131_096), (7, 131_094), (8, 131_092),
];

// Takes steps of a machine's one actor, and returns whether there was memory.
fn takes_steps(machine: &mut Machine, steps: u32) -> bool {
    for _step in 0..steps {
        if machine.step(0, true).is_err() {
            return false;
        }
    }
    true
}

// Tests whether the last of 65,536 places is busy after these steps, and filled after one more.
fn is_filled_after(machine: &mut Machine, steps: u32) -> bool {
    takes_steps(machine, steps)
        && machine.slot(65_535) == Some(CellSlot::Busy(0))
        && takes_steps(machine, 1)
        && machine.slot(65_535) == Some(CellSlot::Filled(7))
        && machine.slot(0) == Some(CellSlot::Filled(7))
        && machine.size() == 65_536
        && machine.slot(65_536).is_none()
}

// Tests whether the last of 65,536 places is filled exactly at the last of these steps.
fn is_filled_by(alloc: Global, f: u32, steps: u32) -> Result<bool, Fail> {
    let mut machine = machine_in(alloc, f, b"limit 65536\nactor a grow 65536 7\nsteps")?;
    Ok(is_filled_after(&mut machine, steps.saturating_sub(1)))
}

#[test]
fn a_growth_fills_all_segments_of_65536_places(rt: HostRuntime) -> Result<(), Fail> {
    for (f, steps) in FILLED.as_slice() {
        assert!(rt; is_filled_by(rt.alloc(), *f, *steps)?, "{f}");
    }
    Ok(())
}

// The answer of a play's only ended call, and its third cell.
type Seen = (Option<Answer>, Option<Cell>);

const GROWN: Seen = (Some(Answer::Run { from: 0, n: 3 }), Some(Cell::Filled(7)));

const PENDING: Seen = (None, Some(Cell::Pending(0)));

const REFUSED: Seen = (Some(Answer::NoMemory), None);

const GROW: &str = "limit 8\nactor a grow 3 7\nsteps a a a a a a a a a a";

// The second segment is refused, if there is one.
const GROW_REFUSED: &str = "limit 8\nactor a grow 3 7\nsteps a a a a a! a a a a a";

#[rattlefmt::skip]
static PLAYS: [(u32, Seen, Seen); 8] = [
    (1, PENDING, REFUSED), (2, GROWN, GROWN), (3, GROWN, GROWN), (4, GROWN, GROWN),
    (5, GROWN, GROWN), (6, GROWN, GROWN), (7, GROWN, GROWN), (8, GROWN, GROWN),
];

fn played_in(alloc: Global, f: u32, text: &str) -> Result<Played, Fail> {
    let Script {
        limit,
        programs,
        items,
        ..
    } = read(alloc, text.as_bytes())?;
    Ok(play_in(alloc, layout_of(f), limit, programs, items.as_slice())?)
}

fn seen(alloc: Global, f: u32, text: &str) -> Result<Seen, Fail> {
    let played = played_in(alloc, f, text)?;
    let answer = played.ended.as_slice().first().map(|ended| ended.answer);
    Ok((answer, played.cells.as_slice().get(2).copied()))
}

#[test]
fn a_growth_of_three_has_one_segment_except_in_the_shortest_layout(
    rt: HostRuntime,
) -> Result<(), Fail> {
    for (f, granted, refused) in PLAYS.as_slice() {
        assert!(rt; seen(rt.alloc(), *f, GROW)? == *granted, "{f}");
        assert!(rt; seen(rt.alloc(), *f, GROW_REFUSED)? == *refused, "{f}");
    }
    Ok(())
}
