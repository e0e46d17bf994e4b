//! Plays of whole calls: which events they have, and what cannot be played.

use super::{UNSOUND, one_call, played};
use book_core::{Cell, Command, Event, Item, Reply};
use std::test::Fail;
use step_core::{PlayError, play_calls};

pub(super) const EVERY_COMMAND: &str = "limit 4\n\
    actor a fail 3 7 1, atleast 2 0, read 3, grow 2 1\n\
    actor b push 6, read 1, size\n\
    steps a a a b a b b a";

#[rattlefmt::skip]
pub(super) static EVENTS: [(Event, Reply); 11] = [
    (Event::Claim { actor: 0, n: 3 }, Reply::Run { from: 0, n: 3 }),
    (Event::Finish { actor: 0, place: 0, value: 7 }, Reply::Done),
    (Event::Break { actor: 0, place: 1 }, Reply::Done),
    (Event::Break { actor: 0, place: 2 }, Reply::Done),
    (Event::Raise { actor: 0, to: 2 }, Reply::Enough { size: 3 }),
    (Event::Look { actor: 0, place: 3 }, Reply::OutOfRange { size: 3 }),
    (Event::Claim { actor: 1, n: 1 }, Reply::Run { from: 3, n: 1 }),
    (Event::Finish { actor: 1, place: 3, value: 6 }, Reply::Done),
    (Event::RefusedFull { actor: 0, n: 2 }, Reply::Full { size: 4 }),
    (Event::Look { actor: 1, place: 1 }, Reply::Broken),
    (Event::Size { actor: 1 }, Reply::Size { size: 4 }),
];

#[rattlefmt::skip]
static CELLS: [Cell; 4] = [Cell::Filled(7), Cell::Broken, Cell::Broken, Cell::Filled(6)];

#[test]
fn whole_calls_have_their_events_and_cells(rt: HostRuntime) -> Result<(), Fail> {
    let played = played(rt.alloc(), false, EVERY_COMMAND)?;
    assert!(rt; played.events.as_slice() == EVENTS.as_slice());
    assert!(rt; played.cells.as_slice() == CELLS.as_slice());
    assert!(rt; played.ended.len() == 7);
    Ok(())
}

#[rattlefmt::skip]
static PAST_THE_LIMIT: [(Event, Reply); 3] = [
    (Event::Claim { actor: 0, n: 1 }, Reply::Run { from: 0, n: 1 }),
    (Event::Finish { actor: 0, place: 0, value: 5 }, Reply::Done),
    (Event::RefusedFull { actor: 0, n: 8 }, Reply::Full { size: 1 }),
];

#[test]
fn a_growth_to_a_size_past_the_limit_has_its_events(rt: HostRuntime) -> Result<(), Fail> {
    let script = "limit 4\nactor a push 5, atleast 9 0\nsteps a a";
    let played = played(rt.alloc(), false, script)?;
    assert!(rt; played.events.as_slice() == PAST_THE_LIMIT.as_slice());
    Ok(())
}

// A limit, the one call of actor 0, the actor of the one item, and the refusal.
type Refused = (u64, Command, u32, PlayError);

#[rattlefmt::skip]
static REFUSED: [Refused; 6] = [
    (0, UNSOUND, 1, PlayError::BadLimit),
    (1_099_511_627_777, Command::Size, 0, PlayError::BadLimit),
    (1, UNSOUND, 1, PlayError::BadCommand),
    (4_294_967_297, UNSOUND, 1, PlayError::BadCommand),
    (1_099_511_627_776, UNSOUND, 1, PlayError::BadCommand),
    (1, Command::Size, 1, PlayError::BadActor),
];

#[test]
fn what_cannot_be_played_is_refused(rt: HostRuntime) -> Result<(), Fail> {
    for (limit, call, actor, want) in REFUSED.as_slice() {
        let item = Item {
            actor: *actor,
            memory: true,
        };
        let programs = one_call(rt.alloc(), *call)?;
        let played = play_calls(rt.alloc(), *limit, programs, &[item]);
        assert!(rt; played.err() == Some(*want), "{want:?}");
    }
    Ok(())
}
