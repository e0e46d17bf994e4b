//! Plays by atomic steps: which events they have. The program prints none.

use super::played;
use book_core::{Event, Reply, check};
use script_core::{Script, read};
use std::alloc::Global;
use std::test::Fail;
use step_core::play;

// A script, and the events of its play.
type Row = (&'static str, &'static [(Event, Reply)]);

#[rattlefmt::skip]
pub(super) static ROWS: [Row; 5] = [
    // Pushes that meet.
    ("limit 8\nactor a push 5\nactor b push 6\nsteps a b a a b a b b b b b a a", &[
        (Event::Claim { actor: 0, n: 1 }, Reply::Run { from: 0, n: 1 }),
        (Event::Claim { actor: 1, n: 1 }, Reply::Run { from: 1, n: 1 }),
        (Event::Finish { actor: 1, place: 1, value: 6 }, Reply::Done),
        (Event::Finish { actor: 0, place: 0, value: 5 }, Reply::Done),
    ]),
    // A segment that is refused.
    ("limit 8\nactor a push 5\nactor b push 6\nsteps a a b b b a!", &[
        (Event::RefusedMemory { actor: 0 }, Reply::NoMemory),
    ]),
    // Growths to a size, one of them finding enough.
    ("limit 8\nactor a atleast 4 0\nactor b atleast 5 1\nsteps a a a a a b b b b b b b b b b b b b b b b a", &[
        (Event::Raise { actor: 1, to: 5 }, Reply::Run { from: 0, n: 5 }),
        (Event::Finish { actor: 1, place: 0, value: 1 }, Reply::Done),
        (Event::Finish { actor: 1, place: 1, value: 1 }, Reply::Done),
        (Event::Finish { actor: 1, place: 2, value: 1 }, Reply::Done),
        (Event::Finish { actor: 1, place: 3, value: 1 }, Reply::Done),
        (Event::Finish { actor: 1, place: 4, value: 1 }, Reply::Done),
        (Event::Raise { actor: 0, to: 4 }, Reply::Enough { size: 5 }),
    ]),
    // A construction that is refused.
    ("limit 8\nactor a fail 3 7 1\nsteps a a a a a a a a a a a a", &[
        (Event::Claim { actor: 0, n: 3 }, Reply::Run { from: 0, n: 3 }),
        (Event::Finish { actor: 0, place: 0, value: 7 }, Reply::Done),
        (Event::Break { actor: 0, place: 1 }, Reply::Done),
        (Event::Break { actor: 0, place: 2 }, Reply::Done),
    ]),
    // A growth to a size past the limit.
    ("limit 4\nactor a push 5, atleast 9 0\nsteps a a a a a a a", &[
        (Event::Claim { actor: 0, n: 1 }, Reply::Run { from: 0, n: 1 }),
        (Event::Finish { actor: 0, place: 0, value: 5 }, Reply::Done),
        (Event::RefusedFull { actor: 0, n: 8 }, Reply::Full { size: 1 }),
    ]),
];

// Tests whether the play of a script has these events.
fn has_events(alloc: Global, script: &str, events: &[(Event, Reply)]) -> Result<bool, Fail> {
    Ok(played(alloc, true, script)?.events.as_slice() == events)
}

#[test]
fn plays_by_atomic_steps_have_their_events(rt: HostRuntime) -> Result<(), Fail> {
    for (script, events) in ROWS.as_slice() {
        assert!(rt; has_events(rt.alloc(), script, events)?, "{script}");
    }
    Ok(())
}

// What may happen to a play: refusals, lost exchanges, growths that meet, and reads of each kind.
#[rattlefmt::skip]
static SCRIPTS: [&'static str; 26] = [
    "limit 1\nactor a push 5\nactor b push 6, size\nsteps a b a a b a b b a a",
    "limit 8\nactor a push 5\nsteps a a a a a a",
    "limit 8\nactor a push 5\nsteps a a a a a",
    "limit 8\nactor a push 5\nactor b push 6\nsteps a b a a b a b b b b b a a",
    "limit 3\nactor a grow 3 1\nactor b grow 2 2, read 0\nsteps a b a b a b a b a b a b a b a b a b a b",
    "limit 2\nactor a grow 2 7, push 9\nsteps a a a a a a a a a",
    "limit 8\nactor a push 4, grow 5 1\nsteps a a a a a a a a a a a a a a a a a a a a a a a",
    "limit 8\nactor a grow 2 1, push 7\nsteps a a a a a a a a a a a a a a",
    "limit 8\nactor a grow 2 1, push 7\nsteps a a a a a a a a a a a a a",
    "limit 8\nactor a push 7\nactor b grow 2 1\nsteps a a a b b b a a a a a a",
    "limit 8\nactor a push 7\nactor b grow 2 1\nsteps a a a b b b a a a a a",
    "limit 8\nactor a grow 0 7\nsteps a",
    "limit 8\nactor a atleast 4 0\nactor b push 9\nsteps a a a a a b b b a a a a a a a",
    "limit 8\nactor a atleast 4 0\nactor b atleast 5 1\nsteps a a a a a b b b b b b b b b b b b b b b b a",
    "limit 8\nactor a fail 3 7 1\nsteps a a a a a a a a a a a a",
    "limit 8\nactor a fail 3 7 1\nsteps a a a a a a a a a a",
    "limit 8\nactor a push 5\nactor b read 0\nsteps a a a a b b",
    "limit 8\nactor a push 5\nactor b read 0\nsteps b a a a a a a",
    "limit 8\nactor a push 5\nactor b push 6\nsteps a a b b b a!",
    "limit 8\nactor a push 5\nsteps a! a! a a! a a",
    "limit 8\nactor a size, size\nsteps a! a",
    "limit 8\nactor a size\nactor b push 1\nsteps b a a b a a",
    "limit 8\nactor a push 5\nactor b read 0\nsteps a a a a a a b b",
    "limit 8\nactor a fail 1 7 0\nactor b read 0\nsteps a a a a a a b b",
    "limit 1\nactor a grow 2 1, atleast 2 1\nsteps a a",
    "limit 8\nactor a atleast 0 3\nsteps a",
];

// Tests whether the events are a history if the play of a script stops after `stop` items.
fn is_history(alloc: Global, script: &str, stop: usize) -> Result<bool, Fail> {
    let Script {
        limit,
        programs,
        items,
        ..
    } = read(alloc, script.as_bytes())?;
    let items = items.as_slice().get(..stop).ok_or("no such item")?;
    let played = play(alloc, limit, programs, items)?;
    Ok(check(alloc, limit, played.events.as_slice())?)
}

// Tests whether they are, at every stop, after the last item too.
fn are_histories(alloc: Global, script: &str) -> Result<bool, Fail> {
    let items = read(alloc, script.as_bytes())?.items.len();
    for stop in 0..items + 1 {
        if !is_history(alloc, script, stop)? {
            return Ok(false);
        }
    }
    Ok(true)
}

#[test]
fn the_events_of_plays_are_histories_wherever_they_stop(rt: HostRuntime) -> Result<(), Fail> {
    for script in SCRIPTS.as_slice() {
        assert!(rt; are_histories(rt.alloc(), script)?, "{script}");
    }
    Ok(())
}
