// What `check` says of histories.
ghost use Rattle.seg_core.specs.Segment.{IsLimit};

use super::TWO_CLAIMED;
use book_core::{Event, Reply, check};
use std::alloc::{AllocError, Global};
use std::test::Fail;

// Tests whether `check` says this of a history.
fn says(alloc: Global, limit: u64, history: &[(Event, Reply)], is_legal: bool) -> bool
    requires { IsLimit limit }
{
    check(alloc, limit, history) == Ok(is_legal)
}

#[test]
fn check_refuses_two_equal_starts(rt: HostRuntime) -> Result<(), Fail> {
    let mut history = [
        (
            Event::Claim { actor: 0, n: 1 },
            Reply::Run { from: 0, n: 1 },
        ),
        (
            Event::Claim { actor: 1, n: 1 },
            Reply::Run { from: 0, n: 1 },
        ),
    ];
    assert!(rt; !check(rt.alloc(), 8, &history)?);
    history[1].1 = Reply::Run { from: 1, n: 1 };
    assert!(rt; check(rt.alloc(), 8, &history)?);
    // The second claim passes a limit of 1.
    assert!(rt; !check(rt.alloc(), 1, &history)?);
    assert!(rt; check(rt.alloc(), 1, &history[..1])?);
    assert!(rt; check(rt.alloc(), 1, &history[..0])?);
    Ok(())
}

// The events with the replies of the rows, and with the last entry of the row in the place of the reply of
// one of them.
fn with_wrong_reply(
    alloc: Global,
    rows: &[(Event, Reply, Reply)],
    wrong: usize,
) -> Result<Vec<(Event, Reply)>, AllocError> {
    let mut history = Vec::new(alloc);
    for (row, at) in rows.iter().zip(0..rows.len()) {
        let reply = if at == wrong { row.2 } else { row.1 };
        history.push((row.0, reply))?;
    }
    Ok(history)
}

// An event, its reply, and a wrong one.
static ROWS: [(Event, Reply, Reply); 13] = [
    (
        Event::Claim { actor: 0, n: 2 },
        Reply::Run { from: 0, n: 2 },
        Reply::Run { from: 0, n: 1 },
    ),
    (
        Event::Claim { actor: 1, n: 1 },
        Reply::Run { from: 2, n: 1 },
        Reply::Run { from: 0, n: 1 },
    ),
    (
        Event::Raise { actor: 2, to: 6 },
        Reply::Run { from: 3, n: 3 },
        Reply::Enough { size: 6 },
    ),
    (
        Event::Raise { actor: 0, to: 4 },
        Reply::Enough { size: 6 },
        Reply::Enough { size: 4 },
    ),
    (
        Event::Finish {
            actor: 0,
            place: 0,
            value: 7,
        },
        Reply::Done,
        Reply::Value { value: 7 },
    ),
    (
        Event::Break { actor: 1, place: 2 },
        Reply::Done,
        Reply::Broken,
    ),
    (
        Event::Look { actor: 1, place: 0 },
        Reply::Value { value: 7 },
        Reply::Value { value: 8 },
    ),
    (
        Event::Look { actor: 1, place: 1 },
        Reply::Pending,
        Reply::Value { value: 7 },
    ),
    (
        Event::Look { actor: 0, place: 2 },
        Reply::Broken,
        Reply::Pending,
    ),
    (
        Event::Look { actor: 0, place: 6 },
        Reply::OutOfRange { size: 6 },
        Reply::OutOfRange { size: 8 },
    ),
    (
        Event::Size { actor: 2 },
        Reply::Size { size: 6 },
        Reply::Enough { size: 6 },
    ),
    (
        Event::RefusedFull { actor: 2, n: 3 },
        Reply::Full { size: 6 },
        Reply::Full { size: 8 },
    ),
    (
        Event::RefusedMemory { actor: 2 },
        Reply::NoMemory,
        Reply::Done,
    ),
];

// Tests whether `check` says this of the rows with that wrong reply.
fn says_of_rows(
    alloc: Global,
    rows: &[(Event, Reply, Reply)],
    wrong: usize,
    is_legal: bool,
) -> bool {
    match with_wrong_reply(alloc, rows, wrong) {
        Ok(history) => says(alloc, 8, history.as_slice(), is_legal),
        Err(AllocError) => false,
    }
}

#[test]
fn check_refuses_each_wrong_reply(rt: HostRuntime) {
    for wrong in 0..ROWS.len() {
        assert!(rt; says_of_rows(rt.alloc(), &ROWS, wrong, false), "{wrong}");
    }
    assert!(rt; says_of_rows(rt.alloc(), &ROWS, ROWS.len(), true));
    // Without the first claim the second one begins elsewhere.
    assert!(rt; says_of_rows(rt.alloc(), &ROWS[1..], ROWS.len(), false));
}

// A reply that the event has in no history behind a claim of two places by actor 0.
static NOT_LEGAL: [(Event, Reply); 6] = [
    (
        Event::Claim { actor: 0, n: 7 },
        Reply::Run { from: 2, n: 7 },
    ),
    (
        Event::Claim {
            actor: 0,
            n: u64::MAX,
        },
        Reply::Full { size: 2 },
    ),
    (
        Event::Raise { actor: 0, to: 9 },
        Reply::Run { from: 2, n: 7 },
    ),
    (
        Event::Finish {
            actor: 1,
            place: 0,
            value: 5,
        },
        Reply::Done,
    ),
    (Event::Break { actor: 0, place: 2 }, Reply::Done),
    (
        Event::RefusedFull { actor: 0, n: 6 },
        Reply::Full { size: 2 },
    ),
];

#[test]
fn check_refuses_each_event_that_is_not_legal(rt: HostRuntime) {
    for (event, reply) in NOT_LEGAL.as_slice() {
        let history = [TWO_CLAIMED[0], (*event, *reply)];
        assert!(rt; says(rt.alloc(), 8, &history, false), "{event:?}");
    }
}

// Claims of one place each, and then the places are finished, the last one by another actor if `owned` is
// false.
fn long_history(
    alloc: Global,
    places: u64,
    owned: bool,
) -> Result<Vec<(Event, Reply)>, AllocError> {
    let mut history = Vec::new(alloc);
    for from in 0..places {
        history.push((Event::Claim { actor: 0, n: 1 }, Reply::Run { from, n: 1 }))?;
    }
    for place in 0..places {
        let actor = if owned || place + 1 < places { 0 } else { 1 };
        let value = place;
        history.push((
            Event::Finish {
                actor,
                place,
                value,
            },
            Reply::Done,
        ))?;
    }
    Ok(history)
}

// Tests whether `check` reads a history of 100,000 events, and says whether it is owned.
fn reads_a_long_one(alloc: Global, owned: bool) -> bool {
    match long_history(alloc, 50_000, owned) {
        Ok(history) => history.len() == 100_000 && says(alloc, 65536, history.as_slice(), owned),
        Err(AllocError) => false,
    }
}

#[test]
fn check_reads_a_long_history(rt: HostRuntime) {
    assert!(rt; reads_a_long_one(rt.alloc(), true) && reads_a_long_one(rt.alloc(), false));
}
