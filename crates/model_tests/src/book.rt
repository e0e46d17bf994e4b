//! Facts that no clause states: that the calls succeed if there is memory, and that the table is the intended
//! one.
mod checks;
mod memory;

use book_core::{BookError, Cell, CellVec, Event, Reply, Sequence};

// An event and its reply, in turn on a list with a limit of 6.
static EVENTS: [(Event, Reply); 15] = [
    (
        Event::Claim { actor: 0, n: 2 },
        Reply::Run { from: 0, n: 2 },
    ),
    (
        Event::Claim { actor: 1, n: 0 },
        Reply::Run { from: 2, n: 0 },
    ),
    (
        Event::Raise { actor: 1, to: 4 },
        Reply::Run { from: 2, n: 2 },
    ),
    (Event::Raise { actor: 0, to: 4 }, Reply::Enough { size: 4 }),
    (
        Event::Finish {
            actor: 0,
            place: 1,
            value: 7,
        },
        Reply::Done,
    ),
    (Event::Break { actor: 1, place: 2 }, Reply::Done),
    (Event::Look { actor: 2, place: 0 }, Reply::Pending),
    (
        Event::Look { actor: 2, place: 1 },
        Reply::Value { value: 7 },
    ),
    (Event::Look { actor: 2, place: 2 }, Reply::Broken),
    (
        Event::Look { actor: 2, place: 4 },
        Reply::OutOfRange { size: 4 },
    ),
    (Event::Size { actor: 0 }, Reply::Size { size: 4 }),
    (
        Event::RefusedFull { actor: 0, n: 3 },
        Reply::Full { size: 4 },
    ),
    (Event::RefusedMemory { actor: 0 }, Reply::NoMemory),
    (Event::Mend { actor: 2, place: 2 }, Reply::Done),
    (Event::Look { actor: 0, place: 2 }, Reply::Pending),
];

// The cells then.
static CELLS: [Cell; 4] = [
    Cell::Pending(0),
    Cell::Filled(7),
    Cell::Pending(2),
    Cell::Pending(1),
];

// The first event whose reply is not that of its row.
fn first_wrong(list: &mut CellVec, rows: &[(Event, Reply)]) -> Option<Event> {
    for (event, reply) in rows {
        if list.apply(*event) != Ok(*reply) {
            return Some(*event);
        }
    }
    None
}

#[test]
fn each_event_has_its_reply(rt: HostRuntime) {
    let mut list = CellVec::new(rt.alloc(), 6);
    assert_eq!(rt; first_wrong(&mut list, EVENTS.as_slice()), None);
    assert!(rt; list.cells() == CELLS.as_slice() && list.limit() == 6);
    assert!(rt; list.into_cells().len() == 4);
}

// None of them is legal if actor 0 has claimed two places of a list with a limit of 3.
static REFUSED: [Event; 8] = [
    Event::Claim { actor: 0, n: 2 },
    Event::Claim {
        actor: 0,
        n: u64::MAX,
    },
    Event::Raise { actor: 0, to: 4 },
    Event::Finish {
        actor: 1,
        place: 0,
        value: 5,
    },
    Event::Finish {
        actor: 0,
        place: 2,
        value: 5,
    },
    Event::Break { actor: 1, place: 1 },
    Event::Mend { actor: 0, place: 0 },
    Event::RefusedFull { actor: 0, n: 1 },
];

static TWO_CLAIMED: [(Event, Reply); 1] = [(
    Event::Claim { actor: 0, n: 2 },
    Reply::Run { from: 0, n: 2 },
)];

static TWO_PENDING: [Cell; 2] = [Cell::Pending(0), Cell::Pending(0)];

// The first of these events that is legal.
fn first_legal(list: &mut CellVec, events: &[Event]) -> Option<Event> {
    for event in events {
        if list.apply(*event) != Err(BookError::NotLegal) {
            return Some(*event);
        }
    }
    None
}

#[test]
fn an_event_that_is_not_legal_changes_nothing(rt: HostRuntime) {
    let mut list = CellVec::new(rt.alloc(), 3);
    assert!(rt; first_wrong(&mut list, TWO_CLAIMED.as_slice()).is_none());
    assert_eq!(rt; first_legal(&mut list, REFUSED.as_slice()), None);
    assert!(rt; list.cells() == TWO_PENDING.as_slice());
}

// Numbers, and whether each is a limit.
static LIMITS: [(u64, bool); 4] = [
    (0, false),
    (1, true),
    (1_099_511_627_776, true),
    (1_099_511_627_777, false),
];

#[test]
fn a_limit_is_from_1_to_2_to_the_40(rt: HostRuntime) {
    for (limit, is_limit) in LIMITS.as_slice() {
        assert!(rt; CellVec::is_limit(*limit) == *is_limit, "{limit}");
    }
}

static THREE_AND_FOUR: [u64; 2] = [3, 4];

// Tests whether the sequence of these values lends them, and gives them back.
fn is_lent_and_given_back(values: Vec<u64>) -> bool {
    let sequence = Sequence::from_vec(values);
    let is_lent = sequence.as_slice() == THREE_AND_FOUR.as_slice()
        && sequence.len() == 2
        && !sequence.is_empty();
    let values = sequence.into_vec();
    is_lent && values.as_slice() == THREE_AND_FOUR.as_slice()
}

#[test]
fn a_sequence_lends_and_gives_back_its_vec(rt: HostRuntime) {
    let values = Vec::from_slice(rt.alloc(), THREE_AND_FOUR.as_slice());
    assert!(rt; values.map(is_lent_and_given_back) == Ok(true));
}
