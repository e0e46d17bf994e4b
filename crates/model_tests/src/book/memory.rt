// Any one request for memory may be refused: then the call changes nothing, and the next one goes on.
use super::EVENTS;
use book_core::{BookError, CellVec, Event, Reply, check};

// The reply to an event, at the second try if memory was refused to the first.
fn applied(list: &mut CellVec, event: Event) -> Option<Reply> {
    let len = list.cells().len();
    match list.apply(event) {
        Ok(reply) => Some(reply),
        Err(BookError::NoMemory) if list.cells().len() == len => list.apply(event).ok(),
        Err(_refused) => None,
    }
}

// The first event that has another reply than that of its row.
fn first_wrong(list: &mut CellVec, rows: &[(Event, Reply)]) -> Option<Event> {
    for (event, reply) in rows {
        if applied(list, *event) != Some(*reply) {
            return Some(*event);
        }
    }
    None
}

#[test]
fn an_event_is_tried_again(rt: HostRuntime) {
    let mut list = CellVec::new(rt.alloc(), 6);
    assert_eq!(rt; first_wrong(&mut list, EVENTS.as_slice()), None);
    assert!(rt; list.into_cells().len() == 4);
}

#[test]
fn a_history_is_checked_again(rt: HostRuntime) {
    let mut answer = check(rt.alloc(), 6, &EVENTS);
    if answer.is_err() {
        answer = check(rt.alloc(), 6, &EVENTS);
    }
    assert!(rt; answer == Ok(true));
}
