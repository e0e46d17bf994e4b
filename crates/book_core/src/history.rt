//! The check of a list of events with replies against the sequential vector.
ghost use Rattle.std.specs.Prelude.{◌≡◌, ◌≢◌, ◌↔◌, false, Some, IsTrue, IfOk, IfSome};
ghost use Rattle.seg_core.specs.Segment.{IsLimit};
ghost use Rattle.book_core.specs.Cells.{empty_list, apply_event};
ghost use Rattle.book_core.specs.History.{IsLegalFrom};

use crate::events::{Event, Reply};
use crate::vector::{BookError, CellVec};
use std::alloc::{AllocError, Global};

// Tests whether the event is legal and has this reply. A legal event happens, with another reply too.
fn apply_with_reply(list: &mut CellVec, event: Event, reply: Reply) -> Result<bool, AllocError>
    ensures yes { IfOk result
        (λ yes. IsTrue yes → apply_event list.old event ≡ Some (list.new, reply)) }
    ensures no { IfOk result (λ yes. yes ≡ false
        → IfSome (apply_event list.old event) (λ after. after.1 ≢ reply)) }
{
    match list.apply(event) {
        Ok(replied) => Ok(replied == reply),
        Err(BookError::NoMemory) => Err(AllocError),
        Err(BookError::NotLegal) => Ok(false),
    }
}

/// Tests whether a list of events with replies is a history of the sequential vector: each event is legal in
/// turn, and its reply is right.
///
/// Its time is linear in the history and the places that it claims, its memory in those places. The error
/// comes when that memory is refused. No event is looked at after the first that is not legal or has another
/// reply.
pub fn check(alloc: Global, limit: u64, history: &[(Event, Reply)]) -> Result<bool, AllocError>
    requires { IsLimit limit }
    ensures exact { IfOk result (λ yes. IsTrue yes ↔ IsLegalFrom (empty_list limit) history.now) }
{
    let mut list = CellVec::new(alloc, limit);
    for row in history {
        if !apply_with_reply(&mut list, row.0, row.1)? {
            return Ok(false);
        }
    }
    Ok(true)
}
