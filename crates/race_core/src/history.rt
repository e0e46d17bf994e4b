//! What was won, as a history of the sequential vector.
ghost use Rattle.std.specs.Prelude.{◌≡◌, ◌↔◌, ◌++◌, IsTrue, IfOk, OnOk, length};
ghost use Rattle.seg_core.specs.Segment.{IsLimit};
ghost use Rattle.book_core.specs.Cells.{empty_list};
ghost use Rattle.book_core.specs.History.{IsLegalFrom};
ghost use Rattle.race_core.specs.Race.{AreAllPlaces, AreBelow, AreInOrder, events_of_win};

use crate::team::Win;
use book_core::{Event, Reply, check, laws};
use std::alloc::{AllocError, Global};

// The wins in order of place.
pub(crate) fn sort_wins(
    alloc: Global,
    size: u64,
    wins: &[Win],
) -> Result<Vec<Option<Win>>, AllocError>
    requires all { AreAllPlaces size wins.now }
    requires below { AreBelow size wins.now }
    ensures { IfOk result (λ slots. AreInOrder size slots.items) }
{
    let mut slots = vec![in alloc; None; size as usize]?;
    for win in wins {
        slots[win.place as usize] = Some(*win);
    }
    Ok(slots)
}

// Each place was claimed by the worker that won it, and filled with its value.
pub(crate) fn history_of(
    alloc: Global,
    slots: &[Option<Win>],
) -> Result<Vec<(Event, Reply)>, AllocError>
    requires limit { IsLimit (length slots.now) }
    requires places { AreInOrder (length slots.now) slots.now }
    ensures { IfOk result (λ h. IsLegalFrom (empty_list (length slots.now)) h.items) }
{
    // For the proof: a claim and then the fill of its place are legal, and they go on a legal history.
    laws::histories_split();
    laws::claims_append();
    laws::owners_write();
    let mut history = Vec::with_capacity(alloc, 2 * slots.len())?;
    for slot in slots {
        let Some(win) = slot else { unreachable!() };
        push_events(&mut history, *win)?;
    }
    Ok(history)
}

// The place was claimed by the worker that won it, and filled with its value.
fn push_events(history: &mut Vec<(Event, Reply)>, win: Win) -> Result<(), AllocError>
    ensures { OnOk result (history.new.items ≡ history.old.items ++ events_of_win win) }
{
    let actor = win.worker;
    let place = win.place;
    let value = win.value;
    history
        .push((
            Event::Claim { actor, n: 1 },
            Reply::Run { from: place, n: 1 },
        ))
        .map_err(AllocError::from)?;
    history
        .push((
            Event::Finish {
                actor,
                place,
                value,
            },
            Reply::Done,
        ))
        .map_err(AllocError::from)?;
    Ok(())
}

// Tests whether what was won is a history of the sequential vector, by `check`.
pub(crate) fn is_legal(
    alloc: Global,
    size: u64,
    history: &[(Event, Reply)],
) -> Result<bool, AllocError>
    requires { IsLimit size }
    ensures { IfOk result (λ yes. IsTrue yes ↔ IsLegalFrom (empty_list size) history.now) }
{
    check(alloc, size, history)
}
