//! The exports that append, break and mend.
ghost use Rattle.std.specs.Prelude.{length};
ghost use Rattle.handle_core.specs.Held.{Keeps, OnBoth};
ghost use Rattle.handle_core.specs.Calls.{PushesWords, GrowsByWords, GrowsByCopies, GrowsUpToWords, WinsPlacesOf, MendsWords};
ghost use Rattle.handle_core.specs.Calls.{IsDueIn, IsDueOn, PushDue, GrowDue, FillDue, AtLeastDue, LeaveDue, MendsDue};
ghost use Rattle.handle_core.specs.Status.{IsDone, IfRefused};

use handle_core::{DONE, Handle};

/// Appends a value, and tells its place. It tries three times.
#[unsafe(no_mangle)]
pub extern "C" fn kehldora_raw_push(hand: &mut Handle, value: &[u64], place: &mut u64) -> i32
    ensures pushed { IsDone result → OnBoth
        (PushesWords value.now place.new) hand.old.owned.held hand.new.owned.held }
    ensures refused { IfRefused result
        (IsDueIn (IsDueOn (PushDue (length value.now))) hand.new.owned.held) }
    ensures kept { Keeps hand.old.owned.held hand.new.owned.held }
{
    hand.push(value, place)
}

/// Appends the elements of an array, and tells the place of the first one. It tries once.
#[tactic(auto, using(crate::proofs::Codes::if_done, crate::proofs::Codes::if_refused))]
#[unsafe(no_mangle)]
pub extern "C" fn kehldora_raw_grow(hand: &mut Handle, values: &[u64], place: &mut u64) -> i32
    ensures grown { IsDone result → OnBoth
        (GrowsByWords values.now place.new) hand.old.owned.held hand.new.owned.held }
    ensures refused { IfRefused result
        (IsDueIn (IsDueOn (GrowDue (length values.now))) hand.new.owned.held) }
    ensures kept { Keeps hand.old.owned.held hand.new.owned.held }
{
    match hand.grow(values) {
        Ok(at) => {
            *place = at;
            DONE
        }
        Err(status) => status.code(),
    }
}

/// Appends copies of a value, and tells the place of the first one. It tries once.
#[tactic(auto, using(crate::proofs::Codes::if_done, crate::proofs::Codes::if_refused))]
#[unsafe(no_mangle)]
pub extern "C" fn kehldora_raw_fill(
    hand: &mut Handle,
    value: &[u64],
    count: u64,
    place: &mut u64,
) -> i32
    ensures grown { IsDone result → OnBoth
        (GrowsByCopies count value.now place.new) hand.old.owned.held hand.new.owned.held }
    ensures refused { IfRefused result
        (IsDueIn (IsDueOn (FillDue count (length value.now))) hand.new.owned.held) }
    ensures kept { Keeps hand.old.owned.held hand.new.owned.held }
{
    match hand.fill(value, count) {
        Ok(at) => {
            *place = at;
            DONE
        }
        Err(status) => status.code(),
    }
}

/// Appends what is missing up to a size, and tells the place of the first one and how many there are.
#[tactic(auto, using(crate::proofs::Codes::if_done, crate::proofs::Codes::if_refused))]
#[unsafe(no_mangle)]
pub extern "C" fn kehldora_raw_at_least(
    hand: &mut Handle,
    size: u64,
    values: &[u64],
    place: &mut u64,
    count: &mut u64,
) -> i32
    ensures grown { IsDone result → OnBoth
        (GrowsUpToWords size values.now place.new count.new) hand.old.owned.held hand.new.owned.held }
    ensures refused { IfRefused result
        (IsDueIn (IsDueOn (AtLeastDue size (length values.now))) hand.new.owned.held) }
    ensures kept { Keeps hand.old.owned.held hand.new.owned.held }
{
    match hand.at_least(size, values) {
        Ok((at, n)) => {
            *place = at;
            *count = n;
            DONE
        }
        Err(status) => status.code(),
    }
}

/// Claims places and breaks them, and tells the first one. It tries once.
#[tactic(auto, using(crate::proofs::Codes::if_done, crate::proofs::Codes::if_refused))]
#[unsafe(no_mangle)]
pub extern "C" fn kehldora_raw_leave(hand: &mut Handle, count: u64, place: &mut u64) -> i32
    ensures broken { IsDone result → OnBoth
        (WinsPlacesOf count place.new) hand.old.owned.held hand.new.owned.held }
    ensures refused { IfRefused result (IsDueIn (IsDueOn (LeaveDue count)) hand.new.owned.held) }
    ensures kept { Keeps hand.old.owned.held hand.new.owned.held }
{
    match hand.leave(count) {
        Ok(at) => {
            *place = at;
            DONE
        }
        Err(status) => status.code(),
    }
}

/// Fills a broken place.
#[tactic(auto, using(crate::proofs::Codes::if_done, crate::proofs::Codes::if_refused))]
#[unsafe(no_mangle)]
pub extern "C" fn kehldora_raw_mend(hand: &mut Handle, place: u64, value: &[u64]) -> i32
    ensures mended { IsDone result → OnBoth
        (MendsWords place value.now) hand.old.owned.held hand.new.owned.held }
    ensures refused { IfRefused result
        (IsDueIn (IsDueOn (MendsDue place (length value.now))) hand.new.owned.held) }
    ensures kept { Keeps hand.old.owned.held hand.new.owned.held }
{
    match hand.mend(place, value) {
        Ok(()) => DONE,
        Err(status) => status.code(),
    }
}
