//! The exports that read.
ghost use Rattle.std.specs.Prelude.{◌≡◌, ◌<◌, ℕ, List, IsSomeAnd, length};
ghost use Rattle.claim_core.specs.Hand.{seen_size};
ghost use Rattle.grow_core.specs.Vector.{limit_of};
ghost use Rattle.caller_core.specs.Grows.{AreSideBySide};
ghost use Rattle.handle_core.specs.Held.{Keeps, OnHeld, OnHand};
ghost use Rattle.handle_core.specs.Calls.{HasLastValue, IsDueIn, IsDueOn, IsCopyDueOn, AtDue, LookDue, StatesDue};
ghost use Rattle.handle_core.specs.Status.{IsDone, IfRefused};

use handle_core::{DONE, Handle};

/// Copies the value at a place. The hand's own last place has its value.
#[tactic(auto, using(crate::proofs::Codes::if_done, crate::proofs::Codes::if_refused))]
#[unsafe(no_mangle)]
pub extern "C" fn kehldora_raw_at(hand: &mut Handle, place: u64, value: &mut [u64]) -> i32
    ensures own { (x : List ℕ) → IsSomeAnd hand.old.owned.held
        (HasLastValue (length value.old) place x) → IsDone result × (value.new ≡ x) }
    ensures refused { IfRefused result
        (IsDueIn (IsCopyDueOn (AtDue place (length value.old))) hand.new.owned.held) }
    ensures unchanged { (IsDone result → ⊥) → value.new ≡ value.old }
    ensures kept { Keeps hand.old.owned.held hand.new.owned.held }
{
    match hand.copy(place, value) {
        Ok(()) => DONE,
        Err(status) => status.code(),
    }
}

/// Gives the address of the value at a place.
#[tactic(auto, using(crate::proofs::Codes::if_done, crate::proofs::Codes::if_refused))]
#[unsafe(no_mangle)]
pub extern "C" fn kehldora_raw_look(hand: &mut Handle, place: u64, at: &mut *mut u64) -> i32
    ensures below { IsDone result → OnHeld
        (OnHand (λ T caller. place < seen_size caller.hand)) hand.new.owned.held }
    ensures refused { IfRefused result (IsDueIn (IsDueOn (LookDue place)) hand.new.owned.held) }
    ensures kept { Keeps hand.old.owned.held hand.new.owned.held }
{
    match hand.look(place) {
        Ok(address) => {
            *at = address;
            DONE
        }
        Err(status) => status.code(),
    }
}

/// Gives the address of the words with the states of a place's segment, if that is there: four bits for each place.
#[tactic(auto, using(crate::proofs::Codes::if_done, crate::proofs::Codes::if_refused))]
#[unsafe(no_mangle)]
pub extern "C" fn kehldora_raw_states(hand: &mut Handle, place: u64, at: &mut *mut u64) -> i32
    ensures within { IsDone result → OnHeld
        (OnHand (λ T caller. place < limit_of caller.vector)) hand.old.owned.held }
    ensures refused { IfRefused result (IsDueIn (IsDueOn StatesDue) hand.old.owned.held) }
    ensures kept { hand.new.owned.held ≡ hand.old.owned.held }
{
    match hand.states(place) {
        Ok(address) => {
            *at = address;
            DONE
        }
        Err(status) => status.code(),
    }
}

/// Gives the address of the value at a place, and the number of filled ones that lie there side by side.
#[tactic(auto, using(crate::proofs::Codes::if_done, crate::proofs::Codes::if_refused))]
#[unsafe(no_mangle)]
pub extern "C" fn kehldora_raw_run(
    hand: &mut Handle,
    place: u64,
    at: &mut *mut u64,
    count: &mut u64,
) -> i32
    ensures run { IsDone result → OnHeld
        (OnHand (λ T caller. AreSideBySide caller.vector place count.new)) hand.old.owned.held }
    ensures refused { IfRefused result (IsDueIn (IsDueOn (LookDue place)) hand.new.owned.held) }
    ensures kept { Keeps hand.old.owned.held hand.new.owned.held }
{
    match hand.run(place) {
        Ok((address, n)) => {
            *at = address;
            *count = n;
            DONE
        }
        Err(status) => status.code(),
    }
}
