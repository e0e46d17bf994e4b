//! The exports that open, end and describe a hand.
ghost use Rattle.std.specs.Prelude.{◌≡◌, None};
ghost use Rattle.claim_core.specs.Hand.{SeesSize, seen_size};
ghost use Rattle.grow_core.specs.Vector.{limit_of};
ghost use Rattle.handle_core.specs.Held.{Keeps, OnBoth, OnHeld, OnHand, OnHands, IsHand, width_of};
ghost use Rattle.handle_core.specs.Calls.{IsNewHand, OpenDue, IsOpenDueIn, IsDueIn, IsDueOn, NeverDue, RoomDue};
ghost use Rattle.handle_core.specs.Status.{IsDone, IfRefused};

use handle_core::{DONE, HandFacts, Handle};
use std::alloc::Global;

/// Returns the version of the exports.
#[unsafe(no_mangle)]
pub extern "C" fn kehldora_raw_version() -> u32
    ensures { result ≡ 1 }
{
    1
}

/// Opens a vector. Its first hand has all shares.
#[tactic(auto, using(crate::proofs::Codes::if_done, crate::proofs::Codes::if_refused))]
#[unsafe(no_mangle)]
pub extern "C" fn kehldora_raw_open(
    alloc: Global,
    limit: u64,
    words: u64,
    first: u32,
    opaque: bool,
    hand: &mut Handle,
) -> i32
    ensures opened { IsDone result → OnHeld
        (IsNewHand limit words first opaque) hand.new.owned.held }
    ensures refused { IfRefused result
        (IsOpenDueIn (OpenDue limit words first) hand.old.owned.held) }
    ensures empty { IsDone result → hand.old.owned.held ≡ None }
    ensures kept { (IsDone result → ⊥) → hand.new ≡ hand.old }
{
    match hand.open(alloc, limit, words, first, opaque) {
        Ok(()) => DONE,
        Err(status) => status.code(),
    }
}

/// Ends a hand, or a list.
#[unsafe(no_mangle)]
pub extern "C" fn kehldora_raw_free(alloc: Global, hand: &mut Handle) -> i32
    ensures ended { hand.new.owned.held ≡ None }
    ensures full { (IsDone result → ⊥) → hand.old.owned.held ≡ None }
{
    match hand.free(alloc) {
        Ok(()) => DONE,
        Err(status) => status.code(),
    }
}

/// Tells what a hand knows. It loads nothing.
#[tactic(auto, using(crate::proofs::Codes::if_done, crate::proofs::Codes::if_refused))]
#[unsafe(no_mangle)]
pub extern "C" fn kehldora_raw_about(hand: &mut Handle, facts: &mut HandFacts) -> i32
    ensures shares { IsDone result → OnHeld
        (OnHand (λ T caller. facts.new.shares ≡ caller.hand.shares)) hand.old.owned.held }
    ensures seen { IsDone result → OnHeld
        (OnHand (λ T caller. facts.new.seen ≡ seen_size caller.hand)) hand.old.owned.held }
    ensures limit { IsDone result → OnHeld
        (OnHand (λ T caller. facts.new.limit ≡ limit_of caller.vector)) hand.old.owned.held }
    ensures words { IsDone result
        → OnHeld (λ held. facts.new.words ≡ width_of held) hand.old.owned.held }
    ensures refused { IfRefused result (IsDueIn (IsDueOn NeverDue) hand.old.owned.held) }
    ensures kept { hand.new.owned.held ≡ hand.old.owned.held }
{
    match hand.hand_facts() {
        Ok(known) => {
            *facts = known;
            DONE
        }
        Err(status) => status.code(),
    }
}

/// Loads the size.
#[tactic(auto, using(crate::proofs::Codes::if_done, crate::proofs::Codes::if_refused))]
#[unsafe(no_mangle)]
pub extern "C" fn kehldora_raw_size(hand: &mut Handle, size: &mut u64) -> i32
    ensures seen { IsDone result → OnBoth (OnHands
        (λ T old new. SeesSize old.hand new.hand size.new)) hand.old.owned.held hand.new.owned.held }
    ensures refused { IfRefused result (IsDueIn (IsDueOn NeverDue) hand.new.owned.held) }
    ensures kept { Keeps hand.old.owned.held hand.new.owned.held }
{
    match hand.size() {
        Ok(now) => {
            *size = now;
            DONE
        }
        Err(status) => status.code(),
    }
}

/// Gives an address that is the same for all hands of a vector, and another for each other open vector.
#[tactic(auto, using(crate::proofs::Codes::if_done, crate::proofs::Codes::if_refused))]
#[unsafe(no_mangle)]
pub extern "C" fn kehldora_raw_where(hand: &mut Handle, at: &mut *mut u64) -> i32
    ensures hand { IsDone result → OnHeld IsHand hand.old.owned.held }
    ensures refused { IfRefused result (IsDueIn (IsDueOn NeverDue) hand.old.owned.held) }
    ensures kept { hand.new.owned.held ≡ hand.old.owned.held }
{
    match hand.address() {
        Ok(address) => {
            *at = address;
            DONE
        }
        Err(status) => status.code(),
    }
}

/// Makes room for a number of places in all.
#[tactic(auto, using(crate::proofs::Codes::if_done, crate::proofs::Codes::if_refused))]
#[unsafe(no_mangle)]
pub extern "C" fn kehldora_raw_reserve(hand: &mut Handle, size: u64) -> i32
    ensures hand { IsDone result → OnHeld IsHand hand.old.owned.held }
    ensures refused { IfRefused result (IsDueIn (IsDueOn (RoomDue size)) hand.new.owned.held) }
    ensures kept { Keeps hand.old.owned.held hand.new.owned.held }
{
    match hand.reserve(size) {
        Ok(()) => DONE,
        Err(status) => status.code(),
    }
}
