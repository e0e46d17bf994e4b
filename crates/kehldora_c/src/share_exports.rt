//! The exports that cut a hand in two, put hands together, close a vector and open a list.
ghost use Rattle.std.specs.Prelude.{◌≡◌, None};
ghost use Rattle.handle_core.specs.Held.{OnBoth};
ghost use Rattle.handle_core.specs.Calls.{AreOfOneVector, SplitsFrom, JoinsInto};
ghost use Rattle.handle_core.specs.Calls.{IsDueOn, IsDueOrFull, IsJoinDue, SplitDue, CloseDue};
ghost use Rattle.handle_core.specs.Lists.{ClosesHeld, OpensHeld, KeepsList, IsDueOnList, MemoryDue};
ghost use Rattle.handle_core.specs.Status.{IsDone, IfRefused};

use handle_core::{DONE, Handle};
use std::alloc::Global;

/// Moves shares of a hand, not all, into a new one.
#[tactic(auto, using(crate::proofs::Codes::if_done, crate::proofs::Codes::if_refused))]
#[unsafe(no_mangle)]
pub extern "C" fn kehldora_raw_split(
    alloc: Global,
    hand: &mut Handle,
    shares: u32,
    other: &mut Handle,
) -> i32
    ensures split { IsDone result → SplitsFrom shares
        hand.old.owned.held hand.new.owned.held other.new.owned.held }
    ensures refused { IfRefused result (IsDueOrFull (IsDueOn (SplitDue shares))
        other.old.owned.held hand.old.owned.held) }
    ensures kept { (IsDone result → ⊥) → hand.new.owned.held ≡ hand.old.owned.held }
    ensures other_kept { (IsDone result → ⊥) → other.new ≡ other.old }
{
    match hand.split(alloc, shares, other) {
        Ok(()) => DONE,
        Err(status) => status.code(),
    }
}

/// Joins another hand of the same vector into a hand.
#[tactic(auto, using(crate::proofs::Codes::if_done, crate::proofs::Codes::if_refused))]
#[unsafe(no_mangle)]
pub extern "C" fn kehldora_raw_join(alloc: Global, hand: &mut Handle, other: &mut Handle) -> i32
    requires same { AreOfOneVector hand.old.owned.held other.old.owned.held }
    ensures joined { IsDone result → JoinsInto
        hand.old.owned.held other.old.owned.held hand.new.owned.held }
    ensures ended { IsDone result → other.new.owned.held ≡ None }
    ensures refused { IfRefused result (IsJoinDue hand.old.owned.held other.old.owned.held) }
    ensures kept { (IsDone result → ⊥) → hand.new.owned.held ≡ hand.old.owned.held }
    ensures other_kept { (IsDone result → ⊥) → other.new.owned.held ≡ other.old.owned.held }
{
    match hand.join(alloc, other) {
        Ok(()) => DONE,
        Err(status) => status.code(),
    }
}

/// Closes the vector of a hand into a list. The hand's box becomes the list's, so it takes no memory.
#[tactic(auto, using(crate::proofs::Codes::if_done, crate::proofs::Codes::if_refused))]
#[unsafe(no_mangle)]
pub extern "C" fn kehldora_raw_close(alloc: Global, hand: &mut Handle, list: &mut Handle) -> i32
    ensures closed { IsDone result → OnBoth ClosesHeld hand.old.owned.held list.new.owned.held }
    ensures ended { IsDone result → hand.new.owned.held ≡ None }
    ensures refused { IfRefused result (IsDueOrFull (IsDueOn CloseDue)
        list.old.owned.held hand.old.owned.held) }
    ensures kept { (IsDone result → ⊥) → hand.new.owned.held ≡ hand.old.owned.held }
    ensures list_kept { (IsDone result → ⊥) → list.new ≡ list.old }
{
    match hand.close(alloc, list) {
        Ok(()) => DONE,
        Err(status) => status.code(),
    }
}

/// Opens a list into a vector again. Its first hand has all shares. Without memory the list keeps its values.
#[tactic(auto, using(crate::proofs::Codes::if_done, crate::proofs::Codes::if_refused))]
#[unsafe(no_mangle)]
pub extern "C" fn kehldora_raw_list_open(alloc: Global, list: &mut Handle, hand: &mut Handle) -> i32
    ensures opened { IsDone result → OnBoth OpensHeld list.old.owned.held hand.new.owned.held }
    ensures ended { IsDone result → list.new.owned.held ≡ None }
    ensures refused { IfRefused result (IsDueOrFull (IsDueOnList MemoryDue)
        hand.old.owned.held list.old.owned.held) }
    ensures kept { (IsDone result → ⊥) → KeepsList list.old.owned.held list.new.owned.held }
    ensures hand_kept { (IsDone result → ⊥) → hand.new ≡ hand.old }
{
    match list.open_list(alloc, hand) {
        Ok(()) => DONE,
        Err(status) => status.code(),
    }
}
