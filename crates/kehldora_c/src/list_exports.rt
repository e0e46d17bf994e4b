//! The exports over a list.
ghost use Rattle.std.specs.Prelude.{◌≡◌, None, length};
ghost use Rattle.handle_core.specs.Held.{OnBoth, OnHeld, OnList, OnLists, width_of};
ghost use Rattle.handle_core.specs.Calls.{IsDueIn};
ghost use Rattle.handle_core.specs.Lists.{HasMember, HasValueAt, AreMembersOf, SetsWords, CutsList, ShrinksList};
ghost use Rattle.handle_core.specs.Lists.{IsDueOnList, IsCopyDueOnList, GetDue, ListCopyDue, ListSetDue, ListLookDue};
ghost use Rattle.handle_core.specs.Lists.{NeverDueOfList};
ghost use Rattle.handle_core.specs.Status.{IsDone, IfRefused};

use handle_core::{DONE, Handle, ListFacts};
use std::alloc::Global;

/// Tells how long a list is.
#[tactic(auto, using(crate::proofs::Codes::if_done, crate::proofs::Codes::if_refused))]
#[unsafe(no_mangle)]
pub extern "C" fn kehldora_raw_list_about(list: &mut Handle, facts: &mut ListFacts) -> i32
    ensures size { IsDone result → OnHeld
        (OnList (λ T list. facts.new.size ≡ length list.members)) list.old.owned.held }
    ensures limit { IsDone result → OnHeld
        (OnList (λ T list. facts.new.limit ≡ list.limit)) list.old.owned.held }
    ensures words { IsDone result
        → OnHeld (λ held. facts.new.words ≡ width_of held) list.old.owned.held }
    ensures refused { IfRefused result (IsDueIn (IsDueOnList NeverDueOfList) list.old.owned.held) }
    ensures kept { list.new.owned.held ≡ list.old.owned.held }
{
    match list.list_facts() {
        Ok(known) => {
            *facts = known;
            DONE
        }
        Err(status) => status.code(),
    }
}

/// Copies the member at a place.
#[tactic(auto, using(crate::proofs::Codes::if_done, crate::proofs::Codes::if_refused))]
#[unsafe(no_mangle)]
pub extern "C" fn kehldora_raw_list_get(list: &mut Handle, place: u64, value: &mut [u64]) -> i32
    ensures value { IsDone result → OnHeld (HasMember place value.new) list.old.owned.held }
    ensures refused { IfRefused result
        (IsDueIn (IsCopyDueOnList (GetDue place (length value.old))) list.old.owned.held) }
    ensures unchanged { (IsDone result → ⊥) → value.new ≡ value.old }
    ensures kept { list.new.owned.held ≡ list.old.owned.held }
{
    match list.copy_member(place, value) {
        Ok(()) => DONE,
        Err(status) => status.code(),
    }
}

/// Replaces the member at a place, or mends it.
#[tactic(auto, using(crate::proofs::Codes::if_done, crate::proofs::Codes::if_refused))]
#[unsafe(no_mangle)]
pub extern "C" fn kehldora_raw_list_set(list: &mut Handle, place: u64, value: &[u64]) -> i32
    ensures set { IsDone result
        → OnBoth (SetsWords place value.now) list.old.owned.held list.new.owned.held }
    ensures refused { IfRefused result
        (IsDueIn (IsDueOnList (ListSetDue place (length value.now))) list.old.owned.held) }
    ensures kept { (IsDone result → ⊥) → list.new.owned.held ≡ list.old.owned.held }
{
    match list.set_member(place, value) {
        Ok(()) => DONE,
        Err(status) => status.code(),
    }
}

/// Copies members side by side from a place on, as many as there is room for, or none.
#[tactic(auto, using(crate::proofs::Codes::if_done, crate::proofs::Codes::if_refused))]
#[unsafe(no_mangle)]
pub extern "C" fn kehldora_raw_list_copy(list: &mut Handle, place: u64, values: &mut [u64]) -> i32
    ensures copied { IsDone result → OnHeld (AreMembersOf place values.new) list.old.owned.held }
    ensures refused { IfRefused result
        (IsDueIn (IsCopyDueOnList (ListCopyDue place (length values.old))) list.old.owned.held) }
    ensures unchanged { (IsDone result → ⊥) → values.new ≡ values.old }
    ensures kept { list.new.owned.held ≡ list.old.owned.held }
{
    match list.copy_members(place, values) {
        Ok(()) => DONE,
        Err(status) => status.code(),
    }
}

/// Gives the address of the member at a place.
#[tactic(auto, using(crate::proofs::Codes::if_done, crate::proofs::Codes::if_refused))]
#[unsafe(no_mangle)]
pub extern "C" fn kehldora_raw_list_look(list: &mut Handle, place: u64, at: &mut *mut u64) -> i32
    ensures there { IsDone result → OnHeld (HasValueAt place) list.old.owned.held }
    ensures refused { IfRefused result
        (IsDueIn (IsDueOnList (ListLookDue place)) list.old.owned.held) }
    ensures kept { list.new.owned.held ≡ list.old.owned.held }
{
    match list.look_at_member(place) {
        Ok(address) => {
            *at = address;
            DONE
        }
        Err(status) => status.code(),
    }
}

/// Drops the members from a place on. Their memory stays.
#[tactic(auto, using(crate::proofs::Codes::if_done, crate::proofs::Codes::if_refused))]
#[unsafe(no_mangle)]
pub extern "C" fn kehldora_raw_list_cut(list: &mut Handle, size: u64) -> i32
    ensures cut { IsDone result → OnBoth
        (OnLists (λ T old new. CutsList size old new)) list.old.owned.held list.new.owned.held }
    ensures refused { IfRefused result (IsDueIn (IsDueOnList NeverDueOfList) list.old.owned.held) }
    ensures kept { (IsDone result → ⊥) → list.new.owned.held ≡ list.old.owned.held }
{
    match list.cut(size) {
        Ok(()) => DONE,
        Err(status) => status.code(),
    }
}

/// Frees the segments that have no member.
#[tactic(auto, using(crate::proofs::Codes::if_done, crate::proofs::Codes::if_refused))]
#[unsafe(no_mangle)]
pub extern "C" fn kehldora_raw_list_shrink(list: &mut Handle) -> i32
    ensures shrunk { IsDone result → OnBoth
        (OnLists (λ T old new. ShrinksList old new)) list.old.owned.held list.new.owned.held }
    ensures refused { IfRefused result (IsDueIn (IsDueOnList NeverDueOfList) list.old.owned.held) }
    ensures kept { (IsDone result → ⊥) → list.new.owned.held ≡ list.old.owned.held }
{
    match list.shrink() {
        Ok(()) => DONE,
        Err(status) => status.code(),
    }
}

/// Ends a list, or a hand.
#[unsafe(no_mangle)]
pub extern "C" fn kehldora_raw_list_free(alloc: Global, list: &mut Handle) -> i32
    ensures ended { list.new.owned.held ≡ None }
    ensures full { (IsDone result → ⊥) → list.old.owned.held ≡ None }
{
    match list.free(alloc) {
        Ok(()) => DONE,
        Err(status) => status.code(),
    }
}
