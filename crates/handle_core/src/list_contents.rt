//! The calls on the list that a handle has.
ghost use Rattle.std.specs.Prelude.{◌≡◌, IfOk, IfErr, OnOk, OnErr, length};
ghost use Rattle.handle_core.specs.Held.{OnList, OnLists, width_of};
ghost use Rattle.handle_core.specs.Lists.{HasMember, HasValueAt, AreMembersOf, SetsWords, CutsList, ShrinksList};
ghost use Rattle.handle_core.specs.Lists.{IsDueOnList, IsCopyDueOnList, GetDue, ListCopyDue, ListSetDue, ListLookDue};
ghost use Rattle.handle_core.specs.Lists.{NeverDueOfList};

use crate::facts::ListFacts;
use crate::held::Held;
use crate::status::Status;
use crate::{lists, opaque_lists};

// Returns the length, the limit and the words of an element.
pub(crate) fn facts(held: &Held) -> Result<ListFacts, Status>
    ensures size { IfOk result (λ facts. OnList
        (λ T list. facts.size ≡ length list.members) held.now) }
    ensures limit { IfOk result (λ facts. OnList (λ T list. facts.limit ≡ list.limit) held.now) }
    ensures words { IfOk result (λ facts. facts.words ≡ width_of held.now) }
    ensures refused { IfErr result (IsDueOnList NeverDueOfList held.now) }
{
    match held {
        Held::List(any) => {
            let (size, limit) = lists::facts(any);
            Ok(ListFacts {
                size,
                limit,
                words: lists::words(any),
            })
        }
        Held::OpaqueList(any) => {
            let (size, limit) = opaque_lists::facts(any);
            Ok(ListFacts {
                size,
                limit,
                words: opaque_lists::words(any),
            })
        }
        Held::Hand(_) | Held::OpaqueHand(_) | Held::Empty => Err(Status::BadHandle),
    }
}

// Copies the member at a place.
pub(crate) fn copy(held: &Held, place: u64, value: &mut [u64]) -> Result<(), Status>
    ensures value { OnOk result (HasMember place value.new held.now) }
    ensures refused { IfErr result (IsCopyDueOnList (GetDue place (length value.old)) held.now) }
    ensures unchanged { OnErr result (value.new ≡ value.old) }
{
    match held {
        Held::List(any) => lists::copy(any, place, value),
        // An opaque element is copied by its address.
        Held::OpaqueList(_) => Err(Status::BadSize),
        Held::Hand(_) | Held::OpaqueHand(_) | Held::Empty => Err(Status::BadHandle),
    }
}

// Copies members from a place on, as many as the array has room for, or none.
pub(crate) fn copy_all(held: &Held, place: u64, values: &mut [u64]) -> Result<(), Status>
    ensures copied { OnOk result (AreMembersOf place values.new held.now) }
    ensures refused { IfErr result
        (IsCopyDueOnList (ListCopyDue place (length values.old)) held.now) }
    ensures unchanged { OnErr result (values.new ≡ values.old) }
{
    match held {
        Held::List(any) => lists::copy_all(any, place, values),
        Held::OpaqueList(_) => Err(Status::BadSize),
        Held::Hand(_) | Held::OpaqueHand(_) | Held::Empty => Err(Status::BadHandle),
    }
}

// Replaces the member at a place, or mends it.
pub(crate) fn set(held: &mut Held, place: u64, words: &[u64]) -> Result<(), Status>
    ensures set { OnOk result (SetsWords place words.now held.old held.new) }
    ensures refused { IfErr result (IsDueOnList (ListSetDue place (length words.now)) held.old) }
    ensures unchanged { OnErr result (held.new ≡ held.old) }
{
    match held {
        Held::List(any) => lists::set(any, place, words),
        Held::OpaqueList(any) => opaque_lists::set(any, place, words),
        Held::Hand(_) | Held::OpaqueHand(_) | Held::Empty => Err(Status::BadHandle),
    }
}

// Returns the address of the member at a place.
pub(crate) fn look(held: &Held, place: u64) -> Result<*mut u64, Status>
    ensures there { IfOk result (λ _. HasValueAt place held.now) }
    ensures refused { IfErr result (IsDueOnList (ListLookDue place) held.now) }
{
    match held {
        Held::List(any) => lists::look(any, place),
        Held::OpaqueList(any) => opaque_lists::look(any, place),
        Held::Hand(_) | Held::OpaqueHand(_) | Held::Empty => Err(Status::BadHandle),
    }
}

// Drops the members from a place on.
pub(crate) fn cut(held: &mut Held, size: u64) -> Result<(), Status>
    ensures cut { OnOk result (OnLists (λ T old new. CutsList size old new) held.old held.new) }
    ensures refused { IfErr result (IsDueOnList NeverDueOfList held.old) }
    ensures unchanged { OnErr result (held.new ≡ held.old) }
{
    match held {
        Held::List(any) => {
            lists::cut(any, size);
            Ok(())
        }
        Held::OpaqueList(any) => {
            opaque_lists::cut(any, size);
            Ok(())
        }
        Held::Hand(_) | Held::OpaqueHand(_) | Held::Empty => Err(Status::BadHandle),
    }
}

// Frees the segments without a member.
pub(crate) fn shrink(held: &mut Held) -> Result<(), Status>
    ensures shrunk { OnOk result (OnLists (λ T old new. ShrinksList old new) held.old held.new) }
    ensures refused { IfErr result (IsDueOnList NeverDueOfList held.old) }
    ensures unchanged { OnErr result (held.new ≡ held.old) }
{
    match held {
        Held::List(any) => {
            lists::shrink(any);
            Ok(())
        }
        Held::OpaqueList(any) => {
            opaque_lists::shrink(any);
            Ok(())
        }
        Held::Hand(_) | Held::OpaqueHand(_) | Held::Empty => Err(Status::BadHandle),
    }
}
