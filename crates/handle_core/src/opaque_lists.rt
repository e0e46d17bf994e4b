//! What the calls do with a list of opaque elements, whatever their size.
ghost use Rattle.std.specs.Prelude.{◌≡◌, Some, IfOk, IfErr, OnOk, OnErr, length, slice_get};
ghost use Rattle.caller_core.specs.Grows.{OpensList, IsSameList};
ghost use Rattle.handle_core.specs.Held.{opaque_of, opaque_words, opaque_list_of, opaque_list_words};
ghost use Rattle.handle_core.specs.Lists.{CutsList, ListSetDue, MemberDue, SetsMember, ShrinksList};

use crate::held::{AnyOpaque, AnyOpaqueList};
use crate::members;
use crate::sizes::{by_size, try_size};
use crate::status::Status;
use caller_core::Caller;
use std::alloc::Global;

// Returns the length and the limit.
pub(crate) fn facts(any: &AnyOpaqueList) -> (u64, u64)
    ensures size { result.0 ≡ length (opaque_list_of any.now).members }
    ensures limit { result.1 ≡ (opaque_list_of any.now).limit }
{
    by_size!(AnyOpaqueList, any, list => (list.len(), list.limit()))
}

// Returns the words of an element.
pub(crate) fn words(any: &AnyOpaqueList) -> u64
    ensures { result ≡ opaque_list_words any.now }
{
    match any {
        AnyOpaqueList::One(_) => 1,
        AnyOpaqueList::Two(_) => 2,
        AnyOpaqueList::Three(_) => 3,
        AnyOpaqueList::Four(_) => 4,
        AnyOpaqueList::Six(_) => 6,
        AnyOpaqueList::Eight(_) => 8,
    }
}

// Replaces the member at a place, or mends it.
pub(crate) fn set(any: &mut AnyOpaqueList, place: u64, words: &[u64]) -> Result<(), Status>
    ensures set { OnOk result
        (SetsMember place tt (opaque_list_of any.old) (opaque_list_of any.new)) }
    ensures refused { IfErr result
        (ListSetDue place (length words.now) (Unit {0}) (opaque_list_words any.old) (opaque_list_of any.old)) }
    ensures unchanged { OnErr result (any.new ≡ any.old) }
    ensures words { opaque_list_words any.new ≡ opaque_list_words any.old }
{
    by_size!(AnyOpaqueList, any, list => members::set(list, place, words))
}

// Returns the address of the member at a place.
pub(crate) fn look(any: &AnyOpaqueList, place: u64) -> Result<*mut u64, Status>
    ensures there { IfOk result
        (λ _. (x : Unit {0}) × (slice_get (opaque_list_of any.now).members place ≡ Some (Some x))) }
    ensures refused { IfErr result (MemberDue place ⊥ (Unit {0}) (opaque_list_of any.now)) }
{
    by_size!(AnyOpaqueList, any, list => members::look(list, place))
}

// Drops the members from a place on.
pub(crate) fn cut(any: &mut AnyOpaqueList, size: u64)
    ensures cut { CutsList size (opaque_list_of any.old) (opaque_list_of any.new) }
    ensures words { opaque_list_words any.new ≡ opaque_list_words any.old }
{
    by_size!(AnyOpaqueList, any, list => list.truncate(size))
}

// Frees the segments without a member.
pub(crate) fn shrink(any: &mut AnyOpaqueList)
    ensures shrunk { ShrinksList (opaque_list_of any.old) (opaque_list_of any.new) }
    ensures words { opaque_list_words any.new ≡ opaque_list_words any.old }
{
    by_size!(AnyOpaqueList, any, list => list.shrink_to_fit())
}

// Opens the list into a vector, or gives it back.
pub(crate) fn open(alloc: Global, any: AnyOpaqueList) -> Result<AnyOpaque, AnyOpaqueList>
    ensures opened { IfOk result (λ hand. OpensList (opaque_list_of any) (opaque_of hand)) }
    ensures words { IfOk result (λ hand. opaque_words hand ≡ opaque_list_words any) }
    ensures back { IfErr result (λ back. IsSameList (opaque_list_of any) (opaque_list_of back)) }
    ensures words_back { IfErr result (λ back. opaque_list_words back ≡ opaque_list_words any) }
{
    try_size!(AnyOpaqueList, any, list => AnyOpaque, Caller::of_list(alloc, list))
}
