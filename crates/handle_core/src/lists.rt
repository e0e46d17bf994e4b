//! What the calls do with a list of value elements, whatever their size.
ghost use Rattle.std.specs.Prelude.{◌≡◌, ℕ, List, Some, IfOk, IfErr, OnOk, OnErr, length, slice_get};
ghost use Rattle.caller_core.specs.Grows.{OpensList, IsSameList};
ghost use Rattle.handle_core.specs.Held.{caller_of, words_of, list_of, list_words};
ghost use Rattle.handle_core.specs.Lists.{AreMembersFrom, CutsList, GetDue, ListCopyDue, ListSetDue, MemberDue, SetsMember, ShrinksList};

use crate::held::{AnyCaller, AnyList};
use crate::members;
use crate::sizes::{by_size, try_size};
use crate::status::Status;
use caller_core::Caller;
use std::alloc::Global;

// Returns the length and the limit.
pub(crate) fn facts(any: &AnyList) -> (u64, u64)
    ensures size { result.0 ≡ length (list_of any.now).members }
    ensures limit { result.1 ≡ (list_of any.now).limit }
{
    by_size!(AnyList, any, list => (list.len(), list.limit()))
}

// Returns the words of an element.
pub(crate) fn words(any: &AnyList) -> u64
    ensures { result ≡ list_words any.now }
{
    match any {
        AnyList::One(_) => 1,
        AnyList::Two(_) => 2,
        AnyList::Three(_) => 3,
        AnyList::Four(_) => 4,
        AnyList::Six(_) => 6,
        AnyList::Eight(_) => 8,
    }
}

// Copies the member at a place.
pub(crate) fn copy(any: &AnyList, place: u64, value: &mut [u64]) -> Result<(), Status>
    ensures value { OnOk result
        (slice_get (list_of any.now).members place ≡ Some (Some value.new)) }
    ensures refused { IfErr result
        (GetDue place (length value.old) (list_words any.now) (list_of any.now)) }
    ensures unchanged { OnErr result (value.new ≡ value.old) }
{
    by_size!(AnyList, any, list => members::copy(list, place, value))
}

// Copies members from a place on, as many as the array has room for, or none.
pub(crate) fn copy_all(any: &AnyList, place: u64, values: &mut [u64]) -> Result<(), Status>
    ensures copied { OnOk result
        (AreMembersFrom (list_words any.now) place values.new (list_of any.now)) }
    ensures refused { IfErr result
        (ListCopyDue place (length values.old) (list_words any.now) (list_of any.now)) }
    ensures unchanged { OnErr result (values.new ≡ values.old) }
    ensures length { length values.new ≡ length values.old }
{
    by_size!(AnyList, any, list => members::copy_all(list, place, values))
}

// Replaces the member at a place, or mends it.
pub(crate) fn set(any: &mut AnyList, place: u64, words: &[u64]) -> Result<(), Status>
    ensures set { OnOk result (SetsMember place words.now (list_of any.old) (list_of any.new)) }
    ensures refused { IfErr result
        (ListSetDue place (length words.now) (List ℕ) (list_words any.old) (list_of any.old)) }
    ensures unchanged { OnErr result (any.new ≡ any.old) }
    ensures words { list_words any.new ≡ list_words any.old }
{
    by_size!(AnyList, any, list => members::set(list, place, words))
}

// Returns the address of the member at a place.
pub(crate) fn look(any: &AnyList, place: u64) -> Result<*mut u64, Status>
    ensures there { IfOk result
        (λ _. (x : List ℕ) × (slice_get (list_of any.now).members place ≡ Some (Some x))) }
    ensures refused { IfErr result (MemberDue place ⊥ (List ℕ) (list_of any.now)) }
{
    by_size!(AnyList, any, list => members::look(list, place))
}

// Drops the members from a place on.
pub(crate) fn cut(any: &mut AnyList, size: u64)
    ensures cut { CutsList size (list_of any.old) (list_of any.new) }
    ensures words { list_words any.new ≡ list_words any.old }
{
    by_size!(AnyList, any, list => list.truncate(size))
}

// Frees the segments without a member.
pub(crate) fn shrink(any: &mut AnyList)
    ensures shrunk { ShrinksList (list_of any.old) (list_of any.new) }
    ensures words { list_words any.new ≡ list_words any.old }
{
    by_size!(AnyList, any, list => list.shrink_to_fit())
}

// Opens the list into a vector, or gives it back.
pub(crate) fn open(alloc: Global, any: AnyList) -> Result<AnyCaller, AnyList>
    ensures opened { IfOk result (λ hand. OpensList (list_of any) (caller_of hand)) }
    ensures words { IfOk result (λ hand. words_of hand ≡ list_words any) }
    ensures back { IfErr result (λ back. IsSameList (list_of any) (list_of back)) }
    ensures words_back { IfErr result (λ back. list_words back ≡ list_words any) }
{
    try_size!(AnyList, any, list => AnyCaller, Caller::of_list(alloc, list))
}
