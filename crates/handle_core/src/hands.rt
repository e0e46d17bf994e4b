//! What the calls do with a hand of value elements, whatever their size.
ghost use Rattle.std.specs.Prelude.{◌≡◌, ◌<◌, ◌↔◌, ℕ, List, IfOk, IfErr, OnOk, OnErr, IsOkAnd, IsTrue, length, replicate};
ghost use Rattle.seg_core.specs.Segment.{IsLimit};
ghost use Rattle.claim_core.specs.Hand.{IsWholeHand, SeesSize, seen_size};
ghost use Rattle.grow_core.specs.Vector.{limit_of};
ghost use Rattle.caller_core.specs.Caller.{IsNewCaller, HasLast, Pushes};
ghost use Rattle.caller_core.specs.Grows.{AreSideBySide, GrowsBy, Mends, WinsPlaces};
ghost use Rattle.handle_core.specs.Held.{KeepsAny, caller_of, words_of, list_of, list_words};
ghost use Rattle.handle_core.specs.Calls.{OpenDue, PushDue, GrowDue, FillDue, AtLeastDue, GrowthDue, AtDue, ReadDue, MendsDue, RoomDue, SplitDue, SplitsCaller, ReachesSize, HasLastElement, StatesDue, elements_in};
ghost use Rattle.handle_core.specs.Status.{IfDone, IfRefused};
ghost use Rattle.handle_core.specs.Lists.{ClosesCaller};

use crate::held::{AnyCaller, AnyList};
use crate::sizes::{by_size, keep_size, opened, try_size};
use crate::status::Status;
use crate::{growths, reads};
use caller_core::Caller;
use seg_core::Layout;
use std::alloc::Global;

// Opens a vector.
pub(crate) fn open(
    alloc: Global,
    limit: u64,
    words: u64,
    layout: Layout,
) -> Result<AnyCaller, Status>
    requires { IsLimit limit }
    ensures new { IfOk result (λ any. IsNewCaller limit layout (caller_of any)) }
    ensures words { IfOk result (λ any. words_of any ≡ words) }
    ensures refused { IfErr result (OpenDue limit words layout) }
{
    match words {
        1 => opened!(AnyCaller, One, Caller::open(alloc, limit, layout)),
        2 => opened!(AnyCaller, Two, Caller::open(alloc, limit, layout)),
        3 => opened!(AnyCaller, Three, Caller::open(alloc, limit, layout)),
        4 => opened!(AnyCaller, Four, Caller::open(alloc, limit, layout)),
        6 => opened!(AnyCaller, Six, Caller::open(alloc, limit, layout)),
        8 => opened!(AnyCaller, Eight, Caller::open(alloc, limit, layout)),
        _ => Err(Status::BadSize),
    }
}

// Appends the element that these words make.
#[inline(always)]
pub(crate) fn push(any: &mut AnyCaller, words: &[u64], place: &mut u64) -> i32
    ensures pushed { IfDone result
        (Pushes words.now (caller_of any.old) (caller_of any.new) place.new) }
    ensures refused { IfRefused result
        (PushDue (length words.now) (List ℕ) (words_of any.new) (caller_of any.new)) }
    ensures kept { KeepsAny any.old any.new }
{
    by_size!(AnyCaller, any, caller => growths::push(caller, words, place))
}

// Appends the elements that these words make.
pub(crate) fn grow(any: &mut AnyCaller, words: &[u64]) -> Result<u64, Status>
    ensures grown { IfOk result
        (GrowsBy (elements_in (words_of any.old) words.now) (caller_of any.old) (caller_of any.new)) }
    ensures refused { IfErr result
        (GrowDue (length words.now) (List ℕ) (words_of any.new) (caller_of any.new)) }
    ensures kept { KeepsAny any.old any.new }
{
    by_size!(AnyCaller, any, caller => growths::grow_values(caller, words))
}

// Appends `count` copies of the element that these words make.
pub(crate) fn fill(any: &mut AnyCaller, words: &[u64], count: u64) -> Result<u64, Status>
    ensures grown { IfOk result
        (GrowsBy (replicate count words.now) (caller_of any.old) (caller_of any.new)) }
    ensures refused { IfErr result
        (FillDue count (length words.now) (List ℕ) (words_of any.new) (caller_of any.new)) }
    ensures kept { KeepsAny any.old any.new }
{
    by_size!(AnyCaller, any, caller => growths::fill_values(caller, words, count))
}

// Appends what is missing up to this size.
pub(crate) fn at_least(any: &mut AnyCaller, size: u64, words: &[u64]) -> Result<(u64, u64), Status>
    ensures grown { IfOk result
        (λ (place, n). ReachesSize size place n (caller_of any.old) (caller_of any.new)) }
    ensures last { IfOk result (λ (place, n).
        HasLastElement (λ ws. ws) (words_of any.old) words.now place n (caller_of any.new)) }
    ensures refused { IfErr result
        (AtLeastDue size (length words.now) (List ℕ) (words_of any.new) (caller_of any.new)) }
    ensures kept { KeepsAny any.old any.new }
{
    by_size!(AnyCaller, any, caller => growths::at_least(caller, size, words))
}

// Claims `count` places and breaks them.
pub(crate) fn leave(any: &mut AnyCaller, count: u64) -> Result<u64, Status>
    ensures broken { IfOk result (WinsPlaces count (caller_of any.old) (caller_of any.new)) }
    ensures refused { IfErr result (GrowthDue count ⊥ (List ℕ) (caller_of any.new)) }
    ensures kept { KeepsAny any.old any.new }
{
    by_size!(AnyCaller, any, caller => growths::leave(caller, count))
}

// Copies the value at a place.
#[inline(always)]
pub(crate) fn copy(any: &mut AnyCaller, place: u64, value: &mut [u64]) -> Result<(), Status>
    ensures own { (x : List ℕ) → length value.old ≡ words_of any.old
        → HasLast place x (caller_of any.old).last → IsOkAnd result (λ _. value.new ≡ x) }
    ensures refused { IfErr result
        (AtDue place (length value.old) (words_of any.new) (caller_of any.new)) }
    ensures kept { KeepsAny any.old any.new }
    ensures unchanged { OnErr result (value.new ≡ value.old) }
    ensures length { length value.new ≡ length value.old }
{
    by_size!(AnyCaller, any, caller => reads::copy(caller, place, value))
}

// Returns the address of the value at a place.
#[inline(always)]
pub(crate) fn look(any: &mut AnyCaller, place: u64) -> Result<*mut u64, Status>
    ensures below { IfOk result (λ _. place < seen_size (caller_of any.new).hand) }
    ensures refused { IfErr result (ReadDue place ⊥ (List ℕ) (caller_of any.new)) }
    ensures kept { KeepsAny any.old any.new }
{
    by_size!(AnyCaller, any, caller => reads::look(caller, place))
}

// Returns the address of the value at a place, and how many filled ones lie there side by side.
pub(crate) fn run(any: &mut AnyCaller, place: u64) -> Result<(*mut u64, u64), Status>
    ensures run { IfOk result (λ (_, n). AreSideBySide (caller_of any.old).vector place n) }
    ensures refused { IfErr result (ReadDue place ⊥ (List ℕ) (caller_of any.new)) }
    ensures kept { KeepsAny any.old any.new }
{
    by_size!(AnyCaller, any, caller => reads::run(caller, place))
}

// Fills a broken place.
pub(crate) fn mend(any: &mut AnyCaller, place: u64, words: &[u64]) -> Result<(), Status>
    ensures mended { OnOk result (Mends place words.now (caller_of any.old) (caller_of any.new)) }
    ensures refused { IfErr result
        (MendsDue place (length words.now) (List ℕ) (words_of any.new) (caller_of any.new)) }
    ensures kept { KeepsAny any.old any.new }
{
    by_size!(AnyCaller, any, caller => reads::mend(caller, place, words))
}

// Makes room for this many places in all.
pub(crate) fn reserve(any: &mut AnyCaller, size: u64) -> Result<(), Status>
    ensures refused { IfErr result (RoomDue size (List ℕ) (words_of any.new) (caller_of any.new)) }
    ensures kept { KeepsAny any.old any.new }
{
    by_size!(AnyCaller, any, caller => reads::reserve(caller, size))
}

// Loads the size.
#[inline(always)]
pub(crate) fn size(any: &mut AnyCaller) -> u64
    ensures seen { SeesSize (caller_of any.old).hand (caller_of any.new).hand result }
    ensures kept { KeepsAny any.old any.new }
{
    by_size!(AnyCaller, any, caller => caller.size())
}

// Returns the shares, the size that was seen, and the limit.
pub(crate) fn facts(any: &AnyCaller) -> (u64, u64, u64)
    ensures shares { result.0 ≡ (caller_of any.now).hand.shares }
    ensures seen { result.1 ≡ seen_size (caller_of any.now).hand }
    ensures limit { result.2 ≡ limit_of (caller_of any.now).vector }
{
    by_size!(AnyCaller, any, caller => reads::facts(caller))
}

// Returns the words of an element.
pub(crate) fn words(any: &AnyCaller) -> u64
    ensures { result ≡ words_of any.now }
{
    match any {
        AnyCaller::One(_) => 1,
        AnyCaller::Two(_) => 2,
        AnyCaller::Three(_) => 3,
        AnyCaller::Four(_) => 4,
        AnyCaller::Six(_) => 6,
        AnyCaller::Eight(_) => 8,
    }
}

// Returns the address of the words with the states of a place's segment.
pub(crate) fn states(any: &AnyCaller, place: u64) -> Result<*mut u64, Status>
    ensures within { IfOk result (λ _. place < limit_of (caller_of any.now).vector) }
    ensures refused { IfErr result (StatesDue (List ℕ) (words_of any.now) (caller_of any.now)) }
{
    by_size!(AnyCaller, any, caller => reads::states(caller, place))
}

// Returns an address that tells open vectors apart.
pub(crate) fn address(any: &AnyCaller) -> *mut u64 {
    by_size!(AnyCaller, any, caller => caller.address())
}

// Moves shares into a new hand.
pub(crate) fn split(any: &mut AnyCaller, shares: u32) -> Result<AnyCaller, Status>
    ensures split { IfOk result
        (λ other. SplitsCaller shares (caller_of any.old) (caller_of any.new) (caller_of other)) }
    ensures words { IfOk result (λ other. words_of other ≡ words_of any.old) }
    ensures refused { IfErr result
        (SplitDue shares (List ℕ) (words_of any.old) (caller_of any.old)) }
    ensures unchanged { OnErr result (any.new ≡ any.old) }
    ensures words_kept { words_of any.new ≡ words_of any.old }
{
    keep_size!(AnyCaller, any, caller => AnyCaller, reads::split(caller, shares))
}

// Tests whether the hand has all shares.
pub(crate) fn is_whole(any: &AnyCaller) -> bool
    ensures { IsTrue result ↔ IsWholeHand (caller_of any.now).hand }
{
    by_size!(AnyCaller, any, caller => caller.is_whole())
}

// Closes the vector into a list, or gives the hand back.
pub(crate) fn close(any: AnyCaller) -> Result<AnyList, AnyCaller>
    ensures closed { IfOk result (λ list. ClosesCaller (caller_of any) (list_of list)) }
    ensures words { IfOk result (λ list. list_words list ≡ words_of any) }
    ensures back { IfErr result (λ back. back ≡ any) }
{
    try_size!(AnyCaller, any, caller => AnyList, caller.close())
}
