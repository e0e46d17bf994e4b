//! What the calls do with a hand of opaque elements, whatever their size.
ghost use Rattle.std.specs.Prelude.{◌≡◌, ◌<◌, ◌/◌, ◌↔◌, IfOk, IfErr, OnOk, OnErr, IsTrue, length};
ghost use Rattle.seg_core.specs.Segment.{IsLimit};
ghost use Rattle.claim_core.specs.Hand.{IsWholeHand, SeesSize, seen_size};
ghost use Rattle.grow_core.specs.Vector.{limit_of};
ghost use Rattle.caller_core.specs.Caller.{IsNewCaller, Pushes};
ghost use Rattle.caller_core.specs.Grows.{AreSideBySide, Mends, WinsPlaces};
ghost use Rattle.handle_core.specs.Held.{KeepsOpaque, opaque_of, opaque_words, opaque_list_of, opaque_list_words};
ghost use Rattle.handle_core.specs.Calls.{OpenDue, PushDue, GrowDue, FillDue, AtLeastDue, GrowthDue, ReadDue, MendsDue, RoomDue, SplitDue, SplitsCaller, StatesDue, ReachesSize};
ghost use Rattle.handle_core.specs.Status.{IfDone, IfRefused};
ghost use Rattle.handle_core.specs.Lists.{ClosesCaller};

use crate::held::{AnyOpaque, AnyOpaqueList};
use crate::sizes::{by_size, keep_size, opened, try_size};
use crate::status::Status;
use crate::{growths, reads};
use caller_core::Caller;
use seg_core::Layout;
use std::alloc::Global;

// Opens a vector.
pub(crate) fn open(
    alloc: Global,
    limit: u64,
    words: u64,
    layout: Layout,
) -> Result<AnyOpaque, Status>
    requires { IsLimit limit }
    ensures new { IfOk result (λ any. IsNewCaller limit layout (opaque_of any)) }
    ensures words { IfOk result (λ any. opaque_words any ≡ words) }
    ensures refused { IfErr result (OpenDue limit words layout) }
{
    match words {
        1 => opened!(AnyOpaque, One, Caller::open(alloc, limit, layout)),
        2 => opened!(AnyOpaque, Two, Caller::open(alloc, limit, layout)),
        3 => opened!(AnyOpaque, Three, Caller::open(alloc, limit, layout)),
        4 => opened!(AnyOpaque, Four, Caller::open(alloc, limit, layout)),
        6 => opened!(AnyOpaque, Six, Caller::open(alloc, limit, layout)),
        8 => opened!(AnyOpaque, Eight, Caller::open(alloc, limit, layout)),
        _ => Err(Status::BadSize),
    }
}

// Appends the element that these words make.
#[inline(always)]
pub(crate) fn push(any: &mut AnyOpaque, words: &[u64], place: &mut u64) -> i32
    ensures pushed { IfDone result (Pushes tt (opaque_of any.old) (opaque_of any.new) place.new) }
    ensures refused { IfRefused result
        (PushDue (length words.now) (Unit {0}) (opaque_words any.new) (opaque_of any.new)) }
    ensures kept { KeepsOpaque any.old any.new }
{
    by_size!(AnyOpaque, any, caller => growths::push(caller, words, place))
}

// Appends the elements that these words make.
pub(crate) fn grow(any: &mut AnyOpaque, words: &[u64]) -> Result<u64, Status>
    ensures grown { IfOk result
        (WinsPlaces (length words.now / opaque_words any.old) (opaque_of any.old) (opaque_of any.new)) }
    ensures refused { IfErr result
        (GrowDue (length words.now) (Unit {0}) (opaque_words any.new) (opaque_of any.new)) }
    ensures kept { KeepsOpaque any.old any.new }
{
    by_size!(AnyOpaque, any, caller => growths::grow_opaque(caller, words))
}

// Appends `count` elements that are made of the same words.
pub(crate) fn fill(any: &mut AnyOpaque, words: &[u64], count: u64) -> Result<u64, Status>
    ensures grown { IfOk result (WinsPlaces count (opaque_of any.old) (opaque_of any.new)) }
    ensures refused { IfErr result
        (FillDue count (length words.now) (Unit {0}) (opaque_words any.new) (opaque_of any.new)) }
    ensures kept { KeepsOpaque any.old any.new }
{
    by_size!(AnyOpaque, any, caller => growths::fill_opaque(caller, words, count))
}

// Appends what is missing up to this size.
pub(crate) fn at_least(any: &mut AnyOpaque, size: u64, words: &[u64]) -> Result<(u64, u64), Status>
    ensures grown { IfOk result
        (λ (place, n). ReachesSize size place n (opaque_of any.old) (opaque_of any.new)) }
    ensures refused { IfErr result
        (AtLeastDue size (length words.now) (Unit {0}) (opaque_words any.new) (opaque_of any.new)) }
    ensures kept { KeepsOpaque any.old any.new }
{
    by_size!(AnyOpaque, any, caller => growths::at_least(caller, size, words))
}

// Claims `count` places and breaks them.
pub(crate) fn leave(any: &mut AnyOpaque, count: u64) -> Result<u64, Status>
    ensures broken { IfOk result (WinsPlaces count (opaque_of any.old) (opaque_of any.new)) }
    ensures refused { IfErr result (GrowthDue count ⊥ (Unit {0}) (opaque_of any.new)) }
    ensures kept { KeepsOpaque any.old any.new }
{
    by_size!(AnyOpaque, any, caller => growths::leave(caller, count))
}

// Returns the address of the value at a place.
#[inline(always)]
pub(crate) fn look(any: &mut AnyOpaque, place: u64) -> Result<*mut u64, Status>
    ensures below { IfOk result (λ _. place < seen_size (opaque_of any.new).hand) }
    ensures refused { IfErr result (ReadDue place ⊥ (Unit {0}) (opaque_of any.new)) }
    ensures kept { KeepsOpaque any.old any.new }
{
    by_size!(AnyOpaque, any, caller => reads::look(caller, place))
}

// Returns the address of the value at a place, and how many filled ones lie there side by side.
pub(crate) fn run(any: &mut AnyOpaque, place: u64) -> Result<(*mut u64, u64), Status>
    ensures run { IfOk result (λ (_, n). AreSideBySide (opaque_of any.old).vector place n) }
    ensures refused { IfErr result (ReadDue place ⊥ (Unit {0}) (opaque_of any.new)) }
    ensures kept { KeepsOpaque any.old any.new }
{
    by_size!(AnyOpaque, any, caller => reads::run(caller, place))
}

// Fills a broken place.
pub(crate) fn mend(any: &mut AnyOpaque, place: u64, words: &[u64]) -> Result<(), Status>
    ensures mended { OnOk result (Mends place tt (opaque_of any.old) (opaque_of any.new)) }
    ensures refused { IfErr result
        (MendsDue place (length words.now) (Unit {0}) (opaque_words any.new) (opaque_of any.new)) }
    ensures kept { KeepsOpaque any.old any.new }
{
    by_size!(AnyOpaque, any, caller => reads::mend(caller, place, words))
}

// Makes room for this many places in all.
pub(crate) fn reserve(any: &mut AnyOpaque, size: u64) -> Result<(), Status>
    ensures refused { IfErr result
        (RoomDue size (Unit {0}) (opaque_words any.new) (opaque_of any.new)) }
    ensures kept { KeepsOpaque any.old any.new }
{
    by_size!(AnyOpaque, any, caller => reads::reserve(caller, size))
}

// Loads the size.
#[inline(always)]
pub(crate) fn size(any: &mut AnyOpaque) -> u64
    ensures seen { SeesSize (opaque_of any.old).hand (opaque_of any.new).hand result }
    ensures kept { KeepsOpaque any.old any.new }
{
    by_size!(AnyOpaque, any, caller => caller.size())
}

// Returns the shares, the size that was seen, and the limit.
pub(crate) fn facts(any: &AnyOpaque) -> (u64, u64, u64)
    ensures shares { result.0 ≡ (opaque_of any.now).hand.shares }
    ensures seen { result.1 ≡ seen_size (opaque_of any.now).hand }
    ensures limit { result.2 ≡ limit_of (opaque_of any.now).vector }
{
    by_size!(AnyOpaque, any, caller => reads::facts(caller))
}

// Returns the words of an element.
pub(crate) fn words(any: &AnyOpaque) -> u64
    ensures { result ≡ opaque_words any.now }
{
    match any {
        AnyOpaque::One(_) => 1,
        AnyOpaque::Two(_) => 2,
        AnyOpaque::Three(_) => 3,
        AnyOpaque::Four(_) => 4,
        AnyOpaque::Six(_) => 6,
        AnyOpaque::Eight(_) => 8,
    }
}

// Returns the address of the words with the states of a place's segment.
pub(crate) fn states(any: &AnyOpaque, place: u64) -> Result<*mut u64, Status>
    ensures within { IfOk result (λ _. place < limit_of (opaque_of any.now).vector) }
    ensures refused { IfErr result
        (StatesDue (Unit {0}) (opaque_words any.now) (opaque_of any.now)) }
{
    by_size!(AnyOpaque, any, caller => reads::states(caller, place))
}

// Returns an address that tells open vectors apart.
pub(crate) fn address(any: &AnyOpaque) -> *mut u64 {
    by_size!(AnyOpaque, any, caller => caller.address())
}

// Moves shares into a new hand.
pub(crate) fn split(any: &mut AnyOpaque, shares: u32) -> Result<AnyOpaque, Status>
    ensures split { IfOk result
        (λ other. SplitsCaller shares (opaque_of any.old) (opaque_of any.new) (opaque_of other)) }
    ensures words { IfOk result (λ other. opaque_words other ≡ opaque_words any.old) }
    ensures refused { IfErr result
        (SplitDue shares (Unit {0}) (opaque_words any.old) (opaque_of any.old)) }
    ensures unchanged { OnErr result (any.new ≡ any.old) }
    ensures words_kept { opaque_words any.new ≡ opaque_words any.old }
{
    keep_size!(AnyOpaque, any, caller => AnyOpaque, reads::split(caller, shares))
}

// Tests whether the hand has all shares.
pub(crate) fn is_whole(any: &AnyOpaque) -> bool
    ensures { IsTrue result ↔ IsWholeHand (opaque_of any.now).hand }
{
    by_size!(AnyOpaque, any, caller => caller.is_whole())
}

// Closes the vector into a list, or gives the hand back.
pub(crate) fn close(any: AnyOpaque) -> Result<AnyOpaqueList, AnyOpaque>
    ensures closed { IfOk result (λ list. ClosesCaller (opaque_of any) (opaque_list_of list)) }
    ensures words { IfOk result (λ list. opaque_list_words list ≡ opaque_words any) }
    ensures back { IfErr result (λ back. back ≡ any) }
{
    try_size!(AnyOpaque, any, caller => AnyOpaqueList, caller.close())
}
