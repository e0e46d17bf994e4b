//! The calls on the hand that a handle has.
ghost use Rattle.std.specs.Prelude.{◌≡◌, ◌<◌, ℕ, List, IfOk, IfErr, IsOkAnd, OnOk, OnErr, length};
ghost use Rattle.claim_core.specs.Hand.{SeesSize, seen_size};
ghost use Rattle.grow_core.specs.Vector.{limit_of};
ghost use Rattle.caller_core.specs.Grows.{AreSideBySide};
ghost use Rattle.handle_core.specs.Held.{KeepsHeld, OnHand, OnHands, IsHand, width_of};
ghost use Rattle.handle_core.specs.Calls.{PushesWords, GrowsByWords, GrowsByCopies, GrowsUpToWords, WinsPlacesOf};
ghost use Rattle.handle_core.specs.Calls.{MendsWords, HasLastValue};
ghost use Rattle.handle_core.specs.Calls.{IsDueOn, IsCopyDueOn, PushDue, GrowDue, FillDue, AtLeastDue, LeaveDue};
ghost use Rattle.handle_core.specs.Status.{IfDone, IfRefused};
ghost use Rattle.handle_core.specs.Calls.{AtDue, LookDue, MendsDue, RoomDue, StatesDue, NeverDue};

use crate::facts::HandFacts;
use crate::held::Held;
use crate::status::Status;
use crate::{hands, opaque_hands};

// Appends the element that these words make.
#[inline(always)]
#[tactic(auto, using(crate::proofs::Codes::if_refused, crate::proofs::Codes::not_done))]
pub(crate) fn push(held: &mut Held, words: &[u64], place: &mut u64) -> i32
    ensures pushed { IfDone result (PushesWords words.now place.new held.old held.new) }
    ensures refused { IfRefused result (IsDueOn (PushDue (length words.now)) held.new) }
    ensures kept { KeepsHeld held.old held.new }
{
    match held {
        Held::Hand(any) => hands::push(any, words, place),
        Held::OpaqueHand(any) => opaque_hands::push(any, words, place),
        Held::List(_) | Held::OpaqueList(_) | Held::Empty => Status::BadHandle.code(),
    }
}

// Appends the elements that these words make.
pub(crate) fn grow(held: &mut Held, words: &[u64]) -> Result<u64, Status>
    ensures grown { IfOk result (λ place. GrowsByWords words.now place held.old held.new) }
    ensures refused { IfErr result (IsDueOn (GrowDue (length words.now)) held.new) }
    ensures kept { KeepsHeld held.old held.new }
{
    match held {
        Held::Hand(any) => hands::grow(any, words),
        Held::OpaqueHand(any) => opaque_hands::grow(any, words),
        Held::List(_) | Held::OpaqueList(_) | Held::Empty => Err(Status::BadHandle),
    }
}

// Appends `count` copies of the element that these words make.
pub(crate) fn fill(held: &mut Held, words: &[u64], count: u64) -> Result<u64, Status>
    ensures grown { IfOk result (λ place. GrowsByCopies count words.now place held.old held.new) }
    ensures refused { IfErr result (IsDueOn (FillDue count (length words.now)) held.new) }
    ensures kept { KeepsHeld held.old held.new }
{
    match held {
        Held::Hand(any) => hands::fill(any, words, count),
        Held::OpaqueHand(any) => opaque_hands::fill(any, words, count),
        Held::List(_) | Held::OpaqueList(_) | Held::Empty => Err(Status::BadHandle),
    }
}

// Appends what is missing up to this size.
pub(crate) fn at_least(held: &mut Held, size: u64, words: &[u64]) -> Result<(u64, u64), Status>
    ensures grown { IfOk result
        (λ (place, n). GrowsUpToWords size words.now place n held.old held.new) }
    ensures refused { IfErr result (IsDueOn (AtLeastDue size (length words.now)) held.new) }
    ensures kept { KeepsHeld held.old held.new }
{
    match held {
        Held::Hand(any) => hands::at_least(any, size, words),
        Held::OpaqueHand(any) => opaque_hands::at_least(any, size, words),
        Held::List(_) | Held::OpaqueList(_) | Held::Empty => Err(Status::BadHandle),
    }
}

// Claims `count` places and breaks them.
pub(crate) fn leave(held: &mut Held, count: u64) -> Result<u64, Status>
    ensures broken { IfOk result (λ place. WinsPlacesOf count place held.old held.new) }
    ensures refused { IfErr result (IsDueOn (LeaveDue count) held.new) }
    ensures kept { KeepsHeld held.old held.new }
{
    match held {
        Held::Hand(any) => hands::leave(any, count),
        Held::OpaqueHand(any) => opaque_hands::leave(any, count),
        Held::List(_) | Held::OpaqueList(_) | Held::Empty => Err(Status::BadHandle),
    }
}

// Copies the value at a place.
#[inline(always)]
pub(crate) fn copy(held: &mut Held, place: u64, value: &mut [u64]) -> Result<(), Status>
    ensures own { (x : List ℕ) → HasLastValue (length value.old) place x held.old
        → IsOkAnd result (λ _. value.new ≡ x) }
    ensures refused { IfErr result (IsCopyDueOn (AtDue place (length value.old)) held.new) }
    ensures kept { KeepsHeld held.old held.new }
    ensures unchanged { OnErr result (value.new ≡ value.old) }
    ensures length { length value.new ≡ length value.old }
{
    match held {
        Held::Hand(any) => hands::copy(any, place, value),
        // An opaque element is copied by its address.
        Held::OpaqueHand(_) => Err(Status::BadSize),
        Held::List(_) | Held::OpaqueList(_) | Held::Empty => Err(Status::BadHandle),
    }
}

// Returns the address of the value at a place.
#[inline(always)]
pub(crate) fn look(held: &mut Held, place: u64) -> Result<*mut u64, Status>
    ensures below { IfOk result (λ _. OnHand (λ T caller. place < seen_size caller.hand) held.new) }
    ensures refused { IfErr result (IsDueOn (LookDue place) held.new) }
    ensures kept { KeepsHeld held.old held.new }
{
    match held {
        Held::Hand(any) => hands::look(any, place),
        Held::OpaqueHand(any) => opaque_hands::look(any, place),
        Held::List(_) | Held::OpaqueList(_) | Held::Empty => Err(Status::BadHandle),
    }
}

// Returns the address of the value at a place, and how many filled ones lie there side by side.
pub(crate) fn run(held: &mut Held, place: u64) -> Result<(*mut u64, u64), Status>
    ensures run { IfOk result
        (λ (_, n). OnHand (λ T caller. AreSideBySide caller.vector place n) held.old) }
    ensures refused { IfErr result (IsDueOn (LookDue place) held.new) }
    ensures kept { KeepsHeld held.old held.new }
{
    match held {
        Held::Hand(any) => hands::run(any, place),
        Held::OpaqueHand(any) => opaque_hands::run(any, place),
        Held::List(_) | Held::OpaqueList(_) | Held::Empty => Err(Status::BadHandle),
    }
}

// Fills a broken place.
pub(crate) fn mend(held: &mut Held, place: u64, words: &[u64]) -> Result<(), Status>
    ensures mended { OnOk result (MendsWords place words.now held.old held.new) }
    ensures refused { IfErr result (IsDueOn (MendsDue place (length words.now)) held.new) }
    ensures kept { KeepsHeld held.old held.new }
{
    match held {
        Held::Hand(any) => hands::mend(any, place, words),
        Held::OpaqueHand(any) => opaque_hands::mend(any, place, words),
        Held::List(_) | Held::OpaqueList(_) | Held::Empty => Err(Status::BadHandle),
    }
}

// Makes room for this many places in all.
pub(crate) fn reserve(held: &mut Held, size: u64) -> Result<(), Status>
    ensures hand { OnOk result (IsHand held.old) }
    ensures refused { IfErr result (IsDueOn (RoomDue size) held.new) }
    ensures kept { KeepsHeld held.old held.new }
{
    match held {
        Held::Hand(any) => hands::reserve(any, size),
        Held::OpaqueHand(any) => opaque_hands::reserve(any, size),
        Held::List(_) | Held::OpaqueList(_) | Held::Empty => Err(Status::BadHandle),
    }
}

// Loads the size.
#[inline(always)]
pub(crate) fn size(held: &mut Held) -> Result<u64, Status>
    ensures seen { IfOk result (λ size. OnHands
        (λ T old new. SeesSize old.hand new.hand size) held.old held.new) }
    ensures refused { IfErr result (IsDueOn NeverDue held.new) }
    ensures kept { KeepsHeld held.old held.new }
{
    match held {
        Held::Hand(any) => Ok(hands::size(any)),
        Held::OpaqueHand(any) => Ok(opaque_hands::size(any)),
        Held::List(_) | Held::OpaqueList(_) | Held::Empty => Err(Status::BadHandle),
    }
}

// Returns the shares, the size that was seen, the limit and the words of an element.
pub(crate) fn facts(held: &Held) -> Result<HandFacts, Status>
    ensures shares { IfOk result (λ facts. OnHand
        (λ T caller. facts.shares ≡ caller.hand.shares) held.now) }
    ensures seen { IfOk result (λ facts. OnHand
        (λ T caller. facts.seen ≡ seen_size caller.hand) held.now) }
    ensures limit { IfOk result (λ facts. OnHand
        (λ T caller. facts.limit ≡ limit_of caller.vector) held.now) }
    ensures words { IfOk result (λ facts. facts.words ≡ width_of held.now) }
    ensures refused { IfErr result (IsDueOn NeverDue held.now) }
{
    match held {
        Held::Hand(any) => {
            let (shares, seen, limit) = hands::facts(any);
            Ok(HandFacts {
                shares,
                seen,
                limit,
                words: hands::words(any),
            })
        }
        Held::OpaqueHand(any) => {
            let (shares, seen, limit) = opaque_hands::facts(any);
            Ok(HandFacts {
                shares,
                seen,
                limit,
                words: opaque_hands::words(any),
            })
        }
        Held::List(_) | Held::OpaqueList(_) | Held::Empty => Err(Status::BadHandle),
    }
}

// Returns the address of the words with the states of a place's segment.
pub(crate) fn states(held: &Held, place: u64) -> Result<*mut u64, Status>
    ensures within { IfOk result
        (λ _. OnHand (λ T caller. place < limit_of caller.vector) held.now) }
    ensures refused { IfErr result (IsDueOn StatesDue held.now) }
{
    match held {
        Held::Hand(any) => hands::states(any, place),
        Held::OpaqueHand(any) => opaque_hands::states(any, place),
        Held::List(_) | Held::OpaqueList(_) | Held::Empty => Err(Status::BadHandle),
    }
}

// Returns an address that tells open vectors apart.
pub(crate) fn address(held: &Held) -> Result<*mut u64, Status>
    ensures hand { OnOk result (IsHand held.now) }
    ensures refused { IfErr result (IsDueOn NeverDue held.now) }
{
    match held {
        Held::Hand(any) => Ok(hands::address(any)),
        Held::OpaqueHand(any) => Ok(opaque_hands::address(any)),
        Held::List(_) | Held::OpaqueList(_) | Held::Empty => Err(Status::BadHandle),
    }
}
