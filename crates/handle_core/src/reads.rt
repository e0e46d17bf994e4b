//! How a hand reads and mends places of one size, and what it knows.
ghost use Rattle.std.specs.Prelude.{◌≡◌, ◌≢◌, ◌<◌, ℕ, List, IfOk, IfErr, OnOk, OnErr, IsOkAnd, length};
ghost use Rattle.claim_core.specs.Hand.{seen_size};
ghost use Rattle.grow_core.specs.Vector.{limit_of};
ghost use Rattle.caller_core.specs.Caller.{KeepsCaller, HasLast};
ghost use Rattle.caller_core.specs.Grows.{AreSideBySide, Mends};
ghost use Rattle.handle_core.specs.Calls.{AtDue, ReadDue, MendDue, RoomDue, SplitDue, SplitsCaller, StatesDue};

use crate::status::{Status, of_mend, of_read, of_reserve};
use caller_core::{Caller, Element};

// Copies the words of an element.
#[inline(always)]
pub(crate) fn copy_out<const N: usize>(words: [u64; N], value: &mut [u64])
    requires { length value.old ≡ N }
    ensures { value.new ≡ words.entry }
{
    value.copy_from_slice(words.as_slice());
}

// Copies the value at a place.
#[inline(always)]
#[tactic(auto, using(crate::proofs::Due::read_due))]
pub(crate) fn copy<const N: usize>(
    caller: &mut Caller<[u64; N]>,
    place: u64,
    value: &mut [u64],
) -> Result<(), Status>
    ensures own { (x : List ℕ) → length value.old ≡ N → HasLast place x caller.old.last
        → IsOkAnd result (λ _. value.new ≡ x) }
    ensures refused { IfErr result (AtDue place (length value.old) N caller.new) }
    ensures kept { KeepsCaller caller.old caller.new }
    ensures unchanged { OnErr result (value.new ≡ value.old) }
    ensures length { length value.new ≡ length value.old }
{
    if value.len() != N {
        return Err(Status::BadSize);
    }
    match caller.at(place) {
        Ok(words) => {
            copy_out(words, value);
            Ok(())
        }
        Err(refused) => Err(of_read(refused)),
    }
}

// The address of the value at a place.
#[inline(always)]
#[tactic(auto, using(crate::proofs::Due::read_due))]
pub(crate) fn look<E: Element>(caller: &mut Caller<E>, place: u64) -> Result<*mut u64, Status>
    ensures below { IfOk result (λ _. place < seen_size caller.new.hand) }
    ensures refused { IfErr result (ReadDue place ⊥ E caller.new) }
    ensures kept { KeepsCaller caller.old caller.new }
{
    match caller.look(place) {
        Ok(at) => Ok(at),
        Err(refused) => Err(of_read(refused)),
    }
}

// The address of the value at a place, and how many filled ones lie there side by side.
#[tactic(auto, using(crate::proofs::Due::read_due))]
pub(crate) fn run<E: Element>(caller: &mut Caller<E>, place: u64) -> Result<(*mut u64, u64), Status>
    ensures run { IfOk result (λ (_, n). AreSideBySide caller.old.vector place n) }
    ensures refused { IfErr result (ReadDue place ⊥ E caller.new) }
    ensures kept { KeepsCaller caller.old caller.new }
{
    match caller.run(place) {
        Ok((at, n)) => Ok((at, n)),
        Err(refused) => Err(of_read(refused)),
    }
}

// Fills a broken place.
#[tactic(auto, using(crate::proofs::Due::mend_due))]
pub(crate) fn mend<E: Element>(
    caller: &mut Caller<E>,
    place: u64,
    words: &[u64],
) -> Result<(), Status>
    ensures mended { OnOk result
        (Mends place (E.element_of words.now) caller.old caller.new) }
    ensures refused { IfErr result (MendDue place (length words.now ≢ E.width) E caller.new) }
    ensures kept { KeepsCaller caller.old caller.new }
{
    let Some(element) = E::from_words(words) else {
        return Err(Status::BadSize);
    };
    match caller.mend(place, element) {
        Ok(()) => Ok(()),
        Err((refused, _element)) => Err(of_mend(refused)),
    }
}

// Makes room for this many places in all.
#[tactic(auto, using(crate::proofs::Due::room_due))]
pub(crate) fn reserve<E: Element>(caller: &mut Caller<E>, size: u64) -> Result<(), Status>
    ensures refused { IfErr result (RoomDue size E E.width caller.new) }
    ensures unchanged { caller.new ≡ caller.old }
{
    match caller.reserve(size) {
        Ok(()) => Ok(()),
        Err(refused) => Err(of_reserve(refused)),
    }
}

// The address of the words with the states of a place's segment.
pub(crate) fn states<E: Element>(caller: &Caller<E>, place: u64) -> Result<*mut u64, Status>
    ensures within { IfOk result (λ _. place < limit_of caller.now.vector) }
    ensures refused { IfErr result (StatesDue E E.width caller.now) }
{
    match caller.states(place) {
        Some(at) => Ok(at),
        None => Err(Status::Pending),
    }
}

// The shares, the size that was seen, and the limit.
pub(crate) fn facts<E: Element>(caller: &Caller<E>) -> (u64, u64, u64)
    ensures shares { result.0 ≡ caller.now.hand.shares }
    ensures seen { result.1 ≡ seen_size caller.now.hand }
    ensures limit { result.2 ≡ limit_of caller.now.vector }
{
    (caller.shares() as u64, caller.seen(), caller.limit())
}

// Moves shares into a new hand.
pub(crate) fn split<E: Element>(caller: &mut Caller<E>, shares: u32) -> Result<Caller<E>, Status>
    ensures split { IfOk result (SplitsCaller shares caller.old caller.new) }
    ensures refused { IfErr result (SplitDue shares E E.width caller.old) }
    ensures unchanged { OnErr result (caller.new ≡ caller.old) }
{
    if shares == 0 || shares >= caller.shares() {
        return Err(Status::BadNumber);
    }
    match caller.split(shares) {
        Ok(other) => Ok(other),
        Err(_no_memory) => Err(Status::NoMemory),
    }
}
