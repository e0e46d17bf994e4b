//! How a hand appends elements of one size, and claims places and breaks them.
ghost use Rattle.std.specs.Prelude.{◌≡◌, ◌≢◌, ◌<◌, ◌≤◌, ◌/◌, ◌%◌, ℕ, List, IfOk, IfErr, IsTrue, IsFalse, Some, length, replicate, slice_get};
ghost use Rattle.caller_core.specs.Caller.{KeepsCaller, Pushes};
ghost use Rattle.caller_core.specs.Grows.{GrowsBy, WinsPlaces};
ghost use Rattle.handle_core.specs.Status.{IfDone, IfRefused};
ghost use Rattle.handle_core.specs.Calls.{GrowthDue, AtLeastDue, AreTooFew, ReachesSize, HasLastElement, elements_in, source_of};

use crate::elements::{Elements, OpaqueCopies, OpaqueElements};
use crate::status::{DONE, Status, of_growth};
use caller_core::{Caller, Element};
use grow_core::{GrowError, Never};
use opaque_core::Opaque;

// How often a push is tried before it says that others came first each time.
const PUSH_TRIES: u64 = 3;

// Appends the element that these words make, which was overtaken once. It is tried as often as is left.
#[cold]
#[inline(never)]
#[tactic(auto, using(crate::proofs::Due::growth_due, crate::proofs::Again::trying, crate::proofs::Codes::codes))]
fn push_again<E: Element>(caller: &mut Caller<E>, words: &[u64], place: &mut u64) -> i32
    ensures pushed { IfDone result
        (Pushes (E.element_of words.now) caller.old caller.new place.new) }
    ensures refused { IfRefused result (GrowthDue 1 (length words.now ≢ E.width) E caller.new) }
    ensures kept { KeepsCaller caller.old caller.new }
{
    let Some(mut element) = E::from_words(words) else {
        return Status::BadSize.code();
    };
    for _try in 2..PUSH_TRIES {
        match caller.push(element) {
            Ok(at) => {
                *place = at;
                return DONE;
            }
            Err(GrowError::Moved { size: _, back }) => element = back,
            Err(refused) => return of_growth(refused).code(),
        }
    }
    match caller.push(element) {
        Ok(at) => {
            *place = at;
            DONE
        }
        Err(refused) => of_growth(refused).code(),
    }
}

// Appends the element that these words make. It is tried a few times; all but the first try are a call of their own,
// since they are seldom made.
#[inline(always)]
#[tactic(auto, using(crate::proofs::Due::growth_due, crate::proofs::Again::trying, crate::proofs::Codes::codes))]
fn push_element<E: Element>(caller: &mut Caller<E>, words: &[u64], place: &mut u64) -> i32
    ensures pushed { IfDone result
        (Pushes (E.element_of words.now) caller.old caller.new place.new) }
    ensures refused { IfRefused result (GrowthDue 1 (length words.now ≢ E.width) E caller.new) }
    ensures kept { KeepsCaller caller.old caller.new }
{
    let Some(element) = E::from_words(words) else {
        return Status::BadSize.code();
    };
    match caller.push(element) {
        Ok(at) => {
            *place = at;
            DONE
        }
        Err(GrowError::Moved { .. }) => push_again(caller, words, place),
        Err(refused) => of_growth(refused).code(),
    }
}

// The same where the segment has to be found first, or there is no room.
#[cold]
#[inline(never)]
fn push_slowly<E: Element>(caller: &mut Caller<E>, words: &[u64], place: &mut u64) -> i32
    ensures pushed { IfDone result
        (Pushes (E.element_of words.now) caller.old caller.new place.new) }
    ensures refused { IfRefused result (GrowthDue 1 (length words.now ≢ E.width) E caller.new) }
    ensures kept { KeepsCaller caller.old caller.new }
{
    push_element(caller, words, place)
}

// Appends the element that these words make, writes its place, and returns the number of a status. It ends with each
// call that it makes, so it saves no registers. It is a call of its own for each type of elements, and so is what is
// seldom done.
#[inline(never)]
pub(crate) fn push<E: Element>(caller: &mut Caller<E>, words: &[u64], place: &mut u64) -> i32
    ensures pushed { IfDone result
        (Pushes (E.element_of words.now) caller.old caller.new place.new) }
    ensures refused { IfRefused result (GrowthDue 1 (length words.now ≢ E.width) E caller.new) }
    ensures kept { KeepsCaller caller.old caller.new }
{
    if caller.knows_next() {
        push_element(caller, words, place)
    } else {
        push_slowly(caller, words, place)
    }
}

// Appends the values that these words make.
#[tactic(auto, using(crate::proofs::Due::growth_due))]
pub(crate) fn grow_values<const N: usize>(
    caller: &mut Caller<[u64; N]>,
    words: &[u64],
) -> Result<u64, Status>
    requires some { 0 < N }
    requires small { N ≤ 8 }
    ensures grown { IfOk result (GrowsBy (elements_in N words.now) caller.old caller.new) }
    ensures refused { IfErr result
        (GrowthDue (length words.now / N) (length words.now % N ≢ 0) (List ℕ) caller.new) }
    ensures kept { KeepsCaller caller.old caller.new }
{
    let (values, rest) = words.as_chunks::<N>();
    if !rest.is_empty() {
        return Err(Status::BadSize);
    }
    match caller.grow(values) {
        Ok(place) => Ok(place),
        Err(refused) => Err(of_growth(refused)),
    }
}

// Appends the opaque elements that these words make.
#[tactic(auto, using(crate::proofs::Due::copies_due, crate::proofs::Due::wins_copies))]
pub(crate) fn grow_opaque<const N: usize>(
    caller: &mut Caller<Opaque<N>>,
    words: &[u64],
) -> Result<u64, Status>
    requires some { 0 < N }
    requires small { N ≤ 8 }
    ensures grown { IfOk result (WinsPlaces (length words.now / N) caller.old caller.new) }
    ensures refused { IfErr result
        (GrowthDue (length words.now / N) (length words.now % N ≢ 0) (Unit {0}) caller.new) }
    ensures kept { KeepsCaller caller.old caller.new }
{
    let (elements, rest) = words.as_chunks::<N>();
    if !rest.is_empty() {
        return Err(Status::BadSize);
    }
    match caller.grow_source(&OpaqueElements { words: elements }) {
        Ok(place) => Ok(place),
        Err(refused) => Err(of_growth(refused)),
    }
}

// Appends `n` copies of the value that these words make.
#[tactic(auto, using(crate::proofs::Due::growth_due))]
pub(crate) fn fill_values<const N: usize>(
    caller: &mut Caller<[u64; N]>,
    words: &[u64],
    n: u64,
) -> Result<u64, Status>
    ensures grown { IfOk result (GrowsBy (replicate n words.now) caller.old caller.new) }
    ensures refused { IfErr result
        (GrowthDue n (length words.now ≢ N) (List ℕ) caller.new) }
    ensures kept { KeepsCaller caller.old caller.new }
{
    let Some(value) = words.as_array::<N>() else {
        return Err(Status::BadSize);
    };
    match caller.fill(n, *value) {
        Ok(place) => Ok(place),
        Err(refused) => Err(of_growth(refused)),
    }
}

// Appends `n` opaque elements that are made of the same words.
#[tactic(auto, using(crate::proofs::Due::copies_due, crate::proofs::Due::wins_copies))]
pub(crate) fn fill_opaque<const N: usize>(
    caller: &mut Caller<Opaque<N>>,
    words: &[u64],
    n: u64,
) -> Result<u64, Status>
    ensures grown { IfOk result (WinsPlaces n caller.old caller.new) }
    ensures refused { IfErr result (GrowthDue n (length words.now ≢ N) (Unit {0}) caller.new) }
    ensures kept { KeepsCaller caller.old caller.new }
{
    let Some(words) = words.as_array::<N>() else {
        return Err(Status::BadSize);
    };
    match caller.grow_source(&OpaqueCopies { n, words }) {
        Ok(place) => Ok(place),
        Err(refused) => Err(of_growth(refused)),
    }
}

// Tests that this many elements are one, or one for each place from what was seen up to a size.
fn are_enough(count: u64, seen: u64, size: u64) -> bool
    ensures some { IsTrue result → 0 < count }
    ensures few { IsFalse result → AreTooFew count seen size }
{
    if count <= 1 || size <= seen {
        return count > 0;
    }
    size - seen <= count
}

// Appends what is missing up to this size: copies of the only element that these words make, or the first of those
// elements. There must be one for each place that the hand has not seen.
#[tactic(auto, using(crate::proofs::Due::reach_due, crate::proofs::Due::reaches))]
pub(crate) fn at_least<E: Element>(
    caller: &mut Caller<E>,
    size: u64,
    words: &[u64],
) -> Result<(u64, u64), Status>
    requires { 0 < E.width }
    ensures grown { IfOk result
        (λ (place, n). ReachesSize size place n caller.old caller.new) }
    ensures last { IfOk result
        (λ (place, n). HasLastElement E.element_of E.width words.now place n caller.new) }
    ensures refused { IfErr result (AtLeastDue size (length words.now) E E.width caller.new) }
    ensures kept { KeepsCaller caller.old caller.new }
{
    let Some(count) = E::count(words) else {
        return Err(Status::BadSize);
    };
    if !are_enough(count, caller.seen(), size) {
        return Err(Status::BadSize);
    }
    let elements = Elements::<E>::new(words, count);
    let make = |i: u64| -> Result<E, Never>
        ensures { (ws : List ℕ) → slice_get (elements_in E.width elements.entry.words.now)
            (source_of elements.entry.count i) ≡ Some ws → IfOk result (λ x. x ≡ E.element_of ws) }
    { Ok(elements.at(i)) };
    match caller.grow_to_at_least(size, make) {
        Ok((place, n)) => Ok((place, n)),
        Err(refused) => Err(of_growth(refused)),
    }
}

// Claims `n` places and breaks them.
#[tactic(auto, using(crate::proofs::Due::growth_due))]
pub(crate) fn leave<E: Element>(caller: &mut Caller<E>, n: u64) -> Result<u64, Status>
    ensures broken { IfOk result (WinsPlaces n caller.old caller.new) }
    ensures refused { IfErr result (GrowthDue n ⊥ E caller.new) }
    ensures kept { KeepsCaller caller.old caller.new }
{
    match caller.break_run(n) {
        Ok(place) => Ok(place),
        Err(refused) => Err(of_growth(refused)),
    }
}
