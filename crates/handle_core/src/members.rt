//! What is done with a list of elements of one size.
ghost use Rattle.std.specs.Prelude.{◌≡◌, ◌≢◌, ◌+◌, ◌*◌, ◌++◌, ◌<◌, ◌≤◌, Some, IfOk, IfErr, OnOk, OnErr, IsTrue, IsFalse, length, take, drop, slice_get};
ghost use Rattle.handle_core.specs.Lists.{SetsMember, AreMembersFrom, AreValues, HasBroken, MemberDue, SetDue, GetDue, ListCopyDue};

use crate::reads::copy_out;
use crate::status::{Status, of_member};
use caller_core::Element;
use quiet_core::{Quiet, QuietAt};

// Copies the member at a place.
#[tactic(auto, using(crate::proofs::Due::member_due))]
pub(crate) fn copy<const N: usize>(
    list: &Quiet<[u64; N]>,
    place: u64,
    value: &mut [u64],
) -> Result<(), Status>
    ensures value { OnOk result (slice_get list.now.members place ≡ Some (Some value.new)) }
    ensures refused { IfErr result (GetDue place (length value.old) N list.now) }
    ensures unchanged { OnErr result (value.new ≡ value.old) }
{
    if value.len() != N {
        return Err(Status::BadSize);
    }
    match list.get(place) {
        Ok(words) => {
            copy_out(*words, value);
            Ok(())
        }
        Err(refused) => Err(of_member(refused)),
    }
}

// Tests that `n` members from a place on are values.
fn are_values<const N: usize>(list: &Quiet<[u64; N]>, place: u64, n: u64) -> bool
    requires { place + n ≤ length list.now.members }
    ensures values { IsTrue result → AreValues place n list.now }
    ensures broken { IsFalse result → HasBroken place n list.now }
{
    // For the proof: places are small.
    let _len = list.len();
    for i in 0..n {
        match list.get(place + i) {
            Ok(_) => {}
            Err(QuietAt::Broken) => return false,
            Err(QuietAt::OutOfRange { .. }) => unreachable!(),
        }
    }
    true
}

// Writes an element into an array from one of its words on.
fn write_element<const N: usize>(values: &mut [u64], from: usize, words: [u64; N])
    requires { from + N ≤ length values.old }
    ensures written { values.new ≡ (take from values.old ++ words.entry)
        ++ drop (from + N) values.old }
    ensures long { length words.entry ≡ N }
{
    let (_, rest) = values.split_at_mut(from);
    let (room, _) = rest.split_at_mut(N);
    room.copy_from_slice(words.as_slice());
}

// Copies members from a place on, as many as the array has room for. They are values.
fn copy_values<const N: usize>(list: &Quiet<[u64; N]>, place: u64, n: u64, values: &mut [u64])
    requires some { 0 < N }
    requires room { length values.old ≡ n * N }
    requires within { place + n ≤ length list.now.members }
    requires members { AreValues place n list.now }
    ensures copied { AreMembersFrom N place values.new list.now }
    ensures length { length values.new ≡ length values.old }
{
    // For the proof: places are small.
    let _len = list.len();
    for i in 0..n {
        match list.get(place + i) {
            Ok(words) => write_element(values, i as usize * N, *words),
            Err(QuietAt::Broken) => unreachable!(),
            Err(QuietAt::OutOfRange { .. }) => unreachable!(),
        }
    }
}

// Copies members from a place on, as many as the array has room for, or none.
#[tactic(auto, using(crate::proofs::Chunks::elements_length))]
pub(crate) fn copy_all<const N: usize>(
    list: &Quiet<[u64; N]>,
    place: u64,
    values: &mut [u64],
) -> Result<(), Status>
    requires { 0 < N }
    ensures copied { OnOk result (AreMembersFrom N place values.new list.now) }
    ensures refused { IfErr result (ListCopyDue place (length values.old) N list.now) }
    ensures unchanged { OnErr result (values.new ≡ values.old) }
    ensures length { length values.new ≡ length values.old }
{
    let Some(n) = <[u64; N] as Element>::count(values) else {
        return Err(Status::BadSize);
    };
    let len = list.len();
    if place > len || n > len - place {
        return Err(Status::OutOfRange);
    }
    if !are_values(list, place, n) {
        return Err(Status::Broken);
    }
    copy_values(list, place, n, values);
    Ok(())
}

// Replaces the member at a place, or mends it.
pub(crate) fn set<E: Element>(list: &mut Quiet<E>, place: u64, words: &[u64]) -> Result<(), Status>
    ensures set { OnOk result (SetsMember place (E.element_of words.now) list.old list.new) }
    ensures refused { IfErr result (SetDue place (length words.now ≢ E.width) E list.old) }
    ensures unchanged { OnErr result (list.new ≡ list.old) }
{
    let Some(element) = E::from_words(words) else {
        return Err(Status::BadSize);
    };
    match list.replace(place, element) {
        Ok(_held) => Ok(()),
        Err((QuietAt::OutOfRange { .. }, _element)) => Err(Status::OutOfRange),
        Err((QuietAt::Broken, element)) => match list.mend(place, element) {
            Ok(()) => Ok(()),
            Err(_) => unreachable!(),
        },
    }
}

// The address of the member at a place.
#[tactic(auto, using(crate::proofs::Due::member_due))]
pub(crate) fn look<E: Element>(list: &Quiet<E>, place: u64) -> Result<*mut u64, Status>
    ensures there { IfOk result
        (λ _. (x : E) × (slice_get list.now.members place ≡ Some (Some x))) }
    ensures refused { IfErr result (MemberDue place ⊥ E list.now) }
{
    match list.get(place) {
        Ok(element) => Ok(element.address()),
        Err(refused) => Err(of_member(refused)),
    }
}
