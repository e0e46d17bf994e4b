// Any one allocation may be refused: then the call gives back what it took, and the next one goes on.
// `tests/refuse-memory` refuses each request in turn.
ghost use Rattle.std.specs.Prelude.{◌≡◌};
ghost use Rattle.grow_core.specs.Vector.{IsHandOf};

use super::{has, measures, resized};
use crate::results::succeeded;
use grow_core::GrowError;
use quiet_core::{Hand, IntoVecError, OpenError, Quiet, QuietError, Shared};
use std::alloc::Global;
use std::sync::Wait;

// Tests whether a value is appended, at the second try if need be.
fn pushes_again(list: &mut Quiet<u64>, value: u64) -> bool {
    let (len, capacity) = (list.len(), list.capacity());
    match list.push(value) {
        Ok(place) => place == len,
        Err(refused) => {
            refused == (QuietError::NoMemory, value)
                && measures(list, len, capacity)
                && list.push(value).ok() == Some(len)
        }
    }
}

// Tests the same of each number below `n`.
fn pushes_below_again(list: &mut Quiet<u64>, n: u64) -> bool {
    for value in 0..n {
        if !pushes_again(list, value) {
            return false;
        }
    }
    true
}

#[test]
fn a_push_is_tried_again(rt: HostRuntime) {
    let mut list = Quiet::new(rt.alloc(), 16);
    let are_pushed = pushes_below_again(&mut list, 6) && measures(&list, 6, 8) && has(&list, 5, 5);
    drop(list);
    assert!(rt; are_pushed);
}

// The list of three values, at the second try if need be.
fn listed_again(alloc: Global, three: Vec<u64>) -> Option<Quiet<u64>> {
    match Quiet::from_vec(alloc, 16, three) {
        Ok(list) => Some(list),
        Err((error, back)) => {
            let is_kept = error == QuietError::NoMemory && back.len() == 3;
            Quiet::from_vec(alloc, 16, is_kept.then_some(back)?).ok()
        }
    }
}

// Tests whether five values are where three were, at the second try if need be.
fn assigns_again(list: &mut Quiet<u64>, five: Vec<u64>) -> bool {
    let three = measures(list, 3, 4);
    let is_assigned = match list.assign(five) {
        Ok(()) => true,
        Err((error, back)) => {
            error == QuietError::NoMemory && has(list, 2, 3) && succeeded(list.assign(back))
        }
    };
    three && is_assigned && measures(list, 5, 8) && has(list, 4, 8)
}

#[test]
fn values_are_moved_in_again(rt: HostRuntime) {
    if let Ok(three) = Vec::from_slice(rt.alloc(), &[1u64, 2, 3]) {
        match listed_again(rt.alloc(), three) {
            Some(mut list) => {
                let is_assigned = match Vec::from_slice(rt.alloc(), &[4u64, 5, 6, 7, 8]) {
                    Ok(five) => assigns_again(&mut list, five),
                    Err(_refused) => true,
                };
                drop(list);
                assert!(rt; is_assigned);
            }
            None => panic!(rt; "no list"),
        }
    }
}

// Tests whether a list of three members becomes a vector of them, at the second try if need be.
fn is_a_vector_again(list: Quiet<u64>) -> bool {
    match list.into_vec() {
        Ok(values) => values.as_slice() == [0, 1, 2].as_slice(),
        Err((error, back)) => {
            let is_kept = error == IntoVecError::NoMemory
                && measures(&back, 3, 4)
                && has(&back, 2, 2);
            match back.into_vec().ok() {
                Some(values) => is_kept && values.as_slice() == [0, 1, 2].as_slice(),
                None => false,
            }
        }
    }
}

#[test]
fn a_list_becomes_a_vector_again(rt: HostRuntime) {
    let mut list = Quiet::new(rt.alloc(), 16);
    let are_pushed = pushes_below_again(&mut list, 3);
    match are_pushed.then_some(list) {
        Some(list) => assert!(rt; is_a_vector_again(list)),
        None => panic!(rt; "a push is refused twice"),
    }
}

fn is_opened(list: Quiet<u64>) -> bool {
    succeeded(list.open())
}

// Tests whether a list of one member is opened, at the second try if need be.
fn opens_again(list: Quiet<u64>) -> bool {
    let Some((back, error)) = list.open().err() else {
        return true;
    };
    let is_kept = error == OpenError::NoMemory && back.len() == 1;
    is_opened(back) && is_kept
}

// The same of a list that gets its one member, at the second try if need be.
fn pushes_and_opens_again(mut list: Quiet<u64>) -> Option<bool> {
    let is_pushed = pushes_again(&mut list, 5);
    Some(opens_again(is_pushed.then_some(list)?))
}

#[test]
fn a_list_is_opened_again(rt: HostRuntime) {
    assert!(rt; pushes_and_opens_again(Quiet::new(rt.alloc(), 16)) == Some(true));
}

// Tests whether three values are made, at the second try if need be. The maker is asked for each of them once,
// and for none before there is memory.
fn resizes_again(list: &mut Quiet<u64>) -> bool {
    let is_made = match resized(list, 3, 0, 3) {
        (Ok(()), asked) => asked == Some(3),
        (Err(error), asked) => {
            error == QuietError::NoMemory
                && asked == Some(0)
                && list.len() == 0
                && resized(list, 3, 0, 3) == (Ok(()), Some(3))
        }
    };
    is_made && measures(list, 3, 4)
}

#[test]
fn a_list_is_made_longer_again(rt: HostRuntime) {
    let mut list = Quiet::new(rt.alloc(), 16);
    let is_resized = resizes_again(&mut list);
    drop(list);
    assert!(rt; is_resized);
}

// Tests whether room for nine is made, at the second try if need be. A refusal loses no room and no value.
fn reserves_again(list: &mut Quiet<u64>) -> bool {
    let capacity = list.capacity();
    match list.reserve(9) {
        Ok(()) => measures(list, 1, 16),
        Err(error) => error == QuietError::NoMemory
            && list.capacity() >= capacity
            && has(list, 0, 5)
            && list.reserve(9) == Ok(())
            && measures(list, 1, 16),
    }
}

#[test]
fn room_is_made_again(rt: HostRuntime) {
    let mut list = Quiet::new(rt.alloc(), 16);
    let is_made = pushes_again(&mut list, 5) && reserves_again(&mut list) && has(&list, 0, 5);
    drop(list);
    assert!(rt; is_made);
}

// The place of a value that is appended, or the value that came back without memory.
fn appended_at<R: Wait>(
    rt: &R,
    vector: &Shared<u64>,
    hand: &mut Hand<u64>,
    value: u64,
) -> Result<u64, Option<u64>>
    requires ours { IsHandOf vector.now hand.old }
    ensures of { hand.new.of ≡ hand.old.of }
    ensures shares { hand.new.shares ≡ hand.old.shares }
{
    let pushed = vector.push_back(rt, hand, value);
    let told = match &pushed {
        Ok(placed) => Ok(placed.place()),
        Err(GrowError::NoMemory { back }) => Err(Some(*back)),
        Err(_refused) => Err(None),
    };
    drop(pushed);
    told
}

// Tests whether a value is appended at the place of its number, at the second try if need be.
fn appends_again<R: Wait>(rt: &R, vector: &Shared<u64>, hand: &mut Hand<u64>, value: u64) -> bool
    requires ours { IsHandOf vector.now hand.old }
    ensures of { hand.new.of ≡ hand.old.of }
    ensures shares { hand.new.shares ≡ hand.old.shares }
{
    match appended_at(rt, vector, hand, value) {
        Ok(place) => place == value,
        Err(back) => back == Some(value)
            && vector.size(hand) == value
            && appended_at(rt, vector, hand, value) == Ok(value),
    }
}

// The list once three values were appended while it was open, if there was memory to open it.
fn appended<R: Wait>(rt: &R, list: Quiet<u64>) -> Option<(bool, Quiet<u64>)> {
    let (vector, mut hand) = list.open().ok()?;
    let all = appends_again(rt, &vector, &mut hand, 0)
        && appends_again(rt, &vector, &mut hand, 1)
        && appends_again(rt, &vector, &mut hand, 2);
    Some((all, Quiet::close(vector, hand)))
}

#[test]
fn a_push_while_open_is_tried_again(rt: HostRuntime) {
    if let Some((all, list)) = appended(&rt, Quiet::new(rt.alloc(), 16)) {
        let is_right = all && measures(&list, 3, 4) && has(&list, 2, 2);
        drop(list);
        assert!(rt; is_right);
    }
}
