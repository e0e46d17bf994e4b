// What callers prove by the public clauses alone.
ghost use Rattle.std.specs.Prelude.{◌≡◌, ◌^◌, ◌≤◌, Some, IfOk, IfErr, filter, is_some, map, replicate, slice_get};

use super::{broken_after, measures, vec_of};
use quiet_core::{IntoVecError, Quiet, QuietAt, QuietError};
use std::alloc::Global;

// The member at a place, if there is one, once a list has more room.
fn member_with_room(
    list: &mut Quiet<u64>,
    room: u64,
    place: u64,
) -> Result<Option<Option<u64>>, QuietError>
    ensures { IfOk result (λ member. member ≡ slice_get list.old.members place) }
{
    list.reserve(room)?;
    match list.get(place) {
        Ok(value) => Ok(Some(Some(*value))),
        Err(QuietAt::Broken) => Ok(Some(None)),
        Err(QuietAt::OutOfRange { .. }) => Ok(None),
    }
}

// A list of values gives back each value at its place, also once it has more room.
#[tactic(auto, using(crate::proofs::Values::value_there, crate::proofs::Values::not_broken))]
fn value_at(
    alloc: Global,
    values: Vec<u64>,
    room: u64,
    place: u64,
) -> Result<Option<u64>, QuietError>
    ensures { IfOk result (λ value. value ≡ slice_get values.items place) }
{
    let mut list = match Quiet::from_vec(alloc, 1 << 40, values) {
        Ok(list) => list,
        Err((error, _)) => return Err(error),
    };
    let member = member_with_room(&mut list, room, place);
    drop(list);
    match member {
        Ok(Some(Some(value))) => Ok(Some(value)),
        Ok(Some(None)) => unreachable!(),
        Ok(None) => Ok(None),
        Err(error) => Err(error),
    }
}

// Once there is room for n members, n pushes are not refused.
fn zeros(alloc: Global, n: u64) -> Result<Quiet<u64>, QuietError>
    requires { 1 ≤ n × n ≤ 2 ^ 40 }
    ensures { IfOk result (λ list. list.members ≡ replicate n (Some 0)) }
{
    let mut list = Quiet::new(alloc, n);
    if let Err(error) = list.reserve(n) {
        drop(list);
        return Err(error);
    }
    for _turn in 0..n {
        let pushed = list.push(0);
        prove!(pushed.is_ok());
    }
    Ok(list)
}

// The values of a list, whatever else is in it. Only memory can be refused.
fn values_of(list: Quiet<u64>) -> Result<Vec<u64>, Quiet<u64>>
    ensures values { IfOk result (λ values. map Some values.items ≡ filter is_some list.members) }
    ensures back { IfErr result (λ back. back.members ≡ filter is_some list.members) }
{
    let mut list = list;
    list.compact();
    match list.into_vec() {
        Ok(values) => Ok(values),
        Err((error, back)) => {
            match error {
                IntoVecError::NoMemory => {}
                IntoVecError::Broken { .. } => unreachable!(),
            }
            Err(back)
        }
    }
}

#[test]
fn a_value_is_given_back_at_its_place(rt: HostRuntime) {
    for (place, value) in [(0, Some(5)), (2, Some(7)), (3, None)].as_slice() {
        let values = vec_of(&rt, &[5, 6, 7]);
        assert!(rt;
            value_at(rt.alloc(), values, 100, *place) == Ok(*value),
            "{place}"
        );
    }
}

#[test]
fn room_that_was_made_is_filled(rt: HostRuntime) {
    match zeros(rt.alloc(), 5) {
        Ok(list) => {
            let is_filled = measures(&list, 5, 8);
            drop(list);
            assert!(rt; is_filled);
        }
        Err(_refused) => panic!(rt; "no memory"),
    }
}

#[test]
fn the_values_of_a_list_with_a_broken_member_are_a_vector(rt: HostRuntime) {
    match values_of(broken_after(&rt, 7)).ok() {
        Some(values) => assert!(rt; values.as_slice() == [7].as_slice()),
        None => panic!(rt; "no memory"),
    }
}
