// Lists as vectors of their values.
use super::layouts::layout_of;
use super::resized;
use crate::results::succeeded;
use quiet_core::{IntoVecError, Quiet, QuietError};
use seg_core::Layout;
use std::alloc::Global;

// Appends `n` values, each twice its number, if there is memory and room.
fn pushes_doubles(list: &mut Quiet<u64>, n: u64) -> bool {
    if list.reserve(n).is_err() {
        return false;
    }
    for place in 0..n {
        if !succeeded(list.push(place.wrapping_mul(2))) {
            return false;
        }
    }
    true
}

// A list of `n` values, each twice its place.
fn doubles(alloc: Global, layout: Layout, n: u64) -> Option<Quiet<u64>> {
    let mut list = Quiet::new_in(alloc, layout, 1 << 32);
    pushes_doubles(&mut list, n).then_some(list)
}

// Tests whether these are `n` values, each twice its place.
fn are_doubles(values: &[u64], n: u64) -> bool {
    let mut next = 0u64;
    for value in values {
        if *value != next {
            return false;
        }
        next = next.wrapping_add(2);
    }
    values.len() as u64 == n
}

// Tests whether a list of `n` values becomes a vector of them.
fn moves_in_order(alloc: Global, layout: Layout, n: u64) -> Option<bool> {
    let list = doubles(alloc, layout, n)?;
    let values = list.into_vec().ok()?;
    Some(are_doubles(&values, n))
}

#[test]
fn members_of_all_segments_become_a_vector_in_order(rt: HostRuntime) {
    for f in [1, 3, 8u32].as_slice() {
        let layout = layout_of(&rt, *f);
        for n in [0, 1, 2, 3, 4, 17, 300, 1_025u64].as_slice() {
            assert!(rt;
                moves_in_order(rt.alloc(), layout, *n) == Some(true),
                "{f} {n}"
            );
        }
    }
}

#[test]
fn a_million_members_become_a_vector(rt: HostRuntime) {
    assert!(rt; moves_in_order(rt.alloc(), Layout::default(), 1_000_000) == Some(true));
}

// Tests whether the list comes back with this refusal, and mends the member there.
fn comes_back(list: Quiet<u64>, place: u64) -> Option<Quiet<u64>> {
    let len = list.len();
    let (error, mut back) = list.into_vec().err()?;
    let is_told = error == IntoVecError::Broken { place } && back.len() == len;
    (is_told && back.mend(place, place.wrapping_mul(2)).is_ok()).then_some(back)
}

// Makes 20 members of 17, the last two broken. Tests whether the list is a vector once both are mended.
fn comes_back_until_mended(alloc: Global) -> Option<bool> {
    let mut list = doubles(alloc, Layout::default(), 17)?;
    let unbroken = list.first_broken();
    let refused = resized(&mut list, 20, 34, 1);
    let list = comes_back(list, 18)?;
    let list = comes_back(list, 19)?;
    let values = list.into_vec().ok()?;
    let is_refused = refused == (Err(QuietError::Refused { made: 1 }), Some(2));
    Some(unbroken == None && is_refused && are_doubles(&values, 20))
}

#[test]
fn a_list_with_broken_members_comes_back_until_they_are_mended(rt: HostRuntime) {
    assert!(rt; comes_back_until_mended(rt.alloc()) == Some(true));
}
