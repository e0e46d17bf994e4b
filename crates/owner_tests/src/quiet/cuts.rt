// Lists that lose their last members or get another limit, and lists of a vector's values in a layout.
use super::layouts::layout_of;
use super::steps::pushes_all;
use super::{broken_after, has, list_of, measures};
use quiet_core::{Quiet, QuietAt, QuietError};
use seg_core::{Layout, MOST_PLACES};
use std::alloc::Global;

// How many members the longest list has.
const LEN: u64 = 1 << 17;

// Tests whether a broken member and then the value before it are moved out, and the capacity stays.
fn pops_both(list: &mut Quiet<u64>) -> bool {
    list.pop() == Some(None)
        && list.pop() == Some(Some(7))
        && list.pop() == None
        && measures(list, 0, 2)
}

#[test]
fn the_last_member_is_moved_out_broken_or_not(rt: HostRuntime) {
    assert!(rt; pops_both(&mut broken_after(&rt, 7)));
}

// The cuts of a list, and its lengths afterwards.
static CUTS: [(u64, u64); 7] = [
    (u64::MAX, LEN),
    (LEN, LEN),
    (LEN - 1, LEN - 1),
    (65_536, 65_536),
    (65_535, 65_535),
    (1, 1),
    (0, 0),
];

// Tests whether a list of its own places has the first of them after a cut, and its capacity.
fn keeps_the_first(list: &mut Quiet<u64>, n: u64, len: u64) -> bool {
    let capacity = list.capacity();
    list.truncate(n);
    measures(list, len, capacity)
        && list.get(len) == Err(QuietAt::OutOfRange { size: len })
        && (len == 0 || has(list, len - 1, len - 1))
}

// Tests whether a list is cut to each of these numbers, and then takes a value at place 0.
fn is_cut(alloc: Global, layout: Layout) -> bool {
    let mut list = Quiet::new_in(alloc, layout, LEN);
    let mut is_right = pushes_all(&mut list, 0, LEN);
    for (n, len) in CUTS.as_slice() {
        is_right = keeps_the_first(&mut list, *n, *len) && is_right;
    }
    is_right && list.push(5) == Ok(0)
}

#[test]
fn a_list_is_cut_to_its_first_members(rt: HostRuntime) {
    for f in [1, 8u32].as_slice() {
        assert!(rt; is_cut(rt.alloc(), layout_of(&rt, *f)), "{f}");
    }
}

// Tests whether a list of its own places takes values up to another limit, and refuses the next one.
fn takes_up_to(list: &mut Quiet<u64>, limit: u64) -> bool {
    let len = list.len();
    if limit == 0 || MOST_PLACES < limit || limit < len {
        return false;
    }
    list.set_limit(limit);
    list.limit() == limit
        && pushes_all(list, len, limit)
        && list.push(9) == Err((QuietError::TooLong, 9))
}

// The length itself, one more, and the first place of another segment.
static LIMITS: [u64; 4] = [3, 4, 5, 4_097];

// Tests whether a full list gets these limits in turn, and then the greatest that there is.
fn gets_each_limit(list: &mut Quiet<u64>) -> bool {
    for limit in LIMITS.as_slice() {
        if !takes_up_to(list, *limit) {
            return false;
        }
    }
    if list.len() != 4_097 {
        return false;
    }
    list.set_limit(MOST_PLACES);
    list.limit() == MOST_PLACES && list.push(4_097) == Ok(4_097)
}

#[test]
fn a_list_takes_values_up_to_a_limit_that_is_set(rt: HostRuntime) {
    assert!(rt; gets_each_limit(&mut list_of(&rt, &[0, 1, 2])));
}

// Tests whether values become a list whose limit is their number, and none whose limit is one less.
fn fits_exactly(alloc: Global, layout: Layout, values: Vec<u64>) -> Option<bool> {
    let n = values.len() as u64;
    if n < 2 || MOST_PLACES < n {
        return None;
    }
    let (error, values) = Quiet::from_vec_in(alloc, layout, n - 1, values).err()?;
    let mut list = Quiet::from_vec_in(alloc, layout, n, values).ok()?;
    let is_made = list.layout() == layout && measures(&list, n, layout.capacity_for(n));
    let is_full = has(&list, n - 1, 7) && list.push(7) == Err((QuietError::TooLong, 7));
    Some(error == QuietError::TooLong && is_made && is_full)
}

#[test]
fn values_become_a_list_in_a_layout(rt: HostRuntime) {
    for f in [1, 8u32].as_slice() {
        let layout = layout_of(&rt, *f);
        let values = vec![in rt.alloc(); 7u64; 300].ok();
        assert!(rt;
            values.and_then(|values| fits_exactly(rt.alloc(), layout, values)) == Some(true),
            "{f}"
        );
    }
}
