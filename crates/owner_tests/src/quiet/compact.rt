// Lists that lose their broken members.
use super::layouts::layout_of;
use super::resized;
use quiet_core::{Quiet, QuietError};
use seg_core::Layout;
use std::alloc::Global;

// Values, and the broken members behind them: at the beginning, over the ends of segments, and at the end.
static STRETCHES: [(u64, u64); 5] = [(0, 1), (3, 2), (40_000, 1), (1, 30_000), (20_000, 3)];

// How many values these are in all.
const VALUES: u64 = 60_004;

// Appends values that go on from a number, and then broken members.
fn appends(list: &mut Quiet<u64>, first: u64, values: u64, broken: u64) -> bool {
    let len = list.len().wrapping_add(values).wrapping_add(broken);
    resized(list, len, first, values)
        == (
            Err(QuietError::Refused { made: values }),
            values.checked_add(1),
        )
}

// The list with these stretches. Each value is the number of those before it.
fn stretched(alloc: Global, layout: Layout) -> Option<Quiet<u64>> {
    let mut list = Quiet::new_in(alloc, layout, 1 << 32);
    let mut first = 0u64;
    for (values, broken) in STRETCHES.as_slice() {
        if !appends(&mut list, first, *values, *broken) {
            return None;
        }
        first = first.wrapping_add(*values);
    }
    Some(list)
}

// Tests whether the members are the numbers below `len`, in order.
fn are_numbers(list: &Quiet<u64>, len: u64) -> bool {
    let mut next = 0u64;
    for member in list {
        if member.copied() != Some(next) {
            return false;
        }
        next = next.wrapping_add(1);
    }
    next == len
}

// Tests whether the values close up, once for all, and the next one comes behind them.
fn closes_up(alloc: Global, layout: Layout) -> Option<bool> {
    let mut list = stretched(alloc, layout)?;
    let capacity = list.capacity();
    list.compact();
    let is_compact = list.capacity() == capacity && are_numbers(&list, VALUES);
    list.compact();
    let is_same = list.capacity() == capacity && are_numbers(&list, VALUES);
    Some(is_compact && is_same && list.push(VALUES) == Ok(VALUES))
}

#[test]
fn values_close_up_over_broken_members(rt: HostRuntime) {
    for f in [1, 8u32].as_slice() {
        let layout = layout_of(&rt, *f);
        assert!(rt; closes_up(rt.alloc(), layout) == Some(true), "{f}");
    }
}

// Tests whether a list without values ends up empty, and so does an empty one.
fn ends_empty(alloc: Global) -> bool {
    let mut list = Quiet::new(alloc, 16);
    list.compact();
    let is_empty = list.len() == 0;
    let is_broken = appends(&mut list, 0, 0, 5);
    list.compact();
    is_empty && is_broken && list.len() == 0 && list.capacity() == 8
}

#[test]
fn a_list_without_values_is_empty_then(rt: HostRuntime) {
    assert!(rt; ends_empty(rt.alloc()));
}
