// Lists whose first segment has from 2 to 256 places.
ghost use Rattle.seg_core.specs.Segment.{IsLimit};

use super::steps::resized;
use crate::results::succeeded;
use quiet_core::Quiet;
use seg_core::Layout;
use std::alloc::{AllocGlobal, Global};
use std::process::Abort;

pub(crate) fn layout_of<R: Abort>(rt: &R, f: u32) -> Layout {
    match Layout::new(f) {
        Some(layout) => layout,
        None => panic!(rt; "no layout {f}"),
    }
}

// A list of the layout with two members: 1 and another value.
fn one_and<R: AllocGlobal + Abort>(rt: &R, layout: Layout, second: u64) -> Quiet<u64> {
    let mut list = Quiet::new_in(rt.alloc(), layout, 16);
    let are_pushed = succeeded(list.push(1)) && succeeded(list.push(second));
    match are_pushed.then_some(list) {
        Some(list) => list,
        None => panic!(rt; "no memory"),
    }
}

// Tests whether the capacity follows the layout's segments.
fn follows_its_segments(mut list: Quiet<u64>, layout: Layout) -> bool {
    let is_made = list.layout() == layout
        && list.capacity() == layout.capacity_for(2)
        && list.reserve(15).is_ok()
        && list.capacity() == layout.capacity_for(15);
    list.shrink_to_fit();
    let is_left = list.capacity() == layout.capacity_for(2);
    drop(list);
    is_made && is_left
}

// The length of a list, once it was opened and closed.
fn len_when_closed(list: Quiet<u64>) -> Option<u64> {
    let (vector, hand) = list.open().ok()?;
    let list = Quiet::close(vector, hand);
    let len = list.len();
    drop(list);
    Some(len)
}

// The same of a list of a thousand members.
fn len_after_a_life(alloc: Global, layout: Layout, limit: u64) -> Option<u64>
    requires { IsLimit limit }
{
    let mut list = Quiet::new_in(alloc, layout, limit);
    let is_made = resized(&mut list, 1_000, 0, 1_000) == (Ok(()), Some(1_000));
    len_when_closed(is_made.then_some(list)?)
}

#[test]
fn lists_of_each_layout_have_its_capacities_and_are_opened(rt: HostRuntime) {
    for f in 1..9u32 {
        let layout = layout_of(&rt, f);
        let limit = if f < 5 { 1 << 33 } else { 1 << 40 };
        assert!(rt;
            follows_its_segments(one_and(&rt, layout, 2), layout)
                && len_after_a_life(rt.alloc(), layout, limit) == Some(1_000),
            "{f}"
        );
    }
}

pub(super) fn are_equal(a: Quiet<u64>, b: Quiet<u64>) -> bool {
    let are_equal = a == b;
    drop((a, b));
    are_equal
}

fn is_less(a: Quiet<u64>, b: Quiet<u64>) -> bool {
    let is_less = a < b;
    drop((a, b));
    is_less
}

#[test]
fn lists_of_two_layouts_compare_by_their_members(rt: HostRuntime) {
    for (f, g) in [(1, 8), (8, 1)].as_slice() {
        let (mine, other) = (layout_of(&rt, *f), layout_of(&rt, *g));
        assert!(rt;
            are_equal(one_and(&rt, mine, 2), one_and(&rt, other, 2))
                && is_less(one_and(&rt, mine, 2), one_and(&rt, mine, 3))
                && is_less(one_and(&rt, other, 2), one_and(&rt, mine, 3)),
            "{f} {g}"
        );
    }
}
