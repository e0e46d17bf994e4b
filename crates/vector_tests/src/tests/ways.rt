// Every way to append, over three segments of three layouts.
mod growths;

use super::callers::Callers;
use grow_core::{Run, Shared, Shown};
pub(super) use growths::{NO_MEMORY, OTHER, append, append_again, numbers};
use seg_core::Layout;
use std::alloc::AllocGlobal;
use std::sync::Wait;

// A way to append, once or until it is won: single values, values that are moved in, with or without
// tokens, values that are made, clones, values up to a size, copies of a slice, and copies of a value.
#[derive(Debug)]
pub(super) enum Way {
    TryPush,
    PushSeen,
    Push,
    TryVec,
    Vec,
    Append,
    TryWith,
    With,
    TryBy,
    By,
    UpTo,
    TryFrom,
    From,
    TryCopies,
    Copies,
}

// The value at a place, by a look.
pub(super) fn look_at<T: Copy>(vector: &Shared<T>, place: u64) -> Option<T> {
    let shown = vector.look(place);
    let value = match &shown {
        Shown::Filled(at) => Some(*at.value),
        _ => None,
    };
    drop(shown);
    value
}

// Tests whether looks show n values after the first, and no more: they begin with a value, and go up in these
// steps.
fn are_in_order(vector: &Shared<u64>, n: u64, first: u64, step: u64) -> bool {
    for i in 0..n {
        let value = i.wrapping_mul(step).wrapping_add(first);
        if look_at(vector, i.wrapping_add(1)) != Some(value) {
            return false;
        }
    }
    look_at(vector, n.wrapping_add(1)) == None
}

// Tests whether n values after the first come to their places, in order: the numbers of the places, or sevens.
fn appends_in_order<R: AllocGlobal + Wait>(
    rt: &R,
    two: &mut Callers<u64>,
    way: &Way,
    n: u64,
) -> bool {
    let (first, step) = match way {
        Way::TryBy | Way::By | Way::TryCopies | Way::Copies => (7, 0),
        _ => (1, 1),
    };
    let run = Run { from: 1, n };
    two.push_b(0) == Some(0)
        && append(rt, two, way, run, first).0 == Ok(run)
        && look_at(&two.vector, 0) == Some(0)
        && are_in_order(&two.vector, n, first, step)
        && two.size_b() == n.wrapping_add(1)
}

// Tests whether they do on a vector whose first segment has 2^f places.
fn appends_in<R: AllocGlobal + Wait>(rt: &R, f: u32, way: &Way, n: u64) -> bool {
    let Some(layout) = Layout::new(f) else {
        return false;
    };
    let mut made = Callers::try_new_in(rt.alloc(), layout, 1_001);
    let is_so = match &mut made {
        Ok(two) => appends_in_order(rt, two, way, n),
        Err(_refused) => false,
    };
    drop(made);
    is_so
}

static WAYS: [Way; 15] = [
    Way::TryPush,
    Way::PushSeen,
    Way::Push,
    Way::TryVec,
    Way::Vec,
    Way::Append,
    Way::TryWith,
    Way::With,
    Way::TryBy,
    Way::By,
    Way::UpTo,
    Way::TryFrom,
    Way::From,
    Way::TryCopies,
    Way::Copies,
];

// The layouts that are tried: their segments begin with 2, 8 and 256 places. The places from 1 on reach into
// the third.
static LAYOUTS: [(u32, u64); 3] = [(1, 6), (3, 30), (8, 1_000)];

#[test]
fn each_way_appends_in_order_over_three_segments_of_three_layouts(rt: HostRuntime) {
    for (f, n) in LAYOUTS.as_slice() {
        for way in WAYS.as_slice() {
            assert!(rt; appends_in(&rt, *f, way, *n), "{f} {way:?}");
        }
    }
}
