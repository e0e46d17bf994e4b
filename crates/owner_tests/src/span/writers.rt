// Writers: a loop over one needs no invariant, and `push_all` keeps the shares.
use crate::results::succeeded;
use grow_core::Shared;
use quiet_core::Quiet;
use span_core::Writer;
use std::alloc::Global;
use std::sync::Wait;

// Appends the numbers below n.
fn push_below<R: Wait>(rt: &R, writer: &mut Writer<'_, u64>, n: u64) -> bool {
    for number in 0..n {
        if writer.push_back(rt, number).is_err() {
            return false;
        }
    }
    true
}

// Tests whether a vector shows the numbers below n, in order.
pub(super) fn shows_below(vector: &Shared<u64>, n: u64) -> bool {
    let mut next: u64 = 0;
    for shown in vector.published() {
        if shown.copied() != Some(next) {
            return false;
        }
        next = next.saturating_add(1);
    }
    next == n
}

// Tests whether a vector takes exactly 100 numbers by a writer.
fn takes_hundred<R: Wait>(rt: &R, writer: &mut Writer<'_, u64>) -> bool {
    push_below(rt, writer, 100)
        && !succeeded(writer.push_back(rt, 100))
        && shows_below(writer.vector(), 100)
}

// The same of a new vector with this limit.
fn fills<R: Wait>(rt: &R, alloc: Global) -> Option<bool> {
    let (vector, hand) = Quiet::new(alloc, 100).open().ok()?;
    let mut writer = Writer::new(&vector, hand);
    let are_taken = takes_hundred(rt, &mut writer);
    drop(writer);
    drop(vector);
    Some(are_taken)
}

#[test]
fn a_loop_over_a_writer_needs_no_invariant(rt: HostRuntime) {
    assert!(rt; fills(&rt, rt.alloc()) == Some(true));
}

// The list of the squares of the numbers below n, if all fit.
fn list_squares<R: Wait>(rt: &R, alloc: Global, n: u64) -> Option<Quiet<u64>> {
    let (vector, hand) = Quiet::new(alloc, 1000).open().ok()?;
    let mut writer = Writer::new(&vector, hand);
    let appended = writer.push_all(rt, (0..n).map(|number| number.wrapping_mul(number)));
    let hand = writer.into_hand();
    let list = Quiet::close(vector, hand);
    succeeded(appended).then_some(list)
}

#[test]
fn a_vector_is_closed_after_a_writer_wrote(rt: HostRuntime) {
    match list_squares(&rt, rt.alloc(), 100) {
        Some(list) => {
            let are_squares = list.len() == 100 && list.get(9) == Ok(&81);
            drop(list);
            assert!(rt; are_squares);
        }
        None => panic!(rt; "no memory"),
    }
}
