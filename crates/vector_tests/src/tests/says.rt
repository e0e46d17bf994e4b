// Each refusal in plain numbers: each function depends on one definition of the contracts.
ghost use Rattle.std.specs.Prelude.{◌≡◌, ◌+◌, ◌<◌, ◌≤◌, IfSome, vec_len};
ghost use Rattle.grow_core.specs.Hand.{seen_size};
ghost use Rattle.grow_core.specs.Vector.{IsHandOf, limit_of};

use super::callers::{Callers, list};
use grow_core::{GrowError, Hand, Shared};
use std::alloc::AllocGlobal;
use std::process::Abort;

// If what the hand has seen leaves no room, the values come back with the size.
fn grow_without_room(
    vector: &Shared<u64>,
    hand: &mut Hand<u64>,
    values: Vec<u64>,
) -> (u64, Vec<u64>)
    requires ours { IsHandOf vector.now hand.old }
    requires no_room { limit_of vector.now < seen_size hand.old + vec_len values }
    ensures of { hand.new.of ≡ hand.old.of }
    ensures back { result.1 ≡ values }
    ensures size { result.0 ≡ seen_size hand.new }
{
    match vector.try_grow_vec(hand, values) {
        Err(GrowError::Full { size, back }) => (size, back),
        other => {
            drop(other);
            unreachable!()
        }
    }
}

// The size that a growth was overtaken by: another caller moved it, and there is room still.
fn grow_overtaken(vector: &Shared<u64>, hand: &mut Hand<u64>, values: Vec<u64>) -> Option<u64>
    requires ours { IsHandOf vector.now hand.old }
    ensures of { hand.new.of ≡ hand.old.of }
    ensures further { IfSome result (λ size. seen_size hand.old < size) }
    ensures room { IfSome result (λ size. size + vec_len values ≤ limit_of vector.now) }
{
    let grown = vector.try_grow_vec(hand, values);
    let reported = match &grown {
        Err(GrowError::Moved { size, .. }) => Some(*size),
        _ => None,
    };
    drop(grown);
    reported
}

// A value that found no memory, though there was room for it.
fn push_without_memory(vector: &Shared<u64>, hand: &mut Hand<u64>, value: u64) -> Option<u64>
    requires ours { IsHandOf vector.now hand.old }
    ensures of { hand.new.of ≡ hand.old.of }
    ensures same { IfSome result (λ back. back ≡ value) }
    ensures room { IfSome result (λ _. seen_size hand.new < limit_of vector.now) }
{
    let pushed = vector.try_push_back(hand, value);
    let reported = match &pushed {
        Err(GrowError::NoMemory { back }) => Some(*back),
        _ => None,
    };
    drop(pushed);
    reported
}

// Pushes the numbers below n, up to the first refusal, and returns how many it has pushed. There are three refusals: a place
// is never taken.
fn push_numbers(vector: &Shared<u64>, hand: &mut Hand<u64>, n: u64) -> u64
    requires ours { IsHandOf vector.now hand.old }
    ensures of { hand.new.of ≡ hand.old.of }
{
    for i in 0..n {
        match vector.try_push_back(hand, i) {
            Ok(placed) => drop(placed),
            Err(GrowError::NoMemory { .. } | GrowError::Full { .. } | GrowError::Moved { .. }) =>
                return i,
            Err(_) => unreachable!(),
        }
    }
    n
}

// A growth of nothing claims nothing, and returns the size that the hand has then seen.
fn grow_by_nothing(vector: &Shared<u64>, hand: &mut Hand<u64>, values: Vec<u64>) -> u64
    requires ours { IsHandOf vector.now hand.old }
    requires nothing { vec_len values ≡ 0 }
    ensures of { hand.new.of ≡ hand.old.of }
    ensures from { result ≡ seen_size hand.new }
    ensures mine { hand.new.mine ≡ hand.old.mine }
{
    let grown = vector.try_grow_vec(hand, values);
    let from = match &grown {
        Ok(grown) => grown.run().from,
        Err(_refused) => unreachable!(),
    };
    drop(grown);
    from
}

// The value at a place below the size that the hand has then seen.
fn seen_value(vector: &Shared<u64>, hand: &mut Hand<u64>, place: u64) -> Option<u64>
    requires ours { IsHandOf vector.now hand.old }
    ensures of { hand.new.of ≡ hand.old.of }
    ensures below { IfSome result (λ _. place < seen_size hand.new) }
{
    let at = vector.at(hand, place, None);
    let value = match &at {
        Ok(at) => Some(*at.value),
        Err(_refused) => None,
    };
    drop(at);
    value
}

// Tests whether no refusal comes, if one caller is at work and there is room for four values.
fn is_not_refused<R: AllocGlobal + Abort>(rt: &R, two: &mut Callers<u64>) -> bool {
    grow_overtaken(&two.vector, &mut two.a, list(rt, &[5])).is_none()
        && push_without_memory(&two.vector, &mut two.a, 7).is_none()
        && push_numbers(&two.vector, &mut two.a, 2) == 2
        && seen_value(&two.vector, &mut two.a, 3) == Some(1)
}

#[test]
fn a_caller_alone_is_not_refused(rt: HostRuntime) {
    let mut callers = Callers::new(&rt, 8);
    let two = &mut callers;
    let is_alone = is_not_refused(&rt, two);
    let size = grow_by_nothing(&two.vector, &mut two.b, Vec::new(rt.alloc()));
    drop(callers);
    assert!(rt; is_alone);
    assert_eq!(rt; size, 4);
}

// The size that comes back with the values, if they go beyond the limit.
fn size_beyond(two: &mut Callers<u64>, values: Vec<u64>) -> Option<u64> {
    if values.len() as u64 > two.vector.limit() {
        let (size, back) = grow_without_room(&two.vector, &mut two.b, values);
        drop(back);
        Some(size)
    } else {
        drop(values);
        None
    }
}

#[test]
fn values_beyond_the_limit_are_refused(rt: HostRuntime) {
    let mut two = Callers::new(&rt, 2);
    let _first = two.push_a(5);
    let size = size_beyond(&mut two, list(&rt, &[6, 7, 8]));
    drop(two);
    assert_eq!(rt; size, Some(1));
}
