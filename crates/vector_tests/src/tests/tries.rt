// What callers that may not wait prove, by the public clauses alone.
ghost use Rattle.std.specs.Prelude.{◌≡◌, ◌<◌, Some, IfSome, length, slice_get};
ghost use Rattle.grow_core.specs.Vector.{IsHandOf, IsPlacedOf};

use super::callers::Callers;
use grow_core::{GrowError, Hand, Placed, Shared};

// Appends a value by at most this many tries. Each begins at the size that the one before it found.
fn push_within(
    vector: &Shared<u64>,
    hand: &mut Hand<u64>,
    value: u64,
    tries: u64,
) -> Option<Placed<u64>>
    requires ours { IsHandOf vector.now hand.old }
    ensures of { hand.new.of ≡ hand.old.of }
    ensures token { IfSome result (IsPlacedOf vector.now) }
    ensures value { IfSome result (λ placed. placed.value ≡ value) }
{
    for _try in 0..tries {
        match vector.try_push_seen(hand, value) {
            Ok(placed) => return Some(placed),
            Err(refused) => {
                let is_moved = matches!(&refused, GrowError::Moved { .. });
                drop(refused);
                if !is_moved {
                    return None;
                }
            }
        }
    }
    None
}

// Appends copies of the values, and reads the first by its token.
fn copy_and_read(vector: &Shared<u64>, hand: &mut Hand<u64>, values: &[u64]) -> Option<u64>
    requires ours { IsHandOf vector.now hand.old }
    requires some { 0 < length values.now }
    ensures of { hand.new.of ≡ hand.old.of }
    ensures first { IfSome result (λ read. slice_get values.now 0 ≡ Some read) }
{
    let grown = match vector.try_grow_from(hand, values) {
        Ok(grown) => grown,
        Err(refused) => {
            drop(refused);
            return None;
        }
    };
    let placed = grown.placed(0);
    let read = *vector.get(&placed);
    drop(placed);
    drop(grown);
    Some(read)
}

// Pushes by a hand that has not seen the other's push: first by one try, then by two. Then it reads a copy.
fn try_and_read(two: &mut Callers<u64>) -> (Option<u64>, Option<u64>, Option<u64>) {
    let first = push_within(&two.vector, &mut two.b, 7, 1);
    let second = push_within(&two.vector, &mut two.b, 7, 2);
    let places = (
        first.as_ref().map(|placed| placed.place()),
        second.as_ref().map(|placed| placed.place()),
    );
    drop(first);
    drop(second);
    let read = copy_and_read(&two.vector, &mut two.a, &[8, 9]);
    (places.0, places.1, read)
}

#[test]
fn a_second_try_wins_the_place_that_the_first_found(rt: HostRuntime) {
    let mut two = Callers::new(&rt, 8);
    let is_pushed = two.push_a(5) == Some(0);
    let tried = try_and_read(&mut two);
    drop(two);
    assert!(rt; is_pushed && tried == (None, Some(1), Some(8)));
}
