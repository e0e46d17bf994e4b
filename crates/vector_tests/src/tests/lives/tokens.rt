// Tokens that outlive the vector: of an old place and of a new one.
ghost use Rattle.std.specs.Prelude.{◌≡◌, IfSome};
ghost use Rattle.grow_core.specs.Vector.{IsHandOf, IsPlacedOf};
ghost use Rattle.grow_core.specs.Closing.{IsOfClosed};

use super::{Life, three};
use grow_core::{Hand, Parts, Placed, Shared};

// The token of an old place.
fn token_of_old(vector: &Shared<u64>, hand: &mut Hand<u64>) -> Option<Placed<u64>>
    requires ours { IsHandOf vector.now hand.old }
    ensures of { hand.new.of ≡ hand.old.of }
    ensures token { IfSome result (IsPlacedOf vector.now) }
{
    match vector.at(hand, 2, None) {
        Ok(at) => Some(at.placed),
        Err(due) => {
            drop(due);
            None
        }
    }
}

// The tokens of an old place and of a new one.
fn tokens_of_both(vector: &Shared<u64>, hand: &mut Hand<u64>) -> Option<(Placed<u64>, Placed<u64>)>
    requires ours { IsHandOf vector.now hand.old }
    ensures of { hand.new.of ≡ hand.old.of }
    ensures tokens { IfSome result (λ (x, y). IsPlacedOf vector.now x × IsPlacedOf vector.now y) }
{
    let old = token_of_old(vector, hand);
    let new = vector.try_push_back(hand, 40).ok();
    match old {
        Some(old) => match new {
            Some(new) => Some((old, new)),
            None => {
                drop(old);
                None
            }
        },
        None => {
            drop(new);
            None
        }
    }
}

// The values of two places, by their tokens, in a closed list.
fn recall_two(parts: &Parts<u64>, x: &Placed<u64>, y: &Placed<u64>) -> (u64, u64)
    requires old { IsOfClosed parts.now.closed x.now }
    requires new { IsOfClosed parts.now.closed y.now }
{
    (*parts.recall(x), *parts.recall(y))
}

// The values of two places, by their tokens, once the vector is closed.
fn close_and_recall(
    vector: Shared<u64>,
    hand: Hand<u64>,
    x: &Placed<u64>,
    y: &Placed<u64>,
) -> Option<(u64, u64)>
    requires ours { IsHandOf vector hand }
    requires tokens { IsPlacedOf vector x.now × IsPlacedOf vector y.now }
{
    if hand.is_whole() {
        let parts = vector.into_parts(hand);
        let values = recall_two(&parts, x, y);
        drop(parts);
        Some(values)
    } else {
        drop(vector);
        drop(hand);
        None
    }
}

fn recall_both(parts: Parts<u64>) -> Option<(u64, u64)> {
    let Life { vector, mut hand } = Life::open(parts)?;
    match tokens_of_both(&vector, &mut hand) {
        Some((old, new)) => {
            let values = close_and_recall(vector, hand, &old, &new);
            drop(old);
            drop(new);
            values
        }
        None => {
            drop(vector);
            drop(hand);
            None
        }
    }
}

#[test]
fn tokens_are_recalled_in_the_closed_list(rt: HostRuntime) {
    match three(rt.alloc(), 8) {
        Some(parts) => assert!(rt; recall_both(parts) == Some((30, 40))),
        None => panic!(rt; "no list"),
    }
}
