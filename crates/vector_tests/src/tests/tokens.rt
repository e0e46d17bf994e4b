// How a token is read.
ghost use Rattle.std.specs.Prelude.{◌≡◌};
ghost use Rattle.grow_core.specs.Vector.{IsHandOf, IsPlacedOf};
ghost use Rattle.grow_core.specs.Grown.{IsGrownOf};

use super::callers::{Callers, list};
use grow_core::{Grown, Hand, Placed, Run, Shared};
use std::sync::Wait;

// A token's value: by the token, by its duplicate, and by a look at its place.
fn read(vector: &Shared<u64>, hand: &mut Hand<u64>, token: &Placed<u64>) -> Option<[u64; 3]>
    requires ours { IsHandOf vector.now hand.old }
    requires of { IsPlacedOf vector.now token.now }
    ensures { hand.new.of ≡ hand.old.of }
{
    let first = *vector.get(token);
    let again = token.again();
    let second = *vector.get(&again);
    drop(again);
    let third = look_by(vector, hand, token)?;
    Some([first, second, third])
}

// The value at a token's place, by a look with the token.
fn look_by(vector: &Shared<u64>, hand: &mut Hand<u64>, token: &Placed<u64>) -> Option<u64>
    requires ours { IsHandOf vector.now hand.old }
    requires of { IsPlacedOf vector.now token.now }
    ensures { hand.new.of ≡ hand.old.of }
{
    let at = vector.at(hand, token.place(), Some(token));
    let value = match &at {
        Ok(at) => {
            vector.agree(&at.placed, token);
            Some(*at.value)
        }
        Err(_refused) => None,
    };
    drop(at);
    value
}

// A run, the second of its places, and what is read there.
fn read_second(
    vector: &Shared<u64>,
    hand: &mut Hand<u64>,
    grown: &Grown<u64>,
) -> Option<(Run, u64, [u64; 3])>
    requires ours { IsHandOf vector.now hand.old }
    requires of { IsGrownOf vector.now grown.now }
    ensures { hand.new.of ≡ hand.old.of }
{
    let run = grown.run();
    if run.n < 2 {
        return None;
    }
    let token = grown.placed(1);
    let reads = read(vector, hand, &token)?;
    Some((run, token.place(), reads))
}

// The same of values that are moved in.
fn grow_and_read<R: Wait>(
    rt: &R,
    two: &mut Callers<u64>,
    values: Vec<u64>,
) -> Option<(Run, u64, [u64; 3])> {
    let grown = two.vector.grow_vec(rt, &mut two.a, values);
    let read = match &grown {
        Ok(grown) => read_second(&two.vector, &mut two.a, grown),
        Err(_refused) => None,
    };
    drop(grown);
    read
}

#[test]
fn a_run_has_its_values_in_order(rt: HostRuntime) {
    let mut two = Callers::new(&rt, 8);
    let read = grow_and_read(&rt, &mut two, list(&rt, &[7, 8, 9]));
    let limit = two.vector.limit();
    drop(two);
    assert!(rt; read == Some((Run { from: 0, n: 3 }, 1, [8; 3])));
    assert_eq!(rt; limit, 8);
}
