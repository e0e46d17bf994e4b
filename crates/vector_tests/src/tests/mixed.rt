// Threads that grow one vector in every form, with constructions that are refused.
ghost use Rattle.std.specs.Prelude.{◌≡◌, ◌<◌};
ghost use Rattle.std.specs.Thread.{IsSync};
ghost use Rattle.grow_core.specs.Vector.{IsHandOf};

use super::callers::{empty, place_of};
use super::lives::Life;
use super::parts::member;
use grow_core::{AtLeast, GrowError, Grown, Hand, Parts, Run, Shared};
use std::alloc::{AllocError, AllocGlobal};
use std::process::Abort;
use std::sync::Wait;
use std::test::Fail;
use std::thread::{Threads, join};

// How many calls each of eight threads makes.
const CALLS: u64 = 1_000;

// What calls returned: the number of places that they won, the number of these that are broken, and a sum
// over the others' places and values.
#[derive(Clone, Copy, PartialEq)]
struct Tally {
    places: u64,
    broken: u64,
    sum: u64,
}

impl Tally {
    fn and(self, other: Tally) -> Tally {
        Tally {
            places: self.places.wrapping_add(other.places),
            broken: self.broken.wrapping_add(other.broken),
            sum: self.sum.wrapping_add(other.sum),
        }
    }

    // The places of a run; the first have the value and the others are broken.
    fn of(run: Run, made: u64, value: u64) -> Tally {
        let mut sum = 0u64;
        for i in 0..made {
            sum = sum.wrapping_add(run.from.wrapping_add(i).wrapping_add(1).wrapping_mul(value));
        }
        Tally {
            places: run.n,
            broken: run.n.wrapping_sub(made),
            sum,
        }
    }
}

// No place.
const NONE: Tally = Tally {
    places: 0,
    broken: 0,
    sum: 0,
};

// The run of one place.
fn single(place: u64) -> Run {
    Run { from: place, n: 1 }
}

// What a growth of equal values reported. Only a construction may be refused.
fn tally_of<V: Drop, E: Drop>(
    answer: Result<Grown<u64>, GrowError<u64, V, E>>,
    value: u64,
) -> Option<Tally> {
    let tally = match &answer {
        Ok(grown) => Some(Tally::of(grown.run(), grown.run().n, value)),
        Err(GrowError::Refused { run, made, .. }) => Some(Tally::of(*run, made.run().n, value)),
        Err(_other) => None,
    };
    drop(answer);
    tally
}

// The same of a growth up to a size.
fn tally_at_least<E: Drop>(
    answer: Result<AtLeast<u64>, GrowError<u64, (), E>>,
    value: u64,
) -> Option<Tally> {
    let tally = match &answer {
        Ok(AtLeast::Ran(grown)) => Some(Tally::of(grown.run(), grown.run().n, value)),
        Ok(AtLeast::Enough { .. }) => Some(NONE),
        Err(GrowError::Refused { run, made, .. }) => Some(Tally::of(*run, made.run().n, value)),
        Err(_other) => None,
    };
    drop(answer);
    tally
}

// One call, of a form that the number names: a push, clones, moved values, or a maker that may refuse, for a
// growth or up to a size.
fn call<R: AllocGlobal + Wait + Abort>(
    rt: &R,
    vector: &Shared<u64>,
    hand: &mut Hand<u64>,
    number: u64,
    value: u64,
) -> Option<Tally>
    requires ours { IsHandOf vector.now hand.old }
    ensures of { hand.new.of ≡ hand.old.of }
{
    let make = |i: u64| -> Result<u64, u64> { if i == number % 7 { Err(i) } else { Ok(value) } };
    match number % 5 {
        0 => match place_of(vector.push_back(rt, hand, value)) {
            Some(place) => Some(Tally::of(single(place), 1, value)),
            None => None,
        },
        1 => tally_of(vector.grow_by(rt, hand, number % 4, &value), value),
        2 => tally_of(vector.grow_with(rt, hand, number % 6, make), value),
        3 => match Vec::from_slice(rt.alloc(), &[value; 3]) {
            Ok(values) => tally_of(vector.grow_vec(rt, hand, values), value),
            Err(AllocError) => None,
        },
        _ => {
            let size = vector.size(hand).saturating_add(2);
            tally_at_least(vector.grow_to_at_least(hand, size, make), value)
        }
    }
}

// Makes the calls of one thread, and returns what they returned.
fn call_each<R: AllocGlobal + Wait + Abort>(
    rt: &R,
    vector: &Shared<u64>,
    mut hand: Hand<u64>,
    value: u64,
) -> (Hand<u64>, Tally)
    requires ours { IsHandOf vector.now hand }
    ensures { result.0.of ≡ vector.now.word }
{
    let mut tally = NONE;
    for number in 0..CALLS {
        match call(rt, vector, &mut hand, number.wrapping_add(value), value) {
            Some(more) => tally = tally.and(more),
            None => panic!(rt; "call {number} was refused"),
        }
    }
    (hand, tally)
}

fn call_by_two<R: AllocGlobal + Threads + Wait + Abort + Sync>(
    rt: &R,
    vector: &Shared<u64>,
    mut a: Hand<u64>,
    value: u64,
) -> (Hand<u64>, Tally)
    requires ours { IsHandOf vector.now a }
    requires enough { 1 < a.shares }
    ensures { result.0.of ≡ vector.now.word }
{
    let b = vector.split(&mut a, 1);
    let ((mut all, first), (other, second)) = join(
        rt,
        || -> (Hand<u64>, Tally)
            requires { IsSync R.row × IsHandOf vector.now a }
            ensures { result.0.of ≡ vector.entry.now.word }
        { call_each(rt, vector, a, value) },
        || -> (Hand<u64>, Tally)
            requires { IsSync R.row × IsHandOf vector.now b }
            ensures { result.0.of ≡ vector.entry.now.word }
        { call_each(rt, vector, b, value.wrapping_add(1)) },
    );
    vector.join(&mut all, other);
    (all, first.and(second))
}

fn call_by_four<R: AllocGlobal + Threads + Wait + Abort + Sync>(
    rt: &R,
    vector: &Shared<u64>,
    mut a: Hand<u64>,
    value: u64,
) -> (Hand<u64>, Tally)
    requires ours { IsHandOf vector.now a }
    requires enough { 3 < a.shares }
    ensures { result.0.of ≡ vector.now.word }
{
    let b = vector.split(&mut a, 2);
    let ((mut all, first), (other, second)) = join(
        rt,
        || -> (Hand<u64>, Tally)
            requires { IsSync R.row × IsHandOf vector.now a × (1 < a.shares) }
            ensures { result.0.of ≡ vector.entry.now.word }
        { call_by_two(rt, vector, a, value) },
        || -> (Hand<u64>, Tally)
            requires { IsSync R.row × IsHandOf vector.now b × (1 < b.shares) }
            ensures { result.0.of ≡ vector.entry.now.word }
        { call_by_two(rt, vector, b, value.wrapping_add(2)) },
    );
    vector.join(&mut all, other);
    (all, first.and(second))
}

fn call_by_eight<R: AllocGlobal + Threads + Wait + Abort + Sync>(
    rt: &R,
    vector: &Shared<u64>,
    mut a: Hand<u64>,
) -> (Hand<u64>, Tally)
    requires ours { IsHandOf vector.now a }
    requires enough { 7 < a.shares }
    ensures { result.0.of ≡ vector.now.word }
{
    let b = vector.split(&mut a, 4);
    let ((mut all, first), (other, second)) = join(
        rt,
        || -> (Hand<u64>, Tally)
            requires { IsSync R.row × IsHandOf vector.now a × (3 < a.shares) }
            ensures { result.0.of ≡ vector.entry.now.word }
        { call_by_four(rt, vector, a, 1) },
        || -> (Hand<u64>, Tally)
            requires { IsSync R.row × IsHandOf vector.now b × (3 < b.shares) }
            ensures { result.0.of ≡ vector.entry.now.word }
        { call_by_four(rt, vector, b, 5) },
    );
    vector.join(&mut all, other);
    (all, first.and(second))
}

// What the closed list shows.
fn tally_in(parts: &Parts<u64>) -> Tally {
    let mut tally = NONE;
    for place in 0..parts.len() {
        let made = member(parts, place).flatten();
        tally = tally.and(Tally::of(single(place), u64::from(made.is_some()), made.unwrap_or(0)));
    }
    tally
}

// The tally of a list, if there is one.
fn tally_of_list(parts: Option<Parts<u64>>) -> Option<Tally> {
    let tally = match &parts {
        Some(parts) => Some(tally_in(parts)),
        None => None,
    };
    drop(parts);
    tally
}

#[test]
fn eight_threads_grow_in_every_form(rt: HostRuntime) -> Result<(), Fail> {
    let (vector, hand) = empty(rt.alloc(), 1 << 20)?;
    let (mut hand, tally) = call_by_eight(&rt, &vector, hand);
    let size = vector.size(&mut hand);
    let listed = tally_of_list(Life { vector, hand }.close());
    assert!(rt; size == tally.places);
    assert!(rt; listed == Some(tally));
    Ok(())
}
