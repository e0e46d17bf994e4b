// The work of one thread.
ghost use Rattle.std.specs.Prelude.{◌≡◌};
ghost use Rattle.grow_core.specs.Vector.{IsHandOf, IsPlacedOf};

use super::super::steps::Reply::Is;
use super::super::steps::read;
use super::EACH;
use grow_core::{Hand, Placed, Shared};
use std::alloc::{AllocError, Global};
use std::process::Abort;
use std::sync::Wait;

// The work of a thread: it appends `n` values from the first on, in order, and reads each by its token; or it
// reads `n` places as soon as another thread has filled them; or it appends `n` runs of three equal values.
#[derive(Drop)]
pub(super) enum Work {
    Push { first: u64, n: u64 },
    Read { n: u64 },
    Grow { alloc: Global, n: u64 },
}

// Why a step of a thread failed.
type Failure = &'static str;

pub(super) fn work_each<R: Wait + Abort>(
    rt: &R,
    vector: &Shared<u64>,
    mut hand: Hand<u64>,
    work: &Work,
) -> Hand<u64>
    requires ours { IsHandOf vector.now hand }
    ensures { result.of ≡ vector.now.word }
{
    let (Work::Push { n, .. } | Work::Read { n } | Work::Grow { n, .. }) = work;
    for j in 0..*n {
        let done = match work {
            Work::Push { first, .. } => push_and_read(rt, vector, &mut hand, first.wrapping_add(j)),
            Work::Read { .. } => wait_and_read(rt, vector, &mut hand, j),
            Work::Grow { alloc, .. } => grow_three(rt, vector, &mut hand, *alloc, j),
        };
        if let Err(why) = done {
            panic!(rt; "number {j} {why}");
        }
    }
    hand
}

// Appends a value, reads it by its token, and looks at a place further down.
fn push_and_read<R: Wait>(
    rt: &R,
    vector: &Shared<u64>,
    hand: &mut Hand<u64>,
    value: u64,
) -> Result<(), Failure>
    requires ours { IsHandOf vector.now hand.old }
    ensures { hand.new.of ≡ hand.old.of }
{
    let pushed = vector.push_back(rt, hand, value);
    let done = match &pushed {
        Ok(placed) => read_back(vector, hand, placed, value),
        Err(_refused) => Err("was refused"),
    };
    drop(pushed);
    done
}

// Reads a value by its token, and looks at a place further down.
fn read_back(
    vector: &Shared<u64>,
    hand: &mut Hand<u64>,
    placed: &Placed<u64>,
    value: u64,
) -> Result<(), Failure>
    requires ours { IsHandOf vector.now hand.old }
    requires token { IsPlacedOf vector.now placed.now }
    ensures { hand.new.of ≡ hand.old.of }
{
    if *vector.get(placed) != value {
        return Err("is not the value that its token reads");
    }
    match read(vector, hand, placed.place() / 2) {
        Is(read) if read >= 4 * EACH => Err("sees a value that no thread appends"),
        _ => Ok(()),
    }
}

// The value at a place, as the look and its token show it.
fn look_twice(vector: &Shared<u64>, hand: &mut Hand<u64>, place: u64) -> Option<(u64, u64)>
    requires ours { IsHandOf vector.now hand.old }
    ensures { hand.new.of ≡ hand.old.of }
{
    let at = vector.at(hand, place, None);
    let values = match &at {
        Ok(at) => Some((*at.value, *vector.get(&at.placed))),
        Err(_refused) => None,
    };
    drop(at);
    values
}

// Looks until the place has a value, which is its number.
fn wait_and_read<R: Wait>(
    rt: &R,
    vector: &Shared<u64>,
    hand: &mut Hand<u64>,
    place: u64,
) -> Result<(), Failure>
    requires ours { IsHandOf vector.now hand.old }
    ensures { hand.new.of ≡ hand.old.of }
{
    for _look in rt.forever() {
        if let Some(values) = look_twice(vector, hand, place) {
            return if values == (place, place) {
                Ok(())
            } else {
                Err("is not the value of its place")
            };
        }
    }
    Err("is not there")
}

// Appends three equal values, if they are not refused.
fn grow_three<R: Wait>(
    rt: &R,
    vector: &Shared<u64>,
    hand: &mut Hand<u64>,
    alloc: Global,
    value: u64,
) -> Result<(), Failure>
    requires ours { IsHandOf vector.now hand.old }
    ensures of { hand.new.of ≡ hand.old.of }
{
    match Vec::from_slice(alloc, &[value; 3]) {
        Ok(values) => {
            let grown = vector.grow_vec(rt, hand, values);
            let is_won = grown.is_ok();
            drop(grown);
            if is_won { Ok(()) } else { Err("was refused") }
        }
        Err(AllocError) => Err("found no memory"),
    }
}
