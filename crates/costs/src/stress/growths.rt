//! Random growths of one thread.
ghost use Rattle.std.specs.Prelude.{◌≡◌, ◌<◌, ◌^◌};
ghost use Rattle.grow_core.specs.Vector.{IsHandOf};

use crate::stress::calls::Caller;
use crate::stress::record::Record;
use anyhow::Result;
use grow_core::{AtLeast, GrowError, Grown, Hand, Run, Shared};
use std::alloc::{AllocError, Global};

fn values_from(alloc: Global, first: u64, n: u64) -> Result<Vec<u64>, AllocError> {
    let mut values = Vec::new(alloc);
    for i in 0..n {
        values.push(first.wrapping_add(i))?;
    }
    Ok(values)
}

// The place of this index in a run, as its token says it.
fn place_of(grown: &Grown<u64>, i: u64) -> u64
    requires inside { i < grown.now.run.n }
{
    let placed = grown.placed(i);
    let place = placed.place();
    drop(placed);
    place
}

// Notes the values of a run: the first, and each next one greater by the step.
fn note_run(record: &mut Record, first: u64, step: u64, grown: &Grown<u64>) -> Result<()> {
    for i in 0..grown.run().n {
        let value = first.wrapping_add(i.wrapping_mul(step));
        record.note_placed(place_of(grown, i), Some(value))?;
    }
    Ok(())
}

// Notes that the places of a run after the first ones are broken.
fn note_broken(record: &mut Record, run: Run, made: u64) -> Result<()> {
    for i in made..run.n {
        record.note_placed(run.from.wrapping_add(i), None)?;
    }
    Ok(())
}

// Notes a growth that was refused.
fn note_failure<V: Drop, E: Drop>(
    record: &mut Record,
    first: u64,
    step: u64,
    error: &GrowError<u64, V, E>,
) -> Result<()> {
    match error {
        GrowError::Refused { run, made, .. } => {
            note_run(record, first, step, made)?;
            note_broken(record, *run, made.run().n)
        }
        error => record.note_refused(error),
    }
}

// Notes the result of a growth.
fn note_growth<V: Drop, E: Drop>(
    record: &mut Record,
    first: u64,
    step: u64,
    answer: Result<Grown<u64>, GrowError<u64, V, E>>,
) -> Result<()> {
    let noted = match &answer {
        Ok(grown) => note_run(record, first, step, grown),
        Err(error) => note_failure(record, first, step, error),
    };
    drop(answer);
    noted
}

/// Grows by at most `most` values, which are moved in.
pub fn grow(
    alloc: Global,
    vector: &Shared<u64>,
    hand: &mut Hand<u64>,
    caller: &mut Caller,
    most: u64,
) -> Result<()>
    requires ours { IsHandOf vector.now hand.old }
    requires bounded { most < 2 ^ 32 }
    ensures of { hand.new.of ≡ hand.old.of }
{
    let n = caller.up_to(most);
    let first = caller.take_values(n);
    let answer = vector.try_grow_vec(hand, values_from(alloc, first, n)?);
    note_growth(&mut caller.record, first, 1, answer)
}

/// Grows by at most `most` clones of one value.
pub fn grow_by(
    vector: &Shared<u64>,
    hand: &mut Hand<u64>,
    caller: &mut Caller,
    most: u64,
) -> Result<()>
    requires ours { IsHandOf vector.now hand.old }
    requires bounded { most < 2 ^ 32 }
    ensures of { hand.new.of ≡ hand.old.of }
{
    let n = caller.up_to(most);
    let value = caller.take_values(1);
    let answer = vector.try_grow_by(hand, n, &value);
    note_growth(&mut caller.record, value, 0, answer)
}

/// Grows by at most `most` values that are made in place, one of them perhaps refused.
pub fn grow_with(
    vector: &Shared<u64>,
    hand: &mut Hand<u64>,
    caller: &mut Caller,
    most: u64,
) -> Result<()>
    requires ours { IsHandOf vector.now hand.old }
    requires bounded { most < 2 ^ 32 }
    ensures of { hand.new.of ≡ hand.old.of }
{
    let n = caller.up_to(most);
    let refused = caller.up_to(most);
    let first = caller.take_values(n);
    let make = |i: u64| -> Result<u64, u64> {
        if i == refused {
            Err(i)
        } else {
            Ok(first.wrapping_add(i))
        }
    };
    let answer = vector.try_grow_with(hand, n, make);
    note_growth(&mut caller.record, first, 1, answer)
}

/// Grows up to at most `most` places above the size that the hand has seen, by values that are made in place,
/// one of them perhaps refused.
pub fn grow_to_at_least(
    vector: &Shared<u64>,
    hand: &mut Hand<u64>,
    caller: &mut Caller,
    most: u64,
) -> Result<()>
    requires ours { IsHandOf vector.now hand.old }
    requires bounded { most < 2 ^ 32 }
    ensures of { hand.new.of ≡ hand.old.of }
{
    let size = hand.seen().saturating_add(caller.up_to(most));
    let refused = caller.up_to(most);
    let first = caller.take_values(most);
    let make = |i: u64| -> Result<u64, u64> {
        if i == refused {
            Err(i)
        } else {
            Ok(first.wrapping_add(i))
        }
    };
    let answer = vector.grow_to_at_least(hand, size, make);
    let record = &mut caller.record;
    let noted = match &answer {
        Ok(AtLeast::Ran(grown)) => note_run(record, first, 1, grown),
        Ok(AtLeast::Enough { .. }) => Ok(()),
        Err(error) => note_failure(record, first, 1, error),
    };
    drop(answer);
    noted
}
