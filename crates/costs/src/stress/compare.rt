//! The comparison of a vector with the results of the calls.
ghost use Rattle.std.specs.Prelude.{◌≡◌};
ghost use Rattle.grow_core.specs.Vector.{IsHandOf};

use crate::stress::record::{Record, Said};
use anyhow::{Error, Result, anyhow, bail, ensure};
use grow_core::{AtError, Hand, Shared};
use std::alloc::AllocGlobal;
use std::fmt::Display;

// Writes down the value at a place by a call's result, or that it is broken.
fn write_one(places: &mut [Option<Option<u64>>], said: Said) -> Result<()> {
    let place = said.place;
    match places.get_mut(place as usize) {
        None => bail!("place {place} was answered, and is not below the size"),
        Some(Some(_)) => bail!("place {place} was answered twice"),
        Some(free) => *free = Some(said.value),
    }
    Ok(())
}

// Writes down each place that a call returned.
fn write_down(places: &mut [Option<Option<u64>>], placed: &[Said]) -> Result<()> {
    for said in placed {
        write_one(places, *said)?;
    }
    Ok(())
}

// The value at each place below the size, by the calls' results.
fn places_of<R: AllocGlobal>(
    rt: &R,
    size: u64,
    records: &[Record],
) -> Result<Vec<Option<Option<u64>>>> {
    let mut places = vec![in rt.alloc(); None; size as usize]?;
    for record in records {
        write_down(places.as_mut_slice(), record.placed.as_slice())?;
    }
    Ok(places)
}

// The error for a place that has no value and is not broken.
fn error_at<P: Display>(place: u64, error: &P) -> Error {
    anyhow!("place {place}: {error}")
}

// The value at a place, or nothing if it is broken. It must be one of the two.
fn value_at(vector: &Shared<u64>, hand: &mut Hand<u64>, place: u64) -> Result<Option<u64>>
    requires ours { IsHandOf vector.now hand.old }
    ensures of { hand.new.of ≡ hand.old.of }
{
    let answer = vector.at(hand, place, None);
    let value = match &answer {
        Ok(at) => Ok(Some(*at.value)),
        Err(AtError::Broken(_)) => Ok(None),
        Err(error) => Err(error_at(place, error)),
    };
    drop(answer);
    value
}

// Each place has the value that a call's result gives.
fn compare_places(
    vector: &Shared<u64>,
    hand: &mut Hand<u64>,
    places: &[Option<Option<u64>>],
) -> Result<()>
    requires ours { IsHandOf vector.now hand.old }
    ensures of { hand.new.of ≡ hand.old.of }
{
    for (place, said) in places.iter().enumerate() {
        let Some(said) = said else {
            bail!("place {place} is below the size, and was not answered")
        };
        let value = value_at(vector, hand, place as u64)?;
        ensure!(
            value == *said,
            "place {place} has {value:?}, and {said:?} was answered"
        );
    }
    Ok(())
}

// Compares what was read while others appended with what is there.
fn compare_read(places: &[Option<Option<u64>>], read: &[Said]) -> Result<()> {
    for Said { place, value } in read {
        let Some(said) = places.get(*place as usize).copied().flatten() else {
            bail!("place {place} was read, and was not answered")
        };
        ensure!(said == *value, "{value:?} was read at place {place}");
    }
    Ok(())
}

// Each place has the value that a call's result gives, and what was read is there.
fn compare_with(
    vector: &Shared<u64>,
    hand: &mut Hand<u64>,
    places: &[Option<Option<u64>>],
    records: &[Record],
) -> Result<()>
    requires ours { IsHandOf vector.now hand.old }
    ensures of { hand.new.of ≡ hand.old.of }
{
    compare_places(vector, hand, places)?;
    for record in records {
        compare_read(places, record.read.as_slice())?;
    }
    Ok(())
}

/// Compares each place with the calls' results, by one hand that all other hands have joined.
pub fn compare_all<R: AllocGlobal>(
    rt: &R,
    vector: &Shared<u64>,
    hand: &mut Hand<u64>,
    records: &[Record],
) -> Result<()>
    requires ours { IsHandOf vector.now hand.old }
    ensures of { hand.new.of ≡ hand.old.of }
{
    let size = vector.size(hand);
    let places = places_of(rt, size, records)?;
    compare_with(vector, hand, places.as_slice(), records)
}
