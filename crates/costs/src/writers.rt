//! The loads of writers: a vector and a hand in one value, without a buffer and with one.
ghost use Rattle.grow_core.specs.Vector.{IsHandOf};

use crate::trial::succeeded;
use grow_core::{Hand, Shared};
use span_core::{BufferedWriter, Writer};
use std::alloc::AllocGlobal;
use std::sync::Wait;

// The most values in a buffer. The lists of other loads have 64 values too.
const BUFFER: usize = 64;

// Appends a value, and returns whether that was done.
#[inline(always)]
fn push_back<R: Wait>(rt: &R, writer: &mut Writer<'_, u64>, value: u64) -> bool {
    writer.push_back(rt, value).is_ok()
}

/// Pushes values by a writer, and returns how many were appended.
pub fn push_by_writer<R: Wait>(rt: &R, vector: &Shared<u64>, hand: Hand<u64>, tries: u64) -> u64
    requires ours { IsHandOf vector.now hand }
{
    let mut writer = Writer::new(vector, hand);
    let mut won: u64 = 0;
    for value in 0..tries {
        if push_back(rt, &mut writer, value) {
            won = won.wrapping_add(1);
        }
    }
    drop(writer);
    won
}

// Puts a value into the buffer, and returns whether that was done.
#[inline(always)]
fn push_one<R: Wait>(rt: &R, writer: &mut BufferedWriter<'_, u64>, value: u64) -> bool {
    succeeded(writer.push(rt, value))
}

// Appends what is buffered, and returns whether that was done.
fn flush<R: Wait>(rt: &R, writer: &mut BufferedWriter<'_, u64>) -> bool {
    succeeded(writer.flush(rt))
}

/// Pushes values by a writer with a buffer, and appends the last ones too. Returns how many were taken, or 0 if
/// the last ones were refused.
pub fn push_buffered<R: Wait + AllocGlobal>(
    rt: &R,
    vector: &Shared<u64>,
    hand: Hand<u64>,
    tries: u64,
) -> u64
    requires ours { IsHandOf vector.now hand }
{
    let mut writer = BufferedWriter::new(rt.alloc(), Writer::new(vector, hand), BUFFER);
    let mut won: u64 = 0;
    for value in 0..tries {
        if push_one(rt, &mut writer, value) {
            won = won.wrapping_add(1);
        }
    }
    let is_flushed = flush(rt, &mut writer);
    drop(writer);
    if is_flushed { won } else { 0 }
}
