//! Reads at places that are picked at random, and walks over all places. The loop of each load is in a function of its
//! own, as in the other program, so that no other loop takes its registers.
ghost use Rattle.std.specs.Prelude.{◌≡◌, ◌<◌, ◌≤◌, ℕ};
ghost use Rattle.grow_core.specs.Vector.{IsHandOf};

use grow_core::{Hand, Shared, Shown};

// The first number of the sequence.
const FIRST: u64 = 88_172_645_463_325_252;

// The next number of a sequence that looks random.
#[inline(always)]
fn next(random: u64) -> u64 {
    random
        .wrapping_mul(6_364_136_223_846_793_005)
        .wrapping_add(1_442_695_040_888_963_407)
}

// How often a load walks over its places. A single walk takes some milliseconds, so the start of its threads would
// count.
pub const ROUNDS: u64 = 16;

// How many bits of a number are cut off: the first 23 are left, as in the other program.
const CUT: u32 = 41;

/// Returns the last place that a load reads: the greatest power of two that the size has, less one.
pub fn last_place(size: u64) -> u64
    ensures { 0 < size → result < size }
{
    (1 << size.max(1).ilog2()) - 1
}

// The place that a number of the sequence picks.
#[inline(always)]
fn place_of(random: u64, last: u64) -> u64
    ensures { result ≤ last }
{
    (random >> CUT) & last
}

/// Returns what the reads at random places up to the last one add up to.
#[inline(always)]
pub fn sum_at_random<F: Fn(u64) -> u64>(last: u64, reads: u64, read: &F) -> u64
    requires callable { (place : ℕ) → place ≤ last → F.pre read.now place }
{
    let mut sum: u64 = 0;
    let mut random = FIRST;
    for _read in 0..reads {
        random = next(random);
        sum = sum.wrapping_add(read(place_of(random, last)));
    }
    sum
}

// The last bit of the value that `at` returns without a token, if there is one.
fn at_once(vector: &Shared<u64>, hand: &mut Hand<u64>, place: u64) -> u64
    requires ours { IsHandOf vector.now hand.old }
    ensures of { hand.new.of ≡ hand.old.of }
{
    let answer = vector.at(hand, place, None);
    let bit = match &answer {
        Ok(at) => *at.value & 1,
        Err(_) => 0,
    };
    drop(answer);
    bit
}

/// Reads by `at` without a token, and returns how many values were odd.
#[inline(never)]
pub fn read_at(vector: &Shared<u64>, mut hand: Hand<u64>, reads: u64) -> u64
    requires ours { IsHandOf vector.now hand }
{
    let last = last_place(vector.size(&mut hand));
    let mut sum: u64 = 0;
    let mut random = FIRST;
    for _read in 0..reads {
        random = next(random);
        sum = sum.wrapping_add(at_once(vector, &mut hand, place_of(random, last)));
    }
    drop(hand);
    sum
}

// The last bit of the value that `look` shows, if there is one.
#[inline(always)]
fn look_once(vector: &Shared<u64>, place: u64) -> u64 {
    let shown = vector.look(place);
    let bit = match &shown {
        Shown::Filled(at) => *at.value & 1,
        _ => 0,
    };
    drop(shown);
    bit
}

// The last bit of the value that `boxcar` has at the place, if there is one.
#[inline(always)]
fn boxcar_once(list: &boxcar::Vec<u64>, place: u64) -> u64 {
    match list.get(place as usize) {
        Some(value) => *value & 1,
        None => 0,
    }
}

/// Reads by `get` of a `boxcar::Vec`, and returns how many values were odd.
#[inline(never)]
pub fn read_boxcar(list: &boxcar::Vec<u64>, reads: u64) -> u64 {
    sum_at_random(
        last_place(list.count() as u64),
        reads,
        &|place: u64| -> u64 { boxcar_once(list, place) },
    )
}

/// Reads by `look`, and returns how many values were odd.
#[inline(never)]
pub fn read_look(vector: &Shared<u64>, size: u64, reads: u64) -> u64 {
    sum_at_random(
        last_place(size),
        reads,
        &|place: u64| -> u64 { look_once(vector, place) },
    )
}

/// Walks over the first places, and returns how many of their values were odd.
#[inline(never)]
pub fn read_walk(vector: &Shared<u64>, reads: u64) -> u64 {
    let mut odd: u64 = 0;
    let mut left = reads;
    for item in vector.published() {
        if left == 0 {
            break;
        }
        left -= 1;
        odd = odd.wrapping_add(item.copied().unwrap_or(0) & 1);
    }
    odd
}

/// Walks over the first places again and again, with this many reads in all, and returns how many values were odd.
pub fn read_walks(vector: &Shared<u64>, reads: u64) -> u64 {
    let mut odd: u64 = 0;
    for _round in 0..ROUNDS {
        odd = odd.wrapping_add(read_walk(vector, reads / ROUNDS));
    }
    odd
}

/// Returns how many of the values are odd.
pub fn count_odd(values: &[u64]) -> u64 {
    let mut odd: u64 = 0;
    for value in values {
        odd = odd.wrapping_add(*value & 1);
    }
    odd
}

// Walks over the first places segment by segment, and returns how many of their values were odd.
#[inline(never)]
fn read_segments(vector: &Shared<u64>, reads: u64) -> u64 {
    let mut odd: u64 = 0;
    let mut left = reads;
    for cells in vector.segments() {
        let mut values = cells.filled(0);
        if values.len() as u64 > left {
            values = &values[..left as usize];
        }
        left -= values.len() as u64;
        odd = odd.wrapping_add(count_odd(values));
    }
    odd
}

/// Walks segment by segment over the first places again and again, as `read_walks` does place by place.
pub fn read_segment_walks(vector: &Shared<u64>, reads: u64) -> u64 {
    let mut odd: u64 = 0;
    for _round in 0..ROUNDS {
        odd = odd.wrapping_add(read_segments(vector, reads / ROUNDS));
    }
    odd
}

/// Picks places, and returns how many were odd: what the other loads do beyond their reads.
#[inline(never)]
pub fn pick_places(size: u64, reads: u64) -> u64 {
    sum_at_random(last_place(size), reads, &|place: u64| -> u64 { place & 1 })
}
