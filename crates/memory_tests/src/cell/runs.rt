// Runs: cells of one word that one call begins and fills together.
ghost use Rattle.std.specs.Prelude.{◌≡◌, ◌+◌, ◌%◌, ◌<◌, ◌≤◌};
ghost use Rattle.cell_core.specs.Block.{block_len};
ghost use Rattle.cell_core.specs.Laid.{word_cells};

use crate::cell::block::{is_filled, made};
use crate::cell::words::{after, shown};
use cell_core::block::Block;
use std::thread::{Threads, join};

// Fills three cells as a run with 5, 6 and 7, and returns what they showed before they were published, a digit each.
fn fill_three(block: &Block<u64>, offset: u64) -> Option<u64>
    requires within { offset + 3 ≤ block_len block.now }
    requires word { offset % word_cells + 3 ≤ word_cells }
{
    let pen = block.begin_run(offset, 3)?.write(5).write(6).write(7);
    let before = shown_by_three(block, offset);
    drop(pen.publish());
    Some(before)
}

fn shown_by_three(block: &Block<u64>, offset: u64) -> u64
    requires { offset + 3 ≤ block_len block.now }
{
    let (a, b, c) = (
        shown(block, offset),
        shown(block, after(block, offset, 1)),
        shown(block, after(block, offset, 2)),
    );
    a.wrapping_mul(100)
        .wrapping_add(b.wrapping_mul(10))
        .wrapping_add(c)
}

// Tests whether a run is busy until it is published, and changes no other cell of its word.
fn is_published_at_once(block: &Block<u64>) -> bool
    requires { 16 ≤ block_len block.now }
{
    fill_three(block, 4) == Some(111)
        && shown_by_three(block, 4) == 567
        && shown_by_three(block, 1) == 0
        && shown_by_three(block, 7) == 0
}

// Tests whether a run with a filled cell is not begun, and its other cells stay empty.
fn is_not_begun_where_filled(block: &Block<u64>) -> bool
    requires { 16 ≤ block_len block.now }
{
    is_filled(block, 14, 4)
        && fill_three(block, 13).is_none()
        && shown_by_three(block, 13) == 40
        && fill_three(block, 11) == Some(111)
}

#[test]
fn a_run_is_published_at_once_or_not_begun(rt: HostRuntime) {
    let block = made(&rt, 16);
    assert!(rt; is_published_at_once(&block));
    assert!(rt; is_not_begun_where_filled(&block));
}

// Begins three cells as a run, and returns what they showed then, and after the first was filled with 8, the second
// broken and the third filled with 9.
fn fill_and_break(block: &Block<u64>, offset: u64) -> Option<(u64, u64, u64, u64)>
    requires within { offset + 3 ≤ block_len block.now }
    requires word { offset % word_cells + 3 ≤ word_cells }
{
    let (pen, others) = block.begin_run(offset, 3)?.first();
    let begun = shown_by_three(block, offset);
    drop(pen.fill(8));
    let filled = shown_by_three(block, offset);
    let (pen, others) = others?.first();
    drop(pen.spoil());
    let broken = shown_by_three(block, offset);
    let (pen, others) = others?.first();
    drop(pen.fill(9));
    match others {
        Some(_more) => unreachable!(),
        None => Some((begun, filled, broken, shown_by_three(block, offset))),
    }
}

#[test]
fn a_run_is_filled_and_broken_cell_by_cell(rt: HostRuntime) {
    let block = made(&rt, 16);
    assert!(rt; fill_and_break(&block, 4) == Some((111, 811, 831, 839)));
}

// Fills three cells by themselves, unless a run fills them.
fn fill_each(block: &Block<u64>, offset: u64) -> bool
    requires within { offset + 3 ≤ block_len block.now }
    requires word { offset % word_cells + 3 ≤ word_cells }
{
    fill_three(block, offset).is_some()
        || is_filled(block, offset, 5)
            && is_filled(block, after(block, offset, 1), 6)
            && is_filled(block, after(block, offset, 2), 7)
}

// Lets two threads fill runs of one word, and tests whether both runs have their values.
fn are_filled_by_two<R: Threads + Sync>(rt: &R, block: &Block<u64>, offset: u64) -> bool
    requires within { offset + 16 ≤ block_len block.now }
    requires whole { offset % word_cells ≡ 0 }
{
    let (first, second) = join(
        rt,
        || -> bool
            requires { (offset + 16 ≤ block_len block.now) × (offset % word_cells ≡ 0) }
        { fill_each(block, offset) },
        || -> bool
            requires { (offset + 16 ≤ block_len block.now) × (offset % word_cells ≡ 0) }
        { fill_each(block, after(block, offset, 13)) },
    );
    first
        && second
        && shown_by_three(block, offset) == 567
        && shown_by_three(block, after(block, offset, 13)) == 567
        && shown_by_three(block, after(block, offset, 3)) == 0
}

#[test]
fn two_threads_fill_runs_of_one_word(rt: HostRuntime) {
    let block = made(&rt, 16 * 100);
    for word in 0..100 {
        assert!(rt; are_filled_by_two(&rt, &block, 16 * word));
    }
}
