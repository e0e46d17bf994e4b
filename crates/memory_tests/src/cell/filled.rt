// Filled cells next to each other, as one load for each word shows them.
ghost use Rattle.std.specs.Prelude.{◌+◌, ◌<◌, ◌≤◌};
ghost use Rattle.cell_core.specs.Block.{block_len};

use crate::cell::block::{is_filled, made};
use crate::cell::words::after;
use cell_core::block::{Block, Epoch};
use std::alloc::Global;
use std::thread::{Threads, join};

// Fills `n` cells from an offset on, each with its own offset.
fn fill_cells(block: &Block<u64>, offset: u64, n: u64) -> bool
    requires { offset + n ≤ block_len block.now }
{
    for i in 0..n {
        let place = after(block, offset, i);
        if !is_filled(block, place, place) {
            return false;
        }
    }
    true
}

// How many cells from an offset on are lent as filled, of `n`, if each has its own offset for a value.
fn filled_of(block: &Block<u64>, offset: u64, n: u64) -> Option<u64>
    requires { offset + n ≤ block_len block.now }
{
    let (values, row) = block.filled(offset, n);
    drop(row);
    let mut next = offset;
    for value in values {
        if *value != next {
            return None;
        }
        next = next.wrapping_add(1);
    }
    Some(next.wrapping_sub(offset))
}

// The same of the first 40 cells while a pen of cell 20 is out, which then breaks the cell.
fn filled_while_busy(block: &Block<u64>) -> Option<u64>
    requires { 40 ≤ block_len block.now }
{
    let pen = block.begin(20).ok()?;
    let filled = filled_of(block, 0, 40);
    drop(pen.spoil());
    filled
}

fn is_mended(block: &Block<u64>, offset: u64) -> bool
    requires { offset < block_len block.now }
{
    match block.mend(offset) {
        Ok(pen) => {
            drop(pen.fill(offset));
            true
        }
        Err(found) => {
            drop(found);
            false
        }
    }
}

// Tests whether the filled cells end at cell 20 while it is empty, busy and broken, and one later once it is mended.
fn end_where_not_filled(block: &Block<u64>) -> bool
    requires { 40 ≤ block_len block.now }
{
    fill_cells(block, 0, 20)
        && filled_of(block, 0, 40) == Some(20)
        && filled_while_busy(block) == Some(20)
        && filled_of(block, 0, 40) == Some(20)
        && is_mended(block, 20)
        && filled_of(block, 0, 40) == Some(21)
}

#[test]
fn filled_cells_end_at_an_empty_a_busy_or_a_broken_one(rt: HostRuntime) {
    let block = made(&rt, 40);
    assert!(rt; end_where_not_filled(&block));
}

// Tests whether cells 3 to 62 are lent as filled, or a part of them.
fn are_lent_across_words(block: &Block<u64>) -> bool
    requires { 80 ≤ block_len block.now }
{
    fill_cells(block, 3, 60)
        && filled_of(block, 3, 77) == Some(60)
        && filled_of(block, 3, 60) == Some(60)
        && filled_of(block, 3, 59) == Some(59)
        && filled_of(block, 15, 2) == Some(2)
        && filled_of(block, 16, 16) == Some(16)
        && filled_of(block, 47, 33) == Some(16)
        && filled_of(block, 62, 18) == Some(1)
}

// Tests whether no cell is lent where none is asked for, or the first is not filled.
fn are_lent_nowhere(block: &Block<u64>) -> bool
    requires { 80 ≤ block_len block.now }
{
    filled_of(block, 20, 0) == Some(0)
        && filled_of(block, 80, 0) == Some(0)
        && filled_of(block, 0, 80) == Some(0)
        && filled_of(block, 2, 40) == Some(0)
        && filled_of(block, 63, 17) == Some(0)
}

#[test]
fn filled_cells_are_lent_across_words(rt: HostRuntime) {
    let block = made(&rt, 80);
    assert!(rt; are_lent_across_words(&block));
    assert!(rt; are_lent_nowhere(&block));
}

// Tests whether a cell that is filled between two calls, and ends the first one's cells, joins them to those after it.
fn join_once_filled(block: &Block<u64>) -> bool
    requires { 48 ≤ block_len block.now }
{
    fill_cells(block, 0, 33)
        && fill_cells(block, 34, 14)
        && filled_of(block, 0, 48) == Some(33)
        && is_filled(block, 33, 33)
        && filled_of(block, 0, 48) == Some(48)
}

#[test]
fn a_cell_filled_between_two_calls_is_lent_by_the_second(rt: HostRuntime) {
    let block = made(&rt, 48);
    assert!(rt; join_once_filled(&block));
}

// Looks at the first cells 1000 times, and tests whether those that are lent never become fewer.
fn never_become_fewer(block: &Block<u64>, n: u64) -> bool
    requires { n ≤ block_len block.now }
{
    let mut least = 0;
    for _time in 0..1000 {
        match filled_of(block, 0, n) {
            Some(filled) if filled >= least => least = filled,
            _other => return false,
        }
    }
    true
}

// Fills cells in one thread while another looks at them.
fn are_lent_while_filled<R: Threads + Sync>(rt: &R, block: &Block<u64>, n: u64) -> bool
    requires { n ≤ block_len block.now }
{
    let (are_filled, are_kept) = join(
        rt,
        || -> bool
            requires { n ≤ block_len block.now }
        { fill_cells(block, 0, n) },
        || -> bool
            requires { n ≤ block_len block.now }
        { never_become_fewer(block, n) },
    );
    are_filled && are_kept && filled_of(block, 0, n) == Some(n)
}

#[test]
fn cells_are_lent_while_another_thread_fills_more(rt: HostRuntime) {
    let block = made(&rt, 2000);
    assert!(rt; are_lent_while_filled(&rt, &block, 2000));
}

// Tests whether filled cells end at one that an owner broke.
fn end_where_an_owner_broke(block: &mut Block<u64>) -> bool
    requires { 20 ≤ block_len block.old }
{
    let is_made = fill_cells(block, 0, 20);
    let (_member, held) = block.spoil_now(7, &Epoch::new());
    is_made && held == Some(7) && filled_of(block, 0, 20) == Some(7)
}

#[test]
fn filled_cells_end_at_one_that_an_owner_broke(rt: HostRuntime) {
    let mut block = made(&rt, 20);
    assert!(rt; end_where_an_owner_broke(&mut block));
}

// Tests whether the first two of three cells, which alone are filled, are lent with their values.
fn lends_two<T: Copy + PartialEq>(alloc: Global, a: T, b: T) -> bool {
    match Block::new(alloc, 3) {
        Ok(block) => is_filled(&block, 0, a) && is_filled(&block, 1, b) && shows_two(&block, a, b),
        Err(_no_memory) => false,
    }
}

fn shows_two<T: Copy + PartialEq>(block: &Block<T>, a: T, b: T) -> bool
    requires { 3 ≤ block_len block.now }
{
    let (values, row) = block.filled(0, 3);
    drop(row);
    values.len() == 2 && values[0] == a && values[1] == b
}

#[test]
fn filled_cells_of_each_size_are_lent(rt: HostRuntime) {
    let alloc = rt.alloc();
    assert!(rt; lends_two(alloc, (), ()) && lends_two(alloc, 1u64, 2));
    assert!(rt; lends_two(alloc, [1u8; 3], [2; 3]) && lends_two(alloc, [1u64; 3], [2; 3]));
}

// The value of the last of the first `n` cells that are filled next to each other, by its token.
fn last_value(block: &Block<u64>, n: u64) -> Option<u64>
    requires { n ≤ block_len block.now }
{
    let (count, row) = block.filled_row(0, n);
    if count == 0 {
        drop(row);
        return None;
    }
    let placed = block.token_at(0, &row, count - 1);
    let value = *block.value(&placed);
    drop((placed, row));
    Some(value)
}

#[test]
fn a_row_of_filled_cells_gives_their_tokens(rt: HostRuntime) {
    let block = made(&rt, 40);
    assert!(rt; last_value(&block, 40).is_none());
    assert!(rt; fill_cells(&block, 0, 18) && last_value(&block, 40) == Some(17));
}
