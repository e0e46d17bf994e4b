// Two threads begin one cell.
ghost use Rattle.std.specs.Prelude.{◌≡◌, ◌<◌, IfSome};
ghost use Rattle.cell_core.specs.Block.{block_len, IsPlacedIn};

use crate::cell::block::{fill, made};
use cell_core::block::{Block, Placed};
use std::thread::{Threads, join};

// Two threads fill the cell: the tokens that they get know one value.
fn fill_by_two<R: Threads + Sync>(
    rt: &R,
    block: &Block<u64>,
    offset: u64,
) -> (Option<Placed<u64>>, Option<Placed<u64>>)
    requires { offset < block_len block.now }
    ensures first { IfSome result.0 (λ a. IsPlacedIn block.now a × (a.value ≡ 5)) }
    ensures second { IfSome result.1 (λ b. IsPlacedIn block.now b × (b.value ≡ 6)) }
{
    join(
        rt,
        || -> Option<Placed<u64>>
            requires { offset < block_len block.now }
            ensures { IfSome result (λ a. IsPlacedIn block.entry.now a × (a.value ≡ 5)) }
        { fill(block, offset, 5) },
        || -> Option<Placed<u64>>
            requires { offset < block_len block.now }
            ensures { IfSome result (λ b. IsPlacedIn block.entry.now b × (b.value ≡ 6)) }
        { fill(block, offset, 6) },
    )
}

// Tests whether one of two threads fills the cell, and its token has its value.
fn is_begun_by_one<R: Threads + Sync>(rt: &R, block: &Block<u64>, offset: u64) -> bool
    requires { offset < block_len block.now }
{
    let (first, second) = fill_by_two(rt, block, offset);
    let is_begun = match (&first, &second) {
        (Some(a), None) => *block.value(a) == 5,
        (None, Some(b)) => *block.value(b) == 6,
        _other => false,
    };
    drop((first, second));
    is_begun
}

#[test]
fn one_of_two_threads_begins_a_cell(rt: HostRuntime) {
    let block = made(&rt, 1000);
    for offset in 0..1000 {
        assert!(rt; is_begun_by_one(&rt, &block, offset));
    }
}
