// Plain cells in a block whose cells may be tied: steps on them are those of a plain block, and need no offer.
ghost use Rattle.std.specs.Prelude.{◌≡◌, ◌<◌, ◌≤◌};
ghost use Rattle.cell_core.specs.Block.{block_len};
ghost use Rattle.cell_core.specs.Slot.{ArePlain};

use crate::cell::block::number;
use cell_core::block::{Block, Epoch, Look, Tied};
use std::alloc::{AllocGlobal, Global};
use std::process::Abort;

// A block of empty plain cells.
fn made_plain<R: AllocGlobal + Abort>(rt: &R, n: u64) -> Block<u64, Global, Tied>
    ensures len { block_len result ≡ n }
    ensures plain { ArePlain result.cells }
{
    match Block::new_plain(rt.alloc(), n) {
        Ok(block) => block,
        Err(error) => panic!(rt; "{error}"),
    }
}

// Mends the cell with the value, if it is broken.
fn is_mended(block: &Block<u64, Global, Tied>, offset: u64, value: u64) -> bool
    requires within { offset < block_len block.now }
    requires plain { ArePlain block.now.cells }
{
    block.plain_laws();
    match block.mend_plain(offset) {
        Ok(pen) => {
            drop(pen.fill(value));
            true
        }
        Err(_found) => false,
    }
}

// Tests whether an empty cell is begun and broken, and then mended, and no other cell is changed.
fn is_broken_and_mended(block: &Block<u64, Global, Tied>) -> bool
    requires within { 17 < block_len block.now }
    requires plain { ArePlain block.now.cells }
{
    block.plain_laws();
    number(block.mend_plain(17)) == 0
        && number(block.begin_plain(17)) == 5
        && number(block.begin_plain(17)) == 3
        && is_mended(block, 17, 7)
        && number(block.begin_plain(17)) == 2
        && matches!(block.look_alone(17), Look::Filled(7, _))
        && matches!(block.look_alone(16), Look::Empty)
}

// Fills three cells as a run, and returns how many of four are filled then.
fn fill_three(block: &Block<u64, Global, Tied>, offset: u64) -> Option<u64>
    requires within { offset < 8 }
    requires long { 16 ≤ block_len block.now }
    requires plain { ArePlain block.now.cells }
{
    block.plain_laws();
    let pen = block.begin_run_plain(offset, 3)?;
    drop(pen.write(5).write(6).write(7).publish());
    Some(block.filled_run(offset, 4).0)
}

#[test]
fn a_plain_cell_is_begun_and_mended_in_a_block_of_tied_cells(rt: HostRuntime) {
    let block = made_plain(&rt, 18);
    assert!(rt; block.len() == 18 && is_broken_and_mended(&block));
}

#[test]
fn a_plain_run_is_published_in_a_block_of_tied_cells(rt: HostRuntime) {
    let block = made_plain(&rt, 16);
    assert!(rt; fill_three(&block, 4) == Some(3) && fill_three(&block, 5).is_none());
}

// Tests whether a cell that an owner filled is found filled, and one that it broke is mended after the epoch: both are
// still plain.
fn are_plain_to_an_owner(block: &mut Block<u64, Global, Tied>) -> bool
    requires within { 3 < block_len block.old }
    requires plain { ArePlain block.old.cells }
{
    block.plain_laws();
    let epoch = Epoch::new();
    drop(block.put_now(2, 9));
    let found = number(block.begin_plain(2));
    let (broken, held) = block.spoil_now(3, &epoch);
    drop(held);
    let ended = epoch.end();
    let mended = number(block.mend_member_plain(3, &broken, &ended));
    found == 2 && mended == 5
}

#[test]
fn an_owner_leaves_plain_cells_plain(rt: HostRuntime) {
    let mut block = made_plain(&rt, 4);
    assert!(rt; are_plain_to_an_owner(&mut block));
}
