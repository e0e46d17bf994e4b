// An exclusive owner of a table: blocks that are lent, given up, detached and attached.
ghost use Rattle.std.specs.Prelude.{◌≡◌, ◌<◌, Some};
ghost use Rattle.cell_core.specs.Block.{block_len};
ghost use Rattle.seg_core.specs.Segment.{segment_count};
ghost use Rattle.table_core.specs.Table.{IsKeyIn};

use super::{has, key_of, len_of, shows, takes};
use crate::is_some;
use cell_core::block::Block;
use std::test::Fail;
use table_core::{Key, Table};

// Tests whether an entry's block is lent, and shows the value at its first place.
fn lends(table: &mut Table<u64>, k: u32, value: u64) -> bool
    requires { k < 33 }
{
    // For the proof: the segments are those of a layout.
    let _layout = table.layout();
    match table.block_mut(k) {
        Some(block) => shows(block, 0, value),
        None => false,
    }
}

fn lends_two(table: &mut Table<u64>) -> bool {
    // For the proof: the segments are those of a layout.
    let _layout = table.layout();
    table.block_mut(1).is_none()
        && takes(table, 1, 0, 7)
        && takes(table, 2, 0, 8)
        && lends(table, 1, 7)
        && lends(table, 2, 8)
        && lends(table, 1, 7)
        && lends(table, 2, 8)
}

fn has_two(table: &mut Table<u64>) -> bool {
    table.put_back();
    table.installed() == 2 && has(table, 2, 0, 8)
}

fn gives_one_up(table: &mut Table<u64>) -> bool {
    // For the proof: the segments are those of a layout.
    let _layout = table.layout();
    table.give_up(2);
    table.scout(2).is_none() && has(table, 1, 0, 7)
}

#[test]
fn an_exclusive_owner_has_the_blocks(rt: HostRuntime) {
    let mut table = Table::new(rt.alloc());
    assert!(rt; lends_two(&mut table) && has_two(&mut table) && gives_one_up(&mut table));
}

// Puts another block into an entry whose block was lent, and returns whether one was.
fn puts_another(table: &mut Table<u64>, other: Block<u64>) -> bool {
    // For the proof: the segments are those of a layout.
    let _layout = table.layout();
    match table.block_mut(1) {
        Some(block) => {
            *block = other;
            true
        }
        None => false,
    }
}

fn is_not_put_back(table: &mut Table<u64>, other: Block<u64>) -> bool {
    len_of(table, 1) == Some(2)
        && puts_another(table, other)
        && !is_lent(table)
        && table.installed() == 0
}

#[test]
fn a_block_of_another_length_is_not_put_back(rt: HostRuntime) -> Result<(), Fail> {
    let other = Block::new(rt.alloc(), 3)?;
    let mut table = Table::new(rt.alloc());
    assert!(rt; is_not_put_back(&mut table, other));
    Ok(())
}

fn is_lent(table: &mut Table<u64>) -> bool {
    // For the proof: the segments are those of a layout.
    let _layout = table.layout();
    table.block_mut(1).is_some()
}

// Tests whether an entry whose block was lent has none once it is given up.
fn gives_it_up(table: &mut Table<u64>) -> bool {
    // For the proof: the segments are those of a layout.
    let _layout = table.layout();
    table.give_up(1);
    table.put_back();
    table.scout(1).is_none() && !is_lent(table)
}

fn gives_up_what_was_lent(table: &mut Table<u64>) -> bool {
    len_of(table, 1) == Some(2) && is_lent(table) && gives_it_up(table)
}

#[test]
fn a_block_that_was_lent_is_given_up(rt: HostRuntime) {
    let mut table = Table::new(rt.alloc());
    assert!(rt; gives_up_what_was_lent(&mut table));
}

// Puts a value into a cell of a block that is owned, if there is such a cell.
fn put(block: &mut Block<u64>, offset: u64, value: u64)
    ensures { block_len block.new ≡ block_len block.old }
{
    if offset < block.len() {
        drop(block.put_now(offset, value));
    }
}

// Returns whether an owner gets the key of an entry, and then its block.
fn is_held(table: &mut Table<u64>, key: &Key, k: u32) -> bool
    requires key { IsKeyIn table.old key.now }
    requires entry { key.now.segment ≡ k }
{
    // For the proof: the segments are those of a layout.
    let _layout = table.layout();
    let Some(now) = table.key_now(k) else {
        return false;
    };
    table.agree(key, &now);
    let is_one = shows(table.known(&now), 1, 7) && table.scout(k).is_some();
    table.holds_now(&now);
    is_one && shows(lent(table, k), 1, 7)
}

// Returns the block of an entry that is known to be set.
fn lent(table: &mut Table<u64>, k: u32) -> &Block<u64>
    requires within { k < segment_count table.old.layout }
    requires held { table.old.held ≡ Some k }
{
    match table.block_mut(k) {
        Some(block) => &*block,
        None => unreachable!(),
    }
}

fn holds_one(table: &mut Table<u64>) -> bool {
    // For the proof: the segments are those of a layout.
    let _layout = table.layout();
    match key_of(table, 2) {
        Some(key) => is_held(table, &key, 2),
        None => false,
    }
}

// Returns whether the owner gets a key of the entry.
fn has_key_now(table: &mut Table<u64>, k: u32) -> bool
    requires { k < 33 }
{
    // For the proof: the segments are those of a layout.
    let _layout = table.layout();
    is_some(table.key_now(k))
}

#[test]
fn an_owner_has_the_key_of_an_entry_that_is_set(rt: HostRuntime) {
    let mut table = Table::new(rt.alloc());
    assert!(rt; !has_key_now(&mut table, 2) && takes(&table, 2, 1, 7) && holds_one(&mut table));
    assert!(rt; has_key_now(&mut table, 2) && !has_key_now(&mut table, 3));
}

// Takes the block of a key out, and attaches it again with an added value. The other key is of an entry that
// keeps its block.
fn is_attached_again(table: &mut Table<u64>, key: &Key, other: &Key) -> bool
    requires key { IsKeyIn table.old key.now }
    requires other { IsKeyIn table.old other.now }
    requires third { key.now.segment ≡ 2 }
    requires first { other.now.segment ≡ 0 }
{
    let mut block = table.detach(key);
    let is_out = table.scout(2).is_none() && table.installed() == 1;
    put(&mut block, 3, 9);
    let again = table.attach(2, block);
    is_out
        && again.segment() == 2
        && shows(table.known(&again), 1, 7)
        && shows(table.known(&again), 3, 9)
        && shows(table.known(other), 1, 6)
}

fn attaches_again(table: &mut Table<u64>) -> bool {
    match (key_of(table, 2), key_of(table, 0)) {
        (Some(key), Some(other)) => is_attached_again(table, &key, &other),
        _ => false,
    }
}

// Tests whether the block of a key comes back in the place of one that was installed meanwhile.
fn comes_back(table: &mut Table<u64>, key: &Key) -> bool
    requires key { IsKeyIn table.old key.now }
    requires third { key.now.segment ≡ 2 }
{
    let block = table.detach(key);
    let is_new = len_of(table, 2) == Some(4) && !has(table, 2, 3, 9);
    let again = table.attach(2, block);
    let is_back = is_new && shows(table.known(&again), 3, 9) && table.installed() == 2;
    drop(again);
    is_back
}

fn attaches_for_another(table: &mut Table<u64>) -> bool {
    match key_of(table, 2) {
        Some(key) => comes_back(table, &key),
        None => false,
    }
}

#[test]
fn a_detached_block_is_attached_again(rt: HostRuntime) {
    let mut table = Table::new(rt.alloc());
    assert!(rt;
        takes(&table, 2, 1, 7)
            && takes(&table, 0, 1, 6)
            && attaches_again(&mut table)
            && has(&table, 2, 3, 9)
            && attaches_for_another(&mut table)
    );
}
