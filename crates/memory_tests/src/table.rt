ghost use Rattle.std.specs.Prelude.{◌≡◌, ◌<◌, IfSome};
ghost use Rattle.table_core.specs.Table.{IsKeyIn};

use cell_core::block::{Block, Look};
use seg_core::Layout;
use std::alloc::Global;
use table_core::{Key, Table};

mod drops;
mod owner;
mod race;

// Fills the cell at an offset, unless another came first.
fn fill<T: Drop>(block: &Block<T>, offset: u64, value: T) -> bool {
    if offset >= block.len() {
        return false;
    }
    match block.begin(offset) {
        Ok(pen) => {
            drop(pen.fill(value));
            true
        }
        Err(found) => {
            drop(found);
            false
        }
    }
}

// Tests whether the cell at an offset shows the value.
fn shows(block: &Block<u64>, offset: u64, value: u64) -> bool {
    offset < block.len() && matches!(block.look(offset), Look::Filled(there, _) if *there == value)
}

// The length of an entry's block, which is installed if it is not there.
fn len_of(table: &Table<u64>, k: u32) -> Option<u64>
    requires { k < 33 }
{
    // For the proof: the segments are those of a layout.
    let _layout = table.layout();
    match table.install(k) {
        Ok(block) => Some(block.len()),
        Err(_no_memory) => None,
    }
}

// Tests whether an entry's block takes the value at an offset, if there is memory for it.
fn takes<T: Drop>(table: &Table<T>, k: u32, offset: u64, value: T) -> bool
    requires { k < 33 }
{
    // For the proof: the segments are those of a layout.
    let _layout = table.layout();
    match table.install(k) {
        Ok(block) => fill(block, offset, value),
        Err(_no_memory) => false,
    }
}

// Tests whether an entry's block shows the value at an offset, to a caller that would install it.
fn has(table: &Table<u64>, k: u32, offset: u64, value: u64) -> bool
    requires { k < 33 }
{
    // For the proof: the segments are those of a layout.
    let _layout = table.layout();
    match table.install(k) {
        Ok(block) => shows(block, offset, value),
        Err(_no_memory) => false,
    }
}

// Tests whether a caller that installs nothing is shown it.
fn is_seen(table: &Table<u64>, k: u32, offset: u64, value: u64) -> bool
    requires { k < 33 }
{
    // For the proof: the segments are those of a layout.
    let _layout = table.layout();
    match table.scout(k) {
        Some(block) => shows(block, offset, value),
        None => false,
    }
}

// A key of an entry, whose block is installed if it is not there.
fn key_of<T: Drop>(table: &Table<T>, k: u32) -> Option<Key>
    requires { k < 33 }
    ensures of { IfSome result (λ key. IsKeyIn table.now key) }
    ensures entry { IfSome result (λ key. key.segment ≡ k) }
{
    // For the proof: the segments are those of a layout.
    let _layout = table.layout();
    match table.install_key(k) {
        Ok((_block, key)) => Some(key),
        Err(_no_memory) => None,
    }
}

fn is_set_once(table: &Table<u64>) -> bool {
    // For the proof: the segments are those of a layout.
    let _layout = table.layout();
    table.installed() == 0
        && table.scout(3).is_none()
        && len_of(table, 3) == Some(8)
        && takes(table, 3, 7, 5)
        && has(table, 3, 7, 5)
        && is_seen(table, 3, 7, 5)
        && table.scout(2).is_none()
}

#[test]
fn an_entry_is_set_once(rt: HostRuntime) {
    let table = Table::new(rt.alloc());
    assert!(rt;
        is_set_once(&table)
            && len_of(&table, 0) == Some(2)
            && len_of(&table, 1) == Some(2)
            && table.installed() == 3
    );
}

// Tests whether two keys of one entry are of one block.
fn is_one_block(table: &Table<u64>, a: &Key, b: &Key) -> bool
    requires first { IsKeyIn table.now a.now }
    requires second { IsKeyIn table.now b.now }
{
    table.agree(a, b);
    (a.segment(), b.segment()) == (2, 2)
        && shows(table.known(a), 0, 6)
        && shows(table.known(b), 0, 6)
}

// Tests whether a caller that looks has the block of this key, and a key of its own that is as good.
fn has_another_key(table: &Table<u64>, key: &Key) -> bool
    requires { IsKeyIn table.now key.now }
{
    // For the proof: the segments are those of a layout.
    let _layout = table.layout();
    match table.scout_key(2) {
        Some((block, other)) => shows(block, 0, 6) && is_one_block(table, key, &other.again()),
        None => false,
    }
}

fn has_keys_of_one_block(table: &Table<u64>) -> bool {
    // For the proof: the segments are those of a layout.
    let _layout = table.layout();
    match table.install_key(2) {
        Ok((block, key)) => fill(block, 0, 6) && has_another_key(table, &key),
        Err(_no_memory) => false,
    }
}

#[test]
fn keys_of_one_entry_have_one_block(rt: HostRuntime) {
    let table = Table::new(rt.alloc());
    assert!(rt; table.scout_key(2).is_none() && has_keys_of_one_block(&table));
}

// Tests whether an entry's block is there, at the second try if need be. A refused try leaves this many
// entries.
fn is_there_at_last(table: &Table<u64>, k: u32, installed: u32) -> bool
    requires { k < 33 }
{
    // For the proof: the segments are those of a layout.
    let _layout = table.layout();
    len_of(table, k).is_some() || table.installed() == installed && len_of(table, k).is_some()
}

fn has_a_key_at_last(table: &Table<u64>, k: u32, installed: u32) -> bool
    requires { k < 33 }
{
    // For the proof: the segments are those of a layout.
    let _layout = table.layout();
    table.install_key(k).is_ok() || table.installed() == installed && table.install_key(k).is_ok()
}

// It passes too if any one allocation is made to fail.
#[test]
fn a_refused_install_sets_nothing(rt: HostRuntime) {
    let table = Table::new(rt.alloc());
    assert!(rt;
        is_there_at_last(&table, 4, 0) && has_a_key_at_last(&table, 5, 1) && table.installed() == 2
    );
}

// Each is counted once, and a block of four million cells among them.
fn counts_entries(table: &Table<u64>) -> bool {
    for k in 0..23u32 {
        let last = len_of(table, k).unwrap_or(0).wrapping_sub(1);
        if !takes(table, k, last, u64::from(k)) || table.installed() != k.wrapping_add(1) {
            return false;
        }
    }
    true
}

// Tests whether the value is there by the key.
fn has_by_key(table: &Table<u64>, k: u32, offset: u64, value: u64) -> bool
    requires { k < 33 }
{
    // For the proof: the segments are those of a layout.
    let _layout = table.layout();
    match table.install_key(k) {
        Ok((block, key)) => {
            drop(key);
            shows(block, offset, value)
        }
        Err(_no_memory) => false,
    }
}

// It would take hours if a block were made each time.
fn has_a_million_times(table: &Table<u64>) -> bool {
    // For the proof: the segments are those of a layout.
    let _layout = table.layout();
    for _again in 0..1_000_000u32 {
        if !has_by_key(table, 22, (1 << 22) - 1, 22) {
            return false;
        }
    }
    table.scout(31).is_none()
}

fn gives_the_last_up(table: &mut Table<u64>) -> bool {
    // For the proof: the segments are those of a layout.
    let _layout = table.layout();
    table.give_up(31);
    table.give_up(22);
    table.installed() == 22
}

#[test]
fn large_entries_are_counted_and_given_up(rt: HostRuntime) {
    let mut table = Table::new(rt.alloc());
    assert!(rt;
        counts_entries(&table) && has_a_million_times(&table) && gives_the_last_up(&mut table)
    );
}

// Tests whether these two entries are counted, without any below them, and one of them once the other is
// given up. Cells without a value take a word each.
fn counts_two(table: &mut Table<()>, a: u32, b: u32) -> bool
    requires first { a < 33 }
    requires second { b < 33 }
{
    // For the proof: the segments are those of a layout.
    let _layout = table.layout();
    if !takes(table, a, 0, ()) || table.installed() != 1 {
        return false;
    }
    if !takes(table, b, 0, ()) || table.installed() != 2 {
        return false;
    }
    table.give_up(a);
    table.installed() == 1
}

#[test]
fn entries_23_and_24_are_counted_alone(rt: HostRuntime) {
    let mut table = Table::new(rt.alloc());
    assert!(rt; counts_two(&mut table, 23, 24));
}

// Tests whether the first segments of this layout are as long as they should be, and the last is not there.
fn has_segments_of(alloc: Global, f: u32) -> bool {
    let Some(layout) = Layout::new(f) else {
        return false;
    };
    let table: Table<u64> = Table::new_in(alloc, layout);
    let lens = (len_of(&table, 0), len_of(&table, 1), len_of(&table, 2));
    let first = 1 << f.min(8);
    lens == (Some(first), Some(first), Some(2 * first)) && table.installed() == 3
}

#[test]
fn segments_follow_from_the_first(rt: HostRuntime) {
    assert!(rt; (1..9u32).all(|f: u32| -> bool { has_segments_of(rt.alloc(), f) }));
}
