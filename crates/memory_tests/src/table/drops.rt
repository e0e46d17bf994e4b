// What becomes of the values in the blocks of a table.
ghost use Rattle.std.specs.Prelude.{◌≡◌};
ghost use Rattle.table_core.specs.Table.{IsKeyIn};

use super::{key_of, takes};
use std::sync::atomic::{AtomicU64, Ordering};
use table_core::{Key, Table};

pub(super) struct Counted<'a>(pub &'a AtomicU64);

impl Drop for Counted<'_> {
    fn drop(self) {
        let Counted(drops) = self;
        drops.fetch_add(1, Ordering::SeqCst);
    }
}

pub(super) fn drops_so_far(drops: &AtomicU64) -> u64 {
    drops.load(Ordering::SeqCst)
}

fn fills_four<'a>(table: &Table<Counted<'a>>, drops: &'a AtomicU64) -> bool {
    for k in 0..4u32 {
        if !takes(table, k, 1, Counted(drops)) {
            return false;
        }
    }
    true
}

fn drops_what_is_given_up(table: &mut Table<Counted<'_>>, drops: &AtomicU64) -> bool {
    // For the proof: the segments are those of a layout.
    let _layout = table.layout();
    table.give_up(2);
    let is_dropped = drops_so_far(drops) == 1;
    table.give_up(2);
    is_dropped && table.block_mut(1).is_some() && drops_so_far(drops) == 1
}

fn keeps_what_is_detached(table: &mut Table<Counted<'_>>, drops: &AtomicU64, key: &Key) -> bool
    requires key { IsKeyIn table.old key.now }
    requires fourth { key.now.segment ≡ 3 }
{
    let block = table.detach(key);
    let is_kept = drops_so_far(drops) == 1;
    drop(table.attach(3, block));
    is_kept && drops_so_far(drops) == 1
}

fn keeps_the_fourth(table: &mut Table<Counted<'_>>, drops: &AtomicU64) -> bool {
    match key_of(table, 3) {
        Some(key) => keeps_what_is_detached(table, drops, &key),
        None => false,
    }
}

// The table is dropped at the end.
fn drops_one_so_far<'a>(mut table: Table<Counted<'a>>, drops: &'a AtomicU64) -> bool {
    fills_four(&table, drops)
        && drops_what_is_given_up(&mut table, drops)
        && keeps_the_fourth(&mut table, drops)
}

#[test]
fn each_block_is_dropped_once(rt: HostRuntime) {
    let drops = AtomicU64::new(0);
    assert!(rt; drops_one_so_far(Table::new(rt.alloc()), &drops) && drops_so_far(&drops) == 4);
}
