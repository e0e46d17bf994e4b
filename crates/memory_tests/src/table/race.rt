// Two threads at one table.
ghost use Rattle.table_core.specs.Table.{IsKeyIn};

use crate::table::drops::{Counted, drops_so_far};
use crate::table::{fill, key_of, shows, takes};
use std::alloc::{AllocError, Global};
use std::sync::atomic::{AtomicU64, Ordering};
use std::test::Fail;
use std::thread::{Threads, join};
use table_core::{Key, Table};

const TABLES: u64 = 10_000;

// Looks at most this often whether the other thread came.
const LOOKS: u64 = 1_000_000;

// Waits for the other thread, so that both go on together.
fn meet(mine: &AtomicU64, other: &AtomicU64, turn: u64) {
    mine.store(turn, Ordering::SeqCst);
    for _look in 0..LOOKS {
        if other.load(Ordering::SeqCst) >= turn {
            break;
        }
        std::hint::spin_loop();
    }
}

// Installs the first entry of each table, and returns how often it was the first to fill a cell of its block.
fn install_each<'a>(
    tables: &[Table<Counted<'a>>],
    drops: &'a AtomicU64,
    mine: &AtomicU64,
    other: &AtomicU64,
) -> Result<u64, AllocError> {
    let mut won: u64 = 0;
    let mut turn: u64 = 0;
    for table in tables {
        turn = turn.wrapping_add(1);
        meet(mine, other, turn);
        // For the proof: the segments are those of a layout.
        let _layout = table.layout();
        let block = table.install(0)?;
        if fill(block, 0, Counted(drops)) {
            won = won.wrapping_add(1);
        }
    }
    Ok(won)
}

// The same; the other thread does not wait for one that has ended.
fn install_all<'a>(
    tables: &[Table<Counted<'a>>],
    drops: &'a AtomicU64,
    mine: &AtomicU64,
    other: &AtomicU64,
) -> Result<u64, AllocError> {
    let won = install_each(tables, drops, mine, other);
    mine.store(u64::MAX, Ordering::SeqCst);
    won
}

fn new_tables<'a>(alloc: Global) -> Result<Vec<Table<Counted<'a>>>, AllocError> {
    let mut tables = Vec::with_capacity(alloc, TABLES as usize)?;
    for _table in 0..TABLES {
        tables.push(Table::new(alloc))?;
    }
    Ok(tables)
}

// How often a thread of two was the first to fill a cell.
fn install_from_two<'a, R: Threads>(
    rt: &R,
    tables: &[Table<Counted<'a>>],
    drops: &'a AtomicU64,
) -> Option<u64> {
    let (first, second) = (AtomicU64::new(0), AtomicU64::new(0));
    let (a, b) = join(
        rt,
        || install_all(tables, drops, &first, &second),
        || install_all(tables, drops, &second, &first),
    );
    Some(a.ok()?.wrapping_add(b.ok()?))
}

// The tables are dropped at the end.
fn have_one_block_each<'a, R: Threads>(
    rt: &R,
    tables: Vec<Table<Counted<'a>>>,
    drops: &'a AtomicU64,
) -> bool {
    install_from_two(rt, tables.as_slice(), drops) == Some(TABLES) && drops_so_far(drops) == TABLES
}

#[test]
fn two_threads_install_one_block(rt: HostRuntime) -> Result<(), Fail> {
    let drops = AtomicU64::new(0);
    let tables = new_tables(rt.alloc())?;
    assert!(rt; have_one_block_each(&rt, tables, &drops));
    assert_eq!(rt; drops_so_far(&drops), 2 * TABLES);
    Ok(())
}

fn sees(table: &Table<u64>, key: &Key) -> bool
    requires { IsKeyIn table.now key.now }
{
    shows(table.known(key), 0, 9)
}

// Tests whether two threads have the block, one by the key and one by a key like it.
fn is_seen_by_two<R: Threads>(rt: &R, table: &Table<u64>, key: &Key) -> bool
    requires { IsKeyIn table.now key.now }
{
    let other = key.again();
    let (a, b) = join(
        rt,
        || -> bool
            requires { IsKeyIn table.now key.now }
        { sees(table, key) },
        || -> bool
            requires { IsKeyIn table.now other }
        { sees(table, &other) },
    );
    a && b
}

fn has_a_key_for_two<R: Threads>(rt: &R, table: &Table<u64>) -> bool {
    match key_of(table, 2) {
        Some(key) => is_seen_by_two(rt, table, &key),
        None => false,
    }
}

#[test]
fn keys_are_used_in_another_thread(rt: HostRuntime) {
    let table = Table::new(rt.alloc());
    assert!(rt; takes(&table, 2, 0, 9) && has_a_key_for_two(&rt, &table));
}
