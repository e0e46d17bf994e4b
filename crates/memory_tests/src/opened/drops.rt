//! Each value of a list is dropped once, with the table that the list's block was put into.
ghost use Rattle.std.specs.Prelude.{◌≡◌, length, IfOk};
ghost use Rattle.cell_core.specs.Block.{block_len};
ghost use Rattle.claim_core.specs.Hand.{IsHandOf, IsWholeHand};
ghost use Rattle.memory_tests.specs.Opened.{IsListIn, values_of};

use crate::cell::block::{Counted, count};
use crate::opened::list::{Values, break_next, made, put_next};
use crate::opened::seats::{adopt, attach, layout};
use cell_core::block::{Block, EndedEpoch, Epoch, Row, Tied};
use claim_core::{Hand, Mark, Word};
use std::alloc::{AllocError, Global};
use std::sync::atomic::AtomicU64;
use std::test::Fail;
use table_core::Table;

// A list with two values around a broken place.
fn counted<'a>(
    alloc: Global,
    drops: &'a AtomicU64,
) -> Result<
    (
        Block<Counted<'a>, Global, Tied>,
        Row<Counted<'a>>,
        EndedEpoch,
    ),
    AllocError,
>
    ensures list { IfOk result (λ (cells, row, ended). IsListIn cells row ended) }
    ensures all { IfOk result (λ (_, row, _). length row ≡ 3) }
    ensures len { IfOk result (λ (cells, _, _). block_len cells ≡ 32) }
{
    let epoch = Epoch::new();
    let (mut cells, mut row) = made(alloc, 32, &epoch)?;
    put_next(&mut cells, &mut row, &epoch, 0, Counted(drops));
    break_next(&mut cells, &mut row, &epoch, 1);
    put_next(&mut cells, &mut row, &epoch, 2, Counted(drops));
    Ok((cells, row, epoch.end()))
}

// Puts the list's block into a table, which is then dropped.
fn drop_table<'a>(
    word: &Word<Global>,
    hand: &mut Hand,
    alloc: Global,
    mut cells: Box<Block<Counted<'a>, Global, Tied>>,
    row: &Row<Counted<'a>>,
    ended: &EndedEpoch,
    drops: &'a AtomicU64,
) -> u64
    requires list { IsListIn cells.value row.now ended.now }
    requires len { block_len cells.value ≡ 32 }
    requires word { (word.now.base ≡ length row.now) × (word.now.filled ≡ values_of row.now) }
    requires ours { IsHandOf word.now hand.old }
    requires whole { IsWholeHand hand.old }
    requires unlaid { hand.old.laid ≡ 0 }
{
    let (cell, seat, _tag) = adopt(word, hand, &mut cells, row, ended);
    let mut table = Table::new_for(alloc, layout());
    let key = attach(&mut table, cells, seat, &cell);
    let before = count(drops);
    drop(key);
    drop(table);
    before
}

#[test]
fn each_value_of_an_opened_list_is_dropped_once(rt: HostRuntime) -> Result<(), Fail> {
    let drops = AtomicU64::new(0);
    let (cells, row, ended) = counted(rt.alloc(), &drops)?;
    let mark = Mark::of::<Row<Counted<'_>>, Values>(&row);
    let (word, mut hand) = Word::open_marked(rt.alloc(), 8, 3, mark)?;
    let cells = Box::new(rt.alloc(), cells)?;
    let before = drop_table(&word, &mut hand, rt.alloc(), cells, &row, &ended, &drops);
    assert!(rt; before == 0 && count(&drops) == 2);
    Ok(())
}
