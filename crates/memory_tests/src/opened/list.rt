//! An owner's list in one block. Its cells are fixed at the stages of its members.
ghost use Rattle.std.specs.Prelude.{◌≡◌, ◌+◌, ◌<◌, ◌≤◌, [], length, true, false, get_or, Some, None, IfOk};
ghost use Rattle.cell_core.specs.Block.{block_len};
ghost use Rattle.memory_tests.specs.Opened.{HasMore, IsListIn, values_of};

use cell_core::block::{Block, EndedEpoch, Epoch, Member, Row, Tied};
use claim_core::Marks;
use std::alloc::{AllocError, Global};

// A mark that says which places of a list have values.
pub(super) struct Values;

impl<T> Marks<Row<T>> for Values {
    ghost use Rattle.std.specs.Prelude.{[]};
    ghost use Rattle.memory_tests.specs.Opened.{values_of};

    ghost numbers = { λ _. [] };

    ghost filled = { λ row. values_of row };
}

// Fills the cell of the next place with a value.
pub(super) fn put_next<T: Drop>(
    cells: &mut Block<T, Global, Tied>,
    row: &mut Row<T>,
    epoch: &Epoch,
    offset: u64,
    value: T,
)
    requires list { IsListIn cells.old row.old epoch.now }
    requires next { (length row.old ≡ offset) × (offset < block_len cells.old) }
    ensures list { IsListIn cells.new row.new epoch.now }
    ensures next { length row.new ≡ offset + 1 }
    ensures more { HasMore row.old row.new (Some value) }
    ensures len { block_len cells.new ≡ block_len cells.old }
{
    let (placed, held) = cells.put_now(offset, value);
    drop(held);
    row.push(&Member::of(&placed));
}

// Breaks the cell of the next place.
pub(super) fn break_next<T: Drop>(
    cells: &mut Block<T, Global, Tied>,
    row: &mut Row<T>,
    epoch: &Epoch,
    offset: u64,
)
    requires list { IsListIn cells.old row.old epoch.now }
    requires next { (length row.old ≡ offset) × (offset < block_len cells.old) }
    ensures list { IsListIn cells.new row.new epoch.now }
    ensures next { length row.new ≡ offset + 1 }
    ensures more { HasMore row.old row.new None }
    ensures len { block_len cells.new ≡ block_len cells.old }
{
    let (member, held) = cells.spoil_now(offset, epoch);
    drop(held);
    row.push(&member);
}

// The value of a place.
pub(super) fn value_of(place: u64) -> u64 {
    place.wrapping_mul(10).wrapping_add(5)
}

// Fills and breaks the first n cells by turns.
#[tactic(auto, using(crate::proofs::ListsOpened::first_put, crate::proofs::ListsOpened::first_kept))]
fn fill_by_turns(cells: &mut Block<u64, Global, Tied>, row: &mut Row<u64>, epoch: &Epoch, n: u64)
    requires list { IsListIn cells.old row.old epoch.now }
    requires none { length row.old ≡ 0 }
    requires fits { n ≤ block_len cells.old }
    ensures list { IsListIn cells.new row.new epoch.now }
    ensures all { length row.new ≡ n }
    ensures first { 0 < n → get_or (values_of row.new) 0 false ≡ true }
    ensures len { block_len cells.new ≡ block_len cells.old }
{
    for place in 0..n {
        if place % 2 == 1 {
            break_next(cells, row, epoch, place);
        } else {
            put_next(cells, row, epoch, place, value_of(place));
        }
    }
}

// The cells of a list without members.
pub(super) fn made<T>(
    alloc: Global,
    len: u64,
    epoch: &Epoch,
) -> Result<(Block<T, Global, Tied>, Row<T>), AllocError>
    ensures list { IfOk result (λ (cells, row). IsListIn cells row epoch.now) }
    ensures none { IfOk result (λ (_, row). row ≡ []) }
    ensures len { IfOk result (λ (cells, _). block_len cells ≡ len) }
{
    // For the proof: the contract alone speaks of the epoch.
    let _epoch = epoch;
    let cells = Block::new_idle(alloc, len)?;
    Ok((cells, Row::new()))
}

// A list of n members in a block of `len` cells, and evidence that its epoch has ended.
pub(super) fn made_by_turns(
    alloc: Global,
    len: u64,
    n: u64,
) -> Result<(Block<u64, Global, Tied>, Row<u64>, EndedEpoch), AllocError>
    requires fits { n ≤ len }
    ensures list { IfOk result (λ (cells, row, ended). IsListIn cells row ended) }
    ensures all { IfOk result (λ (_, row, _). length row ≡ n) }
    ensures first { 0 < n → IfOk result (λ (_, row, _).
        get_or (values_of row) 0 false ≡ true) }
    ensures len { IfOk result (λ (cells, _, _). block_len cells ≡ len) }
{
    let epoch = Epoch::new();
    let (mut cells, mut row) = made(alloc, len, &epoch)?;
    fill_by_turns(&mut cells, &mut row, &epoch, n);
    Ok((cells, row, epoch.end()))
}
