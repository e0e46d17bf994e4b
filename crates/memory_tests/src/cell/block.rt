ghost use Rattle.std.specs.Prelude.{◌≡◌, ◌<◌, IfSome};
ghost use Rattle.cell_core.specs.Block.{block_len, IsPlacedIn, KeepsOtherCells};

use crate::is_some;
use cell_core::block::{Block, Found, Look, Pen, Placed, Spoilt};
use std::alloc::{AllocError, AllocGlobal, Global};
use std::process::Abort;
use std::sync::atomic::{AtomicU64, Ordering};

// A block of empty cells.
pub(crate) fn made<T, R: AllocGlobal + Abort>(rt: &R, n: u64) -> Block<T>
    ensures { block_len result ≡ n }
{
    match Block::new(rt.alloc(), n) {
        Ok(block) => block,
        Err(error) => panic!(rt; "{error}"),
    }
}

// Fills the cell, unless another call began it.
pub(crate) fn fill<T: Drop>(block: &Block<T>, offset: u64, value: T) -> Option<Placed<T>>
    requires { offset < block_len block.now }
    ensures token { IfSome result (IsPlacedIn block.now) }
    ensures offset { IfSome result (λ placed. placed.offset ≡ offset) }
    ensures value { IfSome result (λ placed. placed.value ≡ value) }
{
    Some(block.begin(offset).ok()?.fill(value))
}

// A number for what a call got or found: 5 is a pen, which breaks the cell.
pub(crate) fn number<T>(tried: Result<Pen<'_, T>, Found<T>>) -> u64 {
    match tried {
        Ok(pen) => {
            drop(pen.spoil());
            5
        }
        Err(found) => {
            let number = number_found(&found);
            drop(found);
            number
        }
    }
}

fn number_found<T>(found: &Found<T>) -> u64 {
    match found {
        Found::Empty => 0,
        Found::Busy(_) => 1,
        Found::Filled(_) => 2,
        Found::Broken(_) => 3,
    }
}

pub(crate) fn is_empty<T>(block: &Block<T>, offset: u64) -> bool
    requires { offset < block_len block.now }
{
    matches!(block.look(offset), Look::Empty)
}

pub(crate) fn is_broken<T>(block: &Block<T>, offset: u64) -> bool
    requires { offset < block_len block.now }
{
    matches!(block.look(offset), Look::Broken(_))
}

// Tests whether a value goes into the cell.
pub(crate) fn is_filled<T: Drop>(block: &Block<T>, offset: u64, value: T) -> bool
    requires { offset < block_len block.now }
{
    is_some(fill(block, offset, value))
}

// The offset of the token that a lost begin gives, if another call is at the cell.
fn busy_place<T>(block: &Block<T>, offset: u64) -> Option<u64>
    requires { offset < block_len block.now }
{
    match block.begin(offset) {
        Ok(pen) => {
            drop(pen.spoil());
            None
        }
        Err(found) => {
            let place = match &found {
                Found::Busy(begun) => Some(begun.offset()),
                _ => None,
            };
            drop(found);
            place
        }
    }
}

// The value that a look shows and the offset of its token, which agrees with the token of the fill.
fn seen(block: &Block<u64>, placed: &Placed<u64>) -> Option<(u64, u64)>
    requires { IsPlacedIn block.now placed.now × (2 < block_len block.now) }
{
    let look = block.look(2);
    let seen = match &look {
        Look::Filled(value, again) => {
            block.agree(placed, again);
            Some((**value, again.offset()))
        }
        _ => None,
    };
    drop(look);
    seen
}

// What a look and a second begin find at a filled cell.
fn stays_filled(block: &Block<u64>, placed: &Placed<u64>) -> bool
    requires { IsPlacedIn block.now placed.now × (2 < block_len block.now) }
{
    placed.offset() == 2
        && *block.value(placed) == 5
        && number(block.begin(2)) == 2
        && seen(block, placed) == Some((5, 2))
        && !is_filled(block, 2, 6)
        && *block.value(&placed.again()) == 5
}

fn is_filled_once(block: &Block<u64>) -> bool
    requires { 2 < block_len block.now }
{
    is_empty(block, 2)
        && match fill(block, 2, 5) {
            Some(placed) => stays_filled(block, &placed),
            None => false,
        }
        && is_empty(block, 1)
}

#[test]
fn a_cell_is_filled_once(rt: HostRuntime) {
    let block = made(&rt, 4);
    assert!(rt; block.len() == 4 && is_filled_once(&block));
}

// Tests whether the cell is busy until its pen is spent.
fn is_busy_until_filled(block: &Block<u64>) -> bool
    requires { 1 < block_len block.now }
{
    let Some(pen) = block.begin(1).ok() else {
        return false;
    };
    let is_busy = matches!(block.look(1), Look::Busy);
    let found = busy_place(block, 1);
    let placed = pen.fill(7);
    let value = *block.value(&placed);
    drop(placed);
    is_busy && found == Some(1) && value == 7
}

#[test]
fn a_cell_is_busy_while_its_pen_is_out(rt: HostRuntime) {
    let block = made(&rt, 3);
    assert!(rt; is_busy_until_filled(&block));
}

// The places of the token of a cell that is broken now, and of the token's duplicate.
fn broken_offsets(block: &Block<u64>, offset: u64) -> Option<(u64, u64)>
    requires { offset < block_len block.now }
{
    let spoilt = block.begin(offset).ok()?.spoil();
    let again = spoilt.again();
    let places = (spoilt.offset(), again.offset());
    drop((spoilt, again));
    Some(places)
}

fn stays_broken(block: &Block<u64>) -> bool
    requires { 1 < block_len block.now }
{
    broken_offsets(block, 1) == Some((1, 1))
        && !is_filled(block, 1, 6)
        && number(block.begin(1)) == 3
        && is_broken(block, 1)
}

#[test]
fn a_broken_cell_is_not_begun(rt: HostRuntime) {
    let block = made(&rt, 3);
    assert!(rt; stays_broken(&block));
}

// Tests whether the first cell is filled, and its value is taken.
fn gives_up(block: &mut Block<u64>, value: u64) -> bool
    requires { 0 < block_len block.old }
    ensures len { block_len block.new ≡ block_len block.old }
    ensures others { KeepsOtherCells block.old block.new 0 }
{
    is_filled(block, 0, value) && block.take(0) == Some(value)
}

// Tests whether nothing is taken of the first cell, which is empty then.
fn gives_up_nothing(block: &mut Block<u64>) -> bool
    requires { 0 < block_len block.old }
    ensures len { block_len block.new ≡ block_len block.old }
    ensures others { KeepsOtherCells block.old block.new 0 }
{
    block.take(0).is_none() && is_empty(block, 0)
}

// Tests whether the first cell is empty each time that it was taken.
fn is_empty_once_taken(block: &mut Block<u64>) -> bool
    requires { 0 < block_len block.old }
    ensures len { block_len block.new ≡ block_len block.old }
    ensures others { KeepsOtherCells block.old block.new 0 }
{
    block.take(0).is_none()
        && gives_up(block, 5)
        && is_empty(block, 0)
        && gives_up(block, 6)
        && number(block.begin(0)) == 5
        && gives_up_nothing(block)
}

// The same, while another cell keeps its value.
fn is_taken_alone(block: &mut Block<u64>) -> bool
    requires { 2 < block_len block.old }
{
    match fill(block, 2, 9) {
        Some(other) => is_empty_once_taken(block) && *block.value(&other) == 9,
        None => false,
    }
}

#[test]
fn a_taken_cell_is_empty(rt: HostRuntime) {
    let mut block = made(&rt, 3);
    assert!(rt; is_taken_alone(&mut block));
}

// Tests whether the value is taken of the second cell, which is empty then.
fn gives_up_by_token(block: &mut Block<u64>) -> bool
    requires { 1 < block_len block.old }
    ensures len { block_len block.new ≡ block_len block.old }
    ensures others { KeepsOtherCells block.old block.new 1 }
{
    match fill(block, 1, 5) {
        Some(placed) => block.take_value(&placed) == 5 && is_empty(block, 1),
        None => false,
    }
}

fn is_taken_by_token(block: &mut Block<u64>) -> bool
    requires { 2 < block_len block.old }
{
    match fill(block, 2, 9) {
        Some(other) => gives_up_by_token(block) && *block.value(&other) == 9,
        None => false,
    }
}

#[test]
fn the_value_of_a_token_is_taken(rt: HostRuntime) {
    let mut block = made(&rt, 3);
    assert!(rt; is_taken_by_token(&mut block));
}

// How many cells show that nobody began them.
fn empty_cells<T>(block: &Block<T>) -> u64 {
    let mut count: u64 = 0;
    for offset in 0..block.len() {
        if is_empty(block, offset) {
            count = count.wrapping_add(1);
        }
    }
    count
}

#[test]
fn a_million_cells_are_empty_and_filled(rt: HostRuntime) {
    let block = made(&rt, 1 << 20);
    assert_eq!(rt; empty_cells(&block), 1 << 20);
    for offset in 0..block.len() {
        assert!(rt; is_filled(&block, offset, offset));
    }
    assert_eq!(rt; empty_cells(&block), 0);
    assert!(rt;
        matches!(block.look((1 << 20) - 1), Look::Filled(value, _) if *value == (1 << 20) - 1)
    );
}

pub(crate) struct Counted<'a>(pub(crate) &'a AtomicU64);

impl Drop for Counted<'_> {
    fn drop(self) {
        let Counted(drops) = self;
        drops.fetch_add(1, Ordering::SeqCst);
    }
}

pub(crate) fn count(drops: &AtomicU64) -> u64 {
    drops.load(Ordering::SeqCst)
}

// Fills the first four cells.
fn fills_four<'a>(block: &Block<Counted<'a>>, drops: &'a AtomicU64) -> bool
    requires { 3 < block_len block.now }
{
    for offset in 0..4 {
        if !is_filled(block, offset, Counted(drops)) {
            return false;
        }
    }
    true
}

// How many values were dropped once the value of the cell is taken.
fn count_taken(block: &mut Block<Counted<'_>>, offset: u64, drops: &AtomicU64) -> u64
    requires { offset < block_len block.old }
    ensures { block_len block.new ≡ block_len block.old }
{
    drop(block.take(offset));
    count(drops)
}

// Tests whether a value that is refused and two that are taken are dropped.
fn drops_three<'a>(block: &mut Block<Counted<'a>>, drops: &'a AtomicU64) -> bool
    requires { 3 < block_len block.old }
{
    fills_four(block, drops)
        && !is_filled(block, 1, Counted(drops))
        && count(drops) == 1
        && count_taken(block, 1, drops) == 2
        && count_taken(block, 2, drops) == 3
        && number(block.begin(1)) == 5
}

#[test]
fn each_value_is_dropped_once(rt: HostRuntime) {
    let drops = AtomicU64::new(0);
    let mut block = made(&rt, 5);
    assert!(rt; drops_three(&mut block, &drops));
    // Cells 0 and 3 are filled, 1 is broken, 2 and 4 are empty.
    drop(block);
    assert_eq!(rt; count(&drops), 5);
}

#[test]
fn a_freed_block_drops_no_value(rt: HostRuntime) {
    let drops = AtomicU64::new(0);
    let block = made(&rt, 3);
    assert!(rt; is_filled(&block, 1, Counted(&drops)));
    block.free();
    assert_eq!(rt; count(&drops), 0);
}

// The values of the first and the last of three cells.
fn ends<T: Copy>(block: &Block<T>, a: T, b: T) -> Option<(T, T)>
    requires { 2 < block_len block.now }
{
    let first = fill(block, 0, a)?;
    let last = fill(block, 2, b)?;
    Some((*block.value(&first), *block.value(&last)))
}

// Tests whether they are the values that were put into a new block.
fn lie_apart<T: Copy + PartialEq>(alloc: Global, a: T, b: T) -> bool {
    match Block::new(alloc, 3) {
        Ok(block) => ends(&block, a, b) == Some((a, b)),
        Err(_no_memory) => false,
    }
}

#[test]
fn values_of_each_size_lie_apart(rt: HostRuntime) {
    let alloc = rt.alloc();
    assert!(rt; lie_apart(alloc, (), ()) && lie_apart(alloc, 1u8, 2) && lie_apart(alloc, 1u64, 2));
    assert!(rt; lie_apart(alloc, [1u8; 3], [2; 3]) && lie_apart(alloc, 1u128, 2));
    assert!(rt; lie_apart(alloc, [1u64; 3], [2; 3]) && lie_apart(alloc, [1u64; 32], [2; 32]));
}

// Tests whether the cells of a new block are empty.
fn is_made_empty(alloc: Global) -> Result<bool, AllocError> {
    let block = Block::<u64>::new(alloc, 3)?;
    Ok(is_empty(&block, 2))
}

// It passes too if any one request for memory is refused.
#[test]
fn a_refused_allocation_makes_no_block(rt: HostRuntime) {
    let mut made = is_made_empty(rt.alloc());
    if made.is_err() {
        made = is_made_empty(rt.alloc());
    }
    assert!(rt; made == Ok(true));
}

// Values of 2^63 bytes or more are refused before memory is requested.
#[test]
fn too_many_cells_are_refused(rt: HostRuntime) {
    for n in [1 << 60, 1 << 61, u64::MAX].as_slice() {
        let made = Block::<u64>::new(rt.alloc(), *n);
        assert!(rt; matches!(made, Err(AllocError)));
    }
}

// Lays `n` cells of 16 MiB, and returns whether all are empty. The block is freed without dropping its cells,
// since a value of this size does not fit on the stack.
fn are_laid(alloc: Global, n: u64) -> Result<bool, AllocError> {
    let block = Block::<[u64; 1 << 21]>::new(alloc, n)?;
    let is_laid = block.len() == n && empty_cells(&block) == n;
    block.free();
    Ok(is_laid)
}

#[test]
fn cells_of_any_size_are_laid(rt: HostRuntime) {
    assert!(rt; matches!(are_laid(rt.alloc(), 2), Ok(true)));
    assert!(rt; matches!(are_laid(rt.alloc(), 1 << 40), Err(AllocError)));
}

fn is_sent<X: Send>() {}

fn is_shared<X: Send + Sync>() {}

#[test]
fn blocks_pens_and_tokens_cross_threads(_rt: HostRuntime) {
    is_shared::<Block<u64>>();
    is_shared::<Placed<u64>>();
    is_shared::<Spoilt>();
    is_sent::<Pen<'static, u64>>();
}
