// Cells that were broken, and are mended.
ghost use Rattle.std.specs.Prelude.{◌≡◌, ◌<◌, None, IfSome};
ghost use Rattle.cell_core.specs.Block.{block_len, IsPlacedAt, IsMemberAt};

use crate::cell::block::{Counted, fill, is_broken, is_filled, made, number};
use crate::cell::words::shown;
use crate::is_some;
use cell_core::block::{Block, EndedEpoch, Epoch, Member, Placed};
use std::sync::atomic::{AtomicU64, Ordering};
use std::thread::{Threads, join};

// Mends the cell with a value, if it is broken.
fn mend<T: Drop>(block: &Block<T>, offset: u64, value: T) -> Option<Placed<T>>
    requires { offset < block_len block.now }
    ensures token { IfSome result (IsPlacedAt block.now offset) }
    ensures value { IfSome result (λ placed. placed.value ≡ value) }
{
    Some(block.mend(offset).ok()?.fill(value))
}

// Breaks the cell, if it is empty.
fn break_cell<T>(block: &Block<T>, offset: u64) -> bool
    requires { offset < block_len block.now }
{
    number(block.begin(offset)) == 5
}

// Tests whether a mend finds the first cell busy while its pen is out, which breaks it.
fn is_busy_to_a_mend(block: &Block<u64>) -> bool
    requires { 0 < block_len block.now }
{
    let Some(pen) = block.begin(0).ok() else {
        return false;
    };
    let found = number(block.mend(0));
    drop(pen.spoil());
    found == 1
}

// Returns whether the writer of the first cell fills it although another call tries to mend it meanwhile.
fn is_filled_by_its_writer(block: &Block<u64>) -> bool
    requires { 0 < block_len block.now }
{
    let Some(pen) = block.begin(0).ok() else {
        return false;
    };
    let found = number(block.mend(0));
    let placed = pen.fill(6);
    let value = *block.value(&placed);
    drop(placed);
    found == 1 && value == 6 && shown(block, 0) == 6
}

#[test]
fn a_cell_with_a_writer_is_not_mended(rt: HostRuntime) {
    let block = made(&rt, 1);
    assert!(rt; number(block.mend(0)) == 0 && is_filled_by_its_writer(&block));
}

// A mend before a cell is begun, while its pen is out, once it is broken, and once it is filled.
fn is_mended_only_where_broken(block: &Block<u64>) -> bool
    requires { 0 < block_len block.now }
{
    number(block.mend(0)) == 0
        && is_busy_to_a_mend(block)
        && number(block.mend(0)) == 5
        && is_some(mend(block, 0, 7))
        && number(block.mend(0)) == 2
        && shown(block, 0) == 7
}

#[test]
fn a_broken_cell_is_mended_and_no_other(rt: HostRuntime) {
    let block = made(&rt, 1);
    assert!(rt; is_mended_only_where_broken(&block));
}

// Settles the first cell in a new epoch, if it is broken.
fn broken_in(block: &mut Block<u64>, epoch: &Epoch) -> Member<u64>
    requires { 0 < block_len block.old }
    ensures member { IsMemberAt block.new 0 result }
    ensures epoch { result.epoch ≡ epoch.now }
    ensures len { block_len block.new ≡ block_len block.old }
{
    let (broken, _held) = block.spoil_now(0, epoch);
    broken
}

// What calls find in a cell that an owner broke, while its epoch lasts.
fn is_kept_broken(block: &Block<u64>, broken: &Member<u64>, epoch: &Epoch) -> bool
    requires { IsMemberAt block.now 0 broken.now × (broken.now.epoch ≡ epoch.now) }
{
    number(block.mend(0)) == 3
        && number(block.begin(0)) == 3
        && !is_some(block.member(0, broken, epoch))
        && !is_some(block.known(0, broken))
        && is_broken(block, 0)
}

// The number of a mend by what was known in an epoch that has ended.
fn number_after(block: &Block<u64>, broken: &Member<u64>, ended: &EndedEpoch) -> u64
    requires { IsMemberAt block.now 0 broken.now × (broken.now.epoch ≡ ended.now) }
{
    number(block.mend_member(0, broken, ended))
}

// The value that the first cell is known to have.
fn known_value(block: &Block<u64>, member: &Member<u64>) -> Option<u64>
    requires { IsMemberAt block.now 0 member.now }
{
    let (value, placed) = block.known(0, member)?;
    drop(placed);
    Some(*value)
}

// The same once the epoch has ended.
fn is_mended_after(block: &Block<u64>, broken: &Member<u64>, ended: &EndedEpoch) -> bool
    requires { IsMemberAt block.now 0 broken.now × (broken.now.epoch ≡ ended.now) }
{
    number(block.mend(0)) == 3
        && number_after(block, broken, ended) == 5
        && number_after(block, broken, &ended.again()) == 5
        && is_some(mend(block, 0, 8))
        && known_value(block, broken) == Some(8)
        && number_after(block, broken, ended) == 2
}

#[test]
fn what_an_owner_broke_is_mended_after_its_epoch(rt: HostRuntime) {
    let mut block = made(&rt, 1);
    let epoch = Epoch::new();
    let broken = broken_in(&mut block, &epoch);
    assert!(rt; is_kept_broken(&block, &broken, &epoch));
    let ended = epoch.end();
    assert!(rt; is_mended_after(&block, &broken, &ended));
}

// A cell that an owner broke in one epoch is settled in another.
fn is_settled_anew(block: &mut Block<u64>) -> bool
    requires { 0 < block_len block.old }
{
    let first = Epoch::new();
    let broken = broken_in(block, &first);
    let second = Epoch::new();
    let anew = block.settle_known(0, &broken, &second);
    number(block.mend(0)) == 3 && number(block.mend_member(0, &anew, &second.end())) == 5
}

#[test]
fn a_broken_cell_is_settled_anew_in_each_epoch(rt: HostRuntime) {
    let mut block = made(&rt, 1);
    assert!(rt; is_settled_anew(&mut block));
}

// Tests whether a cell that was mended is settled as one with its value.
fn is_settled_mended(block: &mut Block<u64>) -> bool
    requires { 0 < block_len block.old }
{
    let epoch = Epoch::new();
    let broken = broken_in(block, &epoch);
    let ended = epoch.end();
    let next = Epoch::new();
    match block.mend_member(0, &broken, &ended) {
        Ok(pen) => drop(pen.fill(9)),
        Err(found) => drop(found),
    }
    let member = block.settle_known(0, &broken, &next);
    let value = known_value(block, &member);
    drop(broken);
    drop(member);
    value == Some(9) && block.take(0) == Some(9)
}

#[test]
fn a_mended_cell_is_settled_with_its_value(rt: HostRuntime) {
    let mut block = made(&rt, 1);
    assert!(rt; is_settled_mended(&mut block));
}

#[test]
fn a_mended_value_is_dropped_once(rt: HostRuntime) {
    let drops = AtomicU64::new(0);
    let block = made(&rt, 2);
    assert!(rt; break_cell(&block, 0) && is_some(mend(&block, 0, Counted(&drops))));
    assert!(rt;
        is_filled(&block, 1, Counted(&drops)) && !is_some(mend(&block, 1, Counted(&drops)))
    );
    assert_eq!(rt; drops.load(Ordering::SeqCst), 1);
    drop(block);
    assert_eq!(rt; drops.load(Ordering::SeqCst), 3);
}

// Two threads mend the cell.
fn mend_by_two<R: Threads + Sync>(
    rt: &R,
    block: &Block<u64>,
    offset: u64,
) -> (Option<Placed<u64>>, Option<Placed<u64>>)
    requires { offset < block_len block.now }
    ensures first { IfSome result.0 (λ a. IsPlacedAt block.now offset a × (a.value ≡ 5)) }
    ensures second { IfSome result.1 (λ b. IsPlacedAt block.now offset b × (b.value ≡ 6)) }
{
    join(
        rt,
        || -> Option<Placed<u64>>
            requires { offset < block_len block.now }
            ensures { IfSome result (λ a. IsPlacedAt block.entry.now offset a × (a.value ≡ 5)) }
        { mend(block, offset, 5) },
        || -> Option<Placed<u64>>
            requires { offset < block_len block.now }
            ensures { IfSome result (λ b. IsPlacedAt block.entry.now offset b × (b.value ≡ 6)) }
        { mend(block, offset, 6) },
    )
}

// Tests whether one of two threads mends the cell, and its value is seen.
fn is_mended_by_one<R: Threads + Sync>(rt: &R, block: &Block<u64>, offset: u64) -> bool
    requires { offset < block_len block.now }
{
    if !break_cell(block, offset) {
        return false;
    }
    let (first, second) = mend_by_two(rt, block, offset);
    let is_mended = match (&first, &second) {
        (Some(a), None) => *block.value(a) == 5 && shown(block, offset) == 5,
        (None, Some(b)) => *block.value(b) == 6 && shown(block, offset) == 6,
        _other => false,
    };
    drop((first, second));
    is_mended
}

#[test]
fn one_of_two_threads_mends_a_cell(rt: HostRuntime) {
    let block = made(&rt, 1000);
    for offset in 0..1000 {
        assert!(rt; is_mended_by_one(&rt, &block, offset));
    }
}
