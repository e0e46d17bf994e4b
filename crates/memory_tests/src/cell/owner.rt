ghost use Rattle.std.specs.Prelude.{◌≡◌, ◌≢◌, ◌<◌, ◌∷◌, [], Some, None, IfSome, length, slice_get};
ghost use Rattle.cell_core.specs.Block.{block_len, IsMemberAt, KeepsOtherCells};

use super::block::{Counted, count, fill, is_broken, is_empty, is_filled, made};
use crate::cell::words::shown;
use cell_core::block::{Block, EndedEpoch, Epoch, Member, Row};
use std::sync::atomic::AtomicU64;

// The value of a cell by what is known of it.
fn value_of(block: &Block<u64>, offset: u64, member: &Member<u64>, epoch: &Epoch) -> Option<u64>
    requires member { IsMemberAt block.now offset member.now }
    requires epoch { member.now.value ≡ None → member.now.epoch ≡ epoch.now }
{
    let (value, placed) = block.member(offset, member, epoch)?;
    drop(placed);
    Some(*value)
}

// The same of a cell that is settled.
pub(crate) fn settled_value(block: &mut Block<u64>, offset: u64, epoch: &Epoch) -> Option<u64>
    requires { offset < block_len block.old }
    ensures len { block_len block.new ≡ block_len block.old }
    ensures others { KeepsOtherCells block.old block.new offset }
{
    let member = block.settle_now(offset, epoch);
    let value = value_of(block, offset, &member, epoch);
    drop(member);
    value
}

// Settles a filled cell, and returns what is then known of it.
fn settled_filled(block: &mut Block<u64>, epoch: &Epoch) -> Option<Member<u64>>
    requires { 1 < block_len block.old }
    ensures member { IfSome result (IsMemberAt block.new 1) }
    ensures epoch { IfSome result (λ member. member.value ≡ None → member.epoch ≡ epoch.now) }
    ensures len { block_len block.new ≡ block_len block.old }
{
    let placed = fill(block, 1, 5)?;
    let filled = block.settle_now(1, epoch);
    filled.agree(&placed);
    drop(placed);
    Some(filled)
}

// Tests whether the first cell is broken once it is settled, and stays so.
fn is_settled_broken(block: &mut Block<u64>, epoch: &Epoch) -> bool
    requires { 0 < block_len block.old }
    ensures len { block_len block.new ≡ block_len block.old }
    ensures others { KeepsOtherCells block.old block.new 0 }
{
    settled_value(block, 0, epoch).is_none()
        && is_broken(block, 0)
        && !is_filled(block, 0, 6)
        && settled_value(block, 0, epoch).is_none()
}

// Tests whether one cell is settled with its value, and one without.
fn is_settled(block: &mut Block<u64>, epoch: &Epoch) -> bool
    requires { 1 < block_len block.old }
    ensures { block_len block.new ≡ block_len block.old }
{
    match settled_filled(block, epoch) {
        Some(filled) => value_of(block, 1, &filled, epoch) == Some(5)
            && is_settled_broken(block, epoch)
            && value_of(block, 1, &filled.again(), epoch) == Some(5),
        None => false,
    }
}

#[test]
fn a_settled_cell_is_filled_or_broken(rt: HostRuntime) {
    let epoch = Epoch::new();
    let mut block = made(&rt, 4);
    assert!(rt; is_settled(&mut block, &epoch) && is_empty(&block, 2) && is_empty(&block, 3));
}

// The value of a cell that is known to have it and is settled, by what is known and by its token.
fn kept_value(block: &mut Block<u64>, epoch: &Epoch) -> (Option<u64>, u64)
    requires { 1 < block_len block.old }
    ensures { block_len block.new ≡ block_len block.old }
{
    let (placed, _held) = block.put_now(1, 5);
    let known = Member::of(&placed);
    let filled = block.settle_known(1, &known, epoch);
    let values = (value_of(block, 1, &filled, epoch), *block.value(&placed));
    drop((placed, known, filled));
    values
}

// The value of a cell that is known to be broken, and is settled.
fn value_of_broken(block: &mut Block<u64>, epoch: &Epoch) -> Option<u64>
    requires { 0 < block_len block.old }
    ensures { block_len block.new ≡ block_len block.old }
{
    let (broken, _held) = block.spoil_now(0, epoch);
    let again = block.settle_known(0, &broken, epoch);
    let value = value_of(block, 0, &again, epoch);
    drop((broken, again));
    value
}

fn is_settled_as_known(block: &mut Block<u64>, epoch: &Epoch) -> bool
    requires { 1 < block_len block.old }
{
    kept_value(block, epoch) == (Some(5), 5)
        && value_of_broken(block, epoch).is_none()
        && is_broken(block, 0)
}

#[test]
fn a_value_that_is_known_stays_when_its_cell_is_settled(rt: HostRuntime) {
    let epoch = Epoch::new();
    let mut block = made(&rt, 2);
    assert!(rt; is_settled_as_known(&mut block, &epoch));
}

// The value and the offset of the token that a put gives, and the value that the cell held.
fn put(block: &mut Block<u64>, offset: u64, value: u64) -> (u64, u64, Option<u64>)
    requires { offset < block_len block.old }
    ensures { block_len block.new ≡ block_len block.old }
{
    let (placed, held) = block.put_now(offset, value);
    let (there, place) = (*block.value(&placed), placed.offset());
    drop(placed);
    (there, place, held)
}

// The value that a cell held before it is broken.
fn break_cell(block: &mut Block<u64>, offset: u64, epoch: &Epoch) -> Option<u64>
    requires { offset < block_len block.old }
    ensures { block_len block.new ≡ block_len block.old }
{
    let (broken, held) = block.spoil_now(offset, epoch);
    drop(broken);
    held
}

// Tests whether the second cell takes a value if it is empty, filled or broken.
fn takes_any_value(block: &mut Block<u64>, epoch: &Epoch) -> bool
    requires { 1 < block_len block.old }
    ensures { block_len block.new ≡ block_len block.old }
{
    put(block, 1, 5) == (5, 1, None)
        && put(block, 1, 6) == (6, 1, Some(5))
        && break_cell(block, 1, epoch) == Some(6)
        && is_broken(block, 1)
        && break_cell(block, 1, epoch).is_none()
        && put(block, 1, 7) == (7, 1, None)
}

// Tests whether the second cell alone of three has the value.
fn has_one_value(block: &Block<u64>) -> bool
    requires { 2 < block_len block.now }
{
    shown(block, 1) == 7 && is_empty(block, 0) && is_empty(block, 2)
}

#[test]
fn an_owner_puts_values_into_any_cell(rt: HostRuntime) {
    let epoch = Epoch::new();
    let mut block = made(&rt, 3);
    assert!(rt; takes_any_value(&mut block, &epoch) && has_one_value(&block));
}

// The value of a member, and that of one which is broken.
fn take_members(block: &mut Block<u64>, epoch: &Epoch) -> (Option<u64>, Option<u64>)
    requires { 2 < block_len block.old }
    ensures { block_len block.new ≡ block_len block.old }
{
    let (placed, _held) = block.put_now(2, 8);
    let filled = Member::of(&placed);
    let (broken, _held) = block.spoil_now(0, epoch);
    let first = block.take_member(2, &filled, epoch);
    let second = block.take_member(0, &broken, epoch);
    drop((placed, filled, broken));
    (first, second)
}

// Tests whether both cells are empty then.
fn is_empty_once_taken(block: &mut Block<u64>, epoch: &Epoch) -> bool
    requires { 2 < block_len block.old }
    ensures { block_len block.new ≡ block_len block.old }
{
    take_members(block, epoch) == (Some(8), None) && is_empty(block, 2) && is_empty(block, 0)
}

#[test]
fn a_member_is_taken_and_its_cell_is_empty(rt: HostRuntime) {
    let epoch = Epoch::new();
    let mut block = made(&rt, 3);
    assert!(rt; is_empty_once_taken(&mut block, &epoch) && is_filled(&block, 0, 9));
    assert_eq!(rt; block.take(0), Some(9));
}

fn row_of(a: &Member<u64>, b: &Member<u64>, c: &Member<u64>) -> Row<u64>
    ensures { result ≡ a.now ∷ b.now ∷ c.now ∷ [] }
{
    let mut row = Row::new();
    row.push(a);
    row.push(b);
    row.push(c);
    row
}

// Gives up the last of three members.
fn pop(row: &mut Row<u64>, a: &Member<u64>, b: &Member<u64>, c: &Member<u64>)
    requires { row.old ≡ a.now ∷ b.now ∷ c.now ∷ [] }
    ensures len { length row.new ≡ 2 }
    ensures first { slice_get row.new 0 ≡ Some a.now }
    ensures second { slice_get row.new 1 ≡ Some b.now }
{
    row.pop();
}

// Tests whether a row of three has its members in order: the second is broken.
fn has_three(
    block: &Block<u64>,
    row: &Row<u64>,
    a: &Member<u64>,
    b: &Member<u64>,
    c: &Member<u64>,
    epoch: &Epoch,
) -> bool
    requires row { row.now ≡ a.now ∷ b.now ∷ c.now ∷ [] }
    requires first { IsMemberAt block.now 0 a.now × (a.now.value ≢ None) }
    requires second { IsMemberAt block.now 1 b.now × (b.now.epoch ≡ epoch.now) }
    requires third { IsMemberAt block.now 2 c.now × (c.now.value ≢ None) }
{
    let (first, second, third) = (row.at(0), row.at(1), row.at(2));
    let has_three = value_of(block, 0, &first, epoch) == Some(5)
        && value_of(block, 1, &second, epoch).is_none()
        && value_of(block, 2, &third, epoch) == Some(6);
    drop((first, second, third));
    has_three
}

// Tests whether a row of two has another second member, once it is set.
fn has_another(block: &mut Block<u64>, row: &mut Row<u64>, a: &Member<u64>, epoch: &Epoch) -> bool
    requires len { length row.old ≡ 2 }
    requires row { slice_get row.old 0 ≡ Some a.now }
    requires first { IsMemberAt block.old 0 a.now × (a.now.value ≢ None) }
    requires within { 1 < block_len block.old }
{
    let (second, _held) = block.put_now(1, 7);
    let member = Member::of(&second);
    row.set(1, &member);
    drop((second, member));
    let (first, second) = (row.at(0), row.at(1));
    let has_another = value_of(block, 1, &second, epoch) == Some(7)
        && value_of(block, 0, &first, epoch) == Some(5);
    drop((first, second));
    has_another
}

// Tests whether a row has what is pushed to it and set in it.
fn has_members(
    block: &mut Block<u64>,
    a: &Member<u64>,
    b: &Member<u64>,
    c: &Member<u64>,
    epoch: &Epoch,
) -> bool
    requires first { IsMemberAt block.old 0 a.now × (a.now.value ≢ None) }
    requires second { IsMemberAt block.old 1 b.now × (b.now.epoch ≡ epoch.now) }
    requires third { IsMemberAt block.old 2 c.now × (c.now.value ≢ None) }
{
    let mut row = row_of(a, b, c);
    if !has_three(block, &row, a, b, c, epoch) {
        return false;
    }
    pop(&mut row, a, b, c);
    value_of(block, 1, &row.at(1), epoch).is_none() && has_another(block, &mut row, a, epoch)
}

// The same of three cells; the second is broken.
fn has_row(block: &mut Block<u64>, epoch: &Epoch) -> bool
    requires { 2 < block_len block.old }
{
    let (first, _held) = block.put_now(0, 5);
    let (broken, _held) = block.spoil_now(1, epoch);
    let (last, _held) = block.put_now(2, 6);
    has_members(
        block,
        &Member::of(&first),
        &broken,
        &Member::of(&last),
        epoch,
    )
}

#[test]
fn a_row_has_its_members_in_order(rt: HostRuntime) {
    let epoch = Epoch::new();
    let mut block = made(&rt, 3);
    assert!(rt; has_row(&mut block, &epoch));
}

// The value that a cell held before it has another.
fn put_over<T>(block: &mut Block<T>, offset: u64, value: T) -> Option<T>
    requires { offset < block_len block.old }
    ensures { block_len block.new ≡ block_len block.old }
{
    let (placed, held) = block.put_now(offset, value);
    drop(placed);
    held
}

// How many values were dropped once a cell has a new one.
fn count_put<'a>(block: &mut Block<Counted<'a>>, offset: u64, drops: &'a AtomicU64) -> u64
    requires { offset < block_len block.old }
    ensures { block_len block.new ≡ block_len block.old }
{
    drop(put_over(block, offset, Counted(drops)));
    count(drops)
}

// How many once it is broken.
fn count_broken(
    block: &mut Block<Counted<'_>>,
    offset: u64,
    epoch: &Epoch,
    drops: &AtomicU64,
) -> u64
    requires { offset < block_len block.old }
    ensures { block_len block.new ≡ block_len block.old }
{
    drop(block.spoil_now(offset, epoch));
    count(drops)
}

// How many once it is settled, and once its value is taken.
fn count_taken(
    block: &mut Block<Counted<'_>>,
    offset: u64,
    epoch: &Epoch,
    drops: &AtomicU64,
) -> (u64, u64)
    requires { offset < block_len block.old }
    ensures { block_len block.new ≡ block_len block.old }
{
    let member = block.settle_now(offset, epoch);
    let settled = count(drops);
    drop(block.take_member(offset, &member, epoch));
    drop(member);
    (settled, count(drops))
}

// Tests whether the first four cells get values, without any drop.
fn drops_none<'a>(block: &mut Block<Counted<'a>>, drops: &'a AtomicU64) -> bool
    requires { 3 < block_len block.old }
    ensures { block_len block.new ≡ block_len block.old }
{
    put_over(block, 0, Counted(drops)).is_none()
        && count_put(block, 1, drops) == 0
        && count_put(block, 2, drops) == 0
        && count_put(block, 3, drops) == 0
}

// Tests whether each that leaves its cell is dropped then.
fn drops_three<'a>(block: &mut Block<Counted<'a>>, epoch: &Epoch, drops: &'a AtomicU64) -> bool
    requires { 3 < block_len block.old }
{
    drops_none(block, drops)
        && count_put(block, 0, drops) == 1
        && count_broken(block, 1, epoch, drops) == 2
        && count_taken(block, 2, epoch, drops) == (2, 3)
}

#[test]
fn an_owner_drops_no_value_twice(rt: HostRuntime) {
    let drops = AtomicU64::new(0);
    let epoch = Epoch::new();
    let mut block = made(&rt, 4);
    assert!(rt; drops_three(&mut block, &epoch, &drops));
    drop(block);
    assert_eq!(rt; count(&drops), 5);
}

// Returns the value of a cell's token, after the cell gave two.
fn value_now(block: &mut Block<u64>, offset: u64) -> Option<u64>
    requires { offset < block_len block.old }
    ensures { block_len block.new ≡ block_len block.old }
{
    let (first, second) = (block.token_now(offset), block.token_now(offset));
    let value = match (&first, &second) {
        (Some(first), Some(second)) => {
            block.agree(first, second);
            Some(*block.value(second))
        }
        _ => None,
    };
    drop((first, second));
    value
}

// Returns whether a cell gives its token while it is filled, and none while it is empty, broken or taken.
fn has_a_token_where_filled(block: &mut Block<u64>, epoch: &Epoch) -> bool
    requires { 1 < block_len block.old }
{
    value_now(block, 1).is_none()
        && is_filled(block, 1, 5)
        && value_now(block, 1) == Some(5)
        && break_cell(block, 1, epoch) == Some(5)
        && value_now(block, 1).is_none()
        && put(block, 1, 6) == (6, 1, None)
        && value_now(block, 1) == Some(6)
        && value_now(block, 0).is_none()
        && block.take(1) == Some(6)
        && value_now(block, 1).is_none()
}

#[test]
fn an_owner_has_the_token_of_a_filled_cell(rt: HostRuntime) {
    let epoch = Epoch::new();
    let mut block = made(&rt, 2);
    assert!(rt; has_a_token_where_filled(&mut block, &epoch));
}

fn is_shared<X: Send + Sync>() {}

#[test]
fn members_rows_and_epochs_cross_threads(_rt: HostRuntime) {
    is_shared::<Member<u64>>();
    is_shared::<Row<u64>>();
    is_shared::<Epoch>();
    is_shared::<EndedEpoch>();
}
