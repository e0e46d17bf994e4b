// Steps on neighbours: cells that have their states in one word.
ghost use Rattle.std.specs.Prelude.{◌≡◌, ◌+◌, ◌<◌, ◌≤◌, IfSome};
ghost use Rattle.std.specs.Thread.{IsSync};
ghost use Rattle.cell_core.specs.Block.{block_len, IsMemberAt, KeepsOtherCells};

use crate::cell::block::{is_filled, made, number};
use cell_core::block::{Block, EndedEpoch, Epoch, Found, Look, Member, Pen};
use std::thread::{Threads, join};

// The cases of a call on a cell: it fills or breaks an empty one, or a broken one; it comes to begin a filled
// or a broken one, or to mend an empty or a filled one, in vain; or it fills a cell that another call found
// busy meanwhile; or it looks at a filled one.
const CASES: u64 = 10;

// The same, and four of a call on a cell that an owner broke: by what is known of the cell it fills or breaks
// it; it comes to begin or to mend it without that, in vain.
const ALL_CASES: u64 = 14;

// The offset of a cell that comes `n` cells after another.
pub(crate) fn after(block: &Block<u64>, offset: u64, n: u64) -> u64
    requires { offset + n < block_len block.now }
    ensures { result ≡ offset + n }
{
    // For the proof: offsets below the length fit into 64 bits.
    let _len = block.len();
    offset + n
}

// Makes the cell ready for a case, and returns whether it could.
fn is_ready(block: &Block<u64>, offset: u64, case: u64) -> bool
    requires { offset < block_len block.now }
{
    match case {
        2 | 3 | 7 => number(block.begin(offset)) == 5,
        4 | 5 | 9 => is_filled(block, offset, 4),
        _ => true,
    }
}

// Like `number`, but a pen fills the cell, and gives 6.
fn number_filled(tried: Result<Pen<'_, u64>, Found<u64>>) -> u64 {
    match tried {
        Ok(pen) => {
            drop(pen.fill(7));
            6
        }
        lost => number(lost),
    }
}

// What a begin and a mend find in a busy cell, as one digit each.
fn number_busy(block: &Block<u64>, offset: u64) -> u64
    requires { offset < block_len block.now }
{
    match block.begin(offset) {
        Ok(pen) => {
            let (begun, mended) = (number(block.begin(offset)), number(block.mend(offset)));
            drop(pen.fill(7));
            begun.wrapping_mul(10).wrapping_add(mended)
        }
        Err(found) => {
            drop(found);
            0
        }
    }
}

// Acts on a cell that is ready for a case, and returns what the calls found.
fn act(block: &Block<u64>, offset: u64, case: u64) -> u64
    requires { offset < block_len block.now }
{
    match case {
        0 => number_filled(block.begin(offset)),
        2 => number_filled(block.mend(offset)),
        1 | 4 | 7 => number(block.begin(offset)),
        3 | 5 | 6 => number(block.mend(offset)),
        8 => number_busy(block, offset),
        _ => shown(block, offset),
    }
}

// Acts on a cell that an owner broke, in an epoch that has ended.
fn act_on_broken(
    block: &Block<u64>,
    offset: u64,
    broken: &Member<u64>,
    ended: &EndedEpoch,
    case: u64,
) -> u64
    requires member { IsMemberAt block.now offset broken.now }
    requires epoch { broken.now.epoch ≡ ended.now }
{
    match case {
        10 => number_filled(block.mend_member(offset, broken, ended)),
        11 => number(block.mend_member(offset, broken, ended)),
        12 => number(block.begin(offset)),
        _ => number(block.mend(offset)),
    }
}

// Acts on a cell that is ready for a case.
fn act_on_any(
    block: &Block<u64>,
    offset: u64,
    broken: &Option<Member<u64>>,
    ended: &EndedEpoch,
    case: u64,
) -> u64
    requires within { offset < block_len block.now }
    requires member { IfSome broken.now (IsMemberAt block.now offset) }
    requires epoch { IfSome broken.now (λ m. m.epoch ≡ ended.now) }
{
    match broken {
        Some(member) => act_on_broken(block, offset, member, ended, case),
        None => act(block, offset, case),
    }
}

// A number for what the cell shows: a filled one shows its value.
pub(crate) fn shown(block: &Block<u64>, offset: u64) -> u64
    requires { offset < block_len block.now }
{
    match block.look(offset) {
        Look::Empty => 0,
        Look::Busy => 1,
        Look::Filled(value, _placed) => *value,
        Look::Broken(_spoilt) => 3,
    }
}

// What the calls of a case find, and what the cell then shows.
fn expected(case: u64) -> (u64, u64) {
    match case {
        0 | 2 | 10 => (6, 7),
        1 | 3 | 11 => (5, 3),
        4 | 5 => (2, 4),
        6 => (0, 0),
        7 | 12 | 13 => (3, 3),
        8 => (11, 7),
        _ => (4, 4),
    }
}

// Lets two threads act on two neighbours, and tests whether each finds what it would find alone.
fn act_by_two<R: Threads + Sync>(rt: &R, block: &Block<u64>, offset: u64, a: u64, b: u64) -> bool
    requires { offset + 1 < block_len block.now }
{
    let (first, second) = join(
        rt,
        || -> u64
            requires { offset < block_len block.now }
        { act(block, offset, a) },
        || -> u64
            requires { offset + 1 < block_len block.now }
        { act(block, after(block, offset, 1), b) },
    );
    (first, shown(block, offset)) == expected(a)
        && (second, shown(block, after(block, offset, 1))) == expected(b)
}

// Breaks the cell as its owner, if a case wants that, and returns what is then known of it.
fn broken_for(block: &mut Block<u64>, offset: u64, case: u64, epoch: &Epoch) -> Option<Member<u64>>
    requires { offset < block_len block.old }
    ensures member { IfSome result (IsMemberAt block.new offset) }
    ensures epoch { IfSome result (λ m. m.epoch ≡ epoch.now) }
    ensures len { block_len block.new ≡ block_len block.old }
    ensures others { KeepsOtherCells block.old block.new offset }
{
    if case < CASES {
        return None;
    }
    let (broken, _held) = block.spoil_now(offset, epoch);
    Some(broken)
}

// Lets two threads act on the second and the third of four cells, and tests whether each finds what it would find
// alone, and the others stay empty.
fn act_apart<R: Threads + Sync>(
    rt: &R,
    block: &Block<u64>,
    broken: &(Option<Member<u64>>, Option<Member<u64>>),
    ended: &EndedEpoch,
    cases: (u64, u64),
) -> bool
    requires within { 3 < block_len block.now }
    requires first { IfSome broken.now.0 (λ m. IsMemberAt block.now 1 m × (m.epoch ≡ ended.now)) }
    requires second { IfSome broken.now.1 (λ m. IsMemberAt block.now 2 m × (m.epoch ≡ ended.now)) }
{
    let (first, second) = broken;
    let (a, b) = join(
        rt,
        || -> u64
            requires { (1 < block_len block.now)
                × IfSome first.now (λ m. IsMemberAt block.now 1 m × (m.epoch ≡ ended.now)) }
        { act_on_any(block, 1, first, ended, cases.0) },
        || -> u64
            requires { (2 < block_len block.now)
                × IfSome second.now (λ m. IsMemberAt block.now 2 m × (m.epoch ≡ ended.now)) }
        { act_on_any(block, 2, second, ended, cases.1) },
    );
    (a, shown(block, 1)) == expected(cases.0)
        && (b, shown(block, 2)) == expected(cases.1)
        && shown(block, 0) == 0
        && shown(block, 3) == 0
}

// Tests a pair of cases on the second and the third of four cells.
fn are_kept_apart<R: Threads + Sync>(rt: &R, block: &mut Block<u64>, a: u64, b: u64) -> bool
    requires { 3 < block_len block.old }
{
    let epoch = Epoch::new();
    let broken = (
        broken_for(block, 1, a, &epoch),
        broken_for(block, 2, b, &epoch),
    );
    let ended = epoch.end();
    let are_apart = is_ready(block, 1, a)
        && is_ready(block, 2, b)
        && act_apart(rt, block, &broken, &ended, (a, b));
    drop(broken);
    are_apart
}

#[test]
fn neighbours_are_filled_broken_and_mended_each_by_itself(rt: HostRuntime) {
    for a in 0..ALL_CASES {
        for b in 0..ALL_CASES {
            let mut block = made(&rt, 4);
            assert!(rt; are_kept_apart(&rt, &mut block, a, b), "{a} and {b}");
        }
    }
}

// Lets a thread for each of some cells act on it, all at once.
fn two_act<R: Threads + Sync>(rt: &R, block: &Block<u64>, offset: u64, case: u64) -> bool
    requires { offset + 2 ≤ block_len block.now }
{
    act_by_two(rt, block, offset, case, case)
}

fn four_act<R: Threads + Sync>(rt: &R, block: &Block<u64>, offset: u64, case: u64) -> bool
    requires { offset + 4 ≤ block_len block.now }
{
    let (low, high) = join(
        rt,
        || -> bool
            requires { IsSync R.row × (offset + 2 ≤ block_len block.now) }
        { two_act(rt, block, offset, case) },
        || -> bool
            requires { IsSync R.row × (offset + 4 ≤ block_len block.now) }
        { two_act(rt, block, after(block, offset, 2), case) },
    );
    low && high
}

fn eight_act<R: Threads + Sync>(rt: &R, block: &Block<u64>, offset: u64, case: u64) -> bool
    requires { offset + 8 ≤ block_len block.now }
{
    let (low, high) = join(
        rt,
        || -> bool
            requires { IsSync R.row × (offset + 4 ≤ block_len block.now) }
        { four_act(rt, block, offset, case) },
        || -> bool
            requires { IsSync R.row × (offset + 8 ≤ block_len block.now) }
        { four_act(rt, block, after(block, offset, 4), case) },
    );
    low && high
}

fn sixteen_act<R: Threads + Sync>(rt: &R, block: &Block<u64>, offset: u64, case: u64) -> bool
    requires { offset + 16 ≤ block_len block.now }
{
    let (low, high) = join(
        rt,
        || -> bool
            requires { IsSync R.row × (offset + 8 ≤ block_len block.now) }
        { eight_act(rt, block, offset, case) },
        || -> bool
            requires { IsSync R.row × (offset + 16 ≤ block_len block.now) }
        { eight_act(rt, block, after(block, offset, 8), case) },
    );
    low && high
}

// Tests whether sixteen threads act on the cells of one word, each as if it were alone.
fn is_shared_by_sixteen<R: Threads + Sync>(rt: &R, block: &Block<u64>, case: u64) -> bool
    requires { 16 ≤ block_len block.now }
{
    for offset in 0..16 {
        if !is_ready(block, offset, case) {
            return false;
        }
    }
    sixteen_act(rt, block, 0, case)
}

#[test]
fn sixteen_threads_act_on_the_cells_of_one_word(rt: HostRuntime) {
    for case in 0..CASES {
        for _time in 0..10 {
            let block = made(&rt, 16);
            assert!(rt; is_shared_by_sixteen(&rt, &block, case));
        }
    }
}
