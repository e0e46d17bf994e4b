// A place that was claimed and never finished, in a block of raw cells: once the word is closed and the block is
// settled, it is broken.
ghost use Rattle.std.specs.Prelude.{◌≡◌, ◌<◌};
ghost use Rattle.claim_core.specs.Hand.{IsNewHand};
ghost use Rattle.cell_core.specs.Block.{block_len};

use crate::cell::block::{fill, is_broken, made};
use crate::cell::owner::settled_value;
use cell_core::block::{Block, Epoch};
use claim_core::{Hand, Word};
use std::alloc::Global;
use std::test::Fail;

// Claims three places, fills the first and the last, and closes the word. The size is then three.
fn closes_at_three(word: Word<Global>, mut hand: Hand, block: &Block<u64>) -> bool
    requires new { IsNewHand word hand }
    requires limit { word.limit ≡ 3 }
    requires room { block_len block.now ≡ 3 }
{
    match word.raise(&mut hand, 3) {
        Ok(_run) => {
            let is_filled = fill(block, 0, 5).is_some() && fill(block, 2, 7).is_some();
            word.close(hand) == 3 && is_filled
        }
        Err(_enough) => {
            drop(word);
            drop(hand);
            false
        }
    }
}

// Tests whether the second of three cells alone is broken once they are settled.
fn lacks_the_second(block: &mut Block<u64>, epoch: &Epoch) -> bool
    requires { block_len block.old ≡ 3 }
{
    settled_value(block, 0, epoch) == Some(5)
        && settled_value(block, 1, epoch).is_none()
        && is_broken(block, 1)
        && settled_value(block, 2, epoch) == Some(7)
}

#[test]
fn a_claimed_place_that_was_never_begun_is_broken_once_settled(
    rt: HostRuntime,
) -> Result<(), Fail> {
    let (word, hand) = Word::open(rt.alloc(), 3, 0)?;
    let mut block = made(&rt, 3);
    let epoch = Epoch::new();
    assert!(rt; closes_at_three(word, hand, &block) && lacks_the_second(&mut block, &epoch));
    Ok(())
}
