//! The claim word: each thread has a hand, and tries to claim one place after another.
ghost use Rattle.std.specs.Prelude.{◌≡◌, All, IfOk};
ghost use Rattle.claim_core.specs.Hand.{IsHandOf};

use crate::trial::{Trial, time_hands};
use anyhow::Result;
use claim_core::{Hand, Word};
use std::alloc::{AllocError, AllocGlobal, Global};
use std::rt::Clock;
use std::thread::Threads;

// One exchange a try, from what the hand has seen.
fn claim(word: &Word<Global>, mut hand: Hand, tries: u64) -> u64
    requires ours { IsHandOf word.now hand }
{
    let mut won: u64 = 0;
    for _try in 0..tries {
        let from = hand.seen();
        if from >= word.limit() {
            break;
        }
        if let Ok(run) = word.exchange(&mut hand, from, 1) {
            won = won.wrapping_add(run.n);
        }
    }
    drop(hand);
    won
}

// A hand for each thread, cut from this one.
fn hands_for(
    alloc: Global,
    word: &Word<Global>,
    hand: &mut Hand,
    threads: usize,
) -> Result<Vec<Hand>, AllocError>
    requires ours { IsHandOf word.now hand.old }
    ensures of { hand.new.of ≡ hand.old.of }
    ensures hands { IfOk result (λ hands. All (IsHandOf word.now) hands.items) }
{
    let mut hands = Vec::new(alloc);
    for _thread in 0..threads {
        if hand.share() > 1 {
            hands.push(word.split(hand, 1))?;
        }
    }
    Ok(hands)
}

// Exchanges by hands that are cut from this one.
fn claim_on<R: Threads + Clock + AllocGlobal + Sync>(
    rt: &R,
    word: &Word<Global>,
    hand: &mut Hand,
    threads: usize,
    tries: u64,
) -> Result<Trial>
    requires ours { IsHandOf word.now hand.old }
{
    let hands = hands_for(rt.alloc(), word, hand, threads)?;
    let (took, wins) = time_hands(
        rt,
        hands,
        &|hand: Hand| -> u64
            requires { IsHandOf word.now hand }
        { claim(word, hand, tries) },
    )?;
    Ok(Trial {
        took,
        wins,
        size: word.size(hand),
    })
}

/// Exchanges on one claim word.
pub fn run_claims<R: Threads + Clock + AllocGlobal + Sync>(
    rt: &R,
    threads: usize,
    tries: u64,
) -> Result<Trial> {
    let (word, mut hand) = Word::open(rt.alloc(), 1 << 32, 0)?;
    let claimed = claim_on(rt, &word, &mut hand, threads, tries);
    drop((hand, word));
    claimed
}
