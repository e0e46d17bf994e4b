// Four threads claim concurrently.
ghost use Rattle.std.specs.Prelude.{◌≡◌, ◌<◌};
ghost use Rattle.std.specs.Thread.{IsSync};
ghost use Rattle.claim_core.specs.Hand.{IsHandOf};

use claim_core::{Hand, Word};
use std::alloc::Global;
use std::test::Fail;
use std::thread::{Threads, join};

const LIMIT: u64 = 20_000;

// Claims single places up to the limit, and returns how many it won.
fn claim_to_limit(word: &Word<Global>, mut hand: Hand) -> (Hand, u64)
    requires ours { IsHandOf word.now hand }
    ensures { result.0.of ≡ word.now }
{
    let mut won: u64 = 0;
    for _try in 0..LIMIT {
        let from = hand.seen();
        if from >= word.limit() {
            break;
        }
        if let Ok(run) = word.exchange(&mut hand, from, 1) {
            won = won.wrapping_add(run.n);
        }
    }
    (hand, won)
}

// Two threads claim, and their hands become one.
fn claim_by_two<R: Threads + Sync>(rt: &R, word: &Word<Global>, a: Hand, b: Hand) -> (Hand, u64)
    requires ours { IsHandOf word.now a }
    requires also_ours { IsHandOf word.now b }
    ensures { result.0.of ≡ word.now }
{
    let ((mut all, first), (other, second)) = join(
        rt,
        || -> (Hand, u64)
            requires { IsHandOf word.now a }
            ensures { result.0.of ≡ word.entry.now }
        { claim_to_limit(word, a) },
        || -> (Hand, u64)
            requires { IsHandOf word.now b }
            ensures { result.0.of ≡ word.entry.now }
        { claim_to_limit(word, b) },
    );
    word.join(&mut all, other);
    (all, first.wrapping_add(second))
}

fn claim_by_four<R: Threads + Sync>(rt: &R, word: &Word<Global>, mut a: Hand) -> (Hand, u64)
    requires ours { IsHandOf word.now a }
    requires enough { 3 < a.shares }
    ensures { result.0.of ≡ word.now }
{
    let b = word.split(&mut a, 1);
    let c = word.split(&mut a, 1);
    let d = word.split(&mut a, 1);
    let ((mut all, first), (other, second)) = join(
        rt,
        || -> (Hand, u64)
            requires { IsSync R.row × IsHandOf word.now a × IsHandOf word.now b }
            ensures { result.0.of ≡ word.entry.now }
        { claim_by_two(rt, word, a, b) },
        || -> (Hand, u64)
            requires { IsSync R.row × IsHandOf word.now c × IsHandOf word.now d }
            ensures { result.0.of ≡ word.entry.now }
        { claim_by_two(rt, word, c, d) },
    );
    word.join(&mut all, other);
    (all, first.wrapping_add(second))
}

// How many places four threads won, and the size at the end.
fn ended_by_four<R: Threads + Sync>(rt: &R, word: Word<Global>, a: Hand) -> (u64, Option<u64>)
    requires ours { IsHandOf word a }
    requires enough { 3 < a.shares }
{
    let (all, won) = claim_by_four(rt, &word, a);
    if all.is_whole() {
        (won, Some(word.close(all)))
    } else {
        (won, None)
    }
}

#[test]
fn four_threads_claim_every_place_once(rt: HostRuntime) -> Result<(), Fail> {
    let (word, hand) = Word::open(rt.alloc(), LIMIT, 7)?;
    assert!(rt; ended_by_four(&rt, word, hand) == (19_993, Some(20_000)));
    Ok(())
}
