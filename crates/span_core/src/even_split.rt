//! A hand that is split into several at once.
ghost use Rattle.std.specs.Prelude.{◌≡◌, ◌+◌, ◌-◌, ◌*◌, ◌<◌, IfOk, OnOk, OnErr, replicate};
ghost use Rattle.grow_core.specs.Vector.{IsHandOf};
ghost use Rattle.span_core.specs.Hands.{even_share, split_off};

use grow_core::{Hand, Shared};
use std::alloc::{AllocError, Global};

/// Splits `n` hands off, each with an equal part of the shares, rounded down, so that the hand keeps at least
/// as many. Each has seen the same as the hand, and owns nothing. It shows no size.
pub fn split_even<T>(
    alloc: Global,
    vector: &Shared<T>,
    hand: &mut Hand<T>,
    n: u32,
) -> Result<Vec<Hand<T>>, AllocError>
    requires ours { IsHandOf vector.now hand.old }
    requires enough { n < hand.old.shares }
    ensures given { IfOk result (λ hands.
        hands.items ≡ replicate n (split_off hand.old (even_share hand.old n))) }
    ensures kept { OnOk result (hand.new
        ≡ record hand.old { shares = hand.old.shares - n * even_share hand.old n }) }
    ensures add_up { OnOk result (hand.new.shares + n * even_share hand.old n ≡ hand.old.shares) }
    // Memory is asked for before a share is given.
    ensures unchanged { OnErr result (hand.new ≡ hand.old) }
{
    // For the proof: a hand has at least one share.
    hand.laws();
    let mut hands = Vec::with_capacity(alloc, n as usize)?;
    let each = hand.share() / (n + 1);
    for _given in 0..n {
        hands.push_reserved(vector.split(hand, each));
    }
    Ok(hands)
}
