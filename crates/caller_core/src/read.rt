//! How a caller reads.
ghost use Rattle.std.specs.Prelude.{◌≡◌, ◌<◌, ◌↔◌, Some, IfOk, IfErr, IfSome, IsSome, IsSomeAnd, IsOkAnd};
ghost use Rattle.claim_core.specs.Hand.{seen_size};
ghost use Rattle.grow_core.specs.Vector.{IsHandOf, IsOpenedAt, SeesMore};
ghost use Rattle.grow_core.specs.Logs.{LogsNoValue, LogsValue};
ghost use Rattle.grow_core.specs.Read.{IsDueAt, IsInRange};
ghost use Rattle.caller_core.specs.Caller.{KeepsCaller, HasLast, IsLastAt, IsLastOf};

use crate::caller::Caller;
use grow_core::{AtError, Hand, Placed, Shared};

// The token, if it is of this place.
#[inline(always)]
fn token_of<T>(last: &Option<Placed<T>>, place: u64) -> Option<&Placed<T>>
    ensures of { (x : T) → HasLast place x last.now → IsSomeAnd result (λ p. p.now.value ≡ x) }
    ensures here { IfSome result (λ p. (last.now ≡ Some p.now) × (p.now.place ≡ place)) }
    ensures some { IsSome result ↔ IsLastAt place last.now }
{
    match last {
        Some(placed) if placed.place() == place => Some(placed),
        _ => None,
    }
}

// A copy of the value at the place.
#[inline(always)]
fn copy_at<T: Copy>(
    vector: &Shared<T>,
    hand: &mut Hand<T>,
    last: &Option<Placed<T>>,
    place: u64,
) -> Result<T, AtError>
    requires ours { IsHandOf vector.now hand.old }
    requires last_ours { IsLastOf vector.now last.now }
    ensures own { (x : T) → HasLast place x last.now → IsOkAnd result (λ value. value ≡ x) }
    ensures opened { (x : T) → IsOpenedAt vector.now place x → IsOkAnd result (λ value. value ≡ x) }
    ensures refused { IfErr result (IsDueAt vector.now place hand.old hand.new) }
    ensures in_range { place < seen_size hand.old → IfErr result IsInRange }
    // The last place is read by its token, which adds nothing to the history. A look at any other place is added.
    ensures token { IsLastAt place last.now → hand.new ≡ hand.old }
    ensures looks { (IsLastAt place last.now → ⊥)
        → IfOk result (λ _. LogsValue place hand.old hand.new) }
    ensures looks_refusal { (IsLastAt place last.now → ⊥)
        → IfErr result (LogsNoValue place hand.old hand.new) }
    ensures hand { SeesMore hand.old hand.new }
{
    let at = vector.at(hand, place, token_of(last, place))?;
    let value = *at.value;
    drop(at);
    Ok(value)
}

impl<T: Copy> Caller<T> {
    /// Copies the value at the place.
    #[inline(always)]
    pub fn at(&mut self, place: u64) -> Result<T, AtError>
        // The caller's last place has its value.
        ensures own { (x : T) → HasLast place x self.old.last
            → IsOkAnd result (λ value. value ≡ x) }
        // A value of the opened list is read by everybody.
        ensures opened { (x : T) → IsOpenedAt self.old.vector place x
            → IsOkAnd result (λ value. value ≡ x) }
        ensures refused { IfErr result
            (IsDueAt self.old.vector place self.old.hand self.new.hand) }
        ensures in_range { place < seen_size self.old.hand → IfErr result IsInRange }
        // The last place is read by its token, which adds nothing to the history. A look at any other place is added.
        ensures token { IsLastAt place self.old.last → self.new.hand ≡ self.old.hand }
        ensures looks { (IsLastAt place self.old.last → ⊥)
            → IfOk result (λ _. LogsValue place self.old.hand self.new.hand) }
        ensures looks_refusal { (IsLastAt place self.old.last → ⊥)
            → IfErr result (LogsNoValue place self.old.hand self.new.hand) }
        ensures kept { KeepsCaller self.old self.new }
        ensures last { self.new.last ≡ self.old.last }
    {
        copy_at(&self.hub.vector, &mut self.hand, &self.last, place)
    }
}
