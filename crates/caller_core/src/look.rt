//! How a caller gets the address of values. They stay there as long as the vector.
ghost use Rattle.std.specs.Prelude.{◌≡◌, ◌+◌, ◌<◌, ◌⊎◌, IfOk, IfErr, IfSome};
ghost use Rattle.claim_core.specs.Hand.{seen_size};
ghost use Rattle.grow_core.specs.Vector.{IsHandOf, SeesMore, limit_of};
ghost use Rattle.grow_core.specs.Logs.{LogsNoValue, LogsValue};
ghost use Rattle.grow_core.specs.Read.{IsDueAt, IsInRange};
ghost use Rattle.caller_core.specs.Caller.{KeepsCaller};
ghost use Rattle.caller_core.specs.Grows.{AreSideBySide};

use crate::caller::Caller;
use crate::element::Element;
use grow_core::{AtError, Hand, Placed, Shared};

// The address of the value at the place.
#[inline(always)]
fn address_at<'a, T: Element>(
    vector: &'a Shared<T>,
    hand: &mut Hand<T>,
    place: u64,
) -> Result<*mut u64, AtError>
    requires ours { IsHandOf vector.now hand.old }
    ensures below { IfOk result (λ _. place < seen_size hand.new) }
    ensures refused { IfErr result (IsDueAt vector.now place hand.old hand.new) }
    ensures in_range { place < seen_size hand.old → IfErr result IsInRange }
    ensures looks { IfOk result (λ _. LogsValue place hand.old hand.new) }
    ensures looks_refusal { IfErr result (LogsNoValue place hand.old hand.new) }
    ensures hand { SeesMore hand.old hand.new }
{
    let no_token: Option<&'a Placed<T>> = None;
    let at = vector.at(hand, place, no_token)?;
    let address = at.value.address();
    drop(at);
    Ok(address)
}

// The address of the value at the place, and how many filled places lie side by side from there on.
fn run_at<T: Element>(
    vector: &Shared<T>,
    hand: &mut Hand<T>,
    place: u64,
) -> Result<(*mut u64, u64), AtError>
    requires ours { IsHandOf vector.now hand.old }
    ensures run { IfOk result (λ (_, n). AreSideBySide vector.now place n) }
    ensures refused { IfErr result (IsDueAt vector.now place hand.old hand.new) }
    ensures in_range { place < seen_size hand.old → IfErr result IsInRange }
    ensures looks { IfOk result (λ _. (hand.new ≡ hand.old)
        ⊎ LogsValue place hand.old hand.new) }
    ensures looks_refusal { IfErr result (LogsNoValue place hand.old hand.new) }
    ensures hand { SeesMore hand.old hand.new }
{
    let values = vector.shown_run(place);
    if !values.is_empty() {
        return Ok((values[0].address(), values.len() as u64));
    }
    // Either the place shows no value, or it was filled since.
    let at = address_at(vector, hand, place)?;
    // For the proof: the hand has seen the place, which is within the limit, and one place is of one segment.
    hand.laws();
    vector.laws();
    let _one = vector.cells(place, place + 1);
    Ok((at, 1))
}

impl<T> Caller<T> {
    /// Returns the address of the words with the states of the place's segment, if that is installed.
    pub fn states(&self, place: u64) -> Option<*mut u64>
        ensures { IfSome result (λ _. place < limit_of self.now.vector) }
    {
        self.hub.vector.states_at(place)
    }
}

impl<T: Element> Caller<T> {
    /// Returns the address of the value at the place, by one load of the size and one look.
    #[inline(always)]
    pub fn look(&mut self, place: u64) -> Result<*mut u64, AtError>
        ensures below { IfOk result (λ _. place < seen_size self.new.hand) }
        ensures refused { IfErr result
            (IsDueAt self.old.vector place self.old.hand self.new.hand) }
        ensures in_range { place < seen_size self.old.hand → IfErr result IsInRange }
        // The history gets the look, with what it returned.
        ensures looks { IfOk result (λ _. LogsValue place self.old.hand self.new.hand) }
        ensures looks_refusal { IfErr result (LogsNoValue place self.old.hand self.new.hand) }
        ensures kept { KeepsCaller self.old self.new }
        ensures last { self.new.last ≡ self.old.last }
    {
        address_at(&self.hub.vector, &mut self.hand, place)
    }

    /// Returns the address of the value at the place, and the number of values that are filled from there on in its
    /// segment. They lie side by side.
    pub fn run(&mut self, place: u64) -> Result<(*mut u64, u64), AtError>
        ensures run { IfOk result (λ (_, n). AreSideBySide self.old.vector place n) }
        ensures refused { IfErr result
            (IsDueAt self.old.vector place self.old.hand self.new.hand) }
        ensures in_range { place < seen_size self.old.hand → IfErr result IsInRange }
        // Values that a walk finds add nothing to the history. Otherwise it gets the look, with what it returned.
        ensures looks { IfOk result (λ _. (self.new.hand ≡ self.old.hand)
            ⊎ LogsValue place self.old.hand self.new.hand) }
        ensures looks_refusal { IfErr result (LogsNoValue place self.old.hand self.new.hand) }
        ensures kept { KeepsCaller self.old self.new }
        ensures last { self.new.last ≡ self.old.last }
    {
        run_at(&self.hub.vector, &mut self.hand, place)
    }
}
