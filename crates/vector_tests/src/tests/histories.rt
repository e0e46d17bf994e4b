// What the history of an opened vector begins with, by the public clauses alone.
ghost use Rattle.std.specs.Prelude.{◌≡◌, ◌≤◌, [], ◌∷◌, Some, None, IfSome};
ghost use Rattle.grow_core.specs.Parts.{capacity_of};
ghost use Rattle.grow_core.specs.Vector.{IsHandOf};
ghost use Rattle.vector_tests.specs.Histories.{BeginsWithOneOfThree};

use grow_core::{Hand, Parts, Shared};
use std::alloc::Global;

// Appends a value and two broken members to an empty list.
fn append_three(parts: &mut Parts<u64>, value: u64)
    requires empty { parts.old.members ≡ [] }
    requires limit { 3 ≤ parts.old.limit }
    requires room { 3 ≤ capacity_of parts.old }
    ensures { parts.new.members ≡ Some value ∷ None ∷ None ∷ [] }
{
    parts.append(Some(value));
    parts.append(None);
    parts.append(None);
}

// A list of these, if there is memory for it.
pub(super) fn one_of_three(alloc: Global, value: u64) -> Option<Parts<u64>>
    ensures { IfSome result (λ parts. parts.members ≡ Some value ∷ None ∷ None ∷ []) }
{
    let mut parts = Parts::new(alloc, 8);
    match parts.room(3) {
        Ok(()) => {
            append_three(&mut parts, value);
            Some(parts)
        }
        Err(_error) => {
            drop(parts);
            None
        }
    }
}

// The history of a vector that was opened on such a list begins with just these.
fn show_first(vector: &Shared<u64>, value: u64)
    requires opened { vector.now.opened ≡ Some value ∷ None ∷ None ∷ [] }
    ensures { BeginsWithOneOfThree vector.now.word }
{
    // Only the contract speaks of the value.
    let _ = value;
    vector.laws();
}

// So does that of the vector which such a list is opened into.
fn open_one_of_three(parts: Parts<u64>, value: u64) -> Option<(Shared<u64>, Hand<u64>)>
    requires members { parts.members ≡ Some value ∷ None ∷ None ∷ [] }
    ensures ours { IfSome result (λ (vector, hand). IsHandOf vector hand) }
    ensures first { IfSome result (λ (vector, _). BeginsWithOneOfThree vector.word) }
{
    match Shared::of_parts(parts) {
        Ok((vector, hand)) => {
            show_first(&vector, value);
            Some((vector, hand))
        }
        Err(refused) => {
            drop(refused);
            None
        }
    }
}

// The size of such a vector, if there is memory for it.
fn size_of_three(alloc: Global, value: u64) -> Option<u64> {
    let parts = one_of_three(alloc, value)?;
    let (vector, mut hand) = open_one_of_three(parts, value)?;
    let size = vector.size(&mut hand);
    drop(hand);
    drop(vector);
    Some(size)
}

#[test]
fn a_history_begins_with_the_opened_list(rt: HostRuntime) {
    assert_eq!(rt; size_of_three(rt.alloc(), 5), Some(3));
}
