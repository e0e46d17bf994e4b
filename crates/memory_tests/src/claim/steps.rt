// What callers prove of steps on cells, by the laws of the word's rule alone.
ghost use Rattle.memory_tests.specs.Steps.{BegunPlacesAreFilled, UnknownPlacesAreNotBegun, PlacesArePublished};

use claim_core::{laws, step_laws};

// An own place that a hand does not know begun may be begun and filled, and nobody else can have begun it.
fn begun_places_are_filled()
    ensures filled { BegunPlacesAreFilled }
    ensures not_begun { UnknownPlacesAreNotBegun }
{
    step_laws::begins_are_permitted();
    step_laws::writes_are_permitted();
    laws::events_follow();
}

// A whole hand may lay a cell for a place past all entries, and publish it.
fn places_are_published()
    ensures { PlacesArePublished }
{
    step_laws::entries_are_permitted();
    step_laws::blocks_are_permitted();
}

#[test]
fn steps_follow_one_another() {
    places_are_published();
    begun_places_are_filled();
}
