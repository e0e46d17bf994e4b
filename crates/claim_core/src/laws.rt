//! What follows from the definitions of runs, hands and histories alone, for proofs about several hands or steps.
//! No call does anything.
ghost use Rattle.claim_core.specs.Laws.{RunsStay, RunsWereThere, RunsAreApart, PlacesStay};
ghost use Rattle.claim_core.specs.Laws.{AddedRunsAreOwned, AddedRunsAreLast};
ghost use Rattle.claim_core.specs.Laws.{SeenRunsStay, SeenRunsWereThere, SeenRunsAreWithin, SeenRunsHavePlaces};
ghost use Rattle.claim_core.specs.Laws.{OwnRunsStay, OwnersAreApart, JoinedOwnersAreApart};
ghost use Rattle.claim_core.specs.Laws.{AddedPlacesAddUp, JoinedPlacesAddUp, JoinedHandsOwnRuns, SinglePlacesDiffer, OwnRunsAreFacts};
ghost use Rattle.claim_core.specs.Laws.{OwnPlacesStay, AddedPlacesAreOwned, AddedPlacesAreOfTheRun, JoinedPlacesAreOfEither};
ghost use Rattle.claim_core.specs.Laws.{OwnCountsStay};
ghost use Rattle.claim_core.specs.Laws.{EventsFollow, PrefixesAddNothing, StepsGoOn, StepsStay};
ghost use Rattle.claim_core.specs.Laws.{FirstPlacesAreTold, SizesCountClaims, ClaimsBeginAtTheSize, ClaimsHaveTheirTurn};
ghost use Rattle.claim_core.specs.Laws.{FilledPlacesStay, FillsAreOnce, FillsHaveOwners, BreaksHaveOwners};
ghost use Rattle.claim_core.specs.Laws.{FinishedPlacesAreFound, ShownPlacesAreFinished, HistoriesAreOne};
ghost use Rattle.claim_core.specs.Laws.{OpenedValuesAreFound, OpenedValuesAreNotMended, FirstStagesGoInOrder};
ghost use Rattle.claim_core.specs.Laws.{AddedPlacesAreNotBegun};
ghost use Rattle.claim_core.specs.Laws.{BegunRunsAreFilled, BegunPlacesAreOfTheRun};
ghost use Rattle.claim_core.specs.Laws.{NothingIsNote, FullIsNote, GrowthIsNote, ReachIsNote, RangeIsNote};

/// States that a run stays where it is when the list grows.
pub fn runs_stay()
    ensures { RunsStay }
{}

/// States that a run of a list is a run of a prefix, if its index is below the prefix's length.
pub fn runs_were_there()
    ensures { RunsWereThere }
{}

/// States that two runs of one list that share a place are the same.
pub fn runs_are_apart()
    ensures { RunsAreApart }
{}

/// States that runs keep their number of places when the list grows.
pub fn places_stay()
    ensures { PlacesStay }
{}

/// States that a run that a step adds is the hand's own.
pub fn added_runs_are_owned()
    ensures { AddedRunsAreOwned }
{}

/// States that a run that a step adds has the last index of all that the hand has seen, a new one.
pub fn added_runs_are_last()
    ensures { AddedRunsAreLast }
{}

/// States that a run that was seen stays the same in whatever is seen later.
pub fn seen_runs_stay()
    ensures { SeenRunsStay }
{}

/// States that a run seen later under an index seen before is the run seen before.
pub fn seen_runs_were_there()
    ensures { SeenRunsWereThere }
{}

/// States that a run that was seen lies between the base and the size that was seen.
pub fn seen_runs_are_within()
    ensures { SeenRunsAreWithin }
{}

/// States that a place belongs to a run that was seen exactly if it lies in the run of that index.
pub fn seen_runs_have_places()
    ensures { SeenRunsHavePlaces }
{}

/// States that a hand that has seen more owns the runs that it owned.
pub fn own_runs_stay()
    ensures { OwnRunsStay }
{}

/// States that two hands have disjoint runs if they own no common run and have seen the same, as after a
/// meeting.
pub fn owners_are_apart()
    ensures { OwnersAreApart }
{}

/// States that two hands have disjoint runs if they own no common run and have seen prefixes of one list, as
/// when they are joined.
pub fn joined_owners_are_apart()
    ensures { JoinedOwnersAreApart }
{}

/// States that a hand that has seen more owns the same places.
pub fn own_places_stay()
    ensures { OwnPlacesStay }
{}

/// States that a hand that has seen more owns the same number of places.
pub fn own_counts_stay()
    ensures { OwnCountsStay }
{}

/// States that a hand owns the places of a run that a step adds.
pub fn added_places_are_owned()
    ensures { AddedPlacesAreOwned }
{}

/// States that a hand with an added run owns the places that it owned and those of the run.
pub fn added_places_are_of_the_run()
    ensures { AddedPlacesAreOfTheRun }
{}

/// States that a joined hand owns the places that either hand owned.
pub fn joined_places_are_of_either()
    ensures { JoinedPlacesAreOfEither }
{}

/// States that a hand with an added run owns that run's number of places more.
pub fn added_places_add_up()
    ensures { AddedPlacesAddUp }
{}

/// States that the numbers of places of two hands add up when the hands are joined.
pub fn joined_places_add_up()
    ensures { JoinedPlacesAddUp }
{}

/// States that a joined hand owns the runs that either hand owned.
pub fn joined_hands_own_runs()
    ensures { JoinedHandsOwnRuns }
{}

/// States that single places of two hands differ if the hands own no common run and have seen the same, as
/// after a meeting.
pub fn single_places_differ()
    ensures { SinglePlacesDiffer }
{}

/// States that a hand's ownership of a run can be stated without the run's index, so that a ghost field can
/// hold it.
pub fn own_runs_are_facts()
    ensures { OwnRunsAreFacts }
{}

/// States that what two steps add to a history is added in two parts, in this order.
pub fn events_follow()
    ensures { EventsFollow }
{}

/// States that a history goes on exactly if no event is added to it.
pub fn prefixes_add_nothing()
    ensures { PrefixesAddNothing }
{}

/// States that a list of steps can have one more.
pub fn steps_go_on()
    ensures { StepsGoOn }
{}

/// States that what was added to a history stays in each history that goes on.
pub fn steps_stay()
    ensures { StepsStay }
{}

/// States that a history begins with each place below the word's base, which has a value or is broken.
pub fn first_places_are_told()
    ensures { FirstPlacesAreTold }
{}

/// States that in a legal history a size is that of all claims before it, a claim begins there, and the index of
/// a claim is the number of claims before it, so that none is there twice.
pub fn histories_count_claims()
    ensures sizes { SizesCountClaims }
    ensures begins { ClaimsBeginAtTheSize }
    ensures turns { ClaimsHaveTheirTurn }
{}

/// States that a load or a lost exchange may log nothing, for a growth by no places, for one that finds no
/// room, for a growth up to a size that is not needed or not possible, and for a look past the size.
pub fn refusals_are_notes()
    ensures nothing { NothingIsNote }
    ensures full { FullIsNote }
    ensures growth { GrowthIsNote }
    ensures reach { ReachIsNote }
    ensures range { RangeIsNote }
{}

/// States that a place which a history fills has its value from then on, and is filled once. What fills or breaks a
/// place is the claim whose run has it, or an actor that took it for mending.
pub fn places_are_filled_once()
    ensures stay { FilledPlacesStay }
    ensures once { FillsAreOnce }
    ensures owners { FillsHaveOwners }
    ensures breakers { BreaksHaveOwners }
{}

/// States that a hand knows no place begun of a run that a step adds.
pub fn added_places_are_not_begun()
    ensures { AddedPlacesAreNotBegun }
{}

/// States that a look shows the value of a place that was filled before it in the history.
pub fn finished_places_are_found()
    ensures { FinishedPlacesAreFound }
{}

/// States that a place which a word begins with, and which has a value, shows it to each look, and is never taken for
/// mending.
pub fn opened_values_are_found()
    ensures found { OpenedValuesAreFound }
    ensures not_mended { OpenedValuesAreNotMended }
{}

/// States at which stage each cell is of those that a word is opened with.
pub fn first_stages_go_in_order()
    ensures { FirstStagesGoInOrder }
{}

/// States that a place was filled before a look that shows its value, unless the history begins with the place.
pub fn shown_places_are_finished()
    ensures { ShownPlacesAreFinished }
{}

/// States that one of two histories goes on from the other, if one history goes on from both.
pub fn histories_are_one()
    ensures { HistoriesAreOne }
{}

/// States what a step on a run of cells adds: if it fills cells that were begun, a fill of each place in order; if it
/// begins them, the run's places.
pub fn runs_go_in_order()
    ensures fills { BegunRunsAreFilled }
    ensures begins { BegunPlacesAreOfTheRun }
{}
