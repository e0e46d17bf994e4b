//! What callers prove of every play by the laws alone.
ghost use Rattle.model_tests.specs.Places.{OfEveryPlay, OfEverySoundPlay, SizeIsTheSumOfRuns, EveryClaimedPlaceIsHeld};
ghost use Rattle.model_tests.specs.Places.{PendingPlacesHaveOneDebtor, HistoriesNameTheDebtor, DebtorsOwnOrMended};
ghost use Rattle.model_tests.specs.Places.{EndedCallsLeaveNoDebt, BeginsTakeTheSlot, MovesAreTheActorsClaims};
ghost use Rattle.model_tests.specs.Places.{NothingIsClaimedByNothing, MendedPlacesAreTheMenders, MendersValuesStay};
ghost use Rattle.model_tests.specs.Places.{AnsweredPlacesKeepTheValue, BrokenPlacesWaitForAMend};
ghost use Rattle.model_tests.specs.Places.{FilledPlacesHaveOneFiller};
ghost use Rattle.model_tests.specs.Places.{WholeCallsClaimTheirCells, OfEveryRecord, HaveWholeRecordsAtLoad};
ghost use Rattle.model_tests.specs.Places.{HaveWholeRecordsWhileReading, CallsFollowThePrograms, AnswersAreReplies};
ghost use Rattle.model_tests.specs.CallSteps.{OfEveryCount, EndedCallsAreWithin, CallsUnderWayAreWithin};
ghost use Rattle.model_tests.specs.Traces.{EveryItemHasItsRow};

use step_core::laws;

// The size is the sum of the claimed runs. Each claimed place has an owner, and its segment is installed. A
// pending place is owed by one actor, whom the history names. An actor between two calls has done something
// at each of its places.
fn places_known()
    ensures sum { OfEveryPlay SizeIsTheSumOfRuns }
    ensures held { EveryClaimedPlaceIsHeld }
    ensures debtor { OfEveryPlay PendingPlacesHaveOneDebtor }
    ensures named { OfEveryPlay HistoriesNameTheDebtor }
    ensures owed { OfEveryPlay DebtorsOwnOrMended }
    ensures left { OfEveryPlay EndedCallsLeaveNoDebt }
{
    laws::tiling();
    laws::stepping();
}

// A Begin takes its slot in one step. A step that moves the size is the claim of the stepping actor's own
// call. A growth of nothing moves nothing.
fn steps_known()
    ensures begins { OfEveryPlay BeginsTakeTheSlot }
    ensures moves { OfEverySoundPlay MovesAreTheActorsClaims }
    ensures nothing { OfEverySoundPlay NothingIsClaimedByNothing }
{
    laws::tiling();
    laws::interleavings();
}

// A place that holds a value was filled by one actor, its owner or a mender. A mended place is its mender's,
// and always has the mender's value once it is filled. So does the place of a push or a mend that has ended.
// A broken place is broken until somebody mends it.
fn values_known()
    ensures fillers { OfEveryPlay FilledPlacesHaveOneFiller }
    ensures mended { OfEveryPlay MendedPlacesAreTheMenders }
    ensures menders { OfEveryPlay MendersValuesStay }
    ensures answered { OfEverySoundPlay AnsweredPlacesKeepTheValue }
    ensures broken { OfEveryPlay BrokenPlacesWaitForAMend }
{
    book_core::laws::finishes_fill();
    book_core::laws::values_have_one_writer();
    laws::tiling();
    laws::records();
    laws::legal();
    laws::kept();
}

// The headline alone says this of values too.
fn values_known_by_the_headline()
    ensures answered { OfEverySoundPlay AnsweredPlacesKeepTheValue }
    ensures broken { OfEverySoundPlay BrokenPlacesWaitForAMend }
{
    book_core::laws::finishes_fill();
    laws::interleavings();
}

// The ended calls of an actor are the first ones of its program, in order, and the history has the reply that
// each of them returned. The events of an actor at Load, and of one whose read has not ended, are the records
// of its ended calls.
fn records_known()
    ensures follow { OfEveryRecord CallsFollowThePrograms }
    ensures replied { OfEveryRecord AnswersAreReplies }
    ensures at_load { OfEveryRecord HaveWholeRecordsAtLoad }
    ensures reading { OfEveryRecord HaveWholeRecordsWhileReading }
{
    laws::records();
}

// Calls that have ended and calls under way are within their bounds. A play of whole calls has a cell for
// each place of its runs.
fn calls_known()
    ensures ended { OfEveryCount EndedCallsAreWithin }
    ensures under_way { OfEveryCount CallsUnderWayAreWithin }
    ensures whole { WholeCallsClaimTheirCells }
{
    book_core::laws::runs_tile();
    laws::work();
    laws::whole_calls();
}

// A trace has a row for each item: it is of the item's actor, and shows the size after the item's step.
fn traces_known()
    ensures { EveryItemHasItsRow }
{
    laws::traces();
}
