//! Laws over the definitions alone, each the contract of a call without a body.
ghost use Rattle.step_core.specs.calls.Laws.{CallsPlay, CallsAreLegal};
ghost use Rattle.step_core.specs.machine.Headline.{EveryInterleavingIsSequential};
ghost use Rattle.step_core.specs.machine.Legal.{EveryPlayIsLegal};
ghost use Rattle.step_core.specs.machine.Kept.{EveryPlayKeepsFilledCells, EveryPlayKeepsBrokenCells};
ghost use Rattle.step_core.specs.machine.Play.{PlaysBeginAtTheFirst, PlaysGoOnByAStep, PlaysKeepTheLayout};
ghost use Rattle.step_core.specs.machine.Record.{EveryPlayIsRecorded};
ghost use Rattle.step_core.specs.machine.Tiling.{EveryPlayIsTiled};
ghost use Rattle.step_core.specs.machine.Trace.{EveryItemIsTraced};
ghost use Rattle.step_core.specs.machine.Work.{EveryCallIsBounded};

/// States what holds of every play of whole calls.
pub fn whole_calls()
    ensures plays { CallsPlay }
    ensures legal { CallsAreLegal }
{}

/// States what holds of the places of every play of the machine, for any programs, any schedule and any marks
/// of memory.
pub fn tiling()
    ensures { EveryPlayIsTiled }
{}

/// States that the events of every play, with their replies, are a history of the sequential vector.
pub fn legal()
    ensures { EveryPlayIsLegal }
{}

/// States that the events of every actor in every play are the records of its calls, in its program's order.
pub fn records()
    ensures { EveryPlayIsRecorded }
{}

/// States that a cell that a reader finds filled is found the same after every further item, and a broken one
/// until its mend.
pub fn kept()
    ensures filled { EveryPlayKeepsFilledCells }
    ensures broken { EveryPlayKeepsBrokenCells }
{}

/// States the headline: in every play, every reply is the one that a sequential vector of cells gives in one
/// legal history.
///
/// That history holds each call that claimed once, at its claim, in its caller's order; its runs tile the
/// claimed size; a filled cell keeps the value that it was filled with; and a refused construction breaks
/// its own cells alone.
pub fn interleavings()
    ensures { EveryInterleavingIsSequential }
{}

/// States that a machine which has taken the steps of a schedule is in the configuration of its play.
pub fn stepping()
    ensures begins { PlaysBeginAtTheFirst }
    ensures goes_on { PlaysGoOnByAStep }
    ensures layout { PlaysKeepTheLayout }
{}

/// States that a trace has a row for each item of a schedule, of the step that the item takes in the play of
/// those before it.
pub fn traces()
    ensures { EveryItemIsTraced }
{}

/// States that no call of any play takes more than it may, ended or under way.
///
/// It loses no more exchanges than others made the size larger since its first step. A round touches at most
/// 40 segments, and no more than the most that its places touch anywhere within the limit. A growth of n
/// places takes a step, then two at each segment of a round and one at the round's end, and two at each
/// place; a mend takes at most three steps, a read two, and a look at the size one.
pub fn work()
    ensures { EveryCallIsBounded }
{}
