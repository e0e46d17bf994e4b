//! What holds of the table of events and of every legal history, each the contract of a call without a body.
ghost use Rattle.book_core.specs.Laws.{ClaimsAppend, OwnersFill, OwnersBreak, AnyoneMends};
ghost use Rattle.book_core.specs.Laws.{HistoriesSplit, RunsSplit, RunsAreApart, WritesSplit, HistoriesTile};
ghost use Rattle.book_core.specs.Laws.{FilledCellsStay, BrokenCellsStay};
ghost use Rattle.book_core.specs.Laws.{ValuesHaveOneWriter, LooksTellTheWritersValue, FinishesFill};

/// States that a claim up to the limit is legal, and appends its places as pending ones.
pub fn claims_append()
    ensures { ClaimsAppend }
{}

/// States that the owner of a pending cell may fill it, or break it.
pub fn owners_write()
    ensures fill { OwnersFill }
    ensures spoil { OwnersBreak }
{}

/// States that anyone may mend a broken cell, which is then pending for its mender.
pub fn anyone_mends()
    ensures { AnyoneMends }
{}

/// States that a history in two parts is two histories, one after the other.
pub fn histories_split()
    ensures { HistoriesSplit }
{}

/// States that the runs of a history in two parts are those of the first, and then those of the second, which
/// begin at or above the end of all of the first.
pub fn runs_split()
    ensures split { RunsSplit }
    ensures apart { RunsAreApart }
{}

/// States that the writes at a place in a history in two parts are those of the first part, and then those of
/// the second.
pub fn writes_split()
    ensures { WritesSplit }
{}

/// States that the runs of a history tile the places that it appends.
pub fn runs_tile()
    ensures { HistoriesTile }
{}

/// States that a filled cell stays as it is, and a broken one stays broken until it is mended.
pub fn finished_cells_stay()
    ensures filled { FilledCellsStay }
    ensures broken { BrokenCellsStay }
{}

/// States that a value which a cell holds, or which a look showed, was written once, by the owner of its
/// place or by its mender.
pub fn values_have_one_writer()
    ensures cells { ValuesHaveOneWriter }
    ensures looks { LooksTellTheWritersValue }
{}

/// States that a place which a history fills holds that value at its end, whatever else happens meanwhile.
pub fn finishes_fill()
    ensures { FinishesFill }
{}
