//! What the rule of the word permits beside seats of cells and entries, for proofs that tie them to a word. No call
//! does anything.
ghost use Rattle.claim_core.specs.StepLaws.{LooksArePermitted, FillsArePermitted, BreaksArePermitted};
ghost use Rattle.claim_core.specs.StepLaws.{MendsArePermitted};
ghost use Rattle.claim_core.specs.StepLaws.{BeginsArePermitted, TriesArePermitted};
ghost use Rattle.claim_core.specs.StepLaws.{BareLooksArePermitted, ScoutsArePermitted, RowsArePermitted};
ghost use Rattle.claim_core.specs.StepLaws.{PublishingIsPermitted, UnseenPublishingIsPermitted};
ghost use Rattle.claim_core.specs.StepLaws.{LayingIsPermitted, EntriesArePermitted, AdoptionIsPermitted};
ghost use Rattle.claim_core.specs.StepLaws.{WholeHandsShowAll, ClaimsAreNotBegun};

/// States that a look at a cell logs what the cell's stage says.
pub fn looks_are_permitted()
    ensures { LooksArePermitted }
{}

/// States that a cell which one call has may be filled or broken, and that this logs the event of the actor whose
/// run has the place, or of its mender; and that a try to mend a cell logs the mend, or what a look shows.
pub fn writes_are_permitted()
    ensures fills { FillsArePermitted }
    ensures breaks { BreaksArePermitted }
    ensures mends { MendsArePermitted }
{}

/// States that a hand may begin its own places: in a step that changes no word, one that it does not know begun,
/// which was idle; by an exchange, any of them.
pub fn begins_are_permitted()
    ensures load { BeginsArePermitted }
    ensures exchange { TriesArePermitted }
{}

/// States that a look which finds no entry logs that the place is pending, or nothing if it names none, and that a
/// hand which finds an entry learns where its places stand.
pub fn entries_are_found()
    ensures bare { BareLooksArePermitted }
    ensures nothing { ScoutsArePermitted }
    ensures rows { RowsArePermitted }
{}

/// States that a block may be made, and that an entry which is not set may be set to it, by a hand that learns where
/// its places stand, or that learns nothing.
pub fn blocks_are_permitted()
    ensures laying { LayingIsPermitted }
    ensures publishing { PublishingIsPermitted }
    ensures unseen { UnseenPublishingIsPermitted }
{}

/// States that a whole hand may make an entry past all that there are: not set, past the places that the word began
/// with; or set to a block whose cells are as the word was opened.
pub fn entries_are_permitted()
    ensures empty { EntriesArePermitted }
    ensures adopted { AdoptionIsPermitted }
{}

/// States that the history of a hand with all shares shows each place as its cell is.
pub fn whole_hands_show_all()
    ensures { WholeHandsShowAll }
{}

/// States that after a claim the hand knows none of its places begun.
pub fn claims_are_not_begun()
    ensures { ClaimsAreNotBegun }
{}
