//! How a whole hand reads how far a cell is, for a proof: its history shows the cell's place so. No call is a step.
ghost use Rattle.std.specs.Prelude.{◌≡◌, None};
ghost use Rattle.tie_core.specs.Tie.{IsMade, looks};
ghost use Rattle.claim_core.specs.Hand.{HandView, IsHandOf, IsWholeHand};
ghost use Rattle.claim_core.specs.Gain.{HasLent, IsLent, IsTiedTo};
ghost use Rattle.claim_core.specs.Plays.{ReadsBy};
ghost use Rattle.claim_core.specs.Ties.{Finds};

use crate::hand::Hand;
use crate::offers::{CellTag, HandOffer};
use crate::plays::HandPlay;
use crate::word::Word;
use std::alloc::Allocator;

/// A read of a cell. It logs nothing.
pub struct ReadCell;

impl HandPlay for ReadCell {
    ghost use Rattle.tie_core.specs.Tie.{looks};
    ghost use Rattle.claim_core.specs.Plays.{read_gains};

    ghost step = { looks };

    ghost gains = { read_gains };
}

impl Hand {
    /// Lends the seat of a whole hand for a read of the cell of a place.
    #[inline(always)]
    pub fn offer_read<'a, A: Allocator>(
        &mut self,
        word: &'a Word<A>,
        tag: &CellTag,
        place: u64,
    ) -> HandOffer<'a, ReadCell>
        requires ours { IsHandOf word.now self.old }
        requires tied { IsTiedTo word.now tag.now.tie }
        requires found { Finds self.old.rows place tag.now.tie.id }
        requires whole { IsWholeHand self.old }
        ensures lent { IsLent result.about.table_id result.about.view self.old self.new }
        ensures offer { (result.tie ≡ tag.now.tie) × (result.step ≡ looks) × (result.made ≡ None)
            × (result.about.told ≡ place) }
    {
        self.lend::<ReadCell, A>(word, tag, place)
    }

    /// Takes the seat back from a read. The hand is then what it was when it lent the seat, and its history leads
    /// to a list that shows the place as the read found the cell.
    #[inline(always)]
    pub fn take_back_read<'a>(&mut self, offer: HandOffer<'a, ReadCell>)
        requires made { IsMade offer.made }
        requires lent { HasLent offer.about.table_id offer.about.view self.old }
        ensures read { (hand : HandView)
            → IsLent offer.entry.about.table_id offer.entry.about.view hand self.old
            → ReadsBy offer.entry.about.told offer.entry.made hand self.new }
    {
        self.take_back(offer);
    }
}
