//! Mending: filling a broken place.
ghost use Rattle.std.specs.Prelude.{◌≡◌, ◌<◌, ℕ, IfOk, IfErr, IsErrAnd};
ghost use Rattle.seg_core.specs.Segment.{HasPlace, segment_count};
ghost use Rattle.claim_core.specs.Hand.{seen_size};
ghost use Rattle.cell_core.specs.Block.{IsMended, block_len};
ghost use Rattle.cell_core.specs.Shown.{IsFoundIn, IsNotBroken};
ghost use Rattle.table_core.specs.Table.{IsBlockOf, IsKeyIn};
ghost use Rattle.grow_core.specs.Token.{place_in};
ghost use Rattle.grow_core.specs.Vector.{IsHandOf, IsOpenedAt, IsPlacedOf, SeesMore, layout_of};
ghost use Rattle.grow_core.specs.Mend.{IsMendDue, IsUnmendedAt, IsSeen, SaysFilled, TellsNoOther, TellsValue};
ghost use Rattle.grow_core.specs.Logs.{LogsNothing, LogsMend, LogsMendRefusal, IsFinishedIn};
ghost use Rattle.grow_core.specs.Shown.{found_steps, unmended_steps};
ghost use Rattle.grow_core.specs.Steps.{FindsMore};

use crate::errors::MendError;
use crate::hand::Hand;
use crate::token::Placed;
use crate::vector::Shared;
use cell_core::block;
use claim_core::laws;
use table_core::Key;

impl<T> Shared<T> {
    /// Fills a broken place, by one load of the size and one step of the place's state from broken to
    /// busy; that step takes the place. It waits for nobody, and takes no memory.
    #[tactic(auto, using(crate::proofs::Cells::small_cell))]
    pub fn mend(
        &self,
        hand: &mut Hand<T>,
        place: u64,
        value: T,
    ) -> Result<Placed<T>, (MendError<T>, T)>
        requires ours { IsHandOf self.now hand.old }
        ensures token { IfOk result (IsPlacedOf self.now) }
        ensures here { IfOk result (λ placed. placed.place ≡ place) }
        ensures value { IfOk result (λ placed. placed.value ≡ value) }
        // The step found the place broken.
        ensures mended { IfOk result (λ placed. IsMended placed.cell) }
        ensures below { IfOk result (λ _. place < seen_size hand.new) }
        ensures refused { IfErr result
            (λ (error, _). IsMendDue self.now place hand.old hand.new error) }
        ensures value_back { IfErr result (λ (_, back). back ≡ value) }
        // A value of the opened list is found by everybody.
        ensures opened { (x : T) → IsOpenedAt self.now place x
            → IsErrAnd result (λ (error, _). TellsValue x error) }
        // A place that was claimed stays claimed.
        ensures in_range { place < seen_size hand.old → IfErr result (λ (error, _). IsSeen error) }
        ensures hand { SeesMore hand.old hand.new }
        // The history gets the look at a place that is not below the size.
        ensures logs { IfOk result (λ _. LogsNothing hand.old hand.new) }
        ensures logs_refusal { IfErr result
            (λ (error, _). LogsMendRefusal place hand.old hand.new error) }
        // It gets the mend and its fill, or the look that found the place pending or filled.
        ensures mends { LogsMend self.now place hand.old hand.new result }
        // A caller that has seen the place filled in the history finds it filled.
        ensures finished { IsFinishedIn hand.old.log place
            → IsErrAnd result (λ (error, _). SaysFilled error) }
    {
        // For the proof: a place that a history fills stays so, and so does a value of the opened list.
        laws::finished_places_are_found();
        laws::opened_values_are_found();
        let size = self.size_past(hand, place);
        if place >= size {
            // For the proof: the hand's history is a legal one.
            hand.laws();
            return Err((MendError::OutOfRange { size }, value));
        }
        // For the proof: the size is within the limit.
        self.laws();
        hand.laws();
        let (segment, offset) = self.table.layout().locate(place);
        let mended = self.mend_seen(hand, segment, offset, place, value);
        // For the proof: the hand's history is a legal one.
        hand.laws();
        mended
    }

    // The same of a place that the hand has seen claimed.
    #[tactic(auto, using(crate::proofs::Cells::small_cell))]
    fn mend_seen(
        &self,
        hand: &mut Hand<T>,
        segment: u32,
        offset: u64,
        place: u64,
        value: T,
    ) -> Result<Placed<T>, (MendError<T>, T)>
        requires ours { IsHandOf self.now hand.old }
        requires seen { place < seen_size hand.old }
        requires within { segment < segment_count (layout_of self.now) }
        requires there { HasPlace (layout_of self.now) segment place }
        requires place { place ≡ place_in (layout_of self.now) segment offset }
        ensures token { IfOk result (IsPlacedOf self.now) }
        ensures here { IfOk result (λ placed. placed.place ≡ place) }
        ensures value { IfOk result (λ placed. placed.value ≡ value) }
        ensures mended { IfOk result (λ placed. IsMended placed.cell) }
        ensures refused { IfErr result (λ (error, _). IsUnmendedAt self.now place error) }
        ensures value_back { IfErr result (λ (_, back). back ≡ value) }
        // A value that is found is that of the opened list, if this has one there.
        ensures opened { (x : T) → IsOpenedAt self.now place x
            → IfErr result (λ (error, _). TellsNoOther x error) }
        ensures finds { FindsMore hand.old hand.new }
        ensures mends { LogsMend self.now place hand.old hand.new result }
    {
        let Some((block, key)) = self.scout_tied(&mut hand.claims, segment, place) else {
            return Err((MendError::Pending, value));
        };
        match self.take_tied(&mut hand.claims, block, &key, place, offset) {
            Ok(pen) => {
                let cell = self.fill_taken(
                    &mut hand.claims,
                    block,
                    &key,
                    place,
                    offset,
                    pen,
                    value,
                );
                Ok(Placed { key, cell })
            }
            Err(found) => Err((self.unmended(key, offset, found), value)),
        }
    }

    // Why a cell of the segment with this key was not taken: it is not broken.
    #[cold]
    #[tactic(auto, using(crate::proofs::Cells::small_cell))]
    fn unmended(&self, key: Key, offset: u64, found: block::Found<T>) -> MendError<T>
        requires key { IsKeyIn self.now.segments key }
        requires long { IsBlockOf (layout_of self.now) key.segment key.block }
        requires within { offset < block_len key.block }
        requires found { IsFoundIn key.block offset found }
        requires not_broken { IsNotBroken found }
        ensures refused { IsUnmendedAt self.now
            (place_in (layout_of self.now) key.segment offset) result }
        ensures opened { (x : T) → IsOpenedAt self.now (place_in (layout_of self.now) key.segment offset) x → TellsNoOther x result }
        ensures steps { (place : ℕ) → unmended_steps place result ≡ found_steps place found }
    {
        // Only the contract speaks of the offset.
        let _ = offset;
        match found {
            block::Found::Filled(cell) => {
                let placed = Placed { key, cell };
                self.opened_agrees(&placed);
                MendError::Filled(placed)
            }
            block::Found::Empty | block::Found::Busy(_) => MendError::Pending,
            block::Found::Broken(_) => unreachable!(),
        }
    }
}
