// How a hand finds the segments of its places, or installs them. A look at an entry, and its exchange, run a visit of the
// hand's seat, and the hand learns where the cells of the segment are.
ghost use Rattle.std.specs.Prelude.{◌≡◌, ◌≤◌, ◌<◌, ◌+◌, [], ◌∷◌, IfOk, IfSome, IfNone, IsSome};
ghost use Rattle.seg_core.specs.Segment.{HasPlace, most_places, segment_count, segment_start};
ghost use Rattle.tie_core.specs.Tags.{tag_of};
ghost use Rattle.claim_core.specs.Hand.{IsWholeHand, seen_size};
ghost use Rattle.claim_core.specs.Plays.{block_view};
ghost use Rattle.cell_core.specs.Block.{block_len};
ghost use Rattle.cell_core.specs.Mould.{first_seat, last_seat};
ghost use Rattle.table_core.specs.Table.{IsBlockOf, IsKeyIn, IsKeyOf, IsLengthOf, IsTiedBlockOf};
ghost use Rattle.grow_core.specs.Keys.{AreKeys, HasKeysOfRun, IsKeyAt, KeepsKeys, key_at, mark_of};
ghost use Rattle.grow_core.specs.Logs.{pending_look, step_of};
ghost use Rattle.grow_core.specs.Steps.{FindsMore, LooksAt};
ghost use Rattle.grow_core.specs.Ties.{IsTagFor, KnowsRow, KnowsRows};
ghost use Rattle.grow_core.specs.Vector.{IsHandOf, layout_of, limit_of};

use crate::keys::{Keys, key_of, put_key};
use crate::ties::CellBlock;
use crate::vector::Shared;
use cell_core::block::Block;
use claim_core::{BlockSeat, EntryAt, Hand as ClaimHand, RowTag};
use std::alloc::{AllocError, Global};
use std::marker::Brand;
use table_core::Key;

impl<T> Shared<T> {
    // The tag of the entry of a segment. It has no bytes.
    #[inline(always)]
    pub(crate) fn entry_tag(&self, segment: u32) -> RowTag
        requires { segment < segment_count (layout_of self.now) }
        ensures { IsTagFor self.now.word self.now.segments segment
            (tag_of result.tie result.from result.n) }
    {
        self.tags.at(u64::from(segment))
    }

    // The block of a key of the vector, by one load.
    #[inline(always)]
    pub(crate) fn known_block<'a>(&'a self, key: &Key) -> &'a CellBlock<T>
        requires { IsKeyIn self.now.segments key.now }
        ensures block { result.now ≡ key.now.block }
        ensures long { IsBlockOf (layout_of self.now) key.now.segment key.now.block }
        ensures tied { IsTiedBlockOf self.now.segments key.now.segment key.now.block }
    {
        self.table.known(key)
    }

    // Finds the segment of a place that the hand looks at, by one load. If there is none, the load logs that the place is
    // pending.
    #[inline(always)]
    pub(crate) fn scout_tied<'a>(
        &'a self,
        claims: &mut ClaimHand,
        segment: u32,
        place: u64,
    ) -> Option<(&'a CellBlock<T>, Key)>
        requires ours { IsHandOf self.now claims.old }
        requires within { segment < segment_count (layout_of self.now) }
        requires there { HasPlace (layout_of self.now) segment place }
        requires seen { place < seen_size claims.old }
        ensures block { IfSome result (λ (block, _). IsTiedBlockOf self.now.segments segment block.now) }
        ensures key { IfSome result (λ (block, key). IsKeyOf self.now.segments segment block.now key) }
        ensures row { IfSome result (λ (block, _). KnowsRow claims.new segment block.now) }
        ensures finds { FindsMore claims.old claims.new }
        ensures logs { IfNone result (LooksAt claims.old claims.new (step_of (pending_look place))) }
    {
        self.look_up::<Brand>(claims, segment, place)
    }

    // The same, with the places of the entry as the caller picks them.
    #[inline(always)]
    fn look_up<'a, R: EntryAt>(
        &'a self,
        claims: &mut ClaimHand,
        segment: u32,
        place: u64,
    ) -> Option<(&'a CellBlock<T>, Key)>
        requires ours { IsHandOf self.now claims.old }
        requires within { segment < segment_count (layout_of self.now) }
        requires there { HasPlace (layout_of self.now) segment place }
        requires seen { place < seen_size claims.old }
        requires places { (R.from ≡ segment_start (layout_of self.now) segment)
            × IsLengthOf (layout_of self.now) segment R.n }
        ensures block { IfSome result (λ (block, _). IsTiedBlockOf self.now.segments segment block.now) }
        ensures key { IfSome result (λ (block, key). IsKeyOf self.now.segments segment block.now key) }
        ensures row { IfSome result (λ (block, _). KnowsRow claims.new segment block.now) }
        ensures finds { FindsMore claims.old claims.new }
        ensures logs { IfNone result (LooksAt claims.old claims.new (step_of (pending_look place))) }
    {
        let visit = claims.visit_look::<R, Global>(&self.word, &self.entry_tag(segment), place);
        let (found, visit) = self.table.scout_key_for(segment, visit);
        claims.take_back_visit(visit);
        found
    }
}

impl<T> Shared<T> {
    // The key of the segment, if it is there, by one load, which logs nothing. The hand learns where its places stand.
    pub(crate) fn scout_row(&self, claims: &mut ClaimHand, segment: u32) -> Option<Key>
        requires ours { IsHandOf self.now claims.old }
        requires within { segment < segment_count (layout_of self.now) }
        ensures key { IfSome result (IsKeyAt (mark_of self.now.segments) segment) }
        ensures long { IfSome result (λ key. IsBlockOf (layout_of self.now) segment key.block) }
        ensures tied { IfSome result (λ key. IsTiedBlockOf self.now.segments segment key.block) }
        ensures row { IfSome result (λ key. KnowsRow claims.new segment key.block) }
        ensures finds { FindsMore claims.old claims.new }
        // No one else logs anything.
        ensures alone { IsWholeHand claims.old → claims.new.log ≡ claims.old.log }
    {
        let (_, key) = self.scout_entry::<Brand>(claims, segment)?;
        Some(key)
    }

    // The same, with the places of the entry as the caller picks them.
    fn scout_entry<'a, R: EntryAt>(
        &'a self,
        claims: &mut ClaimHand,
        segment: u32,
    ) -> Option<(&'a CellBlock<T>, Key)>
        requires ours { IsHandOf self.now claims.old }
        requires within { segment < segment_count (layout_of self.now) }
        requires places { (R.from ≡ segment_start (layout_of self.now) segment)
            × IsLengthOf (layout_of self.now) segment R.n }
        ensures block { IfSome result (λ (block, _). IsTiedBlockOf self.now.segments segment block.now) }
        ensures key { IfSome result (λ (block, key). IsKeyOf self.now.segments segment block.now key) }
        ensures row { IfSome result (λ (block, _). KnowsRow claims.new segment block.now) }
        ensures finds { FindsMore claims.old claims.new }
        // No one else logs anything.
        ensures alone { IsWholeHand claims.old → claims.new.log ≡ claims.old.log }
    {
        let visit = claims.visit_scout::<R, Global>(&self.word, &self.entry_tag(segment));
        let (found, visit) = self.table.scout_key_for(segment, visit);
        claims.take_back_visit(visit);
        found
    }
}

impl<T: Drop> Shared<T> {
    // A new block for the segment, with its seat.
    fn make_block(&self, segment: u32) -> Result<(Box<CellBlock<T>>, BlockSeat), AllocError>
        requires { segment < segment_count (layout_of self.now) }
        ensures block { IfOk result (λ (block, _). IsTiedBlockOf self.now.segments segment block.value) }
        ensures seat { IfOk result (λ (block, seat). (seat.table_id ≡ self.now.word.table)
            × (seat.id ≡ last_seat block.value.cells)
            × (seat.views ≡ block_view (first_seat block.value.cells) (block_len block.value) ∷ [])) }
    {
        let n = self.table.layout().len(segment);
        let mut seat = BlockSeat::blank();
        let (seats, tag) = self.word.lay(&mut seat, n);
        // For the proof: all ties of one desk have the same codes.
        tag.agrees(&self.cells);
        let block = Block::new_for(self.alloc, n, seats)?;
        // For the proof: the block's seat is the one behind those of its cells.
        block.ties_laws();
        Ok((Box::new(self.alloc, block)?, seat))
    }

    // Installs the segment unless it is there. The hand learns where its places stand.
    fn install_tied(&self, claims: &mut ClaimHand, segment: u32) -> Result<Key, AllocError>
        requires ours { IsHandOf self.now claims.old }
        requires within { segment < segment_count (layout_of self.now) }
        ensures key { IfOk result (IsKeyAt (mark_of self.now.segments) segment) }
        ensures row { IfOk result (λ key. KnowsRow claims.new segment key.block) }
        ensures finds { FindsMore claims.old claims.new }
    {
        if let Some(key) = self.scout_row(claims, segment) {
            return Ok(key);
        }
        let (block, seat) = self.make_block(segment)?;
        Ok(self.publish_block::<Brand>(claims, segment, block, seat))
    }

    // Sets the entry to the block, whose first cell has the seat that the caller picks, or finds another that was first.
    fn publish_block<R: EntryAt>(
        &self,
        claims: &mut ClaimHand,
        segment: u32,
        block: Box<CellBlock<T>>,
        seat: BlockSeat,
    ) -> Key
        requires ours { IsHandOf self.now claims.old }
        requires within { segment < segment_count (layout_of self.now) }
        requires block { IsTiedBlockOf self.now.segments segment block.value }
        requires seat { (seat.table_id ≡ self.now.word.table)
            × (seat.id ≡ last_seat block.value.cells)
            × (seat.views ≡ block_view (first_seat block.value.cells) (block_len block.value) ∷ []) }
        requires places { (R.from ≡ segment_start (layout_of self.now) segment)
            × (R.n ≡ block_len block.value) × (R.first ≡ first_seat block.value.cells) }
        ensures key { IsKeyAt (mark_of self.now.segments) segment result }
        ensures row { KnowsRow claims.new segment result.block }
        ensures finds { FindsMore claims.old claims.new }
    {
        let mut seat = seat;
        let tag = self.entry_tag(segment);
        let visit = claims.visit_publish::<R, Global>(&self.word, &tag, &mut seat);
        let (_, key, visit) = self.table.install_key_for(segment, block, visit);
        claims.take_back_visit(visit);
        key
    }

    // The key of the segment, which is then in the row. If it is not there yet, the segment is installed first.
    #[inline(always)]
    pub(crate) fn key_for(
        &self,
        claims: &mut ClaimHand,
        keys: &mut Keys,
        segment: u32,
    ) -> Result<Key, AllocError>
        requires ours { IsHandOf self.now claims.old }
        requires within { segment < segment_count (layout_of self.now) }
        requires keys { AreKeys (mark_of self.now.segments) keys.old }
        requires rows { KnowsRows claims.old keys.old }
        ensures keys { AreKeys (mark_of self.now.segments) keys.new }
        ensures rows { KnowsRows claims.new keys.new }
        ensures kept { KeepsKeys keys.old keys.new }
        ensures put { IfOk result (λ _. IsSome (key_at keys.new segment)) }
        ensures key { IfOk result (IsKeyAt (mark_of self.now.segments) segment) }
        ensures row { IfOk result (λ key. KnowsRow claims.new segment key.block) }
        ensures finds { FindsMore claims.old claims.new }
    {
        // For the proof: no layout has more segments than the row has keys.
        let _table = &self.table;
        match key_of(keys, segment) {
            Some(key) => Ok(key),
            None => self.find_key(claims, keys, segment),
        }
    }

    // The same of a segment whose key the row has not.
    #[cold]
    fn find_key(
        &self,
        claims: &mut ClaimHand,
        keys: &mut Keys,
        segment: u32,
    ) -> Result<Key, AllocError>
        requires ours { IsHandOf self.now claims.old }
        requires within { segment < segment_count (layout_of self.now) }
        requires keys { AreKeys (mark_of self.now.segments) keys.old }
        requires rows { KnowsRows claims.old keys.old }
        ensures keys { AreKeys (mark_of self.now.segments) keys.new }
        ensures rows { KnowsRows claims.new keys.new }
        ensures kept { KeepsKeys keys.old keys.new }
        ensures put { IfOk result (λ _. IsSome (key_at keys.new segment)) }
        ensures key { IfOk result (IsKeyAt (mark_of self.now.segments) segment) }
        ensures row { IfOk result (λ key. KnowsRow claims.new segment key.block) }
        ensures finds { FindsMore claims.old claims.new }
    {
        let key = self.install_tied(claims, segment)?;
        put_key(keys, segment, key.again());
        Ok(key)
    }

    // Installs the segments of a run unless they are there, and puts their keys into the row.
    pub(crate) fn install(
        &self,
        claims: &mut ClaimHand,
        keys: &mut Keys,
        from: u64,
        n: u64,
    ) -> Result<(), AllocError>
        requires ours { IsHandOf self.now claims.old }
        requires some { 0 < n }
        requires places { from + n ≤ most_places }
        requires keys { AreKeys (mark_of self.now.segments) keys.old }
        requires rows { KnowsRows claims.old keys.old }
        ensures keys { AreKeys (mark_of self.now.segments) keys.new }
        ensures rows { KnowsRows claims.new keys.new }
        ensures kept { KeepsKeys keys.old keys.new }
        ensures run { IfOk result (λ _. HasKeysOfRun (layout_of self.now) keys.new from n) }
        ensures finds { FindsMore claims.old claims.new }
    {
        let layout = self.table.layout();
        // For the proof: its f is that of a layout.
        let _f = layout.f();
        let (first, end) = layout.segments_of(from, n);
        for segment in first..end {
            self.key_for(claims, keys, segment)?;
        }
        Ok(())
    }

    // Installs a segment unless it is there. The hand learns nothing: it only brings its seat.
    fn install_unseen(&self, claims: &mut ClaimHand, segment: u32) -> Result<(), AllocError>
        requires ours { IsHandOf self.now claims.old }
        requires within { segment < segment_count (layout_of self.now) }
        ensures { claims.new ≡ claims.old }
    {
        if self.table.scout(segment).is_some() {
            return Ok(());
        }
        let (block, mut seat) = self.make_block(segment)?;
        let tag = self.entry_tag(segment);
        let visit = claims.visit_publish_unseen::<Global>(&self.word, &tag, &mut seat);
        let (_, visit) = self.table.install_for(segment, block, visit);
        claims.take_back_unseen(visit);
        Ok(())
    }

    // Installs the segments of the first `n` places unless they are there.
    pub(crate) fn install_first(&self, claims: &mut ClaimHand, n: u64) -> Result<(), AllocError>
        requires ours { IsHandOf self.now claims.old }
        requires some { 0 < n }
        requires within { n ≤ limit_of self.now }
        ensures { claims.new ≡ claims.old }
    {
        let layout = self.table.layout();
        // For the proof: its f is that of a layout.
        let _f = layout.f();
        let (first, end) = layout.segments_of(0, n);
        for segment in first..end {
            self.install_unseen(claims, segment)?;
        }
        Ok(())
    }
}
