//! How a vector is closed: it becomes an owner's list.
ghost use Rattle.std.specs.Prelude.{◌≡◌, ◌+◌, ◌<◌, ◌≤◌, ℕ, min, Some, None, IfSome, IsSome, IsTrue, IsFalse, length};
ghost use Rattle.claim_core.specs.Gain.{IsTiedTo};
ghost use Rattle.claim_core.specs.Hand.{IsWholeHand, OwnsPlace, seen_size};
ghost use Rattle.seg_core.specs.Segment.{HasPlace, IsLayout, segment_count, segment_end, segment_start, most_segments};
ghost use Rattle.table_core.specs.Table.{IsBlockOf, IsKeyIn, IsLengthOf, IsTiedBlockOf};
ghost use Rattle.grow_core.specs.Keys.{IsKeyAt, AreKeys, key_at, layout_in, mark_of};
ghost use Rattle.grow_core.specs.Parts.{AreLong, HasFirstKeys};
ghost use Rattle.grow_core.specs.Steps.{FindsMore};
ghost use Rattle.grow_core.specs.Ties.{KnowsRow};
ghost use Rattle.grow_core.specs.Vector.{IsHandOf, layout_of, limit_of};
ghost use Rattle.grow_core.specs.Closing.{AreFixed, AreKnown, AreOpenedKeys, AreToldBy, IsClosedFrom, IsListOfHistory, IsListSoFar, IsTiedByCells, KeepsValues};

use crate::blocks::{put_block, take_block};
use crate::hand::Hand;
use crate::keys::{Keys, key_of, keys_again, no_keys};
use crate::open::Segments;
use crate::parts::Parts;
use crate::settle_cells::{Opened, settle_cells};
use crate::ties::{CellBlock, SegmentTable};
use crate::vector::Shared;
use book_core::laws::runs_tile;
use cell_core::block::{Epoch, Row};
use claim_core::{CellTag, EntryAt, Hand as ClaimHand, Mark, Word};
use seg_core::Layout;
use std::alloc::Global;
use std::marker::{Brand, Model};
use table_core::Key;

impl<T> Shared<T> {
    // The hand learns where the places of a segment stand whose key is there, by one load, which logs nothing.
    fn learn_row(&self, claims: &mut ClaimHand, key: &Key)
        requires ours { IsHandOf self.now claims.old }
        requires key { IsKeyIn self.now.segments key.now }
        ensures tied { IsTiedBlockOf self.now.segments key.now.segment key.now.block }
        ensures row { KnowsRow claims.new key.now.segment key.now.block }
        ensures finds { FindsMore claims.old claims.new }
        // No one else logs anything.
        ensures alone { IsWholeHand claims.old → claims.new.log ≡ claims.old.log }
    {
        self.learn_entry::<Brand>(claims, key)
    }

    // The same, with the places of the entry as the caller picks them.
    fn learn_entry<R: EntryAt>(&self, claims: &mut ClaimHand, key: &Key)
        requires ours { IsHandOf self.now claims.old }
        requires key { IsKeyIn self.now.segments key.now }
        requires places { (R.from ≡ segment_start (layout_of self.now) key.now.segment)
            × IsLengthOf (layout_of self.now) key.now.segment R.n }
        ensures tied { IsTiedBlockOf self.now.segments key.now.segment key.now.block }
        ensures row { KnowsRow claims.new key.now.segment key.now.block }
        ensures finds { FindsMore claims.old claims.new }
        // No one else logs anything.
        ensures alone { IsWholeHand claims.old → claims.new.log ≡ claims.old.log }
    {
        let tag = self.entry_tag(key.segment());
        let visit = claims.visit_scout::<R, Global>(&self.word, &tag);
        let (_, visit) = self.table.known_for(key, visit);
        claims.take_back_visit(visit);
    }

    // The key of a segment if the hand has it.
    fn own_key(&self, hand: &Hand<T>, segment: u32) -> Option<Key>
        requires ours { IsHandOf self.now hand.now }
        requires within { segment < segment_count (layout_of self.now) }
        ensures key { IfSome result (IsKeyAt (mark_of self.now.segments) segment) }
        ensures long { IfSome result (λ key. IsBlockOf (layout_of self.now) segment key.block) }
        ensures by { IfSome result (λ key. IsTiedBlockOf self.now.segments segment key.block) }
        ensures row { IfSome result (λ key. KnowsRow hand.now segment key.block) }
        ensures there { (place : ℕ) → OwnsPlace hand.now place
            → HasPlace (layout_of self.now) segment place → IsSome result }
    {
        // For the proof: the segments of the layout are few, and the hand has the mark.
        let _table = &self.table;
        let keys = hand.keys();
        match key_of(keys, segment) {
            Some(key) => {
                self.known_block(&key);
                Some(key)
            }
            None => None,
        }
    }

    // The key of a segment if the opened list has it, or the hand. The hand then knows where the segment's cells are. A
    // whole hand learns of no event, since nobody adds one.
    fn known_key(&self, opened: &Keys, hand: &mut Hand<T>, segment: u32) -> Option<Key>
        requires ours { IsHandOf self.now hand.old }
        requires whole { IsWholeHand hand.old }
        requires within { segment < segment_count (layout_of self.now) }
        requires opened { AreOpenedKeys self.now opened.now }
        ensures key { IfSome result (IsKeyAt (mark_of self.now.segments) segment) }
        ensures long { IfSome result (λ key. IsBlockOf (layout_of self.now) segment key.block) }
        ensures by { IfSome result (λ key. IsTiedBlockOf self.now.segments segment key.block) }
        ensures row { IfSome result (λ key. KnowsRow hand.new segment key.block) }
        ensures finds { FindsMore hand.old hand.new }
        ensures log { hand.new.log ≡ hand.old.log }
        ensures first { IsSome (key_at opened.now segment) → result ≡ key_at opened.now segment }
        ensures there { (place : ℕ) → OwnsPlace hand.old place
            → HasPlace (layout_of self.now) segment place → IsSome result }
    {
        // For the proof: the segments of the layout are few.
        let _table = &self.table;
        match key_of(opened, segment) {
            Some(key) => {
                self.learn_row(&mut hand.claims, &key);
                Some(key)
            }
            None => self.own_key(hand, segment),
        }
    }

    // The same, or otherwise one found by a look at the table.
    #[tactic(auto, using(crate::proofs::Works::finds_none, crate::proofs::KeyRows::none_is_none))]
    fn last_key(&self, opened: &Keys, hand: &mut Hand<T>, segment: u32) -> Option<Key>
        requires ours { IsHandOf self.now hand.old }
        requires whole { IsWholeHand hand.old }
        requires within { segment < segment_count (layout_of self.now) }
        requires opened { AreOpenedKeys self.now opened.now }
        ensures key { IfSome result (IsKeyAt (mark_of self.now.segments) segment) }
        ensures long { IfSome result (λ key. IsBlockOf (layout_of self.now) segment key.block) }
        ensures by { IfSome result (λ key. IsTiedBlockOf self.now.segments segment key.block) }
        ensures row { IfSome result (λ key. KnowsRow hand.new segment key.block) }
        ensures finds { FindsMore hand.old hand.new }
        ensures log { hand.new.log ≡ hand.old.log }
        ensures first { IsSome (key_at opened.now segment) → result ≡ key_at opened.now segment }
        // The segment of a place that was claimed is there.
        ensures there { (place : ℕ) → OwnsPlace hand.old place
            → HasPlace (layout_of self.now) segment place → IsSome result }
    {
        match self.known_key(opened, hand, segment) {
            Some(key) => Some(key),
            None => self.scout_row(&mut hand.claims, segment),
        }
    }

    // The keys of the first segments, and how many there are.
    #[tactic(auto, using(crate::proofs::LastKeys::claimed_below, crate::proofs::LastKeys::all_within, crate::proofs::Places::starts_le))]
    pub(crate) fn first_keys(&self, opened: &Keys, hand: &mut Hand<T>) -> (Keys, u32)
        requires ours { IsHandOf self.now hand.old }
        requires whole { IsWholeHand hand.old }
        requires opened { AreOpenedKeys self.now opened.now }
        ensures named { AreKeys (mark_of self.now.segments) result.0 }
        ensures long { AreLong (layout_of self.now) result.0 }
        ensures there { HasFirstKeys result.0 result.1 }
        ensures few { result.1 ≤ segment_count (layout_of self.now) }
        ensures first { (s : ℕ) → s < result.1 → IsSome (key_at opened.now s)
            → key_at result.0 s ≡ key_at opened.now s }
        ensures none { (s : ℕ) → s < most_segments → result.1 ≤ s → key_at result.0 s ≡ None }
        // The places of the list and those that were claimed since are in these segments.
        ensures all { seen_size hand.old ≤ segment_start (layout_of self.now) result.1 }
        ensures rows { AreKnown self.now.segments hand.new result.0 }
        ensures finds { FindsMore hand.old hand.new }
        ensures log { hand.new.log ≡ hand.old.log }
    {
        let layout = self.table.layout();
        // For the proof: its f is that of a layout; a whole hand owns every place; and the list lies below the limit.
        let _f = layout.f();
        hand.whole_laws();
        hand.laws();
        self.laws();
        let mut keys = no_keys();
        for segment in 0..layout.segments() {
            let Some(key) = self.last_key(opened, hand, segment) else {
                return (keys, segment)
            };
            keys.set(segment, Some(key));
        }
        (keys, layout.segments())
    }
}

// One past the last place that the segment has, of a vector of this size.
fn end_in(layout: Layout, segment: u32, size: u64) -> u64
    requires layout { IsLayout layout }
    requires within { segment < segment_count layout }
    ensures { result ≡ min (segment_end layout segment) size }
{
    size.min(layout.first(segment) + layout.len(segment))
}

// Learns of each cell of a segment how far it is, which is as the history's list says. It is no step.
#[tactic(auto, using(crate::proofs::Fixing::all_fixed, crate::proofs::Fixing::all_told))]
fn fix_cells<T>(
    word: &Word<Global>,
    claims: &mut ClaimHand,
    cells: &CellTag,
    layout: Layout,
    segment: u32,
    block: &mut CellBlock<T>,
)
    requires ours { claims.old.of ≡ word.now }
    requires whole { IsWholeHand claims.old }
    requires tied { IsTiedTo word.now cells.now.tie }
    requires layout { IsLayout layout }
    requires mark { layout_in claims.old.of.mark ≡ layout }
    requires within { segment < segment_count layout }
    requires long { IsBlockOf layout segment block.old }
    requires by { IsTiedByCells cells.now.tie block.old }
    requires row { KnowsRow claims.old segment block.old }
    ensures fixed { AreFixed block.old block.new }
    ensures told { AreToldBy claims.old layout segment block.new }
    ensures kept { claims.new ≡ claims.old }
{
    // For the proof: reading the length shows the type's invariant.
    let n = block.len();
    let from = layout.first(segment);
    // For the proof: the cells have seats with numbers in a row.
    block.ties_laws();
    let tag = cells.numbered(&*block);
    for i in 0..n {
        let offer = claims.offer_read(word, &tag.further(i), from + i);
        let offer = block.fix_for(i, offer);
        claims.take_back_read(offer);
    }
}

// A vector whose first `len` places are members of a list already. Its word is open, and the hand that has all shares
// is there, until no cell has a seat any more.
#[derive(Drop)]
struct Closing<T> {
    word: Word<Global>,
    claims: ClaimHand,
    cells: CellTag,
    // The first segment that is not closed yet.
    next: u32,
    table: SegmentTable<T>,
    before: Keys,
    keys: Keys,
    opened: Opened<T>,
    row: Row<T>,
    epoch: Epoch,
    broken: u64,
    len: u64,
    limit: u64,
    count: u32,
    size: u64,
    mark: Mark,
    alloc: Global,
}

impl<T> Model for Closing<T> {
    ghost use Rattle.std.specs.Prelude.{◌≡◌};
    ghost use Rattle.grow_core.specs.Parts.{broken_count, values_in};
    ghost use Rattle.grow_core.specs.Closing.{ClosingView, closing_coded, IsClosing, IsStillOpen};

    ghost Value = { ClosingView T };

    ghost coded = { closing_coded T.code };

    ghost view = { λ c. record {
      opened = values_in c.opened;
      members = values_in c.row;
      limit = c.limit;
      size = c.size;
      layout = c.table.layout;
      mark = c.mark.numbers;
      cells = c.cells.tie;
      hand = c.claims;
      next = c.next;
      count = c.count;
    } };

    ghost invariant = { λ c. IsClosing c.table.layout c.mark.numbers c.before c.table.names c.keys
        c.opened c.row c.epoch c.len c.limit c.count c.size
        × (c.broken ≡ broken_count (values_in c.row))
        × IsStillOpen c.word c.claims c.cells.tie c.table.layout c.next c.count c.size c.keys
        c.row };
}

impl<T: Drop> Closing<T> {
    // No place is a member yet.
    fn of(vector: Shared<T>, hand: Hand<T>) -> Closing<T>
        requires ours { IsHandOf vector hand }
        requires whole { IsWholeHand hand }
        ensures opened { result.opened ≡ vector.opened }
        ensures members { length result.members ≡ 0 }
        ensures limit { result.limit ≡ limit_of vector }
        ensures size { result.size ≡ seen_size hand }
        ensures layout { result.layout ≡ layout_of vector }
        ensures mark { result.mark ≡ mark_of vector.segments }
        ensures of { result.hand.of ≡ vector.word }
        ensures log { result.hand.log ≡ hand.log }
    {
        // For the proof: the vector's base is within its limit, and the hand's places are within its size.
        vector.laws();
        hand.laws();
        let mut hand = hand;
        let limit = vector.limit();
        let size = hand.seen();
        let alloc = vector.alloc;
        let (word, table, row, cells, before, count) = vector.take_apart_by(&mut hand);
        let mark = Mark::of::<SegmentTable<T>, Segments>(&table);
        let Hand { claims, .. } = hand;
        let base = word.base();
        Closing {
            word,
            claims,
            cells,
            next: 0,
            table,
            keys: keys_again(&before),
            before,
            opened: Opened { row, base },
            row: Row::new(),
            epoch: Epoch::new(),
            broken: 0,
            len: 0,
            limit,
            count,
            size,
            mark,
            alloc,
        }
    }

    // Tests whether there are places that are not members yet.
    fn is_open(&self) -> bool
        ensures open_still { IsTrue result → length self.now.members < self.now.size }
        ensures done { IsFalse result → length self.now.members ≡ self.now.size }
    {
        self.len < self.size
    }

    // The places of the next segment are members.
    fn settle_segment(&mut self)
        requires { length self.old.members < self.old.size }
        ensures more { length self.old.members < length self.new.members }
        ensures rest_kept { self.new
            ≡ record self.old { members = self.new.members; next = self.new.next } }
    {
        // For the proof: the hand has seen all that was claimed, and owns it; and the list of a history has those
        // places.
        self.claims.whole_laws();
        runs_tile();
        let (segment, offset, mut block) = take_block(
            &mut self.table,
            &self.keys,
            self.count,
            self.len,
        );
        fix_cells(
            &self.word,
            &mut self.claims,
            &self.cells,
            self.table.layout(),
            segment,
            &mut block,
        );
        let end = end_in(self.table.layout(), segment, self.size);
        let n = end - self.len;
        self.broken += settle_cells(
            &mut block,
            offset,
            &self.opened,
            self.len,
            n,
            &mut self.row,
            &self.epoch,
        );
        put_block(&mut self.table, &mut self.keys, segment, block);
        self.len = end;
        self.next = segment + 1;
    }

    // Tests whether there are segments past the size that are not closed yet.
    fn has_more(&self) -> bool
        ensures more { IsTrue result → self.now.next < self.now.count }
        ensures done { IsFalse result → self.now.count ≤ self.now.next }
    {
        self.next < self.count
    }

    // The cells of the next segment, which lies past the size, have no seats any more. They are empty.
    fn fix_segment(&mut self)
        requires all { length self.old.members ≡ self.old.size }
        requires more { self.old.next < self.old.count }
        ensures { self.new ≡ record self.old { next = self.old.next + 1 } }
    {
        // For the proof: the hand has seen all that was claimed, and the list of a history has those places.
        self.claims.whole_laws();
        runs_tile();
        let Some(key) = key_of(&self.keys, self.next) else {
            unreachable!()
        };
        let mut block = self.table.detach(&key);
        fix_cells(
            &self.word,
            &mut self.claims,
            &self.cells,
            self.table.layout(),
            self.next,
            &mut block,
        );
        put_block(&mut self.table, &mut self.keys, self.next, block);
        self.next += 1;
    }

    // The list.
    fn into_parts(self) -> Parts<T>
        requires all { length self.members ≡ self.size }
        requires closed { self.count ≤ self.next }
        ensures length { length result.members ≡ self.size }
        ensures limit { result.limit ≡ self.limit }
        ensures layout { result.layout ≡ self.layout }
        ensures opened { KeepsValues self.opened result.members }
        ensures closed { result.closed ≡ Some self.mark }
        ensures history { IsListSoFar self.hand.of self.hand.log result.members }
    {
        let Closing {
            word,
            claims,
            table,
            before,
            keys,
            row,
            epoch,
            broken,
            len,
            limit,
            count,
            mark,
            alloc,
            ..
        } = self;
        let _size = word.close(claims);
        Parts {
            table,
            keys,
            row,
            epoch,
            broken,
            len,
            limit,
            count,
            alloc,
            before,
            closed: Some(mark),
        }
    }
}

impl<T: Drop> Shared<T> {
    /// Closes the vector into the list of its values, as long as its size. A place that was claimed but never
    /// filled is broken. It moves no value and takes no memory; its time is linear in the size. The capacity
    /// is that of the installed segments.
    ///
    /// It is the list of the history that the hand has seen, which is the whole one.
    #[tactic(auto, using(crate::proofs::Closed::list_of_history))]
    pub fn into_parts(self, hand: Hand<T>) -> Parts<T>
        requires ours { IsHandOf self hand }
        requires whole { IsWholeHand hand }
        ensures length { length result.members ≡ seen_size hand }
        ensures limit { result.limit ≡ limit_of self }
        ensures layout { result.layout ≡ layout_of self }
        ensures opened { KeepsValues self.opened result.members }
        ensures closed { IsClosedFrom self result.closed }
        ensures history { IsListOfHistory self hand.log result.members }
    {
        // For the proof: the hand has seen all that was claimed, and the list of a history has those places.
        hand.whole_laws();
        runs_tile();
        let mut closing = Closing::of(self, hand);
        while closing.is_open() {
            closing.settle_segment();
        }
        while closing.has_more() {
            closing.fix_segment();
        }
        closing.into_parts()
    }
}
