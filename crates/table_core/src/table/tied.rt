// Calls on entries that are tied to a table of `atomic_table`. A step on such an entry runs a visit of its caller.
ghost use Rattle.std.specs.Prelude.{◌≡◌, ◌<◌, ℕ, Some, None, IfOk, IfSome, option_map, slice_index};
ghost use Rattle.cell_core.specs.Block.{block_len};
ghost use Rattle.cell_core.specs.Mould.{last_seat, mould_of, row_mould};
ghost use Rattle.seg_core.specs.Segment.{segment_count};
ghost use Rattle.cell_core.specs.Slot.{ArePlain};
ghost use Rattle.table_core.specs.Table.{HasSet, IsBlockOf, IsKeyIn, IsKeyOf, IsPlainAt, IsTiedBlockOf, IsTiedBy, KeepsOtherBonds, KeepsOtherEntries, RenewsEntry, content_in, entry_tie};

use crate::entry::{Entry, EntrySight};
use crate::table::{Key, Table};
use cell_core::block::{Block, Tied};
use seg_core::Layout;
use std::alloc::{AllocError, Global};
use std::mem::replace;
use tie_core::{EntryBook, EntrySeat, PlacedSeat, Staged, Tag, Visit};

impl<T> Table<T, Tied> {
    /// Makes a table without blocks, whose entries may be tied; none is yet. It takes no memory from the allocator.
    pub fn new_for(alloc: Global, layout: Layout) -> Table<T, Tied>
        ensures layout { result.layout ≡ layout }
        ensures untied { (k : ℕ) → k < segment_count layout → entry_tie result k ≡ None }
        ensures plain { (k : ℕ) → k < segment_count layout → IsPlainAt result k }
        ensures none_lent { result.lent ≡ None }
    {
        Table::without_blocks(alloc, layout)
    }

    /// Returns the entry's block if it is set now, by one load. The visit's update runs in the load, and the visit
    /// then tells what the load found.
    pub fn scout_for<'a, 'b, X, K: EntryBook<X>>(
        &'a self,
        segment: u32,
        visit: Visit<'b, X, K>,
    ) -> (Option<&'a Block<T, Global, Tied>>, Visit<'b, X, K>)
        requires within { segment < segment_count self.now.layout }
        requires visit { (entry_tie self.now segment ≡ Some visit.tie) × (visit.brought ≡ None)
            × (visit.made ≡ None) }
        ensures block { IfSome result.0 (λ block. IsTiedBlockOf self.now segment block.now) }
        ensures made { result.1.made ≡ Some (content_in result.0) }
        ensures visit { (result.1.tie ≡ visit.entry.tie) × (result.1.about ≡ visit.entry.about) }
    {
        let entry = &self.entries[segment as usize];
        entry.look_for(&mut entry.sight(), visit)
    }

    /// Returns the entry's block like `scout_for`, with the entry's key.
    pub fn scout_key_for<'a, 'b, X, K: EntryBook<X>>(
        &'a self,
        segment: u32,
        visit: Visit<'b, X, K>,
    ) -> (Option<(&'a Block<T, Global, Tied>, Key)>, Visit<'b, X, K>)
        requires within { segment < segment_count self.now.layout }
        requires visit { (entry_tie self.now segment ≡ Some visit.tie) × (visit.brought ≡ None)
            × (visit.made ≡ None) }
        ensures block { IfSome result.0 (λ (block, _). IsTiedBlockOf self.now segment block.now) }
        ensures key { IfSome result.0 (λ (block, key). IsKeyOf self.now segment block.now key) }
        ensures made { result.1.made ≡ Some (content_in (option_map (λ u. u.0) result.0)) }
        ensures visit { (result.1.tie ≡ visit.entry.tie) × (result.1.about ≡ visit.entry.about) }
    {
        let entry = &self.entries[segment as usize];
        let mut sight = entry.sight();
        let (found, visit) = entry.look_for(&mut sight, visit);
        match found {
            Some(block) => {
                let key = Key {
                    layout: self.layout,
                    segment: segment as u8,
                    sight: sight.again(),
                };
                (Some((block, key)), visit)
            }
            None => (None, visit),
        }
    }

    /// Ties the entry by its own seat, and the cells of its block by seats with numbers in a row, which have the codes
    /// of the tag. The entry is then not set and has a fresh name. A block that it was set to is freed, and so is one
    /// that is lent: their values are not dropped.
    #[tactic(auto, using(crate::proofs::Bonds::retied))]
    pub fn tie<V, P: Staged<V>>(&mut self, segment: u32, seat: EntrySeat, cells: &Tag<V, P>)
        requires { segment < segment_count self.old.layout }
        ensures tied { IsTiedBy self.new segment seat.tie cells.now.tie }
        ensures layout { self.new.layout ≡ self.old.layout }
        ensures others { KeepsOtherEntries self.old self.new segment }
        ensures another { RenewsEntry self.old self.new segment }
        ensures bonds { KeepsOtherBonds self.old self.new segment }
        ensures none_lent { self.new.lent ≡ None }
    {
        self.free_lent();
        self.held = None;
        let len = self.layout.len(segment);
        let mut new: Entry<Block<T, Global, Tied>> = Entry::new_for(self.alloc, len, seat, cells);
        new.rename(&mut self.entries[segment as usize]);
        replace(&mut self.entries[segment as usize], new).free();
    }

    /// Returns the key's block like `known`, by one load. The visit's update runs in the load.
    pub fn known_for<'a, 'b, X, K: EntryBook<X>>(
        &'a self,
        key: &Key,
        visit: Visit<'b, X, K>,
    ) -> (&'a Block<T, Global, Tied>, Visit<'b, X, K>)
        requires key { IsKeyIn self.now key.now }
        requires visit { (entry_tie self.now key.now.segment ≡ Some visit.tie) × (visit.brought ≡ None)
            × (visit.made ≡ None) }
        ensures block { result.0.now ≡ key.now.block }
        ensures tied { IsTiedBlockOf self.now key.now.segment key.now.block }
        ensures made { result.1.made ≡ Some (Some (last_seat key.now.block.cells)) }
        ensures visit { (result.1.tie ≡ visit.entry.tie) × (result.1.about ≡ visit.entry.about) }
    {
        let mut sight = key.sight.again::<T, Tied>();
        match self.entries[key.segment as usize].look_for(&mut sight, visit) {
            (Some(block), visit) => (block, visit),
            (None, _) => unreachable!(),
        }
    }
}

impl<T: Drop> Table<T, Tied> {
    // The block of an entry that is not tied: a new one, unless the entry is set.
    #[tactic(auto, using(crate::proofs::PlainBlocks::found_plain))]
    fn set<'a>(
        &'a self,
        segment: u32,
        sight: &mut EntrySight<Block<T, Global, Tied>>,
    ) -> Result<&'a Block<T, Global, Tied>, AllocError>
        requires within { segment < segment_count self.now.layout }
        requires untied { entry_tie self.now segment ≡ None }
        requires of { slice_index self.now.names segment ≡ sight.old.of }
        ensures same { sight.new.of ≡ sight.old.of }
        ensures known { IfOk result (λ block. sight.new.known ≡ Some block.now) }
        ensures length { IfOk result (λ block. IsBlockOf self.now.layout segment block.now) }
        ensures plain { IsPlainAt self.now segment → IfOk result (λ block. ArePlain block.now.cells) }
    {
        match self.entries[segment as usize].look(sight) {
            Some(block) => Ok(block),
            None => {
                let block = Block::new_plain(self.alloc, self.layout.len(segment))?;
                self.put(segment, block, sight)
            }
        }
    }

    /// Returns the block of an entry that is not tied, and makes and sets it if there is none. The cells of a block that
    /// this call makes are not tied. If another call comes first, this call frees its own block at once and returns the
    /// other's. A refused call never sets an entry.
    pub fn install(&self, segment: u32) -> Result<&Block<T, Global, Tied>, AllocError>
        requires within { segment < segment_count self.now.layout }
        requires untied { entry_tie self.now segment ≡ None }
        ensures length { IfOk result (λ block. IsBlockOf self.now.layout segment block.now) }
        // The cells of a plain entry's block are not tied.
        ensures plain { IsPlainAt self.now segment → IfOk result (λ block. ArePlain block.now.cells) }
    {
        self.set(segment, &mut self.entries[segment as usize].sight())
    }

    /// Returns the entry's block like `install`, with the entry's key.
    pub fn install_key(&self, segment: u32) -> Result<(&Block<T, Global, Tied>, Key), AllocError>
        requires within { segment < segment_count self.now.layout }
        requires untied { entry_tie self.now segment ≡ None }
        ensures length { IfOk result (λ (block, _). IsBlockOf self.now.layout segment block.now) }
        ensures key { IfOk result (λ (block, key). IsKeyOf self.now segment block.now key) }
        ensures plain { IsPlainAt self.now segment
            → IfOk result (λ (block, _). ArePlain block.now.cells) }
    {
        let mut sight = self.entries[segment as usize].sight();
        let block = self.set(segment, &mut sight)?;
        let key = Key {
            layout: self.layout,
            segment: segment as u8,
            sight: sight.again(),
        };
        Ok((block, key))
    }

    /// Sets the entry to the block, like `attach`, and ties it by the block's own seat. The cells of the block have
    /// seats with numbers in a row, of which the block's own is the next, and the codes of the tag. A block that the
    /// entry was set to before is dropped. No block may be lent. It takes no memory.
    #[tactic(auto, using(crate::proofs::Bonds::attached_placed))]
    pub fn attach_placed<V, P: Staged<V>>(
        &mut self,
        segment: u32,
        block: Box<Block<T, Global, Tied>>,
        seat: PlacedSeat,
        cells: &Tag<V, P>,
    ) -> Key
        requires within { segment < segment_count self.old.layout }
        requires length { IsBlockOf self.old.layout segment block.value }
        requires mould { mould_of block.value.cells
            ≡ row_mould cells.now.tie (block_len block.value) }
        requires number { seat.number ≡ last_seat block.value.cells }
        requires none_lent { self.old.lent ≡ None }
        ensures tied { IsTiedBy self.new segment seat.tie cells.now.tie }
        ensures key { IsKeyOf self.new segment block.value result }
        ensures layout { self.new.layout ≡ self.old.layout }
        ensures others { KeepsOtherEntries self.old self.new segment }
        ensures bonds { KeepsOtherBonds self.old self.new segment }
        ensures none_lent { self.new.lent ≡ None }
    {
        let (entry, sight) = Entry::filled_placed(block, seat);
        self.held = None;
        self.entries[segment as usize] = entry;
        Key {
            layout: self.layout,
            segment: segment as u8,
            sight: sight.again(),
        }
    }

    // The block of a tied entry: the given one, unless the entry is set.
    fn set_for<'a, 'b, X, K: EntryBook<X>>(
        &'a self,
        segment: u32,
        block: Box<Block<T, Global, Tied>>,
        sight: &mut EntrySight<Block<T, Global, Tied>>,
        visit: Visit<'b, X, K>,
    ) -> (&'a Block<T, Global, Tied>, Visit<'b, X, K>)
        requires within { segment < segment_count self.now.layout }
        requires of { sight.old.of ≡ slice_index self.now.names segment }
        requires block { IsTiedBlockOf self.now segment block.value }
        requires visit { (entry_tie self.now segment ≡ Some visit.tie)
            × (visit.brought ≡ Some (last_seat block.value.cells)) × (visit.made ≡ None) }
        ensures same { sight.new.of ≡ sight.old.of }
        ensures known { sight.new.known ≡ Some result.0.now }
        ensures block { IsTiedBlockOf self.now segment result.0.now }
        ensures made { HasSet result.1.made block.value result.0.now }
        ensures visit { (result.1.tie ≡ visit.entry.tie) × (result.1.about ≡ visit.entry.about) }
    {
        let entry = &self.entries[segment as usize];
        let (first, back, visit) = entry.set_for(block, sight, visit);
        if let Some(back) = back {
            Box::into_inner(back).free();
        }
        (first, visit)
    }

    /// Sets the entry to the block and returns it, by one exchange. If the entry is set already, this frees the block,
    /// without a look at its cells, and returns the entry's. The visit brings the block's seat. Its update runs in the
    /// exchange, and the visit then tells what the exchange found.
    pub fn install_for<'a, 'b, X, K: EntryBook<X>>(
        &'a self,
        segment: u32,
        block: Box<Block<T, Global, Tied>>,
        visit: Visit<'b, X, K>,
    ) -> (&'a Block<T, Global, Tied>, Visit<'b, X, K>)
        requires within { segment < segment_count self.now.layout }
        requires block { IsTiedBlockOf self.now segment block.value }
        requires visit { (entry_tie self.now segment ≡ Some visit.tie)
            × (visit.brought ≡ Some (last_seat block.value.cells)) × (visit.made ≡ None) }
        ensures block { IsTiedBlockOf self.now segment result.0.now }
        ensures made { HasSet result.1.made block.value result.0.now }
        ensures visit { (result.1.tie ≡ visit.entry.tie) × (result.1.about ≡ visit.entry.about) }
    {
        let mut sight = self.entries[segment as usize].sight();
        self.set_for(segment, block, &mut sight, visit)
    }

    /// Sets the entry to the block and returns it like `install_for`, with the entry's key.
    pub fn install_key_for<'a, 'b, X, K: EntryBook<X>>(
        &'a self,
        segment: u32,
        block: Box<Block<T, Global, Tied>>,
        visit: Visit<'b, X, K>,
    ) -> (&'a Block<T, Global, Tied>, Key, Visit<'b, X, K>)
        requires within { segment < segment_count self.now.layout }
        requires block { IsTiedBlockOf self.now segment block.value }
        requires visit { (entry_tie self.now segment ≡ Some visit.tie)
            × (visit.brought ≡ Some (last_seat block.value.cells)) × (visit.made ≡ None) }
        ensures block { IsTiedBlockOf self.now segment result.0.now }
        ensures key { IsKeyOf self.now segment result.0.now result.1 }
        ensures made { HasSet result.2.made block.value result.0.now }
        ensures visit { (result.2.tie ≡ visit.entry.tie) × (result.2.about ≡ visit.entry.about) }
    {
        let mut sight = self.entries[segment as usize].sight();
        let (block, visit) = self.set_for(segment, block, &mut sight, visit);
        let key = Key {
            layout: self.layout,
            segment: segment as u8,
            sight: sight.again(),
        };
        (block, key, visit)
    }
}
