// Calls of an exclusive owner of the blocks.
ghost use Rattle.std.specs.Prelude.{◌≡◌, ◌≢◌, ◌<◌, Some, None, slice_index, MatchOption, IfSome, IsSome, IsTrue};
ghost use Rattle.cell_core.specs.Slot.{ArePlain};
ghost use Rattle.table_core.specs.Entry.{Agrees, IsSoft, bond_of, length_of, tie_of};
ghost use Rattle.table_core.specs.Table.{IsBlockOf, IsKeyIn, IsKeyOf, IsLengthOf, IsPlainAt, KeepsOtherBonds, KeepsOtherEntries, RenewsEntry, entry_bond, entry_tie};
ghost use Rattle.seg_core.specs.Segment.{segment_count};

use crate::entry::{Entry, EntrySight};
use crate::table::{Key, Table, empty_entry, plain_entry};
use cell_core::block::{Block, Kind, Plain};
use seg_core::Layout;
use std::alloc::Global;
use std::mem::replace;

// A block that was taken out of its entry, and is not back.
#[derive(Drop)]
pub(crate) struct Lent<T, B: Kind = Plain> {
    pub(crate) block: Box<Block<T, Global, B>>,
}

// An entry that is known to be set.
#[derive(Drop)]
pub(crate) struct KnownEntry {
    pub(crate) segment: u32,
    pub(crate) sight: EntrySight<Block<()>>,
    ghost set: { sight.known ≢ None },
}

// Tests whether the block that is lent is as long as the segment.
fn has_length_of<T, B: Kind>(lent: &Option<Lent<T, B>>, layout: Layout, segment: u32) -> bool
    requires { segment < segment_count layout }
    ensures length { IsTrue result → IfSome lent.now (λ l. IsBlockOf layout segment l.block.value) }
    ensures some { IsTrue result → IsSome lent.now }
{
    match lent {
        Some(lent) => lent.block.len() == layout.len(segment),
        None => false,
    }
}

impl<T, B: Kind> Table<T, B> {
    // Frees the block that is lent, if one is. No value of it is dropped.
    #[tactic(auto, using(crate::proofs::Bonds::lending))]
    pub(crate) fn free_lent(&mut self)
        ensures layout { self.new.layout ≡ self.old.layout }
        ensures names { self.new.names ≡ self.old.names }
        ensures bonds { self.new.bonds ≡ self.old.bonds }
        ensures none_lent { self.new.lent ≡ None }
    {
        self.out = None;
        match self.lent.take() {
            Some(Lent { block }) => Box::into_inner(block).free(),
            None => {}
        }
    }
}

impl<T: Drop, B: Kind> Table<T, B> {
    ghost use Rattle.std.specs.Borrow.{sem};
    ghost use Rattle.table_core.specs.Lending.{LendsBlock};

    /// Puts the block that `block_mut` lent back into its entry if it is still as long as the segment, and
    /// drops it otherwise. The other exclusive calls do so too.
    #[tactic(auto, using(crate::proofs::Bonds::lending))]
    pub fn put_back(&mut self)
        ensures layout { self.new.layout ≡ self.old.layout }
        ensures names { self.new.names ≡ self.old.names }
        ensures bonds { self.new.bonds ≡ self.old.bonds }
        ensures back { self.new.lent ≡ None }
    {
        let out = self.out.take();
        if let (Some(segment), Some(Lent { block })) = (out, self.lent.take()) {
            if segment < self.layout.segments() && block.len() == self.layout.len(segment) {
                let entry = &self.entries[segment as usize];
                drop(entry.set(block, &mut entry.sight()));
            }
        }
    }

    // Puts the new entry in the place of one, under a fresh name, and gives the block that the old one had, or that
    // was lent of it: for a sight of it that knows a block, that one.
    #[tactic(auto, using(crate::proofs::Bonds::replaced, crate::proofs::PlainBlocks::found_plain))]
    fn take_out(
        &mut self,
        segment: u32,
        sight: &EntrySight<Block<T, Global, B>>,
        fresh: Entry<Block<T, Global, B>>,
    ) -> Option<Box<Block<T, Global, B>>>
        requires within { segment < segment_count self.old.layout }
        requires of { slice_index self.old.names segment ≡ sight.now.of }
        requires long { IsLengthOf self.old.layout segment (length_of fresh) }
        requires untied { tie_of fresh ≡ None }
        requires soft { IsSoft fresh }
        ensures layout { self.new.layout ≡ self.old.layout }
        ensures others { KeepsOtherEntries self.old self.new segment }
        ensures another { RenewsEntry self.old self.new segment }
        ensures bonds { KeepsOtherBonds self.old self.new segment }
        ensures bond { entry_bond self.new segment ≡ bond_of fresh }
        ensures untied { entry_tie self.new segment ≡ None }
        ensures none_lent { self.new.lent ≡ None }
        ensures length { IfSome result (λ block. IsBlockOf self.old.layout segment block.value) }
        ensures plain { IsPlainAt self.old segment
            → IfSome result (λ block. ArePlain block.value.cells) }
        ensures block { MatchOption result (sight.now.known ≡ None)
            (λ block. Agrees sight.now.known block.value) }
    {
        self.put_back();
        self.held = None;
        let mut new = fresh;
        new.rename(&mut self.entries[segment as usize]);
        replace(&mut self.entries[segment as usize], new).into_box(sight)
    }

    // Returns a sight of the entry. After `holds_now` it knows the entry's block.
    fn sight(&self, segment: u32) -> EntrySight<Block<T, Global, B>>
        requires { segment < segment_count self.now.layout }
        ensures of { slice_index self.now.names segment ≡ result.of }
        ensures known { self.now.held ≡ Some segment → result.known ≢ None }
    {
        match &self.held {
            Some(held) if held.segment == segment => held.sight.again(),
            _ => self.entries[segment as usize].sight(),
        }
    }

    // The block of the entry, taken out of it or out before.
    #[tactic(auto, using(crate::proofs::Bonds::lending, crate::proofs::Bonds::loose_untied, crate::proofs::Bonds::loose_soft))]
    fn lend(&mut self, segment: u32) -> Option<Lent<T, B>>
        requires { segment < segment_count self.old.layout }
        ensures layout { self.new.layout ≡ self.old.layout }
        ensures others { KeepsOtherEntries self.old self.new segment }
        ensures bonds { KeepsOtherBonds self.old self.new segment }
        ensures there { self.old.held ≡ Some segment → IsSome result }
        ensures length { IfSome result (λ l. IsBlockOf self.old.layout segment l.block.value) }
    {
        if self.out == Some(segment) && has_length_of(&self.lent, self.layout, segment) {
            return self.lent.take();
        }
        let sight = self.sight(segment);
        // The block is lent, so nothing is known of its cells when it comes back.
        let new = empty_entry(self.alloc, self.layout, segment);
        match self.take_out(segment, &sight, new) {
            Some(block) => {
                self.out = Some(segment);
                Some(Lent { block })
            }
            None => None,
        }
    }

    /// Returns the key of the entry if it is set. It puts back what `block_mut` lent, and changes nothing
    /// else.
    pub fn key_now(&mut self, segment: u32) -> Option<Key>
        requires { segment < segment_count self.old.layout }
        ensures key { IfSome result (λ key. IsKeyIn self.new key × (key.segment ≡ segment)) }
        ensures length { IfSome result (λ key. IsBlockOf self.old.layout segment key.block) }
        ensures layout { self.new.layout ≡ self.old.layout }
        ensures names { self.new.names ≡ self.old.names }
        ensures bonds { self.new.bonds ≡ self.old.bonds }
        ensures back { self.new.lent ≡ None }
    {
        self.put_back();
        match self.scout_key(segment) {
            Some((_, key)) => Some(key),
            None => None,
        }
    }

    /// Records that the key's entry is set: `block_mut` then lends its block, unless another call changes an
    /// entry first.
    pub fn holds_now(&mut self, key: &Key)
        requires { IsKeyIn self.old key.now }
        ensures held { self.new.held ≡ Some key.now.segment }
        ensures layout { self.new.layout ≡ self.old.layout }
        ensures names { self.new.names ≡ self.old.names }
        ensures bonds { self.new.bonds ≡ self.old.bonds }
        ensures lent { self.new.lent ≡ self.old.lent }
    {
        self.held = Some(KnownEntry {
            segment: key.segment(),
            sight: key.sight.again(),
        });
    }

    /// Lends the entry's block if it is set. The entry then has a fresh name and no tie, and shows its block to shared
    /// calls only from the next exclusive call on.
    pub fn block_mut(&mut self, segment: u32) -> Option<&mut Block<T, Global, B>>
        requires { segment < segment_count self.old.layout }
        ensures* others { sem 𝓛 (LendsBlock T.row B.row B.Kind self.entry segment result) }
        ensures length { IfSome result (λ block. IsBlockOf self.old.layout segment block.now) }
        ensures there { self.old.held ≡ Some segment → IsSome result }
    {
        self.lent = self.lend(segment);
        match &mut self.lent {
            Some(lent) => Some(&mut *lent.block),
            None => None,
        }
    }

    /// Takes the key's block out of its entry, which is then not set and has a fresh name and no tie. It takes no
    /// memory.
    #[tactic(auto, using(crate::proofs::PlainBlocks::renewed_plain))]
    pub fn detach(&mut self, key: &Key) -> Box<Block<T, Global, B>>
        requires { IsKeyIn self.old key.now }
        ensures block { result.value ≡ key.now.block }
        ensures length { IsBlockOf self.old.layout key.now.segment result.value }
        ensures layout { self.new.layout ≡ self.old.layout }
        ensures others { KeepsOtherEntries self.old self.new key.now.segment }
        ensures another { RenewsEntry self.old self.new key.now.segment }
        ensures bonds { KeepsOtherBonds self.old self.new key.now.segment }
        ensures untied { entry_tie self.new key.now.segment ≡ None }
        ensures none_lent { self.new.lent ≡ None }
        // The entry is then plain. If it was plain before, the cells of its block are not tied.
        ensures plain { IsPlainAt self.new key.now.segment }
        ensures plain_cells { IsPlainAt self.old key.now.segment → ArePlain result.value.cells }
    {
        let sight = key.sight.again();
        let new = plain_entry(self.alloc, self.layout, key.segment());
        match self.take_out(key.segment(), &sight, new) {
            Some(block) => block,
            None => unreachable!(),
        }
    }

    /// Sets the entry to the block and returns the entry's key. A block that it was set to before is dropped.
    /// The entry then has no tie. It takes no memory.
    #[tactic(auto, using(crate::proofs::Bonds::attached))]
    pub fn attach(&mut self, segment: u32, block: Box<Block<T, Global, B>>) -> Key
        requires within { segment < segment_count self.old.layout }
        requires length { IsBlockOf self.old.layout segment block.value }
        ensures key { IsKeyOf self.new segment block.value result }
        ensures layout { self.new.layout ≡ self.old.layout }
        ensures others { KeepsOtherEntries self.old self.new segment }
        ensures bonds { KeepsOtherBonds self.old self.new segment }
        ensures untied { entry_tie self.new segment ≡ None }
        ensures lent { self.new.lent ≡ self.old.lent }
    {
        let (entry, sight) = Entry::filled(block);
        self.held = None;
        self.entries[segment as usize] = entry;
        Key {
            layout: self.layout,
            segment: segment as u8,
            sight: sight.again(),
        }
    }

    /// Drops the entry's block. The entry is then not set and has a fresh name and no tie.
    #[tactic(auto, using(crate::proofs::PlainBlocks::renewed_plain))]
    pub fn give_up(&mut self, segment: u32)
        requires { segment < segment_count self.old.layout }
        ensures layout { self.new.layout ≡ self.old.layout }
        ensures others { KeepsOtherEntries self.old self.new segment }
        ensures another { RenewsEntry self.old self.new segment }
        ensures bonds { KeepsOtherBonds self.old self.new segment }
        ensures untied { entry_tie self.new segment ≡ None }
        ensures none_lent { self.new.lent ≡ None }
        ensures plain { IsPlainAt self.new segment }
    {
        let sight = self.entries[segment as usize].sight();
        let new = plain_entry(self.alloc, self.layout, segment);
        drop(self.take_out(segment, &sight, new));
    }
}
