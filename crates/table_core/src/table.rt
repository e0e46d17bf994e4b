//! The table of segments.
ghost use Rattle.std.specs.Prelude.{◌≡◌, ◌<◌, ◌≤◌, ℕ, None, slice_index, IfSome, IfOk};
ghost use Rattle.cell_core.specs.Slot.{ArePlain};
ghost use Rattle.table_core.specs.Table.{AllFit, AllPlainEntries, FitsTie, IsBlockOf, IsKeyIn, IsKeyOf, IsLengthOf, IsPlainAt, entry_tie};
ghost use Rattle.seg_core.specs.Segment.{IsLayout, segment_count, most_segments};
ghost use Rattle.table_core.specs.Entry.{IsPlainEntry, bond_of, length_of};

mod key;
mod key_set;
mod owner;
mod tied;

use crate::entry::{Entry, EntrySight, Measured};
use cell_core::block::{Block, Kind, Plain};
pub use key::Key;
pub use key_set::KeySet;
use key_set::no_sights;
use owner::{KnownEntry, Lent};
use seg_core::{Layout, MOST_SEGMENTS};
use std::alloc::{AllocError, Global};
use std::array;
use std::marker::Model;

impl<T, B: Kind> Measured for Block<T, Global, B> {
    ghost use Rattle.cell_core.specs.Block.{block_len};
    ghost use Rattle.cell_core.specs.Mould.{last_seat, mould_of};

    ghost measure = { block_len };

    ghost mould = { λ block. mould_of block.cells };

    ghost seat = { λ block. last_seat block.cells };
}

/// The table of a vector's segments: 41 - f entries, each set at most once, to the block of its segment. It
/// has room for 40 pointers. `B` says whether entries and their blocks may be tied to a table of `atomic_table`.
pub struct Table<T, B: Kind = Plain> {
    layout: Layout,
    alloc: Global,
    entries: [Entry<Block<T, Global, B>>; MOST_SEGMENTS],
    lent: Option<Lent<T, B>>,
    // The entry whose block is lent.
    out: Option<u32>,
    held: Option<KnownEntry>,
}

impl<T, B: Kind> Model for Table<T, B> {
    ghost use Rattle.std.specs.Prelude.{◌≡◌, map, option_map, slice_index};
    ghost use Rattle.std.specs.Option.{ForSome};
    ghost use Rattle.table_core.specs.Entry.{bond_of, name_of};
    ghost use Rattle.seg_core.specs.Segment.{IsLayout};
    ghost use Rattle.table_core.specs.Table.{TableView, table_coded, AllFit, AreOfKind};

    ghost Value = { TableView };

    ghost coded = { table_coded };

    ghost view = { λ t. record {
      layout = t.layout;
      names = map name_of t.entries;
      lent = t.out;
      held = option_map (λ h. h.segment) t.held;
      bonds = map bond_of t.entries;
    } };

    ghost invariant = { λ t. IsLayout t.layout × AllFit t.layout t.entries
        × AreOfKind B.tied t.layout t.out t.entries
        × ForSome t.held (λ h. slice_index (map name_of t.entries) h.segment ≡ h.sight.of) };
}

// By hand, so that proofs of callers do not go into its fields.
impl<T: Drop, B: Kind> Drop for Table<T, B> {
    fn drop(self) {
        let Self {
            layout: _,
            alloc: _,
            entries: _,
            lent: _,
            out: _,
            held: _,
        } = self;
    }
}

// The number of places of a segment, if there is one.
fn len_of(layout: Layout, segment: u32) -> u64
    ensures { segment < segment_count layout → IsLengthOf layout segment result }
{
    if segment < layout.segments() {
        layout.len(segment)
    } else {
        0
    }
}

// An entry for blocks whose cells may be tied or not. It is not tied.
fn empty_entry<T, B: Kind>(
    alloc: Global,
    layout: Layout,
    segment: u32,
) -> Entry<Block<T, Global, B>>
    ensures length { segment < segment_count layout → IsLengthOf layout segment (length_of result) }
    ensures loose { bond_of result ≡ None }
{
    Entry::new(alloc, len_of(layout, segment))
}

// An entry for blocks whose cells are not tied. It is not tied itself.
fn plain_entry<T, B: Kind>(
    alloc: Global,
    layout: Layout,
    segment: u32,
) -> Entry<Block<T, Global, B>>
    ensures length { segment < segment_count layout → IsLengthOf layout segment (length_of result) }
    ensures plain { IsPlainEntry result }
{
    Entry::new_plain(alloc, len_of(layout, segment))
}

// An entry for each segment. All are plain.
fn empty_entries<T, B: Kind>(
    alloc: Global,
    layout: Layout,
) -> [Entry<Block<T, Global, B>>; MOST_SEGMENTS]
    ensures fit { AllFit layout result }
    ensures plain { AllPlainEntries layout result }
{
    // It is one from 1 to 8: the entries are enough.
    let _f = layout.f();
    array::from_fn(
        |segment: usize| -> Entry<Block<T, Global, B>>
            requires { segment < most_segments }
            ensures { (segment < segment_count layout
                → IsLengthOf layout segment (length_of result)) × IsPlainEntry result }
        { plain_entry(alloc, layout, segment as u32) },
    )
}

impl<T> Table<T> {
    /// Makes a table without blocks whose first segment has two places. It takes no memory from the
    /// allocator.
    pub fn new(alloc: Global) -> Table<T>
        ensures { result.layout ≡ 1 }
    {
        Table::new_in(alloc, Layout::default())
    }

    /// Makes a table without blocks. It takes no memory from the allocator.
    pub fn new_in(alloc: Global, layout: Layout) -> Table<T>
        ensures { result.layout ≡ layout }
    {
        Table::without_blocks(alloc, layout)
    }
}

impl<T, B: Kind> Table<T, B> {
    // A table of plain entries of which none is set.
    #[tactic(auto, using(crate::proofs::PlainBlocks::plain_at))]
    fn without_blocks(alloc: Global, layout: Layout) -> Table<T, B>
        ensures layout { result.layout ≡ layout }
        ensures plain { (k : ℕ) → k < segment_count layout → IsPlainAt result k }
        ensures none_lent { result.lent ≡ None }
    {
        // It is one from 1 to 8.
        let _f = layout.f();
        let entries = empty_entries(alloc, layout);
        Table {
            layout,
            alloc,
            entries,
            lent: None,
            out: None,
            held: None,
        }
    }

    /// Returns how the places are divided into segments.
    pub fn layout(&self) -> Layout
        ensures value { result ≡ self.now.layout }
        ensures layout { IsLayout self.now.layout }
    {
        self.layout
    }

    /// Makes a set of keys of the table that has none yet.
    pub fn no_keys(&self) -> KeySet
        ensures layout { result.layout ≡ self.now.layout }
        ensures names { (segment : ℕ) → segment < most_segments
            → slice_index result.names segment ≡ slice_index self.now.names segment }
    {
        KeySet {
            layout: self.layout,
            sights: no_sights(&self.entries),
        }
    }

    /// Returns the entry's block if it is set now, by one load.
    pub fn scout(&self, segment: u32) -> Option<&Block<T, Global, B>>
        requires { segment < segment_count self.now.layout }
        ensures { IfSome result (λ block. IsBlockOf self.now.layout segment block.now) }
    {
        let entry = &self.entries[segment as usize];
        entry.look(&mut entry.sight())
    }

    /// Returns the entry's block like `scout`, with the entry's key.
    #[tactic(auto, using(crate::proofs::PlainBlocks::found_plain))]
    pub fn scout_key(&self, segment: u32) -> Option<(&Block<T, Global, B>, Key)>
        requires { segment < segment_count self.now.layout }
        ensures length { IfSome result (λ (block, _). IsBlockOf self.now.layout segment block.now) }
        ensures tied { IfSome result (λ (block, _). FitsTie self.now segment block.now) }
        ensures key { IfSome result (λ (block, key). IsKeyOf self.now segment block.now key) }
        // The cells of a plain entry's block are not tied.
        ensures plain { IsPlainAt self.now segment
            → IfSome result (λ (block, _). ArePlain block.now.cells) }
    {
        let entry = &self.entries[segment as usize];
        let mut sight = entry.sight();
        match entry.look(&mut sight) {
            Some(block) => Some((
                block,
                Key {
                    layout: self.layout,
                    segment: segment as u8,
                    sight: sight.again(),
                },
            )),
            None => None,
        }
    }

    /// Counts the entries that are set, looking at each once.
    pub fn installed(&self) -> u32
        ensures { result ≤ segment_count self.now.layout }
    {
        let mut count = 0;
        for segment in 0..self.layout.segments() {
            if self.scout(segment).is_some() {
                count += 1;
            }
        }
        count
    }

    /// Returns the key's block, which is always there, by one load.
    #[tactic(auto, using(crate::proofs::PlainBlocks::found_plain))]
    pub fn known<'a>(&'a self, key: &Key) -> &'a Block<T, Global, B>
        requires { IsKeyIn self.now key.now }
        ensures block { result.now ≡ key.now.block }
        ensures length { IsBlockOf self.now.layout key.now.segment result.now }
        ensures tied { FitsTie self.now key.now.segment result.now }
        // The cells of a plain entry's block are not tied.
        ensures plain { IsPlainAt self.now key.now.segment → ArePlain result.now.cells }
    {
        let mut sight = key.sight.again::<T, B>();
        match self.entries[key.segment as usize].look(&mut sight) {
            Some(block) => block,
            None => unreachable!(),
        }
    }

    /// Shows a proof that two keys of one entry have one block.
    pub fn agree(&self, a: &Key, b: &Key)
        requires a { IsKeyIn self.now a.now }
        requires b { IsKeyIn self.now b.now }
        ensures { a.now.segment ≡ b.now.segment → a.now.block ≡ b.now.block }
    {
        if a.segment == b.segment {
            a.sight.agrees(&b.sight);
        }
    }
}

impl<T: Drop, B: Kind> Table<T, B> {
    // The entry's block: this one, in a box, unless the entry is set. The entry is not tied.
    #[tactic(auto, using(crate::proofs::PlainBlocks::setting))]
    fn put<'a>(
        &'a self,
        segment: u32,
        block: Block<T, Global, B>,
        sight: &mut EntrySight<Block<T, Global, B>>,
    ) -> Result<&'a Block<T, Global, B>, AllocError>
        requires within { segment < segment_count self.now.layout }
        requires untied { entry_tie self.now segment ≡ None }
        requires of { slice_index self.now.names segment ≡ sight.old.of }
        requires length { IsBlockOf self.now.layout segment block }
        requires plain { ArePlain block.cells }
        ensures same { sight.new.of ≡ sight.old.of }
        ensures known { IfOk result (λ block. sight.new.known ≡ Some block.now) }
        ensures length { IfOk result (λ block. IsBlockOf self.now.layout segment block.now) }
        ensures plain { IsPlainAt self.now segment → IfOk result (λ block. ArePlain block.now.cells) }
    {
        let entry = &self.entries[segment as usize];
        let (first, back) = entry.set(Box::new(self.alloc, block)?, sight);
        if let Some(back) = back {
            Box::into_inner(back).free();
        }
        Ok(first)
    }
}

impl<T: Drop> Table<T> {
    // The entry's block: a new one, unless the entry is set.
    #[tactic(auto, using(crate::proofs::Bonds::plain_table))]
    fn set<'a>(
        &'a self,
        segment: u32,
        sight: &mut EntrySight<Block<T>>,
    ) -> Result<&'a Block<T>, AllocError>
        requires within { segment < segment_count self.now.layout }
        requires of { slice_index self.now.names segment ≡ sight.old.of }
        ensures same { sight.new.of ≡ sight.old.of }
        ensures known { IfOk result (λ block. sight.new.known ≡ Some block.now) }
        ensures length { IfOk result (λ block. IsBlockOf self.now.layout segment block.now) }
    {
        match self.entries[segment as usize].look(sight) {
            Some(block) => Ok(block),
            None => {
                let block = Block::new_plain(self.alloc, self.layout.len(segment))?;
                self.put(segment, block, sight)
            }
        }
    }

    /// Returns the entry's block, and makes and sets it if there is none. If another call comes first, this
    /// call frees its own block at once and returns the other's. A refused call never sets an entry.
    pub fn install(&self, segment: u32) -> Result<&Block<T>, AllocError>
        requires { segment < segment_count self.now.layout }
        ensures { IfOk result (λ block. IsBlockOf self.now.layout segment block.now) }
    {
        self.set(segment, &mut self.entries[segment as usize].sight())
    }

    /// Returns the entry's block like `install`, with the entry's key.
    pub fn install_key(&self, segment: u32) -> Result<(&Block<T>, Key), AllocError>
        requires { segment < segment_count self.now.layout }
        ensures length { IfOk result (λ (block, _). IsBlockOf self.now.layout segment block.now) }
        ensures key { IfOk result (λ (block, key). IsKeyOf self.now segment block.now key) }
    {
        let mut sight = self.entries[segment as usize].sight();
        let block = self.set(segment, &mut sight)?;
        Ok((
            block,
            Key {
                layout: self.layout,
                segment: segment as u8,
                sight: sight.again(),
            },
        ))
    }
}
