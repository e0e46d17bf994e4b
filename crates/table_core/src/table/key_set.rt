// Keys of some entries of a table, which take no memory.
ghost use Rattle.std.specs.Prelude.{◌≡◌, ◌≢◌, ◌<◌, ℕ, IsSome, map, slice_index};
ghost use Rattle.table_core.specs.Entry.{name_of};
ghost use Rattle.seg_core.specs.Segment.{most_segments};
ghost use Rattle.table_core.specs.Table.{AddsKey, block_in, key_in};
ghost use Rattle.table_core.specs.Sights.{IsSameSight, sight_in};

use crate::entry::{Entry, EntrySight};
use crate::table::Key;
use cell_core::block::{Block, Kind};
use seg_core::{Layout, MOST_SEGMENTS};
use std::alloc::Global;
use std::marker::Model;
use std::{array, fmt};

// What is known of each entry.
pub(crate) type Sights = [EntrySight<Block<()>>; MOST_SEGMENTS];

/// Keys of some entries of one table. It has no bytes except the layout, whichever keys it has.
pub struct KeySet {
    pub(crate) layout: Layout,
    pub(crate) sights: Sights,
}

impl Model for KeySet {
    ghost use Rattle.std.specs.Prelude.{map};
    ghost use Rattle.table_core.specs.Table.{KeySetView, key_set_coded};

    ghost Value = { KeySetView };

    ghost coded = { key_set_coded };

    ghost view = { λ k. record {
      layout = k.layout;
      names = map (λ s. s.of) k.sights;
      blocks = map (λ s. s.known) k.sights;
    } };
}

// By hand, so that proofs of callers do not go into its fields.
impl Drop for KeySet {
    #[inline(always)]
    fn drop(self) {
        let Self {
            layout: _,
            sights: _,
        } = self;
    }
}

impl fmt::Debug for KeySet {
    fn fmt<W: fmt::Write>(&self, f: &mut fmt::Formatter<W>) -> fmt::Result {
        f.debug_struct("KeySet").finish_non_exhaustive()
    }
}

impl KeySet {
    /// Returns how the places are divided into segments.
    pub fn layout(&self) -> Layout
        ensures { result ≡ self.now.layout }
    {
        self.layout
    }

    /// Adds a duplicate of the key. The set may have it already.
    pub fn with(self, key: &Key) -> KeySet
        requires within { key.now.segment < most_segments }
        requires named { slice_index self.names key.now.segment ≡ key.now.name }
        ensures { AddsKey self result key.now }
    {
        let KeySet { layout, sights } = self;
        let sight = &key.sight;
        let at = key.segment as usize;
        // For the proof: a key of this entry that the set has already is of the same block.
        sight_at(&sights, at).agrees(sight);
        let sights = sights_with(&sights, at, sight);
        KeySet { layout, sights }
    }

    /// Returns a duplicate of the key of a segment that the set has.
    pub fn key(&self, segment: u32) -> Key
        requires within { segment < most_segments }
        requires has { IsSome (block_in self.now segment) }
        ensures { result ≡ key_in self.now segment }
    {
        Key {
            layout: self.layout,
            segment: segment as u8,
            sight: sight_at(&self.sights, segment as usize),
        }
    }
}

// A duplicate of what is known of an entry.
fn sight_at(sights: &Sights, at: usize) -> EntrySight<Block<()>>
    requires { at < most_segments }
    ensures { IsSameSight result (sight_in sights.now at) }
{
    match sights.get(at) {
        Some(sight) => sight.again(),
        None => unreachable!(),
    }
}

// Duplicates of the sights, but of the entry with this number a duplicate of the given sight.
fn sights_with(sights: &Sights, at: usize, sight: &EntrySight<Block<()>>) -> Sights
    requires within { at < most_segments }
    ensures here { IsSameSight (sight_in result at) sight.now }
    ensures others { (k : ℕ) → k < most_segments → k ≢ at
        → IsSameSight (sight_in result k) (sight_in sights.now k) }
{
    array::from_fn(
        |k: usize| -> EntrySight<Block<()>>
            requires { k < most_segments }
            ensures here { k ≡ at → IsSameSight result sight.entry.now }
            ensures others { k ≢ at → IsSameSight result (sight_in sights.entry.now k) }
        {
            if k == at {
                sight.again()
            } else {
                sight_at(sights, k)
            }
        },
    )
}

// Sights of the entries that know nothing yet.
pub(crate) fn no_sights<T, B: Kind>(entries: &[Entry<Block<T, Global, B>>; MOST_SEGMENTS]) -> Sights
    ensures { (k : ℕ) → k < most_segments
        → (sight_in result k).of ≡ slice_index (map name_of entries.now) k }
{
    array::from_fn(
        |k: usize| -> EntrySight<Block<()>>
            requires { k < most_segments }
            ensures { result.of ≡ slice_index (map name_of entries.entry.now) k }
        { entries[k].sight().again() },
    )
}
