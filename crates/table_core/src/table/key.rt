// The key of an entry.
ghost use Rattle.std.specs.Prelude.{◌≡◌};

use crate::entry::EntrySight;
use cell_core::block::Block;
use seg_core::Layout;
use std::fmt;
use std::marker::Model;

/// Evidence that an entry is set, and stays so. It has no bytes except its segment and the layout, and
/// says nothing of the type of the values.
pub struct Key {
    pub(crate) layout: Layout,
    pub(crate) segment: u8,
    pub(crate) sight: EntrySight<Block<()>>,
}

impl Model for Key {
    ghost use Rattle.std.specs.Prelude.{◌≡◌, Some};
    ghost use Rattle.table_core.specs.Table.{KeyView, key_coded, block_or_empty};

    ghost Value = { KeyView };

    ghost coded = { key_coded };

    ghost view = { λ k. record {
      layout = k.layout;
      segment = k.segment;
      block = block_or_empty k.sight.known;
      name = k.sight.of;
    } };

    ghost invariant = { λ k. k.sight.known ≡ Some (block_or_empty k.sight.known) };
}

// By hand, so that proofs of callers do not go into its fields.
impl Drop for Key {
    #[inline(always)]
    fn drop(self) {
        let Self {
            layout: _,
            segment: _,
            sight: _,
        } = self;
    }
}

impl fmt::Debug for Key {
    fn fmt<W: fmt::Write>(&self, f: &mut fmt::Formatter<W>) -> fmt::Result {
        f.debug_struct("Key")
            .field("segment", &self.segment())
            .finish_non_exhaustive()
    }
}

impl Key {
    /// Returns the entry's segment.
    pub fn segment(&self) -> u32
        ensures { result ≡ self.now.segment }
    {
        let Key { segment, .. } = self;
        *segment as u32
    }

    /// Returns how the places are divided into segments.
    pub fn layout(&self) -> Layout
        ensures { result ≡ self.now.layout }
    {
        let Key { layout, .. } = self;
        *layout
    }

    /// Shows a proof that two keys of one name have one block, whatever became of its entry since.
    pub fn agree(&self, other: &Key)
        requires { self.now.name ≡ other.now.name }
        ensures { self.now.block ≡ other.now.block }
    {
        self.sight.agrees(&other.sight);
    }

    /// Duplicates the key.
    pub fn again(&self) -> Key
        ensures { result ≡ self.now }
    {
        Key {
            layout: self.layout,
            segment: self.segment,
            sight: self.sight.again(),
        }
    }
}
