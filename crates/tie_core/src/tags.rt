// The tags of entries in a row, which have no bytes at any length.
ghost use Rattle.std.specs.Prelude.{◌≡◌, ◌<◌, ◌++◌, [], ◌∷◌, List, Some, length, slice_get};
ghost use base.Stored.{coded_list};
ghost use denote.Sharing.{said};
ghost use Rattle.tie_core.specs.Tags.{TagView, tag_coded, tag_of, row_tagged};

use crate::visit::{Entered, EntryTag};
use std::marker::{Model, PhantomData};
use std::mem::replace;

// What is known of the codes of each tie.
pub(crate) struct RawTags<V, P: Entered<V>> {
    marker: PhantomData<(V, P)>,
    pub(crate) ghost of: { List TagView } by { coded_list tag_coded },
}

impl<V, P: Entered<V>> Model for RawTags<V, P> {
    ghost also_owns = { λ t. row_tagged V.row.coded.code P.empty P.placed t.of };

    ghost also_shares = { λ t _ κ. said (row_tagged V.row.coded.code P.empty P.placed t.of) κ };
}

impl<V, P: Entered<V>> RawTags<V, P> {
    // Of no entry.
    fn none() -> RawTags<V, P>
        ensures { result.of ≡ [] }
    {
        RawTags {
            marker: PhantomData,
        }
    }

    // One entry more.
    fn longer(self, tag: &EntryTag<V, P>) -> RawTags<V, P>
        ensures { result.of ≡ self.of ++ tag_of tag.now.tie tag.now.from tag.now.n ∷ [] }
    {
        let RawTags { marker: _ } = self;
        RawTags {
            marker: PhantomData,
        }
    }

    // The tag at an index.
    fn at(&self, index: u64) -> EntryTag<V, P>
        requires { index < length self.now.of }
        ensures { slice_get self.now.of index ≡ Some (tag_of result.tie result.from result.n) }
    {
        EntryTag {
            marker: PhantomData,
        }
    }
}

impl<V, P: Entered<V>> Drop for RawTags<V, P> {
    fn drop(self) {
        let Self { marker: _ } = self;
    }
}

unsafe impl<V, P: Entered<V>> Send for RawTags<V, P> {}

unsafe impl<V, P: Entered<V>> Sync for RawTags<V, P> {}

/// The tags of entries in a row, in order. It has no bytes, at any length.
pub struct EntryTags<V, P: Entered<V>> {
    tags: RawTags<V, P>,
}

impl<V, P: Entered<V>> Model for EntryTags<V, P> {
    ghost use Rattle.std.specs.Prelude.{List};
    ghost use base.Stored.{coded_list};
    ghost use Rattle.tie_core.specs.Tags.{TagView, tag_coded};

    ghost Value = { List TagView };

    ghost coded = { coded_list tag_coded };

    ghost view = { λ t. t.tags.of };
}

impl<V, P: Entered<V>> EntryTags<V, P> {
    /// Makes a row of no tags.
    pub fn new() -> EntryTags<V, P>
        ensures { result ≡ [] }
    {
        EntryTags {
            tags: RawTags::none(),
        }
    }

    /// Appends a duplicate of the tag.
    pub fn push(&mut self, tag: &EntryTag<V, P>)
        ensures { self.new ≡ self.old ++ tag_of tag.now.tie tag.now.from tag.now.n ∷ [] }
    {
        self.tags = replace(&mut self.tags, RawTags::none()).longer(tag);
    }

    /// Returns a duplicate of the tag at an index.
    pub fn at(&self, index: u64) -> EntryTag<V, P>
        requires { index < length self.now }
        ensures { slice_get self.now index ≡ Some (tag_of result.tie result.from result.n) }
    {
        self.tags.at(index)
    }
}

impl<V, P: Entered<V>> Drop for EntryTags<V, P> {
    fn drop(self) {
        let EntryTags { tags } = self;
        drop(tags);
    }
}
