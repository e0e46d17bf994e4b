// The keys of the segments that a hand's runs touch.
ghost use Rattle.std.specs.Prelude.{◌≡◌, ◌<◌, ℕ, List, IsSome, None, Some, slice_set};
ghost use Rattle.seg_core.specs.Segment.{most_segments};
ghost use Rattle.grow_core.specs.Keys.{AreKeys, AreOfEither, KeepsKeys, PutsKey, IsKeyAt, key_at};

use seg_core::MOST_SEGMENTS;
use std::array;
use std::marker::Model;
use table_core::Key;

// An optional key per segment, with room for the segments of every layout.
pub(crate) struct Keys {
    row: [Option<Key>; MOST_SEGMENTS],
}

impl Model for Keys {
    ghost use Rattle.std.specs.Prelude.{List, Option};
    ghost use Rattle.std.specs.Coded.{coded_option};
    ghost use base.Stored.{coded_list};
    ghost use Rattle.table_core.specs.Table.{KeyView, key_coded};

    ghost Value = { List (Option KeyView) };

    ghost coded = { coded_list (coded_option key_coded) };

    ghost view = { λ k. k.row };
}

// By hand, so that proofs of callers do not go into its fields.
impl Drop for Keys {
    #[inline(always)]
    fn drop(self) {
        let Self { row: _ } = self;
    }
}

impl Keys {
    // Sets what the row has for the segment.
    #[inline(always)]
    pub(crate) fn set(&mut self, segment: u32, key: Option<Key>)
        requires { segment < most_segments }
        ensures set { self.new ≡ slice_set self.old segment key }
        ensures put { key_at self.new segment ≡ key }
    {
        self.row[segment as usize] = key;
    }
}

// No key.
pub(crate) fn no_keys() -> Keys
    ensures { (segment : ℕ) → segment < most_segments → key_at result segment ≡ None }
{
    let row = array::from_fn(
        |_: usize| -> Option<Key>
            ensures { result ≡ None }
        { None },
    );
    Keys { row }
}

// A duplicate of the segment's key, if the row has it.
pub(crate) fn key_of(row: &Keys, segment: u32) -> Option<Key>
    requires { segment < most_segments }
    ensures { result ≡ key_at row.now segment }
{
    match &row.row[segment as usize] {
        Some(key) => Some(key.again()),
        None => None,
    }
}

// Duplicates of the keys.
pub(crate) fn keys_again(row: &Keys) -> Keys
    ensures { (segment : ℕ) → segment < most_segments
        → key_at result segment ≡ key_at row.now segment }
{
    let again = array::from_fn(
        |segment: usize| -> Option<Key>
            requires { segment < most_segments }
            ensures { result ≡ key_at row.entry.now segment }
        { key_of(row, segment as u32) },
    );
    Keys { row: again }
}

// Puts the key of a segment into the row.
pub(crate) fn put_key(row: &mut Keys, segment: u32, key: Key)
    requires { segment < most_segments }
    ensures puts { PutsKey row.old row.new segment key }
    ensures keys { (mark : List ℕ) → AreKeys mark row.old → IsKeyAt mark segment key
        → AreKeys mark row.new }
    ensures kept { KeepsKeys row.old row.new }
    ensures put { IsSome (key_at row.new segment) }
    ensures there { key_at row.new segment ≡ Some key }
{
    row.set(segment, Some(key));
}

// Copies the other row's key of a segment into the row, if the row has none.
fn put_other(row: &mut Keys, other: &Keys, segment: u32)
    requires { segment < most_segments }
    ensures keys { (mark : List ℕ) → AreKeys mark row.old → AreKeys mark other.now
        → AreKeys mark row.new }
    ensures either { AreOfEither row.old other.now row.new }
    ensures kept { KeepsKeys row.old row.new }
    ensures put { IsSome (key_at other.now segment) → IsSome (key_at row.new segment) }
{
    if row.row[segment as usize].is_none() {
        if let Some(key) = key_of(other, segment) {
            put_key(row, segment, key);
        }
    }
}

// Copies the other row's keys into the row, if the row lacks them.
pub(crate) fn put_keys(row: &mut Keys, other: &Keys)
    ensures keys { (mark : List ℕ) → AreKeys mark row.old → AreKeys mark other.now
        → AreKeys mark row.new }
    ensures either { AreOfEither row.old other.now row.new }
    ensures kept { KeepsKeys row.old row.new }
    ensures put { KeepsKeys other.now row.new }
{
    for segment in 0..MOST_SEGMENTS as u32 {
        put_other(row, other, segment);
    }
}
