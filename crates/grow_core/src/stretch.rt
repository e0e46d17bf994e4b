// Places next to each other that a growth fills together.
ghost use Rattle.std.specs.Prelude.{◌≡◌, ◌+◌, ◌<◌, ◌≤◌, ◌++◌, ◌∷◌, ℕ, List, [], Some, length, slice_get};
ghost use Rattle.std.specs.Vec.Iter.{into_iter_items, into_iter_len};
ghost use Rattle.grow_core.specs.Grown.{AreKeptFrom};
ghost use Rattle.grow_core.specs.Stretch.{IsCounted, IsStretchOf};
ghost use Rattle.grow_core.specs.Vector.{IsPlacedOf};

use crate::token::Placed;
use crate::vector::Shared;
use cell_core::block::{Kind, Member, Row, RunPen};
use std::vec::IntoIter;
use table_core::Key;

// Cells of the segment with the key, `n` from an offset on, that hold their values.
#[derive(Drop)]
pub(crate) struct Stretch<T> {
    pub(crate) key: Key,
    pub(crate) offset: u64,
    pub(crate) n: u64,
    pub(crate) row: Row<T>,
}

// Writes the next `n` values into the cells of the run, and returns the values that are left.
#[inline(always)]
pub(crate) fn write_values<'a, T: Drop, B: Kind>(
    pen: RunPen<'a, T, B>,
    n: u64,
    values: IntoIter<T>,
) -> (RunPen<'a, T, B>, IntoIter<T>)
    requires cells { length pen.cells ≡ n }
    requires unwritten { pen.values ≡ [] }
    requires enough { n ≤ into_iter_len values }
    requires counted { IsCounted values }
    ensures run { (result.0.offset ≡ pen.entry.offset) × (result.0.cells ≡ pen.entry.cells) }
    ensures written { (length result.0.values ≡ n)
        × (into_iter_items values ≡ result.0.values ++ into_iter_items result.1) }
    ensures counted { IsCounted result.1 }
{
    let mut pen = pen;
    let mut left = values;
    for _ in 0..n {
        match left.next() {
            Some(value) => pen = pen.write(value),
            None => unreachable!(),
        }
    }
    (pen, left)
}

impl<T> Shared<T> {
    // The token of place `i` of the stretch.
    fn token(&self, stretch: &Stretch<T>, i: u64) -> Placed<T>
        requires stretch { (from : ℕ) × (values : List T)
            × IsStretchOf self.now from values stretch.now }
        requires within { i < stretch.now.n }
        ensures { (from : ℕ) → (values : List T) → IsStretchOf self.now from values stretch.now
            → IsPlacedOf self.now result × (result.place ≡ from + i)
            × (slice_get values i ≡ Some result.value) }
    {
        Placed {
            key: stretch.key.again(),
            cell: stretch.row.at(i).placed(stretch.offset + i),
        }
    }

    // The stretch of one place, by its token.
    #[inline(always)]
    pub(crate) fn stretch_of(&self, placed: Placed<T>) -> Stretch<T>
        requires { IsPlacedOf self.now placed }
        ensures { IsStretchOf self.now placed.place (placed.value ∷ []) result }
    {
        let Placed { key, cell } = placed;
        let mut row = Row::new();
        row.push(&Member::of(&cell));
        Stretch {
            key,
            offset: cell.offset(),
            n: 1,
            row,
        }
    }

    // Gives the token of each place of the stretch to `keep`, in order.
    pub(crate) fn keep_tokens<K: FnMut(Placed<T>)>(&self, stretch: &Stretch<T>, keep: &mut K)
        requires stretch { (from : ℕ) × (values : List T)
            × IsStretchOf self.now from values stretch.now }
        requires callable { K.IsAlwaysCallable keep.old }
        ensures kept { (from : ℕ) → (values : List T) → IsStretchOf self.now from values stretch.now
            → AreKeptFrom K.step keep.old keep.new self.now from values }
        ensures callable { K.IsAlwaysCallable keep.new }
    {
        for i in 0..stretch.n {
            keep(self.token(stretch, i));
        }
    }
}
