// The knowledge that a growth has of its filled places, and the token of its run.
ghost use Rattle.std.specs.Prelude.{◌≡◌, ◌+◌, ◌≤◌, ◌++◌, ℕ, List, [], length};
ghost use Rattle.grow_core.specs.Filled.{IsFilledOf, IsNextStretch};
ghost use Rattle.grow_core.specs.Grown.{IsGrownOf, values_of};
ghost use Rattle.grow_core.specs.Vector.{limit_of};

use crate::grown::Grown;
use crate::stretch::Stretch;
use crate::vector::Shared;
use cell_core::block::Row;
use claim_core::Run;
use table_core::KeySet;

// Knowledge of filled places next to each other: the keys of their segments, and that each cell has its value. It has
// no bytes except the layout.
#[derive(Drop)]
pub(crate) struct Filled<T> {
    pub(crate) keys: KeySet,
    pub(crate) row: Row<T>,
}

impl<T> Shared<T> {
    // Nothing is known of any place.
    pub(crate) fn no_places(&self) -> Filled<T>
        ensures { (from : ℕ) → IsFilledOf self.now from [] result }
    {
        Filled {
            keys: self.table.no_keys(),
            row: Row::new(),
        }
    }

    // Adds the knowledge of the next places, which are those of the stretch.
    #[inline(always)]
    pub(crate) fn know(&self, filled: Filled<T>, stretch: Stretch<T>) -> Filled<T>
        requires { (from : ℕ) × (done : List T) × (values : List T)
            × IsNextStretch self.now from done values filled stretch }
        ensures { (from : ℕ) → (done : List T) → (values : List T)
            → IsNextStretch self.now from done values filled stretch
            → IsFilledOf self.now from (done ++ values) result }
    {
        // For the proof: the segments are those of a layout.
        let _layout = self.table.layout();
        let Filled { keys, mut row } = filled;
        let keys = keys.with(&stretch.key);
        row.append(stretch.row);
        Filled { keys, row }
    }

    // The token of a run whose places are filled.
    pub(crate) fn grown(&self, run: Run, filled: Filled<T>) -> Grown<T>
        requires within { run.from + run.n ≤ limit_of self.now }
        requires filled { (values : List T) × (length values ≡ run.n)
            × IsFilledOf self.now run.from values filled }
        ensures run { result.run ≡ run }
        ensures of { IsGrownOf self.now result }
        ensures values { (values : List T) → IsFilledOf self.now run.from values filled
            → values_of result ≡ values }
    {
        // For the proof: the limit is one that a vector may have.
        self.laws();
        Grown { run, filled }
    }
}
