// Updates of a caller's table that one step on a run of tied cells runs.
ghost use Rattle.std.specs.Prelude.{◌≡◌, ℕ, [], List, Option};
ghost use base.Fml.{Lft, Fml};
ghost use base.Stored.{coded_list};
ghost use Rattle.atomic_table.specs.Seated.{age as age_of};
ghost use Rattle.tie_core.specs.Tie.{Tie, tie_coded, Step, step_coded, Made};
ghost use Rattle.tie_core.specs.Desk.{content, gone};
ghost use Rattle.tie_core.specs.Run.{run_made_coded, run_offer_owns, IsRunMade, IsBackWith};

use crate::play::Moving;
use atomic_table::{Badge, TableRule};
use std::marker::{Model, PhantomData};

/// Says how a caller's seat goes along with steps on the cells of a run, one after the other.
pub trait RunPlay<V> {
    // The step on each cell.
    ghost step: { Step };
    // What some of the steps tell their caller: of the number told, the view before the first step, the stages of each
    // cell before and after its step, in order, and the view after the last step.
    ghost then: { ℕ → V → List Made → V → Type 0 };
}

/// Says what a caller's table is, and what the caller gains once its updates have run, by data of its own.
pub trait RunBook<X> {
    ghost age: { X → Lft };

    ghost inner: { X → Fml };
    // The gain of the caller, by the stages of each cell before and after the step, in order.
    ghost gain: { X → List Made → Fml };
}

/// Marks an offer for a run, from a seat of a table with this rule, for this play.
#[derive(Drop)]
pub struct SeatRun<S, V, K, P, M> {
    marker: PhantomData<(S, V, K, P, M)>,
}

impl<S, V, K, P: TableRule<S, V, K>, M: RunPlay<V>> RunBook<Moving<V, K>>
    for SeatRun<S, V, K, P, M> {
    ghost age = { λ a. age_of a.table_id };

    ghost inner = { λ a. content S.row V.row.coded.code (P.holds a.key) a.words a.table_id };

    ghost gain = { λ a ms. gone V.row.coded.code a.table_id a.id (M.then a.told a.view ms) };
}

/// Updates of a caller's table, which one step on a run of tied cells runs: the seats of the cells and the table go
/// along with the cells, one after the other, in the step itself. `made` is the stages of each cell before and after
/// the step, once it has run. It has no bytes. A caller makes one in a proof by hand, so `marker` is public.
pub struct RunOffer<'a, X, K: RunBook<X>> {
    pub marker: PhantomData<(&'a (), X, K)>,
    pub ghost ties: { List Tie } by { coded_list tie_coded },
    pub ghost about: { X },
    pub ghost step: { Step } by { step_coded },
    pub ghost made: { Option (List Made) } by { run_made_coded },
}

impl<'a, X, K: RunBook<X>> Model for RunOffer<'a, X, K> {
    ghost also_owns = { λ o.
        run_offer_owns (K.age o.about) (K.inner o.about) o.step o.ties (K.gain o.about) 'a o.made };
}

impl<'a, S, V, K, P: TableRule<S, V, K>, M: RunPlay<V>> RunOffer<
    'a,
    Moving<V, K>,
    SeatRun<S, V, K, P, M>,
> {
    /// Gives the seat back into a blank badge, with the view that the step gave it, once the step has run.
    #[inline(always)]
    pub fn back(self, badge: &mut Badge<V>)
        requires made { IsRunMade self.made }
        requires blank { badge.old.views ≡ [] }
        ensures seat { (badge.new.table_id ≡ self.entry.about.table_id)
            × (badge.new.id ≡ self.entry.about.id) }
        ensures view { IsBackWith (M.then self.entry.about.told self.entry.about.view)
            self.entry.made badge.new.views }
    {
        let RunOffer { marker: _ } = self;
    }
}

impl<'a, X, K: RunBook<X>> Drop for RunOffer<'a, X, K> {
    fn drop(self) {
        let Self { marker: _ } = self;
    }
}
