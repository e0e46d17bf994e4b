// An update of a caller's table that a step on a tied cell runs.
ghost use Rattle.std.specs.Prelude.{◌≡◌, [], Option};
ghost use base.Fml.{Lft, Fml};
ghost use Rattle.tie_core.specs.Tie.{Tie, tie_coded, Stage, Step, step_coded, Made, made_coded, IsMade, offer_owns};
ghost use Rattle.tie_core.specs.Desk.{IsBack};

use crate::play::{CellPlay, Moving, SeatMove};
use atomic_table::{Badge, TableRule};
use std::marker::{Model, PhantomData};

/// Says what a caller's table is, and what the caller gains once its update has run, by data of its own.
pub trait Book<X> {
    // How long the table lends the content of its invariant: a lifetime.
    ghost age: { X → Lft };
    // The content of that invariant.
    ghost inner: { X → Fml };
    // The gain of the caller, by the stages before and after the step.
    ghost gain: { X → Stage → Stage → Fml };
}

/// An update of a caller's table, which one step on a tied cell runs: the seat of the cell and the table go along with
/// the cell, in the step itself. `made` is the stages before and after the step, once it has run. It has no bytes.
/// A caller makes an offer in a proof by hand, so `marker` is public. Dropping it gives up its update or its gain.
pub struct Offer<'a, X, K: Book<X>> {
    pub marker: PhantomData<(&'a (), X, K)>,
    pub ghost tie: { Tie } by { tie_coded },
    pub ghost about: { X },
    pub ghost step: { Step } by { step_coded },
    pub ghost made: { Option Made } by { made_coded },
}

impl<'a, X, K: Book<X>> Model for Offer<'a, X, K> {
    ghost also_owns = { λ o.
        offer_owns (K.age o.about) (K.inner o.about) (K.gain o.about) o.tie o.step 'a o.made };
}

impl<'a, S, V, K, P: TableRule<S, V, K>, M: CellPlay<V>> Offer<
    'a,
    Moving<V, K>,
    SeatMove<S, V, K, P, M>,
> {
    /// Gives the seat back into a blank badge, with the view that the step gave it, once the step has run.
    #[inline(always)]
    pub fn back(self, badge: &mut Badge<V>)
        requires made { IsMade self.made }
        requires blank { badge.old.views ≡ [] }
        ensures seat { (badge.new.table_id ≡ self.entry.about.table_id)
            × (badge.new.id ≡ self.entry.about.id) }
        ensures view { IsBack (M.then self.entry.about.told self.entry.about.view) self.entry.made
            badge.new.views }
    {
        let Offer { marker: _ } = self;
    }
}

impl<'a, X, K: Book<X>> Drop for Offer<'a, X, K> {
    fn drop(self) {
        let Self { marker: _ } = self;
    }
}
