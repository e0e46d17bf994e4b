//! How a caller is cut in two, and put together.
ghost use Rattle.std.specs.Prelude.{◌≡◌, ◌-◌, ◌<◌, None, IfOk, OnOk, OnErr, []};
ghost use Rattle.caller_core.specs.Caller.{JoinsCallers};

use crate::caller::Caller;
use std::alloc::AllocError;
use std::sync::Arc;

impl<T> Caller<T> {
    /// Splits shares off into a new caller, whose hand has seen the same. A refusal leaves all shares here.
    pub fn split(&mut self, shares: u32) -> Result<Caller<T>, AllocError>
        requires some_shares { 0 < shares }
        requires not_all { shares < self.old.hand.shares }
        ensures kept { OnOk result (self.new ≡ record self.old
            { hand = record self.old.hand { shares = self.old.hand.shares - shares } }) }
        ensures given { IfOk result (λ other. other ≡ record self.old
            { hand = record self.old.hand { mine = []; shares = shares }; last = None }) }
        ensures unchanged { OnErr result (self.new ≡ self.old) }
    {
        let hub = Arc::try_clone(&self.hub)?;
        let hand = self.hub.vector.split(&mut self.hand, shares);
        Ok(Caller {
            hub,
            hand,
            last: None,
        })
    }
}

impl<T: Drop> Caller<T> {
    /// Joins the other caller's runs and shares into this one.
    pub fn join(&mut self, other: Caller<T>)
        requires same { other.vector ≡ self.old.vector }
        ensures joined { JoinsCallers self.old other self.new }
        ensures last { self.new.last ≡ self.old.last }
    {
        let (hub, hand, last) = other.into_parts();
        self.hub.vector.join(&mut self.hand, hand);
        drop((hub, last));
    }
}
