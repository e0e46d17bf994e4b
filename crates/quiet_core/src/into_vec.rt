//! A list as a vector of its values.
ghost use Rattle.std.specs.Prelude.{◌≡◌, Some, None, MatchOption, IfOk, IfErr, map};
ghost use Rattle.grow_core.specs.PopSegment.{IsUnbroken};
ghost use Rattle.quiet_core.specs.IntoVec.{IsFirstBroken, IsDueFor};

use crate::errors::IntoVecError;
use crate::quiet::Quiet;

impl<T> Quiet<T> {
    /// Returns the place of the first broken member, if there is one. It looks at the state of each member before it,
    /// and at none if no member is broken.
    pub fn first_broken(&self) -> Option<u64>
        ensures { MatchOption result (IsUnbroken self.now.members)
            (IsFirstBroken self.now.members) }
    {
        if self.parts.is_unbroken() {
            return None;
        }
        for place in 0..self.len() {
            if self.parts.get(place).is_none() {
                return Some(place);
            }
        }
        None
    }
}

impl<T: Drop> Quiet<T> {
    /// Returns the values of the members, in order, and frees the segments. A list with a broken member, or without
    /// memory for the vector, comes back.
    ///
    /// Its time is linear in the members. It asks for memory once, if no member is broken.
    pub fn into_vec(self) -> Result<Vec<T>, (IntoVecError, Quiet<T>)>
        ensures values { IfOk result (λ values. map Some values.items ≡ self.members) }
        ensures refused { IfErr result (λ (why, _). IsDueFor self.members why) }
        ensures list_back { IfErr result (λ (_, back). back ≡ self) }
    {
        if let Some(place) = self.first_broken() {
            return Err((IntoVecError::Broken { place }, self));
        }
        let parts = self.into_parts();
        match parts.into_values() {
            Ok(values) => Ok(values),
            Err(parts) => Err((IntoVecError::NoMemory, Quiet { parts })),
        }
    }
}
