//! How members are replaced and mended, and lists exchanged.
ghost use Rattle.std.specs.Prelude.{◌≡◌, slice_get, slice_set, Some, None, IfOk, IfErr, OnOk, OnErr};
ghost use Rattle.quiet_core.specs.QuietAt.{IsRefusalAt, IsMendRefusalAt};

use crate::errors::{QuietAt, QuietMendError};
use crate::quiet::Quiet;
use std::mem;

impl<T: Drop> Quiet<T> {
    /// Replaces the value at the place, and returns the one that was there. A refusal says, like `get`, that
    /// the place is not below the length, or that its member is broken, and gives the value back.
    pub fn replace(&mut self, place: u64, value: T) -> Result<T, (QuietAt, T)>
        ensures value { IfOk result (λ x. slice_get self.old.members place ≡ Some (Some x)) }
        ensures replaced { OnOk result
            (self.new.members ≡ slice_set self.old.members place (Some value)) }
        ensures refused { IfErr result (λ (why, _). IsRefusalAt self.old.members place why) }
        ensures value_back { IfErr result (λ (_, back). back ≡ value) }
        ensures unchanged { OnErr result (self.new ≡ self.old) }
        ensures rest_kept { self.new ≡ record self.old
            { members = self.new.members; closed = self.new.closed } }
    {
        if let Err(error) = self.get(place) {
            return Err((error, value));
        }
        match self.parts.replace(place, Some(value)) {
            Some(held) => Ok(held),
            None => unreachable!(),
        }
    }

    /// Fills a broken member with the value. A refusal says that the place is not below the length, or that
    /// it has a value, and gives the value back. It takes no memory.
    pub fn mend(&mut self, place: u64, value: T) -> Result<(), (QuietMendError, T)>
        ensures mended { OnOk result
            (self.new.members ≡ slice_set self.old.members place (Some value)) }
        ensures broken { OnOk result (slice_get self.old.members place ≡ Some None) }
        ensures refused { IfErr result (λ (why, _). IsMendRefusalAt self.old.members place why) }
        ensures value_back { IfErr result (λ (_, back). back ≡ value) }
        ensures unchanged { OnErr result (self.new ≡ self.old) }
        ensures rest_kept { self.new ≡ record self.old
            { members = self.new.members; closed = self.new.closed } }
    {
        match self.get(place) {
            Ok(_) => return Err((QuietMendError::Filled, value)),
            Err(QuietAt::OutOfRange { size }) => {
                return Err((QuietMendError::OutOfRange { size }, value));
            }
            Err(QuietAt::Broken) => {}
        }
        let held = self.parts.replace(place, Some(value));
        match held {
            None => Ok(()),
            Some(_) => unreachable!(),
        }
    }

    /// Exchanges the two lists with all that they have, limits too.
    pub fn swap(&mut self, other: &mut Quiet<T>)
        ensures mine { self.new ≡ other.old }
        ensures others { other.new ≡ self.old }
    {
        mem::swap(self, other);
    }
}
