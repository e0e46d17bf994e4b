//! How a list gets room, another length, or no more room than it needs.
ghost use Rattle.std.specs.Prelude.{◌≡◌, ◌↔◌, ◌<◌, ◌≤◌, length, IsOk, IsErrOf, IfErr, OnOk, OnErr};
ghost use Rattle.quiet_core.specs.QuietList.{IsCapacityFor, GrowsFor, IsUnchanged};
ghost use Rattle.quiet_core.specs.Resizing.{IsOfRoom, IsNotOfRoom, IsResized, LeavesList};

use crate::errors::QuietError;
use crate::quiet::Quiet;
use crate::room::{append_made, break_to, cut_to, places_for};

impl<T: Drop> Quiet<T> {
    /// Makes room for n members in all. Nothing else changes.
    pub fn reserve(&mut self, n: u64) -> Result<(), QuietError>
        ensures rest_kept { self.new ≡ record self.old
            { capacity = self.new.capacity; closed = self.new.closed } }
        ensures capacity { OnOk result
            (GrowsFor self.old.layout n self.old.capacity self.new.capacity) }
        // The limit is looked at before memory is asked for.
        ensures too_long { IsErrOf result QuietError.TooLong ↔ (self.old.limit < n) }
        ensures unchanged { OnErr result (IsUnchanged self.old self.new) }
        ensures of_room { IfErr result IsOfRoom }
        ensures untouched { self.old.limit < n → self.new ≡ self.old }
        ensures spare { n ≤ self.old.limit → n ≤ self.old.capacity → IsOk result }
    {
        if self.limit() < n {
            return Err(QuietError::TooLong);
        }
        if places_for(self.layout(), n) <= self.capacity() {
            return Ok(());
        }
        match self.parts.room(n) {
            Ok(()) => Ok(()),
            Err(_) => Err(QuietError::NoMemory),
        }
    }

    /// Drops the members from place n on, or appends values that `make` makes until there are n: it is called
    /// with 0, 1, 2 and so on. After its first refusal it is not called again, and the list has the length
    /// that was asked for, with broken members from there on; the cause is dropped.
    ///
    /// Its time is linear in the members that go or come.
    pub fn resize<E: Drop, F: FnMut(u64) -> Result<T, E>>(
        &mut self,
        n: u64,
        make: F,
    ) -> Result<(), QuietError>
        requires callable { F.IsAlwaysCallable make }
        ensures resized { OnOk result (IsResized F.step make n self.old.members self.new.members) }
        ensures refused { IfErr result (LeavesList F.step make n self.old self.new) }
        ensures rest_kept { self.new ≡ record self.old {
          members = self.new.members;
          capacity = self.new.capacity;
          closed = self.new.closed;
        } }
        ensures capacity { OnOk result
            (GrowsFor self.old.layout n self.old.capacity self.new.capacity) }
        // The limit is looked at before memory is asked for.
        ensures too_long { IsErrOf result QuietError.TooLong ↔ (self.old.limit < n) }
        ensures spare { n ≤ self.old.limit → n ≤ self.old.capacity → IfErr result IsNotOfRoom }
    {
        self.reserve(n)?;
        let len = self.len();
        if n <= len {
            cut_to(&mut self.parts, n);
            return Ok(());
        }
        match append_made(&mut self.parts, n - len, make) {
            Ok(()) => Ok(()),
            Err(made) => {
                break_to(&mut self.parts, n);
                Err(QuietError::Refused { made })
            }
        }
    }

    /// Drops every segment that lies wholly above the length.
    pub fn shrink_to_fit(&mut self)
        ensures rest_kept { self.new ≡ record self.old
            { capacity = self.new.capacity; closed = self.new.closed } }
        ensures capacity { IsCapacityFor self.old.layout
            (length self.old.members) self.new.capacity }
    {
        self.parts.cut();
        // For the proof: the capacity is that of the parts.
        let _room = self.parts.capacity();
    }
}
