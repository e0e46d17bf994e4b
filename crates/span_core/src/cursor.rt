//! A place of a list that moves forward and back.
ghost use Rattle.std.specs.Prelude.{◌≡◌, ◌+◌, ◌-◌, ◌≤◌, ◌+ℤ◌, pos, length, slice_get, Some, IfOk, IfErr};
ghost use Rattle.quiet_core.specs.QuietAt.{IsRefusalAt};

use quiet_core::{Quiet, QuietAt};
use std::marker::Model;

/// A place of a list, or the end of the list.
#[derive(Drop)]
pub struct Cursor<'a, T> {
    list: &'a Quiet<T>,
    place: u64,
}

impl<'a, T> Model for Cursor<'a, T> {
    ghost use Rattle.std.specs.Prelude.{◌≤◌, length};
    ghost use Rattle.span_core.specs.Cursor.{CursorView, cursor_code};

    ghost Value = { CursorView T };

    ghost coded = { cursor_code T.code };

    ghost view = { λ c. record { list = c.list.now; place = c.place } };

    ghost invariant = { λ c. c.place ≤ length c.list.now.members };
}

impl<'a, T> Cursor<'a, T> {
    /// Makes a cursor at a place of the list, or at its end.
    pub fn new(list: &'a Quiet<T>, place: u64) -> Self
        requires { place ≤ length list.now.members }
        ensures { result ≡ record { list = list.now; place = place } }
    {
        Cursor { list, place }
    }

    /// Returns the cursor's place.
    pub fn place(&self) -> u64
        ensures value { result ≡ self.now.place }
        ensures bound { result ≤ length self.now.list.members }
    {
        self.place
    }

    /// Moves n places forward. The end is as far as it goes.
    pub fn forward(&mut self, n: u64)
        requires { self.old.place + n ≤ length self.old.list.members }
        ensures { self.new ≡ record self.old { place = self.old.place + n } }
    {
        // For the proof: a length is a `u64`, so the sum does not wrap.
        let _len = self.list.len();
        self.place += n;
    }

    /// Moves n places back.
    pub fn back(&mut self, n: u64)
        requires { n ≤ self.old.place }
        ensures { self.new ≡ record self.old { place = self.old.place - n } }
    {
        self.place -= n;
    }

    /// Returns the other's place minus this one's.
    pub fn distance(&self, other: &Cursor<'_, T>) -> i64
        ensures { pos self.now.place +ℤ result ≡ pos other.now.place }
    {
        // For the proof: no list is longer than an `i64` says.
        let _both = (self.list.len(), other.list.len());
        other.place as i64 - self.place as i64
    }

    /// Returns the value at the cursor, or a refusal at the end and at a broken member.
    pub fn item(&self) -> Result<&'a T, QuietAt>
        ensures value { IfOk result (λ x.
            slice_get self.now.list.members self.now.place ≡ Some (Some x.now)) }
        ensures refused { IfErr result (IsRefusalAt self.now.list.members self.now.place) }
    {
        let list = self.list;
        list.get(self.place)
    }
}
