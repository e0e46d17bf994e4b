//! How a list is made of values, and how it gets more.
ghost use Rattle.std.specs.Prelude.{◌≡◌, ◌↔◌, ◌+◌, ◌<◌, ◌≤◌, [], ◌∷◌, ◌++◌, length, map, vec_len, Some, Err, IsOk, IfOk, IfErr, OnOk, OnErr};
ghost use Rattle.seg_core.specs.Segment.{IsLimit};
ghost use Rattle.quiet_core.specs.QuietList.{IsCapacityFor, GrowsFor, IsAtLimit, IsUnchanged};
ghost use Rattle.quiet_core.specs.Resizing.{IsOfRoom};

use crate::errors::QuietError;
use crate::quiet::Quiet;
use crate::room::{append, cut_to};
use seg_core::Layout;
use std::alloc::Global;

impl<T: Drop> Quiet<T> {
    /// Makes a list of these values.
    ///
    /// Its time and memory are linear in the values. It takes memory of its own for them.
    pub fn from_vec(
        alloc: Global,
        limit: u64,
        values: Vec<T>,
    ) -> Result<Quiet<T>, (QuietError, Vec<T>)>
        requires { IsLimit limit }
        ensures members { IfOk result (λ q. q.members ≡ map Some values.items) }
        ensures limit { IfOk result (λ q. q.limit ≡ limit) }
        ensures layout { IfOk result (λ q. q.layout ≡ 1) }
        ensures capacity { IfOk result (λ q. IsCapacityFor 1 (vec_len values) q.capacity) }
        // The limit is looked at before memory is asked for.
        ensures too_long { (result ≡ Err (QuietError.TooLong, values)) ↔ (limit < vec_len values) }
        ensures values_back { IfErr result (λ (_, back). back ≡ values) }
        ensures of_room { IfErr result (λ (why, _). IsOfRoom why) }
    {
        Quiet::from_vec_in(alloc, Layout::default(), limit, values)
    }

    /// Makes a list of these values like `from_vec`, with the segments of the layout.
    pub fn from_vec_in(
        alloc: Global,
        layout: Layout,
        limit: u64,
        values: Vec<T>,
    ) -> Result<Quiet<T>, (QuietError, Vec<T>)>
        requires { IsLimit limit }
        ensures members { IfOk result (λ q. q.members ≡ map Some values.items) }
        ensures limit { IfOk result (λ q. q.limit ≡ limit) }
        ensures layout { IfOk result (λ q. q.layout ≡ layout) }
        ensures capacity { IfOk result (λ q. IsCapacityFor layout (vec_len values) q.capacity) }
        // The limit is looked at before memory is asked for.
        ensures too_long { (result ≡ Err (QuietError.TooLong, values)) ↔ (limit < vec_len values) }
        ensures values_back { IfErr result (λ (_, back). back ≡ values) }
        ensures of_room { IfErr result (λ (why, _). IsOfRoom why) }
    {
        let mut list = Quiet::new_in(alloc, layout, limit);
        match list.assign(values) {
            Ok(()) => Ok(list),
            Err(refused) => {
                drop(list);
                Err(refused)
            }
        }
    }

    /// Appends a value and returns its place.
    ///
    /// If a segment has to be added, its time and memory are linear in the members; otherwise they are
    /// constant.
    pub fn push(&mut self, value: T) -> Result<u64, (QuietError, T)>
        ensures place { IfOk result (λ place. place ≡ length self.old.members) }
        ensures appended { OnOk result (self.new.members ≡ self.old.members ++ Some value ∷ []) }
        ensures rest_kept { self.new ≡ record self.old {
          members = self.new.members;
          capacity = self.new.capacity;
          closed = self.new.closed;
        } }
        ensures capacity { OnOk result
            (GrowsFor self.old.layout (length self.new.members)
            self.old.capacity self.new.capacity) }
        // The limit is looked at before memory is asked for.
        ensures too_long { (result ≡ Err (QuietError.TooLong, value)) ↔ IsAtLimit self.old }
        ensures value_back { IfErr result (λ (_, back). back ≡ value) }
        ensures unchanged { OnErr result (IsUnchanged self.old self.new) }
        ensures of_room { IfErr result (λ (why, _). IsOfRoom why) }
        ensures untouched { IsAtLimit self.old → self.new ≡ self.old }
        ensures spare { length self.old.members < self.old.limit
            → length self.old.members < self.old.capacity → IsOk result }
    {
        let place = self.len();
        match self.reserve(place + 1) {
            Ok(()) => {
                self.parts.append(Some(value));
                Ok(place)
            }
            Err(error) => Err((error, value)),
        }
    }

    /// Replaces the members by these values, and drops the members that were there.
    ///
    /// Its time is linear in both. It takes memory if there are more values than the capacity.
    pub fn assign(&mut self, values: Vec<T>) -> Result<(), (QuietError, Vec<T>)>
        ensures members { OnOk result (self.new.members ≡ map Some values.items) }
        ensures rest_kept { self.new ≡ record self.old {
          members = self.new.members;
          capacity = self.new.capacity;
          closed = self.new.closed;
        } }
        ensures capacity { OnOk result
            (GrowsFor self.old.layout (vec_len values) self.old.capacity self.new.capacity) }
        // The limit is looked at before memory is asked for.
        ensures too_long { (result ≡ Err (QuietError.TooLong, values))
            ↔ (self.old.limit < vec_len values) }
        ensures values_back { IfErr result (λ (_, back). back ≡ values) }
        ensures unchanged { OnErr result (IsUnchanged self.old self.new) }
        ensures of_room { IfErr result (λ (why, _). IsOfRoom why) }
        ensures untouched { self.old.limit < vec_len values → self.new ≡ self.old }
        ensures spare { vec_len values ≤ self.old.limit
            → vec_len values ≤ self.old.capacity → IsOk result }
    {
        match self.reserve(values.len() as u64) {
            Ok(()) => {
                self.clear();
                append(&mut self.parts, values);
                Ok(())
            }
            Err(error) => Err((error, values)),
        }
    }

    /// Drops all members. The capacity stays.
    pub fn clear(&mut self)
        ensures members { self.new.members ≡ [] }
        ensures rest_kept { self.new ≡ record self.old
            { members = self.new.members; closed = self.new.closed } }
    {
        cut_to(&mut self.parts, 0);
    }
}
