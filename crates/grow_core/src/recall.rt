//! How the tokens of a vector are read in the list that it was closed into.
ghost use Rattle.std.specs.Prelude.{◌≡◌, ◌<◌, ◌≤◌, length, slice_get, Some};
ghost use Rattle.grow_core.specs.Closing.{IsOfClosed};

use crate::blocks::cell_of;
use crate::keys::key_of;
use crate::parts::Parts;
use crate::token::Placed;
use seg_core::laws::places;

impl<T> Parts<T> {
    /// Returns the token's value, which is the list's member at its place. The list must have been closed
    /// from the token's vector and be unchanged since. A caller knows that the place is below the length if
    /// it has seen the place claimed.
    pub fn recall(&self, placed: &Placed<T>) -> &T
        requires { IsOfClosed self.now.closed placed.now }
        ensures value { result.now ≡ placed.now.value }
        ensures member { placed.now.place < length self.now.members
            → slice_get self.now.members placed.now.place ≡ Some (Some placed.now.value) }
    {
        if placed.place() < self.len {
            self.recall_member(placed)
        } else {
            self.recall_past(placed)
        }
    }

    // The same of a member.
    fn recall_member(&self, placed: &Placed<T>) -> &T
        requires of { IsOfClosed self.now.closed placed.now }
        requires below { placed.now.place < length self.now.members }
        ensures value { result.now ≡ placed.now.value }
        ensures member { slice_get self.now.members placed.now.place
            ≡ Some (Some placed.now.value) }
    {
        // For the proof: each place lies in one segment.
        places();
        let place = placed.place();
        let (_, offset, key) = cell_of(&self.table, &self.keys, self.count, place);
        let (_, _, before) = cell_of(&self.table, &self.before, self.count, place);
        before.agree(&placed.key);
        let member = self.row.at(place);
        member.agree(&placed.cell);
        match self.table.known(&key).member(offset, &member, &self.epoch) {
            Some((value, _)) => value,
            None => unreachable!(),
        }
    }

    // The same of a place that is not below the length: its cell is as it was.
    fn recall_past(&self, placed: &Placed<T>) -> &T
        requires of { IsOfClosed self.now.closed placed.now }
        requires past { length self.now.members ≤ placed.now.place }
        ensures { result.now ≡ placed.now.value }
    {
        let segment = placed.key.segment();
        if segment >= self.count {
            return self.table.known(&placed.key).value(&placed.cell);
        }
        let (Some(key), Some(before)) = (key_of(&self.keys, segment), key_of(&self.before, segment))
        else {
            unreachable!()
        };
        before.agree(&placed.key);
        self.table.known(&key).value(&placed.cell)
    }
}
