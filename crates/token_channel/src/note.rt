//! A place of a vector, as one thread reports it to another.
ghost use Rattle.std.specs.Prelude.{◌≡◌};
ghost use Rattle.grow_core.specs.Vector.{IsPlacedOf};

use grow_core::{Placed, Shared};

/// A vector, and a place of it that has a value. Its ghost field ties the two, so that its receiver can read
/// the value.
#[derive(Drop)]
pub struct Note<'a> {
    pub vector: &'a Shared<u64>,
    pub placed: Placed<u64>,
    ghost ours: { IsPlacedOf vector.now placed },
}

impl<'a> Note<'a> {
    /// Returns the value at the place.
    pub fn value(&self) -> &'a u64
        ensures { result.now ≡ self.now.placed.value }
    {
        let vector = self.vector;
        vector.get(&self.placed)
    }
}
