//! The list type of results.
ghost use Rattle.std.specs.Prelude.{◌≡◌, ◌==◌, length};

use std::marker::Model;

/// A `Vec` that contracts see as a list. It takes no more memory than the `Vec`.
#[derive(Debug)]
pub struct Sequence<T> {
    members: Vec<T>,
}

impl<T> Model for Sequence<T> {
    ghost use Rattle.std.specs.Prelude.{List};

    ghost Value = { List T };

    ghost view = { λ s. s.members.items };
}

// By hand, so that proofs of callers do not go into its fields.
impl<T: Drop> Drop for Sequence<T> {
    fn drop(self) {
        let Self { members: _ } = self;
    }
}

impl<T> Sequence<T> {
    /// Makes a list of the members of a `Vec`, in its order. It takes no memory.
    pub fn from_vec(members: Vec<T>) -> Self
        ensures { result ≡ members.items }
    {
        Sequence { members }
    }

    /// Lends the members, in order.
    pub fn as_slice(&self) -> &[T]
        ensures { result.now ≡ self.now }
    {
        self.members.as_slice()
    }

    /// Gives the `Vec` back. It takes no memory.
    pub fn into_vec(self) -> Vec<T>
        ensures { result.items ≡ self }
    {
        let Self { members } = self;
        members
    }

    /// Returns the number of members.
    pub fn len(&self) -> usize
        ensures { result ≡ length self.now }
    {
        self.members.len()
    }

    /// Tests whether the list has no members.
    pub fn is_empty(&self) -> bool
        ensures { result ≡ (length self.now == 0) }
    {
        self.members.is_empty()
    }
}
