//! The values that a growth makes in its places.
ghost use Rattle.std.specs.Prelude.{◌≡◌, ◌<◌, List, Some, length, slice_get, replicate};

use std::marker::Copy;

/// A list of values that are made one by one, for `try_grow_source`.
///
/// That call claims the run, and then makes up to 128 values before it shows the first of them, the later ones first. So
/// readers wait for a slow `value`; `try_grow_with` shows each value when it is made. No clause says when or how often a
/// value is made.
pub trait Source<T> {
    ghost use Rattle.std.specs.Prelude.{List};

    // The values, in order.
    ghost values: { Self → List T };

    /// Returns the number of values.
    fn len(&self) -> u64
        ensures { result ≡ length (values self.now) };

    /// Makes the value with this number.
    fn value(&self, i: u64) -> T
        requires { i < length (values self.now) }
        ensures { slice_get (values self.now) i ≡ Some result };
}

// The values of a slice, by copies.
#[derive(Drop)]
pub(crate) struct FromSlice<'a, T> {
    pub(crate) slice: &'a [T],
}

impl<'a, T: Copy> Source<T> for FromSlice<'a, T> {
    ghost values = { λ s. s.slice.now };

    #[inline(always)]
    fn len(&self) -> u64
        ensures { result ≡ length self.now.slice.now }
    {
        self.slice.len() as u64
    }

    #[inline(always)]
    fn value(&self, i: u64) -> T
        requires { i < length self.now.slice.now }
        ensures { slice_get self.now.slice.now i ≡ Some result }
    {
        self.slice[i as usize]
    }
}

// `n` copies of one value.
#[derive(Drop)]
pub(crate) struct Copies<T> {
    pub(crate) n: u64,
    pub(crate) value: T,
}

impl<T: Copy> Source<T> for Copies<T> {
    ghost use Rattle.std.specs.Prelude.{replicate};

    ghost values = { λ c. replicate c.n c.value };

    #[inline(always)]
    fn len(&self) -> u64
        ensures { result ≡ length (replicate self.now.n self.now.value) }
    {
        self.n
    }

    #[inline(always)]
    fn value(&self, i: u64) -> T
        requires { i < length (replicate self.now.n self.now.value) }
        ensures { slice_get (replicate self.now.n self.now.value) i ≡ Some result }
    {
        // Only the contract speaks of the number.
        let _ = i;
        self.value
    }
}
