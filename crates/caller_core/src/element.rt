//! Elements that are made of words, and have an address.
ghost use Rattle.std.specs.Prelude.{◌≡◌, ◌≢◌, ◌<◌, ◌/◌, ◌%◌, ℕ, List, Some, MatchOption, IfSome, length, slice_get};
ghost use Rattle.std.specs.Simd.{first_chunks};
ghost use Rattle.caller_core.specs.Words.{AreElements};

use opaque_core::Opaque;
use std::ptr::{NonNull, null_mut};

/// An element that some words of 64 bits make.
pub trait Element: Drop {
    ghost use Rattle.std.specs.Prelude.{ℕ, List};

    // How many words make an element.
    ghost width: { ℕ };

    // The element that these words make.
    ghost element_of: { List ℕ → Self };

    /// Makes the element of these words, if they are as many as an element has.
    fn from_words(words: &[u64]) -> Option<Self>
        ensures made { MatchOption result (length words.now ≢ width)
            (λ x. x ≡ element_of words.now) }
        ensures fits { IfSome result (λ _. length words.now ≡ width) };

    /// Returns the number of elements that these words make, side by side, or `None` if words are left over.
    fn count(words: &[u64]) -> Option<u64>
        requires { 0 < width }
        ensures { MatchOption result (length words.now % width ≢ 0) (AreElements width words.now) };

    /// Makes the element with this number of those that the words make.
    fn nth(words: &[u64], i: u64) -> Self
        requires width { 0 < width }
        requires there { i < length words.now / width }
        ensures { (ws : List ℕ)
            → slice_get (first_chunks width (length words.now / width) words.now) i
            ≡ Some ws → result ≡ element_of ws };

    /// Returns the address of the element's words.
    fn address(&self) -> *mut u64;
}

// A value element: contracts see its words.
impl<const N: usize> Element for [u64; N] {
    ghost width = { N };

    ghost element_of = { λ words. words };

    #[inline(always)]
    fn from_words(words: &[u64]) -> Option<[u64; N]>
        ensures made { MatchOption result (length words.now ≢ N) (λ x. x ≡ words.now) }
        ensures fits { IfSome result (λ _. length words.now ≡ N) }
    {
        match words.as_array::<N>() {
            Some(words) => Some(*words),
            None => None,
        }
    }

    #[inline]
    fn count(words: &[u64]) -> Option<u64>
        requires { 0 < N }
        ensures { MatchOption result (length words.now % N ≢ 0) (AreElements N words.now) }
    {
        count_of::<N>(words)
    }

    #[inline]
    fn nth(words: &[u64], i: u64) -> [u64; N]
        requires width { 0 < N }
        requires there { i < length words.now / N }
        ensures { (ws : List ℕ) → slice_get (first_chunks N (length words.now / N) words.now) i
            ≡ Some ws → result ≡ ws }
    {
        let (elements, _) = words.as_chunks::<N>();
        elements[i as usize]
    }

    #[inline(always)]
    fn address(&self) -> *mut u64 {
        match self.as_slice().first() {
            Some(word) => NonNull::from_ref(word).as_ptr(),
            None => null_mut(),
        }
    }
}

// An opaque element: contracts see nothing of its words.
impl<const N: usize> Element for Opaque<N> {
    ghost width = { N };

    ghost element_of = { λ _. tt };

    #[inline(always)]
    fn from_words(words: &[u64]) -> Option<Opaque<N>>
        ensures made { MatchOption result (length words.now ≢ N) (λ x. x ≡ tt) }
        ensures fits { IfSome result (λ _. length words.now ≡ N) }
    {
        match words.as_array::<N>() {
            Some(words) => Some(Opaque::from_words(*words)),
            None => None,
        }
    }

    #[inline]
    fn count(words: &[u64]) -> Option<u64>
        requires { 0 < N }
        ensures { MatchOption result (length words.now % N ≢ 0) (AreElements N words.now) }
    {
        count_of::<N>(words)
    }

    #[inline]
    fn nth(words: &[u64], i: u64) -> Opaque<N>
        requires width { 0 < N }
        requires there { i < length words.now / N }
        ensures { (ws : List ℕ) → slice_get (first_chunks N (length words.now / N) words.now) i
            ≡ Some ws → result ≡ tt }
    {
        let (elements, _) = words.as_chunks::<N>();
        Opaque::from_words(elements[i as usize])
    }

    #[inline(always)]
    fn address(&self) -> *mut u64 {
        self.as_ptr()
    }
}

// The number of elements of N words that these words make, unless words are left over.
#[inline]
fn count_of<const N: usize>(words: &[u64]) -> Option<u64>
    requires { 0 < N }
    ensures { MatchOption result (length words.now % N ≢ 0) (AreElements N words.now) }
{
    if words.len() % N == 0 {
        Some((words.len() / N) as u64)
    } else {
        None
    }
}
