//! Words as elements, for growths whose elements are made in place.
ghost use Rattle.std.specs.Prelude.{◌≡◌, ◌<◌, ◌/◌, ℕ, List, Some, length, slice_get};
ghost use Rattle.handle_core.specs.Calls.{elements_in, source_of, unseen};

use caller_core::Element;
use grow_core::Source;
use opaque_core::Opaque;
use std::marker::PhantomData;

// Elements that words make, at least one. Numbers past the last one give the last one.
#[derive(Drop)]
pub(crate) struct Elements<'a, E: Element> {
    words: &'a [u64],
    count: u64,
    of: PhantomData<E>,
    ghost wide: { 0 < E.width },
    ghost some: { 0 < count },
    ghost all: { count ≡ length words.now / E.width },
}

impl<'a, E: Element> Elements<'a, E> {
    // These words as this many elements.
    pub(crate) fn new(words: &'a [u64], count: u64) -> Elements<'a, E>
        requires wide { 0 < E.width }
        requires some { 0 < count }
        requires all { count ≡ length words.now / E.width }
        ensures words { result.words.now ≡ words.now }
        ensures count { result.count ≡ count }
    {
        Elements {
            words,
            count,
            of: PhantomData,
        }
    }

    // The element for this place of a growth.
    #[inline]
    pub(crate) fn at(&self, i: u64) -> E
        ensures { (ws : List ℕ) → slice_get (elements_in E.width self.now.words.now)
            (source_of self.now.count i) ≡ Some ws → result ≡ E.element_of ws }
    {
        E::nth(self.words, i.min(self.count - 1))
    }
}

// Opaque elements that words make, side by side.
#[derive(Drop)]
pub(crate) struct OpaqueElements<'a, const N: usize> {
    pub(crate) words: &'a [[u64; N]],
}

impl<'a, const N: usize> Source<Opaque<N>> for OpaqueElements<'a, N> {
    ghost use Rattle.std.specs.Prelude.{length};
    ghost use Rattle.handle_core.specs.Calls.{unseen};

    ghost values = { λ e. unseen (length e.words.now) };

    #[inline(always)]
    fn len(&self) -> u64
        ensures { result ≡ length (unseen (length self.now.words.now)) }
    {
        self.words.len() as u64
    }

    #[inline(always)]
    fn value(&self, i: u64) -> Opaque<N>
        requires { i < length (unseen (length self.now.words.now)) }
        ensures { slice_get (unseen (length self.now.words.now)) i ≡ Some result }
    {
        Opaque::from_words(self.words[i as usize])
    }
}

// `n` opaque elements that are made of the same words.
#[derive(Drop)]
pub(crate) struct OpaqueCopies<'a, const N: usize> {
    pub(crate) n: u64,
    pub(crate) words: &'a [u64; N],
}

impl<'a, const N: usize> Source<Opaque<N>> for OpaqueCopies<'a, N> {
    ghost use Rattle.handle_core.specs.Calls.{unseen};

    ghost values = { λ c. unseen c.n };

    #[inline(always)]
    fn len(&self) -> u64
        ensures { result ≡ length (unseen self.now.n) }
    {
        self.n
    }

    #[inline(always)]
    fn value(&self, i: u64) -> Opaque<N>
        requires { i < length (unseen self.now.n) }
        ensures { slice_get (unseen self.now.n) i ≡ Some result }
    {
        // Only the contract speaks of the number.
        let _ = i;
        Opaque::from_words(*self.words)
    }
}
