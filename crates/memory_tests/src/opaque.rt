// Elements for C: their words, their addresses, and how they are shared.
ghost use Rattle.std.specs.Prelude.{◌≡◌, ◌<◌};
ghost use Rattle.cell_core.specs.Block.{block_len};

use crate::cell::block::{is_filled, made};
use cell_core::block::Block;
use opaque_core::Opaque;
use std::mem::{align_of, size_of};
use std::thread::{Threads, join};

// Tests whether an element gives back the words that it was made of.
fn keeps<const N: usize>(words: [u64; N]) -> bool {
    Opaque::from_words(words).into_words().as_slice() == words.as_slice()
}

#[test]
fn words_come_out_as_they_went_in(rt: HostRuntime) {
    assert!(rt; keeps([]) && keeps([7]) && keeps([u64::MAX, 0]) && keeps([0, 1, 2, 3, 4, 5, 6, 7]));
}

#[test]
fn an_element_is_its_words_alone(rt: HostRuntime) {
    assert!(rt; size_of::<Opaque<0>>() == 0 && size_of::<Opaque<3>>() == 24);
    assert_eq!(rt; align_of::<Opaque<3>>(), 8);
}

// Returns the address twice. A caller can prove that it is the same.
fn addresses<const N: usize>(element: &Opaque<N>) -> (*mut u64, *mut u64)
    ensures { result.0 ≡ result.1 }
{
    (element.as_ptr(), element.as_ptr())
}

// Stands for a worker that has the element.
fn has<T: Send + Sync>(_element: &T) -> bool {
    true
}

fn two_have<R: Threads>(rt: &R, element: &Opaque<2>) -> bool {
    let (a, b) = join(rt, || has(element), || has(element));
    a && b
}

#[test]
fn two_threads_share_an_element(rt: HostRuntime) {
    let element = Opaque::from_words([3, 4]);
    assert!(rt; two_have(&rt, &element));
    assert_eq!(rt; element.into_words(), [3, 4]);
}

// Puts an element into a cell, and takes it out again.
fn through_a_cell(block: &mut Block<Opaque<3>>, words: [u64; 3]) -> Option<[u64; 3]>
    requires { 0 < block_len block.old }
{
    if is_filled(block, 0, Opaque::from_words(words)) {
        Some(block.take(0)?.into_words())
    } else {
        None
    }
}

#[test]
fn an_element_keeps_its_words_in_a_cell(rt: HostRuntime) {
    let mut block = made(&rt, 1);
    assert!(rt; through_a_cell(&mut block, [1, 2, 3]) == Some([1, 2, 3]));
}
