//! Elements whose bytes belong to C or C++.
//!
//! Programs in C and C++ write elements of a vector through references and iterators, at times that no contract
//! knows. An `Opaque<N>` is an element for them: N words of which contracts see nothing (its view is a unit). A
//! `&Opaque<N>` promises nothing about the words, so nobody who writes them breaks what was proved. No code in Rattle
//! reads the words, except the owner that takes the element apart.
//!
//! A caller can prove where the words lie, and can share an element among threads. A caller cannot prove what the
//! words are, not even right after it made the element.
#![tactic(auto)]

mod opaque;

pub use opaque::Opaque;
