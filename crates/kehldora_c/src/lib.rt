//! The library for C: one set of exports over vectors whose elements have 1, 2, 3, 4, 6 or 8 words.
//!
//! Each export makes one call on a handle (`handle_core`) and returns how it went as a number. A look is laid into its
//! export, and the export of a push jumps to it, so that nothing of them goes through memory.
//!
//! A caller in C can rely on the clauses of the exports as long as it keeps what `include/kehldora.h` asks. No clause
//! says what is at an address, nor that two addresses differ.
#![tactic(auto)]

mod exports;
mod growth_exports;
mod list_exports;
mod read_exports;
mod share_exports;
