//! Handles of vectors whose elements have 1, 2, 3, 4, 6 or 8 words: what the exports of a library for C do.
//!
//! A `Handle` is an address and a mark. It has a box with one thread's hand of a vector, or with a list, or nothing.
//! Each call works on what the handle has where it lies, and takes it out only if the handle is to have something else.
//! `contents.rt`, `list_contents.rt` and `moves.rt` do what the call asks, by the kind of what is there. `hands.rt`,
//! `lists.rt` and their kin do it by the size of an element, and `growths.rt`, `reads.rt` and `members.rt` for one
//! size. A look is laid into its callers, and a push is jumped to, so that nothing of them goes through memory.
//!
//! A caller can rely on the clauses of the calls, which say what the handle has before and after. No clause says what
//! is at an address, nor that two addresses differ.
#![tactic(auto)]

mod box_parts;
mod contents;
mod elements;
mod facts;
mod growths;
mod hand_facts;
mod hand_growths;
mod hand_reads;
mod hand_shares;
mod handle;
mod hands;
mod held;
mod joins;
mod list_calls;
mod list_contents;
mod lists;
mod members;
mod moves;
mod opaque_hands;
mod opaque_joins;
mod opaque_lists;
mod opening;
mod owned;
mod reads;
mod sizes;
mod status;

pub use facts::{HandFacts, ListFacts};
pub use handle::Handle;
pub use held::{AnyCaller, AnyList, AnyOpaque, AnyOpaqueList, Held};
pub use owned::Owned;
pub use status::{DONE, Status};
