//! The list that one owner has of a vector, when nobody else has it: values and broken members, with a limit.
//!
//! Contracts see a `Quiet<T>` as its members, its limit and its capacity (`specs/QuietList.antt`). A member
//! is a value, or broken (`None`). The capacity counts the places of whole segments, also past the limit.
//!
//! A caller can prove what each call does to the members and to the capacity, when a call is refused, and
//! that a refusal gives back what was moved in. Up to the capacity no call asks for memory. Equality and
//! order look at the members alone, and a broken member is less than every value.
//!
//! A list opens into a vector that many threads share, and a vector closes into a list: `Quiet::open`,
//! `close`, `recall`. Broken members come from a vector (places that were claimed but never filled, and
//! refused constructions) and from a refused `resize`.
#![tactic(auto)]

mod compare;
mod cut;
mod errors;
mod into_iter;
mod into_vec;
mod iter;
pub mod laws;
mod members;
mod open;
mod quiet;
mod resizing;
mod room;
mod segments;
mod values;

pub use errors::{IntoVecError, QuietAt, QuietError, QuietMendError};
pub use grow_core::{Hand, OpenError, Placed, Shared};
pub use into_iter::IntoMembers;
pub use iter::Members;
pub use quiet::Quiet;
pub use segments::{MemberSegment, MemberSegments};
