//! The position of a place in the vector: its segment, and its offset there.
//!
//! The segments are intervals of places, numbered from 0, each as long as all before it together. A
//! [`Layout`] says how long the first one is; with two places, as in the free calls, they are [0, 2), [2, 4),
//! [4, 8), [8, 16), and so on. `specs/Segment.antt` says so, and contracts cite nothing else: no bit of an
//! index occurs in them.
//!
//! A caller can prove that each place is one segment and one offset, which segments a run touches, and how
//! many places a number of them needs in whole segments. No call takes memory or refuses.
#![tactic(auto)]

pub mod laws;
mod layout;
mod segments;

pub use layout::{Layout, MOST_PLACES, MOST_SEGMENTS};
pub use segments::{capacity_for, first, len, locate, segments_of};
