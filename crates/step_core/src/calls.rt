//! Whole calls, and plays of them.

mod schedule;
mod whole_call;

pub use schedule::{play_calls, play_valid_calls};
