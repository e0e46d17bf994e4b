//! Tests of `quiet_core`, `span_core` and `race_core`, a module each, and what callers prove of a vector and its
//! list (`vector`).
//!
//! A crate with tests is proved once without and once with them. Here only a few lines are proved twice.
#![tactic(auto)]

#[cfg(test)]
mod gates;
#[cfg(test)]
mod quiet;
#[cfg(test)]
mod race;
#[cfg(test)]
mod results;
#[cfg(test)]
mod span;
#[cfg(test)]
mod vector;
