//! Tests of `grow_core`, and what callers prove of a shared vector by public clauses.
//!
//! A crate with tests is proved once without and once with them. Here only a few lines are proved twice.
#![tactic(auto)]

#[cfg(test)]
mod tests;
