//! Tests of the crates of the model: of `seg_core` (`seg`), `book_core` (`book`), `step_core` and `script_core`
//! (`plays`), `engine_core` (`engine`) and `sweep_core` (`sweep`), and what callers prove of plays.
//!
//! A crate with tests is proved once without and once with them. Here only a few lines are proved twice.
#![tactic(auto)]

#[cfg(test)]
mod book;
#[cfg(test)]
mod engine;
#[cfg(test)]
mod plays;
#[cfg(test)]
mod seg;
#[cfg(test)]
mod sweep;
