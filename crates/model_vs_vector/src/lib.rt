//! Compares the running vector with the model.
//!
//! A crate with tests is proved once without and once with them. Here only a few lines are proved twice.
#![tactic(auto)]

#[cfg(test)]
mod tests;
