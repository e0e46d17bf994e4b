//! Tests of `claim_core`, `tie_core`, `cell_core`, `table_core` and `opaque_core`, a module each.
//!
//! A crate with tests is proved once without and once with them. Here only a few lines are proved twice.
#![tactic(auto)]

#[cfg(test)]
mod cell;
#[cfg(test)]
mod claim;
#[cfg(test)]
mod opaque;
#[cfg(test)]
mod opened;
#[cfg(test)]
mod table;
#[cfg(test)]
mod ties;

// Tests whether there is a value. It is generic, and drops the value, so that no caller's proof has to.
fn is_some<T: Drop>(value: Option<T>) -> bool {
    value.is_some()
}
