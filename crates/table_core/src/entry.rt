// An entry, and what callers carry of it.
mod loose;
mod steps;

pub(crate) use steps::{Entry, EntrySight, Measured};
