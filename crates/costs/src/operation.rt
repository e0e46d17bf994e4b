//! The operations that are measured.
use crate::bare_number::{Step, run_steps};
use crate::claim_word::run_claims;
use crate::other_vectors::{run_boxcar, run_locked};
use crate::shared_vector::run_pushes;
use crate::trial::Trial;
use anyhow::Result;
use std::alloc::AllocGlobal;
use std::rt::Clock;
use std::sync::Wait;
use std::thread::Threads;

/// A measured operation: what a thread tries again and again.
#[derive(Clone, Copy)]
pub enum Operation {
    /// An exchange on the claim word by a hand that begins from what it has seen.
    ClaimWord,
    /// An exchange on a plain atomic number.
    BareExchange,
    /// An addition to a plain atomic number, which never loses.
    BareAddition,
    /// A push on the shared vector, which is tried until it wins.
    SharedVector,
    /// A push into a `Vec` under a `Mutex`.
    LockedVec,
    /// A push on a `boxcar::Vec`.
    Boxcar,
}

/// Operations that are measured next to each other, the one in question first, and how often a thread tries.
#[derive(Clone, Copy)]
pub struct Group {
    pub operations: [Operation; 3],
    pub tries: u64,
}

/// The groups of measured operations.
pub const GROUPS: [Group; 2] = [
    Group {
        operations: [
            Operation::ClaimWord,
            Operation::BareExchange,
            Operation::BareAddition,
        ],
        tries: 2_000_000,
    },
    Group {
        operations: [
            Operation::SharedVector,
            Operation::LockedVec,
            Operation::Boxcar,
        ],
        tries: 200_000,
    },
];

impl Operation {
    /// Runs the tries in this many threads.
    pub fn run<R: Threads + Wait + Clock + AllocGlobal + Sync>(
        self,
        rt: &R,
        threads: usize,
        tries: u64,
    ) -> Result<Trial> {
        match self {
            Operation::ClaimWord => run_claims(rt, threads, tries),
            Operation::BareExchange => run_steps(rt, Step::Exchange, threads, tries),
            Operation::BareAddition => run_steps(rt, Step::Addition, threads, tries),
            Operation::SharedVector => run_pushes(rt, threads, tries),
            Operation::LockedVec => run_locked(rt, threads, tries),
            Operation::Boxcar => run_boxcar(rt, threads, tries),
        }
    }

    /// Returns its name in the output.
    pub fn name(self) -> &'static str {
        match self {
            Operation::ClaimWord => "claim word",
            Operation::BareExchange => "bare exchange",
            Operation::BareAddition => "bare addition",
            Operation::SharedVector => "shared vector",
            Operation::LockedVec => "locked Vec",
            Operation::Boxcar => "boxcar",
        }
    }
}
