//! The results of one thread's calls.
use anyhow::{Result, bail};
use grow_core::GrowError;
use std::alloc::Global;
use std::fmt;

/// A place and its value, or nothing if it is broken.
#[derive(Clone, Copy)]
pub struct Said {
    pub place: u64,
    pub value: Option<u64>,
}

/// The results that are compared, and the number of refused calls.
#[derive(Drop)]
pub struct Record {
    /// What was appended.
    pub placed: Vec<Said>,
    /// What was read while others appended.
    pub read: Vec<Said>,
    /// The number of lost exchanges.
    pub lost: u64,
    /// The number of growths that found no room.
    pub full: u64,
}

// Notes a place and its value in a list.
fn note(list: &mut Vec<Said>, place: u64, value: Option<u64>) -> Result<()> {
    list.push(Said { place, value })?;
    Ok(())
}

impl Record {
    /// Makes an empty record.
    pub fn new(alloc: Global) -> Record {
        Record {
            placed: Vec::new(alloc),
            read: Vec::new(alloc),
            lost: 0,
            full: 0,
        }
    }

    /// Notes an appended value or a refused construction.
    pub fn note_placed(&mut self, place: u64, value: Option<u64>) -> Result<()> {
        note(&mut self.placed, place, value)
    }

    /// Notes a value that was read, or a broken place.
    pub fn note_read(&mut self, place: u64, value: Option<u64>) -> Result<()> {
        note(&mut self.read, place, value)
    }

    /// Notes a growth that was refused for an allowed reason and claimed nothing.
    pub fn note_refused<V: Drop, E: Drop>(&mut self, error: &GrowError<u64, V, E>) -> Result<()> {
        match error {
            GrowError::Moved { .. } => self.lost = self.lost.wrapping_add(1),
            GrowError::Full { .. } => self.full = self.full.wrapping_add(1),
            other => bail!("a growth was refused: {other}"),
        }
        Ok(())
    }
}

/// The counts of each kind, on all vectors together.
#[derive(Clone, Copy, Default)]
pub struct Counts {
    vectors: u64,
    placed: u64,
    read: u64,
    lost: u64,
    full: u64,
}

impl Counts {
    /// Adds the threads' records of one vector.
    pub fn add(&mut self, records: &[Record]) {
        self.vectors = self.vectors.wrapping_add(1);
        for record in records {
            self.placed = self.placed.wrapping_add(record.placed.len() as u64);
            self.read = self.read.wrapping_add(record.read.len() as u64);
            self.lost = self.lost.wrapping_add(record.lost);
            self.full = self.full.wrapping_add(record.full);
        }
    }
}

impl fmt::Display for Counts {
    fn fmt<W: fmt::Write>(&self, f: &mut fmt::Formatter<W>) -> fmt::Result {
        write!(
            f,
            "{} vectors: {} places and {} reads as answered, {} lost exchanges, {} times no room",
            self.vectors, self.placed, self.read, self.lost, self.full
        )
    }
}
