//! The work of each worker: four find contacts, and a fifth reads along.
use crate::particles::{Contact, Particle, touch};
use anyhow::{Error, Result, bail};
use grow_core::{GrowError, Shared};
use span_core::{Tie, Writer, WriterJob};
use std::sync::Wait;

/// The number of workers that find contacts. One more reads.
pub const FINDERS: u32 = 4;

// How often the reader walks over what is there.
const WALKS: u32 = 20;

/// What all workers use.
#[derive(Drop)]
pub struct Search<'a, R> {
    pub rt: &'a R,
    pub particles: Vec<Particle>,
}

impl<'a, R: Wait> WriterJob<Contact, u64, Error> for Search<'a, R> {
    // Finds the contacts of every fourth particle, or, as the last worker, reads those that are there. Returns
    // how many it appended or saw.
    fn work<B: Tie>(&self, writer: &mut Writer<'_, Contact, B>, worker: u32) -> Result<u64> {
        if worker == FINDERS {
            return Ok(read_along(writer.vector()));
        }
        let mut found: u64 = 0;
        for first in (worker as usize..self.particles.len()).step_by(FINDERS as usize) {
            found = found.saturating_add(self.append_contacts(writer, first)?);
        }
        Ok(found)
    }
}

impl<'a, R: Wait> Search<'a, R> {
    // Appends the contacts of one particle with those before it.
    fn append_contacts<B: Tie>(
        &self,
        writer: &mut Writer<'_, Contact, B>,
        first: usize,
    ) -> Result<u64> {
        let mut found: u64 = 0;
        for second in 0..first {
            if let Some(contact) = touch(self.particles.as_slice(), first, second) {
                match writer.push_back(self.rt, contact) {
                    Ok(_placed) => found = found.saturating_add(1),
                    Err(GrowError::Full { size, .. }) => bail!("more than {size} contacts"),
                    Err(refused) => bail!("{refused}"),
                }
            }
        }
        Ok(found)
    }
}

// The most contacts that a walk over the vector shows.
fn read_along(vector: &Shared<Contact>) -> u64 {
    let mut most = 0;
    for _ in 0..WALKS {
        let shown = vector.published().flatten();
        most = most.max(shown.fold(0u64, |seen, _contact| seen.saturating_add(1)));
    }
    most
}
