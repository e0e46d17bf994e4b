//! What the workers share, and what each does: the first one reports, and the others find edges.
use crate::points::{Edge, Point};
use anyhow::{Error, Result};
use core::mem::replace_with;
use grow_core::Shared;
use span_core::{BufferedWriter, Tie, Writer, WriterJob};
use std::alloc::Global;
use std::rt::Clock;
use std::sync::Wait;
use std::sync::atomic::{AtomicU64, Ordering};
use std::thread;
use std::time::Duration;

// How many edges a worker buffers.
const BUFFERED: usize = 64;

// The reporter looks after each pause, for about a minute at most, and prints a line once in 250 looks.
const PAUSE_IN_MILLIS: u64 = 1;

const LOOKS: u32 = 60_000;

const LOOKS_PER_LINE: u32 = 250;

/// What the workers share.
#[derive(Drop)]
pub struct Search<'a, R> {
    pub rt: &'a R,
    pub alloc: Global,
    /// The points, in order.
    pub points: &'a [Point],
    /// How many workers find edges.
    pub finders: u8,
    /// How many of them have ended.
    pub ended: AtomicU64,
}

impl<'a, R: Wait + Clock + Eprint> WriterJob<Edge, (), Error> for Search<'a, R> {
    // The first worker reports, and the others append edges through a buffer.
    fn work<B: Tie>(&self, writer: &mut Writer<'_, Edge, B>, worker: u32) -> Result<()> {
        if worker == 0 {
            self.report(writer.vector());
            return Ok(());
        }
        let found = replace_with(writer, worker, |own: Writer<'_, Edge, B>, worker: u32| {
            let mut buffer = BufferedWriter::new(self.alloc, own, BUFFERED);
            let found = self.append_edges(&mut buffer, worker as usize - 1);
            (buffer.into_parts().0, found)
        });
        self.ended.fetch_add(1, Ordering::SeqCst);
        found
    }
}

impl<'a, R: Wait + Clock + Eprint> Search<'a, R> {
    // Appends the edges of every n-th point from the first one on, if n workers find edges.
    fn append_edges<B: Tie>(
        &self,
        writer: &mut BufferedWriter<'_, Edge, B>,
        first: usize,
    ) -> Result<()> {
        let finders = usize::from(self.finders).max(1);
        for point in self.points.iter().skip(first).step_by(finders) {
            let strip = point.strip(self.points);
            for edge in strip.iter().filter_map(|other| point.edge_to(other)) {
                writer
                    .push(self.rt, edge)
                    .map_err(|(refused, _edge)| refused)?;
            }
        }
        writer.flush(self.rt)?;
        Ok(())
    }
}

impl<'a, R: Clock + Eprint> Search<'a, R> {
    // Prints now and then how many edges there are, until the others have ended, and for about a minute at most.
    fn report(&self, vector: &Shared<Edge>) {
        for look in 1..=LOOKS {
            thread::sleep(self.rt, Duration::from_millis(PAUSE_IN_MILLIS));
            if self.have_ended() {
                return;
            }
            if look % LOOKS_PER_LINE == 0 {
                self.print_size(vector);
            }
        }
    }

    fn have_ended(&self) -> bool {
        self.ended.load(Ordering::SeqCst) >= u64::from(self.finders)
    }

    fn print_size(&self, vector: &Shared<Edge>) {
        let _ = eprintln!(self.rt; "{} edges so far", vector.claimed());
    }
}
