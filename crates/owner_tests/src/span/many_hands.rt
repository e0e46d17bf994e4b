// Workers with a hand or a writer each, up to 300, that are watched as they pass the gate.
use super::hands::{Task, append_to_new, are_all};
use super::lent_writers::write_new;
use super::watch::Watch;
use span_core::{Refusal, Tie, Writer, WriterJob};
use std::alloc::Global;
use std::sync::Wait;
use std::thread::Threads;

// What the lowest worker refuses that the gate refuses or that stops. Without one all return in order.
fn lowest_refusal(workers: u32, refused_from: u32, stops: u32) -> Result<bool, Refusal<u32>> {
    if stops < refused_from && stops < workers {
        Err(Refusal::Worker(stops))
    } else if refused_from < workers {
        Err(Refusal::Stuck)
    } else {
        Ok(true)
    }
}

// Tests whether each worker passes the gate before and after its work, and works once if the gate lets it
// through.
fn are_watched<R: Threads + Wait + Sync>(
    rt: &R,
    alloc: Global,
    workers: u32,
    refused_from: u32,
    stops: u32,
) -> Option<bool> {
    let watch = Watch::new(alloc, workers, refused_from, false).ok()?;
    let task = Task::new(0, stops, Some(&watch));
    let ended = append_to_new(rt, alloc, 8, workers, &task, &watch);
    Some(
        ended == Some((lowest_refusal(workers, refused_from, stops), 0))
            && watch.has_ended(u64::from(workers.min(refused_from))),
    )
}

// Each worker with a writer returns its number. Number `stops` is refused with it.
#[derive(Drop)]
struct Numbers<'a> {
    watch: &'a Watch,
    stops: u32,
}

impl<'a> WriterJob<u64, u32, u32> for Numbers<'a> {
    fn work<B: Tie>(&self, _writer: &mut Writer<'_, u64, B>, worker: u32) -> Result<u32, u32> {
        self.watch.note_work(worker);
        if worker == self.stops {
            Err(worker)
        } else {
            Ok(worker)
        }
    }
}

// Tests the same of workers with a writer each.
fn writers_are_watched<R: Threads + Wait + Sync>(
    rt: &R,
    alloc: Global,
    workers: u32,
    refused_from: u32,
    stops: u32,
) -> Option<bool> {
    let watch = Watch::new(alloc, workers, refused_from, false).ok()?;
    let job = Numbers {
        watch: &watch,
        stops,
    };
    let (told, closed) = write_new(rt, alloc, 8, workers, &job, &watch)?;
    let told = match told {
        Ok(numbers) => Ok(are_all(numbers.as_slice(), workers)),
        Err(refusal) => Err(refusal),
    };
    Some(
        told == lowest_refusal(workers, refused_from, stops)
            && closed == Ok(0)
            && watch.has_ended(u64::from(workers.min(refused_from))),
    )
}

// The number of workers, the first one that the gate refuses, and the one that stops.
static WATCHED: [(u32, u32, u32); 18] = [
    (1, 1, 1),
    (2, 2, 2),
    (2, 1, 2),
    (7, 7, 7),
    (9, 9, 9),
    (9, 9, 8),
    (9, 8, 9),
    (16, 16, 0),
    (16, 0, 16),
    (16, 16, 15),
    (64, 64, 64),
    (64, 64, 63),
    (64, 63, 64),
    (300, 300, 300),
    (300, 300, 0),
    (300, 300, 299),
    (300, 299, 300),
    (300, 100, 200),
];

#[test]
fn each_worker_with_a_hand_works_once_between_the_gates(rt: HostRuntime) {
    for (workers, refused_from, stops) in WATCHED.as_slice() {
        let watched = are_watched(&rt, rt.alloc(), *workers, *refused_from, *stops);
        assert!(rt; watched == Some(true), "{workers} {refused_from} {stops}");
    }
}

#[test]
fn each_worker_with_a_writer_works_once_between_the_gates(rt: HostRuntime) {
    for (workers, refused_from, stops) in WATCHED.as_slice() {
        let watched = writers_are_watched(&rt, rt.alloc(), *workers, *refused_from, *stops);
        assert!(rt; watched == Some(true), "{workers} {refused_from} {stops}");
    }
}
