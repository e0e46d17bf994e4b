// Members and causes that count their drops.
use quiet_core::{Quiet, QuietError};
use std::alloc::Global;
use std::sync::atomic::{AtomicU64, Ordering};

struct Counted<'a>(&'a AtomicU64);

impl Drop for Counted<'_> {
    fn drop(self) {
        let Counted(drops) = self;
        drops.fetch_add(1, Ordering::SeqCst);
    }
}

// Makes the list n long. The maker refuses number `refused`, by a cause that counts its drops too.
fn resized<'a>(
    list: &mut Quiet<Counted<'a>>,
    drops: &'a AtomicU64,
    n: u64,
    refused: u64,
) -> Result<(), QuietError> {
    let make = |i: u64| {
        if i == refused {
            Err(Counted(drops))
        } else {
            Ok(Counted(drops))
        }
    };
    list.resize(n, make)
}

// Tests whether `count` values were dropped by now.
fn are_dropped(drops: &AtomicU64, count: u64) -> bool {
    drops.load(Ordering::SeqCst) == count
}

// Cuts a list of ten to six, and then makes it nine long; the second new value is refused.
fn drops_what_it_cuts<'a>(list: &mut Quiet<Counted<'a>>, drops: &'a AtomicU64) -> bool {
    resized(list, drops, 10, 10) == Ok(())
        && are_dropped(drops, 0)
        && resized(list, drops, 6, 0) == Ok(())
        && are_dropped(drops, 4)
        && resized(list, drops, 9, 1) == Err(QuietError::Refused { made: 1 })
        && are_dropped(drops, 5)
        && resized(list, drops, 17, 0) == Err(QuietError::TooLong)
        && are_dropped(drops, 5)
}

// Seven values and two broken members are replaced by two values. No other segment has members.
fn drops_what_it_replaces<'a>(
    list: &mut Quiet<Counted<'a>>,
    drops: &'a AtomicU64,
    two: Vec<Counted<'a>>,
) -> bool {
    list.shrink_to_fit();
    let shrunk = are_dropped(drops, 5);
    let is_assigned = list.assign(two).is_ok();
    let assigned = are_dropped(drops, 12);
    list.shrink_to_fit();
    shrunk && is_assigned && assigned && list.capacity() == 2 && are_dropped(drops, 12)
}

// One of the two values is cut off, the other goes with a clear, and a new one goes with the list.
fn drops_all<'a>(mut list: Quiet<Counted<'a>>, drops: &'a AtomicU64) -> bool {
    list.truncate(1);
    let cut = are_dropped(drops, 13);
    list.clear();
    let cleared = are_dropped(drops, 14);
    let is_pushed = list.push(Counted(drops)).is_ok();
    let pushed = are_dropped(drops, 14);
    drop(list);
    cut && cleared && is_pushed && pushed && are_dropped(drops, 15)
}

fn two_counted<'a>(alloc: Global, drops: &'a AtomicU64) -> Option<Vec<Counted<'a>>> {
    vec![in alloc; Counted(drops), Counted(drops)].ok()
}

fn drops_each_once<'a>(alloc: Global, drops: &'a AtomicU64) -> Option<bool> {
    let two = two_counted(alloc, drops)?;
    let mut list = Quiet::new(alloc, 16);
    let cut = drops_what_it_cuts(&mut list, drops);
    let replaced = drops_what_it_replaces(&mut list, drops, two);
    Some(cut && replaced && drops_all(list, drops))
}

#[test]
fn each_member_and_each_cause_is_dropped_once(rt: HostRuntime) {
    let drops = AtomicU64::new(0);
    assert!(rt; drops_each_once(rt.alloc(), &drops) == Some(true));
}

// Tests whether the values of nine members move into a vector, and go with it.
fn drops_with_the_vector<'a>(mut list: Quiet<Counted<'a>>, drops: &'a AtomicU64) -> Option<bool> {
    let made = resized(&mut list, drops, 9, 9);
    let values = list.into_vec().ok()?;
    let moved = values.len() == 9 && are_dropped(drops, 0);
    drop(values);
    Some(made == Ok(()) && moved && are_dropped(drops, 9))
}

#[test]
fn a_value_that_is_moved_into_a_vector_is_dropped_once(rt: HostRuntime) {
    let drops = AtomicU64::new(0);
    let list = Quiet::new(rt.alloc(), 16);
    assert!(rt; drops_with_the_vector(list, &drops) == Some(true));
}
