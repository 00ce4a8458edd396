//! Writes that are stopped at a call of the device, and the crash that follows.

use crate::looks::{crash_leaves, push_look};
use crate::place::{NewStores, StorePlace};
use crate::steps::Stop;
use cases::Wrong;
use durable::Episode;
use records::GROUP_LIMIT;
use std::alloc::Global;

const ROOM_SECTORS: u64 = 24;

// Makes a write in a connection: whether it is taken.
fn is_taken(place: &mut StorePlace, write: &str) -> bool {
    place.send(write);
    place.told().starts_with("HTTP/1.1 20")
}

/// Makes a write in a connection, which must be taken.
pub fn make(place: &mut StorePlace, write: &str) {
    let is_taken = is_taken(place, write);
    place.note(is_taken, "a write is refused");
}

/// Adds what is shown before the first write and after each, where nothing fails.
pub fn push_write_looks(
    alloc: Global,
    stores: NewStores,
    writes: &[String],
    looks: &mut Vec<String>,
) -> Result<u64, Wrong> {
    let mut place = stores.place(alloc, ROOM_SECTORS);
    place.open();
    push_look(&mut place, looks);
    for write in writes {
        make(&mut place, write.as_str());
        push_look(&mut place, looks);
    }
    place.end(0)
}

// Makes the writes as far as they are taken, the first in a connection and each of the others in a run of its own: how many are.
fn run_each(place: &mut StorePlace, writes: &[String], steps: &[Episode]) -> usize {
    let (Some(first), Some((_, others))) = (writes.first(), steps.split_first()) else {
        return 0;
    };
    if !place.is_open() || !is_taken(place, first.as_str()) {
        return 0;
    }
    let mut count = 1_usize;
    for step in others {
        count = count.saturating_add(place.run(&step.requests));
    }
    count
}

/// One stop and one crash, which leaves the writes that were taken, or one more; of writes in one run, whose groups share a record each, all of
/// the next group, or none.
pub fn writes_stopped(
    alloc: Global,
    stores: NewStores,
    writes: &[String],
    steps: &[Episode],
    looks: &[String],
    is_group: bool,
    stop: Stop<'_>,
) -> Result<u64, Wrong> {
    let mut place = stores.place(alloc, ROOM_SECTORS);
    place.stop_on(stop.call);
    place.open();
    let counts = match steps.first() {
        Some(group) if is_group => {
            let count = place.run(&group.requests);
            let after = count.saturating_add(GROUP_LIMIT);
            [count, after.min(group.requests.len())]
        }
        _ => {
            let count = run_each(&mut place, writes, steps);
            [count, count.saturating_add(1)]
        }
    };
    crash_leaves(&mut place, looks, counts, stop);
    place.end(1)
}
