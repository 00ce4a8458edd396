//! Compactions that are stopped, or that fail, at a call of the device, and sectors of a compacted store that are overwritten.

use crate::looks::{is_look, leaves, push_look};
use crate::place::{NewStores, StorePlace};
use crate::steps::Stop;
use crate::stops::make;
use cases::{TextBuilder, Wrong};
use device::{Device, Pick};
use diskcases::{byte, put};
use std::alloc::Global;

const ROOM_SECTORS: u64 = 160;

const CHANGED: &str = "something else is found";

// Compacts the open store.
fn compact(place: &mut StorePlace) {
    place.compact();
    let is_compacted = place.told().starts_with("generation ");
    place.note(is_compacted, "the store is not compacted");
}

/// A new store with these writes, compacted this many times.
pub fn made(alloc: Global, stores: NewStores, writes: &[String], times: u64) -> StorePlace {
    let mut place = stores.place(alloc, ROOM_SECTORS);
    place.open();
    for write in writes {
        make(&mut place, write.as_str());
    }
    for _ in 0..times {
        compact(&mut place);
    }
    place
}

// Such a store, and what it shows.
fn begun(
    alloc: Global,
    stores: NewStores,
    writes: &[String],
    times: u64,
    looks: &mut Vec<String>,
) -> StorePlace {
    let mut place = made(alloc, stores, writes, times);
    push_look(&mut place, looks);
    place
}

// Asks that an opening finds what was shown, another one after a crash, and one after a compaction that follows.
fn keeps(place: &mut StorePlace, looks: &[String]) {
    leaves(place, looks, [0, 0], CHANGED);
    place.crash(&[Pick::Fill(0xA5)], u64::MAX);
    leaves(place, looks, [0, 0], CHANGED);
    compact(place);
    leaves(place, looks, [0, 0], CHANGED);
}

// Opens and compacts a store, one of which must fail: whether it is the compaction.
fn fails(place: &mut StorePlace) -> bool {
    place.open();
    let is_open = place.told() == "ok";
    if is_open {
        place.compact();
    }
    place.tells("device failed", "the device does not fail");
    is_open
}

/// One stop and one crash, of the device of a store that is opened and compacted, with these writes and this many compactions before.
pub fn compaction_stopped(
    alloc: Global,
    stores: NewStores,
    writes: &[String],
    times: u64,
    stop: Stop<'_>,
) -> Result<u64, Wrong> {
    let mut looks = Vec::new(alloc);
    let mut place = begun(alloc, stores, writes, times, &mut looks);
    place.stop_on(stop.call);
    fails(&mut place);
    place.crash(stop.picks, stop.length);
    keeps(&mut place, &looks);
    place.end(1)
}

/// One failure. A store of which a compaction failed is neither compacted nor checked any more.
pub fn compaction_failed(
    alloc: Global,
    stores: NewStores,
    writes: &[String],
    times: u64,
    call: u64,
) -> Result<u64, Wrong> {
    let mut looks = Vec::new(alloc);
    let mut place = begun(alloc, stores, writes, times, &mut looks);
    place.fail_on(call);
    if fails(&mut place) {
        place.compact();
        place.tells("device failed before", "the store goes on");
        place.check();
        place.tells("device failed before", "the store goes on");
    }
    keeps(&mut place, &looks);
    place.end(1)
}

// How many sectors a compacted store has.
fn sectors(alloc: Global, stores: NewStores, writes: &[String]) -> Result<u64, Wrong> {
    let mut place = begun(alloc, stores, writes, 1, &mut Vec::new(alloc));
    let sectors = match place.device() {
        Some(device) => device.len().unwrap_or(0),
        None => 0,
    };
    place.end(sectors)
}

// Overwrites a sector of a compacted store: how many open, and then show what they showed before; else damage must be told.
fn damaged(
    alloc: Global,
    stores: NewStores,
    writes: &[String],
    at: u64,
    with: u8,
) -> Result<u64, Wrong> {
    let mut looks = Vec::new(alloc);
    let mut place = begun(alloc, stores, writes, 1, &mut looks);
    let is_put = match place.device() {
        Some(device) => put(device, at, &[with; 512]).is_ok(),
        None => false,
    };
    place.note(is_put, "there is no such sector");
    place.open();
    if place.told().starts_with("damaged: ") {
        return place.end(0);
    }
    place.look();
    let is_kept = is_look(&looks, 0, place.told());
    place.note(is_kept, CHANGED);
    place.end(1)
}

/// `compaction-damage BYTE`: overwrites each sector of a new store with these writes that was compacted, one each time, with a byte throughout: how
/// many of all leave a store that opens and shows what it showed before. At each other damage must be told.
pub fn compaction_damage(
    alloc: Global,
    stores: NewStores,
    writes: &[String],
    line: &str,
) -> Result<String, Wrong> {
    let with = byte(line)?;
    let sectors = sectors(alloc, stores, writes)?;
    let mut opened = 0_u64;
    for at in 0..sectors {
        opened = opened.saturating_add(damaged(alloc, stores, writes, at, with)?);
    }
    let mut told = TextBuilder::new(alloc);
    told.show(&opened);
    told.push(" of ");
    told.show(&sectors);
    told.end()
}
