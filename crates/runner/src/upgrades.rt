//! Upgrades that are stopped, or that fail, at a call of the device.

use crate::compactions::made;
use crate::looks::{leaves, push_look};
use crate::place::{NewStores, StorePlace};
use crate::steps::Stop;
use cases::Wrong;
use device::Pick;
use std::alloc::Global;

const NEITHER: &str = "neither the store as it was nor the upgraded one is found";

// Upgrades the open store, which must be of an older format.
fn upgrade(place: &mut StorePlace) {
    place.upgrade();
    let is_upgraded = place.told().starts_with("format 3, ");
    place.note(is_upgraded, "the store is not upgraded");
}

/// Adds what a new store with these writes shows that was compacted this many times, and what it shows once it is upgraded.
pub fn push_upgrade_looks(
    alloc: Global,
    stores: NewStores,
    writes: &[String],
    times: u64,
    looks: &mut Vec<String>,
) -> Result<u64, Wrong> {
    let mut place = made(alloc, stores, writes, times);
    push_look(&mut place, looks);
    upgrade(&mut place);
    push_look(&mut place, looks);
    place.end(0)
}

// Upgrades the open store, which shows the first or the second of these, unless it was upgraded already. Where it shows the same before and after, as one of
// format 2 does, it may be either.
fn upgrade_unless_upgraded(place: &mut StorePlace, looks: &[String], count: usize) {
    place.upgrade();
    let was_old = place.told().starts_with("format 3, ");
    let was_upgraded = place.told() == "already upgraded";
    place.note(was_old || was_upgraded, "the store is not upgraded");
    let show_the_same = match looks {
        [old, new] => old.as_str() == new.as_str(),
        _ => false,
    };
    let is_as_shown = show_the_same || was_old == (count == 0);
    place.note(is_as_shown, "an upgraded store is upgraded again");
}

// Asks that an opening finds one of the two, another one after a crash the same, and one after an upgrade that follows the upgraded store.
fn keeps(place: &mut StorePlace, looks: &[String]) {
    let count = leaves(place, looks, [0, 1], NEITHER);
    place.crash(&[Pick::Fill(0xA5)], u64::MAX);
    leaves(
        place,
        looks,
        [count, count],
        "a second crash leaves something else",
    );
    upgrade_unless_upgraded(place, looks, count);
    leaves(place, looks, [1, 1], NEITHER);
}

// Opens and upgrades a store, one of which must fail: whether it is the upgrade.
fn fails(place: &mut StorePlace) -> bool {
    place.open();
    let is_open = place.told() == "ok";
    if is_open {
        place.upgrade();
    }
    place.tells("device failed", "the device does not fail");
    is_open
}

/// One stop and one crash, of the device of a store that is opened and upgraded, with these writes and this many compactions before.
pub fn upgrade_stopped(
    alloc: Global,
    stores: NewStores,
    writes: &[String],
    times: u64,
    looks: &[String],
    stop: Stop<'_>,
) -> Result<u64, Wrong> {
    let mut place = made(alloc, stores, writes, times);
    place.stop_on(stop.call);
    fails(&mut place);
    place.crash(stop.picks, stop.length);
    keeps(&mut place, looks);
    place.end(1)
}

/// One failure. A store of which an upgrade failed is neither upgraded nor checked any more.
pub fn upgrade_failed(
    alloc: Global,
    stores: NewStores,
    writes: &[String],
    times: u64,
    looks: &[String],
    call: u64,
) -> Result<u64, Wrong> {
    let mut place = made(alloc, stores, writes, times);
    place.fail_on(call);
    if fails(&mut place) {
        place.upgrade();
        place.tells("device failed before", "the store goes on");
        place.check();
        place.tells("device failed before", "the store goes on");
    }
    keeps(&mut place, looks);
    place.end(1)
}
