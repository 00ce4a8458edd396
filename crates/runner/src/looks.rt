//! What a store shows after each step, and whether a place shows it again.

use crate::place::StorePlace;
use crate::steps::Stop;
use device::Pick;

/// Adds what is shown now.
pub fn push_look(place: &mut StorePlace, looks: &mut Vec<String>) {
    place.look();
    let is_pushed = looks.push(place.take_told()).is_ok();
    place.note(is_pushed, "out of memory");
}

/// Whether this was shown after this many.
pub fn is_look(looks: &[String], at: usize, found: &str) -> bool {
    match looks.get(at) {
        Some(look) => look.as_str() == found,
        None => false,
    }
}

/// Opens the store, and asks that what is shown is what this many left, or the other number of them: which of the two.
pub fn leaves(
    place: &mut StorePlace,
    looks: &[String],
    counts: [usize; 2],
    otherwise: &'static str,
) -> usize {
    place.open();
    place.look();
    let is_second = is_look(looks, counts[1], place.told());
    let count = counts[usize::from(is_second)];
    let is_left = is_look(looks, count, place.told());
    place.note(is_left, otherwise);
    count
}

/// Crashes, and asks that what is shown is what this many left, or the other number of them, and the same after a second crash.
pub fn crash_leaves(place: &mut StorePlace, looks: &[String], counts: [usize; 2], stop: Stop<'_>) {
    place.crash(stop.picks, stop.length);
    let count = leaves(
        place,
        looks,
        counts,
        "a stop leaves neither what was told nor what came next",
    );
    place.crash(&[Pick::Fill(0xA5)], u64::MAX);
    leaves(
        place,
        looks,
        [count, count],
        "a second crash leaves something else",
    );
}
