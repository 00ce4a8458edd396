//! Steps by calls of a store: as a case takes them, and taken again on new stores, with a stop or a failure at a call of the device, and as
//! episodes of one life.

use crate::looks::{crash_leaves, is_look, leaves, push_look};
use crate::place::{NewStores, StorePlace};
use crate::steps::{Stop, push_steps, stop_step};
use cases::{TextBuilder, WordReader, Wrong, shown, wanted};
use diskcases::crash_words;
use durable::{Episode, Found};
use names::Format;
use std::alloc::Global;

const ROOM_SECTORS: u64 = 160;

// What a store in which namespaces stand for nothing is asked after a stop.
const CONFIG_MAP_PROBE: &str =
    "POST /api/v1/namespaces/default/configmaps HTTP/1.1\r\nHost: x\r\nContent-Length: 66\r\n\r\n{\"apiVersion\":\"v1\",\"kind\":\"ConfigMap\",\"metadata\":{\"name\":\"probe\"}}";

// The same of one in which namespaces are objects, since there may be none yet.
const NAMESPACE_PROBE: &str =
    "POST /api/v1/namespaces HTTP/1.1\r\nHost: x\r\nContent-Length: 66\r\n\r\n{\"apiVersion\":\"v1\",\"kind\":\"Namespace\",\"metadata\":{\"name\":\"probe\"}}";

/// The request after a stop of a store of this format, which any such store takes.
pub fn probe(format: Format) -> &'static str {
    if format.has_namespaces() {
        NAMESPACE_PROBE
    } else {
        CONFIG_MAP_PROBE
    }
}

// Does what a step says.
fn go(place: &mut StorePlace, step: &Episode) {
    match step.requests.first() {
        Some(request) => place.apply(request),
        None if step.compacts => place.compact(),
        None => place.open(),
    }
}

// Takes a step, unless the device fails in it.
fn take(place: &mut StorePlace, step: &Episode) -> bool {
    go(place, step);
    let told = place.told();
    if told == "device failed" {
        return false;
    }
    let is_taken = told == "ok"
        || told.starts_with("generation ")
        || told.starts_with('2')
        || told.starts_with('4');
    place.note(is_taken, "a step is not taken");
    true
}

// Takes steps up to one in which the device fails: how many are taken.
fn taken(place: &mut StorePlace, steps: &[Episode]) -> usize {
    let mut count = 0_usize;
    for step in steps {
        if !take(place, step) {
            return count;
        }
        count = count.saturating_add(1);
    }
    count
}

/// Adds what is shown after each step, where nothing fails.
pub fn push_script_looks(
    alloc: Global,
    stores: NewStores,
    steps: &[Episode],
    looks: &mut Vec<String>,
) -> Result<u64, Wrong> {
    let mut place = stores.place(alloc, ROOM_SECTORS);
    for step in steps {
        let is_taken = take(&mut place, step);
        place.note(is_taken, "the device fails");
        push_look(&mut place, looks);
    }
    place.end(0)
}

// Asks that a further stop and crash, in the next request or in the compaction after it, leaves the revision, or one more, and that where it was told.
fn stops_again(place: &mut StorePlace, probe: &[Episode]) {
    let revision = place.revision();
    let Ok(found) = place.live(probe) else {
        return place.note(false, "the store does not open again");
    };
    let is_left = match found.as_slice() {
        [first, last] => {
            first.revision == revision
                && (last.revision == revision.saturating_add(1)
                    || (last.revision == revision && first.replies.is_empty()))
        }
        _ => false,
    };
    place.note(is_left, "a second stop leaves something else");
}

/// Takes the steps on a device that stops, and crashes, and lives the episodes after: how many a step met.
pub fn script_stopped(
    alloc: Global,
    stores: NewStores,
    steps: &[Episode],
    after: &[Episode],
    looks: &[String],
    stop: Stop<'_>,
) -> Result<u64, Wrong> {
    let mut place = stores.place(alloc, ROOM_SECTORS);
    place.stop_on(stop.call);
    let count = taken(&mut place, steps);
    crash_leaves(&mut place, looks, [count.saturating_sub(1), count], stop);
    stops_again(&mut place, after);
    place.end(u64::from(count < steps.len()))
}

/// Takes the steps on a device of which a call fails: how many a step met. The store serves no more then, and an opening finds what was told, or the
/// step.
pub fn script_failed(
    alloc: Global,
    stores: NewStores,
    steps: &[Episode],
    looks: &[String],
    call: u64,
) -> Result<u64, Wrong> {
    let mut place = stores.place(alloc, ROOM_SECTORS);
    place.fail_on(call);
    let count = taken(&mut place, steps);
    let Some(step) = steps.get(count) else {
        return place.end(0);
    };
    if step.compacts || !step.requests.is_empty() {
        go(&mut place, step);
        place.tells("device failed before", "the store goes on");
    }
    leaves(
        &mut place,
        looks,
        [count.saturating_sub(1), count],
        "a failure leaves neither what was told nor the step",
    );
    place.end(1)
}

// Asks that a place shows what these steps leave.
fn is_as_before(
    alloc: Global,
    stores: NewStores,
    place: &mut StorePlace,
    words: &[String],
) -> Result<(), Wrong> {
    let (mut steps, mut looks) = (Vec::new(alloc), Vec::new(alloc));
    push_steps(alloc, stores.format, words, &[], false, &mut steps)?;
    push_script_looks(alloc, stores, &steps, &mut looks)?;
    place.look();
    let is_left = is_look(&looks, looks.len().saturating_sub(1), place.told());
    wanted(
        is_left,
        "a step that is refused memory changes what is shown",
    )
}

/// `apply STEP`: takes the last of these steps by a call of the store, and gives what is told of it. Where that is out of memory, a store that is
/// open must show what the steps before left, and the step is taken once more.
pub fn applied(
    alloc: Global,
    stores: NewStores,
    place: &mut StorePlace,
    words: &[String],
) -> Result<String, Wrong> {
    let (before, last) = words.split_at(words.len().saturating_sub(1));
    let mut steps = Vec::new(alloc);
    push_steps(alloc, stores.format, last, &[], false, &mut steps)?;
    for step in &steps {
        go(place, step);
        if place.told() == "out of memory" {
            if place.is_open() {
                is_as_before(alloc, stores, place, before)?;
            }
            go(place, step);
        }
    }
    place.answer()
}

// `REVISION CODE ..` of each episode, with commas between them.
fn found_text(alloc: Global, found: &[Found]) -> Result<String, Wrong> {
    let mut line = TextBuilder::new(alloc);
    let mut before = "";
    for one in found {
        line.push(before);
        before = ", ";
        line.show(&one.revision);
        for reply in one.replies.iter() {
            line.push(" ");
            line.show(&reply.code());
        }
    }
    line.end()
}

/// `drive ROOM AT STOP LENGTH [PICK ..]`: the steps of this case after its opening as a life of a new store, each in an episode of its own, and an
/// opening after them. The AT-th is stopped at a call, and crashes so. Of each the revision that it finds, and the codes of its replies.
pub fn driven(
    alloc: Global,
    format: Format,
    words: &[String],
    line: &str,
) -> Result<String, Wrong> {
    let mut numbers = WordReader::new(line);
    let (room, at, call) = (numbers.number(), numbers.number(), numbers.number());
    numbers.end()?;
    let mut picks = Vec::new(alloc);
    let length = crash_words(numbers.rest(), &mut picks)?;
    let stop = Stop {
        call,
        picks: &picks,
        length,
    };
    let mut steps = Vec::new(alloc);
    push_steps(
        alloc,
        format,
        words.get(1..).unwrap_or(&[]),
        &["open"],
        false,
        &mut steps,
    )?;
    stop_step(
        alloc,
        &mut steps,
        (at as usize).saturating_sub(1),
        stop,
        false,
    )?;
    let mut place = StorePlace::new(alloc, format, room);
    let lived = place.live(&steps);
    drop(place);
    match lived {
        Ok(found) => found_text(alloc, &found),
        Err(fault) => shown(alloc, &fault),
    }
}
