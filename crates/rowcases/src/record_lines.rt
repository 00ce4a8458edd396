//! Lines on the payloads of records.

use cases::Wrong;
use diskcases::Line;
use records::{RecordFault, StoredWrite, read_writes};
use recovery::written_keys;
use requests::Manifest;
use std::alloc::Global;

// What a put says: the key, the text, and the plans where there are any.
fn show_put(manifest: &Manifest, plans: &[u8], line: &mut Line<'_>) {
    line.answer.word("put");
    line.show_key(manifest.key());
    line.answer.word(manifest.text());
    if !plans.is_empty() {
        line.answer.spell(plans);
    }
    if manifest.version().is_some() {
        line.refuse("a stored document has a version");
    }
}

fn show_writes(writes: &[StoredWrite<'_>], line: &mut Line<'_>) {
    let mut between = "";
    for write in writes {
        line.answer.word(between);
        between = "|";
        match write {
            StoredWrite::Put(manifest, plans) => show_put(manifest, plans, line),
            StoredWrite::Delete(key) => {
                line.answer.word("delete");
                line.show_key(key);
            }
        }
    }
}

/// `reads PAYLOAD`: the writes that it spells.
pub fn reads(alloc: Global, line: &mut Line<'_>) {
    let bytes = line.payload(alloc, line.rest);
    match read_writes(alloc, &bytes) {
        Ok(writes) => show_writes(&writes, line),
        Err(fault) => line.show(&fault),
    }
}

/// `cuts PAYLOAD`: how many beginnings of the payload, each but the whole, are no record.
pub fn cuts(alloc: Global, line: &mut Line<'_>) {
    let bytes = line.payload(alloc, line.rest);
    for size in 0..bytes.len() {
        match read_writes(alloc, &bytes[..size]) {
            Err(RecordFault::Damaged) => {}
            _ => line.refuse("a part of it is taken"),
        }
    }
    line.show(&bytes.len());
}

/// `keys PAYLOAD ; ..`: the keys that the writes of the log write.
pub fn keys(alloc: Global, line: &mut Line<'_>) {
    let log = line.payloads(alloc);
    match written_keys(alloc, &log) {
        Ok(keys) => {
            for key in &keys {
                line.show_key(key);
            }
        }
        Err(fault) => line.show(&fault),
    }
}
