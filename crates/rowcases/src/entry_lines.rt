//! Lines on the entries of a checkpoint.

use cases::Wrong;
use diskcases::Line;
use documents::Document;
use names::{Key, Resource};
use records::{
    Entry, StoredObject, event_entry, object_entry, plan_entries, read_event, read_object,
    read_piece,
};
use std::alloc::{AllocError, Global};
use window::{Change, Event};

/// Asks that what was read from an entry is written as that entry again.
pub(crate) fn check_written(
    written: Result<Entry, AllocError>,
    entry: &Entry,
    line: &mut Line<'_>,
) {
    let Ok(written) = written else {
        return line.fail(Wrong::Memory);
    };
    if written.key() != entry.key() || written.cell() != entry.cell() {
        line.refuse("what was read is written in other bytes");
    }
}

fn show_object(alloc: Global, object: &StoredObject, entry: &Entry, line: &mut Line<'_>) {
    let manifest = &object.manifest;
    let written = object_entry(alloc, manifest.key(), manifest.document(), object.revision);
    check_written(written, entry, line);
    line.show(&object.revision);
    line.show_key(manifest.key());
    line.answer.word(manifest.text());
}

/// `reads-object KEY ; CELL`: the object whose entry this is, and that it is written in the same bytes.
pub fn reads_object(alloc: Global, line: &mut Line<'_>) {
    let entry = line.entry(alloc, line.rest);
    match read_object(alloc, entry.key(), entry.cell()) {
        Ok(object) => show_object(alloc, &object, &entry, line),
        Err(fault) => line.show(&fault),
    }
}

// The word of a change.
fn change_word(change: Change) -> &'static str {
    match change {
        Change::Added => "added",
        Change::Modified => "modified",
        Change::Deleted => "deleted",
    }
}

fn show_event(alloc: Global, event: &Event<Document>, entry: &Entry, line: &mut Line<'_>) {
    check_written(event_entry(alloc, event), entry, line);
    line.show(&event.revision);
    line.answer.word(change_word(event.change));
    line.show_key(&event.key);
    line.show_text(event.document.json().text(alloc));
}

/// `reads-event KEY ; CELL`: the event whose entry this is, and that it is written in the same bytes.
pub fn reads_event(alloc: Global, line: &mut Line<'_>) {
    let entry = line.entry(alloc, line.rest);
    match read_event(alloc, entry.key(), entry.cell()) {
        Ok(event) => show_event(alloc, &event, &entry, line),
        Err(fault) => line.show(&fault),
    }
}

// The policy `p`.
fn policy(alloc: Global, line: &mut Line<'_>) -> Option<Key> {
    line.key(alloc, Resource::ValidatingAdmissionPolicy, "", "p")
}

// The pieces' keys and sizes. The plans are gathered from them again.
fn show_pieces(alloc: Global, policy: &Key, entries: &[Entry], plans: &[u8], line: &mut Line<'_>) {
    let mut again = Vec::new(alloc);
    for entry in entries {
        if read_piece(alloc, policy, &mut again, entry.key(), entry.cell()).is_err() {
            line.refuse("a piece is not read");
        }
        line.answer.spell(entry.key());
        line.show(&entry.cell().len());
    }
    if again.as_slice() != plans {
        line.refuse("the plans are others");
    }
}

/// `pieces PLANS`: the key and the size of each piece of plans of these bytes, and that they are gathered from the pieces again.
pub fn pieces(alloc: Global, line: &mut Line<'_>) {
    let plans = line.payload(alloc, line.rest);
    if plans.len() > 1 << 30 {
        return line.refuse("too many plans");
    }
    let Some(policy) = policy(alloc, line) else {
        return;
    };
    match plan_entries(alloc, &policy, &plans) {
        Ok(entries) => show_pieces(alloc, &policy, &entries, &plans, line),
        Err(_) => line.fail(Wrong::Memory),
    }
}

/// `reads-piece PLANS ; KEY ; CELL`: the size of these plans with this piece after them.
pub fn reads_piece(alloc: Global, line: &mut Line<'_>) {
    let Some((before, piece)) = line.rest.split_once(" ; ") else {
        return line.refuse("a piece stands after plans");
    };
    let Some(policy) = policy(alloc, line) else {
        return;
    };
    let mut plans = line.payload(alloc, before);
    let piece = line.entry(alloc, piece);
    match read_piece(alloc, &policy, &mut plans, piece.key(), piece.cell()) {
        Ok(()) => line.show(&plans.len()),
        Err(fault) => line.show(&fault),
    }
}
