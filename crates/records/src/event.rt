//! The entry of an event.

ghost use Rattle.std.specs.Prelude.{◌≡◌, ◌≢◌, ◌∷◌, ◌++◌, ℕ, List, None, IfOk, IfSome, IsErrOf};
ghost use Rattle.byteorder.specs.Endian.{big_bytes};
ghost use Rattle.fields.specs.Field.{field};
ghost use Rattle.jsondoc.specs.Json.{text};
ghost use Rattle.names.specs.Key.{Key as KeyData, key_bytes};
ghost use Rattle.documents.specs.Document.{Document as DocumentData};
ghost use Rattle.documents.specs.Form.{HasForm};
ghost use Rattle.window.specs.declared.event.Change.{Change as ChangeData};
ghost use Rattle.window.specs.declared.event.Event.{Event as EventData};
ghost use Rattle.records.specs.declared.entry_fault.EntryFault.TheVariants as EntryFault;
ghost use Rattle.records.specs.Entries.{change_number, event_entry};
ghost use Rattle.records.specs.Holding.{IsStorableEvent};

use crate::bytes::{EVENT_MARK, behind_mark, marked, number_bytes, split_number};
use crate::entry::Entry;
use crate::entry_fault::EntryFault;
use crate::stored_write::read_manifest;
use crate::write_bytes::add_key;
use documents::Document;
use fields::short_field;
use names::Key;
use std::alloc::{AllocError, Global};
use window::{Change, Event};

fn change_number(change: Change) -> u8
    ensures { result ≡ change_number change }
{
    match change {
        Change::Added => 1,
        Change::Modified => 2,
        Change::Deleted => 3,
    }
}

// The change with this number.
fn numbered(number: u8) -> Option<Change>
    ensures found { IfSome result (λ change. change_number change ≡ number) }
    ensures none { result ≡ None → (change : ChangeData) → change_number change ≢ number }
{
    match number {
        1 => Some(Change::Added),
        2 => Some(Change::Modified),
        3 => Some(Change::Deleted),
        _ => None,
    }
}

// What stands under an event's revision.
fn event_cell(alloc: Global, event: &Event<Document>) -> Result<Vec<u8>, AllocError>
    ensures { IfOk result (λ v. v.items ≡ (change_number event.now.change ∷ field 2 (key_bytes event.now.key)) ++ text event.now.document.json) }
{
    let text = event.document.json().text(alloc)?;
    let mut cell = Vec::new(alloc);
    cell.push(change_number(event.change))?;
    add_key(&mut cell, alloc, &event.key)?;
    cell.extend_from_slice(text.as_bytes())?;
    Ok(cell)
}

/// The entry of an event.
pub fn event_entry(alloc: Global, event: &Event<Document>) -> Result<Entry, AllocError>
    ensures { IfOk result (λ entry. entry ≡ event_entry event.now) }
{
    let cell = event_cell(alloc, event)?;
    let key = marked(alloc, EVENT_MARK, &number_bytes(event.revision))?;
    Ok(Entry { key, cell })
}

// The revision of an event, from its key.
fn read_revision(key: &[u8]) -> Option<u64>
    ensures found { IfSome result (λ revision. 3 ∷ big_bytes 8 revision ≡ key.now) }
    ensures none { result ≡ None → (revision : ℕ) → 3 ∷ big_bytes 8 revision ≢ key.now }
{
    let (revision, rest) = split_number(behind_mark(EVENT_MARK, key)?)?;
    if !rest.is_empty() {
        return None;
    }
    Some(revision)
}

// The change of an event, and what stands after it.
fn split_change(cell: &[u8]) -> Option<(Change, &[u8])>
    ensures parts { IfSome result (λ parts. cell.now ≡ change_number parts.0 ∷ parts.1.now) }
    ensures none { result ≡ None → (change : ChangeData) (rest : List ℕ) → cell.now ≢ change_number change ∷ rest }
{
    let (number, rest) = cell.split_first()?;
    Some((numbered(*number)?, rest))
}

// Reads the key and the document of an event.
fn read_told(alloc: Global, bytes: &[u8]) -> Result<(Key, Document), EntryFault>
    ensures told { IfOk result (λ told. field 2 (key_bytes told.0) ++ text told.1.json ≡ bytes.now) }
    ensures form { IfOk result (λ told. HasForm told.0 told.1) }
    ensures damaged { IsErrOf result EntryFault.Damaged
        → (k : KeyData) (d : DocumentData) → HasForm k d → field 2 (key_bytes k) ++ text d.json ≢ bytes.now }
{
    let Some((key, text)) = short_field(bytes) else {
        return Err(EntryFault::Damaged);
    };
    let manifest = read_manifest(alloc, key, text)?;
    Ok(manifest.into_parts())
}

/// Reads an event from its entry: a key, and the cell that stands under it.
///
/// # Errors
///
/// `Damaged` where no well-formed event has this entry, and `Memory` when out of memory.
pub fn read_event(alloc: Global, key: &[u8], cell: &[u8]) -> Result<Event<Document>, EntryFault>
    ensures entry { IfOk result (λ e. event_entry e ≡ (key.now, cell.now)) }
    ensures form { IfOk result IsStorableEvent }
    ensures damaged { IsErrOf result EntryFault.Damaged
        → (e : EventData DocumentData) → IsStorableEvent e → event_entry e ≢ (key.now, cell.now) }
{
    let Some(revision) = read_revision(key) else {
        return Err(EntryFault::Damaged);
    };
    let Some((change, rest)) = split_change(cell) else {
        return Err(EntryFault::Damaged);
    };
    let (key, document) = read_told(alloc, rest)?;
    Ok(Event {
        revision,
        change,
        key,
        document,
    })
}
