//! The entries of objects, of which those without a change are handed on.

ghost use Rattle.std.specs.Prelude.{◌≡◌, ◌≤◌, ◌++◌, ◌∷◌, ◌↔◌, [], List, length, map, take, drop, IsTrue, IfOk, OnOk};
ghost use Rattle.std.specs.FinMap.{is_sorted};
ghost use Rattle.byteorder.specs.Endian.{big_bytes};
ghost use Rattle.jsondoc.specs.Json.{text};
ghost use Rattle.names.specs.Key.{Key as KeyData, key_cmp};
ghost use Rattle.objects.specs.Merged.{merged};
ghost use Rattle.objects.specs.Steps.{put_by, puts_of, IsNext, IsSplitAt, NoneBelow};
ghost use Rattle.histories.specs.declared.stored.Stored.{Stored as StoredData};
ghost use Rattle.checkpoint.specs.EntryList.{listed};
ghost use Rattle.records.specs.Entries.{stored_entry};
ghost use Rattle.handing.specs.Cells.{cells_in, stored_cells, Adds};

use histories::Stored;
use names::Key;
use objects::KeyValue;
use records::{object_entry, object_key};
use std::alloc::{AllocError, Global};

// Adds the entry of what a change put.
fn add_put<P>(
    alloc: Global,
    entries: &mut Vec<(Vec<u8>, Vec<u8>)>,
    change: &KeyValue<Option<Stored<P>>>,
) -> Result<(), AllocError>
    ensures { OnOk result (listed entries.new.items ≡ listed entries.old.items ++ map stored_entry (put_by change.now)) }
{
    if let Some(stored) = change.value() {
        let entry = object_entry(alloc, change.key(), &stored.document, stored.revision)?;
        entries.push(entry.into_parts())?;
    }
    Ok(())
}

// Adds the entries of what changes put.
fn add_puts<P>(
    alloc: Global,
    entries: &mut Vec<(Vec<u8>, Vec<u8>)>,
    changes: &[KeyValue<Option<Stored<P>>>],
) -> Result<(), AllocError>
    ensures { OnOk result (listed entries.new.items ≡ listed entries.old.items ++ map stored_entry (puts_of changes.now)) }
{
    for change in changes {
        add_put(alloc, entries, change)?;
    }
    Ok(())
}

// How many of the changes are below a key. These are looked at one after the other, since between two keys that follow one another are few.
fn count_below<P>(changes: &[KeyValue<Option<Stored<P>>>], key: &Key) -> usize
    ensures bound { result ≤ length changes.now }
    ensures split { IsTrue (is_sorted key_cmp changes.now) → IsSplitAt key.now changes.now result }
{
    for at in 0..changes.len() {
        if !changes[at].key().cmp(key).is_lt() {
            return at;
        }
    }
    changes.len()
}

// Whether the first of the changes is one of the key.
fn is_next<P>(changes: &[KeyValue<Option<Stored<P>>>], key: &Key) -> bool
    ensures { IsTrue result ↔ IsNext key.now changes.now }
{
    match changes.first() {
        Some(change) => change.key() == key,
        None => false,
    }
}

// Adds the entry of a cell, or what the first of the changes puts in its place: none of them is below it. Answers how many changes are done.
fn add_cell<P>(
    alloc: Global,
    entries: &mut Vec<(Vec<u8>, Vec<u8>)>,
    changes: &[KeyValue<Option<Stored<P>>>],
    key: Key,
    cell: Vec<u8>,
) -> Result<usize, AllocError>
    ensures bound { IfOk result (λ count. count ≤ length changes.now) }
    ensures added { (stored : StoredData P) → cell.items ≡ big_bytes 8 stored.revision ++ text stored.document.json
        → IfOk result (λ count. Adds (listed entries.old.items) (listed entries.new.items) changes.now (drop count changes.now) (key, stored)) }
{
    if is_next(changes, &key) {
        add_put(alloc, entries, &changes[0])?;
        return Ok(1);
    }
    entries.push((object_key(alloc, &key)?, cell))?;
    Ok(0)
}

/// The entries of the objects that changes leave of those with these cells, in key order. Where an object has no change, its cell is handed on.
///
/// # Errors
///
/// Out of memory.
pub fn merged_entries<P>(
    alloc: Global,
    changes: &[KeyValue<Option<Stored<P>>>],
    cells: Vec<(Key, Vec<u8>)>,
) -> Result<Vec<(Vec<u8>, Vec<u8>)>, AllocError>
    ensures { (base : List (KeyData × StoredData P)) → cells_in cells.items ≡ stored_cells base → IsTrue (is_sorted key_cmp base) → IsTrue (is_sorted key_cmp changes.now)
        → IfOk result (λ entries. listed entries.items ≡ map stored_entry (merged changes.now base)) }
{
    let mut entries = Vec::new(alloc);
    let mut done = 0;
    for (key, cell) in cells {
        let below = done + count_below(&changes[done..], &key);
        add_puts(alloc, &mut entries, &changes[done..below])?;
        done = below + add_cell(alloc, &mut entries, &changes[below..], key, cell)?;
    }
    add_puts(alloc, &mut entries, &changes[done..])?;
    Ok(entries)
}
