//! Entries on their way to pages.

ghost use Rattle.std.specs.Prelude.{◌≡◌, ◌<◌, ◌≤◌, ◌*◌, ◌++◌, length, take, drop, is_some, IfOk, OnOk};
ghost use Rattle.checkpoint.specs.EntryList.{listed};
ghost use Rattle.names.specs.Format.{has_chunks};
ghost use Rattle.chunks.specs.Chunks.{stem_of, cut, cut_entry};
ghost use Rattle.chunks.specs.Whole.{chunk_key, first_key};

use byteorder::{BigEndian, ByteOrder};
use names::Format;
use records::OBJECT_MARK;
use std::alloc::{AllocError, Global};

/// The first byte of the key of an event's entry.
pub(crate) const EVENT_MARK: u8 = 3;

/// How many bytes of a value a chunk has; the last may have fewer.
pub(crate) const CHUNK_BYTES: usize = 8000;

/// How many chunks an entry has at most, as two bytes number them.
pub(crate) const MOST_CHUNKS: usize = 65536;

// A chunk of a value.
fn chunk(value: &[u8], number: usize) -> &[u8]
    requires { 8000 * number ≤ length value.now }
    ensures { result.now ≡ take 8000 (drop (8000 * number) value.now) }
{
    let rest = &value[CHUNK_BYTES * number..];
    &rest[..rest.len().min(CHUNK_BYTES)]
}

/// The key of a chunk of the entry with this key; the key itself, where its value is not cut.
pub(crate) fn chunk_key(alloc: Global, key: &[u8], number: u16) -> Result<Vec<u8>, AllocError>
    ensures { IfOk result (λ bytes. bytes.items ≡ chunk_key key.now number) }
{
    let mut two = [0; 2];
    BigEndian::write_u16(&mut two, number);
    let mut bytes = key.to_vec(alloc)?;
    if key.is_empty() {
        return Ok(bytes);
    }
    if key[0] == OBJECT_MARK {
        bytes.push(0)?;
        bytes.extend_from_slice(&two)?;
    } else if key[0] == EVENT_MARK {
        bytes.extend_from_slice(&two)?;
    }
    Ok(bytes)
}

/// The key under which the entry with this key begins, as a format has it.
///
/// # Errors
///
/// Out of memory.
pub fn first_key(alloc: Global, format: Format, key: &[u8]) -> Result<Vec<u8>, AllocError>
    ensures { IfOk result (λ bytes. bytes.items ≡ first_key (has_chunks format) key.now) }
{
    if format.has_chunks() {
        chunk_key(alloc, key, 0)
    } else {
        key.to_vec(alloc)
    }
}

// Whether the value under a key is cut.
pub(crate) fn is_cut(key: &[u8]) -> bool
    ensures { result ≡ is_some (stem_of key.now) }
{
    !key.is_empty() && (key[0] == OBJECT_MARK || key[0] == EVENT_MARK)
}

// A chunk of an entry.
fn numbered(
    alloc: Global,
    key: &[u8],
    value: &[u8],
    number: usize,
) -> Result<(Vec<u8>, Vec<u8>), AllocError>
    requires inside { 8000 * number ≤ length value.now }
    requires few { number < 65536 }
    ensures name { IfOk result (λ pair. pair.0.items ≡ chunk_key key.now number) }
    ensures part { IfOk result (λ pair. pair.1.items ≡ take 8000 (drop (8000 * number) value.now)) }
{
    let name = chunk_key(alloc, key, number as u16)?;
    Ok((name, chunk(value, number).to_vec(alloc)?))
}

// Adds an entry in its chunks.
fn add_cut(
    alloc: Global,
    entries: &mut Vec<(Vec<u8>, Vec<u8>)>,
    key: Vec<u8>,
    value: Vec<u8>,
) -> Result<(), AllocError>
    ensures { OnOk result (listed entries.new.items ≡ listed entries.old.items ++ cut_entry (key.items, value.items)) }
{
    if !is_cut(&key) {
        entries.push((key, value))?;
        return Ok(());
    }
    if value.len() > MOST_CHUNKS * CHUNK_BYTES {
        // No value that may be stored is so long.
        return Err(AllocError);
    }
    for number in 0..value.len().div_ceil(CHUNK_BYTES) {
        entries.push(numbered(alloc, &key, &value, number)?)?;
    }
    Ok(())
}

/// Entries as the pages of a format have them: cut, where it cuts.
///
/// # Errors
///
/// Out of memory; and where a value has more than 65536 chunks.
pub fn all_cut(
    alloc: Global,
    format: Format,
    entries: Vec<(Vec<u8>, Vec<u8>)>,
) -> Result<Vec<(Vec<u8>, Vec<u8>)>, AllocError>
    ensures { IfOk result (λ all. listed all.items ≡ cut format (listed entries.items)) }
{
    if !format.has_chunks() {
        return Ok(entries);
    }
    let mut all = Vec::new(alloc);
    for (key, value) in entries {
        add_cut(alloc, &mut all, key, value)?;
    }
    Ok(all)
}
