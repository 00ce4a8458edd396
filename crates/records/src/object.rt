//! The entry of an object.

ghost use Rattle.std.specs.Prelude.{◌≡◌, ◌≢◌, ◌++◌, ◌∷◌, false, ℕ, List, IsTrue, IfOk, IsErrOf};
ghost use Rattle.byteorder.specs.Endian.{big_bytes};
ghost use Rattle.jsondoc.specs.Json.{text};
ghost use Rattle.names.specs.Key.{Key as KeyData, key_bytes};
ghost use Rattle.documents.specs.Document.{Document as DocumentData};
ghost use Rattle.requests.specs.Codes.{document_in};
ghost use Rattle.records.specs.declared.entry_fault.EntryFault.TheVariants as EntryFault;
ghost use Rattle.records.specs.Entries.{is_object_key, object_entry};
ghost use Rattle.records.specs.Holding.{IsStorableObject};

use crate::bytes::{OBJECT_MARK, behind_mark, marked, number_bytes, split_number};
use crate::entry::Entry;
use crate::entry_fault::EntryFault;
use crate::stored_write::read_manifest;
use documents::Document;
use names::Key;
use requests::Manifest;
use std::alloc::{AllocError, Global};

/// An object, as it is read from its entry.
#[derive(Drop)]
pub struct StoredObject {
    /// Its key and its document.
    pub manifest: Manifest,
    /// The revision of its last write.
    pub revision: u64,
}

// What stands under an object's key.
fn object_cell(alloc: Global, document: &Document, revision: u64) -> Result<Vec<u8>, AllocError>
    ensures { IfOk result (λ v. v.items ≡ big_bytes 8 revision ++ text document.now.json) }
{
    let text = document.json().text(alloc)?;
    let mut cell = Vec::new(alloc);
    cell.extend_from_slice(&number_bytes(revision))?;
    cell.extend_from_slice(text.as_bytes())?;
    Ok(cell)
}

/// Whether the key is that of an object's entry.
pub fn is_object_key(key: &[u8]) -> bool
    ensures value { result ≡ is_object_key key.now }
    ensures yes { IsTrue result → (rest : List ℕ) × (key.now ≡ 1 ∷ rest) }
    ensures no { result ≡ false → (rest : List ℕ) → key.now ≢ 1 ∷ rest }
{
    match key.first() {
        Some(mark) => *mark == OBJECT_MARK,
        None => false,
    }
}

/// The key of an object's entry.
pub fn object_key(alloc: Global, key: &Key) -> Result<Vec<u8>, AllocError>
    ensures { IfOk result (λ bytes. bytes.items ≡ 1 ∷ key_bytes key.now) }
{
    marked(alloc, OBJECT_MARK, &key.bytes(alloc)?)
}

/// The entry of an object whose last write has this revision.
pub fn object_entry(
    alloc: Global,
    key: &Key,
    document: &Document,
    revision: u64,
) -> Result<Entry, AllocError>
    ensures { IfOk result (λ entry. entry ≡ object_entry key.now document.now revision) }
{
    let cell = object_cell(alloc, document, revision)?;
    let key = object_key(alloc, key)?;
    Ok(Entry { key, cell })
}

/// Reads an object from its entry: a key, and the cell that stands under it.
///
/// # Errors
///
/// `Damaged` where no well-formed object has this entry, and `Memory` when out of memory.
pub fn read_object(alloc: Global, key: &[u8], cell: &[u8]) -> Result<StoredObject, EntryFault>
    ensures entry { IfOk result (λ o. object_entry o.manifest.key (document_in o.manifest.body) o.revision ≡ (key.now, cell.now)) }
    ensures form { IfOk result (λ o. IsStorableObject o.manifest.key (document_in o.manifest.body) o.revision) }
    ensures damaged { IsErrOf result EntryFault.Damaged
        → (k : KeyData) (d : DocumentData) (revision : ℕ) → IsStorableObject k d revision → object_entry k d revision ≢ (key.now, cell.now) }
{
    let Some(key) = behind_mark(OBJECT_MARK, key) else {
        return Err(EntryFault::Damaged);
    };
    let Some((revision, text)) = split_number(cell) else {
        return Err(EntryFault::Damaged);
    };
    let manifest = read_manifest(alloc, key, text)?;
    Ok(StoredObject { manifest, revision })
}
