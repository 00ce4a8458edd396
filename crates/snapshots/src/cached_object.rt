ghost use Rattle.std.specs.Prelude.{◌≡◌, ◌≢◌, IfOk, IsErrOf};
ghost use Rattle.names.specs.Key.{Key as KeyData};
ghost use Rattle.records.specs.declared.entry_fault.EntryFault.TheVariants as EntryFault;
ghost use Rattle.snapshots.specs.declared.cached_object.CachedObject.{CachedObject as CachedObjectData};
ghost use Rattle.snapshots.specs.ObjectCache.{cached_entry, IsStorable};

use documents::Document;
use names::Key;
use records::{EntryFault, StoredObject, read_object};
use std::alloc::{AllocError, Global};

/// What is stored under a key.
#[derive(Drop)]
pub struct CachedObject {
    pub document: Document,
    /// That of its last write.
    pub revision: u64,
}

impl Clone for CachedObject {
    ghost is_clone = { λ cached copy. copy ≡ cached };

    fn clone(&self) -> Result<CachedObject, AllocError> {
        Ok(CachedObject {
            document: self.document.clone()?,
            revision: self.revision,
        })
    }
}

/// Reads an object from its entry: a key, and the cell that stands under it. `Damaged` where no well-formed object has this entry.
pub(crate) fn read_entry(
    alloc: Global,
    key: &[u8],
    cell: &[u8],
) -> Result<(Key, CachedObject), EntryFault>
    ensures entry { IfOk result (λ object. cached_entry object ≡ (key.now, cell.now)) }
    ensures storable { IfOk result IsStorable }
    ensures damaged { IsErrOf result EntryFault.Damaged → (object : KeyData × CachedObjectData) → IsStorable object → cached_entry object ≢ (key.now, cell.now) }
{
    let StoredObject { manifest, revision } = read_object(alloc, key, cell)?;
    let (key, document) = manifest.into_parts();
    Ok((key, CachedObject { document, revision }))
}
