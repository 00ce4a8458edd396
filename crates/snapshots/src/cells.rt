//! Cells of objects, as their entries are told.

ghost use Rattle.std.specs.Prelude.{◌≡◌, ◌≢◌, ◌∷◌, IsTrue, IfOk, IsErrOf};
ghost use Rattle.names.specs.Key.{Key as KeyData, is_key, key_bytes};
ghost use Rattle.checkpoint.specs.declared.reader.ReaderFault.TheVariants as ReaderFault;

use checkpoint::{Reader, ReaderFault};
use names::{Key, KeyFault};
use records::OBJECT_MARK;
use std::alloc::Global;

// The key of the object whose entry has these bytes as its key. `Entry` where no object's entry has.
fn read_key(alloc: Global, bytes: &[u8]) -> Result<Key, ReaderFault>
    ensures bytes { IfOk result (λ k. 1 ∷ key_bytes k ≡ bytes.now) }
    ensures key { IfOk result (λ k. IsTrue (is_key k)) }
    ensures refused { IsErrOf result ReaderFault.Entry → (k : KeyData) → IsTrue (is_key k) → 1 ∷ key_bytes k ≢ bytes.now }
{
    let Some((mark, parts)) = bytes.split_first() else {
        return Err(ReaderFault::Entry);
    };
    if *mark != OBJECT_MARK {
        return Err(ReaderFault::Entry);
    }
    match Key::read(alloc, parts) {
        Ok(key) => Ok(key),
        Err(KeyFault::NoKey) => Err(ReaderFault::Entry),
        Err(KeyFault::Memory) => Err(ReaderFault::Memory),
    }
}

/// The cells of the entries that were told, in order, each with the key of its object. It looks at no document, and refuses an entry whose key is no object's.
#[derive(Drop)]
pub(crate) struct CellReader {
    pub(crate) cells: Vec<(Key, Vec<u8>)>,
}

impl Reader for CellReader {
    ghost use Rattle.snapshots.specs.HandedOn.{IsTold, Refuses, told_none, told_then};

    ghost told = { IsTold };

    ghost refuses = { Refuses };

    ghost told_none = { told_none };

    ghost told_then = { told_then };

    fn entry(&mut self, alloc: Global, key: &[u8], cell: &[u8]) -> Result<(), ReaderFault> {
        let object_key = read_key(alloc, key)?;
        let cell = cell.to_vec(alloc)?;
        Ok(self.cells.push((object_key, cell))?)
    }
}
