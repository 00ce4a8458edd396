//! Entries of objects, passed over where their keys have changes.

ghost use Rattle.std.specs.Prelude.{◌≡◌, true, false, IfOk};
ghost use Rattle.names.specs.Format.{has_chunks};
ghost use Rattle.snapshots.specs.Changed.{IsChanged, IsUnchanged};

use checkpoint::{Reader, ReaderFault};
use chunks::whole_key;
use names::{Format, Key, KeyFault};
use objects::Changes;
use std::alloc::{AllocError, Global};

// Whether the object has one of the changes of whose entry this is a key, as a format has it. Bytes that are no such key have none.
fn has_change<T: Drop>(
    alloc: Global,
    format: Format,
    changes: &Changes<T>,
    bytes: &[u8],
) -> Result<bool, AllocError>
    ensures changed { IfOk result (λ b. b ≡ true → IsChanged (has_chunks format) changes.now.made bytes.now) }
    ensures unchanged { IfOk result (λ b. b ≡ false → IsUnchanged (has_chunks format) changes.now.made bytes.now) }
{
    let Some(whole) = whole_key(format, bytes) else {
        return Ok(false);
    };
    // Behind the mark of an object's entry.
    let Some((_mark, parts)) = whole.split_first() else {
        return Ok(false);
    };
    match Key::read(alloc, parts) {
        Ok(key) => Ok(changes.get(&key).is_some()),
        Err(KeyFault::NoKey) => Ok(false),
        Err(KeyFault::Memory) => Err(AllocError),
    }
}

/// Is told entries as the pages of a format have them. It passes over those of objects that have a change, and refuses any other. It looks at no document.
#[derive(Drop)]
pub(crate) struct ChangedReader<'a, T: Drop> {
    // of the pages whose entries are told
    pub(crate) format: Format,
    pub(crate) changes: &'a Changes<T>,
}

impl<'a, T: Drop> Reader for ChangedReader<'a, T> {
    ghost use Rattle.snapshots.specs.Changed.{IsTold, Refuses, told_none, told_then};

    ghost told = { IsTold };

    ghost refuses = { Refuses };

    ghost told_none = { told_none };

    ghost told_then = { told_then };

    fn entry(&mut self, alloc: Global, key: &[u8], _cell: &[u8]) -> Result<(), ReaderFault> {
        if has_change(alloc, self.format, self.changes, key)? {
            return Ok(());
        }
        Err(ReaderFault::Entry)
    }
}
