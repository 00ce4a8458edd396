//! Objects, as their entries are told.

use crate::cached_object::{CachedObject, read_entry};
use checkpoint::{Reader, ReaderFault};
use names::Key;
use records::EntryFault;
use std::alloc::Global;

/// The objects of the entries that were told, in order. It refuses an entry of no object.
#[derive(Drop)]
pub(crate) struct ListingReader {
    pub(crate) objects: Vec<(Key, CachedObject)>,
}

impl Reader for ListingReader {
    ghost use Rattle.snapshots.specs.Listed.{IsTold, Refuses, told_none, told_then};

    ghost told = { IsTold };

    ghost refuses = { Refuses };

    ghost told_none = { told_none };

    ghost told_then = { told_then };

    fn entry(&mut self, alloc: Global, key: &[u8], cell: &[u8]) -> Result<(), ReaderFault> {
        match read_entry(alloc, key, cell) {
            Ok(object) => Ok(self.objects.push(object)?),
            Err(EntryFault::Damaged) => Err(ReaderFault::Entry),
            Err(EntryFault::Memory) => Err(ReaderFault::Memory),
        }
    }
}
