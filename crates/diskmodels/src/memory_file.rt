ghost use Rattle.std.specs.Prelude.{◌≡◌, ◌<◌, ◌≤◌, ◌+◌, ◌-◌, ◌^◌, ◌⊎◌, ◌++◌, ◌∷◌, [], length, take, drop, IfOk, OnOk, OnErr};

use crate::bytes::written;
use device::{DeviceFault, RawFile};
use std::alloc::{AllocError, Global};

const MOST_BYTES: usize = 1 << 62;

/// A change of the file, as far as a crash sees it. Offsets and sizes are in bytes.
#[derive(Clone, Copy)]
pub(crate) enum Change {
    Written { offset: usize, count: usize },
    Shortened { size: usize },
}

/// A file in memory, of at most 2^62 bytes. A call fails only where memory is refused to it, or a write would reach past that size;
/// then nothing changes.
#[derive(Drop)]
pub struct MemoryFile {
    alloc: Global,
    // What reads give.
    current: Vec<u8>,
    // What the last sync left.
    synced: Vec<u8>,
    // What was done since then, in order.
    unsynced: Vec<Change>,
    failures: u64,
    ghost most: { length current.items ≤ 2 ^ 62 },
    ghost most_synced: { length synced.items ≤ 2 ^ 62 },
}

impl MemoryFile {
    ghost use Rattle.diskmodels.specs.Changes.{memory_file_disk};

    /// An empty file.
    pub fn new(alloc: Global) -> MemoryFile
        ensures empty { memory_file_disk.content result ≡ [] }
    {
        MemoryFile {
            alloc,
            current: Vec::new(alloc),
            synced: Vec::new(alloc),
            unsynced: Vec::new(alloc),
            failures: 0,
        }
    }

    /// The file after a crash that took all changes since the last sync.
    pub fn crash(self) -> Result<MemoryFile, AllocError>
        ensures left { IfOk result (λ file. memory_file_disk.left self (memory_file_disk.content file)) }
        ensures content { IfOk result (λ file. memory_file_disk.content file ≡ self.synced.items) }
    {
        Ok(MemoryFile {
            alloc: self.alloc,
            current: Vec::from_slice(self.alloc, &self.synced)?,
            synced: self.synced,
            unsynced: Vec::new(self.alloc),
            failures: self.failures,
        })
    }

    // Counts a failure.
    fn fail(&mut self) -> DeviceFault
        ensures current { self.new.current ≡ self.old.current }
        ensures synced { self.new.synced ≡ self.old.synced }
        ensures unsynced { self.new.unsynced ≡ self.old.unsynced }
        ensures failures { (self.old.failures < self.new.failures) ⊎ (self.new.failures ≡ 2 ^ 64 - 1) }
        ensures later { self.old.failures ≤ self.new.failures }
    {
        self.failures = self.failures.saturating_add(1);
        DeviceFault
    }

    // Makes these bytes what reads give, by a change that is not synced.
    fn becomes(&mut self, change: Change, next: Vec<u8>) -> Result<(), DeviceFault>
        requires most { length next.items ≤ 2 ^ 62 }
        ensures synced { self.new.synced ≡ self.old.synced }
        ensures ok { OnOk result ((self.new.current.items ≡ next.items)
            × (self.new.unsynced.items ≡ self.old.unsynced.items ++ change ∷ []) × (self.new.failures ≡ self.old.failures)) }
        ensures err { OnErr result ((self.new.current ≡ self.old.current) × (self.new.unsynced.items ≡ self.old.unsynced.items)
            × (self.old.failures ≤ self.new.failures) × ((self.old.failures < self.new.failures) ⊎ (self.new.failures ≡ 2 ^ 64 - 1))) }
    {
        if self.unsynced.push(change).is_err() {
            return Err(self.fail());
        }
        self.current = next;
        Ok(())
    }
}

impl RawFile for MemoryFile {
    ghost use Rattle.diskmodels.specs.Changes.{memory_file_disk};
    ghost use Rattle.diskmodels.specs.ChangeLaws.{at_most};

    ghost disk = { memory_file_disk };

    ghost at_most = { λ file keeps. at_most file.current.items file.most };

    ghost counts_now = { λ file t c keeps le left. left };

    ghost only_now = { λ file c keeps since. since };

    fn size(&mut self) -> Result<u64, DeviceFault> {
        Ok(self.current.len() as u64)
    }

    fn read_at(&mut self, offset: u64, buffer: &mut [u8]) -> Result<(), DeviceFault> {
        let start = offset as usize;
        buffer.copy_from_slice(&self.current[start..start + buffer.len()]);
        Ok(())
    }

    fn write_at(&mut self, offset: u64, bytes: &[u8]) -> Result<(), DeviceFault> {
        let start = offset as usize;
        if bytes.len() > MOST_BYTES - start {
            return Err(self.fail());
        }
        match written(self.alloc, &self.current, start, bytes) {
            Ok(next) => self.becomes(
                Change::Written {
                    offset: start,
                    count: bytes.len(),
                },
                next,
            ),
            Err(_) => Err(self.fail()),
        }
    }

    fn cut_to(&mut self, size: u64) -> Result<(), DeviceFault> {
        let size = size as usize;
        match Vec::from_slice(self.alloc, &self.current[..size]) {
            Ok(next) => self.becomes(Change::Shortened { size }, next),
            Err(_) => Err(self.fail()),
        }
    }

    fn sync(&mut self) -> Result<(), DeviceFault> {
        match Vec::from_slice(self.alloc, &self.current) {
            Ok(kept) => {
                self.synced = kept;
                self.unsynced.clear();
                Ok(())
            }
            Err(_) => Err(self.fail()),
        }
    }
}
