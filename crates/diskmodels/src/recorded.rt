//! A device in memory that remembers each moment.

ghost use Rattle.std.specs.Prelude.{◌≡◌, ◌<◌, ◌≤◌, ◌+◌, ◌-◌, ◌*◌, ◌/◌, ◌%◌, ◌^◌, ◌⊎◌, ◌++◌, ◌∷◌, [], length, take, drop, map, vec_len, IfOk, OnOk, OnErr, IsErr, Result};

use crate::bytes::written;
use device::{Device, DeviceFault, SECTOR};
use std::alloc::{AllocError, Global};

const MOST_BYTES: usize = 1 << 62;

/// What reads gave at a moment, and what the last sync had left.
#[derive(Drop)]
pub struct Past {
    current: Vec<u8>,
    synced: Vec<u8>,
}

/// A device that remembers each moment.
#[derive(Drop)]
pub struct Recorded {
    alloc: Global,
    current: Vec<u8>,
    synced: Vec<u8>,
    past: Vec<Past>,
    failures: u64,
    ghost whole: { length current.items % 512 ≡ 0 },
    ghost most: { length current.items ≤ 2 ^ 62 },
}

impl Recorded {
    ghost use Rattle.diskmodels.specs.Moments.{Moment, present, past};

    /// An empty device.
    pub fn new(alloc: Global) -> Recorded
        ensures now { present result ≡ record { now = []; synced = [] } }
        ensures past { past result ≡ [] }
    {
        Recorded {
            alloc,
            current: Vec::new(alloc),
            synced: Vec::new(alloc),
            past: Vec::new(alloc),
            failures: 0,
        }
    }

    // Remembers this moment.
    fn remember(&mut self) -> Result<(), AllocError>
        ensures present { present self.new ≡ present self.old }
        ensures failures { self.new.failures ≡ self.old.failures }
        ensures ok { OnOk result (past self.new ≡ past self.old ++ present self.old ∷ []) }
        ensures err { OnErr result (past self.new ≡ past self.old) }
    {
        let current = Vec::from_slice(self.alloc, &self.current)?;
        let synced = Vec::from_slice(self.alloc, &self.synced)?;
        self.past.push(Past { current, synced })?;
        Ok(())
    }

    // Counts a failure.
    fn fail(&mut self) -> DeviceFault
        ensures present { present self.new ≡ present self.old }
        ensures past { past self.new ≡ past self.old }
        ensures failures { (self.old.failures < self.new.failures) ⊎ (self.new.failures ≡ 2 ^ 64 - 1) }
        ensures later { self.old.failures ≤ self.new.failures }
    {
        self.failures = self.failures.saturating_add(1);
        DeviceFault
    }

    // Makes these bytes what reads give, and remembers those before.
    fn becomes(&mut self, next: Vec<u8>) -> Result<(), DeviceFault>
        requires whole { length next.items % 512 ≡ 0 }
        requires most { length next.items ≤ 2 ^ 62 }
        ensures ok { OnOk result ((present self.new ≡ record { now = next.items; synced = self.old.synced.items })
            × (past self.new ≡ past self.old ++ present self.old ∷ []) × (self.new.failures ≡ self.old.failures)) }
        ensures err { OnErr result ((present self.new ≡ present self.old) × (past self.new ≡ past self.old)
            × (self.old.failures ≤ self.new.failures) × ((self.old.failures < self.new.failures) ⊎ (self.new.failures ≡ 2 ^ 64 - 1))) }
    {
        if self.remember().is_err() {
            return Err(self.fail());
        }
        self.current = next;
        Ok(())
    }
}

impl Device for Recorded {
    ghost use Rattle.diskmodels.specs.Moments.{present, recorded_disk};
    ghost use Rattle.diskmodels.specs.ChangeLaws.{at_most};
    ghost use Rattle.diskmodels.specs.PastLaws.{now_counts, now_only};

    ghost disk = { recorded_disk };

    ghost whole = { λ device keeps. device.whole };

    ghost at_most = { λ device keeps. at_most (present device).now device.most };

    ghost counts_now = { λ device t c keeps le left. now_counts device t c left };

    ghost only_now = { λ device c keeps since. now_only device c since };

    fn len(&mut self) -> Result<u64, DeviceFault> {
        Ok((self.current.len() / SECTOR) as u64)
    }

    fn read(&mut self, at: u64, buffer: &mut [u8]) -> Result<(), DeviceFault> {
        let start = at as usize * SECTOR;
        buffer.copy_from_slice(&self.current[start..start + buffer.len()]);
        Ok(())
    }

    fn write(&mut self, at: u64, bytes: &[u8]) -> Result<(), DeviceFault> {
        let start = at as usize * SECTOR;
        if bytes.len() > MOST_BYTES - start {
            return Err(self.fail());
        }
        match written(self.alloc, &self.current, start, bytes) {
            Ok(next) => self.becomes(next),
            Err(_) => Err(self.fail()),
        }
    }

    fn cut(&mut self, sectors: u64) -> Result<(), DeviceFault> {
        let end = sectors as usize * SECTOR;
        match Vec::from_slice(self.alloc, &self.current[..end]) {
            Ok(next) => self.becomes(next),
            Err(_) => Err(self.fail()),
        }
    }

    fn sync(&mut self) -> Result<(), DeviceFault> {
        let kept = match Vec::from_slice(self.alloc, &self.current) {
            Ok(kept) => kept,
            Err(_) => return Err(self.fail()),
        };
        if self.remember().is_err() {
            return Err(self.fail());
        }
        self.synced = kept;
        Ok(())
    }
}
