//! Compactions of a store between the turns that serve it.

ghost use Rattle.std.specs.Prelude.{◌≡◌, ◌+◌, ◌-◌, ◌*◌, ◌^◌, ◌⊎◌, min, [], true, false, Some, None, Ok, IfOk, OnOk, OnErr, string_bytes};
ghost use Rattle.names.specs.declared.format.Rules.{Rules};
ghost use Rattle.decoded.specs.Standing.{History};
ghost use Rattle.durable.specs.declared.compacted.Compacted.{Compacted as CompactedData};
ghost use Rattle.durable.specs.Compacted.{IsToldOf};
ghost use Rattle.durable.specs.Settled.{root_of, serves, IsSettledAt, IsLeftAt, LeavesSome};
ghost use Rattle.httpmsg.specs.Flow.{TookSome};
ghost use Rattle.clients.specs.Compacting.{log_sectors, due_sectors, is_due, compacted_line};

use device::Device;
use durable::{Compacted, Fault, Store};
use httpmsg::{Output, write_all};
use std::alloc::{AllocError, Global};

// A log of fewer sectors is left as it is, whatever pages there are: 8 MiB.
const LEAST_LOG_SECTORS: u64 = 16384;

const PAGE_SECTORS: u64 = 64;

// The number of sectors of a log from which on a store with this number of pages is compacted.
fn due_sectors(times: u16, pages: u32) -> u64
    ensures { result ≡ due_sectors times pages }
{
    LEAST_LOG_SECTORS.max(PAGE_SECTORS * u64::from(pages) * u64::from(times))
}

/// When a store is compacted while it serves.
#[derive(Drop)]
pub(crate) struct Compacting {
    // How many times as many sectors as the pages the log has then; never where it is `None`.
    times: Option<u16>,
    // A log of fewer sectors is left as it is, since the last compaction was refused memory.
    put_off_sectors: u64,
}

impl Compacting {
    /// Nothing is put off.
    pub(crate) fn new(times: Option<u16>) -> Compacting
        ensures { result ≡ record { times = times; put_off_sectors = 0 } }
    {
        Compacting {
            times,
            put_off_sectors: 0,
        }
    }

    // Whether a store is to be compacted.
    fn is_due<D: Device>(&self, store: &Store<D>) -> bool
        ensures { result ≡ is_due self.now.times self.now.put_off_sectors (log_sectors store.now) (root_of store.now).pages }
    {
        let Some(times) = self.times else {
            return false;
        };
        let log = store.log_sectors();
        self.put_off_sectors <= log && due_sectors(times, store.page_count()) <= log
    }

    // A compaction was refused memory: the next one is tried once the log is twice as long.
    fn put_off(&mut self, log_sectors: u64)
        ensures times { self.new.times ≡ self.old.times }
        ensures later { self.new.put_off_sectors ≡ min (log_sectors * 2) (2 ^ 64 - 1) }
    {
        self.put_off_sectors = log_sectors.saturating_mul(2);
    }

    /// Compacts a store where that is due. What it shows stays as it is. It tells of the generation that was written; of none where it was not due, where memory
    /// was refused, which puts it off until the log is twice as long, or where there is no next generation.
    ///
    /// # Errors
    ///
    /// Those of [`Store::compact`] after which it serves no more.
    pub(crate) fn compact<D: Device>(
        &mut self,
        alloc: Global,
        store: &mut Store<D>,
    ) -> Result<Option<Compacted>, Fault>
        ensures times { self.new.times ≡ self.old.times }
        ensures idle { is_due self.old.times self.old.put_off_sectors (log_sectors store.old) (root_of store.old).pages ≡ false
            → (result ≡ Ok None) × ((store.new ≡ store.old) × (self.new ≡ self.old)) }
        ensures told { IfOk result (λ done. (c : CompactedData) → done ≡ Some c
            → IsToldOf (root_of store.new) c × (((root_of store.new).generation ≡ (root_of store.old).generation + 1) × (log_sectors store.new ≡ 0))) }
        ensures put_off { is_due self.old.times self.old.put_off_sectors (log_sectors store.old) (root_of store.old).pages ≡ true
            → IfOk result (λ done. done ≡ None
            → (self.new.put_off_sectors ≡ min (log_sectors store.old * 2) (2 ^ 64 - 1)) ⊎ ((root_of store.old).generation ≡ 2 ^ 64 - 1)) }
        ensures kept { (rules : Rules) (h : History) → IsSettledAt rules store.old h → OnOk result (IsSettledAt rules store.new h) }
        ensures moments { (rules : Rules) (h : History) → IsSettledAt rules store.old h → LeavesSome rules store.old store.new h [] }
        ensures left { (rules : Rules) (h : History) → IsSettledAt rules store.old h → OnErr result (IsLeftAt rules store.new h [] []) }
        ensures stops { OnErr result (serves store.new ≡ false) }
    {
        if !self.is_due(store) {
            return Ok(None);
        }
        let log_sectors = store.log_sectors();
        match store.compact(alloc) {
            Ok(compacted) => {
                self.put_off_sectors = 0;
                Ok(Some(compacted))
            }
            Err(Fault::Memory) => {
                self.put_off(log_sectors);
                Ok(None)
            }
            Err(Fault::Exhausted) => {
                self.put_off_sectors = u64::MAX;
                Ok(None)
            }
            Err(Fault::Device) => Err(Fault::Device),
            Err(Fault::Damaged(damage)) => Err(Fault::Damaged(damage)),
            Err(Fault::Failed) => Err(Fault::Failed),
        }
    }
}

// The line of a generation that was written.
fn compacted_line(alloc: Global, compacted: Compacted) -> Result<String, AllocError>
    ensures { IfOk result (λ line. string_bytes line ≡ compacted_line compacted) }
{
    let Compacted {
        generation,
        pages,
        first_sector,
    } = compacted;
    format!(in alloc;
        "gated: compacted: generation {generation}, {pages} pages at sector {first_sector}\n"
    )
}

/// Tells of a generation that was written, if one was, in a line. A line that cannot be made or written is lost, and stops nothing.
pub(crate) fn tell_compacted<L: Output>(alloc: Global, compacted: Option<Compacted>, log: &mut L)
    ensures none { compacted ≡ None → log.new ≡ log.old }
    ensures told { (c : CompactedData) → compacted ≡ Some c → (log.new ≡ log.old) ⊎ TookSome L.took log.old log.new (compacted_line c) }
{
    let Some(compacted) = compacted else {
        return;
    };
    if let Ok(line) = compacted_line(alloc, compacted) {
        let _ = write_all(log, line.as_bytes());
    }
}
