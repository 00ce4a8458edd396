//! A store of objects on a device: what it is, what it tells of itself, and how it stops.

mod applying;
mod checking;
mod compacting;
mod opening;
mod running;
mod upgrading;

ghost use Rattle.std.specs.Prelude.{◌≡◌, ◌≤◌, ◌-◌, true, false, ℕ, List, length};
ghost use Rattle.durable.specs.Ready.{IsReady};
ghost use Rattle.durable.specs.Rules.{rules_at};
ghost use Rattle.paged.specs.Paged.{root_of as paged_root};
ghost use Rattle.roots.specs.Root.{MayHaveFloor};

use crate::fault::{Damage, Fault};
use device::{Device, MemDevice};
use gatelog::Log;
use names::Format;
use objects::LookupFault;
use paged::Paged;

/// A store of objects on a device.
#[derive(Drop)]
pub struct Store<D: Device> {
    device: D,
    paged: Paged,
    log: Log,
    serves: bool,
    ghost numbers: { paged.core.rules ≡ rules_at (paged_root paged) },
    ghost floor: { MayHaveFloor (paged_root paged).label.format (paged_root paged).label.floor },
    ghost in_data: { 8 ≤ log.first_gate_sector },
    ghost works: { serves ≡ true → log.failed ≡ false },
    ghost ready: { serves ≡ true → D.disk.keeps device → ∥ IsReady D.disk device (paged_root paged) log ∥₁ },
}

impl<D: Device> Store<D> {
    ghost use Rattle.names.specs.declared.format.Rules.{Rules};
    ghost use Rattle.decoded.specs.Standing.{View};
    ghost use Rattle.durable.specs.Faults.{of_lookup_fault, goes_on_after};
    ghost use Rattle.durable.specs.Settled.{device_of, log_of, root_of, serves, kept_rules, revision_of, Holds, ServesAt};
    ghost use Rattle.gatelog.specs.Log.{HoldsLog};
    ghost use Rattle.histories.specs.View as seen;
    ghost use Rattle.decoded.specs.Decoded.{Decoded};

    /// Whether the store serves: it does until its device fails, or damage is found.
    #[must_use]
    pub fn settled(&self) -> bool
        ensures { result ≡ serves self.now }
    {
        self.serves
    }

    /// The revision that the store shows.
    #[must_use]
    pub fn revision(&self) -> u64
        ensures value { result ≡ revision_of self.now }
        ensures shown { (rules : Rules) (v : View) → ServesAt rules self.now v → result ≡ v.revision }
    {
        self.paged.revision()
    }

    /// The format of the store's file, which its root tells.
    #[must_use]
    pub fn format(&self) -> Format
        ensures value { result ≡ (kept_rules self.now).format }
        ensures told { result ≡ (root_of self.now).label.format }
    {
        self.paged.root().label.format
    }

    /// How many objects the store has.
    #[must_use]
    pub fn object_count(&self) -> usize
        ensures { (held : seen.View Decoded) → Holds self.now held → result ≡ length held.objects }
    {
        self.paged.core().object_count()
    }

    /// How many records the log behind the pages has: one for each group of writes since the last checkpoint. Nothing is read.
    #[must_use]
    pub fn record_count(&self) -> u64
        ensures value { result ≡ (log_of self.now).record_count }
        ensures counted { serves self.now ≡ true → D.disk.keeps (device_of self.now) → (payloads : List (List ℕ))
            → HoldsLog (log_of self.now).first_gate_sector payloads (log_of self.now).last_gate_sector (D.disk.content (device_of self.now))
            → result ≡ length payloads }
    {
        self.log.record_count()
    }

    /// How many sectors the records of its log have, with their gates.
    #[must_use]
    pub fn log_sectors(&self) -> u64
        ensures { result ≡ (log_of self.now).last_gate_sector - (log_of self.now).first_gate_sector }
    {
        self.log
            .last_gate_sector()
            .saturating_sub(self.log.first_gate_sector())
    }

    /// How many pages of 64 sectors it has.
    #[must_use]
    pub fn page_count(&self) -> u32
        ensures { result ≡ (root_of self.now).pages }
    {
        self.paged.root().pages
    }

    // The generation of the root that counts.
    fn generation(&self) -> u64
        ensures { result ≡ (root_of self.now).generation }
    {
        self.paged.root().generation
    }

    /// The device, to be opened again.
    #[must_use]
    pub fn into_device(self) -> D
        ensures { result ≡ device_of self }
    {
        let Store {
            device,
            paged,
            log,
            ..
        } = self;
        drop(paged);
        drop(log);
        device
    }

    // Stops serving, for this fault.
    fn stop_for(&mut self, fault: Fault) -> Fault
        ensures fault { result ≡ fault }
        ensures paged { self.new.paged ≡ self.old.paged }
        ensures device { device_of self.new ≡ device_of self.old }
        ensures stops { serves self.new ≡ false }
    {
        self.serves = false;
        fault
    }

    // Maps a lookup fault. All faults but `Memory` stop the store.
    fn met(&mut self, fault: LookupFault) -> Fault
        requires serves { serves self.old ≡ true }
        ensures fault { result ≡ of_lookup_fault fault }
        ensures paged { self.new.paged ≡ self.old.paged }
        ensures device { device_of self.new ≡ device_of self.old }
        ensures serves { serves self.new ≡ goes_on_after fault }
    {
        match fault {
            LookupFault::Memory => Fault::Memory,
            LookupFault::Device => self.stop_for(Fault::Device),
            LookupFault::Damaged(part) => self.stop_for(Fault::Damaged(Damage::from(part))),
        }
    }
}

impl Store<MemDevice> {
    ghost use Rattle.device.specs.Memory.{memory};
    ghost use Rattle.names.specs.declared.format.Rules.{Rules};
    ghost use Rattle.decoded.specs.Standing.{History};
    ghost use Rattle.durable.specs.Settled.{device_of, IsSettledAt};

    /// From the n-th device call from now on all fail; 0 asks for none. Nothing else changes.
    pub fn stop_on(&mut self, n: u64)
        ensures asked { memory (device_of self.new) ≡ record (memory (device_of self.old)) { script = record (device_of self.old).script { stop_in = n } } }
        ensures paged { self.new.paged ≡ self.old.paged }
        ensures settled { (rules : Rules) (h : History) → IsSettledAt rules self.old h → IsSettledAt rules self.new h }
    {
        self.device.stop_on(n);
    }
}
