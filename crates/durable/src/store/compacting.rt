//! Writing the next generation.

ghost use Rattle.std.specs.Prelude.{◌≡◌, ◌≢◌, ◌≤◌, ◌+◌, ◌-◌, ◌^◌, ◌<◌, ℕ, IsTrue, [], List, length, true, false, IfOk, OnOk, OnErr, IsErrOf, ◌⊎◌, ◌↔◌};
ghost use Rattle.checkpoint.specs.declared.writing.WriteFault.TheVariants as WriteFault;
ghost use Rattle.durable.specs.Compacted.{label_of};
ghost use Rattle.durable.specs.Rules.{rules_at};

use crate::compacted::Compacted;
use crate::fault::{Damage, Fault};
use crate::store::Store;
use checkpoint::{WriteFault, Written, write};
use decoded::Core;
use device::Device;
use gatelog::Log;
use paged::NextCheckpoint;
use roots::Label;
use std::alloc::Global;

// Whether this fault guarantees that nothing was written.
fn changed_nothing(fault: WriteFault) -> bool
    ensures { IsTrue result ↔ ((fault ≡ WriteFault.Memory) ⊎ (fault ≡ WriteFault.Exhausted)) }
{
    matches!(fault, WriteFault::Memory | WriteFault::Exhausted)
}

// The label of the root over whose pages this is held.
fn label_of(core: &Core) -> Label
    ensures { result ≡ label_of core.now }
{
    let rules = core.rules();
    Label {
        format: rules.format,
        revision: core.revision(),
        floor: rules.floor,
    }
}

impl<D: Device> Store<D> {
    ghost use Rattle.device.specs.Disk.{HasFailed};
    ghost use Rattle.device.specs.Run.{Ran, Stands};
    ghost use Rattle.std.specs.FinMap.{is_sorted};
    ghost use Rattle.device.specs.Step.{Same};
    ghost use Rattle.pages.specs.Page.{Entry, bytes_cmp};
    ghost use Rattle.checkpoint.specs.EntryList.{entries_of as in_list};
    ghost use Rattle.checkpoint.specs.Index.{keys_of};
    ghost use Rattle.checkpoint.specs.Pages.{IsIndex, pages_of_root};
    ghost use Rattle.chunks.specs.Chunks.{cut, HoldsWhole};
    ghost use Rattle.snapshots.specs.Keeping.{entries_of, held_entries, IsHeld, IsKeepable};
    ghost use Rattle.names.specs.Key.{Key};
    ghost use Rattle.snapshots.specs.HandedOn.{AreCellsBelow};
    ghost use Rattle.gatelog.specs.Log.{HoldsLog};
    ghost use Rattle.roots.specs.Root.{log_sector, HoldsRoot, MayHaveFloor};
    ghost use Rattle.names.specs.declared.format.Rules.{Rules};
    ghost use Rattle.histories.specs.View as seen;
    ghost use Rattle.holdings.specs.Holdings.{Shows};
    ghost use Rattle.decoded.specs.Decoded.{Decoded};
    ghost use Rattle.decoded.specs.Standing.{History, View, with_plans};
    ghost use Rattle.paged.specs.Lying.{base_of, is_rule};
    ghost use Rattle.paged.specs.Paged.{HasEntries};
    ghost use Rattle.durable.specs.declared.fault.Damage.{Damage};
    ghost use Rattle.durable.specs.declared.fault.Fault.TheVariants as Fault;
    ghost use Rattle.durable.specs.Called.{IsSteady, ServesOn};
    ghost use Rattle.durable.specs.Compacted.{IsToldOf, Keeps};
    ghost use Rattle.durable.specs.Rules.{rules_by};
    ghost use Rattle.durable.specs.Ready.{IsReadyAt, HoldsHistory};
    ghost use Rattle.durable.specs.Stands.{StandsFor};
    ghost use Rattle.durable.specs.Settled.{device_of, paged_of, root_of, log_of, serves, kept_rules, LiesUnder, LiesStill, IsShown, ServesAt, IsSettledAt, IsLeftAt, LeavesSome};

    /// Writes what the store shows as the next generation, with an empty log. What it shows stays as it is. An object without a change is written as it lies in
    /// the pages, and its text is not read: [`Store::check`] looks at it.
    ///
    /// # Errors
    ///
    /// `Memory`, and `Exhausted` only where the generation is 2^64 - 1: nothing changed. `Device` only where the device failed in this call: the
    /// old generation counts or the new one, and the store answers `Failed` from then on. `Damaged` where what was read of the device is damaged,
    /// never from a store that shows the view of a history, and it answers `Failed` from then on. `Failed` after a failure, with no call of the device.
    pub fn compact(&mut self, alloc: Global) -> Result<Compacted, Fault>
        ensures settled { (rules : Rules) (h : History) → IsSettledAt rules self.old h → OnOk result (IsSettledAt rules self.new h) }
        ensures serving { (rules : Rules) (v : View) → ServesAt rules self.old v → IsKeepable rules v → D.disk.keeps (device_of self.old)
            → OnOk result (ServesAt rules self.new v) }

        // The root that counts is the next one, and no record stands behind it.
        ensures counts { (rules : Rules) (h : History) → IsSettledAt rules self.old h
            → OnOk result (HoldsRoot (D.disk.content (device_of self.new)) (root_of self.new)
            × HoldsLog (log_sector (root_of self.new)) [] (log_sector (root_of self.new)) (D.disk.content (device_of self.new))) }
        ensures next { OnOk result ((root_of self.new).generation ≡ (root_of self.old).generation + 1) }
        ensures counted { (rules : Rules) (h : History) (settled : IsSettledAt rules self.old h)
            → OnOk result ((root_of self.new).generation ≡ settled.read.root.generation + 1) }
        ensures empty { OnOk result (((log_of self.new).first_gate_sector ≡ log_sector (root_of self.new)) × ((log_of self.new).last_gate_sector ≡ (log_of self.new).first_gate_sector)) }
        ensures told { IfOk result (IsToldOf (root_of self.new)) }
        ensures keeps_format { OnOk result ((root_of self.new).label.format ≡ (root_of self.old).label.format) }

        // Each entry in the pages that has an object's key is that of a cell.
        ensures are { (entries : List Entry) → HasEntries D.disk (device_of self.old) (paged_of self.old) entries
            → OnOk result ((cells : List (Key × List ℕ)) × AreCellsBelow is_rule (root_of self.old).label.format entries cells) }

        // At every moment a crash leaves the history.
        ensures any_moment { (rules : Rules) (h : History) → IsSettledAt rules self.old h → LeavesSome rules self.old self.new h [] }
        ensures device { (rules : Rules) (h : History) → IsSettledAt rules self.old h → IsErrOf result Fault.Device → IsLeftAt rules self.new h [] [] }

        ensures memory_serving { (rules : Rules) (v : View) → ServesAt rules self.old v → IsErrOf result Fault.Memory ⊎ IsErrOf result Fault.Exhausted
            → ServesAt rules self.new v }
        ensures memory { (rules : Rules) (h : History) → IsSettledAt rules self.old h → IsErrOf result Fault.Memory ⊎ IsErrOf result Fault.Exhausted
            → IsSettledAt rules self.new h × (D.disk.content (device_of self.new) ≡ D.disk.content (device_of self.old)) }
        ensures unchanged { IsErrOf result Fault.Memory ⊎ IsErrOf result Fault.Exhausted → Ran D.disk (device_of self.old) (device_of self.new) Same }
        ensures greatest { IsErrOf result Fault.Exhausted → (root_of self.old).generation ≡ 2 ^ 64 - 1 }

        // Damage is found only where no history is shown, and nothing is written then.
        ensures damaged { (damage : Damage) → IsErrOf result (Fault.Damaged damage) → (rules : Rules) (h : History) → IsSettledAt rules self.old h → ⊥ }
        ensures damaged_ran { (damage : Damage) → IsErrOf result (Fault.Damaged damage) → D.disk.keeps (device_of self.old)
            → Ran D.disk (device_of self.old) (device_of self.new) Same }

        ensures failed { serves self.old ≡ false → IsErrOf result Fault.Failed × (self.new ≡ self.old) }
        ensures failed_only { IsErrOf result Fault.Failed → serves self.old ≡ false }
        ensures goes_on { OnOk result (serves self.new ≡ true) }
        ensures memory_goes_on { IsErrOf result Fault.Memory ⊎ IsErrOf result Fault.Exhausted → serves self.new ≡ serves self.old }
        ensures stops { IsErrOf result Fault.Device → serves self.new ≡ false }
        ensures damaged_stops { (damage : Damage) → IsErrOf result (Fault.Damaged damage) → serves self.new ≡ false }
        ensures cause { IsErrOf result Fault.Device → HasFailed D.disk (device_of self.old) (device_of self.new) }
        ensures count { D.disk.failures (device_of self.old) ≤ D.disk.failures (device_of self.new) }
        ensures steady { OnOk result (IsSteady self.old self.new) }
        ensures unfailed { IsErrOf result Fault.Memory ⊎ IsErrOf result Fault.Exhausted → IsSteady self.old self.new }
    {
        if !self.serves {
            return Err(Fault::Failed);
        }
        let next = self.next(alloc)?;
        self.write_next(alloc, next)
    }

    // What the next generation has: what no change covers is handed on. Where the device fails, or what is read of it is damaged, the store serves no more.
    fn next(&mut self, alloc: Global) -> Result<NextCheckpoint, Fault>
        requires serves { serves self.old ≡ true }
        ensures entries { (v : View) → IsShown self.old v → IfOk result (λ n. in_list n.entries ≡ cut (kept_rules self.old).format (entries_of v)) }
        ensures ascending { IfOk result (λ n. IsTrue (is_sorted bytes_cmp (in_list n.entries))) }
        ensures rules { IfOk result (λ n. n.core.rules ≡ kept_rules self.old) }
        ensures held { (v : View) → IsShown self.old v → IsKeepable (kept_rules self.old) v
            → IfOk result (λ n. Shows n.core (base_of (with_plans v)) (with_plans v)) }
        ensures are { (entries : List Entry) → HasEntries D.disk (device_of self.old) (paged_of self.old) entries
            → OnOk result ((cells : List (Key × List ℕ)) × AreCellsBelow is_rule (root_of self.old).label.format entries cells) }
        ensures damaged { (damage : Damage) → IsErrOf result (Fault.Damaged damage) → (v : View) → IsShown self.old v → IsKeepable (kept_rules self.old) v → ⊥ }
        ensures core { self.new.paged.core ≡ self.old.paged.core }
        ensures root { root_of self.new ≡ root_of self.old }
        ensures lies { LiesStill self.old self.new }
        ensures device { Ran D.disk (device_of self.old) (device_of self.new) Same }
        ensures leaves { ServesOn self.old self.new result }
    {
        let next = match self.paged.next_handed_on(alloc, &mut self.device) {
            Ok(next) => next,
            Err(fault) => return Err(self.met(fault)),
        };
        if next.entries.ascends() {
            return Ok(next);
        }
        drop(next);
        Err(self.stop_for(Fault::Damaged(Damage::Entry)))
    }

    /// Writes the next generation, whose entries ascend: a crash leaves the history that stood, or the one that it keeps. After a failure the store serves
    /// no more.
    pub(super) fn write_next(
        &mut self,
        alloc: Global,
        next: NextCheckpoint,
    ) -> Result<Compacted, Fault>
        requires serves { serves self.old ≡ true }
        requires ascending { IsTrue (is_sorted bytes_cmp (in_list next.entries)) }
        requires numbers { next.core.rules ≡ rules_by (label_of next.core) }
        requires floor { MayHaveFloor (label_of next.core).format (label_of next.core).floor }
        ensures core { OnOk result (self.new.paged.core ≡ next.core) }
        ensures label { OnOk result ((root_of self.new).label ≡ label_of next.core) }
        ensures lies { (rules : Rules) (v : View) → IsKeepable rules v → D.disk.keeps (device_of self.old) → in_list next.entries ≡ cut next.core.rules.format (entries_of v)
            → OnOk result (LiesUnder self.new (base_of (with_plans v))) }
        ensures paged { OnErr result (self.new.paged ≡ self.old.paged) }
        ensures stands { (rules next_rules : Rules) (h next_h : History) → HoldsHistory rules D.disk (device_of self.old) h → Keeps next next_rules next_h
            → Stands D.disk (device_of self.old) (device_of self.new) (λ c. StandsFor rules c h ⊎ StandsFor next_rules c next_h)
            (λ c. StandsFor rules c h ⊎ StandsFor next_rules c next_h) }
        ensures written { (rules next_rules : Rules) (h next_h : History) → HoldsHistory rules D.disk (device_of self.old) h → Keeps next next_rules next_h
            → OnOk result (Stands D.disk (device_of self.old) (device_of self.new) (λ c. StandsFor rules c h ⊎ StandsFor next_rules c next_h)
            (λ c. StandsFor next_rules c next_h)) }
        ensures counts { (rules next_rules : Rules) (h next_h : History) → HoldsHistory rules D.disk (device_of self.old) h → Keeps next next_rules next_h
            → OnOk result (HoldsRoot (D.disk.content (device_of self.new)) (root_of self.new)
            × HoldsLog (log_sector (root_of self.new)) [] (log_sector (root_of self.new)) (D.disk.content (device_of self.new))) }
        ensures damaged { (rules next_rules : Rules) (h next_h : History) (damage : Damage) → HoldsHistory rules D.disk (device_of self.old) h → Keeps next next_rules next_h
            → IsErrOf result (Fault.Damaged damage) → ⊥ }
        ensures damaged_ran { (damage : Damage) → IsErrOf result (Fault.Damaged damage) → D.disk.keeps (device_of self.old)
            → Ran D.disk (device_of self.old) (device_of self.new) Same }
        ensures damaged_stops { (damage : Damage) → IsErrOf result (Fault.Damaged damage) → serves self.new ≡ false }
        ensures next { OnOk result ((root_of self.new).generation ≡ (root_of self.old).generation + 1) }
        ensures empty { OnOk result (((log_of self.new).first_gate_sector ≡ log_sector (root_of self.new)) × ((log_of self.new).last_gate_sector ≡ (log_of self.new).first_gate_sector)) }
        ensures told { IfOk result (IsToldOf (root_of self.new)) }
        ensures serves { OnOk result (serves self.new ≡ true) }
        ensures unchanged { IsErrOf result Fault.Memory ⊎ IsErrOf result Fault.Exhausted
            → Ran D.disk (device_of self.old) (device_of self.new) Same × (serves self.new ≡ true) }
        ensures greatest { IsErrOf result Fault.Exhausted → (root_of self.old).generation ≡ 2 ^ 64 - 1 }
        ensures stops { IsErrOf result Fault.Device → serves self.new ≡ false }
        ensures refusal { result ≢ Err Fault.Failed }
        ensures cause { IsErrOf result Fault.Device → HasFailed D.disk (device_of self.old) (device_of self.new) }
        ensures count { D.disk.failures (device_of self.old) ≤ D.disk.failures (device_of self.new) }
        ensures steady { OnOk result (IsSteady self.old self.new) }
        ensures unfailed { IsErrOf result Fault.Memory ⊎ IsErrOf result Fault.Exhausted → IsSteady self.old self.new }
    {
        self.serves = false;
        let NextCheckpoint { mut entries, core } = next;
        let last_gate_sector = self.log.last_gate_sector();
        let label = label_of(&core);
        match write(
            alloc,
            &mut self.device,
            self.paged.root(),
            last_gate_sector,
            label,
            &mut entries,
        ) {
            Ok(written) => Ok(self.start_over(alloc, written, core)),
            Err(fault) => {
                drop(core);
                self.serves = changed_nothing(fault);
                Err(Fault::from(fault))
            }
        }
    }

    // Begins the generation of a root that counts, whose log is empty, with what is held over its pages.
    fn start_over(&mut self, alloc: Global, written: Written, core: Core) -> Compacted
        requires in_data { 8 ≤ written.root.first_sector }
        requires room { log_sector written.root < 2 ^ 54 }
        requires counted { length written.first_keys.items ≡ written.root.pages }
        requires numbers { core.rules ≡ rules_at written.root }
        requires floor { MayHaveFloor written.root.label.format written.root.label.floor }
        requires in_use { D.disk.keeps (device_of self.old) → ∥ IsReadyAt D.disk (device_of self.old) written.root ∥₁ }
        ensures core { self.new.paged.core ≡ core }
        ensures lies { (rules : Rules) (held : seen.View Decoded) → IsHeld rules held
            → IsIndex (keys_of written.first_keys.items) (pages_of_root written.root (D.disk.content (device_of self.old))) → D.disk.keeps (device_of self.old)
            → HoldsWhole (D.disk.content (device_of self.old)) written.root (held_entries held) → LiesUnder self.new (base_of held) }
        ensures device { device_of self.new ≡ device_of self.old }
        ensures root { root_of self.new ≡ written.root }
        ensures empty { ((log_of self.new).first_gate_sector ≡ log_sector written.root) × ((log_of self.new).last_gate_sector ≡ log_sector written.root) }
        ensures told { IsToldOf written.root result }
        ensures serves { serves self.new ≡ true }
    {
        let Written { root, first_keys } = written;
        self.log = Log::restart(&self.device, root.log_sector());
        self.paged
            .start_over(alloc, &self.device, root, first_keys, core);
        self.serves = true;
        Compacted {
            generation: root.generation,
            pages: root.pages,
            first_sector: root.first_sector,
        }
    }
}
