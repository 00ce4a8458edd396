//! Writing the next generation in the newest format.

ghost use Rattle.std.specs.Prelude.{◌≡◌, ◌≢◌, ◌≤◌, ◌+◌, IsTrue, [], length, true, false, None, Some, IfOk, OnOk, IsErrOf};

use crate::fault::{Damage, Fault};
use crate::store::Store;
use crate::upgraded::{UpgradeFault, Upgraded};
use decoded::{is_newest, upgrades_follow};
use device::Device;
use paged::{NextFault, NextUpgraded};
use std::alloc::Global;

impl<D: Device> Store<D> {
    ghost use Rattle.device.specs.Disk.{HasFailed, LeavesOnly};
    ghost use Rattle.device.specs.Run.{Ran};
    ghost use Rattle.std.specs.FinMap.{is_sorted};
    ghost use Rattle.device.specs.Step.{Same};
    ghost use Rattle.pages.specs.Page.{bytes_cmp};
    ghost use Rattle.checkpoint.specs.EntryList.{entries_of as in_list};
    ghost use Rattle.gatelog.specs.Log.{HoldsLog};
    ghost use Rattle.roots.specs.Root.{log_sector, HoldsRoot};
    ghost use Rattle.names.specs.declared.format.Rules.{Rules};
    ghost use Rattle.histories.specs.View.{view};
    ghost use Rattle.holdings.specs.Holdings.{Shows};
    ghost use Rattle.decoded.specs.Standing.{History, View, with_plans};
    ghost use Rattle.decoded.specs.Upgraded.{is_newest, upgraded_rules, new_names, rules_behind, upgraded_history, upgraded_revision, HasRoomForUpgrade};
    ghost use Rattle.paged.specs.Lying.{base_of};
    ghost use Rattle.durable.specs.declared.fault.Damage.{Damage};
    ghost use Rattle.durable.specs.declared.upgraded.UpgradeFault.{UpgradeFault as UpgradeFaultData};
    ghost use Rattle.durable.specs.declared.upgraded.UpgradeFault.TheVariants as UpgradeFault;
    ghost use Rattle.durable.specs.Upgraded.{StandsForEither, IsLeftEither, IsToldOfUpgrade, refusals, first_of, IsRefusal, IsUnchanged};
    ghost use Rattle.durable.specs.Called.{IsSteady};
    ghost use Rattle.durable.specs.Compacted.{Keeps};
    ghost use Rattle.durable.specs.Settled.{device_of, root_of, format_of, log_of, serves, kept_rules, revision_of, LiesStill, ServesAt, IsSettledAt};

    /// Writes what the store shows as its next generation in the newest format, with an empty log. Where namespaces were no objects it has a Namespace for each
    /// that objects stand in.
    ///
    /// # Errors
    ///
    /// `NotOld`, `TooManyObjects` and `RevisionExhausted`, the first of these that holds, and `Memory`: nothing changed. `Device` only where the device failed
    /// in this call: the store stands as it was, or upgraded. `Damaged` where what was read of the device is damaged, and never from a store that shows the
    /// view of a history. From both on the store answers `Failed`. `Failed` after a failure, with no call of the device.
    pub fn upgrade(&mut self, alloc: Global) -> Result<Upgraded, UpgradeFault>
        ensures settled { (rules : Rules) (h : History) → IsSettledAt rules self.old h → OnOk result (IsSettledAt (rules_behind rules h) self.new (upgraded_history rules h)) }

        // At every moment a crash leaves the history as it was, or as it is upgraded.
        ensures any_moment { (rules : Rules) (h : History) → IsSettledAt rules self.old h
            → LeavesOnly D.disk (device_of self.old) (device_of self.new) (StandsForEither rules h) }
        ensures device { (rules : Rules) (h : History) → IsSettledAt rules self.old h → IsErrOf result UpgradeFault.Device → IsLeftEither rules self.new h }

        // What is told, and refused.
        ensures told { (rules : Rules) (v : View) → ServesAt rules self.old v → IfOk result (IsToldOfUpgrade rules v (root_of self.new)) }
        ensures refused { (rules : Rules) (v : View) → ServesAt rules self.old v → (f : UpgradeFaultData) → IsRefusal f → IsErrOf result f
            → first_of (refusals rules v (root_of self.old)) ≡ Some f }
        ensures unrefused { (rules : Rules) (v : View) → ServesAt rules self.old v → OnOk result (first_of (refusals rules v (root_of self.old)) ≡ None) }
        ensures newest { serves self.old ≡ true → is_newest (format_of self.old) ≡ true → (result ≡ Err UpgradeFault.NotOld) × (self.new ≡ self.old) }

        // The root that counts is the next one, of the newest format, and no record stands behind it.
        ensures counts { (rules : Rules) (h : History) → IsSettledAt rules self.old h
            → OnOk result (HoldsRoot (D.disk.content (device_of self.new)) (root_of self.new)
            × HoldsLog (log_sector (root_of self.new)) [] (log_sector (root_of self.new)) (D.disk.content (device_of self.new))) }
        ensures next { OnOk result ((root_of self.new).generation ≡ (root_of self.old).generation + 1) }
        ensures format { OnOk result (is_newest (format_of self.new) ≡ true) }
        ensures empty { OnOk result (((log_of self.new).first_gate_sector ≡ log_sector (root_of self.new)) × ((log_of self.new).last_gate_sector ≡ (log_of self.new).first_gate_sector)) }

        // Where nothing changed, nothing did at any moment.
        ensures unchanged { IsUnchanged result → Ran D.disk (device_of self.old) (device_of self.new) Same × (serves self.new ≡ serves self.old) }
        ensures unchanged_serving { (rules : Rules) (v : View) → ServesAt rules self.old v → IsUnchanged result → ServesAt rules self.new v }
        ensures unchanged_settled { (rules : Rules) (h : History) → IsSettledAt rules self.old h → IsUnchanged result → IsSettledAt rules self.new h }

        // Damage is found only where no history is shown, and nothing is written then.
        ensures damaged { (damage : Damage) → IsErrOf result (UpgradeFault.Damaged damage) → (rules : Rules) (h : History) → IsSettledAt rules self.old h → ⊥ }
        ensures damaged_ran { (damage : Damage) → IsErrOf result (UpgradeFault.Damaged damage) → D.disk.keeps (device_of self.old)
            → Ran D.disk (device_of self.old) (device_of self.new) Same }

        ensures failed { serves self.old ≡ false → IsErrOf result UpgradeFault.Failed × (self.new ≡ self.old) }
        ensures failed_only { IsErrOf result UpgradeFault.Failed → serves self.old ≡ false }
        ensures goes_on { OnOk result (serves self.new ≡ true) }
        ensures stops { IsErrOf result UpgradeFault.Device → serves self.new ≡ false }
        ensures damaged_stops { (damage : Damage) → IsErrOf result (UpgradeFault.Damaged damage) → serves self.new ≡ false }
        ensures cause { IsErrOf result UpgradeFault.Device → HasFailed D.disk (device_of self.old) (device_of self.new) }
        ensures count { D.disk.failures (device_of self.old) ≤ D.disk.failures (device_of self.new) }
        ensures steady { OnOk result (IsSteady self.old self.new) }
        ensures unfailed { IsUnchanged result → IsSteady self.old self.new }
    {
        if !self.serves {
            return Err(UpgradeFault::Failed);
        }
        if is_newest(self.format()) {
            return Err(UpgradeFault::NotOld);
        }
        let NextUpgraded {
            next,
            revision,
            namespaces,
        } = self.next_upgraded(alloc)?;
        match self.write_next(alloc, next) {
            Ok(_) => Ok(Upgraded {
                format: self.format(),
                generation: self.generation(),
                revision,
                namespaces,
            }),
            Err(fault) => Err(UpgradeFault::from(fault)),
        }
    }

    // What the next generation has where the store is upgraded. Where the device fails, or what is read of it is damaged, the store serves no more.
    fn next_upgraded(&mut self, alloc: Global) -> Result<NextUpgraded, UpgradeFault>
        requires serves { serves self.old ≡ true }
        requires old { is_newest (format_of self.old) ≡ false }
        ensures keeps { (rules : Rules) (h : History) → IsSettledAt rules self.old h → IfOk result (λ n. Keeps n.next (rules_behind rules h) (upgraded_history rules h)) }
        ensures held { (rules : Rules) (h : History) → IsSettledAt rules self.old h
            → IfOk result (λ n. let v = view (rules_behind rules h) (upgraded_history rules h) in Shows n.next.core (base_of (with_plans v)) (with_plans v)) }
        ensures seen { (rules : Rules) (v : View) → ServesAt rules self.old v
            → IfOk result (λ n. (n.revision ≡ upgraded_revision rules v) × (n.namespaces ≡ length (new_names rules v))) }
        ensures ascending { IfOk result (λ n. IsTrue (is_sorted bytes_cmp (in_list n.next.entries))) }
        ensures rules { IfOk result (λ n. n.next.core.rules ≡ upgraded_rules (kept_rules self.old) (revision_of self.old)) }
        ensures refused { (rules : Rules) (v : View) → ServesAt rules self.old v → (f : UpgradeFaultData) → IsRefusal f → IsErrOf result f
            → first_of (refusals rules v (root_of self.old)) ≡ Some f }
        ensures room { (rules : Rules) (v : View) → ServesAt rules self.old v → OnOk result (HasRoomForUpgrade rules v) }
        ensures damaged { (damage : Damage) → IsErrOf result (UpgradeFault.Damaged damage) → (rules : Rules) (h : History) → IsSettledAt rules self.old h → ⊥ }
        ensures core { self.new.paged.core ≡ self.old.paged.core }
        ensures root { root_of self.new ≡ root_of self.old }
        ensures lies { LiesStill self.old self.new }
        ensures device { Ran D.disk (device_of self.old) (device_of self.new) Same }
        ensures goes_on { OnOk result (serves self.new ≡ true) }
        ensures unchanged { IsUnchanged result → serves self.new ≡ true }
        ensures stops { IsErrOf result UpgradeFault.Device → serves self.new ≡ false }
        ensures damaged_stops { (damage : Damage) → IsErrOf result (UpgradeFault.Damaged damage) → serves self.new ≡ false }
        ensures refusal { result ≢ Err UpgradeFault.Failed }
        ensures cause { IsErrOf result UpgradeFault.Device → HasFailed D.disk (device_of self.old) (device_of self.new) }
        ensures steady { OnOk result (IsSteady self.old self.new) }
        ensures unfailed { IsUnchanged result → IsSteady self.old self.new }
    {
        upgrades_follow();
        let upgraded = match self.paged.next_upgraded(alloc, &mut self.device) {
            Ok(upgraded) => upgraded,
            Err(NextFault::TooManyObjects) => return Err(UpgradeFault::TooManyObjects),
            Err(NextFault::RevisionExhausted) => return Err(UpgradeFault::RevisionExhausted),
            Err(NextFault::Lookup(fault)) => return Err(UpgradeFault::from(self.met(fault))),
        };
        if upgraded.next.entries.ascends() {
            return Ok(upgraded);
        }
        drop(upgraded);
        Err(UpgradeFault::from(self.stop_for(Fault::Damaged(Damage::Entry))))
    }
}
