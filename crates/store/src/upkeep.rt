//! What is done with a whole store: it is written anew, it is upgraded, and it is checked.

ghost use Rattle.std.specs.Prelude.{◌≡◌, ◌≢◌, ◌⊎◌, Some, IfOk, IfErr};
ghost use Rattle.device.specs.Disk.{HasFailed};
ghost use Rattle.names.specs.declared.format.Rules.{Rules};
ghost use Rattle.histories.specs.View.{view};
ghost use Rattle.decoded.specs.Standing.{History};
ghost use Rattle.durable.specs.declared.fault.Damage.{Damage as DamageData};
ghost use Rattle.durable.specs.declared.fault.Fault.TheVariants as FaultData;
ghost use Rattle.durable.specs.declared.upgraded.UpgradeFault.TheVariants as UpgradeFaultData;
ghost use Rattle.durable.specs.Ready.{HoldsHistory};
ghost use Rattle.durable.specs.ReadWhole.{HoldsWellFormed};
ghost use Rattle.durable.specs.Upgraded.{refusals, first_of, IsRefusal};
ghost use Rattle.store.specs.Upkeep.{KeepsHistory, IsWrittenAnew, IsUpgraded, IsEither, IsToldUpgraded, IsToldOfHistory};

use device::Device;
use durable::{Checked, Compacted, Fault, Store, UpgradeFault, Upgraded};
use std::alloc::Global;

/// Opens the store on a device, writes what it shows as the next generation, with an empty log, and gives the device back.
///
/// # Errors
///
/// `Device` only where the device failed in this call; `Memory`; `Exhausted` where there is no next generation; `Damaged`, of no device that holds a history. A
/// device that holds a history holds it afterwards, whatever is answered.
pub fn compact<D: Device>(alloc: Global, device: D) -> Result<(Compacted, D), (Fault, D)>
    ensures ok { (rules : Rules) (h : History) → HoldsHistory rules D.disk device h → IfOk result (λ done. KeepsHistory rules D.disk device done.1 h) }
    ensures written { (rules : Rules) (h : History) (holds : HoldsHistory rules D.disk device h)
        → IfOk result (λ done. IsWrittenAnew (D.disk.content done.1) holds.read.root done.0) }
    ensures failed { (rules : Rules) (h : History) → HoldsHistory rules D.disk device h → IfErr result (λ e. KeepsHistory rules D.disk device e.1 h) }
    ensures undamaged { (rules : Rules) (h : History) → HoldsHistory rules D.disk device h
        → IfErr result (λ e. (damage : DamageData) → e.0 ≢ FaultData.Damaged damage) }
    ensures never_failed { IfErr result (λ e. e.0 ≢ FaultData.Failed) }
    ensures cause { IfErr result (λ e. e.0 ≡ FaultData.Device → HasFailed D.disk device e.1) }
    ensures steady { IfOk result (λ done. D.disk.failures done.1 ≡ D.disk.failures device) }
    ensures unfailed { IfErr result (λ e. (e.0 ≡ FaultData.Memory) ⊎ (e.0 ≡ FaultData.Exhausted) → D.disk.failures e.1 ≡ D.disk.failures device) }
{
    let mut store = match Store::open(alloc, device) {
        Ok(store) => store,
        Err((fault, device)) => return Err((fault, device)),
    };
    match store.compact(alloc) {
        Ok(compacted) => Ok((compacted, store.into_device())),
        Err(fault) => Err((fault, store.into_device())),
    }
}

/// Opens the store on a device, writes what it shows as the next generation in the newest format, and gives the device back. Where namespaces were no objects the
/// next generation has a Namespace for each that objects stand in.
///
/// # Errors
///
/// `NotOld`, `TooManyObjects` and `RevisionExhausted`, the first of these that holds; `Device` only where the device failed in this call; `Memory`; `Damaged`, of no
/// device that holds a history. A device that holds a history holds it afterwards, or as it is upgraded, the second only after `Device`.
pub fn upgrade<D: Device>(alloc: Global, device: D) -> Result<(Upgraded, D), (UpgradeFault, D)>
    ensures ok { (rules : Rules) (h : History) → HoldsHistory rules D.disk device h → IfOk result (λ done. IsUpgraded rules D.disk device done.1 h) }
    ensures told { (rules : Rules) (h : History) (holds : HoldsHistory rules D.disk device h)
        → IfOk result (λ done. IsToldUpgraded rules h (D.disk.content done.1) holds.read.root done.0) }
    ensures failed { (rules : Rules) (h : History) → HoldsHistory rules D.disk device h → IfErr result (λ e. IsEither rules D.disk device e.1 h) }
    ensures kept { (rules : Rules) (h : History) → HoldsHistory rules D.disk device h
        → IfErr result (λ e. e.0 ≢ UpgradeFaultData.Device → KeepsHistory rules D.disk device e.1 h) }
    ensures refused { (rules : Rules) (h : History) (holds : HoldsHistory rules D.disk device h)
        → IfErr result (λ e. IsRefusal e.0 → first_of (refusals rules (view rules h) holds.read.root) ≡ Some e.0) }
    ensures undamaged { (rules : Rules) (h : History) → HoldsHistory rules D.disk device h
        → IfErr result (λ e. (damage : DamageData) → e.0 ≢ UpgradeFaultData.Damaged damage) }
    ensures never_failed { IfErr result (λ e. e.0 ≢ UpgradeFaultData.Failed) }
    ensures cause { IfErr result (λ e. e.0 ≡ UpgradeFaultData.Device → HasFailed D.disk device e.1) }
    ensures steady { IfOk result (λ done. D.disk.failures done.1 ≡ D.disk.failures device) }
    ensures unfailed { IfErr result (λ e. (e.0 ≡ UpgradeFaultData.Memory) ⊎ IsRefusal e.0 → D.disk.failures e.1 ≡ D.disk.failures device) }
{
    let mut store = match Store::open(alloc, device) {
        Ok(store) => store,
        Err((fault, device)) => return Err((UpgradeFault::from(fault), device)),
    };
    match store.upgrade(alloc) {
        Ok(upgraded) => Ok((upgraded, store.into_device())),
        Err(fault) => Err((fault, store.into_device())),
    }
}

/// Opens the store on a device, reads all of it, compares each policy's plans with those of its expressions, and gives the device back. Nothing is written.
///
/// # Errors
///
/// `Device` only where the device failed in this call; `Memory`; `Damaged`, of no device that holds a history. A device that holds a history holds it
/// afterwards, whatever is answered.
pub fn check<D: Device>(alloc: Global, device: D) -> Result<(Checked, D), (Fault, D)>
    ensures ok { (rules : Rules) (h : History) → HoldsHistory rules D.disk device h → IfOk result (λ done. KeepsHistory rules D.disk device done.1 h) }
    ensures told { (rules : Rules) (h : History) (holds : HoldsHistory rules D.disk device h)
        → IfOk result (λ done. IsToldOfHistory rules h holds.read.root done.0) }
    ensures whole { D.disk.keeps device → IfOk result (λ done. HoldsWellFormed (D.disk.content device)) }
    ensures failed { (rules : Rules) (h : History) → HoldsHistory rules D.disk device h → IfErr result (λ e. KeepsHistory rules D.disk device e.1 h) }
    ensures undamaged { (rules : Rules) (h : History) → HoldsHistory rules D.disk device h
        → IfErr result (λ e. (damage : DamageData) → e.0 ≢ FaultData.Damaged damage) }
    ensures never_failed { IfErr result (λ e. e.0 ≢ FaultData.Failed) }
    ensures cause { IfErr result (λ e. e.0 ≡ FaultData.Device → HasFailed D.disk device e.1) }
    ensures steady { IfOk result (λ done. D.disk.failures done.1 ≡ D.disk.failures device) }
    ensures unfailed { IfErr result (λ e. e.0 ≡ FaultData.Memory → D.disk.failures e.1 ≡ D.disk.failures device) }
{
    let mut store = match Store::open(alloc, device) {
        Ok(store) => store,
        Err((fault, device)) => return Err((fault, device)),
    };
    match store.check(alloc) {
        Ok(checked) => Ok((checked, store.into_device())),
        Err(fault) => Err((fault, store.into_device())),
    }
}
