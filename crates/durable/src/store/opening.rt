//! Opening a store.

ghost use Rattle.std.specs.Prelude.{◌≡◌, ◌≢◌, ◌≤◌, List, ℕ, true, false, IfOk, IfErr, ◌⊎◌};
ghost use Rattle.durable.specs.Ready.{IsReady};
ghost use Rattle.durable.specs.Rules.{rules_at};
ghost use Rattle.paged.specs.Paged.{root_of as paged_root};
ghost use Rattle.roots.specs.Root.{MayHaveFloor};

use crate::content::opened_store;
use crate::fault::Fault;
use crate::store::Store;
use device::Device;
use gatelog::Log;
use paged::Paged;
use std::alloc::Global;

impl<D: Device> Store<D> {
    ghost use Rattle.device.specs.Disk.{HasFailed, LeavesOnly};
    ghost use Rattle.names.specs.declared.format.Rules.{Rules};
    ghost use Rattle.histories.specs.View as seen;
    ghost use Rattle.decoded.specs.Decoded.{Decoded};
    ghost use Rattle.decoded.specs.Standing.{History};
    ghost use Rattle.durable.specs.declared.fault.Damage.{Damage};
    ghost use Rattle.durable.specs.declared.fault.Fault.TheVariants as Fault;
    ghost use Rattle.durable.specs.Opened.{IsDamageOf, IsRedone};
    ghost use Rattle.durable.specs.ReadWhole.{IsReadWhole};
    ghost use Rattle.durable.specs.Stands.{StandsFor};
    ghost use Rattle.durable.specs.Settled.{device_of, paged_of, root_of, log_of, serves, kept_rules, Holds, IsSettledAt};

    /// Opens the store on a device: syncs it, reads it in pieces of up to 1 MiB, and writes nothing. Of the log one payload is held at a time. With a refusal
    /// it gives the device back.
    ///
    /// # Errors
    ///
    /// `Device` only where the device failed in this call; `Memory`; `Damaged` only where the content stands for no history. It is `Header` where the first
    /// sector is no header, or there are fewer than nine, and `Root` where there are these and no root counts. The others are told only of a root that
    /// counts: `Page` and `Entry` where its pages hold what is seen of no history.
    pub fn open(alloc: Global, device: D) -> Result<Store<D>, (Fault, D)>
        ensures settled { (rules : Rules) (h : History) → D.disk.keeps device → StandsFor rules (D.disk.content device) h
            → IfOk result (λ store. IsSettledAt rules store h) }
        ensures serves { IfOk result (λ store. serves store ≡ true) }

        // Whatever the device: it keeps to the rules of the format and of the floor that its root tells, and where the root that counts has no pages, it shows
        // what the writes that were read left, with their plans.
        ensures rules { IfOk result (λ store. kept_rules store ≡ rules_at (root_of store)) }
        ensures redone { IfOk result (λ store. (root_of store).pages ≡ 0 → (held : seen.View Decoded) × Holds store held × IsRedone (kept_rules store) held) }

        // The pages of the root that counts are whole, and their entries are those that lie in its pages, whatever they are of.
        ensures whole { D.disk.keeps device → IfOk result (λ store. IsReadWhole (D.disk.content device) D.disk (device_of store) (paged_of store)) }

        // At every moment a crash leaves what it might have left before.
        ensures any_moment { D.disk.keeps device → IfOk result (λ store. LeavesOnly D.disk device (device_of store) (D.disk.left device)) }
        ensures any_moment_err { D.disk.keeps device → IfErr result (λ e. LeavesOnly D.disk device e.1 (D.disk.left device)) }

        ensures content { D.disk.keeps device → IfOk result (λ store. D.disk.content (device_of store) ≡ D.disk.content device) }
        ensures content_err { D.disk.keeps device → IfErr result (λ e. D.disk.keeps e.1 × (D.disk.content e.1 ≡ D.disk.content device)) }
        ensures left_err { D.disk.keeps device → IfErr result (λ e. (c : List ℕ) → D.disk.left e.1 c → D.disk.left device c) }
        ensures refusal { (rules : Rules) (h : History) → D.disk.keeps device → StandsFor rules (D.disk.content device) h
            → IfErr result (λ e. (e.0 ≡ Fault.Device) ⊎ (e.0 ≡ Fault.Memory)) }

        // What is told is what is damaged.
        ensures told { D.disk.keeps device → (damage : Damage) → IfErr result (λ e. e.0 ≡ Fault.Damaged damage → IsDamageOf (D.disk.content device) damage) }

        ensures never_failed { IfErr result (λ e. (e.0 ≢ Fault.Failed) × (e.0 ≢ Fault.Exhausted)) }
        ensures cause { IfErr result (λ e. e.0 ≡ Fault.Device → HasFailed D.disk device e.1) }
        ensures count { IfOk result (λ store. D.disk.failures device ≤ D.disk.failures (device_of store)) }
        ensures steady { IfOk result (λ store. D.disk.failures (device_of store) ≡ D.disk.failures device) }
        ensures unfailed { IfErr result (λ e. e.0 ≡ Fault.Memory → D.disk.failures e.1 ≡ D.disk.failures device) }
    {
        let (read, device) = opened_store(alloc, device);
        match read {
            Ok(opened) => Ok(Store::serving(device, opened.paged, opened.log)),
            Err(fault) => Err((fault, device)),
        }
    }

    // The store of what an opening found on a device: what is shown over the pages of the root that counts, and the log behind them. It serves.
    fn serving(device: D, paged: Paged, log: Log) -> Store<D>
        requires numbers { paged.core.rules ≡ rules_at (paged_root paged) }
        requires floor { MayHaveFloor (paged_root paged).label.format (paged_root paged).label.floor }
        requires in_data { 8 ≤ log.first_gate_sector }
        requires works { log.failed ≡ false }
        requires ready { D.disk.keeps device → ∥ IsReady D.disk device (paged_root paged) log ∥₁ }
        ensures device { device_of result ≡ device }
        ensures paged { paged_of result ≡ paged }
        ensures log { log_of result ≡ log }
        ensures serves { serves result ≡ true }
    {
        Store {
            device,
            paged,
            log,
            serves: true,
        }
    }
}
