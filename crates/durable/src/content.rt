//! The content of a device that is opened.

ghost use Rattle.std.specs.Prelude.{◌≡◌, ◌≢◌, ◌<◌, ◌≤◌, ◌*◌, ◌^◌, [], ◌∷◌, true, false, ℕ, List, length, Contains, IfOk, OnOk, OnErr, IsErrOf, Err};
ghost use Rattle.std.specs.List.{AllByRecursion};
ghost use Rattle.device.specs.Disk.{Only, HasFailed};
ghost use Rattle.device.specs.Step.{Same};
ghost use Rattle.device.specs.Run.{Ran};
ghost use Rattle.gatelog.specs.Log.{HoldsLog};
ghost use Rattle.roots.specs.Root.{log_sector};
ghost use Rattle.checkpoint.specs.Pages.{HoldsPages};
ghost use Rattle.names.specs.declared.format.Rules.{Rules};
ghost use Rattle.names.specs.Key.{Key as KeyData, key_bytes};
ghost use Rattle.decoded.specs.Standing.{History, IsHistory, with_plans};
ghost use Rattle.recovery.specs.Known.{Writes, IsOfGroup, AllKnown};
ghost use Rattle.holdings.specs.Holdings.{Shows};
ghost use Rattle.holdings.specs.Known.{IsKnown};
ghost use Rattle.histories.specs.declared.stored.Stored.{Stored as StoredData};
ghost use Rattle.histories.specs.Mapped.{mapped};
ghost use Rattle.decoded.specs.Shown.{plans_held};
ghost use Rattle.recovery.specs.Taken.{HasRedone};
ghost use Rattle.recovery.specs.Written.{Write, IsWritten};
ghost use Rattle.durable.specs.declared.fault.Damage.{Damage as DamageData};
ghost use Rattle.durable.specs.declared.fault.Damage.TheVariants as Damages;
ghost use Rattle.durable.specs.declared.fault.Fault.TheVariants as Fault;
ghost use Rattle.durable.specs.Opened.{HasRead, IsDamageBehind, IsRedone};
ghost use Rattle.durable.specs.ReadWhole.{IsReadWhole, entries_under};
ghost use Rattle.decoded.specs.Decoded.{Decoded as DecodedData};
ghost use Rattle.histories.specs.View as seen;
ghost use Rattle.histories.specs.View.{view};
ghost use Rattle.holdings.specs.Holdings as holdings;
ghost use Rattle.paged.specs.Chosen.{is_chosen, HasHeldEntries};
ghost use Rattle.durable.specs.LogStill.{IsLogStill, IsOfLog};
ghost use Rattle.paged.specs.Lying.{base_of};
ghost use Rattle.paged.specs.Paged.{Below, HasEntries, root_of};
ghost use Rattle.durable.specs.Rules.{rules_at};
ghost use Rattle.durable.specs.Stands.{HoldsBase};

use crate::fault::{Damage, Fault};
use device::Device;
use gatelog::{Log, ReadAhead};
use names::{Key, Rules};
use paged::{Chosen, Paged};
use recovery::{RecoveryFault, written_keys};
use roots::{Root, synced_root};
use std::alloc::Global;

/// What is shown of a history, over the pages of the root that counts, and the log behind these.
#[derive(Drop)]
pub(crate) struct Opened {
    pub(crate) paged: Paged,
    pub(crate) log: Log,
}

// The rules of the format and of the floor that a root tells.
fn rules(root: &Root) -> Rules
    ensures { result ≡ rules_at root.now }
{
    root.label.format.rules(root.label.floor)
}

// The keys that a payload writes. Where it is that of no writes there may be none: it is told where the writes are taken.
fn keys_in(alloc: Global, payload: Vec<u8>) -> Result<Vec<Key>, Fault>
    ensures all { IfOk result (λ keys. (key : KeyData) → Writes payload.items key → Contains keys.items key) }
    ensures only { IfOk result (λ keys. (key : KeyData) → Contains keys.items key → IsOfGroup payload.items → Writes payload.items key) }
    ensures refusal { OnErr result (result ≡ Err Fault.Memory) }
{
    match written_keys(alloc, &[payload]) {
        Ok(keys) => Ok(keys),
        Err(RecoveryFault::Memory) => Err(Fault::Memory),
        Err(RecoveryFault::Damaged) => Ok(Vec::new(alloc)),
        Err(RecoveryFault::Plans) => unreachable!("no plans are read"),
    }
}

// The objects under the keys that a log writes, one payload after the other, beside the policies and the bindings.
fn keys_of_log<D: Device>(alloc: Global, device: &mut D, log: &mut Log) -> Result<Chosen, Fault>
    requires works { log.old.failed ≡ false }
    ensures all { D.disk.keeps device.old → (payloads : List (List ℕ)) → HoldsLog log.old.first_gate_sector payloads log.old.last_gate_sector (D.disk.content device.old)
        → IfOk result (λ chosen. (payload : List ℕ) (key : KeyData) → Contains payloads payload → Writes payload key → is_chosen chosen (1 ∷ key_bytes key) ≡ true) }
    ensures damaged { D.disk.keeps device.old → (damage : DamageData) → IsErrOf result (Fault.Damaged damage)
        → (payloads : List (List ℕ)) → HoldsLog log.old.first_gate_sector payloads log.old.last_gate_sector (D.disk.content device.old) → ⊥ }
    ensures told { (damage : DamageData) → IsErrOf result (Fault.Damaged damage) → damage ≡ Damages.Log }
    ensures log { IsLogStill log.old log.new }
    ensures works { OnOk result (log.new.failed ≡ false) }
    ensures ran { Ran D.disk device.old device.new Same }
    ensures refusal { (result ≢ Err Fault.Failed) × (result ≢ Err Fault.Exhausted) }
    ensures cause { IsErrOf result Fault.Device → HasFailed D.disk device.old device.new }
    ensures steady { OnOk result (D.disk.failures device.new ≡ D.disk.failures device.old) }
    ensures unfailed { IsErrOf result Fault.Memory → D.disk.failures device.new ≡ D.disk.failures device.old }
{
    let mut chosen = Chosen::new(alloc);
    let mut gate = log.first_gate_sector();
    'each: while let Some((payload, next)) = log.payload(alloc, device, gate)? {
        chosen.add(alloc, &keys_in(alloc, payload)?)?;
        gate = next;
    }
    Ok(chosen)
}

// What a root's pages have to hold in memory, so that the log behind them can be taken. Where there are no pages nothing is looked up below.
fn chosen_of<D: Device>(
    alloc: Global,
    device: &mut D,
    root: &Root,
    log: &mut Log,
) -> Result<Chosen, Fault>
    requires works { log.old.failed ≡ false }
    ensures all { D.disk.keeps device.old → (payloads : List (List ℕ)) → HoldsLog log.old.first_gate_sector payloads log.old.last_gate_sector (D.disk.content device.old)
        → IfOk result (λ chosen. 0 < root.now.pages → (payload : List ℕ) (key : KeyData) → Contains payloads payload → Writes payload key
        → is_chosen chosen (1 ∷ key_bytes key) ≡ true) }
    ensures damaged { D.disk.keeps device.old → (damage : DamageData) → IsErrOf result (Fault.Damaged damage)
        → (payloads : List (List ℕ)) → HoldsLog log.old.first_gate_sector payloads log.old.last_gate_sector (D.disk.content device.old) → ⊥ }
    ensures told { (damage : DamageData) → IsErrOf result (Fault.Damaged damage) → damage ≡ Damages.Log }
    ensures log { IsLogStill log.old log.new }
    ensures works { OnOk result (log.new.failed ≡ false) }
    ensures ran { Ran D.disk device.old device.new Same }
    ensures refusal { (result ≢ Err Fault.Failed) × (result ≢ Err Fault.Exhausted) }
    ensures cause { IsErrOf result Fault.Device → HasFailed D.disk device.old device.new }
    ensures steady { OnOk result (D.disk.failures device.new ≡ D.disk.failures device.old) }
    ensures unfailed { IsErrOf result Fault.Memory → D.disk.failures device.new ≡ D.disk.failures device.old }
{
    if root.pages == 0 {
        return Ok(Chosen::new(alloc));
    }
    keys_of_log(alloc, device, log)
}

// The objects, once the store took the writes of a log, one payload after the other.
fn redo_log<D: Device>(
    alloc: Global,
    device: &mut D,
    log: &mut Log,
    paged: Paged,
) -> Result<Paged, Fault>
    requires works { log.old.failed ≡ false }
    ensures rules { IfOk result (λ p. p.core.rules ≡ paged.core.rules) }
    ensures cache { IfOk result (λ p. p.cache ≡ paged.cache) }
    ensures found { D.disk.keeps device.old → (payloads : List (List ℕ)) → HoldsLog log.old.first_gate_sector payloads log.old.last_gate_sector (D.disk.content device.old)
        → (base : List (KeyData × StoredData DecodedData)) (held : seen.View DecodedData) → Shows paged.core base held → AllKnown paged.core base payloads
        → IfOk result (λ p. HasRedone paged.core.rules base held p.core payloads) }
    ensures damaged { D.disk.keeps device.old → (damage : DamageData) → IsErrOf result (Fault.Damaged damage)
        → (payloads : List (List ℕ)) → HoldsLog log.old.first_gate_sector payloads log.old.last_gate_sector (D.disk.content device.old)
        → (base : List (KeyData × StoredData DecodedData)) (held : seen.View DecodedData) → Shows paged.core base held → AllKnown paged.core base payloads
        → (ws : List Write) → IsWritten paged.core.rules (mapped plans_held held) ws payloads → ⊥ }
    ensures told { (damage : DamageData) → IsErrOf result (Fault.Damaged damage) → IsOfLog damage }
    ensures groups { D.disk.keeps device.old → (payloads : List (List ℕ)) → HoldsLog log.old.first_gate_sector payloads log.old.last_gate_sector (D.disk.content device.old)
        → OnOk result (AllByRecursion IsOfGroup payloads) }
    // And whatever the device, where memory knows each key.
    ensures redone { (base : List (KeyData × StoredData DecodedData)) (held : seen.View DecodedData) → Shows paged.core base held
        → ((key : KeyData) → IsKnown paged.core base key)
        → IfOk result (λ p. (payloads : List (List ℕ)) × HasRedone paged.core.rules base held p.core payloads) }
    ensures log { IsLogStill log.old log.new }
    ensures works { OnOk result (log.new.failed ≡ false) }
    ensures ran { Ran D.disk device.old device.new Same }
    ensures refusal { (result ≢ Err Fault.Failed) × (result ≢ Err Fault.Exhausted) }
    ensures cause { IsErrOf result Fault.Device → HasFailed D.disk device.old device.new }
    ensures steady { OnOk result (D.disk.failures device.new ≡ D.disk.failures device.old) }
    ensures unfailed { IsErrOf result Fault.Memory → D.disk.failures device.new ≡ D.disk.failures device.old }
{
    let mut paged = paged;
    let mut gate = log.first_gate_sector();
    'each: while let Some((payload, next)) = log.payload(alloc, device, gate)? {
        paged = paged.redone(alloc, &[payload])?;
        gate = next;
    }
    Ok(paged)
}

// The objects of a root's pages, once the store took the writes of the log behind them.
fn read_objects<D: Device>(
    alloc: Global,
    device: &mut D,
    root: &Root,
    log: &mut Log,
) -> Result<Paged, Fault>
    requires small { log_sector root.now < 2 ^ 54 }
    requires inside { D.disk.keeps device.old → 512 * log_sector root.now ≤ length (D.disk.content device.old) }
    requires works { log.old.failed ≡ false }
    ensures rules { IfOk result (λ p. p.core.rules ≡ rules_at root.now) }
    ensures root { IfOk result (λ p. root_of p ≡ root.now) }
    ensures found { D.disk.keeps device.old → (payloads : List (List ℕ)) → HoldsLog log.old.first_gate_sector payloads log.old.last_gate_sector (D.disk.content device.old)
        → (rules : Rules) (base : History) (ws : List Write) → IsHistory rules base
        → HoldsBase rules (D.disk.content device.old) root.now base → IsWritten rules (with_plans (view rules base)) ws payloads
        → IfOk result (λ p. Below D.disk device.new p (base_of (with_plans (view rules base)))
        × HasRedone rules (base_of (with_plans (view rules base))) (with_plans (view rules base)) p.core payloads) }
    ensures damaged { D.disk.keeps device.old → (damage : DamageData) → IsErrOf result (Fault.Damaged damage)
        → (payloads : List (List ℕ)) → HoldsLog log.old.first_gate_sector payloads log.old.last_gate_sector (D.disk.content device.old)
        → (rules : Rules) (base : History) (ws : List Write) → IsHistory rules base
        → HoldsBase rules (D.disk.content device.old) root.now base → IsWritten rules (with_plans (view rules base)) ws payloads → ⊥ }
    ensures behind { D.disk.keeps device.old → (damage : DamageData) → IsErrOf result (Fault.Damaged damage)
        → IsDamageBehind (D.disk.content device.old) root.now damage }
    ensures redone { root.now.pages ≡ 0 → IfOk result (λ p. Below D.disk device.new p []
        × ((held : seen.View DecodedData) × holdings.Shows p.core [] held × IsRedone (rules_at root.now) held)) }
    ensures whole { D.disk.keeps device.old → OnOk result (HoldsPages (D.disk.content device.old) root.now) }
    ensures entries { D.disk.keeps device.old → IfOk result (λ p. HasEntries D.disk device.new p (entries_under root.now (D.disk.content device.old))) }
    ensures kept { D.disk.keeps device.old → OnOk result (HasHeldEntries (rules_at root.now) root.now.label (entries_under root.now (D.disk.content device.old))) }
    ensures groups { D.disk.keeps device.old → (payloads : List (List ℕ)) → HoldsLog log.old.first_gate_sector payloads log.old.last_gate_sector (D.disk.content device.old)
        → OnOk result (AllByRecursion IsOfGroup payloads) }
    ensures log { IsLogStill log.old log.new }
    ensures works { OnOk result (log.new.failed ≡ false) }
    ensures ran { Ran D.disk device.old device.new Same }
    ensures refusal { (result ≢ Err Fault.Failed) × (result ≢ Err Fault.Exhausted) }
    ensures cause { IsErrOf result Fault.Device → HasFailed D.disk device.old device.new }
    ensures steady { OnOk result (D.disk.failures device.new ≡ D.disk.failures device.old) }
    ensures unfailed { IsErrOf result Fault.Memory → D.disk.failures device.new ≡ D.disk.failures device.old }
{
    let chosen = chosen_of(alloc, device, root, log)?;
    let paged = Paged::read(alloc, device, rules(root), root, chosen)?;
    Ok(redo_log(alloc, device, log, paged)?)
}

// The log at a gate.
fn open_log<D: Device>(device: &mut D, at: u64) -> Result<Log, Fault>
    ensures place { IfOk result (λ log. (log.first_gate_sector ≡ at) × (log.failed ≡ false)) }
    ensures found { D.disk.keeps device.old → IfOk result (λ log. (payloads : List (List ℕ)) × (log.record_count ≡ length payloads)
        × HoldsLog at payloads log.last_gate_sector (D.disk.content device.old)) }
    ensures damaged { D.disk.keeps device.old → (damage : DamageData) → IsErrOf result (Fault.Damaged damage)
        → (payloads : List (List ℕ)) (last : ℕ) → HoldsLog at payloads last (D.disk.content device.old) → ⊥ }
    ensures log { (damage : DamageData) → IsErrOf result (Fault.Damaged damage) → damage ≡ Damages.Log }
    ensures ran { Ran D.disk device.old device.new Same }
    ensures refusal { (result ≢ Err Fault.Failed) × (result ≢ Err Fault.Exhausted) }
    ensures cause { IsErrOf result Fault.Device → HasFailed D.disk device.old device.new }
    ensures steady { OnOk result (D.disk.failures device.new ≡ D.disk.failures device.old) }
    ensures unfailed { IsErrOf result Fault.Memory → D.disk.failures device.new ≡ D.disk.failures device.old }
    ensures unfailed_damaged { (damage : DamageData) → IsErrOf result (Fault.Damaged damage) → D.disk.failures device.new ≡ D.disk.failures device.old }
{
    Ok(Log::open(device, at)?)
}

// Where the log of a root is damaged: what of it, unless the pages are, which is told first.
fn read_pages_alone<D: Device>(alloc: Global, device: &mut D, root: &Root, damage: Damage) -> Fault
    requires small { log_sector root.now < 2 ^ 54 }
    requires inside { D.disk.keeps device.old → 512 * log_sector root.now ≤ length (D.disk.content device.old) }
    ensures behind { D.disk.keeps device.old → IsDamageBehind (D.disk.content device.old) root.now damage
        → (told : DamageData) → result ≡ Fault.Damaged told → IsDamageBehind (D.disk.content device.old) root.now told }
    ensures ran { Ran D.disk device.old device.new Same }
    ensures refusal { (result ≢ Fault.Failed) × (result ≢ Fault.Exhausted) }
    ensures cause { result ≡ Fault.Device → HasFailed D.disk device.old device.new }
    ensures unfailed { result ≡ Fault.Memory → D.disk.failures device.new ≡ D.disk.failures device.old }
{
    match Paged::read(alloc, device, rules(root), root, Chosen::new(alloc)) {
        Ok(_) => Fault::Damaged(damage),
        Err(fault) => Fault::from(fault),
    }
}

// Syncs a device, and reads the store on it. Nothing is written.
fn synced_store<D: Device>(alloc: Global, device: &mut D) -> Result<Opened, Fault>
    ensures read { HasRead D.disk device.old device.new result }
    ensures whole { D.disk.keeps device.old → IfOk result (λ opened. IsReadWhole (D.disk.content device.old) D.disk device.new opened.paged) }
    ensures durable { D.disk.keeps device.old → OnOk result (Only (D.disk.content device.new) (D.disk.left device.new)) }
    ensures steady { OnOk result (D.disk.failures device.new ≡ D.disk.failures device.old) }
    ensures unfailed { IsErrOf result Fault.Memory → D.disk.failures device.new ≡ D.disk.failures device.old }
{
    let root = synced_root(device)?;
    match open_log(device, root.log_sector()) {
        Ok(found) => {
            let mut log = found;
            let paged = read_objects(alloc, device, &root, &mut log)?;
            Ok(Opened { paged, log })
        }
        Err(Fault::Damaged(damage)) => Err(read_pages_alone(alloc, device, &root, damage)),
        Err(fault) => Err(fault),
    }
}

/// Syncs a device, and reads the store on it, in pieces of up to 1 MiB. Nothing is written, and the device is given back.
pub(crate) fn opened_store<D: Device>(alloc: Global, device: D) -> (Result<Opened, Fault>, D)
    ensures read { HasRead D.disk device result.1 result.0 }
    ensures whole { D.disk.keeps device → IfOk result.0 (λ opened. IsReadWhole (D.disk.content device) D.disk result.1 opened.paged) }
    ensures durable { D.disk.keeps device → OnOk result.0 (Only (D.disk.content result.1) (D.disk.left result.1)) }
    ensures steady { OnOk result.0 (D.disk.failures result.1 ≡ D.disk.failures device) }
    ensures unfailed { IsErrOf result.0 Fault.Memory → D.disk.failures result.1 ≡ D.disk.failures device }
{
    match ReadAhead::new(alloc, device) {
        Ok(made) => {
            let mut ahead = made;
            let read = synced_store(alloc, &mut ahead);
            (read, ahead.into_device())
        }
        Err(device) => (Err(Fault::Memory), device),
    }
}
