ghost use Rattle.std.specs.Prelude.{◌≡◌, ◌⊎◌, ℕ, List, [], map, Contains, IfOk, OnOk, IsErrOf};
ghost use Rattle.std.specs.List.{AllByRecursion};
ghost use Rattle.names.specs.Key.{Key as KeyData};
ghost use Rattle.histories.specs.declared.stored.Stored.{Stored as StoredData};
ghost use Rattle.histories.specs.View.{View, after_all, MayFollow, AllMayFollow};
ghost use Rattle.histories.specs.Mapped.{mapped};
ghost use Rattle.requests.specs.Codes.{document_in};
ghost use Rattle.histories.specs.History.{put, delete};
ghost use Rattle.holdings.specs.Holdings.{Shows};
ghost use Rattle.holdings.specs.Known.{IsKnown, KnowsSame};
ghost use Rattle.records.specs.WriteOf.{write_of};
ghost use Rattle.decoded.specs.Decoded.{Decoded as DecodedData};
ghost use Rattle.recovery.specs.Faults.{PutsOtherPlans, OneHasOther, HasOtherPlans};
ghost use Rattle.recovery.specs.Known.{written_key, Writes, IsOfGroup, AllKnown, KnowsEach};
ghost use Rattle.decoded.specs.Standing.{recorded};
ghost use Rattle.decoded.specs.Shown.{plans_held};
ghost use Rattle.recovery.specs.declared.fault.RecoveryFault.TheVariants as RecoveryFault;
ghost use Rattle.recovery.specs.Written.{Write, payload, HasPlans, IsGroup, IsWritten};
ghost use Rattle.recovery.specs.Taken.{AreRecorded, AreTaken, IsTaken, HasRedone};

use crate::fault::RecoveryFault;
use decoded::{Core, Decoded};
use expressions::stored_plans;
use names::Key;
use records::{StoredWrite, read_writes};
use requests::Manifest;
use std::alloc::Global;

/// The store, once it took the writes of these payloads, which follow one another in a log, over the objects that lie below. Of those nothing is looked
/// up: memory has to know each key that the payloads write, which `written_keys` tells. A log may be taken at once, or one payload after the other.
///
/// # Errors
///
/// `Plans` where an object that is no policy has plans, `Damaged` where else no writes that may follow have these payloads, and
/// `Memory` where there was none.
pub fn redone(alloc: Global, core: Core, payloads: &[Vec<u8>]) -> Result<Core, RecoveryFault>
    ensures rules { IfOk result (λ new. new.rules ≡ core.rules) }
    ensures found { (base : List (KeyData × StoredData DecodedData)) (held : View DecodedData) → Shows core base held → AllKnown core base (map (λ p. p.items) payloads.now)
        → IfOk result (λ new. HasRedone core.rules base held new (map (λ p. p.items) payloads.now)) }
    ensures damaged { (base : List (KeyData × StoredData DecodedData)) (held : View DecodedData) → Shows core base held → AllKnown core base (map (λ p. p.items) payloads.now)
        → IsErrOf result RecoveryFault.Damaged ⊎ IsErrOf result RecoveryFault.Plans
        → (ws : List Write) → IsWritten core.rules (mapped plans_held held) ws (map (λ p. p.items) payloads.now) → ⊥ }
    // What memory knew of the keys that lie below it still knows, so that the next payloads can be taken.
    ensures known { IfOk result (λ new. KnowsSame core new) }
    // Each payload is that of writes which a record can hold, whatever the core shows.
    ensures groups { OnOk result (AllByRecursion IsOfGroup (map (λ p. p.items) payloads.now)) }
    // Plans are told only where an object that is no policy has some.
    ensures plans { IsErrOf result RecoveryFault.Plans → (bytes : List ℕ) × Contains (map (λ p. p.items) payloads.now) bytes × HasOtherPlans bytes }
{
    let mut core = core;
    for payload in payloads {
        redo(alloc, &mut core, payload)?;
    }
    Ok(core)
}

// Takes the writes that have a payload. `Damaged` or `Plans` where no group of writes that may follow has it.
fn redo(alloc: Global, core: &mut Core, bytes: &[u8]) -> Result<(), RecoveryFault>
    ensures rules { core.new.rules ≡ core.old.rules }
    ensures known { KnowsSame core.old core.new }
    ensures taken { (base : List (KeyData × StoredData DecodedData)) (held : View DecodedData) → Shows core.old base held
        → ((key : KeyData) → Writes bytes.now key → IsKnown core.old base key)
        → OnOk result ((now : View DecodedData) × Shows core.new base now
        × ((ws : List Write) × IsGroup ws × (payload ws ≡ bytes.now)
        × AllMayFollow core.old.rules (mapped plans_held held) ws × (mapped plans_held now ≡ after_all core.old.rules (mapped plans_held held) ws))) }
    ensures damaged { (base : List (KeyData × StoredData DecodedData)) (held : View DecodedData) → Shows core.old base held
        → ((key : KeyData) → Writes bytes.now key → IsKnown core.old base key)
        → IsErrOf result RecoveryFault.Damaged ⊎ IsErrOf result RecoveryFault.Plans
        → (ws : List Write) → IsGroup ws → payload ws ≡ bytes.now → AllMayFollow core.old.rules (mapped plans_held held) ws → ⊥ }
    ensures group { OnOk result (IsOfGroup bytes.now) }
    ensures plans { IsErrOf result RecoveryFault.Plans → HasOtherPlans bytes.now }
{
    let writes = read_writes(alloc, bytes)?;
    redo_writes(alloc, core, writes)
}

// Takes writes, one after the other.
fn redo_writes(
    alloc: Global,
    core: &mut Core,
    writes: Vec<StoredWrite<'_>>,
) -> Result<(), RecoveryFault>
    ensures rules { core.new.rules ≡ core.old.rules }
    ensures known { KnowsSame core.old core.new }
    ensures taken { (base : List (KeyData × StoredData DecodedData)) (held : View DecodedData) → Shows core.old base held
        → KnowsEach core.old base (map write_of writes.entry.items)
        → OnOk result ((now : View DecodedData) × Shows core.new base now
        × AreTaken core.old.rules (mapped plans_held held) (mapped plans_held now) (map write_of writes.entry.items) []) }
    ensures damaged { (base : List (KeyData × StoredData DecodedData)) (held : View DecodedData) → Shows core.old base held
        → KnowsEach core.old base (map write_of writes.entry.items)
        → IsErrOf result RecoveryFault.Damaged ⊎ IsErrOf result RecoveryFault.Plans
        → (ws : List Write) → AreRecorded ws (map write_of writes.entry.items) → AllMayFollow core.old.rules (mapped plans_held held) ws → ⊥ }
    ensures plans { IsErrOf result RecoveryFault.Plans → OneHasOther (map write_of writes.entry.items) }
{
    for write in writes {
        redo_write(alloc, core, write)?;
    }
    Ok(())
}

// Takes a write.
fn redo_write(alloc: Global, core: &mut Core, write: StoredWrite<'_>) -> Result<(), RecoveryFault>
    ensures rules { core.new.rules ≡ core.old.rules }
    ensures known { KnowsSame core.old core.new }
    ensures taken { (base : List (KeyData × StoredData DecodedData)) (held : View DecodedData) → Shows core.old base held
        → IsKnown core.old base (written_key (write_of write.entry))
        → OnOk result ((now : View DecodedData) × Shows core.new base now
        × IsTaken core.old.rules (mapped plans_held held) (mapped plans_held now) (write_of write.entry)) }
    ensures damaged { (base : List (KeyData × StoredData DecodedData)) (held : View DecodedData) → Shows core.old base held
        → IsKnown core.old base (written_key (write_of write.entry))
        → IsErrOf result RecoveryFault.Damaged ⊎ IsErrOf result RecoveryFault.Plans
        → (w : Write) → HasPlans w → recorded w ≡ write_of write.entry → MayFollow core.old.rules (mapped plans_held held) w → ⊥ }
    ensures plans { IsErrOf result RecoveryFault.Plans → PutsOtherPlans (write_of write.entry) }
    ensures told { PutsOtherPlans (write_of write.entry) → IsErrOf result RecoveryFault.Plans }
{
    match write {
        StoredWrite::Put(manifest, plans) => redo_put(alloc, core, &manifest, plans),
        StoredWrite::Delete(key) => redo_delete(alloc, core, &key),
    }
}

// Takes a put with the plans of these bytes.
fn redo_put(
    alloc: Global,
    core: &mut Core,
    manifest: &Manifest,
    plans: &[u8],
) -> Result<(), RecoveryFault>
    ensures rules { core.new.rules ≡ core.old.rules }
    ensures known { KnowsSame core.old core.new }
    ensures taken { (base : List (KeyData × StoredData DecodedData)) (held : View DecodedData) → Shows core.old base held → IsKnown core.old base manifest.now.key
        → OnOk result ((now : View DecodedData) × Shows core.new base now
        × IsTaken core.old.rules (mapped plans_held held) (mapped plans_held now) (put manifest.now.key (document_in manifest.now.body) plans.now)) }
    ensures damaged { (base : List (KeyData × StoredData DecodedData)) (held : View DecodedData) → Shows core.old base held → IsKnown core.old base manifest.now.key
        → IsErrOf result RecoveryFault.Damaged ⊎ IsErrOf result RecoveryFault.Plans
        → (w : Write) → HasPlans w → recorded w ≡ put manifest.now.key (document_in manifest.now.body) plans.now → MayFollow core.old.rules (mapped plans_held held) w → ⊥ }
    ensures plans { IsErrOf result RecoveryFault.Plans → PutsOtherPlans (put manifest.now.key (document_in manifest.now.body) plans.now) }
    ensures told { PutsOtherPlans (put manifest.now.key (document_in manifest.now.body) plans.now) → IsErrOf result RecoveryFault.Plans }
{
    let plans = stored_plans(
        alloc,
        manifest.key().resource(),
        manifest.document().json(),
        plans,
    )?;
    let beside = Decoded::of(alloc, manifest.document().json(), plans)?;
    core.redo_put(alloc, manifest, beside)?;
    Ok(())
}

// Takes a deletion.
fn redo_delete(alloc: Global, core: &mut Core, key: &Key) -> Result<(), RecoveryFault>
    ensures rules { core.new.rules ≡ core.old.rules }
    ensures known { KnowsSame core.old core.new }
    ensures taken { (base : List (KeyData × StoredData DecodedData)) (held : View DecodedData) → Shows core.old base held → IsKnown core.old base key.now
        → OnOk result ((now : View DecodedData) × Shows core.new base now
        × IsTaken core.old.rules (mapped plans_held held) (mapped plans_held now) (delete key.now)) }
    ensures damaged { (base : List (KeyData × StoredData DecodedData)) (held : View DecodedData) → Shows core.old base held → IsKnown core.old base key.now
        → IsErrOf result RecoveryFault.Damaged ⊎ IsErrOf result RecoveryFault.Plans
        → MayFollow core.old.rules (mapped plans_held held) (delete key.now) → ⊥ }
    ensures plans { IsErrOf result RecoveryFault.Plans → ⊥ }
{
    core.redo_delete(alloc, key)?;
    Ok(())
}
