//! The plans that are not those of the expressions beside them.

ghost use Rattle.std.specs.Prelude.{◌≡◌, ◌<◌, ◌≤◌, ◌*◌, ◌^◌, ℕ, List, true, length, map, IfOk, IfSome};
ghost use Rattle.device.specs.Step.{Same};
ghost use Rattle.device.specs.Run.{Ran};
ghost use Rattle.roots.specs.Root.{log_sector};
ghost use Rattle.records.specs.WriteOf.{write_of};
ghost use Rattle.damage.specs.Plans.{AreOthers, StandBeside, ArePut, ArePutIn, HasOtherPlans, PutsOtherPlans};

use crate::gathering::Gathering;
use chunks::scan_whole;
use device::Device;
use documents::Document;
use expressions::{Specification, StoredPlans, plans_bytes, specification_of};
use gatelog::{Log, LogFault};
use names::{Format, Key};
use records::{KeptObject, RecordFault, StoredWrite, read_view, read_writes};
use roots::Root;
use std::alloc::{AllocError, Global};

// Whether the bytes are those of other plans than those of the expressions of an object.
#[tactic(auto, using(crate::proofs::Owning::others_there, crate::proofs::Owning::none_in_bad_spec, crate::proofs::Owning::none_in_bad_expression))]
fn are_others(
    alloc: Global,
    format: Format,
    key: &Key,
    document: &Document,
    bytes: &[u8],
) -> Result<bool, AllocError>
    ensures { IfOk result (λ are. are ≡ true → AreOthers format key.now document.now bytes.now) }
{
    match specification_of(alloc, format, key.resource(), document.json())? {
        Specification::Sound(own) => {
            match plans_bytes(alloc, key.resource(), &StoredPlans::Plans(own)) {
                Ok(own) => Ok(own.as_slice() != bytes),
                // Plans of expressions are never too long, so the cause is out of memory.
                Err(_) => Err(AllocError),
            }
        }
        Specification::BadSpec | Specification::BadExpression(_) => Ok(true),
    }
}

// The key of the first of these objects beside which other plans stand.
#[tactic(auto, using(crate::proofs::Finding::contains_here))]
fn first_beside(
    alloc: Global,
    format: Format,
    objects: &[KeptObject],
) -> Result<Option<Key>, AllocError>
    ensures { IfOk result (λ found. IfSome found (StandBeside format objects.now)) }
{
    'each: for object in objects {
        let key = object.manifest.key();
        if are_others(
            alloc,
            format,
            key,
            object.manifest.document(),
            &object.plans,
        )? {
            return Ok(Some(key.clone()?));
        }
    }
    Ok(None)
}

// The key of the first put among these writes that has other plans.
fn first_put(
    alloc: Global,
    format: Format,
    writes: &[StoredWrite<'_>],
) -> Result<Option<Key>, AllocError>
    ensures { IfOk result (λ found. IfSome found (ArePut format (map write_of writes.now))) }
{
    'each: for write in writes {
        if let StoredWrite::Put(manifest, plans) = write {
            let key = manifest.key();
            if are_others(alloc, format, key, manifest.document(), plans)? {
                return Ok(Some(key.clone()?));
            }
        }
    }
    Ok(None)
}

// The key of the first put in a payload that has other plans; none where it is the payload of no writes.
fn put_in(alloc: Global, format: Format, payload: &[u8]) -> Result<Option<Key>, AllocError>
    ensures { IfOk result (λ found. IfSome found (ArePutIn format payload.now)) }
{
    match read_writes(alloc, payload) {
        Ok(writes) => first_put(alloc, format, &writes),
        Err(RecordFault::Damaged) => Ok(None),
        Err(RecordFault::Memory) => Err(AllocError),
    }
}

/// Looks in the pages of a root for the first object beside which plans stand that are not those of its expressions, which are read, typed and compiled for that. All entries are held in
/// memory meanwhile. None where there is no such object, where the pages hold no view, and where the device failed or memory was refused.
pub fn other_plans_in_pages<D: Device>(alloc: Global, device: &mut D, root: &Root) -> Option<Key>
    requires small { log_sector root.now < 2 ^ 54 }
    requires inside { D.disk.keeps device.old → 512 * log_sector root.now ≤ length (D.disk.content device.old) }
    ensures others { D.disk.keeps device.old → IfSome result (HasOtherPlans (D.disk.content device.old) root.now) }
    ensures ran { Ran D.disk device.old device.new Same }
{
    let gathering = Gathering {
        entries: Vec::new(alloc),
    };
    let Ok((_, gathering)) = scan_whole(alloc, device, root, gathering) else {
        return None;
    };
    let Ok(view) = read_view(alloc, &gathering.entries, root.label.revision) else {
        return None;
    };
    match first_beside(alloc, root.label.format, &view.objects) {
        Ok(found) => found,
        Err(AllocError) => None,
    }
}

// The key of the last put in a log that has other plans.
fn last_put<D: Device>(alloc: Global, device: &mut D, root: &Root) -> Result<Option<Key>, LogFault>
    requires small { log_sector root.now < 2 ^ 54 }
    ensures others { D.disk.keeps device.old → IfOk result (λ found. IfSome found (PutsOtherPlans (D.disk.content device.old) root.now)) }
    ensures ran { Ran D.disk device.old device.new Same }
{
    let mut log = Log::open(device, root.log_sector())?;
    let mut found = None;
    let mut gate = log.first_gate_sector();
    'each: while let Some((payload, next)) = log.payload(alloc, device, gate)? {
        found = put_in(alloc, root.label.format, &payload)?.or(found);
        gate = next;
    }
    Ok(found)
}

/// Looks in the log behind the pages of a root for the last record with a put of plans that are not those of the expressions of the object that it puts. One payload is held at a time.
/// None where there is no such record, where no log stands there, and where the device failed or memory was refused.
pub fn other_plans_in_log<D: Device>(alloc: Global, device: &mut D, root: &Root) -> Option<Key>
    requires small { log_sector root.now < 2 ^ 54 }
    ensures others { D.disk.keeps device.old → IfSome result (PutsOtherPlans (D.disk.content device.old) root.now) }
    ensures ran { Ran D.disk device.old device.new Same }
{
    match last_put(alloc, device, root) {
        Ok(found) => found,
        Err(_) => None,
    }
}
