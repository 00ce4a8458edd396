//! The first entry that is of nothing.

ghost use Rattle.std.specs.Prelude.{◌≡◌, ◌≢◌, ◌<◌, ◌≤◌, ◌*◌, ◌^◌, ◌∷◌, ◌++◌, List, ℕ, length, IfOk, IfSome, true, false};
ghost use Rattle.device.specs.Step.{Same};
ghost use Rattle.device.specs.Run.{Ran};
ghost use Rattle.pages.specs.Page.{Entry as EntryData};
ghost use Rattle.roots.specs.Root.{log_sector};
ghost use Rattle.names.specs.Key.{Key};
ghost use Rattle.window.specs.declared.event.Event.{Event};
ghost use Rattle.documents.specs.Document.{Document};
ghost use Rattle.records.specs.Entries.{object_entry, event_entry};
ghost use Rattle.records.specs.Holding.{IsStorableObject, IsStorableEvent};
ghost use Rattle.damage.specs.Entries.{HasDamagedEntry, IsOfNothing, IsOneOfNothing, IsPieceOf, AreWithout, IsLone, HasLonePlans};

use crate::gathering::Gathering;
use crate::marks::PLANS_MARK;
use crate::part_search::split_number;
use crate::policy_name::policy_named;
use chunks::scan_whole;
use device::Device;
use names::Key;
use records::{Entry, EntryFault, object_key, read_event, read_object};
use roots::Root;
use std::alloc::{AllocError, Global};

// Whether a key is none of plans.
fn is_no_plans_key(key: &[u8]) -> bool
    ensures { result ≡ true → (rest : List ℕ) → key.now ≢ 2 ∷ rest }
{
    match key.first() {
        Some(mark) => *mark != PLANS_MARK,
        None => true,
    }
}

// Whether no object has an entry.
fn is_no_object(alloc: Global, entry: &Entry) -> Result<bool, AllocError>
    ensures { IfOk result (λ b. b ≡ true → (k : Key) (d : Document) (revision : ℕ) → IsStorableObject k d revision → object_entry k d revision ≢ entry.now) }
{
    match read_object(alloc, entry.key(), entry.cell()) {
        Ok(_) => Ok(false),
        Err(EntryFault::Damaged) => Ok(true),
        Err(EntryFault::Memory) => Err(AllocError),
    }
}

// Whether no event has an entry.
fn is_no_event(alloc: Global, entry: &Entry) -> Result<bool, AllocError>
    ensures { IfOk result (λ b. b ≡ true → (e : Event Document) → IsStorableEvent e → event_entry e ≢ entry.now) }
{
    match read_event(alloc, entry.key(), entry.cell()) {
        Ok(_) => Ok(false),
        Err(EntryFault::Damaged) => Ok(true),
        Err(EntryFault::Memory) => Err(AllocError),
    }
}

// Whether an entry is of nothing.
fn is_of_nothing(alloc: Global, entry: &Entry) -> Result<bool, AllocError>
    ensures { IfOk result (λ b. b ≡ true → IsOfNothing entry.now) }
{
    if !is_no_plans_key(entry.key()) || !is_no_object(alloc, entry)? {
        return Ok(false);
    }
    is_no_event(alloc, entry)
}

// A copy of an entry's key.
fn key_of(alloc: Global, entry: &Entry) -> Option<Vec<u8>>
    ensures { IfSome result (λ key. key.items ≡ entry.now.0) }
{
    match entry.key().to_vec(alloc) {
        Ok(key) => Some(key),
        Err(AllocError) => None,
    }
}

// The key of the first of these entries that is of nothing.
fn first_of_nothing(alloc: Global, entries: &[Entry]) -> Option<Vec<u8>>
    ensures { IfSome result (λ key. IsOneOfNothing entries.now key.items) }
{
    'each: for entry in entries {
        match is_of_nothing(alloc, entry) {
            Ok(false) => {}
            Ok(true) => return key_of(alloc, entry),
            Err(AllocError) => return None,
        }
    }
    None
}

/// The key of the first entry in the pages of a root that is of nothing: it is none of a policy's plans, and no object and no event has it. All entries are held in
/// memory meanwhile. None where each is of something, where the pages are damaged or hold no whole entries, and where the device failed or memory was refused.
pub fn damaged_entry<D: Device>(alloc: Global, device: &mut D, root: &Root) -> Option<Vec<u8>>
    requires small { log_sector root.now < 2 ^ 54 }
    requires inside { D.disk.keeps device.old → 512 * log_sector root.now ≤ length (D.disk.content device.old) }
    ensures damaged { D.disk.keeps device.old → IfSome result (λ key. HasDamagedEntry (D.disk.content device.old) root.now key.items) }
    ensures ran { Ran D.disk device.old device.new Same }
{
    let gathering = Gathering {
        entries: Vec::new(alloc),
    };
    match scan_whole(alloc, device, root, gathering) {
        Ok((_, gathering)) => first_of_nothing(alloc, &gathering.entries),
        Err(_) => None,
    }
}

// The policy of whose plans an entry is a piece.
fn policy_of(alloc: Global, entry: &Entry) -> Option<Key>
    ensures { IfSome result (λ key. IsPieceOf key entry.now) }
{
    let (stem, _number) = split_number(entry.key())?;
    let (mark, name) = stem.split_first()?;
    if *mark != PLANS_MARK {
        return None;
    }
    policy_named(alloc, name)
}

// Whether none of these entries has the key of an object.
fn are_without(alloc: Global, entries: &[Entry], key: &Key) -> Result<bool, AllocError>
    ensures { IfOk result (λ without. without ≡ true → AreWithout key.now entries.now) }
{
    let own = object_key(alloc, key)?;
    'each: for entry in entries {
        if entry.key() == own.as_slice() {
            return Ok(false);
        }
    }
    Ok(true)
}

// The policy of the first piece of plans among these entries whose policy is not among them.
fn first_lone(alloc: Global, entries: &[Entry]) -> Option<Key>
    ensures { IfSome result (IsLone entries.now) }
{
    'each: for entry in entries {
        if let Some(key) = policy_of(alloc, entry) {
            match are_without(alloc, entries, &key) {
                Ok(true) => return Some(key),
                Ok(false) => {}
                Err(AllocError) => return None,
            }
        }
    }
    None
}

/// The policy of the first piece of plans in the pages of a root whose policy is not in them. All entries are held in memory meanwhile. None where there is no such piece, where the
/// pages are damaged or hold no whole entries, and where the device failed or memory was refused.
pub fn lone_plans<D: Device>(alloc: Global, device: &mut D, root: &Root) -> Option<Key>
    requires small { log_sector root.now < 2 ^ 54 }
    requires inside { D.disk.keeps device.old → 512 * log_sector root.now ≤ length (D.disk.content device.old) }
    ensures lone { D.disk.keeps device.old → IfSome result (HasLonePlans (D.disk.content device.old) root.now) }
    ensures ran { Ran D.disk device.old device.new Same }
{
    let gathering = Gathering {
        entries: Vec::new(alloc),
    };
    match scan_whole(alloc, device, root, gathering) {
        Ok((_, gathering)) => first_lone(alloc, &gathering.entries),
        Err(_) => None,
    }
}
