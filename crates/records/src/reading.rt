//! Reading a view from its entries.

ghost use Rattle.std.specs.Prelude.{◌≡◌, ◌≢◌, ◌≤◌, ◌<◌, ◌-◌, ◌^◌, ◌++◌, ◌∷◌, ◌↔◌, [], false, ℕ, List, map, drop, length, IsTrue, IfOk, IsErrOf};
ghost use Rattle.std.specs.FinMap.{is_sorted};
ghost use Rattle.std.specs.List.{AllByRecursion};
ghost use Rattle.names.specs.declared.format.Rules.{Rules};
ghost use Rattle.names.specs.Key.{Key as KeyData, key_cmp};
ghost use Rattle.window.specs.declared.event.Event.{Event as EventData};
ghost use Rattle.window.specs.Window.{AreNumberedFrom};
ghost use Rattle.documents.specs.Document.{Document as DocumentData};
ghost use Rattle.histories.specs.declared.stored.Stored.{Stored};
ghost use Rattle.histories.specs.View.{View};
ghost use Rattle.pages.specs.Page.{Entry as EntryData};
ghost use Rattle.records.specs.declared.entry_fault.EntryFault.TheVariants as EntryFault;
ghost use Rattle.records.specs.Entries.{plan_entry, plan_entries, event_entry, stored_entry, plans_among, entries_of};
ghost use Rattle.records.specs.Holding.{IsStorableEvent, CanHoldObject, HasFewPlans, IsHoldable};
ghost use Rattle.records.specs.EntryLaws.{bytes_beside};
ghost use Rattle.records.specs.Reading.{entry_read, IsReadObject, IsStorableStored, BeginsOtherwise, BeginsWithout, AreAbove, ArePlans, AreFollowed, IsReadView};
ghost use Rattle.names.specs.declared.resource.Resource.TheVariants.{ValidatingAdmissionPolicy};

use crate::entry::Entry;
use crate::entry_fault::EntryFault;
use crate::event::read_event;
use crate::kept::{KeptObject, KeptView};
use crate::object::{StoredObject, is_object_key, read_object};
use crate::plans::{piece_key, read_piece};
use documents::Document;
use names::{Key, Resource};
use std::alloc::{AllocError, Global};
use window::Event;

// The objects that the first entries are of.
fn read_objects(alloc: Global, entries: &[Entry]) -> Result<Vec<StoredObject>, EntryFault>
    ensures entries { IfOk result (λ os. map entry_read os.items ++ drop (length os.items) entries.now ≡ entries.now) }
    ensures storable { IfOk result (λ os. AllByRecursion IsReadObject os.items) }
    ensures stops { IfOk result (λ os. BeginsOtherwise (drop (length os.items) entries.now)) }
    ensures damaged { IsErrOf result EntryFault.Damaged → (os : List (KeyData × Stored (List ℕ))) (rest : List EntryData)
        → AllByRecursion IsStorableStored os → BeginsOtherwise rest → map stored_entry os ++ rest ≢ entries.now }
{
    let mut objects = Vec::new(alloc);
    for entry in entries {
        let own_key = entry.key();
        if !is_object_key(own_key) {
            return Ok(objects);
        }
        objects.push(read_object(alloc, own_key, entry.cell())?)?;
    }
    Ok(objects)
}

// Whether the entry has the key of the piece of a policy's plans with this number, of which there are 65536.
fn is_piece(alloc: Global, policy: &Key, number: usize, entry: &Entry) -> Result<bool, AllocError>
    ensures other { IfOk result (λ is. is ≡ false → BeginsWithout policy.now number (entry.now ∷ [])) }
    ensures piece { IfOk result (λ is. IsTrue is → entry.now.0 ≡ (plan_entry policy.now [] number).0) }
    ensures few { IfOk result (λ is. IsTrue is → number < 65536) }
{
    if number > 65535 {
        return Ok(false);
    }
    let key = piece_key(alloc, policy, number as u16)?;
    Ok(entry.key() == key.as_slice())
}

// The bytes of a policy's plans, whose pieces are the first entries, and how many these are.
fn read_plans(
    alloc: Global,
    policy: &Key,
    entries: &[Entry],
) -> Result<(Vec<u8>, usize), EntryFault>
    ensures inside { IfOk result (λ r. r.1 ≤ length entries.now) }
    ensures entries { IfOk result (λ r. plan_entries policy.now r.0.items ++ drop r.1 entries.now ≡ entries.now) }
    ensures few { IfOk result (λ r. length r.0.items ≤ 2 ^ 30) }
    ensures found { (plans : List ℕ) (rest : List EntryData) → length plans ≤ 2 ^ 30 → AreAbove policy.now rest → plan_entries policy.now plans ++ rest ≡ entries.now
        → IfOk result (λ r. (r.0.items ≡ plans) × (drop r.1 entries.now ≡ rest)) }
    ensures damaged { IsErrOf result EntryFault.Damaged → (plans : List ℕ) (rest : List EntryData)
        → length plans ≤ 2 ^ 30 → AreAbove policy.now rest → plan_entries policy.now plans ++ rest ≢ entries.now }
{
    let mut plans = Vec::new(alloc);
    let mut count = 0;
    for entry in entries {
        if !is_piece(alloc, policy, count, entry)? {
            return Ok((plans, count));
        }
        read_piece(alloc, policy, &mut plans, entry.key(), entry.cell())?;
        count += 1;
    }
    Ok((plans, count))
}

// The bytes of the plans that an object has, and how many of the first entries these are: none but for a policy.
fn plans_of(alloc: Global, key: &Key, entries: &[Entry]) -> Result<(Vec<u8>, usize), EntryFault>
    ensures inside { IfOk result (λ r. r.1 ≤ length entries.now) }
    ensures entries { IfOk result (λ r. plan_entries key.now r.0.items ++ drop r.1 entries.now ≡ entries.now) }
    ensures few { IfOk result (λ r. (r.0.items ≢ [] → key.now.resource ≡ ValidatingAdmissionPolicy) × (length r.0.items ≤ 2 ^ 30)) }
    ensures found { (plans : List ℕ) (rest : List EntryData) → ArePlans key.now plans rest → plan_entries key.now plans ++ rest ≡ entries.now
        → IfOk result (λ r. (r.0.items ≡ plans) × (drop r.1 entries.now ≡ rest)) }
    ensures damaged { IsErrOf result EntryFault.Damaged → (plans : List ℕ) (rest : List EntryData)
        → ArePlans key.now plans rest → plan_entries key.now plans ++ rest ≢ entries.now }
{
    match key.resource() {
        Resource::ValidatingAdmissionPolicy => read_plans(alloc, key, entries),
        _ => Ok((Vec::new(alloc), 0)),
    }
}

// The objects with their plans, whose pieces are the first entries, and how many these are.
fn with_plans(
    alloc: Global,
    objects: Vec<StoredObject>,
    entries: &[Entry],
) -> Result<(Vec<KeptObject>, usize), EntryFault>
    ensures inside { IfOk result (λ r. r.1 ≤ length entries.now) }
    ensures objects { IfOk result (λ r. map stored_entry r.0.items ≡ map entry_read objects.items) }
    ensures storable { AllByRecursion IsReadObject objects.items → IfOk result (λ r. AllByRecursion IsStorableStored r.0.items) }
    ensures entries { IfOk result (λ r. plans_among bytes_beside r.0.items ++ drop r.1 entries.now ≡ entries.now) }
    ensures few { IfOk result (λ r. AllByRecursion (HasFewPlans bytes_beside) r.0.items) }
    ensures found { (os : List (KeyData × Stored (List ℕ))) (rest : List EntryData) → AllByRecursion IsReadObject objects.items
        → AreFollowed os rest → map stored_entry os ≡ map entry_read objects.items → plans_among bytes_beside os ++ rest ≡ entries.now
        → IfOk result (λ r. (r.0.items ≡ os) × (drop r.1 entries.now ≡ rest)) }
    ensures damaged { IsErrOf result EntryFault.Damaged → (os : List (KeyData × Stored (List ℕ))) (rest : List EntryData) → AllByRecursion IsReadObject objects.items
        → AreFollowed os rest → map stored_entry os ≡ map entry_read objects.items → plans_among bytes_beside os ++ rest ≢ entries.now }
{
    let mut kept = Vec::new(alloc);
    let mut at = 0;
    for object in objects {
        let (plans, count) = plans_of(alloc, object.manifest.key(), &entries[at..])?;
        at += count;
        kept.push(KeptObject {
            manifest: object.manifest,
            plans,
            revision: object.revision,
        })?;
    }
    Ok((kept, at))
}

// The events that the entries are of.
fn read_events(alloc: Global, entries: &[Entry]) -> Result<Vec<Event<Document>>, EntryFault>
    ensures entries { IfOk result (λ es. map event_entry es.items ≡ entries.now) }
    ensures storable { IfOk result (λ es. AllByRecursion IsStorableEvent es.items) }
    ensures damaged { IsErrOf result EntryFault.Damaged → (es : List (EventData DocumentData))
        → AllByRecursion IsStorableEvent es → map event_entry es ≢ entries.now }
{
    let mut events = Vec::new(alloc);
    for entry in entries {
        events.push(read_event(alloc, entry.key(), entry.cell())?)?;
    }
    Ok(events)
}

// Whether the revisions of the events count up to this one.
fn are_numbered(events: &[Event<Document>], revision: u64) -> bool
    ensures { IsTrue result ↔ AreNumberedFrom (revision - length events.now) events.now }
{
    let mut last = revision.saturating_sub(events.len() as u64);
    for event in events {
        if event.revision.checked_sub(1) != Some(last) {
            return false;
        }
        last = event.revision;
    }
    true
}

/// Reads the view at a revision from its entries, in their order.
///
/// # Errors
///
/// `Damaged` where no view that can be held has these entries and this revision, and `Memory` when out of memory.
pub fn read_view(alloc: Global, entries: &[Entry], revision: u64) -> Result<KeptView, EntryFault>
    ensures entries { IfOk result (λ v. entries_of bytes_beside v ≡ entries.now) }
    ensures revision { IfOk result (λ v. v.revision ≡ revision) }
    ensures storable { IfOk result IsReadView }
    ensures found { (rules : Rules) (v : View (List ℕ)) → IsHoldable bytes_beside rules v → entries_of bytes_beside v ≡ entries.now → v.revision ≡ revision
        → IfOk result (λ read. read ≡ v) }
    ensures damaged { IsErrOf result EntryFault.Damaged
        → (rules : Rules) (v : View (List ℕ)) → IsHoldable bytes_beside rules v → v.revision ≡ revision → entries_of bytes_beside v ≢ entries.now }
{
    let read = read_objects(alloc, entries)?;
    let behind = &entries[read.len()..];
    let (objects, count) = with_plans(alloc, read, behind)?;
    let events = read_events(alloc, &behind[count..])?;
    if !are_numbered(&events, revision) {
        return Err(EntryFault::Damaged);
    }
    Ok(KeptView {
        objects,
        revision,
        events,
    })
}
