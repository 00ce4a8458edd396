//! Where a store is damaged.

ghost use Rattle.std.specs.Prelude.{◌≡◌, ◌<◌, ◌≤◌, ◌*◌, ◌^◌, ◌∷◌, ℕ, List, length, string_bytes, IfOk, IfSome};
ghost use Rattle.device.specs.Step.{Same};
ghost use Rattle.device.specs.Run.{Ran};
ghost use Rattle.roots.specs.Root.{log_sector};
ghost use Rattle.damage.specs.declared.place.Place.TheVariants as PlaceData;
ghost use Rattle.damage.specs.Place.{IsAt, IsDamagedAt, Names, NamesParts, IsPage, IsEntry, ArePlans, IsRecord, key_path, place_text};

use crate::entry_search::{damaged_entry, lone_plans};
use crate::marks::{EVENT_MARK, PLANS_MARK};
use crate::page_search::damaged_page;
use crate::part_search::unjoined_part;
use crate::plan_search::{other_plans_in_log, other_plans_in_pages};
use crate::policy_name::policy_named;
use crate::record_search::damaged_record;
use byteorder::{BigEndian, ByteOrder};
use device::Device;
use names::Key;
use pages::PAGE_SECTORS;
use records::OBJECT_MARK;
use roots::{Root, counted_root};
use std::alloc::{AllocError, Global};

const REVISION_BYTES: usize = 8;

/// Where a store is damaged.
#[derive(Drop)]
pub enum Place {
    /// The page of this number, from 0, which begins at this sector. Those before it are sound.
    Page { number: u32, sector: u64 },
    /// What stands under the key of this object in the pages.
    Object(Key),
    /// What stands in the pages for the event of this revision.
    Event(u64),
    /// The plans of the object with this key, in the pages or in the log.
    Plans(Key),
    /// The record of the log whose body begins in this sector, behind its gate. Those before it are of writes.
    Record(u64),
}

impl Place {
    /// What is told of it, as `page 3 at sector 200`, `configmaps/default/a`, `event 17`, `plans of validatingadmissionpolicies/p` or `record at sector 9`.
    pub fn text(&self, alloc: Global) -> Result<String, AllocError>
        ensures { IfOk result (λ text. string_bytes text ≡ place_text self.now) }
    {
        match self {
            Place::Page { number, sector } => {
                format!(in alloc; "page {number} at sector {sector}")
            }
            Place::Object(key) => key_text(alloc, key),
            Place::Event(revision) => format!(in alloc; "event {revision}"),
            Place::Plans(key) => {
                let path = key_text(alloc, key)?;
                format!(in alloc; "plans of {path}")
            }
            Place::Record(sector) => format!(in alloc; "record at sector {sector}"),
        }
    }
}

// A key as a path: its resource, its namespace if it has one, and its name.
fn key_text(alloc: Global, key: &Key) -> Result<String, AllocError>
    ensures { IfOk result (λ text. string_bytes text ≡ key_path key.now) }
{
    let plural = key.resource().plural();
    let namespace = key.namespace();
    let name = key.name();
    if namespace.is_empty() {
        format!(in alloc; "{plural}/{name}")
    } else {
        format!(in alloc; "{plural}/{namespace}/{name}")
    }
}

// The object whose key this is.
fn object_named(alloc: Global, bytes: &[u8]) -> Option<Place>
    ensures names { IfSome result (λ place. Names place (1 ∷ bytes.now)) }
    ensures kind { IfSome result IsEntry }
{
    match Key::read(alloc, bytes) {
        Ok(key) => Some(Place::Object(key)),
        Err(_) => None,
    }
}

// The event whose revision this is.
fn event_named(bytes: &[u8]) -> Option<Place>
    ensures names { IfSome result (λ place. Names place (3 ∷ bytes.now)) }
    ensures parts { IfSome result (λ place. NamesParts place (3 ∷ bytes.now)) }
    ensures kind { IfSome result IsEntry }
{
    if bytes.len() != REVISION_BYTES {
        return None;
    }
    Some(Place::Event(BigEndian::read_u64(bytes)))
}

// The key that an entry's key in the pages names, as a place.
fn named(alloc: Global, key: &[u8]) -> Option<Place>
    ensures names { IfSome result (λ place. Names place key.now) }
    ensures kind { IfSome result IsEntry }
{
    let (mark, rest) = key.split_first()?;
    match *mark {
        OBJECT_MARK => object_named(alloc, rest),
        EVENT_MARK => event_named(rest),
        _ => None,
    }
}

// The object whose key this is, in front of a zero byte.
fn object_in_parts(alloc: Global, bytes: &[u8]) -> Option<Place>
    ensures parts { IfSome result (λ place. NamesParts place (1 ∷ bytes.now)) }
    ensures kind { IfSome result IsEntry }
{
    let (end, key) = bytes.split_last()?;
    if *end != 0 {
        return None;
    }
    match Key::read(alloc, key) {
        Ok(key) => Some(Place::Object(key)),
        Err(_) => None,
    }
}

// The plans of the policy whose name this is, in front of a zero byte.
fn plans_in_parts(alloc: Global, bytes: &[u8]) -> Option<Place>
    ensures parts { IfSome result (λ place. NamesParts place (2 ∷ bytes.now)) }
    ensures kind { IfSome result IsEntry }
{
    match policy_named(alloc, bytes) {
        Some(key) => Some(Place::Plans(key)),
        None => None,
    }
}

// What the parts are of in front of whose numbers this stands, as a place.
fn named_by_parts(alloc: Global, stem: &[u8]) -> Option<Place>
    ensures parts { IfSome result (λ place. NamesParts place stem.now) }
    ensures kind { IfSome result IsEntry }
{
    let (mark, rest) = stem.split_first()?;
    match *mark {
        OBJECT_MARK => object_in_parts(alloc, rest),
        EVENT_MARK => event_named(rest),
        PLANS_MARK => plans_in_parts(alloc, rest),
        _ => None,
    }
}

/// Looks for the page of a device that is damaged: the first of those of the root that counts. None where that root or a damaged page is not found, and where the device
/// fails or memory is refused meanwhile. Nothing is written.
pub fn damaged_page_of<D: Device>(alloc: Global, device: &mut D) -> Option<Place>
    ensures at { D.disk.keeps device.old → IfSome result (IsDamagedAt (D.disk.content device.old)) }
    ensures kind { IfSome result IsPage }
    ensures ran { Ran D.disk device.old device.new Same }
{
    match counted_root(device) {
        Ok(root) => {
            let number = damaged_page(alloc, device, &root)?;
            let sector = root.first_sector + PAGE_SECTORS * u64::from(number);
            Some(Place::Page { number, sector })
        }
        Err(_) => None,
    }
}

// The object or the event whose entry in the pages of a root is of nothing, as a place.
fn entry_in<D: Device>(alloc: Global, device: &mut D, root: &Root) -> Option<Place>
    requires small { log_sector root.now < 2 ^ 54 }
    requires inside { D.disk.keeps device.old → 512 * log_sector root.now ≤ length (D.disk.content device.old) }
    ensures at { D.disk.keeps device.old → IfSome result (IsAt (D.disk.content device.old) root.now) }
    ensures kind { IfSome result IsEntry }
    ensures ran { Ran D.disk device.old device.new Same }
{
    match damaged_entry(alloc, device, root) {
        Some(key) => named(alloc, &key),
        None => None,
    }
}

// What has a part in the pages of a root that does not join, as a place.
fn parts_in<D: Device>(alloc: Global, device: &mut D, root: &Root) -> Option<Place>
    requires small { log_sector root.now < 2 ^ 54 }
    requires inside { D.disk.keeps device.old → 512 * log_sector root.now ≤ length (D.disk.content device.old) }
    ensures at { D.disk.keeps device.old → IfSome result (IsAt (D.disk.content device.old) root.now) }
    ensures kind { IfSome result IsEntry }
    ensures ran { Ran D.disk device.old device.new Same }
{
    match unjoined_part(alloc, device, root) {
        Some(stem) => named_by_parts(alloc, &stem),
        None => None,
    }
}

// The plans in the pages of a root that are of no policy there, as a place.
fn lone_plans_in<D: Device>(alloc: Global, device: &mut D, root: &Root) -> Option<Place>
    requires small { log_sector root.now < 2 ^ 54 }
    requires inside { D.disk.keeps device.old → 512 * log_sector root.now ≤ length (D.disk.content device.old) }
    ensures at { D.disk.keeps device.old → IfSome result (IsAt (D.disk.content device.old) root.now) }
    ensures kind { IfSome result IsEntry }
    ensures ran { Ran D.disk device.old device.new Same }
{
    match lone_plans(alloc, device, root) {
        Some(key) => Some(Place::Plans(key)),
        None => None,
    }
}

// What is damaged in the pages of a root, as a place: an entry, else a part, else plans without a policy.
fn in_pages<D: Device>(alloc: Global, device: &mut D, root: &Root) -> Option<Place>
    requires small { log_sector root.now < 2 ^ 54 }
    requires inside { D.disk.keeps device.old → 512 * log_sector root.now ≤ length (D.disk.content device.old) }
    ensures at { D.disk.keeps device.old → IfSome result (IsAt (D.disk.content device.old) root.now) }
    ensures kind { IfSome result IsEntry }
    ensures ran { Ran D.disk device.old device.new Same }
{
    if let Some(place) = entry_in(alloc, device, root) {
        return Some(place);
    }
    if let Some(place) = parts_in(alloc, device, root) {
        return Some(place);
    }
    lone_plans_in(alloc, device, root)
}

/// Looks for what is damaged in the pages of a device's root: the first entry of which no object and no event has it; else the first part of a value that does not join, a chunk or a piece
/// of plans; else the first plans of a policy that is not there. None where the root or such damage is not found, where the pages are damaged, and where the device fails or memory is
/// refused meanwhile. All entries are held in memory. Nothing is written.
pub fn damaged_entry_of<D: Device>(alloc: Global, device: &mut D) -> Option<Place>
    ensures at { D.disk.keeps device.old → IfSome result (IsDamagedAt (D.disk.content device.old)) }
    ensures kind { IfSome result IsEntry }
    ensures ran { Ran D.disk device.old device.new Same }
{
    match counted_root(device) {
        Ok(root) => in_pages(alloc, device, &root),
        Err(_) => None,
    }
}

// The object whose plans are not those of its expressions, in the log behind the pages of a root, else in the pages.
fn other_plans<D: Device>(alloc: Global, device: &mut D, root: &Root) -> Option<Key>
    requires small { log_sector root.now < 2 ^ 54 }
    requires inside { D.disk.keeps device.old → 512 * log_sector root.now ≤ length (D.disk.content device.old) }
    ensures at { D.disk.keeps device.old → IfSome result (λ key. IsAt (D.disk.content device.old) root.now (PlaceData.Plans key)) }
    ensures ran { Ran D.disk device.old device.new Same }
{
    match other_plans_in_log(alloc, device, root) {
        Some(key) => Some(key),
        None => other_plans_in_pages(alloc, device, root),
    }
}

/// Looks for the plans on a device that are not those of the expressions of their object: in the last record of the log that puts such plans, else beside the first object in the pages.
/// None where the root or such plans are not found, where the pages hold no view and the log puts none, and where the device fails or memory is refused meanwhile. All entries are held
/// in memory. Nothing is written.
pub fn damaged_plans_of<D: Device>(alloc: Global, device: &mut D) -> Option<Place>
    ensures at { D.disk.keeps device.old → IfSome result (IsDamagedAt (D.disk.content device.old)) }
    ensures kind { IfSome result ArePlans }
    ensures ran { Ran D.disk device.old device.new Same }
{
    match counted_root(device) {
        Ok(root) => match other_plans(alloc, device, &root) {
            Some(key) => Some(Place::Plans(key)),
            None => None,
        },
        Err(_) => None,
    }
}

/// Looks for the first record of a device's log that is one of no writes. None where the root, a log or such a record is not found, and where the device fails or memory is refused
/// meanwhile. Nothing is written.
pub fn damaged_record_of<D: Device>(alloc: Global, device: &mut D) -> Option<Place>
    ensures at { D.disk.keeps device.old → IfSome result (IsDamagedAt (D.disk.content device.old)) }
    ensures kind { IfSome result IsRecord }
    ensures ran { Ran D.disk device.old device.new Same }
{
    match counted_root(device) {
        Ok(root) => match damaged_record(alloc, device, &root) {
            Some(sector) => Some(Place::Record(sector)),
            None => None,
        },
        Err(_) => None,
    }
}
