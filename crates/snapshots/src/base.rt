//! Objects in pages, found and listed for what is held over them.

ghost use Rattle.std.specs.Prelude.{◌≡◌, ◌≤◌, ◌*◌, List, not, false, true, map, option_map, length, IfOk, OnOk, IsErrOf};
ghost use Rattle.std.specs.List.{filter};
ghost use Rattle.names.specs.Key.{Key as KeyData};
ghost use Rattle.objects.specs.Failing.{HasGrown};
ghost use Rattle.objects.specs.declared.fault.Part.{Part};
ghost use Rattle.objects.specs.declared.fault.LookupFault.TheVariants as LookupFault;
ghost use Rattle.histories.specs.declared.stored.Stored.{Stored as StoredData};
ghost use Rattle.pages.specs.Page.{Entry as EntryData};
ghost use Rattle.roots.specs.Root.{log_sector};
ghost use Rattle.snapshots.specs.ObjectCache.{root_of, HasEntries, AreObjects};
ghost use Rattle.handing.specs.Cells.{cells_in, stored_cells};
ghost use Rattle.snapshots.specs.HandedOn.{AreCellsBelow};
ghost use Rattle.snapshots.specs.BaseFaults.{of_cache_fault};
ghost use Rattle.snapshots.specs.Whole.{found_of, whole};
ghost use Rattle.snapshots.specs.declared.object_cache_fault.ObjectCacheFault.TheVariants as ObjectCacheFault;

use crate::cached_object::CachedObject;
use crate::making::FromDocument;
use crate::object_cache::ObjectCache;
use crate::object_cache_fault::ObjectCacheFault;
use device::Device;
use histories::Stored;
use holdings::{FoundDocument, Source};
use names::{Key, Resource};
use objects::{Changes, LookupFault, Part};
use std::alloc::{AllocError, Global};

/// The objects of a cache, on the device that its pages stand on, without those that are held in memory; and how what stands beside each is made.
#[derive(Drop)]
pub struct Base<'a, D: Device, M> {
    device: &'a mut D,
    cache: &'a mut ObjectCache,
    making: M,
    is_damaged: bool,
    ghost inside: { D.disk.keeps device.now → 512 * log_sector (root_of cache.now) ≤ length (D.disk.content device.now) },
}

impl<'a, D: Device, M: Drop> Base<'a, D, M> {
    ghost use Rattle.snapshots.specs.Base.{HoldsBase, GoesTo, IsUnfailed};

    /// The objects of this cache, whose pages stand on this device.
    pub fn new(device: &'a mut D, cache: &'a mut ObjectCache, making: M) -> Base<'a, D, M>
        requires inside { D.disk.keeps device.old → 512 * log_sector (root_of cache.old) ≤ length (D.disk.content device.old) }
        ensures same_device { result.device.ghost_name ≡ device.entry.ghost_name }
        ensures device { result.device.now ≡ device.old }
        ensures same_cache { result.cache.ghost_name ≡ cache.entry.ghost_name }
        ensures cache { result.cache.now ≡ cache.old }
        ensures making { result.making ≡ making }
        ensures whole { result.is_damaged ≡ false }
    {
        Base {
            device,
            cache,
            making,
            is_damaged: false,
        }
    }

    // What is told of a fault; damage is kept in mind.
    fn told(&mut self, fault: ObjectCacheFault) -> LookupFault
        ensures fault { result ≡ of_cache_fault fault }
        ensures same_device { self.new.device.ghost_name ≡ self.old.device.ghost_name }
        ensures device { self.new.device.now ≡ self.old.device.now }
        ensures same_cache { self.new.cache.ghost_name ≡ self.old.cache.ghost_name }
        ensures cache { self.new.cache.now ≡ self.old.cache.now }
        ensures making { self.new.making ≡ self.old.making }
        ensures whole { (fault ≡ ObjectCacheFault.Damaged → ⊥) → self.new.is_damaged ≡ self.old.is_damaged }
        ensures damaged { fault ≡ ObjectCacheFault.Damaged → self.new.is_damaged ≡ true }
    {
        match fault {
            ObjectCacheFault::Device => LookupFault::Device,
            ObjectCacheFault::Damaged => {
                self.is_damaged = true;
                LookupFault::Damaged(Part::Entry)
            }
            ObjectCacheFault::Memory => LookupFault::Memory,
        }
    }

    /// All objects that lie below, in key order. Each page is read once, and what of them lies in memory stays as it is.
    ///
    /// # Errors
    ///
    /// Those of [`Source::list`].
    pub fn all<P: Drop>(&mut self, alloc: Global) -> Result<Vec<(Key, Stored<P>)>, LookupFault>
    where
        M: FromDocument<P>,
        ensures listed { (objects : List (KeyData × StoredData P)) → HoldsBase M.made M.held self.old objects → IfOk result (λ listed. listed.items ≡ objects) }
        ensures are { (entries : List EntryData) → HasEntries D.disk self.old.device.now self.old.cache.now entries
            → OnOk result (AreObjects (root_of self.old.cache.now).label.format entries) }
        ensures kept { (objects : List (KeyData × StoredData P)) → HoldsBase M.made M.held self.old objects → HoldsBase M.made M.held self.new objects }
        ensures goes { GoesTo self.old self.new }
        ensures counts { D.disk.failures self.old.device.now ≤ D.disk.failures self.new.device.now }
        ensures steady { OnOk result (IsUnfailed self.old self.new) }
        ensures device { IsErrOf result LookupFault.Device → HasGrown (D.disk.failures self.old.device.now) (D.disk.failures self.new.device.now) }
        ensures memory { IsErrOf result LookupFault.Memory → IsUnfailed self.old self.new }
        ensures damaged { (part : Part) → IsErrOf result (LookupFault.Damaged part) → self.new.is_damaged ≡ true }
    {
        match self.cache.list_all(alloc, self.device) {
            Ok(objects) => {
                let objects = lying::<P, M>(&self.making, objects);
                Ok(all_of(alloc, &self.making, objects)?)
            }
            Err(fault) => Err(self.told(fault)),
        }
    }

    /// The cells of all objects that lie below, each with the key of its object, in key order. Each page is read once, and what of them lies in memory stays as
    /// it is. No document is looked at.
    ///
    /// # Errors
    ///
    /// Those of [`Source::list`].
    pub fn all_cells<P: Drop>(&mut self, alloc: Global) -> Result<Vec<(Key, Vec<u8>)>, LookupFault>
    where
        M: FromDocument<P>,
        ensures listed { (objects : List (KeyData × StoredData P)) → HoldsBase M.made M.held self.old objects
            → IfOk result (λ cells. cells_in cells.items ≡ stored_cells objects) }
        ensures are { (entries : List EntryData) → HasEntries D.disk self.old.device.now self.old.cache.now entries
            → IfOk result (λ cells. AreCellsBelow (M.held self.old.making) (root_of self.old.cache.now).label.format entries (cells_in cells.items)) }
        ensures kept { (objects : List (KeyData × StoredData P)) → HoldsBase M.made M.held self.old objects → HoldsBase M.made M.held self.new objects }
        ensures goes { GoesTo self.old self.new }
        ensures counts { D.disk.failures self.old.device.now ≤ D.disk.failures self.new.device.now }
        ensures steady { OnOk result (IsUnfailed self.old self.new) }
        ensures device { IsErrOf result LookupFault.Device → HasGrown (D.disk.failures self.old.device.now) (D.disk.failures self.new.device.now) }
        ensures memory { IsErrOf result LookupFault.Memory → IsUnfailed self.old self.new }
        ensures damaged { (part : Part) → IsErrOf result (LookupFault.Damaged part) → self.new.is_damaged ≡ true }
    {
        match self.cache.all_cells(alloc, self.device) {
            Ok(cells) => Ok(cells_lying::<P, M>(&self.making, cells)),
            Err(fault) => Err(self.told(fault)),
        }
    }
}

// What is found of what is stored.
fn found(cached: Option<CachedObject>) -> Option<FoundDocument>
    ensures { result ≡ option_map found_of cached }
{
    match cached {
        Some(cached) => Some(FoundDocument {
            document: cached.document,
            revision: cached.revision,
        }),
        None => None,
    }
}

// An object, with what stands beside its document.
fn whole<P, M: FromDocument<P>>(
    alloc: Global,
    making: &M,
    object: (Key, CachedObject),
) -> Result<(Key, Stored<P>), AllocError>
    ensures { IfOk result (λ made. made ≡ whole (M.made making.now) object) }
{
    let beside = making.make(alloc, &object.1.document)?;
    let (key, CachedObject { document, revision }) = object;
    Ok((
        key,
        Stored {
            document,
            beside,
            revision,
        },
    ))
}

// The same of objects.
fn all_of<P: Drop, M: FromDocument<P>>(
    alloc: Global,
    making: &M,
    objects: Vec<(Key, CachedObject)>,
) -> Result<Vec<(Key, Stored<P>)>, AllocError>
    ensures { IfOk result (λ listed. listed.items ≡ map (whole (M.made making.now)) objects.items) }
{
    let mut listed = Vec::new(alloc);
    for object in objects {
        listed.push(whole(alloc, making, object)?)?;
    }
    Ok(listed)
}

// Those of the objects that are not held in memory.
fn lying<P, M: FromDocument<P>>(
    making: &M,
    objects: Vec<(Key, CachedObject)>,
) -> Vec<(Key, CachedObject)>
    ensures { result.items ≡ filter (λ o. not (M.held making.now o.0.resource)) objects.items }
{
    let mut lying = objects;
    lying.retain(|object| !making.is_held(object.0.resource()));
    lying
}

// Those of the cells whose objects are not held in memory.
fn cells_lying<P, M: FromDocument<P>>(making: &M, cells: Vec<(Key, Vec<u8>)>) -> Vec<(Key, Vec<u8>)>
    ensures { result.items ≡ filter (λ c. not (M.held making.now c.0.resource)) cells.items }
{
    let mut lying = cells;
    lying.retain(|cell| !making.is_held(cell.0.resource()));
    lying
}

impl<'a, P: Drop, D: Device, M: FromDocument<P> + Drop> Source<P> for Base<'a, D, M> {
    ghost use Rattle.std.specs.Prelude.{◌≡◌, true, ◌-◌, ◌<◌};
    ghost use Rattle.snapshots.specs.Base.{HoldsBase, GoesTo, IsUnfailed, holds_nothing, stays, goes_on, unfailed_itself, unfailed_on};

    ghost holds = { HoldsBase M.made M.held };

    ghost failures = { λ base. D.disk.failures base.device.now };

    ghost is_damaged = { λ base. base.is_damaged ≡ true };

    ghost goes_to = { GoesTo };

    ghost unfailed = { IsUnfailed };

    ghost holds_nothing = { holds_nothing M.made M.held };

    ghost stays = { stays };

    ghost goes_on = { goes_on };

    ghost unfailed_itself = { unfailed_itself };

    ghost unfailed_on = { unfailed_on };

    fn find(&mut self, alloc: Global, key: &Key) -> Result<Option<FoundDocument>, LookupFault> {
        if self.making.is_held(key.resource()) {
            return Ok(None);
        }
        match self.cache.find(alloc, self.device, key) {
            Ok(cached) => Ok(found(cached)),
            Err(fault) => Err(self.told(fault)),
        }
    }

    fn list(
        &mut self,
        alloc: Global,
        resource: Resource,
        namespace: Option<&str>,
    ) -> Result<Vec<(Key, Stored<P>)>, LookupFault> {
        if self.making.is_held(resource) {
            return Ok(Vec::new(alloc));
        }
        match self.cache.list(alloc, self.device, resource, namespace) {
            Ok(objects) => Ok(all_of(alloc, &self.making, objects)?),
            Err(fault) => Err(self.told(fault)),
        }
    }

    fn has_unchanged(
        &mut self,
        alloc: Global,
        resource: Resource,
        namespace: &str,
        changes: &Changes<Stored<P>>,
    ) -> Result<bool, LookupFault> {
        if self.making.is_held(resource) {
            return Ok(false);
        }
        match self
            .cache
            .has_unchanged(alloc, self.device, resource, namespace, changes)
        {
            Ok(has) => Ok(has),
            Err(fault) => Err(self.told(fault)),
        }
    }
}
