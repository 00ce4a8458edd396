//! Objects in pages, as they are looked up and listed.

ghost use Rattle.std.specs.Prelude.{◌≡◌, ◌<◌, ◌≤◌, ◌*◌, ◌^◌, ◌∷◌, List, [], Some, not, is_some, length, option_map, IsTrue, IfOk, OnOk, IsErrOf};
ghost use Rattle.std.specs.List.{filter, list_any, AllByRecursion};
ghost use Rattle.device.specs.Disk.{HasFailed};
ghost use Rattle.device.specs.Step.{Same};
ghost use Rattle.device.specs.Run.{Ran};
ghost use Rattle.names.specs.Key.{Key as KeyData, is_key, key_bytes};
ghost use Rattle.objects.specs.Objects.{value_at, is_of};
ghost use Rattle.holdings.specs.Sources.{is_unchanged};
ghost use Rattle.pages.specs.Page.{Entry as EntryData};
ghost use Rattle.roots.specs.Root.{log_sector};
ghost use Rattle.checkpoint.specs.Index.{keys_of};
ghost use Rattle.checkpoint.specs.Pages.{HoldsEntries, IsIndex, pages_of_root};
ghost use Rattle.shelf.specs.Prefix.{beginning};
ghost use Rattle.shelf.specs.Shelf as shelves;
ghost use Rattle.snapshots.specs.declared.object_cache_fault.ObjectCacheFault.TheVariants as ObjectCacheFault;
ghost use Rattle.snapshots.specs.declared.cached_object.CachedObject.{CachedObject as CachedObjectData};
ghost use Rattle.chunks.specs.Whole.{cuts_of, first_key, BeginsAlike, Wholes};
ghost use Rattle.names.specs.Format.{has_chunks};
ghost use Rattle.handing.specs.Cells.{cells_in};
ghost use Rattle.snapshots.specs.HandedOn.{cells_of as cells_below, AreCutCells};
ghost use Rattle.snapshots.specs.ObjectCache.{ObjectCaches, HasEntries, AreAmong, AreOf, AreCutOf, root_of};

use crate::cached_object::{CachedObject, read_entry};
use crate::cells::CellReader;
use crate::changed::ChangedReader;
use crate::keys::{has_zero, prefix_of};
use crate::listed::ListingReader;
use crate::object_cache_fault::ObjectCacheFault;
use chunks::{first_key, tell_whole, value_under};
use device::Device;
use names::{Key, Resource};
use objects::{Changes, KeyValue, Objects};
use pages::PAGE_BYTES;
use records::{OBJECT_MARK, object_key};
use roots::Root;
use shelf::{PAGES_IN_MEMORY, Reading, Shelf, ShelfFault};
use std::alloc::{AllocError, Global};

/// How many bytes the cells of the objects have together, at most, whose documents are kept: as many as the pages in memory.
pub const BYTES_IN_MEMORY: usize = PAGES_IN_MEMORY * PAGE_BYTES;

// The objects of the entries whose keys begin with a prefix. What lies in memory stays as it is.
fn objects_with<D: Device>(
    alloc: Global,
    shelf: &mut Shelf,
    device: &mut D,
    prefix: &[u8],
) -> Result<Vec<(Key, CachedObject)>, ObjectCacheFault>
    requires inside { D.disk.keeps device.old → 512 * log_sector (shelves.root_of shelf.old) ≤ length (D.disk.content device.old) }
    ensures found { (entries : List EntryData) (objects : List (KeyData × CachedObjectData)) → Wholes D.disk device.old shelf.old entries
        → AllByRecursion (BeginsAlike prefix.now) entries → AreOf (beginning prefix.now entries) objects → IfOk result (λ found. found.items ≡ objects) }
    ensures are { (entries : List EntryData) → shelves.Shelves D.disk device.old shelf.old entries
        → IfOk result (λ found. AreCutOf (cuts_of shelf.old) (beginning prefix.now entries) found.items) }
    ensures entries { (entries : List EntryData) → shelves.Shelves D.disk device.old shelf.old entries → shelves.Shelves D.disk device.new shelf.new entries }
    ensures root { shelves.root_of shelf.new ≡ shelves.root_of shelf.old }
    ensures damaged { (entries : List EntryData) (objects : List (KeyData × CachedObjectData)) → Wholes D.disk device.old shelf.old entries
        → AllByRecursion (BeginsAlike prefix.now) entries → AreOf (beginning prefix.now entries) objects → IsErrOf result ObjectCacheFault.Damaged → ⊥ }
    ensures ran { Ran D.disk device.old device.new Same }
    ensures cause { IsErrOf result ObjectCacheFault.Device → HasFailed D.disk device.old device.new }
    ensures steady { OnOk result (D.disk.failures device.new ≡ D.disk.failures device.old) }
    ensures memory { IsErrOf result ObjectCacheFault.Memory → D.disk.failures device.new ≡ D.disk.failures device.old }
{
    let none = ListingReader {
        objects: Vec::new(alloc),
    };
    let listed = tell_whole(alloc, shelf, device, prefix, Reading::Passing, none)?;
    Ok(listed.objects)
}

// The cells of the entries of objects. What lies in memory stays as it is.
fn cells_with<D: Device>(
    alloc: Global,
    shelf: &mut Shelf,
    device: &mut D,
) -> Result<Vec<(Key, Vec<u8>)>, ObjectCacheFault>
    requires inside { D.disk.keeps device.old → 512 * log_sector (shelves.root_of shelf.old) ≤ length (D.disk.content device.old) }
    ensures found { (entries : List EntryData) (objects : List (KeyData × CachedObjectData)) → Wholes D.disk device.old shelf.old entries
        → AllByRecursion (BeginsAlike (1 ∷ [])) entries → AreOf (beginning (1 ∷ []) entries) objects → IfOk result (λ cells. cells_in cells.items ≡ cells_below objects) }
    ensures are { (entries : List EntryData) → shelves.Shelves D.disk device.old shelf.old entries
        → IfOk result (λ cells. AreCutCells (cuts_of shelf.old) (beginning (1 ∷ []) entries) (cells_in cells.items)) }
    ensures entries { (entries : List EntryData) → shelves.Shelves D.disk device.old shelf.old entries → shelves.Shelves D.disk device.new shelf.new entries }
    ensures root { shelves.root_of shelf.new ≡ shelves.root_of shelf.old }
    ensures damaged { (entries : List EntryData) (objects : List (KeyData × CachedObjectData)) → Wholes D.disk device.old shelf.old entries
        → AllByRecursion (BeginsAlike (1 ∷ [])) entries → AreOf (beginning (1 ∷ []) entries) objects → IsErrOf result ObjectCacheFault.Damaged → ⊥ }
    ensures ran { Ran D.disk device.old device.new Same }
    ensures cause { IsErrOf result ObjectCacheFault.Device → HasFailed D.disk device.old device.new }
    ensures steady { OnOk result (D.disk.failures device.new ≡ D.disk.failures device.old) }
    ensures memory { IsErrOf result ObjectCacheFault.Memory → D.disk.failures device.new ≡ D.disk.failures device.old }
{
    let none = CellReader {
        cells: Vec::new(alloc),
    };
    let told = tell_whole(alloc, shelf, device, &[OBJECT_MARK], Reading::Passing, none)?;
    Ok(told.cells)
}

// Whether one of the entries whose keys begin with a prefix is of an object that has none of these changes. The first that is ends the reading, and the pages
// that were read lie in memory then.
fn has_unchanged_with<D: Device, T: Drop>(
    alloc: Global,
    shelf: &mut Shelf,
    device: &mut D,
    prefix: &[u8],
    changes: &Changes<T>,
) -> Result<bool, ObjectCacheFault>
    requires inside { D.disk.keeps device.old → 512 * log_sector (shelves.root_of shelf.old) ≤ length (D.disk.content device.old) }
    ensures found { (entries : List EntryData) (objects : List (KeyData × CachedObjectData)) → Wholes D.disk device.old shelf.old entries
        → AllByRecursion (BeginsAlike prefix.now) entries → AreOf (beginning prefix.now entries) objects
        → IfOk result (λ b. b ≡ list_any (λ o. not (is_some (value_at o.0 changes.now.made))) objects) }
    ensures entries { (entries : List EntryData) → shelves.Shelves D.disk device.old shelf.old entries → shelves.Shelves D.disk device.new shelf.new entries }
    ensures root { shelves.root_of shelf.new ≡ shelves.root_of shelf.old }
    ensures damaged { (entries : List EntryData) → shelves.Shelves D.disk device.old shelf.old entries → IsErrOf result ObjectCacheFault.Damaged → ⊥ }
    ensures ran { Ran D.disk device.old device.new Same }
    ensures cause { IsErrOf result ObjectCacheFault.Device → HasFailed D.disk device.old device.new }
    ensures steady { OnOk result (D.disk.failures device.new ≡ D.disk.failures device.old) }
    ensures memory { IsErrOf result ObjectCacheFault.Memory → D.disk.failures device.new ≡ D.disk.failures device.old }
{
    let format = shelf.root().label.format;
    let mut reader = ChangedReader { format, changes };
    match shelf.tell(alloc, device, prefix, Reading::Kept, &mut reader) {
        Ok(()) => Ok(false),
        Err(ShelfFault::Entry) => Ok(true),
        Err(ShelfFault::Device) => Err(ObjectCacheFault::Device),
        Err(ShelfFault::Page) => Err(ObjectCacheFault::Damaged),
        Err(ShelfFault::Memory) => Err(ObjectCacheFault::Memory),
    }
}

/// The objects in the pages of a shelf. The documents of those that were found are kept, up to [`BYTES_IN_MEMORY`]: of one that is found again the page is
/// brought into memory as ever, and its text is not read. Where one more has no place among them, they are let go.
#[derive(Drop)]
pub struct ObjectCache {
    shelf: Shelf,
    found: Objects<CachedObject>,
    // How many bytes their cells have together.
    found_bytes: usize,
}

impl ObjectCache {
    /// The objects of a shelf, of which none was found yet. Takes no memory.
    pub fn new(alloc: Global, shelf: Shelf) -> ObjectCache
        ensures shelf { result.shelf ≡ shelf }
        ensures found { result.found.entries ≡ [] }
    {
        ObjectCache {
            shelf,
            found: Objects::new(alloc),
            found_bytes: 0,
        }
    }

    /// The objects in the pages of another root, with the first key of each page, in place of those that it has. None of them was found yet.
    /// Allocates nothing. Only the contract uses `device`.
    pub fn start_over<D: Device>(
        &mut self,
        alloc: Global,
        device: &D,
        root: Root,
        first_keys: Vec<Vec<u8>>,
    )
        requires small { log_sector root < 2 ^ 54 }
        requires counted { length first_keys.items ≡ root.pages }
        ensures root { root_of self.new ≡ root }
        ensures shelves { (entries : List EntryData) → IsIndex (keys_of first_keys.items) (pages_of_root root (D.disk.content device.now))
            → (0 < root.pages → D.disk.keeps device.now)
            → HoldsEntries (D.disk.content device.now) root entries → shelves.Shelves D.disk device.now self.new.shelf entries }
        ensures found { self.new.found.entries ≡ [] }
    {
        self.shelf.start_over(device, root, first_keys);
        self.forget(alloc);
    }

    /// The root whose pages have the objects.
    pub fn root(&self) -> &Root
        ensures { result.now ≡ root_of self.now }
    {
        self.shelf.root()
    }

    // Lets go of the objects that were found.
    fn forget(&mut self, alloc: Global)
        ensures shelf { self.new.shelf ≡ self.old.shelf }
        ensures found { self.new.found.entries ≡ [] }
    {
        self.found = Objects::new(alloc);
        self.found_bytes = 0;
    }

    // Lets go of the objects that were found, where one more, whose cell has this many bytes, has no place among them.
    fn make_place(&mut self, alloc: Global, cell_bytes: usize)
        ensures shelf { self.new.shelf ≡ self.old.shelf }
        ensures found { (objects : List (KeyData × CachedObjectData)) → AreAmong self.old.found.entries objects → AreAmong self.new.found.entries objects }
    {
        if cell_bytes <= BYTES_IN_MEMORY.saturating_sub(self.found_bytes) {
            return;
        }
        self.forget(alloc);
    }

    // Keeps an object that was found, whose cell has this many bytes.
    fn keep(
        &mut self,
        alloc: Global,
        key: &Key,
        cached: &CachedObject,
        cell_bytes: usize,
    ) -> Result<(), AllocError>
        ensures shelf { self.new.shelf ≡ self.old.shelf }
        ensures found { (objects : List (KeyData × CachedObjectData)) → value_at key.now objects ≡ Some cached.now
            → AreAmong self.old.found.entries objects → AreAmong self.new.found.entries objects }
    {
        self.make_place(alloc, cell_bytes);
        self.found.reserve(1)?;
        let entry = KeyValue::new(alloc, key.clone()?, cached.clone()?)?;
        let _none = self.found.put(entry);
        self.found_bytes = self.found_bytes.saturating_add(cell_bytes);
        Ok(())
    }

    /// What is stored under a key. At most one page is read of a value that is not cut or has one chunk; of a longer one those that have its chunks. None is
    /// read that lies in memory.
    ///
    /// # Errors
    ///
    /// `Device` only where the device failed in this call; `Damaged` only where the pages do not hold objects in front of other entries; `Memory`.
    /// What the pages hold stays in each case.
    pub fn find<D: Device>(
        &mut self,
        alloc: Global,
        device: &mut D,
        key: &Key,
    ) -> Result<Option<CachedObject>, ObjectCacheFault>
        requires inside { D.disk.keeps device.old → 512 * log_sector (root_of self.old) ≤ length (D.disk.content device.old) }
        ensures found { (objects : List (KeyData × CachedObjectData)) → ObjectCaches D.disk device.old self.old objects
            → IfOk result (λ found. found ≡ value_at key.now objects) }
        ensures kept { (objects : List (KeyData × CachedObjectData)) → ObjectCaches D.disk device.old self.old objects → ObjectCaches D.disk device.new self.new objects }
        ensures root { root_of self.new ≡ root_of self.old }
        ensures damaged { (objects : List (KeyData × CachedObjectData)) → ObjectCaches D.disk device.old self.old objects → IsErrOf result ObjectCacheFault.Damaged → ⊥ }
        ensures ran { Ran D.disk device.old device.new Same }
        ensures cause { IsErrOf result ObjectCacheFault.Device → HasFailed D.disk device.old device.new }
        ensures steady { OnOk result (D.disk.failures device.new ≡ D.disk.failures device.old) }
        ensures memory { IsErrOf result ObjectCacheFault.Memory → D.disk.failures device.new ≡ D.disk.failures device.old }
    {
        let _resource = key.resource();
        let bytes = object_key(alloc, key)?;
        let first = first_key(alloc, self.root().label.format, &bytes)?;
        let place = self.shelf.bring(alloc, device, &first)?;
        self.read(alloc, device, place, &first, &bytes, key)
    }

    // The same, where the page was brought into memory in which its entry begins: what was found before is not read again, and what is read is kept.
    fn read<D: Device>(
        &mut self,
        alloc: Global,
        device: &mut D,
        place: Option<u32>,
        first: &[u8],
        bytes: &[u8],
        key: &Key,
    ) -> Result<Option<CachedObject>, ObjectCacheFault>
        requires brought { shelves.IsBrought self.old.shelf first.now place }
        requires first { first.now ≡ first_key (cuts_of self.old.shelf) bytes.now }
        requires bytes { bytes.now ≡ 1 ∷ key_bytes key.now }
        requires key { IsTrue (is_key key.now) }
        requires inside { D.disk.keeps device.old → 512 * log_sector (root_of self.old) ≤ length (D.disk.content device.old) }
        ensures found { (objects : List (KeyData × CachedObjectData)) → ObjectCaches D.disk device.old self.old objects
            → IfOk result (λ found. found ≡ value_at key.now objects) }
        ensures kept { (objects : List (KeyData × CachedObjectData)) → ObjectCaches D.disk device.old self.old objects → ObjectCaches D.disk device.new self.new objects }
        ensures root { root_of self.new ≡ root_of self.old }
        ensures damaged { (objects : List (KeyData × CachedObjectData)) → ObjectCaches D.disk device.old self.old objects → IsErrOf result ObjectCacheFault.Damaged → ⊥ }
        ensures ran { Ran D.disk device.old device.new Same }
        ensures cause { IsErrOf result ObjectCacheFault.Device → HasFailed D.disk device.old device.new }
        ensures steady { OnOk result (D.disk.failures device.new ≡ D.disk.failures device.old) }
        ensures memory { IsErrOf result ObjectCacheFault.Memory → D.disk.failures device.new ≡ D.disk.failures device.old }
    {
        if let Some(cached) = self.found.get(key) {
            return Ok(Some(cached.clone()?));
        }
        let Some(value) = value_under(alloc, &mut self.shelf, device, place, first, bytes)? else {
            return Ok(None);
        };
        let cached = read_entry(alloc, bytes, &value)?.1;
        // Without memory it is not kept, and read again.
        let _kept = self.keep(alloc, key, &cached, value.len());
        Ok(Some(cached))
    }

    /// The objects of a resource, in one namespace or in all, ascending by key. Of the pages only those are read that may have one, one after the
    /// other, each once; what lies in memory stays as it is.
    ///
    /// # Errors
    ///
    /// Those of `find`.
    pub fn list<D: Device>(
        &mut self,
        alloc: Global,
        device: &mut D,
        resource: Resource,
        namespace: Option<&str>,
    ) -> Result<Vec<(Key, CachedObject)>, ObjectCacheFault>
        requires inside { D.disk.keeps device.old → 512 * log_sector (root_of self.old) ≤ length (D.disk.content device.old) }
        ensures found { let text = option_map (λ text. text.now) namespace.entry in
            (objects : List (KeyData × CachedObjectData)) → ObjectCaches D.disk device.old self.old objects
            → IfOk result (λ listed. listed.items ≡ filter (λ object. is_of resource text object.0) objects) }
        ensures kept { (objects : List (KeyData × CachedObjectData)) → ObjectCaches D.disk device.old self.old objects → ObjectCaches D.disk device.new self.new objects }
        ensures root { root_of self.new ≡ root_of self.old }
        ensures damaged { (objects : List (KeyData × CachedObjectData)) → ObjectCaches D.disk device.old self.old objects → IsErrOf result ObjectCacheFault.Damaged → ⊥ }
        ensures ran { Ran D.disk device.old device.new Same }
        ensures cause { IsErrOf result ObjectCacheFault.Device → HasFailed D.disk device.old device.new }
        ensures steady { OnOk result (D.disk.failures device.new ≡ D.disk.failures device.old) }
        ensures memory { IsErrOf result ObjectCacheFault.Memory → D.disk.failures device.new ≡ D.disk.failures device.old }
    {
        // No namespace has a zero byte, and behind one the pages have more than keys.
        if has_zero(namespace) {
            return Ok(Vec::new(alloc));
        }
        let prefix = prefix_of(alloc, resource, namespace)?;
        objects_with(alloc, &mut self.shelf, device, &prefix)
    }

    /// Whether an object of a resource in a namespace has none of these changes. The pages that may have one are read one after the other, up to the first
    /// such object, and no document is. They lie in memory then: to ask again reads none, but for those that do not fit there.
    ///
    /// # Errors
    ///
    /// Those of `find`. An entry that stands among the objects and is none counts as one: what is in doubt is not taken for gone.
    pub fn has_unchanged<D: Device, T: Drop>(
        &mut self,
        alloc: Global,
        device: &mut D,
        resource: Resource,
        namespace: &str,
        changes: &Changes<T>,
    ) -> Result<bool, ObjectCacheFault>
        requires inside { D.disk.keeps device.old → 512 * log_sector (root_of self.old) ≤ length (D.disk.content device.old) }
        ensures found { (objects : List (KeyData × CachedObjectData)) → ObjectCaches D.disk device.old self.old objects
            → IfOk result (λ b. b ≡ list_any (λ object. is_unchanged resource namespace.now changes.now.made object.0) objects) }
        ensures kept { (objects : List (KeyData × CachedObjectData)) → ObjectCaches D.disk device.old self.old objects → ObjectCaches D.disk device.new self.new objects }
        ensures root { root_of self.new ≡ root_of self.old }
        ensures damaged { (objects : List (KeyData × CachedObjectData)) → ObjectCaches D.disk device.old self.old objects → IsErrOf result ObjectCacheFault.Damaged → ⊥ }
        ensures ran { Ran D.disk device.old device.new Same }
        ensures cause { IsErrOf result ObjectCacheFault.Device → HasFailed D.disk device.old device.new }
        ensures steady { OnOk result (D.disk.failures device.new ≡ D.disk.failures device.old) }
        ensures memory { IsErrOf result ObjectCacheFault.Memory → D.disk.failures device.new ≡ D.disk.failures device.old }
    {
        // No namespace has a zero byte, and behind one the pages have more than keys.
        if has_zero(Some(namespace)) {
            return Ok(false);
        }
        let prefix = prefix_of(alloc, resource, Some(namespace))?;
        has_unchanged_with(alloc, &mut self.shelf, device, &prefix, changes)
    }

    /// All objects, ascending by key. Each page is read once that may have one, one after the other, and what lies in memory stays as it is.
    ///
    /// # Errors
    ///
    /// Those of `find`.
    pub fn list_all<D: Device>(
        &mut self,
        alloc: Global,
        device: &mut D,
    ) -> Result<Vec<(Key, CachedObject)>, ObjectCacheFault>
        requires inside { D.disk.keeps device.old → 512 * log_sector (root_of self.old) ≤ length (D.disk.content device.old) }
        ensures found { (objects : List (KeyData × CachedObjectData)) → ObjectCaches D.disk device.old self.old objects
            → IfOk result (λ listed. listed.items ≡ objects) }
        ensures are { (entries : List EntryData) → HasEntries D.disk device.old self.old entries
            → IfOk result (λ listed. AreCutOf (has_chunks (root_of self.old).label.format) (beginning (1 ∷ []) entries) listed.items) }
        ensures kept { (objects : List (KeyData × CachedObjectData)) → ObjectCaches D.disk device.old self.old objects → ObjectCaches D.disk device.new self.new objects }
        ensures root { root_of self.new ≡ root_of self.old }
        ensures damaged { (objects : List (KeyData × CachedObjectData)) → ObjectCaches D.disk device.old self.old objects → IsErrOf result ObjectCacheFault.Damaged → ⊥ }
        ensures ran { Ran D.disk device.old device.new Same }
        ensures cause { IsErrOf result ObjectCacheFault.Device → HasFailed D.disk device.old device.new }
        ensures steady { OnOk result (D.disk.failures device.new ≡ D.disk.failures device.old) }
        ensures memory { IsErrOf result ObjectCacheFault.Memory → D.disk.failures device.new ≡ D.disk.failures device.old }
    {
        objects_with(alloc, &mut self.shelf, device, &[OBJECT_MARK])
    }

    /// The cells of all objects, each with the key of its object, ascending by key. Each page is read once that may have one, one after the other, and what lies
    /// in memory stays as it is. No document is looked at: so of a cell with none nothing is told.
    ///
    /// # Errors
    ///
    /// Those of `find`.
    pub fn all_cells<D: Device>(
        &mut self,
        alloc: Global,
        device: &mut D,
    ) -> Result<Vec<(Key, Vec<u8>)>, ObjectCacheFault>
        requires inside { D.disk.keeps device.old → 512 * log_sector (root_of self.old) ≤ length (D.disk.content device.old) }
        ensures found { (objects : List (KeyData × CachedObjectData)) → ObjectCaches D.disk device.old self.old objects
            → IfOk result (λ cells. cells_in cells.items ≡ cells_below objects) }
        ensures are { (entries : List EntryData) → HasEntries D.disk device.old self.old entries
            → IfOk result (λ cells. AreCutCells (has_chunks (root_of self.old).label.format) (beginning (1 ∷ []) entries) (cells_in cells.items)) }
        ensures kept { (objects : List (KeyData × CachedObjectData)) → ObjectCaches D.disk device.old self.old objects → ObjectCaches D.disk device.new self.new objects }
        ensures root { root_of self.new ≡ root_of self.old }
        ensures damaged { (objects : List (KeyData × CachedObjectData)) → ObjectCaches D.disk device.old self.old objects → IsErrOf result ObjectCacheFault.Damaged → ⊥ }
        ensures ran { Ran D.disk device.old device.new Same }
        ensures cause { IsErrOf result ObjectCacheFault.Device → HasFailed D.disk device.old device.new }
        ensures steady { OnOk result (D.disk.failures device.new ≡ D.disk.failures device.old) }
        ensures memory { IsErrOf result ObjectCacheFault.Memory → D.disk.failures device.new ≡ D.disk.failures device.old }
    {
        cells_with(alloc, &mut self.shelf, device)
    }
}
