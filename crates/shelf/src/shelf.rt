//! The pages of a root, as they are looked up.

ghost use Rattle.std.specs.Prelude.{◌≡◌, ◌⊎◌, ◌<◌, ◌≤◌, ◌+◌, ◌*◌, ◌^◌, [], ℕ, List, length, get_or, option_map, true, IsTrue, IfOk, OnOk, IsErrOf};
ghost use Rattle.std.specs.FinMap.{find};
ghost use Rattle.device.specs.Disk.{HasFailed};
ghost use Rattle.device.specs.Step.{Same};
ghost use Rattle.device.specs.Run.{Ran};
ghost use Rattle.pages.specs.Page.{Entry, bytes_cmp};
ghost use Rattle.roots.specs.Root.{log_sector};
ghost use Rattle.checkpoint.specs.Reader.{IsRefused};
ghost use Rattle.shelf.specs.Places.{is_at_or_below, may_begin};
ghost use Rattle.shelf.specs.Prefix.{beginning};
ghost use Rattle.shelf.specs.declared.fault.ShelfFault.TheVariants as ShelfFault;

use crate::fault::ShelfFault;
use crate::page::{read_page, tell_page};
use checkpoint::Reader;
use device::Device;
use lru::LruCache;
use pages::{OwnedPage, PAGE_SECTORS, Page};
use roots::Root;
use std::alloc::{AllocError, Global};
use std::num::NonZeroUsize;

/// How many pages lie in memory, at most.
pub const PAGES_IN_MEMORY: usize = 64;

/// What becomes of the pages that are read to tell the entries of a range.
#[derive(Clone, Copy)]
pub enum Reading {
    /// They lie in memory then, as those that were used last.
    Kept,
    /// What lies in memory stays as it is: pages that are read to be listed once throw out none that single keys are looked up in.
    Passing,
}

// Whether a page that begins so does not begin above the key.
fn is_at_or_below(key: &[u8], first: &[u8]) -> bool
    ensures { result ≡ is_at_or_below key.now first.now }
{
    !key.cmp(first).is_lt()
}

// Whether a page that begins so does not begin above all keys with the prefix.
fn may_begin(prefix: &[u8], first: &[u8]) -> bool
    ensures { result ≡ may_begin prefix.now first.now }
{
    is_at_or_below(prefix, first) || first.starts_with(prefix)
}

/// The pages of a root: the first key of each, and those that were used last in memory. They stand on a device that each call is given, since more is
/// written there than pages.
#[derive(Drop)]
pub struct Shelf {
    root: Root,
    first_keys: Vec<Vec<u8>>,
    cache: LruCache<u32, OwnedPage>,
    ghost small: { log_sector root < 2 ^ 54 },
    ghost counted: { length first_keys.items ≡ root.pages },
}

impl Shelf {
    ghost use Rattle.checkpoint.specs.Index.{keys_of};
    ghost use Rattle.checkpoint.specs.Pages.{HoldsEntries, IsIndex, pages_of_root};
    ghost use Rattle.shelf.specs.Places.{IsSplit};
    ghost use Rattle.shelf.specs.Shelf.{root_of, firsts_of, pages_of, Has, Shelves, IsBrought};

    /// The shelf of a root's pages, with the first key of each. None of them is in memory yet. Only the contract uses `device`.
    ///
    /// # Errors
    ///
    /// Out of memory.
    pub fn new<D: Device>(
        alloc: Global,
        device: &D,
        root: Root,
        first_keys: Vec<Vec<u8>>,
    ) -> Result<Shelf, AllocError>
        requires small { log_sector root < 2 ^ 54 }
        requires counted { length first_keys.items ≡ root.pages }
        ensures root { IfOk result (λ shelf. root_of shelf ≡ root) }
        ensures firsts { IfOk result (λ shelf. firsts_of shelf ≡ keys_of first_keys.items) }
        ensures shelves { (entries : List Entry) → IsIndex (keys_of first_keys.items) (pages_of_root root (D.disk.content device.now))
            → (0 < root.pages → D.disk.keeps device.now)
            → HoldsEntries (D.disk.content device.now) root entries → IfOk result (λ shelf. Shelves D.disk device.now shelf entries) }
    {
        let _ = device;
        match NonZeroUsize::new(PAGES_IN_MEMORY) {
            Some(most) => Ok(Shelf {
                root,
                first_keys,
                cache: LruCache::new(alloc, most)?,
            }),
            None => Err(AllocError),
        }
    }

    /// The pages of another root, with the first key of each, in place of those that it has. None of them is in memory yet. This allocates nothing.
    /// Only the contract uses `device`.
    pub fn start_over<D: Device>(&mut self, device: &D, root: Root, first_keys: Vec<Vec<u8>>)
        requires small { log_sector root < 2 ^ 54 }
        requires counted { length first_keys.items ≡ root.pages }
        ensures root { root_of self.new ≡ root }
        ensures firsts { firsts_of self.new ≡ keys_of first_keys.items }
        ensures shelves { (entries : List Entry) → IsIndex (keys_of first_keys.items) (pages_of_root root (D.disk.content device.now))
            → (0 < root.pages → D.disk.keeps device.now)
            → HoldsEntries (D.disk.content device.now) root entries → Shelves D.disk device.now self.new entries }
    {
        let _ = device;
        self.root = root;
        self.first_keys = first_keys;
        self.cache.clear();
    }

    /// The root whose pages it has.
    pub fn root(&self) -> &Root
        ensures { result.now ≡ root_of self.now }
    {
        &self.root
    }

    // How many pages do not begin above the key.
    fn count_up_to(&self, key: &[u8]) -> u32
        ensures bound { result ≤ (root_of self.now).pages }
        ensures split { (pages : List (List Entry)) → IsIndex (firsts_of self.now) pages
            → IsSplit (is_at_or_below key.now) (firsts_of self.now) result }
    {
        let _pages = self.root.pages;
        self.first_keys
            .partition_point(|first| is_at_or_below(key, first)) as u32
    }

    // How many pages do not begin above all keys with the prefix.
    fn count_with(&self, prefix: &[u8]) -> u32
        ensures bound { result ≤ (root_of self.now).pages }
        ensures split { (pages : List (List Entry)) → IsIndex (firsts_of self.now) pages
            → IsSplit (may_begin prefix.now) (firsts_of self.now) result }
    {
        let _pages = self.root.pages;
        self.first_keys
            .partition_point(|first| may_begin(prefix, first)) as u32
    }

    // Brings a page into memory, where it is not there by one read of 64 sectors. It counts as used.
    fn fetch<D: Device>(
        &mut self,
        alloc: Global,
        device: &mut D,
        page: u32,
    ) -> Result<(), ShelfFault>
        requires number { page < (root_of self.old).pages }
        requires inside { D.disk.keeps device.old → 512 * log_sector (root_of self.old) ≤ length (D.disk.content device.old) }
        ensures there { OnOk result (Has self.new page) }
        ensures kept { (entries : List Entry) → Shelves D.disk device.old self.old entries → Shelves D.disk device.new self.new entries }
        ensures root { root_of self.new ≡ root_of self.old }
        ensures firsts { firsts_of self.new ≡ firsts_of self.old }
        ensures damaged { (entries : List Entry) → Shelves D.disk device.old self.old entries → IsErrOf result ShelfFault.Page → ⊥ }
        ensures refusal { IsErrOf result ShelfFault.Entry → ⊥ }
        ensures ran { Ran D.disk device.old device.new Same }
        ensures cause { IsErrOf result ShelfFault.Device → HasFailed D.disk device.old device.new }
        ensures steady { OnOk result (D.disk.failures device.new ≡ D.disk.failures device.old) }
        ensures unfailed { IsErrOf result ShelfFault.Memory → D.disk.failures device.new ≡ D.disk.failures device.old }
    {
        if self.cache.promote(&page) {
            return Ok(());
        }
        let at = self.root.first_sector + PAGE_SECTORS * u64::from(page);
        let owned = read_page(alloc, device, at)?;
        self.cache.put(page, owned)?;
        Ok(())
    }

    // A page that lies in memory.
    fn page<D: Device>(&self, device: &D, page: u32) -> Page<'_>
        requires there { Has self.now page }
        ensures { (entries : List Entry) → Shelves D.disk device.now self.now entries → page < (root_of self.now).pages
            → result ≡ get_or (pages_of D.disk device.now self.now) page [] }
    {
        let _ = device;
        match self.cache.peek(&page) {
            Some(owned) => owned.page(),
            None => unreachable!("the page lies in memory"),
        }
    }

    /// Brings the page that may have a key into memory, and answers which one: none where no page begins at or below the key. At most one page is read.
    ///
    /// # Errors
    ///
    /// `Device` only where the device failed in this call; `Page` only where the pages hold no ascending entries; `Memory`. What the shelf
    /// shows stays in each case.
    pub fn bring<D: Device>(
        &mut self,
        alloc: Global,
        device: &mut D,
        key: &[u8],
    ) -> Result<Option<u32>, ShelfFault>
        requires inside { D.disk.keeps device.old → 512 * log_sector (root_of self.old) ≤ length (D.disk.content device.old) }
        ensures brought { IfOk result (IsBrought self.new key.now) }
        ensures kept { (entries : List Entry) → Shelves D.disk device.old self.old entries → Shelves D.disk device.new self.new entries }
        ensures root { root_of self.new ≡ root_of self.old }
        ensures damaged { (entries : List Entry) → Shelves D.disk device.old self.old entries → IsErrOf result ShelfFault.Page → ⊥ }
        ensures refusal { IsErrOf result ShelfFault.Entry → ⊥ }
        ensures ran { Ran D.disk device.old device.new Same }
        ensures cause { IsErrOf result ShelfFault.Device → HasFailed D.disk device.old device.new }
        ensures steady { OnOk result (D.disk.failures device.new ≡ D.disk.failures device.old) }
        ensures unfailed { IsErrOf result ShelfFault.Memory → D.disk.failures device.new ≡ D.disk.failures device.old }
    {
        let count = self.count_up_to(key);
        if count == 0 {
            return Ok(None);
        }
        self.fetch(alloc, device, count - 1)?;
        Ok(Some(count - 1))
    }

    /// What stands under a key whose page was brought into memory. Allocates nothing. Only the contract uses `device`.
    pub fn cell<D: Device>(&self, device: &D, page: Option<u32>, key: &[u8]) -> Option<&[u8]>
        requires { IsBrought self.now key.now page }
        ensures { (entries : List Entry) → Shelves D.disk device.now self.now entries
            → option_map (λ cell. cell.now) result ≡ find bytes_cmp key.now entries }
    {
        match page {
            Some(page) => self.page(device, page).find(key),
            None => None,
        }
    }

    // Reads a page, and leaves what lies in memory as it is.
    fn read<D: Device>(
        &self,
        alloc: Global,
        device: &mut D,
        page: u32,
    ) -> Result<OwnedPage, ShelfFault>
        requires number { page < (root_of self.now).pages }
        requires inside { D.disk.keeps device.old → 512 * log_sector (root_of self.now) ≤ length (D.disk.content device.old) }
        ensures page { (entries : List Entry) → Shelves D.disk device.old self.now entries
            → IfOk result (λ read. read ≡ get_or (pages_of D.disk device.old self.now) page []) }
        ensures kept { (entries : List Entry) → Shelves D.disk device.old self.now entries → Shelves D.disk device.new self.now entries }
        ensures damaged { (entries : List Entry) → Shelves D.disk device.old self.now entries → IsErrOf result ShelfFault.Page → ⊥ }
        ensures refusal { IsErrOf result ShelfFault.Entry → ⊥ }
        ensures ran { Ran D.disk device.old device.new Same }
        ensures cause { IsErrOf result ShelfFault.Device → HasFailed D.disk device.old device.new }
        ensures steady { OnOk result (D.disk.failures device.new ≡ D.disk.failures device.old) }
        ensures unfailed { IsErrOf result ShelfFault.Memory → D.disk.failures device.new ≡ D.disk.failures device.old }
    {
        let at = self.root.first_sector + PAGE_SECTORS * u64::from(page);
        read_page(alloc, device, at)
    }

    // Tells the entries of a page whose keys begin with a prefix.
    fn tell_one<D: Device, R: Reader>(
        &mut self,
        alloc: Global,
        device: &mut D,
        page: u32,
        prefix: &[u8],
        reading: Reading,
        reader: &mut R,
    ) -> Result<(), ShelfFault>
        requires number { page < (root_of self.old).pages }
        requires inside { D.disk.keeps device.old → 512 * log_sector (root_of self.old) ≤ length (D.disk.content device.old) }
        ensures told { (entries : List Entry) → Shelves D.disk device.old self.old entries
            → OnOk result (R.told reader.old reader.new (beginning prefix.now (get_or (pages_of D.disk device.old self.old) page []))) }
        ensures refused { (entries : List Entry) → Shelves D.disk device.old self.old entries → IsErrOf result ShelfFault.Entry
            → IsRefused R.told R.refuses reader.old (beginning prefix.now (get_or (pages_of D.disk device.old self.old) page [])) }
        ensures kept { (entries : List Entry) → Shelves D.disk device.old self.old entries → Shelves D.disk device.new self.new entries }
        ensures pages { (entries : List Entry) → Shelves D.disk device.old self.old entries
            → pages_of D.disk device.new self.new ≡ pages_of D.disk device.old self.old }
        ensures root { root_of self.new ≡ root_of self.old }
        ensures damaged { (entries : List Entry) → Shelves D.disk device.old self.old entries → IsErrOf result ShelfFault.Page → ⊥ }
        ensures ran { Ran D.disk device.old device.new Same }
        ensures cause { IsErrOf result ShelfFault.Device → HasFailed D.disk device.old device.new }
        ensures steady { OnOk result (D.disk.failures device.new ≡ D.disk.failures device.old) }
        ensures unfailed { IsErrOf result ShelfFault.Memory → D.disk.failures device.new ≡ D.disk.failures device.old }
        ensures stopped { IsErrOf result ShelfFault.Entry → D.disk.failures device.new ≡ D.disk.failures device.old }
    {
        match reading {
            Reading::Kept => {
                self.fetch(alloc, device, page)?;
                tell_page(alloc, &self.page(device, page), prefix, reader)
            }
            Reading::Passing if self.cache.contains(&page) => {
                tell_page(alloc, &self.page(device, page), prefix, reader)
            }
            Reading::Passing => {
                let owned = self.read(alloc, device, page)?;
                tell_page(alloc, &owned.page(), prefix, reader)
            }
        }
    }

    /// Tells a reader the entries whose keys begin with a prefix, in order. Of the pages only those are read that may have one, one after
    /// the other, each once.
    ///
    /// # Errors
    ///
    /// Those of `bring`, and `Entry` where the reader refused an entry; it is told nothing more then, no page behind is read, and the device did not fail.
    /// It may have been told some of the entries.
    pub fn tell<D: Device, R: Reader>(
        &mut self,
        alloc: Global,
        device: &mut D,
        prefix: &[u8],
        reading: Reading,
        reader: &mut R,
    ) -> Result<(), ShelfFault>
        requires inside { D.disk.keeps device.old → 512 * log_sector (root_of self.old) ≤ length (D.disk.content device.old) }
        ensures told { (entries : List Entry) → Shelves D.disk device.old self.old entries
            → OnOk result (R.told reader.old reader.new (beginning prefix.now entries)) }
        ensures refused { (entries : List Entry) → Shelves D.disk device.old self.old entries → IsErrOf result ShelfFault.Entry
            → IsRefused R.told R.refuses reader.old (beginning prefix.now entries) }
        ensures kept { (entries : List Entry) → Shelves D.disk device.old self.old entries → Shelves D.disk device.new self.new entries }
        ensures root { root_of self.new ≡ root_of self.old }
        ensures damaged { (entries : List Entry) → Shelves D.disk device.old self.old entries → IsErrOf result ShelfFault.Page → ⊥ }
        ensures ran { Ran D.disk device.old device.new Same }
        ensures cause { IsErrOf result ShelfFault.Device → HasFailed D.disk device.old device.new }
        ensures steady { OnOk result (D.disk.failures device.new ≡ D.disk.failures device.old) }
        ensures unfailed { IsErrOf result ShelfFault.Memory → D.disk.failures device.new ≡ D.disk.failures device.old }
        ensures stopped { IsErrOf result ShelfFault.Entry → D.disk.failures device.new ≡ D.disk.failures device.old }
    {
        let start = self.count_up_to(prefix).saturating_sub(1);
        for i in 0..self.count_with(prefix).saturating_sub(start) {
            self.tell_one(alloc, device, start + i, prefix, reading, reader)?;
        }
        Ok(())
    }
}
