//! Reading all pages of a root.

ghost use Rattle.std.specs.Prelude.{◌≡◌, ◌<◌, ◌≤◌, ◌+◌, ◌*◌, ◌^◌, ◌⊎◌, ◌++◌, ◌∷◌, [], List, length, true, false, IsTrue, IsOk, IfOk, OnOk, OnErr, IsErrOf};
ghost use Rattle.std.specs.FinMap.{is_sorted};
ghost use Rattle.device.specs.Disk.{HasFailed};
ghost use Rattle.device.specs.Step.{Same};
ghost use Rattle.device.specs.Run.{Ran};
ghost use Rattle.pages.specs.Page.{Entry, bytes_cmp, entries_in, IsSound};
ghost use Rattle.roots.specs.Root.{log_sector};
ghost use Rattle.checkpoint.specs.Pages.{joined, pages_of_root, HoldsPages, IsIndex};
ghost use Rattle.checkpoint.specs.Reader.{IsRefused, Heard};
ghost use Rattle.checkpoint.specs.Index.{keys_of, IsIndexed};

use crate::index::Index;
use crate::reader::{Reader, tell_unrefused};
use device::{Device, DeviceFault};
use pages::{PAGE_BYTES, PAGE_SECTORS, Page, PageDamage};
use roots::Root;
use std::alloc::{AllocError, Global};

/// Why the pages of a root are not read.
#[derive(Clone, Copy)]
pub enum ScanFault {
    /// The device failed in this call.
    Device,
    /// A page is damaged, or a page's first key is not above the last key of the page before.
    Page,
    /// The reader refused an entry, and all pages are whole.
    Entry,
    /// Out of memory.
    Memory,
}

impl From<DeviceFault> for ScanFault {
    ghost use Rattle.checkpoint.specs.declared.scanning.ScanFault.TheVariants.{Device};
    ghost use Rattle.std.specs.Prelude.{◌≡◌};

    ghost from_gives = { λ _ fault. fault ≡ Device };

    fn from(_: DeviceFault) -> ScanFault {
        ScanFault::Device
    }
}

impl From<PageDamage> for ScanFault {
    ghost use Rattle.checkpoint.specs.declared.scanning.ScanFault.TheVariants.{Page};
    ghost use Rattle.std.specs.Prelude.{◌≡◌};

    ghost from_gives = { λ _ fault. fault ≡ Page };

    fn from(_: PageDamage) -> ScanFault {
        ScanFault::Page
    }
}

impl From<AllocError> for ScanFault {
    ghost use Rattle.checkpoint.specs.declared.scanning.ScanFault.TheVariants.{Memory};
    ghost use Rattle.std.specs.Prelude.{◌≡◌};

    ghost from_gives = { λ _ fault. fault ≡ Memory };

    fn from(_: AllocError) -> ScanFault {
        ScanFault::Memory
    }
}

// Room for one page.
fn page_buffer(alloc: Global) -> Result<Vec<u8>, AllocError>
    ensures { IfOk result (λ buffer. length buffer.items ≡ 32768) }
{
    vec![in alloc; 0; PAGE_BYTES]
}

// Takes the page that the bytes are, after those of the index, and tells its entries to a reader that has refused none before; whether
// it has refused one now.
fn take_page<R: Reader>(
    alloc: Global,
    bytes: &[u8],
    index: &mut Index,
    reader: &mut R,
    refused: bool,
) -> Result<bool, ScanFault>
    ensures sound { OnOk result (IsSound bytes.now) }
    ensures added { (pages : List (List Entry)) → IsIndexed index.old pages
        → OnOk result (IsIndexed index.new (pages ++ entries_in bytes.now ∷ [])) }
    ensures page { (pages : List (List Entry)) → IsIndexed index.old pages → IsErrOf result ScanFault.Page → IsSound bytes.now
        → IsTrue (is_sorted bytes_cmp (joined pages ++ entries_in bytes.now)) → ⊥ }
    ensures heard { refused ≡ false → IfOk result (Heard R.told R.refuses reader.old reader.new (entries_in bytes.now)) }
    ensures refused { refused ≡ true → IfOk result (λ still. still ≡ true) }
    ensures refusal { OnErr result (IsErrOf result ScanFault.Page ⊎ IsErrOf result ScanFault.Memory) }
{
    let page = Page::check(bytes)?;
    if !index.add(alloc, &page)? {
        return Err(ScanFault::Page);
    }
    Ok(tell_unrefused(alloc, &page, reader, refused)?)
}

// Reads the pages of a root into the buffer, one after the other, and tells their entries to the reader until it refuses one; whether it
// has.
fn take_pages<D: Device, R: Reader>(
    alloc: Global,
    device: &mut D,
    root: &Root,
    buffer: &mut [u8],
    index: &mut Index,
    reader: &mut R,
) -> Result<bool, ScanFault>
    requires size { length buffer.old ≡ 32768 }
    requires none { IsIndexed index.old [] }
    requires small { log_sector root.now < 2 ^ 54 }
    requires inside { D.disk.keeps device.old → 512 * log_sector root.now ≤ length (D.disk.content device.old) }
    ensures whole { D.disk.keeps device.old → OnOk result (HoldsPages (D.disk.content device.old) root.now) }
    ensures indexed { D.disk.keeps device.old → OnOk result (IsIndexed index.new (pages_of_root root.now (D.disk.content device.old))) }
    ensures heard { D.disk.keeps device.old
        → IfOk result (Heard R.told R.refuses reader.old reader.new (joined (pages_of_root root.now (D.disk.content device.old)))) }
    ensures page { D.disk.keeps device.old → IsErrOf result ScanFault.Page → HoldsPages (D.disk.content device.old) root.now → ⊥ }
    ensures refusal { IsErrOf result ScanFault.Entry → ⊥ }
    ensures ran { Ran D.disk device.old device.new Same }
    ensures cause { IsErrOf result ScanFault.Device → HasFailed D.disk device.old device.new }
    ensures steady { OnOk result (D.disk.failures device.new ≡ D.disk.failures device.old) }
    ensures unfailed { IsErrOf result ScanFault.Memory → D.disk.failures device.new ≡ D.disk.failures device.old }
{
    let mut refused = false;
    for i in 0..root.pages {
        device.read(root.first_sector + PAGE_SECTORS * u64::from(i), buffer)?;
        refused = take_page(alloc, buffer, index, reader, refused)?;
    }
    Ok(refused)
}

/// Reads the pages of a root in order, each once by one read of 64 sectors, tells their entries to the reader, and answers the first
/// key of each page. No page is kept, and nothing is written. Of memory it takes one page, before the first read, and the keys. A root
/// with no pages takes neither a read nor memory.
///
/// # Errors
///
/// `Device` where the device failed. `Page` where a page is damaged, or its first key is not above the last key of the page before.
/// `Entry` where the reader refused an entry and all pages are whole: after a refusal the reader is told nothing more, and the other
/// pages are read to see whether they are whole. `Memory` where there was none, or the reader had none. The reader may have been told
/// some of the entries then.
pub fn scan<D: Device, R: Reader>(
    alloc: Global,
    device: &mut D,
    root: &Root,
    reader: &mut R,
) -> Result<Vec<Vec<u8>>, ScanFault>
    requires small { log_sector root.now < 2 ^ 54 }
    requires inside { D.disk.keeps device.old → 512 * log_sector root.now ≤ length (D.disk.content device.old) }
    ensures told { D.disk.keeps device.old
        → OnOk result (R.told reader.old reader.new (joined (pages_of_root root.now (D.disk.content device.old)))) }
    ensures index { D.disk.keeps device.old
        → IfOk result (λ keys. IsIndex (keys_of keys.items) (pages_of_root root.now (D.disk.content device.old))) }
    ensures whole { D.disk.keeps device.old → OnOk result (HoldsPages (D.disk.content device.old) root.now) }

    // Each fault where it belongs.
    ensures page { D.disk.keeps device.old → IsErrOf result ScanFault.Page → HoldsPages (D.disk.content device.old) root.now → ⊥ }
    ensures entry { D.disk.keeps device.old → IsErrOf result ScanFault.Entry → HoldsPages (D.disk.content device.old) root.now }
    ensures refused { D.disk.keeps device.old → IsErrOf result ScanFault.Entry
        → IsRefused R.told R.refuses reader.old (joined (pages_of_root root.now (D.disk.content device.old))) }
    ensures cause { IsErrOf result ScanFault.Device → HasFailed D.disk device.old device.new }
    ensures steady { OnOk result (D.disk.failures device.new ≡ D.disk.failures device.old) }
    ensures unfailed { IsErrOf result ScanFault.Memory → D.disk.failures device.new ≡ D.disk.failures device.old }

    ensures ran { Ran D.disk device.old device.new Same }

    // A root with no pages.
    ensures no_pages { root.now.pages ≡ 0 → IsOk result × (device.new ≡ device.old) × (reader.new ≡ reader.old) }
{
    if root.pages == 0 {
        return Ok(Vec::new(alloc));
    }
    let mut buffer = page_buffer(alloc)?;
    let mut index = Index::new(alloc);
    if take_pages(alloc, device, root, &mut buffer, &mut index, reader)? {
        return Err(ScanFault::Entry);
    }
    Ok(index.into_first_keys())
}
