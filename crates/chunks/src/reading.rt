//! Whole entries, read from pages.

ghost use Rattle.std.specs.Prelude.{◌≡◌, ◌<◌, ◌≤◌, ◌*◌, ◌^◌, List, length, option_map, IsOk, IfOk, OnOk, IsErrOf};
ghost use Rattle.std.specs.FinMap.{find};
ghost use Rattle.device.specs.Disk.{HasFailed};
ghost use Rattle.device.specs.Step.{Same};
ghost use Rattle.device.specs.Run.{Ran};
ghost use Rattle.pages.specs.Page.{Entry, bytes_cmp};
ghost use Rattle.roots.specs.Root.{log_sector};
ghost use Rattle.checkpoint.specs.Index.{keys_of};
ghost use Rattle.checkpoint.specs.Pages.{joined, pages_of_root, HoldsPages, IsIndex};
ghost use Rattle.checkpoint.specs.declared.scanning.ScanFault.TheVariants as ScanFault;
ghost use Rattle.shelf.specs.Prefix.{beginning};
ghost use Rattle.shelf.specs.Shelf.{root_of, Shelves, IsBrought};
ghost use Rattle.shelf.specs.declared.fault.ShelfFault.TheVariants as ShelfFault;
ghost use Rattle.names.specs.Format.{has_chunks};
ghost use Rattle.chunks.specs.Joining.{HasHeard, IsNoneTaken};
ghost use Rattle.chunks.specs.Whole.{cuts_of, chunk_key, first_key, HasAdded, Wholes};

use crate::cutting::{CHUNK_BYTES, MOST_CHUNKS, chunk_key, is_cut};
use crate::joining::Joining;
use checkpoint::{Reader, ReaderFault, ScanFault, scan};
use device::Device;
use roots::Root;
use shelf::{Reading, Shelf, ShelfFault};
use std::alloc::Global;

/// Reads the pages of a root, as [`scan`] does, and tells their entries to the reader whole.
///
/// # Errors
///
/// Those of [`scan`]; `Entry` also where the pages have no whole entries.
pub fn scan_whole<D: Device, R: Reader + Drop>(
    alloc: Global,
    device: &mut D,
    root: &Root,
    reader: R,
) -> Result<(Vec<Vec<u8>>, R), ScanFault>
    requires small { log_sector root.now < 2 ^ 54 }
    requires inside { D.disk.keeps device.old → 512 * log_sector root.now ≤ length (D.disk.content device.old) }
    ensures told { D.disk.keeps device.old → IfOk result (λ read. HasHeard R.told (has_chunks root.now.label.format) reader read.1
        (joined (pages_of_root root.now (D.disk.content device.old)))) }
    ensures index { D.disk.keeps device.old
        → IfOk result (λ read. IsIndex (keys_of read.0.items) (pages_of_root root.now (D.disk.content device.old))) }
    ensures whole { D.disk.keeps device.old → OnOk result (HoldsPages (D.disk.content device.old) root.now) }

    // Each fault where it belongs.
    ensures page { D.disk.keeps device.old → IsErrOf result ScanFault.Page → HoldsPages (D.disk.content device.old) root.now → ⊥ }
    ensures refused { D.disk.keeps device.old → IsErrOf result ScanFault.Entry
        → IsNoneTaken R.told R.refuses (has_chunks root.now.label.format) reader (joined (pages_of_root root.now (D.disk.content device.old))) }
    ensures cause { IsErrOf result ScanFault.Device → HasFailed D.disk device.old device.new }
    ensures steady { OnOk result (D.disk.failures device.new ≡ D.disk.failures device.old) }
    ensures unfailed { IsErrOf result ScanFault.Memory → D.disk.failures device.new ≡ D.disk.failures device.old }

    ensures ran { Ran D.disk device.old device.new Same }

    // A root with no pages.
    ensures no_pages { root.now.pages ≡ 0 → IsOk result × (device.new ≡ device.old) }
    ensures none { root.now.pages ≡ 0 → IfOk result (λ read. read.1 ≡ reader) }
{
    let mut joining = Joining::new(root.label.format.has_chunks(), reader);
    let first_keys = scan(alloc, device, root, &mut joining)?;
    match joining.finish(alloc) {
        Ok(reader) => Ok((first_keys, reader)),
        Err(ReaderFault::Entry) => Err(ScanFault::Entry),
        Err(ReaderFault::Memory) => Err(ScanFault::Memory),
    }
}

/// Tells a reader the entries of a shelf whose keys begin with a prefix, as [`Shelf::tell`] does, and whole.
///
/// # Errors
///
/// Those of [`Shelf::tell`]; `Entry` also where these pages have no whole entries.
pub fn tell_whole<D: Device, R: Reader + Drop>(
    alloc: Global,
    shelf: &mut Shelf,
    device: &mut D,
    prefix: &[u8],
    reading: Reading,
    reader: R,
) -> Result<R, ShelfFault>
    requires inside { D.disk.keeps device.old → 512 * log_sector (root_of shelf.old) ≤ length (D.disk.content device.old) }
    ensures told { (entries : List Entry) → Shelves D.disk device.old shelf.old entries
        → IfOk result (λ now. HasHeard R.told (cuts_of shelf.old) reader now (beginning prefix.now entries)) }
    ensures refused { (entries : List Entry) → Shelves D.disk device.old shelf.old entries → IsErrOf result ShelfFault.Entry
        → IsNoneTaken R.told R.refuses (cuts_of shelf.old) reader (beginning prefix.now entries) }
    ensures kept { (entries : List Entry) → Shelves D.disk device.old shelf.old entries → Shelves D.disk device.new shelf.new entries }
    ensures root { root_of shelf.new ≡ root_of shelf.old }
    ensures damaged { (entries : List Entry) → Shelves D.disk device.old shelf.old entries → IsErrOf result ShelfFault.Page → ⊥ }
    ensures ran { Ran D.disk device.old device.new Same }
    ensures cause { IsErrOf result ShelfFault.Device → HasFailed D.disk device.old device.new }
    ensures steady { OnOk result (D.disk.failures device.new ≡ D.disk.failures device.old) }
    ensures unfailed { IsErrOf result ShelfFault.Memory → D.disk.failures device.new ≡ D.disk.failures device.old }
{
    let mut joining = Joining::new(shelf.root().label.format.has_chunks(), reader);
    shelf.tell(alloc, device, prefix, reading, &mut joining)?;
    Ok(joining.finish(alloc)?)
}

/// What stands whole under a key, of which the page where it begins was brought into memory. Of the other pages those are read that have its
/// further chunks, one after the other.
///
/// # Errors
///
/// Those of [`Shelf::bring`].
pub fn value_under<D: Device>(
    alloc: Global,
    shelf: &mut Shelf,
    device: &mut D,
    place: Option<u32>,
    first: &[u8],
    key: &[u8],
) -> Result<Option<Vec<u8>>, ShelfFault>
    requires brought { IsBrought shelf.old first.now place }
    requires first { first.now ≡ first_key (cuts_of shelf.old) key.now }
    requires inside { D.disk.keeps device.old → 512 * log_sector (root_of shelf.old) ≤ length (D.disk.content device.old) }
    ensures found { (entries : List Entry) → Wholes D.disk device.old shelf.old entries
        → IfOk result (λ value. option_map (λ v. v.items) value ≡ find bytes_cmp key.now entries) }
    ensures kept { (entries : List Entry) → Shelves D.disk device.old shelf.old entries → Shelves D.disk device.new shelf.new entries }
    ensures root { root_of shelf.new ≡ root_of shelf.old }
    ensures damaged { (entries : List Entry) → Shelves D.disk device.old shelf.old entries → IsErrOf result ShelfFault.Page → ⊥ }
    ensures refusal { IsErrOf result ShelfFault.Entry → ⊥ }
    ensures ran { Ran D.disk device.old device.new Same }
    ensures cause { IsErrOf result ShelfFault.Device → HasFailed D.disk device.old device.new }
    ensures steady { OnOk result (D.disk.failures device.new ≡ D.disk.failures device.old) }
    ensures unfailed { IsErrOf result ShelfFault.Memory → D.disk.failures device.new ≡ D.disk.failures device.old }
{
    let mut value = match shelf.cell(device, place, first) {
        Some(cell) => cell.to_vec(alloc)?,
        None => return Ok(None),
    };
    if !shelf.root().label.format.has_chunks() || !is_cut(key) {
        return Ok(Some(value));
    }
    for chunk in 1..MOST_CHUNKS {
        if value.len() < CHUNK_BYTES * chunk {
            return Ok(Some(value));
        }
        if !add_chunk(alloc, shelf, device, key, chunk, &mut value)? {
            return Ok(Some(value));
        }
    }
    Ok(Some(value))
}

// Adds a chunk after the first of the entry with this key to a value; whether there is one.
fn add_chunk<D: Device>(
    alloc: Global,
    shelf: &mut Shelf,
    device: &mut D,
    key: &[u8],
    chunk: usize,
    value: &mut Vec<u8>,
) -> Result<bool, ShelfFault>
    requires few { chunk < 65536 }
    requires inside { D.disk.keeps device.old → 512 * log_sector (root_of shelf.old) ≤ length (D.disk.content device.old) }
    ensures added { (entries : List Entry) → Shelves D.disk device.old shelf.old entries
        → IfOk result (HasAdded (find bytes_cmp (chunk_key key.now chunk) entries) value.old.items value.new.items) }
    ensures kept { (entries : List Entry) → Shelves D.disk device.old shelf.old entries → Shelves D.disk device.new shelf.new entries }
    ensures root { root_of shelf.new ≡ root_of shelf.old }
    ensures damaged { (entries : List Entry) → Shelves D.disk device.old shelf.old entries → IsErrOf result ShelfFault.Page → ⊥ }
    ensures refusal { IsErrOf result ShelfFault.Entry → ⊥ }
    ensures ran { Ran D.disk device.old device.new Same }
    ensures cause { IsErrOf result ShelfFault.Device → HasFailed D.disk device.old device.new }
    ensures steady { OnOk result (D.disk.failures device.new ≡ D.disk.failures device.old) }
    ensures unfailed { IsErrOf result ShelfFault.Memory → D.disk.failures device.new ≡ D.disk.failures device.old }
{
    let bytes = chunk_key(alloc, key, chunk as u16)?;
    let place = shelf.bring(alloc, device, &bytes)?;
    match shelf.cell(device, place, &bytes) {
        Some(cell) => {
            value.extend_from_slice(cell)?;
            Ok(true)
        }
        None => Ok(false),
    }
}
