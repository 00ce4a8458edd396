//! One page: read, and told.

ghost use Rattle.std.specs.Prelude.{◌≡◌, ◌⊎◌, ◌≤◌, ◌+◌, ◌*◌, [], ◌∷◌, length, IfOk, OnOk, OnErr, IsErrOf};
ghost use Rattle.device.specs.Disk.{HasFailed};
ghost use Rattle.device.specs.Step.{Same};
ghost use Rattle.device.specs.Run.{Ran};
ghost use Rattle.gatelog.specs.Record.{part};
ghost use Rattle.pages.specs.Page.{entries_in, IsSound};
ghost use Rattle.checkpoint.specs.Reader.{IsRefused};
ghost use Rattle.checkpoint.specs.declared.reader.ReaderFault.TheVariants as ReaderFault;
ghost use Rattle.shelf.specs.declared.fault.ShelfFault.TheVariants as ShelfFault;
ghost use Rattle.shelf.specs.Prefix.{begins, beginning};

use crate::fault::ShelfFault;
use checkpoint::{Reader, ReaderFault};
use device::Device;
use pages::{OwnedPage, PAGE_BYTES, Page};
use std::alloc::{AllocError, Global};

// Room for one page.
fn page_buffer(alloc: Global) -> Result<Vec<u8>, AllocError>
    ensures { IfOk result (λ buffer. length buffer.items ≡ 32768) }
{
    vec![in alloc; 0; PAGE_BYTES]
}

/// The page that stands from a sector on, by one read.
pub(crate) fn read_page<D: Device>(
    alloc: Global,
    device: &mut D,
    first_sector: u64,
) -> Result<OwnedPage, ShelfFault>
    requires inside { D.disk.keeps device.old → 512 * first_sector + 32768 ≤ length (D.disk.content device.old) }
    ensures page { D.disk.keeps device.old → IfOk result (λ page. page ≡ entries_in (part (512 * first_sector) 32768 (D.disk.content device.old))) }
    ensures damaged { D.disk.keeps device.old → IsErrOf result ShelfFault.Page → IsSound (part (512 * first_sector) 32768 (D.disk.content device.old)) → ⊥ }
    ensures refusal { IsErrOf result ShelfFault.Entry → ⊥ }
    ensures ran { Ran D.disk device.old device.new Same }
    ensures cause { IsErrOf result ShelfFault.Device → HasFailed D.disk device.old device.new }
    ensures steady { OnOk result (D.disk.failures device.new ≡ D.disk.failures device.old) }
    ensures unfailed { IsErrOf result ShelfFault.Memory → D.disk.failures device.new ≡ D.disk.failures device.old }
{
    let mut bytes = page_buffer(alloc)?;
    device.read(first_sector, &mut bytes)?;
    Ok(OwnedPage::check(bytes)?)
}

// Whether a key begins with a prefix.
fn begins(prefix: &[u8], key: &[u8]) -> bool
    ensures { result ≡ begins prefix.now key.now }
{
    key.starts_with(prefix)
}

// Tells an entry, if its key begins with a prefix.
fn tell_entry<R: Reader>(
    alloc: Global,
    key: &[u8],
    cell: &[u8],
    prefix: &[u8],
    reader: &mut R,
) -> Result<(), ReaderFault>
    ensures told { OnOk result (R.told reader.old reader.new (beginning prefix.now ((key.now, cell.now) ∷ []))) }
    ensures refused { IsErrOf result ReaderFault.Entry → IsRefused R.told R.refuses reader.old (beginning prefix.now ((key.now, cell.now) ∷ [])) }
{
    if !begins(prefix, key) {
        return Ok(());
    }
    reader.entry(alloc, key, cell)
}

/// Tells the entries of a page whose keys begin with a prefix, in order.
pub(crate) fn tell_page<R: Reader>(
    alloc: Global,
    page: &Page<'_>,
    prefix: &[u8],
    reader: &mut R,
) -> Result<(), ShelfFault>
    ensures told { OnOk result (R.told reader.old reader.new (beginning prefix.now page.now)) }
    ensures refused { IsErrOf result ShelfFault.Entry → IsRefused R.told R.refuses reader.old (beginning prefix.now page.now) }
    ensures refusal { OnErr result (IsErrOf result ShelfFault.Entry ⊎ IsErrOf result ShelfFault.Memory) }
{
    for i in 0..page.len() {
        tell_entry(alloc, page.key(i), page.cell(i), prefix, reader)?;
    }
    Ok(())
}
