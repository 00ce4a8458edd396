//! Pages on their way to the device.

ghost use Rattle.std.specs.Prelude.{◌≡◌, ◌≤◌, ◌+◌, ◌++◌, length, take, drop, IfOk};

use crate::writing::WriteFault;
use device::{Device, DeviceFault};
use pages::{Full, PAGE_BYTES, PAGE_SECTORS, PageBuilder};
use roots::Root;
use std::alloc::{AllocError, Global};

// Pages that one write of the device takes at most: 512 KiB, of which a write's own cost is little, as is the memory beside that of the
// entries.
const RUN_PAGES: usize = 16;

const RUN_BYTES: usize = RUN_PAGES * PAGE_BYTES;

/// Entries on their way to the pages of a generation: each page is filled while the next cell fits, filled pages wait in a buffer, and a
/// full buffer is one write of the device.
#[derive(Drop)]
pub(crate) struct PageWriter {
    // the sector where the pages in the buffer are to stand
    pub(crate) at: u64,
    // how many they are
    pub(crate) filled: usize,
    // how many pages are still to be filled
    pub(crate) left: u32,
    pub(crate) buffer: Vec<u8>,
    // the page that is being filled
    pub(crate) page: PageBuilder,
    ghost size: { length buffer.items ≡ 524288 },
    ghost room: { filled ≤ 16 },
}

// Lays a page's bytes over those at a place.
fn lay(buffer: &mut [u8], at: usize, page: &[u8])
    requires { at + length page.now ≤ length buffer.old }
    ensures { buffer.new ≡ take at buffer.old ++ page.now ++ drop (at + length page.now) buffer.old }
{
    buffer[at..at + page.len()].copy_from_slice(page);
}

// Room for a run of pages.
fn run_buffer(alloc: Global) -> Result<Vec<u8>, AllocError>
    ensures { IfOk result (λ buffer. length buffer.items ≡ 524288) }
{
    vec![in alloc; 0; RUN_BYTES]
}

impl PageWriter {
    ghost use Rattle.std.specs.Prelude.{◌<◌, ◌+◌, ◌*◌, ◌∷◌, ◌++◌, ◌⊎◌, ℕ, List, [], IsTrue, OnOk, OnErr, IsErrOf};
    ghost use Rattle.std.specs.FinMap.{is_sorted};
    ghost use Rattle.device.specs.Disk.{HasFailed, HasCause};
    ghost use Rattle.device.specs.Step.{Torn};
    ghost use Rattle.device.specs.Run.{Ran};
    ghost use Rattle.pages.specs.Page.{Entry, bytes_cmp};
    ghost use Rattle.checkpoint.specs.PageWriter.{IsFor, IsFilled, IsLaid, HasPages, Advances, end_of};

    /// For the pages of a root, of which none is filled. Takes all memory that writing them wants.
    pub(crate) fn new(alloc: Global, root: &Root) -> Result<PageWriter, AllocError>
        ensures { IfOk result (λ writer. IsFor writer root.now) }
    {
        Ok(PageWriter {
            at: root.first_sector,
            filled: 0,
            left: root.pages,
            buffer: run_buffer(alloc)?,
            page: PageBuilder::new(alloc)?,
        })
    }

    // Writes the pages in the buffer.
    fn flush<D: Device>(&mut self, device: &mut D) -> Result<(), DeviceFault>
        requires some { 1 ≤ self.old.filled }
        requires inside { D.disk.keeps device.old → 512 * self.old.at ≤ length (D.disk.content device.old) }
        ensures filled { D.disk.keeps device.old → (first : ℕ) (pages : List (List Entry))
            → IsFilled self.old first pages (D.disk.content device.old) → OnOk result (IsFilled self.new first pages (D.disk.content device.new)) }
        ensures at { OnOk result (self.new.at ≡ self.old.at + 64 * self.old.filled) }
        ensures empty { OnOk result (self.new.filled ≡ 0) }
        ensures left { self.new.left ≡ self.old.left }
        ensures page { self.new.page ≡ self.old.page }
        ensures inside { D.disk.keeps device.old → OnOk result (512 * self.new.at ≤ length (D.disk.content device.new)) }
        ensures ran { Ran D.disk device.old device.new (Torn (512 * self.old.at) (32768 * self.old.filled)) }
        ensures cause { HasCause D.disk device.old device.new result }
    {
        device.write(self.at, &self.buffer[..PAGE_BYTES * self.filled])?;
        self.at += PAGE_SECTORS * self.filled as u64;
        self.filled = 0;
        Ok(())
    }

    // Writes the pages in the buffer, if no other has room there.
    fn make_room<D: Device>(&mut self, device: &mut D) -> Result<(), DeviceFault>
        requires inside { D.disk.keeps device.old → 512 * self.old.at ≤ length (D.disk.content device.old) }
        ensures filled { D.disk.keeps device.old → (first : ℕ) (pages : List (List Entry))
            → IsFilled self.old first pages (D.disk.content device.old) → OnOk result (IsFilled self.new first pages (D.disk.content device.new)) }
        ensures room { OnOk result (self.new.filled < 16) }
        ensures goes_on { OnOk result (Advances self.old self.new) }
        ensures left { self.new.left ≡ self.old.left }
        ensures page { self.new.page ≡ self.old.page }
        ensures inside { D.disk.keeps device.old → OnOk result (512 * self.new.at ≤ length (D.disk.content device.new)) }
        ensures ran { Ran D.disk device.old device.new (Torn (512 * self.old.at) (32768 * self.old.filled)) }
        ensures cause { HasCause D.disk device.old device.new result }
    {
        if self.filled < RUN_PAGES {
            return Ok(());
        }
        self.flush(device)
    }

    // Lays the page that is being filled behind those in the buffer, which has room for it, and begins the next one.
    fn lay_page(&mut self)
        requires room { self.old.filled < 16 }
        requires left { 1 ≤ self.old.left }
        ensures filled { (first : ℕ) (pages : List (List Entry)) (content : List ℕ) → (self.old.page ≡ [] → ⊥)
            → IsTrue (is_sorted bytes_cmp self.old.page) → IsFilled self.old first pages content
            → IsFilled self.new first (pages ++ self.old.page ∷ []) content }
        ensures at { self.new.at ≡ self.old.at }
        ensures count { self.new.filled ≡ self.old.filled + 1 }
        ensures left { self.new.left + 1 ≡ self.old.left }
        ensures page { self.new.page ≡ [] }
    {
        lay(
            &mut self.buffer,
            PAGE_BYTES * self.filled,
            self.page.bytes(),
        );
        self.page.clear();
        self.filled += 1;
        self.left -= 1;
    }

    // Ends the page that is being filled, and begins the next one.
    fn end_page<D: Device>(&mut self, device: &mut D) -> Result<(), WriteFault>
        requires inside { D.disk.keeps device.old → 512 * self.old.at ≤ length (D.disk.content device.old) }
        ensures filled { D.disk.keeps device.old → (first : ℕ) (pages : List (List Entry)) → (self.old.page ≡ [] → ⊥)
            → IsTrue (is_sorted bytes_cmp self.old.page) → IsFilled self.old first pages (D.disk.content device.old)
            → OnOk result (IsFilled self.new first (pages ++ self.old.page ∷ []) (D.disk.content device.new)) }
        ensures goes_on { OnOk result (Advances self.old self.new) }
        ensures some { OnOk result (1 ≤ self.new.filled) }
        ensures left { OnOk result (self.new.left + 1 ≡ self.old.left) }
        ensures page { OnOk result (self.new.page ≡ []) }
        ensures inside { D.disk.keeps device.old → OnOk result (512 * self.new.at ≤ length (D.disk.content device.new)) }
        ensures damaged { IsErrOf result WriteFault.Damaged → self.old.left ≡ 0 }
        ensures refusal { OnErr result (IsErrOf result WriteFault.Device ⊎ IsErrOf result WriteFault.Damaged) }
        ensures ran { Ran D.disk device.old device.new (Torn (512 * self.old.at) (32768 * (self.old.filled + self.old.left))) }
        ensures cause { IsErrOf result WriteFault.Device → HasFailed D.disk device.old device.new }
        ensures steady { OnOk result (D.disk.failures device.new ≡ D.disk.failures device.old) }
    {
        if self.left == 0 {
            return Err(WriteFault::Damaged);
        }
        self.make_room(device)?;
        self.lay_page();
        Ok(())
    }

    /// Lays an entry behind the others. The first walk counted the pages, so what does not fit them is not what that walk gave.
    pub(crate) fn add<D: Device>(
        &mut self,
        device: &mut D,
        key: &[u8],
        cell: &[u8],
    ) -> Result<(), WriteFault>
        requires inside { D.disk.keeps device.old → 512 * self.old.at ≤ length (D.disk.content device.old) }
        ensures laid { D.disk.keeps device.old → (first : ℕ) (rest all : List Entry) → IsTrue (is_sorted bytes_cmp all)
            → IsLaid self.old first ((key.now, cell.now) ∷ rest) all (D.disk.content device.old)
            → OnOk result (IsLaid self.new first rest all (D.disk.content device.new)) }
        ensures damaged { D.disk.keeps device.old → (first : ℕ) (rest all : List Entry)
            → IsLaid self.old first ((key.now, cell.now) ∷ rest) all (D.disk.content device.old) → IsErrOf result WriteFault.Damaged → ⊥ }
        ensures goes_on { OnOk result (Advances self.old self.new) }
        ensures inside { D.disk.keeps device.old → OnOk result (512 * self.new.at ≤ length (D.disk.content device.new)) }
        ensures refusal { OnErr result (IsErrOf result WriteFault.Device ⊎ IsErrOf result WriteFault.Damaged) }
        ensures ran { Ran D.disk device.old device.new (Torn (512 * self.old.at) (32768 * (self.old.filled + self.old.left))) }
        ensures cause { IsErrOf result WriteFault.Device → HasFailed D.disk device.old device.new }
        ensures steady { OnOk result (D.disk.failures device.new ≡ D.disk.failures device.old) }
    {
        if self.page.push(key, cell).is_ok() {
            return Ok(());
        }
        self.end_page(device)?;
        match self.page.push(key, cell) {
            Ok(()) => Ok(()),
            Err(Full) => Err(WriteFault::Damaged),
        }
    }

    /// Writes what is not written yet, behind the last entry.
    pub(crate) fn finish<D: Device>(&mut self, device: &mut D) -> Result<(), WriteFault>
        requires inside { D.disk.keeps device.old → 512 * self.old.at ≤ length (D.disk.content device.old) }
        ensures pages { D.disk.keeps device.old → (first : ℕ) (all : List Entry) → IsTrue (is_sorted bytes_cmp all)
            → IsLaid self.old first [] all (D.disk.content device.old) → OnOk result (HasPages first all (D.disk.content device.new)) }
        ensures damaged { D.disk.keeps device.old → (first : ℕ) (all : List Entry) → IsLaid self.old first [] all (D.disk.content device.old)
            → IsErrOf result WriteFault.Damaged → ⊥ }
        ensures inside { D.disk.keeps device.old → OnOk result (512 * end_of self.old ≤ length (D.disk.content device.new)) }
        ensures refusal { OnErr result (IsErrOf result WriteFault.Device ⊎ IsErrOf result WriteFault.Damaged) }
        ensures ran { Ran D.disk device.old device.new (Torn (512 * self.old.at) (32768 * (self.old.filled + self.old.left))) }
        ensures cause { IsErrOf result WriteFault.Device → HasFailed D.disk device.old device.new }
        ensures steady { OnOk result (D.disk.failures device.new ≡ D.disk.failures device.old) }
    {
        self.end_page(device)?;
        if self.left != 0 {
            return Err(WriteFault::Damaged);
        }
        self.flush(device)?;
        Ok(())
    }
}
