//! Lines on the pages behind a root.

ghost use Rattle.std.specs.Prelude.{◌≡◌, ◌<◌, ◌≤◌, ◌*◌, ◌^◌, length, IfOk, IfSome};
ghost use Rattle.device.specs.Memory.{memory_content};
ghost use Rattle.roots.specs.Root.{log_sector};

use crate::line::Line;
use crate::page_lines::fill;
use crate::writing_lines::push_keys;
use checkpoint::{Reader, ReaderFault, ScanFault, scan};
use device::{Device, MemDevice};
use names::Format;
use pages::PageBuilder;
use records::Entry;
use roots::{Label, Root, Slot};
use std::alloc::Global;

/// `lay SECTOR CELLS`: writes the page of these cells, if its place is at most the length.
pub fn lay(alloc: Global, device: &mut MemDevice, page: &mut PageBuilder, line: &mut Line<'_>) {
    let at = line.number();
    fill(alloc, page, line);
    line.answer.word(match device.len() {
        Ok(len) if at <= len && device.write(at, page.bytes()).is_ok() => "ok",
        _ => "device failed",
    });
}

/// What is told of a fault.
pub(crate) fn fault_text(fault: ScanFault) -> &'static str {
    match fault {
        ScanFault::Device => "device failed",
        ScanFault::Page => "damaged page",
        ScanFault::Entry => "refused entry",
        ScanFault::Memory => "out of memory",
    }
}

// A reader that keeps what it is told, and refuses one key.
#[derive(Drop)]
pub(crate) struct Listing<'a> {
    pub(crate) entries: Vec<Entry>,
    pub(crate) refused: &'a [u8],
}

impl Reader for Listing<'_> {
    ghost use Rattle.std.specs.Prelude.{◌≡◌};
    ghost use Rattle.diskcases.specs.Listing.{IsTold, told_none, told_then};

    ghost told = { IsTold };

    ghost refuses = { λ listing entry. entry.0 ≡ listing.refused.now };

    ghost told_none = { told_none };

    ghost told_then = { told_then };

    fn entry(&mut self, alloc: Global, key: &[u8], cell: &[u8]) -> Result<(), ReaderFault> {
        if key[..] == self.refused[..] {
            return Err(ReaderFault::Entry);
        }
        let entry = Entry::new(key.to_vec(alloc)?, cell.to_vec(alloc)?);
        self.entries.push(entry)?;
        Ok(())
    }
}

/// Adds what a listing was told.
pub(crate) fn push_entries(line: &mut Line<'_>, entries: &[Entry]) {
    for entry in entries {
        line.say(entry.key());
        line.say(entry.cell());
    }
}

/// The root of this many pages from a sector on, which lie on the device.
pub(crate) fn root_at(
    device: &mut MemDevice,
    first: u64,
    pages: u32,
    line: &mut Line<'_>,
) -> Option<Root>
    ensures root { IfSome result (λ root. (log_sector root < 2 ^ 54) × (root.pages ≡ pages)) }
    ensures inside { IfSome result (λ root. 512 * log_sector root ≤ length (memory_content device.new)) }
{
    match device.len() {
        Ok(sectors) if first <= sectors && 64 * u64::from(pages) <= sectors - first => Some(Root {
            slot: Slot::A,
            generation: 1,
            first_sector: first,
            pages,
            label: Label {
                format: Format::First,
                revision: 1,
                floor: 0,
            },
        }),
        _ => {
            line.refuse("the pages lie past the end");
            None
        }
    }
}

/// Tells the entries of a root's pages to a reader: the first key of each page, or what is told of a fault.
pub(crate) fn read_pages<R: Reader>(
    alloc: Global,
    device: &mut MemDevice,
    root: &Root,
    reader: &mut R,
) -> Result<Vec<Vec<u8>>, &'static str>
    requires small { log_sector root.now < 2 ^ 54 }
    requires inside { 512 * log_sector root.now ≤ length (memory_content device.old) }
    ensures counted { IfOk result (λ keys. length keys.items ≡ root.now.pages) }
    ensures stays { memory_content device.new ≡ memory_content device.old }
{
    match scan(alloc, device, root, reader) {
        Ok(keys) if keys.len() as u64 == u64::from(root.pages) => Ok(keys),
        Ok(_) => Err("a page has no first key"),
        Err(fault) => Err(fault_text(fault)),
    }
}

/// `scan FIRST PAGES REFUSED`: the entries of this many pages from a sector on, as they are told to a reader that refuses one key, and the
/// first key of each page.
pub fn scan_pages(alloc: Global, device: &mut MemDevice, line: &mut Line<'_>) {
    let (first, pages) = (line.number(), line.pages());
    let Some(root) = root_at(device, first, pages, line) else {
        return;
    };
    let mut listing = Listing {
        entries: Vec::new(alloc),
        refused: line.word().as_bytes(),
    };
    match read_pages(alloc, device, &root, &mut listing) {
        Ok(first_keys) => {
            push_entries(line, &listing.entries);
            push_keys(line, &first_keys);
        }
        Err(fault) => line.answer.word(fault),
    }
}
