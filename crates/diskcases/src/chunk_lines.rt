//! Lines on entries as the pages of a format have them.

ghost use Rattle.std.specs.Prelude.{◌<◌, ◌^◌, IfSome};
ghost use Rattle.roots.specs.Root.{log_sector};
ghost use Rattle.shelf.specs.Shelf.{root_of};
ghost use Rattle.diskcases.specs.Inside.{LiesInside};

use crate::line::Line;
use crate::scan_lines::{Listing, fault_text};
use crate::shelf_lines::shelf_fault_text;
use cases::Wrong;
use chunks::{all_cut, first_key, scan_whole, tell_whole, value_under};
use device::{Device, MemDevice};
use names::Format;
use records::Entry;
use roots::{Root, counted_root};
use shelf::{Reading, Shelf};
use std::alloc::Global;

// Adds a byte this many times, as a payload has them, behind a ` + ` unless it is the first part.
fn push_run(line: &mut Line<'_>, is_first: bool, byte: u8, count: u64) {
    if !is_first {
        line.answer.word("+");
    }
    line.answer.spell(&[byte]);
    line.answer.word("x");
    line.answer.show(&count);
}

// Adds bytes as a payload has them: a part for each run of one byte.
fn push_runs(line: &mut Line<'_>, bytes: &[u8]) {
    let (mut is_first, mut last, mut count) = (true, 0_u8, 0_u64);
    for byte in bytes {
        if count > 0 && *byte != last {
            push_run(line, is_first, last, count);
            is_first = false;
            count = 0;
        }
        last = *byte;
        count = count.saturating_add(1);
    }
    if count > 0 {
        push_run(line, is_first, last, count);
    }
}

// Adds an entry: its key in hex, and what stands under it.
fn push_entry(line: &mut Line<'_>, is_first: bool, key: &[u8], cell: &[u8]) {
    if !is_first {
        line.answer.word("|");
    }
    line.answer.spell(key);
    line.answer.word(";");
    push_runs(line, cell);
}

fn push_listing(line: &mut Line<'_>, entries: &[Entry]) {
    let mut is_first = true;
    for entry in entries {
        push_entry(line, is_first, entry.key(), entry.cell());
        is_first = false;
    }
}

/// `cut FORMAT KEY ; CELL | ..`: these entries as the pages of a format have them; `cut-from N FORMAT ..`: of what they have only from the N-th on.
pub fn cut(alloc: Global, line: &mut Line<'_>, first: u64) {
    let format = line.format(Format::Third);
    let mut entries = Vec::new(alloc);
    for one in &line.parts(alloc, line.rest, " | ") {
        let entry = line.entry(alloc, one);
        if entries.push(entry.into_parts()).is_err() {
            line.fail(Wrong::Memory);
        }
    }
    let Ok(all) = all_cut(alloc, format, entries) else {
        return line.fail(Wrong::Memory);
    };
    let mut is_first = true;
    let wanted = all.get((first as usize).saturating_sub(1)..).unwrap_or(&[]);
    for (key, cell) in wanted {
        push_entry(line, is_first, key, cell);
        is_first = false;
    }
}

// The root that counts, whose pages lie on the device.
fn root_with_pages(device: &mut MemDevice, line: &mut Line<'_>) -> Option<Root>
    ensures small { IfSome result (λ root. log_sector root < 2 ^ 54) }
    ensures inside { IfSome result (λ root. LiesInside root device.new) }
{
    let found = counted_root(device);
    match (found, device.len()) {
        (Ok(root), Ok(sectors)) if root.log_sector() <= sectors => Some(root),
        _ => {
            line.refuse("no root counts");
            None
        }
    }
}

/// `whole KEY`: the entries of the pages of the root that counts, as they are told whole to a reader that refuses one key.
pub fn whole(alloc: Global, device: &mut MemDevice, line: &mut Line<'_>) {
    let refused = line.payload(alloc, line.rest);
    let Some(root) = root_with_pages(device, line) else {
        return;
    };
    let listing = Listing {
        entries: Vec::new(alloc),
        refused: &refused,
    };
    match scan_whole(alloc, device, &root, listing) {
        Ok((_, listing)) => push_listing(line, &listing.entries),
        Err(fault) => line.answer.word(fault_text(fault)),
    }
}

// The shelf of the pages of the root that counts, which are read before, each once.
fn shelf_of_root(alloc: Global, device: &mut MemDevice, line: &mut Line<'_>) -> Option<Shelf>
    ensures inside { IfSome result (λ shelf. LiesInside (root_of shelf) device.new) }
{
    let root = root_with_pages(device, line)?;
    crate::shelf_lines::shelf_of(alloc, device, root, line)
}

/// `whole-list PREFIX`: the entries of the shelf of these pages whose keys begin so, whole.
pub fn whole_list(alloc: Global, device: &mut MemDevice, line: &mut Line<'_>) {
    let prefix = line.payload(alloc, line.rest);
    let Some(mut shelf) = shelf_of_root(alloc, device, line) else {
        return;
    };
    let listing = Listing {
        entries: Vec::new(alloc),
        refused: b"",
    };
    match tell_whole(alloc, &mut shelf, device, &prefix, Reading::Kept, listing) {
        Ok(listing) => push_listing(line, &listing.entries),
        Err(fault) => line.answer.word(shelf_fault_text(fault)),
    }
}

/// `whole-under KEY`: what stands whole under a key in the shelf of these pages, or `none`.
pub fn whole_under(alloc: Global, device: &mut MemDevice, line: &mut Line<'_>) {
    let key = line.payload(alloc, line.rest);
    let Some(mut shelf) = shelf_of_root(alloc, device, line) else {
        return;
    };
    let Ok(first) = first_key(alloc, shelf.root().label.format, &key) else {
        return line.fail(Wrong::Memory);
    };
    let found = match shelf.bring(alloc, device, &first) {
        Ok(place) => value_under(alloc, &mut shelf, device, place, &first, &key),
        Err(fault) => Err(fault),
    };
    match found {
        Ok(Some(value)) => push_runs(line, &value),
        Ok(None) => line.answer.word("none"),
        Err(fault) => line.answer.word(shelf_fault_text(fault)),
    }
}
