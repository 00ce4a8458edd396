//! Lines on the shelf of a root's pages.

ghost use Rattle.std.specs.Prelude.{◌<◌, ◌^◌, IfSome};
ghost use Rattle.roots.specs.Root.{log_sector};
ghost use Rattle.shelf.specs.Shelf.{root_of};
ghost use Rattle.diskcases.specs.Inside.{LiesInside};

use crate::line::Line;
use crate::scan_lines::{Listing, push_entries, read_pages, root_at};
use cases::Wrong;
use device::MemDevice;
use roots::Root;
use shelf::{Reading, Shelf, ShelfFault};
use std::alloc::Global;

/// What is told of a fault.
pub(crate) fn shelf_fault_text(fault: ShelfFault) -> &'static str {
    match fault {
        ShelfFault::Device => "device failed",
        ShelfFault::Page => "damaged page",
        ShelfFault::Entry => "refused entry",
        ShelfFault::Memory => "out of memory",
    }
}

// `get KEY`: what stands under the key, or `none`. `has KEY`: `yes` in place of what stands there.
fn look(
    alloc: Global,
    shelf: &mut Shelf,
    device: &mut MemDevice,
    is_shown: bool,
    line: &mut Line<'_>,
)
    requires inside { LiesInside (root_of shelf.old) device.old }
    ensures inside { LiesInside (root_of shelf.new) device.new }
{
    let key = line.rest.as_bytes();
    match shelf.bring(alloc, device, key) {
        Ok(place) => match shelf.cell(device, place, key) {
            Some(cell) if is_shown => line.say(cell),
            Some(_) => line.answer.word("yes"),
            None => line.answer.word("none"),
        },
        Err(fault) => line.answer.word(shelf_fault_text(fault)),
    }
}

// `list PREFIX`, `pass PREFIX`: the entries whose keys begin so; their pages stay in memory, or do not come there.
fn tell(
    alloc: Global,
    shelf: &mut Shelf,
    device: &mut MemDevice,
    reading: Reading,
    line: &mut Line<'_>,
)
    requires inside { LiesInside (root_of shelf.old) device.old }
    ensures inside { LiesInside (root_of shelf.new) device.new }
{
    let mut listing = Listing {
        entries: Vec::new(alloc),
        refused: b"-",
    };
    match shelf.tell(alloc, device, line.rest.as_bytes(), reading, &mut listing) {
        Ok(()) => push_entries(line, &listing.entries),
        Err(fault) => line.answer.word(shelf_fault_text(fault)),
    }
}

// Answers a question.
fn ask(alloc: Global, shelf: &mut Shelf, device: &mut MemDevice, line: &mut Line<'_>)
    requires inside { LiesInside (root_of shelf.old) device.old }
    ensures inside { LiesInside (root_of shelf.new) device.new }
{
    match line.word() {
        "get" => look(alloc, shelf, device, true, line),
        "has" => look(alloc, shelf, device, false, line),
        "list" => tell(alloc, shelf, device, Reading::Kept, line),
        "pass" => tell(alloc, shelf, device, Reading::Passing, line),
        _ => line.refuse("no question of a shelf"),
    }
}

/// The shelf of a root's pages, which are read before, each once.
pub(crate) fn shelf_of(
    alloc: Global,
    device: &mut MemDevice,
    root: Root,
    line: &mut Line<'_>,
) -> Option<Shelf>
    requires small { log_sector root < 2 ^ 54 }
    requires inside { LiesInside root device.old }
    ensures inside { IfSome result (λ shelf. LiesInside (root_of shelf) device.new) }
{
    let mut all = Listing {
        entries: Vec::new(alloc),
        refused: b"",
    };
    let Ok(first_keys) = read_pages(alloc, device, &root, &mut all) else {
        line.refuse("the pages are not read");
        return None;
    };
    match Shelf::new(alloc, device, root, first_keys) {
        Ok(shelf) => Some(shelf),
        Err(_) => {
            line.fail(Wrong::Memory);
            None
        }
    }
}

// The shelf of this many pages from a sector on.
fn shelf_at(
    alloc: Global,
    device: &mut MemDevice,
    first: u64,
    pages: u32,
    line: &mut Line<'_>,
) -> Option<Shelf>
    ensures inside { IfSome result (λ shelf. LiesInside (root_of shelf) device.new) }
{
    let root = root_at(device, first, pages, line)?;
    shelf_of(alloc, device, root, line)
}

/// `shelf FIRST PAGES QUESTION ; ..`: the answers of the shelf of this many pages from a sector on, which are read before, each once.
pub fn shelf(alloc: Global, device: &mut MemDevice, line: &mut Line<'_>) {
    let (first, pages) = (line.number(), line.pages());
    let Some(mut shelf) = shelf_at(alloc, device, first, pages, line) else {
        return;
    };
    let questions = line.parts(alloc, line.rest, " ; ");
    for question in &questions {
        line.rest = *question;
        ask(alloc, &mut shelf, device, line);
    }
}
