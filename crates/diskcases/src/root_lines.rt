//! Lines on the roots of a store.

use crate::line::Line;
use device::{Device, MemDevice};
use names::Format;
use roots::{Label, Root, RootFault, Slot, StartFault, counted_root, start};
use std::alloc::Global;

/// Adds the slot, the generation, the first sector, the pages and the revision of a root, behind `format` its format where that is not the first, and behind
/// `floor` its floor where that is not 0.
pub fn push_root(line: &mut Line<'_>, root: &Root) {
    line.answer.word(match root.slot {
        Slot::A => "A",
        Slot::B => "B",
    });
    for number in [
        root.generation,
        root.first_sector,
        u64::from(root.pages),
        root.label.revision,
    ] {
        line.show(&number);
    }
    let format = root.label.format.number();
    if format != 1 {
        line.answer.word("format");
        line.show(&format);
    }
    if root.label.floor != 0 {
        line.answer.word("floor");
        line.show(&root.label.floor);
    }
}

/// `new-store FORMAT`: its root, or why there is none. Without a format it is made in the first one.
pub fn new_store(device: &mut MemDevice, line: &mut Line<'_>) {
    let format = line.format(Format::First);
    let told = match start(device, format) {
        Ok(root) => return push_root(line, &root),
        Err(StartFault::NotEmpty) => "not empty",
        Err(StartFault::Device) => "device failed",
    };
    line.answer.word(told);
}

/// `root`: the root that counts, or why there is none.
pub fn root(device: &mut MemDevice, line: &mut Line<'_>) {
    let told = match counted_root(device) {
        Ok(root) => return push_root(line, &root),
        Err(RootFault::Header) => "no header",
        Err(RootFault::Root) => "no root",
        Err(RootFault::Device) => "device failed",
    };
    line.answer.word(told);
}

/// `log-start FIRST PAGES`: where the log of such a root begins.
pub fn log_sector(line: &mut Line<'_>) {
    let (first, pages) = (line.number(), line.pages());
    if first >= 1 << 54 {
        return line.refuse("no such sector");
    }
    let root = Root {
        slot: Slot::A,
        generation: 1,
        first_sector: first,
        pages,
        label: Label {
            format: Format::First,
            revision: 1,
            floor: 0,
        },
    };
    line.show(&root.log_sector());
}

// Writes a sector to each of these places that is at most the length.
fn write_each(device: &mut MemDevice, from: u64, to: u64, sector: &[u8; 512]) -> &'static str {
    for at in from..=to {
        match device.len() {
            Ok(len) if at <= len && device.write(at, sector).is_ok() => {}
            _ => return "device failed",
        }
    }
    "ok"
}

/// `begins FROM TO HEX ..`: writes sectors that begin with these bytes, and have zeros behind them, if each place is at most the length.
pub fn write_sector(alloc: Global, device: &mut MemDevice, line: &mut Line<'_>) {
    let (from, to) = (line.number(), line.number());
    let first = line.payload(alloc, line.rest);
    let mut sector = [0; 512];
    let size = first.len().min(512);
    sector[..size].copy_from_slice(&first[..size]);
    line.answer.word(write_each(device, from, to, &sector));
}
