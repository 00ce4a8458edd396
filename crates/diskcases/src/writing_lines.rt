//! Lines on the writing of a generation.

use crate::line::Line;
use crate::root_lines::push_root;
use cases::Wrong;
use checkpoint::{EntryList, WriteFault, write};
use device::{Device, MemDevice};
use roots::{Label, counted_root};
use std::alloc::Global;

// The entries of the rest, with ` | ` between them; none where it is empty.
fn entries_of(alloc: Global, line: &mut Line<'_>) -> EntryList {
    let mut entries = Vec::new(alloc);
    if line.rest.is_empty() {
        return EntryList::new(entries);
    }
    for one in &line.parts(alloc, line.rest, " | ") {
        let entry = line.entry(alloc, one);
        if entries.push(entry.into_parts()).is_err() {
            line.fail(Wrong::Memory);
        }
    }
    EntryList::new(entries)
}

fn fault_text(fault: WriteFault) -> &'static str {
    match fault {
        WriteFault::Device => "device failed",
        WriteFault::Damaged => "damaged entries",
        WriteFault::TooLong => "too long",
        WriteFault::Memory => "out of memory",
        WriteFault::Exhausted => "exhausted",
    }
}

// Whether the bytes are a word.
fn is_word(bytes: &[u8]) -> bool {
    for byte in bytes {
        if !byte.is_ascii_graphic() {
            return false;
        }
    }
    true
}

/// Adds the first key of each page: as a word, or its bytes in hex where they are none.
pub(crate) fn push_keys(line: &mut Line<'_>, first_keys: &[Vec<u8>]) {
    line.answer.word("begin");
    for key in first_keys {
        if is_word(key) {
            line.say(key);
        } else {
            line.answer.spell(key);
        }
    }
}

/// `write LAST REVISION KEY ; CELL | ..`: writes these entries as the next generation, of the same format: its root, and after `begin` the first key of each
/// page, in hex where it is no word.
pub fn write_entries(alloc: Global, device: &mut MemDevice, line: &mut Line<'_>) {
    let (last_gate_sector, revision) = (line.number(), line.number());
    let (Ok(current), Ok(sectors)) = (counted_root(device), device.len()) else {
        return line.answer.word("no root counts");
    };
    if last_gate_sector < 8 || last_gate_sector >= 1 << 54 || last_gate_sector >= sectors {
        return line.answer.word("no gate of a log");
    }
    let mut entries = entries_of(alloc, line);
    let label = Label {
        format: current.label.format,
        revision,
        floor: current.label.floor,
    };
    let written = write(
        alloc,
        device,
        &current,
        last_gate_sector,
        label,
        &mut entries,
    );
    drop(entries);
    match written {
        Ok(written) => {
            push_root(line, &written.root);
            push_keys(line, &written.first_keys);
        }
        Err(fault) => line.answer.word(fault_text(fault)),
    }
}
