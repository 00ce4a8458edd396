//! Lines on the next generation of a store.

ghost use Rattle.std.specs.Prelude.{◌<◌, ◌≤◌, ◌^◌, IfSome};
ghost use Rattle.roots.specs.Root.{MayHaveFloor, log_sector};

use crate::line::Line;
use crate::root_lines::push_root;
use device::{Device, MemDevice};
use roots::{Label, Root, clear_slot, counted_root, install, next_first_sector, next_root};

/// `place START LAST PAGES`: where this many pages go while a generation that begins at `START`, and whose log ends with the gate `LAST`, is in
/// use.
pub fn place_of(line: &mut Line<'_>) {
    let (start, last_gate_sector, pages) = (line.number(), line.number(), line.pages());
    if last_gate_sector < 1 << 54 {
        line.show(&next_first_sector(start, last_gate_sector, pages));
    } else {
        line.refuse("no such place");
    }
}

// The gate that ends a log.
fn last_gate_sector(line: &mut Line<'_>) -> Option<u64>
    ensures { IfSome result (λ gate. (8 ≤ gate) × (gate < 2 ^ 54)) }
{
    let gate = line.number();
    if gate < 8 || gate >= 1 << 54 {
        line.refuse("no gate of a log");
        return None;
    }
    Some(gate)
}

// The label of a root that follows one with this label: without a format it has that one's format and floor, and without a floor that of a new store.
fn next_label(line: &mut Line<'_>, current: Label, revision: u64) -> Option<Label>
    ensures { IfSome result (λ label. MayHaveFloor label.format label.floor) }
{
    let (format, floor) = if line.rest.is_empty() {
        (current.format, current.floor)
    } else {
        let format = line.format(current.format);
        (format, line.floor(format))
    };
    if !format.has_floor() && floor != 0 {
        line.refuse("the format has no floor");
        return None;
    }
    Some(Label {
        format,
        revision,
        floor,
    })
}

// `LAST PAGES REVISION FORMAT FLOOR`: the root that counts, and the next one behind a log that ends with the gate `LAST`. `exhausted` where there is no next
// generation.
fn next_of(device: &mut MemDevice, line: &mut Line<'_>) -> Option<(Root, Root)>
    ensures place { IfSome result (λ both. (8 ≤ both.1.first_sector) × (log_sector both.1 < 2 ^ 64)) }
    ensures floor { IfSome result (λ both. MayHaveFloor both.1.label.format both.1.label.floor) }
{
    let last_gate_sector = last_gate_sector(line)?;
    let (pages, revision) = (line.pages(), line.number());
    let Ok(current) = counted_root(device) else {
        line.refuse("no root counts");
        return None;
    };
    let label = next_label(line, current.label, revision)?;
    match next_root(&current, last_gate_sector, pages, label) {
        Ok(next) => Some((current, next)),
        Err(_) => {
            line.answer.word("exhausted");
            None
        }
    }
}

/// `next LAST PAGES REVISION FORMAT FLOOR`: the root of the next generation, of this many pages, this revision, this format and this floor, or `exhausted`.
pub fn next(device: &mut MemDevice, line: &mut Line<'_>) {
    if let Some((_, next)) = next_of(device, line) {
        push_root(line, &next);
    }
}

// Makes the slot of the next root free, if there is one.
fn clears(device: &mut MemDevice, current: &Root) -> bool {
    match device.len() {
        Ok(len) if len >= 8 => clear_slot(device, current).is_ok(),
        _ => false,
    }
}

/// `install LAST PAGES REVISION FORMAT FLOOR`: makes the slot of that root free, and installs it over what stands in its place.
pub fn install_next(device: &mut MemDevice, line: &mut Line<'_>) {
    let Some((current, next)) = next_of(device, line) else {
        return;
    };
    if !clears(device, &current) {
        return line.answer.word("device failed");
    }
    line.answer.word(match device.len() {
        Ok(len) if next.log_sector() <= len && install(device, &next).is_ok() => "ok",
        _ => "device failed",
    });
}
