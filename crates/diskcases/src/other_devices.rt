//! Lines on the devices on which nothing of the program stands: each shows that what is asked of a device can be met.

use crate::device_lines::read_sector;
use crate::line::Line;
use cases::Wrong;
use device::write_through;
use diskmodels::{Recorded, found_after_crash};
use std::alloc::Global;

/// `file-after-crash BYTE`: how a sector of this byte begins, which was written to a file in memory and synced, after a crash.
pub fn file_after_crash(alloc: Global, line: &mut Line<'_>) {
    let Ok(found) = found_after_crash(alloc, &[line.byte(); 512]) else {
        return line.fail(Wrong::Memory);
    };
    match found.first() {
        Some(first) => line.show(first),
        None => line.refuse("nothing is found"),
    }
}

/// `remembered BYTE`: how a sector of this byte begins, which was written to a device that remembers each moment, and synced.
pub fn remembered(alloc: Global, line: &mut Line<'_>) {
    let mut device = Recorded::new(alloc);
    let written = write_through(&mut device, 0, &[line.byte(); 512]);
    match read_sector(&mut device, 0) {
        Ok(sector) if written.is_ok() => line.show(&sector[0]),
        _ => line.fail(Wrong::Memory),
    }
}
