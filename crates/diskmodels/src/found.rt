ghost use Rattle.std.specs.Prelude.{◌≡◌, ◌<◌, ◌%◌, length, IfOk};

use crate::memory_file::MemoryFile;
use device::{Device, DeviceFault, SectorFile, write_through};
use std::alloc::Global;

/// Writes these sectors to a new file and syncs, takes its power away, and gives what reads then find: these sectors. So what a
/// device over a file says of contents is met where the file keeps the disk model.
///
/// # Errors
///
/// Only where memory is refused.
pub fn found_after_crash(alloc: Global, sectors: &[u8]) -> Result<Vec<u8>, DeviceFault>
    requires whole { length sectors.now % 512 ≡ 0 }
    requires some { 0 < length sectors.now }
    ensures { IfOk result (λ found. found.items ≡ sectors.now) }
{
    let mut device = SectorFile::new(MemoryFile::new(alloc));
    write_through(&mut device, 0, sectors)?;
    let Ok(file) = device.into_file().crash() else {
        return Err(DeviceFault);
    };
    let mut device = SectorFile::new(file);
    let Ok(mut found) = Vec::from_slice(alloc, sectors) else {
        return Err(DeviceFault);
    };
    found.fill(0);
    device.read(0, &mut found)?;
    Ok(found)
}
