ghost use Rattle.std.specs.Prelude.{◌≡◌, ◌*◌, ◌-◌, ◌^◌, min};

use crate::{Device, DeviceFault, RawFile, sector};

const SECTOR: u64 = sector::SECTOR as u64;

/// A file of bytes as a device. A rest behind its last whole sector is no part of it.
#[derive(Drop)]
pub struct SectorFile<F> {
    file: F,
}

// The offset at which a sector begins, or the greatest there is.
fn offset_of(sector: u64) -> u64
    ensures { result ≡ min (512 * sector) (2 ^ 64 - 1) }
{
    sector.saturating_mul(SECTOR)
}

impl<F: RawFile> SectorFile<F> {
    /// The whole sectors of a file.
    pub fn new(file: F) -> SectorFile<F>
        ensures { result.file ≡ file }
    {
        SectorFile { file }
    }

    /// The file, while it stays a device.
    pub fn file(&self) -> &F
        ensures { result.now ≡ self.now.file }
    {
        &self.file
    }

    /// The file.
    pub fn into_file(self) -> F
        ensures { result ≡ self.file }
    {
        self.file
    }
}

impl<F: RawFile> Device for SectorFile<F> {
    ghost use Rattle.device.specs.Sectors.{sector_disk};
    ghost use Rattle.device.specs.SectorLaws.{sectors-whole, sectors-at_most};

    ghost disk = { sector_disk F.disk };

    ghost whole = { λ device keeps. sectors-whole (F.disk.content device.file) };

    ghost at_most = { λ device keeps. sectors-at_most (F.disk.content device.file) (F.at_most device.file keeps) };

    ghost counts_now = { λ device t c keeps le left. (left.0, F.counts_now device.file t left.0 keeps le left.1, left.2) };

    ghost only_now = { λ device c keeps since. (since.0, F.only_now device.file since.0 keeps since.1, since.2) };

    fn len(&mut self) -> Result<u64, DeviceFault> {
        Ok(self.file.size()? / SECTOR)
    }

    fn read(&mut self, at: u64, buffer: &mut [u8]) -> Result<(), DeviceFault> {
        self.file.read_at(offset_of(at), buffer)
    }

    fn write(&mut self, at: u64, bytes: &[u8]) -> Result<(), DeviceFault> {
        self.file.write_at(offset_of(at), bytes)
    }

    fn cut(&mut self, sectors: u64) -> Result<(), DeviceFault> {
        self.file.cut_to(offset_of(sectors))
    }

    fn sync(&mut self) -> Result<(), DeviceFault> {
        self.file.sync()
    }
}
