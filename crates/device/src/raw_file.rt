ghost use Rattle.std.specs.Prelude.{◌≡◌, ◌≤◌, ◌+◌, ◌^◌, ℕ, List, length, take, drop, IfOk, OnOk};
ghost use Rattle.device.specs.Disk.{Disk, Only, HasCause};
ghost use Rattle.device.specs.Step.{Holds, Same, Torn, Cut};
ghost use Rattle.device.specs.Run.{Ran};

use crate::DeviceFault;

/// A file of bytes that keeps the disk model byte by byte, at most 2^63 bytes long. Offsets and sizes are in bytes.
pub trait RawFile: Drop {
    ghost disk: { Disk Self };

    /// The number of bytes.
    fn size(&mut self) -> Result<u64, DeviceFault>
        ensures bytes { disk.keeps self.old → IfOk result (λ size. length (disk.content self.old) ≡ size) }
        ensures at_most { IfOk result (λ size. size ≤ 2 ^ 63) }
        ensures ran { Ran disk self.old self.new Same }
        ensures cause { HasCause disk self.old self.new result };

    /// Fills the buffer from an offset on.
    fn read_at(&mut self, offset: u64, buffer: &mut [u8]) -> Result<(), DeviceFault>
        requires inside { disk.keeps self.old → offset + length buffer.old ≤ length (disk.content self.old) }
        ensures bytes { disk.keeps self.old → OnOk result (buffer.new ≡ take (length buffer.old) (drop offset (disk.content self.old))) }
        ensures ran { Ran disk self.old self.new Same }
        ensures cause { HasCause disk self.old self.new result };

    /// Writes over what is there and past the end. A write past 2^63 bytes fails.
    fn write_at(&mut self, offset: u64, bytes: &[u8]) -> Result<(), DeviceFault>
        requires inside { disk.keeps self.old → offset ≤ length (disk.content self.old) }
        ensures written { disk.keeps self.old → OnOk result (Holds (disk.content self.old) offset bytes.now (disk.content self.new)) }
        ensures at_most { OnOk result (offset + length bytes.now ≤ 2 ^ 63) }
        ensures ran { Ran disk self.old self.new (Torn offset (length bytes.now)) }
        ensures cause { HasCause disk self.old self.new result };

    /// Makes the file this long, which is no longer than it was.
    fn cut_to(&mut self, size: u64) -> Result<(), DeviceFault>
        requires inside { disk.keeps self.old → size ≤ length (disk.content self.old) }
        ensures shortened { disk.keeps self.old → OnOk result (disk.content self.new ≡ take size (disk.content self.old)) }
        ensures ran { Ran disk self.old self.new (Cut size) }
        ensures cause { HasCause disk self.old self.new result };

    /// After it a crash leaves what reads give.
    fn sync(&mut self) -> Result<(), DeviceFault>
        ensures durable { disk.keeps self.old → OnOk result (Only (disk.content self.old) (disk.left self.new)) }
        ensures ran { Ran disk self.old self.new Same }
        ensures cause { HasCause disk self.old self.new result };

    /// The file is at most 2^63 bytes long.
    ghost at_most: { (file : Self) → disk.keeps file → length (disk.content file) ≤ 2 ^ 63 };

    /// This moment is one of those since an earlier one.
    ghost counts_now: { (file : Self) (t : ℕ) (c : List ℕ) → disk.keeps file → t ≤ disk.moment file → disk.left file c → disk.since file t c };

    /// Since this moment there is no other.
    ghost only_now: { (file : Self) (c : List ℕ) → disk.keeps file → disk.since file (disk.moment file) c → disk.left file c };
}
