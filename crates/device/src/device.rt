ghost use Rattle.std.specs.Prelude.{◌≡◌, ◌<◌, ◌≤◌, ◌+◌, ◌*◌, ◌%◌, ◌^◌, ℕ, List, length, take, drop, IfOk, OnOk};
ghost use Rattle.device.specs.Disk.{Disk, Only, HasCause};
ghost use Rattle.device.specs.Step.{Holds, Same, Torn, Cut};
ghost use Rattle.device.specs.Run.{Ran};

use std::fmt;
use std::fmt::{Display, Formatter};

/// The device failed in this call.
#[derive(Clone, Copy)]
pub struct DeviceFault;

impl Display for DeviceFault {
    ghost use Rattle.std.specs.Prelude.{Some, codes};

    ghost output = { λ _. Some (codes "device failed") };

    fn fmt<W: fmt::Write>(&self, f: &mut Formatter<W>) -> fmt::Result {
        f.write_str("device failed")
    }
}

/// A row of sectors of 512 bytes, at most 2^54 of them. Places and lengths are numbers of sectors.
///
/// The disk model, which the clauses say: let B be the least length since the last successful sync. A crash leaves a length
/// from B to the greatest that the device had, or a write reached for, since then. Each sector that was written since that
/// sync, and each sector at or past B, may then hold any bytes; every other sector stays. A cut counts as a write to what it
/// removes. The crash picks one content, which then stays.
///
/// `disk` bounds what a crash leaves from above, so a device keeps no history. Nothing that is said of contents is known of a
/// device that does not keep the model.
pub trait Device: Drop {
    ghost disk: { Disk Self };

    /// The number of sectors.
    fn len(&mut self) -> Result<u64, DeviceFault>
        ensures sectors { disk.keeps self.old → IfOk result (λ n. length (disk.content self.old) ≡ 512 * n) }
        ensures at_most { IfOk result (λ n. n ≤ 2 ^ 54) }
        ensures ran { Ran disk self.old self.new Same }
        ensures cause { HasCause disk self.old self.new result };

    /// Fills the buffer, which is whole sectors, from a place on.
    fn read(&mut self, at: u64, buffer: &mut [u8]) -> Result<(), DeviceFault>
        requires whole { length buffer.old % 512 ≡ 0 }
        requires inside { disk.keeps self.old → 512 * at + length buffer.old ≤ length (disk.content self.old) }
        ensures bytes { disk.keeps self.old
            → OnOk result (buffer.new ≡ take (length buffer.old) (drop (512 * at) (disk.content self.old))) }
        ensures ran { Ran disk self.old self.new Same }
        ensures cause { HasCause disk self.old self.new result };

    /// Writes whole sectors over what is there and past the end. A write that fails may leave any bytes in its range, for reads
    /// too. A write past 2^54 sectors fails.
    fn write(&mut self, at: u64, bytes: &[u8]) -> Result<(), DeviceFault>
        requires whole { length bytes.now % 512 ≡ 0 }
        requires some { 0 < length bytes.now }
        requires inside { disk.keeps self.old → 512 * at ≤ length (disk.content self.old) }
        ensures written { disk.keeps self.old → OnOk result (Holds (disk.content self.old) (512 * at) bytes.now (disk.content self.new)) }
        ensures at_most { OnOk result (512 * at + length bytes.now ≤ 2 ^ 63) }
        ensures ran { Ran disk self.old self.new (Torn (512 * at) (length bytes.now)) }
        ensures cause { HasCause disk self.old self.new result };

    /// Makes the device this long, which is no longer than it was. A cut that fails leaves a length between the two.
    fn cut(&mut self, sectors: u64) -> Result<(), DeviceFault>
        requires inside { disk.keeps self.old → 512 * sectors ≤ length (disk.content self.old) }
        ensures shortened { disk.keeps self.old → OnOk result (disk.content self.new ≡ take (512 * sectors) (disk.content self.old)) }
        ensures ran { Ran disk self.old self.new (Cut (512 * sectors)) }
        ensures cause { HasCause disk self.old self.new result };

    /// After it a crash leaves what reads give. A sync that fails counts as none.
    fn sync(&mut self) -> Result<(), DeviceFault>
        ensures durable { disk.keeps self.old → OnOk result (Only (disk.content self.old) (disk.left self.new)) }
        ensures ran { Ran disk self.old self.new Same }
        ensures cause { HasCause disk self.old self.new result };

    /// The content is whole sectors.
    ghost whole: { (device : Self) → disk.keeps device → length (disk.content device) % 512 ≡ 0 };

    /// The content is at most 2^54 sectors.
    ghost at_most: { (device : Self) → disk.keeps device → length (disk.content device) ≤ 2 ^ 63 };

    /// This moment is one of those since an earlier one.
    ghost counts_now: { (device : Self) (t : ℕ) (c : List ℕ) → disk.keeps device → t ≤ disk.moment device → disk.left device c → disk.since device t c };

    /// Since this moment there is no other.
    ghost only_now: { (device : Self) (c : List ℕ) → disk.keeps device → disk.since device (disk.moment device) c → disk.left device c };
}

/// Writes, and then syncs.
pub fn write_through<D: Device>(device: &mut D, at: u64, bytes: &[u8]) -> Result<(), DeviceFault>
    requires whole { length bytes.now % 512 ≡ 0 }
    requires some { 0 < length bytes.now }
    requires inside { D.disk.keeps device.old → 512 * at ≤ length (D.disk.content device.old) }
    ensures written { D.disk.keeps device.old
        → OnOk result (Holds (D.disk.content device.old) (512 * at) bytes.now (D.disk.content device.new)) }
    ensures durable { D.disk.keeps device.old → OnOk result (Only (D.disk.content device.new) (D.disk.left device.new)) }
    ensures at_most { OnOk result (512 * at + length bytes.now ≤ 2 ^ 63) }
    ensures ran { Ran D.disk device.old device.new (Torn (512 * at) (length bytes.now)) }
    ensures cause { HasCause D.disk device.old device.new result }
{
    device.write(at, bytes)?;
    device.sync()
}
