ghost use Rattle.std.specs.Prelude.{◌≡◌, ◌<◌, ◌≤◌, ◌+◌, ◌*◌, ◌%◌, ◌^◌, ◌++◌, ◌∷◌, [], ℕ, List, length, take, replicate, OnOk};
ghost use Rattle.device.specs.Disk.{Only, HasCause};
ghost use Rattle.device.specs.Step.{Holds, Torn};
ghost use Rattle.device.specs.Run.{Ran, Stands};
ghost use Rattle.gatelog.specs.Record.{sectors};
ghost use Rattle.gatelog.specs.Payload.{payload_of};
ghost use Rattle.gatelog.specs.Log.{HoldsLog, IsBeforeOrAfter};

use crate::Body;
use device::{Device, DeviceFault, SECTOR, write_through};

/// The first byte of an open gate. A gate with any other first byte is closed.
pub const OPEN: u8 = 0xA5;

// An open gate: 0xA5 and zeros.
fn open_gate() -> [u8; 512]
    ensures bytes { result ≡ 165 ∷ replicate 511 0 }
    ensures size { length result ≡ 512 }
{
    let mut gate = [0; SECTOR];
    gate[0] = OPEN;
    gate
}

// Writes a record's body and the closed gate behind it, behind the gate at `last`, and syncs.
fn write_behind<D: Device>(
    device: &mut D,
    last: u64,
    body_and_gate: &[u8],
) -> Result<(), DeviceFault>
    requires room { last < 2 ^ 54 }
    requires whole { length body_and_gate.now % 512 ≡ 0 }
    requires some { 0 < length body_and_gate.now }
    requires inside { D.disk.keeps device.old → 512 * (last + 1) ≤ length (D.disk.content device.old) }
    ensures written { D.disk.keeps device.old
        → OnOk result (Holds (D.disk.content device.old) (512 * (last + 1)) body_and_gate.now (D.disk.content device.new)) }
    ensures durable { D.disk.keeps device.old → OnOk result (Only (D.disk.content device.new) (D.disk.left device.new)) }
    ensures at_most { OnOk result (512 * (last + 1) + length body_and_gate.now ≤ 2 ^ 63) }
    ensures ran { Ran D.disk device.old device.new (Torn (512 * (last + 1)) (length body_and_gate.now)) }
    ensures cause { HasCause D.disk device.old device.new result }
{
    write_through(device, last + 1, body_and_gate)
}

// Opens a gate, and syncs.
fn write_gate<D: Device>(device: &mut D, gate: u64) -> Result<(), DeviceFault>
    requires { D.disk.keeps device.old → 512 * gate ≤ length (D.disk.content device.old) }
    ensures written { D.disk.keeps device.old
        → OnOk result (Holds (D.disk.content device.old) (512 * gate) (165 ∷ replicate 511 0) (D.disk.content device.new)) }
    ensures durable { D.disk.keeps device.old → OnOk result (Only (D.disk.content device.new) (D.disk.left device.new)) }
    ensures ran { Ran D.disk device.old device.new (Torn (512 * gate) 512) }
    ensures cause { HasCause D.disk device.old device.new result }
{
    write_through(device, gate, &open_gate())
}

/// Writes a record and the closed gate behind it, behind the closed gate at `last`, syncs, opens that gate, and syncs.
pub(crate) fn write_record<D: Device>(
    device: &mut D,
    last: u64,
    body: &Body,
) -> Result<(), DeviceFault>
    requires room { last < 2 ^ 54 }
    requires inside { D.disk.keeps device.old → 512 * last + 512 ≤ length (D.disk.content device.old) }
    ensures stands { D.disk.keeps device.old → (start : ℕ) (payloads : List (List ℕ))
        → HoldsLog start payloads last (D.disk.content device.old)
        → ((c : List ℕ) → D.disk.left device.old c → take (512 * last + 512) c ≡ take (512 * last + 512) (D.disk.content device.old))
        → Stands D.disk device.old device.new (IsBeforeOrAfter start payloads last (payload_of body.now) (D.disk.content device.old))
        (IsBeforeOrAfter start payloads last (payload_of body.now) (D.disk.content device.old)) }
    ensures longer { D.disk.keeps device.old → (start : ℕ) (payloads : List (List ℕ))
        → HoldsLog start payloads last (D.disk.content device.old)
        → ((c : List ℕ) → D.disk.left device.old c → take (512 * last + 512) c ≡ take (512 * last + 512) (D.disk.content device.old))
        → OnOk result
        (HoldsLog start (payloads ++ payload_of body.now ∷ []) (last + 1 + sectors (payload_of body.now)) (D.disk.content device.new)) }
    ensures durable { D.disk.keeps device.old → OnOk result (Only (D.disk.content device.new) (D.disk.left device.new)) }
    ensures at_most { OnOk result (last + 1 + sectors (payload_of body.now) < 2 ^ 54) }
    ensures kept { D.disk.keeps device.old → D.disk.keeps device.new }
    ensures had_kept { D.disk.keeps device.new → D.disk.keeps device.old }
    ensures cause { HasCause D.disk device.old device.new result }
{
    write_behind(device, last, body.record_and_gate())?;
    write_gate(device, last)
}
