//! The first record of a log that is one of no writes.

ghost use Rattle.std.specs.Prelude.{◌≡◌, ◌<◌, ◌^◌, true, false, IfOk, IfSome};
ghost use Rattle.device.specs.Step.{Same};
ghost use Rattle.device.specs.Run.{Ran};
ghost use Rattle.roots.specs.Root.{log_sector};
ghost use Rattle.damage.specs.Records.{IsOfWrites, IsFirstDamagedRecord};

use device::Device;
use gatelog::{Log, LogFault};
use records::{RecordFault, read_writes};
use roots::Root;
use std::alloc::{AllocError, Global};

// Whether a payload is that of writes.
fn is_of_writes(alloc: Global, payload: &[u8]) -> Result<bool, AllocError>
    ensures yes { IfOk result (λ is. is ≡ true → IsOfWrites payload.now) }
    ensures no { IfOk result (λ is. is ≡ false → IsOfWrites payload.now → ⊥) }
{
    match read_writes(alloc, payload) {
        Ok(_) => Ok(true),
        Err(RecordFault::Damaged) => Ok(false),
        Err(RecordFault::Memory) => Err(AllocError),
    }
}

// The sector of the body of the first record that is one of no writes.
fn first_damaged<D: Device>(
    alloc: Global,
    device: &mut D,
    root: &Root,
) -> Result<Option<u64>, LogFault>
    requires small { log_sector root.now < 2 ^ 54 }
    ensures first { D.disk.keeps device.old → IfOk result (λ found. IfSome found (IsFirstDamagedRecord (D.disk.content device.old) root.now)) }
    ensures ran { Ran D.disk device.old device.new Same }
{
    let mut log = Log::open(device, root.log_sector())?;
    let mut gate = log.first_gate_sector();
    'each: while let Some((payload, next)) = log.payload(alloc, device, gate)? {
        if !is_of_writes(alloc, &payload)? {
            return Ok(Some(gate + 1));
        }
        gate = next;
    }
    Ok(None)
}

/// Looks for the first record of the log behind the pages of a root that is one of no writes, and gives the sector in which its body begins, behind its gate. One payload is held at a
/// time. None where each is of writes, where no log stands there, and where the device failed or memory was refused.
pub fn damaged_record<D: Device>(alloc: Global, device: &mut D, root: &Root) -> Option<u64>
    requires small { log_sector root.now < 2 ^ 54 }
    ensures first { D.disk.keeps device.old → IfSome result (IsFirstDamagedRecord (D.disk.content device.old) root.now) }
    ensures ran { Ran D.disk device.old device.new Same }
{
    match first_damaged(alloc, device, root) {
        Ok(found) => found,
        Err(_) => None,
    }
}
