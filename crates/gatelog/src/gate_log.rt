ghost use Rattle.std.specs.Prelude.{◌≡◌, ◌<◌, ◌≤◌, ◌+◌, ◌*◌, ◌^◌, ◌++◌, ◌∷◌, [], ℕ, List, true, false, not, is_ok, length, take, replicate, IsTrue, IfOk, OnOk, OnErr, IsErrOf, ◌⊎◌, ◌↔◌, map};

use crate::reading::{last_gate_of, payload_at, payloads_of};
use crate::write_record::write_record;
use crate::{Body, LogFault};
use device::{Device, SECTOR};
use std::alloc::Global;

/// A log on a device: it begins at a gate, and its last gate is closed.
///
/// After an answer `Device` the log answers `Device` and touches the device no more; it has to be opened again.
#[derive(Drop)]
pub struct Log {
    first_gate_sector: u64,
    last_gate_sector: u64,
    record_count: u64,
    failed: bool,
    ghost in_order: { first_gate_sector ≤ last_gate_sector },
    ghost last_fits: { last_gate_sector < 2 ^ 54 },
    ghost apart: { record_count ≤ last_gate_sector },
}

impl Log {
    ghost use Rattle.device.specs.Disk.{LeavesOnly, HasCause, HasFailed};
    ghost use Rattle.device.specs.Step.{Holds, Same, Torn};
    ghost use Rattle.device.specs.Run.{Ran};
    ghost use Rattle.gatelog.specs.declared.fault.LogFault.TheVariants as LogFault;
    ghost use Rattle.gatelog.specs.Record.{sectors};
    ghost use Rattle.gatelog.specs.Payload.{payload_of};
    ghost use Rattle.gatelog.specs.Log.{IsClosed, HoldsLog, AtMostOneLog, IsBeforeOrAfter};
    ghost use Rattle.gatelog.specs.Settled.{IsSettled};
    ghost use Rattle.gatelog.specs.Walk.{IsFirstOf, IsAhead};

    /// Writes a closed gate, the empty log there. It is not synced.
    pub fn start<D: Device>(device: &mut D, first_gate_sector: u64) -> Result<Log, LogFault>
        requires { D.disk.keeps device.old → 512 * first_gate_sector ≤ length (D.disk.content device.old) }
        ensures log { IfOk result
            (λ log. (log.first_gate_sector ≡ first_gate_sector) × (log.last_gate_sector ≡ first_gate_sector) × (log.failed ≡ false)) }
        ensures none { IfOk result (λ log. log.record_count ≡ 0) }
        ensures stands { D.disk.keeps device.old → OnOk result (HoldsLog first_gate_sector [] first_gate_sector (D.disk.content device.new)) }
        ensures written { D.disk.keeps device.old
            → OnOk result (Holds (D.disk.content device.old) (512 * first_gate_sector) (replicate 512 0) (D.disk.content device.new)) }
        ensures ran { Ran D.disk device.old device.new (Torn (512 * first_gate_sector) 512) }
        ensures refusal { OnErr result (result ≡ Err LogFault.Device) }
        ensures cause { HasCause D.disk device.old device.new result }
    {
        device.write(first_gate_sector, &[0; SECTOR])?;
        Ok(Log {
            first_gate_sector,
            last_gate_sector: first_gate_sector,
            record_count: 0,
            failed: false,
        })
    }

    /// Finds the log that begins at a gate, up to its first closed gate, and writes nothing. `Damaged` is answered exactly where no
    /// list of payloads stands there. It takes no memory.
    pub fn open<D: Device>(device: &mut D, first_gate_sector: u64) -> Result<Log, LogFault>
        ensures log { IfOk result (λ log. (log.first_gate_sector ≡ first_gate_sector) × (log.failed ≡ false)) }
        ensures found { D.disk.keeps device.old
            → IfOk result (λ log. (payloads : List (List ℕ)) × HoldsLog first_gate_sector payloads log.last_gate_sector (D.disk.content device.old)) }
        ensures counted { D.disk.keeps device.old → (payloads : List (List ℕ))
            → IfOk result (λ log. HoldsLog first_gate_sector payloads log.last_gate_sector (D.disk.content device.old) → log.record_count ≡ length payloads) }
        ensures damaged { D.disk.keeps device.old → IsErrOf result LogFault.Damaged
            → (payloads : List (List ℕ)) (last : ℕ) → HoldsLog first_gate_sector payloads last (D.disk.content device.old) → ⊥ }
        ensures refusal { OnErr result (IsErrOf result LogFault.Device ⊎ IsErrOf result LogFault.Damaged) }
        ensures ran { Ran D.disk device.old device.new Same }
        ensures cause { IsErrOf result LogFault.Device → HasFailed D.disk device.old device.new }
        ensures steady { OnOk result (D.disk.failures device.new ≡ D.disk.failures device.old) }
        ensures unfailed { IsErrOf result LogFault.Damaged → D.disk.failures device.new ≡ D.disk.failures device.old }
    {
        let (last_gate_sector, record_count) = last_gate_of(device, first_gate_sector)?;
        Ok(Log {
            first_gate_sector,
            last_gate_sector,
            record_count,
            failed: false,
        })
    }

    /// The empty log at a closed gate that is there, with no device call.
    pub fn restart<D: Device>(device: &D, first_gate_sector: u64) -> Log
        requires { first_gate_sector < 2 ^ 54 }
        ensures place { (result.first_gate_sector ≡ first_gate_sector) × (result.last_gate_sector ≡ first_gate_sector) }
        ensures none { result.record_count ≡ 0 }
        ensures works { result.failed ≡ false }
        ensures settled { IsClosed first_gate_sector (D.disk.content device.now)
            → ((c : List ℕ) → D.disk.left device.now c → take (512 * first_gate_sector + 512) c
            ≡ take (512 * first_gate_sector + 512) (D.disk.content device.now))
            → IsSettled D.disk device.now result [] }
    {
        let _ = device;
        Log {
            first_gate_sector,
            last_gate_sector: first_gate_sector,
            record_count: 0,
            failed: false,
        }
    }

    /// The sector of the gate at the log's start. At most one list of payloads stands at a gate.
    pub fn first_gate_sector(&self) -> u64
        ensures gate { result ≡ self.now.first_gate_sector }
        ensures one_log { AtMostOneLog }
    {
        self.first_gate_sector
    }

    /// The sector of the closed gate at the log's end.
    pub fn last_gate_sector(&self) -> u64
        ensures { result ≡ self.now.last_gate_sector }
    {
        self.last_gate_sector
    }

    /// How many payloads the log has. An opening counts them as it finds them, and an append counts one more.
    pub fn record_count(&self) -> u64
        ensures { result ≡ self.now.record_count }
    {
        self.record_count
    }

    // Answers `Device` after a failure.
    fn check_works(&self) -> Result<(), LogFault>
        ensures works { is_ok result ≡ not self.now.failed }
        ensures refusal { OnErr result (result ≡ Err LogFault.Device) }
    {
        if self.failed {
            return Err(LogFault::Device);
        }
        Ok(())
    }

    /// The payloads, oldest first.
    pub fn records<D: Device>(
        &mut self,
        alloc: Global,
        device: &mut D,
    ) -> Result<Vec<Vec<u8>>, LogFault>
        ensures found { D.disk.keeps device.old → (payloads : List (List ℕ))
            → HoldsLog self.old.first_gate_sector payloads self.old.last_gate_sector (D.disk.content device.old)
            → IfOk result (λ found. map (λ payload. payload.items) found.items ≡ payloads) }
        ensures damaged { D.disk.keeps device.old → IsErrOf result LogFault.Damaged
            → (payloads : List (List ℕ)) → HoldsLog self.old.first_gate_sector payloads self.old.last_gate_sector (D.disk.content device.old) → ⊥ }
        ensures refusal { IsErrOf result LogFault.TooLong → ⊥ }
        ensures place { (self.new.first_gate_sector ≡ self.old.first_gate_sector) × (self.new.last_gate_sector ≡ self.old.last_gate_sector) }
        ensures counted { self.new.record_count ≡ self.old.record_count }
        ensures failed { IsTrue self.new.failed ↔ IsErrOf result LogFault.Device }
        ensures stays_failed { IsTrue self.old.failed → IsErrOf result LogFault.Device }
        ensures untouched { IsTrue self.old.failed → device.new ≡ device.old }
        ensures ran { Ran D.disk device.old device.new Same }
        ensures cause { self.old.failed ≡ false → IsErrOf result LogFault.Device → HasFailed D.disk device.old device.new }
        ensures steady { OnOk result (D.disk.failures device.new ≡ D.disk.failures device.old) }
        ensures unfailed { IsErrOf result LogFault.Memory ⊎ IsErrOf result LogFault.Damaged → D.disk.failures device.new ≡ D.disk.failures device.old }
    {
        self.check_works()?;
        let answer = payloads_of(alloc, device, self.first_gate_sector, self.last_gate_sector);
        self.failed = matches!(&answer, Err(LogFault::Device));
        answer
    }

    /// The payload of the record behind a gate, and the gate behind that record: the next one of the log. Nothing at the log's last gate. The payload
    /// of one record is all that is held.
    ///
    /// # Errors
    ///
    /// `Damaged` only where no list of payloads stands at the gate that ends at the log's last gate; `Memory`; `Device` as everywhere.
    pub fn payload<D: Device>(
        &mut self,
        alloc: Global,
        device: &mut D,
        gate: u64,
    ) -> Result<Option<(Vec<u8>, u64)>, LogFault>
        ensures found { D.disk.keeps device.old → (payloads : List (List ℕ))
            → HoldsLog gate payloads self.old.last_gate_sector (D.disk.content device.old)
            → IfOk result (λ told. IsFirstOf told payloads self.old.last_gate_sector (D.disk.content device.old)) }
        ensures ahead { IfOk result (λ told. IsAhead told gate self.old.last_gate_sector) }
        ensures damaged { D.disk.keeps device.old → IsErrOf result LogFault.Damaged
            → (payloads : List (List ℕ)) → HoldsLog gate payloads self.old.last_gate_sector (D.disk.content device.old) → ⊥ }
        ensures refusal { IsErrOf result LogFault.TooLong → ⊥ }
        ensures place { (self.new.first_gate_sector ≡ self.old.first_gate_sector) × (self.new.last_gate_sector ≡ self.old.last_gate_sector) }
        ensures works { OnOk result (self.new.failed ≡ false) }
        ensures counted { self.new.record_count ≡ self.old.record_count }
        ensures failed { IsTrue self.new.failed ↔ IsErrOf result LogFault.Device }
        ensures stays_failed { IsTrue self.old.failed → IsErrOf result LogFault.Device }
        ensures untouched { IsTrue self.old.failed → device.new ≡ device.old }
        ensures ran { Ran D.disk device.old device.new Same }
        ensures cause { self.old.failed ≡ false → IsErrOf result LogFault.Device → HasFailed D.disk device.old device.new }
        ensures steady { OnOk result (D.disk.failures device.new ≡ D.disk.failures device.old) }
        ensures unfailed { IsErrOf result LogFault.Memory ⊎ IsErrOf result LogFault.Damaged → D.disk.failures device.new ≡ D.disk.failures device.old }
    {
        self.check_works()?;
        let answer = payload_at(alloc, device, gate, self.last_gate_sector);
        self.failed = matches!(&answer, Err(LogFault::Device));
        answer
    }

    /// Appends a payload: its record and the closed gate behind it in one write, a sync, then the record's gate, a sync. It takes
    /// no memory. At every moment a crash leaves the old list or the list with one more.
    pub fn append<D: Device>(&mut self, device: &mut D, body: Body) -> Result<(), LogFault>
        requires { D.disk.keeps device.old → self.old.failed ≡ false → 512 * self.old.last_gate_sector + 512 ≤ length (D.disk.content device.old) }

        ensures ok { D.disk.keeps device.old → (payloads : List (List ℕ)) → IsSettled D.disk device.old self.old payloads
            → OnOk result (IsSettled D.disk device.new self.new (payloads ++ payload_of body ∷ [])) }
        ensures any_moment { D.disk.keeps device.old → (payloads : List (List ℕ)) → IsSettled D.disk device.old self.old payloads
            → LeavesOnly D.disk device.old device.new
            (IsBeforeOrAfter self.old.first_gate_sector payloads self.old.last_gate_sector (payload_of body) (D.disk.content device.old)) }
        ensures found { D.disk.keeps device.old → (payloads : List (List ℕ)) → IsSettled D.disk device.old self.old payloads
            → IsBeforeOrAfter self.old.first_gate_sector payloads self.old.last_gate_sector (payload_of body) (D.disk.content device.old)
            (D.disk.content device.new) }
        ensures left { D.disk.keeps device.old → (payloads : List (List ℕ)) → IsSettled D.disk device.old self.old payloads
            → (c : List ℕ) → D.disk.left device.new c
            → IsBeforeOrAfter self.old.first_gate_sector payloads self.old.last_gate_sector (payload_of body) (D.disk.content device.old) c }

        // After a failure the log answers `Device` without a call.
        ensures failed { self.new.failed ≡ not (is_ok result) }
        ensures untouched { IsTrue self.old.failed → device.new ≡ device.old }
        ensures refusal { OnErr result (result ≡ Err LogFault.Device) }
        ensures cause { self.old.failed ≡ false → HasCause D.disk device.old device.new result }

        ensures start { self.new.first_gate_sector ≡ self.old.first_gate_sector }
        ensures last { OnOk result (self.new.last_gate_sector ≡ self.old.last_gate_sector + 1 + sectors (payload_of body)) }
        ensures counted { OnOk result (self.new.record_count ≡ self.old.record_count + 1) }
        ensures kept { D.disk.keeps device.old → D.disk.keeps device.new }
        ensures had_kept { D.disk.keeps device.new → D.disk.keeps device.old }
    {
        self.check_works()?;
        self.failed = true;
        write_record(device, self.last_gate_sector, &body)?;
        self.last_gate_sector += 1 + body.sectors();
        self.record_count += 1;
        self.failed = false;
        Ok(())
    }
}
