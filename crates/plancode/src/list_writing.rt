//! Plans as bytes.

ghost use Rattle.std.specs.Prelude.{◌≡◌, ◌++◌, ◌^◌, ◌<◌, IfOk, OnOk, IsErrOf, length, map};
ghost use Rattle.plancode.specs.PlanList.{plan_bytes, list_bytes, IsShort, HaveNumbers, IsFor, IsListFor};
ghost use Rattle.plancode.specs.declared.list_writing.WritePlansFault.TheVariants as fault;

use crate::verified::Verified;
use byteorder::{BigEndian, ByteOrder};
use instructions::encode;
use std::alloc::{AllocError, AllocFailed, Global};
use thiserror::Error;

/// Why plans are not written.
#[derive(Clone, Copy, Debug, Drop, Error)]
pub enum WritePlansFault {
    /// There are more than 65535 plans, or one has more than 4294967295 bytes.
    #[error("too many plans, or one that is too long")]
    TooLong,
    /// Out of memory.
    #[error("out of memory")]
    Memory,
}

impl From<AllocError> for WritePlansFault {
    ghost use Rattle.plancode.specs.declared.list_writing.WritePlansFault.TheVariants as fault;

    ghost from_gives = { λ _ e. e ≡ fault.Memory };

    fn from(_: AllocError) -> WritePlansFault {
        WritePlansFault::Memory
    }
}

impl<T: Drop> From<AllocFailed<T>> for WritePlansFault {
    ghost use Rattle.plancode.specs.declared.list_writing.WritePlansFault.TheVariants as fault;

    ghost from_gives = { λ _ e. e ≡ fault.Memory };

    fn from(_: AllocFailed<T>) -> WritePlansFault {
        WritePlansFault::Memory
    }
}

// Adds a plan's code, with its number of bytes in front.
fn add_plan(alloc: Global, bytes: &mut Vec<u8>, plan: &Verified) -> Result<(), WritePlansFault>
    ensures added { OnOk result (bytes.new.items ≡ bytes.old.items ++ plan_bytes plan.now) }
    ensures fits { OnOk result (IsFor plan.now.vars plan.now) }
    ensures long { IsErrOf result fault.TooLong → IsShort plan.now → ⊥ }
{
    // The place, beside which stands that the plan is well formed.
    let _place = plan.vars();
    let code = encode(alloc, &plan.clone()?.into_plan())?;
    if code.len() > u32::MAX as usize {
        return Err(WritePlansFault::TooLong);
    }
    let mut size = [0; 4];
    BigEndian::write_u32(&mut size, code.len() as u32);
    bytes.extend_from_slice(&size)?;
    bytes.extend_from_slice(&code)?;
    Ok(())
}

/// The bytes of the plans, as a record holds them.
///
/// # Errors
///
/// [`WritePlansFault::TooLong`] where a number has no room in its bytes, and [`WritePlansFault::Memory`] when out of memory.
pub fn write_plans(alloc: Global, plans: &[Verified]) -> Result<Vec<u8>, WritePlansFault>
    ensures bytes { IfOk result (λ v. v.items ≡ list_bytes plans.now) }
    // They are read again for the same places.
    ensures fits { OnOk result (IsListFor (map (λ p. p.vars) plans.now) plans.now) }
    ensures long { IsErrOf result fault.TooLong → HaveNumbers plans.now → ⊥ }
{
    if plans.len() > u16::MAX as usize {
        return Err(WritePlansFault::TooLong);
    }
    let mut count = [0; 2];
    BigEndian::write_u16(&mut count, plans.len() as u16);
    let mut bytes = Vec::new(alloc);
    bytes.extend_from_slice(&count)?;
    for plan in plans {
        add_plan(alloc, &mut bytes, plan)?;
    }
    Ok(bytes)
}
