//! Bytes as plans.

ghost use Rattle.std.specs.Prelude.{◌≡◌, ◌≢◌, ◌++◌, List, ℕ, None, IfOk, IfSome, IsErrOf};
ghost use Rattle.std.specs.List.{flat_map};
ghost use Rattle.byteorder.specs.Endian.{big_bytes};
ghost use Rattle.instructions.specs.Bytes.{code};
ghost use Rattle.plancode.specs.Plans.{Judged, IsVerified};
ghost use Rattle.plancode.specs.PlanList.{plan_bytes, list_bytes, IsFor, AreFor, IsListFor};
ghost use Rattle.plancode.specs.declared.list_reading.ReadPlansFault.TheVariants as fault;

use crate::verified::{Verified, decode};
use byteorder::{BigEndian, ByteOrder};
use fields::long_field;
use instructions::{CodeFault, Name};
use std::alloc::{AllocError, AllocFailed, Global};
use thiserror::Error;

/// Why bytes give no plans.
#[derive(Clone, Copy, Debug, Drop, Error)]
pub enum ReadPlansFault {
    /// No well-formed plans for these places have the bytes.
    #[error("damaged plans")]
    Damaged,
    /// Out of memory.
    #[error("out of memory")]
    Memory,
}

impl From<AllocError> for ReadPlansFault {
    ghost use Rattle.plancode.specs.declared.list_reading.ReadPlansFault.TheVariants as fault;

    ghost from_gives = { λ _ e. e ≡ fault.Memory };

    fn from(_: AllocError) -> ReadPlansFault {
        ReadPlansFault::Memory
    }
}

impl<T: Drop> From<AllocFailed<T>> for ReadPlansFault {
    ghost use Rattle.plancode.specs.declared.list_reading.ReadPlansFault.TheVariants as fault;

    ghost from_gives = { λ _ e. e ≡ fault.Memory };

    fn from(_: AllocFailed<T>) -> ReadPlansFault {
        ReadPlansFault::Memory
    }
}

impl From<CodeFault> for ReadPlansFault {
    ghost use Rattle.plancode.specs.ListFaults.{of_code_fault};

    ghost from_gives = { λ code_fault e. e ≡ of_code_fault code_fault };

    fn from(fault: CodeFault) -> ReadPlansFault {
        match fault {
            CodeFault::Truncated
            | CodeFault::BadOperand
            | CodeFault::TextNotUtf8
            | CodeFault::TrailingBytes
            | CodeFault::BadJump
            | CodeFault::BadName
            | CodeFault::BadStack => ReadPlansFault::Damaged,
            CodeFault::Memory => ReadPlansFault::Memory,
        }
    }
}

// The plan of this code, for a place with this many variables.
fn read_code(alloc: Global, variables: u16, code_bytes: &[u8]) -> Result<Verified, ReadPlansFault>
    ensures found { IfOk result (λ p. (p.vars ≡ variables) × IsVerified p.vars p.ops × (code p.ops ≡ code_bytes.now)) }
    ensures damaged { IsErrOf result fault.Damaged → (p : Judged) → IsFor variables p → code p.ops ≢ code_bytes.now }
{
    Ok(decode(alloc, code_bytes, variables, Name::NamespaceObject)?)
}

// The plan that bytes begin with, for a place with this many variables, and what stands after it.
fn read_plan(
    alloc: Global,
    variables: u16,
    bytes: &[u8],
) -> Result<(Verified, &[u8]), ReadPlansFault>
    ensures found { IfOk result (λ x. plan_bytes x.0 ++ x.1.now ≡ bytes.now) }
    ensures fits { IfOk result (λ x. IsFor variables x.0) }
    ensures only { IfOk result (λ x. (p : Judged) (rest : List ℕ) → IsFor variables p → plan_bytes p ++ rest ≡ bytes.now → (p ≡ x.0) × (rest ≡ x.1.now)) }
    ensures damaged { IsErrOf result fault.Damaged → (p : Judged) (rest : List ℕ) → IsFor variables p → plan_bytes p ++ rest ≢ bytes.now }
{
    match long_field(bytes) {
        Some((inside, rest)) => {
            let plan = read_code(alloc, variables, inside)?;
            Ok((plan, rest))
        }
        None => Err(ReadPlansFault::Damaged),
    }
}

// The plans of bytes, one for each place.
fn read_each(alloc: Global, places: &[u16], bytes: &[u8]) -> Result<Vec<Verified>, ReadPlansFault>
    ensures found { IfOk result (λ v. flat_map plan_bytes v.items ≡ bytes.now) }
    ensures fits { IfOk result (λ v. AreFor places.now v.items) }
    ensures damaged { IsErrOf result fault.Damaged → (plans : List Judged) → AreFor places.now plans → flat_map plan_bytes plans ≢ bytes.now }
{
    let mut plans = Vec::new(alloc);
    let mut rest = bytes;
    let mut left = places;
    'each: while let Some((variables, others)) = left.split_first() {
        let (plan, after) = read_plan(alloc, *variables, rest)?;
        plans.push(plan)?;
        rest = after;
        left = others;
    }
    if !rest.is_empty() {
        return Err(ReadPlansFault::Damaged);
    }
    Ok(plans)
}

// The number of plans, and what stands after it.
fn split_count(bytes: &[u8]) -> Option<(u16, &[u8])>
    ensures parts { IfSome result (λ x. bytes.now ≡ big_bytes 2 x.0 ++ x.1.now) }
    ensures none { result ≡ None → (n : ℕ) (rest : List ℕ) → bytes.now ≢ big_bytes 2 n ++ rest }
{
    if bytes.len() < 2 {
        return None;
    }
    Some((BigEndian::read_u16(bytes), &bytes[2..]))
}

/// The plans that the bytes spell, one for each place: a place is the number of variables that an expression may name.
///
/// # Errors
///
/// [`ReadPlansFault::Damaged`] where no well-formed plans for these places have the bytes, and [`ReadPlansFault::Memory`] when out of
/// memory.
pub fn read_plans(
    alloc: Global,
    places: &[u16],
    bytes: &[u8],
) -> Result<Vec<Verified>, ReadPlansFault>
    ensures found { IfOk result (λ v. list_bytes v.items ≡ bytes.now) }
    ensures fits { IfOk result (λ v. IsListFor places.now v.items) }
    ensures damaged { IsErrOf result fault.Damaged → (plans : List Judged) → IsListFor places.now plans → list_bytes plans ≢ bytes.now }
{
    match split_count(bytes) {
        Some((count, rest)) => {
            if count as usize != places.len() {
                return Err(ReadPlansFault::Damaged);
            }
            read_each(alloc, places, rest)
        }
        None => Err(ReadPlansFault::Damaged),
    }
}
