//! The plans of an object, as a record holds them.

ghost use Rattle.std.specs.Prelude.{◌≡◌, ◌≢◌, List, [], IfOk, IsErrOf};
ghost use Rattle.plancode.specs.Plans.{Judged};
ghost use Rattle.plancode.specs.PlanList.{list_bytes, HaveNumbers};
ghost use Rattle.plancode.specs.declared.list_reading.ReadPlansFault.TheVariants as read_fault;
ghost use Rattle.plancode.specs.declared.list_writing.WritePlansFault.TheVariants as write_fault;
ghost use Rattle.expressions.specs.Specification.{Plans, these, policy_bytes, plans_bytes, FitsPolicy, ArePolicyPlans, MayHavePlans, plans_seen};

use crate::places::policy_in;
use jsondoc::Doc;
use names::Resource;
use plancode::{ReadPlansFault, Verified, WritePlansFault, read_plans, write_plans};
use std::alloc::{AllocError, Global};

/// The plans of an object.
#[derive(Drop)]
pub enum StoredPlans {
    /// Those of a policy's expressions, in order; of other objects none.
    Plans(Vec<Verified>),
    /// Bytes that a file has in their place, and that are those of no plans which the policy may have.
    Spoiled(Vec<u8>),
}

// The bytes of a policy's plans.
fn policy_bytes(alloc: Global, plans: &StoredPlans) -> Result<Vec<u8>, WritePlansFault>
    ensures bytes { IfOk result (λ v. v.items ≡ policy_bytes (plans_seen plans.now)) }
    ensures long { IsErrOf result write_fault.TooLong → (known : List Judged) → plans_seen plans.now ≡ these known → HaveNumbers known → ⊥ }
{
    match plans {
        StoredPlans::Plans(plans) => write_plans(alloc, plans),
        StoredPlans::Spoiled(bytes) => Ok(copied(alloc, bytes)?),
    }
}

// The same bytes.
fn copied(alloc: Global, bytes: &[u8]) -> Result<Vec<u8>, AllocError>
    ensures { IfOk result (λ v. v.items ≡ bytes.now) }
{
    let mut copy = Vec::new(alloc);
    copy.extend_from_slice(bytes)?;
    Ok(copy)
}

/// The bytes of an object's plans: none but for a policy.
///
/// # Errors
///
/// [`WritePlansFault::TooLong`] where a number has no room in its bytes, and [`WritePlansFault::Memory`] when out of memory.
pub fn plans_bytes(
    alloc: Global,
    resource: Resource,
    plans: &StoredPlans,
) -> Result<Vec<u8>, WritePlansFault>
    ensures bytes { IfOk result (λ v. v.items ≡ plans_bytes resource (plans_seen plans.now)) }
    ensures long { IsErrOf result write_fault.TooLong → (known : List Judged) → plans_seen plans.now ≡ these known → HaveNumbers known → ⊥ }
{
    match resource {
        Resource::ValidatingAdmissionPolicy => policy_bytes(alloc, plans),
        Resource::ValidatingAdmissionPolicyBinding
        | Resource::ConfigMap
        | Resource::Node
        | Resource::Pod
        | Resource::Service
        | Resource::Deployment
        | Resource::Namespace => Ok(Vec::new(alloc)),
    }
}

// The plans that fit a policy, from their bytes.
fn fitting_plans(
    alloc: Global,
    document: &Doc,
    bytes: &[u8],
) -> Result<Vec<Verified>, ReadPlansFault>
    ensures found { IfOk result (λ v. list_bytes v.items ≡ bytes.now) }
    ensures fits { IfOk result (λ v. FitsPolicy document.now v.items) }
    ensures damaged { IsErrOf result read_fault.Damaged → (plans : List Judged) → FitsPolicy document.now plans → list_bytes plans ≢ bytes.now }
{
    match policy_in(alloc, document)? {
        Some((_, places)) => read_plans(alloc, &places, bytes),
        None => Err(ReadPlansFault::Damaged),
    }
}

// The plans of a policy.
fn policy_plans(alloc: Global, document: &Doc, bytes: &[u8]) -> Result<StoredPlans, ReadPlansFault>
    ensures found { IfOk result (λ p. policy_bytes (plans_seen p) ≡ bytes.now) }
    ensures fits { IfOk result (λ p. ArePolicyPlans document.now (plans_seen p)) }
    ensures damaged { IsErrOf result read_fault.Damaged → ⊥ }
{
    match fitting_plans(alloc, document, bytes) {
        Ok(plans) => Ok(StoredPlans::Plans(plans)),
        Err(ReadPlansFault::Damaged) => Ok(StoredPlans::Spoiled(copied(alloc, bytes)?)),
        Err(ReadPlansFault::Memory) => Err(ReadPlansFault::Memory),
    }
}

// No plans.
fn no_plans(alloc: Global, bytes: &[u8]) -> Result<StoredPlans, ReadPlansFault>
    ensures found { IfOk result (λ p. ([] ≡ bytes.now) × (plans_seen p ≡ these [])) }
    ensures damaged { IsErrOf result read_fault.Damaged → [] ≢ bytes.now }
    ensures refused { [] ≢ bytes.now → IsErrOf result read_fault.Damaged }
{
    if !bytes.is_empty() {
        return Err(ReadPlansFault::Damaged);
    }
    Ok(StoredPlans::Plans(Vec::new(alloc)))
}

/// The plans of an object of a resource, from their bytes. Bytes that are those of no plans of the policy are kept as they are: they are told where a write
/// needs them.
///
/// # Errors
///
/// [`ReadPlansFault::Damaged`] where an object that is no policy has bytes, and [`ReadPlansFault::Memory`] when out of memory.
pub fn stored_plans(
    alloc: Global,
    resource: Resource,
    document: &Doc,
    bytes: &[u8],
) -> Result<StoredPlans, ReadPlansFault>
    ensures found { IfOk result (λ p. plans_bytes resource (plans_seen p) ≡ bytes.now) }
    ensures fits { IfOk result (λ p. MayHavePlans resource document.now (plans_seen p)) }
    ensures damaged { IsErrOf result read_fault.Damaged
        → (plans : Plans) → MayHavePlans resource document.now plans → plans_bytes resource plans ≢ bytes.now }

    // Bytes of no plans that the object may have are told, before any memory is taken.
    ensures refused { ((plans : Plans) → MayHavePlans resource document.now plans → plans_bytes resource plans ≢ bytes.now) → IsErrOf result read_fault.Damaged }
{
    match resource {
        Resource::ValidatingAdmissionPolicy => policy_plans(alloc, document, bytes),
        Resource::ValidatingAdmissionPolicyBinding
        | Resource::ConfigMap
        | Resource::Node
        | Resource::Pod
        | Resource::Service
        | Resource::Deployment
        | Resource::Namespace => no_plans(alloc, bytes),
    }
}
