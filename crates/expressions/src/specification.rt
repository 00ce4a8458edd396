//! What stands in an object.

ghost use Rattle.std.specs.Prelude.{◌≡◌, Some, IfOk};
ghost use Rattle.std.specs.List.{AllByRecursion};
ghost use Rattle.serde_json.specs.View.{view};
ghost use Rattle.names.specs.declared.resource.Resource.TheVariants.{ValidatingAdmissionPolicy, ValidatingAdmissionPolicyBinding};
ghost use Rattle.plancode.specs.Plans.{IsVerified};
ghost use Rattle.policy.specs.Rules.{match_rules_seen};
ghost use Rattle.policy.specs.Spec.{policy_seen};
ghost use Rattle.expressions.specs.Places.{policy_in};
ghost use Rattle.expressions.specs.Specification.{may_stand, policy_for, binding_for, IsCompiled, AreShort, MayBeHeld, specification_seen};

use crate::fault::PolicyFault;
use crate::places::policy_in;
use crate::typed_policy::TypedPolicy;
use jsondoc::Doc;
use names::{Format, Resource};
use plancode::Verified;
use policy::{Binding, MatchRules, Policy};
use std::alloc::{AllocError, Global};

/// What stands in the `spec` of an object.
#[derive(Drop)]
pub enum Specification {
    /// What must stand there. The plans are those of the expressions of a policy, in order, and none for the others.
    Sound(Vec<Verified>),
    /// A policy or a binding that has not the form of one.
    BadSpec,
    /// The first expression of a policy that spells no tree, or none with a type as it must have: its text.
    BadExpression(String),
}

// Each plan is well formed, as what was decoded is.
fn all_verified(plans: &[Verified])
    ensures { AllByRecursion (λ p. IsVerified p.vars p.ops) plans.now }
{
    for plan in plans {
        let _place = plan.vars();
    }
}

// Whether match rules may stand in an object: those with a selector of namespaces may where namespaces are objects.
fn may_stand(format: Format, rules: &MatchRules) -> bool
    ensures { result ≡ may_stand format (match_rules_seen rules.now) }
{
    format.has_namespaces() || rules.namespaces.is_none()
}

// What stands in a policy of this form, which may stand.
#[tactic(auto, using(crate::proofs::Standing::bad_expression_of))]
fn of_form(
    alloc: Global,
    format: Format,
    document: &Doc,
    form: &Policy,
) -> Result<Specification, AllocError>
    requires form { policy_for format document.now ≡ Some (policy_seen form.now) }
    ensures compiled { IfOk result (λ s. IsCompiled format ValidatingAdmissionPolicy document.now (specification_seen s)) }
    ensures short { IfOk result (λ s. AreShort document.now (specification_seen s)) }
    ensures held { IfOk result (λ s. MayBeHeld ValidatingAdmissionPolicy document.now (specification_seen s)) }
{
    match TypedPolicy::read(alloc, format, document.value()) {
        Ok(policy) => {
            let plans = policy.plans(alloc)?;
            all_verified(&plans);
            Ok(Specification::Sound(plans))
        }
        Err(PolicyFault::BadSpec) => unreachable!("the document has the form of a policy"),
        Err(PolicyFault::BadExpression(text)) => Ok(Specification::BadExpression(text)),
        Err(PolicyFault::Memory) => Err(AllocError),
    }
}

// What stands in a policy of this form.
#[tactic(auto, using(crate::proofs::Standing::bad_policy, crate::proofs::Standing::stands_for, crate::proofs::Standing::stands_not))]
fn of_known(
    alloc: Global,
    format: Format,
    document: &Doc,
    form: &Policy,
) -> Result<Specification, AllocError>
    requires form { policy_in document.now ≡ Some (policy_seen form.now) }
    ensures compiled { IfOk result (λ s. IsCompiled format ValidatingAdmissionPolicy document.now (specification_seen s)) }
    ensures short { IfOk result (λ s. AreShort document.now (specification_seen s)) }
    ensures held { IfOk result (λ s. MayBeHeld ValidatingAdmissionPolicy document.now (specification_seen s)) }
{
    if may_stand(format, &form.constraints) {
        of_form(alloc, format, document, form)
    } else {
        Ok(Specification::BadSpec)
    }
}

#[tactic(auto, using(crate::proofs::Standing::bad_policy, crate::proofs::Standing::no_policy))]
fn of_policy(alloc: Global, format: Format, document: &Doc) -> Result<Specification, AllocError>
    ensures compiled { IfOk result (λ s. IsCompiled format ValidatingAdmissionPolicy document.now (specification_seen s)) }
    ensures short { IfOk result (λ s. AreShort document.now (specification_seen s)) }
    ensures held { IfOk result (λ s. MayBeHeld ValidatingAdmissionPolicy document.now (specification_seen s)) }
{
    match policy_in(alloc, document)? {
        Some((form, _)) => of_known(alloc, format, document, &form),
        None => Ok(Specification::BadSpec),
    }
}

#[tactic(auto, using(crate::proofs::Standing::sound_binding, crate::proofs::Standing::bad_binding, crate::proofs::Standing::binding_may, crate::proofs::Standing::binding_may_not, crate::proofs::Standing::no_binding))]
fn of_binding(alloc: Global, format: Format, document: &Doc) -> Result<Specification, AllocError>
    ensures compiled { IfOk result (λ s. IsCompiled format ValidatingAdmissionPolicyBinding document.now (specification_seen s)) }
    ensures short { IfOk result (λ s. AreShort document.now (specification_seen s)) }
    ensures held { IfOk result (λ s. MayBeHeld ValidatingAdmissionPolicyBinding document.now (specification_seen s)) }
{
    match Binding::of(alloc, document.value())? {
        Some(binding) => {
            if may_stand(format, &binding.resources) {
                Ok(Specification::Sound(Vec::new(alloc)))
            } else {
                Ok(Specification::BadSpec)
            }
        }
        None => Ok(Specification::BadSpec),
    }
}

/// What stands in the object of a resource, as a format has it.
///
/// # Errors
///
/// Out of memory.
#[tactic(auto, using(crate::proofs::Standing::config_map, crate::proofs::Standing::node, crate::proofs::Standing::pod, crate::proofs::Standing::service, crate::proofs::Standing::deployment, crate::proofs::Standing::namespace))]
pub fn specification_of(
    alloc: Global,
    format: Format,
    resource: Resource,
    document: &Doc,
) -> Result<Specification, AllocError>
    ensures compiled { IfOk result (λ s. IsCompiled format resource document.now (specification_seen s)) }
    // The list of the plans has at most 22 bytes for each byte of the document's text, and two.
    ensures short { IfOk result (λ s. AreShort document.now (specification_seen s)) }
    // The plans may be held, so that their bytes are read again.
    ensures held { IfOk result (λ s. MayBeHeld resource document.now (specification_seen s)) }
{
    match resource {
        Resource::ValidatingAdmissionPolicy => of_policy(alloc, format, document),
        Resource::ValidatingAdmissionPolicyBinding => of_binding(alloc, format, document),
        Resource::ConfigMap
        | Resource::Node
        | Resource::Pod
        | Resource::Service
        | Resource::Deployment
        | Resource::Namespace => Ok(Specification::Sound(Vec::new(alloc))),
    }
}
