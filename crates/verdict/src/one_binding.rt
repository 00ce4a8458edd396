//! What one binding of a policy says of a write.

ghost use Rattle.std.specs.Prelude.{◌≡◌, ◌≤◌, ◌⊎◌, ◌++◌, ℕ, List, map, option_map, Some, None, false, IfOk, OnOk, OnErr, IfSome, IsErrOf, IsTrue};
ghost use Rattle.serde_json.specs.View.{view};
ghost use Rattle.celtree.specs.Tree.{Expr};
ghost use Rattle.policy.specs.Rules.{attempt_seen};
ghost use Rattle.policy.specs.Matching.{is_matched};
ghost use Rattle.plancode.specs.Plans.{Judged};
ghost use Rattle.expressions.specs.Specification.{these, spoiled, plans_seen};
ghost use Rattle.policy.specs.Spec.{policy_seen, binding_seen};
ghost use Rattle.verdict.specs.Request.{request_of};
ghost use Rattle.verdict.specs.Environment.{seen};
ghost use Rattle.verdict.specs.Told.{failure};
ghost use Rattle.verdict.specs.DenialSeen.{denial_seen};
ghost use Rattle.verdict.specs.Denials.{first_denial, evaluate};
ghost use Rattle.verdict.specs.Ready.{AreReady};
ghost use Rattle.verdict.specs.Seen.{conditions_seen};
ghost use Rattle.verdict.specs.Objects.{Objects, shown_objects};
ghost use Rattle.verdict.specs.OneBinding.{on_not_found, on_parameters, on_conditions, denial};
ghost use Rattle.verdict.specs.Asked.{asked};
ghost use Rattle.verdict.specs.ParametersSeen.{parameters_seen};
ghost use Rattle.objects.specs.Failing.{HasGrown};
ghost use Rattle.objects.specs.declared.fault.Part.{Part};
ghost use Rattle.objects.specs.declared.fault.Part.TheVariants as Part;
ghost use Rattle.objects.specs.declared.fault.LookupFault.TheVariants as LookupFault;

use crate::answers::Conditions;
use crate::denials::{Denial, failure};
use crate::lookup::Lookup;
use crate::parameters::{Parameters, parameters_of};
use crate::request::request_document;
use crate::together::conditions;
use crate::validations::evaluate;
use expressions::StoredPlans;
use jsondoc::Doc;
use objects::{LookupFault, Part};
use plancode::Verified;
use policy::{Attempt, Binding, NotFound, Policy, matches};
use serde_json::Value as Json;
use std::alloc::{AllocError, Global};

// The denial of a write for which the policy cannot be evaluated, if it does not pass.
fn failed(
    alloc: Global,
    policy: &Policy,
    front: &str,
    back: &str,
) -> Result<Option<Denial>, AllocError>
    ensures { IfOk result (λ o. option_map denial_seen o ≡ failure (policy_seen policy.now).failure_policy (front.now ++ back.now)) }
{
    let mut message = String::from_str(alloc, front)?;
    message.push_str(back)?;
    Ok(failure(policy.failure_policy, message))
}

// What the binding says of a write where no parameter is found.
fn on_not_found(
    alloc: Global,
    policy: &Policy,
    binding: &Binding,
) -> Result<Option<Denial>, AllocError>
    ensures { IfOk result (λ o. option_map denial_seen o ≡ on_not_found (policy_seen policy.now) (binding_seen binding.now).param_ref) }
{
    match &binding.param_ref {
        Some(reference) => match reference.not_found {
            NotFound::Allow => Ok(None),
            NotFound::Deny => failed(alloc, policy, "parameter not found", ""),
        },
        None => Ok(None),
    }
}

// The first denial with one of these parameters.
fn first_denial(
    alloc: Global,
    policy: &Policy,
    plans: &[Verified],
    attempt: &Attempt<'_>,
    request: &Json,
    documents: &[Doc],
) -> Result<Option<Denial>, AllocError>
    requires told { view request.now ≡ request_of (attempt_seen attempt.now) }
    ensures { (trees : List Expr) → AreReady (policy_seen policy.now) trees plans.now
        → IfOk result (λ o. option_map denial_seen o ≡ first_denial (λ d. evaluate (policy_seen policy.now) trees (seen (attempt_seen attempt.now) d)) (map Some documents.now)) }
{
    for document in documents {
        let found = evaluate(
            alloc,
            policy,
            plans,
            attempt,
            request,
            Some(document.value()),
        )?;
        if let Some(denial) = found {
            return Ok(Some(denial));
        }
    }
    Ok(None)
}

// What the policy says of a write with these parameters.
fn on_parameters(
    alloc: Global,
    policy: &Policy,
    plans: &[Verified],
    binding: &Binding,
    attempt: &Attempt<'_>,
    request: &Json,
    parameters: &Parameters,
) -> Result<Option<Denial>, AllocError>
    requires told { view request.now ≡ request_of (attempt_seen attempt.now) }
    ensures { (trees : List Expr) → AreReady (policy_seen policy.now) trees plans.now
        → IfOk result (λ o. option_map denial_seen o ≡ on_parameters (policy_seen policy.now) trees (binding_seen binding.now).param_ref (attempt_seen attempt.now) (parameters_seen parameters.now)) }
{
    match parameters {
        Parameters::Alone => evaluate(alloc, policy, plans, attempt, request, None),
        Parameters::Found(documents) => {
            first_denial(alloc, policy, plans, attempt, request, documents)
        }
        Parameters::Misconfigured => failed(alloc, policy, "binding misconfigured", ""),
        Parameters::NotFound => on_not_found(alloc, policy, binding),
    }
}

// What is said of a write whose match conditions say this.
fn on_conditions<'a, L: Lookup<'a>>(
    alloc: Global,
    lookup: &mut L,
    policy: &Policy,
    plans: &[Verified],
    binding: &Binding,
    attempt: &Attempt<'_>,
    request: &Json,
    conditions: Conditions<'_>,
) -> Result<Option<Denial>, LookupFault>
    requires told { view request.now ≡ request_of (attempt_seen attempt.now) }
    ensures found { (objects : Objects) (trees : List Expr) → L.shows lookup.old objects → AreReady (policy_seen policy.now) trees plans.now
        → IfOk result (λ o. option_map denial_seen o ≡ on_conditions (shown_objects objects) (policy_seen policy.now) trees (binding_seen binding.now) (attempt_seen attempt.now) (conditions_seen conditions.entry)) }
    ensures kept { (objects : Objects) → L.shows lookup.old objects → L.shows lookup.new objects }
    ensures goes { L.goes_to lookup.old lookup.new }
    ensures counts { L.failures lookup.old ≤ L.failures lookup.new }
    ensures steady { OnOk result (L.unfailed lookup.old lookup.new) }
    ensures device { IsErrOf result LookupFault.Device → HasGrown (L.failures lookup.old) (L.failures lookup.new) }
    ensures memory { IsErrOf result LookupFault.Memory → L.unfailed lookup.old lookup.new }
    ensures damaged { (part : Part) → IsErrOf result (LookupFault.Damaged part) → L.is_damaged lookup.new }
{
    match conditions {
        Conditions::Met => {
            let parameters = parameters_of(alloc, lookup, policy.param_kind, binding, attempt)?;
            let denial = on_parameters(
                alloc,
                policy,
                plans,
                binding,
                attempt,
                request,
                &parameters,
            );
            drop(parameters);
            Ok(denial?)
        }
        Conditions::Unmet => Ok(None),
        Conditions::Neither(name) => { Ok(failed(alloc, policy, "match condition error: ", name)?) }
    }
}

// The denial of a write that the policy and the binding are for, if they give one.
fn asked<'a, L: Lookup<'a>>(
    alloc: Global,
    lookup: &mut L,
    policy: &Policy,
    plans: &[Verified],
    binding: &Binding,
    attempt: &Attempt<'_>,
    request: &Json,
) -> Result<Option<Denial>, LookupFault>
    requires told { view request.now ≡ request_of (attempt_seen attempt.now) }
    ensures found { (objects : Objects) (trees : List Expr) → L.shows lookup.old objects → AreReady (policy_seen policy.now) trees plans.now
        → IfOk result (λ o. option_map denial_seen o ≡ asked (shown_objects objects) (policy_seen policy.now) trees (binding_seen binding.now) (attempt_seen attempt.now)) }
    ensures kept { (objects : Objects) → L.shows lookup.old objects → L.shows lookup.new objects }
    ensures goes { L.goes_to lookup.old lookup.new }
    ensures counts { L.failures lookup.old ≤ L.failures lookup.new }
    ensures steady { OnOk result (L.unfailed lookup.old lookup.new) }
    ensures device { IsErrOf result LookupFault.Device → HasGrown (L.failures lookup.old) (L.failures lookup.new) }
    ensures memory { IsErrOf result LookupFault.Memory → L.unfailed lookup.old lookup.new }
    ensures damaged { (part : Part) → IsErrOf result (LookupFault.Damaged part) → L.is_damaged lookup.new }
{
    let found = conditions(alloc, policy, plans, attempt, request)?;
    on_conditions(
        alloc, lookup, policy, plans, binding, attempt, request, found,
    )
}

/// The denial of a write by a policy with a binding, if they give one. `plans` are those of the policy's expressions, and `request`
/// is the write's `request` document, if it was made: it is made here for the first policy that is asked for the write.
///
/// # Errors
///
/// Those of the lookup, `Damaged` with [`Part::Plans`] where the policy is asked and its plans are spoiled, and `Memory`.
pub fn denial<'a, L: Lookup<'a>>(
    alloc: Global,
    lookup: &mut L,
    policy: &Policy,
    plans: &StoredPlans,
    binding: &Binding,
    attempt: &Attempt<'_>,
    request: &mut Option<Json>,
) -> Result<Option<Denial>, LookupFault>
    requires told { IfSome request.old (λ d. view d ≡ request_of (attempt_seen attempt.now)) }
    ensures told { OnOk result (IfSome request.new (λ d. view d ≡ request_of (attempt_seen attempt.now))) }
    ensures found { (objects : Objects) (trees : List Expr) (ready : List Judged) → L.shows lookup.old objects → plans_seen plans.now ≡ these ready → AreReady (policy_seen policy.now) trees ready
        → IfOk result (λ o. option_map denial_seen o ≡ denial (shown_objects objects) (policy_seen policy.now) trees (binding_seen binding.now) (attempt_seen attempt.now)) }
    ensures kept { (objects : Objects) → L.shows lookup.old objects → L.shows lookup.new objects }
    ensures goes { L.goes_to lookup.old lookup.new }
    ensures counts { L.failures lookup.old ≤ L.failures lookup.new }
    ensures steady { OnOk result (L.unfailed lookup.old lookup.new) }
    ensures device { IsErrOf result LookupFault.Device → HasGrown (L.failures lookup.old) (L.failures lookup.new) }
    ensures memory { IsErrOf result LookupFault.Memory → L.unfailed lookup.old lookup.new }

    // A policy whose plans are spoiled lets no write pass that it is for.
    ensures never_passed { (bytes : List ℕ) → plans_seen plans.now ≡ spoiled bytes
        → IsTrue (is_matched (policy_seen policy.now).constraints (binding_seen binding.now).resources (attempt_seen attempt.now)) → IsErrOf result (LookupFault.Damaged Part.Plans) }
    ensures damaged { (part : Part) → IsErrOf result (LookupFault.Damaged part) → (ready : List Judged) → plans_seen plans.now ≡ these ready → L.is_damaged lookup.new }

    // Damage that does not lie below is that of the plans.
    ensures damage { (part : Part) → IsErrOf result (LookupFault.Damaged part) → L.is_damaged lookup.new ⊎ (part ≡ Part.Plans) }

    // A write that the policy and the binding are not for is not denied, whatever the plans are.
    ensures unasked { is_matched (policy_seen policy.now).constraints (binding_seen binding.now).resources (attempt_seen attempt.now) ≡ false
        → IfOk result (λ o. o ≡ None) × OnErr result ⊥ }
{
    if !matches(&policy.constraints, &binding.resources, attempt) {
        return Ok(None);
    }
    let plans = match plans {
        StoredPlans::Plans(plans) => plans,
        StoredPlans::Spoiled(_) => return Err(LookupFault::Damaged(Part::Plans)),
    };
    let told = match request.take() {
        Some(told) => told,
        None => request_document(alloc, attempt)?,
    };
    let denial = asked(alloc, lookup, policy, plans, binding, attempt, &told);
    *request = Some(told);
    denial
}
