//! Variables and validations.

ghost use Rattle.std.specs.Prelude.{◌≡◌, List, map, option_map, string_bytes, IfOk};
ghost use Rattle.serde_json.specs.View.{view};
ghost use Rattle.celtree.specs.Tree.{Expr};
ghost use Rattle.policy.specs.Rules.{attempt_seen};
ghost use Rattle.policy.specs.Spec.{policy_seen};
ghost use Rattle.policy.specs.Validation.{validation_seen};
ghost use Rattle.verdict.specs.Request.{request_of};
ghost use Rattle.verdict.specs.Environment.{seen};
ghost use Rattle.verdict.specs.Denials.{evaluate};
ghost use Rattle.verdict.specs.Ready.{AreReady};
ghost use Rattle.verdict.specs.Told.{told};
ghost use Rattle.verdict.specs.DenialSeen.{denial_seen};
ghost use Rattle.verdict.specs.Seen.{names_of, world_of};
ghost use Rattle.verdict.specs.ByPlans.{given_by, message_plan, after_plan, line_by, tests_by, evaluate_by};

use crate::denials::{Denial, told};
use crate::messages::line_of;
use crate::outcomes::{given_by, outcomes_by, split};
use crate::scene::{Scene, or_null};
use celmean::{Outcome, is_false};
use plancode::Verified;
use policy::{Attempt, FailurePolicy, Policy, Validation};
use serde_json::Value as Json;
use std::alloc::{AllocError, Global};

// The plan of the message expression, which the validation may lack, and the plans after it.
fn message_plan<'a>(
    validation: &Validation,
    plans: &'a [Verified],
) -> (Option<&'a Verified>, &'a [Verified])
    ensures plan { option_map (λ p. p.now) result.0 ≡ message_plan (option_map string_bytes validation.now.message_expression) plans.now }
    ensures after { result.1.now ≡ after_plan (option_map string_bytes validation.now.message_expression) plans.now }
{
    if validation.message_expression.is_none() {
        return (None, plans);
    }
    match plans.split_first() {
        Some((plan, after)) => (Some(plan), after),
        None => (None, plans),
    }
}

// The line that the message expression gives, if there is one.
fn line_by(
    alloc: Global,
    plan: Option<&Verified>,
    scene: &Scene<'_, '_, '_, '_, '_>,
    variables: &[Outcome],
) -> Result<Option<String>, AllocError>
    ensures { IfOk result (λ o. option_map string_bytes o ≡ line_by (option_map (λ p. p.now) plan.entry) (world_of scene.now variables.now)) }
{
    match plan {
        Some(plan) => {
            let outcome = given_by(alloc, plan, scene, variables)?;
            Ok(line_of(outcome))
        }
        None => Ok(None),
    }
}

// What one validation says, by its plan and that of its message expression.
fn denial_by(
    alloc: Global,
    policy: FailurePolicy,
    validation: &Validation,
    plan: &Verified,
    message: Option<&Verified>,
    scene: &Scene<'_, '_, '_, '_, '_>,
    variables: &[Outcome],
) -> Result<Option<Denial>, AllocError>
    ensures { IfOk result (λ o. option_map denial_seen o ≡ told policy (validation_seen validation.now) (line_by (option_map (λ p. p.now) message.entry) (world_of scene.now variables.now)) (given_by plan.now (world_of scene.now variables.now))) }
{
    let outcome = given_by(alloc, plan, scene, variables)?;
    let line = if is_false(&outcome) {
        line_by(alloc, message, scene, variables)?
    } else {
        None
    };
    told(alloc, policy, validation, outcome, line)
}

// The first denial.
fn tests_by(
    alloc: Global,
    policy: FailurePolicy,
    validations: &[Validation],
    plans: &[Verified],
    scene: &Scene<'_, '_, '_, '_, '_>,
    variables: &[Outcome],
) -> Result<Option<Denial>, AllocError>
    ensures { IfOk result (λ o. option_map denial_seen o ≡ tests_by policy (map validation_seen validations.now) plans.now (world_of scene.now variables.now)) }
{
    let mut rest = validations;
    let mut left = plans;
    'all: while let (Some((validation, others)), Some((plan, after))) = (
        rest.split_first(),
        left.split_first(),
    ) {
        let (message, after) = message_plan(validation, after);
        match denial_by(alloc, policy, validation, plan, message, scene, variables)? {
            Some(denial) => return Ok(Some(denial)),
            None => {
                rest = others;
                left = after;
            }
        }
    }
    Ok(None)
}

// What variables and validations say, by their plans.
#[tactic(auto, using(crate::proofs::Lists::mapped_length))]
fn evaluate_by(
    alloc: Global,
    policy: &Policy,
    plans: &[Verified],
    scene: &Scene<'_, '_, '_, '_, '_>,
) -> Result<Option<Denial>, AllocError>
    ensures { IfOk result (λ o. option_map denial_seen o ≡ evaluate_by (policy_seen policy.now) plans.now (names_of scene.now)) }
{
    let (first, others) = split(plans, policy.variables.len());
    let outcomes = outcomes_by(alloc, first, scene)?;
    tests_by(
        alloc,
        policy.failure_policy,
        &policy.validations,
        others,
        scene,
        &outcomes,
    )
}

/// What the variables and the validations of a policy say of a write whose match conditions are met, by the policy's plans: the first
/// denial, if there is one. `request` is the write's [`request_document`](crate::request_document).
///
/// A variable is bound to its outcome, so an error in it arises where it is used. A validation that is false is a denial with its
/// reason. What is neither true nor false is a failure to evaluate ([`crate::denials::failure`]).
///
/// # Errors
///
/// Out of memory.
pub fn evaluate(
    alloc: Global,
    policy: &Policy,
    plans: &[Verified],
    attempt: &Attempt<'_>,
    request: &Json,
    param: Option<&Json>,
) -> Result<Option<Denial>, AllocError>
    requires told { view request.now ≡ request_of (attempt_seen attempt.now) }
    ensures { (trees : List Expr) → AreReady (policy_seen policy.now) trees plans.now → IfOk result (λ o. option_map denial_seen o ≡ evaluate (policy_seen policy.now) trees (seen (attempt_seen attempt.now) (option_map (λ d. view d.now) param.entry))) }
{
    let absent = Json::Null;
    let scene = Scene {
        object: or_null(attempt.object, &absent),
        old_object: or_null(attempt.old_object, &absent),
        request,
        params: or_null(param, &absent),
        namespace: or_null(attempt.namespace, &absent),
    };
    let (_, others) = split(plans, policy.conditions.len());
    evaluate_by(alloc, policy, others, &scene)
}
