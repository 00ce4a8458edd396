//! The number of variables that each expression of a policy may name.

ghost use Rattle.std.specs.Prelude.{◌≡◌, ◌++◌, ◌≤◌, length, map, nat_le, if◌then◌else◌, Some, None, IfOk, IfSome, option_map};
ghost use Rattle.std.specs.List.{flat_map};
ghost use Rattle.serde_json.specs.View.{view};
ghost use Rattle.expressions.specs.Expressions.{sources};
ghost use Rattle.policy.specs.Spec.{named_seen, policy_seen};
ghost use Rattle.policy.specs.Validation.{validation_seen};
ghost use Rattle.expressions.specs.Places.{variable_places, validation_places, places_of, policy_in};

use jsondoc::Doc;
use policy::{NamedExpression, Policy, Validation};
use serde_json::Value as Json;
use std::alloc::{AllocError, Global};

// Match conditions name no variable.
fn condition_places(alloc: Global, conditions: &[NamedExpression]) -> Result<Vec<u16>, AllocError>
    ensures { IfOk result (λ v. v.items ≡ map (λ _. 0) (map named_seen conditions.now)) }
{
    let mut places = Vec::new(alloc);
    for _condition in conditions {
        places.push(0)?;
    }
    Ok(places)
}

fn with_variables(before: Vec<u16>, variables: &[NamedExpression]) -> Result<Vec<u16>, AllocError>
    requires few { length variables.now ≤ 65535 }
    ensures { IfOk result (λ v. v.items ≡ before.items ++ variable_places 0 (map named_seen variables.now)) }
{
    let mut places = before;
    let mut earlier: u16 = 0;
    for _variable in variables {
        places.push(earlier)?;
        earlier += 1;
    }
    Ok(places)
}

fn with_validation(
    before: Vec<u16>,
    all: u16,
    validation: &Validation,
) -> Result<Vec<u16>, AllocError>
    ensures { IfOk result (λ v. v.items ≡ before.items ++ validation_places all (validation_seen validation.now)) }
{
    let mut places = before;
    places.push(all)?;
    if validation.message_expression.is_some() {
        places.push(all)?;
    }
    Ok(places)
}

fn with_validations(
    before: Vec<u16>,
    all: u16,
    validations: &[Validation],
) -> Result<Vec<u16>, AllocError>
    ensures { IfOk result (λ v. v.items ≡ before.items ++ flat_map (validation_places all) (map validation_seen validations.now)) }
{
    let mut places = before;
    for validation in validations {
        places = with_validation(places, all, validation)?;
    }
    Ok(places)
}

// How many variables each expression of the policy may name, in order.
fn gathered(alloc: Global, policy: &Policy, all: u16) -> Result<Vec<u16>, AllocError>
    requires all { all ≡ length (policy_seen policy.now).variables }
    ensures { IfOk result (λ v. v.items ≡ places_of (policy_seen policy.now)) }
{
    let conditions = condition_places(alloc, &policy.conditions)?;
    let variables = with_variables(conditions, &policy.variables)?;
    with_validations(variables, all, &policy.validations)
}

// The same, but `None` where the policy has more than 65535 expressions.
fn places(alloc: Global, policy: &Policy) -> Result<Option<Vec<u16>>, AllocError>
    ensures { IfOk result (λ o. option_map (λ v. v.items) o
        ≡ (if nat_le (length (sources (policy_seen policy.now))) 65535 then Some (places_of (policy_seen policy.now)) else None)) }
{
    if policy.variables.len() > 65535 {
        return Ok(None);
    }
    let places = gathered(alloc, policy, policy.variables.len() as u16)?;
    if places.len() > 65535 {
        return Ok(None);
    }
    Ok(Some(places))
}

/// The policy that the document spells, and how many variables each of its expressions may name; `None` where it spells none, or one
/// with more than 65535 expressions.
pub(crate) fn policy_in(
    alloc: Global,
    document: &Doc,
) -> Result<Option<(Policy, Vec<u16>)>, AllocError>
    ensures policy { IfOk result (λ o. option_map (λ x. policy_seen x.0) o ≡ policy_in document.now) }
    ensures places { IfOk result (λ o. IfSome o (λ x. x.1.items ≡ places_of (policy_seen x.0))) }
{
    counted_policy(alloc, document.value())
}

/// The same of a document's value.
pub(crate) fn counted_policy(
    alloc: Global,
    document: &Json,
) -> Result<Option<(Policy, Vec<u16>)>, AllocError>
    ensures policy { IfOk result (λ o. option_map (λ x. policy_seen x.0) o ≡ policy_in (view document.now)) }
    ensures places { IfOk result (λ o. IfSome o (λ x. x.1.items ≡ places_of (policy_seen x.0))) }
{
    match Policy::of(alloc, document)? {
        Some(policy) => match places(alloc, &policy)? {
            Some(places) => Ok(Some((policy, places))),
            None => Ok(None),
        },
        None => Ok(None),
    }
}
