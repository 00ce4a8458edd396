//! The expressions of a policy, in order.

ghost use Rattle.std.specs.Prelude.{◌≡◌, ◌++◌, map, IfOk};
ghost use Rattle.std.specs.List.{flat_map};
ghost use Rattle.expressions.specs.Expressions.{of_condition, of_variable, of_validation, sources};
ghost use Rattle.expressions.specs.Seen.{source_seen};
ghost use Rattle.policy.specs.Spec.{named_seen, policy_seen};
ghost use Rattle.policy.specs.Validation.{validation_seen};

use policy::{NamedExpression, Policy, Validation};
use std::alloc::{AllocError, Global};

/// What an expression is for.
#[derive(Clone, Copy)]
pub(crate) enum Place<'a> {
    Condition,
    /// The variable of this name.
    Variable(&'a str),
    Validation,
    Message,
}

/// An expression as it stands in a policy.
#[derive(Clone, Copy)]
pub(crate) struct Source<'a> {
    pub place: Place<'a>,
    pub text: &'a str,
}

fn with_conditions<'a>(
    before: Vec<Source<'a>>,
    conditions: &'a [NamedExpression],
) -> Result<Vec<Source<'a>>, AllocError>
    ensures { IfOk result (λ v. map source_seen v.items ≡ map source_seen before.entry.items ++ map of_condition (map named_seen conditions.now)) }
{
    let mut all = before;
    for condition in conditions {
        all.push(Source {
            place: Place::Condition,
            text: condition.expression.as_str(),
        })?;
    }
    Ok(all)
}

fn with_variables<'a>(
    before: Vec<Source<'a>>,
    variables: &'a [NamedExpression],
) -> Result<Vec<Source<'a>>, AllocError>
    ensures { IfOk result (λ v. map source_seen v.items ≡ map source_seen before.entry.items ++ map of_variable (map named_seen variables.now)) }
{
    let mut all = before;
    for variable in variables {
        all.push(Source {
            place: Place::Variable(variable.name.as_str()),
            text: variable.expression.as_str(),
        })?;
    }
    Ok(all)
}

fn with_validation<'a>(
    before: Vec<Source<'a>>,
    validation: &'a Validation,
) -> Result<Vec<Source<'a>>, AllocError>
    ensures { IfOk result (λ v. map source_seen v.items ≡ map source_seen before.entry.items ++ of_validation (validation_seen validation.now)) }
{
    let mut all = before;
    all.push(Source {
        place: Place::Validation,
        text: validation.expression.as_str(),
    })?;
    match &validation.message_expression {
        Some(text) => {
            all.push(Source {
                place: Place::Message,
                text: text.as_str(),
            })?;
            Ok(all)
        }
        None => Ok(all),
    }
}

fn with_validations<'a>(
    before: Vec<Source<'a>>,
    validations: &'a [Validation],
) -> Result<Vec<Source<'a>>, AllocError>
    ensures { IfOk result (λ v. map source_seen v.items ≡ map source_seen before.entry.items ++ flat_map of_validation (map validation_seen validations.now)) }
{
    let mut all = before;
    for validation in validations {
        all = with_validation(all, validation)?;
    }
    Ok(all)
}

/// The expressions of the policy: its match conditions, its variables and its validations, each with its message expression.
pub(crate) fn sources<'a>(alloc: Global, policy: &'a Policy) -> Result<Vec<Source<'a>>, AllocError>
    ensures { IfOk result (λ v. map source_seen v.items ≡ sources (policy_seen policy.now)) }
{
    let conditions = with_conditions(Vec::new(alloc), &policy.conditions)?;
    let variables = with_variables(conditions, &policy.variables)?;
    with_validations(variables, &policy.validations)
}
