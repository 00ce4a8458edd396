//! Match conditions and variables: expressions with a name.

ghost use Rattle.std.specs.Prelude.{◌≡◌, map};
ghost use Rattle.std.specs.List.{list_all};
ghost use Rattle.celtokens.specs.Word.{is_identifier};
ghost use Rattle.documents.specs.Selecting.{is_among};
ghost use Rattle.policy.specs.Forms.{are_distinct};
ghost use Rattle.policy.specs.Policies.{names_of, are_conditions, are_variables, is_filled};
ghost use Rattle.policy.specs.Spec.{named_seen};

use crate::form::{Form, FormFault, has_only, required};
use celtokens::is_identifier;
use serde_json::Value as Json;
use std::alloc::Global;

/// A match condition or a variable.
#[derive(Drop)]
pub struct NamedExpression {
    pub name: String,
    /// A text of the Common Expression Language.
    pub expression: String,
}

impl Form for NamedExpression {
    ghost use Rattle.policy.specs.Policies.{named_of};
    ghost use Rattle.policy.specs.Spec as spec;
    ghost use Rattle.policy.specs.Spec.{named_seen};

    ghost Spelled = { spec.NamedExpression };

    ghost form_of = { named_of };

    ghost seen = { named_seen };

    fn read(alloc: Global, part: &Json) -> Result<NamedExpression, FormFault> {
        if !has_only(part, &["name", "expression"]) {
            return Err(FormFault::BadForm);
        }
        Ok(NamedExpression {
            name: required(alloc, part, "name")?,
            expression: required(alloc, part, "expression")?,
        })
    }
}

/// Whether the names are distinct and not empty.
pub fn are_conditions(conditions: &[NamedExpression]) -> bool
    ensures { result ≡ are_conditions (map named_seen conditions.now) }
{
    have_text(conditions) && are_distinct(conditions)
}

/// Whether the names are distinct identifiers.
pub fn are_variables(variables: &[NamedExpression]) -> bool
    ensures { result ≡ are_variables (map named_seen variables.now) }
{
    are_identifiers(variables) && are_distinct(variables)
}

fn have_text(conditions: &[NamedExpression]) -> bool
    ensures { result ≡ list_all is_filled (names_of (map named_seen conditions.now)) }
{
    for condition in conditions {
        if condition.name.is_empty() {
            return false;
        }
    }
    true
}

fn are_identifiers(variables: &[NamedExpression]) -> bool
    ensures { result ≡ list_all is_identifier (names_of (map named_seen variables.now)) }
{
    for variable in variables {
        if !is_identifier(variable.name.as_str()) {
            return false;
        }
    }
    true
}

fn are_distinct(named: &[NamedExpression]) -> bool
    ensures { result ≡ are_distinct (names_of (map named_seen named.now)) }
{
    let mut rest = named;
    while let Some((first, others)) = rest.split_first() {
        if has_name(others, first.name.as_str()) {
            return false;
        }
        rest = others;
    }
    true
}

fn has_name(named: &[NamedExpression], name: &str) -> bool
    ensures { result ≡ is_among (names_of (map named_seen named.now)) name.now }
{
    for other in named {
        if name == other.name.as_str() {
            return true;
        }
    }
    false
}
