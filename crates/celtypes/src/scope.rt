//! Names and their types.

ghost use Rattle.std.specs.Prelude.{◌≡◌, ◌∷◌, option_map, IfOk};
ghost use Rattle.celtypes.specs.Seen.{type_seen, locals_seen, variables_seen, scope_seen};
ghost use Rattle.celtypes.specs.Typing.{bound, is_declared};
ghost use Rattle.celtypes.specs.Computed.{name_type};

use crate::types::{CelType, copy};
use std::alloc::{AllocError, Global};

/// A variable of a policy: its expression stands before the ones that name it by `variables.NAME`.
#[derive(Drop)]
pub struct Variable {
    /// The name after `variables.`
    pub name: String,
    /// The type of its expression.
    pub value_type: CelType,
}

/// What is declared. `object`, `oldObject` and `request` always are, with any value.
#[derive(Clone, Copy)]
pub struct Env<'a> {
    /// Whether `params` is declared, with any value.
    pub has_params: bool,
    /// Whether `namespaceObject` is declared, with any value.
    pub has_namespace: bool,
    /// The earlier variables, in order.
    pub variables: &'a [Variable],
}

/// The variable of a macro.
#[derive(Clone, Copy)]
pub(crate) struct Local<'a> {
    /// The name.
    pub name: &'a str,
    /// The type of the items.
    pub value_type: &'a CelType,
}

/// What is declared, inside macros.
#[derive(Clone, Copy)]
pub(crate) struct Scope<'a> {
    /// The variables of macros, the innermost first.
    pub locals: &'a [Local<'a>],
    /// Whether `params` is declared.
    pub has_params: bool,
    /// Whether `namespaceObject` is declared.
    pub has_namespace: bool,
    /// The earlier variables, in order.
    pub variables: &'a [Variable],
}

fn local_type<'a>(name: &str, locals: &[Local<'a>]) -> Option<&'a CelType>
    ensures { option_map (λ t. type_seen t.now) result ≡ bound name.now (locals_seen locals.now) }
{
    for found in locals {
        if name == found.name {
            return Some(found.value_type);
        }
    }
    None
}

fn is_declared(has_params: bool, has_namespace: bool, name: &str) -> bool
    ensures { result ≡ is_declared has_params has_namespace name.now }
{
    match name {
        "object" | "oldObject" | "request" => true,
        "params" => has_params,
        "namespaceObject" => has_namespace,
        _ => false,
    }
}

/// The type of a name.
pub(crate) fn name_type(name: &str, scope: &Scope<'_>) -> Result<Option<CelType>, AllocError>
    ensures { IfOk result (λ o. option_map type_seen o ≡ name_type name.now (scope_seen scope.now)) }
{
    match local_type(name, scope.locals) {
        Some(found) => Ok(Some(copy(found)?)),
        None => {
            if is_declared(scope.has_params, scope.has_namespace, name) {
                Ok(Some(CelType::Dyn))
            } else {
                Ok(None)
            }
        }
    }
}

/// The type of `variables.NAME`.
pub(crate) fn variable_type(
    name: &str,
    variables: &[Variable],
) -> Result<Option<CelType>, AllocError>
    ensures { IfOk result (λ o. option_map type_seen o ≡ bound name.now (variables_seen variables.now)) }
{
    for variable in variables {
        if name == variable.name.as_str() {
            return Ok(Some(copy(&variable.value_type)?));
        }
    }
    Ok(None)
}

/// The variables of macros after one more.
pub(crate) fn bind<'a>(
    alloc: Global,
    first: Local<'a>,
    locals: &[Local<'a>],
) -> Result<Vec<Local<'a>>, AllocError>
    ensures { IfOk result (λ v. v.items ≡ first.entry ∷ locals.now) }
{
    let mut all = Vec::from_slice(alloc, locals)?;
    all.insert(0, first)?;
    Ok(all)
}
