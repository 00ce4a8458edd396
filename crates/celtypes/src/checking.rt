//! The type of a tree.

ghost use Rattle.std.specs.Prelude.{◌≡◌, ℕ, List, if◌then◌else◌, None, option_map, option_and_then, string_bytes, IfOk, IfErr};
ghost use Rattle.celtree.specs.Tree as expr;
ghost use Rattle.celtree.specs.View.{view, views, pair_views};
ghost use Rattle.celtypes.specs.declared.fault.TypeFault.TheVariants as fault;
ghost use Rattle.celtypes.specs.Computed.{common, index_type, infix_type, method_type, macro_type, type_of, types_of, key_types_of, value_types_of};
ghost use Rattle.celtypes.specs.Seen.{type_seen, types_seen, scope_seen, declared};
ghost use Rattle.celtypes.specs.Typing.{HasType, HasNoType, bind};

use crate::calls::{call_type, sequence_type};
use crate::fault::TypeFault;
use crate::operands::{
    conditional_of, index_of, infix_of, is_test, macro_of, mapping_of, method_of, range_of,
};
use crate::rows::{field_type, prefix_type, presence_type};
use crate::scope::{Env, Local, Scope, bind, name_type, variable_type};
use crate::types::CelType;
use celtree::{Macro, Operator, Tree, is_variables};
use std::alloc::{AllocError, Global};

// The type of the tree, or none. Apart from `typed_variant`, so that a long sum or a long chain of prefix operators or fields takes
// little stack.
#[cycle(typed)]
fn typed(alloc: Global, tree: &Tree, scope: &Scope<'_>) -> Result<Option<CelType>, AllocError>
    ensures { IfOk result (λ o. option_map type_seen o ≡ type_of (view tree.now) (scope_seen scope.now)) }
{
    match tree {
        Tree::Unary(prefix, of) => Ok(prefix_type(*prefix, typed(alloc, of, scope)?)),
        Tree::Field(of, name) => typed_field(alloc, of, name, scope),
        Tree::Infix(operator, left, right) => {
            let left = typed(alloc, left, scope)?;
            typed_infix(alloc, *operator, right, left, scope)
        }
        _ => typed_variant(alloc, tree, scope),
    }
}

#[cycle(typed)]
fn typed_variant(
    alloc: Global,
    tree: &Tree,
    scope: &Scope<'_>,
) -> Result<Option<CelType>, AllocError>
    ensures { IfOk result (λ o. option_map type_seen o ≡ type_of (view tree.now) (scope_seen scope.now)) }
{
    match tree {
        Tree::Null => Ok(Some(CelType::Null)),
        Tree::Bool(_) => Ok(Some(CelType::Bool)),
        Tree::Int(_) => Ok(Some(CelType::Int)),
        Tree::Uint(_) => Ok(Some(CelType::Uint)),
        Tree::Text(_) => Ok(Some(CelType::Text)),
        Tree::Name(name) => name_type(name, scope),
        Tree::Field(of, name) => typed_field(alloc, of, name, scope),
        Tree::Has(of, _) => Ok(presence_type(typed(alloc, of, scope)?)),
        Tree::Index(of, index) => {
            let of = typed(alloc, of, scope)?;
            typed_index(alloc, index, of, scope)
        }
        Tree::List(items) => sequence_type(alloc, typed_items(alloc, items, scope)?),
        Tree::Map(entries) => typed_map(alloc, entries, scope),
        Tree::Unary(prefix, of) => Ok(prefix_type(*prefix, typed(alloc, of, scope)?)),
        Tree::Infix(operator, left, right) => {
            let left = typed(alloc, left, scope)?;
            typed_infix(alloc, *operator, right, left, scope)
        }
        Tree::Conditional(test, first, second) => {
            let is_test = is_test(typed(alloc, test, scope)?);
            let first = typed(alloc, first, scope)?;
            typed_second(alloc, second, is_test, first, scope)
        }
        Tree::Call(name, arguments) => {
            Ok(call_type(name, typed_items(alloc, arguments, scope)?))
        }
        Tree::Method(of, name, arguments) => {
            let of = typed(alloc, of, scope)?;
            typed_method(alloc, arguments, name, of, scope)
        }
        Tree::Macro(kind, of, variable, body) => {
            let of = typed(alloc, of, scope)?;
            let item = range_of(variable, of);
            typed_macro(alloc, *kind, body, variable, item, scope)
        }
    }
}

#[cycle(typed)]
fn typed_field(
    alloc: Global,
    of: &Box<Tree>,
    name: &String,
    scope: &Scope<'_>,
) -> Result<Option<CelType>, AllocError>
    ensures { IfOk result (λ o. option_map type_seen o ≡ type_of (expr.Field (view of.now.value) (string_bytes name.now)) (scope_seen scope.now)) }
{
    if is_variables(of) {
        variable_type(name, scope.variables)
    } else {
        Ok(field_type(typed(alloc, of, scope)?))
    }
}

#[cycle(typed)]
fn typed_map(
    alloc: Global,
    entries: &Vec<(Tree, Tree)>,
    scope: &Scope<'_>,
) -> Result<Option<CelType>, AllocError>
    ensures { IfOk result (λ o. option_map type_seen o ≡ type_of (expr.Mapping (pair_views entries.now.items)) (scope_seen scope.now)) }
{
    let keys = typed_keys(alloc, entries, scope)?;
    let values = typed_values(alloc, entries, scope)?;
    mapping_of(alloc, keys, values)
}

// The same for an operator, by the type of its left side.
#[cycle(typed)]
fn typed_infix(
    alloc: Global,
    operator: Operator,
    right: &Box<Tree>,
    left: Option<CelType>,
    scope: &Scope<'_>,
) -> Result<Option<CelType>, AllocError>
    ensures { IfOk result (λ o. option_map type_seen o ≡ option_and_then (λ t. option_and_then (infix_type operator t) (type_of (view right.now.value) (scope_seen scope.now))) (option_map type_seen left)) }
{
    let right = typed(alloc, right, scope)?;
    infix_of(alloc, operator, left, right)
}

// The same for an index, by the type of what it goes into.
#[cycle(typed)]
fn typed_index(
    alloc: Global,
    index: &Box<Tree>,
    of: Option<CelType>,
    scope: &Scope<'_>,
) -> Result<Option<CelType>, AllocError>
    ensures { IfOk result (λ o. option_map type_seen o ≡ option_and_then (λ t. option_and_then (index_type t) (type_of (view index.now.value) (scope_seen scope.now))) (option_map type_seen of)) }
{
    let index = typed(alloc, index, scope)?;
    Ok(index_of(of, index))
}

// The same for a conditional, by whether its test may be one and by the type of its first branch.
#[cycle(typed)]
fn typed_second(
    alloc: Global,
    second: &Box<Tree>,
    is_test: bool,
    first: Option<CelType>,
    scope: &Scope<'_>,
) -> Result<Option<CelType>, AllocError>
    ensures { IfOk result (λ o. option_map type_seen o ≡ if is_test then option_and_then (λ t. option_map (common t) (type_of (view second.now.value) (scope_seen scope.now))) (option_map type_seen first) else None) }
{
    let second = typed(alloc, second, scope)?;
    Ok(conditional_of(is_test, first, second))
}

// The type of a method's call, by the type of what it is called on.
#[cycle(typed)]
fn typed_method(
    alloc: Global,
    arguments: &Vec<Tree>,
    name: &String,
    of: Option<CelType>,
    scope: &Scope<'_>,
) -> Result<Option<CelType>, AllocError>
    ensures { IfOk result (λ o. option_map type_seen o ≡ option_and_then (λ t. option_and_then (method_type (string_bytes name.now) t) (types_of (views arguments.now.items) (scope_seen scope.now))) (option_map type_seen of)) }
{
    let arguments = typed_items(alloc, arguments, scope)?;
    Ok(method_of(name, of, arguments))
}

// The type of a macro, by the type of its variable.
#[cycle(typed)]
fn typed_macro(
    alloc: Global,
    kind: Macro,
    body: &Box<Tree>,
    variable: &str,
    item: Option<CelType>,
    scope: &Scope<'_>,
) -> Result<Option<CelType>, AllocError>
    ensures { IfOk result (λ o. option_map type_seen o ≡ option_and_then (λ i. option_and_then (macro_type kind i) (type_of (view body.now.value) (bind variable.now i (scope_seen scope.now)))) (option_map type_seen item)) }
{
    let Some(item) = item else {
        return Ok(None);
    };
    let body = typed_body(alloc, body, variable, &item, scope)?;
    macro_of(alloc, kind, item, body)
}

// The type of a macro's body, where its variable is an item.
#[cycle(typed)]
fn typed_body(
    alloc: Global,
    body: &Box<Tree>,
    variable: &str,
    item: &CelType,
    scope: &Scope<'_>,
) -> Result<Option<CelType>, AllocError>
    ensures { IfOk result (λ o. option_map type_seen o ≡ type_of (view body.now.value) (bind variable.now (type_seen item.now) (scope_seen scope.now))) }
{
    let first = Local {
        name: variable,
        value_type: item,
    };
    let locals = bind(alloc, first, scope.locals)?;
    let inner = Scope {
        locals: &locals,
        has_params: scope.has_params,
        has_namespace: scope.has_namespace,
        variables: scope.variables,
    };
    typed(alloc, body, &inner)
}

// The types of the trees, if each has one.
#[cycle(typed)]
fn typed_items(
    alloc: Global,
    items: &Vec<Tree>,
    scope: &Scope<'_>,
) -> Result<Option<Vec<CelType>>, AllocError>
    ensures { IfOk result (λ o. option_map (λ v. types_seen v.items) o ≡ types_of (views items.now.items) (scope_seen scope.now)) }
{
    let mut types = Vec::new(alloc);
    for item in items {
        match typed(alloc, item, scope)? {
            Some(found) => types.push(found)?,
            None => return Ok(None),
        }
    }
    Ok(Some(types))
}

#[cycle(typed)]
fn typed_keys(
    alloc: Global,
    entries: &Vec<(Tree, Tree)>,
    scope: &Scope<'_>,
) -> Result<Option<Vec<CelType>>, AllocError>
    ensures { IfOk result (λ o. option_map (λ v. types_seen v.items) o ≡ key_types_of (pair_views entries.now.items) (scope_seen scope.now)) }
{
    let mut types = Vec::new(alloc);
    for (key, _) in entries {
        match typed(alloc, key, scope)? {
            Some(found) => types.push(found)?,
            None => return Ok(None),
        }
    }
    Ok(Some(types))
}

#[cycle(typed)]
fn typed_values(
    alloc: Global,
    entries: &Vec<(Tree, Tree)>,
    scope: &Scope<'_>,
) -> Result<Option<Vec<CelType>>, AllocError>
    ensures { IfOk result (λ o. option_map (λ v. types_seen v.items) o ≡ value_types_of (pair_views entries.now.items) (scope_seen scope.now)) }
{
    let mut types = Vec::new(alloc);
    for (_, value) in entries {
        match typed(alloc, value, scope)? {
            Some(found) => types.push(found)?,
            None => return Ok(None),
        }
    }
    Ok(Some(types))
}

/// The type of the tree, under the declarations.
///
/// # Errors
///
/// [`TypeFault::NoType`] where the tree has no type, [`TypeFault::Memory`] when out of memory.
pub fn check(alloc: Global, tree: &Tree, env: &Env<'_>) -> Result<CelType, TypeFault>
    ensures found { IfOk result (λ t. HasType (declared env.now) (view tree.now) (type_seen t)) }
    ensures none { IfErr result (λ e. e ≡ fault.NoType → HasNoType (declared env.now) (view tree.now)) }
{
    let scope = Scope {
        locals: &[],
        has_params: env.has_params,
        has_namespace: env.has_namespace,
        variables: env.variables,
    };
    match typed(alloc, tree, &scope)? {
        Some(found) => Ok(found),
        None => Err(TypeFault::NoType),
    }
}
