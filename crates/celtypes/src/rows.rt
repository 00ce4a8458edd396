//! The types of operators and functions.

ghost use Rattle.std.specs.Prelude.{◌≡◌, option_map, option_and_then, IfOk};
ghost use Rattle.celtypes.specs.Computed.{given, fits_bool, fits_int, fits_uint, fits_string, fits_number, fits_convertible, fits_key, are_keys, fits_sized, fits_ordered, list_sum, dyn_sum, sum_type, dyn_number, number_type, compares, has_items, item_type, index_type, field_type, presence_type, prefix_type, infix_type};
ghost use Rattle.celtypes.specs.Seen.{type_seen, types_seen};
ghost use Rattle.celtypes.specs.Types.{bool};

use crate::types::{CelType, common, copy, list_of};
use celtree::{Operator, Prefix};
use std::alloc::{AllocError, Global};

/// Whether a row takes the type where it asks for bool.
pub(crate) fn fits_bool(of: &CelType) -> bool
    ensures { result ≡ fits_bool (type_seen of.now) }
{
    matches!(of, CelType::Bool | CelType::Dyn)
}

fn fits_int(of: &CelType) -> bool
    ensures { result ≡ fits_int (type_seen of.now) }
{
    matches!(of, CelType::Int | CelType::Dyn)
}

fn fits_uint(of: &CelType) -> bool
    ensures { result ≡ fits_uint (type_seen of.now) }
{
    matches!(of, CelType::Uint | CelType::Dyn)
}

/// Whether a row takes the type where it asks for string.
pub(crate) fn fits_string(of: &CelType) -> bool
    ensures { result ≡ fits_string (type_seen of.now) }
{
    matches!(of, CelType::Text | CelType::Dyn)
}

fn fits_number(of: &CelType) -> bool
    ensures { result ≡ fits_number (type_seen of.now) }
{
    matches!(of, CelType::Int | CelType::Uint | CelType::Dyn)
}

/// Whether `int`, `uint` and `string` take the type.
pub(crate) fn fits_convertible(of: &CelType) -> bool
    ensures { result ≡ fits_convertible (type_seen of.now) }
{
    matches!(
        of,
        CelType::Int | CelType::Uint | CelType::Text | CelType::Dyn
    )
}

/// Whether `size` takes the type.
pub(crate) fn fits_sized(of: &CelType) -> bool
    ensures { result ≡ fits_sized (type_seen of.now) }
{
    matches!(
        of,
        CelType::Text | CelType::List(_) | CelType::Map(_, _) | CelType::Dyn
    )
}

fn fits_ordered(of: &CelType) -> bool
    ensures { result ≡ fits_ordered (type_seen of.now) }
{
    matches!(
        of,
        CelType::Int | CelType::Uint | CelType::Text | CelType::Bool | CelType::Dyn
    )
}

fn fits_key(of: &CelType) -> bool
    ensures { result ≡ fits_key (type_seen of.now) }
{
    matches!(
        of,
        CelType::Int | CelType::Uint | CelType::Bool | CelType::Text | CelType::Dyn
    )
}

/// Whether a map literal takes the types as those of its keys.
pub(crate) fn are_keys(types: &Vec<CelType>) -> bool
    ensures { result ≡ are_keys (types_seen types.now.items) }
{
    for key in types {
        if !fits_key(key) {
            return false;
        }
    }
    true
}

fn list_sum(alloc: Global, item: &CelType, right: &CelType) -> Result<Option<CelType>, AllocError>
    ensures { IfOk result (λ o. option_map type_seen o ≡ list_sum (type_seen item.now) (type_seen right.now)) }
{
    match right {
        CelType::List(other) => list_of(alloc, common(copy(item)?, other)),
        CelType::Dyn => list_of(alloc, CelType::Dyn),
        CelType::Int | CelType::Uint | CelType::Bool | CelType::Text => Ok(None),
        CelType::Null | CelType::Map(_, _) => Ok(None),
    }
}

fn dyn_sum(alloc: Global, right: &CelType) -> Result<Option<CelType>, AllocError>
    ensures { IfOk result (λ o. option_map type_seen o ≡ dyn_sum (type_seen right.now)) }
{
    match right {
        CelType::Int => Ok(Some(CelType::Int)),
        CelType::Uint => Ok(Some(CelType::Uint)),
        CelType::Text => Ok(Some(CelType::Text)),
        CelType::List(_) => list_of(alloc, CelType::Dyn),
        CelType::Dyn => Ok(Some(CelType::Dyn)),
        CelType::Bool | CelType::Null | CelType::Map(_, _) => Ok(None),
    }
}

// `+`
fn sum_type(alloc: Global, left: &CelType, right: &CelType) -> Result<Option<CelType>, AllocError>
    ensures { IfOk result (λ o. option_map type_seen o ≡ sum_type (type_seen left.now) (type_seen right.now)) }
{
    match left {
        CelType::Int => Ok(fits_int(right).then_some(CelType::Int)),
        CelType::Uint => Ok(fits_uint(right).then_some(CelType::Uint)),
        CelType::Text => Ok(fits_string(right).then_some(CelType::Text)),
        CelType::List(item) => list_sum(alloc, item, right),
        CelType::Dyn => dyn_sum(alloc, right),
        CelType::Bool | CelType::Null | CelType::Map(_, _) => Ok(None),
    }
}

fn dyn_number(right: &CelType) -> Option<CelType>
    ensures { option_map type_seen result ≡ dyn_number (type_seen right.now) }
{
    match right {
        CelType::Int => Some(CelType::Int),
        CelType::Uint => Some(CelType::Uint),
        CelType::Dyn => Some(CelType::Dyn),
        _ => None,
    }
}

// `- * / %`
fn number_type(left: &CelType, right: &CelType) -> Option<CelType>
    ensures { option_map type_seen result ≡ number_type (type_seen left.now) (type_seen right.now) }
{
    match left {
        CelType::Int => fits_int(right).then_some(CelType::Int),
        CelType::Uint => fits_uint(right).then_some(CelType::Uint),
        CelType::Dyn => dyn_number(right),
        _ => None,
    }
}

// `< <= > >=`
fn compares(left: &CelType, right: &CelType) -> bool
    ensures { result ≡ compares (type_seen left.now) (type_seen right.now) }
{
    match left {
        CelType::Int | CelType::Uint => fits_number(right),
        CelType::Text => fits_string(right),
        CelType::Bool => fits_bool(right),
        CelType::Dyn => fits_ordered(right),
        _ => false,
    }
}

fn has_items(of: &CelType) -> bool
    ensures { result ≡ has_items (type_seen of.now) }
{
    matches!(of, CelType::List(_) | CelType::Map(_, _) | CelType::Dyn)
}

/// Bool, if the condition holds.
pub(crate) fn bool_if(condition: bool) -> Option<CelType>
    ensures { option_map type_seen result ≡ given condition bool }
{
    condition.then_some(CelType::Bool)
}

/// The type of the items that a macro goes over, if it goes over what has a type.
pub(crate) fn item_type(of: Option<CelType>) -> Option<CelType>
    ensures { option_map type_seen result ≡ option_and_then item_type (option_map type_seen of) }
{
    match of {
        Some(CelType::List(item)) => Some(Box::into_inner(item)),
        Some(CelType::Map(key, _)) => Some(Box::into_inner(key)),
        Some(CelType::Dyn) => Some(CelType::Dyn),
        _ => None,
    }
}

/// `e[i]`
pub(crate) fn index_type(of: CelType, index: &CelType) -> Option<CelType>
    ensures { option_map type_seen result ≡ index_type (type_seen of) (type_seen index.now) }
{
    match of {
        CelType::List(item) => fits_int(index).then_some(Box::into_inner(item)),
        CelType::Map(_, value) => Some(Box::into_inner(value)),
        CelType::Dyn => Some(CelType::Dyn),
        _ => None,
    }
}

/// `e.f`, if `e` has a type.
pub(crate) fn field_type(of: Option<CelType>) -> Option<CelType>
    ensures { option_map type_seen result ≡ option_and_then field_type (option_map type_seen of) }
{
    match of {
        Some(CelType::Map(key, value)) => fits_string(&key).then_some(Box::into_inner(value)),
        Some(CelType::Dyn) => Some(CelType::Dyn),
        _ => None,
    }
}

/// `has(e.f)`, if `e` has a type.
pub(crate) fn presence_type(of: Option<CelType>) -> Option<CelType>
    ensures { option_map type_seen result ≡ option_and_then presence_type (option_map type_seen of) }
{
    bool_if(field_type(of).is_some())
}

/// `!e` and `-e`, if `e` has a type.
pub(crate) fn prefix_type(prefix: Prefix, of: Option<CelType>) -> Option<CelType>
    ensures { option_map type_seen result ≡ option_and_then (prefix_type prefix) (option_map type_seen of) }
{
    let of = of?;
    match prefix {
        Prefix::Not => bool_if(fits_bool(&of)),
        Prefix::Negate => fits_int(&of).then_some(CelType::Int),
    }
}

/// `a + b` and the like
pub(crate) fn infix_type(
    alloc: Global,
    operator: Operator,
    left: &CelType,
    right: &CelType,
) -> Result<Option<CelType>, AllocError>
    ensures { IfOk result (λ o. option_map type_seen o ≡ infix_type operator (type_seen left.now) (type_seen right.now)) }
{
    match operator {
        Operator::Multiply | Operator::Divide | Operator::Remainder | Operator::Subtract => Ok(
            number_type(left, right),
        ),
        Operator::Add => sum_type(alloc, left, right),
        Operator::Less | Operator::LessEqual | Operator::Greater | Operator::GreaterEqual => Ok(
            bool_if(compares(left, right)),
        ),
        Operator::Equal | Operator::NotEqual => Ok(Some(CelType::Bool)),
        Operator::In => Ok(bool_if(has_items(right))),
        Operator::And | Operator::Or => Ok(bool_if(fits_bool(left) && fits_bool(right))),
    }
}
