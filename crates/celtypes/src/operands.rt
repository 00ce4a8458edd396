//! The rows, over operands that may have no type. Then neither has the whole.

ghost use Rattle.std.specs.Prelude.{◌≡◌, false, if◌then◌else◌, None, MatchOption, option_map, option_and_then, IfOk};
ghost use Rattle.celtypes.specs.Computed.{fits_bool, common, range_type, index_type, infix_type, mapping_type, method_type, macro_type};
ghost use Rattle.celtypes.specs.Seen.{type_seen, types_seen};

use crate::calls::{macro_type, mapping_type, method_type};
use crate::rows::{fits_bool, index_type, infix_type, item_type};
use crate::types::{CelType, common};
use celtree::{Macro, Operator};
use std::alloc::{AllocError, Global};

/// The type of a macro's variable: `variables` is none.
pub(crate) fn range_of(variable: &str, of: Option<CelType>) -> Option<CelType>
    ensures { option_map type_seen result ≡ range_type variable.now (option_map type_seen of) }
{
    if variable == "variables" {
        None
    } else {
        item_type(of)
    }
}

/// `e[i]`
pub(crate) fn index_of(of: Option<CelType>, index: Option<CelType>) -> Option<CelType>
    ensures { option_map type_seen result ≡ option_and_then (λ t. option_and_then (index_type t) (option_map type_seen index)) (option_map type_seen of) }
{
    index_type(of?, &index?)
}

/// `a + b` and the like.
pub(crate) fn infix_of(
    alloc: Global,
    operator: Operator,
    left: Option<CelType>,
    right: Option<CelType>,
) -> Result<Option<CelType>, AllocError>
    ensures { IfOk result (λ o. option_map type_seen o ≡ option_and_then (λ t. option_and_then (infix_type operator t) (option_map type_seen right)) (option_map type_seen left)) }
{
    match left {
        Some(left) => match right {
            Some(right) => infix_type(alloc, operator, &left, &right),
            None => Ok(None),
        },
        None => Ok(None),
    }
}

/// Whether what has the type may be the test of a conditional.
pub(crate) fn is_test(of: Option<CelType>) -> bool
    ensures { MatchOption of (result ≡ false) (λ t. result ≡ fits_bool (type_seen t)) }
{
    match of {
        Some(of) => fits_bool(&of),
        None => false,
    }
}

/// `c ? a : b`, by whether the test may be one.
pub(crate) fn conditional_of(
    is_test: bool,
    first: Option<CelType>,
    second: Option<CelType>,
) -> Option<CelType>
    ensures { option_map type_seen result ≡ if is_test then option_and_then (λ t. option_map (common t) (option_map type_seen second)) (option_map type_seen first) else None }
{
    if is_test {
        Some(common(first?, &second?))
    } else {
        None
    }
}

/// `{k: v}`
pub(crate) fn mapping_of(
    alloc: Global,
    keys: Option<Vec<CelType>>,
    values: Option<Vec<CelType>>,
) -> Result<Option<CelType>, AllocError>
    ensures { IfOk result (λ o. option_map type_seen o ≡ option_and_then (λ ks. option_and_then (mapping_type ks) (option_map (λ v. types_seen v.items) values)) (option_map (λ v. types_seen v.items) keys)) }
{
    match keys {
        Some(keys) => match values {
            Some(values) => mapping_type(alloc, &keys, &values),
            None => Ok(None),
        },
        None => Ok(None),
    }
}

/// `e.f(a)`
pub(crate) fn method_of(
    name: &str,
    of: Option<CelType>,
    arguments: Option<Vec<CelType>>,
) -> Option<CelType>
    ensures { option_map type_seen result ≡ option_and_then (λ t. option_and_then (method_type name.now t) (option_map (λ v. types_seen v.items) arguments)) (option_map type_seen of) }
{
    method_type(name, &of?, &arguments?)
}

/// `e.all(x, body)` and the like.
pub(crate) fn macro_of(
    alloc: Global,
    kind: Macro,
    item: CelType,
    body: Option<CelType>,
) -> Result<Option<CelType>, AllocError>
    ensures { IfOk result (λ o. option_map type_seen o ≡ option_and_then (macro_type kind (type_seen item)) (option_map type_seen body)) }
{
    match body {
        Some(body) => macro_type(alloc, kind, item, body),
        None => Ok(None),
    }
}
