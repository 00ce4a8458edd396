//! Calls, macros and literals of lists and maps.

ghost use Rattle.std.specs.Prelude.{◌≡◌, option_map, option_and_then, IfOk};
ghost use Rattle.celtypes.specs.Computed.{given, function_type, call_type, element, is_text_test, size_method_type, text_test_type, method_type, macro_type, mapping_type};
ghost use Rattle.celtypes.specs.Seen.{type_seen, types_seen};
ghost use Rattle.celtypes.specs.Types.{int, uint, string, list};

use crate::rows::{are_keys, bool_if, fits_bool, fits_convertible, fits_sized, fits_string};
use crate::types::{CelType, element, list_of};
use celtree::Macro;
use std::alloc::{AllocError, Global};

// The function of a name with one argument.
fn function_type(name: &str, of: &CelType) -> Option<CelType>
    ensures { option_map type_seen result ≡ function_type name.now (type_seen of.now) }
{
    match name {
        "size" => fits_sized(of).then_some(CelType::Int),
        "int" => fits_convertible(of).then_some(CelType::Int),
        "uint" => fits_convertible(of).then_some(CelType::Uint),
        "string" => fits_convertible(of).then_some(CelType::Text),
        "dyn" => Some(CelType::Dyn),
        _ => None,
    }
}

/// `f(e)`, if the arguments have types: no function takes any other number of them.
pub(crate) fn call_type(name: &str, arguments: Option<Vec<CelType>>) -> Option<CelType>
    ensures { option_map type_seen result ≡ option_and_then (call_type name.now) (option_map (λ v. types_seen v.items) arguments) }
{
    let arguments = arguments?;
    match arguments.as_slice() {
        [argument] => function_type(name, argument),
        _ => None,
    }
}

fn is_text_test(name: &str) -> bool
    ensures { result ≡ is_text_test name.now }
{
    matches!(name, "contains" | "startsWith" | "endsWith")
}

fn size_method_type(name: &str, of: &CelType) -> Option<CelType>
    ensures { option_map type_seen result ≡ size_method_type name.now (type_seen of.now) }
{
    (name == "size" && fits_sized(of)).then_some(CelType::Int)
}

fn text_test_type(name: &str, of: &CelType, argument: &CelType) -> Option<CelType>
    ensures { option_map type_seen result ≡ text_test_type name.now (type_seen of.now) (type_seen argument.now) }
{
    (is_text_test(name) && fits_string(of) && fits_string(argument)).then_some(CelType::Bool)
}

/// `e.f()` and `e.f(t)`: no method takes any other number of arguments.
pub(crate) fn method_type(name: &str, of: &CelType, arguments: &Vec<CelType>) -> Option<CelType>
    ensures { option_map type_seen result ≡ method_type name.now (type_seen of.now) (types_seen arguments.now.items) }
{
    match arguments.as_slice() {
        [] => size_method_type(name, of),
        [argument] => text_test_type(name, of, argument),
        _ => None,
    }
}

/// `e.all(x, body)` and the like, by the types of `x` and of the body.
pub(crate) fn macro_type(
    alloc: Global,
    kind: Macro,
    item: CelType,
    body: CelType,
) -> Result<Option<CelType>, AllocError>
    ensures { IfOk result (λ o. option_map type_seen o ≡ macro_type kind (type_seen item) (type_seen body)) }
{
    match kind {
        Macro::All | Macro::Exists | Macro::ExistsOne => Ok(bool_if(fits_bool(&body))),
        Macro::Map => list_of(alloc, body),
        Macro::Filter => {
            if fits_bool(&body) {
                list_of(alloc, item)
            } else {
                Ok(None)
            }
        }
    }
}

/// `[e]`, if the items have types.
pub(crate) fn sequence_type(
    alloc: Global,
    items: Option<Vec<CelType>>,
) -> Result<Option<CelType>, AllocError>
    ensures { IfOk result (λ o. option_map type_seen o ≡ option_map (λ ts. list (element ts)) (option_map (λ v. types_seen v.items) items)) }
{
    match items {
        Some(items) => Ok(Some(CelType::List(element(alloc, &items)?))),
        None => Ok(None),
    }
}

/// `{k: v}`
pub(crate) fn mapping_type(
    alloc: Global,
    keys: &Vec<CelType>,
    values: &Vec<CelType>,
) -> Result<Option<CelType>, AllocError>
    ensures { IfOk result (λ o. option_map type_seen o ≡ mapping_type (types_seen keys.now.items) (types_seen values.now.items)) }
{
    if are_keys(keys) {
        let key = element(alloc, keys)?;
        let value = element(alloc, values)?;
        Ok(Some(CelType::Map(key, value)))
    } else {
        Ok(None)
    }
}
