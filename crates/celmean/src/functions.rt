//! The functions.

ghost use Rattle.std.specs.Prelude.{◌≡◌, ◌∷◌, [], pos, IfOk};
ghost use Rattle.celmean.specs.Value.{Int, Gives, with_value};
ghost use Rattle.celmean.specs.Arithmetic.{signed};
ghost use Rattle.celmean.specs.Functions.{size, to_int, to_uint, to_string, function, called, text_test, test_values, size_method, method_called};
ghost use Rattle.celmean.specs.Seen.{value_of, outcome_of, outcomes_seen};

use crate::texts::{
    contains, ends_with, signed_of_text, signed_text, starts_with, text_size, unsigned_of_text,
    unsigned_text,
};
use crate::value::{Outcome, Value};
use std::alloc::{AllocError, Global};

fn count(length: usize) -> Outcome
    ensures { outcome_of result ≡ signed (pos length) }
{
    match i64::try_from(length) {
        Ok(length) => Outcome::Gives(Value::Int(length)),
        Err(_) => Outcome::Error,
    }
}

// A text's code points, a list's items, a map's entries.
fn size(value: &Value) -> Outcome
    ensures { outcome_of result ≡ size (value_of value.now) }
{
    match value {
        Value::Text(text) => text_size(text),
        Value::List(items) => count(items.len()),
        Value::Map(entries) => count(entries.len()),
        _ => Outcome::Error,
    }
}

fn signed_of_unsigned(number: u64) -> Outcome
    ensures { outcome_of result ≡ signed (pos number) }
{
    match i64::try_from(number) {
        Ok(number) => Outcome::Gives(Value::Int(number)),
        Err(_) => Outcome::Error,
    }
}

fn unsigned_of_signed(number: i64) -> Outcome
    ensures { outcome_of result ≡ to_uint (Int number) }
{
    match u64::try_from(number) {
        Ok(number) => Outcome::Gives(Value::Uint(number)),
        Err(_) => Outcome::Error,
    }
}

fn to_int(value: &Value) -> Outcome
    ensures { outcome_of result ≡ to_int (value_of value.now) }
{
    match value {
        Value::Int(number) => Outcome::Gives(Value::Int(*number)),
        Value::Uint(number) => signed_of_unsigned(*number),
        Value::Text(text) => signed_of_text(text),
        _ => Outcome::Error,
    }
}

fn to_uint(value: &Value) -> Outcome
    ensures { outcome_of result ≡ to_uint (value_of value.now) }
{
    match value {
        Value::Uint(number) => Outcome::Gives(Value::Uint(*number)),
        Value::Int(number) => unsigned_of_signed(*number),
        Value::Text(text) => unsigned_of_text(text),
        _ => Outcome::Error,
    }
}

fn to_string(alloc: Global, value: &Value) -> Result<Outcome, AllocError>
    ensures { IfOk result (λ o. outcome_of o ≡ to_string (value_of value.now)) }
{
    match value {
        Value::Text(text) => Ok(Outcome::Gives(Value::Text(text.clone()?))),
        Value::Int(number) => Ok(Outcome::Gives(Value::Text(signed_text(alloc, *number)?))),
        Value::Uint(number) => Ok(Outcome::Gives(Value::Text(unsigned_text(alloc, *number)?))),
        _ => Ok(Outcome::Error),
    }
}

// The function of a name with one argument.
fn function(alloc: Global, name: &str, argument: &Value) -> Result<Outcome, AllocError>
    ensures { IfOk result (λ o. outcome_of o ≡ function name.now (value_of argument.now)) }
{
    match name {
        "size" => Ok(size(argument)),
        "int" => Ok(to_int(argument)),
        "uint" => Ok(to_uint(argument)),
        "string" => to_string(alloc, argument),
        "dyn" => Ok(Outcome::Gives(argument.clone()?)),
        _ => Ok(Outcome::Error),
    }
}

fn on_argument(alloc: Global, name: &str, argument: &Outcome) -> Result<Outcome, AllocError>
    ensures { IfOk result (λ o. outcome_of o ≡ with_value (function name.now) (outcome_of argument.now)) }
{
    match argument {
        Outcome::Gives(value) => function(alloc, name, value),
        Outcome::Error => Ok(Outcome::Error),
    }
}

/// `f(e)`. Any other number of arguments is the error.
///
/// # Errors
///
/// Out of memory.
pub fn called(alloc: Global, name: &str, arguments: &Vec<Outcome>) -> Result<Outcome, AllocError>
    ensures { IfOk result (λ o. outcome_of o ≡ called name.now (outcomes_seen arguments.now.items)) }
{
    match arguments.as_slice() {
        [argument] => on_argument(alloc, name, argument),
        _ => Ok(Outcome::Error),
    }
}

fn text_test(name: &str, left: &str, right: &str) -> Outcome
    ensures { outcome_of result ≡ text_test name.now left.now right.now }
{
    match name {
        "contains" => Outcome::Gives(Value::Bool(contains(left, right))),
        "startsWith" => Outcome::Gives(Value::Bool(starts_with(left, right))),
        "endsWith" => Outcome::Gives(Value::Bool(ends_with(left, right))),
        _ => Outcome::Error,
    }
}

fn test_values(name: &str, left: &Value, right: &Value) -> Outcome
    ensures { outcome_of result ≡ test_values name.now (value_of left.now) (value_of right.now) }
{
    match (left, right) {
        (Value::Text(first), Value::Text(second)) => text_test(name, first, second),
        _ => Outcome::Error,
    }
}

fn size_method(name: &str, of: &Value) -> Outcome
    ensures { outcome_of result ≡ size_method name.now (value_of of.now) }
{
    match name {
        "size" => size(of),
        _ => Outcome::Error,
    }
}

// `v.f(t)`
fn method_on_argument(name: &str, of: &Value, argument: &Outcome) -> Outcome
    ensures { outcome_of result ≡ method_called name.now (Gives (value_of of.now)) (outcome_of argument.now ∷ []) }
{
    match argument {
        Outcome::Gives(value) => test_values(name, of, value),
        Outcome::Error => Outcome::Error,
    }
}

/// `e.f()` or `e.f(t)`. Any other number of arguments is the error.
pub fn method_called(name: &str, of: &Outcome, arguments: &Vec<Outcome>) -> Outcome
    ensures { outcome_of result ≡ method_called name.now (outcome_of of.now) (outcomes_seen arguments.now.items) }
{
    match of {
        Outcome::Gives(value) => match arguments.as_slice() {
            [] => size_method(name, value),
            [argument] => method_on_argument(name, value, argument),
            _ => Outcome::Error,
        },
        Outcome::Error => Outcome::Error,
    }
}
