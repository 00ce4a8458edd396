//! The order of values.

ghost use Rattle.std.specs.Prelude.{◌≡◌, ℕ, pos, int_lt};
ghost use Rattle.celmean.specs.Order.{less, key_rank, key_before, text_before};
ghost use Rattle.celmean.specs.Seen.{value_of};

use crate::value::Value;

fn signed_first(left: i64, right: u64) -> bool
    ensures { result ≡ int_lt left (pos right) }
{
    i128::from(left) < i128::from(right)
}

fn unsigned_first(left: u64, right: i64) -> bool
    ensures { result ≡ int_lt (pos left) right }
{
    i128::from(left) < i128::from(right)
}

fn text_before(left: &str, right: &str) -> bool
    ensures { result ≡ text_before left.now right.now }
{
    left < right
}

/// Whether the left value is less, where the two are ordered.
pub(crate) fn less(left: &Value, right: &Value) -> Option<bool>
    ensures { result ≡ less (value_of left.now) (value_of right.now) }
{
    match left {
        Value::Bool(first) => match right {
            Value::Bool(second) => Some(!*first && *second),
            _ => None,
        },
        Value::Int(first) => match right {
            Value::Int(second) => Some(*first < *second),
            Value::Uint(second) => Some(signed_first(*first, *second)),
            _ => None,
        },
        Value::Uint(first) => match right {
            Value::Int(second) => Some(unsigned_first(*first, *second)),
            Value::Uint(second) => Some(*first < *second),
            _ => None,
        },
        Value::Text(first) => match right {
            Value::Text(second) => Some(text_before(first, second)),
            _ => None,
        },
        _ => None,
    }
}

/// The kind of a map's key, as a number: truth values come first, then numbers, then texts.
pub(crate) fn key_rank(value: &Value) -> Option<u8>
    ensures { result ≡ key_rank (value_of value.now) }
{
    match value {
        Value::Bool(_) => Some(0),
        Value::Int(_) | Value::Uint(_) => Some(1),
        Value::Text(_) => Some(2),
        _ => None,
    }
}

/// Whether the left key stands before the right one.
pub(crate) fn key_before(left: &Value, right: &Value) -> bool
    ensures { result ≡ key_before (value_of left.now) (value_of right.now) }
{
    match less(left, right) {
        Some(is_less) => is_less,
        None => match key_rank(left) {
            Some(first) => match key_rank(right) {
                Some(second) => first < second,
                None => false,
            },
            None => false,
        },
    }
}
