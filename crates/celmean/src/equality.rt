//! When values are equal.

ghost use Rattle.std.specs.Prelude.{◌≡◌, pos};
ghost use Rattle.std.specs.Ordering.{int_eq};
ghost use Rattle.celmean.specs.Value.{sequence, mapping};
ghost use Rattle.celmean.specs.Equality.{same, all_same, entries_same};
ghost use Rattle.celmean.specs.Seen.{value_of, values_seen, entries_seen};

use crate::value::Value;

fn same_number(left: i64, right: u64) -> bool
    ensures { result ≡ int_eq left (pos right) }
{
    i128::from(left) == i128::from(right)
}

/// Whether the values are equal.
#[cycle(same)]
pub(crate) fn same(left: &Value, right: &Value) -> bool
    ensures { result ≡ same (value_of left.now) (value_of right.now) }
{
    match left {
        Value::Null => match right {
            Value::Null => true,
            _ => false,
        },
        Value::Bool(first) => match right {
            Value::Bool(second) => *first == *second,
            _ => false,
        },
        Value::Int(first) => match right {
            Value::Int(second) => *first == *second,
            Value::Uint(second) => same_number(*first, *second),
            _ => false,
        },
        Value::Uint(first) => match right {
            Value::Int(second) => same_number(*second, *first),
            Value::Uint(second) => *first == *second,
            _ => false,
        },
        Value::Text(first) => match right {
            Value::Text(second) => first.as_str() == second.as_str(),
            _ => false,
        },
        Value::List(first) => match right {
            Value::List(second) => all_same(first, second),
            _ => false,
        },
        Value::Map(first) => match right {
            Value::Map(second) => entries_same(first, second),
            _ => false,
        },
    }
}

#[cycle(same)]
fn all_same(left: &Vec<Value>, right: &Vec<Value>) -> bool
    ensures { result ≡ all_same (sequence (values_seen left.now.items)) (sequence (values_seen right.now.items)) }
{
    if left.len() != right.len() {
        return false;
    }
    for at in 0..left.len() {
        if !same(&left[at], &right[at]) {
            return false;
        }
    }
    true
}

#[cycle(same)]
fn entries_same(left: &Vec<(Value, Value)>, right: &Vec<(Value, Value)>) -> bool
    ensures { result ≡ entries_same (mapping (entries_seen left.now.items)) (mapping (entries_seen right.now.items)) }
{
    if left.len() != right.len() {
        return false;
    }
    for at in 0..left.len() {
        let (key, value) = &left[at];
        let (other_key, other_value) = &right[at];
        if !same(key, other_key) {
            return false;
        }
        if !same(value, other_value) {
            return false;
        }
    }
    true
}
