//! Arithmetic. A result outside 64 bits is the error.

ghost use Rattle.std.specs.Prelude.{◌≡◌, ◌+◌, ◌*◌, ◌+ℤ◌, ◌-ℤ◌, ◌*ℤ◌, neg_ℤ, string_bytes, IfOk};
ghost use Rattle.std.specs.Option.{SomeIff};
ghost use Rattle.celmean.specs.Arithmetic.{signed, unsigned, signed_quotient, signed_remainder, unsigned_difference, unsigned_quotient, unsigned_remainder, joined_texts, joined_lists, sum, difference, product, quotient, remainder, negation};
ghost use Rattle.celmean.specs.Seen.{value_of, values_seen, outcome_of};

use crate::value::{Outcome, Value, copy_items};
use std::alloc::AllocError;

/// The most bytes of a text that `+` makes.
const LONGEST_TEXT: usize = 65536;
/// The most items of a list that `+` makes.
const LONGEST_LIST: usize = 1024;

fn signed_sum(left: i64, right: i64) -> Outcome
    ensures { outcome_of result ≡ signed (left +ℤ right) }
{
    match left.checked_add(right) {
        Some(number) => Outcome::Gives(Value::Int(number)),
        None => Outcome::Error,
    }
}

fn unsigned_sum(left: u64, right: u64) -> Outcome
    ensures { outcome_of result ≡ unsigned (left + right) }
{
    match left.checked_add(right) {
        Some(number) => Outcome::Gives(Value::Uint(number)),
        None => Outcome::Error,
    }
}

fn signed_difference(left: i64, right: i64) -> Outcome
    ensures { outcome_of result ≡ signed (left -ℤ right) }
{
    match left.checked_sub(right) {
        Some(number) => Outcome::Gives(Value::Int(number)),
        None => Outcome::Error,
    }
}

fn unsigned_difference(left: u64, right: u64) -> Outcome
    ensures { outcome_of result ≡ unsigned_difference left right }
{
    match left.checked_sub(right) {
        Some(number) => Outcome::Gives(Value::Uint(number)),
        None => Outcome::Error,
    }
}

fn signed_product(left: i64, right: i64) -> Outcome
    ensures { outcome_of result ≡ signed (left *ℤ right) }
{
    match left.checked_mul(right) {
        Some(number) => Outcome::Gives(Value::Int(number)),
        None => Outcome::Error,
    }
}

fn unsigned_product(left: u64, right: u64) -> Outcome
    ensures { outcome_of result ≡ unsigned (left * right) }
{
    match left.checked_mul(right) {
        Some(number) => Outcome::Gives(Value::Uint(number)),
        None => Outcome::Error,
    }
}

fn signed_quotient(left: i64, right: i64) -> Outcome
    ensures { outcome_of result ≡ signed_quotient left right }
{
    match left.checked_div(right) {
        Some(number) => Outcome::Gives(Value::Int(number)),
        None => Outcome::Error,
    }
}

fn unsigned_quotient(left: u64, right: u64) -> Outcome
    ensures { outcome_of result ≡ unsigned_quotient left right }
{
    match left.checked_div(right) {
        Some(number) => Outcome::Gives(Value::Uint(number)),
        None => Outcome::Error,
    }
}

fn signed_remainder(left: i64, right: i64) -> Outcome
    ensures { outcome_of result ≡ signed_remainder left right }
{
    match left.checked_rem(right) {
        Some(number) => Outcome::Gives(Value::Int(number)),
        None => Outcome::Error,
    }
}

fn unsigned_remainder(left: u64, right: u64) -> Outcome
    ensures { outcome_of result ≡ unsigned_remainder left right }
{
    match left.checked_rem(right) {
        Some(number) => Outcome::Gives(Value::Uint(number)),
        None => Outcome::Error,
    }
}

fn signed_negation(number: i64) -> Outcome
    ensures { outcome_of result ≡ signed (neg_ℤ number) }
{
    match number.checked_neg() {
        Some(number) => Outcome::Gives(Value::Int(number)),
        None => Outcome::Error,
    }
}

fn joined_texts(left: &String, right: &String) -> Result<Outcome, AllocError>
    ensures { IfOk result (λ o. outcome_of o ≡ joined_texts (string_bytes left.now) (string_bytes right.now)) }
{
    if right.len() > LONGEST_TEXT || left.len() > LONGEST_TEXT - right.len() {
        return Ok(Outcome::Error);
    }
    let mut joined = left.clone()?;
    joined.push_str(right)?;
    Ok(Outcome::Gives(Value::Text(joined)))
}

fn joined_lists(left: &Vec<Value>, right: &Vec<Value>) -> Result<Outcome, AllocError>
    ensures { IfOk result (λ o. outcome_of o ≡ joined_lists (values_seen left.now.items) (values_seen right.now.items)) }
{
    if right.len() > LONGEST_LIST || left.len() > LONGEST_LIST - right.len() {
        return Ok(Outcome::Error);
    }
    let mut joined = copy_items(left)?;
    let mut after = copy_items(right)?;
    joined.append(&mut after)?;
    Ok(Outcome::Gives(Value::list(*left.allocator(), joined)?))
}

/// `+`: of two numbers of one kind, two texts or two lists.
pub(crate) fn sum(left: &Value, right: &Value) -> Result<Outcome, AllocError>
    ensures { IfOk result (λ o. outcome_of o ≡ sum (value_of left.now) (value_of right.now)) }
{
    match (left, right) {
        (Value::Int(first), Value::Int(second)) => Ok(signed_sum(*first, *second)),
        (Value::Uint(first), Value::Uint(second)) => Ok(unsigned_sum(*first, *second)),
        (Value::Text(first), Value::Text(second)) => joined_texts(first, second),
        (Value::List(first), Value::List(second)) => joined_lists(first, second),
        _ => Ok(Outcome::Error),
    }
}

/// `-`
pub(crate) fn difference(left: &Value, right: &Value) -> Outcome
    ensures { outcome_of result ≡ difference (value_of left.now) (value_of right.now) }
{
    match (left, right) {
        (Value::Int(first), Value::Int(second)) => signed_difference(*first, *second),
        (Value::Uint(first), Value::Uint(second)) => unsigned_difference(*first, *second),
        _ => Outcome::Error,
    }
}

/// `*`
pub(crate) fn product(left: &Value, right: &Value) -> Outcome
    ensures { outcome_of result ≡ product (value_of left.now) (value_of right.now) }
{
    match (left, right) {
        (Value::Int(first), Value::Int(second)) => signed_product(*first, *second),
        (Value::Uint(first), Value::Uint(second)) => unsigned_product(*first, *second),
        _ => Outcome::Error,
    }
}

/// `/`: toward zero. By zero, and the least number by -1, is the error.
pub(crate) fn quotient(left: &Value, right: &Value) -> Outcome
    ensures { outcome_of result ≡ quotient (value_of left.now) (value_of right.now) }
{
    match (left, right) {
        (Value::Int(first), Value::Int(second)) => signed_quotient(*first, *second),
        (Value::Uint(first), Value::Uint(second)) => unsigned_quotient(*first, *second),
        _ => Outcome::Error,
    }
}

/// `%`: with the dividend's sign. An error where the quotient is one.
pub(crate) fn remainder(left: &Value, right: &Value) -> Outcome
    ensures { outcome_of result ≡ remainder (value_of left.now) (value_of right.now) }
{
    match (left, right) {
        (Value::Int(first), Value::Int(second)) => signed_remainder(*first, *second),
        (Value::Uint(first), Value::Uint(second)) => unsigned_remainder(*first, *second),
        _ => Outcome::Error,
    }
}

/// `-` before an operand.
pub(crate) fn negation(value: &Value) -> Outcome
    ensures { outcome_of result ≡ negation (value_of value.now) }
{
    match value {
        Value::Int(number) => signed_negation(*number),
        _ => Outcome::Error,
    }
}
