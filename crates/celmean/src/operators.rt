//! The operators.

ghost use Rattle.std.specs.Prelude.{◌≡◌, not, option_map, IfOk};
ghost use Rattle.celmean.specs.Value.{truth_or_error, with_value, with_values, Gives};
ghost use Rattle.celmean.specs.Operators.{denial, prefixed, on_values, infixed};
ghost use Rattle.celmean.specs.Seen.{value_of, outcome_of};

use crate::arithmetic::{difference, negation, product, quotient, remainder, sum};
use crate::collections::contained;
use crate::equality::same;
use crate::macros::{both, either};
use crate::order::less;
use crate::value::{Outcome, Value};
use celtree::{Operator, Prefix};
use std::alloc::AllocError;

fn denial(value: &Value) -> Outcome
    ensures { outcome_of result ≡ denial (value_of value.now) }
{
    match value {
        Value::Bool(truth) => Outcome::Gives(Value::Bool(!*truth)),
        _ => Outcome::Error,
    }
}

/// `!` or `-` before an operand.
pub fn prefixed(prefix: Prefix, operand: &Outcome) -> Outcome
    ensures { outcome_of result ≡ with_value (prefixed prefix) (outcome_of operand.now) }
{
    match operand {
        Outcome::Gives(value) => match prefix {
            Prefix::Not => denial(value),
            Prefix::Negate => negation(value),
        },
        Outcome::Error => Outcome::Error,
    }
}

fn truth(found: Option<bool>) -> Outcome
    ensures { outcome_of result ≡ truth_or_error found }
{
    match found {
        Some(truth) => Outcome::Gives(Value::Bool(truth)),
        None => Outcome::Error,
    }
}

fn denied(found: Option<bool>) -> Outcome
    ensures { outcome_of result ≡ truth_or_error (option_map not found) }
{
    match found {
        Some(truth) => Outcome::Gives(Value::Bool(!truth)),
        None => Outcome::Error,
    }
}

fn on_values(operator: Operator, left: &Value, right: &Value) -> Result<Outcome, AllocError>
    ensures { IfOk result (λ o. outcome_of o ≡ on_values operator (value_of left.now) (value_of right.now)) }
{
    match operator {
        Operator::Multiply => Ok(product(left, right)),
        Operator::Divide => Ok(quotient(left, right)),
        Operator::Remainder => Ok(remainder(left, right)),
        Operator::Add => sum(left, right),
        Operator::Subtract => Ok(difference(left, right)),
        Operator::Less => Ok(truth(less(left, right))),
        Operator::LessEqual => Ok(denied(less(right, left))),
        Operator::Greater => Ok(truth(less(right, left))),
        Operator::GreaterEqual => Ok(denied(less(left, right))),
        Operator::Equal => Ok(Outcome::Gives(Value::Bool(same(left, right)))),
        Operator::NotEqual => Ok(Outcome::Gives(Value::Bool(!same(left, right)))),
        Operator::In => Ok(contained(left, right)),
        Operator::And | Operator::Or => Ok(Outcome::Error),
    }
}

// An operator whose operands must both be values.
fn on_outcomes(operator: Operator, left: &Outcome, right: &Outcome) -> Result<Outcome, AllocError>
    ensures { IfOk result (λ o. outcome_of o ≡ with_values (on_values operator) (outcome_of left.now) (outcome_of right.now)) }
{
    match left {
        Outcome::Gives(first) => match right {
            Outcome::Gives(second) => on_values(operator, first, second),
            Outcome::Error => Ok(Outcome::Error),
        },
        Outcome::Error => Ok(Outcome::Error),
    }
}

/// An operator between the outcomes of its two sides.
///
/// # Errors
///
/// Out of memory.
pub fn infixed(operator: Operator, left: &Outcome, right: &Outcome) -> Result<Outcome, AllocError>
    ensures { IfOk result (λ o. outcome_of o ≡ infixed operator (outcome_of left.now) (outcome_of right.now)) }
{
    match operator {
        Operator::And => Ok(both(left, right)),
        Operator::Or => Ok(either(left, right)),
        _ => on_outcomes(operator, left, right),
    }
}
