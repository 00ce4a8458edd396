//! The message of a denial.

ghost use Rattle.std.specs.Prelude.{◌≡◌, ◌++◌, option_map, string_bytes, IfOk};
ghost use Rattle.std.specs.List.{list_all, list_any};
ghost use Rattle.celmean.specs.Seen.{outcome_of};
ghost use Rattle.verdict.specs.Told.{is_blank, breaks_line, line_of, said};
ghost use Rattle.policy.specs.Validation.{validation_seen};

use celmean::{Outcome, Value};
use policy::Validation;
use std::alloc::{AllocError, Global};

fn is_blank(text: &[u8]) -> bool
    ensures { result ≡ list_all is_blank text.now }
{
    text.iter().all(|byte| *byte == b' ' || *byte == b'\t')
}

fn breaks_line(text: &[u8]) -> bool
    ensures { result ≡ list_any breaks_line text.now }
{
    text.iter().any(|byte| *byte == b'\n' || *byte == b'\r')
}

/// The text that an outcome is, if it is one on one line that is not blank.
pub(crate) fn line_of(outcome: Outcome) -> Option<String>
    ensures { option_map string_bytes result ≡ line_of (outcome_of outcome) }
{
    match outcome {
        Outcome::Gives(Value::Text(text)) => {
            if is_blank(text.as_bytes()) || breaks_line(text.as_bytes()) {
                None
            } else {
                Some(text)
            }
        }
        Outcome::Gives(_) | Outcome::Error => None,
    }
}

/// One text after another.
pub(crate) fn prefixed(alloc: Global, prefix: &str, text: &str) -> Result<String, AllocError>
    ensures { IfOk result (λ s. string_bytes s ≡ prefix.now ++ text.now) }
{
    let mut whole = String::from_str(alloc, prefix)?;
    whole.push_str(text)?;
    Ok(whole)
}

/// What is said of a validation that is false: the line, or else its message, or else its expression.
pub(crate) fn said(
    alloc: Global,
    validation: &Validation,
    line: Option<String>,
) -> Result<String, AllocError>
    ensures { IfOk result (λ s. string_bytes s ≡ said (validation_seen validation.now) (option_map string_bytes line)) }
{
    if let Some(line) = line {
        return Ok(line);
    }
    match &validation.message {
        Some(message) => message.clone(),
        None => prefixed(alloc, "failed expression: ", validation.expression.as_str()),
    }
}
