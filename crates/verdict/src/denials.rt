//! Denials by one validation.

ghost use Rattle.std.specs.Prelude.{◌≡◌, Option, IsTrue, option_map, string_bytes, IfOk};
ghost use Rattle.celmean.specs.Macros.{is_false};
ghost use Rattle.celmean.specs.Seen.{outcome_of};
ghost use Rattle.verdict.specs.Told.{failure, said, told};
ghost use Rattle.verdict.specs.DenialSeen.{denial_seen};
ghost use Rattle.policy.specs.Validation.{Text, validation_seen};

use crate::messages::{prefixed, said};
use celmean::{Outcome, is_false, is_true};
use policy::{FailurePolicy, Reason, Validation};
use std::alloc::{AllocError, Global};

/// Why a write is not admitted.
#[derive(Drop)]
pub struct Denial {
    /// The reason, which decides the status code.
    pub reason: Reason,
    /// What is said.
    pub message: String,
}

/// The denial of a write for which the policy cannot be evaluated: none where the policy lets it pass.
pub(crate) fn failure(policy: FailurePolicy, message: String) -> Option<Denial>
    ensures { option_map denial_seen result ≡ failure policy (string_bytes message) }
{
    match policy {
        FailurePolicy::Fail => Some(Denial {
            reason: Reason::Invalid,
            message,
        }),
        FailurePolicy::Ignore => None,
    }
}

/// What a validation with this outcome says. The line is what its message expression gives, and counts where the validation is false.
///
/// # Errors
///
/// Out of memory.
pub(crate) fn told(
    alloc: Global,
    policy: FailurePolicy,
    validation: &Validation,
    outcome: Outcome,
    line: Option<String>,
) -> Result<Option<Denial>, AllocError>
    ensures { (asked : Option Text) → (IsTrue (is_false (outcome_of outcome)) → option_map string_bytes line ≡ asked)
        → IfOk result (λ o. option_map denial_seen o ≡ told policy (validation_seen validation.now) asked (outcome_of outcome)) }
{
    let (holds, fails) = (is_true(&outcome), is_false(&outcome));
    drop(outcome);
    if holds {
        return Ok(None);
    }
    if fails {
        let message = said(alloc, validation, line)?;
        return Ok(Some(Denial {
            reason: validation.reason,
            message,
        }));
    }
    let text = prefixed(alloc, "expression error: ", validation.expression.as_str())?;
    Ok(failure(policy, text))
}
