//! The steps that tell a refusal.

ghost use Rattle.std.specs.Prelude.{◌≡◌, IfOk, OnErr, IsErrOf, string_bytes};
ghost use Rattle.objects.specs.declared.fault.LookupFault.TheVariants as LookupFault;
ghost use Rattle.apicore.specs.Judged.{IsRefused};
ghost use Rattle.apicore.specs.Conditions.{known, with_bad_expression, denied_by};
ghost use Rattle.apicore.specs.Step.{reason_code, reason_word};

use crate::prepared::Prepared;
use objects::LookupFault;
use policy::Reason;
use requests::{Refusal, Reply};
use std::alloc::Global;
use verdict::denial_text;

/// The step that a refusal of the table makes.
pub(crate) fn refused(alloc: Global, refusal: Refusal) -> Result<Prepared, LookupFault>
    ensures step { IfOk result (IsRefused (known refusal)) }
    ensures memory { OnErr result (IsErrOf result LookupFault.Memory) }
{
    Ok(Prepared::replying(Reply::status(alloc, refusal)?))
}

/// The step of a policy with a bad expression.
pub(crate) fn bad_expression(alloc: Global, text: &str) -> Result<Prepared, LookupFault>
    ensures step { IfOk result (IsRefused (with_bad_expression text.now)) }
    ensures memory { OnErr result (IsErrOf result LookupFault.Memory) }
{
    let mut message = String::from_str(alloc, "bad expression: ")?;
    message.push_str(text)?;
    let reply = Reply::saying(alloc, 422, "Invalid", message.as_str())?;
    Ok(Prepared::replying(reply))
}

// The code of a denial (RFC 9110 section 15).
fn reason_code(reason: Reason) -> u16
    ensures { result ≡ reason_code reason }
{
    match reason {
        Reason::Unauthorized => 401,
        Reason::Forbidden => 403,
        Reason::Invalid => 422,
        Reason::RequestEntityTooLarge => 413,
    }
}

// The word of a denial.
fn reason_word(reason: Reason) -> &'static str
    ensures { result.now ≡ reason_word reason }
{
    match reason {
        Reason::Unauthorized => "Unauthorized",
        Reason::Forbidden => "Forbidden",
        Reason::Invalid => "Invalid",
        Reason::RequestEntityTooLarge => "RequestEntityTooLarge",
    }
}

/// The step of a write that a policy denies.
pub(crate) fn denied(
    alloc: Global,
    policy: String,
    binding: String,
    reason: Reason,
    message: String,
) -> Result<Prepared, LookupFault>
    ensures step { IfOk result (IsRefused (denied_by (string_bytes policy) (string_bytes binding) reason (string_bytes message))) }
    ensures memory { OnErr result (IsErrOf result LookupFault.Memory) }
{
    let text = denial_text(alloc, policy.as_str(), binding.as_str(), message.as_str())?;
    let reply = Reply::saying(
        alloc,
        reason_code(reason),
        reason_word(reason),
        text.as_str(),
    )?;
    Ok(Prepared::replying(reply))
}
