//! The verdict that denials come to.

ghost use Rattle.std.specs.Prelude.{◌≡◌, IfOk};
ghost use Rattle.verdict.specs.DenialSeen.{denial_seen, decision_seen};
ghost use Rattle.verdict.specs.Verdict.{decision};

use crate::denials::Denial;
use policy::{Action, Reason};
use std::alloc::{AllocError, Global};

/// Whether a write is admitted.
#[derive(Drop)]
pub enum Verdict {
    /// It is, with these warnings.
    Admitted(Vec<String>),
    /// It is not.
    Denied {
        /// The name of the policy that denies it.
        policy: String,
        /// The name of the binding by which it does.
        binding: String,
        /// The reason, which decides the status code.
        reason: Reason,
        /// What the policy says.
        message: String,
    },
}

/// What a denial by a binding comes to.
#[derive(Drop)]
pub(crate) enum Decision {
    /// The binding denies: this is the verdict.
    Decided(Verdict),
    /// The binding warns: a warning tells of the denial.
    Warned(Denial),
}

/// What a denial by the binding of this name comes to, for a policy and an action of the binding.
///
/// # Errors
///
/// Out of memory.
pub(crate) fn decide(
    alloc: Global,
    policy: &str,
    name: &str,
    action: Action,
    denial: Denial,
) -> Result<Decision, AllocError>
    ensures { IfOk result (λ x. decision_seen x ≡ decision action policy.now name.now (denial_seen denial)) }
{
    match action {
        Action::Deny => {
            let Denial { reason, message } = denial;
            Ok(Decision::Decided(Verdict::Denied {
                policy: String::from_str(alloc, policy)?,
                binding: String::from_str(alloc, name)?,
                reason,
                message,
            }))
        }
        Action::Warn => Ok(Decision::Warned(denial)),
    }
}
