//! A denial among the verdicts of all bindings.

ghost use Rattle.std.specs.Prelude.{◌≡◌, map, Some, IfOk, string_bytes};
ghost use Rattle.std.specs.Option.{option_map_or};
ghost use Rattle.verdict.specs.DenialSeen.{denial_seen, verdict_seen};
ghost use Rattle.verdict.specs.Verdict as verdicts;
ghost use Rattle.policy.specs.Spec.{binding_seen};
ghost use Rattle.verdict.specs.Deciding.{after_warnings, decide};

use crate::denials::Denial;
use crate::texts::warning;
use crate::verdict::{Decision, Verdict, decide};
use policy::Binding;
use std::alloc::{AllocError, Global};

/// The verdict, where the binding of this name denies the write. Else the denial stands as a warning after those before it.
pub(crate) fn decided(
    alloc: Global,
    warnings: &mut Vec<String>,
    name: &str,
    binding: &Binding,
    denial: Denial,
) -> Result<Option<Verdict>, AllocError>
    ensures { (rest : verdicts.Verdict) → IfOk result (λ o.
        after_warnings (map string_bytes warnings.old.items) (decide name.now (binding_seen binding.now) (Some (denial_seen denial)) rest)
        ≡ option_map_or verdict_seen o (after_warnings (map string_bytes warnings.new.items) rest)) }
{
    let policy = binding.policy.as_str();
    match decide(alloc, policy, name, binding.action, denial)? {
        Decision::Decided(verdict) => Ok(Some(verdict)),
        Decision::Warned(denial) => {
            let text = warning(alloc, policy, name, denial.message.as_str());
            drop(denial);
            warnings.push(text?)?;
            Ok(None)
        }
    }
}
