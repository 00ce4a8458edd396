//! Bindings.

ghost use Rattle.std.specs.Prelude.{◌≡◌, None, Some, codes, option_map, IfOk, IsErrOf, string_bytes};
ghost use Rattle.serde_json.specs.Find.{as_str};
ghost use Rattle.serde_json.specs.View.{view};
ghost use Rattle.names.specs.Name.{is_name};
ghost use Rattle.policy.specs.Bindings.{action_of, binding_of};
ghost use Rattle.policy.specs.Forms.{given, field, list_of, only, passing};
ghost use Rattle.policy.specs.Spec.{binding_seen};
ghost use Rattle.policy.specs.declared.form.FormFault.TheVariants as FormFault;

use crate::form::{
    Form, FormFault, choice, has_only, optional, optional_or, required, required_list, spec_of,
};
use crate::match_rules::MatchRules;
use crate::params::ParamRef;
use names::check_name;
use serde_json::Value as Json;
use std::alloc::{AllocError, Global};

/// A binding of a policy: where the policy is in force, and with which parameters (Kubernetes,
/// `ValidatingAdmissionPolicyBindingSpec`).
pub struct Binding {
    /// The name of the policy.
    pub policy: String,
    /// What becomes of a write that the policy denies.
    pub action: Action,
    /// The writes that it is for, beside the policy's own constraints; no rules are for all writes.
    pub resources: MatchRules,
    /// The parameters that it asks for.
    pub param_ref: Option<ParamRef>,
}

// Hand-written: derived drop glue is proved again in each crate.
impl Drop for Binding {
    fn drop(self) {
        let Binding {
            policy: _,
            action: _,
            resources: _,
            param_ref: _,
        } = self;
    }
}

impl Binding {
    /// The binding that a document spells: `None` where the document has not the form of one.
    ///
    /// # Errors
    ///
    /// Out of memory.
    pub fn of(alloc: Global, document: &Json) -> Result<Option<Binding>, AllocError>
        ensures { IfOk result (λ o. option_map binding_seen o ≡ binding_of (view document.now)) }
    {
        spec_of(alloc, document)
    }
}

/// What becomes of a write that a policy denies.
#[derive(Clone, Copy)]
pub enum Action {
    /// It is refused.
    Deny,
    /// Its reply has a warning.
    Warn,
}

impl Form for Action {
    ghost use Rattle.policy.specs.Bindings.{action_of};
    ghost use Rattle.policy.specs.declared.binding.Action.{Action};

    ghost Spelled = { Action };

    ghost form_of = { action_of };

    ghost seen = { λ action. action };

    fn read(_alloc: Global, part: &Json) -> Result<Action, FormFault> {
        choice(part, &[("Deny", Action::Deny), ("Warn", Action::Warn)])
    }
}

impl Form for Binding {
    ghost use Rattle.policy.specs.Bindings.{binding_spec_of};
    ghost use Rattle.policy.specs.Spec as spec;
    ghost use Rattle.policy.specs.Spec.{binding_seen};

    ghost Spelled = { spec.Binding };

    ghost form_of = { binding_spec_of };

    ghost seen = { binding_seen };

    fn read(alloc: Global, part: &Json) -> Result<Binding, FormFault> {
        if !has_only(
            part,
            &[
                "policyName",
                "validationActions",
                "matchResources",
                "paramRef",
            ],
        ) {
            return Err(FormFault::BadForm);
        }
        Ok(Binding {
            policy: policy_name(alloc, part)?,
            action: only_action(alloc, part)?,
            resources: optional_or(alloc, part, "matchResources", MatchRules::everything(alloc))?,
            param_ref: optional(alloc, part, "paramRef")?,
        })
    }
}

// The name of the policy.
fn policy_name(alloc: Global, spec: &Json) -> Result<String, FormFault>
    ensures read { IfOk result (λ s. passing is_name (field (codes "policyName") as_str (view spec.now)) ≡ Some (string_bytes s)) }
    ensures refused { IsErrOf result FormFault.BadForm → passing is_name (field (codes "policyName") as_str (view spec.now)) ≡ None }
{
    let name: String = required(alloc, spec, "policyName")?;
    if check_name(name.as_str()) {
        Ok(name)
    } else {
        Err(FormFault::BadForm)
    }
}

// The only action.
fn only_action(alloc: Global, spec: &Json) -> Result<Action, FormFault>
    ensures read { IfOk result (λ action. given (field (codes "validationActions") (list_of action_of) (view spec.now)) only ≡ Some action) }
    ensures refused { IsErrOf result FormFault.BadForm → given (field (codes "validationActions") (list_of action_of) (view spec.now)) only ≡ None }
{
    let actions: Vec<Action> = required_list(alloc, spec, "validationActions")?;
    match &actions[..] {
        [action] => Ok(*action),
        _ => Err(FormFault::BadForm),
    }
}
