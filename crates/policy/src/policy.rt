//! Policies.

ghost use Rattle.std.specs.Prelude.{◌≡◌, [], None, Some, codes, map, option_map, IfOk, IsErrOf};
ghost use Rattle.serde_json.specs.View.{view};
ghost use Rattle.policy.specs.Forms.{field, perhaps, list_of, passing};
ghost use Rattle.policy.specs.MatchRules.{match_rules_of};
ghost use Rattle.policy.specs.Policies.{policy_of, named_of, has_rules, are_conditions, are_variables};
ghost use Rattle.policy.specs.Rules.{match_rules_seen};
ghost use Rattle.policy.specs.Spec.{named_seen, policy_seen};
ghost use Rattle.policy.specs.declared.form.FormFault.TheVariants as FormFault;

use crate::attempt::is_parameter;
use crate::form::{
    Form, FormFault, choice, has_only, optional, optional_list, optional_or, required,
    required_filled_list, spec_of,
};
use crate::match_rules::MatchRules;
use crate::named::{NamedExpression, are_conditions, are_variables};
use crate::validation::Validation;
use names::{Resource, ResourceTable};
use serde_json::Value as Json;
use std::alloc::{AllocError, Global};

/// What a policy asks of writes (Kubernetes, `ValidatingAdmissionPolicySpec`).
pub struct Policy {
    /// What becomes of a write where the policy cannot be evaluated.
    pub failure_policy: FailurePolicy,
    /// The resource of its parameters, if it has any.
    pub param_kind: Option<Resource>,
    /// The writes that it is for, by at least one rule.
    pub constraints: MatchRules,
    /// What must hold of a write for the policy to be asked, with distinct names.
    pub conditions: Vec<NamedExpression>,
    /// Expressions for variables, with distinct identifiers; later ones may use earlier ones.
    pub variables: Vec<NamedExpression>,
    /// What must hold of a write, at least one.
    pub validations: Vec<Validation>,
}

// Hand-written: derived drop glue is proved again in each crate.
impl Drop for Policy {
    fn drop(self) {
        let Policy {
            failure_policy: _,
            param_kind: _,
            constraints: _,
            conditions: _,
            variables: _,
            validations: _,
        } = self;
    }
}

impl Policy {
    /// The policy that a document spells: `None` where the document has not the form of one. Its expressions are not looked
    /// into.
    ///
    /// # Errors
    ///
    /// Out of memory.
    pub fn of(alloc: Global, document: &Json) -> Result<Option<Policy>, AllocError>
        ensures { IfOk result (λ o. option_map policy_seen o ≡ policy_of (view document.now)) }
    {
        spec_of(alloc, document)
    }
}

/// What becomes of a write where a policy cannot be evaluated.
#[derive(Clone, Copy)]
pub enum FailurePolicy {
    /// It is denied.
    Fail,
    /// The policy lets it pass.
    Ignore,
}

impl Form for FailurePolicy {
    ghost use Rattle.policy.specs.Policies.{failure_policy_of};
    ghost use Rattle.policy.specs.declared.policy.FailurePolicy.{FailurePolicy};

    ghost Spelled = { FailurePolicy };

    ghost form_of = { failure_policy_of };

    ghost seen = { λ failure_policy. failure_policy };

    fn read(_alloc: Global, part: &Json) -> Result<FailurePolicy, FormFault> {
        choice(
            part,
            &[
                ("Fail", FailurePolicy::Fail),
                ("Ignore", FailurePolicy::Ignore),
            ],
        )
    }
}

/// The resource of parameters.
impl Form for Resource {
    ghost use Rattle.names.specs.declared.resource.Resource.{Resource};
    ghost use Rattle.policy.specs.Policies.{param_kind_of};

    ghost Spelled = { Resource };

    ghost form_of = { param_kind_of };

    ghost seen = { λ resource. resource };

    fn read(alloc: Global, part: &Json) -> Result<Resource, FormFault> {
        if !has_only(part, &["apiVersion", "kind"]) {
            return Err(FormFault::BadForm);
        }
        let version: String = required(alloc, part, "apiVersion")?;
        let kind: String = required(alloc, part, "kind")?;
        match ResourceTable::with_kind(version.as_str(), kind.as_str()) {
            Some(resource) if is_parameter(resource) => Ok(resource),
            _ => Err(FormFault::BadForm),
        }
    }
}

impl Form for Policy {
    ghost use Rattle.policy.specs.Policies.{policy_spec_of};
    ghost use Rattle.policy.specs.Spec as spec;
    ghost use Rattle.policy.specs.Spec.{policy_seen};

    ghost Spelled = { spec.Policy };

    ghost form_of = { policy_spec_of };

    ghost seen = { policy_seen };

    fn read(alloc: Global, part: &Json) -> Result<Policy, FormFault> {
        if !has_only(
            part,
            &[
                "failurePolicy",
                "paramKind",
                "matchConstraints",
                "matchConditions",
                "variables",
                "validations",
            ],
        ) {
            return Err(FormFault::BadForm);
        }
        Ok(Policy {
            failure_policy: optional_or(alloc, part, "failurePolicy", FailurePolicy::Fail)?,
            param_kind: optional(alloc, part, "paramKind")?,
            constraints: constraints(alloc, part)?,
            conditions: conditions(alloc, part)?,
            variables: variables(alloc, part)?,
            validations: required_filled_list(alloc, part, "validations")?,
        })
    }
}

// The writes that a policy is for, by at least one rule.
#[tactic(auto, using(crate::proofs::Gathering::mapped_length))]
fn constraints(alloc: Global, spec: &Json) -> Result<MatchRules, FormFault>
    ensures read { IfOk result (λ m. passing has_rules (field (codes "matchConstraints") match_rules_of (view spec.now)) ≡ Some (match_rules_seen m)) }
    ensures refused { IsErrOf result FormFault.BadForm → passing has_rules (field (codes "matchConstraints") match_rules_of (view spec.now)) ≡ None }
{
    let constraints: MatchRules = required(alloc, spec, "matchConstraints")?;
    if constraints.rules.is_empty() {
        Err(FormFault::BadForm)
    } else {
        Ok(constraints)
    }
}

// The conditions, with distinct names.
fn conditions(alloc: Global, spec: &Json) -> Result<Vec<NamedExpression>, FormFault>
    ensures read { IfOk result (λ v. passing are_conditions (perhaps (codes "matchConditions") (list_of named_of) [] (view spec.now)) ≡ Some (map named_seen v.items)) }
    ensures refused { IsErrOf result FormFault.BadForm → passing are_conditions (perhaps (codes "matchConditions") (list_of named_of) [] (view spec.now)) ≡ None }
{
    let conditions: Vec<NamedExpression> = optional_list(alloc, spec, "matchConditions")?;
    if are_conditions(&conditions) {
        Ok(conditions)
    } else {
        Err(FormFault::BadForm)
    }
}

// The variables, with distinct identifiers.
fn variables(alloc: Global, spec: &Json) -> Result<Vec<NamedExpression>, FormFault>
    ensures read { IfOk result (λ v. passing are_variables (perhaps (codes "variables") (list_of named_of) [] (view spec.now)) ≡ Some (map named_seen v.items)) }
    ensures refused { IsErrOf result FormFault.BadForm → passing are_variables (perhaps (codes "variables") (list_of named_of) [] (view spec.now)) ≡ None }
{
    let variables: Vec<NamedExpression> = optional_list(alloc, spec, "variables")?;
    if are_variables(&variables) {
        Ok(variables)
    } else {
        Err(FormFault::BadForm)
    }
}
