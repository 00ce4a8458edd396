//! The parameters that a binding asks for.

ghost use Rattle.std.specs.Prelude.{◌≡◌, None, Some, IfOk, IsErrOf};
ghost use Rattle.serde_json.specs.View.{view};
ghost use Rattle.policy.specs.Bindings.{wanted_of};
ghost use Rattle.policy.specs.Spec.{wanted_seen};
ghost use Rattle.policy.specs.declared.form.FormFault.TheVariants as FormFault;

use crate::form::{Form, FormFault, choice, has_only, optional, required};
use crate::selector::Selector;
use documents::Requirement;
use serde_json::Value as Json;
use std::alloc::Global;

/// What becomes of a write where no parameter is found.
#[derive(Clone, Copy)]
pub enum NotFound {
    Allow,
    Deny,
}

/// Which objects of the policy's kind are parameters.
#[derive(Drop)]
pub enum Wanted {
    /// The one with this name.
    ByName(String),
    /// Those whose labels meet all of these.
    BySelector(Vec<Requirement>),
}

/// The parameters that a binding asks for.
#[derive(Drop)]
pub struct ParamRef {
    /// Which objects they are.
    pub wanted: Wanted,
    /// The namespace that they stand in; where there is none, it is the namespace of the write.
    pub namespace: Option<String>,
    /// What becomes of a write where there is no such object.
    pub not_found: NotFound,
}

impl Form for NotFound {
    ghost use Rattle.policy.specs.Bindings.{not_found_of};
    ghost use Rattle.policy.specs.declared.params.NotFound.{NotFound};

    ghost Spelled = { NotFound };

    ghost form_of = { not_found_of };

    ghost seen = { λ action. action };

    fn read(_alloc: Global, part: &Json) -> Result<NotFound, FormFault> {
        choice(
            part,
            &[("Allow", NotFound::Allow), ("Deny", NotFound::Deny)],
        )
    }
}

// Which objects are parameters: by the one of `name` and `selector` that is there.
fn read_wanted(alloc: Global, param_ref: &Json) -> Result<Wanted, FormFault>
    ensures read { IfOk result (λ w. wanted_of (view param_ref.now) ≡ Some (wanted_seen w)) }
    ensures refused { IsErrOf result FormFault.BadForm → wanted_of (view param_ref.now) ≡ None }
{
    match (param_ref.get("name"), param_ref.get("selector")) {
        (Some(name), None) => {
            let name: String = Form::read(alloc, name)?;
            Ok(Wanted::ByName(name))
        }
        (None, Some(selector)) => {
            let selector: Selector = Form::read(alloc, selector)?;
            Ok(Wanted::BySelector(selector.requirements))
        }
        (Some(_), Some(_)) => Err(FormFault::BadForm),
        (None, None) => Err(FormFault::BadForm),
    }
}

impl Form for ParamRef {
    ghost use Rattle.policy.specs.Bindings.{param_ref_of};
    ghost use Rattle.policy.specs.Spec as spec;
    ghost use Rattle.policy.specs.Spec.{param_ref_seen};

    ghost Spelled = { spec.ParamRef };

    ghost form_of = { param_ref_of };

    ghost seen = { param_ref_seen };

    fn read(alloc: Global, part: &Json) -> Result<ParamRef, FormFault> {
        if !has_only(
            part,
            &["name", "selector", "namespace", "parameterNotFoundAction"],
        ) {
            return Err(FormFault::BadForm);
        }
        Ok(ParamRef {
            wanted: read_wanted(alloc, part)?,
            namespace: optional(alloc, part, "namespace")?,
            not_found: required(alloc, part, "parameterNotFoundAction")?,
        })
    }
}
