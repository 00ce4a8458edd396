//! Validations of policies.

use crate::form::{Form, FormFault, choice, has_only, optional, optional_or, required};
use serde_json::Value as Json;
use std::alloc::Global;

/// The reason of a refusal, which decides its status code.
#[derive(Clone, Copy)]
pub enum Reason {
    Unauthorized,
    Forbidden,
    Invalid,
    RequestEntityTooLarge,
}

impl Form for Reason {
    ghost use Rattle.policy.specs.Policies.{reason_of};
    ghost use Rattle.policy.specs.declared.validation.Reason.{Reason};

    ghost Spelled = { Reason };

    ghost form_of = { reason_of };

    ghost seen = { λ reason. reason };

    fn read(_alloc: Global, part: &Json) -> Result<Reason, FormFault> {
        choice(
            part,
            &[
                ("Unauthorized", Reason::Unauthorized),
                ("Forbidden", Reason::Forbidden),
                ("Invalid", Reason::Invalid),
                ("RequestEntityTooLarge", Reason::RequestEntityTooLarge),
            ],
        )
    }
}

/// What must hold of a write, and what is said where it does not.
#[derive(Drop)]
pub struct Validation {
    /// What must hold: a text of the Common Expression Language.
    pub expression: String,
    /// What is said where it does not hold.
    pub message: Option<String>,
    /// An expression for what is said, which goes before the message.
    pub message_expression: Option<String>,
    /// The reason of the refusal.
    pub reason: Reason,
}

impl Form for Validation {
    ghost use Rattle.policy.specs.Policies.{validation_of};
    ghost use Rattle.policy.specs.Validation as said;
    ghost use Rattle.policy.specs.Validation.{validation_seen};

    ghost Spelled = { said.Validation };

    ghost form_of = { validation_of };

    ghost seen = { validation_seen };

    fn read(alloc: Global, part: &Json) -> Result<Validation, FormFault> {
        if !has_only(
            part,
            &["expression", "message", "messageExpression", "reason"],
        ) {
            return Err(FormFault::BadForm);
        }
        Ok(Validation {
            expression: required(alloc, part, "expression")?,
            message: optional(alloc, part, "message")?,
            message_expression: optional(alloc, part, "messageExpression")?,
            reason: optional_or(alloc, part, "reason", Reason::Invalid)?,
        })
    }
}
