//! Selectors of objects by their labels.

ghost use Rattle.std.specs.Prelude.{◌≡◌, None, Some, map, option_map, IfOk, IsErrOf, string_bytes};
ghost use Rattle.serde_json.specs.View.{view, members_view};
ghost use Rattle.documents.specs.Requirement.{requirement_seen};
ghost use Rattle.policy.specs.MatchRules.{label_of, labels_of, requirement};
ghost use Rattle.policy.specs.declared.form.FormFault.TheVariants as FormFault;

use crate::form::{Form, FormFault, choice, has_only, optional_list, optional_or, required};
use documents::Requirement;
use serde_json::{Map, Value as Json};
use std::alloc::Global;

/// What a part of a selector asks of the value of a label (Kubernetes, `LabelSelectorOperator`).
#[derive(Clone, Copy)]
pub enum Operator {
    In,
    NotIn,
    Exists,
    DoesNotExist,
}

impl Form for Operator {
    ghost use Rattle.policy.specs.MatchRules.{operator_of};
    ghost use Rattle.policy.specs.declared.selector.Operator.{Operator};

    ghost Spelled = { Operator };

    ghost form_of = { operator_of };

    ghost seen = { λ operator. operator };

    fn read(_alloc: Global, part: &Json) -> Result<Operator, FormFault> {
        choice(
            part,
            &[
                ("In", Operator::In),
                ("NotIn", Operator::NotIn),
                ("Exists", Operator::Exists),
                ("DoesNotExist", Operator::DoesNotExist),
            ],
        )
    }
}

impl Form for Requirement {
    ghost use Rattle.documents.specs.Requirement as labels;
    ghost use Rattle.documents.specs.Requirement.{requirement_seen};
    ghost use Rattle.policy.specs.MatchRules.{requirement_of};

    ghost Spelled = { labels.Requirement };

    ghost form_of = { requirement_of };

    ghost seen = { requirement_seen };

    fn read(alloc: Global, part: &Json) -> Result<Requirement, FormFault> {
        if !has_only(part, &["key", "operator", "values"]) {
            return Err(FormFault::BadForm);
        }
        let key: String = required(alloc, part, "key")?;
        let operator: Operator = required(alloc, part, "operator")?;
        let values: Vec<String> = optional_list(alloc, part, "values")?;
        requirement(operator, key, values).ok_or(FormFault::BadForm)
    }
}

// What is asked of the label: `In` and `NotIn` have values, the others have none.
#[tactic(auto, using(crate::proofs::Gathering::mapped_length))]
fn requirement(operator: Operator, key: String, values: Vec<String>) -> Option<Requirement>
    ensures { option_map requirement_seen result ≡ requirement operator (string_bytes key) (map string_bytes values.items) }
{
    match (operator, values.is_empty()) {
        (Operator::In, false) => Some(Requirement::IsOneOf(key, values)),
        (Operator::NotIn, false) => Some(Requirement::IsNoneOf(key, values)),
        (Operator::Exists, true) => Some(Requirement::IsThere(key)),
        (Operator::DoesNotExist, true) => Some(Requirement::IsAbsent(key)),
        _ => None,
    }
}

/// Labels with the values that they must have.
#[derive(Drop)]
pub struct Labels {
    pub requirements: Vec<Requirement>,
}

impl Form for Labels {
    ghost use Rattle.std.specs.Prelude.{List, map};
    ghost use Rattle.documents.specs.Requirement as labels;
    ghost use Rattle.documents.specs.Requirement.{requirement_seen};
    ghost use Rattle.policy.specs.MatchRules.{match_labels_of};

    ghost Spelled = { List labels.Requirement };

    ghost form_of = { match_labels_of };

    ghost seen = { λ labels. map requirement_seen labels.requirements.items };

    fn read(alloc: Global, part: &Json) -> Result<Labels, FormFault> {
        match part.as_object() {
            Some(members) => Ok(Labels {
                requirements: requirements_of_labels(alloc, members)?,
            }),
            None => Err(FormFault::BadForm),
        }
    }
}

#[tactic(auto, using(crate::proofs::Gathering::after_none))]
fn requirements_of_labels(
    alloc: Global,
    members: &Map<String, Json>,
) -> Result<Vec<Requirement>, FormFault>
    ensures read { IfOk result (λ v. labels_of (members_view members.now.entries) ≡ Some (map requirement_seen v.items)) }
    ensures refused { IsErrOf result FormFault.BadForm → labels_of (members_view members.now.entries) ≡ None }
{
    let mut requirements = Vec::new(alloc);
    for (key, member) in members.iter() {
        requirements.push(label(alloc, key.as_str(), member)?)?;
    }
    Ok(requirements)
}

// The label has the value that the member spells.
fn label(alloc: Global, key: &str, part: &Json) -> Result<Requirement, FormFault>
    ensures read { IfOk result (λ r. label_of key.now (view part.now) ≡ Some (requirement_seen r)) }
    ensures refused { IsErrOf result FormFault.BadForm → label_of key.now (view part.now) ≡ None }
{
    let value: String = Form::read(alloc, part)?;
    let mut values = Vec::new(alloc);
    values.push(value)?;
    Ok(Requirement::IsOneOf(String::from_str(alloc, key)?, values))
}

/// A selector: what is asked of the labels of an object.
#[derive(Drop)]
pub struct Selector {
    pub requirements: Vec<Requirement>,
}

impl Form for Selector {
    ghost use Rattle.std.specs.Prelude.{List, map};
    ghost use Rattle.documents.specs.Requirement as labels;
    ghost use Rattle.documents.specs.Requirement.{requirement_seen};
    ghost use Rattle.policy.specs.MatchRules.{selector_of};

    ghost Spelled = { List labels.Requirement };

    ghost form_of = { selector_of };

    ghost seen = { λ selector. map requirement_seen selector.requirements.items };

    #[tactic(auto, using(crate::proofs::Gathering::mapped_append))]
    fn read(alloc: Global, part: &Json) -> Result<Selector, FormFault> {
        if !has_only(part, &["matchLabels", "matchExpressions"]) {
            return Err(FormFault::BadForm);
        }
        let no_labels = Labels {
            requirements: Vec::new(alloc),
        };
        let labels = optional_or(alloc, part, "matchLabels", no_labels)?;
        let mut expressions: Vec<Requirement> = optional_list(alloc, part, "matchExpressions")?;
        let mut requirements = labels.requirements;
        requirements.append(&mut expressions)?;
        Ok(Selector { requirements })
    }
}
