//! The outcomes on the stack of the machine.

ghost use Rattle.std.specs.Prelude.{◌≡◌, option_map, IfOk};
ghost use Rattle.serde_json.specs.View.{view};
ghost use Rattle.celmean.specs.Value.{Gives, or_error, truth_or_error, with_value, with_values};
ghost use Rattle.celmean.specs.Collections.{member, has_member, indexed};
ghost use Rattle.celmean.specs.Macros.{is_true, is_false};
ghost use Rattle.celmean.specs.Seen.{outcome_of};
ghost use Rattle.planrun.specs.Documents.{json_value};
ghost use Rattle.planrun.specs.StackSeen.{held_seen};

use crate::document::value_of;
use crate::parts::{has_member, item, member};
use celmean::{Outcome, Value, has_member_of, index_of, member_of};
use serde_json::Value as Json;
use std::alloc::{AllocError, Global};

/// What the stack of the machine holds.
#[derive(Drop)]
pub(crate) enum Held<'a> {
    /// A part of a document, where it lies.
    Document(&'a Json),
    /// An outcome.
    Owned(Outcome),
}

/// The outcome: a part of a document is copied.
pub(crate) fn into_outcome(alloc: Global, held: Held<'_>) -> Result<Outcome, AllocError>
    ensures { IfOk result (λ o. outcome_of o ≡ held_seen held.entry) }
{
    match held {
        Held::Document(document) => Ok(Outcome::Gives(value_of(alloc, document)?)),
        Held::Owned(outcome) => Ok(outcome),
    }
}

// A part of a document, or the error where there is none.
fn part(found: Option<&Json>) -> Held<'_>
    ensures { held_seen result ≡ or_error (option_map (λ d. json_value (view d.now)) found.entry) }
{
    match found {
        Some(document) => Held::Document(document),
        None => Held::Owned(Outcome::Error),
    }
}

// A truth value, or the error where there is none.
fn truth(found: Option<bool>) -> Outcome
    ensures { outcome_of result ≡ truth_or_error found }
{
    match found {
        Some(truth) => Outcome::Gives(Value::Bool(truth)),
        None => Outcome::Error,
    }
}

/// `e.name`
pub(crate) fn field<'a>(alloc: Global, name: &str, held: Held<'a>) -> Result<Held<'a>, AllocError>
    ensures { IfOk result (λ h. held_seen h ≡ with_value (member name.now) (held_seen held.entry)) }
{
    match held {
        Held::Document(document) => Ok(part(member(document, name))),
        Held::Owned(outcome) => {
            let member = member_of(alloc, name, &outcome);
            drop(outcome);
            Ok(Held::Owned(member?))
        }
    }
}

/// `has(e.name)`
pub(crate) fn has(alloc: Global, name: &str, held: &Held<'_>) -> Result<Outcome, AllocError>
    ensures { IfOk result (λ o. outcome_of o ≡ with_value (has_member name.now) (held_seen held.now)) }
{
    match held {
        Held::Document(document) => Ok(truth(has_member(document, name))),
        Held::Owned(outcome) => has_member_of(alloc, name, outcome),
    }
}

// `d[i]`, with a copy of the document.
fn index_copy<'a>(
    alloc: Global,
    document: &'a Json,
    index: &Outcome,
) -> Result<Held<'a>, AllocError>
    ensures { IfOk result (λ h. held_seen h ≡ with_values indexed (Gives (json_value (view document.now))) (outcome_of index.now)) }
{
    let of = Outcome::Gives(value_of(alloc, document)?);
    let part = index_of(&of, index);
    drop(of);
    Ok(Held::Owned(part?))
}

// `d[i]`, where a number or a text leads to a part of the document.
fn index_document<'a>(
    alloc: Global,
    document: &'a Json,
    index: &Outcome,
) -> Result<Held<'a>, AllocError>
    ensures { IfOk result (λ h. held_seen h ≡ with_values indexed (Gives (json_value (view document.now))) (outcome_of index.now)) }
{
    match index {
        Outcome::Gives(Value::Int(place)) => Ok(part(item(document, *place))),
        Outcome::Gives(Value::Text(name)) => Ok(part(member(document, name))),
        Outcome::Gives(_) => index_copy(alloc, document, index),
        Outcome::Error => Ok(Held::Owned(Outcome::Error)),
    }
}

fn index_at<'a>(alloc: Global, of: &Held<'a>, index: &Outcome) -> Result<Held<'a>, AllocError>
    ensures { IfOk result (λ h. held_seen h ≡ with_values indexed (held_seen of.now) (outcome_of index.now)) }
{
    match of {
        Held::Document(document) => index_document(alloc, document, index),
        Held::Owned(of) => Ok(Held::Owned(index_of(of, index)?)),
    }
}

/// `e[i]`
pub(crate) fn index<'a>(
    alloc: Global,
    of: Held<'a>,
    index: Held<'a>,
) -> Result<Held<'a>, AllocError>
    ensures { IfOk result (λ h. held_seen h ≡ with_values indexed (held_seen of.entry) (held_seen index.entry)) }
{
    let index = into_outcome(alloc, index)?;
    let part = index_at(alloc, &of, &index);
    drop(index);
    drop(of);
    part
}

fn is_true_document(document: &Json) -> bool
    ensures { result ≡ is_true (Gives (json_value (view document.now))) }
{
    match document {
        Json::Bool(truth) => *truth,
        _ => false,
    }
}

fn is_false_document(document: &Json) -> bool
    ensures { result ≡ is_false (Gives (json_value (view document.now))) }
{
    match document {
        Json::Bool(truth) => !*truth,
        _ => false,
    }
}

/// Whether it is true.
pub(crate) fn is_true(held: &Held<'_>) -> bool
    ensures { result ≡ is_true (held_seen held.now) }
{
    match held {
        Held::Document(document) => is_true_document(document),
        Held::Owned(outcome) => celmean::is_true(outcome),
    }
}

/// Whether it is false.
pub(crate) fn is_false(held: &Held<'_>) -> bool
    ensures { result ≡ is_false (held_seen held.now) }
{
    match held {
        Held::Document(document) => is_false_document(document),
        Held::Owned(outcome) => celmean::is_false(outcome),
    }
}
