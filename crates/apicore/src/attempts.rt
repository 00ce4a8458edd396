//! The attempt of a write, as policies are asked about it.

ghost use Rattle.std.specs.Prelude.{◌≡◌, option_map, if◌then◌else◌, Some, is_some};
ghost use Rattle.serde_json.specs.View.{view};
ghost use Rattle.requests.specs.Codes.{document_in};
ghost use Rattle.policy.specs.Rules.{attempt_seen};
ghost use Rattle.policy.specs.declared.match_rules.Operation.TheVariants.{Create, Update};

use crate::placed::PlacedManifest;
use jsondoc::Doc;
use policy::{Attempt, Operation};
use serde_json::Value;

// What a put does to an object: it updates one that stands there, or creates one.
fn put_operation(stands: bool) -> Operation
    ensures { result ≡ if stands then Update else Create }
{
    if stands {
        Operation::Update
    } else {
        Operation::Create
    }
}

/// The value of a document, if there is one.
pub(crate) fn value_of(document: &Option<Doc>) -> Option<&Value>
    ensures { option_map (λ d. view d.now) result ≡ document.now }
{
    match document {
        Some(document) => Some(document.value()),
        None => None,
    }
}

/// What a put attempts, with the object at its key as it is shown, if one stands there, and the Namespace that it stands in, if it stands in one.
#[must_use]
pub(crate) fn put_attempt<'x>(
    placed: &PlacedManifest<'x>,
    old_object: Option<&'x Value>,
) -> Attempt<'x>
    ensures { let m = placed.now.manifest.now in let old = option_map (λ d. view d.now) old_object.entry in let home = placed.now.namespace.now in attempt_seen result
        ≡ record { operation = if is_some old then Update else Create; key = m.key; object = Some (document_in m.body).json; old_object = old; namespace = home } }
{
    let namespace = value_of(placed.namespace);
    Attempt {
        operation: put_operation(old_object.is_some()),
        key: placed.manifest.key(),
        object: Some(placed.manifest.document().json().value()),
        old_object,
        namespace,
    }
}
