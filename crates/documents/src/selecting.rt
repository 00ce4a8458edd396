//! Whether an object meets a label selector.

ghost use Rattle.std.specs.Prelude.{◌≡◌, map, string_bytes, option_map};
ghost use Rattle.serde_json.specs.View.{view};
ghost use Rattle.documents.specs.Requirement.{requirement_seen};
ghost use Rattle.documents.specs.Selecting.{is_among, label_of, has_one_of, meets, selects};

use crate::requirement::Requirement;
use serde_json::Value;

/// Whether the object meets each requirement. A label is a text that is a member of `metadata.labels`.
pub fn selects(requirements: &[Requirement], object: &Value) -> bool
    ensures { result ≡ selects (map requirement_seen requirements.now) (view object.now) }
{
    requirements
        .iter()
        .all(|requirement| meets(object, requirement))
}

fn meets(object: &Value, requirement: &Requirement) -> bool
    ensures { result ≡ meets (view object.now) (requirement_seen requirement.now) }
{
    match requirement {
        Requirement::IsOneOf(key, values) => has_one_of(object, key.as_str(), values),
        Requirement::IsNoneOf(key, values) => !has_one_of(object, key.as_str(), values),
        Requirement::IsThere(key) => label_of(object, key.as_str()).is_some(),
        Requirement::IsAbsent(key) => label_of(object, key.as_str()).is_none(),
    }
}

// Whether the object has the label, with one of the values.
fn has_one_of(object: &Value, key: &str, values: &[String]) -> bool
    ensures { result ≡ has_one_of key.now (map string_bytes values.now) (view object.now) }
{
    match label_of(object, key) {
        Some(label) => is_among(values, label),
        None => false,
    }
}

// The value of a label.
fn label_of<'d>(object: &'d Value, key: &str) -> Option<&'d str>
    ensures { option_map (λ label. label.now) result ≡ label_of key.now (view object.now) }
{
    object.get("metadata")?.get("labels")?.get(key)?.as_str()
}

/// Whether the text is one of these.
pub fn is_among(texts: &[String], text: &str) -> bool
    ensures { result ≡ is_among (map string_bytes texts.now) text.now }
{
    texts.iter().any(|candidate| text == candidate.as_str())
}
