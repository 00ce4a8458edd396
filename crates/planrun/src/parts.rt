//! The parts of documents, where they lie: no copy is taken.

ghost use Rattle.std.specs.Prelude.{◌≡◌, map, option_map};
ghost use Rattle.serde_json.specs.View.{view};
ghost use Rattle.celmean.specs.Collections.{member, has_member, indexed, item_at};
ghost use Rattle.celmean.specs.Value.{Int, Text, or_error, truth_or_error};
ghost use Rattle.planrun.specs.Documents.{json_value};

use serde_json::Value as Json;

/// What `e.name` gives of a document: the member. There is none where `e.name` is the error.
pub(crate) fn member<'d>(document: &'d Json, name: &str) -> Option<&'d Json>
    ensures { or_error (option_map (λ found. json_value (view found.now)) result) ≡ member name.now (json_value (view document.now)) }
{
    document.get(name)
}

/// What `has(e.name)` gives of a document: whether it has the member. It is the error where the document is no object.
pub(crate) fn has_member(of: &Json, name: &str) -> Option<bool>
    ensures { truth_or_error result ≡ has_member name.now (json_value (view of.now)) }
{
    if of.is_object() {
        let found = of.get(name);
        Some(found.is_some())
    } else {
        None
    }
}

/// What `e[index]` gives of a document: the item of a list, counted from 0. There is none where `e[index]` is the error.
pub(crate) fn item(document: &Json, index: i64) -> Option<&Json>
    ensures { or_error (option_map (λ found. json_value (view found.now)) result) ≡ indexed (json_value (view document.now)) (Int index) }
{
    match document.as_array() {
        Some(items) => item_at(items, index),
        None => None,
    }
}

fn item_at(items: &Vec<Json>, index: i64) -> Option<&Json>
    ensures { option_map (λ found. json_value (view found.now)) result ≡ item_at (map (λ item. json_value (view item)) items.now.items) index }
{
    match usize::try_from(index) {
        Ok(place) => items.get(place),
        Err(_) => None,
    }
}
