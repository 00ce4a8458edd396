//! Values of documents.

ghost use Rattle.std.specs.Prelude.{◌≡◌, IfOk};
ghost use Rattle.serde_json.specs.View.{number_view, view, items_view, members_view};
ghost use Rattle.celmean.specs.Seen.{value_of, values_seen, entries_seen};
ghost use Rattle.celmean.specs.Value.{items, entries};
ghost use Rattle.planrun.specs.Documents.{json_value, number_value, item_values, member_values};

use celmean::Value;
use serde_json::{Map, Number, Value as Json};
use std::alloc::{AllocError, Global};

/// The value of a JSON value: of a document, or of a part of one.
///
/// # Errors
///
/// Out of memory.
#[cycle(value)]
pub fn value_of(alloc: Global, json: &Json) -> Result<Value, AllocError>
    ensures { IfOk result (λ v. value_of v ≡ json_value (view json.now)) }
{
    match json {
        Json::Null => Ok(Value::Null),
        Json::Bool(truth) => Ok(Value::Bool(*truth)),
        Json::Number(number) => Ok(number_value(number)),
        Json::String(text) => Ok(Value::Text(text.clone()?)),
        Json::Array(items) => Value::list(alloc, values_of_items(alloc, items)?),
        Json::Object(members) => Value::map(alloc, values_of_members(alloc, members)?),
    }
}

// The values of the items of a list.
#[cycle(value)]
fn values_of_items(alloc: Global, items: &Vec<Json>) -> Result<Vec<Value>, AllocError>
    ensures { IfOk result (λ v. values_seen v.items ≡ item_values (items_view items.now.items)) }
{
    let mut values = Vec::new(alloc);
    for item in items {
        values.push(value_of(alloc, item)?)?;
    }
    Ok(values)
}

// The entries of the members of an object.
#[cycle(value)]
fn values_of_members(
    alloc: Global,
    members: &Map<String, Json>,
) -> Result<Vec<(Value, Value)>, AllocError>
    ensures { IfOk result (λ v. entries_seen v.items ≡ member_values (members_view members.now.entries)) }
{
    let mut entries = Vec::new(alloc);
    for (name, member) in members.iter() {
        let key = name.clone()?;
        let value = value_of(alloc, member)?;
        entries.push((Value::Text(key), value))?;
    }
    Ok(entries)
}

// The value of a number.
fn number_value(number: &Number) -> Value
    ensures { value_of result ≡ number_value (number_view number.now) }
{
    Value::Int(number.as_i64().unwrap_or(0))
}
