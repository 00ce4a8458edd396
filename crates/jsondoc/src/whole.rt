ghost use Rattle.std.specs.Prelude.{◌≡◌};
ghost use Rattle.serde_json.specs.View.{view, items_view, members_view};
ghost use Rattle.jsondoc.specs.Json.{is_whole, items_are_whole, members_are_whole};

use serde_json::{Map, Value};

/// Whether each number is whole and in i64.
#[cycle(whole)]
pub(crate) fn has_whole_numbers(value: &Value) -> bool
    ensures { result ≡ is_whole (view value.now) }
{
    match value {
        Value::Number(number) => number.is_i64(),
        Value::Array(items) => items_have_whole_numbers(items),
        Value::Object(members) => members_have_whole_numbers(members),
        _ => true,
    }
}

#[cycle(whole)]
fn items_have_whole_numbers(items: &Vec<Value>) -> bool
    ensures { result ≡ items_are_whole (items_view items.now.items) }
{
    for item in items {
        if !has_whole_numbers(item) {
            return false;
        }
    }
    true
}

#[cycle(whole)]
fn members_have_whole_numbers(members: &Map<String, Value>) -> bool
    ensures { result ≡ members_are_whole (members_view members.now.entries) }
{
    for (_, member) in members.iter() {
        if !has_whole_numbers(member) {
            return false;
        }
    }
    true
}
