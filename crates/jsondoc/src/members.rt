ghost use Rattle.std.specs.Prelude.{◌≡◌, None, OnOk, OnErr, option_map};
ghost use Rattle.serde_json.specs.Find.{get};
ghost use Rattle.serde_json.specs.View.{view};
ghost use Rattle.jsondoc.specs.Json.{with_member, without_member, with_item};

use serde_json::Value;
use std::alloc::{AllocError, Global};

/// Puts a member into an object; what is no object stays.
pub(crate) fn put_member(
    alloc: Global,
    value: &mut Value,
    name: &str,
    member: Value,
) -> Result<(), AllocError>
    ensures ok { OnOk result (view value.new ≡ with_member name.now (view member) (view value.old)) }
    ensures err { OnErr result (view value.new ≡ view value.old) }
{
    let name = String::from_str(alloc, name)?;
    if let Some(members) = value.as_object_mut() {
        members.insert(name, member)?;
    }
    Ok(())
}

/// Takes a member out of an object.
pub(crate) fn remove_member(value: &mut Value, name: &str) -> Option<Value>
    ensures removed { option_map view result ≡ get name.now (view value.old) }
    ensures rest { view value.new ≡ without_member name.now (view value.old) }
    ensures gone { get name.now (view value.new) ≡ None }
{
    match value.as_object_mut() {
        Some(members) => members.remove(name),
        None => None,
    }
}

/// Adds an item at the end of a list; what is no list stays.
pub(crate) fn push_item(value: &mut Value, item: Value) -> Result<(), AllocError>
    ensures ok { OnOk result (view value.new ≡ with_item (view item) (view value.old)) }
    ensures err { OnErr result (view value.new ≡ view value.old) }
{
    if let Some(items) = value.as_array_mut() {
        items.push(item)?;
    }
    Ok(())
}
