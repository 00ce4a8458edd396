//! The document `request`.

ghost use Rattle.std.specs.Prelude.{◌≡◌, ◌∷◌, [], codes, IfOk, OnOk};
ghost use Rattle.serde_json.specs.Data.{put, string, object, no_members};
ghost use Rattle.serde_json.specs.View.{view, members_view};
ghost use Rattle.policy.specs.Rules.{attempt_seen};
ghost use Rattle.names.specs.Resource.{row};
ghost use Rattle.documents.specs.Document.{object_of};
ghost use Rattle.verdict.specs.Request.{operation_name, request_of};

use names::Resource;
use policy::{Attempt, Operation};
use serde_json::{Map, Value as Json};
use std::alloc::{AllocError, Global};

fn operation_name(operation: Operation) -> &'static str
    ensures { result.now ≡ operation_name operation }
{
    match operation {
        Operation::Create => "CREATE",
        Operation::Update => "UPDATE",
        Operation::Delete => "DELETE",
    }
}

fn put(
    alloc: Global,
    members: &mut Map<String, Json>,
    name: &str,
    member: Json,
) -> Result<(), AllocError>
    ensures { OnOk result (members_view members.new.entries ≡ put name.now (view member) (members_view members.old.entries)) }
{
    let name = String::from_str(alloc, name)?;
    members.insert(name, member)?;
    Ok(())
}

fn put_text(
    alloc: Global,
    members: &mut Map<String, Json>,
    name: &str,
    text: &str,
) -> Result<(), AllocError>
    ensures { OnOk result (members_view members.new.entries ≡ put name.now (string text.now) (members_view members.old.entries)) }
{
    let text = String::from_str(alloc, text)?;
    put(alloc, members, name, Json::String(text))
}

// Puts the names of a resource: its group, its version, and this one.
fn put_names(
    alloc: Global,
    members: &mut Map<String, Json>,
    resource: Resource,
    name: &str,
    text: &str,
) -> Result<(), AllocError>
    ensures { let names = object_of ((codes "group", string (row resource).group) ∷ (codes "version", string (row resource).version) ∷ (name.now, string text.now) ∷ []) in
        OnOk result (members_view members.new.entries ≡ put name.now names (members_view members.old.entries)) }
{
    let mut names = Map::new(alloc);
    put_text(alloc, &mut names, name, text)?;
    put_text(alloc, &mut names, "version", resource.version())?;
    put_text(alloc, &mut names, "group", resource.group())?;
    put(alloc, members, name, Json::Object(names))
}

// Puts what the attempt does, and to which object.
fn put_members(
    alloc: Global,
    members: &mut Map<String, Json>,
    attempt: &Attempt<'_>,
) -> Result<(), AllocError>
    requires { members_view members.old.entries ≡ no_members }
    ensures { OnOk result (object (members_view members.new.entries) ≡ request_of (attempt_seen attempt.now)) }
{
    let resource = attempt.key.resource();
    put_names(alloc, members, resource, "resource", resource.plural())?;
    put_names(alloc, members, resource, "kind", resource.kind())?;
    put_text(alloc, members, "namespace", attempt.key.namespace())?;
    put_text(alloc, members, "name", attempt.key.name())?;
    let operation = operation_name(attempt.operation);
    put_text(alloc, members, "operation", operation)
}

/// The document `request` that expressions see: the operation, and the name, the namespace (an empty text if it has none), the kind
/// and the resource of the object.
///
/// # Errors
///
/// Out of memory.
pub fn request_document(alloc: Global, attempt: &Attempt<'_>) -> Result<Json, AllocError>
    ensures { IfOk result (λ d. view d ≡ request_of (attempt_seen attempt.now)) }
{
    let mut members = Map::new(alloc);
    put_members(alloc, &mut members, attempt)?;
    Ok(Json::Object(members))
}
