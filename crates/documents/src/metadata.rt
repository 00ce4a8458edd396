ghost use Rattle.std.specs.Prelude.{◌≡◌, IfOk, false, codes, option_map, option_and_then};
ghost use Rattle.std.specs.Option.{option_map_or};
ghost use Rattle.serde_json.specs.Find.{get, as_str};
ghost use Rattle.serde_json.specs.View.{view, members_view};
ghost use Rattle.names.specs.Key.{is_name_of};
ghost use Rattle.documents.specs.Document.{metadata_of, metadata_text, is_metadata, is_metadata_of, each_member, is_metadata_member, is_text, are_texts, has_kind, has_text};

use jsondoc::Doc;
use names::{Resource, check_name, check_name_of, check_namespace};
use serde_json::{Map, Value};
use std::alloc::AllocError;

/// A copy of the metadata of an object's JSON, `null` if it has none. `AllocError` when out of memory.
pub fn metadata_copy(document: &Doc) -> Result<Doc, AllocError>
    ensures { IfOk result (λ d. d ≡ metadata_of document.now) }
{
    match document.get("metadata") {
        Some(metadata) => Doc::copy_of(metadata),
        None => Ok(Doc::null()),
    }
}

/// The text of a member of the metadata: `None` where there is no such member, or it is no text.
pub fn metadata_text<'a>(document: &'a Doc, name: &str) -> Option<&'a str>
    ensures { option_map (λ s. s.now) result ≡ metadata_text name.now document.now }
{
    document.get("metadata")?.get(name)?.as_str()
}

/// Whether the object is of this resource: its `apiVersion` and its `kind` are the resource's.
pub fn has_kind(resource: Resource, document: &Doc) -> bool
    ensures { result ≡ has_kind resource document.now }
{
    has_text(document, "apiVersion", resource.api_version())
        && has_text(document, "kind", resource.kind())
}

fn has_text(document: &Doc, name: &str, text: &str) -> bool
    ensures { result ≡ has_text name.now text.now document.now }
{
    match document.get(name) {
        Some(value) => match value.as_str() {
            Some(found) => text == found,
            None => false,
        },
        None => false,
    }
}

/// Whether the object's metadata is well-formed, and has a name that an object of the resource may have: a well-formed name and
/// namespace, labels and annotations of texts, a `resourceVersion` that is a text, and nothing else.
pub fn has_metadata(resource: Resource, document: &Doc) -> bool
    ensures { result ≡ is_metadata_of resource (metadata_of document.now) }
{
    match document.get("metadata") {
        Some(metadata) => is_metadata(metadata) && has_name_of(resource, metadata),
        None => false,
    }
}

// Whether the name in the metadata may name an object of the resource.
fn has_name_of(resource: Resource, metadata: &Value) -> bool
    ensures { result ≡ option_map_or (is_name_of resource) (option_and_then as_str (get (codes "name") (view metadata.now))) false }
{
    match metadata.get("name") {
        Some(name) => match name.as_str() {
            Some(text) => check_name_of(resource, text),
            None => false,
        },
        None => false,
    }
}

fn is_metadata(metadata: &Value) -> bool
    ensures { result ≡ is_metadata (view metadata.now) }
{
    match metadata.as_object() {
        Some(members) => are_metadata_members(members) && metadata.get("name").is_some(),
        None => false,
    }
}

fn are_metadata_members(members: &Map<String, Value>) -> bool
    ensures { result ≡ each_member is_metadata_member (members_view members.now.entries) }
{
    for (name, value) in members.iter() {
        if !is_metadata_member(name.as_str(), value) {
            return false;
        }
    }
    true
}

fn is_metadata_member(name: &str, value: &Value) -> bool
    ensures { result ≡ is_metadata_member name.now (view value.now) }
{
    match name {
        "name" => value.as_str().is_some_and(|text| check_name(text)),
        "namespace" => value.as_str().is_some_and(|text| check_namespace(text)),
        "labels" | "annotations" => are_texts(value),
        "resourceVersion" => value.is_string(),
        _ => false,
    }
}

// Whether the value is an object of texts.
fn are_texts(value: &Value) -> bool
    ensures { result ≡ are_texts (view value.now) }
{
    match value.as_object() {
        Some(members) => are_member_texts(members),
        None => false,
    }
}

fn are_member_texts(members: &Map<String, Value>) -> bool
    ensures { result ≡ each_member (λ _ value. is_text value) (members_view members.now.entries) }
{
    for (_, value) in members.iter() {
        if !value.is_string() {
            return false;
        }
    }
    true
}
