//! Objects in the body of a POST or a PUT.

ghost use Rattle.std.specs.Prelude.{◌≡◌, IfOk, IsTrue, OnOk, option_map, string_bytes, unwrap_or, codes};
ghost use Rattle.serde_json.specs.View.{view, members_view};
ghost use Rattle.jsondoc.specs.Json.{is_whole};
ghost use Rattle.documents.specs.Document.{metadata_of};
ghost use Rattle.dialect.specs.Objects.{completed, has_null, has_null_metadata, is_null, is_short, lacks, restated_object, with_kind, with_text, without_each, without_null_metadata, without_nulls};

use crate::labels::{lacks_its_label, put_label};
use jsondoc::{Doc, JsonFault, Map, Value};
use names::Resource;
use std::alloc::{AllocError, Global};

// Whether a member is null.
fn has_null(members: &Map<String, Value>) -> bool
    ensures { result ≡ has_null (members_view members.now.entries) }
{
    for (_, value) in members.iter() {
        if value.is_null() {
            return true;
        }
    }
    false
}

// Whether a member of the metadata is null.
fn has_null_metadata(document: &Doc) -> bool
    ensures { result ≡ has_null_metadata document.now }
{
    match document.get("metadata") {
        Some(metadata) => match metadata.as_object() {
            Some(members) => has_null(members),
            None => false,
        },
        None => false,
    }
}

// Takes out of an object those of these members that are null.
fn drop_each(members: &Map<String, Value>, kept: &mut Doc)
    ensures { kept.new ≡ without_each kept.old (members_view members.now.entries) }
{
    for (name, value) in members.iter() {
        if value.is_null() {
            let _null = kept.remove(name);
        }
    }
}

// A copy of a part of a document, without the members that are null, where it is an object.
fn without_nulls(part: &Value) -> Result<Doc, AllocError>
    requires { IsTrue (is_whole (view part.now)) }
    ensures { IfOk result (λ kept. kept ≡ without_nulls (view part.now)) }
{
    let mut kept = Doc::copy_of(part)?;
    match part.as_object() {
        Some(members) => {
            drop_each(members, &mut kept);
            Ok(kept)
        }
        None => Ok(kept),
    }
}

// A copy of the metadata without them.
fn kept_metadata(document: &Doc) -> Result<Doc, AllocError>
    ensures { IfOk result (λ kept. kept ≡ without_nulls (metadata_of document.now)) }
{
    match document.get("metadata") {
        Some(metadata) => without_nulls(metadata),
        None => Ok(Doc::null()),
    }
}

// Takes those members out of the metadata.
fn drop_null_metadata(alloc: Global, document: &mut Doc) -> Result<(), AllocError>
    ensures { OnOk result (document.new ≡ without_null_metadata document.old) }
{
    if !has_null_metadata(document) {
        return Ok(());
    }
    let kept = kept_metadata(document)?;
    document.put(alloc, "metadata", kept)
}

// Whether the document is an object without this member.
fn lacks(name: &str, document: &Doc) -> bool
    ensures { result ≡ lacks name.now document.now }
{
    document.as_object().is_some() && document.get(name).is_none()
}

// Puts a text into an object that has no such member.
fn put_text(alloc: Global, name: &str, text: &str, document: &mut Doc) -> Result<(), AllocError>
    ensures { OnOk result (document.new ≡ with_text name.now text.now document.old) }
{
    if lacks(name, document) {
        let text = Doc::from(String::from_str(alloc, text)?);
        document.put(alloc, name, text)?;
    }
    Ok(())
}

// Puts the version and the kind of a resource into an object that has none.
fn put_kind(alloc: Global, resource: Resource, document: &mut Doc) -> Result<(), AllocError>
    ensures { OnOk result (document.new ≡ with_kind resource document.old) }
{
    put_text(alloc, "apiVersion", resource.api_version(), document)?;
    put_text(alloc, "kind", resource.kind(), document)
}

// Whether something is to be left out or added.
fn is_short(resource: Resource, document: &Doc) -> bool
    ensures { result ≡ is_short resource document.now }
{
    has_null_metadata(document)
        || lacks("apiVersion", document)
        || lacks("kind", document)
        || lacks_its_label(resource, document)
}

/// The body of a POST or a PUT of an object of a resource, completed, where something is to be left out or added.
pub(crate) fn restated_object(
    alloc: Global,
    resource: Resource,
    body: &[u8],
) -> Result<Option<String>, AllocError>
    ensures text { IfOk result (λ text. unwrap_or (option_map string_bytes text) body.now ≡ restated_object resource body.now) }
    ensures again { IfOk result (λ _. restated_object resource (restated_object resource body.now) ≡ restated_object resource body.now) }
{
    let mut document = match Doc::read(alloc, body) {
        Ok(document) => document,
        Err(JsonFault::Memory) => return Err(AllocError),
        Err(JsonFault::NotJson) => return Ok(None),
        Err(JsonFault::Number) => return Ok(None),
    };
    if !is_short(resource, &document) {
        return Ok(None);
    }
    drop_null_metadata(alloc, &mut document)?;
    put_kind(alloc, resource, &mut document)?;
    put_label(alloc, resource, &mut document)?;
    Ok(Some(document.text(alloc)?))
}
