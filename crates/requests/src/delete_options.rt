// The options in the body of a DELETE.
ghost use Rattle.std.specs.Prelude.{◌≡◌, None, IfOk, OnOk, IfErr, option_map, string_bytes};
ghost use Rattle.serde_json.specs.View.{view, members_view};
ghost use Rattle.documents.specs.Document.{each_member, is_object_of};
ghost use Rattle.requests.specs.DeleteOptions.{delete_body_refusal, version_of_body, version_of_options, are_delete_options, is_option, is_precondition};
ghost use Rattle.requests.specs.declared.manifest.BodyFault.TheVariants as BodyFault;
ghost use Rattle.requests.specs.declared.refusal.Refusal.{Refusal};

use crate::manifest::BodyFault;
use crate::refusal::Refusal;
use jsondoc::{Doc, JsonFault, Map, Value};
use std::alloc::{AllocError, Global};

/// Reads the options in the body of a DELETE (Kubernetes API, `DeleteOptions`), which may be empty: the text of the revision
/// that the object is to have, if they ask for one.
///
/// # Errors
///
/// `Refused` where the body is no JSON, has a number that is not whole or outside 64 bits, or is no object of an `apiVersion`
/// `v1`, a `kind` `DeleteOptions` and `preconditions`, an object of a text `resourceVersion`, each of which may be absent.
/// `Memory`.
pub fn read_delete_options(alloc: Global, body: &[u8]) -> Result<Option<String>, BodyFault>
    ensures version { IfOk result (λ v. option_map string_bytes v ≡ version_of_body body.now) }
    ensures sound { OnOk result (delete_body_refusal body.now ≡ None) }
    ensures refused { (r : Refusal) → result ≡ Err (BodyFault.Refused r) → delete_body_refusal body.now ≡ Some r }
{
    if body.is_empty() {
        return Ok(None);
    }
    let options = match Doc::read(alloc, body) {
        Ok(options) => options,
        Err(JsonFault::NotJson) => return Err(BodyFault::Refused(Refusal::BodyIsNotJson)),
        Err(JsonFault::Number) => return Err(BodyFault::Refused(Refusal::NumberOutsideRange)),
        Err(JsonFault::Memory) => return Err(BodyFault::Memory),
    };
    if !are_delete_options(options.value()) {
        return Err(BodyFault::Refused(Refusal::BadDeleteOptions));
    }
    Ok(version_of(alloc, &options)?)
}

fn are_delete_options(options: &Value) -> bool
    ensures { result ≡ are_delete_options (view options.now) }
{
    match options.as_object() {
        Some(members) => are_options(members),
        None => false,
    }
}

fn are_options(members: &Map<String, Value>) -> bool
    ensures { result ≡ each_member is_option (members_view members.now.entries) }
{
    for (name, value) in members.iter() {
        if !is_option(name.as_str(), value) {
            return false;
        }
    }
    true
}

fn is_option(name: &str, value: &Value) -> bool
    ensures { result ≡ is_option name.now (view value.now) }
{
    match name {
        "apiVersion" => value.as_str().is_some_and(|text| "v1" == text),
        "kind" => value.as_str().is_some_and(|text| "DeleteOptions" == text),
        "preconditions" => are_preconditions(value),
        _ => false,
    }
}

fn are_preconditions(value: &Value) -> bool
    ensures { result ≡ is_object_of is_precondition (view value.now) }
{
    match value.as_object() {
        Some(members) => are_precondition_members(members),
        None => false,
    }
}

fn are_precondition_members(members: &Map<String, Value>) -> bool
    ensures { result ≡ each_member is_precondition (members_view members.now.entries) }
{
    for (name, value) in members.iter() {
        if !is_precondition(name.as_str(), value) {
            return false;
        }
    }
    true
}

fn is_precondition(name: &str, value: &Value) -> bool
    ensures { result ≡ is_precondition name.now (view value.now) }
{
    name == "resourceVersion" && value.is_string()
}

// The text of the revision that the options ask for.
fn version_of(alloc: Global, options: &Doc) -> Result<Option<String>, AllocError>
    ensures { IfOk result (λ v. option_map string_bytes v ≡ version_of_options options.now) }
{
    match asked_version(options) {
        Some(version) => Ok(Some(String::from_str(alloc, version)?)),
        None => Ok(None),
    }
}

fn asked_version(options: &Doc) -> Option<&str>
    ensures { option_map (λ s. s.now) result ≡ version_of_options options.now }
{
    options
        .get("preconditions")?
        .get("resourceVersion")?
        .as_str()
}
