//! From a message to its request.

ghost use Rattle.std.specs.Prelude.{◌≡◌, IfOk, Some, None, Err, false, if◌then◌else◌, option_map, is_some, unwrap_or};
ghost use Rattle.names.specs.Key.{key_of};
ghost use Rattle.requests.specs.declared.refusal.Refusal.TheVariants.{MethodNotAllowed};
ghost use Rattle.requests.specs.declared.refusal.Refusal.{Refusal as RefusalData};
ghost use Rattle.requests.specs.declared.manifest.BodyFault.TheVariants as BodyFault;
ghost use Rattle.requests.specs.Manifest.{IsManifestOf};
ghost use Rattle.requests.specs.Refusal.{first_of};
ghost use Rattle.requests.specs.Request.{refused};
ghost use Rattle.requests.specs.RequestOf.{request_of};
ghost use Rattle.routes.specs.Path.{query_of};
ghost use Rattle.routes.specs.PlaceOf.{seen};
ghost use Rattle.routes.specs.Query.{has_pairs};
ghost use Rattle.routes.specs.Asked.{object_conditions, item_conditions, get_request, create_request, replace_request, delete_request, deletion, collection_request, collection_at, of_item, of_collection, of_everywhere, asked_at, asked};
ghost use Rattle.routes.specs.Allow.{allowed, allow_of};

use crate::collection::collection_request;
use crate::path::path_and_query;
use crate::query::has_pairs;
use crate::table::{PathPlace, Routes, Target};
use httpmsg::{Message, Method};
use names::{Format, Key, KeyFault, Resource};
use requests::{BodyFault, Manifest, Refusal, Request, read_delete_options};
use std::alloc::{AllocError, Global};

/// What a message asks for.
#[derive(Drop)]
pub struct Routed {
    /// A call, or the first refusal that shows in the message alone.
    pub request: Request,
    /// The methods that the path allows, as an `Allow` field lists them, where the message's is none of them (RFC 9110
    /// section 10.2.1).
    pub allow: Option<&'static str>,
}

/// The request that a message spells to a store of a format, and the methods that its path allows where its own is refused.
///
/// # Errors
///
/// Only where memory is refused.
pub fn route(
    alloc: Global,
    routes: &Routes,
    format: Format,
    message: &Message,
) -> Result<Routed, AllocError>
    ensures request { IfOk result (λ route. request_of route.request ≡ asked format message.now) }
    ensures allow { IfOk result (λ route. option_map (λ methods. methods.now) route.allow ≡ allow_of format message.now) }
{
    let (path, query) = path_and_query(message.target());
    match routes.place_of(alloc, format, path)? {
        Some(place) => route_at(alloc, message, &place, query),
        None => Ok(Routed {
            request: Request::Refused(Refusal::NoSuchPath),
            allow: None,
        }),
    }
}

// The request that a message spells at a place.
fn route_at(
    alloc: Global,
    message: &Message,
    place: &PathPlace,
    query: &str,
) -> Result<Routed, AllocError>
    requires { query.now ≡ query_of message.now.target }
    ensures request { IfOk result (λ route. request_of route.request ≡ unwrap_or (asked_at message.now (seen place.now)) (refused MethodNotAllowed)) }
    ensures allow { IfOk result (λ route. option_map (λ methods. methods.now) route.allow
        ≡ if is_some (asked_at message.now (seen place.now)) then None else Some (allowed (seen place.now))) }
{
    Ok(match asked_at(alloc, message, place, query)? {
        Some(request) => Routed {
            request,
            allow: None,
        },
        None => Routed {
            request: Request::Refused(Refusal::MethodNotAllowed),
            allow: Some(place.allowed()),
        },
    })
}

// What the method asks of a place, if the place allows it.
fn asked_at(
    alloc: Global,
    message: &Message,
    place: &PathPlace,
    query: &str,
) -> Result<Option<Request>, AllocError>
    requires { query.now ≡ query_of message.now.target }
    ensures { IfOk result (λ request. option_map request_of request ≡ asked_at message.now (seen place.now)) }
{
    match place {
        PathPlace::Everywhere(resource) => of_everywhere(alloc, message, *resource, query),
        PathPlace::Within(target) => match target.name {
            Some(name) => of_item(alloc, message, target, name, query),
            None => of_collection(alloc, message, target, query),
        },
    }
}

// What the method asks of an item.
fn of_item(
    alloc: Global,
    message: &Message,
    target: &Target,
    name: &str,
    query: &str,
) -> Result<Option<Request>, AllocError>
    requires query { query.now ≡ query_of message.now.target }
    requires name { target.now.name ≡ Some name.now }
    ensures { IfOk result (λ request. option_map request_of request ≡ of_item message.now target.now name.now message.now.method) }
{
    Ok(match message.method() {
        Method::Get => Some(get_request(alloc, message, target, name, query)?),
        Method::Put => Some(replace_request(alloc, message, target, name, query)?),
        Method::Delete => Some(delete_request(alloc, message, target, name, query)?),
        _ => None,
    })
}

// What the method asks of a collection that is not over all namespaces.
fn of_collection(
    alloc: Global,
    message: &Message,
    target: &Target,
    query: &str,
) -> Result<Option<Request>, AllocError>
    requires query { query.now ≡ query_of message.now.target }
    requires name { target.now.name ≡ None }
    ensures { IfOk result (λ request. option_map request_of request ≡ of_collection message.now target.now message.now.method) }
{
    Ok(match message.method() {
        Method::Get => Some(collection_request_within(alloc, message, target, query)?),
        Method::Post => Some(create_request(alloc, message, target, query)?),
        _ => None,
    })
}

// GET of a collection that is not over all namespaces.
fn collection_request_within(
    alloc: Global,
    message: &Message,
    target: &Target,
    query: &str,
) -> Result<Request, AllocError>
    requires { query.now ≡ query_of message.now.target }
    ensures { IfOk result (λ request. request_of request ≡ collection_request message.now (collection_at target.now)) }
{
    let namespace = target.collection_namespace();
    collection_request(alloc, message, target.resource, namespace, query)
}

// What the method asks of the objects of all namespaces.
fn of_everywhere(
    alloc: Global,
    message: &Message,
    resource: Resource,
    query: &str,
) -> Result<Option<Request>, AllocError>
    requires { query.now ≡ query_of message.now.target }
    ensures { IfOk result (λ request. option_map request_of request ≡ of_everywhere message.now resource message.now.method) }
{
    Ok(match message.method() {
        Method::Get => Some(collection_request(alloc, message, resource, None, query)?),
        _ => None,
    })
}

// The key of an item, or what refuses each request for it by its target alone.
fn item_key(
    alloc: Global,
    message: &Message,
    target: &Target,
    name: &str,
    query: &str,
) -> Result<Key, BodyFault>
    requires query { query.now ≡ query_of message.now.target }
    requires name { target.now.name ≡ Some name.now }
    ensures key { IfOk result (λ key. key ≡ key_of target.now.resource target.now.namespace name.now) }
    ensures free { IfOk result (λ _. first_of (item_conditions message.now target.now) ≡ None) }
    ensures refused { (r : RefusalData) → result ≡ Err (BodyFault.Refused r) → first_of (item_conditions message.now target.now) ≡ Some r }
{
    if has_pairs(query) {
        return Err(BodyFault::Refused(Refusal::BadQuery));
    }
    match Key::new(alloc, target.resource, target.namespace, name) {
        Ok(key) => Ok(key),
        Err(KeyFault::NoKey) => Err(BodyFault::Refused(Refusal::BadNameInPath)),
        Err(KeyFault::Memory) => Err(BodyFault::Memory),
    }
}

// GET of an item.
fn get_request(
    alloc: Global,
    message: &Message,
    target: &Target,
    name: &str,
    query: &str,
) -> Result<Request, AllocError>
    requires query { query.now ≡ query_of message.now.target }
    requires name { target.now.name ≡ Some name.now }
    ensures { IfOk result (λ request. request_of request ≡ get_request message.now target.now name.now) }
{
    match item_key(alloc, message, target, name, query) {
        Ok(_) if !message.body().is_empty() => Ok(Request::Refused(Refusal::UnexpectedBody)),
        Ok(key) => Ok(Request::Get(key)),
        Err(fault) => refused_for(fault),
    }
}

// What a POST or a PUT asks to be stored.
fn manifest_asked(
    alloc: Global,
    message: &Message,
    target: &Target,
    name: Option<&str>,
    query: &str,
) -> Result<Manifest, BodyFault>
    requires query { query.now ≡ query_of message.now.target }
    requires name { target.now.name ≡ option_map (λ n. n.now) name }
    ensures asked { IfOk result (IsManifestOf target.now message.now.body) }
    ensures no_pairs { IfOk result (λ _. has_pairs (query_of message.now.target) ≡ false) }
    ensures refused { (r : RefusalData) → result ≡ Err (BodyFault.Refused r) → first_of (object_conditions message.now target.now) ≡ Some r }
{
    if has_pairs(query) {
        return Err(BodyFault::Refused(Refusal::BadQuery));
    }
    let (resource, namespace) = (target.resource, target.namespace);
    Manifest::read(alloc, resource, namespace, name, message.body())
}

// What a message asks for whose body is at fault.
fn refused_for(fault: BodyFault) -> Result<Request, AllocError>
    ensures { IfOk result (λ request. (r : RefusalData) × (fault ≡ BodyFault.Refused r) × (request_of request ≡ refused r)) }
{
    match fault {
        BodyFault::Refused(refusal) => Ok(Request::Refused(refusal)),
        BodyFault::Memory => Err(AllocError),
    }
}

// POST to a collection.
fn create_request(
    alloc: Global,
    message: &Message,
    target: &Target,
    query: &str,
) -> Result<Request, AllocError>
    requires query { query.now ≡ query_of message.now.target }
    requires name { target.now.name ≡ None }
    ensures { IfOk result (λ request. request_of request ≡ create_request message.now target.now) }
{
    match manifest_asked(alloc, message, target, None, query) {
        Ok(manifest) => Ok(Request::Create(manifest)),
        Err(fault) => refused_for(fault),
    }
}

// PUT of an item.
fn replace_request(
    alloc: Global,
    message: &Message,
    target: &Target,
    name: &str,
    query: &str,
) -> Result<Request, AllocError>
    requires query { query.now ≡ query_of message.now.target }
    requires name { target.now.name ≡ Some name.now }
    ensures { IfOk result (λ request. request_of request ≡ replace_request message.now target.now) }
{
    match manifest_asked(alloc, message, target, Some(name), query) {
        Ok(manifest) => Ok(Request::Replace(manifest)),
        Err(fault) => refused_for(fault),
    }
}

// DELETE of an item.
fn delete_request(
    alloc: Global,
    message: &Message,
    target: &Target,
    name: &str,
    query: &str,
) -> Result<Request, AllocError>
    requires query { query.now ≡ query_of message.now.target }
    requires name { target.now.name ≡ Some name.now }
    ensures { IfOk result (λ request. request_of request ≡ delete_request message.now target.now name.now) }
{
    match item_key(alloc, message, target, name, query) {
        Ok(key) => deletion(alloc, key, message.body()),
        Err(fault) => refused_for(fault),
    }
}

// The deletion that the body of a DELETE asks for.
fn deletion(alloc: Global, key: Key, body: &[u8]) -> Result<Request, AllocError>
    ensures { IfOk result (λ request. request_of request ≡ deletion key body.now) }
{
    match read_delete_options(alloc, body) {
        Ok(version) => Ok(Request::Delete(key, version)),
        Err(fault) => refused_for(fault),
    }
}
