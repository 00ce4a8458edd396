//! GET of a collection.

ghost use Rattle.std.specs.Prelude.{◌≡◌, IfOk, true, option_map, string_bytes};
ghost use Rattle.std.specs.Option.{option_map_or};
ghost use Rattle.names.specs.Name.{is_namespace};
ghost use Rattle.requests.specs.Collection.{collection_of};
ghost use Rattle.requests.specs.RequestOf.{request_of};
ghost use Rattle.requests.specs.Collection.{Collection as CollectionData};
ghost use Rattle.routes.specs.Path.{query_of};
ghost use Rattle.routes.specs.QuestionOf.{question_seen};
ghost use Rattle.routes.specs.Asked.{unless_refused, collection_conditions, answering, collection_request};

use crate::query::{Question, question_in};
use httpmsg::Message;
use names::{Resource, check_namespace};
use requests::{Collection, Refusal, Request};
use std::alloc::{AllocError, Global};

// A copy of a text, where there is one.
fn copied(alloc: Global, text: Option<&str>) -> Result<Option<String>, AllocError>
    ensures { IfOk result (λ copy. option_map string_bytes copy ≡ option_map (λ t. t.now) text.entry) }
{
    match text {
        Some(text) => Ok(Some(String::from_str(alloc, text)?)),
        None => Ok(None),
    }
}

// Whether the namespace is well-formed, where one is given.
fn is_sound(namespace: Option<&str>) -> bool
    ensures { result ≡ option_map_or is_namespace (option_map (λ n. n.now) namespace.entry) true }
{
    match namespace {
        Some(namespace) => check_namespace(namespace),
        None => true,
    }
}

// What a question asks of a collection, if it has what it needs.
fn answering(collection: Collection, question: Question) -> Request
    ensures { request_of result ≡ answering (collection_of collection) (question_seen question) }
{
    match question {
        Question::Objects(selector) => Request::List(collection, selector),
        Question::Events(Some(revision)) => Request::Watch(collection, revision),
        Question::Events(None) => Request::Refused(Refusal::BadVersion),
    }
}

// What a question asks of a collection, or what refuses its message.
fn asked_by(
    alloc: Global,
    message: &Message,
    resource: Resource,
    namespace: Option<&str>,
    question: Question,
) -> Result<Request, AllocError>
    ensures { let c : CollectionData = record { resource = resource; namespace = option_map (λ n. n.now) namespace.entry } in
        IfOk result (λ request. request_of request ≡ unless_refused (collection_conditions message.now c) (answering c (question_seen question))) }
{
    if !is_sound(namespace) {
        return Ok(Request::Refused(Refusal::BadNameInPath));
    }
    if !message.body().is_empty() {
        return Ok(Request::Refused(Refusal::UnexpectedBody));
    }
    let namespace = copied(alloc, namespace)?;
    let collection = Collection {
        resource,
        namespace,
    };
    Ok(answering(collection, question))
}

/// What the query asks of a collection: the objects of a resource, in one namespace or, without one, in all.
pub(crate) fn collection_request(
    alloc: Global,
    message: &Message,
    resource: Resource,
    namespace: Option<&str>,
    query: &str,
) -> Result<Request, AllocError>
    requires { query.now ≡ query_of message.now.target }
    ensures { IfOk result (λ request. request_of request ≡ collection_request message.now (record { resource = resource; namespace = option_map (λ n. n.now) namespace.entry })) }
{
    match question_in(alloc, query)? {
        Some(question) => asked_by(alloc, message, resource, namespace, question),
        None => Ok(Request::Refused(Refusal::BadQuery)),
    }
}
