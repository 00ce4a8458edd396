//! What is made of a message of a Kubernetes client.

ghost use Rattle.std.specs.Prelude.{◌≡◌, ◌&&◌, not, IfOk, Some, None, if◌then◌else◌, option_map, unwrap_or, string_bytes};
ghost use Rattle.routes.specs.Asked.{place_in};
ghost use Rattle.routes.specs.Path.{path_of, query_of, resource_in};
ghost use Rattle.dialect.specs.Discovery.{constant_at};
ghost use Rattle.dialect.specs.Restated.{asks, body_read, constant_of, is_watch, object_body, pairs_in, reading_of, reads, restated, restated_body};
ghost use Rattle.dialect.specs.ReadingOf.{IsReadOnce, reading_seen};

use crate::discovery::constant_at;
use crate::nulls::restated_object;
use crate::options::restated_options;
use crate::pairs::{Pair, asks_to_watch, has_other, pairs_of, restated_target};
use httpmsg::{Message, Method};
use names::Format;
use routes::Routes;
use std::alloc::{AllocError, Global};

/// What is made of a message of a Kubernetes client.
#[derive(Drop)]
pub enum Reading {
    /// It is asked as it is.
    Plain,
    /// It stands for this one.
    Restated(Message),
    /// This constant body answers it, with status 200.
    Constant(&'static str),
}

// The path and the query of a target.
fn path_and_query(target: &str) -> (&str, &str)
    ensures path { result.0.now ≡ path_of target.now }
    ensures query { result.1.now ≡ query_of target.now }
{
    match target.split_once('?') {
        Some(parts) => parts,
        None => (target, ""),
    }
}

// GET and HEAD.
fn reads(method: Method) -> bool
    ensures { result ≡ reads method }
{
    match method {
        Method::Get | Method::Head => true,
        _ => false,
    }
}

// The constant that answers a message, if one does.
fn constant_of(
    alloc: Global,
    format: Format,
    message: &Message,
    path: &str,
    watches: bool,
) -> Result<Option<&'static str>, AllocError>
    requires path { path.now ≡ path_of message.now.target }
    requires watches { watches ≡ is_watch message.now }
    ensures { IfOk result (λ text. option_map (λ text. text.now) text ≡ constant_of format message.now) }
{
    if !reads(message.method()) || watches {
        return Ok(None);
    }
    constant_at(alloc, format, path)
}

// What is made of the body of a POST or a PUT, if something is.
fn restated_at_place(
    alloc: Global,
    routes: &Routes,
    format: Format,
    message: &Message,
) -> Result<Option<String>, AllocError>
    ensures text { IfOk result (λ text. unwrap_or (option_map string_bytes text) message.now.body
        ≡ object_body (option_map resource_in (place_in format message.now)) message.now.body) }
    ensures again { IfOk result (λ _. object_body (option_map resource_in (place_in format message.now)) (object_body (option_map resource_in (place_in format message.now)) message.now.body)
        ≡ object_body (option_map resource_in (place_in format message.now)) message.now.body) }
{
    match routes.resource_at(alloc, format, message.target())? {
        Some(resource) => restated_object(alloc, resource, message.body()),
        None => Ok(None),
    }
}

// What is made of the body of a message, if something is.
fn restated_body(
    alloc: Global,
    routes: &Routes,
    format: Format,
    message: &Message,
) -> Result<Option<String>, AllocError>
    ensures text { IfOk result (λ text. unwrap_or (option_map string_bytes text) message.now.body ≡ restated_body format message.now) }
    ensures again { IfOk result (λ _. body_read message.now.method (option_map resource_in (place_in format message.now)) (restated_body format message.now) ≡ restated_body format message.now) }
{
    match message.method() {
        Method::Post => restated_at_place(alloc, routes, format, message),
        Method::Put => restated_at_place(alloc, routes, format, message),
        Method::Delete => restated_options(alloc, message.body()),
        Method::Get | Method::Head | Method::Other => Ok(None),
    }
}

// A message with another target or another body, where one is given.
fn with_parts(
    alloc: Global,
    message: &Message,
    target: Option<String>,
    body: Option<String>,
) -> Result<Reading, AllocError>
    ensures { IfOk result (λ reading. reading_seen message.now reading ≡ asks (record {
      method = message.now.method;
      target = unwrap_or (option_map string_bytes target) message.now.target;
      closes = message.now.closes;
      body = unwrap_or (option_map string_bytes body) message.now.body;
    })) }
{
    if target.is_none() && body.is_none() {
        return Ok(Reading::Plain);
    }
    let target = match &target {
        Some(text) => text.as_str(),
        None => message.target(),
    };
    let body = match &body {
        Some(text) => text.as_bytes(),
        None => message.body(),
    };
    let restated = Message::new(alloc, message.method(), target, message.closes(), body)?;
    Ok(Reading::Restated(restated))
}

// The message that a message stands for.
fn restated(
    alloc: Global,
    routes: &Routes,
    format: Format,
    message: &Message,
    path: &str,
    pairs: &[Pair],
    watches: bool,
) -> Result<Reading, AllocError>
    requires path { path.now ≡ path_of message.now.target }
    requires pairs { pairs.now ≡ pairs_in message.now }
    requires watches { watches ≡ is_watch message.now }
    requires constant { constant_of format message.now ≡ None }
    ensures message { IfOk result (λ reading. reading_seen message.now reading ≡ asks (restated format message.now)) }
    ensures once { IfOk result (λ reading. IsReadOnce format reading) }
{
    let method = message.method();
    if has_other(method, watches, pairs) {
        return Ok(Reading::Plain);
    }
    let target = restated_target(alloc, method, watches, path, pairs)?;
    let body = restated_body(alloc, routes, format, message)?;
    with_parts(alloc, message, target, body)
}

/// What is made of a message of a Kubernetes client, for a store of a format. A message that was restated is not restated again.
///
/// # Errors
///
/// Only where memory is refused.
pub fn read(
    alloc: Global,
    routes: &Routes,
    format: Format,
    message: &Message,
) -> Result<Reading, AllocError>
    ensures reading { IfOk result (λ reading. reading_seen message.now reading ≡ reading_of format message.now) }
    ensures once { IfOk result (λ reading. IsReadOnce format reading) }
{
    let (path, query) = path_and_query(message.target());
    let pairs = pairs_of(alloc, query)?;
    let watches = asks_to_watch(alloc, &pairs)?;
    match constant_of(alloc, format, message, path, watches)? {
        Some(text) => Ok(Reading::Constant(text)),
        None => restated(alloc, routes, format, message, path, &pairs, watches),
    }
}
