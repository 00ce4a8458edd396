//! The pairs of a query: which are left out, and how `watch` is read.

ghost use Rattle.std.specs.Prelude.{◌≡◌, [], ◌∷◌, IfOk, Some, None, is_none, if◌then◌else◌, option_map, string_bytes};
ghost use Rattle.std.specs.List.{list_any};
ghost use Rattle.form_urlencoded.specs.Form.{extend_pairs};
ghost use Rattle.routes.specs.Path.{path_of, query_of};
ghost use Rattle.routes.specs.Query.{is_served, pairs_of, truth_of};
ghost use Rattle.dialect.specs.Pairs.{asks_for_the_past, asks_to_watch, is_among, is_left_out, is_misread, is_other, is_restated, is_true, kept, may_stay, of_any, of_deletions, of_method, of_reads, of_writes, served_pair, served_truth, target_of, with_query};

use form_urlencoded::{Serializer, parse};
use httpmsg::Method;
use std::alloc::{AllocError, Global};
use std::marker::Model;

/// A name and its value, decoded.
#[derive(Drop)]
pub(crate) struct Pair {
    name: String,
    value: String,
}

impl Model for Pair {
    ghost use Rattle.routes.specs.Query.{Pair as PairData};

    ghost Value = { PairData };

    ghost use Rattle.std.specs.Prelude.{string_bytes};

    ghost view = { λ p. (string_bytes p.name, string_bytes p.value) };
}

// A name that any message may have and that asks for nothing.
fn is_of_any(name: &str) -> bool
    ensures { result ≡ is_among name.now of_any }
{
    name == "pretty" || name == "timeout"
}

// A name of a list that asks for nothing.
fn is_of_reads(name: &str) -> bool
    ensures { result ≡ is_among name.now of_reads }
{
    name == "limit" || name == "resourceVersion" || name == "resourceVersionMatch"
}

// A name of a POST or a PUT that asks for nothing.
fn is_of_writes(name: &str) -> bool
    ensures { result ≡ is_among name.now of_writes }
{
    name == "fieldManager" || name == "fieldValidation"
}

// A name of a DELETE that asks for nothing.
fn is_of_deletions(name: &str) -> bool
    ensures { result ≡ is_among name.now of_deletions }
{
    name == "propagationPolicy" || name == "gracePeriodSeconds"
}

// A name that asks for nothing of this method.
fn is_of_method(method: Method, watches: bool, name: &str) -> bool
    ensures { result ≡ is_among name.now (of_method method watches) }
{
    match method {
        Method::Get => !watches && is_of_reads(name),
        Method::Post | Method::Put => is_of_writes(name),
        Method::Delete => is_of_deletions(name),
        Method::Head | Method::Other => false,
    }
}

// Whether a name may be served with this method.
fn may_stay(method: Method, name: &str) -> bool
    ensures { result ≡ may_stay method name.now }
{
    match method {
        Method::Get => name == "labelSelector" || name == "watch" || name == "resourceVersion",
        _ => false,
    }
}

// Whether a value of `watch` is none of the four that are served.
fn is_no_truth(text: &str) -> bool
    ensures { result ≡ is_none (truth_of text.now) }
{
    match text {
        "true" | "1" | "false" | "0" => false,
        _ => true,
    }
}

// Whether a value of `watch` asks for a watch, as Kubernetes reads it.
fn is_true(alloc: Global, text: &str) -> Result<bool, AllocError>
    ensures { IfOk result (λ answer. answer ≡ is_true text.now) }
{
    let small = text.to_ascii_lowercase(alloc)?;
    Ok(!(small.as_str() == "false" || text == "0"))
}

impl Pair {
    fn new(name: String, value: String) -> Pair
        ensures { result ≡ (string_bytes name, string_bytes value) }
    {
        Pair { name, value }
    }

    fn asks_for_the_past(&self) -> bool
        ensures { result ≡ asks_for_the_past self.now }
    {
        self.name.as_str() == "resourceVersionMatch" && self.value.as_str() == "Exact"
    }

    // Whether it asks for nothing of this method.
    fn is_left_out(&self, method: Method, watches: bool) -> bool
        ensures { result ≡ is_left_out method watches self.now }
    {
        let name = self.name.as_str();
        (is_of_any(name) || is_of_method(method, watches, name)) && !self.asks_for_the_past()
    }

    // Whether it is neither left out nor may be served.
    fn is_other(&self, method: Method, watches: bool) -> bool
        ensures { result ≡ is_other method watches self.now }
    {
        !self.is_left_out(method, watches) && !may_stay(method, &self.name)
    }

    // Whether it is `watch` with a value that is not served.
    fn is_misread(&self) -> bool
        ensures { result ≡ is_misread self.now }
    {
        self.name.as_str() == "watch" && is_no_truth(&self.value)
    }

    // Whether it asks for a watch.
    fn asks_to_watch(&self, alloc: Global) -> Result<bool, AllocError>
        ensures { IfOk result (λ answer. answer ≡ asks_to_watch (self.now ∷ [])) }
    {
        if self.name.as_str() == "watch" {
            is_true(alloc, &self.value)
        } else {
            Ok(false)
        }
    }

    // Its value as it is served.
    fn served_value(&self, alloc: Global) -> Result<&str, AllocError>
        ensures { IfOk result (λ value. value.now ≡ (served_pair self.now).1) }
    {
        if !self.is_misread() {
            return Ok(&self.value);
        }
        Ok(if is_true(alloc, &self.value)? {
            "true"
        } else {
            "false"
        })
    }
}

/// The pairs of a query, decoded.
pub(crate) fn pairs_of(alloc: Global, query: &str) -> Result<Vec<Pair>, AllocError>
    ensures { IfOk result (λ pairs. pairs.items ≡ pairs_of query.now) }
{
    let mut pairs = Vec::new(alloc);
    for pair in parse(alloc, query.as_bytes()).into_owned() {
        let (name, value) = pair?;
        pairs.push(Pair::new(name, value))?;
    }
    Ok(pairs)
}

/// Whether a query with these pairs asks for a watch.
pub(crate) fn asks_to_watch(alloc: Global, pairs: &[Pair]) -> Result<bool, AllocError>
    ensures { IfOk result (λ answer. answer ≡ asks_to_watch pairs.now) }
{
    for pair in pairs {
        if pair.asks_to_watch(alloc)? {
            return Ok(true);
        }
    }
    Ok(false)
}

/// Whether a pair is neither left out nor may be served.
pub(crate) fn has_other(method: Method, watches: bool, pairs: &[Pair]) -> bool
    ensures { result ≡ list_any (is_other method watches) pairs.now }
{
    pairs.iter().any(|pair| pair.is_other(method, watches))
}

// Whether some pair is left out, or read as another.
fn is_restated(method: Method, watches: bool, pairs: &[Pair]) -> bool
    ensures { result ≡ is_restated method watches pairs.now }
{
    pairs.iter().any(|pair| pair.is_left_out(method, watches) || pair.is_misread())
}

// A query with the pairs that are kept.
fn kept_query(
    alloc: Global,
    method: Method,
    watches: bool,
    pairs: &[Pair],
) -> Result<String, AllocError>
    ensures { IfOk result (λ query. string_bytes query ≡ extend_pairs [] (kept method watches pairs.now)) }
{
    let mut form = Serializer::new(String::new(alloc));
    for pair in pairs {
        if !pair.is_left_out(method, watches) {
            let value = pair.served_value(alloc)?;
            form.append_pair(&pair.name, value)?;
        }
    }
    Ok(form.finish())
}

// A path with a query, where there is one.
fn with_query(alloc: Global, path: &str, query: &str) -> Result<String, AllocError>
    ensures { IfOk result (λ target. string_bytes target ≡ with_query path.now query.now) }
{
    if query.is_empty() {
        String::from_str(alloc, path)
    } else {
        format!(in alloc; "{path}?{query}")
    }
}

/// A target's path with the pairs that are kept, where some pair is left out or read as another.
pub(crate) fn restated_target(
    alloc: Global,
    method: Method,
    watches: bool,
    path: &str,
    pairs: &[Pair],
) -> Result<Option<String>, AllocError>
    ensures { IfOk result (λ target. option_map string_bytes target
        ≡ if is_restated method watches pairs.now then Some (target_of path.now (kept method watches pairs.now)) else None) }
{
    if !is_restated(method, watches, pairs) {
        return Ok(None);
    }
    let query = kept_query(alloc, method, watches, pairs)?;
    Ok(Some(with_query(alloc, path, &query)?))
}
