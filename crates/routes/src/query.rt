//! Queries: their pairs, and what they ask of a collection.

ghost use Rattle.std.specs.Prelude.{◌≡◌, IfOk, option_map, option_and_then, string_bytes};
ghost use Rattle.std.specs.List.{list_all};
ghost use Rattle.std.specs.Str.{bytes_eq};
ghost use Rattle.routes.specs.Query.{pairs_of, has_pairs, value_of, is_served, is_at_most_once, has_known_names, truth_of, watches, begins_above_zero, revision_of, watched, listed, question_by, question_of};
ghost use Rattle.routes.specs.QuestionOf.{question_seen};

use form_urlencoded::{parse, raw_pairs};
use requests::Selector;
use std::alloc::{AllocError, Global};
use std::marker::Model;

/// Whether a query has a pair.
pub(crate) fn has_pairs(query: &str) -> bool
    ensures { result ≡ has_pairs query.now }
{
    raw_pairs(query.as_bytes()).next().is_some()
}

// A name and its value, decoded.
#[derive(Drop)]
struct Pair {
    name: String,
    value: String,
}

impl Model for Pair {
    ghost use Rattle.routes.specs.Query.{Pair as PairData};

    ghost Value = { PairData };

    ghost use Rattle.std.specs.Prelude.{string_bytes};

    ghost view = { λ p. (string_bytes p.name, string_bytes p.value) };
}

impl Pair {
    fn new(name: String, value: String) -> Pair
        ensures { result ≡ (string_bytes name, string_bytes value) }
    {
        Pair { name, value }
    }

    fn value(&self) -> &str
        ensures { result.now ≡ self.now.1 }
    {
        &self.value
    }

    // Whether the pair has this name.
    fn is_named(&self, name: &str) -> bool
        ensures { result ≡ bytes_eq self.now.0 name.now }
    {
        self.name.as_str() == name
    }

    // Whether its name may stand in the query of a collection.
    fn is_served(&self) -> bool
        ensures { result ≡ is_served self.now.0 }
    {
        self.is_named("labelSelector") || self.is_named("watch") || self.is_named("resourceVersion")
    }
}

// The pairs of a query, decoded.
fn pairs_of(alloc: Global, query: &str) -> Result<Vec<Pair>, AllocError>
    ensures { IfOk result (λ pairs. pairs.items ≡ pairs_of query.now) }
{
    let mut pairs = Vec::new(alloc);
    for pair in parse(alloc, query.as_bytes()).into_owned() {
        let (name, value) = pair?;
        pairs.push(Pair::new(name, value))?;
    }
    Ok(pairs)
}

// Whether no two pairs have this name.
fn is_at_most_once(pairs: &[Pair], name: &str) -> bool
    ensures { result ≡ is_at_most_once name.now pairs.now }
{
    pairs.iter().filter(|pair| pair.is_named(name)).count() < 2
}

// The value of the first pair with this name.
fn value_of<'q>(pairs: &'q [Pair], name: &str) -> Option<&'q str>
    ensures { option_map (λ value. value.now) result ≡ value_of name.now pairs.now }
{
    pairs
        .iter()
        .find(|pair| pair.is_named(name))
        .map(|pair| pair.value())
}

fn are_served(pairs: &[Pair]) -> bool
    ensures { result ≡ list_all (λ pair. is_served pair.0) pairs.now }
{
    pairs.iter().all(|pair| pair.is_served())
}

// Whether each name may stand in the query of a collection, and none stands twice.
fn has_known_names(pairs: &[Pair]) -> bool
    ensures { result ≡ has_known_names pairs.now }
{
    are_served(pairs)
        && is_at_most_once(pairs, "labelSelector")
        && is_at_most_once(pairs, "watch")
        && is_at_most_once(pairs, "resourceVersion")
}

// Whether a value of `watch` asks for a watch, if it is one of the four that there are.
fn truth_of(text: &str) -> Option<bool>
    ensures { result ≡ truth_of text.now }
{
    match text {
        "true" | "1" => Some(true),
        "false" | "0" => Some(false),
        _ => None,
    }
}

// Whether a watch is asked for; not without `watch`.
fn watches(value: Option<&str>) -> Option<bool>
    ensures { result ≡ watches (option_map (λ text. text.now) value.entry) }
{
    match value {
        Some(text) => truth_of(text),
        None => Some(false),
    }
}

fn begins_above_zero(text: &str) -> bool
    ensures { result ≡ begins_above_zero text.now }
{
    match text.as_bytes().first() {
        Some(byte) => *byte > b'0' && *byte <= b'9',
        None => false,
    }
}

// The revision that a text spells: decimal digits, of which the first is not zero, below 2^64.
fn revision_of(text: &str) -> Option<u64>
    ensures { result ≡ revision_of text.now }
{
    if begins_above_zero(text) {
        text.parse().ok()
    } else {
        None
    }
}

/// What a query asks of a collection.
#[derive(Drop)]
pub(crate) enum Question {
    /// The objects that this selects.
    Objects(Selector),
    /// The events above this revision; nothing where no revision is spelled.
    Events(Option<u64>),
}

// What a watch asks: it takes no selector.
fn watched(selector: Option<&str>, version: Option<&str>) -> Option<Question>
    ensures { option_map question_seen result ≡ watched (option_map (λ text. text.now) selector.entry) (option_map (λ text. text.now) version.entry) }
{
    match selector {
        None => Some(Question::Events(revision_in(version))),
        Some(_) => None,
    }
}

fn revision_in(version: Option<&str>) -> Option<u64>
    ensures { result ≡ option_and_then revision_of (option_map (λ text. text.now) version.entry) }
{
    match version {
        Some(text) => revision_of(text),
        None => None,
    }
}

// What a list asks: it takes no revision, and without a selector it selects each object.
fn listed(
    alloc: Global,
    selector: Option<&str>,
    version: Option<&str>,
) -> Result<Option<Question>, AllocError>
    ensures { IfOk result (λ question. option_map question_seen question ≡ listed (option_map (λ text. text.now) selector.entry) (option_map (λ text. text.now) version.entry)) }
{
    match version {
        None => Ok(match Selector::read(alloc, selector.unwrap_or(""))? {
            Some(selector) => Some(Question::Objects(selector)),
            None => None,
        }),
        Some(_) => Ok(None),
    }
}

// What the values of the three names ask together, where they go together.
fn question_by(
    alloc: Global,
    selector: Option<&str>,
    watch: Option<&str>,
    version: Option<&str>,
) -> Result<Option<Question>, AllocError>
    ensures { IfOk result (λ question. option_map question_seen question
        ≡ question_by (option_map (λ text. text.now) selector.entry) (option_map (λ text. text.now) watch.entry) (option_map (λ text. text.now) version.entry)) }
{
    match watches(watch) {
        Some(true) => Ok(watched(selector, version)),
        Some(false) => listed(alloc, selector, version),
        None => Ok(None),
    }
}

// What the pairs of a query ask of a collection, if they may stand there.
fn question_of(alloc: Global, pairs: &[Pair]) -> Result<Option<Question>, AllocError>
    ensures { IfOk result (λ question. option_map question_seen question ≡ question_of pairs.now) }
{
    if !has_known_names(pairs) {
        return Ok(None);
    }
    question_by(
        alloc,
        value_of(pairs, "labelSelector"),
        value_of(pairs, "watch"),
        value_of(pairs, "resourceVersion"),
    )
}

/// What a query asks of a collection, if it may stand there.
pub(crate) fn question_in(alloc: Global, query: &str) -> Result<Option<Question>, AllocError>
    ensures { IfOk result (λ question. option_map question_seen question ≡ question_of (pairs_of query.now)) }
{
    let pairs = pairs_of(alloc, query)?;
    question_of(alloc, &pairs)
}
