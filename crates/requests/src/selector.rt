// The text of a selector, and the documents that it selects.
ghost use Rattle.std.specs.Prelude.{◌≡◌, ◌==◌, ◌∷◌, [], map, string_bytes, IfOk, option_map};
ghost use Rattle.std.specs.List.{list_all, slice_split};
ghost use Rattle.documents.specs.Requirement.{is_there, is_absent, requirement_seen};
ghost use Rattle.requests.specs.Selector.{equals, differs, exclamation_mark, equals_sign, comma, is_value_byte, is_value, is_label_byte, is_label, parted, rest_after, on_label, on_pair, negated, equated, affirmed, requirement_of, requirements_of, selector_of, selects, selector_seen};

use documents::{Document, Requirement};
use std::alloc::{AllocError, Global};

/// A label selector of equality-based requirements (Kubernetes, "Labels and Selectors"), each of which must be met.
#[derive(Drop)]
pub struct Selector {
    pub requirements: Vec<Requirement>,
}

impl Selector {
    /// Reads a selector: the empty text, which asks nothing, or parts joined by commas, each `LABEL=VALUE`, `LABEL==VALUE`,
    /// `LABEL!=VALUE`, `LABEL` or `!LABEL`, without blanks. A label is one or more of `[A-Za-z0-9._/-]`, a value any number
    /// of `[A-Za-z0-9._-]`. `None` where the text is no selector.
    pub fn read(alloc: Global, text: &str) -> Result<Option<Selector>, AllocError>
        ensures { IfOk result (λ read. option_map selector_seen read ≡ selector_of text.now) }
    {
        if text.is_empty() {
            return Ok(Some(Selector {
                requirements: Vec::new(alloc),
            }));
        }
        let parts = parts_of(alloc, text)?;
        match requirements_of(alloc, &parts)? {
            Some(requirements) => Ok(Some(Selector { requirements })),
            None => Ok(None),
        }
    }

    /// Whether the document meets each requirement. A label is a text that is a member of `metadata.labels`.
    pub fn selects(&self, document: &Document) -> bool
        ensures { result ≡ selects (selector_seen self.now) document.now }
    {
        documents::selects(&self.requirements, document.json().value())
    }
}

// The parts of a text, between its commas.
fn parts_of<'t>(alloc: Global, text: &'t str) -> Result<Vec<&'t str>, AllocError>
    ensures { IfOk result (λ parts. map (λ part. part.now) parts.items ≡ slice_split (λ byte. byte == comma) text.now) }
{
    text.split(',').collect(alloc)
}

// What the parts ask, if each asks something.
fn requirements_of(alloc: Global, parts: &[&str]) -> Result<Option<Vec<Requirement>>, AllocError>
    ensures { IfOk result (λ read. option_map (λ v. map requirement_seen v.items) read ≡ requirements_of (map (λ part. part.now) parts.now)) }
{
    let mut requirements = Vec::new(alloc);
    for part in parts {
        match requirement_of(alloc, part)? {
            Some(requirement) => requirements.push(requirement)?,
            None => return Ok(None),
        }
    }
    Ok(Some(requirements))
}

// What a part asks, if it asks something.
fn requirement_of(alloc: Global, part: &str) -> Result<Option<Requirement>, AllocError>
    ensures { IfOk result (λ read. option_map requirement_seen read ≡ requirement_of part.now) }
{
    match at_exclamation_mark(part) {
        Some((before, after)) => negated(alloc, before, after),
        None => affirmed(alloc, part),
    }
}

// What a part without exclamation mark asks.
fn affirmed(alloc: Global, part: &str) -> Result<Option<Requirement>, AllocError>
    ensures { IfOk result (λ read. option_map requirement_seen read ≡ affirmed part.now) }
{
    match at_equals_sign(part) {
        Some((before, after)) => equated(alloc, before, after),
        None => has(alloc, part),
    }
}

// What `LABEL!=VALUE` or `!LABEL` asks.
fn negated(alloc: Global, before: &str, after: &str) -> Result<Option<Requirement>, AllocError>
    ensures { IfOk result (λ read. option_map requirement_seen read ≡ negated before.now after.now) }
{
    match after_equals_sign(after) {
        Some(value) => differs(alloc, before, value),
        None => {
            if before.is_empty() {
                lacks(alloc, after)
            } else {
                Ok(None)
            }
        }
    }
}

// What `LABEL=VALUE` or `LABEL==VALUE` asks.
fn equated(alloc: Global, before: &str, after: &str) -> Result<Option<Requirement>, AllocError>
    ensures { IfOk result (λ read. option_map requirement_seen read ≡ equated before.now after.now) }
{
    match after_equals_sign(after) {
        Some(value) => equals(alloc, before, value),
        None => equals(alloc, before, after),
    }
}

fn one_value(alloc: Global, value: &str) -> Result<Vec<String>, AllocError>
    ensures { IfOk result (λ values. map string_bytes values.items ≡ value.now ∷ []) }
{
    let mut values = Vec::new(alloc);
    values.push(String::from_str(alloc, value)?)?;
    Ok(values)
}

fn equals(alloc: Global, label: &str, value: &str) -> Result<Option<Requirement>, AllocError>
    ensures { IfOk result (λ read. option_map requirement_seen read ≡ on_pair equals label.now value.now) }
{
    if is_label(label) && is_value(value) {
        let values = one_value(alloc, value)?;
        let label = String::from_str(alloc, label)?;
        Ok(Some(Requirement::IsOneOf(label, values)))
    } else {
        Ok(None)
    }
}

fn differs(alloc: Global, label: &str, value: &str) -> Result<Option<Requirement>, AllocError>
    ensures { IfOk result (λ read. option_map requirement_seen read ≡ on_pair differs label.now value.now) }
{
    if is_label(label) && is_value(value) {
        let values = one_value(alloc, value)?;
        let label = String::from_str(alloc, label)?;
        Ok(Some(Requirement::IsNoneOf(label, values)))
    } else {
        Ok(None)
    }
}

fn has(alloc: Global, label: &str) -> Result<Option<Requirement>, AllocError>
    ensures { IfOk result (λ read. option_map requirement_seen read ≡ on_label is_there label.now) }
{
    if is_label(label) {
        Ok(Some(Requirement::IsThere(String::from_str(alloc, label)?)))
    } else {
        Ok(None)
    }
}

fn lacks(alloc: Global, label: &str) -> Result<Option<Requirement>, AllocError>
    ensures { IfOk result (λ read. option_map requirement_seen read ≡ on_label is_absent label.now) }
{
    if is_label(label) {
        Ok(Some(Requirement::IsAbsent(String::from_str(alloc, label)?)))
    } else {
        Ok(None)
    }
}

// ---- characters

fn at_exclamation_mark(text: &str) -> Option<(&str, &str)>
    ensures { option_map (λ parts. (parts.0.now, parts.1.now)) result ≡ parted exclamation_mark text.now }
{
    text.split_once('!')
}

fn at_equals_sign(text: &str) -> Option<(&str, &str)>
    ensures { option_map (λ parts. (parts.0.now, parts.1.now)) result ≡ parted equals_sign text.now }
{
    text.split_once('=')
}

fn after_equals_sign(text: &str) -> Option<&str>
    ensures { option_map (λ rest. rest.now) result ≡ rest_after equals_sign text.now }
{
    text.strip_prefix('=')
}

fn is_value_byte(byte: u8) -> bool
    ensures { result ≡ is_value_byte byte }
{
    byte.is_ascii_lowercase()
        || byte.is_ascii_uppercase()
        || byte.is_ascii_digit()
        || byte == b'.'
        || byte == b'_'
        || byte == b'-'
}

fn is_value(text: &str) -> bool
    ensures { result ≡ is_value text.now }
{
    text.as_bytes().iter().all(|byte| is_value_byte(*byte))
}

fn is_label_byte(byte: u8) -> bool
    ensures { result ≡ is_label_byte byte }
{
    is_value_byte(byte) || byte == b'/'
}

fn are_label_bytes(text: &str) -> bool
    ensures { result ≡ list_all is_label_byte text.now }
{
    text.as_bytes().iter().all(|byte| is_label_byte(*byte))
}

fn is_label(text: &str) -> bool
    ensures { result ≡ is_label text.now }
{
    !text.is_empty() && are_label_bytes(text)
}
