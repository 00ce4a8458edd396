//! Texts of a row, and of the documents that it makes.

use cases::{TextBuilder, Wrong, number};
use jsondoc::Doc;
use std::alloc::{AllocError, Global};

/// A document's text.
pub fn document_text(alloc: Global, document: &Doc) -> Result<String, Wrong> {
    match document.text(alloc) {
        Ok(text) => Ok(text),
        Err(_) => Err(Wrong::Memory),
    }
}

/// The text of a document that was made, where memory sufficed for it.
pub fn made_text(alloc: Global, made: Result<Doc, AllocError>) -> Result<String, Wrong> {
    match made {
        Ok(document) => {
            let text = document_text(alloc, &document);
            drop(document);
            text
        }
        Err(_) => Err(Wrong::Memory),
    }
}

/// What stands in front of a separator and what after it: the text and nothing, where it is not there.
pub fn parted<'a>(text: &'a str, separator: &str) -> (&'a str, &'a str) {
    match text.split_once(separator) {
        Some(parts) => parts,
        None => (text, ""),
    }
}

/// Adds a piece this many times.
pub fn push_times(made: &mut TextBuilder, times: u64, piece: &str) {
    for _ in 0..times {
        made.push(piece);
    }
}

/// A text between quotes, in which `\0` is the character 0; with ` xN` after it, N times.
pub fn quoted(alloc: Global, text: &str) -> Result<String, Wrong> {
    let Some((front, after)) = text.rsplit_once('\'') else {
        return Err(Wrong::Told("a text stands between quotes"));
    };
    let Some(inner) = front.strip_prefix('\'') else {
        return Err(Wrong::Told("a text stands between quotes"));
    };
    let times = number(after.strip_prefix(" x").unwrap_or("1"))?;
    let Ok(inner) = inner.replace(alloc, "\\0", "\0") else {
        return Err(Wrong::Memory);
    };
    let mut made = TextBuilder::new(alloc);
    push_times(&mut made, times, inner.as_str());
    made.end()
}

/// A word of a row, in which `-` stands for the empty text.
pub fn or_empty(word: &str) -> &str {
    if word == "-" { "" } else { word }
}

/// A word of a row for a text, `-` for the empty one.
pub fn or_dash(text: &str) -> &str {
    if text.is_empty() { "-" } else { text }
}
