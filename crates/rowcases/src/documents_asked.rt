//! Questions on JSON documents, on objects as documents, and on what selectors make of documents that are no objects.

use crate::names_asked::resource;
use crate::texts::{document_text, made_text, or_empty, push_times};
use cases::{TextBuilder, Wrong, first_word, number, push_bytes, text, yes_or_no};
use documents::{
    Document, has_kind, has_metadata, metadata_copy, metadata_text, shown_document, shown_text,
};
use jsondoc::{Doc, JsonFault};
use requests::Selector;
use std::alloc::Global;

/// The document that bytes spell.
pub fn document(alloc: Global, bytes: &[u8]) -> Result<Doc, Wrong> {
    match Doc::read(alloc, bytes) {
        Ok(document) => Ok(document),
        Err(JsonFault::Memory) => Err(Wrong::Memory),
        Err(JsonFault::NotJson) => Err(Wrong::Told("no JSON")),
        Err(JsonFault::Number) => Err(Wrong::Told("a number that is not taken")),
    }
}

/// `json TEXT`: the text of what the bytes spell, read and copied, which must read to itself; or why they spell none.
pub fn read(alloc: Global, bytes: &[u8]) -> Result<String, Wrong> {
    match document(alloc, bytes) {
        Ok(document) => {
            let written = made_text(alloc, document.clone());
            drop(document);
            match written {
                Ok(written) => read_again(alloc, written.as_str()),
                Err(wrong) => Err(wrong),
            }
        }
        Err(Wrong::Told(why)) => text(alloc, why),
        Err(wrong) => Err(wrong),
    }
}

// The text, which must be that of the document that it spells.
fn read_again(alloc: Global, written: &str) -> Result<String, Wrong> {
    let document = document(alloc, written.as_bytes())?;
    let again = document_text(alloc, &document);
    drop(document);
    match again {
        Ok(again) if again.as_str() == written => Ok(again),
        Ok(_) => Err(Wrong::Told("its text reads to another document")),
        Err(wrong) => Err(wrong),
    }
}

/// `json-bytes HEX ..`: the same of bytes.
pub fn read_hex(alloc: Global, text: &str) -> Result<String, Wrong> {
    let mut bytes = Vec::new(alloc);
    push_bytes(&mut bytes, text)?;
    read(alloc, bytes.as_slice())
}

/// `nested N`: this many lists, one in another; `string N`: a string of this many characters. `the same`, where the text of these four
/// parts, of which the two in the middle stand this many times each, is read and written as it is.
pub fn repeated(
    alloc: Global,
    text: &str,
    (front, first, second, back): (&str, &str, &str, &str),
) -> Result<String, Wrong> {
    let times = number(text)?;
    let mut made = TextBuilder::new(alloc);
    made.push(front);
    push_times(&mut made, times, first);
    push_times(&mut made, times, second);
    made.push(back);
    let spelled = made.end()?;
    let read = read(alloc, spelled.as_bytes())?;
    if read.as_str() == spelled.as_str() {
        return self::text(alloc, "the same");
    }
    Ok(read)
}

/// `shown REVISION JSON`: the stored document, copied, as it is shown with a revision.
pub fn shown(alloc: Global, text: &str) -> Result<String, Wrong> {
    let (revision, json) = first_word(text);
    let revision = number(revision)?;
    let stored = Document::new(alloc, document(alloc, json.as_bytes())?)?;
    let shown = copy_shown(alloc, &stored, revision);
    drop(stored);
    shown
}

// The text of a copy as it is shown, which must be that of the document that shows it.
fn copy_shown(alloc: Global, stored: &Document, revision: u64) -> Result<String, Wrong> {
    match stored.clone() {
        Ok(copy) => {
            let shown = made_text(alloc, shown_document(alloc, &copy, revision));
            let written = shown_text(alloc, &copy, revision);
            drop(copy);
            same_text(shown?, written?)
        }
        Err(_) => Err(Wrong::Memory),
    }
}

fn same_text(shown: String, written: String) -> Result<String, Wrong> {
    if shown.as_str() == written.as_str() {
        Ok(written)
    } else {
        Err(Wrong::Told("written as another text than it has"))
    }
}

/// `selects TEXT JSON`, `-` for the empty text: whether this selector selects the document.
pub fn selects(alloc: Global, text: &str) -> Result<String, Wrong> {
    let (selector, json) = first_word(text);
    let selector = Selector::read(alloc, or_empty(selector))?;
    let Some(selector) = selector else {
        return Err(Wrong::Told("no selector"));
    };
    let document = Document::new(alloc, document(alloc, json.as_bytes())?)?;
    let is_selected = selector.selects(&document);
    drop(document);
    yes_or_no(alloc, is_selected)
}

/// What is asked of the document of an object, which stands last in the question.
pub fn of_document(alloc: Global, word: &str, rest: &str) -> Result<String, Wrong> {
    let (part, json) = match word {
        "has-kind" | "has-metadata" | "metadata" => first_word(rest),
        _ => ("", rest),
    };
    let document = document(alloc, json.as_bytes())?;
    let answer = answer(alloc, word, part, &document);
    drop(document);
    answer
}

// `has-kind RESOURCE JSON`: whether the document is of that kind. `has-metadata RESOURCE JSON`: whether its metadata is that of an object of it.
// `metadata NAME JSON`: that text of the metadata. `copied-metadata JSON`: the metadata, copied.
fn answer(alloc: Global, word: &str, part: &str, document: &Doc) -> Result<String, Wrong> {
    match word {
        "has-kind" => match resource(part) {
            Ok(resource) => yes_or_no(alloc, has_kind(resource, document)),
            Err(wrong) => Err(wrong),
        },
        "has-metadata" => match resource(part) {
            Ok(resource) => yes_or_no(alloc, has_metadata(resource, document)),
            Err(wrong) => Err(wrong),
        },
        "metadata" => text(alloc, metadata_text(document, part).unwrap_or("none")),
        _ => made_text(alloc, metadata_copy(document)),
    }
}
