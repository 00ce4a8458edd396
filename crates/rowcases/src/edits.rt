//! A document that is made by its calls, member by member.

use crate::texts::{document_text, made_text};
use cases::{Wrong, first_word, shown, text};
use jsondoc::Doc;
use std::alloc::Global;

// A value made without reading: nothing, an empty list, an empty object, a text or a number.
fn made(alloc: Global, text: &str) -> Result<Doc, Wrong> {
    match text {
        "null" => return Ok(Doc::null()),
        "[]" => return Ok(Doc::empty_list(alloc)),
        "{}" => return Ok(Doc::empty_object(alloc)),
        _ => {}
    }
    if let Some(inner) = text.strip_prefix('"').unwrap_or("").strip_suffix('"') {
        return match String::from_str(alloc, inner) {
            Ok(text) => Ok(Doc::from(text)),
            Err(_) => Err(Wrong::Memory),
        };
    }
    match text.parse::<i64>() {
        Ok(number) => Ok(Doc::from(number)),
        Err(_) => Err(Wrong::Told("no value that can be made")),
    }
}

// Adds the words to a list, each made.
fn push_items(alloc: Global, list: &mut Doc, items: &str) -> Result<(), Wrong> {
    for item in items.split_whitespace() {
        list.push(made(alloc, item)?)?;
    }
    Ok(())
}

// A list of the words, each made; anything else made as it is.
fn made_or_list(alloc: Global, text: &str) -> Result<Doc, Wrong> {
    let Some(items) = text.strip_prefix("list ") else {
        return made(alloc, text);
    };
    let mut list = Doc::empty_list(alloc);
    match push_items(alloc, &mut list, items) {
        Ok(()) => Ok(list),
        Err(wrong) => {
            drop(list);
            Err(wrong)
        }
    }
}

/// `put MEMBER VALUE`: puts a member, and gives the document's text.
pub fn put(alloc: Global, document: &mut Doc, text: &str) -> Result<String, Wrong> {
    let (member, value) = first_word(text);
    let value = made_or_list(alloc, value)?;
    match document.put(alloc, member, value) {
        Ok(()) => document_text(alloc, document),
        Err(_) => Err(Wrong::Memory),
    }
}

/// `member NAME`: the member's text, found and copied.
pub fn member(alloc: Global, document: &Doc, name: &str) -> Result<String, Wrong> {
    match document.get(name) {
        Some(value) => made_text(alloc, Doc::copy_of(value)),
        None => text(alloc, "none"),
    }
}

/// `characters NAME`: the member's characters, if it is a text.
pub fn characters(alloc: Global, document: &Doc, name: &str) -> Result<String, Wrong> {
    match document.get(name) {
        Some(value) => text(alloc, value.as_str().unwrap_or("none")),
        None => text(alloc, "none"),
    }
}

/// `remove NAME`: what was removed.
pub fn remove(alloc: Global, document: &mut Doc, name: &str) -> Result<String, Wrong> {
    match document.remove(name) {
        Some(removed) => made_text(alloc, Ok(removed)),
        None => text(alloc, "none"),
    }
}

/// `members`: how many the document has.
pub fn members(alloc: Global, document: &Doc) -> Result<String, Wrong> {
    match document.as_object() {
        Some(members) if document.value().is_object() => shown(alloc, &members.len()),
        _ => Err(Wrong::Told("no object")),
    }
}

/// `items NAME`: how many the list has that is this member.
pub fn items(alloc: Global, document: &Doc, name: &str) -> Result<String, Wrong> {
    let Some(value) = document.get(name) else {
        return text(alloc, "none");
    };
    let Ok(list) = Doc::copy_of(value) else {
        return Err(Wrong::Memory);
    };
    let length = match list.as_array() {
        Some(items) => shown(alloc, &items.len()),
        None => text(alloc, "none"),
    };
    drop(list);
    length
}
