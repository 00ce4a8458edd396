//! Payloads, entries and keys, as lines have them.

use crate::line::Line;
use cases::{Wrong, number, push_bytes};
use names::{Key, KeyFault, Resource};
use records::Entry;
use std::alloc::{AllocError, Global};

/// The byte of two hex digits.
///
/// # Errors
///
/// Where the word is no byte.
pub fn byte(word: &str) -> Result<u8, Wrong> {
    match u8::from_str_radix(word, 16) {
        Ok(byte) => Ok(byte),
        Err(_) => Err(Wrong::Told("a byte is two hex digits")),
    }
}

// Adds bytes in hex, or `BYTES xN`, this many times those bytes.
fn add_bytes(payload: &mut Vec<u8>, part: &str) -> Result<(), Wrong> {
    let (hex, times) = match part.split_once(" x") {
        Some(both) => both,
        None => (part, "1"),
    };
    for _ in 0..number(times)? {
        push_bytes(payload, hex)?;
    }
    Ok(())
}

// Adds a part: `'TEXT'`, or bytes.
fn add_part(payload: &mut Vec<u8>, part: &str) -> Result<(), Wrong> {
    let quoted = match part.strip_prefix('\'') {
        Some(rest) => rest.strip_suffix('\''),
        None => None,
    };
    match quoted {
        Some(text) => Ok(payload.extend_from_slice(text.as_bytes())?),
        None => add_bytes(payload, part),
    }
}

impl Line<'_> {
    /// The parts of a text, with a separator between them.
    pub fn parts<'a>(&mut self, alloc: Global, text: &'a str, separator: &str) -> Vec<&'a str> {
        let mut parts = Vec::new(alloc);
        for part in text.split(separator) {
            if parts.push(part).is_err() {
                self.fail(Wrong::Memory);
            }
        }
        parts
    }

    /// The bytes of a payload: its parts, with ` + ` between them.
    pub fn payload(&mut self, alloc: Global, text: &str) -> Vec<u8> {
        let mut payload = Vec::new(alloc);
        for part in &self.parts(alloc, text, " + ") {
            if let Err(wrong) = add_part(&mut payload, part) {
                self.fail(wrong);
            }
        }
        payload
    }

    /// The payloads of the rest, with ` ; ` between them; none where it is empty.
    pub fn payloads(&mut self, alloc: Global) -> Vec<Vec<u8>> {
        let mut found = Vec::new(alloc);
        if self.rest.is_empty() {
            return found;
        }
        for one in &self.parts(alloc, self.rest, " ; ") {
            let payload = self.payload(alloc, one);
            if found.push(payload).is_err() {
                self.fail(Wrong::Memory);
            }
        }
        found
    }

    /// An entry: `KEY ; CELL`, each spelled as a payload.
    pub fn entry(&mut self, alloc: Global, text: &str) -> Entry {
        let (key, cell) = match text.split_once(" ; ") {
            Some(both) => both,
            None => {
                self.refuse("an entry is a key and a cell");
                ("", "")
            }
        };
        let key = self.payload(alloc, key);
        Entry::new(key, self.payload(alloc, cell))
    }

    /// The key of an object, if it can have one.
    pub fn key(
        &mut self,
        alloc: Global,
        resource: Resource,
        namespace: &str,
        name: &str,
    ) -> Option<Key> {
        match Key::new(alloc, resource, namespace, name) {
            Ok(key) => Some(key),
            Err(KeyFault::NoKey) => {
                self.refuse("no key");
                None
            }
            Err(KeyFault::Memory) => {
                self.fail(Wrong::Memory);
                None
            }
        }
    }

    /// Adds the key of an object, in three words.
    pub fn show_key(&mut self, key: &Key) {
        self.answer.word(key.resource().plural());
        self.answer.word(key.namespace());
        self.answer.word(key.name());
    }

    /// Adds the text of a document, as a word.
    pub fn show_text(&mut self, text: Result<String, AllocError>) {
        match text {
            Ok(text) => self.answer.word(text.as_str()),
            Err(_) => self.fail(Wrong::Memory),
        }
    }
}
