//! The words, numbers and bytes of a line.

use crate::text_builder::TextBuilder;
use crate::wrong::Wrong;
use std::alloc::Global;
use std::fmt::Display;

/// An answer that is a text.
///
/// # Errors
///
/// Out of memory.
pub fn text(alloc: Global, text: &str) -> Result<String, Wrong> {
    Ok(String::from_str(alloc, text)?)
}

/// `yes` or `no`.
///
/// # Errors
///
/// Out of memory.
pub fn yes_or_no(alloc: Global, holds: bool) -> Result<String, Wrong> {
    text(alloc, if holds { "yes" } else { "no" })
}

/// The first word of a text, and what stands after the blank that follows it.
pub fn first_word(text: &str) -> (&str, &str) {
    match text.split_once(' ') {
        Some((word, rest)) => (word, rest),
        None => (text, ""),
    }
}

/// A text in which a number stands for each mark.
///
/// # Errors
///
/// Out of memory.
pub fn numbered(alloc: Global, text: &str, mark: &str, number: u64) -> Result<String, Wrong> {
    let number = shown(alloc, &number)?;
    let numbered = text.replace(alloc, mark, number.as_str());
    drop(number);
    Ok(numbered?)
}

/// The number that a text spells in decimal digits.
///
/// # Errors
///
/// Where it spells none below 2^64.
pub fn number(text: &str) -> Result<u64, Wrong> {
    match text.parse::<u64>() {
        Ok(number) => Ok(number),
        Err(_) => Err(Wrong::Told("no number")),
    }
}

/// Adds the bytes of a text, two hex digits each, with blanks between them.
///
/// # Errors
///
/// Where a word is no byte, or out of memory.
pub fn push_bytes(bytes: &mut Vec<u8>, text: &str) -> Result<(), Wrong> {
    for word in text.split_whitespace() {
        match u8::from_str_radix(word, 16) {
            Ok(byte) if word.len() == 2 => bytes.push(byte)?,
            _ => return Err(Wrong::Told("a byte is two hex digits")),
        }
    }
    Ok(())
}

/// Bytes as lines have them: two hex digits each, with blanks between them.
///
/// # Errors
///
/// Out of memory.
pub fn spelled(alloc: Global, bytes: &[u8]) -> Result<String, Wrong> {
    let mut text = TextBuilder::new(alloc);
    text.spell(bytes);
    text.end()
}

/// What a value shows.
///
/// # Errors
///
/// Out of memory.
pub fn shown<T: Display>(alloc: Global, value: &T) -> Result<String, Wrong> {
    Ok(value.to_string(alloc)?)
}
