//! Texts that are made.

use std::fmt::{Display, Write};

/// Adds to the text. When out of memory, the text is too short, and the comparison fails.
pub(crate) fn put(out: &mut String, part: &str) {
    let _ = out.push_str(part);
}

/// Adds what a value shows.
pub(crate) fn show<T: Display>(out: &mut String, value: &T) {
    let _ = write!(out, "{value}");
}

/// Adds another text that should be the same, after these words, where it is not.
pub(crate) fn put_other(out: &mut String, words: &str, other: &str) {
    if out.as_str() != other {
        put(out, words);
        put(out, other);
    }
}
