//! The notation of texts in rows.

use crate::given::document;
use crate::texts::put;
use cases::{TextBuilder, Wrong, numbered, text};
use std::alloc::Global;

/// How the texts of rows are written.
#[derive(Clone, Copy)]
pub(crate) enum Notation {
    /// As they are.
    Plain,
    /// As JSON strings.
    Json,
    /// With `COUNT PART` between backquotes for the part this many times, in which `#` is the number of the time, from 0.
    Repeated,
    /// The same, and blanks fill what is asked about up to 4096 bytes.
    Filled,
}

// The greatest count of a part.
const MOST_TIMES: u64 = 65536;

// The length of an expression that is filled: the longest that there is.
const FILLED_BYTES: usize = 4096;

// Adds `COUNT PART` written out: whether it is that.
fn put_times(alloc: Global, out: &mut TextBuilder, times: &str) -> bool {
    let Some((count, part)) = times.split_once(' ') else {
        return false;
    };
    match count.parse::<u64>() {
        Ok(count) if count <= MOST_TIMES => {
            for number in 0..count {
                match numbered(alloc, part, "#", number) {
                    Ok(piece) => out.push(piece.as_str()),
                    Err(wrong) => out.fail(wrong),
                }
            }
            true
        }
        _ => false,
    }
}

/// The text in which `COUNT PART` between backquotes is written out.
pub(crate) fn repeated(alloc: Global, written: &str) -> Result<String, Wrong> {
    let mut out = TextBuilder::new(alloc);
    let mut is_repeated = true;
    let mut is_right = true;
    for part in written.split('`') {
        is_repeated = !is_repeated;
        if is_repeated {
            is_right = put_times(alloc, &mut out, part) && is_right;
        } else {
            out.push(part);
        }
    }
    if !is_right || is_repeated {
        return Err(Wrong::Told(
            "two backquotes have a count of at most 65536, a blank and a text between them",
        ));
    }
    out.end()
}

fn json_text(alloc: Global, written: &str) -> Result<String, Wrong> {
    let document = document(alloc, written)?;
    match document.as_str() {
        Some(string) => text(alloc, string),
        None => Err(Wrong::Told("no JSON string")),
    }
}

fn filled(alloc: Global, written: &str) -> Result<String, Wrong> {
    let mut text = repeated(alloc, written)?;
    if text.len() > FILLED_BYTES {
        return Err(Wrong::Told("the text is longer than 4096 bytes"));
    }
    for _ in text.len()..FILLED_BYTES {
        put(&mut text, " ");
    }
    Ok(text)
}

impl Notation {
    /// What a row asks about.
    pub(crate) fn question(self, alloc: Global, written: &str) -> Result<String, Wrong> {
        match self {
            Notation::Filled => filled(alloc, written),
            _ => self.answer(alloc, written),
        }
    }

    /// What a row wants.
    pub(crate) fn answer(self, alloc: Global, written: &str) -> Result<String, Wrong> {
        match self {
            Notation::Plain => text(alloc, written),
            Notation::Json => json_text(alloc, written),
            Notation::Repeated | Notation::Filled => repeated(alloc, written),
        }
    }
}
