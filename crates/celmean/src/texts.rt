//! Texts.

ghost use Rattle.std.specs.Prelude.{◌≡◌, ◌==◌, slice_index, length, chars, string_bytes, decimal, IfOk};
ghost use Rattle.std.specs.Fmt.{signed_decimal};
ghost use Rattle.celmean.specs.Texts.{text_starts_with, text_ends_with, text_contains, text_size, signed_of_text, unsigned_of_text};
ghost use Rattle.celmean.specs.Seen.{outcome_of};

use crate::value::{Outcome, Value};
use std::alloc::{AllocError, Global};

/// Whether the first text begins with the second.
pub(crate) fn starts_with(whole: &str, part: &str) -> bool
    ensures { result ≡ text_starts_with whole.now part.now }
{
    whole.as_bytes().starts_with(part.as_bytes())
}

/// Whether the first text ends with the second.
pub(crate) fn ends_with(whole: &str, part: &str) -> bool
    ensures { result ≡ text_ends_with whole.now part.now }
{
    whole.as_bytes().ends_with(part.as_bytes())
}

/// Whether the second text stands somewhere in the first.
pub(crate) fn contains(whole: &str, part: &str) -> bool
    ensures { result ≡ text_contains whole.now part.now }
{
    let part = part.as_bytes();
    let mut rest = whole.as_bytes();
    'places: loop {
        if rest.starts_with(part) {
            return true;
        }
        match rest.split_first() {
            Some((_, after)) => rest = after,
            None => return false,
        }
    }
}

fn count_chars(text: &str) -> usize
    ensures { result ≡ length (chars text.now) }
{
    text.chars().count()
}

/// How many code points the text has.
pub(crate) fn text_size(text: &str) -> Outcome
    ensures { outcome_of result ≡ text_size text.now }
{
    match i64::try_from(count_chars(text)) {
        Ok(size) => Outcome::Gives(Value::Int(size)),
        Err(_) => Outcome::Error,
    }
}

// Whether a plus sign stands in front: `parse` takes one, and a conversion does not.
fn has_plus(text: &str) -> bool
    ensures { result ≡ (slice_index text.now 0 == 43) }
{
    match text.as_bytes().first() {
        Some(byte) => *byte == b'+',
        None => false,
    }
}

/// The number of decimal digits, perhaps after a minus sign.
pub(crate) fn signed_of_text(text: &str) -> Outcome
    ensures { outcome_of result ≡ signed_of_text text.now }
{
    if has_plus(text) {
        return Outcome::Error;
    }
    match text.parse::<i64>() {
        Ok(number) => Outcome::Gives(Value::Int(number)),
        Err(_) => Outcome::Error,
    }
}

/// The number of decimal digits.
pub(crate) fn unsigned_of_text(text: &str) -> Outcome
    ensures { outcome_of result ≡ unsigned_of_text text.now }
{
    if has_plus(text) {
        return Outcome::Error;
    }
    match text.parse::<u64>() {
        Ok(number) => Outcome::Gives(Value::Uint(number)),
        Err(_) => Outcome::Error,
    }
}

/// The decimal digits of a number, after a minus sign if it is negative.
pub(crate) fn signed_text(alloc: Global, number: i64) -> Result<String, AllocError>
    ensures { IfOk result (λ s. string_bytes s ≡ signed_decimal number) }
{
    number.to_string(alloc)
}

/// The decimal digits of a number.
pub(crate) fn unsigned_text(alloc: Global, number: u64) -> Result<String, AllocError>
    ensures { IfOk result (λ s. string_bytes s ≡ decimal number) }
{
    number.to_string(alloc)
}
