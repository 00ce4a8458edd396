//! String literals.

ghost use Rattle.std.specs.Prelude.{◌≡◌, ◌<◌, length, option_map, IfOk, IfSome, MatchOption};
ghost use Rattle.celtokens.specs.Text.{after_three, after_one, after_delimiter, character, Inside, IsTextOf, HasNoEnd, HasNoTextOf, HasNoText, BestText};

use crate::class::first_quote;
use crate::escape::escape;
use crate::run::is_line_end;
use std::alloc::{AllocError, Global};

/// How a string is delimited and read.
#[derive(Clone, Copy)]
pub(crate) struct Style {
    /// Whether a backslash is a character like others.
    pub raw: bool,
    /// Whether three quotes delimit the string, and line ends may stand in it.
    pub tripled: bool,
    /// The double or single quote that delimits it.
    pub quote: char,
}

// What follows three of the quote.
fn after_three(chars: &[char], quote: char) -> Option<&[char]>
    ensures { option_map (λ x. x.now) result ≡ after_three quote chars.now }
{
    match chars {
        [first, second, third, rest @ ..]
            if *first == quote && *second == quote && *third == quote => Some(rest),
        _ => None,
    }
}

// What follows one of the quote.
fn after_one(chars: &[char], quote: char) -> Option<&[char]>
    ensures { option_map (λ x. x.now) result ≡ after_one quote chars.now }
{
    match chars {
        [first, rest @ ..] if *first == quote => Some(rest),
        _ => None,
    }
}

// What follows the delimiter of a string.
fn after_delimiter(chars: &[char], style: Style) -> Option<&[char]>
    ensures { option_map (λ x. x.now) result ≡ after_delimiter style chars.now }
{
    if style.tripled {
        after_three(chars, style.quote)
    } else {
        after_one(chars, style.quote)
    }
}

// The character in front of a string's rest, and what follows it.
fn character(chars: &[char], style: Style) -> Option<(char, &[char])>
    ensures value { option_map (λ x. (x.0, x.1.now)) result ≡ character style chars.now }
    ensures shorter { IfSome result (λ x. length x.1.now < length chars.now) }
{
    let Some((first, rest)) = chars.split_first() else {
        return None;
    };
    if *first == '\\' && !style.raw {
        escape(rest)
    } else if is_line_end(*first) && !style.tripled {
        None
    } else {
        Some((*first, rest))
    }
}

// The characters up to the first closing delimiter, and what follows that.
fn inside(
    alloc: Global,
    chars: &[char],
    style: Style,
) -> Result<Option<(Vec<char>, &[char])>, AllocError>
    ensures { IfOk result (λ o. MatchOption o (HasNoEnd style chars.now) (λ x. Inside style chars.now x.0.items x.1.now)) }
{
    let mut text = Vec::new(alloc);
    let mut rest = chars;
    'characters: loop {
        match after_delimiter(rest, style) {
            Some(beyond) => return Ok(Some((text, beyond))),
            None => match character(rest, style) {
                Some((next, after)) => {
                    text.push(next)?;
                    rest = after;
                }
                None => return Ok(None),
            },
        }
    }
}

// A string of a style: its characters, and what follows it.
fn styled(
    alloc: Global,
    chars: &[char],
    style: Style,
) -> Result<Option<(Vec<char>, &[char])>, AllocError>
    ensures { IfOk result (λ o. MatchOption o (HasNoTextOf style chars.now) (λ x. IsTextOf style chars.now x.0.items x.1.now)) }
{
    match after_delimiter(chars, style) {
        Some(inner) => inside(alloc, inner, style),
        None => Ok(None),
    }
}

/// The longest string, and what follows it.
pub(crate) fn text(
    alloc: Global,
    chars: &[char],
    raw: bool,
) -> Result<Option<(Vec<char>, &[char])>, AllocError>
    ensures { IfOk result (λ o. MatchOption o (HasNoText raw chars.now) (λ x. BestText raw chars.now x.0.items x.1.now)) }
{
    let Some(quote) = first_quote(chars) else {
        return Ok(None);
    };
    let tripled = styled(
        alloc,
        chars,
        Style {
            raw,
            tripled: true,
            quote,
        },
    )?;
    match tripled {
        Some(found) => Ok(Some(found)),
        None => styled(
            alloc,
            chars,
            Style {
                raw,
                tripled: false,
                quote,
            },
        ),
    }
}
