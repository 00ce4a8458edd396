//! The tokens of a text.

ghost use Rattle.std.specs.Prelude.{◌≡◌, IfOk, MatchOption, chars};
ghost use Rattle.celtokens.specs.Lexes.{Lexes, HasNoTokens, OneReading};
ghost use Rattle.celtokens.specs.Seen.{terminals};

use crate::lexeme::lexeme;
use crate::token::Token;
use std::alloc::{AllocError, Global};

/// The characters of a text, for [`tokens`] to cut up.
///
/// # Errors
///
/// Only when out of memory.
pub fn characters(alloc: Global, text: &str) -> Result<Vec<char>, AllocError>
    ensures { IfOk result (λ v. v.items ≡ chars text.now) }
{
    text.chars().collect(alloc)
}

/// The tokens of a text, or `None` if it has no token sequence: if somewhere no lexeme begins, as at a lone `&` or in a string
/// without an end.
///
/// # Errors
///
/// Only when out of memory.
pub fn tokens<'a>(alloc: Global, chars: &'a [char]) -> Result<Option<Vec<Token<'a>>>, AllocError>
    ensures { IfOk result (λ o. MatchOption o (HasNoTokens chars.now) (λ v. Lexes chars.now (terminals v.items))) }
{
    let mut tokens = Vec::new(alloc);
    let mut rest = chars;
    'lexemes: while !rest.is_empty() {
        match lexeme(alloc, rest)? {
            Some((part, beyond)) => {
                if let Some(token) = part {
                    tokens.push(token)?;
                }
                rest = beyond;
            }
            None => return Ok(None),
        }
    }
    Ok(Some(tokens))
}

/// The law that a text has at most one token sequence, as a contract to cite.
pub fn one_reading()
    ensures { OneReading }
{}
