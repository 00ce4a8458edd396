//! Literals.

ghost use Rattle.std.specs.Prelude.{◌≡◌, ◌<◌, ◌≤◌, ◌^◌, pos, neg_ℤ, length, option_map, string_bytes, encode_utf8_all, IfOk, IfSome, OnSome, MatchOption};
ghost use Rattle.celtokens.specs.Seen.{number, terminal, terminals};
ghost use Rattle.celtokens.specs.Literal.{Literal, literal_of};
ghost use Rattle.celtree.specs.View.{view};
ghost use Rattle.celtokens.specs.Ahead.{HasNoLiteral, IsNegative, HasNoNegative, IsNegativeInt, IsNoNegativeInt};

use crate::ahead::{after, first};
use crate::sign::Sign;
use crate::token::{Number, Token};
use celtree::Tree;
use std::alloc::{AllocError, Global};

fn signed(digits: Number<'_>) -> Option<i64>
    ensures { MatchOption result (2 ^ 63 ≤ number digits.entry) (λ v. (number digits.entry < 2 ^ 63) × (v ≡ pos (number digits.entry))) }
{
    let Some(value) = digits.value() else {
        return None;
    };
    i64::try_from(value).ok()
}

// The negative of the number.
fn negative(digits: Number<'_>) -> Option<i64>
    ensures { MatchOption result (2 ^ 63 < number digits.entry) (λ v. (number digits.entry ≤ 2 ^ 63) × (v ≡ neg_ℤ (pos (number digits.entry)))) }
{
    let Some(value) = digits.value() else {
        return None;
    };
    0i64.checked_sub_unsigned(value)
}

/// The text of the characters.
///
/// # Errors
///
/// [`AllocError`] when out of memory.
pub fn text_of(alloc: Global, chars: &[char]) -> Result<String, AllocError>
    ensures { IfOk result (λ s. string_bytes s ≡ encode_utf8_all chars.now) }
{
    chars.iter().copied().collect::<String>(alloc)
}

// The tree of a literal of one token.
fn one_token(alloc: Global, token: &Token<'_>) -> Result<Option<Box<Tree>>, AllocError>
    ensures { IfOk result (λ o. option_map (λ t. view t.value) o ≡ literal_of (terminal token.now)) }
{
    let tree = match token {
        Token::Int(digits) => match signed(*digits) {
            Some(value) => Tree::Int(value),
            None => return Ok(None),
        },
        Token::Uint(digits) => match digits.value() {
            Some(value) => Tree::Uint(value),
            None => return Ok(None),
        },
        Token::Text(text) => Tree::Text(text_of(alloc, text)?),
        Token::True => Tree::Bool(true),
        Token::False => Tree::Bool(false),
        Token::Null => Tree::Null,
        _ => return Ok(None),
    };
    let tree = Box::new(alloc, tree)?;
    Ok(Some(tree))
}

fn negative_int(token: &Token<'_>) -> Option<i64>
    ensures { MatchOption result (IsNoNegativeInt (terminal token.now)) (λ v. IsNegativeInt (terminal token.now) v) }
{
    match token {
        Token::Int(digits) => negative(*digits),
        _ => None,
    }
}

// `-` and an INT token.
fn negative_literal<'a, 'b>(tokens: &'b [Token<'a>]) -> Option<(i64, &'b [Token<'a>])>
    ensures value { MatchOption result (HasNoNegative (terminals tokens.now)) (λ x. IsNegative (terminals tokens.now) x.0 (terminals x.1.now)) }
    ensures shorter { IfSome result (λ x. length x.1.now < length tokens.now) }
{
    match after(tokens, Sign::Minus) {
        Some(beyond) => match first(beyond) {
            Some((token, rest)) => match negative_int(token) {
                Some(value) => Some((value, rest)),
                None => None,
            },
            None => None,
        },
        None => None,
    }
}

/// The tree of the literal in front, if there is one, and what follows it (CEL language definition, "Syntax").
///
/// # Errors
///
/// [`AllocError`] when out of memory.
pub fn literal_at<'a, 'b>(
    alloc: Global,
    tokens: &'b [Token<'a>],
) -> Result<(Option<Box<Tree>>, &'b [Token<'a>]), AllocError>
    ensures value { IfOk result (λ x. MatchOption x.0 (HasNoLiteral (terminals tokens.now)) (λ t. Literal (terminals tokens.now) (view t.value) (terminals x.1.now))) }
    ensures shorter { IfOk result (λ x. OnSome x.0 (length x.1.now < length tokens.now)) }
{
    match first(tokens) {
        Some((token, rest)) => match one_token(alloc, token)? {
            Some(tree) => Ok((Some(tree), rest)),
            None => match negative_literal(tokens) {
                Some((value, beyond)) => {
                    let tree = Box::new(alloc, Tree::Int(value))?;
                    Ok((Some(tree), beyond))
                }
                None => Ok((None, tokens)),
            },
        },
        None => Ok((None, tokens)),
    }
}
