//! Lexemes.

ghost use Rattle.std.specs.Prelude.{◌≡◌, ℕ, IfOk, IfSome, MatchOption};
ghost use Rattle.celtokens.specs.Class.{StartsWith};
ghost use Rattle.celtokens.specs.Sign.{one_char, two_chars, IsSignOfTwo, HasNoSignOfTwo, IsSignOfOne, HasNoSignOfOne, IsComment, IsNoComment};
ghost use Rattle.celtokens.specs.Numeral.{FirstIs, FirstIsNot};
ghost use Rattle.celtokens.specs.Text.{is_r, HasNoRawText, IsRawText};
ghost use Rattle.celtokens.specs.Lexeme.{Whole, Longest, HasNoLexeme};
ghost use Rattle.celtokens.specs.Seen.{terminal, part};
ghost use Rattle.celtokens.specs.declared.«class».Class.TheVariants as class_of;

use crate::class::{Class, classify};
use crate::number::number;
use crate::run::{Kind, split_run};
use crate::sign::Sign;
use crate::text::text;
use crate::token::Token;
use crate::word::word;
use std::alloc::{AllocError, Global};

// What follows an `r` or `R`, which marks a string as raw.
fn after_r(chars: &[char]) -> Option<&[char]>
    ensures { MatchOption result (FirstIsNot is_r chars.now) (λ x. FirstIs is_r chars.now x.now) }
{
    match chars {
        [mark, rest @ ..] if *mark == 'r' || *mark == 'R' => Some(rest),
        _ => None,
    }
}

// A raw string.
fn raw_text(alloc: Global, chars: &[char]) -> Result<Option<(Vec<char>, &[char])>, AllocError>
    ensures { IfOk result (λ o. MatchOption o (HasNoRawText chars.now) (λ x. IsRawText chars.now x.0.items x.1.now)) }
{
    match after_r(chars) {
        Some(rest) => text(alloc, rest, true),
        None => Ok(None),
    }
}

// A raw string, or else a word.
fn letter(alloc: Global, chars: &[char]) -> Result<(Token<'_>, &[char]), AllocError>
    requires { StartsWith class_of.Letter chars.now }
    ensures { IfOk result (λ x. Longest chars.now (Whole (terminal x.0)) x.1.now) }
{
    match raw_text(alloc, chars)? {
        Some((characters, rest)) => Ok((Token::Text(characters), rest)),
        None => {
            let (name, rest) = split_run(chars, Kind::InWord);
            Ok((word(name), rest))
        }
    }
}

// What follows two slashes.
fn after_slashes(chars: &[char]) -> Option<&[char]>
    ensures { MatchOption result (IsNoComment chars.now) (λ x. IsComment chars.now x.now) }
{
    match chars {
        ['/', '/', rest @ ..] => Some(rest),
        _ => None,
    }
}

fn two_chars(first: char, second: char) -> Option<Sign>
    ensures { result ≡ two_chars first second }
{
    if first == '|' && second == '|' {
        Some(Sign::OrOr)
    } else if first == '&' && second == '&' {
        Some(Sign::AndAnd)
    } else if first == '<' && second == '=' {
        Some(Sign::LessEqual)
    } else if first == '>' && second == '=' {
        Some(Sign::GreaterEqual)
    } else if first == '=' && second == '=' {
        Some(Sign::EqualEqual)
    } else if first == '!' && second == '=' {
        Some(Sign::NotEqual)
    } else {
        None
    }
}

fn one_char(first: char) -> Option<Sign>
    ensures { result ≡ one_char first }
{
    match first {
        '?' => Some(Sign::Question),
        ':' => Some(Sign::Colon),
        '<' => Some(Sign::Less),
        '>' => Some(Sign::Greater),
        '+' => Some(Sign::Plus),
        '-' => Some(Sign::Minus),
        '*' => Some(Sign::Star),
        '/' => Some(Sign::Slash),
        '%' => Some(Sign::Percent),
        '!' => Some(Sign::Bang),
        '.' => Some(Sign::Dot),
        ',' => Some(Sign::Comma),
        '(' => Some(Sign::OpenParenthesis),
        ')' => Some(Sign::CloseParenthesis),
        '[' => Some(Sign::OpenBracket),
        ']' => Some(Sign::CloseBracket),
        '{' => Some(Sign::OpenBrace),
        '}' => Some(Sign::CloseBrace),
        _ => None,
    }
}

// A sign of two characters, and what follows it.
fn sign_of_two(chars: &[char]) -> Option<(Sign, &[char])>
    ensures { MatchOption result (HasNoSignOfTwo chars.now) (λ x. IsSignOfTwo chars.now x.0 x.1.now) }
{
    match chars {
        [first, second, rest @ ..] => match two_chars(*first, *second) {
            Some(sign) => Some((sign, rest)),
            None => None,
        },
        _ => None,
    }
}

// A sign of one character, and what follows it.
fn sign_of_one(chars: &[char]) -> Option<(Sign, &[char])>
    ensures { MatchOption result (HasNoSignOfOne chars.now) (λ x. IsSignOfOne chars.now x.0 x.1.now) }
{
    match chars {
        [first, rest @ ..] => match one_char(*first) {
            Some(sign) => Some((sign, rest)),
            None => None,
        },
        _ => None,
    }
}

// A comment, which gives no token, or else a sign.
fn comment_or_sign(chars: &[char]) -> Option<(Option<Token<'_>>, &[char])>
    requires { StartsWith class_of.Other chars.now }
    ensures { MatchOption result (HasNoLexeme chars.now) (λ x. Longest chars.now (part x.0) x.1.now) }
{
    match after_slashes(chars) {
        Some(comment) => {
            let (_, rest) = split_run(comment, Kind::InLine);
            Some((None, rest))
        }
        None => match sign_of_two(chars) {
            Some((sign, rest)) => Some((Some(Token::Sign(sign)), rest)),
            None => match sign_of_one(chars) {
                Some((sign, rest)) => Some((Some(Token::Sign(sign)), rest)),
                None => None,
            },
        },
    }
}

// A string, if it has an end.
fn quoted(alloc: Global, chars: &[char]) -> Result<Option<(Option<Token<'_>>, &[char])>, AllocError>
    requires { StartsWith class_of.Quote chars.now }
    ensures { IfOk result (λ o. MatchOption o (HasNoLexeme chars.now) (λ x. Longest chars.now (part x.0) x.1.now)) }
{
    match text(alloc, chars, false)? {
        Some((characters, rest)) => Ok(Some((Some(Token::Text(characters)), rest))),
        None => Ok(None),
    }
}

/// The longest lexeme, if there is one: its token, unless it is a blank or a comment, and what follows it.
pub(crate) fn lexeme(
    alloc: Global,
    chars: &[char],
) -> Result<Option<(Option<Token<'_>>, &[char])>, AllocError>
    ensures { IfOk result (λ o. MatchOption o (HasNoLexeme chars.now) (λ x. Longest chars.now (part x.0) x.1.now)) }
{
    let Some((first, rest)) = chars.split_first() else {
        return Ok(None);
    };
    match classify(*first) {
        Class::Blank => Ok(Some((None, rest))),
        Class::Letter => {
            let (token, rest) = letter(alloc, chars)?;
            Ok(Some((Some(token), rest)))
        }
        Class::Digit => {
            let (token, rest) = number(chars);
            Ok(Some((Some(token), rest)))
        }
        Class::Quote => quoted(alloc, chars),
        Class::Other => Ok(comment_or_sign(chars)),
    }
}
