//! Tokens and names as rows have them.

use crate::texts::{put, show};
use cases::Wrong;
use celtokens::{Number, Sign, Token, characters, tokens};
use std::alloc::Global;
use std::fmt::Write;

fn sign_name(sign: Sign) -> &'static str {
    match sign {
        Sign::Question => "?",
        Sign::Colon => ":",
        Sign::OrOr => "||",
        Sign::AndAnd => "&&",
        Sign::Less => "<",
        Sign::LessEqual => "<=",
        Sign::Greater => ">",
        Sign::GreaterEqual => ">=",
        Sign::EqualEqual => "==",
        Sign::NotEqual => "!=",
        Sign::Plus => "+",
        Sign::Minus => "-",
        Sign::Star => "*",
        Sign::Slash => "/",
        Sign::Percent => "%",
        Sign::Bang => "!",
        Sign::Dot => ".",
        Sign::Comma => ",",
        Sign::OpenParenthesis => "(",
        Sign::CloseParenthesis => ")",
        Sign::OpenBracket => "[",
        Sign::CloseBracket => "]",
        Sign::OpenBrace => "{",
        Sign::CloseBrace => "}",
    }
}

fn put_characters(out: &mut String, word: &str, characters: &[char]) {
    put(out, word);
    for character in characters {
        let _ = out.push(*character);
    }
}

fn put_number(out: &mut String, word: &str, number: Number<'_>) {
    put(out, word);
    match number.value() {
        Some(value) => show(out, &value),
        None => put(out, "large"),
    }
}

fn put_code_points(out: &mut String, characters: &[char]) {
    put(out, "text:");
    for character in characters {
        let code = *character as u32;
        let _ = write!(out, "<{code:x}>");
    }
}

// A token: a name as `name:a`, a number as `int:12`, a string as its code points in hexadecimal, a sign as itself.
fn put_token(out: &mut String, token: &Token<'_>) {
    match token {
        Token::Ident(name) => put_characters(out, "name:", name),
        Token::Reserved(name) => put_characters(out, "reserved:", name),
        Token::False => put(out, "false"),
        Token::In => put(out, "in"),
        Token::Null => put(out, "null"),
        Token::True => put(out, "true"),
        Token::Int(number) => put_number(out, "int:", *number),
        Token::Uint(number) => put_number(out, "uint:", *number),
        Token::Text(text) => put_code_points(out, text),
        Token::Sign(sign) => put(out, sign_name(*sign)),
    }
}

/// The tokens of a text with blanks between them, or `none` if it has no token sequence.
pub(crate) fn tokens_text(alloc: Global, text: &str) -> Result<String, Wrong> {
    let characters = characters(alloc, text)?;
    let Some(found) = tokens(alloc, &characters)? else {
        return cases::text(alloc, "none");
    };
    let mut out = String::new(alloc);
    let mut before = "";
    for token in &found {
        put(&mut out, before);
        put_token(&mut out, token);
        before = " ";
    }
    Ok(out)
}
