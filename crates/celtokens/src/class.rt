//! Classes of characters, by the tokens that they begin.

ghost use Rattle.std.specs.Prelude.{◌≡◌};
ghost use Rattle.celtokens.specs.Class.{class, is_quote, first_quote};

/// What a lexeme can be, by its first character.
#[derive(Clone, Copy)]
pub(crate) enum Class {
    /// Tab, line feed, form feed, carriage return or space.
    Blank,
    /// An ASCII letter or `_`: a word, or a raw string.
    Letter,
    /// An ASCII digit: a number.
    Digit,
    /// A double or single quote: a string.
    Quote,
    /// A comment, a sign, or nothing.
    Other,
}

/// What the character can begin.
pub(crate) fn classify(c: char) -> Class
    ensures { result ≡ class c }
{
    if c == '\t' || c == '\n' || c == '\x0c' || c == '\r' || c == ' ' {
        Class::Blank
    } else if c.is_ascii_alphabetic() || c == '_' {
        Class::Letter
    } else if c.is_ascii_digit() {
        Class::Digit
    } else if is_quote(c) {
        Class::Quote
    } else {
        Class::Other
    }
}

fn is_quote(c: char) -> bool
    ensures { result ≡ is_quote c }
{
    c == '"' || c == '\''
}

/// The quote in front.
pub(crate) fn first_quote(chars: &[char]) -> Option<char>
    ensures { result ≡ first_quote chars.now }
{
    match chars.first() {
        Some(first) if is_quote(*first) => Some(*first),
        _ => None,
    }
}
