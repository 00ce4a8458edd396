//! Runs of characters of one kind.

ghost use Rattle.std.specs.Prelude.{◌≡◌};
ghost use Rattle.celtokens.specs.Run.{is_in, is_line_end, front, beyond};

/// A kind of character, of which a run is made.
#[derive(Clone, Copy)]
pub(crate) enum Kind {
    /// An ASCII letter, an ASCII digit or `_`.
    InWord,
    /// An ASCII digit.
    Digit,
    /// An ASCII hexadecimal digit.
    HexDigit,
    /// Any character but a line feed and a carriage return.
    InLine,
}

/// Whether the character is a line feed or a carriage return.
pub(crate) fn is_line_end(c: char) -> bool
    ensures { result ≡ is_line_end c }
{
    c == '\n' || c == '\r'
}

/// Whether the character is of the kind.
pub(crate) fn is_in(kind: Kind, c: char) -> bool
    ensures { result ≡ is_in kind c }
{
    match kind {
        Kind::InWord => c.is_ascii_alphanumeric() || c == '_',
        Kind::Digit => c.is_ascii_digit(),
        Kind::HexDigit => c.is_ascii_hexdigit(),
        Kind::InLine => !is_line_end(c),
    }
}

/// All the characters of the kind at the front, and what follows them.
pub(crate) fn split_run(chars: &[char], kind: Kind) -> (&[char], &[char])
    ensures run { result.0.now ≡ front kind chars.now }
    ensures rest { result.1.now ≡ beyond kind chars.now }
{
    for (i, c) in chars.iter().enumerate() {
        if !is_in(kind, *c) {
            return chars.split_at(i);
        }
    }
    chars.split_at(chars.len())
}
