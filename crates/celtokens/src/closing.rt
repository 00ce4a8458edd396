//! The ends of lists of items.

ghost use Rattle.std.specs.Prelude.{◌≡◌};
ghost use Rattle.celtokens.specs.Closing.{close_sign, trails};

use crate::sign::Sign;

/// The sign that ends a list of items.
#[derive(Clone, Copy)]
pub enum Closing {
    /// `)`, after a call's arguments.
    Parenthesis,
    /// `]`, after the items of a list literal.
    Bracket,
    /// `}`, after the entries of a map literal.
    Brace,
}

/// The sign itself.
pub fn close_sign(closing: Closing) -> Sign
    ensures { result ≡ close_sign closing }
{
    match closing {
        Closing::Parenthesis => Sign::CloseParenthesis,
        Closing::Bracket => Sign::CloseBracket,
        Closing::Brace => Sign::CloseBrace,
    }
}

/// Whether a comma may stand after the last item.
pub(crate) fn trails(closing: Closing) -> bool
    ensures { result ≡ trails closing }
{
    match closing {
        Closing::Parenthesis => false,
        Closing::Bracket | Closing::Brace => true,
    }
}
