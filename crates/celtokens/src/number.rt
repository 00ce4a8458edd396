//! Numbers.

ghost use Rattle.std.specs.Prelude.{◌≡◌, ◌<◌, ◌^◌, ◌∷◌, Some, MatchOption, option_map, SomeIff};
ghost use Rattle.std.specs.Str.Parse.{digits_value};
ghost use Rattle.celtokens.specs.Class.{StartsWith};
ghost use Rattle.celtokens.specs.Numeral.{is_u, after_hex_prefix, BestNumeral, FirstIs, FirstIsNot};
ghost use Rattle.celtokens.specs.Lexeme.{Whole, Longest};
ghost use Rattle.celtokens.specs.Seen.{number, terminal};
ghost use Rattle.celtokens.specs.declared.«class».Class.TheVariants as class_of;

use crate::class::Class;
use crate::run::{Kind, is_in, split_run};
use crate::token::{Number, Token};

impl Number<'_> {
    /// The number, if it fits 64 bits.
    pub fn value(self) -> Option<u64>
        ensures { SomeIff result (digits_value self.entry.radix self.entry.digits.now < 2 ^ 64) (digits_value self.entry.radix self.entry.digits.now) }
    {
        let radix = self.radix;
        let mut value: u64 = 0;
        for c in self.digits {
            let Some(digit) = c.to_digit(radix) else {
                return None;
            };
            let Some(shifted) = value.checked_mul(u64::from(radix)) else {
                return None;
            };
            let Some(next) = shifted.checked_add(u64::from(digit)) else {
                return None;
            };
            value = next;
        }
        Some(value)
    }
}

// The hexadecimal digits and the rest after `0x`, if there is such a digit.
fn after_hex_prefix(chars: &[char]) -> Option<&[char]>
    ensures { option_map (λ x. x.now) result ≡ after_hex_prefix chars.now }
{
    match chars {
        ['0', 'x', digit, ..] if is_in(Kind::HexDigit, *digit) => Some(&chars[2..]),
        _ => None,
    }
}

// What follows a `u` or `U`.
fn after_u(chars: &[char]) -> Option<&[char]>
    ensures { MatchOption result (FirstIsNot is_u chars.now) (λ x. FirstIs is_u chars.now x.now) }
{
    match chars {
        [mark, rest @ ..] if *mark == 'u' || *mark == 'U' => Some(rest),
        _ => None,
    }
}

fn numeral(chars: &[char]) -> (Number<'_>, &[char])
    requires { StartsWith class_of.Digit chars.now }
    ensures { BestNumeral chars.now (number result.0) result.1.now }
{
    match after_hex_prefix(chars) {
        Some(hexadecimal) => {
            let (digits, rest) = split_run(hexadecimal, Kind::HexDigit);
            (Number { radix: 16, digits }, rest)
        }
        None => {
            let (digits, rest) = split_run(chars, Kind::Digit);
            (Number { radix: 10, digits }, rest)
        }
    }
}

/// The number in front, with its mark `u` or `U`, and what follows it.
pub(crate) fn number(chars: &[char]) -> (Token<'_>, &[char])
    requires { StartsWith class_of.Digit chars.now }
    ensures { Longest chars.now (Whole (terminal result.0)) result.1.now }
{
    let (digits, rest) = numeral(chars);
    match after_u(rest) {
        Some(beyond) => (Token::Uint(digits), beyond),
        None => (Token::Int(digits), rest),
    }
}
