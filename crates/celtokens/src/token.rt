//! Tokens.

ghost use Rattle.std.specs.Prelude.{◌≡◌, ◌≤◌, true};
ghost use Rattle.celtree.specs.Digits.{all_digits};

use crate::sign::Sign;

/// A whole number as its digits, of which there may be any number.
#[derive(Clone, Copy)]
pub struct Number<'a> {
    /// The base: 10 or 16.
    pub radix: u32,
    /// The digits, the highest first.
    pub digits: &'a [char],
    ghost at_least_two: { 2 ≤ radix },
    ghost at_most_sixteen: { radix ≤ 16 },
    ghost in_base: { all_digits radix digits.now ≡ true },
}

/// A token. Names and digits are parts of the text, and a string's characters stand for themselves.
#[derive(Drop)]
pub enum Token<'a> {
    /// A word that is neither a keyword nor reserved.
    Ident(&'a [char]),
    /// A word that the CEL language definition reserves, as `while`.
    Reserved(&'a [char]),
    /// The keyword `false`.
    False,
    /// The keyword `in`.
    In,
    /// The keyword `null`.
    Null,
    /// The keyword `true`.
    True,
    /// A number, as `12` or `0x1F`.
    Int(Number<'a>),
    /// A number marked by `u` or `U`, as `12u`.
    Uint(Number<'a>),
    /// The characters of a string, each escape replaced by the character that it names.
    Text(Vec<char>),
    /// An operator, a bracket or a separator.
    Sign(Sign),
}
