//! The next of the tokens that are left (CEL language definition, "Syntax").

ghost use Rattle.std.specs.Prelude.{◌≡◌, ◌<◌, ◌∷◌, [], true, false, length, Some, IfSome, MatchOption, option_map};
ghost use Rattle.celtokens.specs.Seen.{terminal, terminals};
ghost use Rattle.celtokens.specs.Terminal.{Mark};
ghost use Rattle.celtokens.specs.Operators.{infix_sign, infix_of, begins_with_int, after_prefix};
ghost use Rattle.celtokens.specs.Ahead.{IsNotNext, IsOperator, HasNoOperator, HasNoPrefix, IsSelector, HasNoSelector, IsStart, IsSuffix, IsSeparator};

use crate::closing::{Closing, close_sign, trails};
use crate::sign::Sign;
use crate::token::Token;
use celtree::{Operator, Prefix};

/// The token in front, and what follows it.
pub(crate) fn first<'a, 'b>(tokens: &'b [Token<'a>]) -> Option<(&'b Token<'a>, &'b [Token<'a>])>
    ensures value { MatchOption result (terminals tokens.now ≡ []) (λ x. terminals tokens.now ≡ terminal x.0.now ∷ terminals x.1.now) }
    ensures shorter { IfSome result (λ x. length x.1.now < length tokens.now) }
{
    tokens.split_first()
}

/// What follows the sign, if it stands in front.
pub fn after<'a, 'b>(tokens: &'b [Token<'a>], sign: Sign) -> Option<&'b [Token<'a>]>
    ensures value { MatchOption result (IsNotNext sign (terminals tokens.now)) (λ x. terminals tokens.now ≡ Mark sign ∷ terminals x.now) }
    ensures shorter { IfSome result (λ x. length x.now < length tokens.now) }
{
    let Some((token, rest)) = first(tokens) else {
        return None;
    };
    match token {
        Token::Sign(found) if *found == sign => Some(rest),
        _ => None,
    }
}

/// Whether the sign stands in front, and the tokens from what follows it on, or all of them.
pub fn skip<'a, 'b>(tokens: &'b [Token<'a>], sign: Sign) -> (bool, &'b [Token<'a>])
    ensures found { result.0 ≡ true → (terminals tokens.now ≡ Mark sign ∷ terminals result.1.now) × (length result.1.now < length tokens.now) }
    ensures kept { result.0 ≡ false → IsNotNext sign (terminals tokens.now) × (result.1.now ≡ tokens.now) }
{
    match after(tokens, sign) {
        Some(rest) => (true, rest),
        None => (false, tokens),
    }
}

fn infix_sign(sign: Sign) -> Option<(u8, Operator)>
    ensures { result ≡ infix_sign sign }
{
    match sign {
        Sign::Star => Some((0, Operator::Multiply)),
        Sign::Slash => Some((0, Operator::Divide)),
        Sign::Percent => Some((0, Operator::Remainder)),
        Sign::Plus => Some((1, Operator::Add)),
        Sign::Minus => Some((1, Operator::Subtract)),
        Sign::Less => Some((2, Operator::Less)),
        Sign::LessEqual => Some((2, Operator::LessEqual)),
        Sign::Greater => Some((2, Operator::Greater)),
        Sign::GreaterEqual => Some((2, Operator::GreaterEqual)),
        Sign::EqualEqual => Some((2, Operator::Equal)),
        Sign::NotEqual => Some((2, Operator::NotEqual)),
        Sign::AndAnd => Some((3, Operator::And)),
        Sign::OrOr => Some((4, Operator::Or)),
        Sign::Question | Sign::Colon | Sign::Bang | Sign::Dot | Sign::Comma => None,
        Sign::OpenParenthesis | Sign::CloseParenthesis | Sign::OpenBracket => None,
        Sign::CloseBracket | Sign::OpenBrace | Sign::CloseBrace => None,
    }
}

// The operator that the token is between two operands, and the height of these.
fn infix(token: &Token<'_>) -> Option<(u8, Operator)>
    ensures { result ≡ infix_of (terminal token.now) }
{
    match token {
        Token::Sign(sign) => infix_sign(*sign),
        Token::In => Some((2, Operator::In)),
        Token::Ident(_) | Token::Reserved(_) | Token::False | Token::Null | Token::True => None,
        Token::Int(_) | Token::Uint(_) | Token::Text(_) => None,
    }
}

/// The operator between operands of the height in front, and what follows it.
pub fn operator_at<'a, 'b>(
    tokens: &'b [Token<'a>],
    height: u8,
) -> Option<(Operator, &'b [Token<'a>])>
    ensures value { MatchOption result (HasNoOperator height (terminals tokens.now)) (λ x. IsOperator height (terminals tokens.now) x.0 (terminals x.1.now)) }
    ensures shorter { IfSome result (λ x. length x.1.now < length tokens.now) }
{
    let Some((token, rest)) = first(tokens) else {
        return None;
    };
    match infix(token) {
        Some((found, operator)) if found == height => Some((operator, rest)),
        _ => None,
    }
}

fn begins_with_int(tokens: &[Token<'_>]) -> bool
    ensures { result ≡ begins_with_int (terminals tokens.now) }
{
    matches!(tokens, [Token::Int(_), ..])
}

/// What follows the prefix operator, if it stands in front. The operand of `-` does not begin with an INT token.
pub fn after_prefix<'a, 'b>(tokens: &'b [Token<'a>], prefix: Prefix) -> Option<&'b [Token<'a>]>
    ensures value { option_map (λ x. terminals x.now) result ≡ after_prefix prefix (terminals tokens.now) }
    ensures shorter { IfSome result (λ x. length x.now < length tokens.now) }
{
    match prefix {
        Prefix::Not => after(tokens, Sign::Bang),
        Prefix::Negate => match after(tokens, Sign::Minus) {
            Some(rest) => {
                if begins_with_int(rest) {
                    None
                } else {
                    Some(rest)
                }
            }
            None => None,
        },
    }
}

/// The prefix operator in front, and what follows it.
pub fn prefix_at<'a, 'b>(tokens: &'b [Token<'a>]) -> Option<(Prefix, &'b [Token<'a>])>
    ensures value { MatchOption result (HasNoPrefix (terminals tokens.now)) (λ x. after_prefix x.0 (terminals tokens.now) ≡ Some (terminals x.1.now)) }
    ensures shorter { IfSome result (λ x. length x.1.now < length tokens.now) }
{
    match after_prefix(tokens, Prefix::Not) {
        Some(rest) => Some((Prefix::Not, rest)),
        None => match after_prefix(tokens, Prefix::Negate) {
            Some(rest) => Some((Prefix::Negate, rest)),
            None => None,
        },
    }
}

// The name that may follow a dot, and what follows it.
fn selector_at<'a, 'b>(tokens: &'b [Token<'a>]) -> Option<(&'a [char], &'b [Token<'a>])>
    ensures value { MatchOption result (HasNoSelector (terminals tokens.now)) (λ x. IsSelector (terminals tokens.now) x.0.now (terminals x.1.now)) }
    ensures shorter { IfSome result (λ x. length x.1.now < length tokens.now) }
{
    let Some((token, rest)) = first(tokens) else {
        return None;
    };
    match token {
        Token::Ident(name) | Token::Reserved(name) => Some((name, rest)),
        _ => None,
    }
}

/// What a primary expression that is no literal begins with, and what follows that.
pub enum Start<'a, 'b> {
    /// A name that no `(` follows.
    Name(&'a [char], &'b [Token<'a>]),
    /// A name and `(`.
    Call(&'a [char], &'b [Token<'a>]),
    /// `(`
    Parenthesis(&'b [Token<'a>]),
    /// `[`
    Bracket(&'b [Token<'a>]),
    /// `{`
    Brace(&'b [Token<'a>]),
    /// None of these.
    Nothing,
}

/// How the primary expression in front begins.
pub fn primary_at<'a, 'b>(tokens: &'b [Token<'a>]) -> Start<'a, 'b>
    ensures { IsStart tokens.now result }
{
    let Some((token, rest)) = first(tokens) else {
        return Start::Nothing;
    };
    match token {
        Token::Ident(name) => match after(rest, Sign::OpenParenthesis) {
            Some(inside) => Start::Call(name, inside),
            None => Start::Name(name, rest),
        },
        Token::Sign(Sign::OpenParenthesis) => Start::Parenthesis(rest),
        Token::Sign(Sign::OpenBracket) => Start::Bracket(rest),
        Token::Sign(Sign::OpenBrace) => Start::Brace(rest),
        _ => Start::Nothing,
    }
}

/// A suffix in front, and what follows it.
pub enum Suffix<'a, 'b> {
    /// A dot and a name that no `(` follows.
    Field(&'a [char], &'b [Token<'a>]),
    /// A dot, a name and `(`.
    Method(&'a [char], &'b [Token<'a>]),
    /// `[`
    Index(&'b [Token<'a>]),
    /// A suffix that the grammar does not have: `(`, or a dot without a name.
    Wrong,
    /// None of these.
    Nothing,
}

/// The suffix in front.
pub fn suffix_at<'a, 'b>(tokens: &'b [Token<'a>]) -> Suffix<'a, 'b>
    ensures { IsSuffix tokens.now result }
{
    let Some((token, beyond)) = first(tokens) else {
        return Suffix::Nothing;
    };
    match token {
        Token::Sign(Sign::Dot) => match selector_at(beyond) {
            Some((name, rest)) => match after(rest, Sign::OpenParenthesis) {
                Some(inside) => Suffix::Method(name, inside),
                None => Suffix::Field(name, rest),
            },
            None => Suffix::Wrong,
        },
        Token::Sign(Sign::OpenBracket) => Suffix::Index(beyond),
        Token::Sign(Sign::OpenParenthesis) => Suffix::Wrong,
        _ => Suffix::Nothing,
    }
}

/// What follows an item of a list.
pub enum Separator<'a, 'b> {
    /// The list's end, and what follows it.
    End(&'b [Token<'a>]),
    /// A comma before another item, and what follows the comma.
    Comma(&'b [Token<'a>]),
    /// Neither.
    Wrong,
}

/// The separator in front.
pub fn separator_at<'a, 'b>(tokens: &'b [Token<'a>], closing: Closing) -> Separator<'a, 'b>
    ensures { IsSeparator closing tokens.now result }
{
    match after(tokens, close_sign(closing)) {
        Some(rest) => Separator::End(rest),
        None => match after(tokens, Sign::Comma) {
            Some(beyond) => match after(beyond, close_sign(closing)) {
                Some(rest) => {
                    if trails(closing) {
                        Separator::End(rest)
                    } else {
                        Separator::Comma(beyond)
                    }
                }
                None => Separator::Comma(beyond),
            },
            None => Separator::Wrong,
        },
    }
}
