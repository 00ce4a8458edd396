//! Limits on the depth of brackets and macros.

ghost use Rattle.std.specs.Prelude.{◌≡◌, ◌≤◌};
ghost use Rattle.celtokens.specs.Seen.{terminal, terminals};
ghost use Rattle.celtree.specs.Nesting.{nests_within, all_within, pairs_within};
ghost use Rattle.celread.specs.Limits.{open_after, opens_too_many};
ghost use Rattle.celtree.specs.View.{view, views, pair_views};

use celtokens::{Sign, Token};
use celtree::Tree;

// How many brackets are open after the token.
fn open_after(opened: u32, token: &Token<'_>) -> u32
    requires { opened ≤ 32 }
    ensures { result ≡ open_after opened (terminal token.now) }
{
    match token {
        Token::Sign(sign) => match sign {
            Sign::OpenParenthesis | Sign::OpenBracket | Sign::OpenBrace => opened + 1,
            Sign::CloseParenthesis | Sign::CloseBracket | Sign::CloseBrace => opened.saturating_sub(
                1,
            ),
            Sign::Question
            | Sign::Colon
            | Sign::OrOr
            | Sign::AndAnd
            | Sign::Less
            | Sign::LessEqual => opened,
            Sign::Greater | Sign::GreaterEqual | Sign::EqualEqual | Sign::NotEqual | Sign::Plus =>
                opened,
            Sign::Minus
            | Sign::Star
            | Sign::Slash
            | Sign::Percent
            | Sign::Bang
            | Sign::Dot
            | Sign::Comma => opened,
        },
        Token::Ident(_) | Token::Reserved(_) | Token::False | Token::In | Token::Null => opened,
        Token::True | Token::Int(_) | Token::Uint(_) | Token::Text(_) => opened,
    }
}

/// Whether more than 32 brackets are open at once.
pub(crate) fn opens_too_many(tokens: &[Token<'_>]) -> bool
    ensures { result ≡ opens_too_many 0 (terminals tokens.now) }
{
    let mut opened = 0;
    for token in tokens {
        if opened > 32 {
            return true;
        }
        opened = open_after(opened, token);
    }
    opened > 32
}

/// Whether macros nest at most `depth` deep.
#[cycle(nests)]
pub(crate) fn nests_within(tree: &Tree, depth: u8) -> bool
    ensures { result ≡ nests_within (view tree.now) depth }
{
    match tree {
        Tree::Null | Tree::Bool(_) | Tree::Int(_) | Tree::Uint(_) | Tree::Text(_) | Tree::Name(_) =>
            true,
        Tree::Field(of, _) => nests_within(of, depth),
        Tree::Has(of, _) => nests_within(of, depth),
        Tree::Index(of, index) => nests_within(of, depth) && nests_within(index, depth),
        Tree::List(items) => all_within(items, depth),
        Tree::Map(entries) => pairs_within(entries, depth),
        Tree::Unary(_, of) => nests_within(of, depth),
        Tree::Infix(_, left, right) => nests_within(left, depth) && nests_within(right, depth),
        Tree::Conditional(test, first, second) => {
            nests_within(test, depth) && nests_within(first, depth) && nests_within(second, depth)
        }
        Tree::Call(_, arguments) => all_within(arguments, depth),
        Tree::Method(of, _, arguments) => nests_within(of, depth) && all_within(arguments, depth),
        Tree::Macro(_, of, _, body) => {
            if depth == 0 {
                false
            } else {
                nests_within(of, depth) && nests_within(body, depth - 1)
            }
        }
    }
}

#[cycle(nests)]
fn all_within(items: &Vec<Tree>, depth: u8) -> bool
    ensures { result ≡ all_within (views items.now.items) depth }
{
    for item in items {
        if !nests_within(item, depth) {
            return false;
        }
    }
    true
}

#[cycle(nests)]
fn pairs_within(entries: &Vec<(Tree, Tree)>, depth: u8) -> bool
    ensures { result ≡ pairs_within (pair_views entries.now.items) depth }
{
    for (key, value) in entries {
        if !nests_within(key, depth) {
            return false;
        }
        if !nests_within(value, depth) {
            return false;
        }
    }
    true
}
