//! One pass over the tokens, by recursive descent.

ghost use Rattle.std.specs.Prelude.{◌≡◌, ◌<◌, ◌++◌, ◌∷◌, [], Some, None, length, encode_utf8_all, IfOk, IfErr, MatchResult};
ghost use Rattle.celtokens.specs.Seen.{terminals};
ghost use Rattle.celtokens.specs.Terminal.{Mark};
ghost use Rattle.celread.specs.declared.parse_fault.ParseFault.TheVariants as fault;
ghost use Rattle.celread.specs.Grammar.{Member, Whole, Prefixed, Height};
ghost use Rattle.celread.specs.Ends.{Read, HasNoTree, HasNoTreeBefore, ReadPrimary, HasNoPrimary, ReadComposite, HasNoComposite, ReadItems, HasNoItems, ReadEntries, HasNoEntries, Refuses};
ghost use Rattle.celtree.specs.Tree.{Conditional, Field, Index, Infix, Mapping, Name, Sequence, Unary};
ghost use Rattle.celtree.specs.Calls.{call_of, method_of};
ghost use Rattle.celtree.specs.View.{view, views, pair_views};

use crate::parse_fault::ParseFault;
use celtokens::{
    Closing, Separator, Sign, Start, Suffix, Token, after, after_prefix, close_sign, literal_at,
    operator_at, prefix_at, primary_at, separator_at, skip, suffix_at, text_of,
};
use celtree::{Operator, Prefix, Tree, call, method};
use std::alloc::{AllocError, Global};

// What makes trees. A function that takes `rest` gives it beside the tree, so that a reader can end with the call.

// Apart from `expression`, so that its boxes take no room on the stack of a long `a ? b : c ? d : ..`.
fn conditional<'a, 'b>(
    alloc: Global,
    test: Box<Tree>,
    first: Box<Tree>,
    second: Box<Tree>,
    rest: &'b [Token<'a>],
) -> Result<(Box<Tree>, &'b [Token<'a>]), ParseFault>
    ensures { MatchResult result (λ x. (view x.0.value ≡ Conditional (view test.value) (view first.value) (view second.value)) × (x.1.now ≡ rest.now)) (λ e. e ≡ fault.Memory) }
{
    let tree = Box::new(alloc, Tree::Conditional(test, first, second))?;
    Ok((tree, rest))
}

fn field(alloc: Global, of: Box<Tree>, name: &[char]) -> Result<Box<Tree>, AllocError>
    ensures { IfOk result (λ t. view t.value ≡ Field (view of.value) (encode_utf8_all name.now)) }
{
    let name = text_of(alloc, name)?;
    let tree = Box::new(alloc, Tree::Field(of, name))?;
    Ok(tree)
}

// A method's call, if the grammar has it.
fn method_call(
    alloc: Global,
    of: Box<Tree>,
    name: &[char],
    arguments: Vec<Tree>,
) -> Result<Box<Tree>, ParseFault>
    ensures { MatchResult result (λ t. method_of (view of.value) (encode_utf8_all name.now) (views arguments.items) ≡ Some (view t.value)) (λ e. Refuses e (method_of (view of.value) (encode_utf8_all name.now) (views arguments.items) ≡ None)) }
{
    let name = text_of(alloc, name)?;
    match method(alloc, of, name, arguments)? {
        Some(tree) => Ok(tree),
        None => Err(ParseFault::NotInGrammar),
    }
}

fn indexed(alloc: Global, of: Box<Tree>, index: Box<Tree>) -> Result<Box<Tree>, AllocError>
    ensures { IfOk result (λ t. view t.value ≡ Index (view of.value) (view index.value)) }
{
    let tree = Box::new(alloc, Tree::Index(of, index))?;
    Ok(tree)
}

fn unary_of<'a, 'b>(
    alloc: Global,
    prefix: Prefix,
    of: Box<Tree>,
    rest: &'b [Token<'a>],
) -> Result<(Box<Tree>, &'b [Token<'a>]), ParseFault>
    ensures { MatchResult result (λ x. (view x.0.value ≡ Unary prefix (view of.value)) × (x.1.now ≡ rest.now)) (λ e. e ≡ fault.Memory) }
{
    let tree = Box::new(alloc, Tree::Unary(prefix, of))?;
    Ok((tree, rest))
}

fn joined(
    alloc: Global,
    operator: Operator,
    left: Box<Tree>,
    right: Box<Tree>,
) -> Result<Box<Tree>, AllocError>
    ensures { IfOk result (λ t. view t.value ≡ Infix operator (view left.value) (view right.value)) }
{
    let tree = Box::new(alloc, Tree::Infix(operator, left, right))?;
    Ok(tree)
}

// A name as an expression.
fn named<'a, 'b>(
    alloc: Global,
    name: &[char],
    rest: &'b [Token<'a>],
) -> Result<(Box<Tree>, &'b [Token<'a>]), ParseFault>
    ensures { MatchResult result (λ x. (view x.0.value ≡ Name (encode_utf8_all name.now)) × (x.1.now ≡ rest.now)) (λ e. e ≡ fault.Memory) }
{
    let name = text_of(alloc, name)?;
    let tree = Box::new(alloc, Tree::Name(name))?;
    Ok((tree, rest))
}

// A call, if the grammar has it.
fn function_call<'a, 'b>(
    alloc: Global,
    name: &[char],
    arguments: Vec<Tree>,
    rest: &'b [Token<'a>],
) -> Result<(Box<Tree>, &'b [Token<'a>]), ParseFault>
    ensures { MatchResult result (λ x. (call_of (encode_utf8_all name.now) (views arguments.items) ≡ Some (view x.0.value)) × (x.1.now ≡ rest.now)) (λ e. Refuses e (call_of (encode_utf8_all name.now) (views arguments.items) ≡ None)) }
{
    let name = text_of(alloc, name)?;
    match call(alloc, name, arguments)? {
        Some(tree) => Ok((tree, rest)),
        None => Err(ParseFault::NotInGrammar),
    }
}

fn list_of<'a, 'b>(
    alloc: Global,
    items: Vec<Tree>,
    rest: &'b [Token<'a>],
) -> Result<(Box<Tree>, &'b [Token<'a>]), ParseFault>
    ensures { MatchResult result (λ x. (view x.0.value ≡ Sequence (views items.items)) × (x.1.now ≡ rest.now)) (λ e. e ≡ fault.Memory) }
{
    let tree = Box::new(alloc, Tree::List(items))?;
    Ok((tree, rest))
}

fn map_of<'a, 'b>(
    alloc: Global,
    entries: Vec<(Tree, Tree)>,
    rest: &'b [Token<'a>],
) -> Result<(Box<Tree>, &'b [Token<'a>]), ParseFault>
    ensures { MatchResult result (λ x. (view x.0.value ≡ Mapping (pair_views entries.items)) × (x.1.now ≡ rest.now)) (λ e. e ≡ fault.Memory) }
{
    let tree = Box::new(alloc, Tree::Map(entries))?;
    Ok((tree, rest))
}

// The items and one more.
fn with_item(mut items: Vec<Tree>, item: Box<Tree>) -> Result<Vec<Tree>, ParseFault>
    ensures { MatchResult result (λ v. v.items ≡ items.items ++ item.value ∷ []) (λ e. e ≡ fault.Memory) }
{
    items.push(Box::into_inner(item))?;
    Ok(items)
}

// The entries and one more.
fn with_entry(
    mut entries: Vec<(Tree, Tree)>,
    key: Box<Tree>,
    value: Box<Tree>,
) -> Result<Vec<(Tree, Tree)>, ParseFault>
    ensures { MatchResult result (λ v. v.items ≡ entries.items ++ (key.value, value.value) ∷ []) (λ e. e ≡ fault.Memory) }
{
    entries.push((Box::into_inner(key), Box::into_inner(value)))?;
    Ok(entries)
}

/// The tree of the expression in front, and what follows it: no token there would go on with the expression, and no other tree is spelled
/// so.
///
/// # Errors
///
/// [`ParseFault::NotInGrammar`] where no tree is spelled so, [`ParseFault::Memory`] when out of memory.
#[cycle(expression)]
pub(crate) fn expression<'a, 'b>(
    alloc: Global,
    tokens: &'b [Token<'a>],
) -> Result<(Box<Tree>, &'b [Token<'a>]), ParseFault>
    ensures tree { IfOk result (λ x. Read Whole (terminals tokens.now) (view x.0.value) (terminals x.1.now)) }
    ensures none { IfErr result (λ e. Refuses e (HasNoTree Whole (terminals tokens.now))) }
    ensures shorter { IfOk result (λ x. length x.1.now < length tokens.now) }
{
    let (test, rest) = infix(alloc, tokens, 5)?;
    match after(rest, Sign::Question) {
        Some(beyond) => {
            let (first, rest) = infix(alloc, beyond, 5)?;
            match after(rest, Sign::Colon) {
                Some(beyond) => {
                    let (second, rest) = expression(alloc, beyond)?;
                    conditional(alloc, test, first, second, rest)
                }
                None => Err(ParseFault::NotInGrammar),
            }
        }
        None => Ok((test, rest)),
    }
}

// A chain of operands between operators of the height.
#[cycle(expression)]
fn infix<'a, 'b>(
    alloc: Global,
    tokens: &'b [Token<'a>],
    height: u8,
) -> Result<(Box<Tree>, &'b [Token<'a>]), ParseFault>
    ensures tree { IfOk result (λ x. Read (Height height) (terminals tokens.now) (view x.0.value) (terminals x.1.now)) }
    ensures none { IfErr result (λ e. Refuses e (HasNoTree (Height height) (terminals tokens.now))) }
    ensures shorter { IfOk result (λ x. length x.1.now < length tokens.now) }
{
    if height == 0 {
        return unary(alloc, tokens);
    }
    let lower = height - 1;
    let (mut left, mut rest) = infix(alloc, tokens, lower)?;
    'operators: loop {
        match operator_at(rest, lower) {
            Some((operator, beyond)) => {
                let (right, after) = infix(alloc, beyond, lower)?;
                let tree = joined(alloc, operator, left, right)?;
                left = tree;
                rest = after;
            }
            None => return Ok((left, rest)),
        }
    }
}

#[cycle(expression)]
fn unary<'a, 'b>(
    alloc: Global,
    tokens: &'b [Token<'a>],
) -> Result<(Box<Tree>, &'b [Token<'a>]), ParseFault>
    ensures tree { IfOk result (λ x. Read (Height 0) (terminals tokens.now) (view x.0.value) (terminals x.1.now)) }
    ensures none { IfErr result (λ e. Refuses e (HasNoTree (Height 0) (terminals tokens.now))) }
    ensures shorter { IfOk result (λ x. length x.1.now < length tokens.now) }
{
    match prefix_at(tokens) {
        Some((prefix, beyond)) => {
            let (of, rest) = prefixed(alloc, beyond, prefix)?;
            unary_of(alloc, prefix, of, rest)
        }
        None => member(alloc, tokens),
    }
}

// After a prefix operator: more of the same, or the operand.
#[cycle(expression)]
fn prefixed<'a, 'b>(
    alloc: Global,
    tokens: &'b [Token<'a>],
    prefix: Prefix,
) -> Result<(Box<Tree>, &'b [Token<'a>]), ParseFault>
    ensures tree { IfOk result (λ x. Read (Prefixed prefix) (terminals tokens.now) (view x.0.value) (terminals x.1.now)) }
    ensures none { IfErr result (λ e. Refuses e (HasNoTree (Prefixed prefix) (terminals tokens.now))) }
    ensures shorter { IfOk result (λ x. length x.1.now < length tokens.now) }
{
    match after_prefix(tokens, prefix) {
        Some(beyond) => {
            let (of, rest) = prefixed(alloc, beyond, prefix)?;
            unary_of(alloc, prefix, of, rest)
        }
        None => member(alloc, tokens),
    }
}

// A primary expression and its suffixes.
#[cycle(expression)]
fn member<'a, 'b>(
    alloc: Global,
    tokens: &'b [Token<'a>],
) -> Result<(Box<Tree>, &'b [Token<'a>]), ParseFault>
    ensures tree { IfOk result (λ x. Read Member (terminals tokens.now) (view x.0.value) (terminals x.1.now)) }
    ensures none { IfErr result (λ e. Refuses e (HasNoTree Member (terminals tokens.now))) }
    ensures shorter { IfOk result (λ x. length x.1.now < length tokens.now) }
{
    let (mut of, mut rest) = primary(alloc, tokens)?;
    'suffixes: loop {
        match suffix_at(rest) {
            Suffix::Field(name, beyond) => {
                let tree = field(alloc, of, name)?;
                of = tree;
                rest = beyond;
            }
            Suffix::Method(name, beyond) => {
                let (arguments, after) = items(alloc, beyond, Closing::Parenthesis)?;
                let tree = method_call(alloc, of, name, arguments)?;
                of = tree;
                rest = after;
            }
            Suffix::Index(beyond) => {
                let (index, after) = expression_before(alloc, beyond, Sign::CloseBracket)?;
                let tree = indexed(alloc, of, index)?;
                of = tree;
                rest = after;
            }
            Suffix::Wrong => return Err(ParseFault::NotInGrammar),
            Suffix::Nothing => return Ok((of, rest)),
        }
    }
}

#[cycle(expression)]
fn primary<'a, 'b>(
    alloc: Global,
    tokens: &'b [Token<'a>],
) -> Result<(Box<Tree>, &'b [Token<'a>]), ParseFault>
    ensures tree { IfOk result (λ x. ReadPrimary (terminals tokens.now) (view x.0.value) (terminals x.1.now)) }
    ensures none { IfErr result (λ e. Refuses e (HasNoPrimary (terminals tokens.now))) }
    ensures shorter { IfOk result (λ x. length x.1.now < length tokens.now) }
{
    let (found, rest) = literal_at(alloc, tokens)?;
    match found {
        Some(tree) => Ok((tree, rest)),
        None => composite(alloc, tokens),
    }
}

// A primary expression that is no literal.
#[cycle(expression)]
fn composite<'a, 'b>(
    alloc: Global,
    tokens: &'b [Token<'a>],
) -> Result<(Box<Tree>, &'b [Token<'a>]), ParseFault>
    ensures tree { IfOk result (λ x. ReadComposite (terminals tokens.now) (view x.0.value) (terminals x.1.now)) }
    ensures none { IfErr result (λ e. Refuses e (HasNoComposite (terminals tokens.now))) }
    ensures shorter { IfOk result (λ x. length x.1.now < length tokens.now) }
{
    match primary_at(tokens) {
        Start::Name(name, rest) => named(alloc, name, rest),
        Start::Call(name, inside) => {
            let (arguments, rest) = items(alloc, inside, Closing::Parenthesis)?;
            function_call(alloc, name, arguments, rest)
        }
        Start::Parenthesis(inside) => expression_before(alloc, inside, Sign::CloseParenthesis),
        Start::Bracket(inside) => {
            let (items, rest) = items(alloc, inside, Closing::Bracket)?;
            list_of(alloc, items, rest)
        }
        Start::Brace(inside) => {
            let (entries, rest) = entries(alloc, inside)?;
            map_of(alloc, entries, rest)
        }
        Start::Nothing => Err(ParseFault::NotInGrammar),
    }
}

// An expression and the sign after it.
#[cycle(expression)]
fn expression_before<'a, 'b>(
    alloc: Global,
    tokens: &'b [Token<'a>],
    sign: Sign,
) -> Result<(Box<Tree>, &'b [Token<'a>]), ParseFault>
    ensures tree { IfOk result (λ x. Read Whole (terminals tokens.now) (view x.0.value) (Mark sign ∷ terminals x.1.now)) }
    ensures none { IfErr result (λ e. Refuses e (HasNoTreeBefore sign (terminals tokens.now))) }
    ensures shorter { IfOk result (λ x. length x.1.now < length tokens.now) }
{
    let (tree, beyond) = expression(alloc, tokens)?;
    match after(beyond, sign) {
        Some(rest) => Ok((tree, rest)),
        None => Err(ParseFault::NotInGrammar),
    }
}

// Items up to the closing sign.
#[cycle(expression)]
fn items<'a, 'b>(
    alloc: Global,
    tokens: &'b [Token<'a>],
    closing: Closing,
) -> Result<(Vec<Tree>, &'b [Token<'a>]), ParseFault>
    ensures items { IfOk result (λ x. ReadItems closing (terminals tokens.now) (views x.0.items) (terminals x.1.now)) }
    ensures none { IfErr result (λ e. Refuses e (HasNoItems closing (terminals tokens.now))) }
    ensures shorter { IfOk result (λ x. length x.1.now < length tokens.now) }
{
    let mut items = Vec::new(alloc);
    let (is_empty, mut rest) = skip(tokens, close_sign(closing));
    if is_empty {
        return Ok((items, rest));
    }
    'more_items: loop {
        let (item, after) = expression(alloc, rest)?;
        let longer = with_item(items, item)?;
        match separator_at(after, closing) {
            Separator::End(beyond) => return Ok((longer, beyond)),
            Separator::Comma(beyond) => {
                items = longer;
                rest = beyond;
            }
            Separator::Wrong => return Err(ParseFault::NotInGrammar),
        }
    }
}

// Entries of a map up to the closing brace.
#[cycle(expression)]
fn entries<'a, 'b>(
    alloc: Global,
    tokens: &'b [Token<'a>],
) -> Result<(Vec<(Tree, Tree)>, &'b [Token<'a>]), ParseFault>
    ensures entries { IfOk result (λ x. ReadEntries (terminals tokens.now) (pair_views x.0.items) (terminals x.1.now)) }
    ensures none { IfErr result (λ e. Refuses e (HasNoEntries (terminals tokens.now))) }
    ensures shorter { IfOk result (λ x. length x.1.now < length tokens.now) }
{
    let mut entries = Vec::new(alloc);
    let (is_empty, mut rest) = skip(tokens, Sign::CloseBrace);
    if is_empty {
        return Ok((entries, rest));
    }
    'more_entries: loop {
        let (key, beyond) = expression_before(alloc, rest, Sign::Colon)?;
        let (value, after) = expression(alloc, beyond)?;
        let longer = with_entry(entries, key, value)?;
        match separator_at(after, Closing::Brace) {
            Separator::End(beyond) => return Ok((longer, beyond)),
            Separator::Comma(beyond) => {
                entries = longer;
                rest = beyond;
            }
            Separator::Wrong => return Err(ParseFault::NotInGrammar),
        }
    }
}
