//! Texts to trees.

ghost use Rattle.std.specs.Prelude.{◌+◌, ◌≤◌, length, IfOk, IfErr};
ghost use Rattle.celtokens.specs.Seen.{terminals};
ghost use Rattle.celread.specs.Reading.{IsParse, IsParseFault, IsReadAs, IsRefusedBy, IsNotRead, IsReadAlone, IsNoParse, IsParseAlone, UnlessMemory};
ghost use Rattle.celtree.specs.Size.{nodes, text_bytes};
ghost use Rattle.celtree.specs.View.{view};

use crate::descent::expression;
use crate::fault::ReadFault;
use crate::limits::{nests_within, opens_too_many};
use celtokens::{Token, characters, one_reading, tokens};
use celtree::Tree;
use std::alloc::Global;

/// The longest text that is read, in bytes.
pub const TEXT_LIMIT: usize = 4096;

fn parse(alloc: Global, tokens: &[Token<'_>]) -> Result<Box<Tree>, ReadFault>
    ensures tree { IfOk result (λ t. IsParse (terminals tokens.now) (view t.value)) }
    ensures fault { IfErr result (IsParseFault (terminals tokens.now)) }
    ensures alone { IfOk result (λ t. IsParseAlone (terminals tokens.now) (view t.value)) }
    ensures none { IfErr result (λ e. UnlessMemory e (IsNoParse (terminals tokens.now))) }
{
    if opens_too_many(tokens) {
        return Err(ReadFault::TooDeep);
    }
    let (tree, rest) = expression(alloc, tokens)?;
    if !rest.is_empty() {
        return Err(ReadFault::NotInGrammar);
    }
    if nests_within(&tree, 2) {
        Ok(tree)
    } else {
        Err(ReadFault::TooDeep)
    }
}

/// The tree that the text spells. Its nodes and the bytes of its string literals and field names are together at most as many as the
/// bytes of the text.
///
/// # Errors
///
/// The first that applies: [`ReadFault::TooLong`] for a text of more than 4096 bytes, [`ReadFault::NotInGrammar`] for one without
/// tokens, [`ReadFault::TooDeep`] for more than 32 open brackets, [`ReadFault::NotInGrammar`] where the tokens spell no tree,
/// [`ReadFault::TooDeep`] for macros that nest three deep. [`ReadFault::Memory`] when out of memory.
pub fn read(alloc: Global, text: &str) -> Result<Box<Tree>, ReadFault>
    ensures tree { IfOk result (λ t. IsReadAs text.now (view t.value)) }
    ensures small { IfOk result (λ t. nodes (view t.value) + text_bytes (view t.value) ≤ length text.now) }
    // It spells no other tree.
    ensures alone { IfOk result (λ t. IsReadAlone text.now (view t.value)) }
    ensures fault { IfErr result (IsRefusedBy text.now) }
    // A text that is refused spells no tree within the limits.
    ensures none { IfErr result (λ e. UnlessMemory e (IsNotRead text.now)) }
{
    if text.len() > TEXT_LIMIT {
        return Err(ReadFault::TooLong);
    }
    let chars = characters(alloc, text)?;
    let found = tokens(alloc, &chars)?;
    match found {
        Some(tokens) => {
            one_reading();
            parse(alloc, &tokens)
        }
        None => Err(ReadFault::NotInGrammar),
    }
}
