//! The tree of a text.

ghost use Rattle.std.specs.Prelude.{◌≡◌, IfOk, OnOk, OnErr, MatchOption};
ghost use Rattle.celread.specs.Reading.{IsNotRead};
ghost use Rattle.celread.specs.declared.fault.ReadFault.TheVariants as ReadFault;
ghost use Rattle.celtree.specs.View.{view};
ghost use Rattle.expressions.specs.Trees.{IsTreeOf};

use celread::{ReadFault, read};
use celtree::Tree;
use std::alloc::{AllocError, Global};

/// The tree that the text spells, if it spells one within the limits on length and depth.
pub(crate) fn tree_of(alloc: Global, text: &str) -> Result<Option<Box<Tree>>, AllocError>
    ensures { IfOk result (λ o. MatchOption o (IsNotRead text.now) (λ t. IsTreeOf text.now (view t.value))) }
{
    match read(alloc, text) {
        Ok(tree) => Ok(Some(tree)),
        Err(fault) => {
            spells_none(fault)?;
            Ok(None)
        }
    }
}

// A text that is not read for this fault spells no tree, unless it is out of memory.
fn spells_none(fault: ReadFault) -> Result<(), AllocError>
    ensures ok { OnOk result (fault ≡ ReadFault.Memory → ⊥) }
    ensures err { OnErr result (fault ≡ ReadFault.Memory) }
{
    match fault {
        ReadFault::TooLong | ReadFault::TooDeep | ReadFault::NotInGrammar => Ok(()),
        ReadFault::Memory => Err(AllocError),
    }
}
