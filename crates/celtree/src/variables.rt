//! The name before the variables of a policy.

ghost use Rattle.std.specs.Prelude.{◌≡◌};
ghost use Rattle.celtree.specs.Variables.{is_variables};
ghost use Rattle.celtree.specs.View.{view};

use crate::tree::Tree;

/// Whether the tree is the name `variables`, after which a policy's variables stand.
pub fn is_variables(tree: &Tree) -> bool
    ensures { result ≡ is_variables (view tree.now) }
{
    match tree {
        Tree::Name(name) => name.as_str() == "variables",
        _ => false,
    }
}
