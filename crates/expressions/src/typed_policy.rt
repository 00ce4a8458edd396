//! Policies whose expressions are read and typed.

ghost use Rattle.std.specs.Prelude.{◌≡◌, ◌≤◌, [], List, length, map, IfOk, IfErr};
ghost use Rattle.celtree.specs.Tree.{Expr};
ghost use Rattle.expressions.specs.Expressions.{sources};
ghost use Rattle.expressions.specs.Plans.{plans_of};
ghost use Rattle.expressions.specs.Seen.{IsFaultOf};
ghost use Rattle.expressions.specs.Typed.{AreSpelled, IsPolicy};
ghost use Rattle.policy.specs.Spec.{policy_seen};
ghost use Rattle.serde_json.specs.View.{view};

use crate::fault::PolicyFault;
use crate::places::counted_policy;
use crate::planning::plans_of;
use crate::reading::trees_of;
use celtree::Tree;
use names::Format;
use plancode::Verified;
use policy::Policy;
use serde_json::Value as Json;
use std::alloc::{AllocError, Global};
use std::marker::Model;

/// A policy whose expressions are read and have the types that they must have.
#[derive(Drop)]
pub struct TypedPolicy {
    format: Format,
    policy: Policy,
    trees: Vec<Tree>,
}

impl Model for TypedPolicy {
    ghost use Rattle.std.specs.Coded.{codes};
    ghost use Rattle.expressions.specs.ExprCode.{coded_expr};
    ghost use Rattle.expressions.specs.PolicyTrees.{PolicyTrees, AreCompilable};
    ghost use Rattle.expressions.specs.Seen.{trees_seen};
    ghost use Rattle.policy.specs.Spec.{policy_seen};

    ghost Value = { PolicyTrees };

    ghost coded = { Prim.hlevel (codes, coded_expr) };

    ghost view = { λ p. record { format = p.format; policy = policy_seen p.policy; trees = trees_seen p.trees.items } };

    ghost invariant = { λ p. AreCompilable p.format (policy_seen p.policy) (trees_seen p.trees.items) };
}

impl TypedPolicy {
    /// The policy that a document spells, with its expressions read, and typed as a format has it.
    ///
    /// # Errors
    ///
    /// [`PolicyFault::BadSpec`] where the document has not the form of a policy, or spells one with more than 65535
    /// expressions. [`PolicyFault::BadExpression`] with the text of the
    /// first expression that spells no tree, or has no type as it must: match conditions and validations are truth values, message
    /// expressions are strings, and variables are of any type. [`PolicyFault::Memory`] when out of memory.
    pub fn read(alloc: Global, format: Format, document: &Json) -> Result<TypedPolicy, PolicyFault>
        ensures ok { IfOk result (λ p. IsPolicy format (view document.now) p.policy p.trees) }
        // The expressions spell no other trees, whatever their types.
        ensures alone { IfOk result (λ p. (trees : List Expr) → AreSpelled (sources p.policy) trees → trees ≡ p.trees) }
        ensures fault { IfErr result (IsFaultOf format (view document.now)) }
    {
        let policy = match counted_policy(alloc, document)? {
            Some((policy, _)) => policy,
            None => return Err(PolicyFault::BadSpec),
        };
        let trees = trees_of(alloc, format, &policy)?;
        Ok(TypedPolicy {
            format,
            policy,
            trees,
        })
    }

    /// What the policy asks for.
    pub fn policy(&self) -> &Policy
        ensures { policy_seen result.now ≡ self.now.policy }
    {
        &self.policy
    }

    /// The plans of the expressions: those of the match conditions, the variables and the validations, each validation's message
    /// expression after it. A plan may name the variables that stand before its expression, and that of a match condition none.
    ///
    /// # Errors
    ///
    /// Out of memory.
    pub fn plans(&self, alloc: Global) -> Result<Vec<Verified>, AllocError>
        requires few { length self.now.policy.variables ≤ 65535 }
        ensures { IfOk result (λ v. v.items ≡ plans_of self.now.policy self.now.trees) }
    {
        plans_of(alloc, self.format, &self.policy, &self.trees)
    }
}
