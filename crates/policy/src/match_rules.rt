//! The match rules of policies and bindings.

ghost use Rattle.std.specs.Prelude.{◌≡◌};
ghost use Rattle.policy.specs.MatchRules.{no_rules};
ghost use Rattle.policy.specs.Rules.{match_rules_seen};

use documents::Requirement;
use std::alloc::Global;

/// What a write does to its object.
#[derive(Clone, Copy, PartialEq, Eq)]
pub enum Operation {
    Create,
    Update,
    Delete,
}

/// The operations that an entry of a rule stands for.
#[derive(Clone, Copy)]
pub enum OperationEntry {
    /// Every operation, written `*`.
    Any,
    /// This one.
    Exactly(Operation),
}

/// The texts that an entry of a rule stands for.
#[derive(Drop)]
pub enum RuleEntry {
    /// Every text, written `*`.
    Any,
    /// This one.
    Exactly(String),
}

/// The resources that a rule is for.
#[derive(Clone, Copy)]
pub enum RuleScope {
    /// Those whose objects stand in no namespace.
    Cluster,
    /// Those whose objects stand in a namespace.
    Namespaced,
    /// All of them, written `*`.
    Every,
}

/// A rule on writes: each part of it must be met.
#[derive(Drop)]
pub struct Rule {
    /// What the write does is one of these.
    pub operations: Vec<OperationEntry>,
    /// The API group of the resource is one of these. The core group's name is empty.
    pub groups: Vec<RuleEntry>,
    /// The version of the resource is one of these.
    pub versions: Vec<RuleEntry>,
    /// The plural of the resource is one of these.
    pub resources: Vec<RuleEntry>,
    /// The name of the object is one of these; where there are none, it may have any.
    pub names: Vec<String>,
    /// The scope of the resource.
    pub scope: RuleScope,
}

/// The writes that a policy, or a binding, is for. A policy without rules is for none, a binding without rules for all that the
/// other members leave.
#[derive(Drop)]
pub struct MatchRules {
    /// One of these rules is met.
    pub rules: Vec<Rule>,
    /// None of these rules is met.
    pub excluded: Vec<Rule>,
    /// The object, or the one before the write, is there and meets all of these.
    pub objects: Vec<Requirement>,
    /// The Namespace that the object stands in meets all of these, and the object itself does where it is a Namespace. Nothing is asked without
    /// them, nor of another object that stands in no namespace.
    pub namespaces: Option<Vec<Requirement>>,
}

impl MatchRules {
    /// For all writes, as a binding's resources.
    pub(crate) fn everything(alloc: Global) -> MatchRules
        ensures { match_rules_seen result ≡ no_rules }
    {
        MatchRules {
            rules: Vec::new(alloc),
            excluded: Vec::new(alloc),
            objects: Vec::new(alloc),
            namespaces: None,
        }
    }
}
