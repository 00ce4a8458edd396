//! A write that asks for admission, and whether rules match it.

ghost use Rattle.std.specs.Prelude.{◌≡◌, map, option_map, unwrap_or, string_bytes, true, false};
ghost use Rattle.std.specs.List.{list_any};
ghost use Rattle.std.specs.Option.{option_map_or};
ghost use Rattle.serde_json.specs.Data.{null};
ghost use Rattle.serde_json.specs.View.{view};
ghost use Rattle.policy.specs.Matching.{is_guarded, is_parameter, holds_operation, holds_text, is_text, allows_name, fits, has_resource, has_object, meets_rule, selects_either, selects_home, selects_namespace, takes, is_constrained, is_bound, is_matched};
ghost use Rattle.policy.specs.Rules.{attempt_seen, entry_seen, match_rules_seen, rule_seen};
ghost use Rattle.documents.specs.Requirement.{requirement_seen};
ghost use Rattle.documents.specs.Selecting.{selects};

use crate::match_rules::{MatchRules, Operation, OperationEntry, Rule, RuleEntry, RuleScope};
use documents::{Requirement, is_among, selects};
use names::{Key, Resource, Scope};
use serde_json::Value;

/// A write that asks for admission.
#[derive(Clone, Copy)]
pub struct Attempt<'a> {
    /// What it does.
    pub operation: Operation,
    /// The key of its object.
    pub key: &'a Key,
    /// The document that is to be stored; a deletion has none.
    pub object: Option<&'a Value>,
    /// The document as it was shown before; a creation has none.
    pub old_object: Option<&'a Value>,
    /// The Namespace that its object stands in, as it is shown; what is cluster-scoped has none.
    pub namespace: Option<&'a Value>,
}

/// Whether policies are asked for writes to the resource: those to policies and bindings are never matched.
pub fn is_guarded(resource: Resource) -> bool
    ensures { result ≡ is_guarded resource }
{
    !matches!(
        resource,
        Resource::ValidatingAdmissionPolicy | Resource::ValidatingAdmissionPolicyBinding
    )
}

/// Whether objects of the resource may be parameters of a policy: policies, bindings and namespaces are none.
pub(crate) fn is_parameter(resource: Resource) -> bool
    ensures { result ≡ is_parameter resource }
{
    !matches!(
        resource,
        Resource::ValidatingAdmissionPolicy
            | Resource::ValidatingAdmissionPolicyBinding
            | Resource::Namespace
    )
}

/// Whether a policy with these constraints, bound for these resources, is asked for the write.
pub fn matches(constraints: &MatchRules, resources: &MatchRules, attempt: &Attempt<'_>) -> bool
    ensures { result ≡ is_matched (match_rules_seen constraints.now) (match_rules_seen resources.now) (attempt_seen attempt.now) }
{
    is_guarded(attempt.key.resource())
        && is_constrained(constraints, attempt)
        && is_bound(resources, attempt)
}

// Whether the policy's constraints are for the write.
fn is_constrained(constraints: &MatchRules, attempt: &Attempt<'_>) -> bool
    ensures { result ≡ is_constrained (match_rules_seen constraints.now) (attempt_seen attempt.now) }
{
    meets_some(&constraints.rules, attempt) && takes(constraints, attempt)
}

// Whether the binding's resources have the write.
fn is_bound(resources: &MatchRules, attempt: &Attempt<'_>) -> bool
    ensures { result ≡ is_bound (match_rules_seen resources.now) (attempt_seen attempt.now) }
{
    (resources.rules.is_empty() || meets_some(&resources.rules, attempt))
        && takes(resources, attempt)
}

// Whether no rule excludes the write, and the selectors take it.
fn takes(rules: &MatchRules, attempt: &Attempt<'_>) -> bool
    ensures { result ≡ takes (match_rules_seen rules.now) (attempt_seen attempt.now) }
{
    !meets_some(&rules.excluded, attempt)
        && selects_either(&rules.objects, attempt)
        && takes_namespace(rules, attempt)
}

// Whether the selector of namespaces takes the write, if there is one.
fn takes_namespace(rules: &MatchRules, attempt: &Attempt<'_>) -> bool
    ensures { result ≡ option_map_or (λ requirements. selects_namespace requirements (attempt_seen attempt.now).key.resource (attempt_seen attempt.now)) (match_rules_seen rules.now).namespaces true }
{
    match &rules.namespaces {
        Some(requirements) => selects_namespace(requirements, attempt),
        None => true,
    }
}

// Whether the labels of the namespace that an object stands in are selected, or the object's own where it is a Namespace.
fn selects_namespace(requirements: &[Requirement], attempt: &Attempt<'_>) -> bool
    ensures { result ≡ selects_namespace (map requirement_seen requirements.now) (attempt_seen attempt.now).key.resource (attempt_seen attempt.now) }
{
    match attempt.key.resource() {
        Resource::Namespace => selects_own(requirements, attempt),
        resource => selects_home(requirements, resource.scope(), attempt.namespace),
    }
}

// Whether the labels of the object are selected, as it is to be stored, or as it was shown where it is deleted.
fn selects_own(requirements: &[Requirement], attempt: &Attempt<'_>) -> bool
    ensures { result ≡ selects (map requirement_seen requirements.now) (unwrap_or (attempt_seen attempt.now).object (unwrap_or (attempt_seen attempt.now).old_object null)) }
{
    let absent = Value::Null;
    let own = attempt.object.or(attempt.old_object).unwrap_or(&absent);
    selects(requirements, own)
}

// Whether the labels of the namespace that an object stands in are selected, if it stands in one.
fn selects_home(requirements: &[Requirement], scope: Scope, home: Option<&Value>) -> bool
    ensures { result ≡ selects_home (map requirement_seen requirements.now) scope (option_map (λ d. view d.now) home.entry) }
{
    let absent = Value::Null;
    match scope {
        Scope::Namespaced => selects(requirements, home.unwrap_or(&absent)),
        Scope::Cluster => true,
    }
}

// Whether the write meets some of the rules.
fn meets_some(rules: &[Rule], attempt: &Attempt<'_>) -> bool
    ensures { result ≡ list_any (meets_rule (attempt_seen attempt.now)) (map rule_seen rules.now) }
{
    rules.iter().any(|rule| meets_rule(attempt, rule))
}

fn meets_rule(attempt: &Attempt<'_>, rule: &Rule) -> bool
    ensures { result ≡ meets_rule (attempt_seen attempt.now) (rule_seen rule.now) }
{
    holds_operation(&rule.operations, attempt.operation) && has_object(rule, attempt.key)
}

// Whether the rule is for the object with this key.
fn has_object(rule: &Rule, key: &Key) -> bool
    ensures { result ≡ has_object (rule_seen rule.now) key.now }
{
    has_resource(rule, key.resource()) && allows_name(&rule.names, key.name())
}

// Whether the rule is for the resource.
fn has_resource(rule: &Rule, resource: Resource) -> bool
    ensures { result ≡ has_resource (rule_seen rule.now) resource }
{
    holds_text(&rule.groups, resource.group())
        && holds_text(&rule.versions, resource.version())
        && holds_text(&rule.resources, resource.plural())
        && fits(rule.scope, resource.scope())
}

// Whether the list holds the operation, or `*`.
fn holds_operation(entries: &[OperationEntry], operation: Operation) -> bool
    ensures { result ≡ holds_operation entries.now operation }
{
    entries.iter().any(|entry| match *entry {
        OperationEntry::Any => true,
        OperationEntry::Exactly(wanted) => operation == wanted,
    })
}

// Whether the list holds the text, or `*`.
fn holds_text(entries: &[RuleEntry], text: &str) -> bool
    ensures { result ≡ holds_text (map entry_seen entries.now) text.now }
{
    entries.iter().any(|entry| is_text(entry, text))
}

// Whether the entry is the text, or `*`.
fn is_text(entry: &RuleEntry, text: &str) -> bool
    ensures { result ≡ is_text text.now (entry_seen entry.now) }
{
    match entry {
        RuleEntry::Any => true,
        RuleEntry::Exactly(wanted) => text == wanted.as_str(),
    }
}

// Whether the name is one of these, or there are none.
fn allows_name(names: &[String], name: &str) -> bool
    ensures { result ≡ allows_name (map string_bytes names.now) name.now }
{
    names.is_empty() || is_among(names, name)
}

fn fits(scope: RuleScope, of_resource: Scope) -> bool
    ensures { result ≡ fits scope of_resource }
{
    match scope {
        RuleScope::Every => true,
        RuleScope::Cluster => of_resource == Scope::Cluster,
        RuleScope::Namespaced => of_resource == Scope::Namespaced,
    }
}

// Whether the object, or the one before the write, is there and selected.
fn selects_either(requirements: &[Requirement], attempt: &Attempt<'_>) -> bool
    ensures { result ≡ selects_either (map requirement_seen requirements.now) (attempt_seen attempt.now) }
{
    is_selected(requirements, attempt.object) || is_selected(requirements, attempt.old_object)
}

// Whether the object is there and selected.
fn is_selected(requirements: &[Requirement], object: Option<&Value>) -> bool
    ensures { result ≡ option_map_or (selects (map requirement_seen requirements.now)) (option_map (λ d. view d.now) object.entry) false }
{
    object.is_some_and(|object| selects(requirements, object))
}
