//! The rules that say for which writes a policy or a binding is.

ghost use Rattle.documents.specs.Requirement.{requirement_seen};
ghost use Rattle.std.specs.Prelude.{◌≡◌, [], None, Some, codes, map, option_map, IfOk, IsErrOf, string_bytes};
ghost use Rattle.std.specs.List.{list_all};
ghost use Rattle.serde_json.specs.View.{view};
ghost use Rattle.policy.specs.Forms.{perhaps};
ghost use Rattle.policy.specs.MatchRules.{is_plain, is_entry, resource_names_of};
ghost use Rattle.policy.specs.declared.form.FormFault.TheVariants as FormFault;

use crate::form::{
    Form, FormFault, choice, has_only, list, optional, optional_list, optional_or,
    required_filled_list,
};
use crate::match_rules::{MatchRules, Operation, OperationEntry, Rule, RuleEntry, RuleScope};
use crate::selector::Selector;
use documents::Requirement;
use serde_json::Value as Json;
use std::alloc::Global;

fn is_plain(text: &str) -> bool
    ensures { result ≡ is_plain text.now }
{
    text.as_bytes()
        .iter()
        .all(|byte| *byte != b'*' && *byte != b'/')
}

fn is_entry(text: &str) -> bool
    ensures { result ≡ is_entry text.now }
{
    text == "*" || is_plain(text)
}

impl Form for RuleEntry {
    ghost use Rattle.policy.specs.Rules as rules;
    ghost use Rattle.policy.specs.Rules.{entry_seen};
    ghost use Rattle.policy.specs.MatchRules.{entry_of};

    ghost Spelled = { rules.RuleEntry };

    ghost form_of = { entry_of };

    ghost seen = { entry_seen };

    fn read(alloc: Global, part: &Json) -> Result<RuleEntry, FormFault> {
        match part.as_str() {
            Some("*") => Ok(RuleEntry::Any),
            Some(text) if is_plain(text) => Ok(RuleEntry::Exactly(String::from_str(alloc, text)?)),
            _ => Err(FormFault::BadForm),
        }
    }
}

impl Form for OperationEntry {
    ghost use Rattle.policy.specs.declared.match_rules.OperationEntry.{OperationEntry};
    ghost use Rattle.policy.specs.MatchRules.{operation_of};

    ghost Spelled = { OperationEntry };

    ghost form_of = { operation_of };

    ghost seen = { λ operation. operation };

    fn read(_alloc: Global, part: &Json) -> Result<OperationEntry, FormFault> {
        choice(
            part,
            &[
                ("*", OperationEntry::Any),
                ("CREATE", OperationEntry::Exactly(Operation::Create)),
                ("UPDATE", OperationEntry::Exactly(Operation::Update)),
                ("DELETE", OperationEntry::Exactly(Operation::Delete)),
            ],
        )
    }
}

impl Form for RuleScope {
    ghost use Rattle.policy.specs.declared.match_rules.RuleScope.{RuleScope};
    ghost use Rattle.policy.specs.MatchRules.{scope_of};

    ghost Spelled = { RuleScope };

    ghost form_of = { scope_of };

    ghost seen = { λ scope. scope };

    fn read(_alloc: Global, part: &Json) -> Result<RuleScope, FormFault> {
        choice(
            part,
            &[
                ("Cluster", RuleScope::Cluster),
                ("Namespaced", RuleScope::Namespaced),
                ("*", RuleScope::Every),
            ],
        )
    }
}

// The names of objects that a rule is for.
fn resource_names(alloc: Global, rule: &Json) -> Result<Vec<String>, FormFault>
    ensures read { IfOk result (λ v. perhaps (codes "resourceNames") resource_names_of [] (view rule.now) ≡ Some (map string_bytes v.items)) }
    ensures refused { IsErrOf result FormFault.BadForm → perhaps (codes "resourceNames") resource_names_of [] (view rule.now) ≡ None }
{
    match rule.get("resourceNames") {
        Some(part) => {
            let names: Vec<String> = list(alloc, part)?;
            if are_entries(&names) {
                Ok(names)
            } else {
                Err(FormFault::BadForm)
            }
        }
        None => Ok(Vec::new(alloc)),
    }
}

fn are_entries(names: &[String]) -> bool
    ensures { result ≡ list_all is_entry (map string_bytes names.now) }
{
    for name in names {
        if !is_entry(name.as_str()) {
            return false;
        }
    }
    true
}

impl Form for Rule {
    ghost use Rattle.policy.specs.Rules as rules;
    ghost use Rattle.policy.specs.Rules.{rule_seen};
    ghost use Rattle.policy.specs.MatchRules.{rule_of};

    ghost Spelled = { rules.Rule };

    ghost form_of = { rule_of };

    ghost seen = { rule_seen };

    fn read(alloc: Global, part: &Json) -> Result<Rule, FormFault> {
        if !has_only(
            part,
            &[
                "operations",
                "apiGroups",
                "apiVersions",
                "resources",
                "resourceNames",
                "scope",
            ],
        ) {
            return Err(FormFault::BadForm);
        }
        Ok(Rule {
            operations: required_filled_list(alloc, part, "operations")?,
            groups: required_filled_list(alloc, part, "apiGroups")?,
            versions: required_filled_list(alloc, part, "apiVersions")?,
            resources: required_filled_list(alloc, part, "resources")?,
            names: resource_names(alloc, part)?,
            scope: optional_or(alloc, part, "scope", RuleScope::Every)?,
        })
    }
}

// What a selector asks, if there is one.
fn requirements_of(selector: Option<Selector>) -> Option<Vec<Requirement>>
    ensures { option_map (λ v. map requirement_seen v.items) result ≡ option_map (λ s. map requirement_seen s.requirements.items) selector }
{
    match selector {
        Some(selector) => Some(selector.requirements),
        None => None,
    }
}

impl Form for MatchRules {
    ghost use Rattle.policy.specs.Rules as rules;
    ghost use Rattle.policy.specs.Rules.{match_rules_seen};
    ghost use Rattle.policy.specs.MatchRules.{match_rules_of};

    ghost Spelled = { rules.MatchRules };

    ghost form_of = { match_rules_of };

    ghost seen = { match_rules_seen };

    fn read(alloc: Global, part: &Json) -> Result<MatchRules, FormFault> {
        if !has_only(
            part,
            &[
                "resourceRules",
                "excludeResourceRules",
                "objectSelector",
                "namespaceSelector",
            ],
        ) {
            return Err(FormFault::BadForm);
        }
        let everything = Selector {
            requirements: Vec::new(alloc),
        };
        Ok(MatchRules {
            rules: optional_list(alloc, part, "resourceRules")?,
            excluded: optional_list(alloc, part, "excludeResourceRules")?,
            objects: optional_or(alloc, part, "objectSelector", everything)?.requirements,
            namespaces: requirements_of(optional(alloc, part, "namespaceSelector")?),
        })
    }
}
