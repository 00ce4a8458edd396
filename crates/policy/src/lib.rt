//! Admission policies and their bindings, read from documents, and the writes that they are for (Kubernetes,
//! admissionregistration.k8s.io/v1, and "Validating Admission Policy": `matchConstraints` and `matchResources`).
//!
//! ```text
//! let document = Doc::read(alloc, body)?;
//! match Policy::of(alloc, document.value())? {
//!     Some(policy) => policy.validations.len(),      // at least one
//!     None => 0,                                     // the document has not the form of a policy
//! }
//! let attempt = Attempt { operation: Operation::Create, key: &key, object: Some(&pod), old_object: None, namespace: None };
//! matches(&policy.constraints, &binding.resources, &attempt)
//! ```
//!
//! `specs/Policies.antt` and `specs/Bindings.antt` say which policy and which binding a document spells, member by member, and
//! `specs/MatchRules.antt` which rules. [`Policy::of`] and [`Binding::of`] give exactly these, and `None` exactly where there is
//! none. An unknown member, anywhere, is no form. Expressions are texts here and are not looked into.
//!
//! Rules match a write where it meets one of them and none of those that exclude, and where the object, or the one before the
//! write, is selected. A rule is met where each of its lists holds the write's value or `*`, its names hold the object's or are
//! none, and its scope is the resource's. A policy is asked for a write that its constraints and its binding's resources match,
//! where a binding without rules matches all, and never for writes to policies and bindings. `is_guarded` and
//! `matches` answer exactly that, and take no memory.
#![tactic(auto)]

mod attempt;
mod binding;
mod form;
mod match_rules;
mod named;
mod params;
mod policy;
mod rules;
mod selector;
mod validation;

pub use attempt::{Attempt, is_guarded, matches};
pub use binding::{Action, Binding};
pub use match_rules::{MatchRules, Operation, OperationEntry, Rule, RuleEntry, RuleScope};
pub use named::NamedExpression;
pub use params::{NotFound, ParamRef, Wanted};
pub use policy::{FailurePolicy, Policy};
pub use validation::{Reason, Validation};
