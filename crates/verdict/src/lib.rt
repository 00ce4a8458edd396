//! The verdict of admission policies on a write, of one binding and of all (Kubernetes, "Validating Admission Policy").
//!
//! ```text
//! let attempt = Attempt { operation: Operation::Create, key: &key, object: Some(document.value()), old_object: None, namespace: None };
//! match admit(alloc, &mut lookup, &attempt)? {
//!     Verdict::Admitted(warnings) => reply(warnings),
//!     Verdict::Denied { policy, binding, reason, message } => {
//!         refuse(reason, denial_text(alloc, &policy, &binding, &message)?)
//!     }
//! }
//! ```
//!
//! What one validation says by its outcome is said by `specs/Told.antt`, and what a denial by a binding comes to by `specs/Verdict.antt`.
//!
//! What policies, bindings and parameters there are is asked of a [`Lookup`], as it stands before the write: it lends what documents spell as
//! policies, with their plans, and as bindings, so that none is read again or copied, and may read parameters from a device. `specs/Objects.antt` says what is held
//! of an object, and each look of a [`Lookup`] gives that of any list of objects which the lookup shows, and of policies and bindings that of what it lends.
//!
//! ```text
//! for listed in lookup.bindings(alloc)? {
//!     if let Some(bound) = listed.found.bound {
//!         let policy = lookup.policy(bound.policy_key());
//!     }
//! }
//! ```
//!
//! What a policy says of a write is evaluated by the plans of its expressions. `specs/Denials.antt` says it by what its expressions mean, and
//! `specs/Environment.antt` what they see of the write. Where the plans are those of the policy's expressions, each with a type (`specs/Ready.antt`),
//! [`conditions`] and [`evaluate`] answer exactly that. They answer whatever the plans are, and fail only when out of memory.
//! [`request_document`] is the document `request` that expressions see of a write (`specs/Request.antt`), and [`denial_text`] and [`warning`] are what is
//! told of a denial (`specs/Texts.antt`).
//!
//! A binding whose policy matches the write, and whose match conditions are met, looks its parameters up and evaluates the policy with
//! each: the first denial is its own. `specs/OneBinding.antt` says what one binding gives over a list of objects, and [`denial`] gives that of each list which the
//! lookup shows, as long as the plans are those of the policy's expressions.
//!
//! Each binding is asked so, ascending by name. The first denial by a binding that denies is the
//! verdict. A denial by a binding that warns becomes a warning.
//! `specs/Admission.antt` says the verdict of a list of objects, and [`admit`] gives that of each list which the lookup shows, as
//! long as each object has the trees of its expressions there.
#![tactic(auto)]

mod admission;
mod answers;
mod deciding;
mod denials;
mod laws;
mod lookup;
mod messages;
mod one_binding;
mod outcomes;
mod parameters;
mod request;
mod scene;
mod texts;
mod together;
mod validations;
mod verdict;

pub use admission::admit;
pub use answers::Conditions;
pub use denials::Denial;
pub use expressions::TypedPolicy;
pub use laws::bindings_ascend;
pub use lookup::{FoundObject, ListedObject, Lookup};
pub use one_binding::denial;
pub use request::request_document;
pub use texts::{denial_text, warning};
pub use together::conditions;
pub use validations::evaluate;
pub use verdict::Verdict;
