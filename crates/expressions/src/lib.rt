//! What stands in the `spec` of an object: whether a policy or a binding has the form of one, and a policy's expressions, which are read,
//! typed and compiled; and the key of the policy that a binding names.
//!
//! ```text
//! match specification_of(alloc, format, resource, &document)? {
//!     Specification::Sound(plans) => ..,                // the plans of a policy; none for the others
//!     Specification::BadSpec => ..,
//!     Specification::BadExpression(text) => ..,         // the first that is bad
//! }
//! let bytes = plans_bytes(alloc, resource, &StoredPlans::Plans(plans))?;    // what a record holds of them
//! let plans = stored_plans(alloc, resource, &document, &bytes)?;
//! ```
//!
//! The expressions of a policy are its match conditions, its variables and its validations, each with its message expression
//! (`specs/Expressions.antt` says which, and what each may name and must give). [`TypedPolicy::read`] gives the trees that they spell
//! where each has a type as it must, and else tells the first that is bad: both directions stand in its contract, and no other trees
//! are spelled. [`TypedPolicy::plans`] gives the code of each tree, after the variables that it may name. `specs/Specification.antt`
//! says by these what stands in an object. Objects of the other resources have no form, so all of them are sound.
//!
//! The format of the store decides whether namespaces are objects. Where they are, a policy may have a selector of namespaces, and its
//! expressions may name `namespaceObject`. [`specifications_stay`] is the law that what stands in an object stands there in each format that
//! has as many resources.
#![tactic(auto)]

mod bound;
mod fault;
mod laws;
mod places;
mod planning;
mod reading;
mod source;
mod specification;
mod stored;
mod tree;
mod typed_policy;
mod typing;

pub use bound::Bound;
pub use fault::PolicyFault;
pub use laws::{expressions_fit_the_text, one_stored_list, specifications_stay, variables_are_few};
pub use specification::{Specification, specification_of};
pub use stored::{StoredPlans, plans_bytes, stored_plans};
pub use typed_policy::TypedPolicy;
