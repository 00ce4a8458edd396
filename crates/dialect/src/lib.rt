//! Messages of Kubernetes clients, restated as messages that are served.
//!
//! ```text
//! match read(alloc, &routes, store.format(), &message)? {
//!     Reading::Plain => ..,            // the message is asked as it is
//!     Reading::Restated(other) => ..,  // this one is asked in its place
//!     Reading::Constant(text) => ..,   // this body answers it, with status 200
//! }
//! ```
//!
//! A client of Kubernetes sends pairs in queries, options and members of objects that ask for nothing here. They are left out by name, and an object
//! without a version and a kind gets those of its path. A pair that may change what a reply means is never left out: its message stays as it is, and is
//! refused as it always is ([`others_refused`]). A message that is served stays as it is too ([`served_stays`]), but for two: a watch, whose
//! `watch=True` is read as Kubernetes reads it, and a Namespace.
//!
//! A Namespace that is created or replaced gets the label `kubernetes.io/metadata.name` with its own name, as Kubernetes' API server gives it, whatever
//! value the client sent. It is a member of the object like any other: an object that is too large with it is refused as one that is too large. Where
//! metadata has no name, or has labels that are no object, nothing is added, and the metadata is refused as it always is.
//!
//! GET of the paths by which a client looks for resources is answered by constant bodies, which tell of the resources that a store of the format serves.
//! A restated message is not restated again (clause `once` of [`read`]). Nothing here asks a store.
#![tactic(auto)]

mod constant;
mod discovery;
mod labels;
mod laws;
mod nulls;
mod options;
mod pairs;
mod reading;

pub use constant::write_constant;
pub use laws::{others_refused, served_stays};
pub use reading::{Reading, read};
