//! What a request does to what is stored, and to what the policies among it say: one step of the model of the server.
//!
//! ```text
//! let prepared = prepare(&mut core, alloc, &mut source, &Request::Create(manifest))?;
//! core.take(prepared.write);
//! ```
//!
//! A step takes a history and a request, with what stands in the document that it asks to be stored, to a history and a reply. Each
//! write is asked of the policies and bindings that are stored just before it: one that they deny is refused, and is not stored.
//! A step has two halves. `prepare` takes all the memory that the step needs, and changes nothing that is seen. `Holdings::take` of `holdings` makes the change, and takes no memory.
//! Beside each document the model has the trees of its expressions, and the core (`decoded::Core`) the plans of those trees, with what the document
//! spells as a policy and as a binding.
//!
//! What refuses a request before the policies are asked is the table of `specs/Conditions.antt`: no path or no namespace, an object that stands there or does not, a revision that is not
//! current, what stands in the document, and the limits of the store. The policies look objects up in the core over its source, as `specs/StoreLookups.antt` says.
#![tactic(auto)]

mod attempts;
mod conflicts;
mod judging;
mod laws;
mod limits;
mod named;
mod namespaces;
mod placed;
mod prepared;
mod preparing;
mod reading;
mod refusing;
mod specification;
mod store_lookup;
mod wanted;

pub use holdings::Holdings;
pub use laws::{
    accepted_are_admitted, prepared_is_step, runs_are_steps, view_decides, writes_follow,
};
pub use prepared::Prepared;
pub use preparing::prepare;
pub use requests::{Reply, Request};
