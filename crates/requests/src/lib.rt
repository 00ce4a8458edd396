//! What a request asks, as far as the request alone tells: the refusals and their texts, the bodies of objects and of deletions, label
//! selectors, collections, the texts of revisions; and the replies that show what is seen of a history.
//!
//! ```text
//! let manifest = Manifest::read(alloc, Resource::ConfigMap, "default", None, body)?;
//! let request = Request::Create(manifest);
//!
//! let reply = listed(alloc, &objects, resource, &selector, revision)?;
//! let reply = told(alloc, &collection, events)?;
//!
//! if !is_text_of(alloc, asked, stored.revision)? { .. }     // another state than the one that is stored
//! ```
//!
//! `Manifest::read` decides what refuses the body of an object, wherever it comes from, `read_delete_options` what refuses that
//! of a DELETE, and `Selector::read` which texts are label selectors. What refuses a request by what is stored stands in
//! `apicore`.
//!
//! [`is_text_of`] compares the text of a revision, by which a request says which state of an object it means (Kubernetes API concepts,
//! "Resource versions"). Such a text is opaque: two are the same where their bytes are, and the same number has more than one text.
//!
//! `listed` replies with objects as a list, `told` with events as a watch tells them. What is seen of a history stands in `histories`.
#![tactic(auto)]

mod collection;
mod delete_options;
mod laws;
mod listing;
mod manifest;
mod namespaces;
mod refusal;
mod reply;
mod request;
mod selector;
mod version;
mod watching;

pub use collection::Collection;
pub use delete_options::read_delete_options;
pub use laws::{parts_are_spelled, stored_is_read};
pub use listing::listed;
pub use manifest::{BodyFault, Manifest};
pub use refusal::Refusal;
pub use reply::Reply;
pub use request::Request;
pub use selector::Selector;
pub use version::is_text_of;
pub use watching::told;
