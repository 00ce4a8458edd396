//! Objects as documents: what is stored of an object, its metadata, how it is shown, and what label selectors ask of it.
//!
//! ```text
//! let document = Document::new(alloc, json)?;
//! let name = metadata_text(document.json(), "name");
//! let shown = shown_document(alloc, &document, 2)?;
//! ```
//!
//! A [`Document`] is an object's JSON (`jsondoc::Doc`) as it is stored, without a revision. Its copies share it, so that they cost no memory. `has_kind` and `has_metadata` decide whether JSON is
//! that of an object, `metadata_text` and `metadata_copy` read its metadata, and `shown_document` adds the revision of its last write. `shown_text` is the text of that. What is
//! stored under a key has the form of that key (`specs/Form.antt`).
//!
//! Label selectors (Kubernetes, "Labels and Selectors"): a [`Requirement`] is what one of their parts asks, and `selects` answers exactly
//! where an object meets each. Its labels are the texts among the members of `metadata.labels`. How selectors are spelled is said where
//! they are read: in queries (`requests`) and in policies (`policy`).
#![tactic(auto)]

mod metadata;
mod requirement;
mod selecting;
mod shown;
mod stored;

pub use metadata::{has_kind, has_metadata, metadata_copy, metadata_text};
pub use requirement::Requirement;
pub use selecting::{is_among, selects};
pub use shown::{shown_document, shown_from, shown_text};
pub use stored::Document;
