//! Histories of writes, and what is seen of them: which objects are stored, at which revision, and which events were the last.
//!
//! ```text
//! let stored = Stored { document, beside, revision: 2 };
//! ```
//!
//! A history is a list of writes (`specs/History.antt`), and its view (`specs/View.antt`) is what is seen of it: the objects, the revision and
//! the last events. `AllFollow` says which lists of writes are histories of a store: each write may follow those before it. Beside each
//! document the caller may keep something of its own, such as the compiled code of a policy. Nothing is asked of it here: `specs/Mapped.antt`
//! has the same history with something else beside its documents. `specs/Wider.antt` says under which other rules a history stays one and is
//! seen as it was.
//!
//! Contracts alone speak of histories. The code has a [`Stored`] for each object of a view.
#![tactic(auto)]

mod stored;

pub use stored::Stored;
