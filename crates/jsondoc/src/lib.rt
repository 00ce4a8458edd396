//! Documents: JSON values (RFC 8259) whose numbers are all whole and in 64 signed bits, and their texts.
//!
//! ```text
//! let mut document = Doc::read(alloc, b"{\"b\": 1, \"a\": \"x\"}")?;
//! document.put(alloc, "c", Doc::from(2))?;
//! document.text(alloc)?                              // {"a":"x","b":1,"c":2}
//! ```
//!
//! Contracts see a [`Doc`] as its data, as `serde_json` defines it. [`Doc::read`] is exact: it gives the document, or says that the bytes are
//! no JSON, or that a number is no document's. [`Doc::text`] is the one text of a document, and a text reads back to its document.
//! [`Doc::text_with`] is the text of a document with one member more, made without a copy of the document.
//! [`text_escapes`] states how a text writes the bytes of a string.
#![tactic(auto)]

mod doc;
mod escapes;
mod members;
mod texts;
mod whole;

pub use doc::{Doc, JsonFault};
pub use escapes::text_escapes;
pub use serde_json::{Map, Value};
pub use texts::comma_if;
