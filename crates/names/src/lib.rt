//! The names of stored objects: the table of resources, well-formed names and namespaces, and keys with
//! their order and their bytes. A [`Format`] of the store's file fixes its [`Rules`].
//!
//! ```text
//! let key = Key::new(alloc, Resource::ConfigMap, "default", "settings")?;
//! assert_eq!(key.bytes(alloc)?, b"\x01default\0settings");
//! ```
//!
//! `check_name` and `check_namespace` answer exactly the DNS subdomains and labels of RFC 1123
//! section 2.1 in small letters, within their lengths, and take no memory. A `Key` is well formed
//! from its making on, is read back from its bytes alone, and has one spelling. Keys are ordered by
//! the number of their resource, then by namespace, then by name, and their bytes, compared one by
//! one, likewise.
#![tactic(auto)]

mod format;
mod key;
mod name;
mod resource;

pub use format::{Format, Rules, numbers_are_small};
pub use key::{Key, KeyFault};
pub use name::{check_name, check_name_of, check_namespace};
pub use resource::{Resource, ResourceTable, Scope};
