//! What an expression of the Common Expression Language (CEL) means.
//!
//! `specs/Meaning.antt` defines the meaning of a tree, by cases on the tree: a value, or the one error. Compiled expressions are judged
//! by it. The functions here are its parts, each an operation on outcomes whose contract says that it gives exactly what its definition
//! does; the machine that runs compiled expressions calls them, and so does the plain program in `celplain`.
#![tactic(auto)]

mod arithmetic;
mod collections;
mod equality;
mod functions;
mod macros;
mod operators;
mod order;
mod texts;
mod value;

pub use collections::{has_member_of, index_of, list_of, map_of, member_of};
pub use functions::{called, method_called};
pub use macros::{LONGEST_RANGE, both, either, is_false, is_true, list_items, range_of, reduced};
pub use operators::{infixed, prefixed};
pub use value::{Outcome, Value};
