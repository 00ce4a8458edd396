//! The machine that runs compiled expressions, and the values of documents.
//!
//! It runs verified plans alone (`plancode::decode`). In a well-formed plan no instruction misses an operand, no name is unknown, no place
//! lies outside of the code, and each body of a macro ends with one outcome; so nothing of this is looked at while a plan runs, and there
//! is no fault that it could answer but out of memory.
//!
//! `specs/Documents.antt` says what value a JSON value has in the Common Expression Language (CEL): null, truth values, numbers, texts,
//! lists, and maps whose keys are texts. [`value_of`] gives it, as a copy.
//!
//! A plan is run over documents where they lie: the stack holds outcomes, and parts of documents, and what an expression takes from a
//! document is copied only where an operation needs a value. The macros `all` and `exists` run no item after the one that decides them.
#![tactic(auto)]

mod bound;
mod document;
mod held;
mod machine;
mod operations;
mod parts;
mod stack;

pub use bound::Bindings;
pub use document::value_of;
pub use machine::run;
