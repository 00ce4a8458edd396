//! The rows of the Common Expression Language (CEL): lines `TEXT => RESULT`.
//!
//! [`run_expressions`] runs their files. A file's ending says what its rows ask; `README.md` beside the files has the endings and
//! the format.
#![tactic(auto)]

mod bench;
mod bytes;
mod codes;
mod given;
mod notation;
mod outcomes;
mod scope;
mod texts;
mod tokens;
mod trees;
mod types;
mod values;

pub use bench::run_expressions;
use celtokens::one_reading;

/// The law of what the rows are asked of.
pub fn laws_of_expressions() {
    one_reading();
}
