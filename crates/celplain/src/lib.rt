//! A plain program for the meaning of an expression of the Common Expression Language (CEL).
//!
//! [`evaluate`] gives what a tree means where names stand for what an [`Environment`] says, by direct recursion over the tree and over
//! copies of values: its contract says that it gives exactly the meaning that `celmean` defines. No policy is run by it; `celcases` compares
//! what compiled expressions give with what it gives.
#![tactic(auto)]

mod environment;
mod meaning;

pub use environment::{Binding, Environment};
pub use meaning::evaluate;
