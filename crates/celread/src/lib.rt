//! A reader of the Common Expression Language (CEL): a text to the one tree that it spells.
//!
//! [`read`] cuts a text into tokens (`celtokens`) and gives the tree that these spell by the grammar of the CEL language definition, in
//! a profile without floats, byte strings, messages and enum names (`specs/Grammar.antt`, one constructor a production). Its contract says
//! so in both directions: a tree is given only where it is spelled, and [`ReadFault::NotInGrammar`] only where no tree is. Which calls are
//! macros is told by `celtree`. The limits on length and depth stand beside the grammar (`specs/Limits.antt`, `specs/Reading.antt`), and
//! each fault is the first that applies. [`ReadFault`] says which.
#![tactic(auto)]

mod descent;
mod fault;
mod limits;
mod parse_fault;
mod reading;

pub use fault::ReadFault;
pub use reading::{TEXT_LIMIT, read};
