//! Laws of the Common Expression Language (CEL) that join what stands in two crates, and that neither needs.
//!
//! `specs/Kinds.antt` says which values a type promises: a tree with a type by the table of `celtypes` means, as `celmean` defines it, a
//! value of that type's kind, or the error ([`meaning_has_the_kind`]). A tree that `celread` reads meets what `plan::compile` asks of its size
//! ([`read_trees_are_small`], `specs/Compilable.antt`). `instructions` judges a plan by one pass, front to back;
//! `specs/FirstFault.antt` knows no pass, and asks four questions of each place: the fault that the pass tells is that of the first
//! question that is answered with no ([`first_fault_is_first`]).
#![tactic(auto)]

mod laws;

pub use laws::{first_fault_is_first, meaning_has_the_kind, read_trees_are_small};
