//! The entries of objects after changes, where what no change covers is handed on as bytes.
//!
//! ```text
//! let entries = merged_entries(alloc, core.changes(), cells)?; // of the objects that the changes leave of those with these cells
//! ```
//!
//! An object lies in pages as a cell, which stands under its key. Where it was not written since, its entry is the same in the next generation. So no document
//! is decoded and made text again: changes and cells are taken in turn, in the order of keys.
#![tactic(auto)]

mod merging;

pub use merging::merged_entries;
