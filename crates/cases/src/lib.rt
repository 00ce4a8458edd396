//! What is done with each file of cases: its lines are given to a bench, its comparisons are counted, and those that fail are told by file
//! and line.
//!
//! A [`Bench`] does what the lines of a file say, and [`run_text`] gives them to it. A file holds rows, each by itself, or cases: a line
//! `case NAME` begins one on a new bench, and after a line that cannot be done the rest of its case is passed over. An empty
//! line, or one that begins with `#`, says nothing.
#![tactic(auto)]

mod report;
mod run;
mod text_builder;
mod word_reader;
mod words;
mod wrong;

pub use report::{Report, Told};
pub use run::{Bench, paths, run_text};
pub use text_builder::TextBuilder;
pub use word_reader::WordReader;
pub use words::{first_word, number, numbered, push_bytes, shown, spelled, text, yes_or_no};
pub use wrong::{Wrong, compare, compared, wanted};
