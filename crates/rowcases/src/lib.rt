//! The rows of what no store shows: names, keys, the map of objects, and documents by their calls; and the cases of what is stored as bytes: records
//! and the stores that they spell, under limits of their own, entries and the views that they keep.
//!
//! [`run_rows`] and [`run_records`] run their files, lines `QUESTION => ANSWER`; the questions are told in `README.md` beside the files. Beside them
//! stands what the benches of requests and replies do alike: [`Exchange`] is the bench of exchanges over a connection, line by line, with a
//! [`Service`] that serves the connection and is asked beside.
#![tactic(auto)]

mod bench;
mod core_lines;
mod documents_asked;
mod edits;
mod entry_lines;
mod exchange;
mod laws;
mod names_asked;
mod record_bench;
mod record_lines;
mod sent;
mod stored;
mod streams;
mod texts;
mod view_lines;

pub use bench::{run_records, run_rows};
pub use exchange::{Exchange, Service};
pub use laws::{laws_of_histories, laws_of_records, laws_of_requests};
pub use sent::{message, short};
pub use streams::{fault_word, routed_first};
