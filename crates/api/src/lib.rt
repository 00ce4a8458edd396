//! From the bytes of a connection to the bytes of its replies.
//!
//! ```text
//! let mut store = Store::open(alloc, device)?;
//! let end = serve(alloc, &mut input, &mut output, &mut store)?;
//! ```
//!
//! From a store that is settled at a history, what `serve` writes are the replies of the model to the messages of the stream
//! that was read, and then the reply of its end; the store is then settled after their accepted writes, and a crash at any
//! moment leaves the history followed by some first ones of them. Each fault says what was read, what was written and what
//! the store holds, and is returned only if what it names failed.
#![tactic(auto)]

mod answer;
mod connection;
mod fault;
mod laws;
mod piece;

pub use answer::{answered_count, replies_to};
pub use connection::serve;
pub use fault::ServeFault;
pub use httpmsg::{Input, Output, Std};
pub use laws::answers_are_runs;
pub use routes::{Routes, fault_body, route};
