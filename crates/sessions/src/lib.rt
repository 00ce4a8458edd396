//! What is served to several clients at once, in one thread and without waiting.
//!
//! ```text
//! session.take_piece(alloc, &mut tools, piece);                  // bytes that a client sent
//! let next = batch.gather(&mut sessions, first);                 // messages of all sessions, by turns
//! batch.answer(alloc, &mut tools, &mut sessions, &mut store)?;   // one group of the store
//! session.sent(alloc, count);                                    // this many bytes of `session.rest()`
//! ```
//!
//! A [`Session`] is one client's: how far its bytes are cut into messages, those that wait to be answered, and the bytes that wait to be
//! sent. It touches no socket: its caller reads pieces and sends what is in its outbox. A [`Batch`] takes as many messages of all sessions
//! as a record of the store holds writes. The store answers them as one group, and each reply is put into the outbox of the session that
//! asked, so none leaves before the group's writes are synced.
//!
//! Where a log is kept, [`Tools::keep_notes`] is called first: then a [`Note`] is kept of each reply of a batch, its status code and its length,
//! beside the messages that were answered.
//!
//! Where the clients are Kubernetes', a [`Later`] stands before each session: it takes the messages that a piece gave, and gives them back restated, in their
//! order. Those that ask which resources there are it answers itself.
//!
//! A caller reads from a client only where the session is open and idle and has nothing to be sent. So what a session holds is bounded by
//! one read of bytes, the messages of one read, and the replies to them.
#![tactic(auto)]

mod batch;
mod later;
mod laws;
mod note;
mod notes;
mod outbox;
mod session;
mod tally;
mod turn;

pub use batch::{Batch, UNSENT_LIMIT};
pub use later::Later;
pub use laws::turns_are_runs;
pub use note::Note;
pub use outbox::Outbox;
pub use session::{Session, Tools};
