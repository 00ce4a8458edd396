//! Connections to an address, served at once, in one thread.
//!
//! ```text
//! let mut server = Server::bind(net, alloc, address, limits)?;   // listens, with all memory that is known beforehand
//! server.run(clock, alloc, &mut store, &mut log)?;               // until as many connections as it may accept have ended
//! ```
//!
//! Each client has a place: a [`sessions::Session`] and a socket that does not wait. Each turn of the loop sends what waits to be sent, reads
//! one piece of each client of which nothing waits, and answers up to 16 messages of all clients as one group of the store. So a client that
//! sends nothing, or that does not read, holds nobody else. Between two turns the store is compacted, where the limits ask for it and its log is long.
//!
//! Where the clients are Kubernetes', a [`sessions::Later`] stands before each session: what was read is restated before it is answered. What is proved of what
//! each client was served is said of the others alone.
//!
//! The theorem of the server is the contract of `EventLoop::run`, over every network and every stream: each client was sent the replies to its own
//! messages, in their order, and the store has applied one list of all messages. No reply is put where it may be sent before its group's second
//! sync. The system tells which sockets are ready. No contract says that it tells each of them.
#![tactic(auto)]

mod compacting;
mod desk;
mod event_loop;
mod fault;
mod journal;
mod laws;
mod line;
mod moving;
mod network;
mod places;
mod server;
mod socket;
mod sockets;
mod stream;

pub use crate::event_loop::Limits;
pub use crate::fault::{BindFault, ClientsFault};
pub use crate::laws::texts_are_shown;
pub use crate::server::Server;
