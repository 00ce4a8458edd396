//! HTTP/1.1 messages (RFC 9110, RFC 9112): from bytes to messages, and from a response to its bytes.
//!
//! ```text
//! let mut room = HeadRoom::new(alloc)?;                         // one for all cutters
//! let mut cutter = Cutter::new(alloc);
//! for message in cutter.feed(alloc, &mut room, piece)? { .. }    // as often as there is a piece
//! cutter.ending()?;
//!
//! Response::new(Status::of(200), body).closing(closes).write_at_once(&mut output, &mut sheet)?;
//! ```
//!
//! A stream of bytes has one list of messages and one end ([`one_stream`]). A message with a fault is its end, and so is one that says
//! `close`. A [`Cutter`] cuts bytes that come in pieces: its messages are those of the stream that the pieces make, once each and in order. A fault
//! is told as soon as the bytes hold it, after the messages before it, and each later call tells it again. What waits for its end is bounded, and
//! where memory is refused nothing changes. A response is written as its bytes, or after an error as a beginning of them.
#![tactic(auto)]

mod cut;
mod cutter;
mod front;
mod head;
mod message;
mod place;
mod response;
mod sheet;
mod status;
mod streams;

pub use cut::one_stream;
pub use cutter::{CutFault, Cutter, HeadRoom};
pub use head::{BODY_LIMIT, BrokenMessage, End, FIELD_LIMIT, HEAD_LIMIT, MessageFault, Method};
pub use message::Message;
pub use response::Response;
pub use sheet::Sheet;
pub use status::Status;
pub use streams::{Input, Output, Std, StreamFault, write_all};
