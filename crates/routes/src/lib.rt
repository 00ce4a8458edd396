//! The request that a message spells, and the bytes of the reply to it.
//!
//! ```text
//! let routes = Routes::new(alloc)?;
//! let front = route_front(alloc, &routes, store.format(), &messages);
//! let (replies, _) = store.run(alloc, &front.requests);
//! write_answers(&mut output, &mut sheet, &messages, &replies, &front.allows)?;
//! ```
//!
//! A path points to a collection or to an item of it, and a method asks for something there. Paths are compared byte by
//! byte, and nothing in them is decoded; queries are decoded as forms are. `route` gives the call that a message spells, or
//! the first refusal that shows in the message alone, and with it the methods that the path allows where the message's is
//! none of them; it fails only where memory is refused. `route_front` does so for the first messages of a group.
//!
//! Of messages and what is replied to them, a response each is gathered on a sheet and goes out in one piece where it has room for all.
//! Where there is no reply, memory was refused. An error leaves a beginning of the bytes written. Writing takes no memory.
#![tactic(auto)]

mod bodies;
mod collection;
mod front;
mod path;
mod query;
mod reply;
mod routes;
mod table;

pub use bodies::fault_body;
pub use front::{RoutedMessages, route_front};
pub use reply::{
    methods_at, write_answer, write_answers, write_fault, write_no_more, write_storage_failed,
};
pub use routes::{Routed, route};
pub use table::Routes;
