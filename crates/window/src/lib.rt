//! The window of the last events, which a watch is answered from.
//!
//! ```text
//! let mut window = Window::new(alloc, rules)?;
//! window.push(Change::Added, key, document);
//! for event in window.since(revision)? { .. }
//! ```
//!
//! After all events of a store, of which the first made revision 2, a [`Window`] holds the last of
//! them, as many as the rules of the store's format keep, and none of a write up to their floor. `since` tells the events above a revision,
//! oldest first, and refuses a revision exactly where it is above the current one, below the floor, or so far below the current one
//! that an event may have left the window. All its memory is taken by `new`.
#![tactic(auto)]

mod event;
mod window;

pub use event::{Change, Event};
pub use window::{Events, Window, WindowFault};
