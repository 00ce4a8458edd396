//! The pages of the root that counts on a device: where a key stands among them, and those that were used last in memory.
//!
//! ```text
//! let first_keys = scan(alloc, &mut device, &root, &mut reader)?;
//! let mut shelf = Shelf::new(alloc, &device, root, first_keys)?;
//! let page = shelf.bring(alloc, &mut device, key)?;                           // reads one page, or none
//! let cell = shelf.cell(&device, page, key);
//! shelf.tell(alloc, &mut device, prefix, Reading::Passing, &mut reader)?;     // the entries whose keys begin so
//! shelf.start_over(&device, next, first_keys);                                // the pages of the next root, once it counts
//! ```
//!
//! Of each page a shelf has the first key, so it knows which page may have a key before it reads one. A page is read by one read of 64
//! sectors, checked, and kept in memory with the last 64 that were used. `bring` brings the page of a key into memory and `cell` looks the
//! key up in it; `tell` tells a reader the entries whose keys begin with a prefix, in order. What they answer is what the pages on the device hold, and
//! damage is answered only where they hold no entries that ascend.
//!
//! A shelf is given its device at each call, since a log grows behind the pages on the same device: what it holds stays where the device holds
//! the same up to the start of that log.
#![tactic(auto)]

mod fault;
mod page;
mod shelf;

pub use fault::ShelfFault;
pub use shelf::{PAGES_IN_MEMORY, Reading, Shelf};
