//! The header of a store's file and its two roots, of which one counts.
//!
//! A root says where a generation of the store lies: its pages, and behind them the first gate of its log. Its mark tells the store's format. Of the roots
//! whose gates are open the one of greater generation counts. Opening syncs the device and answers it, or that the content holds none.
//!
//! ```text
//! let first = start(&mut device, Format::First)?;
//! let root = synced_root(&mut device)?;
//! let log = Log::open(&mut device, root.log_sector())?;
//! ```
//!
//! The next generation is put in place while the root that counts stays as it is: [`next_root`] says where it lies, [`clear_slot`] closes the gate of the
//! other slot, the pages are written, and [`install`] writes the root and opens its gate. At every moment of it a crash leaves the old generation, or
//! the new one with an empty log, and after `install` answered `Ok` the new one.
//!
//! A new store is made on an empty device alone, and after its making answered `Ok` a crash leaves it as it is.
#![tactic(auto)]

mod generation;
mod new_store;
mod next;
mod open;
mod root;
mod sector;
mod slots;

pub use generation::{clear_slot, install};
pub use new_store::{StartFault, start};
pub use next::{Exhausted, next_first_sector, next_root};
pub use open::{RootFault, counted_root, synced_root};
pub use root::{Label, Root, Slot};
