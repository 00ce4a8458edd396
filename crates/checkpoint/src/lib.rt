//! Checkpoints of a store: entries in pages, behind a root.
//!
//! The pages of a root are read by [`scan`], each once, and their entries told to a [`Reader`]. Which key begins each page, of
//! [`Entries`] that are cut into pages, is told by [`first_keys`].
//!
//! [`write`] writes entries as the next generation, while the root that counts stays as it is:
//!
//! ```text
//! let written = write(alloc, &mut device, &root, log.last_gate_sector(), label, &mut entries)?;
//! let log = Log::restart(&device, written.root.log_sector());
//! ```
//!
//! At every moment of it a crash leaves the old generation, or the new one with an empty log, and after it answered `Ok` the new one. Its
//! steps are [`first_keys`], [`roots::next_root`], [`roots::clear_slot`], the pages, and [`roots::install`].
#![tactic(auto)]

mod entry_list;
mod filling;
mod index;
mod page_writer;
mod reader;
mod scanning;
mod writing;

pub use entry_list::EntryList;
pub use filling::{Entries, EntriesFault, first_keys};
pub use reader::{Reader, ReaderFault};
pub use roots::{counted_root, next_first_sector};
pub use scanning::{ScanFault, scan};
pub use writing::{WriteFault, Written, write};
