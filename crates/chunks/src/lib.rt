//! Entries as the pages of a format have them.
//!
//! ```text
//! let cells = all_cut(alloc, format, entries)?;                 // to be written
//!
//! let (first_keys, reader) = scan_whole(alloc, &mut device, &root, reader)?;                             // all entries of a root
//! let reader = tell_whole(alloc, &mut shelf, &mut device, prefix, Reading::Passing, reader)?;   // those whose keys begin so
//!
//! let first = first_key(alloc, format, &key)?;                  // one entry
//! let place = shelf.bring(alloc, &mut device, &first)?;
//! let value = value_under(alloc, &mut shelf, &mut device, place, &first, &key)?;
//!
//! let key = whole_key(format, cell_key);                        // of which entry a cell is
//! ```
//!
//! A page has 32768 bytes, and a value may be longer. So a format may cut values into chunks ([`names::Format::has_chunks`]): each chunk is a cell of the
//! pages, with a key of its own. A format that does not cut has one cell for each entry. The crates above speak of whole entries alone.
//!
//! # Chunks
//!
//! A chunk has 8000 bytes of the value. The last chunk of a value may have fewer, and has one at least. The chunks are numbered from 0. The number stands
//! at the end of the chunk's key, in two bytes, the highest first. In front of the number stands the key of the entry; behind the key of an object stands
//! a zero byte too, so that the chunks of objects ascend as their keys do. A value of 20000 bytes under the key `k` of an object has these chunks:
//!
//! | key | bytes of the value |
//! |---|---|
//! | `k 00 00 00` | 0 to 7999 |
//! | `k 00 00 01` | 8000 to 15999 |
//! | `k 00 00 02` | 16000 to 19999 |
//!
//! The values of objects are cut, whose keys begin with 1, and those of events, whose keys begin with 3. Other entries stand as they are. A value that is
//! cut is not empty, and has 65536 chunks at most.
//!
//! # What is promised
//!
//! `all_cut` gives exactly the chunks of the entries. At most one list of entries has these chunks ([`cut_entries_are_of_one_list`]). `scan_whole` and
//! `tell_whole` tell a reader the entries of the chunks that the pages have. They answer `Entry` only where no entries have these chunks, or the reader
//! refuses one of them. `value_under` answers the whole value that stands under a key. Of a value shorter than 8000 bytes it reads no page but the one
//! that was brought.
#![tactic(auto)]

mod cutting;
mod joining;
mod laws;
mod reading;

pub use cutting::{all_cut, first_key};
pub use joining::whole_key;
pub use laws::cut_entries_are_of_one_list;
pub use reading::{scan_whole, tell_whole, value_under};
