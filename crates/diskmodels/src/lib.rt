//! Two models in memory, which show that what is asked of a device and of a file can be met.
//!
//! [`Recorded`] is a device that remembers each moment, and so tells of the past what is true of it, and no more: `since` is what a crash
//! at some moment from then on, also inside a call, may have left. A crash takes all that was written since the last sync, or nothing of
//! it.
//!
//! [`MemoryFile`] is a file that a crash may tear, and keeps the disk model byte by byte, which is a premise wherever a file of the
//! operating system is meant: what is written is in the file for reads at once, and on its disk only after a sync. Of each change since
//! the last sync a crash may leave any part, as of the pages that an operating system has not written back.
//!
//! ```text
//! let mut device = SectorFile::new(MemoryFile::new(alloc));
//! write_through(&mut device, 0, &[1; 512])?;
//! device.write(1, &[2; 512])?;
//! let mut device = SectorFile::new(device.into_file().crash()?);
//! ```
//!
//! The device then has one sector.
#![tactic(auto)]

mod bytes;
mod found;
mod memory_file;
mod recorded;

pub use found::found_after_crash;
pub use memory_file::MemoryFile;
pub use recorded::Recorded;
