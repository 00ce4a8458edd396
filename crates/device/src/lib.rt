//! A device: a row of sectors of 512 bytes that a crash may tear.
//!
//! [`Device`] says what calls give and what a crash leaves, at every moment, also inside a call. [`MemDevice`] is one in memory that
//! can be told to fail, to stop and to crash; [`FileDevice`] is a file of the operating system; [`SectorFile`] makes a device of any
//! [`RawFile`] of bytes.
//!
//! ```text
//! let mut device = MemDevice::new(alloc, 16)?;
//! write_through(&mut device, 0, &[1; 512])?;
//! device.stop_on(1);
//! let found = device.crash(&[Pick::New], 1);
//! ```
//!
//! An error is answered only where the device failed in that call, which its count of failures shows. While a device keeps the disk
//! model, each call says what reads give after it and bounds what a crash at any moment of it may leave. After a sync a crash leaves
//! what reads give.
#![tactic(auto)]

mod device;
mod file_device;
mod host_file;
mod memory;
mod raw_file;
mod script;
mod sector;
mod sector_file;

pub use device::{Device, DeviceFault, write_through};
pub use file_device::{CreateFault, FileDevice, OpenFault};
pub use host_file::HostFile;
pub use memory::{MemDevice, Pick};
pub use raw_file::RawFile;
pub use script::Counts;
pub use sector::{SECTOR, is_zero};
pub use sector_file::SectorFile;
