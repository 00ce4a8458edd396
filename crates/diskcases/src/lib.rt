//! The cases of devices, logs, roots and pages.
//!
//! [`run_disk`] runs their files; `README.md` beside the files has their lines. [`check_files`] looks at devices over files of the
//! operating system. The bench of records uses [`Line`] too, and the bench of the store [`on_store_device`].
#![tactic(auto)]

mod bench;
mod chunk_lines;
mod device_lines;
mod file_devices;
mod generation_lines;
mod line;
mod log_lines;
mod notation;
mod other_devices;
mod page_lines;
mod root_lines;
mod scan_lines;
mod shelf_lines;
mod store_device;
mod writing_lines;

pub use bench::run_disk;
pub use device_lines::crash_words;
pub use file_devices::check_files;
pub use line::Line;
pub use notation::byte;
pub use store_device::{on_store_device, put};
