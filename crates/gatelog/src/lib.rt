//! An append-only list of payloads on a device, each behind a gate that is opened once the payload is on the disk.
//!
//! ```text
//! let mut log = Log::start(&mut device, 8)?;
//! device.sync()?;
//! let mut body = Body::new(alloc)?;
//! body.extend(b"payload")?;
//! log.append(&mut device, body)?;
//! let payloads = Log::open(&mut device, 8)?.records(alloc, &mut device)?;
//! ```
//!
//! [`Log::payload`] gives the payloads one after the other, so that one of them is held at a time:
//!
//! ```text
//! let mut ahead = ReadAhead::new(alloc, device)?;
//! let mut log = Log::open(&mut ahead, 8)?;
//! let mut gate = log.first_gate_sector();
//! while let Some((payload, next)) = log.payload(alloc, &mut ahead, gate)? {
//!     gate = next;
//! }
//! let device = ahead.into_device();
//! ```
//!
//! During an append a crash leaves the old list or the list with one more, and after a failure a read finds one of the two; after an
//! append that answered `Ok` the list with one more is on the disk. Opening finds exactly the list that stands, of which there is at
//! most one, and says `Damaged` exactly where none does. After a device failure a log touches the device no more until it is opened
//! again.
//!
//! [`ReadAhead`] is a device round another one: it reads pieces of up to 1 MiB, so that the many short reads of a walk cost few calls.
#![tactic(auto)]

mod fault;
mod gate_log;
mod read_ahead;
mod reading;
mod record;
mod write_record;

pub use fault::LogFault;
pub use gate_log::Log;
pub use read_ahead::ReadAhead;
pub use record::Body;
pub use write_record::OPEN;
