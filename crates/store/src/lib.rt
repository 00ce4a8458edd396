//! A store, for a program that keeps one: the few calls that it needs, and what they promise from the bytes of a connection to the sectors of a device.
//!
//! ```text
//! fn main(rt: HostRuntime) -> ExitCode {
//!     let mut device = match FileStorage::new(&rt).create("store.db") {
//!         Ok(device) => device,
//!         Err(fault) => return failed(&rt, fault),
//!     };
//!     if let Err(fault) = create(&mut device, Format::Third) {
//!         return failed(&rt, fault);
//!     }
//!     let mut requests = Std::new(rt.stdin());
//!     let mut replies = Std::new(rt.stdout());
//!     match answer(rt.alloc(), device, &mut requests, &mut replies) {
//!         Ok(_) => ExitCode::from(0),
//!         Err((fault, _)) => failed(&rt, fault),
//!     }
//! }
//! ```
//!
//! This is the program `quickstart`: it makes a store in a new file, and answers the HTTP requests of its input. Its `failed` tells the fault, and ends with 1.
//!
//! | To | Call |
//! |---|---|
//! | have a device | [`Storage`], [`FileStorage`], or a [`Device`] of your own |
//! | make a store on it | [`create`] |
//! | answer one connection | [`answer`], which opens the store and gives the device back |
//! | answer many | [`Store::open`], [`serve`] for each, [`Store::into_device`] |
//! | make it small, check it, upgrade it | [`compact`], [`check`], [`upgrade`] |
//!
//! [`answer`] has the theorem of this project. From a device that holds a history, the bytes that are written are the model's replies to the messages that
//! were read. Each write that was accepted was admitted by the policies just before it. The device then holds the history followed by these writes, and a
//! crash at any moment leaves the history followed by some first ones of them. [`compact`] and [`check`] leave the history as it is, at every moment. [`upgrade`]
//! leaves it as it is or in the newest format, at every moment one of the two. There it has the same writes, and behind those of the first format a Namespace
//! for each that objects stand in.
//! All of them are generic over the device, so they hold of each device that keeps the disk model.
#![tactic(auto)]

mod answering;
mod cause;
mod damaged;
mod fault;
mod storage;
mod upkeep;

pub use crate::answering::answer;
pub use crate::cause::Cause;
pub use crate::damaged::damaged_place;
pub use crate::fault::AnswerFault;
pub use crate::storage::{FileStorage, Storage};
pub use crate::upkeep::{check, compact, upgrade};
pub use api::{ServeFault, serve};
pub use damage::Place;
pub use device::{CreateFault as FileCreateFault, Device, DeviceFault, FileDevice, OpenFault};
pub use durable::{
    Checked, Compacted, CreateFault, Damage, Fault, Store, UpgradeFault, Upgraded, create,
};
pub use httpmsg::{End, Input, Output, Std, StreamFault, write_all};
pub use names::Format;
