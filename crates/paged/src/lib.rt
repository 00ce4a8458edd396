//! The objects of a store: those of its last checkpoint lie in pages, and what was put or removed since, policies and bindings are held in memory.
//!
//! ```text
//! let mut chosen = Chosen::new(alloc);
//! // for each payload of the log, one after the other
//! chosen.add(alloc, &written_keys(alloc, &[payload])?)?;
//! let mut paged = Paged::read(alloc, &mut device, rules, &root, chosen)?;
//! // and once more, for each payload
//! paged = paged.redone(alloc, &[payload])?;
//! let prepared = paged.prepare(alloc, &mut device, &request)?;
//! paged.take(prepared.write);
//! ```
#![tactic(auto)]

mod chosen;
mod compacting;
mod fault;
mod handing_on;
mod preparing;
mod reading;
mod state;
mod without_plans;

pub use chosen::Chosen;
pub use compacting::{NextCheckpoint, NextUpgraded};
pub use fault::{NextFault, PagedFault};
pub use state::Paged;
pub use without_plans::WithoutPlans;
