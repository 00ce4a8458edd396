//! What stands in a store, with what its documents spell, decoded: as memory holds it; histories with trees, and what is shown of them.
//!
//! ```text
//! let decoded = Decoded::of(alloc, manifest.document().json(), plans)?;
//! core.redo_put(alloc, manifest, decoded)?;
//! ```
//!
//! Beside each document a history has the trees of its expressions, and the core ([`Core`]) the plans of those trees, with what the document
//! spells as a policy and as a binding ([`Decoded`]). A store is a core over a source of the objects that lie below it. `specs/Standing.antt` says which
//! histories a store may have, and `specs/Shown.antt` what a core shows of one.
//!
//! `specs/Upgraded.antt` says what an upgrade to the newest format ([`newest_format`]) writes, and [`upgrades_follow`] is the law that a history stands
//! behind it. The other laws say what is seen of a history.
#![tactic(auto)]

mod decoded;
mod laws;
mod upgrade;

pub use decoded::{Core, Decoded};
pub use laws::{
    events_are_last, histories_show, key_has_last_write, no_namespaces, objects_ascend,
    revision_counts, trees_stay, upgrades_follow, upgrades_show, views_stay,
    views_stay_above_floor,
};
pub use upgrade::{is_newest, newest_format, upgraded_rules};
