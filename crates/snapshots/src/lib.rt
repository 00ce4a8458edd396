//! What a checkpoint keeps of a store: from the core to its entries and back, and the objects as they lie in its pages, below what is held in memory.
//!
//! ```text
//! let view = shown(alloc, &core, &objects_below)?;              // to be kept
//! let manifests = new_namespaces(alloc, &view)?;                // for an upgrade, with the Namespaces that it has not
//! let added = Added::of(alloc, view.revision(), manifests)?;
//! let view = view.with(alloc, &added, rules.window_events)?;
//! let mut entries = entries_of(alloc, format, &view)?;          // to be written
//! let written = write(alloc, &mut device, &root, last_gate_sector, label, &mut entries)?;
//!
//! let kept_entries = KeptEntries::new(alloc, &chosen);                       // to be read again
//! let (first_keys, kept_entries) = scan_whole(alloc, &mut device, &root, kept_entries)?;
//! let core = restored(alloc, rules, kept_entries.kept(), &below, kept_entries.objects(), root.label.revision)?;
//!
//! let core = renewed(alloc, rules, view, &below)?;              // or held on once it is written
//!
//! let mut cache = ObjectCache::new(alloc, shelf);                     // and the objects in its pages
//! let cached = cache.find(alloc, &mut device, &key)?;          // reads one page, or none; more of a value in chunks
//! let pods = cache.list(alloc, &mut device, Resource::Pod, Some("default"))?;
//! let stands = cache.has_unchanged(alloc, &mut device, Resource::Pod, "default", &changes)?; // stops at the first that has no change
//! let mut base = Base::new(&mut device, &mut cache, making);
//! let found = holdings.find(alloc, &mut base, &key)?;
//! ```
//!
//! A checkpoint keeps the objects, the plans of their expressions as bytes, and the last events of a view. `shown` lends what the core shows over the
//! objects that lie below, `entries_of` gives the entries of a view that is lent, in the chunks that the format has, and `restored` the core that shows
//! what a checkpoint keeps over those of its objects that lie below, of which [`Below`] tells the resources. It reads all entries, or those of a chosen
//! part: then each object that does not lie below is chosen. It answers damage only where no view that can be kept has these entries. `renewed` gives the
//! same core without reading anything, of the view that was written. At most one view has them ([`entries_have_one_view`]); what a history shows can be
//! kept ([`histories_are_kept`]).
//!
//! # The objects in the pages
//!
//! A shelf holds objects where their entries stand in front in its pages, as `records` makes them and `chunks` cuts them, and no entry after them has an
//! object's key. `find` of a [`ObjectCache`] answers what is stored under a key, `list` the objects of a resource, in one namespace or in all, and
//! `list_all` all objects, as a map in memory would. `has_unchanged` answers whether a namespace has one that has no change, and reads no document. What
//! the shelf holds stays, and damage is answered only where it does not hold objects so. The documents of objects that were found are kept, up to
//! [`BYTES_IN_MEMORY`], so that a text is not read at each look. The entries of a view hold its objects ([`views_hold_objects`]).
//!
//! A page has documents. What stands beside a document in memory is made of it when it is listed: a [`FromDocument`] says how. It says too of which
//! resources all objects are held in memory: of these none lies below, also where the pages have some, and no page is read for one. So a [`Base`] is
//! what lies below [`holdings::Holdings`].
#![tactic(auto)]

mod added;
mod base;
mod below;
mod cached_object;
mod cells;
mod changed;
mod event_entries;
mod fault;
mod handing_on;
mod kept_entries;
mod keys;
mod laws;
mod lent;
mod listed;
mod making;
mod object_cache;
mod object_cache_fault;
mod object_cache_laws;
mod renewing;
mod restoring;
mod storing;

pub use added::{Added, new_namespaces};
pub use base::Base;
pub use below::Below;
pub use cached_object::CachedObject;
pub use fault::SnapshotFault;
pub use handing_on::{handed_on, renewed_apart, shown_apart};
pub use kept_entries::{Choice, KeptEntries};
pub use laws::{
    entries_are_cuttable, entries_ascend, entries_fit, entries_have_one_view, histories_are_kept,
};
pub use lent::{LentView, shown};
pub use making::FromDocument;
pub use object_cache::{BYTES_IN_MEMORY, ObjectCache};
pub use object_cache_fault::ObjectCacheFault;
pub use object_cache_laws::{kept_are_of_a_view, views_hold_objects};
pub use renewing::renewed;
pub use restoring::restored;
pub use storing::entries_of;
