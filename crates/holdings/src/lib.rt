//! What is held in memory of a store whose objects lie below, in pages: what was put or removed since, how many objects there are, and the last events.
//!
//! ```text
//! let found = holdings.find(alloc, &mut source, &key)?;
//! let put = holdings.prepare_put(alloc, &manifest, beside, found.is_some())?;
//! holdings.take(Some(PreparedWrite::Put(put)));
//! ```
//!
//! Over the objects that lie below, `Holdings` show a view. `find` looks an object up among the changes, and where its key has none in the source that lies
//! below; `list` merges both. `has_any` tells whether a namespace has an object, and stops at the first. To prepare a write takes all its memory and changes nothing that is seen, and `take` takes none and looks nothing up: a prepared put knows whether an object
//! stood under its key, a deletion which document it removes. `hold` says what lies below already. When a store is opened again, `restore` and `keep`
//! hold what was kept, and `redo_put` and `redo_delete` take the writes that were stored, each of which must be allowed to follow. Where nothing lies below, the
//! source is `Nothing`.
#![tactic(auto)]

mod holdings;
mod nothing;
mod prepared;
mod range;
mod redo;
mod source;

pub use holdings::Holdings;
pub use nothing::Nothing;
pub use prepared::{Deletion, PreparedWrite, Put};
pub use redo::RedoFault;
pub use source::{FoundDocument, Source};
