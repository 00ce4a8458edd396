//! The objects of a store.

ghost use Rattle.std.specs.Prelude.{◌≡◌};
ghost use Rattle.paged.specs.Paged.{root_of};

use decoded::Core;
use names::Rules;
use roots::Root;
use snapshots::ObjectCache;

/// The objects of a store: those of its last checkpoint lie in pages, and what was put or removed since, policies and bindings are held in memory.
#[derive(Drop)]
pub struct Paged {
    pub(crate) core: Core,
    pub(crate) cache: ObjectCache,
}

impl Paged {
    /// The root whose pages have what was there at the last checkpoint.
    pub fn root(&self) -> &Root
        ensures { result.now ≡ root_of self.now }
    {
        self.cache.root()
    }

    /// The revision of the last write, 1 where there was none.
    pub fn revision(&self) -> u64
        ensures { result ≡ self.now.core.revision }
    {
        self.core.revision()
    }

    /// What is held in memory.
    pub fn core(&self) -> &Core
        ensures { result.now ≡ self.now.core }
    {
        &self.core
    }
}
