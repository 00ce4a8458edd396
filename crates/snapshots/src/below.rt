//! Objects that lie below.

ghost use Rattle.std.specs.Prelude.{◌≡◌, Bool};
ghost use Rattle.names.specs.declared.resource.Resource.{Resource as ResourceData};

use names::Resource;

/// Tells which objects lie below, and are not all held in memory.
pub trait Below {
    /// The objects of this resource lie below.
    ghost lies: { Self → ResourceData → Bool };

    /// Whether the objects of a resource lie below.
    fn lies(&self, resource: Resource) -> bool
        ensures { result ≡ lies self.now resource };
}
