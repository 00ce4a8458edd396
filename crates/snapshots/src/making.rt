//! What stands beside a document, and which objects are held in memory.

ghost use Rattle.std.specs.Prelude.{◌≡◌, Bool, IfOk};
ghost use Rattle.documents.specs.Document.{Document as DocumentData};
ghost use Rattle.names.specs.declared.resource.Resource.{Resource as ResourceData};

use documents::Document;
use names::Resource;
use std::alloc::{AllocError, Global};

/// Says what stands beside a document of which the pages have nothing more, and which resources' objects are held in memory.
pub trait FromDocument<P> {
    /// What stands beside this document.
    ghost made: { Self → DocumentData → P };

    /// The objects of this resource are held in memory.
    ghost held: { Self → ResourceData → Bool };

    /// Makes it.
    ///
    /// # Errors
    ///
    /// Out of memory.
    fn make(&self, alloc: Global, document: &Document) -> Result<P, AllocError>
        ensures { IfOk result (λ beside. beside ≡ made self.now document.now) };

    /// Whether the objects of a resource are held in memory, so that none of them is found below.
    fn is_held(&self, resource: Resource) -> bool
        ensures { result ≡ held self.now resource };
}
