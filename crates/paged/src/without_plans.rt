//! What is held beside a document that lies in a page.

ghost use Rattle.std.specs.Prelude.{◌≡◌, not};
ghost use Rattle.paged.specs.Lying.{made_bare, held_bare};

use decoded::Decoded;
use documents::Document;
use expressions::StoredPlans;
use names::Resource;
use policy::is_guarded;
use snapshots::{Below, FromDocument};
use std::alloc::{AllocError, Global};

/// For objects in pages: what the document spells, without plans. Policies and bindings are held in memory, and not looked up in pages.
#[derive(Drop)]
pub struct WithoutPlans;

impl FromDocument<Decoded> for WithoutPlans {
    ghost made = { made_bare };

    ghost held = { held_bare };

    fn make(&self, alloc: Global, document: &Document) -> Result<Decoded, AllocError> {
        Decoded::of(alloc, document.json(), StoredPlans::Plans(Vec::new(alloc)))
    }

    fn is_held(&self, resource: Resource) -> bool {
        !is_guarded(resource)
    }
}

impl Below for WithoutPlans {
    ghost lies = { λ bare resource. not (held_bare bare resource) };

    fn lies(&self, resource: Resource) -> bool {
        is_guarded(resource)
    }
}
