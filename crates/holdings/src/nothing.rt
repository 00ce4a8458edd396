//! A source without objects.

ghost use Rattle.std.specs.Prelude.{◌≡◌, []};

use crate::source::{FoundDocument, Source};
use histories::Stored;
use names::{Key, Resource};
use objects::{Changes, LookupFault};
use std::alloc::Global;

/// A source below which nothing lies.
#[derive(Drop)]
pub struct Nothing;

impl<P: Drop> Source<P> for Nothing {
    ghost holds = { λ _ objects. objects ≡ [] };

    ghost failures = { λ _. 0 };

    ghost is_damaged = { λ _. ⊥ };

    ghost goes_to = { λ _ _. Unit {0} };

    ghost unfailed = { λ _ _. Unit {0} };

    ghost holds_nothing = { λ _ _ _ never. never };

    ghost stays = { λ _. tt };

    ghost goes_on = { λ _ _ _ _ _. tt };

    ghost unfailed_itself = { λ _. tt };

    ghost unfailed_on = { λ _ _ _ _ _. tt };

    fn find(&mut self, _alloc: Global, _key: &Key) -> Result<Option<FoundDocument>, LookupFault> {
        Ok(None)
    }

    fn list(
        &mut self,
        alloc: Global,
        _resource: Resource,
        _namespace: Option<&str>,
    ) -> Result<Vec<(Key, Stored<P>)>, LookupFault> {
        Ok(Vec::new(alloc))
    }

    fn has_unchanged(
        &mut self,
        _alloc: Global,
        _resource: Resource,
        _namespace: &str,
        _changes: &Changes<Stored<P>>,
    ) -> Result<bool, LookupFault> {
        Ok(false)
    }
}
