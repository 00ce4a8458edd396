//! Policies by their names.

ghost use Rattle.std.specs.Prelude.{◌≡◌, ◌++◌, ◌∷◌, [], IfSome};
ghost use Rattle.names.specs.declared.resource.Resource.TheVariants.{ValidatingAdmissionPolicy};

use names::{Key, Resource};
use std::alloc::Global;

/// The policy whose name stands here, in front of a zero byte; none where that is no name, or memory is refused.
pub(crate) fn policy_named(alloc: Global, bytes: &[u8]) -> Option<Key>
    ensures policy { IfSome result (λ key. key.resource ≡ ValidatingAdmissionPolicy) }
    ensures name { IfSome result (λ key. bytes.now ≡ key.name ++ 0 ∷ []) }
{
    let (end, name) = bytes.split_last()?;
    if *end != 0 {
        return None;
    }
    let Ok(name) = str::from_utf8(name) else {
        return None;
    };
    match Key::new(alloc, Resource::ValidatingAdmissionPolicy, "", name) {
        Ok(key) => Some(key),
        Err(_) => None,
    }
}
