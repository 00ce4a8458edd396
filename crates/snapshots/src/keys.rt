//! What the keys of objects' entries begin with.

ghost use Rattle.std.specs.Prelude.{◌≡◌, option_map, IfOk};
ghost use Rattle.snapshots.specs.ObjectCache.{prefix_of, has_zero};

use names::Resource;
use records::OBJECT_MARK;
use std::alloc::{AllocError, Global};

/// With what the keys of a resource's entries begin, in one namespace if one is given.
pub(crate) fn prefix_of(
    alloc: Global,
    resource: Resource,
    namespace: Option<&str>,
) -> Result<Vec<u8>, AllocError>
    ensures { IfOk result (λ prefix. prefix.items ≡ prefix_of resource (option_map (λ text. text.now) namespace.entry)) }
{
    let mut prefix = [OBJECT_MARK, resource.number()].to_vec(alloc)?;
    if let Some(namespace) = namespace {
        prefix.extend_from_slice(namespace.as_bytes())?;
        prefix.push(0)?;
    }
    Ok(prefix)
}

/// Whether a text is given that has a zero byte.
pub(crate) fn has_zero(namespace: Option<&str>) -> bool
    ensures { result ≡ has_zero (option_map (λ text. text.now) namespace.entry) }
{
    match namespace {
        Some(text) => text.as_bytes().contains(&0),
        None => false,
    }
}
