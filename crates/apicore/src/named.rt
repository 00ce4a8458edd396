//! The one object that is wanted by its name.

ghost use Rattle.std.specs.Prelude.{◌≡◌, [], option_map, IfOk};
ghost use Rattle.std.specs.List.{cons_option};
ghost use Rattle.policy.specs.Spec.{wanted_seen};
ghost use Rattle.apicore.specs.Wanted.{key_wanted, shown_found};

use documents::shown_from;
use holdings::FoundDocument;
use jsondoc::Doc;
use names::{Key, KeyFault, Resource};
use policy::Wanted;
use std::alloc::{AllocError, Global};

/// The key of the one object of a resource in a namespace that is wanted, where it is wanted by a name, and these are the parts of a key.
///
/// # Errors
///
/// Out of memory.
pub(crate) fn key_wanted(
    alloc: Global,
    resource: Resource,
    namespace: &str,
    wanted: &Wanted,
) -> Result<Option<Key>, AllocError>
    ensures { IfOk result (λ o. o ≡ key_wanted resource namespace.now (wanted_seen wanted.now)) }
{
    let Wanted::ByName(name) = wanted else {
        return Ok(None);
    };
    match Key::new(alloc, resource, namespace, name) {
        Ok(key) => Ok(Some(key)),
        Err(KeyFault::NoKey) => Ok(None),
        Err(KeyFault::Memory) => Err(AllocError),
    }
}

/// What was found, as it is shown: one document, or none.
///
/// # Errors
///
/// Out of memory.
pub(crate) fn found_documents(
    alloc: Global,
    found: Option<FoundDocument>,
) -> Result<Vec<Doc>, AllocError>
    ensures { IfOk result (λ v. v.items ≡ cons_option (option_map shown_found found) []) }
{
    let mut documents = Vec::new(alloc);
    if let Some(FoundDocument { document, revision }) = found {
        documents.push(shown_from(alloc, document, revision)?)?;
    }
    Ok(documents)
}
