//! The objects that are wanted among those listed.

ghost use Rattle.std.specs.Prelude.{◌≡◌, ◌++◌, List, map, IfOk, OnOk};
ghost use Rattle.std.specs.List.{cons_option};
ghost use Rattle.policy.specs.Spec.{wanted_seen};
ghost use Rattle.verdict.specs.Listed.{wanted_of};
ghost use Rattle.verdict.specs.LookupSeen.{listed_seen, shown_held};
ghost use Rattle.apicore.specs.Wanted.{if_wanted};

use documents::{selects, shown_document};
use jsondoc::Doc;
use policy::Wanted;
use std::alloc::{AllocError, Global};
use verdict::ListedObject;

// Adds an item, if there is one.
fn add<T: Drop>(items: &mut Vec<T>, item: Option<T>) -> Result<(), AllocError>
    ensures { (rest : List T) → OnOk result (items.new.items ++ rest ≡ items.old.items ++ cons_option item rest) }
{
    if let Some(item) = item {
        items.push(item)?;
    }
    Ok(())
}

// The object as it is shown, if it is wanted.
fn if_wanted(
    alloc: Global,
    wanted: &Wanted,
    listed: &ListedObject<'_>,
) -> Result<Option<Doc>, AllocError>
    ensures { IfOk result (λ o. o ≡ if_wanted (wanted_seen wanted.now) (listed_seen listed.now)) }
{
    let found = &listed.found;
    match wanted {
        Wanted::ByName(name) => {
            if listed.key.name() == name.as_str() {
                Ok(Some(shown_document(alloc, found.document, found.revision)?))
            } else {
                Ok(None)
            }
        }
        Wanted::BySelector(requirements) => {
            let document = shown_document(alloc, found.document, found.revision)?;
            if selects(requirements, document.value()) {
                Ok(Some(document))
            } else {
                Ok(None)
            }
        }
    }
}

/// The objects that are wanted among those listed, as they are shown: what a lookup that has all objects at hand answers for
/// parameters.
///
/// # Errors
///
/// Out of memory.
pub(crate) fn wanted_among(
    alloc: Global,
    wanted: &Wanted,
    listed: &[ListedObject<'_>],
) -> Result<Vec<Doc>, AllocError>
    ensures { IfOk result (λ v. v.items ≡ wanted_of (wanted_seen wanted.now) (map shown_held (map listed_seen listed.now))) }
{
    let mut documents = Vec::new(alloc);
    for entry in listed {
        let document = if_wanted(alloc, wanted, entry)?;
        add(&mut documents, document)?;
    }
    Ok(documents)
}
