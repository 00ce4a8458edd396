//! Checks whether plans are those of their expressions.

ghost use Rattle.std.specs.Prelude.{◌≡◌, List, Some, false, IsTrue, IfOk};
ghost use Rattle.std.specs.List.{AllByRecursion};
ghost use Rattle.celtree.specs.Tree.{Expr};
ghost use Rattle.names.specs.Key.{Key as KeyData};
ghost use Rattle.expressions.specs.Specification.{plans_bytes, plans_seen};
ghost use Rattle.histories.specs.declared.stored.Stored.{Stored as StoredData};
ghost use Rattle.histories.specs.View.{View as Held};
ghost use Rattle.holdings.specs.Holdings.{Shows};
ghost use Rattle.decoded.specs.Decoded.{Decoded as DecodedData, decoded_of};
ghost use Rattle.recovery.specs.Compiled.{HasOwnPlans, PutsOwnPlans};
ghost use Rattle.decoded.specs.Shown.{ShowsOver};
ghost use Rattle.decoded.specs.Standing.{View, IsView, HasTrees};

use decoded::{Core, Decoded};
use expressions::{Specification, StoredPlans, plans_bytes, specification_of};
use histories::Stored;
use names::{Format, Key, Resource};
use objects::KeyValue;
use std::alloc::{AllocError, Global};

// Whether two lists of plans have the same bytes, as those of an object of a resource.
fn have_same_bytes(
    alloc: Global,
    resource: Resource,
    held: &StoredPlans,
    own: &StoredPlans,
) -> Result<bool, AllocError>
    ensures yes { IfOk result (λ same. IsTrue same → plans_bytes resource (plans_seen held.now) ≡ plans_bytes resource (plans_seen own.now)) }
    ensures no { IfOk result (λ same. same ≡ false → plans_bytes resource (plans_seen held.now) ≡ plans_bytes resource (plans_seen own.now) → ⊥) }
{
    match (
        plans_bytes(alloc, resource, held),
        plans_bytes(alloc, resource, own),
    ) {
        (Ok(held), Ok(own)) => Ok(held.as_slice() == own.as_slice()),
        // Plans that may be held are never too long, so the cause is out of memory.
        _ => Err(AllocError),
    }
}

// Whether the plans of an object are those of its own expressions.
fn has_own(
    alloc: Global,
    format: Format,
    key: &Key,
    stored: &Stored<Decoded>,
) -> Result<bool, AllocError>
    ensures yes { IfOk result (λ has. IsTrue has → HasOwnPlans format (key.now, stored.now)) }
    ensures no { IfOk result (λ has. has ≡ false → (trees : List Expr) → HasTrees format key.now.resource stored.now.document.json trees
        → stored.now.beside ≡ decoded_of stored.now.document.json trees → ⊥) }
{
    match specification_of(alloc, format, key.resource(), stored.document.json())? {
        Specification::Sound(plans) => have_same_bytes(
            alloc,
            key.resource(),
            stored.beside.plans(),
            &StoredPlans::Plans(plans),
        ),
        Specification::BadSpec | Specification::BadExpression(_) => Ok(false),
    }
}

// Whether the plans that a change puts are those of the object's own expressions. A removal puts none.
fn puts_own(
    alloc: Global,
    format: Format,
    change: &KeyValue<Option<Stored<Decoded>>>,
) -> Result<bool, AllocError>
    ensures yes { IfOk result (λ puts. IsTrue puts → PutsOwnPlans format change.now) }
    ensures no { IfOk result (λ puts. puts ≡ false → (stored : StoredData DecodedData) × (change.now.1 ≡ Some stored)
        × ((trees : List Expr) → HasTrees format change.now.0.resource stored.document.json trees → stored.beside ≡ decoded_of stored.document.json trees → ⊥)) }
{
    match change.value() {
        Some(stored) => has_own(alloc, format, change.key(), stored),
        None => Ok(true),
    }
}

/// Whether each object that a core shows has the plans of its own expressions, where each that lies below has: of those that it holds they are read, typed and
/// compiled again, and the bytes compared.
///
/// # Errors
///
/// Out of memory.
pub fn has_own_plans(alloc: Global, core: &Core) -> Result<bool, AllocError>
    ensures yes { (base : List (KeyData × StoredData DecodedData)) (held : Held DecodedData) → Shows core.now base held → AllByRecursion (HasOwnPlans core.now.rules.format) base
        → IfOk result (λ has. IsTrue has → AllByRecursion (HasOwnPlans core.now.rules.format) held.objects) }
    ensures no { (base : List (KeyData × StoredData DecodedData)) (v : View) → ShowsOver core.now base v → IsView core.now.rules.format v → IfOk result (λ has. has ≡ false → ⊥) }
{
    let format = core.rules().format;
    for change in core.changes() {
        if !puts_own(alloc, format, change)? {
            return Ok(false);
        }
    }
    Ok(true)
}
