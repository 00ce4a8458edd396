//! Policies' lookup over the store: memory first, then pages.

ghost use Rattle.std.specs.Prelude.{◌≡◌, List, map, Some, IfOk};
ghost use Rattle.std.specs.List.{filter};
ghost use Rattle.names.specs.Key.{Key as KeyData};
ghost use Rattle.objects.specs.Objects.{is_of};
ghost use Rattle.policy.specs.Spec.{wanted_seen};
ghost use Rattle.histories.specs.declared.stored.Stored.{Stored as StoredData};
ghost use Rattle.histories.specs.View.{View as Held};
ghost use Rattle.holdings.specs.Holdings.{Shows};
ghost use Rattle.verdict.specs.Listed.{wanted_of};
ghost use Rattle.verdict.specs.LookupSeen.{held_by, listed_seen, shown_held};
ghost use Rattle.decoded.specs.Decoded.{Decoded as DecodedData};
ghost use Rattle.apicore.specs.StoreLookups.{held_of, entry_held};

use crate::named::{found_documents, key_wanted};
use crate::wanted::wanted_among;
use decoded::{Core, Decoded};
use histories::Stored;
use holdings::Source;
use jsondoc::Doc;
use names::{Key, Resource};
use objects::{Lent, LookupFault};
use policy::Wanted;
use std::alloc::{AllocError, Global};
use verdict::{FoundObject, ListedObject, Lookup};

/// A core over a source, as objects are looked up in them: policies and bindings in memory, parameters in both.
#[derive(Drop)]
pub struct StoreLookup<'a, 's, S> {
    /// What is held in memory.
    pub core: &'a Core,
    /// What lies below it.
    pub source: &'s mut S,
}

impl<'a, 's, S: Source<Decoded>> Lookup<'a> for StoreLookup<'a, 's, S> {
    ghost use Rattle.apicore.specs.StoreLookups.{Sees, Lends, Goes, lends_shown, stays, goes_on, lends_on};

    ghost shows = { Sees S.holds };

    ghost lends = { Lends };

    ghost failures = { λ s. S.failures s.source.now };

    ghost is_damaged = { λ s. S.is_damaged s.source.now };

    ghost unfailed = { λ a b. S.unfailed a.source.now b.source.now };

    ghost unfailed_itself = { λ s. S.unfailed_itself s.source.now };

    ghost unfailed_on = { λ a b c first second. S.unfailed_on a.source.now b.source.now c.source.now first second };

    ghost goes_to = { Goes S.holds S.goes_to };

    ghost ascending = { λ _ _ sees. sees.ascends };

    ghost lends_shown = { lends_shown S.holds };

    ghost shows_nothing = { λ s _ sees damaged. S.holds_nothing s.source.now sees.base sees.below damaged };

    ghost stays = { stays S.holds S.goes_to S.stays };

    ghost goes_on = { goes_on S.holds S.goes_to S.goes_on };

    ghost lends_on = { lends_on S.holds S.goes_to };

    fn policy(&self, key: &Key) -> Option<FoundObject<'a>> {
        match self.core.change(key) {
            Some(Some(stored)) => Some(lent(stored)),
            Some(None) => None,
            None => None,
        }
    }

    fn bindings(&mut self, alloc: Global) -> Result<Vec<ListedObject<'a>>, LookupFault> {
        let bindings = Resource::ValidatingAdmissionPolicyBinding;
        let objects = self.core.held(alloc, bindings)?;
        Ok(all_lent(alloc, &objects)?)
    }

    fn parameters(
        &mut self,
        alloc: Global,
        resource: Resource,
        namespace: &str,
        wanted: &Wanted,
    ) -> Result<Vec<Doc>, LookupFault> {
        // What is wanted by its name is looked up alone: a list reads all of the namespace.
        let Some(key) = key_wanted(alloc, resource, namespace, wanted)? else {
            let below = self.source.list(alloc, resource, Some(namespace))?;
            return Ok(parameters_over(alloc, self.core, &below, resource, namespace, wanted)?);
        };
        let found = self.core.find(alloc, self.source, &key);
        drop(key);
        Ok(found_documents(alloc, found?)?)
    }
}

// The objects of a resource in a namespace that are wanted, as they are shown, where these of them lie below.
fn parameters_over(
    alloc: Global,
    core: &Core,
    below: &[(Key, Stored<Decoded>)],
    resource: Resource,
    namespace: &str,
    wanted: &Wanted,
) -> Result<Vec<Doc>, AllocError>
    ensures { (base : List (KeyData × StoredData DecodedData)) (held : Held DecodedData) → Shows core.now base held
        → below.now ≡ filter (λ o. is_of resource (Some namespace.now) o.0) base
        → IfOk result (λ v. v.items ≡ wanted_of (wanted_seen wanted.now)
        (map shown_held (map entry_held (filter (λ o. is_of resource (Some namespace.now) o.0) held.objects)))) }
{
    let objects = core.list(alloc, resource, Some(namespace), below)?;
    let listed = all_lent(alloc, &objects)?;
    wanted_among(alloc, wanted, &listed)
}

// What is stored, lent.
fn lent(stored: &Stored<Decoded>) -> FoundObject<'_>
    ensures { held_by result ≡ held_of stored.now }
{
    FoundObject {
        document: &stored.document,
        policy: stored.beside.policy(),
        plans: stored.beside.plans(),
        bound: stored.beside.bound(),
        revision: stored.revision,
    }
}

// Objects, lent.
fn all_lent<'a>(
    alloc: Global,
    objects: &[Lent<'a, Stored<Decoded>>],
) -> Result<Vec<ListedObject<'a>>, AllocError>
    ensures { IfOk result (λ v. map listed_seen v.items ≡ map entry_held objects.now) }
{
    let mut listed = Vec::with_capacity(alloc, objects.len())?;
    for object in objects {
        listed.push(ListedObject {
            key: object.key,
            found: lent(object.value),
        })?;
    }
    Ok(listed)
}
