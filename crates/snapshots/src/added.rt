//! Objects that an upgrade adds to a view: a Namespace for each that objects stand in.

ghost use Rattle.std.specs.Prelude.{◌≡◌, ◌+◌, ◌^◌, ◌<◌, [], length, map, IsTrue, IfOk, OnOk};
ghost use Rattle.std.specs.List.{AllByRecursion};
ghost use Rattle.expressions.specs.Specification.{these};
ghost use Rattle.names.specs.Name.{is_namespace};
ghost use Rattle.decoded.specs.Decoded.{spelled};
ghost use Rattle.requests.specs.Manifest.{BodyHasForm};
ghost use Rattle.requests.specs.Namespaces.{names_among, namespaces_in_use};
ghost use Rattle.snapshots.specs.Added.{AreAdded, namespace_manifest, new_of};

use crate::lent::LentView;
use decoded::Decoded;
use documents::Document;
use expressions::StoredPlans;
use histories::Stored;
use names::Key;
use objects::Lent;
use requests::Manifest;
use std::alloc::{AllocError, Global};
use std::collections::BTreeSet;
use window::{Change, Event};

/// Objects that were not there, each stored by one write more, and the events of these writes.
#[derive(Drop)]
pub struct Added {
    /// The objects, in the order of their writes.
    pub(crate) objects: Vec<(Key, Stored<Decoded>)>,
    /// The events, oldest first.
    pub(crate) events: Vec<Event<Document>>,
}

impl Added {
    /// The objects that manifests ask for, stored by the writes behind a revision. No expression of theirs has a plan.
    ///
    /// # Errors
    ///
    /// Out of memory.
    pub fn of(alloc: Global, revision: u64, manifests: Vec<Manifest>) -> Result<Added, AllocError>
        requires { revision + length manifests.items < 2 ^ 64 }
        ensures added { IfOk result (λ added. AreAdded added revision (map new_of manifests.items)) }
        ensures form { OnOk result (AllByRecursion (λ m. BodyHasForm m.key m.body) manifests.items) }
    {
        let mut objects = Vec::new(alloc);
        let mut events = Vec::new(alloc);
        let mut last = revision;
        for manifest in manifests {
            last += 1;
            let (key, document) = manifest.into_parts();
            events.push(Event {
                revision: last,
                change: Change::Added,
                key: key.clone()?,
                document: document.clone()?,
            })?;
            objects.push((key, stored_by(alloc, last, document)?))?;
        }
        Ok(Added { objects, events })
    }
}

// What the write of a revision stores, with what the document spells beside it, and no plans.
fn stored_by(
    alloc: Global,
    revision: u64,
    document: Document,
) -> Result<Stored<Decoded>, AllocError>
    ensures { IfOk result (λ stored. stored ≡ record { document = document; beside = spelled document.json (these []); revision = revision }) }
{
    let plans = StoredPlans::Plans(Vec::new(alloc));
    let beside = Decoded::of(alloc, document.json(), plans)?;
    Ok(Stored {
        document,
        beside,
        revision,
    })
}

// The namespaces that objects stand in, ascending by their bytes, each once.
fn names_of<'a>(
    alloc: Global,
    objects: &[Lent<'a, Stored<Decoded>>],
) -> Result<BTreeSet<&'a str>, AllocError>
    ensures names { IfOk result (λ names. map (λ name. name.now) names.keys ≡ map (λ n. n.0) (names_among objects.now)) }
    ensures sound { OnOk result (AllByRecursion (λ n. IsTrue (is_namespace n)) (map (λ n. n.0) (names_among objects.now))) }
{
    let mut names = BTreeSet::new(alloc);
    for held in objects.iter().rev() {
        if held.key.resource().is_namespaced() {
            names.insert(held.key.namespace())?;
        }
    }
    Ok(names)
}

/// The manifests of the Namespaces that objects of a view stand in: one for each, ascending by the bytes of their names.
///
/// # Errors
///
/// Out of memory.
pub fn new_namespaces(alloc: Global, view: &LentView<'_>) -> Result<Vec<Manifest>, AllocError>
    ensures { IfOk result (λ manifests. manifests.items ≡ map namespace_manifest (namespaces_in_use view.now)) }
{
    let mut manifests = Vec::new(alloc);
    for name in names_of(alloc, &view.objects)? {
        manifests.push(Manifest::of_namespace(alloc, name)?)?;
    }
    Ok(manifests)
}
