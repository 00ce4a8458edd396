//! What is held in memory of a store.

ghost use Rattle.std.specs.Prelude.{◌≡◌, ◌+◌, ◌^◌, ◌-◌, ◌<◌, ◌≤◌, ◌++◌, ◌∷◌, Bool, false, nat_le, List, [], length, is_some, Some, None, IsTrue, IfOk, OnOk, OnErr, IfErr, IsErrOf, option_copied, option_map, if◌then◌else◌};
ghost use Rattle.std.specs.FinMap.{is_sorted};
ghost use Rattle.std.specs.List.{filter, list_any};
ghost use Rattle.circular_buffer.specs.Buffer.{keep_last};
ghost use Rattle.names.specs.Key.{Key as KeyData, key_cmp};
ghost use Rattle.std.specs.Option.{option_map_or};
ghost use Rattle.objects.specs.Objects.{is_of, value_at, with_value};
ghost use Rattle.objects.specs.Covered.{AreCovered};
ghost use Rattle.requests.specs.Codes.{document_in};
ghost use Rattle.requests.specs.Collection.{collection_of};
ghost use Rattle.requests.specs.Manifest.{sound};
ghost use Rattle.requests.specs.Refusal.{first_of};
ghost use Rattle.requests.specs.Selector.{selector_seen};
ghost use Rattle.documents.specs.Document.{Document as DocumentData};
ghost use Rattle.window.specs.Window.{event_at, events_above};
ghost use Rattle.window.specs.declared.event.Change.TheVariants.{Added, Modified};
ghost use Rattle.histories.specs.declared.stored.Stored.{Stored as StoredData};
ghost use Rattle.histories.specs.History as write;
ghost use Rattle.requests.specs.Listing.{listing, watch_conditions, watching};
ghost use Rattle.requests.specs.Reply.{status};
ghost use Rattle.histories.specs.View.{View, stored_at, exists, is_too_large, is_full, is_exhausted, after, after_all};
ghost use Rattle.holdings.specs.Holdings.{Shows, ShowsSame, watched};
ghost use Rattle.holdings.specs.Prepared.{AreNext, IsNextPut, IsNextDeletion, HasRoom, HasRoomFor, puts, writes_of};
ghost use Rattle.objects.specs.Failing.{HasGrown};
ghost use Rattle.holdings.specs.Sources.{found_in};
ghost use Rattle.objects.specs.declared.fault.Part.{Part};
ghost use Rattle.objects.specs.declared.fault.LookupFault.TheVariants as LookupFault;

use crate::prepared::{Deletion, PreparedWrite, Put};
use crate::range::{changes_in, has_put};
use crate::source::{FoundDocument, Source};
use documents::Document;
use histories::Stored;
use names::{Key, Resource, Rules};
use objects::{Changes, KeyValue, Lent, LookupFault};
use requests::{Collection, Manifest, Refusal, Reply, Selector, listed, told};
use std::alloc::{AllocError, Global};
use std::marker::Model;
use window::{Change, Event, Events, Window, WindowFault};

/// What a change says is found.
pub(crate) fn found<P>(change: &Option<Stored<P>>) -> Result<Option<FoundDocument>, AllocError>
    ensures { IfOk result (λ found. found ≡ option_map found_in change.now) }
{
    match change {
        Some(stored) => Ok(Some(FoundDocument {
            document: stored.document.clone()?,
            revision: stored.revision,
        })),
        None => Ok(None),
    }
}

// Whether a put changes an object that stands there.
fn is_modification(change: Change) -> bool
    ensures { (stands : Bool) → change ≡ (if stands then Modified else Added) → result ≡ stands }
{
    match change {
        Change::Modified => true,
        Change::Added | Change::Deleted => false,
    }
}

/// What is held in memory of a store: what was put or removed since its objects were written as they lie below, how many there are, and the last events.
#[derive(Drop)]
pub struct Holdings<P> {
    rules: Rules,
    changes: Changes<Stored<P>>,
    window: Window<Document>,
}

impl<P> Model for Holdings<P> {
    ghost use Rattle.holdings.specs.Holdings.{State};

    ghost Value = { State P };

    ghost use Rattle.std.specs.Coded.{codes};
    ghost use Rattle.jsondoc.specs.DataCode.{coded_data};

    ghost coded = { Prim.hlevel (codes, coded_data) };

    ghost use Rattle.std.specs.Prelude.{◌≡◌};

    ghost view = { λ h. record { rules = h.rules; changes = h.changes; revision = h.window.revision; events = h.window.events } };

    ghost invariant = { λ h. (h.window.places ≡ h.rules.window_events) × (h.window.floor ≡ h.rules.floor) };
}

impl<P: Drop> Holdings<P> {
    /// Nothing is held yet of a store at a revision, of which no event is known and this many objects lie below.
    pub fn over(
        alloc: Global,
        rules: Rules,
        revision: u64,
        count: usize,
    ) -> Result<Holdings<P>, AllocError>
        requires { 0 < revision }
        ensures rules { IfOk result (λ h. h.rules ≡ rules) }
        ensures revision { IfOk result (λ h. h.revision ≡ revision) }
        ensures made { IfOk result (λ h. h.changes.made ≡ []) }
        ensures shows { (base : List (KeyData × StoredData P)) → IsTrue (is_sorted key_cmp base) → length base ≡ count
            → IfOk result (λ h. Shows h base (record { objects = base; revision = revision; events = [] })) }
    {
        Ok(Holdings {
            rules,
            changes: Changes::over(alloc, count),
            window: Window::after(alloc, rules, revision)?,
        })
    }

    /// Caches an object that lies below, or its absence. It makes no event, and the revision stays.
    pub fn hold(
        &mut self,
        alloc: Global,
        key: &Key,
        stored: Option<Stored<P>>,
    ) -> Result<(), AllocError>
        ensures rules { self.new.rules ≡ self.old.rules }
        ensures shows { (base : List (KeyData × StoredData P)) (v : View P) → Shows self.old base v → stored_at v key.now ≡ stored → Shows self.new base v }
        ensures held { OnOk result (value_at key.now self.new.changes.made ≡ Some stored) }
        ensures made { OnOk result (self.new.changes.made ≡ with_value key.now stored self.old.changes.made) }
    {
        self.changes.reserve(1)?;
        let entry = KeyValue::new(alloc, key.clone()?, stored)?;
        self.changes.hold(entry);
        Ok(())
    }

    /// Holds an object as it was stored, where none stands under its key. It makes no event, and no revision.
    ///
    /// # Errors
    ///
    /// Out of memory. What is shown stays.
    pub fn restore(&mut self, alloc: Global, key: &Key, stored: Stored<P>) -> Result<(), AllocError>
        ensures rules { self.new.rules ≡ self.old.rules }
        ensures shows { (base : List (KeyData × StoredData P)) (v : View P) → Shows self.old base v → exists v key.now ≡ false
            → OnOk result (Shows self.new base (record { objects = with_value key.now stored v.objects; revision = v.revision; events = v.events })) }
        ensures made { OnOk result (self.new.changes.made ≡ with_value key.now (Some stored) self.old.changes.made) }
        ensures kept { OnErr result (ShowsSame self.old self.new) }
    {
        self.make_room()?;
        let entry = KeyValue::new(alloc, key.clone()?, Some(stored))?;
        self.changes.make(entry, false);
        Ok(())
    }

    /// Keeps an event that was, as that of the next revision, where that is above the floor. It changes no object.
    pub fn keep(&mut self, event: Event<Document>)
        requires { self.old.revision + 1 < 2 ^ 64 }
        ensures rules { self.new.rules ≡ self.old.rules }
        ensures revision { self.new.revision ≡ self.old.revision + 1 }
        ensures changes { self.new.changes ≡ self.old.changes }
        ensures shows { (base : List (KeyData × StoredData P)) (v : View P) → Shows self.old base v → Shows self.new base (record {
          objects = v.objects;
          revision = v.revision + 1;
          events = keep_last self.old.rules.window_events
              (v.events ++ events_above self.old.rules.floor (event_at (v.revision + 1) event.change event.key event.document ∷ []));
        }) }
    {
        self.window.push(event.change, event.key, event.document);
    }

    /// All changes, ascending by key.
    pub fn changes(&self) -> &[KeyValue<Option<Stored<P>>>]
        ensures value { result.now ≡ self.now.changes.made }
        ensures ascending { IsTrue (is_sorted key_cmp self.now.changes.made) }
    {
        self.changes.made()
    }

    /// The last events, oldest first.
    pub fn events(&self) -> Events<'_, Document>
        ensures { result ≡ self.now.events }
    {
        self.window.events()
    }

    /// The numbers that the store keeps to.
    pub fn rules(&self) -> Rules
        ensures { result ≡ self.now.rules }
    {
        self.rules
    }

    /// The revision of the last write, 1 where there was none.
    pub fn revision(&self) -> u64
        ensures { result ≡ self.now.revision }
    {
        self.window.revision()
    }

    /// How many objects there are.
    pub fn object_count(&self) -> usize
        ensures { (base : List (KeyData × StoredData P)) (v : View P) → Shows self.now base v → result ≡ length v.objects }
    {
        self.changes.count()
    }

    /// Whether there are as many objects as there may be.
    pub fn is_full(&self) -> bool
        ensures { (base : List (KeyData × StoredData P)) (v : View P) → Shows self.now base v → result ≡ is_full self.now.rules v }
    {
        self.rules.object_limit <= self.changes.count()
    }

    /// Whether the greatest revision is reached.
    pub fn is_exhausted(&self) -> bool
        ensures value { result ≡ nat_le self.now.rules.greatest_revision self.now.revision }
        ensures shown { (base : List (KeyData × StoredData P)) (v : View P) → Shows self.now base v → result ≡ is_exhausted self.now.rules v }
    {
        self.rules.greatest_revision <= self.window.revision()
    }

    /// Whether the text to be stored is above the limit.
    pub fn is_too_large(&self, manifest: &Manifest) -> bool
        ensures { (d : DocumentData) → manifest.now.body ≡ sound d → result ≡ is_too_large self.now.rules d }
    {
        self.rules.text_limit_bytes < manifest.text().len()
    }

    /// The change of a key, if it has one: what was put, or none where the key was removed.
    pub fn change(&self, key: &Key) -> Option<&Option<Stored<P>>>
        ensures { option_copied result ≡ value_at key.now self.now.changes.made }
    {
        self.changes.get(key)
    }

    /// The object under a key: looked up among the changes, and, where its key has none, in what lies below.
    ///
    /// # Errors
    ///
    /// Those of the source.
    pub fn find<S: Source<P>>(
        &self,
        alloc: Global,
        source: &mut S,
        key: &Key,
    ) -> Result<Option<FoundDocument>, LookupFault>
        ensures found { (base : List (KeyData × StoredData P)) (v : View P) → S.holds source.old base → Shows self.now base v
            → IfOk result (λ found. found ≡ option_map found_in (stored_at v key.now)) }
        ensures kept { (base : List (KeyData × StoredData P)) → S.holds source.old base → S.holds source.new base }
        ensures goes { S.goes_to source.old source.new }
        ensures counts { S.failures source.old ≤ S.failures source.new }
        ensures steady { OnOk result (S.unfailed source.old source.new) }
        ensures device { IsErrOf result LookupFault.Device → HasGrown (S.failures source.old) (S.failures source.new) }
        ensures memory { IsErrOf result LookupFault.Memory → S.unfailed source.old source.new }
        ensures damaged { (part : Part) → IsErrOf result (LookupFault.Damaged part) → S.is_damaged source.new }
    {
        match self.changes.get(key) {
            Some(change) => Ok(found(change)?),
            None => source.find(alloc, key),
        }
    }

    /// Whether an object of a resource stands in a namespace. Where a put of one is among the changes, nothing is looked up below; else the source is
    /// asked for an object that has no change. No object is copied.
    ///
    /// # Errors
    ///
    /// Those of the source.
    pub fn has_any<S: Source<P>>(
        &self,
        alloc: Global,
        source: &mut S,
        resource: Resource,
        namespace: &str,
    ) -> Result<bool, LookupFault>
        ensures any { (base : List (KeyData × StoredData P)) (v : View P) → S.holds source.old base → Shows self.now base v
            → IfOk result (λ b. b ≡ list_any (λ o. is_of resource (Some namespace.now) o.0) v.objects) }
        ensures kept { (base : List (KeyData × StoredData P)) → S.holds source.old base → S.holds source.new base }
        ensures goes { S.goes_to source.old source.new }
        ensures counts { S.failures source.old ≤ S.failures source.new }
        ensures steady { OnOk result (S.unfailed source.old source.new) }
        ensures device { IsErrOf result LookupFault.Device → HasGrown (S.failures source.old) (S.failures source.new) }
        ensures memory { IsErrOf result LookupFault.Memory → S.unfailed source.old source.new }
        ensures damaged { (part : Part) → IsErrOf result (LookupFault.Damaged part) → S.is_damaged source.new }
    {
        if has_put(changes_in(self.changes.made(), resource, namespace)) {
            return Ok(true);
        }
        source.has_unchanged(alloc, resource, namespace, &self.changes)
    }

    /// The objects of a resource, in one namespace or in all, in key order, over those of them that lie below. No object is copied.
    ///
    /// # Errors
    ///
    /// Out of memory.
    pub fn list<'a>(
        &'a self,
        alloc: Global,
        resource: Resource,
        namespace: Option<&str>,
        below: &'a [(Key, Stored<P>)],
    ) -> Result<Vec<Lent<'a, Stored<P>>>, AllocError>
        ensures { let text = option_map (λ text. text.now) namespace.entry in (base : List (KeyData × StoredData P)) (v : View P) → Shows self.now base v
            → below.now ≡ filter (λ o. is_of resource text o.0) base
            → IfOk result (λ listed. listed.items ≡ filter (λ o. is_of resource text o.0) v.objects) }
    {
        self.changes.list(alloc, resource, namespace, below)
    }

    /// The objects of a resource that are held in memory, in key order, where none lies below that is not. No object is copied.
    ///
    /// # Errors
    ///
    /// Out of memory.
    pub fn held(
        &self,
        alloc: Global,
        resource: Resource,
    ) -> Result<Vec<Lent<'_, Stored<P>>>, AllocError>
        ensures { (base : List (KeyData × StoredData P)) (v : View P) → Shows self.now base v → AreCovered resource self.now.changes.made base
            → IfOk result (λ listed. listed.items ≡ filter (λ o. is_of resource None o.0) v.objects) }
    {
        self.changes.list(alloc, resource, None, &[])
    }

    /// All objects, in key order, over those that lie below. No object is copied.
    ///
    /// # Errors
    ///
    /// Out of memory.
    pub fn objects<'a>(
        &'a self,
        alloc: Global,
        below: &'a [(Key, Stored<P>)],
    ) -> Result<Vec<Lent<'a, Stored<P>>>, AllocError>
        ensures { (v : View P) → Shows self.now below.now v → IfOk result (λ all. all.items ≡ v.objects) }
    {
        self.changes.left(alloc, below)
    }

    /// The reply that lists the objects of a collection that a selector selects, over those of them that lie below.
    ///
    /// # Errors
    ///
    /// Out of memory.
    pub fn listed(
        &self,
        alloc: Global,
        collection: &Collection,
        selector: &Selector,
        below: &[(Key, Stored<P>)],
    ) -> Result<Reply, AllocError>
        ensures { let c = collection_of collection.now in (base : List (KeyData × StoredData P)) (v : View P) → Shows self.now base v
            → below.now ≡ filter (λ o. is_of c.resource c.namespace o.0) base → IfOk result (λ r. r ≡ listing v c (selector_seen selector.now)) }
    {
        let resource = collection.resource;
        let objects = self.list(alloc, resource, collection.namespace(), below)?;
        listed(alloc, &objects, resource, selector, self.revision())
    }

    // The events above a revision, oldest first, or what refuses a watch of them.
    fn events_above(&self, revision: u64) -> Result<Events<'_, Document>, Refusal>
        ensures events { IfOk result (λ events. events ≡ events_above revision self.now.events) }
        ensures served { OnOk result (first_of (watch_conditions self.now.rules (watched self.now) revision) ≡ None) }
        ensures refused { IfErr result (λ refusal. first_of (watch_conditions self.now.rules (watched self.now) revision) ≡ Some refusal) }
    {
        match self.window.since(revision) {
            Ok(events) => Ok(events),
            Err(WindowFault::TooNew) => Err(Refusal::BadVersion),
            Err(WindowFault::TooOld) => Err(Refusal::Expired),
        }
    }

    /// The reply that tells a collection's events above a revision.
    ///
    /// # Errors
    ///
    /// Out of memory.
    pub fn told(
        &self,
        alloc: Global,
        collection: &Collection,
        revision: u64,
    ) -> Result<Reply, AllocError>
        ensures { (base : List (KeyData × StoredData P)) (v : View P) → Shows self.now base v
            → IfOk result (λ r. r ≡ option_map_or status (first_of (watch_conditions self.now.rules v revision)) (watching v (collection_of collection.now) revision)) }
    {
        match self.events_above(revision) {
            Ok(events) => told(alloc, collection, events),
            Err(refusal) => Reply::status(alloc, refusal),
        }
    }

    // Takes memory for one more key, and asks that one object more can be counted.
    fn make_room(&mut self) -> Result<(), AllocError>
        ensures rules { self.new.rules ≡ self.old.rules }
        ensures revision { self.new.revision ≡ self.old.revision }
        ensures made { self.new.changes.made ≡ self.old.changes.made }
        ensures shows { ShowsSame self.old self.new }
        ensures key { OnOk result (0 < self.new.changes.room) }
        ensures count { OnOk result (self.new.changes.count < 2 ^ 64 - 1) }
    {
        if self.changes.count() == usize::MAX {
            return Err(AllocError);
        }
        self.changes.reserve(1)
    }

    /// Takes the memory of a put, and room for its key. It is told whether an object stands under it.
    ///
    /// # Errors
    ///
    /// Out of memory. What is shown stays.
    pub fn prepare_put(
        &mut self,
        alloc: Global,
        manifest: &Manifest,
        beside: P,
        stands: bool,
    ) -> Result<Put<P>, AllocError>
        requires { self.old.revision < self.old.rules.greatest_revision }
        ensures rules { self.new.rules ≡ self.old.rules }
        ensures revision { self.new.revision ≡ self.old.revision }
        ensures made { self.new.changes.made ≡ self.old.changes.made }
        ensures shows { ShowsSame self.old self.new }
        ensures put { IfOk result (λ p. p ≡ record {
          key = manifest.now.key;
          stored = Some (record { document = document_in manifest.now.body; beside = beside; revision = self.old.revision + 1 });
          change = if stands then Modified else Added;
        }) }
        ensures room { OnOk result (HasRoom self.new) }
    {
        // The window's revision is below the greatest one, so that the next one fits.
        let _greatest = self.rules.greatest_revision;
        let revision = self.window.revision() + 1;
        let change = if stands {
            Change::Modified
        } else {
            Change::Added
        };
        self.make_room()?;
        Put::new(
            alloc,
            manifest.key(),
            manifest.document(),
            manifest.text(),
            beside,
            revision,
            change,
        )
    }

    /// Takes the memory of a deletion, and room for its key. It is told the document that stands under it.
    ///
    /// # Errors
    ///
    /// Out of memory. What is shown stays.
    pub fn prepare_deletion(
        &mut self,
        alloc: Global,
        key: &Key,
        document: Document,
    ) -> Result<Deletion<P>, AllocError>
        requires { self.old.revision < self.old.rules.greatest_revision }
        ensures rules { self.new.rules ≡ self.old.rules }
        ensures revision { self.new.revision ≡ self.old.revision }
        ensures made { self.new.changes.made ≡ self.old.changes.made }
        ensures shows { ShowsSame self.old self.new }
        ensures deletion { IfOk result (λ d. d ≡ record { key = key.now; document = document }) }
        ensures room { OnOk result (HasRoom self.new) }
    {
        self.make_room()?;
        Deletion::new(alloc, key, document)
    }

    /// Takes a prepared write, if there is one. This takes no memory, and looks nothing up.
    pub fn take(&mut self, write: Option<PreparedWrite<P>>)
        requires { HasRoomFor self.old write }
        ensures rules { self.new.rules ≡ self.old.rules }
        ensures shows { (base : List (KeyData × StoredData P)) (v : View P) → Shows self.old base v → AreNext v write
            → Shows self.new base (after_all self.old.rules v (writes_of write)) }
    {
        match write {
            Some(PreparedWrite::Put(put)) => self.put(put),
            Some(PreparedWrite::Delete(deletion)) => self.delete(deletion),
            None => {}
        }
    }

    /// Takes a put.
    pub(crate) fn put(&mut self, put: Put<P>)
        requires { HasRoom self.old }
        ensures rules { self.new.rules ≡ self.old.rules }
        ensures made { self.new.changes.made ≡ with_value put.key put.stored self.old.changes.made }
        ensures shows { (base : List (KeyData × StoredData P)) (v : View P) → Shows self.old base v → IsNextPut v put
            → Shows self.new base (after_all self.old.rules v (puts put.key put.stored)) }
    {
        // The window's revision is below the greatest one, so that the next one fits.
        let _greatest = self.rules.greatest_revision;
        let (entry, change, key, document) = put.into_parts();
        self.changes.make(entry, is_modification(change));
        self.window.push(change, key, document);
    }

    /// Takes a deletion.
    pub(crate) fn delete(&mut self, deletion: Deletion<P>)
        requires { HasRoom self.old }
        ensures rules { self.new.rules ≡ self.old.rules }
        ensures made { self.new.changes.made ≡ with_value deletion.key None self.old.changes.made }
        ensures shows { (base : List (KeyData × StoredData P)) (v : View P) → Shows self.old base v → IsNextDeletion v deletion
            → Shows self.new base (after self.old.rules v (write.delete deletion.key)) }
    {
        // The window's revision is below the greatest one, so that the next one fits.
        let _greatest = self.rules.greatest_revision;
        let (entry, key, document) = deletion.into_parts();
        self.changes.make(entry, true);
        self.window.push(Change::Deleted, key, document);
    }
}
