//! Writes that were stored, taken again.

ghost use Rattle.std.specs.Prelude.{◌≡◌, ◌<◌, ◌↔◌, ◌&&◌, ◌||◌, not, List, IsTrue, IfOk, OnOk, OnErr, IsErrOf, option_map};
ghost use Rattle.names.specs.Key.{Key as KeyData};
ghost use Rattle.requests.specs.Codes.{document_in};
ghost use Rattle.histories.specs.declared.stored.Stored.{Stored as StoredData};
ghost use Rattle.histories.specs.History.{put, delete};
ghost use Rattle.histories.specs.View.{View, stored_at, exists, after, MayFollow, MayPut};
ghost use Rattle.holdings.specs.Holdings.{Shows, ShowsSame};
ghost use Rattle.holdings.specs.Known.{IsKnown, KnowsSame};
ghost use Rattle.holdings.specs.Sources.{found_in};
ghost use Rattle.holdings.specs.declared.redo.RedoFault.TheVariants as RedoFault;

use crate::holdings::{Holdings, found};
use crate::source::FoundDocument;
use names::Key;
use requests::Manifest;
use std::alloc::{AllocError, Global};
use thiserror::Error;

/// Why a stored write cannot be taken again.
#[derive(Clone, Copy, Debug, Drop, Error)]
pub enum RedoFault {
    /// The write may not follow what is stored.
    #[error("a write that may not follow")]
    NotAllowed,
    /// Out of memory while taking it.
    #[error("out of memory")]
    Memory,
}

impl From<AllocError> for RedoFault {
    ghost from_gives = { λ _ fault. fault ≡ RedoFault.Memory };

    fn from(_error: AllocError) -> RedoFault {
        RedoFault::Memory
    }
}

// Whether a document may be put: the format has the resource, the document is not too large, a revision is left, and it stands over an
// object or there is room for one more.
fn may_stand(
    is_served: bool,
    is_too_large: bool,
    is_exhausted: bool,
    stands: bool,
    is_full: bool,
) -> bool
    ensures { result ≡ (is_served && not is_too_large && not is_exhausted && (stands || not is_full)) }
{
    is_served && !is_too_large && !is_exhausted && (stands || !is_full)
}

impl<P: Drop> Holdings<P> {
    /// Takes the put of a stored record: of the manifest's document at its key, over an object or as a new one, where memory knows what stands
    /// under the key. Takes all its memory before it changes anything that is seen.
    ///
    /// # Errors
    ///
    /// `NotAllowed` where the put may not follow what is shown; `Memory`. What is shown stays, and what memory knows.
    pub fn redo_put(
        &mut self,
        alloc: Global,
        manifest: &Manifest,
        beside: P,
    ) -> Result<(), RedoFault>
        ensures rules { self.new.rules ≡ self.old.rules }
        ensures taken { let write = put manifest.now.key (document_in manifest.now.body) beside in
            (base : List (KeyData × StoredData P)) (v : View P) → Shows self.old base v → IsKnown self.old base manifest.now.key
            → OnOk result (MayFollow self.old.rules v write × Shows self.new base (after self.old.rules v write)) }
        ensures not_allowed { (base : List (KeyData × StoredData P)) (v : View P) → Shows self.old base v → IsKnown self.old base manifest.now.key
            → IsErrOf result RedoFault.NotAllowed → MayFollow self.old.rules v (put manifest.now.key (document_in manifest.now.body) beside) → ⊥ }
        ensures known { KnowsSame self.old self.new }
        ensures kept { OnErr result (ShowsSame self.old self.new) }
    {
        if !self.may_put(manifest) {
            return Err(RedoFault::NotAllowed);
        }
        let stands = self.has(manifest.key());
        let put = self.prepare_put(alloc, manifest, beside, stands)?;
        self.put(put);
        Ok(())
    }

    /// Takes the deletion of a stored record: of the object at the key, where memory knows what stands under it. Takes all its memory before it
    /// changes anything that is seen.
    ///
    /// # Errors
    ///
    /// As those of `redo_put`.
    pub fn redo_delete(&mut self, alloc: Global, key: &Key) -> Result<(), RedoFault>
        ensures rules { self.new.rules ≡ self.old.rules }
        ensures taken { (base : List (KeyData × StoredData P)) (v : View P) → Shows self.old base v → IsKnown self.old base key.now
            → OnOk result (MayFollow self.old.rules v (delete key.now) × Shows self.new base (after self.old.rules v (delete key.now))) }
        ensures not_allowed { (base : List (KeyData × StoredData P)) (v : View P) → Shows self.old base v → IsKnown self.old base key.now
            → IsErrOf result RedoFault.NotAllowed → MayFollow self.old.rules v (delete key.now) → ⊥ }
        ensures known { KnowsSame self.old self.new }
        ensures kept { OnErr result (ShowsSame self.old self.new) }
    {
        if self.is_exhausted() {
            return Err(RedoFault::NotAllowed);
        }
        let Some(found) = self.known(key)? else {
            return Err(RedoFault::NotAllowed);
        };
        let deletion = self.prepare_deletion(alloc, key, found.document)?;
        self.delete(deletion);
        Ok(())
    }

    // What stands under a key, where memory knows.
    fn known(&self, key: &Key) -> Result<Option<FoundDocument>, AllocError>
        ensures { (base : List (KeyData × StoredData P)) (v : View P) → Shows self.now base v → IsKnown self.now base key.now
            → IfOk result (λ found. found ≡ option_map found_in (stored_at v key.now)) }
    {
        match self.change(key) {
            Some(change) => found(change),
            None => Ok(None),
        }
    }

    // Whether an object stands under a key, where memory knows.
    fn has(&self, key: &Key) -> bool
        ensures { (base : List (KeyData × StoredData P)) (v : View P) → Shows self.now base v → IsKnown self.now base key.now → result ≡ exists v key.now }
    {
        match self.change(key) {
            Some(change) => change.is_some(),
            None => false,
        }
    }

    // Whether the manifest's document may be put at its key.
    fn may_put(&self, manifest: &Manifest) -> bool
        ensures shown { (base : List (KeyData × StoredData P)) (v : View P) → Shows self.now base v → IsKnown self.now base manifest.now.key
            → IsTrue result ↔ MayPut self.now.rules v manifest.now.key (document_in manifest.now.body) }
        ensures revision { IsTrue result → self.now.revision < self.now.rules.greatest_revision }
    {
        // The document, of which the text and the form speak.
        let _document = manifest.document();
        may_stand(
            self.rules().format.has(manifest.key().resource()),
            self.is_too_large(manifest),
            self.is_exhausted(),
            self.has(manifest.key()),
            self.is_full(),
        )
    }
}
