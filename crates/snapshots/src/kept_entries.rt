//! Which checkpoint entries an opening keeps in memory.

ghost use Rattle.std.specs.Prelude.{◌≡◌, ℕ, ◌+◌, ◌<◌, ◌^◌, ◌++◌, ◌∷◌, Bool, List, [], OnOk};
ghost use Rattle.snapshots.specs.KeptEntries.{is_kept, kept_of, objects_among};

use checkpoint::{Reader, ReaderFault};
use records::{Entry, is_object_key};
use std::alloc::{AllocError, Global};

/// Tells which objects are held in memory.
pub trait Choice {
    /// The object whose entry has this key is held.
    ghost chosen: { Self → List ℕ → Bool };

    /// Whether the object whose entry has this key is held.
    fn holds(&self, key: &[u8]) -> bool
        ensures { result ≡ chosen self.now key.now };
}

// Whether the entry with this key is kept.
fn is_kept<C: Choice>(choice: &C, key: &[u8]) -> bool
    ensures { result ≡ is_kept (C.chosen choice.now) key.now }
{
    !is_object_key(key) || choice.holds(key)
}

/// Is told the entries of a checkpoint: it keeps those of the objects that are chosen and those that are no object's, and counts all objects. It refuses none.
#[derive(Drop)]
pub struct KeptEntries<'a, C: Choice> {
    choice: &'a C,
    kept: Vec<Entry>,
    objects: u64,
}

impl<'a, C: Choice> KeptEntries<'a, C> {
    /// Nothing was told yet.
    pub fn new(alloc: Global, choice: &'a C) -> KeptEntries<'a, C>
        ensures choice { result.choice.now ≡ choice.now }
        ensures kept { result.kept.items ≡ [] }
        ensures objects { result.objects ≡ 0 }
    {
        KeptEntries {
            choice,
            kept: Vec::new(alloc),
            objects: 0,
        }
    }

    /// The entries that were kept, in order.
    pub fn kept(&self) -> &[Entry]
        ensures { result.now ≡ self.now.kept.items }
    {
        &self.kept
    }

    // Keeps an entry, if it is to be kept.
    fn keep(&mut self, alloc: Global, key: &[u8], cell: &[u8]) -> Result<(), AllocError>
        ensures choice { self.new.choice.now ≡ self.old.choice.now }
        ensures kept { OnOk result (self.new.kept.items ≡ self.old.kept.items ++ kept_of (C.chosen self.old.choice.now) ((key.now, cell.now) ∷ [])) }
        ensures objects { self.new.objects ≡ self.old.objects }
    {
        if is_kept(self.choice, key) {
            let entry = Entry::new(key.to_vec(alloc)?, cell.to_vec(alloc)?);
            self.kept.push(entry)?;
        }
        Ok(())
    }

    // Counts an entry, if it is an object's.
    fn count(&mut self, key: &[u8])
        ensures choice { self.new.choice.now ≡ self.old.choice.now }
        ensures kept { self.new.kept ≡ self.old.kept }
        ensures counted { (cell : List ℕ) → self.old.objects + objects_among ((key.now, cell) ∷ []) < 2 ^ 64
            → self.new.objects ≡ self.old.objects + objects_among ((key.now, cell) ∷ []) }
    {
        if is_object_key(key) {
            self.objects = self.objects.saturating_add(1);
        }
    }

    /// How many objects there were, as far as a number of 64 bits counts.
    pub fn objects(&self) -> u64
        ensures { result ≡ self.now.objects }
    {
        self.objects
    }
}

impl<'a, C: Choice> Reader for KeptEntries<'a, C> {
    ghost use Rattle.snapshots.specs.KeptEntries.{HasKept, told_none, told_then};

    ghost told = { HasKept C.chosen };

    ghost refuses = { λ _ _. ⊥ };

    ghost told_none = { told_none C.chosen };

    ghost told_then = { told_then C.chosen };

    fn entry(&mut self, alloc: Global, key: &[u8], cell: &[u8]) -> Result<(), ReaderFault> {
        self.keep(alloc, key, cell)?;
        self.count(key);
        Ok(())
    }
}
