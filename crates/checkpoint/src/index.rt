//! The first keys of pages that are read in order.

ghost use Rattle.std.specs.Prelude.{◌≡◌, ◌≤◌, ◌++◌, ◌∷◌, ◌↔◌, [], List, length, true, IsTrue, IfOk, OnOk};
ghost use Rattle.std.specs.FinMap.{is_sorted};
ghost use Rattle.std.specs.declared.cmp.Ordering.TheVariants.{Less};
ghost use Rattle.pages.specs.Page.{Entry, bytes_cmp};
ghost use Rattle.checkpoint.specs.Pages.{joined, first_key};
ghost use Rattle.checkpoint.specs.Index.{keys_of, last_key, IsIndexed};

use pages::Page;
use std::alloc::{AllocError, Global};

/// Of pages that were read in order: the first key of each, and the last key of all.
#[derive(Drop)]
pub(crate) struct Index {
    pub(crate) first_keys: Vec<Vec<u8>>,
    pub(crate) last_key: Vec<u8>,
}

/// Whether a key is below another one.
pub(crate) fn is_below(key: &[u8], other: &[u8]) -> bool
    ensures { IsTrue result ↔ (bytes_cmp key.now other.now ≡ Less) }
{
    key.cmp(other).is_lt()
}

impl Index {
    /// Of no pages. Takes no memory.
    pub(crate) fn new(alloc: Global) -> Index
        ensures { IsIndexed result [] }
    {
        Index {
            first_keys: Vec::new(alloc),
            last_key: Vec::new(alloc),
        }
    }

    // Whether the keys of a page are above those of the pages before it.
    fn is_above(&self, page: &Page<'_>) -> bool
        requires some { 1 ≤ length page.now }
        requires ascending { IsTrue (is_sorted bytes_cmp page.now) }
        ensures { (pages : List (List Entry)) → IsIndexed self.now pages
            → (IsTrue result ↔ IsTrue (is_sorted bytes_cmp (joined pages ++ page.now))) }
    {
        if self.first_keys.is_empty() {
            return true;
        }
        is_below(&self.last_key, page.key(0))
    }

    // Adds the first key of a page, and makes its last key that of all.
    fn push(&mut self, alloc: Global, page: &Page<'_>) -> Result<(), AllocError>
        requires { 1 ≤ length page.now }
        ensures first { OnOk result (keys_of self.new.first_keys.items ≡ keys_of self.old.first_keys.items ++ first_key page.now ∷ []) }
        ensures last { OnOk result (self.new.last_key.items ≡ last_key page.now) }
    {
        self.first_keys.push(page.key(0).to_vec(alloc)?)?;
        self.last_key.clear();
        self.last_key.extend_from_slice(page.key(page.len() - 1))?;
        Ok(())
    }

    /// Adds a page whose keys are above those of the pages before it, and whether they are.
    pub(crate) fn add(&mut self, alloc: Global, page: &Page<'_>) -> Result<bool, AllocError>
        requires some { 1 ≤ length page.now }
        requires ascending { IsTrue (is_sorted bytes_cmp page.now) }
        ensures above { (pages : List (List Entry)) → IsIndexed self.old pages
            → IfOk result (λ above. IsTrue above ↔ IsTrue (is_sorted bytes_cmp (joined pages ++ page.now))) }
        ensures added { (pages : List (List Entry)) → IsIndexed self.old pages
            → IfOk result (λ above. IsTrue above → IsIndexed self.new (pages ++ page.now ∷ [])) }
    {
        if !self.is_above(page) {
            return Ok(false);
        }
        self.push(alloc, page)?;
        Ok(true)
    }

    /// The first keys.
    pub(crate) fn into_first_keys(self) -> Vec<Vec<u8>>
        ensures { result ≡ self.first_keys }
    {
        let Index {
            first_keys,
            last_key: _,
        } = self;
        first_keys
    }
}
