//! Entries that lie in memory.

ghost use Rattle.std.specs.Prelude.{◌≡◌, ◌↔◌, IsTrue};
ghost use Rattle.std.specs.FinMap.{is_sorted};
ghost use Rattle.pages.specs.Page.{bytes_cmp};
ghost use Rattle.checkpoint.specs.EntryList.{listed, entries_of};

use crate::filling::{Entries, EntriesFault};
use crate::index::is_below;
use device::Device;

/// Entries that lie in memory, walked in the order that they have there. No walk of theirs fails.
#[derive(Drop)]
pub struct EntryList {
    entries: Vec<(Vec<u8>, Vec<u8>)>,
    // how many the walk has come to
    passed: usize,
}

impl EntryList {
    /// These entries, each a key with what stands under it.
    pub fn new(entries: Vec<(Vec<u8>, Vec<u8>)>) -> EntryList
        ensures { entries_of result ≡ listed entries.items }
    {
        EntryList { entries, passed: 0 }
    }

    /// Whether the keys ascend.
    pub fn ascends(&self) -> bool
        ensures { IsTrue result ↔ IsTrue (is_sorted bytes_cmp (entries_of self.now)) }
    {
        for at in 1..self.entries.len() {
            if !is_below(&self.entries[at - 1].0, &self.entries[at].0) {
                return false;
            }
        }
        true
    }
}

impl Entries for EntryList {
    ghost use Rattle.std.specs.Prelude.{◌≡◌, ◌≤◌, ◌-◌, [], length, get_or, drop};
    ghost use Rattle.checkpoint.specs.EntryList.{entries_of};

    ghost gives = { λ list _ entries. entries_of list ≡ entries };

    ghost ahead = { λ list _ entries. drop list.passed (entries_of list) ≡ entries };

    ghost stands = { λ list. (1 ≤ list.passed) × (list.passed ≤ length list.entries.items) };

    ghost here = { λ list. get_or (entries_of list) (list.passed - 1) ([], []) };

    ghost most = { λ list. length list.entries.items - list.passed };

    ghost reads = { λ _ _. ⊥ };

    fn rewind(&mut self) {
        self.passed = 0;
    }

    fn advance<D: Device>(&mut self, _device: &mut D) -> Result<bool, EntriesFault> {
        if self.passed >= self.entries.len() {
            return Ok(false);
        }
        self.passed += 1;
        Ok(true)
    }

    fn key(&self) -> &[u8] {
        &self.entries[self.passed - 1].0
    }

    fn cell(&self) -> &[u8] {
        &self.entries[self.passed - 1].1
    }

    ghost gives_same = { λ _ _ _ _ _ _ given. given };

    ghost ahead_same = { λ _ _ _ _ _ _ there. there };
}
