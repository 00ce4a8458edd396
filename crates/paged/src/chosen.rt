//! Which objects of a checkpoint an opening keeps in memory: policies, bindings, and those that the log writes.

ghost use Rattle.std.specs.Prelude.{◌≡◌, ◌∷◌, ℕ, List, true, false, Contains, OnOk};
ghost use Rattle.names.specs.Key.{Key as KeyData, key_bytes};
ghost use Rattle.paged.specs.Chosen.{is_rule_number, is_rule_key, rules_among, has_key, is_chosen};

use names::{Key, ResourceTable};
use policy::is_guarded;
use records::{Entry, OBJECT_MARK, object_key};
use snapshots::Choice;
use std::alloc::{AllocError, Global};
use std::collections::BTreeSet;

// Whether the number is that of policies or of bindings.
fn is_rule_number(number: u8) -> bool
    ensures { result ≡ is_rule_number number }
{
    match ResourceTable::numbered(number) {
        Some(resource) => !is_guarded(resource),
        None => false,
    }
}

// Whether the key is that of the entry of a policy or a binding.
fn is_rule_key(key: &[u8]) -> bool
    ensures { result ≡ is_rule_key key.now }
{
    let Some((mark, rest)) = key.split_first() else {
        return false;
    };
    match rest.first() {
        Some(number) => *mark == OBJECT_MARK && is_rule_number(*number),
        None => false,
    }
}

/// How many of the entries are those of policies and bindings.
pub(crate) fn rules_among(entries: &[Entry]) -> usize
    ensures { result ≡ rules_among entries.now }
{
    let mut count = 0;
    for entry in entries {
        if is_rule_key(entry.key()) {
            count += 1;
        }
    }
    count
}

/// The policies and the bindings are held, and the objects under some keys, each of which is looked up in the order of their bytes. A key that was added
/// twice is kept once.
#[derive(Drop)]
pub struct Chosen {
    keys: BTreeSet<Vec<u8>>,
}

impl Chosen {
    /// The policies and the bindings alone.
    pub fn new(alloc: Global) -> Chosen
        ensures { (key : List ℕ) → has_key result.keys key ≡ false }
    {
        Chosen {
            keys: BTreeSet::new(alloc),
        }
    }

    /// Adds what stands under these keys. What was chosen stays so, also where memory is refused.
    pub fn add(&mut self, alloc: Global, keys: &[Key]) -> Result<(), AllocError>
        ensures added { OnOk result ((k : KeyData) → Contains keys.now k → is_chosen self.new (1 ∷ key_bytes k) ≡ true) }
        ensures stays { (key : List ℕ) → is_chosen self.old key ≡ true → is_chosen self.new key ≡ true }
    {
        for key in keys {
            self.keys.insert(object_key(alloc, key)?)?;
        }
        Ok(())
    }
}

impl Choice for Chosen {
    ghost use Rattle.paged.specs.Chosen.{is_chosen};

    ghost chosen = { is_chosen };

    fn holds(&self, key: &[u8]) -> bool {
        is_rule_key(key) || self.keys.contains(key)
    }
}
