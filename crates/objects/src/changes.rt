//! Changes by key, and how many entries they leave.

ghost use Rattle.std.specs.Prelude.{◌≡◌, ◌<◌, ◌≤◌, ◌^◌, ◌-◌, List, [], length, map, is_some, IsTrue, IfOk, OnOk};
ghost use Rattle.std.specs.FinMap.{is_sorted};
ghost use Rattle.std.specs.List.{filter};
ghost use Rattle.std.specs.Option.{option_copied, option_map};
ghost use Rattle.names.specs.Key.{Key as KeyData, key_cmp};
ghost use Rattle.objects.specs.Objects.{value_at, with_value, is_of};
ghost use Rattle.objects.specs.Merged.{changed, merged};
ghost use Rattle.objects.specs.Changes.{Leaves};
ghost use Rattle.objects.specs.Steps.{changes_of};

use crate::entry::KeyValue;
use crate::lent::Lent;
use crate::merging::merged;
use crate::objects::Objects;
use names::{Key, Resource};
use std::alloc::{AllocError, Global};
use std::marker::Model;

// All of some changes.
fn all_of<T>(
    alloc: Global,
    changes: &[KeyValue<Option<T>>],
) -> Result<Vec<&KeyValue<Option<T>>>, AllocError>
    ensures { IfOk result (λ all. changes_of all.items ≡ changes.now) }
{
    changes.iter().collect(alloc)
}

/// What was put or removed by key, over entries that lie below, and how many entries that leaves.
#[derive(Drop)]
pub struct Changes<T> {
    made: Objects<Option<T>>,
    count: usize,
}

impl<T> Model for Changes<T> {
    ghost use Rattle.objects.specs.Changes.{Changes as ChangesData};

    ghost Value = { ChangesData T };

    ghost view = { λ c. record { made = c.made.entries; count = c.count; room = c.made.room } };
}

impl<T: Drop> Changes<T> {
    /// No changes yet, over this many entries. Takes no memory.
    pub fn over(alloc: Global, count: usize) -> Changes<T>
        ensures leaves { (base : List (KeyData × T)) → IsTrue (is_sorted key_cmp base) → length base ≡ count → Leaves result base base }
        ensures none { result.made ≡ [] }
    {
        Changes {
            made: Objects::new(alloc),
            count,
        }
    }

    /// How many entries they leave.
    pub fn count(&self) -> usize
        ensures { result ≡ self.now.count }
    {
        self.count
    }

    /// All changes, ascending by key.
    pub fn made(&self) -> &[KeyValue<Option<T>>]
        ensures value { result.now ≡ self.now.made }
        ensures ascending { IsTrue (is_sorted key_cmp self.now.made) }
    {
        self.made.entries()
    }

    /// The change of a key, if it has one: what was put, or none where the key was removed.
    pub fn get(&self, key: &Key) -> Option<&Option<T>>
        ensures { option_copied result ≡ value_at key.now self.now.made }
    {
        self.made.get(key)
    }

    /// Takes memory for this many more keys, if it is not there yet.
    pub fn reserve(&mut self, additional: usize) -> Result<(), AllocError>
        ensures room { OnOk result (additional ≤ self.new.room) }
        ensures made { self.new.made ≡ self.old.made }
        ensures count { self.new.count ≡ self.old.count }
    {
        self.made.reserve(additional)
    }

    /// Makes a change: a put, or a removal. It is told whether an entry stood under the key. Takes no memory.
    pub fn make(&mut self, change: KeyValue<Option<T>>, stood: bool)
        requires { 0 < self.old.room }
        ensures leaves { (base left : List (KeyData × T)) → Leaves self.old base left → stood ≡ is_some (value_at change.0 left)
            → length left < 2 ^ 64 - 1 → Leaves self.new base (changed change.0 change.1 left) }
        ensures made { self.new.made ≡ with_value change.0 change.1 self.old.made }
    {
        let rest = self.count.saturating_sub(usize::from(stood));
        self.count = rest.saturating_add(usize::from(change.value().is_some()));
        let _old = self.made.put(change);
    }

    /// Makes a change that says what stands under its key already. It leaves what was left before. Takes no memory.
    pub fn hold(&mut self, change: KeyValue<Option<T>>)
        requires { 0 < self.old.room }
        ensures leaves { (base left : List (KeyData × T)) → Leaves self.old base left → value_at change.0 left ≡ change.1 → Leaves self.new base left }
        ensures made { self.new.made ≡ with_value change.0 change.1 self.old.made }
    {
        let _same = self.made.put(change);
    }

    /// Of a resource, in one namespace or in all, what is left of the entries that lie below, in key order. No entry is copied.
    ///
    /// # Errors
    ///
    /// Out of memory.
    pub fn list<'a>(
        &'a self,
        alloc: Global,
        resource: Resource,
        namespace: Option<&str>,
        below: &'a [(Key, T)],
    ) -> Result<Vec<Lent<'a, T>>, AllocError>
        ensures listed { let text = option_map (λ text. text.now) namespace.entry in (base left : List (KeyData × T)) → Leaves self.now base left
            → below.now ≡ filter (λ entry. is_of resource text entry.0) base
            → IfOk result (λ listed. listed.items ≡ filter (λ entry. is_of resource text entry.0) left) }
        ensures merged { let text = option_map (λ text. text.now) namespace.entry in IsTrue (is_sorted key_cmp below.now)
            → IfOk result (λ listed. listed.items ≡ merged (filter (λ change. is_of resource text change.0) self.now.made) below.now) }
    {
        // All changes, which ascend.
        let _made = self.made.entries();
        let changes = self.made.list(alloc, resource, namespace)?;
        merged(alloc, &changes, below)
    }

    /// All that is left of the entries that lie below, in key order. No entry is copied.
    ///
    /// # Errors
    ///
    /// Out of memory.
    pub fn left<'a>(
        &'a self,
        alloc: Global,
        below: &'a [(Key, T)],
    ) -> Result<Vec<Lent<'a, T>>, AllocError>
        ensures { (left : List (KeyData × T)) → Leaves self.now below.now left → IfOk result (λ all. all.items ≡ left) }
    {
        let made = all_of(alloc, self.made.entries())?;
        merged(alloc, &made, below)
    }
}
