ghost use Rattle.std.specs.Prelude.{◌≡◌, ◌↔◌, ◌+◌, ◌-◌, ◌<◌, ◌≤◌, [], map, length, is_some, if◌then◌else◌, IsTrue, IsNone, IsOk, IfOk, IfErr, OnOk, OnErr};
ghost use Rattle.std.specs.FinMap.{is_sorted};
ghost use Rattle.std.specs.List.{filter};
ghost use Rattle.std.specs.Option.{option_copied, option_map};
ghost use Rattle.std.specs.Ordering.{eq_by_cmp};
ghost use Rattle.names.specs.Key.{Key as KeyData, key_cmp};
ghost use Rattle.objects.specs.Objects.{value_at, with_value, without_key, is_of};

use crate::entry::KeyValue;
use names::{Key, Resource};
use std::alloc::{AllocError, Global};
use std::marker::Model;
use std::mem;

// Whether the key is of this resource, and in this namespace if one is given.
fn is_key_of(key: &Key, resource: Resource, namespace: Option<&str>) -> bool
    ensures { result ≡ is_of resource (option_map (λ text. text.now) namespace.entry) key.now }
{
    let is_of_resource = key.resource().number() == resource.number();
    match namespace {
        None => is_of_resource,
        Some(namespace) => is_of_resource && key.namespace() == namespace,
    }
}

// Those of the entries that are of this resource, and in this namespace if one is given.
fn only_of<'a, T>(
    alloc: Global,
    entries: &'a [KeyValue<T>],
    resource: Resource,
    namespace: Option<&str>,
) -> Result<Vec<&'a KeyValue<T>>, AllocError>
    ensures { let text = option_map (λ text. text.now) namespace.entry in
        IfOk result (λ listed. map (λ entry. entry.now) listed.items
        ≡ filter (λ entry. is_of resource text entry.0) entries.now) }
{
    entries
        .iter()
        .filter(|entry| is_key_of(entry.key(), resource, namespace))
        .collect(alloc)
}

// All of the entries.
fn each_of<T>(alloc: Global, entries: &[KeyValue<T>]) -> Result<Vec<&KeyValue<T>>, AllocError>
    ensures { IfOk result (λ listed. map (λ entry. entry.now) listed.items ≡ entries.now) }
{
    entries.iter().collect(alloc)
}

/// What is stored, by key.
#[derive(Drop)]
pub struct Objects<T> {
    entries: Vec<KeyValue<T>>,
}

impl<T> Model for Objects<T> {
    ghost use Rattle.objects.specs.Objects.{Objects as ObjectsData};

    ghost Value = { ObjectsData T };

    ghost use Rattle.std.specs.Prelude.{◌-◌, IsTrue, vec_len, vec_capacity};
    ghost use Rattle.std.specs.FinMap.{is_sorted};
    ghost use Rattle.names.specs.Key.{key_cmp};

    ghost view = { λ o. record {
      entries = o.entries.items;
      room = vec_capacity o.entries - vec_len o.entries;
    } };

    ghost invariant = { λ o. IsTrue (is_sorted key_cmp o.entries.items) };
}

impl<T> Objects<T> {
    ghost use Rattle.objects.specs.Place.{StandsAt, IsGap, IsBefore, IsUpTo};

    /// No objects. Takes no memory.
    pub fn new(alloc: Global) -> Objects<T>
        ensures { result ≡ record { entries = []; room = 0 } }
    {
        Objects {
            entries: Vec::new(alloc),
        }
    }

    /// How many objects there are.
    pub fn len(&self) -> usize
        ensures len { result ≡ length self.now.entries }
        ensures ascending { IsTrue (is_sorted key_cmp self.now.entries) }
    {
        self.entries.len()
    }

    /// All entries, ascending by key.
    pub fn entries(&self) -> &[KeyValue<T>]
        ensures value { result.now ≡ self.now.entries }
        ensures ascending { IsTrue (is_sorted key_cmp self.now.entries) }
    {
        self.entries.as_slice()
    }

    /// Whether there are no objects.
    pub fn is_empty(&self) -> bool
        ensures { IsTrue result ↔ (self.now.entries ≡ []) }
    {
        self.entries.is_empty()
    }

    /// Takes memory for this many more keys, if it is not there yet.
    pub fn reserve(&mut self, additional: usize) -> Result<(), AllocError>
        ensures ok { OnOk result (additional ≤ self.new.room) }
        ensures entries { self.new.entries ≡ self.old.entries }
        ensures room { self.old.room ≤ self.new.room }
        ensures err { OnErr result (self.new ≡ self.old) }
        ensures succeeds { additional ≤ self.old.room → IsOk result }
    {
        self.entries.reserve(additional)
    }

    /// What is stored under the key.
    pub fn get(&self, key: &Key) -> Option<&T>
        ensures value { option_copied result ≡ value_at key.now self.now.entries }
        ensures ascending { IsTrue (is_sorted key_cmp self.now.entries) }
    {
        match self.place(key) {
            Ok(at) => Some(self.entries[at].value()),
            Err(_) => None,
        }
    }

    /// Stores the entry, and gives back what was stored under its key. Takes no memory: a new key
    /// uses up one place of the room.
    pub fn put(&mut self, entry: KeyValue<T>) -> Option<T>
        requires { IsNone (value_at entry.0 self.old.entries) → 0 < self.old.room }
        ensures value { result ≡ value_at entry.0 self.old.entries }
        ensures map { (key : KeyData) → value_at key self.new.entries ≡
            (if eq_by_cmp key_cmp key entry.0 then Some entry.1 else value_at key self.old.entries) }
        ensures entries { self.new.entries ≡ with_value entry.0 entry.1 self.old.entries }
        ensures room { self.new.room ≡
            (if is_some result then self.old.room else self.old.room - 1) }
    {
        match self.place(entry.key()) {
            Ok(at) => Some(mem::replace(&mut self.entries[at], entry).into_value()),
            Err(at) => {
                self.entries.insert(at, entry).unwrap();
                None
            }
        }
    }

    /// Removes what is stored under the key, and gives it back. Takes no memory.
    pub fn remove(&mut self, key: &Key) -> Option<T>
        ensures value { result ≡ value_at key.now self.old.entries }
        ensures map { (other : KeyData) → value_at other self.new.entries ≡
            (if eq_by_cmp key_cmp other key.now then None else value_at other self.old.entries) }
        ensures entries { self.new.entries ≡ without_key key.now self.old.entries }
        ensures room { self.new.room ≡
            (if is_some result then self.old.room + 1 else self.old.room) }
    {
        match self.place(key) {
            Ok(at) => Some(self.entries.remove(at).into_value()),
            Err(_) => None,
        }
    }

    /// The entries of a resource, in one namespace or in all, ascending by key. They stand beside one
    /// another: what is stored of other resources is not looked at, but for a search.
    pub fn list(
        &self,
        alloc: Global,
        resource: Resource,
        namespace: Option<&str>,
    ) -> Result<Vec<&KeyValue<T>>, AllocError>
        ensures { let text = option_map (λ text. text.now) namespace.entry in
            IfOk result (λ listed. map (λ entry. entry.now) listed.items
            ≡ filter (λ entry. is_of resource text entry.0) self.now.entries) }
    {
        let entries = self.entries_of(resource);
        match namespace {
            None => each_of(alloc, entries),
            Some(_) => only_of(alloc, entries, resource, namespace),
        }
    }

    // The entries of a resource.
    fn entries_of(&self, resource: Resource) -> &[KeyValue<T>]
        ensures { result.now ≡ filter (λ entry. is_of resource None entry.0) self.now.entries }
    {
        &self.entries[self.count_before(resource)..self.count_up_to(resource)]
    }

    // How many entries are of resources before this one.
    fn count_before(&self, resource: Resource) -> usize
        ensures bound { result ≤ length self.now.entries }
        ensures place { IsBefore self.now.entries resource result }
    {
        let number = resource.number();
        self.entries
            .partition_point(|entry| entry.key().resource().number() < number)
    }

    // How many entries are of this resource, or of those before.
    fn count_up_to(&self, resource: Resource) -> usize
        ensures bound { result ≤ length self.now.entries }
        ensures place { IsUpTo self.now.entries resource result }
    {
        let number = resource.number();
        self.entries
            .partition_point(|entry| entry.key().resource().number() <= number)
    }

    // Where the key stands, or would stand.
    fn place(&self, key: &Key) -> Result<usize, usize>
        ensures found { IfOk result (StandsAt self.now.entries key.now) }
        ensures absent { IfErr result (IsGap self.now.entries key.now) }
    {
        self.entries.binary_search_by(|entry| entry.key().cmp(key))
    }
}
