//! The map of objects: numbers that are put and removed under keys.

use crate::names_asked::key;
use cases::{WordReader, Wrong, number, shown, text};
use objects::{KeyValue, Objects};
use std::alloc::Global;

// A number, or none.
fn number_or_none(alloc: Global, value: Option<u64>) -> Result<String, Wrong> {
    match value {
        Some(value) => shown(alloc, &value),
        None => text(alloc, "none"),
    }
}

/// `store KEY NUMBER`: puts it, and gives what stood there before.
pub fn store(alloc: Global, objects: &mut Objects<u64>, text: &str) -> Result<String, Wrong> {
    objects.reserve(1)?;
    let mut words = WordReader::new(text);
    let key = key(alloc, &mut words)?;
    let value = number(words.rest())?;
    match KeyValue::new(alloc, key, value) {
        Ok(entry) => number_or_none(alloc, objects.put(entry)),
        Err(_) => Err(Wrong::Memory),
    }
}

/// `found KEY`: what stands there.
pub fn found(alloc: Global, objects: &Objects<u64>, text: &str) -> Result<String, Wrong> {
    let key = key(alloc, &mut WordReader::new(text))?;
    let found = objects.get(&key).copied();
    drop(key);
    number_or_none(alloc, found)
}

/// `delete KEY`: removes it, and gives what stood there.
pub fn delete(alloc: Global, objects: &mut Objects<u64>, text: &str) -> Result<String, Wrong> {
    let key = key(alloc, &mut WordReader::new(text))?;
    let removed = objects.remove(&key);
    drop(key);
    number_or_none(alloc, removed)
}

/// `count`: how many objects there are.
pub fn count(alloc: Global, objects: &Objects<u64>) -> Result<String, Wrong> {
    let count = objects.len();
    if objects.is_empty() != (count == 0) {
        return Err(Wrong::Told("whether there is none is told otherwise"));
    }
    if count == 0 {
        text(alloc, "none")
    } else {
        shown(alloc, &count)
    }
}
