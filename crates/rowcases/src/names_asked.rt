//! Questions on names, keys, resources and formats.

use crate::texts::{or_dash, or_empty, quoted};
use cases::{
    TextBuilder, WordReader, Wrong, first_word, push_bytes, shown, spelled, text, yes_or_no,
};
use names::{Format, Key, KeyFault, Resource, ResourceTable, Scope, check_name, check_namespace};
use records::RecordFault;
use recovery::RecoveryFault;
use std::alloc::Global;

/// The resource with this plural in its paths.
pub fn resource(plural: &str) -> Result<Resource, Wrong> {
    for resource in ResourceTable::RESOURCES {
        if resource.plural() == plural {
            return Ok(resource);
        }
    }
    Err(Wrong::Told("no such resource"))
}

// Why there is no key.
fn no_key(fault: KeyFault) -> Wrong {
    match fault {
        KeyFault::NoKey => Wrong::Told("no key"),
        KeyFault::Memory => Wrong::Memory,
    }
}

/// The key that the next words name: `RESOURCE NAMESPACE NAME`.
pub fn key(alloc: Global, words: &mut WordReader<'_>) -> Result<Key, Wrong> {
    let resource = resource(words.word())?;
    let namespace = or_empty(words.word());
    match Key::new(alloc, resource, namespace, words.word()) {
        Ok(key) => Ok(key),
        Err(fault) => Err(no_key(fault)),
    }
}

// The key that bytes spell.
fn read(alloc: Global, bytes: &[u8]) -> Result<Key, Wrong> {
    match Key::read(alloc, bytes) {
        Ok(key) => Ok(key),
        Err(fault) => Err(no_key(fault)),
    }
}

/// `name 'TEXT'`, `namespace 'TEXT'`: whether it is one.
pub fn name(alloc: Global, word: &str, text: &str) -> Result<String, Wrong> {
    let text = quoted(alloc, text)?;
    let is_one = match word {
        "name" => check_name(text.as_str()),
        _ => check_namespace(text.as_str()),
    };
    yes_or_no(alloc, is_one)
}

/// `key RESOURCE NAMESPACE NAME`: its bytes, which must read back to it.
pub fn key_bytes(alloc: Global, text: &str) -> Result<String, Wrong> {
    let key = key(alloc, &mut WordReader::new(text))?;
    let spelled = spelled_key(alloc, &key);
    drop(key);
    spelled
}

fn spelled_key(alloc: Global, key: &Key) -> Result<String, Wrong> {
    let Ok(bytes) = key.bytes(alloc) else {
        return Err(Wrong::Memory);
    };
    let read = read(alloc, bytes.as_slice())?;
    let is_same = read == *key;
    drop(read);
    if is_same {
        spelled(alloc, bytes.as_slice())
    } else {
        Err(Wrong::Told("its bytes read to another key"))
    }
}

/// `bytes HEX ..`: the key that they spell, copied.
pub fn key_read(alloc: Global, text: &str) -> Result<String, Wrong> {
    let mut bytes = Vec::new(alloc);
    push_bytes(&mut bytes, text)?;
    let key = read(alloc, bytes.as_slice());
    drop(bytes);
    match key {
        Ok(key) => {
            let parts = copied_parts(alloc, &key);
            drop(key);
            parts
        }
        Err(Wrong::Told(why)) => self::text(alloc, why),
        Err(wrong) => Err(wrong),
    }
}

// The parts of a copy of the key.
fn copied_parts(alloc: Global, key: &Key) -> Result<String, Wrong> {
    let Ok(copy) = key.clone() else {
        return Err(Wrong::Memory);
    };
    let mut line = TextBuilder::new(alloc);
    line.word(copy.resource().plural());
    line.word(or_dash(copy.namespace()));
    line.word(copy.name());
    drop(copy);
    line.end()
}

/// `order KEY KEY`: how the first stands to the second, by each of the comparisons.
pub fn order(alloc: Global, text: &str) -> Result<String, Wrong> {
    let mut words = WordReader::new(text);
    let low = key(alloc, &mut words)?;
    let high = key(alloc, &mut words)?;
    let order = order_of(&low, &high);
    drop(low);
    drop(high);
    self::text(alloc, order)
}

fn order_of(low: &Key, high: &Key) -> &'static str {
    let is_less = low < high;
    let is_greater = low > high;
    let is_equal = low == high;
    let differ = (is_less != (high > low))
        | (is_greater != (high < low))
        | (is_equal == (low != high));
    match (is_less, is_greater, is_equal) {
        (true, false, false) if !differ => "below",
        (false, true, false) if !differ => "above",
        (false, false, true) if !differ => "the same",
        _ => "the comparisons differ",
    }
}

/// `told FAULT`: what is told of it.
pub fn told(alloc: Global, text: &str) -> Result<String, Wrong> {
    match text {
        "NoKey" => shown(alloc, &KeyFault::NoKey),
        "Memory" => shown(alloc, &KeyFault::Memory),
        "record memory" => shown(alloc, &RecordFault::Memory),
        "recovery memory" => shown(alloc, &RecoveryFault::Memory),
        "recovery plans" => shown(alloc, &RecoveryFault::Plans),
        _ => Err(Wrong::Told("no such fault")),
    }
}

// The format of a number.
fn format_of(number: &str) -> Result<Format, Wrong> {
    match number {
        "1" => Ok(Format::First),
        "2" => Ok(Format::Second),
        "3" => Ok(Format::Third),
        _ => Err(Wrong::Told("no such format")),
    }
}

/// `format N`: the numbers of a format: events, bytes of a text, objects, the greatest revision; and the floor of a new store.
pub fn format(alloc: Global, text: &str) -> Result<String, Wrong> {
    let format = format_of(text)?;
    let rules = format.rules(format.first_floor());
    let mut line = TextBuilder::new(alloc);
    for limit in [
        rules.window_events,
        rules.text_limit_bytes,
        rules.object_limit,
    ] {
        line.show(&limit);
        line.push(" ");
    }
    line.show(&rules.greatest_revision);
    line.push(" ");
    line.show(&rules.floor);
    line.end()
}

/// `has FORMAT RESOURCE`: whether a store of the format may hold objects of the resource.
pub fn has(alloc: Global, text: &str) -> Result<String, Wrong> {
    let (number, plural) = first_word(text);
    let format = format_of(number)?;
    match resource(plural) {
        Ok(resource) => yes_or_no(alloc, format.has(resource)),
        Err(wrong) => Err(wrong),
    }
}

// Whether each way of finding the resource finds it.
fn is_found(resource: Resource) -> bool {
    ResourceTable::numbered(resource.number()) == Some(resource)
        && ResourceTable::with_plural(resource.api_version(), resource.plural()) == Some(resource)
        && ResourceTable::with_kind(resource.api_version(), resource.kind()) == Some(resource)
}

/// `numbered N`: the resource of that number: its version for clients, group, version, plural, kind and scope. It must be found by
/// its plural and by its kind too.
pub fn numbered(alloc: Global, text: &str) -> Result<String, Wrong> {
    let Ok(number) = text.parse::<u8>() else {
        return Err(Wrong::Told("a resource's number is a byte"));
    };
    let Some(resource) = ResourceTable::numbered(number) else {
        return self::text(alloc, "none");
    };
    if resource.number() != number || !is_found(resource) {
        return Err(Wrong::Told("it is not found again"));
    }
    let mut line = TextBuilder::new(alloc);
    line.word(resource.api_version());
    line.word(or_dash(resource.group()));
    line.word(resource.version());
    line.word(resource.plural());
    line.word(resource.kind());
    line.word(scope_word(resource));
    line.end()
}

fn scope_word(resource: Resource) -> &'static str {
    match (resource.scope(), resource.is_namespaced()) {
        (Scope::Namespaced, true) => "namespaced",
        (Scope::Cluster, false) => "cluster",
        _ => "no scope",
    }
}

/// `plural VERSION PLURAL`, `kind VERSION KIND`: the number of the resource with them.
pub fn number_of(alloc: Global, word: &str, text: &str) -> Result<String, Wrong> {
    let (api_version, name) = first_word(text);
    let found = match word {
        "plural" => ResourceTable::with_plural(api_version, name),
        _ => ResourceTable::with_kind(api_version, name),
    };
    match found {
        Some(resource) => shown(alloc, &resource.number()),
        None => self::text(alloc, "none"),
    }
}
