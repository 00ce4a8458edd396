//! Lists and maps.

ghost use Rattle.std.specs.Prelude.{◌≡◌, ◌≤◌, option_map, insert, vec_len, IfOk};
ghost use Rattle.celmean.specs.Value as seen;
ghost use Rattle.celmean.specs.Value.{Text, or_error, mapping, Gives, Mapping, with_value, with_values};
ghost use Rattle.celmean.specs.Collections.{lookup, item_at, indexed, member, has_member, is_among, contained, values_of, list_of, inserted, with_entry, put_entry, map_of};
ghost use Rattle.celmean.specs.Seen.{value_of, values_seen, entries_seen, outcome_of, outcomes_seen, outcome_pairs_seen};

use crate::equality::same;
use crate::order::{key_before, key_rank};
use crate::value::{Outcome, Value};
use std::alloc::{AllocError, Global};

// The value of an equal key.
fn lookup<'a>(key: &Value, entries: &'a Vec<(Value, Value)>) -> Option<&'a Value>
    ensures { option_map (λ v. value_of v.now) result ≡ lookup (value_of key.now) (entries_seen entries.now.items) }
{
    for (found, value) in entries {
        if same(key, found) {
            return Some(value);
        }
    }
    None
}

fn copy_or_error(found: Option<&Value>) -> Result<Outcome, AllocError>
    ensures { IfOk result (λ o. outcome_of o ≡ or_error (option_map (λ v. value_of v.now) found.entry)) }
{
    match found {
        Some(value) => Ok(Outcome::Gives(value.clone()?)),
        None => Ok(Outcome::Error),
    }
}

fn item_at(items: &Vec<Value>, place: i64) -> Option<&Value>
    ensures { option_map (λ v. value_of v.now) result ≡ item_at (values_seen items.now.items) place }
{
    match usize::try_from(place) {
        Ok(place) => items.get(place),
        Err(_) => None,
    }
}

// The item of a list at a signed number, or the value of a map's key.
fn indexed(of: &Value, index: &Value) -> Result<Outcome, AllocError>
    ensures { IfOk result (λ o. outcome_of o ≡ indexed (value_of of.now) (value_of index.now)) }
{
    match of {
        Value::List(items) => match index {
            Value::Int(place) => copy_or_error(item_at(items, *place)),
            _ => Ok(Outcome::Error),
        },
        Value::Map(entries) => copy_or_error(lookup(index, entries)),
        _ => Ok(Outcome::Error),
    }
}

fn text_value(alloc: Global, text: &str) -> Result<Value, AllocError>
    ensures { IfOk result (λ v. value_of v ≡ Text text.now) }
{
    Ok(Value::Text(String::from_str(alloc, text)?))
}

// The value of the key of a map.
fn member(alloc: Global, name: &str, of: &Value) -> Result<Outcome, AllocError>
    ensures { IfOk result (λ o. outcome_of o ≡ member name.now (value_of of.now)) }
{
    match of {
        Value::Map(entries) => {
            let key = text_value(alloc, name)?;
            copy_or_error(lookup(&key, entries))
        }
        _ => Ok(Outcome::Error),
    }
}

// Whether a map has the key.
fn has_member(alloc: Global, name: &str, of: &Value) -> Result<Outcome, AllocError>
    ensures { IfOk result (λ o. outcome_of o ≡ has_member name.now (value_of of.now)) }
{
    match of {
        Value::Map(entries) => {
            let key = text_value(alloc, name)?;
            Ok(Outcome::Gives(Value::Bool(lookup(&key, entries).is_some())))
        }
        _ => Ok(Outcome::Error),
    }
}

fn is_among(value: &Value, items: &Vec<Value>) -> bool
    ensures { result ≡ is_among (value_of value.now) (values_seen items.now.items) }
{
    for item in items {
        if same(value, item) {
            return true;
        }
    }
    false
}

/// Whether a list has an equal item, or a map an equal key.
pub(crate) fn contained(value: &Value, of: &Value) -> Outcome
    ensures { outcome_of result ≡ contained (value_of value.now) (value_of of.now) }
{
    match of {
        Value::List(items) => Outcome::Gives(Value::Bool(is_among(value, items))),
        Value::Map(entries) => Outcome::Gives(Value::Bool(lookup(value, entries).is_some())),
        _ => Outcome::Error,
    }
}

// The values, which are moved out of the outcomes.
fn values_of(alloc: Global, outcomes: Vec<Outcome>) -> Result<Option<Vec<Value>>, AllocError>
    ensures { IfOk result (λ o. option_map (λ v. values_seen v.items) o ≡ values_of (outcomes_seen outcomes.items)) }
{
    let mut values = Vec::with_capacity(alloc, outcomes.len())?;
    for outcome in outcomes {
        match outcome {
            Outcome::Gives(value) => values.push(value)?,
            Outcome::Error => return Ok(None),
        }
    }
    Ok(Some(values))
}

/// The list of the values.
///
/// # Errors
///
/// Out of memory.
pub fn list_of(alloc: Global, outcomes: Vec<Outcome>) -> Result<Outcome, AllocError>
    ensures { IfOk result (λ o. outcome_of o ≡ list_of (outcomes_seen outcomes.items)) }
{
    match values_of(alloc, outcomes)? {
        Some(values) => Ok(Outcome::Gives(Value::list(alloc, values)?)),
        None => Ok(Outcome::Error),
    }
}

// How many entries stand before the key's place.
fn place_of(key: &Value, entries: &Vec<(Value, Value)>) -> usize
    ensures bound { result ≤ vec_len entries.now }
    ensures place { (v : seen.Value) → inserted (value_of key.now) v (entries_seen entries.now.items) ≡ insert (entries_seen entries.now.items) result (value_of key.now, v) }
{
    let mut place = 0;
    for (found, _) in entries {
        if key_before(key, found) {
            return place;
        }
        place += 1;
    }
    place
}

// The entries with one more, at its key's place.
fn inserted(
    key: Value,
    value: Value,
    entries: Vec<(Value, Value)>,
) -> Result<Vec<(Value, Value)>, AllocError>
    ensures { IfOk result (λ v. entries_seen v.items ≡ inserted (value_of key) (value_of value) (entries_seen entries.items)) }
{
    let place = place_of(&key, &entries);
    let mut entries = entries;
    entries.insert(place, (key, value))?;
    Ok(entries)
}

// The entries with one more, if its key is one and no other key is equal.
fn with_entry(
    key: &Value,
    value: &Value,
    entries: Vec<(Value, Value)>,
) -> Result<Option<Vec<(Value, Value)>>, AllocError>
    ensures { IfOk result (λ o. or_error (option_map (λ v. Mapping (mapping (entries_seen v.items))) o) ≡ with_entry (value_of key.now) (value_of value.now) (entries_seen entries.items)) }
{
    if key_rank(key).is_some() && lookup(key, &entries).is_none() {
        let key = key.clone()?;
        let value = value.clone()?;
        let entries = inserted(key, value, entries)?;
        Ok(Some(entries))
    } else {
        Ok(None)
    }
}

fn put_entry(
    key: &Outcome,
    value: &Outcome,
    entries: Vec<(Value, Value)>,
) -> Result<Option<Vec<(Value, Value)>>, AllocError>
    ensures { IfOk result (λ o. or_error (option_map (λ v. Mapping (mapping (entries_seen v.items))) o) ≡ put_entry (outcome_of key.now) (outcome_of value.now) (Gives (Mapping (mapping (entries_seen entries.items))))) }
{
    match key {
        Outcome::Gives(key) => match value {
            Outcome::Gives(value) => with_entry(key, value, entries),
            Outcome::Error => Ok(None),
        },
        Outcome::Error => Ok(None),
    }
}

/// The map of the entries.
///
/// # Errors
///
/// Out of memory.
pub fn map_of(alloc: Global, outcomes: &Vec<(Outcome, Outcome)>) -> Result<Outcome, AllocError>
    ensures { IfOk result (λ o. outcome_of o ≡ map_of (outcome_pairs_seen outcomes.now.items)) }
{
    let mut entries = Vec::new(alloc);
    let mut left = outcomes.len();
    'entries: while left > 0 {
        left -= 1;
        let (key, value) = &outcomes[left];
        match put_entry(key, value, entries)? {
            Some(more) => entries = more,
            None => return Ok(Outcome::Error),
        }
    }
    Ok(Outcome::Gives(Value::map(alloc, entries)?))
}

/// The value of the key of a map, if the outcome is one.
///
/// # Errors
///
/// Out of memory.
pub fn member_of(alloc: Global, name: &str, of: &Outcome) -> Result<Outcome, AllocError>
    ensures { IfOk result (λ o. outcome_of o ≡ with_value (member name.now) (outcome_of of.now)) }
{
    match of {
        Outcome::Gives(value) => member(alloc, name, value),
        Outcome::Error => Ok(Outcome::Error),
    }
}

/// Whether a map has the key, if the outcome is one.
///
/// # Errors
///
/// Out of memory.
pub fn has_member_of(alloc: Global, name: &str, of: &Outcome) -> Result<Outcome, AllocError>
    ensures { IfOk result (λ o. outcome_of o ≡ with_value (has_member name.now) (outcome_of of.now)) }
{
    match of {
        Outcome::Gives(value) => has_member(alloc, name, value),
        Outcome::Error => Ok(Outcome::Error),
    }
}

/// The item of a list, or the value of a map's key, if both outcomes are values.
///
/// # Errors
///
/// Out of memory.
pub fn index_of(of: &Outcome, index: &Outcome) -> Result<Outcome, AllocError>
    ensures { IfOk result (λ o. outcome_of o ≡ with_values indexed (outcome_of of.now) (outcome_of index.now)) }
{
    match of {
        Outcome::Gives(of) => match index {
            Outcome::Gives(index) => indexed(of, index),
            Outcome::Error => Ok(Outcome::Error),
        },
        Outcome::Error => Ok(Outcome::Error),
    }
}
