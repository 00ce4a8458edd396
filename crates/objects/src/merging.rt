//! The entries that changes leave.

ghost use Rattle.std.specs.Prelude.{◌≡◌, ◌≤◌, ◌++◌, ◌∷◌, List, length, drop, ◌↔◌, IfOk, OnOk, IsTrue};
ghost use Rattle.std.specs.FinMap.{is_sorted};
ghost use Rattle.names.specs.Key.{Key as KeyData, key_cmp};
ghost use Rattle.objects.specs.Merged.{merged};
ghost use Rattle.objects.specs.Steps.{changes_of, put_by, puts_of, IsNext, IsSplitAt, NoneBelow, AllAbove};

use crate::entry::KeyValue;
use crate::lent::Lent;
use names::Key;
use std::alloc::{AllocError, Global};

// Adds what a change put.
fn push_put<'a, T>(
    kept: &mut Vec<Lent<'a, T>>,
    change: &'a KeyValue<Option<T>>,
) -> Result<(), AllocError>
    ensures { OnOk result (kept.new.items ≡ kept.old.items ++ put_by change.now) }
{
    if let Some(value) = change.value() {
        let key = change.key();
        kept.push(Lent { key, value })?;
    }
    Ok(())
}

// Adds what changes put.
fn push_puts<'a, T>(
    kept: &mut Vec<Lent<'a, T>>,
    changes: &[&'a KeyValue<Option<T>>],
) -> Result<(), AllocError>
    ensures { OnOk result (kept.new.items ≡ kept.old.items ++ puts_of (changes_of changes.now)) }
{
    for change in changes {
        push_put(kept, change)?;
    }
    Ok(())
}

// How many of the changes are below a key.
fn count_below<T>(changes: &[&KeyValue<Option<T>>], key: &Key) -> usize
    ensures bound { result ≤ length changes.now }
    ensures split { IsTrue (is_sorted key_cmp (changes_of changes.now)) → IsSplitAt key.now (changes_of changes.now) result }
{
    changes.partition_point(|change| change.key().cmp(key).is_lt())
}

// Whether the first of the changes is one of the key.
fn is_next<T>(changes: &[&KeyValue<Option<T>>], key: &Key) -> bool
    ensures { IsTrue result ↔ IsNext key.now (changes_of changes.now) }
{
    match changes.first() {
        Some(change) => change.key() == key,
        None => false,
    }
}

// Adds an entry, or what the first of the changes puts in its place: none of them is below it. Answers how many changes are done.
fn push_entry<'a, T>(
    kept: &mut Vec<Lent<'a, T>>,
    changes: &[&'a KeyValue<Option<T>>],
    entry: &'a (Key, T),
) -> Result<usize, AllocError>
    ensures bound { IfOk result (λ count. count ≤ length changes.now) }
    ensures pushed { (base : List (KeyData × T)) → IsTrue (is_sorted key_cmp (changes_of changes.now)) → NoneBelow entry.now.0 (changes_of changes.now) → AllAbove entry.now.0 base
        → IfOk result (λ count. kept.new.items ++ merged (drop count (changes_of changes.now)) base ≡ kept.old.items ++ merged (changes_of changes.now) (entry.now ∷ base)) }
{
    if is_next(changes, &entry.0) {
        push_put(kept, changes[0])?;
        return Ok(1);
    }
    kept.push(Lent {
        key: &entry.0,
        value: &entry.1,
    })?;
    Ok(0)
}

/// The entries that ascending changes leave of ascending entries, in order. No entry is copied.
///
/// # Errors
///
/// Out of memory.
pub fn merged<'a, T>(
    alloc: Global,
    changes: &[&'a KeyValue<Option<T>>],
    base: &'a [(Key, T)],
) -> Result<Vec<Lent<'a, T>>, AllocError>
    ensures { IsTrue (is_sorted key_cmp (changes_of changes.now)) → IsTrue (is_sorted key_cmp base.now)
        → IfOk result (λ kept. kept.items ≡ merged (changes_of changes.now) base.now) }
{
    let mut kept = Vec::new(alloc);
    let mut done = 0;
    for entry in base {
        let below = done + count_below(&changes[done..], &entry.0);
        push_puts(&mut kept, &changes[done..below])?;
        done = below + push_entry(&mut kept, &changes[below..], entry)?;
    }
    push_puts(&mut kept, &changes[done..])?;
    Ok(kept)
}
