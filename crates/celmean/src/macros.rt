//! Truth tables and macros, over the outcomes of all their parts.

ghost use Rattle.std.specs.Prelude.{◌≡◌, ◌++◌, ◌∷◌, [], if◌then◌else◌, IfOk, OnOk, option_map};
ghost use Rattle.celmean.specs.Macros.{is_true, is_false, is_truth, both, either, some_is, all_are, count_true, all_of, some_of, one_of, kept, filtered, reduced, keys, list_items, range_of};
ghost use Rattle.celmean.specs.Value.{mapping};
ghost use Rattle.celmean.specs.Seen.{value_of, values_seen, entries_seen, outcome_of, outcomes_seen};

use crate::collections::list_of;
use crate::value::{Outcome, Value, copy_items};
use celtree::Macro;
use std::alloc::{AllocError, Global};

/// The most items that a macro goes over.
pub const LONGEST_RANGE: usize = 1024;

/// Whether the outcome is true.
pub fn is_true(outcome: &Outcome) -> bool
    ensures { result ≡ is_true (outcome_of outcome.now) }
{
    match outcome {
        Outcome::Gives(Value::Bool(truth)) => *truth,
        _ => false,
    }
}

/// Whether the outcome is false.
pub fn is_false(outcome: &Outcome) -> bool
    ensures { result ≡ is_false (outcome_of outcome.now) }
{
    match outcome {
        Outcome::Gives(Value::Bool(truth)) => !*truth,
        _ => false,
    }
}

fn is_truth(outcome: &Outcome) -> bool
    ensures { result ≡ is_truth (outcome_of outcome.now) }
{
    matches!(outcome, Outcome::Gives(Value::Bool(_)))
}

/// `a && b`: false if either is false, else the error if either is no truth value, else true.
pub fn both(left: &Outcome, right: &Outcome) -> Outcome
    ensures { outcome_of result ≡ both (outcome_of left.now) (outcome_of right.now) }
{
    if is_false(left) || is_false(right) {
        Outcome::Gives(Value::Bool(false))
    } else if is_true(left) && is_true(right) {
        Outcome::Gives(Value::Bool(true))
    } else {
        Outcome::Error
    }
}

/// `a || b`: true if either is true, else the error if either is no truth value, else false.
pub fn either(left: &Outcome, right: &Outcome) -> Outcome
    ensures { outcome_of result ≡ either (outcome_of left.now) (outcome_of right.now) }
{
    if is_true(left) || is_true(right) {
        Outcome::Gives(Value::Bool(true))
    } else if is_false(left) && is_false(right) {
        Outcome::Gives(Value::Bool(false))
    } else {
        Outcome::Error
    }
}

fn some_false(outcomes: &Vec<Outcome>) -> bool
    ensures { result ≡ some_is is_false (outcomes_seen outcomes.now.items) }
{
    for outcome in outcomes {
        if is_false(outcome) {
            return true;
        }
    }
    false
}

fn some_true(outcomes: &Vec<Outcome>) -> bool
    ensures { result ≡ some_is is_true (outcomes_seen outcomes.now.items) }
{
    for outcome in outcomes {
        if is_true(outcome) {
            return true;
        }
    }
    false
}

fn all_true(outcomes: &Vec<Outcome>) -> bool
    ensures { result ≡ all_are is_true (outcomes_seen outcomes.now.items) }
{
    for outcome in outcomes {
        if !is_true(outcome) {
            return false;
        }
    }
    true
}

fn all_false(outcomes: &Vec<Outcome>) -> bool
    ensures { result ≡ all_are is_false (outcomes_seen outcomes.now.items) }
{
    for outcome in outcomes {
        if !is_false(outcome) {
            return false;
        }
    }
    true
}

fn all_truths(outcomes: &Vec<Outcome>) -> bool
    ensures { result ≡ all_are is_truth (outcomes_seen outcomes.now.items) }
{
    for outcome in outcomes {
        if !is_truth(outcome) {
            return false;
        }
    }
    true
}

fn count_true(outcomes: &Vec<Outcome>) -> usize
    ensures { result ≡ count_true (outcomes_seen outcomes.now.items) }
{
    let mut count = 0;
    for outcome in outcomes {
        if is_true(outcome) {
            count += 1;
        }
    }
    count
}

fn all_of(outcomes: &Vec<Outcome>) -> Outcome
    ensures { outcome_of result ≡ all_of (outcomes_seen outcomes.now.items) }
{
    if some_false(outcomes) {
        Outcome::Gives(Value::Bool(false))
    } else if all_true(outcomes) {
        Outcome::Gives(Value::Bool(true))
    } else {
        Outcome::Error
    }
}

fn some_of(outcomes: &Vec<Outcome>) -> Outcome
    ensures { outcome_of result ≡ some_of (outcomes_seen outcomes.now.items) }
{
    if some_true(outcomes) {
        Outcome::Gives(Value::Bool(true))
    } else if all_false(outcomes) {
        Outcome::Gives(Value::Bool(false))
    } else {
        Outcome::Error
    }
}

fn one_of(outcomes: &Vec<Outcome>) -> Outcome
    ensures { outcome_of result ≡ one_of (outcomes_seen outcomes.now.items) }
{
    if all_truths(outcomes) {
        Outcome::Gives(Value::Bool(count_true(outcomes) == 1))
    } else {
        Outcome::Error
    }
}

// The item goes after the others, if the outcome is true.
fn keep_if(kept: &mut Vec<Value>, item: &Value, outcome: &Outcome) -> Result<(), AllocError>
    ensures { OnOk result (values_seen kept.new.items ≡ values_seen kept.old.items ++ (if is_true (outcome_of outcome.now) then value_of item.now ∷ [] else [])) }
{
    if is_true(outcome) {
        kept.push(item.clone()?)?;
    }
    Ok(())
}

// The items for which the outcome is true.
fn kept(
    alloc: Global,
    items: &Vec<Value>,
    outcomes: &Vec<Outcome>,
) -> Result<Vec<Value>, AllocError>
    ensures { IfOk result (λ v. values_seen v.items ≡ kept (values_seen items.now.items) (outcomes_seen outcomes.now.items)) }
{
    let mut kept = Vec::new(alloc);
    let count = items.len().min(outcomes.len());
    for at in 0..count {
        keep_if(&mut kept, &items[at], &outcomes[at])?;
    }
    Ok(kept)
}

fn filtered(
    alloc: Global,
    items: &Vec<Value>,
    outcomes: &Vec<Outcome>,
) -> Result<Outcome, AllocError>
    ensures { IfOk result (λ o. outcome_of o ≡ filtered (values_seen items.now.items) (outcomes_seen outcomes.now.items)) }
{
    if all_truths(outcomes) {
        let kept = kept(alloc, items, outcomes)?;
        Ok(Outcome::Gives(Value::list(alloc, kept)?))
    } else {
        Ok(Outcome::Error)
    }
}

/// What a macro makes of the items and the body's outcomes for them.
///
/// # Errors
///
/// Out of memory.
pub fn reduced(
    alloc: Global,
    kind: Macro,
    items: &Vec<Value>,
    outcomes: Vec<Outcome>,
) -> Result<Outcome, AllocError>
    ensures { IfOk result (λ o. outcome_of o ≡ reduced kind (values_seen items.now.items) (outcomes_seen outcomes.items)) }
{
    match kind {
        Macro::All => Ok(all_of(&outcomes)),
        Macro::Exists => Ok(some_of(&outcomes)),
        Macro::ExistsOne => Ok(one_of(&outcomes)),
        Macro::Map => list_of(alloc, outcomes),
        Macro::Filter => filtered(alloc, items, &outcomes),
    }
}

fn keys(alloc: Global, entries: &Vec<(Value, Value)>) -> Result<Vec<Value>, AllocError>
    ensures { IfOk result (λ v. values_seen v.items ≡ keys (mapping (entries_seen entries.now.items))) }
{
    let mut keys = Vec::new(alloc);
    for (key, _) in entries {
        keys.push(key.clone()?)?;
    }
    Ok(keys)
}

/// The items of a list, where they lie: what a macro over it goes over, without a copy.
pub fn list_items(outcome: &Outcome) -> Option<&Vec<Value>>
    ensures { option_map (λ v. values_seen v.now.items) result ≡ list_items (outcome_of outcome.now) }
{
    match outcome {
        Outcome::Gives(value) => match value {
            Value::List(items) => Some(items),
            _ => None,
        },
        Outcome::Error => None,
    }
}

/// What a macro goes over: a list's items, or a map's keys in their order.
///
/// # Errors
///
/// Out of memory.
pub fn range_of(alloc: Global, outcome: &Outcome) -> Result<Option<Vec<Value>>, AllocError>
    ensures { IfOk result (λ o. option_map (λ v. values_seen v.items) o ≡ range_of (outcome_of outcome.now)) }
{
    match outcome {
        Outcome::Gives(value) => match value {
            Value::List(items) => Ok(Some(copy_items(items)?)),
            Value::Map(entries) => Ok(Some(keys(alloc, entries)?)),
            _ => Ok(None),
        },
        Outcome::Error => Ok(None),
    }
}
