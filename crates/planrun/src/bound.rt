//! The values of the names in an expression.

ghost use Rattle.std.specs.Prelude.{◌≡◌, ◌+◌, ◌<◌, [], ◌∷◌, ◌++◌, length, slice_get, Some, IfOk};
ghost use Rattle.celmean.specs.Seen.{value_of, outcome_of, outcomes_seen};
ghost use Rattle.instructions.specs.Bytes.{slot_number};
ghost use Rattle.instructions.specs.Machine.{or_missing, slot_value};
ghost use Rattle.planrun.specs.StackSeen.{held_seen};
ghost use Rattle.planrun.specs.Seen.{slots_seen};
ghost use Rattle.planrun.specs.Worlds.{name_seen};

use crate::held::Held;
use celmean::{Outcome, Value};
use instructions::{Name, Slot};
use serde_json::Value as Json;
use std::alloc::{AllocError, Global};

/// What the names of an expression stand for.
#[derive(Clone, Copy)]
pub struct Bindings<'a> {
    /// `object`
    pub object: &'a Json,
    /// `oldObject`
    pub old_object: &'a Json,
    /// `request`
    pub request: &'a Json,
    /// `params`
    pub params: &'a Json,
    /// `namespaceObject`
    pub namespace: &'a Json,
    /// The policy's variables, in order.
    pub variables: &'a [Outcome],
}

/// What a declared name stands for.
pub(crate) fn named<'a>(name: Name, bindings: &Bindings<'a>) -> Held<'a>
    ensures { held_seen result ≡ name_seen bindings.now name }
{
    match name {
        Name::Object => Held::Document(bindings.object),
        Name::OldObject => Held::Document(bindings.old_object),
        Name::Request => Held::Document(bindings.request),
        Name::Params => Held::Document(bindings.params),
        Name::NamespaceObject => Held::Document(bindings.namespace),
    }
}

fn copy(outcome: &Outcome) -> Result<Outcome, AllocError>
    ensures { IfOk result (λ o. outcome_of o ≡ outcome_of outcome.now) }
{
    match outcome {
        Outcome::Gives(value) => Ok(Outcome::Gives(value.clone()?)),
        Outcome::Error => Ok(Outcome::Error),
    }
}

/// A copy of the outcome of a variable, by its place.
pub(crate) fn variable(place: usize, variables: &[Outcome]) -> Result<Outcome, AllocError>
    requires { place < length variables.now }
    ensures { IfOk result (λ o. outcome_of o ≡ or_missing (slice_get (outcomes_seen variables.now) place)) }
{
    copy(&variables[place])
}

/// The items of the macros around, the outermost first. Macros are at most two deep.
#[derive(Clone, Copy)]
pub(crate) enum Slots<'a> {
    /// There is no macro around.
    Empty,
    /// The item of one.
    One(&'a Value),
    /// The item of the outer one, and that of the inner one.
    Two(&'a Value, &'a Value),
}

// The item of the outer macro.
fn outer_item<'a>(slots: &Slots<'a>) -> &'a Value
    requires { 0 < length (slots_seen slots.now) }
    ensures { slice_get (slots_seen slots.now) 0 ≡ Some (value_of result.now) }
{
    match *slots {
        Slots::Empty => unreachable!(),
        Slots::One(item) => item,
        Slots::Two(item, _) => item,
    }
}

// The item of the inner macro.
fn inner_item<'a>(slots: &Slots<'a>) -> &'a Value
    requires { 1 < length (slots_seen slots.now) }
    ensures { slice_get (slots_seen slots.now) 1 ≡ Some (value_of result.now) }
{
    match *slots {
        Slots::Empty | Slots::One(_) => unreachable!(),
        Slots::Two(_, item) => item,
    }
}

/// A copy of the item that the variable of a macro stands for.
pub(crate) fn item_of(slot: Slot, slots: &Slots<'_>) -> Result<Outcome, AllocError>
    requires { slot_number slot < length (slots_seen slots.now) }
    ensures { IfOk result (λ o. outcome_of o ≡ slot_value (slots_seen slots.now) slot) }
{
    let item = match slot {
        Slot::Outer => outer_item(slots),
        Slot::Inner => inner_item(slots),
    };
    Ok(Outcome::Gives(item.clone()?))
}

/// The items of the macros around, with one more after them.
pub(crate) fn with_item<'a>(slots: Slots<'a>, item: &'a Value) -> Slots<'a>
    requires { length (slots_seen slots) < 2 }
    ensures items { slots_seen result ≡ slots_seen slots.entry ++ value_of item.now ∷ [] }
    ensures one_more { length (slots_seen result) ≡ length (slots_seen slots.entry) + 1 }
{
    match slots {
        Slots::Empty => Slots::One(item),
        Slots::One(outer) => Slots::Two(outer, item),
        Slots::Two(_, _) => unreachable!(),
    }
}
