//! The stack of the machine. Who takes from it knows that the outcomes are there.

ghost use Rattle.std.specs.Prelude.{◌≡◌, ◌≤◌, ◌+◌, ◌∷◌, reverse, take, drop, length, OnOk, IfOk};
ghost use Rattle.celmean.specs.Seen.{outcome_of, outcomes_seen};
ghost use Rattle.instructions.specs.Machine.{top};
ghost use Rattle.planrun.specs.StackSeen.{held_seen, stack_seen};

use crate::held::{Held, into_outcome};
use celmean::Outcome;
use std::alloc::{AllocError, Global};

/// Puts one on top.
pub(crate) fn push<'a>(stack: &mut Vec<Held<'a>>, held: Held<'a>) -> Result<(), AllocError>
    ensures { OnOk result (stack_seen stack.new.items ≡ held_seen held.entry ∷ stack_seen stack.old.items) }
{
    stack.push(held)?;
    Ok(())
}

/// Puts an outcome on top.
pub(crate) fn put(stack: &mut Vec<Held<'_>>, outcome: Outcome) -> Result<(), AllocError>
    ensures { OnOk result (stack_seen stack.new.items ≡ outcome_of outcome ∷ stack_seen stack.old.items) }
{
    push(stack, Held::Owned(outcome))
}

/// The topmost one.
pub(crate) fn topmost<'s, 'a>(stack: &'s Vec<Held<'a>>) -> &'s Held<'a>
    requires { 1 ≤ length stack.now.items }
    ensures { held_seen result.now ≡ top (stack_seen stack.now.items) }
{
    match stack.last() {
        Some(held) => held,
        None => unreachable!(),
    }
}

/// Takes the topmost one.
pub(crate) fn pop<'a>(stack: &mut Vec<Held<'a>>) -> Held<'a>
    requires { 1 ≤ length stack.old.items }
    ensures taken { stack_seen stack.old.items ≡ held_seen result ∷ stack_seen stack.new.items }
    ensures shorter { length stack.new.items + 1 ≡ length stack.old.items }
{
    match stack.pop() {
        Some(held) => held,
        None => unreachable!(),
    }
}

/// Takes the two topmost ones: the second was on top.
pub(crate) fn pop_two<'a>(stack: &mut Vec<Held<'a>>) -> (Held<'a>, Held<'a>)
    requires { 2 ≤ length stack.old.items }
    ensures taken { stack_seen stack.old.items ≡ held_seen result.1 ∷ (held_seen result.0 ∷ stack_seen stack.new.items) }
    ensures shorter { length stack.new.items + 2 ≡ length stack.old.items }
{
    let second = pop(stack);
    let first = pop(stack);
    (first, second)
}

/// Takes the two topmost outcomes: the second was on top.
pub(crate) fn pop_outcomes(
    alloc: Global,
    stack: &mut Vec<Held<'_>>,
) -> Result<(Outcome, Outcome), AllocError>
    requires { 2 ≤ length stack.old.items }
    ensures { IfOk result (λ x. stack_seen stack.old.items ≡ outcome_of x.1 ∷ (outcome_of x.0 ∷ stack_seen stack.new.items)) }
{
    let second = into_outcome(alloc, pop(stack))?;
    let first = into_outcome(alloc, pop(stack))?;
    Ok((first, second))
}

/// Takes the topmost outcome.
pub(crate) fn take_top(alloc: Global, stack: &mut Vec<Held<'_>>) -> Result<Outcome, AllocError>
    requires { 1 ≤ length stack.old.items }
    ensures taken { IfOk result (λ o. outcome_of o ≡ top (stack_seen stack.old.items)) }
    ensures shorter { length stack.new.items + 1 ≡ length stack.old.items }
{
    into_outcome(alloc, pop(stack))
}

/// Takes this many of the topmost outcomes, the topmost first.
pub(crate) fn take_topmost(
    alloc: Global,
    count: usize,
    stack: &mut Vec<Held<'_>>,
) -> Result<Vec<Outcome>, AllocError>
    requires { count ≤ length stack.old.items }
    ensures taken { IfOk result (λ v. outcomes_seen v.items ≡ take count (stack_seen stack.old.items)) }
    ensures left { OnOk result (stack_seen stack.new.items ≡ drop count (stack_seen stack.old.items)) }
{
    let mut outcomes = Vec::new(alloc);
    for _ in 0..count {
        let held = pop(stack);
        outcomes.push(into_outcome(alloc, held)?)?;
    }
    Ok(outcomes)
}

/// Takes this many of the topmost outcomes, in the order in which they were put.
pub(crate) fn take_many(
    alloc: Global,
    count: usize,
    stack: &mut Vec<Held<'_>>,
) -> Result<Vec<Outcome>, AllocError>
    requires { count ≤ length stack.old.items }
    ensures taken { IfOk result (λ v. outcomes_seen v.items ≡ reverse (take count (stack_seen stack.old.items))) }
    ensures left { OnOk result (stack_seen stack.new.items ≡ drop count (stack_seen stack.old.items)) }
{
    let mut outcomes = take_topmost(alloc, count, stack)?;
    outcomes.reverse();
    Ok(outcomes)
}
