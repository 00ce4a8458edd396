//! Instructions that take outcomes from the top of the stack and put one there. Their operands are there.

ghost use Rattle.std.specs.Prelude.{◌≡◌, ◌+◌, ◌<◌, ◌≤◌, [], ◌∷◌, reverse, take, drop, length, vec_len, OnOk, IfOk, IfSome, IfNone};
ghost use Rattle.celmean.specs.Value.{with_value, with_values};
ghost use Rattle.celmean.specs.Collections.{member, has_member, indexed, list_of, map_of};
ghost use Rattle.celmean.specs.Operators.{prefixed, on_values};
ghost use Rattle.celmean.specs.Functions.{called, method_called};
ghost use Rattle.celmean.specs.Seen.{outcome_of, outcomes_seen, outcome_pairs_seen};
ghost use Rattle.instructions.specs.Judging.{operand_count};
ghost use Rattle.instructions.specs.Connectives.{connected};
ghost use Rattle.instructions.specs.Machine.{on_one, on_two, on_call, in_pairs, operator};
ghost use Rattle.planrun.specs.StackSeen.{stack_seen};

use crate::held::{Held, field, has, index, into_outcome};
use crate::stack::{pop, pop_outcomes, pop_two, push, put, take_many, take_topmost};
use celmean::{Outcome, called, infixed, list_of, map_of, method_called, prefixed};
use celtree::{Operator, Prefix};
use instructions::{Binary, Connective, Function, connected};
use std::alloc::{AllocError, Global};

/// `e.name`
pub(crate) fn take_field(
    alloc: Global,
    name: &str,
    stack: &mut Vec<Held<'_>>,
) -> Result<(), AllocError>
    requires { 1 ≤ length stack.old.items }
    ensures { OnOk result (stack_seen stack.new.items ≡ on_one (with_value (member name.now)) (stack_seen stack.old.items)) }
{
    let held = pop(stack);
    push(stack, field(alloc, name, held)?)
}

/// `has(e.name)`
pub(crate) fn take_has(
    alloc: Global,
    name: &str,
    stack: &mut Vec<Held<'_>>,
) -> Result<(), AllocError>
    requires { 1 ≤ length stack.old.items }
    ensures { OnOk result (stack_seen stack.new.items ≡ on_one (with_value (has_member name.now)) (stack_seen stack.old.items)) }
{
    let held = pop(stack);
    let given = has(alloc, name, &held);
    drop(held);
    put(stack, given?)
}

/// `e[i]`
pub(crate) fn take_index(alloc: Global, stack: &mut Vec<Held<'_>>) -> Result<(), AllocError>
    requires { 2 ≤ length stack.old.items }
    ensures { OnOk result (stack_seen stack.new.items ≡ on_two (with_values indexed) (stack_seen stack.old.items)) }
{
    let (of, place) = pop_two(stack);
    push(stack, index(alloc, of, place)?)
}

/// `[a, b]`
pub(crate) fn take_list(
    alloc: Global,
    count: usize,
    stack: &mut Vec<Held<'_>>,
) -> Result<(), AllocError>
    requires { count ≤ length stack.old.items }
    ensures { OnOk result (stack_seen stack.new.items ≡ list_of (reverse (take count (stack_seen stack.old.items))) ∷ drop count (stack_seen stack.old.items)) }
{
    let items = take_many(alloc, count, stack)?;
    put(stack, list_of(alloc, items)?)
}

// The two outcomes that were put first.
fn next_pair(outcomes: &mut Vec<Outcome>) -> Option<(Outcome, Outcome)>
    ensures some { IfSome result (λ x. reverse (outcomes_seen outcomes.old.items) ≡ outcome_of x.0 ∷ (outcome_of x.1 ∷ reverse (outcomes_seen outcomes.new.items))) }
    ensures none { IfNone result (in_pairs (reverse (outcomes_seen outcomes.old.items)) ≡ []) }
    ensures shorter { IfSome result (λ x. vec_len outcomes.new < vec_len outcomes.old) }
{
    match outcomes.pop() {
        Some(first) => match outcomes.pop() {
            Some(second) => Some((first, second)),
            None => None,
        },
        None => None,
    }
}

// Keys and values: the outcomes two by two, where the last one was put first.
fn pairs_of(alloc: Global, outcomes: Vec<Outcome>) -> Result<Vec<(Outcome, Outcome)>, AllocError>
    ensures { IfOk result (λ v. outcome_pairs_seen v.items ≡ in_pairs (reverse (outcomes_seen outcomes.items))) }
{
    let mut outcomes = outcomes;
    let mut pairs = Vec::new(alloc);
    'pairs: while let Some(pair) = next_pair(&mut outcomes) {
        pairs.push(pair)?;
    }
    Ok(pairs)
}

/// `{k: v, l: w}`
pub(crate) fn take_map(
    alloc: Global,
    count: u16,
    stack: &mut Vec<Held<'_>>,
) -> Result<(), AllocError>
    requires { count + count ≤ length stack.old.items }
    ensures { OnOk result (stack_seen stack.new.items ≡ map_of (in_pairs (reverse (take (count + count) (stack_seen stack.old.items)))) ∷ drop (count + count) (stack_seen stack.old.items)) }
{
    let outcomes = take_topmost(alloc, count as usize + count as usize, stack)?;
    let pairs = pairs_of(alloc, outcomes)?;
    let map = map_of(alloc, &pairs);
    drop(pairs);
    put(stack, map?)
}

/// `!e` or `-e`
pub(crate) fn take_unary(
    alloc: Global,
    prefix: Prefix,
    stack: &mut Vec<Held<'_>>,
) -> Result<(), AllocError>
    requires { 1 ≤ length stack.old.items }
    ensures { OnOk result (stack_seen stack.new.items ≡ on_one (with_value (prefixed prefix)) (stack_seen stack.old.items)) }
{
    let operand = into_outcome(alloc, pop(stack))?;
    let given = prefixed(prefix, &operand);
    drop(operand);
    put(stack, given)
}

fn operator(binary: Binary) -> Operator
    ensures { result ≡ operator binary }
{
    match binary {
        Binary::Add => Operator::Add,
        Binary::Subtract => Operator::Subtract,
        Binary::Multiply => Operator::Multiply,
        Binary::Divide => Operator::Divide,
        Binary::Remainder => Operator::Remainder,
        Binary::Equal => Operator::Equal,
        Binary::NotEqual => Operator::NotEqual,
        Binary::Less => Operator::Less,
        Binary::LessEqual => Operator::LessEqual,
        Binary::Greater => Operator::Greater,
        Binary::GreaterEqual => Operator::GreaterEqual,
        Binary::In => Operator::In,
    }
}

fn on_outcomes(binary: Binary, left: &Outcome, right: &Outcome) -> Result<Outcome, AllocError>
    ensures { IfOk result (λ o. outcome_of o ≡ with_values (on_values (operator binary)) (outcome_of left.now) (outcome_of right.now)) }
{
    infixed(operator(binary), left, right)
}

/// `a + b` and the like.
pub(crate) fn take_binary(
    alloc: Global,
    binary: Binary,
    stack: &mut Vec<Held<'_>>,
) -> Result<(), AllocError>
    requires { 2 ≤ length stack.old.items }
    ensures { OnOk result (stack_seen stack.new.items ≡ on_two (with_values (on_values (operator binary))) (stack_seen stack.old.items)) }
{
    let operands = pop_outcomes(alloc, stack)?;
    let (left, right) = &operands;
    let given = on_outcomes(binary, left, right);
    drop(operands);
    put(stack, given?)
}

/// `a && b` or `a || b`
pub(crate) fn take_connected(
    alloc: Global,
    connective: Connective,
    stack: &mut Vec<Held<'_>>,
) -> Result<(), AllocError>
    requires { 2 ≤ length stack.old.items }
    ensures { OnOk result (stack_seen stack.new.items ≡ on_two (connected connective) (stack_seen stack.old.items)) }
{
    let operands = pop_outcomes(alloc, stack)?;
    let (left, right) = &operands;
    let given = connected(connective, left, right);
    drop(operands);
    put(stack, given)
}

// The one operand as the arguments of a call.
fn alone(alloc: Global, outcome: Outcome) -> Result<Vec<Outcome>, AllocError>
    ensures { IfOk result (λ v. outcomes_seen v.items ≡ outcome_of outcome ∷ []) }
{
    let mut arguments = Vec::new(alloc);
    arguments.push(outcome)?;
    Ok(arguments)
}

// `f(e)`
fn take_one(alloc: Global, name: &str, stack: &mut Vec<Held<'_>>) -> Result<(), AllocError>
    requires { 1 ≤ length stack.old.items }
    ensures { OnOk result (stack_seen stack.new.items ≡ on_one (λ o. called name.now (o ∷ [])) (stack_seen stack.old.items)) }
{
    let operand = into_outcome(alloc, pop(stack))?;
    let arguments = alone(alloc, operand)?;
    let given = called(alloc, name, &arguments);
    drop(arguments);
    put(stack, given?)
}

// `s.f(t)`
fn take_texts(alloc: Global, name: &str, stack: &mut Vec<Held<'_>>) -> Result<(), AllocError>
    requires { 2 ≤ length stack.old.items }
    ensures { OnOk result (stack_seen stack.new.items ≡ on_two (λ a b. method_called name.now a (b ∷ [])) (stack_seen stack.old.items)) }
{
    let (of, argument) = pop_outcomes(alloc, stack)?;
    let arguments = alone(alloc, argument)?;
    put(stack, method_called(name, &of, &arguments))
}

/// A call of a function.
pub(crate) fn take_call(
    alloc: Global,
    function: Function,
    stack: &mut Vec<Held<'_>>,
) -> Result<(), AllocError>
    requires { operand_count function ≤ length stack.old.items }
    ensures { OnOk result (stack_seen stack.new.items ≡ on_call function (stack_seen stack.old.items)) }
{
    match function {
        Function::Size => take_one(alloc, "size", stack),
        Function::Int => take_one(alloc, "int", stack),
        Function::Uint => take_one(alloc, "uint", stack),
        Function::Text => take_one(alloc, "string", stack),
        Function::Dyn => take_one(alloc, "dyn", stack),
        Function::Contains => take_texts(alloc, "contains", stack),
        Function::StartsWith => take_texts(alloc, "startsWith", stack),
        Function::EndsWith => take_texts(alloc, "endsWith", stack),
    }
}
