//! The machine.

ghost use Rattle.std.specs.Prelude.{◌≡◌, ◌+◌, ◌<◌, ◌≤◌, IsTrue, [], ◌∷◌, ◌++◌, if◌then◌else◌, Some, List, map, length, slice_get, string_bytes, OnOk, IfOk};
ghost use Rattle.celtree.specs.Tree.{Expr};
ghost use Rattle.celmean.specs.Meaning.{Environment, mean};
ghost use Rattle.celmean.specs.Value as seen;
ghost use Rattle.celmean.specs.Macros.{reduced, range_of, over_items};
ghost use Rattle.celmean.specs.Seen.{value_of, values_seen, outcome_of, outcomes_seen};
ghost use Rattle.instructions.specs.Bytes.{slot_number};
ghost use Rattle.instructions.specs.Op.{Branch, Over};
ghost use Rattle.instructions.specs.Judging.{takes, targets, is_named};
ghost use Rattle.instructions.specs.Seen.{op_of};
ghost use Rattle.instructions.specs.Machine.{Next, World, top, or_missing, slot_value, after, step, step_if, outcome};
ghost use Rattle.planrun.specs.StackSeen.{stack_seen};
ghost use Rattle.planrun.specs.Seen.{slots_seen};
ghost use Rattle.planrun.specs.Worlds.{world_of};
ghost use Rattle.planrun.specs.Results.{IsRunOf};
ghost use Rattle.planrun.specs.Deciding.{decides};
ghost use Rattle.planrun.specs.Running.{items_of, world, ops, vars, depth, next_of, IsReady, IsAt, IsAtOp, BeginsBody, Leads};

use crate::bound::{Bindings, Slots, item_of, named, variable, with_item};
use crate::held::{Held, into_outcome, is_false, is_true};
use crate::operations::{
    take_binary, take_call, take_connected, take_field, take_has, take_index, take_list, take_map,
    take_unary,
};
use crate::stack::{pop, push, put, take_top, topmost};
use celmean::{LONGEST_RANGE, Outcome, Value, list_items, range_of, reduced};
use celtree::Macro;
use instructions::{Connective, Instruction, Slot};
use plancode::Verified;
use std::alloc::{AllocError, Global};

/// What instructions are run with.
#[derive(Clone, Copy)]
pub(crate) struct Machine<'a, 'c> {
    /// What the names stand for.
    pub bindings: Bindings<'a>,
    /// All instructions.
    pub code: &'c [Instruction],
    /// The items of the macros around.
    pub slots: Slots<'c>,
}

// Puts a value on top.
fn put_value(value: Value, stack: &mut Vec<Held<'_>>) -> Result<(), AllocError>
    ensures { OnOk result (stack_seen stack.new.items ≡ seen.Gives (value_of value) ∷ stack_seen stack.old.items) }
{
    put(stack, Outcome::Gives(value))
}

// Puts a copy of a text on top.
fn put_text(text: &String, stack: &mut Vec<Held<'_>>) -> Result<(), AllocError>
    ensures { OnOk result (stack_seen stack.new.items ≡ seen.Gives (seen.Text (string_bytes text.now)) ∷ stack_seen stack.old.items) }
{
    put_value(Value::Text(text.clone()?), stack)
}

// Puts a copy of a variable's outcome on top.
fn put_variable(
    place: usize,
    variables: &[Outcome],
    stack: &mut Vec<Held<'_>>,
) -> Result<(), AllocError>
    requires { place < length variables.now }
    ensures { OnOk result (stack_seen stack.new.items ≡ or_missing (slice_get (outcomes_seen variables.now) place) ∷ stack_seen stack.old.items) }
{
    put(stack, variable(place, variables)?)
}

// Puts a copy of the item of a macro around on top.
fn put_item(slot: Slot, slots: &Slots<'_>, stack: &mut Vec<Held<'_>>) -> Result<(), AllocError>
    requires { slot_number slot < length (slots_seen slots.now) }
    ensures { OnOk result (stack_seen stack.new.items ≡ slot_value (slots_seen slots.now) slot ∷ stack_seen stack.old.items) }
{
    put(stack, item_of(slot, slots)?)
}

// An instruction that leads to the next one.
fn advance<'a>(
    alloc: Global,
    machine: &Machine<'a, '_>,
    instruction: &Instruction,
    stack: &mut Vec<Held<'a>>,
) -> Result<(), AllocError>
    requires plain { targets (op_of instruction.now) ≡ [] }
    requires named { IsTrue (is_named (vars machine.now) (depth machine.now) (op_of instruction.now)) }
    requires operands { takes (op_of instruction.now) ≤ length stack.old.items }
    ensures { OnOk result (stack_seen stack.new.items ≡ after (world machine.now) (items_of machine.now) (op_of instruction.now) (stack_seen stack.old.items)) }
{
    match instruction {
        Instruction::Int(number) => put_value(Value::Int(*number), stack),
        Instruction::Uint(number) => put_value(Value::Uint(*number), stack),
        Instruction::Text(text) => put_text(text, stack),
        Instruction::Bool(truth) => put_value(Value::Bool(*truth), stack),
        Instruction::Null => put_value(Value::Null, stack),
        Instruction::Name(name) => push(stack, named(*name, &machine.bindings)),
        Instruction::Variable(place) => {
            put_variable(*place as usize, machine.bindings.variables, stack)
        }
        Instruction::Slot(slot) => put_item(*slot, &machine.slots, stack),
        Instruction::Field(name) => take_field(alloc, name, stack),
        Instruction::Has(name) => take_has(alloc, name, stack),
        Instruction::Index => take_index(alloc, stack),
        Instruction::List(count) => take_list(alloc, *count as usize, stack),
        Instruction::Map(count) => take_map(alloc, *count, stack),
        Instruction::Unary(prefix) => take_unary(alloc, *prefix, stack),
        Instruction::Binary(binary) => take_binary(alloc, *binary, stack),
        Instruction::Call(function) => take_call(alloc, *function, stack),
        Instruction::And => take_connected(alloc, Connective::And, stack),
        Instruction::Or => take_connected(alloc, Connective::Or, stack),
        _ => unreachable!(),
    }
}

// `c ? a : b`: the truth value leads to one of two places. What is none leaves the error, and leads past both.
fn branch(
    at: usize,
    stop: usize,
    otherwise: u16,
    end: u16,
    stack: &mut Vec<Held<'_>>,
) -> Result<usize, AllocError>
    requires inside { at < stop }
    requires operands { 1 ≤ length stack.old.items }
    ensures step { IfOk result (λ to. (w : World) (next : Next) (items : List seen.Value) → step w (Branch otherwise end) next at stop items (stack_seen stack.old.items) ≡ next to stop items (stack_seen stack.new.items)) }
    ensures leads { IfOk result (λ to. Leads (Branch otherwise end) at to (length stack.old.items) (length stack.new.items)) }
{
    let test = pop(stack);
    let holds = is_true(&test);
    let fails = is_false(&test);
    drop(test);
    if holds {
        Ok(at + 1)
    } else if fails {
        Ok(otherwise as usize)
    } else {
        put(stack, Outcome::Error)?;
        Ok(end as usize)
    }
}

// Where a jump leads that is taken or not.
fn target(taken: bool, to: u16, at: usize, stop: usize) -> usize
    requires { at < stop }
    ensures { result ≡ (if taken then to else (at + 1)) }
{
    if taken { to as usize } else { at + 1 }
}

// An instruction that leads to the next one, and the place of that.
fn advance_from<'a>(
    alloc: Global,
    machine: &Machine<'a, '_>,
    instruction: &Instruction,
    at: usize,
    stop: usize,
    stack: &mut Vec<Held<'a>>,
) -> Result<usize, AllocError>
    requires plain { targets (op_of instruction.now) ≡ [] }
    requires here { IsAtOp machine.now (op_of instruction.now) at stop (length stack.old.items) }
    ensures step { IfOk result (λ to. (next : Next) → step (world machine.now) (op_of instruction.now) next at stop (items_of machine.now) (stack_seen stack.old.items) ≡ next to stop (items_of machine.now) (stack_seen stack.new.items)) }
    ensures leads { IfOk result (λ to. Leads (op_of instruction.now) at to (length stack.old.items) (length stack.new.items)) }
{
    advance(alloc, machine, instruction, stack)?;
    Ok(at + 1)
}

// One instruction: where it leads, with this many steps for the bodies of macros.
#[cycle(execute)]
fn run_instruction<'a>(
    alloc: Global,
    machine: &Machine<'a, '_>,
    instruction: &Instruction,
    steps: usize,
    at: usize,
    stop: usize,
    stack: &mut Vec<Held<'a>>,
) -> Result<usize, AllocError>
    requires here { IsAtOp machine.now (op_of instruction.now) at stop (length stack.old.items) }
    requires enough { stop ≤ at + steps }
    ensures step { IfOk result (λ to. step (world machine.now) (op_of instruction.now) (next_of machine.now steps) at stop (items_of machine.now) (stack_seen stack.old.items) ≡ next_of machine.now steps to stop (items_of machine.now) (stack_seen stack.new.items)) }
    ensures leads { IfOk result (λ to. Leads (op_of instruction.now) at to (length stack.old.items) (length stack.new.items)) }
{
    match instruction {
        Instruction::IfFalse(to) => Ok(target(is_false(topmost(stack)), *to, at, stop)),
        Instruction::IfTrue(to) => Ok(target(is_true(topmost(stack)), *to, at, stop)),
        Instruction::Branch(otherwise, end) => branch(at, stop, *otherwise, *end, stack),
        Instruction::Jump(to) => Ok(*to as usize),
        Instruction::Macro(kind, end) => {
            run_macro(alloc, machine, *kind, steps, at, stop, *end, stack)
        }
        _ => advance_from(alloc, machine, instruction, at, stop, stack),
    }
}

// A macro: its body is run with an empty stack for each item, and it leads past the body.
#[cycle(execute)]
fn run_macro<'a>(
    alloc: Global,
    machine: &Machine<'a, '_>,
    kind: Macro,
    steps: usize,
    at: usize,
    stop: usize,
    end: u16,
    stack: &mut Vec<Held<'a>>,
) -> Result<usize, AllocError>
    requires here { IsAtOp machine.now (Over kind end) at stop (length stack.old.items) }
    requires enough { stop ≤ at + steps }
    ensures step { IfOk result (λ to. step (world machine.now) (Over kind end) (next_of machine.now steps) at stop (items_of machine.now) (stack_seen stack.old.items) ≡ next_of machine.now steps to stop (items_of machine.now) (stack_seen stack.new.items)) }
    ensures leads { IfOk result (λ to. Leads (Over kind end) at to (length stack.old.items) (length stack.new.items)) }
{
    let of = into_outcome(alloc, pop(stack))?;
    let made = over_range(alloc, machine, kind, steps, at + 1, end as usize, &of);
    drop(of);
    put(stack, made?)?;
    Ok(end as usize)
}

// What a macro makes of what it goes over, with its body between two places: the items of a list are not copied.
#[cycle(execute)]
fn over_range(
    alloc: Global,
    machine: &Machine<'_, '_>,
    kind: Macro,
    steps: usize,
    first: usize,
    end: usize,
    of: &Outcome,
) -> Result<Outcome, AllocError>
    requires body { BeginsBody machine.now first end }
    requires enough { end < first + steps }
    ensures { IfOk result (λ o. outcome_of o ≡ over_items kind (λ v. top (next_of machine.now steps first end (items_of machine.now ++ v ∷ []) [])) (range_of (outcome_of of.now))) }
{
    match list_items(of) {
        Some(items) => over_items(alloc, machine, kind, steps, first, end, items),
        None => match range_of(alloc, of)? {
            Some(keys) => over_items(alloc, machine, kind, steps, first, end, &keys),
            None => Ok(Outcome::Error),
        },
    }
}

// What a macro makes of these items.
#[cycle(execute)]
fn over_items(
    alloc: Global,
    machine: &Machine<'_, '_>,
    kind: Macro,
    steps: usize,
    first: usize,
    end: usize,
    items: &Vec<Value>,
) -> Result<Outcome, AllocError>
    requires body { BeginsBody machine.now first end }
    requires enough { end < first + steps }
    ensures { IfOk result (λ o. outcome_of o ≡ over_items kind (λ v. top (next_of machine.now steps first end (items_of machine.now ++ v ∷ []) [])) (Some (values_seen items.now.items))) }
{
    if items.len() > LONGEST_RANGE {
        return Ok(Outcome::Error);
    }
    let outcomes = run_bodies(alloc, machine, kind, steps, first, end, items)?;
    reduced(alloc, kind, items, outcomes)
}

// Whether the outcome of the body for an item decides what a macro gives, whatever the others are.
fn decides(kind: Macro, outcome: &Outcome) -> bool
    ensures { result ≡ decides kind (outcome_of outcome.now) }
{
    match kind {
        Macro::All => celmean::is_false(outcome),
        Macro::Exists => celmean::is_true(outcome),
        Macro::ExistsOne | Macro::Map | Macro::Filter => false,
    }
}

// The outcomes of a macro's body for the items, up to the first that decides what the macro gives. One stack serves all bodies, since
// each leaves it empty.
#[cycle(execute)]
fn run_bodies<'a>(
    alloc: Global,
    machine: &Machine<'a, '_>,
    kind: Macro,
    steps: usize,
    first: usize,
    end: usize,
    items: &Vec<Value>,
) -> Result<Vec<Outcome>, AllocError>
    requires body { BeginsBody machine.now first end }
    requires enough { end < first + steps }
    ensures { IfOk result (λ v. reduced kind (values_seen items.now.items) (outcomes_seen v.items) ≡ reduced kind (values_seen items.now.items) (map (λ v. top (next_of machine.now steps first end (items_of machine.now ++ v ∷ []) [])) (values_seen items.now.items))) }
{
    let mut outcomes = Vec::new(alloc);
    let mut stack = Vec::new(alloc);
    for item in items {
        let outcome = run_body(alloc, machine, steps, first, end, item, &mut stack)?;
        let decided = decides(kind, &outcome);
        outcomes.push(outcome)?;
        if decided {
            return Ok(outcomes);
        }
    }
    Ok(outcomes)
}

// The outcome of a macro's body for an item, on an empty stack.
#[cycle(execute)]
fn run_body<'a>(
    alloc: Global,
    machine: &Machine<'a, '_>,
    steps: usize,
    first: usize,
    end: usize,
    item: &Value,
    stack: &mut Vec<Held<'a>>,
) -> Result<Outcome, AllocError>
    requires body { BeginsBody machine.now first end }
    requires enough { end < first + steps }
    requires empty { stack.old.items ≡ [] }
    ensures outcome { IfOk result (λ o. outcome_of o ≡ top (next_of machine.now steps first end (items_of machine.now ++ value_of item.now ∷ []) [])) }
    ensures empty { OnOk result (stack.new.items ≡ []) }
{
    let inner = Machine {
        bindings: machine.bindings,
        code: machine.code,
        slots: with_item(machine.slots, item),
    };
    execute(alloc, &inner, steps, first, end, stack)?;
    take_top(alloc, stack)
}

// The instruction at a place: where it leads.
#[cycle(execute)]
fn step_at<'a>(
    alloc: Global,
    machine: &Machine<'a, '_>,
    steps: usize,
    at: usize,
    stop: usize,
    stack: &mut Vec<Held<'a>>,
) -> Result<usize, AllocError>
    requires ready { IsReady machine.now }
    requires at { IsAt machine.now at stop (length stack.old.items) }
    requires inside { at < stop }
    requires enough { stop ≤ at + steps }
    ensures step { IfOk result (λ to. step_if (world machine.now) (slice_get (ops machine.now) at) (next_of machine.now steps) at stop (items_of machine.now) (stack_seen stack.old.items) ≡ next_of machine.now steps to stop (items_of machine.now) (stack_seen stack.new.items)) }
    ensures at { IfOk result (λ to. IsAt machine.now to stop (length stack.new.items)) }
    ensures ahead { IfOk result (λ to. at < to) }
    ensures inside { IfOk result (λ to. to ≤ stop) }
{
    run_instruction(alloc, machine, &machine.code[at], steps, at, stop, stack)
}

// Runs the instructions from a place up to the one where the code or the body of a macro ends. Each leads ahead, so that this many steps
// are enough.
#[cycle(execute)]
fn execute<'a>(
    alloc: Global,
    machine: &Machine<'a, '_>,
    steps: usize,
    at: usize,
    stop: usize,
    stack: &mut Vec<Held<'a>>,
) -> Result<(), AllocError>
    requires ready { IsReady machine.now }
    requires at { IsAt machine.now at stop (length stack.old.items) }
    requires inside { at ≤ stop }
    requires enough { stop < at + steps }
    ensures same { OnOk result (next_of machine.now steps at stop (items_of machine.now) (stack_seen stack.old.items) ≡ stack_seen stack.new.items) }
    ensures one_outcome { OnOk result (length stack.new.items ≡ 1) }
{
    let mut left = steps;
    let mut at = at;
    'steps: while at < stop {
        left -= 1;
        at = step_at(alloc, machine, left, at, stop, stack)?;
    }
    Ok(())
}

/// What the plan gives: a value, or the one error.
///
/// The plan is verified, so no instruction misses an operand, each name is known, and each body of a macro ends with one outcome:
/// nothing of this is looked at again.
///
/// # Errors
///
/// Out of memory.
pub fn run(alloc: Global, plan: &Verified, bindings: &Bindings<'_>) -> Result<Outcome, AllocError>
    // As many variables are bound as the plan was verified for.
    requires bound { length bindings.now.variables.now ≡ plan.now.vars }
    ensures machine { IfOk result (λ o. outcome_of o ≡ outcome (world_of bindings.now) plan.now.ops) }
    ensures meaning { (e : Expr) (env : Environment) → IsRunOf plan.now.ops (world_of bindings.now) e env → IfOk result (λ o. outcome_of o ≡ mean e env) }
{
    let code = plan.instructions();
    let machine = Machine {
        bindings: *bindings,
        code,
        slots: Slots::Empty,
    };
    let end = code.len();
    let mut stack = Vec::new(alloc);
    execute(alloc, &machine, end + 1, 0, end, &mut stack)?;
    take_top(alloc, &mut stack)
}
