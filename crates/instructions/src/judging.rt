//! Well-formed plans, and the first fault of the others.

ghost use Rattle.std.specs.Prelude.{
  ◌≡◌,
  ℕ,
  ◌+◌,
  ◌-◌,
  ◌<◌,
  ◌≤◌,
  ◌^◌,
  List,
  [],
  length,
  drop,
  IfOk,
};
ghost use Rattle.std.specs.List.{list_all};
ghost use Rattle.instructions.specs.Faults.{Gives};
ghost use Rattle.instructions.specs.Seen.{op_of, ops_of};
ghost use Rattle.instructions.specs.Op.{Op};
ghost use Rattle.instructions.specs.Judging.{
  OpenBody as Expected,
  first_fault,
  step,
  judge,
  left,
  runs,
  height_at,
  is_named,
  takes,
  operand_count,
  targets,
  arrivals,
};
ghost use Rattle.instructions.specs.Bodies.{
  table_of,
  tables_of,
  all_expecting,
  opening,
  AreOpen,
  AreKnown,
  AreWithin,
  Follows,
};
ghost use Rattle.instructions.specs.Macros.{Tells, is_clear};

use crate::bodies::{OpenBody, begin, ends_with_one, expect, height_of};
use crate::fault::CodeFault;
use crate::instruction::{Function, Instruction, Slot};
use crate::macros::last_starts;
use std::alloc::{AllocError, Global};

// Leaves the bodies that end at a place, and gives the innermost one that does not.
fn leave(at: usize, body: OpenBody, outer: &mut Vec<OpenBody>) -> Result<OpenBody, CodeFault>
    ensures follows { (count : ℕ) (bodies : Expected × List Expected) → AreOpen at count (table_of body) (tables_of outer.old.items) bodies
        → Follows at count result outer.new.items (left at bodies.0 bodies.1) }
    ensures inside { (count : ℕ) (bodies : Expected × List Expected) → AreOpen at count (table_of body) (tables_of outer.old.items) bodies
        → at < count → IfOk result (λ b. at < b.end) }
{
    match outer.pop() {
        None => Ok(body),
        Some(around) => {
            if body.end != at {
                outer.push(around)?;
                return Ok(body);
            }
            if !ends_with_one(at, &body) {
                return Err(CodeFault::BadStack);
            }
            leave(at, around, outer)
        }
    }
}

// Whether a target lies ahead, in the body or at its end, and in no other body.
fn fair(at: usize, end: usize, starts: &[usize], target: usize) -> bool
    requires { end < length starts.now }
    ensures { result ≡ is_clear at end starts.now target }
{
    at < target && target <= end && starts[target] <= at + 1
}

fn all_fair(at: usize, end: usize, starts: &[usize], instruction: &Instruction) -> bool
    requires { end < length starts.now }
    ensures { result ≡ list_all (is_clear at end starts.now) (targets (op_of instruction.now)) }
{
    match instruction {
        Instruction::IfFalse(target) => fair(at, end, starts, *target as usize),
        Instruction::IfTrue(target) => fair(at, end, starts, *target as usize),
        Instruction::Branch(otherwise, after) => {
            fair(at, end, starts, *otherwise as usize) && fair(at, end, starts, *after as usize)
        }
        Instruction::Jump(target) => fair(at, end, starts, *target as usize),
        Instruction::Macro(_, target) => fair(at, end, starts, *target as usize),
        _ => true,
    }
}

// Whether what the instruction names is there, in that many bodies of macros.
fn named(vars: u16, depth: usize, instruction: &Instruction) -> bool
    ensures { result ≡ is_named vars depth (op_of instruction.now) }
{
    match instruction {
        Instruction::Variable(place) => *place < vars,
        Instruction::Slot(Slot::Outer) => 0 < depth,
        Instruction::Slot(Slot::Inner) => 1 < depth,
        Instruction::Macro(_, _) => depth < 2,
        _ => true,
    }
}

fn operands_of(function: Function) -> usize
    ensures { result ≡ operand_count function }
{
    match function {
        Function::Contains | Function::StartsWith | Function::EndsWith => 2,
        Function::Size | Function::Int | Function::Uint | Function::Text | Function::Dyn => 1,
    }
}

// How many outcomes the instruction wants on the stack.
fn taken(instruction: &Instruction) -> usize
    ensures { result ≡ takes (op_of instruction.now) }
{
    match instruction {
        Instruction::Int(_) => 0,
        Instruction::Uint(_) => 0,
        Instruction::Text(_) => 0,
        Instruction::Bool(_) => 0,
        Instruction::Null => 0,
        Instruction::Name(_) => 0,
        Instruction::Variable(_) => 0,
        Instruction::Slot(_) => 0,
        Instruction::Field(_) => 1,
        Instruction::Has(_) => 1,
        Instruction::Index => 2,
        Instruction::List(count) => *count as usize,
        Instruction::Map(count) => 2 * *count as usize,
        Instruction::Unary(_) => 1,
        Instruction::Binary(_) => 2,
        Instruction::Call(function) => operands_of(*function),
        Instruction::And => 2,
        Instruction::Or => 2,
        Instruction::IfFalse(_) => 1,
        Instruction::IfTrue(_) => 1,
        Instruction::Branch(_, _) => 1,
        Instruction::Jump(_) => 0,
        Instruction::Macro(_, _) => 1,
    }
}

// Awaits control where the instruction leads in its body.
fn expect_next(at: usize, height: usize, instruction: &Instruction, body: &mut OpenBody)
    requires low { height ≤ at }
    requires short { at + 1 < 2 ^ 64 }
    ensures { table_of body.new ≡ all_expecting (table_of body.old) (arrivals (op_of instruction.now) at height) }
{
    match instruction {
        Instruction::IfFalse(target) => {
            expect(*target as usize, height, body);
            expect(at + 1, height, body)
        }
        Instruction::IfTrue(target) => {
            expect(*target as usize, height, body);
            expect(at + 1, height, body)
        }
        Instruction::Branch(otherwise, end) => {
            let taken = height.saturating_sub(1);
            expect(*otherwise as usize, taken, body);
            expect(*end as usize, height, body);
            expect(at + 1, taken, body)
        }
        Instruction::Jump(target) => expect(*target as usize, height, body),
        Instruction::Macro(_, end) => expect(*end as usize, height, body),
        _ => expect(at + 1, height.saturating_sub(taken(instruction)) + 1, body),
    }
}

// A macro opens its body: the one around it goes to the others.
fn open(
    alloc: Global,
    at: usize,
    instruction: &Instruction,
    body: OpenBody,
    outer: &mut Vec<OpenBody>,
) -> Result<OpenBody, AllocError>
    requires { at + 1 < 2 ^ 64 }
    ensures { IfOk result (λ b. opening (op_of instruction.now) at (table_of body) (tables_of outer.old.items) ≡ (table_of b, tables_of outer.new.items)) }
{
    match instruction {
        Instruction::Macro(_, end) => {
            let inner = begin(alloc, at + 1, *end as usize)?;
            outer.push(body)?;
            Ok(inner)
        }
        _ => Ok(body),
    }
}

// Runs the instruction on the stack that it is reached with.
fn run(
    alloc: Global,
    at: usize,
    instruction: &Instruction,
    mut body: OpenBody,
    outer: &mut Vec<OpenBody>,
) -> Result<OpenBody, CodeFault>
    requires low { (count : ℕ) × AreKnown at count (table_of body) (tables_of outer.old.items) }
    requires within { AreWithin at body.end (targets (op_of instruction.now)) }
    requires inside { at < body.end }
    requires short { at + 1 < 2 ^ 64 }
    ensures { (count : ℕ) (bodies : Expected × List Expected) → AreOpen at count (table_of body) (tables_of outer.old.items) bodies
        → Follows (at + 1) count result outer.new.items
        (runs (op_of instruction.now) at (height_at at bodies.0.awaited) bodies.0 bodies.1) }
{
    match height_of(at, &body) {
        None => Err(CodeFault::BadStack),
        Some(height) => {
            if height < taken(instruction) {
                return Err(CodeFault::BadStack);
            }
            expect_next(at, height, instruction, &mut body);
            Ok(open(alloc, at, instruction, body, outer)?)
        }
    }
}

// Judges one instruction, after the bodies that end at its place.
fn step_over(
    alloc: Global,
    vars: u16,
    at: usize,
    instruction: &Instruction,
    starts: &[usize],
    body: OpenBody,
    outer: &mut Vec<OpenBody>,
) -> Result<OpenBody, CodeFault>
    requires known { AreKnown at (length starts.now - 1) (table_of body) (tables_of outer.old.items) }
    requires inside { at + 1 < length starts.now }
    requires short { at + 1 < 2 ^ 64 }
    ensures { (ops : List Op) (bodies : Expected × List Expected) → Tells ops starts.now
        → AreOpen at (length ops) (table_of body) (tables_of outer.old.items) bodies
        → Follows (at + 1) (length ops) result outer.new.items
        (step vars at (op_of instruction.now) (drop (at + 1) ops) bodies.0 bodies.1) }
{
    let body = leave(at, body, outer)?;
    if !all_fair(at, body.end, starts, instruction) {
        return Err(CodeFault::BadJump);
    }
    if !named(vars, outer.len(), instruction) {
        return Err(CodeFault::BadName);
    }
    run(alloc, at, instruction, body, outer)
}

// Judges the end of the plan.
fn finish(at: usize, body: OpenBody, outer: &mut Vec<OpenBody>) -> Result<(), CodeFault>
    ensures { (count : ℕ) (bodies : Expected × List Expected) → AreOpen at count (table_of body) (tables_of outer.old.items) bodies
        → Gives (λ _. tt) result (judge 0 at [] bodies.0 bodies.1) }
{
    let body = leave(at, body, outer)?;
    if ends_with_one(at, &body) {
        Ok(())
    } else {
        Err(CodeFault::BadStack)
    }
}

/// Whether the instructions are a well-formed plan in a place with this many variables: `Ok`, or the first fault.
///
/// The instructions are judged in order, each for its targets ([`CodeFault::BadJump`]), its name ([`CodeFault::BadName`]) and its
/// stack ([`CodeFault::BadStack`]); the end of a body is judged before the instruction after it, and the end of the plan last.
/// [`CodeFault::Memory`]: out of memory for the tables.
pub fn check(alloc: Global, vars: u16, code: &[Instruction]) -> Result<(), CodeFault>
    ensures { Gives (λ _. tt) result (first_fault vars (ops_of code.now)) }
{
    let starts = last_starts(alloc, code)?;
    let mut outer = Vec::new(alloc);
    let mut body = begin(alloc, 0, code.len())?;
    for (at, instruction) in code.iter().enumerate() {
        body = step_over(alloc, vars, at, instruction, &starts, body, &mut outer)?;
    }
    finish(code.len(), body, &mut outer)
}
