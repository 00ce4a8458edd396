//! Code as rows have it.

ghost use Rattle.std.specs.Prelude.{IfSome};
ghost use Rattle.instructions.specs.Seen.{plan_ops};
ghost use Rattle.instructions.specs.Bytes.{HaveRoom};
ghost use Rattle.celtree.specs.View.{view};
ghost use Rattle.plan.specs.Seen.{IsSmall};

use crate::texts::put;
use cases::{Wrong, shown, spelled};
use celread::read;
use celtree::Tree;
use celtypes::{Env, check};
use instructions::{Instruction, Plan, encode};
use plan::compile;
use std::alloc::Global;
use std::fmt::{Debug, Write};

fn compiled_tree(alloc: Global, tree: &Tree, env: &Env<'_>) -> Option<Plan>
    requires { IsSmall (view tree.now) }
    ensures { IfSome result (λ p. HaveRoom (plan_ops p)) }
{
    if env.variables.len() > 65535 {
        return None;
    }
    match check(alloc, tree, env) {
        Ok(_) => compile(alloc, tree, env).ok(),
        Err(_) => None,
    }
}

/// The plan of an expression, if it has a type.
pub(crate) fn compiled(alloc: Global, text: &str, env: &Env<'_>) -> Option<Plan>
    ensures { IfSome result (λ p. HaveRoom (plan_ops p)) }
{
    match read(alloc, text) {
        Ok(tree) => compiled_tree(alloc, &tree, env),
        Err(_) => None,
    }
}

// An instruction with one operand, as Rust prints it.
fn put_with<T: Debug>(out: &mut String, name: &str, operand: &T) {
    let _ = write!(out, "{name}({operand:?})");
}

// An instruction as Rust prints it. A derived `Debug` would be proved with the instructions, for which the longest chain of crates waits.
fn put_instruction(out: &mut String, instruction: &Instruction) {
    match instruction {
        Instruction::Int(value) => put_with(out, "Int", value),
        Instruction::Uint(value) => put_with(out, "Uint", value),
        Instruction::Text(text) => put_with(out, "Text", text),
        Instruction::Bool(value) => put_with(out, "Bool", value),
        Instruction::Null => put(out, "Null"),
        Instruction::Name(name) => put_with(out, "Name", name),
        Instruction::Variable(place) => put_with(out, "Variable", place),
        Instruction::Slot(slot) => put_with(out, "Slot", slot),
        Instruction::Field(key) => put_with(out, "Field", key),
        Instruction::Has(key) => put_with(out, "Has", key),
        Instruction::Index => put(out, "Index"),
        Instruction::List(count) => put_with(out, "List", count),
        Instruction::Map(count) => put_with(out, "Map", count),
        Instruction::Unary(prefix) => put_with(out, "Unary", prefix),
        Instruction::Binary(binary) => put_with(out, "Binary", binary),
        Instruction::Call(function) => put_with(out, "Call", function),
        Instruction::And => put(out, "And"),
        Instruction::Or => put(out, "Or"),
        Instruction::IfFalse(target) => put_with(out, "IfFalse", target),
        Instruction::IfTrue(target) => put_with(out, "IfTrue", target),
        Instruction::Branch(first, second) => {
            let _ = write!(out, "Branch({first}, {second})");
        }
        Instruction::Jump(target) => put_with(out, "Jump", target),
        Instruction::Macro(kind, target) => {
            let _ = write!(out, "Macro({kind:?}, {target})");
        }
    }
}

/// Instructions as Rust prints them.
pub(crate) fn instructions_text(alloc: Global, instructions: &[Instruction]) -> String {
    let mut out = String::new(alloc);
    put(&mut out, "[");
    let mut before = "";
    for instruction in instructions {
        put(&mut out, before);
        before = ", ";
        put_instruction(&mut out, instruction);
    }
    put(&mut out, "]");
    out
}

/// A fault as Rust prints it.
pub(crate) fn printed<T: Debug>(alloc: Global, value: &T) -> Result<String, Wrong> {
    Ok(format!(in alloc; "{value:?}")?)
}

/// The instructions of an expression (`codes`), how many it has (`lengths`) or its code in bytes (`encodings`), or `none`.
pub(crate) fn code_text(
    alloc: Global,
    asked: &str,
    text: &str,
    env: &Env<'_>,
) -> Result<String, Wrong> {
    let Some(plan) = compiled(alloc, text, env) else {
        return cases::text(alloc, "none");
    };
    match asked {
        "lengths" => shown(alloc, &plan.instructions.len()),
        "encodings" => spelled(alloc, &encode(alloc, &plan)?),
        _ => Ok(instructions_text(alloc, &plan.instructions)),
    }
}
