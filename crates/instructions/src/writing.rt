//! Plans as bytes.

ghost use Rattle.std.specs.Prelude.{◌≡◌, ◌<◌, ◌^◌, ◌++◌, ◌∷◌, length, IfOk, OnOk};
ghost use Rattle.instructions.specs.Bytes.{
  name_number,
  slot_number,
  prefix_number,
  binary_number,
  function_number,
  macro_number,
  truth_number,
  short,
  text_bytes,
  spelled,
  code,
  Fits,
  HaveRoom,
};
ghost use Rattle.instructions.specs.Seen.{op_of, ops_of, plan_ops};

use crate::instruction::{Binary, Function, Instruction, Name, Plan, Slot};
use celtree::{Macro, Prefix};
use std::alloc::{AllocError, Global};

fn truth_byte(truth: bool) -> u8
    ensures { result ≡ truth_number truth }
{
    if truth { 1 } else { 0 }
}

/// The number of a declared name in the bytes of a plan: `object` 1, `oldObject` 2, `request` 3, `params` 4,
/// `namespaceObject` 5.
pub fn name_byte(name: Name) -> u8
    ensures { result ≡ name_number name }
{
    match name {
        Name::Object => 1,
        Name::OldObject => 2,
        Name::Request => 3,
        Name::Params => 4,
        Name::NamespaceObject => 5,
    }
}

fn slot_byte(slot: Slot) -> u8
    ensures { result ≡ slot_number slot }
{
    match slot {
        Slot::Outer => 0,
        Slot::Inner => 1,
    }
}

fn prefix_byte(prefix: Prefix) -> u8
    ensures { result ≡ prefix_number prefix }
{
    match prefix {
        Prefix::Not => 1,
        Prefix::Negate => 2,
    }
}

fn binary_byte(operator: Binary) -> u8
    ensures { result ≡ binary_number operator }
{
    match operator {
        Binary::Add => 1,
        Binary::Subtract => 2,
        Binary::Multiply => 3,
        Binary::Divide => 4,
        Binary::Remainder => 5,
        Binary::Equal => 6,
        Binary::NotEqual => 7,
        Binary::Less => 8,
        Binary::LessEqual => 9,
        Binary::Greater => 10,
        Binary::GreaterEqual => 11,
        Binary::In => 12,
    }
}

fn function_byte(function: Function) -> u8
    ensures { result ≡ function_number function }
{
    match function {
        Function::Size => 1,
        Function::Contains => 2,
        Function::StartsWith => 3,
        Function::EndsWith => 4,
        Function::Int => 5,
        Function::Uint => 6,
        Function::Text => 7,
        Function::Dyn => 8,
    }
}

fn macro_byte(kind: Macro) -> u8
    ensures { result ≡ macro_number kind }
{
    match kind {
        Macro::All => 1,
        Macro::Exists => 2,
        Macro::ExistsOne => 3,
        Macro::Map => 4,
        Macro::Filter => 5,
    }
}

// The number of an instruction, and its operand.
fn put(out: &mut Vec<u8>, number: u8, operand: &[u8]) -> Result<(), AllocError>
    ensures { OnOk result (out.new.items ≡ out.old.items ++ (number ∷ operand.now)) }
{
    out.push(number)?;
    out.extend_from_slice(operand)?;
    Ok(())
}

fn put_short(out: &mut Vec<u8>, number: u8, operand: u16) -> Result<(), AllocError>
    ensures { OnOk result (out.new.items ≡ out.old.items ++ (number ∷ short operand)) }
{
    put(out, number, &operand.to_be_bytes())
}

fn put_text(out: &mut Vec<u8>, number: u8, text: &str) -> Result<(), AllocError>
    requires { length text.now < 2 ^ 16 }
    ensures { OnOk result (out.new.items ≡ out.old.items ++ (number ∷ text_bytes text.now)) }
{
    put_short(out, number, text.len() as u16)?;
    out.extend_from_slice(text.as_bytes())?;
    Ok(())
}

fn put_branch(out: &mut Vec<u8>, otherwise: u16, end: u16) -> Result<(), AllocError>
    ensures { OnOk result (out.new.items ≡ out.old.items ++ (21 ∷ short otherwise ++ short end)) }
{
    put_short(out, 21, otherwise)?;
    out.extend_from_slice(&end.to_be_bytes())?;
    Ok(())
}

fn put_macro(out: &mut Vec<u8>, kind: Macro, end: u16) -> Result<(), AllocError>
    ensures { OnOk result (out.new.items ≡ out.old.items ++ (23 ∷ macro_number kind ∷ short end)) }
{
    out.push(23)?;
    put_short(out, macro_byte(kind), end)
}

// Adds the bytes of an instruction.
fn put_instruction(out: &mut Vec<u8>, instruction: &Instruction) -> Result<(), AllocError>
    requires { Fits (op_of instruction.now) }
    ensures { OnOk result (out.new.items ≡ out.old.items ++ spelled (op_of instruction.now)) }
{
    match instruction {
        Instruction::Int(value) => put(out, 1, &value.to_be_bytes()),
        Instruction::Uint(value) => put(out, 2, &value.to_be_bytes()),
        Instruction::Text(text) => put_text(out, 3, text),
        Instruction::Bool(truth) => put(out, 4, &[truth_byte(*truth)]),
        Instruction::Null => put(out, 5, &[]),
        Instruction::Name(name) => put(out, 6, &[name_byte(*name)]),
        Instruction::Variable(place) => put_short(out, 7, *place),
        Instruction::Slot(slot) => put(out, 8, &[slot_byte(*slot)]),
        Instruction::Field(field) => put_text(out, 9, field),
        Instruction::Has(field) => put_text(out, 10, field),
        Instruction::Index => put(out, 11, &[]),
        Instruction::List(count) => put_short(out, 12, *count),
        Instruction::Map(count) => put_short(out, 13, *count),
        Instruction::Unary(prefix) => put(out, 14, &[prefix_byte(*prefix)]),
        Instruction::Binary(operator) => put(out, 15, &[binary_byte(*operator)]),
        Instruction::Call(function) => put(out, 16, &[function_byte(*function)]),
        Instruction::And => put(out, 17, &[]),
        Instruction::Or => put(out, 18, &[]),
        Instruction::IfFalse(target) => put_short(out, 19, *target),
        Instruction::IfTrue(target) => put_short(out, 20, *target),
        Instruction::Branch(otherwise, end) => put_branch(out, *otherwise, *end),
        Instruction::Jump(target) => put_short(out, 22, *target),
        Instruction::Macro(kind, end) => put_macro(out, *kind, *end),
    }
}

fn encode_all(alloc: Global, instructions: &[Instruction]) -> Result<Vec<u8>, AllocError>
    requires { HaveRoom (ops_of instructions.now) }
    ensures { IfOk result (λ b. b.items ≡ code (ops_of instructions.now)) }
{
    let mut out = Vec::new(alloc);
    out.extend_from_slice(&(instructions.len() as u16).to_be_bytes())?;
    for instruction in instructions {
        put_instruction(&mut out, instruction)?;
    }
    Ok(out)
}

/// The one spelling of a plan in bytes: how many instructions it has, and each of them. Errors: out of memory.
pub fn encode(alloc: Global, plan: &Plan) -> Result<Vec<u8>, AllocError>
    requires { HaveRoom (plan_ops plan.now) }
    ensures { IfOk result (λ b. b.items ≡ code (plan_ops plan.now)) }
{
    encode_all(alloc, &plan.instructions)
}
