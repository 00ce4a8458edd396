//! Copies of instructions.

use crate::instruction::Instruction;
use std::alloc::AllocError;

impl Clone for Instruction {
    ghost use Rattle.std.specs.Prelude.{◌≡◌};
    ghost use Rattle.instructions.specs.Seen.{op_of};

    ghost is_clone = { λ instruction copy. op_of copy ≡ op_of instruction };

    fn clone(&self) -> Result<Instruction, AllocError> {
        Ok(match self {
            Instruction::Int(number) => Instruction::Int(*number),
            Instruction::Uint(number) => Instruction::Uint(*number),
            Instruction::Text(text) => Instruction::Text(text.clone()?),
            Instruction::Bool(truth) => Instruction::Bool(*truth),
            Instruction::Null => Instruction::Null,
            Instruction::Name(name) => Instruction::Name(*name),
            Instruction::Variable(place) => Instruction::Variable(*place),
            Instruction::Slot(slot) => Instruction::Slot(*slot),
            Instruction::Field(name) => Instruction::Field(name.clone()?),
            Instruction::Has(name) => Instruction::Has(name.clone()?),
            Instruction::Index => Instruction::Index,
            Instruction::List(count) => Instruction::List(*count),
            Instruction::Map(count) => Instruction::Map(*count),
            Instruction::Unary(prefix) => Instruction::Unary(*prefix),
            Instruction::Binary(operator) => Instruction::Binary(*operator),
            Instruction::Call(function) => Instruction::Call(*function),
            Instruction::And => Instruction::And,
            Instruction::Or => Instruction::Or,
            Instruction::IfFalse(target) => Instruction::IfFalse(*target),
            Instruction::IfTrue(target) => Instruction::IfTrue(*target),
            Instruction::Branch(target, end) => Instruction::Branch(*target, *end),
            Instruction::Jump(target) => Instruction::Jump(*target),
            Instruction::Macro(kind, end) => Instruction::Macro(*kind, *end),
        })
    }
}
