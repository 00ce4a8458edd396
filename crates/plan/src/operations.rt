//! The instructions of operators and functions.

ghost use Rattle.std.specs.Prelude.{◌≡◌};
ghost use Rattle.instructions.specs.Seen.{op_of};
ghost use Rattle.plan.specs.Tables.{infix_op, steps_between, function_named, method_named};

use celtree::Operator;
use instructions::{Binary, Function, Instruction};

/// What takes the two operands of an operator.
pub(crate) fn infix_instruction(operator: Operator) -> Instruction
    ensures { op_of result ≡ infix_op operator }
{
    match operator {
        Operator::Multiply => Instruction::Binary(Binary::Multiply),
        Operator::Divide => Instruction::Binary(Binary::Divide),
        Operator::Remainder => Instruction::Binary(Binary::Remainder),
        Operator::Add => Instruction::Binary(Binary::Add),
        Operator::Subtract => Instruction::Binary(Binary::Subtract),
        Operator::Less => Instruction::Binary(Binary::Less),
        Operator::LessEqual => Instruction::Binary(Binary::LessEqual),
        Operator::Greater => Instruction::Binary(Binary::Greater),
        Operator::GreaterEqual => Instruction::Binary(Binary::GreaterEqual),
        Operator::Equal => Instruction::Binary(Binary::Equal),
        Operator::NotEqual => Instruction::Binary(Binary::NotEqual),
        Operator::In => Instruction::Binary(Binary::In),
        Operator::And => Instruction::And,
        Operator::Or => Instruction::Or,
    }
}

/// How many instructions stand between the two operands of an operator.
pub(crate) fn steps_between(operator: Operator) -> usize
    ensures { result ≡ steps_between operator }
{
    match operator {
        Operator::And | Operator::Or => 1,
        _ => 0,
    }
}

/// The function of a call. In a tree with a type, a name that is none of the others is `dyn`.
pub(crate) fn function_named(name: &str) -> Function
    ensures { result ≡ function_named name.now }
{
    match name {
        "size" => Function::Size,
        "int" => Function::Int,
        "uint" => Function::Uint,
        "string" => Function::Text,
        _ => Function::Dyn,
    }
}

/// The function of a method. In a tree with a type, a name that is none of the others is `endsWith`.
pub(crate) fn method_named(name: &str) -> Function
    ensures { result ≡ method_named name.now }
{
    match name {
        "size" => Function::Size,
        "contains" => Function::Contains,
        "startsWith" => Function::StartsWith,
        _ => Function::EndsWith,
    }
}
