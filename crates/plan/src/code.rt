//! Instructions, one after another.

ghost use Rattle.std.specs.Prelude.{◌≡◌, ◌+◌, [], ◌∷◌, ◌++◌, length, IfOk};
ghost use Rattle.instructions.specs.Op.{Branch, Jump, Over};
ghost use Rattle.instructions.specs.Seen.{op_of, ops_of};
ghost use Rattle.plan.specs.Tables.{between, steps_between, infix_op};

use crate::operations::infix_instruction;
use celtree::{Macro, Operator};
use instructions::Instruction;
use std::alloc::{AllocError, Global};

/// One instruction.
pub(crate) fn alone(alloc: Global, instruction: Instruction) -> Result<Vec<Instruction>, AllocError>
    ensures code { IfOk result (λ c. ops_of c.items ≡ op_of instruction ∷ []) }
    ensures as_long { IfOk result (λ c. length c.items ≡ 1) }
{
    let mut code = Vec::new(alloc);
    code.push(instruction)?;
    Ok(code)
}

/// The instructions with one more after them.
pub(crate) fn followed(
    code: Vec<Instruction>,
    instruction: Instruction,
) -> Result<Vec<Instruction>, AllocError>
    ensures code { IfOk result (λ c. ops_of c.items ≡ ops_of code.items ++ op_of instruction ∷ []) }
    ensures as_long { IfOk result (λ c. length c.items ≡ length code.items + 1) }
{
    let mut code = code;
    code.push(instruction)?;
    Ok(code)
}

/// The instructions with others after them.
pub(crate) fn joined(
    first: Vec<Instruction>,
    second: Vec<Instruction>,
) -> Result<Vec<Instruction>, AllocError>
    ensures code { IfOk result (λ c. ops_of c.items ≡ ops_of first.items ++ ops_of second.items) }
    ensures as_long { IfOk result (λ c. length c.items ≡ length first.items + length second.items) }
{
    let mut code = first;
    let mut second = second;
    code.append(&mut second)?;
    Ok(code)
}

/// The instructions of two operands, and what takes them.
pub(crate) fn gathered(
    first: Vec<Instruction>,
    second: Vec<Instruction>,
    last: Instruction,
) -> Result<Vec<Instruction>, AllocError>
    ensures code { IfOk result (λ c. ops_of c.items ≡ ops_of first.items ++ (ops_of second.items ++ op_of last ∷ [])) }
    ensures as_long { IfOk result (λ c. length c.items ≡ length first.items + length second.items + 1) }
{
    let second = followed(second, last)?;
    joined(first, second)
}

// The left operand's instructions, with what leads past the right one.
fn leading(
    operator: Operator,
    code: Vec<Instruction>,
    end: u16,
) -> Result<Vec<Instruction>, AllocError>
    ensures code { IfOk result (λ c. ops_of c.items ≡ ops_of code.items ++ between operator end) }
    ensures as_long { IfOk result (λ c. length c.items ≡ length code.items + steps_between operator) }
{
    match operator {
        Operator::And => followed(code, Instruction::IfFalse(end)),
        Operator::Or => followed(code, Instruction::IfTrue(end)),
        _ => Ok(code),
    }
}

/// The instructions of `a + b` and the like, by those of `a` and `b`, and the number of the instruction that follows.
pub(crate) fn infix_code(
    operator: Operator,
    left: Vec<Instruction>,
    right: Vec<Instruction>,
    end: u16,
) -> Result<Vec<Instruction>, AllocError>
    ensures code { IfOk result (λ c. ops_of c.items ≡ ops_of left.items ++ (between operator end ++ (ops_of right.items ++ infix_op operator ∷ []))) }
    ensures as_long { IfOk result (λ c. length c.items ≡ length left.items + steps_between operator + length right.items + 1) }
{
    let left = leading(operator, left, end)?;
    gathered(left, right, infix_instruction(operator))
}

/// The instructions of `c ? a : b`, by those of `c`, `a` and `b`, and the numbers of the first instruction of `b` and of the one after.
pub(crate) fn conditional_code(
    test: Vec<Instruction>,
    first: Vec<Instruction>,
    second: Vec<Instruction>,
    otherwise: u16,
    end: u16,
) -> Result<Vec<Instruction>, AllocError>
    ensures code { IfOk result (λ c. ops_of c.items ≡ ops_of test.items ++ (Branch otherwise end ∷ (ops_of first.items ++ (Jump end ∷ ops_of second.items)))) }
    ensures as_long { IfOk result (λ c. length c.items ≡ length test.items + 1 + length first.items + 1 + length second.items) }
{
    let test = followed(test, Instruction::Branch(otherwise, end))?;
    let first = followed(first, Instruction::Jump(end))?;
    let branches = joined(first, second)?;
    joined(test, branches)
}

/// The instructions of a macro, by those of what it goes over and of its body, and the number of the instruction that follows.
pub(crate) fn macro_code(
    kind: Macro,
    of: Vec<Instruction>,
    body: Vec<Instruction>,
    end: u16,
) -> Result<Vec<Instruction>, AllocError>
    ensures code { IfOk result (λ c. ops_of c.items ≡ ops_of of.items ++ (Over kind end ∷ ops_of body.items)) }
    ensures as_long { IfOk result (λ c. length c.items ≡ length of.items + 1 + length body.items) }
{
    let of = followed(of, Instruction::Macro(kind, end))?;
    joined(of, body)
}
