//! Why bytes are no plan.

use std::alloc::{AllocError, AllocFailed};
use thiserror::Error;

/// Why bytes are not the code of a well-formed plan: the first reason.
///
/// The bytes are read front to back first, and then the instructions are judged in order.
#[derive(Debug, Drop, Error)]
pub enum CodeFault {
    /// The bytes end before an instruction does.
    #[error("truncated code")]
    Truncated,
    /// No instruction has this number, or it has no such operand: a declared name may be none where the plan is to stand.
    #[error("unknown instruction or operand")]
    BadOperand,
    /// A text is not UTF-8.
    #[error("text is not UTF-8")]
    TextNotUtf8,
    /// Bytes stand after the last instruction.
    #[error("bytes after the last instruction")]
    TrailingBytes,
    /// A target lies not ahead, or past the end of the body that the instruction stands in, or in another body.
    #[error("bad target")]
    BadJump,
    /// A variable that is not declared, a macro's variable outside it, or macros three deep.
    #[error("bad name")]
    BadName,
    /// An operand is missing, an instruction is never reached or with two heights of the stack, or an end has not one outcome.
    #[error("bad stack")]
    BadStack,
    /// Out of memory.
    #[error("out of memory")]
    Memory,
}

impl From<AllocError> for CodeFault {
    ghost use Rattle.std.specs.Prelude.{◌≡◌};
    ghost use Rattle.instructions.specs.declared.fault.CodeFault.TheVariants as fault;

    ghost from_gives = { λ _ e. e ≡ fault.Memory };

    fn from(_: AllocError) -> Self {
        CodeFault::Memory
    }
}

impl<T: Drop> From<AllocFailed<T>> for CodeFault {
    ghost use Rattle.std.specs.Prelude.{◌≡◌};
    ghost use Rattle.instructions.specs.declared.fault.CodeFault.TheVariants as fault;

    ghost from_gives = { λ _ e. e ≡ fault.Memory };

    fn from(_: AllocFailed<T>) -> Self {
        CodeFault::Memory
    }
}
