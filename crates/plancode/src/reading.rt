//! Plans at the front of bytes.

ghost use Rattle.std.specs.Prelude.{◌≡◌};
ghost use Rattle.instructions.specs.Faults.{Gives};
ghost use Rattle.instructions.specs.Seen.{op_of, ops_of};
ghost use Rattle.plancode.specs.Reading.{ops_at, plan_of};

use instructions::{CodeFault, Instruction, Name, instruction_at, short_at};
use std::alloc::Global;

// This many instructions, and the bytes after them.
fn instructions(
    alloc: Global,
    count: u16,
    greatest: Name,
    bytes: &[u8],
) -> Result<(Vec<Instruction>, &[u8]), CodeFault>
    ensures { Gives (λ x. (ops_of x.0.items, x.1.now)) result (ops_at greatest count bytes.now) }
{
    let mut read = Vec::new(alloc);
    let mut rest = bytes;
    for _ in 0..count {
        let (first, after) = instruction_at(alloc, greatest, rest)?;
        read.push(first)?;
        rest = after;
    }
    Ok((read, rest))
}

/// The instructions that the bytes spell, all of the bytes, with declared names up to one; the first fault where they spell none.
#[tactic(auto, unfolding(crate::specs::Reading::plan_of))]
pub(crate) fn plan(
    alloc: Global,
    greatest: Name,
    bytes: &[u8],
) -> Result<Vec<Instruction>, CodeFault>
    ensures { Gives (λ v. ops_of v.items) result (plan_of greatest bytes.now) }
{
    let (count, rest) = short_at(bytes)?;
    let (read, rest) = instructions(alloc, count, greatest, rest)?;
    if !rest.is_empty() {
        return Err(CodeFault::TrailingBytes);
    }
    Ok(read)
}
