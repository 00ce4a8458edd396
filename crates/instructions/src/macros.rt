//! For each place, the last macro in front of it that has it in its body.

ghost use Rattle.std.specs.Prelude.{
  ◌≡◌,
  ℕ,
  ◌+◌,
  ◌<◌,
  ◌≤◌,
  ◌^◌,
  if◌then◌else◌,
  OnOk,
  IfOk,
};
ghost use Rattle.instructions.specs.Seen.{op_of, ops_of};
ghost use Rattle.instructions.specs.Judging.{goes_past};
ghost use Rattle.instructions.specs.Macros.{last_of, Tells};

use crate::instruction::Instruction;
use std::alloc::{AllocError, Global};

/// The body of a macro: its first place, and the place after its last.
#[derive(Clone, Copy)]
struct Span {
    start: usize,
    end: usize,
}

// The start of the last body that goes past a place, 0 if there is none. Those after it go past no later place, and are dropped.
fn last_past(place: usize, spans: &mut Vec<Span>) -> usize
    ensures value { result ≡ last_of place 0 spans.old.items }
    ensures kept { (later : ℕ) → place ≤ later → last_of later 0 spans.new.items ≡ last_of later 0 spans.old.items }
{
    while let Some(span) = spans.last().copied() {
        if place < span.end {
            return span.start;
        }
        spans.pop();
    }
    0
}

// Notes the body of an instruction that is a macro.
fn note(at: usize, instruction: &Instruction, spans: &mut Vec<Span>) -> Result<(), AllocError>
    requires { at + 1 < 2 ^ 64 }
    ensures { OnOk result ((place : ℕ) → last_of place 0 spans.new.items
        ≡ (if goes_past place (op_of instruction.now) then at + 1 else last_of place 0 spans.old.items)) }
{
    match instruction {
        Instruction::Macro(_, end) => {
            spans.push(Span {
                start: at + 1,
                end: *end as usize,
            })?;
            Ok(())
        }
        _ => Ok(()),
    }
}

/// For each place of the code, its end among them: the start of the last body in front of it that has it inside, 0 if there is none.
pub(crate) fn last_starts(alloc: Global, code: &[Instruction]) -> Result<Vec<usize>, AllocError>
    ensures { IfOk result (λ starts. Tells (ops_of code.now) starts.items) }
{
    let mut spans = Vec::new(alloc);
    let mut starts = Vec::new(alloc);
    starts.push(0)?;
    for (at, instruction) in code.iter().enumerate() {
        note(at, instruction, &mut spans)?;
        let start = last_past(at + 1, &mut spans);
        starts.push(start)?;
    }
    Ok(starts)
}
