//! The place of the next generation.

ghost use Rattle.std.specs.Prelude.{◌≡◌, ◌<◌, ◌≤◌, ◌+◌, ◌-◌, ◌*◌, ◌^◌, ◌↔◌, IfOk, IsErr};
ghost use Rattle.roots.specs.Root.{log_sector};
ghost use Rattle.roots.specs.Install.{IsPlace, IsNext};

use crate::root::{Label, Root};

/// The generation in use is the last one that a root can tell, 2^64 - 1.
#[derive(Clone, Copy)]
pub struct Exhausted;

/// The first sector of a generation of this many pages, of 64 sectors each, while another is in use that begins at `first_sector` and whose
/// log ends with the gate in `last_gate_sector`: sector 8 where the pages and one gate fit before that one, and else the sector
/// behind its log.
pub fn next_first_sector(first_sector: u64, last_gate_sector: u64, pages: u32) -> u64
    requires { last_gate_sector < 2 ^ 54 }
    ensures { IsPlace first_sector last_gate_sector pages result }
{
    if 8 + 64 * u64::from(pages) + 1 <= first_sector {
        8
    } else {
        last_gate_sector + 1
    }
}

/// The root of the next generation, of this many pages and with this label, while `current` counts and its log ends with the gate in
/// `last_gate_sector`. It is in the other slot, and its pages and first gate lie off the generation in use. Nothing is written.
///
/// # Errors
///
/// `Exhausted` where `current` is of the greatest generation.
pub fn next_root(
    current: &Root,
    last_gate_sector: u64,
    pages: u32,
    label: Label,
) -> Result<Root, Exhausted>
    requires in_data { 8 ≤ last_gate_sector }
    requires room { last_gate_sector < 2 ^ 54 }
    ensures next { IfOk result (IsNext current.now last_gate_sector) }
    ensures place { IfOk result (λ next. IsPlace current.now.first_sector last_gate_sector pages next.first_sector) }
    ensures room { IfOk result (λ next. log_sector next < 2 ^ 64) }
    ensures pages { IfOk result (λ next. next.pages ≡ pages) }
    ensures label { IfOk result (λ next. next.label ≡ label) }
    ensures exhausted { IsErr result ↔ (current.now.generation ≡ 2 ^ 64 - 1) }
{
    if current.generation == u64::MAX {
        return Err(Exhausted);
    }
    Ok(Root {
        slot: current.slot.other(),
        generation: current.generation + 1,
        first_sector: next_first_sector(current.first_sector, last_gate_sector, pages),
        pages,
        label,
    })
}
