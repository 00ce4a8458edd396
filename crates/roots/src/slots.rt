//! The two roots of a file, and the one that counts.

ghost use Rattle.std.specs.Prelude.{◌≡◌, ◌<◌, ◌≤◌, ◌+◌, ◌*◌, ◌⊎◌, length, IfSome, IfNone};
ghost use Rattle.gatelog.specs.Record.{part};
ghost use Rattle.roots.specs.Root.{Counts, root_sector, gate_sector};
ghost use Rattle.roots.specs.Front.{StandsIn};

use crate::root::{Root, Slot};
use device::SECTOR;
use gatelog::OPEN;

// What stands in a slot.
#[derive(Clone, Copy)]
enum Standing {
    Closed,
    // The gate is open, and no root stands behind it.
    Unspelled,
    Open(Root),
}

fn what_stands(slot: Slot, front: &[u8]) -> Standing
    requires { 2560 ≤ length front.now }
    ensures { StandsIn slot front.now result }
{
    if front[SECTOR * slot.gate_sector()] != OPEN {
        return Standing::Closed;
    }
    let at = SECTOR * slot.root_sector();
    match Root::read(slot, sector_at(front, at)) {
        Some(root) => Standing::Open(root),
        None => Standing::Unspelled,
    }
}

/// A sector of the front, by its offset in bytes.
pub(crate) fn sector_at(front: &[u8], at: usize) -> &[u8]
    requires { at + 512 ≤ length front.now }
    ensures bytes { result.now ≡ part at 512 front.now }
    ensures size { length result.now ≡ 512 }
{
    &front[at..at + SECTOR]
}

/// The root that counts, of those in the first five sectors of a file.
pub(crate) fn counted(front: &[u8]) -> Option<Root>
    requires { 2560 ≤ length front.now }
    ensures some { IfSome result (Counts front.now) }
    ensures none { IfNone result ((root : Root) → Counts front.now root → ⊥) }
{
    let in_b = what_stands(Slot::B, front);
    match what_stands(Slot::A, front) {
        Standing::Unspelled => None,
        Standing::Closed => match in_b {
            Standing::Open(b) => Some(b),
            Standing::Closed => None,
            Standing::Unspelled => None,
        },
        Standing::Open(a) => match in_b {
            Standing::Closed => Some(a),
            Standing::Unspelled => None,
            Standing::Open(b) => greater(a, b),
        },
    }
}

// The root of greater generation.
fn greater(a: Root, b: Root) -> Option<Root>
    ensures some { IfSome result (λ root. ((root ≡ a) × (b.generation < a.generation)) ⊎ ((root ≡ b) × (a.generation < b.generation))) }
    ensures none { IfNone result (a.generation ≡ b.generation) }
{
    if b.generation < a.generation {
        Some(a)
    } else if a.generation < b.generation {
        Some(b)
    } else {
        None
    }
}
