//! The first page that is damaged.

ghost use Rattle.std.specs.Prelude.{◌≡◌, ◌<◌, ◌≤◌, ◌*◌, ◌^◌, true, false, Some, length, IfSome};
ghost use Rattle.device.specs.Step.{Same};
ghost use Rattle.device.specs.Run.{Ran};
ghost use Rattle.roots.specs.Root.{log_sector};
ghost use Rattle.checkpoint.specs.Pages.{HoldsPages};
ghost use Rattle.damage.specs.Pages.{with_pages, IsFirstDamaged};

use crate::gathering::Idle;
use checkpoint::{ScanFault, scan};
use device::Device;
use roots::Root;
use std::alloc::Global;

// Whether the first pages of a root, this many of them, are sound and their keys ascend; none where that cannot be told.
fn are_whole<D: Device>(alloc: Global, device: &mut D, root: &Root, count: u32) -> Option<bool>
    requires few { count ≤ root.now.pages }
    requires small { log_sector root.now < 2 ^ 54 }
    requires inside { D.disk.keeps device.old → 512 * log_sector root.now ≤ length (D.disk.content device.old) }
    ensures whole { D.disk.keeps device.old → result ≡ Some true → HoldsPages (D.disk.content device.old) (with_pages count root.now) }
    ensures damaged { D.disk.keeps device.old → result ≡ Some false → HoldsPages (D.disk.content device.old) (with_pages count root.now) → ⊥ }
    ensures ran { Ran D.disk device.old device.new Same }
{
    let front = Root {
        slot: root.slot,
        generation: root.generation,
        first_sector: root.first_sector,
        pages: count,
        label: root.label,
    };
    match scan(alloc, device, &front, &mut Idle) {
        Ok(_) | Err(ScanFault::Entry) => Some(true),
        Err(ScanFault::Page) => Some(false),
        Err(ScanFault::Device | ScanFault::Memory) => None,
    }
}

/// The number of the first page of a root that is damaged, from 0: it is no page, or its first key is not above the last key of the page before. The pages are
/// read by halves, each some times. None where no page is damaged, and where the device failed or memory was refused.
pub fn damaged_page<D: Device>(alloc: Global, device: &mut D, root: &Root) -> Option<u32>
    requires small { log_sector root.now < 2 ^ 54 }
    requires inside { D.disk.keeps device.old → 512 * log_sector root.now ≤ length (D.disk.content device.old) }
    ensures first { D.disk.keeps device.old → IfSome result (IsFirstDamaged (D.disk.content device.old) root.now) }
    ensures ran { Ran D.disk device.old device.new Same }
{
    if root.pages == 0 || are_whole(alloc, device, root, root.pages)? {
        return None;
    }
    let mut whole = 0;
    let mut damaged = root.pages;
    'halves: while damaged - whole > 1 {
        let middle = whole + (damaged - whole) / 2;
        if are_whole(alloc, device, root, middle)? {
            whole = middle;
        } else {
            damaged = middle;
        }
    }
    Some(whole)
}
