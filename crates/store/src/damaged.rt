//! Where a store is damaged.

ghost use Rattle.std.specs.Prelude.{IfSome};
ghost use Rattle.device.specs.Run.{Ran};
ghost use Rattle.device.specs.Step.{Same};
ghost use Rattle.damage.specs.Place.{IsDamagedAt};
ghost use Rattle.store.specs.Places.{IsPlaceOf};

use damage::{Place, damaged_entry_of, damaged_page_of, damaged_plans_of, damaged_record_of};
use device::Device;
use durable::Damage;
use std::alloc::Global;

/// Looks once more at a device of which an opening or a check told this damage, and says where it is: the first page that is damaged; what stands in the pages for an object, an
/// event or the plans of a policy, that is of nothing or does not join; an object whose plans are not those of its expressions; or the first record of the log that is one of no writes. Nothing is
/// written. None of a damaged header or root, where nothing is found, and where the device fails or memory is refused meanwhile.
pub fn damaged_place<D: Device>(alloc: Global, device: &mut D, damage: Damage) -> Option<Place>
    ensures at { D.disk.keeps device.old → IfSome result (IsDamagedAt (D.disk.content device.old)) }
    ensures kind { IfSome result (IsPlaceOf damage) }
    ensures ran { Ran D.disk device.old device.new Same }
{
    match damage {
        Damage::Page => damaged_page_of(alloc, device),
        Damage::Entry => damaged_entry_of(alloc, device),
        Damage::Plan => damaged_plans_of(alloc, device),
        Damage::Log => damaged_record_of(alloc, device),
        Damage::Header | Damage::Root => None,
    }
}
