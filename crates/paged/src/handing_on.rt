//! What is written where a store is compacted: an object in the pages that has no change is handed on, and its document is not read.

ghost use Rattle.std.specs.Prelude.{◌≡◌, ◌≤◌, ◌*◌, ℕ, List, length, IfOk, OnOk, IsErrOf};
ghost use Rattle.device.specs.Disk.{HasFailed};
ghost use Rattle.device.specs.Step.{Same};
ghost use Rattle.device.specs.Run.{Ran};
ghost use Rattle.names.specs.Key.{Key as KeyData};
ghost use Rattle.objects.specs.declared.fault.Part.{Part};
ghost use Rattle.objects.specs.declared.fault.LookupFault.TheVariants as LookupFault;
ghost use Rattle.pages.specs.Page.{Entry as EntryData};
ghost use Rattle.roots.specs.Root.{log_sector};
ghost use Rattle.checkpoint.specs.EntryList.{entries_of as in_list};
ghost use Rattle.chunks.specs.Chunks.{cut};
ghost use Rattle.handing.specs.Cells.{cells_in, stored_cells};
ghost use Rattle.histories.specs.declared.stored.Stored.{Stored as StoredData};
ghost use Rattle.histories.specs.View as seen;
ghost use Rattle.holdings.specs.Holdings.{Shows};
ghost use Rattle.snapshots.specs.HandedOn.{AllLie, AreCellsBelow};
ghost use Rattle.snapshots.specs.Keeping.{IsHeld, held_entries};
ghost use Rattle.snapshots.specs.LyingBelow.{apart_of};
ghost use Rattle.decoded.specs.Decoded.{Decoded as DecodedData};
ghost use Rattle.paged.specs.Lying.{base_of, is_rule, lies};
ghost use Rattle.paged.specs.Paged.{Below, HasEntries, Holds, root_of};

use crate::compacting::NextCheckpoint;
use crate::state::Paged;
use crate::without_plans::WithoutPlans;
use decoded::{Core, Decoded};
use device::Device;
use names::Key;
use objects::{LookupFault, Part};
use snapshots::{Base, LentView, SnapshotFault, handed_on, renewed_apart, shown_apart};
use std::alloc::Global;

// What is held in memory once the view that a core shows is written, by its numbers: this part of it does not lie in pages.
fn renewed_over(alloc: Global, core: &Core, apart: LentView<'_>) -> Result<Core, LookupFault>
    ensures rules { IfOk result (λ next. next.rules ≡ core.now.rules) }
    ensures held { (base : List (KeyData × StoredData DecodedData)) (held : seen.View DecodedData) → Shows core.now base held → apart.entry ≡ apart_of lies held
        → IsHeld core.now.rules held → IfOk result (λ next. Shows next (base_of held) held) }
    ensures damaged { (part : Part) → IsErrOf result (LookupFault.Damaged part) → (base : List (KeyData × StoredData DecodedData)) (held : seen.View DecodedData)
        → Shows core.now base held → apart.entry ≡ apart_of lies held → IsHeld core.now.rules held → ⊥ }
    ensures device { IsErrOf result LookupFault.Device → ⊥ }
{
    let count = core.object_count();
    match renewed_apart(alloc, core.rules(), apart, count, &WithoutPlans) {
        Ok(next) => Ok(next),
        Err(SnapshotFault::Entry) => Err(LookupFault::Damaged(Part::Entry)),
        Err(SnapshotFault::Plans) => Err(LookupFault::Damaged(Part::Plans)),
        Err(SnapshotFault::Memory) => Err(LookupFault::Memory),
    }
}

// The next generation of what a core shows over the objects with these cells.
fn next_of_cells(
    alloc: Global,
    core: &Core,
    cells: Vec<(Key, Vec<u8>)>,
) -> Result<NextCheckpoint, LookupFault>
    ensures entries { (base : List (KeyData × StoredData DecodedData)) (held : seen.View DecodedData) → cells_in cells.items ≡ stored_cells base → AllLie lies base
        → Shows core.now base held → IfOk result (λ n. in_list n.entries ≡ cut core.now.rules.format (held_entries held)) }
    ensures rules { IfOk result (λ n. n.core.rules ≡ core.now.rules) }
    ensures held { (base : List (KeyData × StoredData DecodedData)) (held : seen.View DecodedData) → AllLie lies base → Shows core.now base held
        → IsHeld core.now.rules held → IfOk result (λ n. Shows n.core (base_of held) held) }
    ensures damaged { (part : Part) → IsErrOf result (LookupFault.Damaged part) → (base : List (KeyData × StoredData DecodedData)) (held : seen.View DecodedData)
        → AllLie lies base → Shows core.now base held → IsHeld core.now.rules held → ⊥ }
    ensures device { IsErrOf result LookupFault.Device → ⊥ }
{
    let apart = shown_apart(alloc, core, &WithoutPlans)?;
    let format = core.rules().format;
    let entries = handed_on(alloc, format, core, cells, &apart, &WithoutPlans)?;
    let core = renewed_over(alloc, core, apart)?;
    Ok(NextCheckpoint { entries, core })
}

impl Paged {
    // The cells of all objects that lie in the pages, in key order. Each page is read once, and no document.
    fn all_cells<D: Device>(
        &mut self,
        alloc: Global,
        device: &mut D,
    ) -> Result<Vec<(Key, Vec<u8>)>, LookupFault>
        requires inside { D.disk.keeps device.old → 512 * log_sector (root_of self.old) ≤ length (D.disk.content device.old) }
        ensures all { (base : List (KeyData × StoredData DecodedData)) → Below D.disk device.old self.old base
            → IfOk result (λ cells. cells_in cells.items ≡ stored_cells base) }
        ensures are { (entries : List EntryData) → HasEntries D.disk device.old self.old entries
            → IfOk result (λ cells. AreCellsBelow is_rule (root_of self.old).label.format entries (cells_in cells.items)) }
        ensures damaged { (part : Part) → IsErrOf result (LookupFault.Damaged part) → (base : List (KeyData × StoredData DecodedData)) → Below D.disk device.old self.old base → ⊥ }
        ensures core { self.new.core ≡ self.old.core }
        ensures root { root_of self.new ≡ root_of self.old }
        ensures below { (base : List (KeyData × StoredData DecodedData)) → Below D.disk device.old self.old base → Below D.disk device.new self.new base }
        ensures ran { Ran D.disk device.old device.new Same }
        ensures steady { OnOk result (D.disk.failures device.new ≡ D.disk.failures device.old) }
        ensures device { IsErrOf result LookupFault.Device → HasFailed D.disk device.old device.new }
        ensures memory { IsErrOf result LookupFault.Memory → D.disk.failures device.new ≡ D.disk.failures device.old }
    {
        let mut base = Base::new(device, &mut self.cache, WithoutPlans);
        base.all_cells::<Decoded>(alloc)
    }

    /// The next generation, as [`Paged::next`] gives it, but that no document in the pages is read: an object without a change has the same entry in it. So a cell
    /// that is damaged is handed on as it is.
    ///
    /// # Errors
    ///
    /// `Device` only where the device failed in this call; `Damaged` only where what is shown is none that a checkpoint may keep; `Memory`.
    pub fn next_handed_on<D: Device>(
        &mut self,
        alloc: Global,
        device: &mut D,
    ) -> Result<NextCheckpoint, LookupFault>
        requires inside { D.disk.keeps device.old → 512 * log_sector (root_of self.old) ≤ length (D.disk.content device.old) }
        ensures entries { (held : seen.View DecodedData) → Holds D.disk device.old self.old held → IfOk result (λ n. in_list n.entries ≡ cut self.old.core.rules.format (held_entries held)) }
        ensures rules { IfOk result (λ n. n.core.rules ≡ self.old.core.rules) }
        ensures held { (held : seen.View DecodedData) → Holds D.disk device.old self.old held → IsHeld self.old.core.rules held
            → IfOk result (λ n. Shows n.core (base_of held) held) }
        ensures are { (entries : List EntryData) → HasEntries D.disk device.old self.old entries
            → OnOk result ((cells : List (KeyData × List ℕ)) × AreCellsBelow is_rule (root_of self.old).label.format entries cells) }
        ensures damaged { (part : Part) → IsErrOf result (LookupFault.Damaged part) → (held : seen.View DecodedData) → Holds D.disk device.old self.old held → IsHeld self.old.core.rules held → ⊥ }
        ensures core { self.new.core ≡ self.old.core }
        ensures root { root_of self.new ≡ root_of self.old }
        ensures below { (base : List (KeyData × StoredData DecodedData)) → Below D.disk device.old self.old base → Below D.disk device.new self.new base }
        ensures ran { Ran D.disk device.old device.new Same }
        ensures steady { OnOk result (D.disk.failures device.new ≡ D.disk.failures device.old) }
        ensures device { IsErrOf result LookupFault.Device → HasFailed D.disk device.old device.new }
        ensures memory { IsErrOf result LookupFault.Memory → D.disk.failures device.new ≡ D.disk.failures device.old }
    {
        let cells = self.all_cells(alloc, device)?;
        next_of_cells(alloc, &self.core, cells)
    }
}
