//! The objects of a store, read from the pages of a root.

ghost use Rattle.std.specs.Prelude.{◌≡◌, ◌<◌, ◌≤◌, ◌-◌, ◌*◌, ◌^◌, ◌⊎◌, ◌∷◌, ℕ, Bool, true, List, [], map, length, IfOk, OnOk, IsErrOf};
ghost use Rattle.std.specs.List.{AllByRecursion};
ghost use Rattle.device.specs.Disk.{HasFailed};
ghost use Rattle.device.specs.Step.{Same};
ghost use Rattle.device.specs.Run.{Ran};
ghost use Rattle.names.specs.Key.{Key as KeyData, key_bytes};
ghost use Rattle.pages.specs.Page.{Entry as EntryData};
ghost use Rattle.roots.specs.Root.{log_sector};
ghost use Rattle.checkpoint.specs.Index.{keys_of};
ghost use Rattle.checkpoint.specs.Pages.{joined, pages_of_root, HoldsPages, HoldsEntries, IsIndex};
ghost use Rattle.shelf.specs.Shelf.{Shelves};
ghost use Rattle.chunks.specs.Chunks.{HoldsWhole};
ghost use Rattle.snapshots.specs.KeptEntries.{chosen_of, objects_among};
ghost use Rattle.snapshots.specs.ObjectCache as caches;
ghost use Rattle.histories.specs.declared.stored.Stored.{Stored as StoredData};
ghost use Rattle.histories.specs.View as seen;
ghost use Rattle.histories.specs.Mapped.{mapped};
ghost use Rattle.holdings.specs.Holdings.{Shows};
ghost use Rattle.holdings.specs.Known.{IsKnown, KnowsSame};
ghost use Rattle.snapshots.specs.Keeping.{IsHeld, held_entries};
ghost use Rattle.snapshots.specs.Restoring.{IsDamaged};
ghost use Rattle.decoded.specs.Decoded.{Decoded as DecodedData};
ghost use Rattle.recovery.specs.Known.{AllKnown, IsOfGroup};
ghost use Rattle.decoded.specs.Shown.{plans_held};
ghost use Rattle.recovery.specs.Taken.{HasRedone};
ghost use Rattle.recovery.specs.Written.{Write, IsWritten};
ghost use Rattle.recovery.specs.declared.fault.RecoveryFault.TheVariants as RecoveryFault;
ghost use Rattle.paged.specs.Chosen.{rules_among, is_chosen, ChoosesRules, HasHeldEntries};
ghost use Rattle.paged.specs.Lying.{base_of};
ghost use Rattle.paged.specs.Paged.{Below, HasEntries, root_of};
ghost use Rattle.paged.specs.declared.fault.PagedFault.TheVariants as PagedFault;

use crate::chosen::{Chosen, rules_among};
use crate::fault::PagedFault;
use crate::state::Paged;
use crate::without_plans::WithoutPlans;
use chunks::scan_whole;
use decoded::Core;
use device::Device;
use names::Rules;
use records::Entry;
use recovery::{RecoveryFault, redone};
use roots::Root;
use shelf::Shelf;
use snapshots::{KeptEntries, ObjectCache, SnapshotFault, restored};
use std::alloc::Global;

// How many of this many objects lie below, where these entries were kept: all but the policies and the bindings.
fn count_below(kept: &[Entry], objects: u64) -> usize
    ensures { result ≡ objects - rules_among kept.now }
{
    (objects as usize).saturating_sub(rules_among(kept))
}

// What is held of a checkpoint at a revision, of which these entries were kept, and which has this many objects.
fn core_of(
    alloc: Global,
    rules: Rules,
    kept: &[Entry],
    objects: u64,
    revision: u64,
) -> Result<Core, SnapshotFault>
    ensures rules { IfOk result (λ core. core.rules ≡ rules) }
    ensures shows { (held : seen.View DecodedData) (chosen : List ℕ → Bool) → IsHeld rules held → ChoosesRules chosen
        → kept.now ≡ held_entries (chosen_of chosen held) → objects ≡ objects_among (held_entries held) → held.revision ≡ revision
        → IfOk result (λ core. Shows core (base_of held) held × ((k : KeyData) → chosen (1 ∷ key_bytes k) ≡ true → IsKnown core (base_of held) k)) }
    ensures damaged { IsDamaged result → (held : seen.View DecodedData) (chosen : List ℕ → Bool) → IsHeld rules held → ChoosesRules chosen
        → kept.now ≡ held_entries (chosen_of chosen held) → objects ≡ objects_among (held_entries held) → held.revision ≡ revision → ⊥ }
    ensures none { kept.now ≡ [] → objects ≡ 0 → IfOk result (λ core. (held : seen.View DecodedData) × IsHeld rules held × Shows core [] held) }
    ensures kept { OnOk result ((held : seen.View DecodedData) × IsHeld rules held × (held.revision ≡ revision) × (held_entries held ≡ kept.now)) }
{
    let count = count_below(kept, objects);
    restored(alloc, rules, kept, &WithoutPlans, count, revision)
}

// What stands in a root's pages, with the first key of each.
fn cache_of<D: Device>(
    alloc: Global,
    device: &D,
    root: &Root,
    first_keys: Vec<Vec<u8>>,
) -> Result<ObjectCache, PagedFault>
    requires { log_sector root.now < 2 ^ 54 }
    ensures root { IfOk result (λ cache. caches.root_of cache ≡ root.now) }
    ensures counted { OnOk result (length first_keys.items ≡ root.now.pages) }
    ensures shelves { (entries : List EntryData) → IsIndex (keys_of first_keys.items) (pages_of_root root.now (D.disk.content device.now))
        → (0 < root.now.pages → D.disk.keeps device.now)
        → HoldsEntries (D.disk.content device.now) root.now entries → IfOk result (λ cache. Shelves D.disk device.now cache.shelf entries) }
    ensures found { IfOk result (λ cache. cache.found.entries ≡ []) }
    ensures damaged { IsErrOf result PagedFault.Page ⊎ (IsErrOf result PagedFault.Entry ⊎ IsErrOf result PagedFault.Plans)
        → length first_keys.items ≡ root.now.pages → ⊥ }
    ensures cause { IsErrOf result PagedFault.Device → ⊥ }
{
    if first_keys.len() != root.pages as usize {
        return Err(PagedFault::Page);
    }
    let shelf = Shelf::new(alloc, device, *root, first_keys)?;
    Ok(ObjectCache::new(alloc, shelf))
}

impl Paged {
    /// The objects that a root's pages have. Each page is read once, by one read of 64 sectors; held in memory are the objects that were chosen, and no page.
    ///
    /// # Errors
    ///
    /// `Device` only where the device failed in this call; `Page`, `Entry`, `Plans` only where no view that a checkpoint may keep stands in the pages, at the
    /// root's revision; `Memory`.
    pub fn read<D: Device>(
        alloc: Global,
        device: &mut D,
        rules: Rules,
        root: &Root,
        chosen: Chosen,
    ) -> Result<Paged, PagedFault>
        requires small { log_sector root.now < 2 ^ 54 }
        requires inside { D.disk.keeps device.old → 512 * log_sector root.now ≤ length (D.disk.content device.old) }
        ensures rules { IfOk result (λ p. p.core.rules ≡ rules) }
        ensures root { IfOk result (λ p. root_of p ≡ root.now) }

        // What a checkpoint keeps is held over what of it lies in the pages, and memory knows the keys that were chosen; where there are no pages, each.
        ensures held { D.disk.keeps device.old → (held : seen.View DecodedData) → IsHeld rules held
            → HoldsWhole (D.disk.content device.old) root.now (held_entries held) → root.now.label.revision ≡ held.revision
            → IfOk result (λ p. Below D.disk device.new p (base_of held) × Shows p.core (base_of held) held
            × ((k : KeyData) → (0 < root.now.pages → is_chosen chosen (1 ∷ key_bytes k) ≡ true) → IsKnown p.core (base_of held) k)) }
        ensures damaged { D.disk.keeps device.old → IsErrOf result PagedFault.Page ⊎ (IsErrOf result PagedFault.Entry ⊎ IsErrOf result PagedFault.Plans)
            → (held : seen.View DecodedData) → IsHeld rules held
            → HoldsWhole (D.disk.content device.old) root.now (held_entries held) → root.now.label.revision ≡ held.revision → ⊥ }

        // The pages are whole, and hold entries, whatever these are of.
        ensures whole { D.disk.keeps device.old → OnOk result (HoldsPages (D.disk.content device.old) root.now) }
        ensures entries { D.disk.keeps device.old
            → IfOk result (λ p. HasEntries D.disk device.new p (joined (pages_of_root root.now (D.disk.content device.old)))) }
        ensures kept { D.disk.keeps device.old
            → OnOk result (HasHeldEntries rules root.now.label (joined (pages_of_root root.now (D.disk.content device.old)))) }

        // And of a root without pages, whatever the device.
        ensures no_pages { root.now.pages ≡ 0 → IfOk result (λ p. Below D.disk device.new p [] × ((held : seen.View DecodedData) × IsHeld rules held × Shows p.core [] held)) }

        ensures ran { Ran D.disk device.old device.new Same }
        ensures cause { IsErrOf result PagedFault.Device → HasFailed D.disk device.old device.new }
        ensures steady { OnOk result (D.disk.failures device.new ≡ D.disk.failures device.old) }
        ensures memory { IsErrOf result PagedFault.Memory → D.disk.failures device.new ≡ D.disk.failures device.old }
    {
        let none = KeptEntries::new(alloc, &chosen);
        let (first_keys, kept_entries) = scan_whole(alloc, device, root, none)?;
        let core = core_of(
            alloc,
            rules,
            kept_entries.kept(),
            kept_entries.objects(),
            root.label.revision,
        );
        drop(kept_entries);
        drop(chosen);
        let core = core?;
        let cache = cache_of(alloc, device, root, first_keys)?;
        Ok(Paged { core, cache })
    }

    /// The objects, once the store took the writes of these payloads, which follow one another in a log. No page is read: memory has to know each key that
    /// they write, and knows after them what it knew.
    ///
    /// # Errors
    ///
    /// `Plans` where an object that is no policy has plans, `Damaged` where else no writes that may follow have these payloads, and
    /// `Memory` where there was none.
    pub fn redone(self, alloc: Global, payloads: &[Vec<u8>]) -> Result<Paged, RecoveryFault>
        ensures rules { IfOk result (λ p. p.core.rules ≡ self.core.rules) }
        ensures cache { IfOk result (λ p. p.cache ≡ self.cache) }
        ensures found { (base : List (KeyData × StoredData DecodedData)) (held : seen.View DecodedData) → Shows self.core base held
            → AllKnown self.core base (map (λ p. p.items) payloads.now)
            → IfOk result (λ p. HasRedone self.core.rules base held p.core (map (λ p. p.items) payloads.now)) }
        ensures damaged { (base : List (KeyData × StoredData DecodedData)) (held : seen.View DecodedData) → Shows self.core base held
            → AllKnown self.core base (map (λ p. p.items) payloads.now)
            → IsErrOf result RecoveryFault.Damaged ⊎ IsErrOf result RecoveryFault.Plans
            → (ws : List Write) → IsWritten self.core.rules (mapped plans_held held) ws (map (λ p. p.items) payloads.now) → ⊥ }
        ensures known { IfOk result (λ p. KnowsSame self.core p.core) }
        ensures groups { OnOk result (AllByRecursion IsOfGroup (map (λ p. p.items) payloads.now)) }
    {
        let core = redone(alloc, self.core, payloads)?;
        Ok(Paged {
            core,
            cache: self.cache,
        })
    }
}
