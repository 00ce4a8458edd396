//! The store of entries.

ghost use Rattle.std.specs.Prelude.{◌≡◌, ◌+◌, ◌-◌, ◌^◌, ◌<◌, ◌∷◌, [], true, ℕ, Bool, List, length, IsTrue, IfOk, OnOk, ◌↔◌};
ghost use Rattle.std.specs.FinMap.{is_sorted};
ghost use Rattle.std.specs.Ordering.{is_lt};
ghost use Rattle.names.specs.declared.format.Rules.{Rules as RulesData};
ghost use Rattle.names.specs.Key.{Key as KeyData, key_bytes, key_cmp};
ghost use Rattle.histories.specs.declared.stored.Stored.{Stored as StoredData};
ghost use Rattle.histories.specs.View.{View};
ghost use Rattle.holdings.specs.Holdings.{Shows};
ghost use Rattle.holdings.specs.Known.{IsKnown};
ghost use Rattle.snapshots.specs.KeptEntries.{chosen_of};
ghost use Rattle.decoded.specs.Decoded.{Decoded as DecodedData};
ghost use Rattle.snapshots.specs.LyingBelow.{base_of, AreChosen};
ghost use Rattle.snapshots.specs.Keeping.{held_entries, HasLastEvents, IsHeld};
ghost use Rattle.snapshots.specs.Restoring.{IsDamaged, IsHeldOf, AreHeldOf, HasTaken, AreRestored, CanKeep, IsRestored, without_events, with_events};

use crate::below::Below;
use crate::fault::SnapshotFault;
use decoded::{Core, Decoded};
use documents::Document;
use expressions::stored_plans;
use histories::Stored;
use holdings::Holdings;
use names::{Key, Rules};
use records::{Entry, KeptObject, KeptView, read_view};
use std::alloc::{AllocError, Global};
use window::Event;

// Whether the key of an object comes after that of another.
fn is_after(object: &KeptObject, before: &KeptObject) -> bool
    ensures { result ≡ is_lt (key_cmp before.now.0 object.now.0) }
{
    before.manifest.key() < object.manifest.key()
}

// Whether the keys of objects ascend.
fn ascends(objects: &[KeptObject]) -> bool
    ensures { result ≡ is_sorted key_cmp objects.now }
{
    let Some((first, rest)) = objects.split_first() else {
        return true;
    };
    let mut before = first;
    for object in rest {
        if !is_after(object, before) {
            return false;
        }
        before = object;
    }
    true
}

// What is held of an object: its document, and beside it what that spells, with the plans of these bytes.
fn stored_of(alloc: Global, object: &KeptObject) -> Result<Stored<Decoded>, SnapshotFault>
    ensures stored { IfOk result (λ s. IsHeldOf (object.now.0, s) object.now) }
    ensures damaged { IsDamaged result → (s : StoredData DecodedData) → IsHeldOf (object.now.0, s) object.now → ⊥ }
{
    let kept = object.manifest.document();
    let plans = stored_plans(
        alloc,
        object.manifest.key().resource(),
        kept.json(),
        &object.plans,
    )?;
    let document = kept.clone()?;
    let beside = Decoded::of(alloc, document.json(), plans)?;
    Ok(Stored {
        document,
        beside,
        revision: object.revision,
    })
}

// Holds what stands under a key, over what lies below: as it is, where it lies there, and else as one object more.
fn hold<B: Below>(
    alloc: Global,
    core: &mut Core,
    below: &B,
    key: &Key,
    stored: Stored<Decoded>,
) -> Result<(), AllocError>
    ensures rules { core.new.rules ≡ core.old.rules }
    ensures taken { OnOk result (HasTaken (B.lies below.now) core.old core.new (key.now, stored)) }
{
    if below.lies(key.resource()) {
        core.hold(alloc, key, Some(stored))
    } else {
        core.restore(alloc, key, stored)
    }
}

// Holds an object as entries keep it.
fn restore<B: Below>(
    alloc: Global,
    core: &mut Core,
    below: &B,
    object: &KeptObject,
) -> Result<(), SnapshotFault>
    ensures rules { core.new.rules ≡ core.old.rules }
    ensures held { OnOk result ((s : StoredData DecodedData) × IsHeldOf (object.now.0, s) object.now × HasTaken (B.lies below.now) core.old core.new (object.now.0, s)) }
    ensures damaged { IsDamaged result → (s : StoredData DecodedData) → IsHeldOf (object.now.0, s) object.now → ⊥ }
{
    let stored = stored_of(alloc, object)?;
    hold(alloc, core, below, object.manifest.key(), stored)?;
    Ok(())
}

// Holds objects whose keys ascend, where none is held.
fn restore_all<B: Below>(
    alloc: Global,
    core: &mut Core,
    below: &B,
    objects: &[KeptObject],
) -> Result<(), SnapshotFault>
    requires none { core.old.changes.made ≡ [] }
    requires ascend { IsTrue (is_sorted key_cmp objects.now) }
    ensures rules { core.new.rules ≡ core.old.rules }
    ensures held { OnOk result (AreRestored (B.lies below.now) core.old core.new objects.now) }
    ensures damaged { IsDamaged result → (os : List (KeyData × StoredData DecodedData)) → AreHeldOf os objects.now → ⊥ }
{
    for object in objects {
        restore(alloc, core, below, object)?;
    }
    Ok(())
}

// Keeps events as they were, after those that are shown.
fn keep_all(core: &mut Core, events: Vec<Event<Document>>)
    requires { core.old.revision + length events.items < 2 ^ 64 }
    ensures rules { core.new.rules ≡ core.old.rules }
    ensures changes { core.new.changes ≡ core.old.changes }
    ensures shows { (base : List (KeyData × StoredData DecodedData)) (v : View DecodedData) → CanKeep core.old base v events.items
        → Shows core.new base (with_events v events.items) }
{
    for event in events {
        core.keep(event);
    }
}

// Whether there is an event for each of the last writes above the floor.
fn has_last_events(rules: Rules, view: &KeptView) -> bool
    ensures { IsTrue result ↔ HasLastEvents rules view.now }
{
    let writes = view.revision.saturating_sub(rules.floor.max(1));
    0 < view.revision && view.events.len() as u64 == writes.min(rules.window_events as u64)
}

// Nothing is held yet, over this many objects that lie below, at the revision before the first event of a view: its keys ascend, and it has the events
// of its last writes.
fn core_without_events(
    alloc: Global,
    rules: Rules,
    view: &KeptView,
    count: usize,
) -> Result<Core, SnapshotFault>
    ensures rules { IfOk result (λ core. core.rules ≡ rules) }
    ensures revision { IfOk result (λ core. core.revision ≡ view.now.revision - length view.now.events) }
    ensures none { IfOk result (λ core. core.changes.made ≡ []) }
    ensures shows { (base : List (KeyData × StoredData DecodedData)) → IsTrue (is_sorted key_cmp base) → length base ≡ count
        → IfOk result (λ core. Shows core base (without_events base view.now)) }
    ensures ascends { OnOk result (IsTrue (is_sorted key_cmp view.now.objects)) }
    ensures last { OnOk result (HasLastEvents rules view.now) }
    ensures damaged { IsDamaged result → IsTrue (is_sorted key_cmp view.now.objects) → HasLastEvents rules view.now → ⊥ }
{
    if !ascends(&view.objects) || !has_last_events(rules, view) {
        return Err(SnapshotFault::Entry);
    }
    let first = view.revision - view.events.len() as u64;
    Ok(Holdings::over(alloc, rules, first, count)?)
}

/// The core that shows what a checkpoint keeps, at a revision, over those of its objects that lie below, given how many objects lie in the pages.
/// It holds what these entries keep: all of it, or the part of it that is chosen, with each object that does not lie below. It knows each object that is chosen.
///
/// # Errors
///
/// `Entry` where no view that can be kept has these entries, `Plans` where else an object that is no policy has plans, and
/// `Memory` where there was none.
pub fn restored<B: Below>(
    alloc: Global,
    rules: Rules,
    kept: &[Entry],
    below: &B,
    count: usize,
    revision: u64,
) -> Result<Core, SnapshotFault>
    ensures rules { IfOk result (λ core. core.rules ≡ rules) }

    // Where a view may be kept: it is shown over what lies below of it, and memory knows what is chosen.
    ensures shows { (held : View DecodedData) (chosen : List ℕ → Bool) → IsHeld rules held → AreChosen (B.lies below.now) chosen held
        → kept.now ≡ held_entries (chosen_of chosen held) → held.revision ≡ revision → length (base_of (B.lies below.now) held) ≡ count
        → IfOk result (λ core. Shows core (base_of (B.lies below.now) held) held
        × ((k : KeyData) → chosen (1 ∷ key_bytes k) ≡ true → IsKnown core (base_of (B.lies below.now) held) k)) }
    ensures damaged { IsDamaged result → (held : View DecodedData) (chosen : List ℕ → Bool) → IsHeld rules held → AreChosen (B.lies below.now) chosen held
        → kept.now ≡ held_entries (chosen_of chosen held) → held.revision ≡ revision → length (base_of (B.lies below.now) held) ≡ count → ⊥ }

    // And whatever the entries.
    ensures restored { IfOk result (IsRestored rules (B.lies below.now) kept.now count revision) }
{
    let view = read_view(alloc, kept, revision)?;
    let mut core = core_without_events(alloc, rules, &view, count)?;
    let KeptView {
        objects,
        events,
        ..
    } = view;
    keep_all(&mut core, events);
    restore_all(alloc, &mut core, below, &objects)?;
    Ok(core)
}
