//! The next checkpoint of what is held over cells in pages: where an object has no change, its cell is handed on.

ghost use Rattle.std.specs.Prelude.{◌≡◌, ◌++◌, not, List, length, IfOk, OnOk};
ghost use Rattle.std.specs.List.{filter};
ghost use Rattle.checkpoint.specs.EntryList.{entries_of as in_list};
ghost use Rattle.chunks.specs.Chunks.{cut};
ghost use Rattle.names.specs.Key.{Key as KeyData};
ghost use Rattle.objects.specs.Steps.{put_by, puts_of};
ghost use Rattle.handing.specs.Cells.{cells_in, stored_cells};
ghost use Rattle.histories.specs.declared.stored.Stored.{Stored as StoredData};
ghost use Rattle.histories.specs.View.{View};
ghost use Rattle.holdings.specs.Holdings.{Shows};
ghost use Rattle.decoded.specs.Decoded.{Decoded as DecodedData};
ghost use Rattle.snapshots.specs.HandedOn.{AllLie, LieWithoutPlans};
ghost use Rattle.snapshots.specs.Keeping.{IsHeld, held_entries};
ghost use Rattle.snapshots.specs.LyingBelow.{apart_of, base_of};
ghost use Rattle.snapshots.specs.Restoring.{IsDamaged};

use crate::below::Below;
use crate::event_entries::add_events;
use crate::fault::SnapshotFault;
use crate::lent::{LentView, lent_events};
use crate::renewing::as_entries;
use crate::restoring::restored;
use crate::storing::{add_all_plans, pairs_of};
use checkpoint::EntryList;
use chunks::all_cut;
use decoded::{Core, Decoded};
use handing::merged_entries;
use histories::Stored;
use names::{Format, Key, Rules};
use objects::{KeyValue, Lent};
use std::alloc::{AllocError, Global};

// Lends what a change put, where it does not lie below once it is written.
fn lend_apart<'a, B: Below>(
    lent: &mut Vec<Lent<'a, Stored<Decoded>>>,
    change: &'a KeyValue<Option<Stored<Decoded>>>,
    below: &B,
) -> Result<(), AllocError>
    ensures { OnOk result (lent.new.items ≡ lent.old.items ++ filter (λ o. not (B.lies below.now o.0.resource)) (put_by change.now)) }
{
    let key = change.key();
    if let Some(value) = change.value() {
        if !below.lies(key.resource()) {
            lent.push(Lent { key, value })?;
        }
    }
    Ok(())
}

// Lends what changes put, but what lies below once it is written.
fn lent_apart<'a, B: Below>(
    alloc: Global,
    changes: &'a [KeyValue<Option<Stored<Decoded>>>],
    below: &B,
) -> Result<Vec<Lent<'a, Stored<Decoded>>>, AllocError>
    ensures { IfOk result (λ lent. lent.items ≡ filter (λ o. not (B.lies below.now o.0.resource)) (puts_of changes.now)) }
{
    let mut lent = Vec::new(alloc);
    for change in changes {
        lend_apart(&mut lent, change, below)?;
    }
    Ok(lent)
}

/// Of what the core shows, what does not lie below once all of it is written. Of what lies below now nothing does not. No object is copied.
///
/// # Errors
///
/// Out of memory.
pub fn shown_apart<'a, B: Below>(
    alloc: Global,
    core: &'a Core,
    below: &B,
) -> Result<LentView<'a>, AllocError>
    ensures { (base : List (KeyData × StoredData DecodedData)) (held : View DecodedData) → AllLie (B.lies below.now) base → Shows core.now base held
        → IfOk result (λ view. view ≡ apart_of (B.lies below.now) held) }
{
    let objects = lent_apart(alloc, core.changes(), below)?;
    let events = lent_events(alloc, core.events())?;
    Ok(LentView {
        objects,
        events,
        revision: core.revision(),
    })
}

/// The entries of what the core shows over the objects with these cells, as the pages of a format have them. Where an object has no change, its cell is handed
/// on, and no document is made text. What does not lie below once all is written is given.
///
/// # Errors
///
/// Out of memory.
pub fn handed_on<B: Below>(
    alloc: Global,
    format: Format,
    core: &Core,
    cells: Vec<(Key, Vec<u8>)>,
    apart: &LentView<'_>,
    below: &B,
) -> Result<EntryList, AllocError>
    ensures { (base : List (KeyData × StoredData DecodedData)) (held : View DecodedData) → LieWithoutPlans (B.lies below.now)
        → cells_in cells.items ≡ stored_cells base → Shows core.now base held → apart.now ≡ apart_of (B.lies below.now) held
        → IfOk result (λ list. in_list list ≡ cut format (held_entries held)) }
{
    let mut pairs = merged_entries(alloc, core.changes(), cells)?;
    add_all_plans(alloc, &mut pairs, &apart.objects)?;
    add_events(alloc, &mut pairs, &apart.events)?;
    Ok(EntryList::new(all_cut(alloc, format, pairs)?))
}

/// What [`crate::renewed`] gives of a view with this many objects, of which this part does not lie below.
///
/// # Errors
///
/// Those of [`crate::renewed`].
pub fn renewed_apart<B: Below>(
    alloc: Global,
    rules: Rules,
    apart: LentView<'_>,
    object_count: usize,
    below: &B,
) -> Result<Core, SnapshotFault>
    ensures rules { IfOk result (λ next. next.rules ≡ rules) }
    ensures shows { (held : View DecodedData) → IsHeld rules held → apart.entry ≡ apart_of (B.lies below.now) held → object_count ≡ length held.objects
        → IfOk result (λ next. Shows next (base_of (B.lies below.now) held) held) }
    ensures damaged { IsDamaged result → (held : View DecodedData) → IsHeld rules held → apart.entry ≡ apart_of (B.lies below.now) held
        → object_count ≡ length held.objects → ⊥ }
{
    let revision = apart.revision;
    let count_below = object_count.saturating_sub(apart.objects.len());
    let pairs = pairs_of(alloc, &apart)?;
    let entries = as_entries(alloc, pairs)?;
    restored(alloc, rules, &entries, below, count_below, revision)
}
