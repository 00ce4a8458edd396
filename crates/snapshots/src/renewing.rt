//! The core after a checkpoint was written.

ghost use Rattle.std.specs.Prelude.{◌≡◌, length, IfOk};
ghost use Rattle.checkpoint.specs.EntryList.{listed};
ghost use Rattle.holdings.specs.Holdings.{Shows};
ghost use Rattle.snapshots.specs.LyingBelow.{apart_of, base_of};
ghost use Rattle.snapshots.specs.Keeping.{IsHeld, held_entries};
ghost use Rattle.snapshots.specs.Restoring.{IsDamaged};

use crate::below::Below;
use crate::fault::SnapshotFault;
use crate::lent::LentView;
use crate::restoring::restored;
use crate::storing::pairs_of;
use decoded::Core;
use names::Rules;
use records::Entry;
use std::alloc::{AllocError, Global};

// Of what a checkpoint keeps, what does not lie below.
#[derive(Drop)]
struct KeptApart {
    // The entries of the objects that do not lie below, of their plans, and of the events, in their order.
    entries: Vec<Entry>,
    // How many objects lie below.
    count_below: usize,
}

/// Keys, each with what stands under it, as entries.
pub(crate) fn as_entries(
    alloc: Global,
    pairs: Vec<(Vec<u8>, Vec<u8>)>,
) -> Result<Vec<Entry>, AllocError>
    ensures { IfOk result (λ entries. entries.items ≡ listed pairs.items) }
{
    let mut entries = Vec::new(alloc);
    for (key, cell) in pairs {
        entries.push(Entry::new(key, cell))?;
    }
    Ok(entries)
}

// Of a view, what does not lie below once all of it is written: which objects do is told by their resource.
fn kept_of<B: Below>(alloc: Global, view: LentView<'_>, below: &B) -> Result<KeptApart, AllocError>
    ensures entries { IfOk result (λ kept. kept.entries.items ≡ held_entries (apart_of (B.lies below.now) view.entry)) }
    ensures count { IfOk result (λ kept. kept.count_below ≡ length (base_of (B.lies below.now) view.entry)) }
{
    let count = view.objects.len();
    let kept = view.apart(below);
    let count_below = count - kept.objects.len();
    let pairs = pairs_of(alloc, &kept)?;
    let entries = as_entries(alloc, pairs)?;
    Ok(KeptApart {
        entries,
        count_below,
    })
}

/// The core that shows a view once all of it is written as a checkpoint, by these numbers: over those of its objects that lie below then. It holds the
/// objects that do not, and of those that do none.
///
/// # Errors
///
/// `Entry` and `Plans` where it is no view that a checkpoint may keep, and `Memory` where there was none.
pub fn renewed<B: Below>(
    alloc: Global,
    rules: Rules,
    view: LentView<'_>,
    below: &B,
) -> Result<Core, SnapshotFault>
    ensures rules { IfOk result (λ next. next.rules ≡ rules) }
    ensures shows { IsHeld rules view.entry → IfOk result (λ next. Shows next (base_of (B.lies below.now) view.entry) view.entry) }
    ensures damaged { IsDamaged result → IsHeld rules view.entry → ⊥ }
{
    let revision = view.revision;
    let kept = kept_of(alloc, view, below)?;
    restored(
        alloc,
        rules,
        &kept.entries,
        below,
        kept.count_below,
        revision,
    )
}
