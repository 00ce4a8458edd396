//! Lines on the views that entries keep.

use crate::entry_lines::check_written;
use cases::Wrong;
use diskcases::Line;
use histories::Stored;
use holdings::Holdings;
use names::{Format, Key};
use records::{Entry, KeptObject, KeptView, event_entry, object_entry, plan_entries, read_view};
use std::alloc::{AllocError, Global};

// Entries, with ` | ` between them; none where the rest is empty.
fn entries_of(alloc: Global, line: &mut Line<'_>) -> Vec<Entry> {
    let mut entries = Vec::new(alloc);
    if line.rest.is_empty() {
        return entries;
    }
    for one in &line.parts(alloc, line.rest, " | ") {
        if entries.push(line.entry(alloc, one)).is_err() {
            line.fail(Wrong::Memory);
        }
    }
    entries
}

// Holds an object of a view.
fn hold(
    alloc: Global,
    holdings: &mut Holdings<Vec<u8>>,
    object: KeptObject,
) -> Result<(), AllocError> {
    let KeptObject {
        manifest,
        plans,
        revision,
    } = object;
    let stored = Stored {
        document: manifest.document().clone()?,
        beside: plans,
        revision,
    };
    holdings.restore(alloc, manifest.key(), stored)
}

// Holds the objects of a view, and keeps its events.
fn fill(alloc: Global, holdings: &mut Holdings<Vec<u8>>, view: KeptView, line: &mut Line<'_>) {
    for object in view.objects {
        if hold(alloc, holdings, object).is_err() {
            line.fail(Wrong::Memory);
        }
    }
    for event in view.events {
        if holdings.revision() < view.revision {
            holdings.keep(event);
        } else {
            line.refuse("too many events");
        }
    }
}

// Asks that the first of these entries is written, and gives those after it.
fn after<'a>(
    entries: &'a [Entry],
    written: Result<Entry, AllocError>,
    line: &mut Line<'_>,
) -> &'a [Entry] {
    match entries.split_first() {
        Some((entry, rest)) => {
            check_written(written, entry, line);
            rest
        }
        None => {
            line.refuse("what is held has more entries");
            entries
        }
    }
}

// The same of the pieces of plans.
fn after_plans<'a>(
    alloc: Global,
    entries: &'a [Entry],
    policy: &Key,
    plans: &[u8],
    line: &mut Line<'_>,
) -> &'a [Entry] {
    if plans.len() > 1 << 30 {
        line.refuse("too many plans");
        return entries;
    }
    let Ok(pieces) = plan_entries(alloc, policy, plans) else {
        line.fail(Wrong::Memory);
        return entries;
    };
    let mut rest = entries;
    for piece in pieces {
        rest = after(rest, Ok(piece), line);
    }
    rest
}

// Asks that these are the entries of what is held and kept.
fn check_entries(
    alloc: Global,
    holdings: &Holdings<Vec<u8>>,
    entries: &[Entry],
    line: &mut Line<'_>,
) {
    let Ok(objects) = holdings.objects(alloc, &[]) else {
        return line.fail(Wrong::Memory);
    };
    let mut rest = entries;
    for object in &objects {
        let stored = object.value;
        let written = object_entry(alloc, object.key, &stored.document, stored.revision);
        rest = after(rest, written, line);
    }
    for object in &objects {
        rest = after_plans(alloc, rest, object.key, &object.value.beside, line);
    }
    for event in holdings.events() {
        rest = after(rest, event_entry(alloc, event), line);
    }
    if !rest.is_empty() {
        line.refuse("what is held has fewer entries");
    }
}

fn show_view(alloc: Global, view: KeptView, entries: &[Entry], line: &mut Line<'_>) {
    let first = view.revision.saturating_sub(view.events.len() as u64);
    if first == 0 {
        return line.refuse("a view has as many events as revisions");
    }
    let Ok(mut holdings) = Holdings::over(alloc, Format::First.rules(0), first, 0) else {
        return line.fail(Wrong::Memory);
    };
    fill(alloc, &mut holdings, view, line);
    check_entries(alloc, &holdings, entries, line);
    line.show(&holdings.revision());
    line.answer.word("objects");
    line.show(&holdings.object_count());
}

/// `reads-view REVISION KEY ; CELL | ..`: the revision and the number of objects of the view whose entries these are, and that what is held of it has the
/// same entries.
pub fn reads_view(alloc: Global, line: &mut Line<'_>) {
    let revision = line.number();
    let entries = entries_of(alloc, line);
    match read_view(alloc, &entries, revision) {
        Ok(view) => show_view(alloc, view, &entries, line),
        Err(fault) => line.show(&fault),
    }
}
