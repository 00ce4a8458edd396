//! The entries of events, as a checkpoint keeps them after those of objects and plans.

ghost use Rattle.std.specs.Prelude.{◌≡◌, ◌++◌, map, OnOk};
ghost use Rattle.checkpoint.specs.EntryList.{listed};
ghost use Rattle.records.specs.Entries.{event_entry};

use documents::Document;
use records::event_entry;
use std::alloc::{AllocError, Global};
use window::Event;

/// Adds the entries of events, each after those before it.
pub(crate) fn add_events(
    alloc: Global,
    entries: &mut Vec<(Vec<u8>, Vec<u8>)>,
    events: &[&Event<Document>],
) -> Result<(), AllocError>
    ensures { OnOk result (listed entries.new.items ≡ listed entries.old.items ++ map event_entry (map (λ event. event.now) events.now)) }
{
    for event in events {
        entries.push(event_entry(alloc, event)?.into_parts())?;
    }
    Ok(())
}
