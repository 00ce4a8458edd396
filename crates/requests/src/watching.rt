// The events of a collection, as a watch tells them.
ghost use Rattle.std.specs.Prelude.{◌≡◌, ◌++◌, ◌∷◌, [], codes, string_bytes, if◌then◌else◌, IfOk, OnOk};
ghost use Rattle.serde_json.specs.Data.{string};
ghost use Rattle.jsondoc.specs.Json.{text};
ghost use Rattle.documents.specs.Document.{object_of};
ghost use Rattle.requests.specs.Collection.{collection_of};
ghost use Rattle.requests.specs.Listing.{change_text, event_document, line_feed, lines_of, served};

use crate::collection::Collection;
use crate::reply::{Reply, put_text};
use documents::{Document, shown_text};
use jsondoc::Doc;
use std::alloc::{AllocError, Global};
use window::{Change, Event, Events};

/// The reply that tells those of some events that are of a collection, in order.
pub fn told(
    alloc: Global,
    collection: &Collection,
    events: Events<'_, Document>,
) -> Result<Reply, AllocError>
    ensures { IfOk result (λ r. r ≡ served (lines_of (collection_of collection.now) events.entry)) }
{
    Ok(Reply::served(alloc, lines_of(alloc, collection, events)?))
}

// The lines of a collection's events.
fn lines_of(
    alloc: Global,
    collection: &Collection,
    events: Events<'_, Document>,
) -> Result<String, AllocError>
    ensures { IfOk result (λ lines. string_bytes lines ≡ lines_of (collection_of collection.now) events.entry) }
{
    let mut lines = String::new(alloc);
    for event in events {
        add_line_in(alloc, collection, &mut lines, event)?;
    }
    Ok(lines)
}

// Adds the line of an event, if its key is that of an object of the collection.
fn add_line_in(
    alloc: Global,
    collection: &Collection,
    lines: &mut String,
    event: &Event<Document>,
) -> Result<(), AllocError>
    ensures { OnOk result (string_bytes lines.new ≡
        string_bytes lines.old ++ lines_of (collection_of collection.now) (event.now ∷ [])) }
{
    if collection.has_key(&event.key) {
        add_line(alloc, lines, event)
    } else {
        Ok(())
    }
}

// Adds the line of an event.
fn add_line(alloc: Global, lines: &mut String, event: &Event<Document>) -> Result<(), AllocError>
    ensures { OnOk result (string_bytes lines.new ≡
        string_bytes lines.old ++ (text (event_document event.now) ++ line_feed ∷ [])) }
{
    let text = event_text(alloc, event)?;
    lines.push_str(text.as_str())?;
    lines.push('\n')
}

// The text of an event as a watch tells it.
fn event_text(alloc: Global, event: &Event<Document>) -> Result<String, AllocError>
    ensures { IfOk result (λ s. string_bytes s ≡ text (event_document event.now)) }
{
    let shown = shown_text(alloc, &event.document, event.revision)?;
    let kind = kind_document(alloc, event.change)?;
    kind.text_with(alloc, "object", shown.as_str())
}

// An event as a watch tells it, without its object.
fn kind_document(alloc: Global, change: Change) -> Result<Doc, AllocError>
    ensures { IfOk result (λ d. d ≡ object_of ((codes "type", string (change_text change)) ∷ [])) }
{
    let mut document = Doc::empty_object(alloc);
    put_text(&mut document, alloc, "type", change_text(change))?;
    Ok(document)
}

fn change_text(change: Change) -> &'static str
    ensures { result.now ≡ change_text change }
{
    match change {
        Change::Added => "ADDED",
        Change::Modified => "MODIFIED",
        Change::Deleted => "DELETED",
    }
}
