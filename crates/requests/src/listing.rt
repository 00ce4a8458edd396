// Lists of the objects of a collection.
ghost use Rattle.std.specs.Prelude.{◌≡◌, ◌++◌, ◌∷◌, [], codes, decimal, string_bytes, if◌then◌else◌, IfOk, OnOk};
ghost use Rattle.serde_json.specs.Data.{string, array, object, no_members, Items, item};
ghost use Rattle.serde_json.specs.View.{items_of};
ghost use Rattle.serde_json.specs.Written.{items_text};
ghost use Rattle.jsondoc.specs.Json.{text};
ghost use Rattle.names.specs.Resource.{row};
ghost use Rattle.documents.specs.Document.{object_of, shown};
ghost use Rattle.requests.specs.Selector.{selects, selector_seen};
ghost use Rattle.requests.specs.Frames.{list_frame};
ghost use Rattle.requests.specs.Listing.{shown_items, list_of, served};

use crate::reply::{Reply, put_text};
use crate::selector::Selector;
use documents::shown_text;
use histories::Stored;
use jsondoc::{Doc, comma_if};
use names::Resource;
use objects::Lent;
use std::alloc::{AllocError, Global};

/// The reply that lists those of some objects of a resource that a selector selects, at a revision.
pub fn listed<P: Drop>(
    alloc: Global,
    objects: &[Lent<'_, Stored<P>>],
    resource: Resource,
    selector: &Selector,
    revision: u64,
) -> Result<Reply, AllocError>
    ensures { IfOk result (λ r. r ≡ served (text (list_of resource revision (array (items_of (shown_items (selector_seen selector.now) objects.now)))))) }
{
    let items = items_text(alloc, objects, selector)?;
    let frame = list_frame(alloc, resource, revision)?;
    Ok(Reply::served(alloc, frame.text_with(alloc, "items", items.as_str())?))
}

// The text of the list of the objects that the selector selects, as they are shown.
fn items_text<P: Drop>(
    alloc: Global,
    objects: &[Lent<'_, Stored<P>>],
    selector: &Selector,
) -> Result<String, AllocError>
    ensures { IfOk result (λ s. string_bytes s ≡ text (array (items_of (shown_items (selector_seen selector.now) objects.now)))) }
{
    let mut out = String::from_str(alloc, "[")?;
    let mut later = false;
    for object in objects {
        later = push_shown(alloc, &mut out, later, object.value, selector)?;
    }
    out.push_str("]")?;
    Ok(out)
}

// Adds an object at the end of the text of a list, if the selector selects it. Says whether the text has items then.
fn push_shown<P: Drop>(
    alloc: Global,
    out: &mut String,
    later: bool,
    stored: &Stored<P>,
    selector: &Selector,
) -> Result<bool, AllocError>
    ensures { (rest : Items) → IfOk result (λ now. string_bytes out.new ++ items_text now rest ≡ string_bytes out.old ++ items_text later
        (if selects (selector_seen selector.now) stored.now.document then item (shown stored.now.document stored.now.revision) rest else rest)) }
{
    if !selector.selects(&stored.document) {
        return Ok(later);
    }
    let shown = shown_text(alloc, &stored.document, stored.revision)?;
    out.push_str(comma_if(later))?;
    out.push_str(shown.as_str())?;
    Ok(true)
}

// Adds the members of a list, but for its items. Separate from `list_frame`, so that no destructor is live at `?` (cheaper proof).
fn put_frame(
    document: &mut Doc,
    alloc: Global,
    resource: Resource,
    revision: u64,
) -> Result<(), AllocError>
    requires empty { document.old ≡ object no_members }
    ensures { OnOk result (document.new ≡ list_frame resource revision) }
{
    document.put(alloc, "metadata", list_metadata(alloc, revision)?)?;
    document.put(alloc, "kind", Doc::from(list_kind(alloc, resource)?))?;
    put_text(document, alloc, "apiVersion", resource.api_version())
}

// A list without its items.
fn list_frame(alloc: Global, resource: Resource, revision: u64) -> Result<Doc, AllocError>
    ensures { IfOk result (λ d. d ≡ list_frame resource revision) }
{
    let mut document = Doc::empty_object(alloc);
    put_frame(&mut document, alloc, resource, revision)?;
    Ok(document)
}

fn list_kind(alloc: Global, resource: Resource) -> Result<String, AllocError>
    ensures { IfOk result (λ kind. string_bytes kind ≡ (row resource).kind ++ codes "List") }
{
    let kind = resource.kind();
    format!(in alloc; "{kind}List")
}

fn list_metadata(alloc: Global, revision: u64) -> Result<Doc, AllocError>
    ensures { IfOk result (λ d. d ≡ object_of ((codes "resourceVersion", string (decimal revision)) ∷ [])) }
{
    let mut metadata = Doc::empty_object(alloc);
    let text = format!(in alloc; "{revision}")?;
    metadata.put(alloc, "resourceVersion", Doc::from(text))?;
    Ok(metadata)
}
