ghost use Rattle.std.specs.Prelude.{◌≡◌, codes, decimal, string_bytes, IfOk};
ghost use Rattle.serde_json.specs.Data.{string};
ghost use Rattle.jsondoc.specs.Json.{text, with_member};
ghost use Rattle.documents.specs.Document.{metadata_of, shown};

use crate::metadata::metadata_copy;
use crate::stored::Document;
use jsondoc::Doc;
use std::alloc::{AllocError, Global};

/// The object as it is shown: the stored document with the revision of its last write as `metadata.resourceVersion`.
/// `AllocError` when out of memory.
pub fn shown_document(alloc: Global, document: &Document, revision: u64) -> Result<Doc, AllocError>
    ensures { IfOk result (λ d. d ≡ shown document.now revision) }
{
    shown_from(alloc, document.clone()?, revision)
}

/// The object as it is shown, made of the stored document itself. `AllocError` when out of memory.
pub fn shown_from(alloc: Global, document: Document, revision: u64) -> Result<Doc, AllocError>
    ensures { IfOk result (λ d. d ≡ shown document revision) }
{
    let metadata = shown_metadata(alloc, document.json(), revision)?;
    let mut shown = document.into_json()?;
    shown.put(alloc, "metadata", metadata)?;
    Ok(shown)
}

/// The text of the object as it is shown. The document is not copied. `AllocError` when out of memory.
pub fn shown_text(alloc: Global, document: &Document, revision: u64) -> Result<String, AllocError>
    ensures { IfOk result (λ s. string_bytes s ≡ text (shown document.now revision)) }
{
    let json = document.json();
    let metadata = shown_metadata(alloc, json, revision)?.text(alloc)?;
    json.text_with(alloc, "metadata", metadata.as_str())
}

// The metadata of an object's JSON, with a revision as its `resourceVersion`.
fn shown_metadata(alloc: Global, json: &Doc, revision: u64) -> Result<Doc, AllocError>
    ensures { IfOk result (λ d. d ≡ with_member (codes "resourceVersion") (string (decimal revision)) (metadata_of json.now)) }
{
    let mut metadata = metadata_copy(json)?;
    let text = format!(in alloc; "{revision}")?;
    metadata.put(alloc, "resourceVersion", Doc::from(text))?;
    Ok(metadata)
}
