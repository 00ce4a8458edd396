ghost use Rattle.std.specs.Prelude.{◌≡◌, [], ◌∷◌, codes, IfOk};
ghost use Rattle.serde_json.specs.Data.{string};
ghost use Rattle.documents.specs.Document.{object_of};
ghost use Rattle.requests.specs.Namespaces.{namespace_document};

use crate::reply::put_text;
use jsondoc::Doc;
use std::alloc::{AllocError, Global};

/// The document of a Namespace of which only the name is told.
pub(crate) fn namespace_document(alloc: Global, name: &str) -> Result<Doc, AllocError>
    ensures { IfOk result (λ d. d ≡ (namespace_document name.now).json) }
{
    let mut document = Doc::empty_object(alloc);
    put_text(&mut document, alloc, "apiVersion", "v1")?;
    put_text(&mut document, alloc, "kind", "Namespace")?;
    document.put(alloc, "metadata", named(alloc, name)?)?;
    Ok(document)
}

fn named(alloc: Global, name: &str) -> Result<Doc, AllocError>
    ensures { IfOk result (λ d. d ≡ object_of ((codes "name", string name.now) ∷ [])) }
{
    let mut metadata = Doc::empty_object(alloc);
    put_text(&mut metadata, alloc, "name", name)?;
    Ok(metadata)
}
