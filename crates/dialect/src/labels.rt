//! The label that a Namespace has of its own name.

ghost use Rattle.std.specs.Prelude.{◌≡◌, IfOk, OnOk, codes, false, option_and_then, option_map, string_bytes};
ghost use Rattle.std.specs.Option.{option_map_or};
ghost use Rattle.serde_json.specs.Find.{as_str, get};
ghost use Rattle.serde_json.specs.View.{view};
ghost use Rattle.names.specs.declared.resource.Resource.TheVariants.{Namespace};
ghost use Rattle.documents.specs.Document.{has_text, metadata_text};
ghost use Rattle.dialect.specs.Labels.{labelled, labelled_by, labels_in, lacks_its_label, lacks_label, name_label, with_label};

use documents::{metadata_copy, metadata_text};
use jsondoc::{Doc, Value};
use names::Resource;
use std::alloc::{AllocError, Global};

// Whether labels have the one of this name.
fn has_label(name: &str, labels: &Value) -> bool
    ensures { result ≡ has_text name_label name.now (view labels.now) }
{
    match labels.get("kubernetes.io/metadata.name") {
        Some(value) => match value.as_str() {
            Some(text) => name == text,
            None => false,
        },
        None => false,
    }
}

// Whether metadata may have labels, and lacks the one of this name.
fn lacks_label(name: &str, metadata: &Value) -> bool
    ensures { result ≡ lacks_label name.now (view metadata.now) }
{
    match metadata.get("labels") {
        Some(labels) => labels.as_object().is_some() && !has_label(name, labels),
        None => true,
    }
}

// Whether metadata has a name and lacks the label of it.
fn lacks_label_of_name(metadata: &Value) -> bool
    ensures { result ≡ option_map_or (λ name. lacks_label name (view metadata.now)) (option_and_then as_str (get (codes "name") (view metadata.now))) false }
{
    match metadata.get("name") {
        Some(name) => match name.as_str() {
            Some(text) => lacks_label(text, metadata),
            None => false,
        },
        None => false,
    }
}

// Whether the object of a Namespace lacks its label.
fn namespace_lacks_label(document: &Doc) -> bool
    ensures { result ≡ lacks_its_label Namespace document.now }
{
    match document.get("metadata") {
        Some(metadata) => lacks_label_of_name(metadata),
        None => false,
    }
}

/// Whether the object of a resource is a Namespace that lacks the label of its name.
pub(crate) fn lacks_its_label(resource: Resource, document: &Doc) -> bool
    ensures { result ≡ lacks_its_label resource document.now }
{
    match resource {
        Resource::Namespace => namespace_lacks_label(document),
        _ => false,
    }
}

// The labels in metadata, copied.
fn labels_in(alloc: Global, metadata: &Doc) -> Result<Doc, AllocError>
    ensures { IfOk result (λ labels. labels ≡ labels_in metadata.now) }
{
    match metadata.get("labels") {
        Some(labels) => Doc::copy_of(labels),
        None => Ok(Doc::empty_object(alloc)),
    }
}

// Puts the label of a name into metadata.
fn put_in_metadata(alloc: Global, name: &str, metadata: &mut Doc) -> Result<(), AllocError>
    ensures { OnOk result (metadata.new ≡ with_label name.now metadata.old) }
{
    let mut labels = labels_in(alloc, metadata)?;
    let value = Doc::from(String::from_str(alloc, name)?);
    labels.put(alloc, "kubernetes.io/metadata.name", value)?;
    metadata.put(alloc, "labels", labels)
}

// Puts the label of a name into an object that lacks it.
fn put_label_of(alloc: Global, name: &str, document: &mut Doc) -> Result<(), AllocError>
    ensures { OnOk result (document.new ≡ labelled_by name.now document.old) }
{
    let mut metadata = metadata_copy(document)?;
    if !lacks_label(name, metadata.value()) {
        return Ok(());
    }
    put_in_metadata(alloc, name, &mut metadata)?;
    document.put(alloc, "metadata", metadata)
}

// A copy of the name in an object's metadata.
fn name_in(alloc: Global, document: &Doc) -> Result<Option<String>, AllocError>
    ensures { IfOk result (λ name. option_map string_bytes name ≡ metadata_text (codes "name") document.now) }
{
    match metadata_text(document, "name") {
        Some(name) => Ok(Some(String::from_str(alloc, name)?)),
        None => Ok(None),
    }
}

// Puts the label of its name into the object of a Namespace that lacks it.
fn label_namespace(alloc: Global, document: &mut Doc) -> Result<(), AllocError>
    ensures { OnOk result (document.new ≡ labelled Namespace document.old) }
{
    match name_in(alloc, document)? {
        Some(name) => put_label_of(alloc, &name, document),
        None => Ok(()),
    }
}

/// Puts the label of its name into the object of a resource, where it is a Namespace that lacks it. A value of that label that the object has is
/// overwritten. An object whose metadata has no name, or labels that are no object, stays as it is.
pub(crate) fn put_label(
    alloc: Global,
    resource: Resource,
    document: &mut Doc,
) -> Result<(), AllocError>
    ensures { OnOk result (document.new ≡ labelled resource document.old) }
{
    match resource {
        Resource::Namespace => label_namespace(alloc, document),
        _ => Ok(()),
    }
}
