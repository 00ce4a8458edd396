//! A put and a deletion, with what stays the same while their steps are prepared.

use holdings::FoundDocument;
use jsondoc::Doc;
use names::Key;
use requests::Manifest;
use std::alloc::Global;

/// What a put does at its key.
#[derive(Clone, Copy)]
pub enum Put {
    /// It creates an object where there is none.
    Creates,
    /// It replaces the object that is there.
    Replaces,
}

/// The manifest of a put, at a place that takes it.
#[derive(Clone, Copy)]
pub(crate) struct PlacedManifest<'x> {
    /// Where the memory of the step comes from.
    pub alloc: Global,
    /// What is put.
    pub manifest: &'x Manifest,
    /// The Namespace that it stands in, as it is shown, if it is there.
    pub namespace: &'x Option<Doc>,
}

/// A replacement of an object that was found.
#[derive(Clone, Copy)]
pub(crate) struct Replacement<'x> {
    /// What replaces it.
    pub placed: &'x PlacedManifest<'x>,
    /// What was found at its key.
    pub found: &'x FoundDocument,
}

/// A deletion, as it is asked for.
#[derive(Clone, Copy)]
pub(crate) struct AskedDeletion<'x> {
    /// Where the memory of the step comes from.
    pub alloc: Global,
    /// The key of its object.
    pub key: &'x Key,
    /// The revision that the object must have, if one is asked for.
    pub version: &'x Option<String>,
}
