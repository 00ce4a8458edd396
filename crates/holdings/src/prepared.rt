//! Writes that have all their memory.

ghost use Rattle.std.specs.Prelude.{◌≡◌, Some, None, IfOk};
ghost use Rattle.jsondoc.specs.Json.{text};

use documents::Document;
use histories::Stored;
use names::Key;
use objects::KeyValue;
use std::alloc::{AllocError, Global};
use std::marker::Model;
use window::Change;

/// A document that is to be put, with all the memory that this takes.
#[derive(Drop)]
#[must_use]
pub struct Put<P> {
    entry: KeyValue<Option<Stored<P>>>,
    key: Key,
    document: Document,
    text: String,
    change: Change,
}

impl<P> Model for Put<P> {
    ghost use Rattle.holdings.specs.Writes.{Put as PutData};

    ghost Value = { PutData P };

    ghost use Rattle.std.specs.Coded.{codes};
    ghost use Rattle.jsondoc.specs.DataCode.{coded_data};

    ghost coded = { Prim.hlevel (codes, coded_data) };

    ghost use Rattle.std.specs.Prelude.{◌≡◌, string_bytes, option_map, Some};
    ghost use Rattle.jsondoc.specs.Json.{text as text_of};

    ghost view = { λ p. record { key = p.key; stored = p.entry.1; change = p.change } };

    ghost invariant = { λ p. (p.entry.0 ≡ p.key) × (option_map (λ s. s.document) p.entry.1 ≡ Some p.document) × (string_bytes p.text ≡ text_of p.document.json) };
}

impl<P: Drop> Put<P> {
    ghost use Rattle.std.specs.Prelude.{option_map};

    /// Takes the memory of a put.
    pub(crate) fn new(
        alloc: Global,
        key: &Key,
        document: &Document,
        document_text: &str,
        beside: P,
        revision: u64,
        change: Change,
    ) -> Result<Put<P>, AllocError>
        requires { document_text.now ≡ text document.now.json }
        ensures { IfOk result (λ p. p ≡ record { key = key.now; stored = Some (record { document = document.now; beside = beside; revision = revision }); change = change }) }
    {
        let stored = Stored {
            document: document.clone()?,
            beside,
            revision,
        };
        let entry = KeyValue::new(alloc, key.clone()?, Some(stored))?;
        Ok(Put {
            entry,
            key: key.clone()?,
            document: document.clone()?,
            text: String::from_str(alloc, document_text)?,
            change,
        })
    }

    /// The key of the object.
    pub fn key(&self) -> &Key
        ensures { result.now ≡ self.now.key }
    {
        &self.key
    }

    /// What is to stand under it.
    pub fn stored(&self) -> &Option<Stored<P>>
        ensures { result.now ≡ self.now.stored }
    {
        self.entry.value()
    }

    /// What is to stand beside it.
    pub fn beside(&self) -> &P
        ensures { Some result.now ≡ option_map (λ s. s.beside) self.now.stored }
    {
        match self.entry.value() {
            Some(stored) => &stored.beside,
            None => unreachable!("a document is to stand under the key of a put"),
        }
    }

    /// The text of the document.
    pub fn text(&self) -> &str
        ensures { Some result.now ≡ option_map (λ s. text s.document.json) self.now.stored }
    {
        &self.text
    }

    /// The change, and the kind, the key and the document for the window.
    pub(crate) fn into_parts(self) -> (KeyValue<Option<Stored<P>>>, Change, Key, Document)
        ensures entry { result.0 ≡ (self.key, self.stored) }
        ensures change { result.1 ≡ self.change }
        ensures key { result.2 ≡ self.key }
        ensures document { Some result.3 ≡ option_map (λ s. s.document) self.stored }
    {
        let Put {
            entry,
            key,
            document,
            change,
            ..
        } = self;
        (entry, change, key, document)
    }
}

/// An object that is to be deleted, with all the memory that this takes.
#[derive(Drop)]
#[must_use]
pub struct Deletion<P> {
    entry: KeyValue<Option<Stored<P>>>,
    key: Key,
    document: Document,
}

impl<P> Model for Deletion<P> {
    ghost use Rattle.holdings.specs.Writes.{Deletion as DeletionData};

    ghost Value = { DeletionData };

    ghost use Rattle.std.specs.Coded.{codes};
    ghost use Rattle.jsondoc.specs.DataCode.{coded_data};

    ghost coded = { Prim.hlevel (codes, coded_data) };

    ghost use Rattle.std.specs.Prelude.{◌≡◌, None};

    ghost view = { λ d. record { key = d.key; document = d.document } };

    ghost invariant = { λ d. d.entry ≡ (d.key, None) };
}

impl<P: Drop> Deletion<P> {
    /// Takes the memory of a deletion, which removes this document.
    pub(crate) fn new(
        alloc: Global,
        key: &Key,
        document: Document,
    ) -> Result<Deletion<P>, AllocError>
        ensures { IfOk result (λ d. d ≡ record { key = key.now; document = document }) }
    {
        let entry = KeyValue::new(alloc, key.clone()?, None)?;
        Ok(Deletion {
            entry,
            key: key.clone()?,
            document,
        })
    }

    /// The key of the object.
    pub fn key(&self) -> &Key
        ensures { result.now ≡ self.now.key }
    {
        &self.key
    }

    /// The document that is removed.
    pub fn document(&self) -> &Document
        ensures { result.now ≡ self.now.document }
    {
        &self.document
    }

    /// The change, and the key and the document for the window.
    pub(crate) fn into_parts(self) -> (KeyValue<Option<Stored<P>>>, Key, Document)
        ensures entry { result.0 ≡ (self.key, None) }
        ensures key { result.1 ≡ self.key }
        ensures document { result.2 ≡ self.document }
    {
        let Deletion {
            entry,
            key,
            document,
        } = self;
        (entry, key, document)
    }
}

/// A write that has all its memory, and all that it needs to know of what is stored.
#[derive(Drop)]
#[must_use]
pub enum PreparedWrite<P> {
    /// A document is put at its key.
    Put(Put<P>),
    /// The object with this key is deleted.
    Delete(Deletion<P>),
}
