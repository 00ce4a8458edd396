ghost use Rattle.std.specs.Prelude.{◌≡◌, IfOk};

use jsondoc::Doc;
use std::alloc::{AllocError, Global};
use std::marker::Model;
use std::rc::Rc;

/// What is stored of an object. Its copies share it.
#[derive(Drop)]
pub struct Document {
    json: Rc<Doc>,
}

impl Model for Document {
    ghost use Rattle.documents.specs.Document.{Document as DocumentData};
    ghost use Rattle.documents.specs.DocumentCode.{coded_document};

    ghost Value = { DocumentData };

    ghost coded = { coded_document };

    ghost view = { λ d. record { json = d.json.value } };
}

impl Document {
    /// The document of an object's JSON. `AllocError` when out of memory.
    pub fn new(alloc: Global, json: Doc) -> Result<Document, AllocError>
        ensures { IfOk result (λ d. d ≡ record { json = json }) }
    {
        Ok(Document {
            json: Rc::new(alloc, json)?,
        })
    }

    /// The object's JSON.
    pub fn json(&self) -> &Doc
        ensures { result.now ≡ self.now.json }
    {
        self.json.as_ref()
    }

    /// The object's JSON, taken out. Where other copies share it, it is copied. `AllocError` when out of memory.
    pub fn into_json(self) -> Result<Doc, AllocError>
        ensures { IfOk result (λ d. d ≡ self.json) }
    {
        let Document { json } = self;
        Rc::unwrap_or_clone(json)
    }
}

impl Clone for Document {
    ghost is_clone = { λ d copy. copy ≡ d };

    fn clone(&self) -> Result<Document, AllocError> {
        let json = self.json.clone()?;
        Ok(Document { json })
    }
}
