//! The view that entries keep.

use documents::Document;
use requests::Manifest;
use std::marker::Model;
use window::Event;

/// An object as entries keep it, with the bytes of its plans, which are none but for a policy.
#[derive(Drop)]
pub struct KeptObject {
    pub manifest: Manifest,
    pub plans: Vec<u8>,
    /// That of its last write.
    pub revision: u64,
}

impl Model for KeptObject {
    ghost use Rattle.std.specs.Prelude.{ℕ, List};
    ghost use Rattle.names.specs.Key.{Key as KeyData};
    ghost use Rattle.requests.specs.Codes.{document_in};
    ghost use Rattle.histories.specs.declared.stored.Stored.{Stored};

    ghost Value = { KeyData × Stored (List ℕ) };

    ghost use Rattle.std.specs.Coded.{codes};
    ghost use Rattle.jsondoc.specs.DataCode.{coded_data};

    ghost coded = { Prim.hlevel (codes, coded_data) };

    ghost view = { λ o. (o.manifest.key, record { document = document_in o.manifest.body; beside = o.plans.items; revision = o.revision }) };
}

/// A view as entries keep it.
#[derive(Drop)]
pub struct KeptView {
    /// Ascending by key.
    pub objects: Vec<KeptObject>,
    pub revision: u64,
    /// The last events, oldest first.
    pub events: Vec<Event<Document>>,
}

impl Model for KeptView {
    ghost use Rattle.std.specs.Prelude.{ℕ, List};
    ghost use Rattle.histories.specs.View.{View};

    ghost Value = { View (List ℕ) };

    ghost use Rattle.std.specs.Coded.{codes};
    ghost use Rattle.jsondoc.specs.DataCode.{coded_data};

    ghost coded = { Prim.hlevel (codes, coded_data) };

    ghost view = { λ v. record { objects = v.objects.items; revision = v.revision; events = v.events.items } };
}
