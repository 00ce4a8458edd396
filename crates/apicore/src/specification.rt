//! What the document of a request spells.

ghost use Rattle.std.specs.Prelude.{◌≡◌, IfOk};
ghost use Rattle.celtree.specs.Tree.{Expr};
ghost use Rattle.requests.specs.Codes.{document_in};
ghost use Rattle.expressions.specs.Specification.{Specification as SpecificationOf, compiled, specification_seen};
ghost use Rattle.apicore.specs.Read.{IsRead};

use expressions::{Specification, specification_of};
use names::Format;
use requests::Manifest;
use std::alloc::{AllocError, Global};

/// What stands in the document of a manifest, as a format has it.
///
/// # Errors
///
/// Out of memory.
#[tactic(auto, using(crate::proofs::Read::found_of))]
pub(crate) fn specified(
    alloc: Global,
    format: Format,
    manifest: &Manifest,
) -> Result<Specification, AllocError>
    ensures { IfOk result (λ found. (s : SpecificationOf Expr) × IsRead format manifest.now.key.resource (document_in manifest.now.body).json s
        × (specification_seen found ≡ compiled (document_in manifest.now.body).json s)) }
{
    let document = manifest.document().json();
    specification_of(alloc, format, manifest.key().resource(), document)
}
