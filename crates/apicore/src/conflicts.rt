// Whether a request asks for another revision than that of the object which is stored.
ghost use Rattle.std.specs.Prelude.{◌≡◌, IfOk, option_map, string_bytes};
ghost use Rattle.apicore.specs.Conditions.{update_conflicts_at, deletion_conflicts_at};

use requests::{Manifest, is_text_of};
use std::alloc::{AllocError, Global};

/// Whether the manifest asks for another revision than this one.
pub(crate) fn update_conflicts(
    alloc: Global,
    manifest: &Manifest,
    revision: u64,
) -> Result<bool, AllocError>
    ensures { IfOk result (λ b. b ≡ update_conflicts_at revision manifest.now.version) }
{
    match manifest.version() {
        Some(text) if text.is_empty() => Ok(false),
        Some(text) => Ok(!is_text_of(alloc, text, revision)?),
        None => Ok(false),
    }
}

/// Whether another revision than this one is asked for.
pub(crate) fn deletion_conflicts(
    alloc: Global,
    version: &Option<String>,
    revision: u64,
) -> Result<bool, AllocError>
    ensures { IfOk result (λ b. b ≡ deletion_conflicts_at revision (option_map string_bytes version.now)) }
{
    match version {
        Some(text) => Ok(!is_text_of(alloc, text.as_str(), revision)?),
        None => Ok(false),
    }
}
