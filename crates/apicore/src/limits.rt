//! The rules of the store, which refuse a write before the policies are asked.

ghost use Rattle.std.specs.Prelude.{◌≡◌, ◌<◌, List, None, option_map};
ghost use Rattle.names.specs.Key.{Key as KeyData};
ghost use Rattle.requests.specs.Codes.{document_in};
ghost use Rattle.histories.specs.declared.stored.Stored.{Stored as StoredData};
ghost use Rattle.histories.specs.View.{View as Held};
ghost use Rattle.holdings.specs.Holdings.{Shows};
ghost use Rattle.decoded.specs.Decoded.{Decoded as DecodedData};
ghost use Rattle.apicore.specs.Conditions.{known, first_of, create_limits, replace_limits};

use decoded::Core;
use requests::{Manifest, Refusal};

/// The first limit of the store that refuses a new object.
pub(crate) fn create_limit(core: &Core, manifest: &Manifest) -> Option<Refusal>
    ensures shown { (base : List (KeyData × StoredData DecodedData)) (held : Held DecodedData) → Shows core.now base held
        → option_map known result ≡ first_of (create_limits core.now.rules held (document_in manifest.now.body)) }
    ensures room { result ≡ None → core.now.revision < core.now.rules.greatest_revision }
{
    // The document, of which the text speaks.
    let _document = manifest.document();
    if core.is_too_large(manifest) {
        return Some(Refusal::ObjectTooLarge);
    }
    if core.is_full() {
        return Some(Refusal::TooManyObjects);
    }
    if core.is_exhausted() {
        return Some(Refusal::RevisionExhausted);
    }
    None
}

/// The first limit of the store that refuses an update.
pub(crate) fn replace_limit(core: &Core, manifest: &Manifest) -> Option<Refusal>
    ensures shown { (base : List (KeyData × StoredData DecodedData)) (held : Held DecodedData) → Shows core.now base held
        → option_map known result ≡ first_of (replace_limits core.now.rules held (document_in manifest.now.body)) }
    ensures room { result ≡ None → core.now.revision < core.now.rules.greatest_revision }
{
    // The document, of which the text speaks.
    let _document = manifest.document();
    if core.is_too_large(manifest) {
        return Some(Refusal::ObjectTooLarge);
    }
    if core.is_exhausted() {
        return Some(Refusal::RevisionExhausted);
    }
    None
}
