//! The options in the body of a DELETE.

ghost use Rattle.std.specs.Prelude.{◌≡◌, IfOk, option_map, string_bytes, unwrap_or};
ghost use Rattle.dialect.specs.Options.{has_idle_option, has_other_version, kept_options, restated_options};

use jsondoc::{Doc, JsonFault};
use std::alloc::{AllocError, Global};

// Whether the options are of another version of the API than `v1`.
fn has_other_version(options: &Doc) -> bool
    ensures { result ≡ has_other_version options.now }
{
    match options.get("apiVersion") {
        Some(version) => match version.as_str() {
            Some(text) => !("v1" == text),
            None => false,
        },
        None => false,
    }
}

// Whether some option asks for nothing here.
fn has_idle_option(options: &Doc) -> bool
    ensures { result ≡ has_idle_option options.now }
{
    options.get("propagationPolicy").is_some()
        || options.get("gracePeriodSeconds").is_some()
        || options.get("orphanDependents").is_some()
        || has_other_version(options)
}

// Takes those options out.
fn keep_options(options: &mut Doc)
    ensures { options.new ≡ kept_options options.old }
{
    if has_other_version(options) {
        let _version = options.remove("apiVersion");
    }
    let _orphans = options.remove("orphanDependents");
    let _seconds = options.remove("gracePeriodSeconds");
    let _policy = options.remove("propagationPolicy");
}

/// The body of a DELETE without what asks for nothing, where something does.
pub(crate) fn restated_options(alloc: Global, body: &[u8]) -> Result<Option<String>, AllocError>
    ensures text { IfOk result (λ text. unwrap_or (option_map string_bytes text) body.now ≡ restated_options body.now) }
    ensures again { IfOk result (λ _. restated_options (restated_options body.now) ≡ restated_options body.now) }
{
    if body.is_empty() {
        return Ok(None);
    }
    let mut options = match Doc::read(alloc, body) {
        Ok(options) => options,
        Err(JsonFault::Memory) => return Err(AllocError),
        Err(JsonFault::NotJson) => return Ok(None),
        Err(JsonFault::Number) => return Ok(None),
    };
    if !has_idle_option(&options) {
        return Ok(None);
    }
    keep_options(&mut options);
    Ok(Some(options.text(alloc)?))
}
