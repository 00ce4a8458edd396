ghost use Rattle.std.specs.Prelude.{◌≡◌, IfOk};
ghost use Rattle.requests.specs.Version.{is_text_of};

use std::alloc::{AllocError, Global};

/// Whether the text is that of the revision. Texts are compared: a number has more than one.
///
/// # Errors
///
/// Out of memory for the revision's text.
pub fn is_text_of(alloc: Global, text: &str, revision: u64) -> Result<bool, AllocError>
    ensures { IfOk result (λ b. b ≡ is_text_of revision text.now) }
{
    let current = format!(in alloc; "{revision}")?;
    Ok(text == current.as_str())
}
