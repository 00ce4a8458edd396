//! What is said of a denial, and the texts of warnings.

ghost use Rattle.std.specs.Prelude.{◌≡◌, ◌++◌, ℕ, List, map, take, chars, codes, IfOk, OnOk, string_bytes};
ghost use Rattle.std.specs.List.{flat_map};
ghost use Rattle.verdict.specs.Texts.{named_by, denial_text, printable, escaped, warning};

use std::alloc::{AllocError, Global};

/// The message of the refusal of a write that is denied: it names the policy and the binding, and says what the policy says.
///
/// # Errors
///
/// Out of memory.
pub fn denial_text(
    alloc: Global,
    policy: &str,
    binding: &str,
    message: &str,
) -> Result<String, AllocError>
    ensures { IfOk result (λ s. string_bytes s ≡ denial_text policy.now binding.now message.now) }
{
    format!(in alloc;
        "ValidatingAdmissionPolicy '{policy}' with binding '{binding}' denied request: {message}"
    )
}

fn characters(alloc: Global, text: &str) -> Result<Vec<char>, AllocError>
    ensures { IfOk result (λ v. v.items ≡ chars text.now) }
{
    text.chars().collect(alloc)
}

// The character, or a question mark where it is not printable ASCII.
fn printable(character: char) -> char
    ensures { result ≡ printable character }
{
    if (' '..='~').contains(&character) {
        character
    } else {
        '?'
    }
}

// A quote and a backslash stand after a backslash.
fn push_escaped(text: &mut String, character: char) -> Result<(), AllocError>
    ensures { (rest : List ℕ) → OnOk result (string_bytes text.new ++ rest ≡ string_bytes text.old ++ (escaped (printable character) ++ rest)) }
{
    let shown = printable(character);
    if shown == '"' || shown == '\\' {
        text.push('\\')?;
    }
    text.push(shown)?;
    Ok(())
}

fn quoted(alloc: Global, characters: &[char]) -> Result<String, AllocError>
    ensures { IfOk result (λ s. string_bytes s ≡ flat_map escaped (map printable characters.now)) }
{
    let mut text = String::new(alloc);
    for character in characters {
        push_escaped(&mut text, *character)?;
    }
    Ok(text)
}

// The first characters, this many at most.
#[tactic(auto, using(crate::proofs::Parts::all_taken))]
fn first(characters: &[char], count: usize) -> &[char]
    ensures { result.now ≡ take count characters.now }
{
    if count < characters.len() {
        let (front, _) = characters.split_at(count);
        front
    } else {
        characters
    }
}

// The first characters of the text, this many at most before quotes and backslashes are escaped.
#[tactic(auto, using(crate::proofs::Parts::taken_first))]
fn quoted_front(alloc: Global, text: &str, count: usize) -> Result<String, AllocError>
    ensures { IfOk result (λ s. string_bytes s ≡ flat_map escaped (take count (map printable (chars text.now)))) }
{
    let characters = characters(alloc, text)?;
    quoted(alloc, first(&characters, count))
}

fn warning_text(
    alloc: Global,
    policy: &str,
    binding: &str,
    message: &str,
) -> Result<String, AllocError>
    ensures { IfOk result (λ s. string_bytes s ≡ codes "Validation failed for " ++ (named_by policy.now binding.now ++ (codes ": " ++ message.now))) }
{
    format!(in alloc;
        "Validation failed for ValidatingAdmissionPolicy '{policy}' with binding '{binding}': {message}"
    )
}

/// The text of a warning, to stand between quotes: 256 characters at most, before quotes and backslashes are escaped.
///
/// # Errors
///
/// Out of memory.
pub fn warning(
    alloc: Global,
    policy: &str,
    binding: &str,
    message: &str,
) -> Result<String, AllocError>
    ensures { IfOk result (λ s. string_bytes s ≡ warning policy.now binding.now message.now) }
{
    let text = warning_text(alloc, policy, binding, message)?;
    quoted_front(alloc, text.as_str(), 256)
}
