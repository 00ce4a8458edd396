//! Numbers and texts at the front of bytes.

ghost use Rattle.std.specs.Prelude.{◌≡◌, string_bytes, IfOk};
ghost use Rattle.std.specs.Int.{w16, w64};
ghost use Rattle.instructions.specs.Faults.{Gives};
ghost use Rattle.instructions.specs.Reading.{byte_at, number_at, text_at, text_of, text_of_length};

use crate::fault::CodeFault;
use std::alloc::Global;

/// The first byte, and the bytes after it; [`CodeFault::Truncated`] where there is none.
pub(crate) fn byte(bytes: &[u8]) -> Result<(u8, &[u8]), CodeFault>
    ensures { Gives (λ x. (x.0, x.1.now)) result (byte_at bytes.now) }
{
    match bytes {
        [] => Err(CodeFault::Truncated),
        [first, rest @ ..] => Ok((*first, rest)),
    }
}

/// A number of two bytes, and the bytes after it; [`CodeFault::Truncated`] where there are fewer.
pub fn short_at(bytes: &[u8]) -> Result<(u16, &[u8]), CodeFault>
    ensures { Gives (λ x. (x.0, x.1.now)) result (number_at w16 bytes.now) }
{
    if bytes.len() < 2 {
        return Err(CodeFault::Truncated);
    }
    let (front, rest) = bytes.split_at(2);
    let number = u16::from_be_bytes([front[0], front[1]]);
    Ok((number, rest))
}

/// A number of eight bytes, and the bytes after it; [`CodeFault::Truncated`] where there are fewer.
pub(crate) fn long(bytes: &[u8]) -> Result<(u64, &[u8]), CodeFault>
    ensures { Gives (λ x. (x.0, x.1.now)) result (number_at w64 bytes.now) }
{
    if bytes.len() < 8 {
        return Err(CodeFault::Truncated);
    }
    let (front, rest) = bytes.split_at(8);
    let number = u64::from_be_bytes([
        front[0], front[1], front[2], front[3], front[4], front[5], front[6], front[7],
    ]);
    Ok((number, rest))
}

// The bytes as a text; `TextNotUtf8` where they are none.
fn utf8(alloc: Global, bytes: &[u8]) -> Result<String, CodeFault>
    ensures { Gives (λ s. string_bytes s) result (text_of bytes.now) }
{
    match std::str::from_utf8(bytes) {
        Ok(text) => Ok(String::from_str(alloc, text)?),
        Err(_) => Err(CodeFault::TextNotUtf8),
    }
}

fn text_of_size(alloc: Global, size: usize, bytes: &[u8]) -> Result<(String, &[u8]), CodeFault>
    ensures { Gives (λ x. (string_bytes x.0, x.1.now)) result (text_of_length size bytes.now) }
{
    if bytes.len() < size {
        return Err(CodeFault::Truncated);
    }
    let (front, rest) = bytes.split_at(size);
    let text = utf8(alloc, front)?;
    Ok((text, rest))
}

/// A text after its length, and the bytes that follow. It is truncated before it is not UTF-8.
#[tactic(auto, unfolding(crate::specs::Reading::text_at))]
pub(crate) fn text(alloc: Global, bytes: &[u8]) -> Result<(String, &[u8]), CodeFault>
    ensures { Gives (λ x. (string_bytes x.0, x.1.now)) result (text_at bytes.now) }
{
    let (size, rest) = short_at(bytes)?;
    text_of_size(alloc, size as usize, rest)
}
