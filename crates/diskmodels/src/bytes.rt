//! Bytes, as a write changes them.

ghost use Rattle.std.specs.Prelude.{◌≡◌, ◌≤◌, ◌+◌, ◌++◌, length, take, drop, IfOk};

use std::alloc::{AllocError, Global};

/// What reads give after a write at an offset.
pub(crate) fn written(
    alloc: Global,
    current: &[u8],
    start: usize,
    bytes: &[u8],
) -> Result<Vec<u8>, AllocError>
    requires inside { start ≤ length current.now }
    ensures { IfOk result (λ v. v.items ≡ take start current.now ++ bytes.now ++ drop (start + length bytes.now) current.now) }
{
    let mut next = Vec::from_slice(alloc, &current[..start])?;
    next.extend_from_slice(bytes)?;
    let end = next.len();
    if end < current.len() {
        next.extend_from_slice(&current[end..])?;
    }
    Ok(next)
}
