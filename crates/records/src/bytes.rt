//! The marks and numbers in entries.

ghost use Rattle.std.specs.Prelude.{◌≡◌, ◌≢◌, ◌<◌, ◌^◌, ◌∷◌, ◌++◌, ℕ, List, None, length, IfOk, IfSome};
ghost use Rattle.byteorder.specs.Endian.{big_bytes};

use byteorder::{BigEndian, ByteOrder};
use std::alloc::{AllocError, Global};

/// The first byte of the key of an object's entry.
pub const OBJECT_MARK: u8 = 1;

/// The first byte of the key of a piece of plans.
pub(crate) const PLANS_MARK: u8 = 2;

/// The first byte of the key of an event's entry.
pub(crate) const EVENT_MARK: u8 = 3;

// Bytes in the number of a revision.
const NUMBER_BYTES: usize = 8;

/// The eight bytes of a number.
pub(crate) fn number_bytes(number: u64) -> [u8; 8]
    ensures { result ≡ big_bytes 8 number }
{
    let mut bytes = [0; NUMBER_BYTES];
    BigEndian::write_u64(&mut bytes, number);
    bytes
}

/// Bytes after a mark.
pub(crate) fn marked(alloc: Global, mark: u8, bytes: &[u8]) -> Result<Vec<u8>, AllocError>
    ensures { IfOk result (λ v. v.items ≡ mark ∷ bytes.now) }
{
    let mut all = Vec::new(alloc);
    all.push(mark)?;
    all.extend_from_slice(bytes)?;
    Ok(all)
}

/// What stands after a mark: `None` where there is another.
pub(crate) fn behind_mark(mark: u8, bytes: &[u8]) -> Option<&[u8]>
    ensures parts { IfSome result (λ rest. bytes.now ≡ mark ∷ rest.now) }
    ensures none { result ≡ None → (rest : List ℕ) → bytes.now ≢ mark ∷ rest }
{
    let (first, rest) = bytes.split_first()?;
    if *first != mark {
        return None;
    }
    Some(rest)
}

/// The number in the first eight bytes, and what stands after them: `None` where there are fewer.
pub(crate) fn split_number(bytes: &[u8]) -> Option<(u64, &[u8])>
    ensures parts { IfSome result (λ parts. bytes.now ≡ big_bytes 8 parts.0 ++ parts.1.now) }
    ensures size { IfSome result (λ parts. parts.0 < 2 ^ 64) }
    ensures none { result ≡ None → length bytes.now < 8 }
{
    if bytes.len() < NUMBER_BYTES {
        return None;
    }
    let (number, rest) = bytes.split_at(NUMBER_BYTES);
    Some((BigEndian::read_u64(number), rest))
}
