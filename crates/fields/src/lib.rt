//! Fields of records: bytes with their number in front, the highest byte first.
//!
//! ```text
//! let (key, rest) = short_field(bytes).ok_or(Fault::Damaged)?;      // the number stands in two bytes
//! let (text, rest) = long_field(rest).ok_or(Fault::Damaged)?;       // the number stands in four bytes
//! ```
//!
//! `specs/Field.antt` says which bytes a field is. At most one field, and one rest, are the same bytes
//! (`proofs/Fields.antt`), so what is found is the only one.
#![tactic(auto)]

ghost use Rattle.std.specs.Prelude.{◌≡◌, ◌≢◌, ◌<◌, ◌^◌, ◌++◌, List, ℕ, None, length, IfSome};
ghost use Rattle.fields.specs.Field.{field};

use byteorder::{BigEndian, ByteOrder};

/// The bytes whose number stands in two bytes, and what stands after them: `None` where there are fewer.
pub fn short_field(bytes: &[u8]) -> Option<(&[u8], &[u8])>
    ensures parts { IfSome result (λ parts. bytes.now ≡ field 2 parts.0.now ++ parts.1.now) }
    ensures size { IfSome result (λ parts. length parts.0.now < 256 ^ 2) }
    ensures none { result ≡ None → (inside rest : List ℕ) → length inside < 256 ^ 2 → bytes.now ≢ field 2 inside ++ rest }
{
    if bytes.len() < 2 {
        return None;
    }
    split_after(&bytes[2..], BigEndian::read_u16(bytes) as usize)
}

/// The bytes whose number stands in four bytes, and what stands after them: `None` where there are fewer.
pub fn long_field(bytes: &[u8]) -> Option<(&[u8], &[u8])>
    ensures parts { IfSome result (λ parts. bytes.now ≡ field 4 parts.0.now ++ parts.1.now) }
    ensures size { IfSome result (λ parts. length parts.0.now < 256 ^ 4) }
    ensures none { result ≡ None → (inside rest : List ℕ) → length inside < 256 ^ 4 → bytes.now ≢ field 4 inside ++ rest }
{
    if bytes.len() < 4 {
        return None;
    }
    split_after(&bytes[4..], BigEndian::read_u32(bytes) as usize)
}

// This many bytes, and what stands after them, if there are as many.
fn split_after(bytes: &[u8], size: usize) -> Option<(&[u8], &[u8])>
    ensures parts { IfSome result (λ parts. bytes.now ≡ parts.0.now ++ parts.1.now) }
    ensures size { IfSome result (λ parts. length parts.0.now ≡ size) }
    ensures none { result ≡ None → length bytes.now < size }
{
    if bytes.len() < size {
        return None;
    }
    Some(bytes.split_at(size))
}
