//! Sectors.

ghost use Rattle.std.specs.Prelude.{◌≡◌, ◌↔◌, slice_index, EachIndex, IsTrue};

/// How many bytes a sector has.
pub const SECTOR: usize = 512;

/// Whether all bytes are zero.
pub fn is_zero(bytes: &[u8]) -> bool
    ensures { IsTrue result ↔ EachIndex bytes.now (λ k. slice_index bytes.now k ≡ 0) }
{
    bytes.iter().all(|byte| *byte == 0)
}
