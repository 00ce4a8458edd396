//! The numbers, slots and cells of a page's bytes.

ghost use Rattle.std.specs.Prelude.{◌≡◌, ◌<◌, ◌≤◌, ◌+◌, ◌*◌, ◌-◌, length, take, drop};
ghost use Rattle.pages.specs.Page.{number_at, count, offset, size, cell_end, key_size, key_at, value_at, HasSlots, HasCells};

use byteorder::{BigEndian, ByteOrder};

/// Bytes in a page.
pub const PAGE_BYTES: usize = 32768;

/// The sectors of 512 bytes of a page.
pub const PAGE_SECTORS: u64 = 64;

/// The first bytes of a page.
pub(crate) const MARK: &[u8; 4] = b"PAGE";

// Bytes before the first slot, and in each slot.
pub(crate) const HEAD_BYTES: usize = 8;

pub(crate) const SLOT_BYTES: usize = 4;

/// The number in the two bytes at a place.
pub(crate) fn read_number(bytes: &[u8], at: usize) -> usize
    requires { at + 2 ≤ length bytes.now }
    ensures number { result ≡ number_at at bytes.now }
    ensures small { result < 65536 }
{
    usize::from(BigEndian::read_u16(&bytes[at..]))
}

/// The number of cells.
pub(crate) fn read_count(bytes: &[u8]) -> usize
    requires { 6 ≤ length bytes.now }
    ensures number { result ≡ count bytes.now }
    ensures small { result < 65536 }
{
    read_number(bytes, 4)
}

/// Where a cell begins.
pub(crate) fn read_offset(bytes: &[u8], i: usize) -> usize
    requires { 12 + 4 * i ≤ length bytes.now }
    ensures number { result ≡ offset i bytes.now }
    ensures small { result < 65536 }
{
    read_number(bytes, HEAD_BYTES + SLOT_BYTES * i)
}

/// How long a cell is.
pub(crate) fn read_size(bytes: &[u8], i: usize) -> usize
    requires { 12 + 4 * i ≤ length bytes.now }
    ensures number { result ≡ size i bytes.now }
    ensures small { result < 65536 }
{
    read_number(bytes, HEAD_BYTES + SLOT_BYTES * i + 2)
}

/// Where a cell is to end.
pub(crate) fn read_end(bytes: &[u8], i: usize) -> usize
    requires { 8 + 4 * i ≤ length bytes.now }
    ensures { result ≡ cell_end i bytes.now }
{
    if i == 0 {
        PAGE_BYTES
    } else {
        read_offset(bytes, i - 1)
    }
}

/// Where the last cell begins; with no cell, where the first one is to end.
pub(crate) fn read_last(bytes: &[u8]) -> usize
    requires whole { 6 ≤ length bytes.now }
    requires slots { 8 + 4 * count bytes.now ≤ length bytes.now }
    ensures { result ≡ cell_end (count bytes.now) bytes.now }
{
    read_end(bytes, read_count(bytes))
}

/// Some of the bytes.
pub(crate) fn part(bytes: &[u8], at: usize, size: usize) -> &[u8]
    requires { at + size ≤ length bytes.now }
    ensures { result.now ≡ take size (drop at bytes.now) }
{
    &bytes[at..at + size]
}

/// The key in a cell.
pub(crate) fn read_key(bytes: &[u8], i: usize) -> &[u8]
    requires whole { length bytes.now ≡ 32768 }
    requires slots { HasSlots bytes.now }
    requires cells { HasCells bytes.now }
    requires inside { i < count bytes.now }
    ensures { result.now ≡ key_at i bytes.now }
{
    let at = read_offset(bytes, i);
    part(bytes, at + 2, read_number(bytes, at))
}

/// What stands in a cell behind its key.
pub(crate) fn read_value(bytes: &[u8], i: usize) -> &[u8]
    requires whole { length bytes.now ≡ 32768 }
    requires slots { HasSlots bytes.now }
    requires cells { HasCells bytes.now }
    requires inside { i < count bytes.now }
    ensures { result.now ≡ value_at i bytes.now }
{
    let at = read_offset(bytes, i);
    let key_size = read_number(bytes, at);
    part(bytes, at + 2 + key_size, read_size(bytes, i) - 2 - key_size)
}
