//! The five conditions on a page's bytes.

ghost use Rattle.std.specs.Prelude.{◌≡◌, ◌<◌, ◌≤◌, ◌+◌, ◌*◌, ◌↔◌, ℕ, length, IsTrue};
ghost use Rattle.std.specs.declared.cmp.Ordering.TheVariants.{Less};
ghost use Rattle.pages.specs.Page.{number_at, count, offset, size, cell_end, key_size, key_at, bytes_cmp};
ghost use Rattle.pages.specs.Page.{HasMark, HasSlots, HasCells, HasOrder, HasFreeZeros, IsSlot};

use crate::cells::{
    HEAD_BYTES, MARK, PAGE_BYTES, SLOT_BYTES, part, read_count, read_end, read_key, read_last,
    read_number, read_offset, read_size,
};
use device::is_zero;

/// Whether the bytes are as many as a page has, and begin with its mark.
pub(crate) fn has_mark(bytes: &[u8]) -> bool
    ensures { IsTrue result ↔ HasMark bytes.now }
{
    bytes.len() == PAGE_BYTES && bytes[..4] == MARK[..]
}

// Whether a slot has a cell that ends where it is to, behind all slots.
fn is_slot(bytes: &[u8], i: usize) -> bool
    requires whole { length bytes.now ≡ 32768 }
    requires fits { 8 + 4 * count bytes.now ≤ 32768 }
    requires inside { i < count bytes.now }
    ensures { IsTrue result ↔ IsSlot bytes.now i }
{
    let at = read_offset(bytes, i);
    at + read_size(bytes, i) == read_end(bytes, i)
        && HEAD_BYTES + SLOT_BYTES * read_count(bytes) <= at
}

// Whether each slot has its cell.
fn has_each_slot(bytes: &[u8]) -> bool
    requires whole { length bytes.now ≡ 32768 }
    requires fits { 8 + 4 * count bytes.now ≤ 32768 }
    ensures { IsTrue result ↔ ((i : ℕ) → i < count bytes.now → IsSlot bytes.now i) }
{
    for i in 0..read_count(bytes) {
        if !is_slot(bytes, i) {
            return false;
        }
    }
    true
}

/// Whether there are cells, the two bytes behind their number are zero, and each slot has its cell.
pub(crate) fn has_slots(bytes: &[u8]) -> bool
    requires { length bytes.now ≡ 32768 }
    ensures { IsTrue result ↔ HasSlots bytes.now }
{
    let count = read_count(bytes);
    if count == 0 || read_number(bytes, 6) != 0 {
        return false;
    }
    if HEAD_BYTES + SLOT_BYTES * count > PAGE_BYTES {
        return false;
    }
    has_each_slot(bytes)
}

// Whether a cell has room for its key.
fn is_cell(bytes: &[u8], i: usize) -> bool
    requires slot { 12 + 4 * i ≤ length bytes.now }
    requires inside { offset i bytes.now + size i bytes.now ≤ length bytes.now }
    ensures { IsTrue result ↔ (2 + key_size i bytes.now ≤ size i bytes.now) }
{
    let size = read_size(bytes, i);
    size >= 2 && read_number(bytes, read_offset(bytes, i)) <= size - 2
}

/// Whether each cell has room for its key.
pub(crate) fn has_cells(bytes: &[u8]) -> bool
    requires whole { length bytes.now ≡ 32768 }
    requires slots { HasSlots bytes.now }
    ensures { IsTrue result ↔ HasCells bytes.now }
{
    for i in 0..read_count(bytes) {
        if !is_cell(bytes, i) {
            return false;
        }
    }
    true
}

// Whether the key of a cell is below the next one's.
fn is_below_next(bytes: &[u8], i: usize) -> bool
    requires whole { length bytes.now ≡ 32768 }
    requires slots { HasSlots bytes.now }
    requires cells { HasCells bytes.now }
    requires inside { i + 1 < count bytes.now }
    ensures { IsTrue result ↔ (bytes_cmp (key_at i bytes.now) (key_at (i + 1) bytes.now) ≡ Less) }
{
    read_key(bytes, i).cmp(read_key(bytes, i + 1)).is_lt()
}

/// Whether the keys ascend.
pub(crate) fn has_order(bytes: &[u8]) -> bool
    requires whole { length bytes.now ≡ 32768 }
    requires slots { HasSlots bytes.now }
    requires cells { HasCells bytes.now }
    ensures { IsTrue result ↔ HasOrder bytes.now }
{
    for i in 0..read_count(bytes) - 1 {
        if !is_below_next(bytes, i) {
            return false;
        }
    }
    true
}

/// Whether the bytes between the slots and the last cell are zero.
pub(crate) fn has_free_zeros(bytes: &[u8]) -> bool
    requires whole { length bytes.now ≡ 32768 }
    requires slots { HasSlots bytes.now }
    ensures { IsTrue result ↔ HasFreeZeros bytes.now }
{
    let from = HEAD_BYTES + SLOT_BYTES * read_count(bytes);
    is_zero(part(bytes, from, read_last(bytes) - from))
}
