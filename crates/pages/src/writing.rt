//! The bytes of a page as they are written.

ghost use Rattle.std.specs.Prelude.{◌≡◌, ◌<◌, ◌≤◌, ◌+◌, ◌*◌, ◌++◌, ◌∷◌, [], ℕ, length, take, drop, slice_index};
ghost use Rattle.pages.specs.Page.{Entry, number_at, count, offset, size, cell_end, entries_in, room_of};
ghost use Rattle.pages.specs.Building.{IsBuilt};

use crate::cells::{HEAD_BYTES, MARK, SLOT_BYTES, read_count, read_last};
use byteorder::{BigEndian, ByteOrder};

// Writes bytes over those at a place.
fn put(bytes: &mut [u8], at: usize, with: &[u8])
    requires { at + length with.now ≤ length bytes.old }
    ensures inside { (k : ℕ) → k < length with.now → slice_index bytes.new (at + k) ≡ slice_index with.now k }
    ensures below { (k : ℕ) → k < at → slice_index bytes.new k ≡ slice_index bytes.old k }
    ensures above { (k : ℕ) → at + length with.now ≤ k → slice_index bytes.new k ≡ slice_index bytes.old k }
{
    bytes[at..at + with.len()].copy_from_slice(with);
}

// Writes a number over the two bytes at a place.
fn put_number(bytes: &mut [u8], at: usize, number: usize)
    requires inside { at + 2 ≤ length bytes.old }
    requires small { number < 65536 }
    ensures number { number_at at bytes.new ≡ number }
    ensures below { (k : ℕ) → k < at → slice_index bytes.new k ≡ slice_index bytes.old k }
    ensures above { (k : ℕ) → at + 2 ≤ k → slice_index bytes.new k ≡ slice_index bytes.old k }
{
    let mut two = [0; 2];
    BigEndian::write_u16(&mut two, number as u16);
    put(bytes, at, &two);
}

// Writes the next slot, and how many there are then.
fn put_slot(bytes: &mut [u8], i: usize, cell_offset: usize, cell_size: usize)
    requires inside { 12 + 4 * i ≤ length bytes.old }
    requires few { i < 65535 }
    requires offset { cell_offset < 65536 }
    requires size { cell_size < 65536 }
    ensures counted { count bytes.new ≡ i + 1 }
    ensures offset { offset i bytes.new ≡ cell_offset }
    ensures size { size i bytes.new ≡ cell_size }
    ensures mark { (k : ℕ) → k < 4 → slice_index bytes.new k ≡ slice_index bytes.old k }
    ensures slots { (k : ℕ) → 6 ≤ k → k < 8 + 4 * i → slice_index bytes.new k ≡ slice_index bytes.old k }
    ensures behind { (k : ℕ) → 12 + 4 * i ≤ k → slice_index bytes.new k ≡ slice_index bytes.old k }
{
    let at = HEAD_BYTES + SLOT_BYTES * i;
    put_number(bytes, at, cell_offset);
    put_number(bytes, at + 2, cell_size);
    put_number(bytes, 4, i + 1);
}

// Writes a cell at a place.
fn put_cell(bytes: &mut [u8], at: usize, key: &[u8], value: &[u8])
    requires inside { at + 2 + length key.now + length value.now ≤ length bytes.old }
    requires short { length key.now < 65536 }
    ensures key_size { number_at at bytes.new ≡ length key.now }
    ensures key { (k : ℕ) → k < length key.now → slice_index bytes.new (at + 2 + k) ≡ slice_index key.now k }
    ensures value { (k : ℕ) → k < length value.now → slice_index bytes.new (at + 2 + length key.now + k) ≡ slice_index value.now k }
    ensures below { (k : ℕ) → k < at → slice_index bytes.new k ≡ slice_index bytes.old k }
    ensures above { (k : ℕ) → at + 2 + length key.now + length value.now ≤ k → slice_index bytes.new k ≡ slice_index bytes.old k }
{
    put_number(bytes, at, key.len());
    put(bytes, at + 2, key);
    put(bytes, at + 2 + key.len(), value);
}

// Where one more cell is to begin.
fn next_offset(bytes: &[u8], key: &[u8], value: &[u8]) -> usize
    requires built { IsBuilt bytes.now }
    requires room { room_of (entries_in bytes.now ++ (key.now, value.now) ∷ []) ≤ 32768 }
    ensures ends { result + 2 + length key.now + length value.now ≡ cell_end (count bytes.now) bytes.now }
    ensures behind { 12 + 4 * count bytes.now ≤ result }
    ensures inside { result + 2 + length key.now + length value.now ≤ 32768 }
{
    read_last(bytes) - key.len() - value.len() - 2
}

/// Adds a cell in front of the others, and its slot behind theirs.
pub(crate) fn add_cell(bytes: &mut [u8], key: &[u8], value: &[u8])
    requires built { IsBuilt bytes.old }
    requires room { room_of (entries_in bytes.old ++ (key.now, value.now) ∷ []) ≤ 32768 }
    ensures built { IsBuilt bytes.new }
    ensures entries { entries_in bytes.new ≡ entries_in bytes.old ++ (key.now, value.now) ∷ [] }
{
    let count = read_count(bytes);
    let offset = next_offset(bytes, key, value);
    put_slot(bytes, count, offset, 2 + key.len() + value.len());
    put_cell(bytes, offset, key, value);
}

/// Makes the bytes those of a page with no cell.
pub(crate) fn clear_page(bytes: &mut [u8])
    requires { length bytes.old ≡ 32768 }
    ensures built { IsBuilt bytes.new }
    ensures entries { entries_in bytes.new ≡ [] }
{
    bytes.fill(0);
    put(bytes, 0, MARK);
}
