//! The first part of a value that does not join.

ghost use Rattle.std.specs.Prelude.{◌≡◌, ◌≢◌, ◌<◌, ◌≤◌, ◌*◌, ◌^◌, ◌∷◌, [], ◌++◌, ℕ, List, false, length, IfSome, IsSomeAnd};
ghost use Rattle.byteorder.specs.Endian.{big_bytes};
ghost use Rattle.device.specs.Step.{Same};
ghost use Rattle.device.specs.Run.{Ran};
ghost use Rattle.names.specs.Format.{has_chunks};
ghost use Rattle.pages.specs.Page.{Entry as EntryData};
ghost use Rattle.roots.specs.Root.{log_sector};
ghost use Rattle.damage.specs.Parts.{full_of, DoesNotJoin, IsUnjoined, HasUnjoined, HasUnjoinedPart};

use crate::gathering::Gathering;
use crate::marks::{EVENT_MARK, PLANS_MARK};
use byteorder::{BigEndian, ByteOrder};
use checkpoint::scan;
use device::Device;
use names::Format;
use records::{Entry, OBJECT_MARK};
use roots::Root;
use std::alloc::{AllocError, Global};

const CHUNK_BYTES: usize = 8000;

const PIECE_BYTES: usize = 16384;

// How many bytes the number at the end of a part's key has.
const NUMBER_BYTES: usize = 2;

/// The number at the end of a key, and what stands in front of it.
pub(crate) fn split_number(key: &[u8]) -> Option<(&[u8], u16)>
    ensures parts { IfSome result (λ x. key.now ≡ x.0.now ++ big_bytes 2 x.1) }
    ensures only { (stem : List ℕ) (n : ℕ) → n < 65536 → key.now ≡ stem ++ big_bytes 2 n → IsSomeAnd result (λ x. (x.0.now ≡ stem) × (x.1 ≡ n)) }
{
    if key.len() < NUMBER_BYTES {
        return None;
    }
    let (stem, number) = key.split_at(key.len() - NUMBER_BYTES);
    Some((stem, BigEndian::read_u16(number)))
}

// How many bytes a full part has, where this stands in front of the numbers in the keys of a value's parts.
fn full_bytes(format: Format, stem: &[u8]) -> Option<usize>
    ensures { result ≡ full_of (has_chunks format) stem.now }
{
    let mark = *stem.first()?;
    if mark == PLANS_MARK {
        return Some(PIECE_BYTES);
    }
    if format.has_chunks() && (mark == OBJECT_MARK || mark == EVENT_MARK) {
        return Some(CHUNK_BYTES);
    }
    None
}

// Whether an entry is the part with this number, full.
fn is_full_part(entry: &Entry, stem: &[u8], number: u16, full: usize) -> bool
    ensures { result ≡ false → (value : List ℕ) → entry.now ≡ (stem.now ++ big_bytes 2 number, value) → length value ≢ full }
{
    match split_number(entry.key()) {
        Some((own, its)) => {
            if own != stem {
                return false;
            }
            its == number && entry.cell().len() == full
        }
        None => false,
    }
}

// Whether the last of these entries is the part with this number, full.
fn end_in(before: &[Entry], stem: &[u8], number: u16, full: usize) -> bool
    ensures { result ≡ false → (others : List EntryData) (last : List ℕ) → before.now ≡ others ++ (stem.now ++ big_bytes 2 number, last) ∷ [] → length last ≢ full }
{
    match before.split_last() {
        Some((last, _others)) => is_full_part(last, stem, number, full),
        None => false,
    }
}

// Whether the part with this number joins those that stand before it.
fn joins(before: &[Entry], stem: &[u8], number: u16, full: usize, value: &[u8]) -> bool
    ensures { result ≡ false → DoesNotJoin stem.now full before.now number value.now }
{
    !value.is_empty()
        && value.len() <= full
        && (number == 0 || end_in(before, stem, number - 1, full))
}

// What stands in front of the number in the key of an entry that is a part and does not join those before it.
fn unjoined_stem<'a>(format: Format, before: &[Entry], entry: &'a Entry) -> Option<&'a [u8]>
    ensures { IfSome result (λ stem. IsUnjoined (has_chunks format) before.now entry.now stem.now) }
{
    let (stem, number) = split_number(entry.key())?;
    let full = full_bytes(format, stem)?;
    if joins(before, stem, number, full, entry.cell()) {
        return None;
    }
    Some(stem)
}

// What stands in front of the number in the key of the first of these entries that is a part and does not join those before it.
fn first_unjoined(alloc: Global, format: Format, entries: &[Entry]) -> Option<Vec<u8>>
    ensures { IfSome result (λ stem. HasUnjoined (has_chunks format) entries.now stem.items) }
{
    'each: for i in 0..entries.len() {
        if let Some(stem) = unjoined_stem(format, &entries[..i], &entries[i]) {
            return copied(alloc, stem);
        }
    }
    None
}

// A copy of bytes; none where memory is refused.
fn copied(alloc: Global, bytes: &[u8]) -> Option<Vec<u8>>
    ensures { IfSome result (λ copy. copy.items ≡ bytes.now) }
{
    match bytes.to_vec(alloc) {
        Ok(copy) => Some(copy),
        Err(AllocError) => None,
    }
}

/// Looks for the first entry in the pages of a root that is a part of a value and does not join those before it: a chunk, in a format that cuts, or a piece of a policy's plans.
/// It gives what stands in front of the number in its key. All entries are held in memory meanwhile. None where all parts join, where the pages are damaged, and where the device
/// failed or memory was refused.
pub fn unjoined_part<D: Device>(alloc: Global, device: &mut D, root: &Root) -> Option<Vec<u8>>
    requires small { log_sector root.now < 2 ^ 54 }
    requires inside { D.disk.keeps device.old → 512 * log_sector root.now ≤ length (D.disk.content device.old) }
    ensures unjoined { D.disk.keeps device.old → IfSome result (λ stem. HasUnjoinedPart (D.disk.content device.old) root.now stem.items) }
    ensures ran { Ran D.disk device.old device.new Same }
{
    let mut gathering = Gathering {
        entries: Vec::new(alloc),
    };
    match scan(alloc, device, root, &mut gathering) {
        Ok(_) => first_unjoined(alloc, root.label.format, &gathering.entries),
        Err(_) => None,
    }
}
