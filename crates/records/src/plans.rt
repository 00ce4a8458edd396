//! The entries of a policy's plans.

ghost use Rattle.std.specs.Prelude.{◌≡◌, ◌≢◌, ◌<◌, ◌≤◌, ◌*◌, ◌%◌, ◌^◌, ◌++◌, ◌∷◌, [], ◌↔◌, ℕ, List, length, take, drop, IsTrue, IfOk, OnOk, OnErr, IsErrOf};
ghost use Rattle.byteorder.specs.Endian.{big_bytes};
ghost use Rattle.pages.specs.Page.{Entry as EntryData};
ghost use Rattle.records.specs.declared.entry_fault.EntryFault.TheVariants as EntryFault;
ghost use Rattle.records.specs.Entries.{plan_entry, plan_entries};

use crate::bytes::PLANS_MARK;
use crate::entry::Entry;
use crate::entry_fault::EntryFault;
use byteorder::{BigEndian, ByteOrder};
use names::Key;
use std::alloc::{AllocError, Global};

// Bytes of plans in a piece; the last may have fewer.
const PIECE_BYTES: usize = 16384;

// A piece of plans.
fn piece(plans: &[u8], number: usize) -> &[u8]
    requires { 16384 * number ≤ length plans.now }
    ensures { result.now ≡ take 16384 (drop (16384 * number) plans.now) }
{
    let rest = &plans[PIECE_BYTES * number..];
    &rest[..rest.len().min(PIECE_BYTES)]
}

/// The key of a piece of a policy's plans.
pub(crate) fn piece_key(alloc: Global, key: &Key, number: u16) -> Result<Vec<u8>, AllocError>
    ensures { IfOk result (λ v. v.items ≡ (2 ∷ key.now.name) ++ 0 ∷ big_bytes 2 number) }
{
    let mut two = [0; 2];
    BigEndian::write_u16(&mut two, number);
    let mut bytes = Vec::new(alloc);
    bytes.push(PLANS_MARK)?;
    bytes.extend_from_slice(key.name().as_bytes())?;
    bytes.push(0)?;
    bytes.extend_from_slice(&two)?;
    Ok(bytes)
}

// The entry of a piece.
fn piece_entry(alloc: Global, key: &Key, plans: &[u8], number: usize) -> Result<Entry, AllocError>
    requires inside { 16384 * number ≤ length plans.now }
    requires few { number < 65536 }
    ensures { IfOk result (λ entry. entry ≡ plan_entry key.now plans.now number) }
{
    let cell = piece(plans, number).to_vec(alloc)?;
    let key = piece_key(alloc, key, number as u16)?;
    Ok(Entry { key, cell })
}

/// The entries of a policy's plans, of which these are the bytes: one for each 16384 of them.
pub fn plan_entries(alloc: Global, key: &Key, plans: &[u8]) -> Result<Vec<Entry>, AllocError>
    requires { length plans.now ≤ 2 ^ 30 }
    ensures { IfOk result (λ v. v.items ≡ plan_entries key.now plans.now) }
{
    let mut entries = Vec::new(alloc);
    for number in 0..plans.len().div_ceil(PIECE_BYTES) {
        entries.push(piece_entry(alloc, key, plans, number)?)?;
    }
    Ok(entries)
}

// Whether one more piece, of these bytes, may stand after the pieces of others: those are full.
fn may_follow(plans: &[u8], cell: &[u8]) -> bool
    ensures { IsTrue result
        ↔ ((length plans.now % 16384 ≡ 0) × (length plans.now < 2 ^ 30) × (0 < length cell.now) × (length cell.now ≤ 16384)) }
{
    plans.len() % PIECE_BYTES == 0
        && plans.len() < 65536 * PIECE_BYTES
        && !cell.is_empty()
        && cell.len() <= PIECE_BYTES
}

/// Reads the next piece of a policy's plans from its entry, a key and the cell that stands under it: adds its bytes to those of the pieces
/// before it.
///
/// # Errors
///
/// `Damaged` where no plans have these pieces one after the other, and `Memory` when out of memory. The bytes
/// stay as they were.
pub fn read_piece(
    alloc: Global,
    policy: &Key,
    plans: &mut Vec<u8>,
    key: &[u8],
    cell: &[u8],
) -> Result<(), EntryFault>
    ensures entry { OnOk result (plan_entries policy.now plans.new.items ≡ plan_entries policy.now plans.old.items ++ (key.now, cell.now) ∷ []) }
    ensures bytes { OnOk result (plans.new.items ≡ plans.old.items ++ cell.now) }
    ensures damaged { IsErrOf result EntryFault.Damaged → (all : List ℕ) (rest : List EntryData) → length all ≤ 2 ^ 30
        → plan_entries policy.now all ≢ plan_entries policy.now plans.old.items ++ (key.now, cell.now) ∷ rest }
    ensures kept { OnErr result (plans.new.items ≡ plans.old.items) }
{
    if !may_follow(plans, cell) {
        return Err(EntryFault::Damaged);
    }
    let next = piece_key(alloc, policy, (plans.len() / PIECE_BYTES) as u16)?;
    if key != next.as_slice() {
        return Err(EntryFault::Damaged);
    }
    plans.extend_from_slice(cell)?;
    Ok(())
}
