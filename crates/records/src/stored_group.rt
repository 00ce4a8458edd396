//! The writes of a payload, as they are read.

ghost use Rattle.std.specs.Prelude.{◌≡◌, ◌≢◌, ◌≤◌, ◌++◌, ℕ, List, None, map, flat_map, length, IfOk, IfSome, IsErrOf};
ghost use Rattle.std.specs.List.{AllByRecursion};
ghost use Rattle.byteorder.specs.Endian.{big_bytes};
ghost use Rattle.histories.specs.History.{Write};
ghost use Rattle.records.specs.declared.fault.RecordFault.TheVariants as RecordFault;
ghost use Rattle.records.specs.Payload.{write_bytes, payload, group_limit, IsStorable, IsGroup};
ghost use Rattle.records.specs.WriteOf.{write_of};

use crate::RecordFault;
use crate::group::GROUP_LIMIT;
use crate::stored_write::{StoredWrite, read_one};
use byteorder::{BigEndian, ByteOrder};
use std::alloc::Global;

/// The number of writes that a record may hold, and what stands after it.
pub(crate) fn split_count(payload: &[u8]) -> Option<(u16, &[u8])>
    ensures parts { IfSome result (λ parts. payload.now ≡ big_bytes 2 parts.0 ++ parts.1.now) }
    ensures some { IfSome result (λ parts. 1 ≤ parts.0) }
    ensures few { IfSome result (λ parts. parts.0 ≤ group_limit) }
    ensures none { result ≡ None → (count : ℕ) (rest : List ℕ) → 1 ≤ count → count ≤ group_limit → payload.now ≢ big_bytes 2 count ++ rest }
{
    if payload.len() < 2 {
        return None;
    }
    let count = BigEndian::read_u16(payload);
    if count == 0 || count as usize > GROUP_LIMIT {
        return None;
    }
    Some((count, &payload[2..]))
}

// This many writes, whose bytes these are, and no others.
fn read_each(alloc: Global, count: u16, bytes: &[u8]) -> Result<Vec<StoredWrite<'_>>, RecordFault>
    ensures writes { IfOk result (λ ws. flat_map write_bytes (map write_of ws.items) ≡ bytes.now) }
    ensures count { IfOk result (λ ws. length (map write_of ws.items) ≡ count) }
    ensures form { IfOk result (λ ws. AllByRecursion IsStorable (map write_of ws.items)) }
    ensures damaged { IsErrOf result RecordFault.Damaged → (ws : List (Write (List ℕ)))
        → AllByRecursion IsStorable ws → length ws ≡ count → flat_map write_bytes ws ≢ bytes.now }
{
    let mut writes = Vec::new(alloc);
    let mut rest = bytes;
    for _ in 0..count {
        let (write, after) = read_one(alloc, rest)?;
        writes.push(write)?;
        rest = after;
    }
    if !rest.is_empty() {
        return Err(RecordFault::Damaged);
    }
    Ok(writes)
}

/// Reads a payload. `Damaged` where no group of well-formed writes has it.
pub fn read_writes(alloc: Global, bytes: &[u8]) -> Result<Vec<StoredWrite<'_>>, RecordFault>
    ensures writes { IfOk result (λ ws. payload (map write_of ws.items) ≡ bytes.now) }
    ensures form { IfOk result (λ ws. IsGroup (map write_of ws.items)) }
    ensures damaged { IsErrOf result RecordFault.Damaged → (ws : List (Write (List ℕ))) → IsGroup ws → payload ws ≢ bytes.now }
{
    match split_count(bytes) {
        Some((count, rest)) => read_each(alloc, count, rest),
        None => Err(RecordFault::Damaged),
    }
}
