//! The keys of a payload's writes.

ghost use Rattle.std.specs.Prelude.{◌≡◌, ◌≢◌, ◌<◌, ◌^◌, ◌++◌, [], ℕ, List, None, flat_map, length, IsTrue, IfOk, IfSome, IsErrOf};
ghost use Rattle.std.specs.List.{AllByRecursion};
ghost use Rattle.fields.specs.Field.{field};
ghost use Rattle.names.specs.Key.{Key as KeyData, is_key, key_bytes};
ghost use Rattle.records.specs.declared.fault.RecordFault.TheVariants as RecordFault;
ghost use Rattle.records.specs.Frames.{Frame, key_in, frame_bytes, IsFrame, LieInFront, IsFramed};

use crate::RecordFault;
use crate::stored_group::split_count;
use crate::stored_write::read_key_field;
use crate::write_bytes::{DELETE, PUT};
use fields::long_field;
use names::Key;
use std::alloc::Global;

// What stands after a text and plans, each behind its number. `None` where the bytes do not begin so.
fn behind_texts(bytes: &[u8]) -> Option<&[u8]>
    ensures parts { IfSome result (λ rest. (text : List ℕ) × (plans : List ℕ) × (length text < 2 ^ 32) × (length plans < 2 ^ 32)
        × (field 4 text ++ (field 4 plans ++ rest.now) ≡ bytes.now)) }
    ensures none { result ≡ None → (text plans rest : List ℕ) → length text < 2 ^ 32 → length plans < 2 ^ 32
        → field 4 text ++ (field 4 plans ++ rest) ≢ bytes.now }
{
    let (_text, rest) = long_field(bytes)?;
    let (_plans, rest) = long_field(rest)?;
    Some(rest)
}

// The key of the put whose fields the bytes begin with, and what stands after these.
fn read_key_of_put(alloc: Global, bytes: &[u8]) -> Result<(Key, &[u8]), RecordFault>
    ensures frame { IfOk result (λ p. (text : List ℕ) × (plans : List ℕ) × (length text < 2 ^ 32) × (length plans < 2 ^ 32) × IsTrue (is_key p.0)
        × (field 2 (key_bytes p.0) ++ (field 4 text ++ (field 4 plans ++ p.1.now)) ≡ bytes.now)) }
    ensures damaged { IsErrOf result RecordFault.Damaged → (k : KeyData) (text plans rest : List ℕ) → IsTrue (is_key k) → length text < 2 ^ 32 → length plans < 2 ^ 32
        → field 2 (key_bytes k) ++ (field 4 text ++ (field 4 plans ++ rest)) ≢ bytes.now }
{
    let (key, rest) = read_key_field(alloc, bytes)?;
    match behind_texts(rest) {
        Some(behind) => Ok((key, behind)),
        None => Err(RecordFault::Damaged),
    }
}

// The key of the write that the bytes begin with, and what stands after the write.
fn read_key(alloc: Global, bytes: &[u8]) -> Result<(Key, &[u8]), RecordFault>
    ensures frame { IfOk result (λ p. (f : Frame) × IsFrame f × (key_in f ≡ p.0) × (frame_bytes f ++ p.1.now ≡ bytes.now)) }
    ensures damaged { IsErrOf result RecordFault.Damaged → (f : Frame) (rest : List ℕ) → IsFrame f → frame_bytes f ++ rest ≢ bytes.now }
{
    let Some((kind, fields)) = bytes.split_first() else {
        return Err(RecordFault::Damaged);
    };
    match *kind {
        PUT => read_key_of_put(alloc, fields),
        DELETE => read_key_field(alloc, fields),
        _ => Err(RecordFault::Damaged),
    }
}

// The keys of this many writes, whose bytes these are.
fn read_each_key(alloc: Global, count: u16, bytes: &[u8]) -> Result<Vec<Key>, RecordFault>
    ensures framed { IfOk result (λ keys. LieInFront bytes.now [] count keys.items) }
    ensures damaged { IsErrOf result RecordFault.Damaged → (fs : List Frame) → AllByRecursion IsFrame fs → length fs ≡ count → flat_map frame_bytes fs ≢ bytes.now }
{
    let mut keys = Vec::new(alloc);
    let mut rest = bytes;
    for _ in 0..count {
        let (key, after) = read_key(alloc, rest)?;
        keys.push(key)?;
        rest = after;
    }
    if !rest.is_empty() {
        return Err(RecordFault::Damaged);
    }
    Ok(keys)
}

/// The keys of a payload's writes, in order. Their documents and plans are passed over: what these are, [`crate::read_writes`] says.
///
/// # Errors
///
/// `Damaged` where the bytes are no payload as far as its writes and their fields go, and `Memory` when out of memory.
pub fn read_keys(alloc: Global, bytes: &[u8]) -> Result<Vec<Key>, RecordFault>
    ensures framed { IfOk result (λ keys. IsFramed bytes.now keys.items) }
    ensures damaged { IsErrOf result RecordFault.Damaged → (keys : List KeyData) → IsFramed bytes.now keys → ⊥ }
{
    match split_count(bytes) {
        Some((count, rest)) => read_each_key(alloc, count, rest),
        None => Err(RecordFault::Damaged),
    }
}
