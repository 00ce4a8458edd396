ghost use Rattle.std.specs.Prelude.{◌≡◌, ◌⊎◌, ◌<◌, ◌≤◌, ◌+◌, ◌-◌, ◌*◌, ◌/◌, ◌++◌, ℕ, [], List, length, take, drop, vec_len, slice_index, IfOk, OnOk, OnErr, IsErrOf};
ghost use Rattle.byteorder.specs.Endian.{big_number};
ghost use Rattle.gatelog.specs.Record.{body_sectors, sectors, IsRecord};

use crate::LogFault;
use byteorder::{BigEndian, ByteOrder};
use device::SECTOR;
use std::alloc::{AllocError, Global};

// The bytes of a payload's length, in front of it.
pub(crate) const LENGTH_BYTES: usize = 4;

pub(crate) const MOST_PAYLOAD_BYTES: usize = 67108864;

/// The number of sectors of the body of a payload of this many bytes.
pub(crate) fn sectors_of(payload_length: usize) -> usize
    requires { payload_length ≤ 67108864 }
    ensures { result ≡ body_sectors payload_length }
{
    (payload_length + LENGTH_BYTES).div_ceil(SECTOR)
}

// Adds zeros at the end.
fn grow(bytes: &mut Vec<u8>, size: usize) -> Result<(), AllocError>
    requires { vec_len bytes.old ≤ size }
    ensures len { OnOk result (vec_len bytes.new ≡ size) }
    ensures same { OnOk result ((k : ℕ) → slice_index bytes.new.items k ≡ slice_index bytes.old.items k) }
    ensures err { OnErr result (bytes.new.items ≡ bytes.old.items) }
{
    bytes.resize(size, 0)?;
    Ok(())
}

// Writes bytes over those at a place.
fn put(bytes: &mut Vec<u8>, at: usize, with: &[u8])
    requires { at + length with.now ≤ vec_len bytes.old }
    ensures row { bytes.new.items ≡ take at bytes.old.items ++ with.now ++ drop (at + length with.now) bytes.old.items }
    ensures len { vec_len bytes.new ≡ vec_len bytes.old }
    ensures inside { (k : ℕ) → k < length with.now → slice_index bytes.new.items (at + k) ≡ slice_index with.now k }
    ensures below { (k : ℕ) → k < at → slice_index bytes.new.items k ≡ slice_index bytes.old.items k }
    ensures above { (k : ℕ) → at + length with.now ≤ k → slice_index bytes.new.items k ≡ slice_index bytes.old.items k }
{
    bytes[at..at + with.len()].copy_from_slice(with);
}

// Writes a payload's length in front of it.
fn put_length(bytes: &mut Vec<u8>, payload_length: usize)
    requires room { 4 ≤ vec_len bytes.old }
    requires fits { payload_length ≤ 67108864 }
    ensures number { big_number 4 bytes.new.items ≡ payload_length }
    ensures rest { (k : ℕ) → 4 ≤ k → slice_index bytes.new.items k ≡ slice_index bytes.old.items k }
    ensures len { vec_len bytes.new ≡ vec_len bytes.old }
{
    BigEndian::write_u32(bytes, payload_length as u32);
}

/// A record's body as it is gathered: a payload of at most 67108864 bytes, with its length in front, and behind it zeros to the
/// end of the sector and the closed gate of the next record.
#[derive(Drop)]
pub struct Body {
    bytes: Vec<u8>,
    payload_length: usize,
    ghost limit: { payload_length ≤ 67108864 },
    ghost size: { vec_len bytes ≡ 512 * body_sectors payload_length + 512 },
    ghost length_field: { big_number 4 bytes.items ≡ payload_length },
    ghost zeros: { (k : ℕ) → payload_length + 4 ≤ k → slice_index bytes.items k ≡ 0 },
}

impl Body {
    ghost use Rattle.gatelog.specs.Payload.{payload_of};
    ghost use Rattle.gatelog.specs.declared.fault.LogFault.{LogFault};
    ghost use Rattle.gatelog.specs.declared.fault.LogFault.TheVariants.{TooLong, Memory};

    /// The empty payload.
    pub fn new(alloc: Global) -> Result<Body, AllocError>
        ensures { IfOk result (λ body. payload_of body ≡ []) }
    {
        Ok(Body {
            bytes: vec![in alloc; 0; 2 * SECTOR]?,
            payload_length: 0,
        })
    }

    /// Adds bytes at the payload's end. `TooLong` is answered where the payload would be longer than 67108864 bytes; each error
    /// leaves the payload as it was.
    pub fn extend(&mut self, more: &[u8]) -> Result<(), LogFault>
        ensures added { OnOk result (payload_of self.new ≡ payload_of self.old ++ more.now) }
        ensures same { OnErr result (payload_of self.new ≡ payload_of self.old) }
        ensures fits { OnOk result (length (payload_of self.old) + length more.now ≤ 67108864) }
        ensures refusal { OnErr result (IsErrOf result LogFault.TooLong ⊎ IsErrOf result LogFault.Memory) }
        ensures too_long { IsErrOf result LogFault.TooLong → 67108864 < length (payload_of self.old) + length more.now }
    {
        if more.len() > MOST_PAYLOAD_BYTES - self.payload_length {
            return Err(LogFault::TooLong);
        }
        let length = self.payload_length + more.len();
        grow(&mut self.bytes, SECTOR * sectors_of(length) + SECTOR)?;
        put(&mut self.bytes, LENGTH_BYTES + self.payload_length, more);
        put_length(&mut self.bytes, length);
        self.payload_length = length;
        Ok(())
    }

    /// Overwrites bytes inside the payload.
    pub fn set(&mut self, byte_offset: usize, with: &[u8])
        requires { byte_offset + length with.now ≤ length (payload_of self.old) }
        ensures { payload_of self.new ≡ take byte_offset (payload_of self.old) ++ with.now ++ drop (byte_offset + length with.now) (payload_of self.old) }
    {
        put(&mut self.bytes, LENGTH_BYTES + byte_offset, with);
    }

    /// The record's body, and the closed gate behind it.
    pub(crate) fn record_and_gate(&self) -> &[u8]
        ensures bytes { result.now ≡ self.now.bytes.items }
        ensures size { length result.now ≡ 512 * sectors (payload_of self.now) + 512 }
        ensures body { IsRecord (payload_of self.now) (take (512 * sectors (payload_of self.now)) result.now) }
        ensures gate { slice_index result.now (512 * sectors (payload_of self.now)) ≡ 0 }
    {
        &self.bytes
    }

    /// The number of sectors of the record's body.
    pub(crate) fn sectors(&self) -> u64
        ensures { result ≡ sectors (payload_of self.now) }
    {
        sectors_of(self.payload_length) as u64
    }
}
