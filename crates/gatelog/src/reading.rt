ghost use Rattle.std.specs.Prelude.{◌≡◌, ◌<◌, ◌≤◌, ◌+◌, ◌*◌, ◌^◌, ◌⊎◌, ◌++◌, ◌∷◌, [], ℕ, List, map, length, IfOk, OnOk, OnErr, IsErrOf, vec_len};
ghost use Rattle.byteorder.specs.Endian.{big_number};
ghost use Rattle.device.specs.Disk.{HasCause, HasFailed};
ghost use Rattle.device.specs.Step.{Same};
ghost use Rattle.device.specs.Run.{Ran};
ghost use Rattle.gatelog.specs.declared.fault.LogFault.TheVariants as LogFault;
ghost use Rattle.gatelog.specs.Record.{part, sectors, body_sectors};
ghost use Rattle.gatelog.specs.Log.{HoldsLog};
ghost use Rattle.gatelog.specs.Walk.{HoldsRecord, IsFirstOf, IsAhead};

use crate::LogFault;
use crate::record::{LENGTH_BYTES, MOST_PAYLOAD_BYTES, sectors_of};
use crate::write_record::OPEN;
use byteorder::{BigEndian, ByteOrder};
use device::{Device, DeviceFault, SECTOR, is_zero};
use std::alloc::{AllocError, Global};

fn read_sector<D: Device>(device: &mut D, at: u64) -> Result<[u8; 512], DeviceFault>
    requires { D.disk.keeps device.old → 512 * at + 512 ≤ length (D.disk.content device.old) }
    ensures bytes { D.disk.keeps device.old → IfOk result (λ sector. sector ≡ part (512 * at) 512 (D.disk.content device.old)) }
    ensures ran { Ran D.disk device.old device.new Same }
    ensures cause { HasCause D.disk device.old device.new result }
{
    let mut sector = [0; SECTOR];
    device.read(at, &mut sector)?;
    Ok(sector)
}

// Checks the record's body in this sector and those behind it, of a device of `end` sectors, and gives its number of sectors.
fn check_body<D: Device>(device: &mut D, at: u64, end: u64) -> Result<u64, LogFault>
    requires end { D.disk.keeps device.old → length (D.disk.content device.old) ≡ 512 * end }
    requires at_most { end ≤ 2 ^ 54 }
    ensures found { D.disk.keeps device.old
        → IfOk result (λ count. (payload : List ℕ) × (count ≡ sectors payload) × HoldsRecord at payload (D.disk.content device.old)) }
    ensures damaged { D.disk.keeps device.old → IsErrOf result LogFault.Damaged → (payload : List ℕ)
        → HoldsRecord at payload (D.disk.content device.old) → ⊥ }
    ensures inside { IfOk result (λ count. (0 < count) × (at + count ≤ end)) }
    ensures refusal { OnErr result (IsErrOf result LogFault.Device ⊎ IsErrOf result LogFault.Damaged) }
    ensures ran { Ran D.disk device.old device.new Same }
    ensures cause { IsErrOf result LogFault.Device → HasFailed D.disk device.old device.new }
    ensures steady { OnOk result (D.disk.failures device.new ≡ D.disk.failures device.old) }
    ensures unfailed { IsErrOf result LogFault.Damaged → D.disk.failures device.new ≡ D.disk.failures device.old }
{
    if at >= end {
        return Err(LogFault::Damaged);
    }
    let first = read_sector(device, at)?;
    let payload_length = BigEndian::read_u32(&first) as usize;
    if payload_length > MOST_PAYLOAD_BYTES {
        return Err(LogFault::Damaged);
    }
    let count = sectors_of(payload_length);
    if count as u64 > end - at {
        return Err(LogFault::Damaged);
    }
    let last = read_sector(device, at + count as u64 - 1)?;
    let used = LENGTH_BYTES + payload_length - SECTOR * (count - 1);
    if !is_zero(&last[used..]) {
        return Err(LogFault::Damaged);
    }
    Ok(count as u64)
}

/// The first closed gate of the log that begins at a gate, and the number of the records before it.
pub(crate) fn last_gate_of<D: Device>(device: &mut D, at: u64) -> Result<(u64, u64), LogFault>
    ensures found { D.disk.keeps device.old
        → IfOk result (λ end. (payloads : List (List ℕ)) × (end.1 ≡ length payloads) × HoldsLog at payloads end.0 (D.disk.content device.old)) }
    ensures damaged { D.disk.keeps device.old → IsErrOf result LogFault.Damaged
        → (payloads : List (List ℕ)) (last : ℕ) → HoldsLog at payloads last (D.disk.content device.old) → ⊥ }
    ensures in_order { IfOk result (λ end. (at ≤ end.0) × (end.0 < 2 ^ 54) × (end.1 ≤ end.0)) }
    ensures refusal { OnErr result (IsErrOf result LogFault.Device ⊎ IsErrOf result LogFault.Damaged) }
    ensures ran { Ran D.disk device.old device.new Same }
    ensures cause { IsErrOf result LogFault.Device → HasFailed D.disk device.old device.new }
    ensures steady { OnOk result (D.disk.failures device.new ≡ D.disk.failures device.old) }
    ensures unfailed { IsErrOf result LogFault.Damaged → D.disk.failures device.new ≡ D.disk.failures device.old }
{
    let end = device.len()?;
    let mut gate = at;
    let mut count = 0;
    while gate < end {
        let sector = read_sector(device, gate)?;
        if sector[0] != OPEN {
            return Ok((gate, count));
        }
        gate += 1 + check_body(device, gate + 1, end)?;
        count += 1;
    }
    Err(LogFault::Damaged)
}

// A copy of some of the bytes.
fn copy_of(alloc: Global, bytes: &[u8], at: usize, count: usize) -> Result<Vec<u8>, AllocError>
    requires { at + count ≤ length bytes.now }
    ensures { IfOk result (λ copy. copy.items ≡ part at count bytes.now) }
{
    bytes[at..at + count].to_vec(alloc)
}

// The payload of the record whose body stands in this sector and those behind it, of a device of `end` sectors.
fn read_payload<D: Device>(
    alloc: Global,
    device: &mut D,
    at: u64,
    end: u64,
) -> Result<Vec<u8>, LogFault>
    requires end { D.disk.keeps device.old → length (D.disk.content device.old) ≡ 512 * end }
    requires at_most { end ≤ 2 ^ 54 }
    ensures found { D.disk.keeps device.old → (payload : List ℕ) → HoldsRecord at payload (D.disk.content device.old)
        → IfOk result (λ found. found.items ≡ payload) }
    ensures damaged { D.disk.keeps device.old → IsErrOf result LogFault.Damaged → (payload : List ℕ)
        → HoldsRecord at payload (D.disk.content device.old) → ⊥ }
    ensures inside { IfOk result (λ found. (vec_len found ≤ 67108864) × (at + body_sectors (vec_len found) ≤ end)) }
    ensures refusal { IsErrOf result LogFault.TooLong → ⊥ }
    ensures ran { Ran D.disk device.old device.new Same }
    ensures cause { IsErrOf result LogFault.Device → HasFailed D.disk device.old device.new }
    ensures steady { OnOk result (D.disk.failures device.new ≡ D.disk.failures device.old) }
    ensures unfailed { IsErrOf result LogFault.Memory ⊎ IsErrOf result LogFault.Damaged → D.disk.failures device.new ≡ D.disk.failures device.old }
{
    let count = check_body(device, at, end)?;
    let mut body = vec![in alloc; 0; count as usize * SECTOR]?;
    device.read(at, &mut body)?;
    let payload_length = BigEndian::read_u32(&body) as usize;
    if payload_length > MOST_PAYLOAD_BYTES || sectors_of(payload_length) as u64 != count {
        return Err(LogFault::Damaged);
    }
    Ok(copy_of(alloc, &body, LENGTH_BYTES, payload_length)?)
}

// The payload of the record behind a gate of a log whose last gate is `last`, and the gate behind that record; none at the last gate. The device has
// `end` sectors.
fn payload_behind<D: Device>(
    alloc: Global,
    device: &mut D,
    gate: u64,
    last: u64,
    end: u64,
) -> Result<Option<(Vec<u8>, u64)>, LogFault>
    requires end { D.disk.keeps device.old → length (D.disk.content device.old) ≡ 512 * end }
    requires at_most { end ≤ 2 ^ 54 }
    ensures found { D.disk.keeps device.old → (payloads : List (List ℕ)) → HoldsLog gate payloads last (D.disk.content device.old)
        → IfOk result (λ told. IsFirstOf told payloads last (D.disk.content device.old)) }
    ensures damaged { D.disk.keeps device.old → IsErrOf result LogFault.Damaged
        → (payloads : List (List ℕ)) → HoldsLog gate payloads last (D.disk.content device.old) → ⊥ }
    ensures ahead { IfOk result (λ told. IsAhead told gate last) }
    ensures refusal { IsErrOf result LogFault.TooLong → ⊥ }
    ensures ran { Ran D.disk device.old device.new Same }
    ensures cause { IsErrOf result LogFault.Device → HasFailed D.disk device.old device.new }
    ensures steady { OnOk result (D.disk.failures device.new ≡ D.disk.failures device.old) }
    ensures unfailed { IsErrOf result LogFault.Memory ⊎ IsErrOf result LogFault.Damaged → D.disk.failures device.new ≡ D.disk.failures device.old }
{
    if gate >= last {
        return Ok(None);
    }
    if gate >= end {
        return Err(LogFault::Damaged);
    }
    let payload = read_payload(alloc, device, gate + 1, end)?;
    let next = gate + 1 + sectors_of(payload.len()) as u64;
    Ok(Some((payload, next)))
}

/// The payload of the record behind a gate of a log whose last gate is `last`, and the gate behind that record; none at the last gate.
pub(crate) fn payload_at<D: Device>(
    alloc: Global,
    device: &mut D,
    gate: u64,
    last: u64,
) -> Result<Option<(Vec<u8>, u64)>, LogFault>
    ensures found { D.disk.keeps device.old → (payloads : List (List ℕ)) → HoldsLog gate payloads last (D.disk.content device.old)
        → IfOk result (λ told. IsFirstOf told payloads last (D.disk.content device.old)) }
    ensures damaged { D.disk.keeps device.old → IsErrOf result LogFault.Damaged
        → (payloads : List (List ℕ)) → HoldsLog gate payloads last (D.disk.content device.old) → ⊥ }
    ensures ahead { IfOk result (λ told. IsAhead told gate last) }
    ensures refusal { IsErrOf result LogFault.TooLong → ⊥ }
    ensures ran { Ran D.disk device.old device.new Same }
    ensures cause { IsErrOf result LogFault.Device → HasFailed D.disk device.old device.new }
    ensures steady { OnOk result (D.disk.failures device.new ≡ D.disk.failures device.old) }
    ensures unfailed { IsErrOf result LogFault.Memory ⊎ IsErrOf result LogFault.Damaged → D.disk.failures device.new ≡ D.disk.failures device.old }
{
    let end = device.len()?;
    payload_behind(alloc, device, gate, last, end)
}

/// The payloads of the log between two gates.
pub(crate) fn payloads_of<D: Device>(
    alloc: Global,
    device: &mut D,
    start: u64,
    last: u64,
) -> Result<Vec<Vec<u8>>, LogFault>
    ensures found { D.disk.keeps device.old → (payloads : List (List ℕ)) → HoldsLog start payloads last (D.disk.content device.old)
        → IfOk result (λ found. map (λ payload. payload.items) found.items ≡ payloads) }
    ensures damaged { D.disk.keeps device.old → IsErrOf result LogFault.Damaged
        → (payloads : List (List ℕ)) → HoldsLog start payloads last (D.disk.content device.old) → ⊥ }
    ensures refusal { IsErrOf result LogFault.TooLong → ⊥ }
    ensures ran { Ran D.disk device.old device.new Same }
    ensures cause { IsErrOf result LogFault.Device → HasFailed D.disk device.old device.new }
    ensures steady { OnOk result (D.disk.failures device.new ≡ D.disk.failures device.old) }
    ensures unfailed { IsErrOf result LogFault.Memory ⊎ IsErrOf result LogFault.Damaged → D.disk.failures device.new ≡ D.disk.failures device.old }
{
    let end = device.len()?;
    let mut found = Vec::new(alloc);
    let mut gate = start;
    'each: while let Some((payload, next)) = payload_behind(alloc, device, gate, last, end)? {
        found.push(payload)?;
        gate = next;
    }
    Ok(found)
}
