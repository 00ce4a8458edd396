//! The bytes of one write, as they stand in a payload.

ghost use Rattle.std.specs.Prelude.{◌≡◌, ◌≤◌, ◌++◌, ◌∷◌, ◌^◌, ◌⊎◌, [], length, IfOk, OnOk, OnErr, IsErrOf};
ghost use Rattle.gatelog.specs.declared.fault.LogFault.TheVariants as LogFault;
ghost use Rattle.jsondoc.specs.Json.{text};
ghost use Rattle.names.specs.Key.{key_bytes};
ghost use Rattle.documents.specs.Document.{Document};
ghost use Rattle.histories.specs.History.{put, delete};
ghost use Rattle.fields.specs.Field.{field};
ghost use Rattle.records.specs.Payload.{write_bytes};

use byteorder::{BigEndian, ByteOrder};
use gatelog::LogFault;
use names::Key;
use std::alloc::{AllocError, Global};

pub(crate) const PUT: u8 = 1;

pub(crate) const DELETE: u8 = 2;

/// Adds a key's bytes, with their number in front in two bytes. A well-formed key has at most 318 bytes.
pub(crate) fn add_key(bytes: &mut Vec<u8>, alloc: Global, key: &Key) -> Result<(), AllocError>
    ensures { OnOk result (bytes.new.items ≡ bytes.old.items ++ field 2 (key_bytes key.now)) }
{
    let spelled = key.bytes(alloc)?;
    prove!(key.name().len() <= 253);
    let mut size = [0; 2];
    BigEndian::write_u16(&mut size, spelled.len() as u16);
    bytes.extend_from_slice(&size)?;
    bytes.extend_from_slice(&spelled)
}

// Adds bytes, with their number in front in four bytes. `TooLong` where those can't hold it.
fn add_long_field(bytes: &mut Vec<u8>, more: &[u8]) -> Result<(), LogFault>
    ensures added { OnOk result (bytes.new.items ≡ bytes.old.items ++ field 4 more.now) }
    ensures long { IsErrOf result LogFault.TooLong → 2 ^ 32 ≤ length more.now }
    ensures refusal { OnErr result (IsErrOf result LogFault.TooLong ⊎ IsErrOf result LogFault.Memory) }
{
    if more.len() > u32::MAX as usize {
        return Err(LogFault::TooLong);
    }
    let mut size = [0; 4];
    BigEndian::write_u32(&mut size, more.len() as u32);
    bytes.extend_from_slice(&size)?;
    bytes.extend_from_slice(more)?;
    Ok(())
}

/// The bytes of a put. `TooLong` where the number of the text's bytes, or of the plans', does not fit its four bytes.
pub(crate) fn put_bytes(
    alloc: Global,
    key: &Key,
    document_text: &str,
    plans: &[u8],
) -> Result<Vec<u8>, LogFault>
    ensures bytes { (d : Document) → document_text.now ≡ text d.json → IfOk result (λ bytes. bytes.items ≡ write_bytes (put key.now d plans.now)) }
    ensures long { IsErrOf result LogFault.TooLong → (2 ^ 32 ≤ length document_text.now) ⊎ (2 ^ 32 ≤ length plans.now) }
    ensures refusal { OnErr result (IsErrOf result LogFault.TooLong ⊎ IsErrOf result LogFault.Memory) }
{
    let mut bytes = Vec::from_slice(alloc, &[PUT])?;
    add_key(&mut bytes, alloc, key)?;
    add_long_field(&mut bytes, document_text.as_bytes())?;
    add_long_field(&mut bytes, plans)?;
    Ok(bytes)
}

/// The bytes of a deletion.
pub(crate) fn delete_bytes(alloc: Global, key: &Key) -> Result<Vec<u8>, AllocError>
    ensures { IfOk result (λ bytes. bytes.items ≡ write_bytes (delete key.now)) }
{
    let mut bytes = Vec::from_slice(alloc, &[DELETE])?;
    add_key(&mut bytes, alloc, key)?;
    Ok(bytes)
}
