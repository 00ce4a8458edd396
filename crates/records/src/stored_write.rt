ghost use Rattle.std.specs.Prelude.{◌≡◌, ◌≢◌, ◌++◌, ℕ, List, IsTrue, IfOk, IsErrOf};
ghost use Rattle.jsondoc.specs.Json.{text};
ghost use Rattle.names.specs.Key.{Key as KeyData, is_key, key_bytes};
ghost use Rattle.documents.specs.Document.{Document};
ghost use Rattle.requests.specs.Codes.{document_in};
ghost use Rattle.documents.specs.Form.{HasForm};
ghost use Rattle.fields.specs.Field.{field};
ghost use Rattle.histories.specs.History.{Write, put};
ghost use Rattle.records.specs.declared.fault.RecordFault.TheVariants as RecordFault;
ghost use Rattle.records.specs.Payload.{fields, write_bytes, IsStorable};
ghost use Rattle.records.specs.WriteOf.{write_of};

use crate::RecordFault;
use crate::write_bytes::{DELETE, PUT};
use fields::{long_field, short_field};
use names::Key;
use requests::Manifest;
use std::alloc::Global;

/// A write, as it is read from its payload.
#[derive(Drop)]
pub enum StoredWrite<'a> {
    /// The manifest's document was put at its key, and its plans have these bytes.
    Put(Manifest, &'a [u8]),
    /// The object at the key was deleted.
    Delete(Key),
}

/// Reads the write that the bytes begin with, and hands on what stands after it. `Damaged` where they begin with no well-formed write.
pub(crate) fn read_one(alloc: Global, bytes: &[u8]) -> Result<(StoredWrite<'_>, &[u8]), RecordFault>
    ensures write { IfOk result (λ p. write_bytes (write_of p.0) ++ p.1.now ≡ bytes.now) }
    ensures form { IfOk result (λ p. IsStorable (write_of p.0)) }
    ensures damaged { IsErrOf result RecordFault.Damaged → (w : Write (List ℕ)) (rest : List ℕ) → IsStorable w → write_bytes w ++ rest ≢ bytes.now }
{
    let Some((kind, fields)) = bytes.split_first() else {
        return Err(RecordFault::Damaged);
    };
    match *kind {
        PUT => {
            let (manifest, plans, rest) = read_put(alloc, fields)?;
            Ok((StoredWrite::Put(manifest, plans), rest))
        }
        DELETE => {
            let (key, rest) = read_key_field(alloc, fields)?;
            Ok((StoredWrite::Delete(key), rest))
        }
        _ => Err(RecordFault::Damaged),
    }
}

// Reads the fields of a put, its document and its plans, and hands on what stands after them.
fn read_put(alloc: Global, bytes: &[u8]) -> Result<(Manifest, &[u8], &[u8]), RecordFault>
    ensures write { IfOk result (λ r. fields (put r.0.key (document_in r.0.body) r.1.now) ++ r.2.now ≡ bytes.now) }
    ensures form { IfOk result (λ r. IsStorable (put r.0.key (document_in r.0.body) r.1.now)) }
    ensures damaged { IsErrOf result RecordFault.Damaged → (k : KeyData) (d : Document) (plans rest : List ℕ)
        → IsStorable (put k d plans) → fields (put k d plans) ++ rest ≢ bytes.now }
{
    let Some((key, rest)) = short_field(bytes) else {
        return Err(RecordFault::Damaged);
    };
    let Some((document, rest)) = long_field(rest) else {
        return Err(RecordFault::Damaged);
    };
    let Some((plans, rest)) = long_field(rest) else {
        return Err(RecordFault::Damaged);
    };
    let manifest = read_manifest(alloc, key, document)?;
    Ok((manifest, plans, rest))
}

/// Reads a manifest from the bytes of its key and the text of its document. `Damaged` where no document that has its key's form has these.
pub(crate) fn read_manifest(
    alloc: Global,
    key: &[u8],
    document_text: &[u8],
) -> Result<Manifest, RecordFault>
    ensures key { IfOk result (λ m. key_bytes m.key ≡ key.now) }
    ensures form { IfOk result (λ m. HasForm m.key (document_in m.body)) }
    ensures text { IfOk result (λ m. text (document_in m.body).json ≡ document_text.now) }
    ensures damaged { IsErrOf result RecordFault.Damaged
        → (k : KeyData) (d : Document) → HasForm k d → key_bytes k ≡ key.now → text d.json ≢ document_text.now }
{
    let key = Key::read(alloc, key)?;
    read_document(alloc, &key, document_text)
}

/// Reads the text of a document that is stored at a key. `Damaged` where no document of the key's form has this text.
pub fn read_document(
    alloc: Global,
    key: &Key,
    document_text: &[u8],
) -> Result<Manifest, RecordFault>
    ensures key { IfOk result (λ m. m.key ≡ key.now) }
    ensures form { IfOk result (λ m. HasForm key.now (document_in m.body)) }
    ensures text { IfOk result (λ m. text (document_in m.body).json ≡ document_text.now) }
    ensures damaged { IsErrOf result RecordFault.Damaged
        → (d : Document) → HasForm key.now d → text d.json ≢ document_text.now }
{
    let manifest = Manifest::read(
        alloc,
        key.resource(),
        key.namespace(),
        Some(key.name()),
        document_text,
    )?;
    if manifest.text().as_bytes() != document_text {
        return Err(RecordFault::Damaged);
    }
    Ok(manifest)
}

/// Reads the key that the bytes begin with, behind its number, and hands on what stands after it. `Damaged` where they begin with no well-formed key.
pub(crate) fn read_key_field(alloc: Global, bytes: &[u8]) -> Result<(Key, &[u8]), RecordFault>
    ensures field { IfOk result (λ r. field 2 (key_bytes r.0) ++ r.1.now ≡ bytes.now) }
    ensures form { IfOk result (λ r. IsTrue (is_key r.0)) }
    ensures damaged { IsErrOf result RecordFault.Damaged → (k : KeyData) (rest : List ℕ)
        → IsTrue (is_key k) → field 2 (key_bytes k) ++ rest ≢ bytes.now }
{
    let Some((key, rest)) = short_field(bytes) else {
        return Err(RecordFault::Damaged);
    };
    let key = Key::read(alloc, key)?;
    Ok((key, rest))
}
