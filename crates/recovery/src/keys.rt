//! The keys that a log writes.

ghost use Rattle.std.specs.Prelude.{ℕ, List, map, Contains, IfOk, IsErrOf};
ghost use Rattle.names.specs.Key.{Key as KeyData};
ghost use Rattle.records.specs.Frames.{IsFramed};
ghost use Rattle.recovery.specs.Known.{Writes, IsOfGroup, AreKeysOf};
ghost use Rattle.recovery.specs.declared.fault.RecoveryFault.TheVariants as RecoveryFault;

use crate::fault::RecoveryFault;
use names::Key;
use records::read_keys;
use std::alloc::Global;

/// The keys that the writes of a log with these payloads write, in order. The call reads no document and no plan: [`crate::redone`] tells where one is
/// damaged.
///
/// # Errors
///
/// `Damaged` where the bytes of a payload do not fall into writes and their fields, and `Memory` when out of memory.
pub fn written_keys(alloc: Global, payloads: &[Vec<u8>]) -> Result<Vec<Key>, RecoveryFault>
    ensures all { IfOk result (λ keys. (payload : List ℕ) (key : KeyData) → Contains (map (λ p. p.items) payloads.now) payload → Writes payload key → Contains keys.items key) }
    ensures only { IfOk result (λ keys. (key : KeyData) → Contains keys.items key
        → (payload : List ℕ) × Contains (map (λ p. p.items) payloads.now) payload × (IsOfGroup payload → Writes payload key)) }
    ensures keys { IfOk result (λ keys. AreKeysOf (map (λ p. p.items) payloads.now) keys.items) }
    ensures damaged { IsErrOf result RecoveryFault.Damaged
        → (payload : List ℕ) × Contains (map (λ p. p.items) payloads.now) payload × ((keys : List KeyData) → IsFramed payload keys → ⊥) }
    ensures plans { IsErrOf result RecoveryFault.Plans → ⊥ }
{
    let mut keys = Vec::new(alloc);
    for payload in payloads {
        let mut own = read_keys(alloc, payload)?;
        keys.append(&mut own)?;
    }
    Ok(keys)
}
