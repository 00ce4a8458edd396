//! The writes of a record, as they are gathered.

ghost use Rattle.std.specs.Prelude.{◌≡◌, ◌≢◌, ◌<◌, ◌≤◌, ◌+◌, ◌++◌, ◌∷◌, ◌⊎◌, [], ℕ, List, length, IfOk, OnOk, OnErr, IsErrOf, MatchOption};
ghost use Rattle.gatelog.specs.declared.fault.LogFault.TheVariants as LogFault;
ghost use Rattle.gatelog.specs.Payload.{payload_of};
ghost use Rattle.jsondoc.specs.Json.{text};
ghost use Rattle.documents.specs.Document.{Document};
ghost use Rattle.histories.specs.History.{Write, put, delete};
ghost use Rattle.records.specs.Payload.{write_bytes, payload, group_limit};

use crate::write_bytes::{delete_bytes, put_bytes};
use gatelog::{Body, LogFault};
use names::Key;
use std::alloc::{AllocError, Global};

/// How many writes a record holds at most.
pub const GROUP_LIMIT: usize = 16;

/// Writes that are gathered for one record, at most [`GROUP_LIMIT`].
#[derive(Drop)]
pub struct Group {
    body: Body,
    count: u16,
    ghost head: { 2 ≤ length (payload_of body) },
}

// A body with room for the number of the writes.
fn begin(alloc: Global) -> Result<Body, LogFault>
    ensures begun { IfOk result (λ body. payload_of body ≡ 0 ∷ 0 ∷ []) }
    ensures memory { OnErr result (IsErrOf result LogFault.Memory) }
{
    let mut body = Body::new(alloc)?;
    body.extend(&[0, 0])?;
    Ok(body)
}

impl Group {
    ghost use Rattle.records.specs.Gathered.{Gathers, count_of};

    /// No writes.
    pub fn new(alloc: Global) -> Result<Group, AllocError>
        ensures { IfOk result (λ group. Gathers group []) }
    {
        match begin(alloc) {
            Ok(body) => Ok(Group { body, count: 0 }),
            Err(_) => Err(AllocError),
        }
    }

    // A write more, of these bytes.
    fn add(&mut self, bytes: &[u8]) -> Result<(), LogFault>
        requires { count_of self.old < group_limit }
        ensures added { (ws : List (Write (List ℕ))) (w : Write (List ℕ)) → Gathers self.old ws → bytes.now ≡ write_bytes w
            → OnOk result (Gathers self.new (ws ++ w ∷ [])) }
        ensures same { (ws : List (Write (List ℕ))) → Gathers self.old ws → OnErr result (Gathers self.new ws) }
        ensures long { (ws : List (Write (List ℕ))) (w : Write (List ℕ)) → Gathers self.old ws → bytes.now ≡ write_bytes w
            → IsErrOf result LogFault.TooLong → 67108864 < length (payload (ws ++ w ∷ [])) }
        ensures refusal { OnErr result (IsErrOf result LogFault.TooLong ⊎ IsErrOf result LogFault.Memory) }
        ensures count { count_of self.new ≤ count_of self.old + 1 }
        ensures uncounted { OnErr result (count_of self.new ≡ count_of self.old) }
    {
        self.body.extend(bytes)?;
        self.count += 1;
        Ok(())
    }

    /// A put more, of the document of this text at this key, with these plans.
    ///
    /// # Errors
    ///
    /// `TooLong` where the payload would be longer than 67108864 bytes, and `Memory`. Each leaves the group as it was.
    pub fn put(
        &mut self,
        alloc: Global,
        key: &Key,
        document_text: &str,
        plans: &[u8],
    ) -> Result<(), LogFault>
        requires { count_of self.old < group_limit }
        ensures added { (ws : List (Write (List ℕ))) (d : Document) → Gathers self.old ws → document_text.now ≡ text d.json
            → OnOk result (Gathers self.new (ws ++ put key.now d plans.now ∷ [])) }
        ensures same { (ws : List (Write (List ℕ))) → Gathers self.old ws → OnErr result (Gathers self.new ws) }
        ensures long { (ws : List (Write (List ℕ))) (d : Document) → Gathers self.old ws → document_text.now ≡ text d.json
            → IsErrOf result LogFault.TooLong → 67108864 < length (payload (ws ++ put key.now d plans.now ∷ [])) }
        ensures refusal { OnErr result (IsErrOf result LogFault.TooLong ⊎ IsErrOf result LogFault.Memory) }
        ensures count { count_of self.new ≤ count_of self.old + 1 }
        ensures uncounted { OnErr result (count_of self.new ≡ count_of self.old) }
    {
        let bytes = put_bytes(alloc, key, document_text, plans)?;
        self.add(&bytes)
    }

    /// A deletion more, at this key.
    ///
    /// # Errors
    ///
    /// As [`Group::put`].
    pub fn delete(&mut self, alloc: Global, key: &Key) -> Result<(), LogFault>
        requires { count_of self.old < group_limit }
        ensures added { (ws : List (Write (List ℕ))) → Gathers self.old ws → OnOk result (Gathers self.new (ws ++ delete key.now ∷ [])) }
        ensures same { (ws : List (Write (List ℕ))) → Gathers self.old ws → OnErr result (Gathers self.new ws) }
        ensures long { (ws : List (Write (List ℕ))) → Gathers self.old ws
            → IsErrOf result LogFault.TooLong → 67108864 < length (payload (ws ++ delete key.now ∷ [])) }
        ensures refusal { OnErr result (IsErrOf result LogFault.TooLong ⊎ IsErrOf result LogFault.Memory) }
        ensures count { count_of self.new ≤ count_of self.old + 1 }
        ensures uncounted { OnErr result (count_of self.new ≡ count_of self.old) }
    {
        let bytes = delete_bytes(alloc, key)?;
        self.add(&bytes)
    }

    /// The body of the record, where there are writes.
    pub fn close(self) -> Option<Body>
        ensures body { (ws : List (Write (List ℕ))) → Gathers self ws → MatchOption result (ws ≡ []) (λ body. (payload_of body ≡ payload ws) × (ws ≢ [])) }
        ensures some { MatchOption result (count_of self ≡ 0) (λ _. 1 ≤ count_of self) }
    {
        let Group { mut body, count } = self;
        if count == 0 {
            return None;
        }
        body.set(0, &count.to_be_bytes());
        Some(body)
    }
}
