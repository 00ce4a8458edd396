//! What was replied to a client, as far as it was not sent.

ghost use Rattle.std.specs.Prelude.{◌≡◌, ◌≤◌, ◌++◌, [], ℕ, length, drop, IfOk};
ghost use Rattle.std.specs.Vec.{vec_capacity};

use httpmsg::{Output, StreamFault};
use std::alloc::Global;

// How much room is kept where nothing waits.
const KEPT_BYTES: usize = 4096;

/// Bytes that wait to be sent.
#[derive(Drop)]
pub struct Outbox {
    bytes: Vec<u8>,
    sent: usize,
    failures: u64,
    ghost fits: { sent ≤ length bytes.items },
}

impl Outbox {
    ghost use Rattle.sessions.specs.Outbox.{unsent};

    /// One with nothing in it. It takes no memory.
    pub fn new(alloc: Global) -> Outbox
        ensures { unsent result ≡ [] }
    {
        Outbox {
            bytes: Vec::new(alloc),
            sent: 0,
            failures: 0,
        }
    }

    /// What waits.
    pub fn rest(&self) -> &[u8]
        ensures { result.now ≡ unsent self.now }
    {
        &self.bytes[self.sent..]
    }

    /// So many bytes of what waits were sent. Where nothing waits any more, large room is given back.
    pub fn take(&mut self, alloc: Global, count: usize)
        requires { count ≤ length (unsent self.old) }
        ensures rest { unsent self.new ≡ drop count (unsent self.old) }

        // Where nothing waits any more, room for 4096 bytes is kept at most.
        ensures room { unsent self.new ≡ [] → vec_capacity self.new.bytes ≤ 4096 }
    {
        self.sent += count;
        if self.sent < self.bytes.len() {
            return;
        }
        self.sent = 0;
        if self.bytes.capacity() > KEPT_BYTES {
            self.bytes = Vec::new(alloc);
        } else {
            self.bytes.clear();
        }
    }
}

impl Output for Outbox {
    ghost use Rattle.sessions.specs.Outbox.{unsent, gathers_none, gathers_then};

    ghost took = { λ old new bytes. unsent new ≡ unsent old ++ bytes };

    ghost failures = { λ s. s.failures };

    ghost took_none = { λ s. gathers_none s };

    ghost took_then = { λ old mid new front back first second. gathers_then old mid new front back first second };

    /// Takes all the bytes, or fails where memory is refused to them.
    fn write(&mut self, bytes: &[u8]) -> Result<usize, StreamFault> {
        if self.bytes.extend_from_slice(bytes).is_err() {
            self.failures = self.failures.saturating_add(1);
            return Err(StreamFault);
        }
        Ok(bytes.len())
    }
}
