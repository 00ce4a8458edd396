//! How many bytes a reply has.

ghost use Rattle.std.specs.Prelude.{◌≡◌};

use httpmsg::{Output, StreamFault};

/// Counts bytes, up to 2^64 - 1, and keeps none of them.
#[derive(Drop)]
pub(crate) struct Tally {
    bytes: usize,
}

impl Tally {
    /// Of no bytes.
    pub(crate) fn new() -> Tally
        ensures { result ≡ record { bytes = 0 } }
    {
        Tally { bytes: 0 }
    }

    /// How many bytes were counted.
    pub(crate) fn bytes(&self) -> usize
        ensures { result ≡ self.now.bytes }
    {
        self.bytes
    }
}

impl Output for Tally {
    ghost use Rattle.sessions.specs.Tally.{counted, counts_none, counts_then};

    ghost took = { λ old new bytes. new.bytes ≡ counted old.bytes bytes };

    ghost failures = { λ s. 0 };

    ghost took_none = { λ s. counts_none s.bytes };

    ghost took_then = { λ old mid new front back first second. counts_then old.bytes mid.bytes new.bytes front back first second };

    /// Counts all the bytes. It never fails.
    fn write(&mut self, bytes: &[u8]) -> Result<usize, StreamFault> {
        self.bytes = self.bytes.saturating_add(bytes.len());
        Ok(bytes.len())
    }
}
