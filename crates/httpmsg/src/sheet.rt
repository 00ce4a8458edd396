//! A sheet on which the bytes of a response are gathered, so that they are handed on in one write.

ghost use Rattle.std.specs.Prelude.{◌≡◌, ◌≤◌, ◌++◌, [], ℕ, length, take, IfOk};

use crate::streams::{Output, StreamFault};
use std::alloc::{AllocError, Global};

/// How many bytes are gathered at most: more than a response that shows one object has.
pub(crate) const SHEET_BYTES: usize = 18432;

/// Bytes that are gathered in room that was taken before.
#[derive(Drop)]
pub struct Sheet {
    room: Vec<u8>,
    len: usize,
    failures: u64,
    ghost fits: { len ≤ length room.items },
}

impl Sheet {
    ghost use Rattle.httpmsg.specs.Sheet.{gathered};

    /// An empty sheet. All its memory is taken here.
    pub fn new(alloc: Global) -> Result<Sheet, AllocError>
        ensures { IfOk result (λ sheet. gathered sheet ≡ []) }
    {
        Ok(Sheet {
            room: vec![in alloc; 0; SHEET_BYTES]?,
            len: 0,
            failures: 0,
        })
    }

    /// Empties the sheet.
    pub fn clear(&mut self)
        ensures { gathered self.new ≡ [] }
    {
        self.len = 0;
    }

    /// What was gathered.
    pub fn bytes(&self) -> &[u8]
        ensures { result.now ≡ gathered self.now }
    {
        &self.room[..self.len]
    }
}

impl Output for Sheet {
    ghost use Rattle.httpmsg.specs.Sheet.{gathered, gathers_none, gathers_then};

    ghost took = { λ old new bytes. gathered new ≡ gathered old ++ bytes };

    ghost failures = { λ s. s.failures };

    ghost took_none = { λ s. gathers_none s };

    ghost took_then = { λ old mid new front back first second. gathers_then old mid new front back first second };

    /// Takes all the bytes, or fails where there is no room for them.
    fn write(&mut self, bytes: &[u8]) -> Result<usize, StreamFault> {
        if bytes.len() > self.room.len() - self.len {
            self.failures = self.failures.saturating_add(1);
            return Err(StreamFault);
        }
        let end = self.len + bytes.len();
        self.room[self.len..end].copy_from_slice(bytes);
        self.len = end;
        Ok(bytes.len())
    }
}
