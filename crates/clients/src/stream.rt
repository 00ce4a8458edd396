//! The two directions of a client's connection.

ghost use Rattle.std.specs.Prelude.{◌≡◌, ◌<◌, ◌≤◌, ℕ, ◌++◌, List, [], length, take, IfOk, OnErr};
ghost use Rattle.clients.specs.Stream.{HasStopped};

use std::io::ErrorKind;

/// Why a call moved no bytes.
#[derive(Clone, Copy)]
pub(crate) enum Stop {
    /// A signal came first: the call may be tried again.
    Again,
    /// The call would have waited.
    Waits,
    /// The stream failed, or takes no byte.
    Failed,
}

impl From<ErrorKind> for Stop {
    ghost use Rattle.clients.specs.Stream.{IsCauseOf};

    ghost from_gives = { λ kind stop. IsCauseOf kind stop };

    fn from(kind: ErrorKind) -> Stop {
        match kind {
            ErrorKind::WouldBlock => Stop::Waits,
            ErrorKind::Interrupted => Stop::Again,
            _ => Stop::Failed,
        }
    }
}

/// What bytes are read from and sent to, where no call waits.
pub(crate) trait Stream {
    /// Between these two states the first bytes were read of the client, and the second were sent to it.
    ghost moved: { Self → Self → List ℕ → List ℕ → Type 0 };

    /// The client has sent all that it sends.
    ghost has_ended: { Self → Type 0 };

    /// How often it has failed.
    ghost failures: { Self → ℕ };

    /// Reads at least one byte into the front of the buffer; 0 only where the client sends no more, or for an empty buffer.
    fn read(&mut self, buffer: &mut [u8]) -> Result<usize, Stop>
        ensures count { IfOk result (λ n. n ≤ length buffer.new) }
        ensures gives { IfOk result (λ n. moved self.old self.new (take n buffer.new) []) }
        ensures ends { IfOk result (λ n. n ≡ 0 → 0 < length buffer.new → has_ended self.new) }
        ensures nothing { OnErr result (moved self.old self.new [] []) }
        ensures cause { HasStopped (failures self.old) (failures self.new) result };

    /// Sends a front of the bytes, at least one of them.
    fn write(&mut self, bytes: &[u8]) -> Result<usize, Stop>
        requires { 0 < length bytes.now }
        ensures count { IfOk result (λ n. (0 < n) × (n ≤ length bytes.now)) }
        ensures takes { IfOk result (λ n. moved self.old self.new [] (take n bytes.now)) }
        ensures nothing { OnErr result (moved self.old self.new [] []) }
        ensures cause { HasStopped (failures self.old) (failures self.new) result };

    /// Tells the client that nothing more is sent. That this fails is no failure: the connection ends in any case.
    fn end(&mut self)
        ensures nothing { moved self.old self.new [] [] }
        ensures well { failures self.new ≡ failures self.old };

    ghost moved_none: { (stream : Self) → moved stream stream [] [] };

    ghost moved_then: { (old mid new : Self) (read more sent further : List ℕ) → moved old mid read sent → moved mid new more further
        → moved old new (read ++ more) (sent ++ further) };

    ghost ended_then: { (old new : Self) (read sent : List ℕ) → moved old new read sent → has_ended old → has_ended new };
}
