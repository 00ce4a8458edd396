//! A client's socket.

ghost use Rattle.std.specs.Prelude.{◌≡◌, ◌≤◌};
ghost use Rattle.clients.specs.Stream.{CountsFailure};

use crate::stream::{Stop, Stream};
use mio::net::TcpStream;
use std::io::{Read, Write};
use std::net::Shutdown;

/// A TCP connection. What is read of it and sent to it is known to no contract of the system's; how often it failed is counted here.
#[derive(Drop)]
pub(crate) struct Socket {
    stream: TcpStream,
    failures: u64,
}

impl Socket {
    /// A connection that did not fail yet.
    pub(crate) fn new(stream: TcpStream) -> Socket
        ensures { result.failures ≡ 0 }
    {
        Socket {
            stream,
            failures: 0,
        }
    }

    // Why a call stopped, which counts where it failed.
    fn stopped(&mut self, stop: Stop) -> Stop
        ensures same { result ≡ stop }
        ensures later { self.old.failures ≤ self.new.failures }
        ensures counts { CountsFailure self.old.failures self.new.failures stop }
    {
        if let Stop::Failed = stop {
            self.failures = self.failures.saturating_add(1);
        }
        stop
    }
}

impl Stream for Socket {
    ghost use Rattle.std.specs.Prelude.{⊤};

    ghost moved = { λ old new read sent. ⊤ };

    ghost has_ended = { λ s. ⊤ };

    ghost failures = { λ s. s.failures };

    ghost moved_none = { λ s. tt };

    ghost moved_then = { λ old mid new read more sent further first second. tt };

    ghost ended_then = { λ old new read sent moved ended. tt };

    fn read(&mut self, buffer: &mut [u8]) -> Result<usize, Stop> {
        let mut stream = &self.stream;
        match stream.read(buffer) {
            Ok(count) => Ok(count),
            Err(error) => Err(self.stopped(Stop::from(error.kind()))),
        }
    }

    fn write(&mut self, bytes: &[u8]) -> Result<usize, Stop> {
        let mut stream = &self.stream;
        match stream.write(bytes) {
            Ok(0) => Err(self.stopped(Stop::Failed)),
            Ok(count) => Ok(count),
            Err(error) => Err(self.stopped(Stop::from(error.kind()))),
        }
    }

    fn end(&mut self) {
        let _ = self.stream.shutdown(Shutdown::Write);
    }
}
