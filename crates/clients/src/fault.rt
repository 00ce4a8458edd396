//! Why an address is not listened on, and why clients are no longer served.

ghost use Rattle.std.specs.Prelude.{◌≡◌};

use api::ServeFault;
use durable::Fault;
use std::alloc::AllocError;
use std::io;

/// Why an address is not listened on.
#[derive(Clone, Copy)]
pub enum BindFault {
    /// The system refuses it.
    System(io::Error),
    /// Out of memory.
    Memory,
}

impl From<AllocError> for BindFault {
    ghost use Rattle.clients.specs.declared.fault.BindFault.TheVariants.{Memory};

    ghost from_gives = { λ _ fault. fault ≡ Memory };

    fn from(_: AllocError) -> BindFault {
        BindFault::Memory
    }
}

impl From<io::Error> for BindFault {
    ghost use Rattle.clients.specs.declared.fault.BindFault.TheVariants.{System};

    ghost from_gives = { λ error fault. fault ≡ System error };

    fn from(error: io::Error) -> BindFault {
        BindFault::System(error)
    }
}

/// Why clients are no longer served. A client's own fault is none: it ends that client alone.
#[derive(Clone, Copy)]
pub enum ClientsFault {
    /// The system no longer tells what is ready, or what time it is.
    Network,
    /// The store failed, or what was read of it is damaged.
    Store(ServeFault),
    /// The store failed, or what was read of it is damaged, while it was compacted.
    Compaction(Fault),
}
