//! Why tokens have no tree.

ghost use Rattle.std.specs.Prelude.{◌≡◌};

use std::alloc::{AllocError, AllocFailed};

/// Why tokens are not read.
#[derive(Clone, Copy)]
pub(crate) enum ParseFault {
    /// The tokens spell no tree.
    NotInGrammar,
    /// Out of memory.
    Memory,
}

impl From<AllocError> for ParseFault {
    ghost use Rattle.celread.specs.declared.parse_fault.ParseFault.TheVariants as fault;

    ghost from_gives = { λ _ e. e ≡ fault.Memory };

    fn from(_: AllocError) -> Self {
        ParseFault::Memory
    }
}

impl<T: Drop> From<AllocFailed<T>> for ParseFault {
    ghost use Rattle.celread.specs.declared.parse_fault.ParseFault.TheVariants as fault;

    ghost from_gives = { λ _ e. e ≡ fault.Memory };

    fn from(_: AllocFailed<T>) -> Self {
        ParseFault::Memory
    }
}
