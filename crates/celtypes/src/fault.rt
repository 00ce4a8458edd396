//! Why a tree has no type.

ghost use Rattle.std.specs.Prelude.{◌≡◌};

use std::alloc::{AllocError, AllocFailed};
use thiserror::Error;

/// Why an expression is not typed.
#[derive(Debug, Drop, Error)]
pub enum TypeFault {
    /// The expression has no type.
    #[error("expression without a type")]
    NoType,
    /// Out of memory.
    #[error("out of memory")]
    Memory,
}

impl From<AllocError> for TypeFault {
    ghost use Rattle.celtypes.specs.declared.fault.TypeFault.TheVariants as fault;

    ghost from_gives = { λ _ e. e ≡ fault.Memory };

    fn from(_: AllocError) -> Self {
        TypeFault::Memory
    }
}

impl<T: Drop> From<AllocFailed<T>> for TypeFault {
    ghost use Rattle.celtypes.specs.declared.fault.TypeFault.TheVariants as fault;

    ghost from_gives = { λ _ e. e ≡ fault.Memory };

    fn from(_: AllocFailed<T>) -> Self {
        TypeFault::Memory
    }
}
