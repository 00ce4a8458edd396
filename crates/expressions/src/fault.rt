//! Why a document is no policy.

ghost use Rattle.std.specs.Prelude.{◌≡◌};

use std::alloc::{AllocError, AllocFailed};
use thiserror::Error;

/// Why a document gives no policy.
#[derive(Debug, Drop, Error)]
pub enum PolicyFault {
    /// The document has not the form of a policy.
    #[error("bad spec")]
    BadSpec,
    /// The first expression that is not read, or has not a type that it must have: its text.
    #[error("bad expression: {0}")]
    BadExpression(String),
    /// Out of memory.
    #[error("out of memory")]
    Memory,
}

impl From<AllocError> for PolicyFault {
    ghost use Rattle.expressions.specs.declared.fault.PolicyFault.TheVariants as fault;

    ghost from_gives = { λ _ e. e ≡ fault.Memory };

    fn from(_: AllocError) -> Self {
        PolicyFault::Memory
    }
}

impl<T: Drop> From<AllocFailed<T>> for PolicyFault {
    ghost use Rattle.expressions.specs.declared.fault.PolicyFault.TheVariants as fault;

    ghost from_gives = { λ _ e. e ≡ fault.Memory };

    fn from(_: AllocFailed<T>) -> Self {
        PolicyFault::Memory
    }
}
