//! Why a text has no tree.

ghost use Rattle.std.specs.Prelude.{◌≡◌};

use crate::parse_fault::ParseFault;
use std::alloc::{AllocError, AllocFailed};
use thiserror::Error;

/// Why an expression is not read.
#[derive(Debug, Drop, Error)]
pub enum ReadFault {
    /// The text has more than 4096 bytes.
    #[error("expression too long")]
    TooLong,
    /// More than 32 brackets are open at once, or macros nest three deep.
    #[error("expression too deep")]
    TooDeep,
    /// The text has no tokens, or its tokens spell no tree.
    #[error("expression not in the grammar")]
    NotInGrammar,
    /// Out of memory.
    #[error("out of memory")]
    Memory,
}

impl From<AllocError> for ReadFault {
    ghost use Rattle.celread.specs.declared.fault.ReadFault.TheVariants as fault;

    ghost from_gives = { λ _ e. e ≡ fault.Memory };

    fn from(_: AllocError) -> Self {
        ReadFault::Memory
    }
}

impl<T: Drop> From<AllocFailed<T>> for ReadFault {
    ghost use Rattle.celread.specs.declared.fault.ReadFault.TheVariants as fault;

    ghost from_gives = { λ _ e. e ≡ fault.Memory };

    fn from(_: AllocFailed<T>) -> Self {
        ReadFault::Memory
    }
}

impl From<ParseFault> for ReadFault {
    ghost use Rattle.celread.specs.Faults.{of_parse_fault};

    ghost from_gives = { λ parse_fault e. e ≡ of_parse_fault parse_fault };

    fn from(fault: ParseFault) -> Self {
        match fault {
            ParseFault::NotInGrammar => ReadFault::NotInGrammar,
            ParseFault::Memory => ReadFault::Memory,
        }
    }
}
