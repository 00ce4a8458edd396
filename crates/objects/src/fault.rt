//! Why a look at objects gives no answer.

ghost use Rattle.std.specs.Prelude.{◌≡◌};
ghost use Rattle.objects.specs.declared.fault.LookupFault.TheVariants as LookupFault;

use std::alloc::{AllocError, AllocFailed};
use thiserror::Error;

/// A part of what is stored, which may be damaged.
#[derive(Clone, Copy, Debug, Drop)]
pub enum Part {
    /// An object.
    Entry,
    /// The plans of a policy.
    Plans,
}

/// Why a look at objects, which may lie on a device, gives no answer.
#[derive(Clone, Copy, Debug, Drop, Error)]
pub enum LookupFault {
    /// The device below them failed.
    #[error("device failed")]
    Device,
    /// This part of what was read is damaged.
    #[error("damaged store")]
    Damaged(Part),
    /// Out of memory.
    #[error("out of memory")]
    Memory,
}

impl From<AllocError> for LookupFault {
    ghost from_gives = { λ _ fault. fault ≡ LookupFault.Memory };

    fn from(_: AllocError) -> LookupFault {
        LookupFault::Memory
    }
}

impl<T: Drop> From<AllocFailed<T>> for LookupFault {
    ghost from_gives = { λ _ fault. fault ≡ LookupFault.Memory };

    fn from(_: AllocFailed<T>) -> LookupFault {
        LookupFault::Memory
    }
}
