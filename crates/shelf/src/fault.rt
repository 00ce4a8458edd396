ghost use Rattle.std.specs.Prelude.{◌≡◌};

use checkpoint::ReaderFault;
use device::DeviceFault;
use pages::PageDamage;
use std::alloc::{AllocError, AllocFailed};

/// Why the pages of a shelf give no answer.
#[derive(Clone, Copy)]
pub enum ShelfFault {
    /// The device failed in this call.
    Device,
    /// What stands where a page is to stand is damaged.
    Page,
    /// The reader refused an entry.
    Entry,
    /// Out of memory.
    Memory,
}

impl From<DeviceFault> for ShelfFault {
    ghost use Rattle.shelf.specs.declared.fault.ShelfFault.TheVariants.{Device};

    ghost from_gives = { λ _ fault. fault ≡ Device };

    fn from(_: DeviceFault) -> ShelfFault {
        ShelfFault::Device
    }
}

impl From<PageDamage> for ShelfFault {
    ghost use Rattle.shelf.specs.declared.fault.ShelfFault.TheVariants.{Page};

    ghost from_gives = { λ _ fault. fault ≡ Page };

    fn from(_: PageDamage) -> ShelfFault {
        ShelfFault::Page
    }
}

impl From<ReaderFault> for ShelfFault {
    ghost use Rattle.shelf.specs.Faults.{of_reader_fault};

    ghost from_gives = { λ read fault. fault ≡ of_reader_fault read };

    fn from(fault: ReaderFault) -> ShelfFault {
        match fault {
            ReaderFault::Entry => ShelfFault::Entry,
            ReaderFault::Memory => ShelfFault::Memory,
        }
    }
}

impl From<AllocError> for ShelfFault {
    ghost use Rattle.shelf.specs.declared.fault.ShelfFault.TheVariants.{Memory};

    ghost from_gives = { λ _ fault. fault ≡ Memory };

    fn from(_: AllocError) -> ShelfFault {
        ShelfFault::Memory
    }
}

impl<T: Drop> From<AllocFailed<T>> for ShelfFault {
    ghost use Rattle.shelf.specs.declared.fault.ShelfFault.TheVariants.{Memory};

    ghost from_gives = { λ _ fault. fault ≡ Memory };

    fn from(_: AllocFailed<T>) -> ShelfFault {
        ShelfFault::Memory
    }
}
