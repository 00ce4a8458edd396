ghost use Rattle.std.specs.Prelude.{◌≡◌};

use records::EntryFault;
use shelf::ShelfFault;
use std::alloc::{AllocError, AllocFailed};

/// Why the pages of a shelf give no objects.
#[derive(Clone, Copy)]
pub enum ObjectCacheFault {
    /// The device failed in this call.
    Device,
    /// What stands where a page is to stand is damaged, or an entry with an object's key is of no object.
    Damaged,
    /// Out of memory.
    Memory,
}

impl From<AllocError> for ObjectCacheFault {
    ghost use Rattle.snapshots.specs.declared.object_cache_fault.ObjectCacheFault.TheVariants.{Memory};

    ghost from_gives = { λ _ fault. fault ≡ Memory };

    fn from(_: AllocError) -> ObjectCacheFault {
        ObjectCacheFault::Memory
    }
}

impl<T: Drop> From<AllocFailed<T>> for ObjectCacheFault {
    ghost use Rattle.snapshots.specs.declared.object_cache_fault.ObjectCacheFault.TheVariants.{Memory};

    ghost from_gives = { λ _ fault. fault ≡ Memory };

    fn from(_: AllocFailed<T>) -> ObjectCacheFault {
        ObjectCacheFault::Memory
    }
}

impl From<ShelfFault> for ObjectCacheFault {
    ghost use Rattle.snapshots.specs.ObjectCacheFaults.{of_shelf_fault};

    ghost from_gives = { λ shelf_fault fault. fault ≡ of_shelf_fault shelf_fault };

    fn from(fault: ShelfFault) -> ObjectCacheFault {
        match fault {
            ShelfFault::Device => ObjectCacheFault::Device,
            ShelfFault::Page | ShelfFault::Entry => ObjectCacheFault::Damaged,
            ShelfFault::Memory => ObjectCacheFault::Memory,
        }
    }
}

impl From<EntryFault> for ObjectCacheFault {
    ghost use Rattle.snapshots.specs.ObjectCacheFaults.{of_entry_fault};

    ghost from_gives = { λ entry_fault fault. fault ≡ of_entry_fault entry_fault };

    fn from(fault: EntryFault) -> ObjectCacheFault {
        match fault {
            EntryFault::Damaged => ObjectCacheFault::Damaged,
            EntryFault::Memory => ObjectCacheFault::Memory,
        }
    }
}
