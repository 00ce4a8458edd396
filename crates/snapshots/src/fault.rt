ghost use Rattle.std.specs.Prelude.{◌≡◌};

use plancode::ReadPlansFault;
use records::EntryFault;
use std::alloc::{AllocError, AllocFailed};

/// Why entries give no store.
#[derive(Clone, Copy)]
pub enum SnapshotFault {
    /// No view that can be kept has these entries.
    Entry,
    /// An object that is no policy has plans.
    Plans,
    /// Out of memory.
    Memory,
}

impl From<AllocError> for SnapshotFault {
    ghost use Rattle.snapshots.specs.declared.fault.SnapshotFault.TheVariants.{Memory};

    ghost from_gives = { λ _ fault. fault ≡ Memory };

    fn from(_: AllocError) -> SnapshotFault {
        SnapshotFault::Memory
    }
}

impl<T: Drop> From<AllocFailed<T>> for SnapshotFault {
    ghost use Rattle.snapshots.specs.declared.fault.SnapshotFault.TheVariants.{Memory};

    ghost from_gives = { λ _ fault. fault ≡ Memory };

    fn from(_: AllocFailed<T>) -> SnapshotFault {
        SnapshotFault::Memory
    }
}

impl From<EntryFault> for SnapshotFault {
    ghost use Rattle.snapshots.specs.Faults.{of_entry_fault};

    ghost from_gives = { λ entry_fault fault. fault ≡ of_entry_fault entry_fault };

    fn from(fault: EntryFault) -> SnapshotFault {
        match fault {
            EntryFault::Damaged => SnapshotFault::Entry,
            EntryFault::Memory => SnapshotFault::Memory,
        }
    }
}

impl From<ReadPlansFault> for SnapshotFault {
    ghost use Rattle.snapshots.specs.Faults.{of_plans_fault};

    ghost from_gives = { λ plans_fault fault. fault ≡ of_plans_fault plans_fault };

    fn from(fault: ReadPlansFault) -> SnapshotFault {
        match fault {
            ReadPlansFault::Damaged => SnapshotFault::Plans,
            ReadPlansFault::Memory => SnapshotFault::Memory,
        }
    }
}
