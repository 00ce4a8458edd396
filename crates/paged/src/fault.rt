ghost use Rattle.std.specs.Prelude.{◌≡◌};

use checkpoint::ScanFault;
use objects::LookupFault;
use snapshots::SnapshotFault;
use std::alloc::AllocError;

/// Why the pages of a root give no objects.
#[derive(Clone, Copy)]
pub enum PagedFault {
    /// The device failed in this call.
    Device,
    /// A page is damaged, or its keys are not above those of the page before.
    Page,
    /// The pages hold no view.
    Entry,
    /// An object that is no policy has plans.
    Plans,
    /// Out of memory.
    Memory,
}

/// Why a store has no upgraded generation.
#[derive(Clone, Copy)]
pub enum NextFault {
    /// What is stored cannot be read.
    Lookup(LookupFault),
    /// With the Namespaces there are more objects than a store holds.
    TooManyObjects,
    /// With their writes the revision is above the greatest.
    RevisionExhausted,
}

impl From<LookupFault> for NextFault {
    ghost use Rattle.paged.specs.declared.fault.NextFault.TheVariants.{Lookup};

    ghost from_gives = { λ lookup_fault fault. fault ≡ Lookup lookup_fault };

    fn from(fault: LookupFault) -> NextFault {
        NextFault::Lookup(fault)
    }
}

impl From<AllocError> for NextFault {
    ghost use Rattle.objects.specs.declared.fault.LookupFault.TheVariants.{Memory};
    ghost use Rattle.paged.specs.declared.fault.NextFault.TheVariants.{Lookup};

    ghost from_gives = { λ _ fault. fault ≡ Lookup Memory };

    fn from(_: AllocError) -> NextFault {
        NextFault::Lookup(LookupFault::Memory)
    }
}

impl From<ScanFault> for PagedFault {
    ghost use Rattle.paged.specs.Faults.{of_scan_fault};

    ghost from_gives = { λ scan_fault fault. fault ≡ of_scan_fault scan_fault };

    fn from(fault: ScanFault) -> PagedFault {
        match fault {
            ScanFault::Device => PagedFault::Device,
            ScanFault::Page => PagedFault::Page,
            ScanFault::Entry => PagedFault::Entry,
            ScanFault::Memory => PagedFault::Memory,
        }
    }
}

impl From<SnapshotFault> for PagedFault {
    ghost use Rattle.paged.specs.Faults.{of_snapshot_fault};

    ghost from_gives = { λ snapshot_fault fault. fault ≡ of_snapshot_fault snapshot_fault };

    fn from(fault: SnapshotFault) -> PagedFault {
        match fault {
            SnapshotFault::Entry => PagedFault::Entry,
            SnapshotFault::Plans => PagedFault::Plans,
            SnapshotFault::Memory => PagedFault::Memory,
        }
    }
}

impl From<AllocError> for PagedFault {
    ghost use Rattle.paged.specs.declared.fault.PagedFault.TheVariants.{Memory};

    ghost from_gives = { λ _ fault. fault ≡ Memory };

    fn from(_: AllocError) -> PagedFault {
        PagedFault::Memory
    }
}
