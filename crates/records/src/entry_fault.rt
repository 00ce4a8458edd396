ghost use Rattle.std.specs.Prelude.{◌≡◌};

use crate::fault::RecordFault;
use names::KeyFault;
use std::alloc::{AllocError, AllocFailed};
use std::fmt;
use std::fmt::{Display, Formatter};

/// Why an entry gives nothing.
#[derive(Clone, Copy)]
pub enum EntryFault {
    /// Nothing that is well formed has this entry.
    Damaged,
    /// Out of memory while reading it.
    Memory,
}

impl Display for EntryFault {
    ghost use Rattle.std.specs.Prelude.{Some};
    ghost use Rattle.records.specs.EntryFaults.{fault_text};

    ghost output = { λ fault. Some (fault_text fault) };

    fn fmt<W: fmt::Write>(&self, f: &mut Formatter<W>) -> fmt::Result {
        f.write_str(match self {
            EntryFault::Damaged => "damaged entry",
            EntryFault::Memory => "out of memory",
        })
    }
}

impl From<AllocError> for EntryFault {
    ghost use Rattle.records.specs.declared.entry_fault.EntryFault.TheVariants.{Memory};

    ghost from_gives = { λ _ fault. fault ≡ Memory };

    fn from(_: AllocError) -> EntryFault {
        EntryFault::Memory
    }
}

impl<T: Drop> From<AllocFailed<T>> for EntryFault {
    ghost use Rattle.records.specs.declared.entry_fault.EntryFault.TheVariants.{Memory};

    ghost from_gives = { λ _ fault. fault ≡ Memory };

    fn from(_: AllocFailed<T>) -> EntryFault {
        EntryFault::Memory
    }
}

impl From<KeyFault> for EntryFault {
    ghost use Rattle.records.specs.EntryFaults.{of_key_fault};

    ghost from_gives = { λ key_fault fault. fault ≡ of_key_fault key_fault };

    fn from(fault: KeyFault) -> EntryFault {
        match fault {
            KeyFault::NoKey => EntryFault::Damaged,
            KeyFault::Memory => EntryFault::Memory,
        }
    }
}

impl From<RecordFault> for EntryFault {
    ghost use Rattle.records.specs.EntryFaults.{of_record_fault};

    ghost from_gives = { λ record_fault fault. fault ≡ of_record_fault record_fault };

    fn from(fault: RecordFault) -> EntryFault {
        match fault {
            RecordFault::Damaged => EntryFault::Damaged,
            RecordFault::Memory => EntryFault::Memory,
        }
    }
}
