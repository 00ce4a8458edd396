ghost use Rattle.std.specs.Prelude.{◌≡◌};

use holdings::RedoFault;
use plancode::ReadPlansFault;
use records::RecordFault;
use std::alloc::AllocError;
use std::fmt;
use std::fmt::{Display, Formatter};

/// Why payloads give no store.
#[derive(Clone, Copy)]
pub enum RecoveryFault {
    /// No writes that may follow have these payloads.
    Damaged,
    /// An object that is no policy has plans.
    Plans,
    /// Out of memory while taking them.
    Memory,
}

impl Display for RecoveryFault {
    ghost use Rattle.std.specs.Prelude.{Some};
    ghost use Rattle.recovery.specs.Faults.{words};

    ghost output = { λ fault. Some (words fault) };

    fn fmt<W: fmt::Write>(&self, f: &mut Formatter<W>) -> fmt::Result {
        f.write_str(match self {
            RecoveryFault::Damaged => "damaged log",
            RecoveryFault::Plans => "damaged plans",
            RecoveryFault::Memory => "out of memory",
        })
    }
}

impl From<AllocError> for RecoveryFault {
    ghost use Rattle.recovery.specs.declared.fault.RecoveryFault.TheVariants.{Memory};

    ghost from_gives = { λ _ fault. fault ≡ Memory };

    fn from(_error: AllocError) -> RecoveryFault {
        RecoveryFault::Memory
    }
}

impl From<RecordFault> for RecoveryFault {
    ghost use Rattle.recovery.specs.Faults.{of_record_fault};

    ghost from_gives = { λ record_fault fault. fault ≡ of_record_fault record_fault };

    fn from(fault: RecordFault) -> RecoveryFault {
        match fault {
            RecordFault::Damaged => RecoveryFault::Damaged,
            RecordFault::Memory => RecoveryFault::Memory,
        }
    }
}

impl From<RedoFault> for RecoveryFault {
    ghost use Rattle.recovery.specs.Faults.{of_redo_fault};

    ghost from_gives = { λ redo_fault fault. fault ≡ of_redo_fault redo_fault };

    fn from(fault: RedoFault) -> RecoveryFault {
        match fault {
            RedoFault::NotAllowed => RecoveryFault::Damaged,
            RedoFault::Memory => RecoveryFault::Memory,
        }
    }
}

impl From<ReadPlansFault> for RecoveryFault {
    ghost use Rattle.recovery.specs.Faults.{of_plans_fault};

    ghost from_gives = { λ plans_fault fault. fault ≡ of_plans_fault plans_fault };

    fn from(fault: ReadPlansFault) -> RecoveryFault {
        match fault {
            ReadPlansFault::Damaged => RecoveryFault::Plans,
            ReadPlansFault::Memory => RecoveryFault::Memory,
        }
    }
}
