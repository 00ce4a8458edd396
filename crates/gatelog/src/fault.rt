use device::DeviceFault;
use std::alloc::{AllocError, AllocFailed};
use std::fmt;
use std::fmt::{Display, Formatter};

/// Why a call of a log failed.
#[derive(Clone, Copy)]
pub enum LogFault {
    /// The device failed, in this call or in an earlier one of this log.
    Device,
    /// No list of payloads stands on the device.
    Damaged,
    /// A payload would be longer than 67108864 bytes.
    TooLong,
    Memory,
}

impl Display for LogFault {
    ghost use Rattle.std.specs.Prelude.{Some};
    ghost use Rattle.gatelog.specs.Fault.{fault_text};

    ghost output = { λ fault. Some (fault_text fault) };

    fn fmt<W: fmt::Write>(&self, f: &mut Formatter<W>) -> fmt::Result {
        f.write_str(match self {
            LogFault::Device => "device failed",
            LogFault::Damaged => "damaged log",
            LogFault::TooLong => "payload too long",
            LogFault::Memory => "out of memory",
        })
    }
}

impl From<DeviceFault> for LogFault {
    ghost use Rattle.gatelog.specs.declared.fault.LogFault.TheVariants.{Device};
    ghost use Rattle.std.specs.Prelude.{◌≡◌};

    ghost from_gives = { λ _ fault. fault ≡ Device };

    fn from(_: DeviceFault) -> LogFault {
        LogFault::Device
    }
}

impl From<AllocError> for LogFault {
    ghost use Rattle.gatelog.specs.declared.fault.LogFault.TheVariants.{Memory};
    ghost use Rattle.std.specs.Prelude.{◌≡◌};

    ghost from_gives = { λ _ fault. fault ≡ Memory };

    fn from(_: AllocError) -> LogFault {
        LogFault::Memory
    }
}

impl<T: Drop> From<AllocFailed<T>> for LogFault {
    ghost use Rattle.gatelog.specs.declared.fault.LogFault.TheVariants.{Memory};
    ghost use Rattle.std.specs.Prelude.{◌≡◌};

    ghost from_gives = { λ _ fault. fault ≡ Memory };

    fn from(_: AllocFailed<T>) -> LogFault {
        LogFault::Memory
    }
}
