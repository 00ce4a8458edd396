//! What is told of an upgrade.

use crate::fault::{Damage, Fault};
use names::Format;
use std::fmt;
use std::fmt::{Display, Formatter};

/// A store that was upgraded.
#[derive(Clone, Copy, Debug)]
pub struct Upgraded {
    /// The format of its file now.
    pub format: Format,
    pub generation: u64,
    /// That of the last write, those of the upgrade among them.
    pub revision: u64,
    /// How many Namespaces were put.
    pub namespaces: usize,
}

/// Why a store was not upgraded.
#[derive(Clone, Copy, Debug)]
pub enum UpgradeFault {
    /// The device failed in this call: the store stands as it was, or upgraded.
    Device,
    /// Out of memory: nothing changed.
    Memory,
    /// The content of the device stands for no history.
    Damaged(Damage),
    /// The device failed in an earlier call, or damage was found: the device was not touched, and the store has to be opened again.
    Failed,
    /// With the Namespaces there would be more objects than a store holds: nothing changed.
    TooManyObjects,
    /// The revision, or the generation, would be above the greatest one: nothing changed.
    RevisionExhausted,
    /// The store is of the newest format already: nothing changed.
    NotOld,
}

impl Display for UpgradeFault {
    ghost use Rattle.std.specs.Prelude.{Some};
    ghost use Rattle.durable.specs.Upgraded.{upgrade_fault_text};

    ghost output = { λ fault. Some (upgrade_fault_text fault) };

    fn fmt<W: fmt::Write>(&self, f: &mut Formatter<W>) -> fmt::Result {
        match self {
            UpgradeFault::Device => f.write_str("device failed"),
            UpgradeFault::Memory => f.write_str("out of memory"),
            UpgradeFault::Damaged(damage) => write!(f, "damaged: {damage}"),
            UpgradeFault::Failed => f.write_str("device failed before"),
            UpgradeFault::TooManyObjects => f.write_str("too many objects"),
            UpgradeFault::RevisionExhausted => f.write_str("revision exhausted"),
            UpgradeFault::NotOld => f.write_str("already upgraded"),
        }
    }
}

impl From<Fault> for UpgradeFault {
    ghost use Rattle.std.specs.Prelude.{◌≡◌};
    ghost use Rattle.durable.specs.Upgraded.{of_fault};

    ghost from_gives = { λ store_fault fault. fault ≡ of_fault store_fault };

    fn from(fault: Fault) -> UpgradeFault {
        match fault {
            Fault::Device => UpgradeFault::Device,
            Fault::Memory => UpgradeFault::Memory,
            Fault::Damaged(damage) => UpgradeFault::Damaged(damage),
            Fault::Failed => UpgradeFault::Failed,
            Fault::Exhausted => UpgradeFault::RevisionExhausted,
        }
    }
}
