use durable::Damage;
use std::fmt;
use std::fmt::{Display, Formatter};

/// Why serving a connection ended before its stream did.
#[derive(Clone, Copy)]
pub enum ServeFault {
    /// The input failed.
    Read,
    /// The output failed.
    Write,
    /// The store's device failed.
    Device,
    /// Memory was refused to the connection.
    Memory,
    /// The store's content stands for no history.
    Damaged(Damage),
    /// The store's device failed before, or damage was found.
    Failed,
}

impl Display for ServeFault {
    ghost use Rattle.std.specs.Prelude.{Some};
    ghost use Rattle.api.specs.Fault.{fault_text};

    ghost output = { λ fault. Some (fault_text fault) };

    fn fmt<W: fmt::Write>(&self, f: &mut Formatter<W>) -> fmt::Result {
        match self {
            ServeFault::Read | ServeFault::Write => f.write_str("input or output failed"),
            ServeFault::Device => f.write_str("device failed"),
            ServeFault::Memory => f.write_str("out of memory"),
            ServeFault::Damaged(damage) => write!(f, "damaged: {damage}"),
            ServeFault::Failed => f.write_str("device failed before"),
        }
    }
}
