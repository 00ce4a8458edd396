//! The instructions of compiled expressions: their bytes, which plans are well formed, and what they do.
//!
//! A plan is a list of instructions for a machine with a stack of outcomes. Operands are gathered left to right, then comes the
//! instruction that takes them. A target is the number of an instruction, counted from 0, and lies ahead of the instruction that
//! names it. `specs/Op.antt` has the instructions as pure data, which the contracts of the crates above speak of.
//!
//! `specs/Bytes.antt` has the bytes of each instruction, which [`encode`] writes and [`instruction_at`] reads (`specs/Reading.antt`),
//! `specs/WellFormed.antt` which plans are well formed, and `specs/Judging.antt` the first fault of a plan that is not, which [`check`] finds
//! in two passes over the instructions.
//!
//! `specs/Machine.antt` says what compiled code does: the machine, instruction by instruction, and the outcome of code. `plan` shows that
//! the code of a tree gives what the tree means, and `planrun` runs code. What `&&` and `||` make of two outcomes is [`connected`].
#![tactic(auto)]

mod bodies;
mod connective;
mod copying;
mod fault;
mod instruction;
mod judging;
mod laws;
mod macros;
mod numbers;
mod operands;
mod writing;

pub use connective::{Connective, connected};
pub use fault::CodeFault;
pub use instruction::{Binary, Function, Instruction, Name, Plan, Slot};
pub use judging::check;
pub use laws::sound_where_well_formed;
pub use numbers::short_at;
pub use operands::instruction_at;
pub use writing::{encode, name_byte};
