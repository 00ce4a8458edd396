//! The bytes of plans: one plan, read and judged, and the list of a policy's plans.
//!
//! ```text
//! let plan = decode(alloc, code, variables, Name::NamespaceObject)?;
//! let bytes = write_plans(alloc, &plans)?;
//! // and when the record is read again, with the number of variables that each expression may name:
//! let plans = read_plans(alloc, &[0, 0, 1], &bytes)?;
//! ```
//!
//! A plan has one spelling: the number of its instructions in two bytes, and each instruction by its number and its operands, with
//! numbers big-endian (`specs/Bytes.antt` of `instructions`, which has [`encode`]). [`decode`] gives a [`Verified`] plan exactly where the
//! bytes spell a well-formed one, and else the first fault. On a well-formed plan no instruction lacks an operand, each is reached with one
//! height of the stack, and each body of a macro ends with one outcome, so a machine can run it without looking.
//!
//! The bytes of a list are the number of plans in two bytes and each plan's code after its number of bytes in four (`specs/PlanList.antt`).
//! [`write_plans`] gives exactly these. [`read_plans`] gives well-formed plans whose bytes they are, one for each place, and answers
//! [`ReadPlansFault::Damaged`] only where there are none; there is at most one such list ([`one_list`]).
#![tactic(auto)]

mod laws;
mod list_reading;
mod list_writing;
mod reading;
mod verified;

pub use instructions::encode;
pub use laws::{decodes_its_code, first_faults, one_list, one_spelling};
pub use list_reading::{ReadPlansFault, read_plans};
pub use list_writing::{WritePlansFault, write_plans};
pub use verified::{Verified, decode};
