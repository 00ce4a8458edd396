//! The plans of bytes, as rows have them.

use crate::codes::{instructions_text, printed};
use cases::{Wrong, push_bytes};
use instructions::{Name, encode};
use plancode::{Verified, decode};
use std::alloc::Global;

// Whether a copy of a plan is encoded to these bytes.
fn is_copied(alloc: Global, plan: &Verified, bytes: &[u8]) -> bool {
    let Ok(copy) = plan.clone() else {
        return false;
    };
    match encode(alloc, &copy.into_plan()) {
        Ok(code) => code.as_slice() == bytes,
        Err(_) => false,
    }
}

/// The instructions of the plan that bytes are, or their fault, for a place with this many variables and names up to one.
///
/// # Errors
///
/// Where a copy of the plan is not encoded to its bytes again, or the plan has another number of variables.
pub(crate) fn decoding_text(
    alloc: Global,
    text: &str,
    variables: u16,
    names: Name,
) -> Result<String, Wrong> {
    let mut bytes = Vec::new(alloc);
    push_bytes(&mut bytes, text)?;
    match decode(alloc, &bytes, variables, names) {
        Ok(plan) if plan.vars() == variables && is_copied(alloc, &plan, &bytes) => {
            Ok(instructions_text(alloc, plan.instructions()))
        }
        Ok(_) => Err(Wrong::Told(
            "the plan has other variables than its place, or its copy has other bytes",
        )),
        Err(fault) => printed(alloc, &fault),
    }
}
