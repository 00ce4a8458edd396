//! What `&&` and `||` make of two outcomes.

ghost use Rattle.std.specs.Prelude.{◌≡◌};
ghost use Rattle.celmean.specs.Seen.{outcome_of};
ghost use Rattle.instructions.specs.Connectives.{connected};

use celmean::{Outcome, both, either};

/// An operator between two operands that may give a value though one of them is the error.
#[derive(Clone, Copy)]
pub enum Connective {
    /// `&&`
    And,
    /// `||`
    Or,
}

/// What the instruction of a connective puts in the place of two outcomes.
pub fn connected(connective: Connective, left: &Outcome, right: &Outcome) -> Outcome
    ensures { outcome_of result ≡ connected connective (outcome_of left.now) (outcome_of right.now) }
{
    match connective {
        Connective::And => both(left, right),
        Connective::Or => either(left, right),
    }
}
