//! Bytes as a well-formed plan.

ghost use Rattle.std.specs.Prelude.{◌≡◌, List, IfOk, Ok};
ghost use Rattle.instructions.specs.Faults.{Gives};
ghost use Rattle.instructions.specs.Seen.{ops_of, plan_ops};
ghost use Rattle.instructions.specs.Bytes.{code, HaveRoom};
ghost use Rattle.instructions.specs.Op.{Op};
ghost use Rattle.plancode.specs.Plans.{IsVerified, UsesNamesUpTo};
ghost use Rattle.instructions.specs.WellFormed.{IsWellFormed};
ghost use Rattle.plancode.specs.Reading.{decoded};

use crate::reading::plan;
use instructions::{CodeFault, Instruction, Name, Plan, check};
use std::alloc::{AllocError, Global};
use std::marker::Model;

/// A well-formed plan, for a place with this many variables.
pub struct Verified {
    vars: u16,
    plan: Vec<Instruction>,
}

// Hand-written: derived drop glue is proved again in each crate.
impl Drop for Verified {
    fn drop(self) {
        let Verified { vars: _, plan: _ } = self;
    }
}

impl Model for Verified {
    ghost use Rattle.plancode.specs.Plans.{Judged, IsVerified};
    ghost use Rattle.instructions.specs.Seen.{ops_of};

    ghost Value = { Judged };

    ghost view = { λ p. record { vars = p.vars; ops = ops_of p.plan.items } };

    ghost invariant = { λ p. IsVerified p.vars (ops_of p.plan.items) };
}

impl Clone for Verified {
    ghost use Rattle.std.specs.Prelude.{◌≡◌};

    ghost is_clone = { λ plan copy. copy ≡ plan };

    #[tactic(auto, using(crate::proofs::Copies::copied))]
    fn clone(&self) -> Result<Verified, AllocError> {
        Ok(Verified {
            vars: self.vars,
            plan: self.plan.clone()?,
        })
    }
}

impl Verified {
    /// The instructions, in order.
    pub fn instructions(&self) -> &[Instruction]
        ensures same { ops_of result.now ≡ self.now.ops }
        ensures verified { IsVerified self.now.vars self.now.ops }
    {
        &self.plan
    }

    /// How many variables the place has: each that the plan names lies below.
    pub fn vars(&self) -> u16
        ensures same { result ≡ self.now.vars }
        ensures verified { IsVerified self.now.vars self.now.ops }
    {
        self.vars
    }

    /// The plan, which has bytes.
    pub fn into_plan(self) -> Plan
        ensures same { plan_ops result ≡ self.ops }
        ensures room { HaveRoom (plan_ops result) }
    {
        let Verified { vars: _, plan } = self;
        Plan { instructions: plan }
    }
}

// The plan that the bytes spell, if it has no fault.
#[tactic(auto, unfolding(crate::specs::Reading::decoded))]
fn decode_all(alloc: Global, bytes: &[u8], vars: u16, greatest: Name) -> Result<Verified, CodeFault>
    ensures exact { Gives (λ p. p.ops) result (decoded vars greatest bytes.now) }
    ensures vars { IfOk result (λ p. p.vars ≡ vars) }
{
    let plan = plan(alloc, greatest, bytes)?;
    check(alloc, vars, &plan)?;
    Ok(Verified { vars, plan })
}

/// The well-formed plan that the bytes spell, for a place with this many variables, and with the declared names up to one: all of them up to
/// [`Name::NamespaceObject`], where that is not declared up to [`Name::Params`], and without parameters up to [`Name::Request`].
///
/// The bytes are read front to back: [`CodeFault::Truncated`], [`CodeFault::BadOperand`], a name that is not declared among them, and [`CodeFault::TextNotUtf8`] are told in
/// the order of the bytes, then [`CodeFault::TrailingBytes`]. The instructions are judged in order, each for its targets
/// ([`CodeFault::BadJump`]), its name ([`CodeFault::BadName`]) and its stack ([`CodeFault::BadStack`]); the end of a body is judged
/// before the instruction after it, and the end of the plan last.
pub fn decode(alloc: Global, bytes: &[u8], vars: u16, greatest: Name) -> Result<Verified, CodeFault>
    // The plan is well formed, its names are declared, and the bytes are its code.
    ensures found { IfOk result (λ p. IsWellFormed vars p.ops × HaveRoom p.ops × UsesNamesUpTo greatest p.ops × (bytes.now ≡ code p.ops)) }
    // Bytes that are the code of a well-formed plan give it.
    ensures only { (ops : List Op) → IsWellFormed vars ops → HaveRoom ops → UsesNamesUpTo greatest ops → bytes.now ≡ code ops → Gives (λ p. p.ops) result (Ok ops) }
    // Which fault it is.
    ensures exact { Gives (λ p. p.ops) result (decoded vars greatest bytes.now) }
    ensures vars { IfOk result (λ p. p.vars ≡ vars) }
{
    decode_all(alloc, bytes, vars, greatest)
}
