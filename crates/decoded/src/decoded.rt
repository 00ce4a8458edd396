//! What is kept decoded beside each document.

ghost use Rattle.std.specs.Prelude.{◌≡◌, option_map, IfOk};
ghost use Rattle.expressions.specs.Specification.{plans_seen};
ghost use Rattle.policy.specs.Spec.{policy_seen};
ghost use Rattle.decoded.specs.Decoded.{spelled};

use expressions::{Bound, StoredPlans};
use holdings::Holdings;
use jsondoc::Doc;
use policy::Policy;
use std::alloc::{AllocError, Global};
use std::marker::Model;

/// What a document spells as a policy and as a binding, and the plans of the policy's expressions.
pub struct Decoded {
    policy: Option<Policy>,
    plans: StoredPlans,
    bound: Option<Bound>,
}

// Hand-written: derived drop glue is proved again in each crate.
impl Drop for Decoded {
    fn drop(self) {
        let Decoded {
            policy: _,
            plans: _,
            bound: _,
        } = self;
    }
}

/// What memory holds of what is stored, with what each document spells beside it.
pub type Core = Holdings<Decoded>;

impl Model for Decoded {
    ghost use Rattle.std.specs.Prelude.{option_map};
    ghost use Rattle.policy.specs.Spec.{policy_seen};
    ghost use Rattle.expressions.specs.Specification.{plans_seen};
    ghost use Rattle.decoded.specs.Decoded as spec;

    ghost Value = { spec.Decoded };

    ghost view = { λ b. record { policy = option_map policy_seen b.policy; plans = plans_seen b.plans; binding = b.bound } };
}

impl Decoded {
    /// What stands beside a document with these plans.
    ///
    /// # Errors
    ///
    /// Out of memory.
    pub fn of(alloc: Global, document: &Doc, plans: StoredPlans) -> Result<Decoded, AllocError>
        ensures { IfOk result (λ b. b ≡ spelled document.now (plans_seen plans)) }
    {
        let policy = Policy::of(alloc, document.value())?;
        let bound = Bound::of(alloc, document.value())?;
        Ok(Decoded {
            policy,
            plans,
            bound,
        })
    }

    /// The policy that the document spells, if it has the form of one.
    pub fn policy(&self) -> Option<&Policy>
        ensures { option_map (λ p. policy_seen p.now) result ≡ self.now.policy }
    {
        self.policy.as_ref()
    }

    /// The plans of the policy's expressions.
    pub fn plans(&self) -> &StoredPlans
        ensures { plans_seen result.now ≡ self.now.plans }
    {
        &self.plans
    }

    /// The binding that the document spells, if it has the form of one.
    pub fn bound(&self) -> Option<&Bound>
        ensures { option_map (λ b. b.now) result ≡ self.now.binding }
    {
        self.bound.as_ref()
    }
}
