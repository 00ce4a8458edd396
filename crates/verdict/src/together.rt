//! Match conditions.

ghost use Rattle.std.specs.Prelude.{◌≡◌, [], map, List, None, IfOk};
ghost use Rattle.serde_json.specs.View.{view};
ghost use Rattle.celtree.specs.Tree.{Expr};
ghost use Rattle.policy.specs.Rules.{attempt_seen};
ghost use Rattle.policy.specs.Spec.{named_seen, policy_seen};
ghost use Rattle.verdict.specs.Request.{request_of};
ghost use Rattle.verdict.specs.Environment.{seen};
ghost use Rattle.verdict.specs.Trees.{conditions_of};
ghost use Rattle.verdict.specs.Denials.{conditions};
ghost use Rattle.verdict.specs.Ready.{AreReady};
ghost use Rattle.verdict.specs.Seen.{conditions_seen, world_of};
ghost use Rattle.verdict.specs.ByPlans.{conditions_by};

use crate::answers::Conditions;
use crate::outcomes::given_by;
use crate::scene::{Scene, or_null};
use celmean::{is_false, is_true};
use plancode::Verified;
use policy::{Attempt, NamedExpression, Policy};
use serde_json::Value as Json;
use std::alloc::{AllocError, Global};

// What match conditions say together, by their plans: one that is false counts most, wherever it stands.
fn conditions_by<'p>(
    alloc: Global,
    conditions: &'p [NamedExpression],
    plans: &[Verified],
    scene: &Scene<'_, '_, '_, '_, '_>,
) -> Result<Conditions<'p>, AllocError>
    ensures { IfOk result (λ c. conditions_seen c ≡ conditions_by (map named_seen conditions.now) plans.now (world_of scene.now [])) }
{
    let mut kept = Conditions::Met;
    let mut rest = conditions;
    let mut plans_left = plans;
    'all: while let (Some((condition, others)), Some((plan, after))) = (
        rest.split_first(),
        plans_left.split_first(),
    ) {
        let outcome = given_by(alloc, plan, scene, &[])?;
        let (holds, fails) = (is_true(&outcome), is_false(&outcome));
        drop(outcome);
        if fails {
            return Ok(Conditions::Unmet);
        }
        if !holds && matches!(kept, Conditions::Met) {
            kept = Conditions::Neither(condition.name.as_str());
        }
        rest = others;
        plans_left = after;
    }
    Ok(kept)
}

/// What the match conditions of a policy say of a write together, by the policy's plans. `request` is the write's
/// [`request_document`](crate::request_document).
///
/// # Errors
///
/// Out of memory.
pub fn conditions<'p>(
    alloc: Global,
    policy: &'p Policy,
    plans: &[Verified],
    attempt: &Attempt<'_>,
    request: &Json,
) -> Result<Conditions<'p>, AllocError>
    requires told { view request.now ≡ request_of (attempt_seen attempt.now) }
    ensures { (trees : List Expr) → AreReady (policy_seen policy.now) trees plans.now → IfOk result (λ c. conditions_seen c ≡ conditions (conditions_of (policy_seen policy.now) trees) (seen (attempt_seen attempt.now) None)) }
{
    let absent = Json::Null;
    let scene = Scene {
        object: or_null(attempt.object, &absent),
        old_object: or_null(attempt.old_object, &absent),
        request,
        params: or_null(None, &absent),
        namespace: or_null(attempt.namespace, &absent),
    };
    conditions_by(alloc, &policy.conditions, plans, &scene)
}
