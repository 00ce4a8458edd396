//! The outcomes of plans.

ghost use Rattle.std.specs.Prelude.{◌≡◌, [], drop, take, IfOk};
ghost use Rattle.serde_json.specs.View.{view};
ghost use Rattle.celmean.specs.Seen.{outcome_of, outcomes_seen};
ghost use Rattle.verdict.specs.Seen.{names_in, names_of, world_of};
ghost use Rattle.verdict.specs.ByPlans.{given_by, outcomes_by};

use crate::scene::Scene;
use celmean::Outcome;
use plancode::Verified;
use planrun::{Bindings, run};
use serde_json::Value as Json;
use std::alloc::{AllocError, Global};

#[tactic(auto, using(crate::proofs::Lists::mapped_length))]
fn given_in<'a>(
    alloc: Global,
    plan: &Verified,
    object: &'a Json,
    old_object: &'a Json,
    request: &'a Json,
    params: &'a Json,
    namespace: &'a Json,
    variables: &'a [Outcome],
) -> Result<Outcome, AllocError>
    ensures { IfOk result (λ o. outcome_of o ≡ given_by plan.now (record { names = names_in (view object.now) (view old_object.now) (view request.now) (view params.now) (view namespace.now); variables = outcomes_seen variables.now })) }
{
    let bindings = Bindings {
        object,
        old_object,
        request,
        params,
        namespace,
        variables,
    };
    if variables.len() == usize::from(plan.vars()) {
        run(alloc, plan, &bindings)
    } else {
        Ok(Outcome::Error)
    }
}

/// What a plan gives: the error where it is for another number of variables.
pub(crate) fn given_by(
    alloc: Global,
    plan: &Verified,
    scene: &Scene<'_, '_, '_, '_, '_>,
    variables: &[Outcome],
) -> Result<Outcome, AllocError>
    ensures { IfOk result (λ o. outcome_of o ≡ given_by plan.now (world_of scene.now variables.now)) }
{
    given_in(
        alloc,
        plan,
        scene.object,
        scene.old_object,
        scene.request,
        scene.params,
        scene.namespace,
        variables,
    )
}

/// The first plans, and those after them.
#[tactic(auto, using(crate::proofs::Lists::all_taken, crate::proofs::Lists::all_dropped))]
pub(crate) fn split(plans: &[Verified], count: usize) -> (&[Verified], &[Verified])
    ensures front { result.0.now ≡ take count plans.now }
    ensures back { result.1.now ≡ drop count plans.now }
{
    if count < plans.len() {
        plans.split_at(count)
    } else {
        (plans, &[])
    }
}

/// The outcomes of variables, by their plans, each after the earlier ones.
pub(crate) fn outcomes_by(
    alloc: Global,
    plans: &[Verified],
    scene: &Scene<'_, '_, '_, '_, '_>,
) -> Result<Vec<Outcome>, AllocError>
    ensures { IfOk result (λ v. outcomes_seen v.items ≡ outcomes_by plans.now (names_of scene.now) []) }
{
    let mut outcomes = Vec::new(alloc);
    for plan in plans {
        let outcome = given_by(alloc, plan, scene, &outcomes)?;
        outcomes.push(outcome)?;
    }
    Ok(outcomes)
}
