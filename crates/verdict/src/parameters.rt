//! The parameters of a policy, as a binding asks for them.

ghost use Rattle.std.specs.Prelude.{◌≡◌, ◌≤◌, map, option_map, Some, IfOk, OnOk, IsErrOf};
ghost use Rattle.names.specs.Resource.{row};
ghost use Rattle.policy.specs.Rules.{attempt_seen};
ghost use Rattle.policy.specs.Spec.{binding_seen, param_ref_seen, wanted_seen};
ghost use Rattle.verdict.specs.Objects.{Objects, shown_objects};
ghost use Rattle.verdict.specs.Parameters.{found_or_not, namespace_of, looked_up, parameters};
ghost use Rattle.verdict.specs.ParametersSeen.{parameters_seen};
ghost use Rattle.objects.specs.Failing.{HasGrown};
ghost use Rattle.objects.specs.declared.fault.Part.{Part};
ghost use Rattle.objects.specs.declared.fault.LookupFault.TheVariants as LookupFault;

use crate::lookup::Lookup;
use jsondoc::Doc;
use names::{Resource, Scope};
use objects::LookupFault;
use policy::{Attempt, Binding, ParamRef, Wanted};
use std::alloc::Global;

/// The parameters that a policy is evaluated with, each in turn.
#[derive(Drop)]
pub(crate) enum Parameters {
    /// The policy is evaluated once, without a parameter.
    Alone,
    /// At least one object, as it is shown.
    Found(Vec<Doc>),
    /// They are looked for in a namespace and have none, or in none and have one.
    Misconfigured,
    /// There is no such object.
    NotFound,
}

// Where parameters of the resource are looked for, if that is a place.
fn namespace_of<'a>(
    resource: Resource,
    reference: &'a ParamRef,
    attempt: &'a Attempt<'_>,
) -> Option<&'a str>
    ensures { let write = attempt_seen attempt.now in
        option_map (λ text. text.now) result
        ≡ namespace_of (row resource).scope (param_ref_seen reference.now).namespace (row write.key.resource).scope write.key.namespace }
{
    match (resource.scope(), &reference.namespace) {
        (Scope::Cluster, None) => Some(""),
        (Scope::Cluster, Some(_)) => None,
        (Scope::Namespaced, Some(asked)) => Some(asked.as_str()),
        (Scope::Namespaced, None) => match attempt.key.resource().scope() {
            Scope::Namespaced => Some(attempt.key.namespace()),
            Scope::Cluster => None,
        },
    }
}

fn found_or_not(documents: Vec<Doc>) -> Parameters
    ensures { parameters_seen result ≡ found_or_not (map Some documents.items) }
{
    if documents.is_empty() {
        Parameters::NotFound
    } else {
        Parameters::Found(documents)
    }
}

// The parameters in a namespace.
fn looked_up<'a, L: Lookup<'a>>(
    alloc: Global,
    lookup: &mut L,
    resource: Resource,
    wanted: &Wanted,
    namespace: &str,
) -> Result<Parameters, LookupFault>
    ensures found { (objects : Objects) → L.shows lookup.old objects
        → IfOk result (λ p. parameters_seen p ≡ looked_up (shown_objects objects) resource (wanted_seen wanted.now) (Some namespace.now)) }
    ensures kept { (objects : Objects) → L.shows lookup.old objects → L.shows lookup.new objects }
    ensures goes { L.goes_to lookup.old lookup.new }
    ensures counts { L.failures lookup.old ≤ L.failures lookup.new }
    ensures steady { OnOk result (L.unfailed lookup.old lookup.new) }
    ensures device { IsErrOf result LookupFault.Device → HasGrown (L.failures lookup.old) (L.failures lookup.new) }
    ensures memory { IsErrOf result LookupFault.Memory → L.unfailed lookup.old lookup.new }
    ensures damaged { (part : Part) → IsErrOf result (LookupFault.Damaged part) → L.is_damaged lookup.new }
{
    let documents = lookup.parameters(alloc, resource, namespace, wanted)?;
    Ok(found_or_not(documents))
}

/// The parameters of a policy with this kind of parameters, as the binding asks for them.
///
/// # Errors
///
/// Those of the lookup, and `Memory`.
pub(crate) fn parameters_of<'a, L: Lookup<'a>>(
    alloc: Global,
    lookup: &mut L,
    kind: Option<Resource>,
    binding: &Binding,
    attempt: &Attempt<'_>,
) -> Result<Parameters, LookupFault>
    ensures found { (objects : Objects) → L.shows lookup.old objects
        → IfOk result (λ p. parameters_seen p ≡ parameters (shown_objects objects) kind (binding_seen binding.now).param_ref (attempt_seen attempt.now)) }
    ensures kept { (objects : Objects) → L.shows lookup.old objects → L.shows lookup.new objects }
    ensures goes { L.goes_to lookup.old lookup.new }
    ensures counts { L.failures lookup.old ≤ L.failures lookup.new }
    ensures steady { OnOk result (L.unfailed lookup.old lookup.new) }
    ensures device { IsErrOf result LookupFault.Device → HasGrown (L.failures lookup.old) (L.failures lookup.new) }
    ensures memory { IsErrOf result LookupFault.Memory → L.unfailed lookup.old lookup.new }
    ensures damaged { (part : Part) → IsErrOf result (LookupFault.Damaged part) → L.is_damaged lookup.new }
{
    let resource = match kind {
        Some(resource) => resource,
        None => return Ok(Parameters::Alone),
    };
    let reference = match &binding.param_ref {
        Some(reference) => reference,
        None => return Ok(Parameters::Alone),
    };
    match namespace_of(resource, reference, attempt) {
        Some(namespace) => looked_up(alloc, lookup, resource, &reference.wanted, namespace),
        None => Ok(Parameters::Misconfigured),
    }
}
