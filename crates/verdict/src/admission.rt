//! The verdict on a write.

ghost use Rattle.std.specs.Prelude.{◌≡◌, ◌≤◌, ◌⊎◌, ℕ, List, map, option_map, Some, None, Contains, IfOk, OnOk, IfSome, IsErrOf, IsTrue, string_bytes};
ghost use Rattle.std.specs.List.{filter_map};
ghost use Rattle.std.specs.Option.{option_map_or};
ghost use Rattle.serde_json.specs.View.{view};
ghost use Rattle.names.specs.Key.{Key as KeyData};
ghost use Rattle.plancode.specs.Plans.{Judged};
ghost use Rattle.policy.specs.Forms.{Text};
ghost use Rattle.policy.specs.Matching.{is_matched};
ghost use Rattle.policy.specs.Rules.{attempt_seen};
ghost use Rattle.policy.specs.Spec.{Policy, Binding};
ghost use Rattle.expressions.specs.Specification.{these, spoiled, plans_seen};
ghost use Rattle.verdict.specs.Request.{request_of};
ghost use Rattle.verdict.specs.DenialSeen.{denial_seen, verdict_seen};
ghost use Rattle.verdict.specs.Verdict as verdicts;
ghost use Rattle.verdict.specs.Deciding as model;
ghost use Rattle.verdict.specs.Deciding.{after_warnings};
ghost use Rattle.verdict.specs.Objects.{Object, Objects, Held, HasTrees, HaveTrees, held};
ghost use Rattle.verdict.specs.Listed.{listed};
ghost use Rattle.verdict.specs.LookupSeen.{held_by, listed_seen};
ghost use Rattle.verdict.specs.Admission.{bindings, denial_by, finding, verdict};
ghost use Rattle.verdict.specs.Turns.{held_binding, denial_by_policy};
ghost use Rattle.verdict.specs.Spoiled.{AsksSpoiled, HasSpoiled, IsDenied};
ghost use Rattle.names.specs.declared.resource.Resource.TheVariants.{ValidatingAdmissionPolicy, ValidatingAdmissionPolicyBinding};
ghost use Rattle.objects.specs.Failing.{HasGrown};
ghost use Rattle.objects.specs.declared.fault.Part.{Part};
ghost use Rattle.objects.specs.declared.fault.Part.TheVariants as Part;
ghost use Rattle.objects.specs.declared.fault.LookupFault.TheVariants as LookupFault;

use crate::deciding::decided;
use crate::denials::Denial;
use crate::lookup::{FoundObject, ListedObject, Lookup};
use crate::one_binding::denial;
use crate::verdict::Verdict;
use expressions::Bound;
use objects::LookupFault;
use policy::Attempt;
use serde_json::Value as Json;
use std::alloc::{AllocError, Global};
use std::marker::Model;

// A binding with its name, lent.
#[derive(Drop)]
struct NamedBinding<'a> {
    name: &'a str,
    bound: &'a Bound,
}

impl<'a> Model for NamedBinding<'a> {
    ghost use Rattle.policy.specs.Forms.{Text};
    ghost use Rattle.policy.specs.Spec as spec;

    ghost Value = { Text × spec.Binding };

    ghost view = { λ b. (b.name.now, b.bound.now) };
}

// The bindings among what was listed, with their names.
fn bindings_among<'a>(
    alloc: Global,
    listed: &[ListedObject<'a>],
) -> Result<Vec<NamedBinding<'a>>, AllocError>
    ensures { IfOk result (λ v. v.items ≡ filter_map held_binding (map listed_seen listed.now)) }
{
    let mut bindings = Vec::with_capacity(alloc, listed.len())?;
    for entry in listed {
        let found = entry.found;
        if let Some(bound) = found.bound {
            let name = entry.key.name();
            bindings.push(NamedBinding { name, bound })?;
        }
    }
    Ok(bindings)
}

// The bindings, ascending by name.
#[tactic(auto, using(crate::proofs::Standing::bindings_held))]
fn bindings<'a, L: Lookup<'a>>(
    alloc: Global,
    lookup: &mut L,
) -> Result<Vec<NamedBinding<'a>>, LookupFault>
    ensures found { (objects : Objects) → L.shows lookup.old objects → IfOk result (λ v. v.items ≡ bindings objects) }
    ensures lent { (all : List (KeyData × Held)) → L.lends lookup.old all
        → IfOk result (λ v. v.items ≡ filter_map held_binding (listed ValidatingAdmissionPolicyBinding None all)) }
    ensures kept { (objects : Objects) → L.shows lookup.old objects → L.shows lookup.new objects }
    ensures goes { L.goes_to lookup.old lookup.new }
    ensures counts { L.failures lookup.old ≤ L.failures lookup.new }
    ensures steady { OnOk result (L.unfailed lookup.old lookup.new) }
    ensures device { IsErrOf result LookupFault.Device → HasGrown (L.failures lookup.old) (L.failures lookup.new) }
    ensures memory { IsErrOf result LookupFault.Memory → L.unfailed lookup.old lookup.new }
    ensures damaged { (part : Part) → IsErrOf result (LookupFault.Damaged part) → L.is_damaged lookup.new }
{
    let listed = lookup.bindings(alloc)?;
    let bindings = bindings_among(alloc, &listed);
    drop(listed);
    Ok(bindings?)
}

// The denial of the write by a policy that was found, if it has the form of one and gives one.
fn denial_of<'a, L: Lookup<'a>>(
    alloc: Global,
    lookup: &mut L,
    found: &FoundObject<'_>,
    bound: &Bound,
    attempt: &Attempt<'_>,
    request: &mut Option<Json>,
) -> Result<Option<Denial>, LookupFault>
    requires told { IfSome request.old (λ d. view d ≡ request_of (attempt_seen attempt.now)) }
    ensures told { OnOk result (IfSome request.new (λ d. view d ≡ request_of (attempt_seen attempt.now))) }
    ensures found { (objects : Objects) (object : Object) → L.shows lookup.old objects → HasTrees ValidatingAdmissionPolicy object → held_by found.now ≡ held object
        → IfOk result (λ o. option_map denial_seen o ≡ denial_by_policy objects (attempt_seen attempt.now) bound.now object) }
    ensures kept { (objects : Objects) → L.shows lookup.old objects → L.shows lookup.new objects }
    ensures goes { L.goes_to lookup.old lookup.new }
    ensures counts { L.failures lookup.old ≤ L.failures lookup.new }
    ensures steady { OnOk result (L.unfailed lookup.old lookup.new) }
    ensures device { IsErrOf result LookupFault.Device → HasGrown (L.failures lookup.old) (L.failures lookup.new) }
    ensures memory { IsErrOf result LookupFault.Memory → L.unfailed lookup.old lookup.new }
    ensures damaged { (part : Part) → IsErrOf result (LookupFault.Damaged part) → (ready : List Judged) → plans_seen found.now.plans.now ≡ these ready → L.is_damaged lookup.new }
    ensures never_passed { (p : Policy) (bytes : List ℕ) → (held_by found.now).policy ≡ Some p → (held_by found.now).plans ≡ spoiled bytes
        → IsTrue (is_matched p.constraints bound.now.resources (attempt_seen attempt.now)) → IsErrOf result (LookupFault.Damaged Part.Plans) }
    ensures damage { (part : Part) → IsErrOf result (LookupFault.Damaged part) → L.is_damaged lookup.new ⊎ (part ≡ Part.Plans) }
{
    match found.policy {
        Some(policy) => {
            let binding = bound.binding();
            denial(
                alloc,
                lookup,
                policy,
                found.plans,
                binding,
                attempt,
                request,
            )
        }
        None => Ok(None),
    }
}

// The denial of the write by a binding: none where its policy is not there.
fn denial_by<'a, L: Lookup<'a>>(
    alloc: Global,
    lookup: &mut L,
    bound: &Bound,
    attempt: &Attempt<'_>,
    request: &mut Option<Json>,
) -> Result<Option<Denial>, LookupFault>
    requires told { IfSome request.old (λ d. view d ≡ request_of (attempt_seen attempt.now)) }
    ensures told { OnOk result (IfSome request.new (λ d. view d ≡ request_of (attempt_seen attempt.now))) }
    ensures found { (objects : Objects) → L.shows lookup.old objects → HaveTrees objects
        → IfOk result (λ o. option_map denial_seen o ≡ denial_by objects (attempt_seen attempt.now) bound.now) }
    ensures kept { (objects : Objects) → L.shows lookup.old objects → L.shows lookup.new objects }
    ensures goes { L.goes_to lookup.old lookup.new }
    ensures counts { L.failures lookup.old ≤ L.failures lookup.new }
    ensures steady { OnOk result (L.unfailed lookup.old lookup.new) }
    ensures device { IsErrOf result LookupFault.Device → HasGrown (L.failures lookup.old) (L.failures lookup.new) }
    ensures memory { IsErrOf result LookupFault.Memory → L.unfailed lookup.old lookup.new }
    ensures damaged { (part : Part) → IsErrOf result (LookupFault.Damaged part) → (objects : Objects) → L.shows lookup.old objects → ⊥ }
    ensures never_passed { (all : List (KeyData × Held)) → L.lends lookup.old all → AsksSpoiled all (attempt_seen attempt.now) bound.now
        → IsErrOf result (LookupFault.Damaged Part.Plans) }
    ensures damage { (part : Part) → IsErrOf result (LookupFault.Damaged part) → L.is_damaged lookup.new ⊎ (part ≡ Part.Plans) }
{
    let found = match lookup.policy(bound.policy_key()) {
        Some(found) => found,
        None => return Ok(None),
    };
    denial_of(alloc, lookup, &found, bound, attempt, request)
}

// A binding's turn: the verdict where it denies the write; its warning, if it gives one, stands after those before it. The write's document is made
// where a policy is asked for it, and once.
fn turn<'a, L: Lookup<'a>>(
    alloc: Global,
    lookup: &mut L,
    named: &NamedBinding<'_>,
    attempt: &Attempt<'_>,
    request: &mut Option<Json>,
    warnings: &mut Vec<String>,
) -> Result<Option<Verdict>, LookupFault>
    requires told { IfSome request.old (λ d. view d ≡ request_of (attempt_seen attempt.now)) }
    ensures told { OnOk result (IfSome request.new (λ d. view d ≡ request_of (attempt_seen attempt.now))) }
    ensures found { (objects : Objects) → L.shows lookup.old objects → HaveTrees objects → (rest : verdicts.Verdict) → IfOk result (λ o.
        after_warnings (map string_bytes warnings.old.items) (model.decide named.now.0 named.now.1 (denial_by objects (attempt_seen attempt.now) named.now.1) rest)
        ≡ option_map_or verdict_seen o (after_warnings (map string_bytes warnings.new.items) rest)) }
    ensures kept { (objects : Objects) → L.shows lookup.old objects → L.shows lookup.new objects }
    ensures goes { L.goes_to lookup.old lookup.new }
    ensures counts { L.failures lookup.old ≤ L.failures lookup.new }
    ensures steady { OnOk result (L.unfailed lookup.old lookup.new) }
    ensures device { IsErrOf result LookupFault.Device → HasGrown (L.failures lookup.old) (L.failures lookup.new) }
    ensures memory { IsErrOf result LookupFault.Memory → L.unfailed lookup.old lookup.new }
    ensures damaged { (part : Part) → IsErrOf result (LookupFault.Damaged part) → (objects : Objects) → L.shows lookup.old objects → ⊥ }
    ensures denies { IfOk result (λ o. IfSome o (λ v. IsDenied (verdict_seen v))) }
    ensures never_passed { (all : List (KeyData × Held)) → L.lends lookup.old all → AsksSpoiled all (attempt_seen attempt.now) named.now.1
        → IsErrOf result (LookupFault.Damaged Part.Plans) }
    ensures damage { (part : Part) → IsErrOf result (LookupFault.Damaged part) → L.is_damaged lookup.new ⊎ (part ≡ Part.Plans) }
{
    match denial_by(alloc, lookup, named.bound, attempt, request)? {
        Some(denial) => Ok(decided(alloc, warnings, named.name, named.bound.binding(), denial)?),
        None => Ok(None),
    }
}

// The verdict of the bindings, one after another.
fn verdict_of<'a, L: Lookup<'a>>(
    alloc: Global,
    lookup: &mut L,
    bindings: &[NamedBinding<'_>],
    attempt: &Attempt<'_>,
) -> Result<Verdict, LookupFault>
    ensures found { (objects : Objects) → L.shows lookup.old objects → HaveTrees objects
        → IfOk result (λ v. verdict_seen v ≡ model.verdict_of (map (finding objects (attempt_seen attempt.now)) bindings.now)) }
    ensures kept { (objects : Objects) → L.shows lookup.old objects → L.shows lookup.new objects }
    ensures goes { L.goes_to lookup.old lookup.new }
    ensures counts { L.failures lookup.old ≤ L.failures lookup.new }
    ensures steady { OnOk result (L.unfailed lookup.old lookup.new) }
    ensures device { IsErrOf result LookupFault.Device → HasGrown (L.failures lookup.old) (L.failures lookup.new) }
    ensures memory { IsErrOf result LookupFault.Memory → L.unfailed lookup.old lookup.new }
    ensures damaged { (part : Part) → IsErrOf result (LookupFault.Damaged part) → (objects : Objects) → L.shows lookup.old objects → ⊥ }
    ensures never_passed { (all : List (KeyData × Held)) (b : Text × Binding) → L.lends lookup.old all → Contains bindings.now b
        → AsksSpoiled all (attempt_seen attempt.now) b.1 → IfOk result (λ v. IsDenied (verdict_seen v)) }
    ensures damage { (part : Part) → IsErrOf result (LookupFault.Damaged part) → L.is_damaged lookup.new ⊎ (part ≡ Part.Plans) }
{
    let mut warnings = Vec::new(alloc);
    let mut request = None;
    for named in bindings {
        if let Some(verdict) = turn(alloc, lookup, named, attempt, &mut request, &mut warnings)? {
            return Ok(verdict);
        }
    }
    Ok(Verdict::Admitted(warnings))
}

/// The verdict of the policies and bindings on a write, by the objects before it.
///
/// Bindings are asked ascending by name. The first denial by a binding that denies is the verdict, and else each denial by a
/// binding that warns is a warning. A binding whose policy is not there, and a policy or a binding of bad form, says nothing.
///
/// # Errors
///
/// Those of the lookup, `Damaged` with the plans of a policy that is asked and whose plans are spoiled, and `Memory` when out of memory.
pub fn admit<'a, L: Lookup<'a>>(
    alloc: Global,
    lookup: &mut L,
    attempt: &Attempt<'_>,
) -> Result<Verdict, LookupFault>
    ensures verdict { (objects : Objects) → L.shows lookup.old objects → HaveTrees objects
        → IfOk result (λ v. verdict_seen v ≡ verdict objects (attempt_seen attempt.now)) }
    ensures kept { (objects : Objects) → L.shows lookup.old objects → L.shows lookup.new objects }
    ensures goes { L.goes_to lookup.old lookup.new }
    ensures counts { L.failures lookup.old ≤ L.failures lookup.new }
    ensures steady { OnOk result (L.unfailed lookup.old lookup.new) }
    ensures device { IsErrOf result LookupFault.Device → HasGrown (L.failures lookup.old) (L.failures lookup.new) }
    ensures memory { IsErrOf result LookupFault.Memory → L.unfailed lookup.old lookup.new }
    ensures damaged { (part : Part) → IsErrOf result (LookupFault.Damaged part) → (objects : Objects) → L.shows lookup.old objects → ⊥ }

    // A policy whose plans are spoiled lets no write pass that it is for: a binding before it may deny the write, and else a fault is told.
    ensures never_passed { (all : List (KeyData × Held)) → L.lends lookup.old all → HasSpoiled all (attempt_seen attempt.now)
        → IfOk result (λ v. IsDenied (verdict_seen v)) }

    // Damage that does not lie below is that of plans.
    ensures damage { (part : Part) → IsErrOf result (LookupFault.Damaged part) → L.is_damaged lookup.new ⊎ (part ≡ Part.Plans) }
{
    let bindings = bindings(alloc, lookup)?;
    verdict_of(alloc, lookup, &bindings, attempt)
}
