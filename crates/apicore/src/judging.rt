//! A write, asked of the policies.

ghost use Rattle.std.specs.Prelude.{◌≡◌, ◌+◌, ◌≤◌, ◌<◌, List, [], ◌∷◌, map, option_map, if◌then◌else◌, Option, Some, None, is_some, Decides, IfOk, OnOk, OnErr, IsErrOf, string_bytes};
ghost use Rattle.celtree.specs.Tree.{Expr};
ghost use Rattle.serde_json.specs.View.{view};
ghost use Rattle.names.specs.Key.{Key as KeyData};
ghost use Rattle.names.specs.declared.resource.Resource.TheVariants.{ValidatingAdmissionPolicyBinding};
ghost use Rattle.policy.specs.Rules.{attempt_seen};
ghost use Rattle.policy.specs.declared.match_rules.Operation.TheVariants.{Create, Update, Delete};
ghost use Rattle.objects.specs.Failing.{HasGrown};
ghost use Rattle.objects.specs.declared.fault.Part.{Part};
ghost use Rattle.objects.specs.declared.fault.LookupFault.TheVariants as LookupFault;
ghost use Rattle.requests.specs.Codes.{document_in};
ghost use Rattle.histories.specs.declared.stored.Stored.{Stored as StoredData};
ghost use Rattle.histories.specs.History.{put, delete};
ghost use Rattle.requests.specs.Reply.{showing};
ghost use Rattle.histories.specs.View.{View as Held, stored_at, exists};
ghost use Rattle.holdings.specs.Prepared.{writes_of, AreNext, HasRoomFor};
ghost use Rattle.holdings.specs.Sources.{found_in};
ghost use Rattle.expressions.specs.Specification.{these, plans_in};
ghost use Rattle.verdict.specs.Admission.{verdict};
ghost use Rattle.verdict.specs.DenialSeen.{verdict_seen};
ghost use Rattle.verdict.specs.Listed.{listed};
ghost use Rattle.decoded.specs.Decoded.{Decoded as DecodedData, spelled};
ghost use Rattle.apicore.specs.Judged.{IsJudged};
ghost use Rattle.apicore.specs.Looked.{HasLooked, IsAsBefore};
ghost use Rattle.decoded.specs.Shown.{IsOver, ShowsOver};
ghost use Rattle.decoded.specs.Standing.{View};
ghost use Rattle.apicore.specs.Attempts.{objects_of};

use crate::attempts::put_attempt;
use crate::placed::PlacedManifest;
use crate::prepared::Prepared;
use crate::refusing::denied;
use crate::store_lookup::StoreLookup;
use decoded::{Core, Decoded};
use documents::Document;
use expressions::StoredPlans;
use holdings::{FoundDocument, PreparedWrite, Source};
use names::{Key, Resource};
use objects::LookupFault;
use plancode::Verified;
use policy::{Attempt, Operation};
use requests::{Manifest, Reply};
use serde_json::Value;
use std::alloc::{AllocError, Global};
use verdict::{Verdict, admit};

// The verdict of what the core shows on a write.
fn verdict_of<S: Source<Decoded>>(
    core: &Core,
    alloc: Global,
    source: &mut S,
    attempt: &Attempt<'_>,
) -> Result<Verdict, LookupFault>
    ensures verdict { (held : Held DecodedData) (v : View) → IsOver (S.holds source.old) core.now held v
        → IfOk result (λ x. verdict_seen x ≡ verdict (objects_of v) (attempt_seen attempt.now)) }
    ensures kept { (base : List (KeyData × StoredData DecodedData)) → S.holds source.old base → S.holds source.new base }
    ensures goes { S.goes_to source.old source.new }
    ensures counts { S.failures source.old ≤ S.failures source.new }
    ensures steady { OnOk result (S.unfailed source.old source.new) }
    ensures device { IsErrOf result LookupFault.Device → HasGrown (S.failures source.old) (S.failures source.new) }
    ensures memory { IsErrOf result LookupFault.Memory → S.unfailed source.old source.new }
    ensures damaged { (part : Part) → IsErrOf result (LookupFault.Damaged part) → (held : Held DecodedData) (v : View) → IsOver (S.holds source.old) core.now held v → ⊥ }
{
    let mut lookup = StoreLookup { core, source };
    admit(alloc, &mut lookup, attempt)
}

/// Whether no binding stands. Where none does, the verdict on each write admits it, and no policy reads what the write replaces or removes.
pub(crate) fn has_no_bindings(core: &Core, alloc: Global) -> Result<bool, AllocError>
    ensures { (base : List (KeyData × StoredData DecodedData)) (v : View) → ShowsOver core.now base v
        → IfOk result (λ none. Decides none (listed ValidatingAdmissionPolicyBinding None (objects_of v) ≡ [])) }
{
    let bindings = core.held(alloc, Resource::ValidatingAdmissionPolicyBinding)?;
    Ok(bindings.is_empty())
}

// The code that shows a put: of an object that changes, or of a new one.
fn put_code(stands: bool) -> u16
    ensures { result ≡ if stands then 200 else 201 }
{
    if stands { 200 } else { 201 }
}

/// The put of a document that the policies admit, shown with their warnings. It is told whether an object stands at the key.
pub(crate) fn admitted_put(
    core: &mut Core,
    alloc: Global,
    manifest: &Manifest,
    plans: Vec<Verified>,
    stands: bool,
    warnings: Vec<String>,
) -> Result<Prepared, LookupFault>
    requires { core.old.revision < core.old.rules.greatest_revision }
    ensures same { IsAsBefore core.old core.new }
    ensures reply { IfOk result
        (λ p. p.reply ≡ showing (if stands then 200 else 201) (map string_bytes warnings.items) (document_in manifest.now.body) (core.old.revision + 1)) }
    ensures write { IfOk result (λ p. writes_of p.write ≡ put manifest.now.key (document_in manifest.now.body) (spelled (document_in manifest.now.body).json (these plans.items)) ∷ []) }
    ensures next { (held : Held DecodedData) → core.old.revision ≡ held.revision → stands ≡ exists held manifest.now.key → IfOk result (λ p. AreNext held p.write) }
    ensures ready { IfOk result (λ p. HasRoomFor core.new p.write) }
    ensures memory { OnErr result (IsErrOf result LookupFault.Memory) }
{
    // The revision is below the greatest one, so that the next one fits.
    let _greatest = core.rules().greatest_revision;
    let revision = core.revision() + 1;
    let document = manifest.document();
    let reply = Reply::showing(alloc, put_code(stands), warnings, document, revision)?;
    let beside = Decoded::of(alloc, document.json(), StoredPlans::Plans(plans))?;
    let put = core.prepare_put(alloc, manifest, beside, stands)?;
    Ok(Prepared {
        reply,
        write: Some(PreparedWrite::Put(put)),
    })
}

/// The put of a document that nothing but the policies may refuse, with the object at its key and its Namespace, as they are shown, where they are there.
pub(crate) fn judged_put<'x, S: Source<Decoded>>(
    core: &mut Core,
    source: &mut S,
    placed: &PlacedManifest<'x>,
    plans: Vec<Verified>,
    old_object: Option<&'x Value>,
) -> Result<Prepared, LookupFault>
    requires { core.old.revision < core.old.rules.greatest_revision }
    ensures same { IsAsBefore core.old core.new }
    ensures ready { IfOk result (λ p. HasRoomFor core.new p.write) }
    ensures judged { let m = placed.now.manifest.now in let old = option_map (λ d. view d.now) old_object.entry in let home = placed.now.namespace.now in
        (held : Held DecodedData) (v : View) (trees : List Expr) → IsOver (S.holds source.old) core.old held v → is_some old ≡ exists held m.key
        → plans.items ≡ plans_in (document_in m.body).json trees
        → IfOk result (IsJudged held (λ warnings. showing (if is_some old then 200 else 201) warnings (document_in m.body) (held.revision + 1))
        (put m.key (document_in m.body) trees)
        (verdict (objects_of v) (record { operation = if is_some old then Update else Create; key = m.key; object = Some (document_in m.body).json; old_object = old; namespace = home }))) }
    ensures looked { HasLooked S.holds S.goes_to S.failures S.unfailed core.old source.old source.new result }
{
    let alloc = placed.alloc;
    let attempt = put_attempt(placed, old_object);
    match verdict_of(core, alloc, source, &attempt)? {
        Verdict::Admitted(warnings) => admitted_put(
            core,
            alloc,
            placed.manifest,
            plans,
            old_object.is_some(),
            warnings,
        ),
        Verdict::Denied {
            policy,
            binding,
            reason,
            message,
        } => denied(alloc, policy, binding, reason, message),
    }
}

/// The deletion of an object that the policies admit, shown with their warnings. It is told the document that stands there.
pub(crate) fn admitted_delete(
    core: &mut Core,
    alloc: Global,
    key: &Key,
    document: Document,
    warnings: Vec<String>,
) -> Result<Prepared, LookupFault>
    requires { core.old.revision < core.old.rules.greatest_revision }
    ensures same { IsAsBefore core.old core.new }
    ensures reply { IfOk result (λ p. p.reply ≡ showing 200 (map string_bytes warnings.items) document (core.old.revision + 1)) }
    ensures write { IfOk result (λ p. writes_of p.write ≡ delete key.now ∷ []) }
    ensures next { (held : Held DecodedData) (s : StoredData DecodedData) → stored_at held key.now ≡ Some s → s.document ≡ document → IfOk result (λ p. AreNext held p.write) }
    ensures ready { IfOk result (λ p. HasRoomFor core.new p.write) }
    ensures memory { OnErr result (IsErrOf result LookupFault.Memory) }
{
    // The revision is below the greatest one, so that the next one fits.
    let _greatest = core.rules().greatest_revision;
    let revision = core.revision() + 1;
    let reply = Reply::showing(alloc, 200, warnings, &document, revision)?;
    let deletion = core.prepare_deletion(alloc, key, document)?;
    Ok(Prepared {
        reply,
        write: Some(PreparedWrite::Delete(deletion)),
    })
}

/// The deletion of an object that nothing but the policies may refuse, with what was found of it, that as it is shown, and its Namespace, if it is there.
pub(crate) fn judged_delete<'x, S: Source<Decoded>>(
    core: &mut Core,
    alloc: Global,
    source: &mut S,
    key: &'x Key,
    found: FoundDocument,
    old_object: &'x Value,
    namespace: Option<&'x Value>,
) -> Result<Prepared, LookupFault>
    requires { core.old.revision < core.old.rules.greatest_revision }
    ensures same { IsAsBefore core.old core.new }
    ensures ready { IfOk result (λ p. HasRoomFor core.new p.write) }
    ensures judged { let home = option_map (λ d. view d.now) namespace.entry in (held : Held DecodedData) (v : View) → IsOver (S.holds source.old) core.old held v → option_map found_in (stored_at held key.now) ≡ Some found
        → IfOk result (IsJudged held (λ warnings. showing 200 warnings found.document (held.revision + 1)) (delete key.now)
        (verdict (objects_of v) (record { operation = Delete; key = key.now; object = None; old_object = Some (view old_object.now); namespace = home }))) }
    ensures looked { HasLooked S.holds S.goes_to S.failures S.unfailed core.old source.old source.new result }
{
    let deletion = Attempt {
        operation: Operation::Delete,
        key,
        object: None,
        old_object: Some(old_object),
        namespace,
    };
    match verdict_of(core, alloc, source, &deletion)? {
        Verdict::Admitted(warnings) => {
            admitted_delete(core, alloc, key, found.document, warnings)
        }
        Verdict::Denied {
            policy,
            binding,
            reason,
            message,
        } => denied(alloc, policy, binding, reason, message),
    }
}
