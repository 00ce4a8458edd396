// The step of a request, with all its memory.
ghost use Rattle.std.specs.Prelude.{◌≡◌, ◌≤◌, ◌<◌, ◌⊎◌, List, Some, None, false, IsTrue, IfOk, OnOk, IsErrOf, option_map, string_bytes};
ghost use Rattle.celtree.specs.Tree.{Expr};
ghost use Rattle.names.specs.Key.{Key as KeyData, is_key};
ghost use Rattle.objects.specs.Failing.{HasGrown};
ghost use Rattle.objects.specs.declared.fault.Part.{Part};
ghost use Rattle.objects.specs.declared.fault.LookupFault.TheVariants as LookupFault;
ghost use Rattle.requests.specs.Codes.{document_in};
ghost use Rattle.requests.specs.Manifest.{BodyHasForm};
ghost use Rattle.requests.specs.Request.{create, replace, delete, RequestHasForm};
ghost use Rattle.requests.specs.RequestOf.{request_of};
ghost use Rattle.histories.specs.declared.stored.Stored.{Stored as StoredData};
ghost use Rattle.histories.specs.View.{View as Held, stored_at};
ghost use Rattle.holdings.specs.Holdings.{ShowsSame};
ghost use Rattle.holdings.specs.Prepared.{HasRoomFor};
ghost use Rattle.holdings.specs.Sources.{found_in};
ghost use Rattle.expressions.specs.Specification.{Specification as SpecificationOf, sound, compiled, plans_in, specification_seen};
ghost use Rattle.decoded.specs.Decoded.{Decoded as DecodedData};
ghost use Rattle.decoded.specs.Shown.{IsOver};
ghost use Rattle.apicore.specs.Looked.{HasLooked, IsAsBefore};
ghost use Rattle.apicore.specs.Prepared.{IsReadOf, IsPrepared, IsStepOf, put_request};
ghost use Rattle.apicore.specs.Namespaces as place;
ghost use Rattle.apicore.specs.Places.{IsIn};
ghost use Rattle.decoded.specs.Standing.{View};
ghost use Rattle.apicore.specs.Conditions.{first_of, replace_limits, update_conflicts_at, deletion_conflicts_at};

use crate::attempts::value_of;
use crate::conflicts::{deletion_conflicts, update_conflicts};
use crate::judging::{admitted_delete, admitted_put, has_no_bindings, judged_delete, judged_put};
use crate::limits::{create_limit, replace_limit};
use crate::namespaces::{NamespacePlace, is_in_use, namespace_of, place_of};
use crate::placed::{AskedDeletion, PlacedManifest, Put, Replacement};
use crate::prepared::Prepared;
use crate::reading::{get, list, watch};
use crate::refusing::{bad_expression, refused};
use crate::specification::specified;
use decoded::{Core, Decoded};
use documents::shown_document;
use expressions::Specification;
use holdings::{FoundDocument, Source};
use names::Key;
use objects::LookupFault;
use plancode::Verified;
use requests::{Manifest, Refusal, Request};
use std::alloc::Global;

/// Prepares the step of a request over the objects that a source holds: takes all its memory, and leaves what is seen as it was, also where there is
/// none. What stands under the request's key is looked up once; of the objects below, a verdict reads the parameters alone.
///
/// # Errors
///
/// Those of the source, and `Memory` when out of memory.
pub fn prepare<S: Source<Decoded>>(
    core: &mut Core,
    alloc: Global,
    source: &mut S,
    request: &Request,
) -> Result<Prepared, LookupFault>
    ensures rules { core.new.rules ≡ core.old.rules }
    ensures revision { core.new.revision ≡ core.old.revision }
    ensures shows { ShowsSame core.old core.new }
    ensures step { IfOk result (IsPrepared (S.holds source.old) core.old (request_of request.now)) }
    ensures ready { IfOk result (λ p. HasRoomFor core.new p.write) }

    // So that what it writes may follow.
    ensures form { RequestHasForm (request_of request.now) }

    // What looks leave of the source, whatever the answer.
    ensures kept { (base : List (KeyData × StoredData DecodedData)) → S.holds source.old base → S.holds source.new base }
    ensures goes { S.goes_to source.old source.new }
    ensures counts { S.failures source.old ≤ S.failures source.new }
    ensures steady { OnOk result (S.unfailed source.old source.new) }
    ensures device { IsErrOf result LookupFault.Device → HasGrown (S.failures source.old) (S.failures source.new) }
    ensures memory { IsErrOf result LookupFault.Memory → S.unfailed source.old source.new }
    ensures damaged { (part : Part) → IsErrOf result (LookupFault.Damaged part) → (held : Held DecodedData) (v : View) → IsOver (S.holds source.old) core.old held v → ⊥ }

    // What stands in the request's document was read before the look that failed.
    ensures read { IsErrOf result LookupFault.Device ⊎ ((part : Part) × IsErrOf result (LookupFault.Damaged part)) → (s : SpecificationOf Expr) × IsReadOf core.old.rules.format (request_of request.now) s }
{
    match request {
        Request::Get(key) => get(core, alloc, source, key),
        Request::List(collection, selector) => list(core, alloc, source, collection, selector),
        Request::Watch(collection, revision) => watch(core, alloc, collection, *revision),
        Request::Create(manifest) => prepare_manifest(core, alloc, source, manifest, Put::Creates),
        Request::Replace(manifest) => prepare_manifest(
            core,
            alloc,
            source,
            manifest,
            Put::Replaces,
        ),
        Request::Delete(key, version) => prepare_delete(core, alloc, source, key, version),
        Request::Refused(refusal) => refused(alloc, *refusal),
    }
}

// The step of a request that brings a manifest: it creates an object, or replaces the one at its key.
fn prepare_manifest<S: Source<Decoded>>(
    core: &mut Core,
    alloc: Global,
    source: &mut S,
    manifest: &Manifest,
    put: Put,
) -> Result<Prepared, LookupFault>
    ensures same { IsAsBefore core.old core.new }
    ensures step { IfOk result (IsPrepared (S.holds source.old) core.old (put_request put manifest.now)) }
    ensures ready { IfOk result (λ p. HasRoomFor core.new p.write) }
    ensures form { BodyHasForm manifest.now.key manifest.now.body }
    ensures looked { HasLooked S.holds S.goes_to S.failures S.unfailed core.old source.old source.new result }
    ensures read { IsErrOf result LookupFault.Device ⊎ ((part : Part) × IsErrOf result (LookupFault.Damaged part)) → (s : SpecificationOf Expr) × IsReadOf core.old.rules.format (put_request put manifest.now) s }
{
    // The document, of which the form speaks.
    let _document = manifest.document();
    let format = core.rules().format;
    let specification = specified(alloc, format, manifest)?;
    let place = place_of(core, alloc, source, manifest.key())?;
    match place {
        NamespacePlace::Refused(refusal) => refused(alloc, refusal),
        NamespacePlace::In(namespace) => {
            let placed = PlacedManifest {
                alloc,
                manifest,
                namespace: &namespace,
            };
            match put {
                Put::Creates => create_in(core, source, &placed, specification),
                Put::Replaces => replace_in(core, source, &placed, specification),
            }
        }
    }
}

// The creation of an object, in whose document this stands, at a place that refuses none, with the Namespace that it stands in, as it is shown.
fn create_in<S: Source<Decoded>>(
    core: &mut Core,
    source: &mut S,
    placed: &PlacedManifest<'_>,
    specification: Specification,
) -> Result<Prepared, LookupFault>
    ensures same { IsAsBefore core.old core.new }
    ensures step { let m = placed.now.manifest.now in let home = placed.now.namespace.now in
        (s : SpecificationOf Expr) → specification_seen specification ≡ compiled (document_in m.body).json s
        → (held : Held DecodedData) (v : View) → IsOver (S.holds source.old) core.old held v → IsIn core.old.rules held m.key home
        → IfOk result (IsStepOf core.old.rules held v (record { request = create m; specification = s })) }
    ensures ready { IfOk result (λ p. HasRoomFor core.new p.write) }
    ensures looked { HasLooked S.holds S.goes_to S.failures S.unfailed core.old source.old source.new result }
{
    match core.find(placed.alloc, source, placed.manifest.key())? {
        Some(_) => refused(placed.alloc, Refusal::AlreadyExists),
        None => create_free(core, source, placed, specification),
    }
}

// The creation of an object, in whose document this stands, at a key that has none.
fn create_free<S: Source<Decoded>>(
    core: &mut Core,
    source: &mut S,
    placed: &PlacedManifest<'_>,
    specification: Specification,
) -> Result<Prepared, LookupFault>
    ensures same { IsAsBefore core.old core.new }
    ensures step { let m = placed.now.manifest.now in let home = placed.now.namespace.now in
        (s : SpecificationOf Expr) → specification_seen specification ≡ compiled (document_in m.body).json s
        → (held : Held DecodedData) (v : View) → IsOver (S.holds source.old) core.old held v → IsIn core.old.rules held m.key home
        → stored_at held m.key ≡ None
        → IfOk result (IsStepOf core.old.rules held v (record { request = create m; specification = s })) }
    ensures ready { IfOk result (λ p. HasRoomFor core.new p.write) }
    ensures looked { HasLooked S.holds S.goes_to S.failures S.unfailed core.old source.old source.new result }
{
    match specification {
        Specification::Sound(plans) => create_sound(core, source, placed, plans),
        Specification::BadSpec => refused(placed.alloc, Refusal::BadSpec),
        Specification::BadExpression(text) => bad_expression(placed.alloc, text.as_str()),
    }
}

// The creation of an object at a key that has none, with these plans.
fn create_sound<S: Source<Decoded>>(
    core: &mut Core,
    source: &mut S,
    placed: &PlacedManifest<'_>,
    plans: Vec<Verified>,
) -> Result<Prepared, LookupFault>
    ensures same { IsAsBefore core.old core.new }
    ensures step { let m = placed.now.manifest.now in let home = placed.now.namespace.now in
        (trees : List Expr) → plans.items ≡ plans_in (document_in m.body).json trees
        → (held : Held DecodedData) (v : View) → IsOver (S.holds source.old) core.old held v → IsIn core.old.rules held m.key home
        → stored_at held m.key ≡ None
        → IfOk result (IsStepOf core.old.rules held v (record { request = create m; specification = sound trees })) }
    ensures ready { IfOk result (λ p. HasRoomFor core.new p.write) }
    ensures looked { HasLooked S.holds S.goes_to S.failures S.unfailed core.old source.old source.new result }
{
    match create_limit(core, placed.manifest) {
        Some(refusal) => refused(placed.alloc, refusal),
        None => judged_put(core, source, placed, plans, None),
    }
}

// The replacement of an object by a document in which this stands, at a place that refuses none, with the Namespace that it stands in, as it is shown.
fn replace_in<S: Source<Decoded>>(
    core: &mut Core,
    source: &mut S,
    placed: &PlacedManifest<'_>,
    specification: Specification,
) -> Result<Prepared, LookupFault>
    ensures same { IsAsBefore core.old core.new }
    ensures step { let m = placed.now.manifest.now in let home = placed.now.namespace.now in
        (s : SpecificationOf Expr) → specification_seen specification ≡ compiled (document_in m.body).json s
        → (held : Held DecodedData) (v : View) → IsOver (S.holds source.old) core.old held v → IsIn core.old.rules held m.key home
        → IfOk result (IsStepOf core.old.rules held v (record { request = replace m; specification = s })) }
    ensures ready { IfOk result (λ p. HasRoomFor core.new p.write) }
    ensures looked { HasLooked S.holds S.goes_to S.failures S.unfailed core.old source.old source.new result }
{
    match core.find(placed.alloc, source, placed.manifest.key())? {
        Some(found) => {
            let replacement = Replacement {
                placed,
                found: &found,
            };
            replace_of(core, source, &replacement, specification)
        }
        None => refused(placed.alloc, Refusal::NotFound),
    }
}

// The replacement of an object that was found, by a document in which this stands.
fn replace_of<S: Source<Decoded>>(
    core: &mut Core,
    source: &mut S,
    replacement: &Replacement<'_>,
    specification: Specification,
) -> Result<Prepared, LookupFault>
    ensures same { IsAsBefore core.old core.new }
    ensures step { let m = replacement.now.placed.now.manifest.now in let home = replacement.now.placed.now.namespace.now in
        (s : SpecificationOf Expr) → specification_seen specification ≡ compiled (document_in m.body).json s
        → (held : Held DecodedData) (v : View) → IsOver (S.holds source.old) core.old held v → IsIn core.old.rules held m.key home
        → option_map found_in (stored_at held m.key) ≡ Some replacement.now.found.now
        → IfOk result (IsStepOf core.old.rules held v (record { request = replace m; specification = s })) }
    ensures ready { IfOk result (λ p. HasRoomFor core.new p.write) }
    ensures looked { HasLooked S.holds S.goes_to S.failures S.unfailed core.old source.old source.new result }
{
    let put = replacement.placed;
    if update_conflicts(put.alloc, put.manifest, replacement.found.revision)? {
        return refused(put.alloc, Refusal::VersionNotCurrent);
    }
    replace_as(core, source, replacement, specification)
}

// The replacement of an object that was found as the manifest wants it.
fn replace_as<S: Source<Decoded>>(
    core: &mut Core,
    source: &mut S,
    replacement: &Replacement<'_>,
    specification: Specification,
) -> Result<Prepared, LookupFault>
    requires conflicts { update_conflicts_at replacement.now.found.now.revision replacement.now.placed.now.manifest.now.version ≡ false }
    ensures same { IsAsBefore core.old core.new }
    ensures step { let m = replacement.now.placed.now.manifest.now in let home = replacement.now.placed.now.namespace.now in
        (s : SpecificationOf Expr) → specification_seen specification ≡ compiled (document_in m.body).json s
        → (held : Held DecodedData) (v : View) → IsOver (S.holds source.old) core.old held v → IsIn core.old.rules held m.key home
        → option_map found_in (stored_at held m.key) ≡ Some replacement.now.found.now
        → IfOk result (IsStepOf core.old.rules held v (record { request = replace m; specification = s })) }
    ensures ready { IfOk result (λ p. HasRoomFor core.new p.write) }
    ensures looked { HasLooked S.holds S.goes_to S.failures S.unfailed core.old source.old source.new result }
{
    let alloc = replacement.placed.alloc;
    match specification {
        Specification::Sound(plans) => replace_sound(core, source, replacement, plans),
        Specification::BadSpec => refused(alloc, Refusal::BadSpec),
        Specification::BadExpression(text) => bad_expression(alloc, text.as_str()),
    }
}

// The replacement of an object that was found as the manifest wants it, with these plans.
fn replace_sound<S: Source<Decoded>>(
    core: &mut Core,
    source: &mut S,
    replacement: &Replacement<'_>,
    plans: Vec<Verified>,
) -> Result<Prepared, LookupFault>
    requires conflicts { update_conflicts_at replacement.now.found.now.revision replacement.now.placed.now.manifest.now.version ≡ false }
    ensures same { IsAsBefore core.old core.new }
    ensures step { let m = replacement.now.placed.now.manifest.now in let home = replacement.now.placed.now.namespace.now in
        (trees : List Expr) → plans.items ≡ plans_in (document_in m.body).json trees
        → (held : Held DecodedData) (v : View) → IsOver (S.holds source.old) core.old held v → IsIn core.old.rules held m.key home
        → option_map found_in (stored_at held m.key) ≡ Some replacement.now.found.now
        → IfOk result (IsStepOf core.old.rules held v (record { request = replace m; specification = sound trees })) }
    ensures ready { IfOk result (λ p. HasRoomFor core.new p.write) }
    ensures looked { HasLooked S.holds S.goes_to S.failures S.unfailed core.old source.old source.new result }
{
    match replace_limit(core, replacement.placed.manifest) {
        Some(refusal) => refused(replacement.placed.alloc, refusal),
        None => replace_there(core, source, replacement, plans),
    }
}

// The replacement of an object that nothing but the policies may refuse.
fn replace_there<S: Source<Decoded>>(
    core: &mut Core,
    source: &mut S,
    replacement: &Replacement<'_>,
    plans: Vec<Verified>,
) -> Result<Prepared, LookupFault>
    requires conflicts { update_conflicts_at replacement.now.found.now.revision replacement.now.placed.now.manifest.now.version ≡ false }
    requires room { core.old.revision < core.old.rules.greatest_revision }
    ensures same { IsAsBefore core.old core.new }
    ensures step { let m = replacement.now.placed.now.manifest.now in let home = replacement.now.placed.now.namespace.now in
        (trees : List Expr) → plans.items ≡ plans_in (document_in m.body).json trees
        → (held : Held DecodedData) (v : View) → IsOver (S.holds source.old) core.old held v → IsIn core.old.rules held m.key home
        → option_map found_in (stored_at held m.key) ≡ Some replacement.now.found.now → first_of (replace_limits core.old.rules held (document_in m.body)) ≡ None
        → IfOk result (IsStepOf core.old.rules held v (record { request = replace m; specification = sound trees })) }
    ensures ready { IfOk result (λ p. HasRoomFor core.new p.write) }
    ensures looked { HasLooked S.holds S.goes_to S.failures S.unfailed core.old source.old source.new result }
{
    let placed = replacement.placed;
    let alloc = placed.alloc;
    let found = replacement.found;
    if has_no_bindings(core, alloc)? {
        return admitted_put(core, alloc, placed.manifest, plans, true, Vec::new(alloc));
    }
    let old = shown_document(alloc, &found.document, found.revision)?;
    judged_put(core, source, placed, plans, Some(old.value()))
}

// The deletion of an object, which shows the object that it removes with the revision that it makes.
fn prepare_delete<S: Source<Decoded>>(
    core: &mut Core,
    alloc: Global,
    source: &mut S,
    key: &Key,
    version: &Option<String>,
) -> Result<Prepared, LookupFault>
    ensures same { IsAsBefore core.old core.new }
    ensures step { IfOk result (IsPrepared (S.holds source.old) core.old (delete key.now (option_map string_bytes version.now))) }
    ensures ready { IfOk result (λ p. HasRoomFor core.new p.write) }
    ensures form { IsTrue (is_key key.now) }
    ensures looked { HasLooked S.holds S.goes_to S.failures S.unfailed core.old source.old source.new result }
{
    // A name of the key, which is well-formed.
    let _name = key.name();
    let asked = AskedDeletion {
        alloc,
        key,
        version,
    };
    match core.find(alloc, source, key)? {
        Some(found) => delete_found(core, source, &asked, found),
        None => refused(alloc, Refusal::NotFound),
    }
}

// The deletion of an object that was found.
fn delete_found<S: Source<Decoded>>(
    core: &mut Core,
    source: &mut S,
    asked: &AskedDeletion<'_>,
    found: FoundDocument,
) -> Result<Prepared, LookupFault>
    ensures same { IsAsBefore core.old core.new }
    ensures step { let k = asked.now.key.now in let version = option_map string_bytes asked.now.version.now in
        (held : Held DecodedData) (v : View) → IsOver (S.holds source.old) core.old held v → option_map found_in (stored_at held k) ≡ Some found
        → (s : SpecificationOf Expr) → IfOk result (IsStepOf core.old.rules held v (record { request = delete k version; specification = s })) }
    ensures ready { IfOk result (λ p. HasRoomFor core.new p.write) }
    ensures looked { HasLooked S.holds S.goes_to S.failures S.unfailed core.old source.old source.new result }
{
    let alloc = asked.alloc;
    if deletion_conflicts(alloc, asked.version, found.revision)? {
        return refused(alloc, Refusal::VersionNotCurrent);
    }
    let is_in_use = is_in_use(core, alloc, source, asked.key)?;
    if is_in_use {
        return refused(alloc, Refusal::NamespaceNotEmpty);
    }
    if core.is_exhausted() {
        return refused(alloc, Refusal::RevisionExhausted);
    }
    delete_there(core, source, asked, found)
}

// The deletion of an object that was found, which nothing but the policies may refuse.
fn delete_there<S: Source<Decoded>>(
    core: &mut Core,
    source: &mut S,
    asked: &AskedDeletion<'_>,
    found: FoundDocument,
) -> Result<Prepared, LookupFault>
    requires conflicts { deletion_conflicts_at found.revision (option_map string_bytes asked.now.version.now) ≡ false }
    requires room { core.old.revision < core.old.rules.greatest_revision }
    ensures same { IsAsBefore core.old core.new }
    ensures step { let k = asked.now.key.now in let version = option_map string_bytes asked.now.version.now in
        (held : Held DecodedData) (v : View) → IsOver (S.holds source.old) core.old held v → option_map found_in (stored_at held k) ≡ Some found
        → place.is_in_use held k ≡ false
        → (s : SpecificationOf Expr) → IfOk result (IsStepOf core.old.rules held v (record { request = delete k version; specification = s })) }
    ensures ready { IfOk result (λ p. HasRoomFor core.new p.write) }
    ensures looked { HasLooked S.holds S.goes_to S.failures S.unfailed core.old source.old source.new result }
{
    let alloc = asked.alloc;
    if has_no_bindings(core, alloc)? {
        return admitted_delete(core, alloc, asked.key, found.document, Vec::new(alloc));
    }
    let namespace = namespace_of(core, alloc, source, asked.key)?;
    let old = shown_document(alloc, &found.document, found.revision)?;
    judged_delete(
        core,
        alloc,
        source,
        asked.key,
        found,
        old.value(),
        value_of(&namespace),
    )
}
