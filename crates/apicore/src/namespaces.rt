//! The namespaces that objects stand in, where namespaces are objects.

ghost use Rattle.std.specs.Prelude.{◌≡◌, ◌||◌, Some, IfOk};
ghost use Rattle.std.specs.List.{list_any};
ghost use Rattle.names.specs.declared.format.Rules.{Rules as RulesData};
ghost use Rattle.objects.specs.Objects.{is_of};
ghost use Rattle.histories.specs.View.{View as Held};
ghost use Rattle.decoded.specs.Decoded.{Decoded as DecodedData};
ghost use Rattle.apicore.specs.Looked.{HasLooked};
ghost use Rattle.apicore.specs.Namespaces as spec;
ghost use Rattle.apicore.specs.Namespaces.{namespace_shown};
ghost use Rattle.apicore.specs.Places.{IsPlaceOf};
ghost use Rattle.decoded.specs.Shown.{IsOver};
ghost use Rattle.decoded.specs.Standing.{View};

use decoded::{Core, Decoded};
use documents::shown_document;
use holdings::Source;
use jsondoc::Doc;
use names::{Format, Key, Resource};
use objects::LookupFault;
use requests::Refusal;
use std::alloc::Global;

/// What a put finds of the place of its key.
#[derive(Drop)]
pub enum NamespacePlace {
    /// What refuses the put for its place.
    Refused(Refusal),
    /// The Namespace that it stands in, as it is shown, if it is there.
    In(Option<Doc>),
}

// The Namespace at a key, as it is shown, if it is there.
fn shown_namespace<S: Source<Decoded>>(
    core: &Core,
    alloc: Global,
    source: &mut S,
    at: &Key,
) -> Result<Option<Doc>, LookupFault>
    ensures namespace { (held : Held DecodedData) (v : View) → IsOver (S.holds source.old) core.now held v → IfOk result (λ d. d ≡ spec.shown_at held at.now) }
    ensures looked { HasLooked S.holds S.goes_to S.failures S.unfailed core.now source.old source.new result }
{
    match core.find(alloc, source, at)? {
        Some(found) => Ok(Some(shown_document(alloc, &found.document, found.revision)?)),
        None => Ok(None),
    }
}

/// The Namespace that an object of the key stands in, as it is shown, if it is there. Where namespaces are no objects, nothing is looked up.
///
/// # Errors
///
/// Those of the source, and `Memory` where memory is refused.
pub(crate) fn namespace_of<S: Source<Decoded>>(
    core: &Core,
    alloc: Global,
    source: &mut S,
    key: &Key,
) -> Result<Option<Doc>, LookupFault>
    ensures namespace { (held : Held DecodedData) (v : View) → IsOver (S.holds source.old) core.now held v → IfOk result (λ d. d ≡ namespace_shown held key.now) }
    ensures looked { HasLooked S.holds S.goes_to S.failures S.unfailed core.now source.old source.new result }
{
    if !core.rules().format.has_namespaces() {
        return Ok(None);
    }
    if !key.resource().is_namespaced() {
        return Ok(None);
    }
    match Key::new(alloc, Resource::Namespace, "", key.namespace()) {
        Ok(at) => shown_namespace(core, alloc, source, &at),
        // The namespace of a key is the name of a Namespace, so memory alone can be refused.
        Err(_) => Err(LookupFault::Memory),
    }
}

// Whether an object of the key would stand in a namespace that is not there, by what was found of its Namespace.
fn is_missing(format: Format, key: &Key, namespace: &Option<Doc>) -> bool
    ensures { (rules : RulesData) (held : Held DecodedData) → rules.format ≡ format → namespace.now ≡ namespace_shown held key.now → result ≡ spec.lacks_namespace rules held key.now }
{
    match namespace {
        Some(_) => false,
        None => format.has_namespaces() && key.resource().is_namespaced(),
    }
}

/// What a put finds of the place of its key: whether the store's format has its resource, and its namespace is there.
///
/// # Errors
///
/// As those of `namespace_of`.
pub(crate) fn place_of<S: Source<Decoded>>(
    core: &Core,
    alloc: Global,
    source: &mut S,
    key: &Key,
) -> Result<NamespacePlace, LookupFault>
    ensures place { (held : Held DecodedData) (v : View) → IsOver (S.holds source.old) core.now held v → IfOk result (IsPlaceOf core.now.rules held key.now) }
    ensures looked { HasLooked S.holds S.goes_to S.failures S.unfailed core.now source.old source.new result }
{
    let format = core.rules().format;
    if !format.has(key.resource()) {
        return Ok(NamespacePlace::Refused(Refusal::NoSuchPath));
    }
    let namespace = namespace_of(core, alloc, source, key)?;
    if is_missing(format, key, &namespace) {
        return Ok(NamespacePlace::Refused(Refusal::NamespaceNotFound));
    }
    Ok(NamespacePlace::In(namespace))
}

// Whether an object of the resource stands in a namespace. It looks no further than the first.
fn holds_any<S: Source<Decoded>>(
    core: &Core,
    alloc: Global,
    source: &mut S,
    resource: Resource,
    namespace: &str,
) -> Result<bool, LookupFault>
    ensures holds { (held : Held DecodedData) (v : View) → IsOver (S.holds source.old) core.now held v
        → IfOk result (λ b. b ≡ list_any (λ o. is_of resource (Some namespace.now) o.0) held.objects) }
    ensures looked { HasLooked S.holds S.goes_to S.failures S.unfailed core.now source.old source.new result }
{
    core.has_any(alloc, source, resource, namespace)
}

// Whether an object of one of two resources stands in a namespace. The second is asked where there is none of the first.
fn holds_either<S: Source<Decoded>>(
    core: &Core,
    alloc: Global,
    source: &mut S,
    first: Resource,
    second: Resource,
    namespace: &str,
) -> Result<bool, LookupFault>
    ensures holds { (held : Held DecodedData) (v : View) → IsOver (S.holds source.old) core.now held v
        → IfOk result (λ b. b ≡ (list_any (λ o. is_of first (Some namespace.now) o.0) held.objects || list_any (λ o. is_of second (Some namespace.now) o.0) held.objects)) }
    ensures looked { HasLooked S.holds S.goes_to S.failures S.unfailed core.now source.old source.new result }
{
    if holds_any(core, alloc, source, first, namespace)? {
        return Ok(true);
    }
    holds_any(core, alloc, source, second, namespace)
}

// Whether an object stands in a namespace: one of the four namespaced resources.
fn holds_objects<S: Source<Decoded>>(
    core: &Core,
    alloc: Global,
    source: &mut S,
    namespace: &str,
) -> Result<bool, LookupFault>
    ensures holds { (held : Held DecodedData) (v : View) → IsOver (S.holds source.old) core.now held v → IfOk result (λ b. b ≡ spec.holds_objects held namespace.now) }
    ensures looked { HasLooked S.holds S.goes_to S.failures S.unfailed core.now source.old source.new result }
{
    if holds_either(
        core,
        alloc,
        source,
        Resource::ConfigMap,
        Resource::Pod,
        namespace,
    )? {
        return Ok(true);
    }
    holds_either(
        core,
        alloc,
        source,
        Resource::Service,
        Resource::Deployment,
        namespace,
    )
}

/// Whether the key is that of a Namespace in which an object stands.
///
/// # Errors
///
/// As those of `namespace_of`.
pub(crate) fn is_in_use<S: Source<Decoded>>(
    core: &Core,
    alloc: Global,
    source: &mut S,
    key: &Key,
) -> Result<bool, LookupFault>
    ensures used { (held : Held DecodedData) (v : View) → IsOver (S.holds source.old) core.now held v → IfOk result (λ b. b ≡ spec.is_in_use held key.now) }
    ensures looked { HasLooked S.holds S.goes_to S.failures S.unfailed core.now source.old source.new result }
{
    match key.resource() {
        Resource::Namespace => holds_objects(core, alloc, source, key.name()),
        _ => Ok(false),
    }
}
