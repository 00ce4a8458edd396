ghost use Rattle.std.specs.Prelude.{◌≡◌, ◌≤◌, ℕ, List, [], Option, IsTrue, true, false, Some, None, IfOk, IfErr, option_map, string_bytes, codes};
ghost use Rattle.std.specs.Option.{option_map_or};
ghost use Rattle.std.specs.Str.{bytes_eq};
ghost use Rattle.serde_json.specs.Data.{depth};
ghost use Rattle.jsondoc.specs.Json.{text, without_member};
ghost use Rattle.documents.specs.Document.{Document as DocumentData, metadata_of, metadata_text};
ghost use Rattle.requests.specs.Manifest.{target, is_target, key_at, fits_path, asks_for_version, document_conditions, body_refusal, with_namespace, stored_document, manifest_of, sound, IsManifestOf, BodyHasForm};
ghost use Rattle.documents.specs.Form.{HasForm};
ghost use Rattle.names.specs.declared.resource.Resource.TheVariants.{Namespace};
ghost use Rattle.names.specs.Key.{is_key, key_of};
ghost use Rattle.names.specs.Name.{is_namespace};
ghost use Rattle.names.specs.Resource.{row};
ghost use Rattle.requests.specs.Namespaces.{namespace_document};
ghost use Rattle.requests.specs.Refusal.{first_of};
ghost use Rattle.requests.specs.declared.manifest.BodyFault.TheVariants.{Memory};

use crate::namespaces::namespace_document;
use crate::refusal::Refusal;
use crate::reply::put_text;
use documents::{Document, has_kind, has_metadata, metadata_copy, metadata_text};
use jsondoc::{Doc, JsonFault};
use names::{Key, KeyFault, Resource, Scope, check_name_of, check_namespace};
use std::alloc::{AllocError, Global};
use std::marker::Model;
use thiserror::Error;

/// Why a body is not taken.
#[derive(Clone, Copy, Debug, Drop, Error)]
pub enum BodyFault {
    /// The body, or the path that it is sent to, is refused.
    #[error("{}", .0.message())]
    Refused(Refusal),
    /// Out of memory while reading it.
    #[error("out of memory")]
    Memory,
}

impl From<AllocError> for BodyFault {
    ghost from_gives = { λ _ fault. fault ≡ Memory };

    fn from(_error: AllocError) -> BodyFault {
        BodyFault::Memory
    }
}

/// An object as a body asks for it: its key, the document to be stored, and the revision that it asks for.
#[derive(Drop)]
pub struct Manifest {
    key: Key,
    document: Document,
    text: String,
    version: Option<String>,
}

impl Model for Manifest {
    ghost use Rattle.requests.specs.Manifest.{Manifest as ManifestData};
    ghost use Rattle.requests.specs.Codes.{coded_manifest};

    ghost Value = { ManifestData };

    ghost coded = { coded_manifest };

    ghost use Rattle.std.specs.Prelude.{◌≡◌, option_map, string_bytes};
    ghost use Rattle.jsondoc.specs.Json.{text as text_of};
    ghost use Rattle.requests.specs.Manifest.{sound};
    ghost use Rattle.documents.specs.Form.{HasForm};

    ghost view = { λ m. record { key = m.key; body = sound m.document; version = option_map string_bytes m.version } };

    ghost invariant = { λ m. HasForm m.key m.document × (string_bytes m.text ≡ text_of m.document.json) };
}

impl Manifest {
    ghost use Rattle.requests.specs.declared.refusal.Refusal.{Refusal};

    /// Reads the manifest in a body that is sent to a collection of a resource, or to an item of it by name. The namespace
    /// is empty where the resource is cluster-scoped.
    pub fn read(
        alloc: Global,
        resource: Resource,
        namespace: &str,
        name: Option<&str>,
        body: &[u8],
    ) -> Result<Manifest, BodyFault>
        ensures ok { IfOk result
            (IsManifestOf (target resource namespace.now (option_map (λ n. n.now) name.entry)) body.now) }
        ensures form { IfOk result (λ m. BodyHasForm m.key m.body) }
        ensures refused { (r : Refusal) → result ≡ Err (BodyFault.Refused r)
            → body_refusal (target resource namespace.now (option_map (λ n. n.now) name.entry)) body.now ≡ Some r }
    {
        if !is_target(resource, namespace, name) {
            return Err(BodyFault::Refused(Refusal::BadNameInPath));
        }
        let document = match Doc::read(alloc, body) {
            Ok(document) => document,
            Err(JsonFault::NotJson) => return Err(BodyFault::Refused(Refusal::BodyIsNotJson)),
            Err(JsonFault::Number) => return Err(BodyFault::Refused(Refusal::NumberOutsideRange)),
            Err(JsonFault::Memory) => return Err(BodyFault::Memory),
        };
        match document_refusal(resource, namespace, name, &document) {
            Some(refusal) => Err(BodyFault::Refused(refusal)),
            None => Manifest::of(alloc, resource, namespace, name, document),
        }
    }

    // The manifest in a body's object that nothing refuses.
    fn of(
        alloc: Global,
        resource: Resource,
        namespace: &str,
        name: Option<&str>,
        document: Doc,
    ) -> Result<Manifest, BodyFault>
        requires target { is_target (target resource namespace.now (option_map (λ n. n.now) name)) ≡ true }
        requires sound { first_of (document_conditions (target resource namespace.now (option_map (λ n. n.now) name)) document) ≡ None }
        requires shallow { depth document ≤ 127 }
        ensures ok { IfOk result (λ m. m ≡ manifest_of (target resource namespace.now (option_map (λ n. n.now) name.entry)) document) }
        ensures form { IfOk result (λ m. BodyHasForm m.key m.body) }
        ensures memory { IfErr result (λ e. e ≡ BodyFault.Memory) }
    {
        let key = key_of(alloc, resource, namespace, &document)?;
        let version = version_of(alloc, &document)?;
        let stored = stored_document(alloc, resource, namespace, document)?;
        let text = stored.json().text(alloc)?;
        Ok(Manifest {
            key,
            document: stored,
            text,
            version,
        })
    }

    /// The manifest of a Namespace of which only the name is told. `AllocError` when out of memory.
    pub fn of_namespace(alloc: Global, name: &str) -> Result<Manifest, AllocError>
        requires { IsTrue (is_namespace name.now) }
        ensures { IfOk result (λ m. m ≡ record { key = key_of Namespace [] name.now; body = sound (namespace_document name.now); version = None }) }
    {
        let document = namespace_document(alloc, name)?;
        let key = key_of(alloc, Resource::Namespace, "", &document)?;
        let stored = Document::new(alloc, document)?;
        let text = stored.json().text(alloc)?;
        Ok(Manifest {
            key,
            document: stored,
            text,
            version: None,
        })
    }

    /// The key of the object.
    pub fn key(&self) -> &Key
        ensures { result.now ≡ self.now.key }
    {
        &self.key
    }

    /// The document to be stored.
    pub fn document(&self) -> &Document
        ensures body { self.now.body ≡ sound result.now }
        ensures form { HasForm self.now.key result.now }
    {
        &self.document
    }

    /// The key of the object, and the document to be stored, taken out.
    pub fn into_parts(self) -> (Key, Document)
        ensures key { result.0 ≡ self.key }
        ensures body { self.body ≡ sound result.1 }
        ensures form { HasForm self.key result.1 }
    {
        let Manifest { key, document, .. } = self;
        (key, document)
    }

    /// The text of the document to be stored.
    pub fn text(&self) -> &str
        ensures { (d : DocumentData) → self.now.body ≡ sound d → result.now ≡ text d.json }
    {
        &self.text
    }

    /// The revision that the body asks for, as it stands there.
    pub fn version(&self) -> Option<&str>
        ensures { option_map (λ v. v.now) result ≡ self.now.version }
    {
        match &self.version {
            Some(version) => Some(version.as_str()),
            None => None,
        }
    }
}

// Whether the namespace, and the name if there is one, are well-formed.
fn is_target(resource: Resource, namespace: &str, name: Option<&str>) -> bool
    ensures { result ≡ is_target (target resource namespace.now (option_map (λ n. n.now) name.entry)) }
{
    let fits_scope = match resource.scope() {
        Scope::Namespaced => check_namespace(namespace),
        Scope::Cluster => namespace.is_empty(),
    };
    let good_name = match name {
        Some(name) => check_name_of(resource, name),
        None => true,
    };
    fits_scope && good_name
}

// The first refusal of a body's object at a path.
fn document_refusal(
    resource: Resource,
    namespace: &str,
    name: Option<&str>,
    document: &Doc,
) -> Option<Refusal>
    ensures { result ≡ first_of
        (document_conditions (target resource namespace.now (option_map (λ n. n.now) name.entry)) document.now) }
{
    if !has_kind(resource, document) {
        return Some(Refusal::WrongKind);
    }
    if !has_metadata(resource, document) {
        return Some(Refusal::BadMetadata);
    }
    if !fits_path(namespace, name, document) {
        return Some(Refusal::WrongName);
    }
    if name.is_none() && asks_for_version(document) {
        return Some(Refusal::VersionOnCreate);
    }
    None
}

// Whether the object's name and namespace are those of the path, as far as both have them.
fn fits_path(namespace: &str, name: Option<&str>, document: &Doc) -> bool
    ensures { result ≡ fits_path namespace.now (option_map (λ n. n.now) name.entry) document.now }
{
    fits_name(name, document) && fits_namespace(namespace, document)
}

fn fits_name(name: Option<&str>, document: &Doc) -> bool
    ensures { result ≡ option_map_or (λ text. option_map_or (bytes_eq text) (metadata_text (codes "name") document.now) false)
        (option_map (λ n. n.now) name.entry) true }
{
    match name {
        Some(text) => match metadata_text(document, "name") {
            Some(found) => text == found,
            None => false,
        },
        None => true,
    }
}

fn fits_namespace(namespace: &str, document: &Doc) -> bool
    ensures { result ≡ option_map_or (bytes_eq namespace.now) (metadata_text (codes "namespace") document.now) true }
{
    match metadata_text(document, "namespace") {
        Some(found) => namespace == found,
        None => true,
    }
}

// Whether the object asks for a revision.
fn asks_for_version(document: &Doc) -> bool
    ensures { result ≡ asks_for_version document.now }
{
    match metadata_text(document, "resourceVersion") {
        Some(version) => !version.is_empty(),
        None => false,
    }
}

// What is stored of a body's object.
fn stored_document(
    alloc: Global,
    resource: Resource,
    namespace: &str,
    document: Doc,
) -> Result<Document, AllocError>
    ensures { (name : Option (List ℕ)) → IfOk result (λ d. d ≡ stored_document (target resource namespace.now name) document) }
{
    let metadata = stored_metadata(alloc, resource, namespace, &document)?;
    let mut stored = document;
    stored.put(alloc, "metadata", metadata)?;
    Document::new(alloc, stored)
}

// The metadata of what is stored.
fn stored_metadata(
    alloc: Global,
    resource: Resource,
    namespace: &str,
    document: &Doc,
) -> Result<Doc, AllocError>
    ensures { IfOk result (λ m. m ≡ with_namespace (row resource).scope namespace.now (without_member (codes "resourceVersion") (metadata_of document.now))) }
{
    let mut metadata = metadata_copy(document)?;
    metadata.remove("resourceVersion");
    if resource.is_namespaced() {
        put_text(&mut metadata, alloc, "namespace", namespace)?;
    }
    Ok(metadata)
}

// The key of a body's object, whose name and namespace are well-formed.
fn key_of(
    alloc: Global,
    resource: Resource,
    namespace: &str,
    document: &Doc,
) -> Result<Key, AllocError>
    requires { is_key (key_at resource namespace.now document.now) ≡ true }
    ensures { IfOk result (λ k. k ≡ key_at resource namespace.now document.now) }
{
    let name = metadata_text(document, "name").unwrap_or("");
    match Key::new(alloc, resource, namespace, name) {
        Ok(key) => Ok(key),
        Err(KeyFault::Memory) => Err(AllocError),
        Err(KeyFault::NoKey) => unreachable!("the name and the namespace are well-formed"),
    }
}

// The revision that a body's object asks for, as it stands there.
fn version_of(alloc: Global, document: &Doc) -> Result<Option<String>, AllocError>
    ensures { IfOk result (λ v. option_map string_bytes v ≡ metadata_text (codes "resourceVersion") document.now) }
{
    match metadata_text(document, "resourceVersion") {
        Some(version) => Ok(Some(String::from_str(alloc, version)?)),
        None => Ok(None),
    }
}
