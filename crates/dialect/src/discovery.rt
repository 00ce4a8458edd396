//! Constant texts that tell a Kubernetes client which resources there are, and where they are told.

ghost use Rattle.std.specs.Prelude.{◌≡◌, IfOk, map, not, option_map, codes};
ghost use Rattle.names.specs.declared.format.Format.TheVariants.{First, Second, Third};
ghost use Rattle.routes.specs.Path.{is_empty, parts_of};
ghost use Rattle.dialect.specs.Discovery.{are_events, is_core, is_of_events, constant_at, constants, core_text, groups_text, no_events_text, resources_text, schema_places_text, schemas_text, text_at, version_text};

use names::Format;
use std::alloc::{AllocError, Global};

// The version of Kubernetes whose API this is.
fn version_text() -> &'static str
    ensures { result.now ≡ version_text }
{
    "{\"major\":\"1\",\"minor\":\"32\",\"gitVersion\":\"v1.32.0-gated\"}"
}

// The versions of the core group.
fn core_text() -> &'static str
    ensures { result.now ≡ core_text }
{
    "{\"kind\":\"APIVersions\",\"versions\":[\"v1\"]}"
}

// The other groups.
fn groups_text() -> &'static str
    ensures { result.now ≡ groups_text }
{
    "{\"kind\":\"APIGroupList\",\"apiVersion\":\"v1\",\"groups\":[{\"name\":\"apps\",\"versions\":[{\"groupVersion\":\"apps/v1\",\"version\":\"v1\"}],\"preferredVersion\":{\"groupVersion\":\"apps/v1\",\"version\":\"v1\"}},{\"name\":\"admissionregistration.k8s.io\",\"versions\":[{\"groupVersion\":\"admissionregistration.k8s.io/v1\",\"version\":\"v1\"}],\"preferredVersion\":{\"groupVersion\":\"admissionregistration.k8s.io/v1\",\"version\":\"v1\"}}]}"
}

// The resources of the core group in a store of format 1.
fn core_resources_of_first() -> &'static str
    ensures { result.now ≡ resources_text First (codes "v1") }
{
    "{\"kind\":\"APIResourceList\",\"groupVersion\":\"v1\",\"resources\":[{\"name\":\"configmaps\",\"singularName\":\"configmap\",\"namespaced\":true,\"kind\":\"ConfigMap\",\"verbs\":[\"create\",\"delete\",\"get\",\"list\",\"update\",\"watch\"],\"shortNames\":[\"cm\"]},{\"name\":\"nodes\",\"singularName\":\"node\",\"namespaced\":false,\"kind\":\"Node\",\"verbs\":[\"create\",\"delete\",\"get\",\"list\",\"update\",\"watch\"],\"shortNames\":[\"no\"]},{\"name\":\"pods\",\"singularName\":\"pod\",\"namespaced\":true,\"kind\":\"Pod\",\"verbs\":[\"create\",\"delete\",\"get\",\"list\",\"update\",\"watch\"],\"shortNames\":[\"po\"]},{\"name\":\"services\",\"singularName\":\"service\",\"namespaced\":true,\"kind\":\"Service\",\"verbs\":[\"create\",\"delete\",\"get\",\"list\",\"update\",\"watch\"],\"shortNames\":[\"svc\"]}]}"
}

// The resources of the core group in a store of another format.
fn core_resources_of_later() -> &'static str
    ensures second { result.now ≡ resources_text Second (codes "v1") }
    ensures third { result.now ≡ resources_text Third (codes "v1") }
{
    "{\"kind\":\"APIResourceList\",\"groupVersion\":\"v1\",\"resources\":[{\"name\":\"configmaps\",\"singularName\":\"configmap\",\"namespaced\":true,\"kind\":\"ConfigMap\",\"verbs\":[\"create\",\"delete\",\"get\",\"list\",\"update\",\"watch\"],\"shortNames\":[\"cm\"]},{\"name\":\"nodes\",\"singularName\":\"node\",\"namespaced\":false,\"kind\":\"Node\",\"verbs\":[\"create\",\"delete\",\"get\",\"list\",\"update\",\"watch\"],\"shortNames\":[\"no\"]},{\"name\":\"pods\",\"singularName\":\"pod\",\"namespaced\":true,\"kind\":\"Pod\",\"verbs\":[\"create\",\"delete\",\"get\",\"list\",\"update\",\"watch\"],\"shortNames\":[\"po\"]},{\"name\":\"services\",\"singularName\":\"service\",\"namespaced\":true,\"kind\":\"Service\",\"verbs\":[\"create\",\"delete\",\"get\",\"list\",\"update\",\"watch\"],\"shortNames\":[\"svc\"]},{\"name\":\"namespaces\",\"singularName\":\"namespace\",\"namespaced\":false,\"kind\":\"Namespace\",\"verbs\":[\"create\",\"delete\",\"get\",\"list\",\"update\",\"watch\"],\"shortNames\":[\"ns\"]}]}"
}

// Those of `apps`.
fn apps_resources() -> &'static str
    ensures { result.now ≡ resources_text First (codes "apps/v1") }
{
    "{\"kind\":\"APIResourceList\",\"groupVersion\":\"apps/v1\",\"resources\":[{\"name\":\"deployments\",\"singularName\":\"deployment\",\"namespaced\":true,\"kind\":\"Deployment\",\"verbs\":[\"create\",\"delete\",\"get\",\"list\",\"update\",\"watch\"],\"shortNames\":[\"deploy\"]}]}"
}

// Those of `admissionregistration.k8s.io`.
fn admission_resources() -> &'static str
    ensures { result.now ≡ resources_text First (codes "admissionregistration.k8s.io/v1") }
{
    "{\"kind\":\"APIResourceList\",\"groupVersion\":\"admissionregistration.k8s.io/v1\",\"resources\":[{\"name\":\"validatingadmissionpolicies\",\"singularName\":\"validatingadmissionpolicy\",\"namespaced\":false,\"kind\":\"ValidatingAdmissionPolicy\",\"verbs\":[\"create\",\"delete\",\"get\",\"list\",\"update\",\"watch\"],\"shortNames\":[]},{\"name\":\"validatingadmissionpolicybindings\",\"singularName\":\"validatingadmissionpolicybinding\",\"namespaced\":false,\"kind\":\"ValidatingAdmissionPolicyBinding\",\"verbs\":[\"create\",\"delete\",\"get\",\"list\",\"update\",\"watch\"],\"shortNames\":[]}]}"
}

// Where the schemas are.
fn schema_places_text() -> &'static str
    ensures { result.now ≡ schema_places_text }
{
    "{\"paths\":{\"api/v1\":{\"serverRelativeURL\":\"/openapi/v3/api/v1\"},\"apis/apps/v1\":{\"serverRelativeURL\":\"/openapi/v3/apis/apps/v1\"},\"apis/admissionregistration.k8s.io/v1\":{\"serverRelativeURL\":\"/openapi/v3/apis/admissionregistration.k8s.io/v1\"}}}"
}

// The schemas of the core group in a store of format 1.
fn core_schemas_of_first() -> &'static str
    ensures { result.now ≡ schemas_text First (codes "v1") }
{
    "{\"openapi\":\"3.0.0\",\"info\":{\"title\":\"gated\",\"version\":\"v1\"},\"paths\":{\"/ConfigMap\":{\"patch\":{\"parameters\":[{\"in\":\"query\",\"name\":\"fieldValidation\"}],\"responses\":{},\"x-kubernetes-group-version-kind\":{\"group\":\"\",\"kind\":\"ConfigMap\",\"version\":\"v1\"}}},\"/Node\":{\"patch\":{\"parameters\":[{\"in\":\"query\",\"name\":\"fieldValidation\"}],\"responses\":{},\"x-kubernetes-group-version-kind\":{\"group\":\"\",\"kind\":\"Node\",\"version\":\"v1\"}}},\"/Pod\":{\"patch\":{\"parameters\":[{\"in\":\"query\",\"name\":\"fieldValidation\"}],\"responses\":{},\"x-kubernetes-group-version-kind\":{\"group\":\"\",\"kind\":\"Pod\",\"version\":\"v1\"}}},\"/Service\":{\"patch\":{\"parameters\":[{\"in\":\"query\",\"name\":\"fieldValidation\"}],\"responses\":{},\"x-kubernetes-group-version-kind\":{\"group\":\"\",\"kind\":\"Service\",\"version\":\"v1\"}}}}}"
}

// The schemas of the core group in a store of another format.
fn core_schemas_of_later() -> &'static str
    ensures second { result.now ≡ schemas_text Second (codes "v1") }
    ensures third { result.now ≡ schemas_text Third (codes "v1") }
{
    "{\"openapi\":\"3.0.0\",\"info\":{\"title\":\"gated\",\"version\":\"v1\"},\"paths\":{\"/ConfigMap\":{\"patch\":{\"parameters\":[{\"in\":\"query\",\"name\":\"fieldValidation\"}],\"responses\":{},\"x-kubernetes-group-version-kind\":{\"group\":\"\",\"kind\":\"ConfigMap\",\"version\":\"v1\"}}},\"/Node\":{\"patch\":{\"parameters\":[{\"in\":\"query\",\"name\":\"fieldValidation\"}],\"responses\":{},\"x-kubernetes-group-version-kind\":{\"group\":\"\",\"kind\":\"Node\",\"version\":\"v1\"}}},\"/Pod\":{\"patch\":{\"parameters\":[{\"in\":\"query\",\"name\":\"fieldValidation\"}],\"responses\":{},\"x-kubernetes-group-version-kind\":{\"group\":\"\",\"kind\":\"Pod\",\"version\":\"v1\"}}},\"/Service\":{\"patch\":{\"parameters\":[{\"in\":\"query\",\"name\":\"fieldValidation\"}],\"responses\":{},\"x-kubernetes-group-version-kind\":{\"group\":\"\",\"kind\":\"Service\",\"version\":\"v1\"}}},\"/Namespace\":{\"patch\":{\"parameters\":[{\"in\":\"query\",\"name\":\"fieldValidation\"}],\"responses\":{},\"x-kubernetes-group-version-kind\":{\"group\":\"\",\"kind\":\"Namespace\",\"version\":\"v1\"}}}}}"
}

// Those of `apps`.
fn apps_schemas() -> &'static str
    ensures { result.now ≡ schemas_text First (codes "apps/v1") }
{
    "{\"openapi\":\"3.0.0\",\"info\":{\"title\":\"gated\",\"version\":\"v1\"},\"paths\":{\"/Deployment\":{\"patch\":{\"parameters\":[{\"in\":\"query\",\"name\":\"fieldValidation\"}],\"responses\":{},\"x-kubernetes-group-version-kind\":{\"group\":\"apps\",\"kind\":\"Deployment\",\"version\":\"v1\"}}}}}"
}

// Those of `admissionregistration.k8s.io`.
fn admission_schemas() -> &'static str
    ensures { result.now ≡ schemas_text First (codes "admissionregistration.k8s.io/v1") }
{
    "{\"openapi\":\"3.0.0\",\"info\":{\"title\":\"gated\",\"version\":\"v1\"},\"paths\":{\"/ValidatingAdmissionPolicy\":{\"patch\":{\"parameters\":[{\"in\":\"query\",\"name\":\"fieldValidation\"}],\"responses\":{},\"x-kubernetes-group-version-kind\":{\"group\":\"admissionregistration.k8s.io\",\"kind\":\"ValidatingAdmissionPolicy\",\"version\":\"v1\"}}},\"/ValidatingAdmissionPolicyBinding\":{\"patch\":{\"parameters\":[{\"in\":\"query\",\"name\":\"fieldValidation\"}],\"responses\":{},\"x-kubernetes-group-version-kind\":{\"group\":\"admissionregistration.k8s.io\",\"kind\":\"ValidatingAdmissionPolicyBinding\",\"version\":\"v1\"}}}}}"
}

// A list of no events.
fn no_events_text() -> &'static str
    ensures { result.now ≡ no_events_text }
{
    "{\"apiVersion\":\"v1\",\"items\":[],\"kind\":\"EventList\",\"metadata\":{}}"
}

fn core_resources(format: Format) -> &'static str
    ensures { result.now ≡ resources_text format (codes "v1") }
{
    match format {
        Format::First => core_resources_of_first(),
        Format::Second => core_resources_of_later(),
        Format::Third => core_resources_of_later(),
    }
}

fn core_schemas(format: Format) -> &'static str
    ensures { result.now ≡ schemas_text format (codes "v1") }
{
    match format {
        Format::First => core_schemas_of_first(),
        Format::Second => core_schemas_of_later(),
        Format::Third => core_schemas_of_later(),
    }
}

// The text at a path of the table.
fn text_at(format: Format, path: &str) -> Option<&'static str>
    ensures { option_map (λ text. text.now) result ≡ text_at path.now (constants format) }
{
    match path {
        "/version" => Some(version_text()),
        "/api" => Some(core_text()),
        "/api/v1" => Some(core_resources(format)),
        "/apis" => Some(groups_text()),
        "/apis/apps/v1" => Some(apps_resources()),
        "/apis/admissionregistration.k8s.io/v1" => Some(admission_resources()),
        "/openapi/v3" => Some(schema_places_text()),
        "/openapi/v3/api/v1" => Some(core_schemas(format)),
        "/openapi/v3/apis/apps/v1" => Some(apps_schemas()),
        "/openapi/v3/apis/admissionregistration.k8s.io/v1" => Some(admission_schemas()),
        "/api/v1/events" => Some(no_events_text()),
        _ => None,
    }
}

// The parts of a path, between its slashes.
fn parts_of<'p>(alloc: Global, path: &'p str) -> Result<Vec<&'p str>, AllocError>
    ensures { IfOk result (λ parts. map (λ part. part.now) parts.items ≡ parts_of path.now) }
{
    path.split('/').collect(alloc)
}

// Whether a part has bytes.
fn is_there(part: &str) -> bool
    ensures { result ≡ not (is_empty part.now) }
{
    !part.is_empty()
}

fn is_core(root: &str, api: &str, version: &str) -> bool
    ensures { result ≡ is_core root.now api.now version.now }
{
    !is_there(root) && api == "api" && version == "v1"
}

fn is_of_events(word: &str, namespace: &str, plural: &str) -> bool
    ensures { result ≡ is_of_events word.now namespace.now plural.now }
{
    word == "namespaces" && is_there(namespace) && plural == "events"
}

// Whether these are the parts of the path of a namespace's events.
fn are_events(parts: &[&str]) -> bool
    ensures { result ≡ are_events (map (λ part. part.now) parts.now) }
{
    match parts {
        [root, api, version, word, namespace, plural] => {
            is_core(root, api, version) && is_of_events(word, namespace, plural)
        }
        _ => false,
    }
}

/// The constant at a path, if there is one, in a store of a format.
pub(crate) fn constant_at(
    alloc: Global,
    format: Format,
    path: &str,
) -> Result<Option<&'static str>, AllocError>
    ensures { IfOk result (λ text. option_map (λ text. text.now) text ≡ constant_at format path.now) }
{
    let parts = parts_of(alloc, path)?;
    Ok(if are_events(&parts) {
        Some(no_events_text())
    } else {
        text_at(format, path)
    })
}
