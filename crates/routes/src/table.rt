//! The table of routes.

ghost use Rattle.std.specs.Prelude.{◌≡◌, [], IfOk, OnOk, Some, None, option_map, if◌then◌else◌, ◌||◌, string_bytes};
ghost use Rattle.matchit.specs.declared.router.Router.{Router};
ghost use Rattle.documents.specs.Form.{namespace_at};
ghost use Rattle.routes.specs.Path.{resource_of, in_scope, place_of, place_at, parts_of, path_of, resource_in};
ghost use Rattle.routes.specs.PlaceOf.{seen};
ghost use Rattle.routes.specs.Allow.{allowed};
ghost use Rattle.routes.specs.Table.{AnswersTable};
ghost use Rattle.names.specs.Format.{has_resource};
ghost use Rattle.names.specs.Resource.{row};

use crate::path::{Pieces, literal, path_and_query, pieces_of};
use matchit::{InsertError, Router};
use names::{Format, Resource, Scope};
use std::alloc::{AllocError, Global};
use std::marker::Model;

/// A collection that is not over all namespaces, or with a name an item of it.
#[derive(Drop)]
pub(crate) struct Target<'p> {
    pub(crate) resource: Resource,
    pub(crate) namespace: &'p str,
    pub(crate) name: Option<&'p str>,
}

impl<'p> Model for Target<'p> {
    ghost use Rattle.requests.specs.Manifest.{Target as TargetData};

    ghost Value = { TargetData };

    ghost use Rattle.std.specs.Prelude.{option_map};

    ghost view = { λ p. record { resource = p.resource; namespace = p.namespace.now; name = option_map (λ n. n.now) p.name } };
}

impl<'p> Target<'p> {
    /// The namespace of the collection, where there are namespaces.
    pub(crate) fn collection_namespace(&self) -> Option<&'p str>
        ensures { option_map (λ n. n.now) result ≡ namespace_at (row self.now.resource).scope self.now.namespace }
    {
        match self.resource.scope() {
            Scope::Namespaced => Some(self.namespace),
            Scope::Cluster => None,
        }
    }
}

/// Where a path points.
#[derive(Drop)]
pub(crate) enum PathPlace<'p> {
    /// The objects of a namespaced resource, in all namespaces.
    Everywhere(Resource),
    /// Another collection, or an item of one.
    Within(Target<'p>),
}

impl PathPlace<'_> {
    /// The resource whose objects stand there.
    fn resource(&self) -> Resource
        ensures { result ≡ resource_in (seen self.now) }
    {
        match self {
            PathPlace::Everywhere(resource) => *resource,
            PathPlace::Within(target) => target.resource,
        }
    }

    /// The methods that the place allows, as an `Allow` field lists them (RFC 9110 section 10.2.1).
    pub(crate) fn allowed(&self) -> &'static str
        ensures { result.now ≡ allowed (seen self.now) }
    {
        match self {
            PathPlace::Everywhere(_) => "GET",
            PathPlace::Within(target) => match target.name {
                Some(_) => "GET, PUT, DELETE",
                None => "GET, POST",
            },
        }
    }
}

/// The routes that stores of the formats serve: the paths of the resources, without namespaces and names.
#[derive(Drop)]
pub struct Routes {
    router: Router<Resource>,
    ghost answers: { AnswersTable router },
}

// Adds the path of each resource. Separate from `router_of_resources`, so that no destructor is live at `?` (cheaper proof).
fn add_resources(router: &mut Router<Resource>) -> Result<(), InsertError>
    requires empty { router.old ≡ [] }
    ensures { OnOk result (AnswersTable router.new) }
{
    router.insert("/api/v1/configmaps", Resource::ConfigMap)?;
    router.insert("/api/v1/namespaces", Resource::Namespace)?;
    router.insert("/api/v1/nodes", Resource::Node)?;
    router.insert("/api/v1/pods", Resource::Pod)?;
    router.insert("/api/v1/services", Resource::Service)?;
    router.insert(
        "/apis/admissionregistration.k8s.io/v1/validatingadmissionpolicies",
        Resource::ValidatingAdmissionPolicy,
    )?;
    router.insert(
        "/apis/admissionregistration.k8s.io/v1/validatingadmissionpolicybindings",
        Resource::ValidatingAdmissionPolicyBinding,
    )?;
    router.insert("/apis/apps/v1/deployments", Resource::Deployment)?;
    Ok(())
}

// The path of each resource.
fn router_of_resources(alloc: Global) -> Result<Router<Resource>, InsertError>
    ensures { IfOk result AnswersTable }
{
    let mut router = Router::new(alloc);
    add_resources(&mut router)?;
    Ok(router)
}

// The resource, where a store of the format serves it.
fn served_in(format: Format, resource: Resource) -> Option<Resource>
    ensures { result ≡ if has_resource format resource then Some resource else None }
{
    if format.has(resource) {
        Some(resource)
    } else {
        None
    }
}

// A place of a resource, where its scope allows it.
fn in_scope<'p>(
    resource: Resource,
    namespace: Option<&'p str>,
    name: Option<&'p str>,
) -> Option<PathPlace<'p>>
    ensures { option_map seen result ≡ in_scope (row resource).scope resource (option_map (λ n. n.now) namespace.entry) (option_map (λ n. n.now) name.entry) }
{
    match (resource.scope(), namespace) {
        (Scope::Namespaced, Some(namespace)) => Some(PathPlace::Within(Target {
            resource,
            namespace,
            name,
        })),
        (Scope::Namespaced, None) => match name {
            Some(_) => None,
            None => Some(PathPlace::Everywhere(resource)),
        },
        (Scope::Cluster, None) => Some(PathPlace::Within(Target {
            resource,
            namespace: "",
            name,
        })),
        (Scope::Cluster, Some(_)) => None,
    }
}

impl Routes {
    /// Takes the memory of the table of routes.
    ///
    /// # Errors
    ///
    /// Only where memory is refused.
    pub fn new(alloc: Global) -> Result<Routes, AllocError> {
        match router_of_resources(alloc) {
            Ok(router) => Ok(Routes { router }),
            Err(_) => Err(AllocError),
        }
    }

    // The resource that a store of a format serves at a literal path.
    fn resource_of(&self, format: Format, path: &str) -> Option<Resource>
        ensures { result ≡ resource_of format path.now }
    {
        match self.router.at(path) {
            Ok(found) => served_in(format, *found.value),
            Err(_) => None,
        }
    }

    // Where the pieces of a path point.
    fn place_at<'p>(
        &self,
        alloc: Global,
        format: Format,
        pieces: &Pieces<'p>,
    ) -> Result<Option<PathPlace<'p>>, AllocError>
        ensures { IfOk result (λ place. option_map seen place ≡ place_of format pieces.now) }
    {
        if pieces.leaves_out() {
            return Ok(None);
        }
        let literal = literal(alloc, pieces.group, pieces.version, pieces.plural)?;
        Ok(match self.resource_of(format, &literal) {
            Some(resource) => in_scope(resource, pieces.namespace, pieces.name),
            None => None,
        })
    }

    /// Where a path points, if a store of the format serves that.
    pub(crate) fn place_of<'p>(
        &self,
        alloc: Global,
        format: Format,
        path: &'p str,
    ) -> Result<Option<PathPlace<'p>>, AllocError>
        ensures { IfOk result (λ place. option_map seen place ≡ place_at format (parts_of path.now)) }
    {
        match pieces_of(alloc, path)? {
            Some(pieces) => self.place_at(alloc, format, &pieces),
            None => Ok(None),
        }
    }

    /// The resource that a target points to, to its objects or to one of them, if a store of the format serves that.
    pub fn resource_at(
        &self,
        alloc: Global,
        format: Format,
        target: &str,
    ) -> Result<Option<Resource>, AllocError>
        ensures { IfOk result (λ resource. resource ≡ option_map resource_in (place_at format (parts_of (path_of target.now)))) }
    {
        let (path, _) = path_and_query(target);
        Ok(match self.place_of(alloc, format, path)? {
            Some(place) => Some(place.resource()),
            None => None,
        })
    }
}
