//! The changes of one resource in one namespace, among changes that ascend by key.

ghost use Rattle.std.specs.Prelude.{◌≡◌, ◌≤◌, Some, length, is_some, IsTrue};
ghost use Rattle.std.specs.FinMap.{is_sorted};
ghost use Rattle.std.specs.List.{filter, list_any};
ghost use Rattle.names.specs.Key.{key_cmp};
ghost use Rattle.objects.specs.Objects.{is_of};
ghost use Rattle.holdings.specs.Ranges.{place_of, StartsAt, EndsAt};

use names::{Key, Resource};
use objects::KeyValue;
use std::cmp::Ordering;

// How a key stands to those of a resource in a namespace.
fn place(key: &Key, resource: Resource, namespace: &str) -> Ordering
    ensures { result ≡ place_of resource namespace.now key.now }
{
    match key.resource().number().cmp(&resource.number()) {
        Ordering::Equal => key.namespace().cmp(namespace),
        order => order,
    }
}

// How many of the changes are below those of the resource in the namespace.
fn count_before<T>(changes: &[KeyValue<Option<T>>], resource: Resource, namespace: &str) -> usize
    requires { IsTrue (is_sorted key_cmp changes.now) }
    ensures bound { result ≤ length changes.now }
    ensures place { StartsAt changes.now resource namespace.now result }
{
    changes.partition_point(|change| place(change.key(), resource, namespace).is_lt())
}

// How many of the changes are below them or among them.
fn count_up_to<T>(changes: &[KeyValue<Option<T>>], resource: Resource, namespace: &str) -> usize
    requires { IsTrue (is_sorted key_cmp changes.now) }
    ensures bound { result ≤ length changes.now }
    ensures place { EndsAt changes.now resource namespace.now result }
{
    changes.partition_point(|change| place(change.key(), resource, namespace).is_le())
}

/// Of ascending changes those of a resource in a namespace. They stand beside one another: the others are not looked at, but for a search.
pub(crate) fn changes_in<'a, T>(
    changes: &'a [KeyValue<Option<T>>],
    resource: Resource,
    namespace: &str,
) -> &'a [KeyValue<Option<T>>]
    requires { IsTrue (is_sorted key_cmp changes.now) }
    ensures { result.now ≡ filter (λ change. is_of resource (Some namespace.now) change.0) changes.now }
{
    &changes[count_before(changes, resource, namespace)..count_up_to(changes, resource, namespace)]
}

/// Whether one of the changes is a put.
pub(crate) fn has_put<T>(changes: &[KeyValue<Option<T>>]) -> bool
    ensures { result ≡ list_any (λ change. is_some change.1) changes.now }
{
    changes.iter().any(|change| change.value().is_some())
}
