//! The parts of a request's target.

ghost use Rattle.std.specs.Prelude.{◌≡◌, ◌||◌, map, IfOk, Some, None, option_map, codes, string_bytes, if◌then◌else◌};
ghost use Rattle.std.specs.Str.{bytes_eq};
ghost use Rattle.routes.specs.Path.{path_of, query_of, parts_of, is_left_out, pieces, pieces_of, pieces_after, pieces_in, pieces_under, literal};

use std::alloc::{AllocError, Global};
use std::marker::Model;

/// What the parts of a path say.
#[derive(Drop)]
pub(crate) struct Pieces<'p> {
    pub(crate) group: Option<&'p str>,
    pub(crate) version: &'p str,
    pub(crate) namespace: Option<&'p str>,
    pub(crate) plural: &'p str,
    pub(crate) name: Option<&'p str>,
}

impl<'p> Model for Pieces<'p> {
    ghost use Rattle.routes.specs.Path.{Pieces};

    ghost Value = { Pieces };

    ghost use Rattle.std.specs.Prelude.{option_map};

    ghost view = { λ p. record {
      group = option_map (λ g. g.now) p.group;
      version = p.version.now;
      namespace = option_map (λ n. n.now) p.namespace;
      plural = p.plural.now;
      name = option_map (λ n. n.now) p.name;
    } };
}

/// The path and the query of a target.
pub(crate) fn path_and_query(target: &str) -> (&str, &str)
    ensures path { result.0.now ≡ path_of target.now }
    ensures query { result.1.now ≡ query_of target.now }
{
    match target.split_once('?') {
        Some(parts) => parts,
        None => (target, ""),
    }
}

// The parts of a path, between its slashes.
fn parts_of<'p>(alloc: Global, path: &'p str) -> Result<Vec<&'p str>, AllocError>
    ensures { IfOk result (λ parts. map (λ part. part.now) parts.items ≡ parts_of path.now) }
{
    path.split('/').collect(alloc)
}

// The pieces, if this word names the namespaces.
fn namespaced<'p>(word: &str, pieces: Pieces<'p>) -> Option<Pieces<'p>>
    ensures { result ≡ if bytes_eq word.now (codes "namespaces") then Some pieces.entry else None }
{
    if word == "namespaces" {
        Some(pieces)
    } else {
        None
    }
}

// The pieces that make up a path of a version of a group.
fn pieces_with<'p>(
    group: Option<&'p str>,
    version: &'p str,
    namespace: Option<&'p str>,
    plural: &'p str,
    name: Option<&'p str>,
) -> Pieces<'p>
    ensures { result ≡ pieces (option_map (λ g. g.now) group.entry) version.now (option_map (λ n. n.now) namespace.entry) plural.now (option_map (λ n. n.now) name.entry) }
{
    Pieces {
        group,
        version,
        namespace,
        plural,
        name,
    }
}

// What stands after the version.
fn pieces_under<'p>(
    group: Option<&'p str>,
    version: &'p str,
    parts: &[&'p str],
) -> Option<Pieces<'p>>
    ensures { result ≡ pieces_under (option_map (λ g. g.now) group.entry) version.now (map (λ part. part.now) parts.now) }
{
    match parts {
        [plural] => Some(pieces_with(group, version, None, plural, None)),
        [plural, name] => Some(pieces_with(group, version, None, plural, Some(name))),
        [word, namespace, plural] => namespaced(
            word,
            pieces_with(group, version, Some(namespace), plural, None),
        ),
        [word, namespace, plural, name] => namespaced(
            word,
            pieces_with(group, version, Some(namespace), plural, Some(name)),
        ),
        _ => None,
    }
}

// What stands after the name of a group.
fn pieces_in<'p>(group: &'p str, parts: &[&'p str]) -> Option<Pieces<'p>>
    ensures { result ≡ pieces_in group.now (map (λ part. part.now) parts.now) }
{
    match parts {
        [version, rest @ ..] => pieces_under(Some(group), version, rest),
        [] => None,
    }
}

// What stands after the first slash.
fn pieces_after<'p>(parts: &[&'p str]) -> Option<Pieces<'p>>
    ensures { result ≡ pieces_after (map (λ part. part.now) parts.now) }
{
    match parts {
        [word, part, rest @ ..] => match *word {
            "api" => pieces_under(None, part, rest),
            "apis" => pieces_in(part, rest),
            _ => None,
        },
        _ => None,
    }
}

/// The pieces of a path, if it has the form of one.
pub(crate) fn pieces_of<'p>(alloc: Global, path: &'p str) -> Result<Option<Pieces<'p>>, AllocError>
    ensures { IfOk result (λ pieces. pieces ≡ pieces_of (parts_of path.now)) }
{
    let parts = parts_of(alloc, path)?;
    Ok(match parts.split_first() {
        Some((root, rest)) if root.is_empty() => pieces_after(rest),
        _ => None,
    })
}

impl<'p> Pieces<'p> {
    /// Whether the namespace or the name is there and empty.
    pub(crate) fn leaves_out(&self) -> bool
        ensures { result ≡ is_left_out self.now.namespace || is_left_out self.now.name }
    {
        self.namespace.is_some_and(|namespace| namespace.is_empty())
            || self.name.is_some_and(|name| name.is_empty())
    }
}

/// The path of all objects of a resource, without namespace and name.
pub(crate) fn literal(
    alloc: Global,
    group: Option<&str>,
    version: &str,
    plural: &str,
) -> Result<String, AllocError>
    ensures { IfOk result (λ text. string_bytes text ≡ literal (option_map (λ g. g.now) group.entry) version.now plural.now) }
{
    match group {
        None => format!(in alloc; "/api/{version}/{plural}"),
        Some(group) => format!(in alloc; "/apis/{group}/{version}/{plural}"),
    }
}
