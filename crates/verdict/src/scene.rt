//! The values of the names in a policy's expressions.

ghost use Rattle.std.specs.Prelude.{◌≡◌, option_map};
ghost use Rattle.serde_json.specs.Data.{null};
ghost use Rattle.serde_json.specs.View.{view};
ghost use Rattle.planrun.specs.Documents.{json_value};
ghost use Rattle.verdict.specs.Environment.{value_or_null};

use serde_json::Value as Json;

/// What the declared names stand for.
#[derive(Clone, Copy)]
pub(crate) struct Scene<'o, 'b, 'r, 'p, 'n> {
    /// `object`
    pub object: &'o Json,
    /// `oldObject`
    pub old_object: &'b Json,
    /// `request`
    pub request: &'r Json,
    /// `params`
    pub params: &'p Json,
    /// `namespaceObject`
    pub namespace: &'n Json,
}

/// The document, or `absent` where there is none.
pub(crate) fn or_null<'d>(document: Option<&'d Json>, absent: &'d Json) -> &'d Json
    requires { view absent.now ≡ null }
    ensures { json_value (view result.now) ≡ value_or_null (option_map (λ d. view d.now) document.entry) }
{
    match document {
        Some(document) => document,
        None => absent,
    }
}
