//! Records, read from the parts of documents.

ghost use Rattle.std.specs.Prelude.{◌≡◌, [], List, Option, None, Some, false, map, option_map, IfOk, OnErr, IsErrOf, string_bytes};
ghost use Rattle.serde_json.specs.Data.{Data};
ghost use Rattle.serde_json.specs.Find.{as_str};
ghost use Rattle.serde_json.specs.View.{view, items_view, members_view};
ghost use Rattle.documents.specs.Selecting.{is_among};
ghost use Rattle.policy.specs.Forms.{has_only, all_among, field, perhaps, optional, list_of, filled_list_of, each, choice, top_members, spec_of};
ghost use Rattle.policy.specs.declared.form.FormFault.TheVariants as FormFault;

use serde_json::{Map, Value as Json};
use std::alloc::{AllocError, AllocFailed, Global};

/// Why nothing was read.
#[derive(Clone, Copy)]
pub enum FormFault {
    /// The document has not the form.
    BadForm,
    /// Out of memory.
    Memory,
}

impl From<AllocError> for FormFault {
    ghost use Rattle.policy.specs.declared.form.FormFault.TheVariants.{Memory};

    ghost from_gives = { λ _ fault. fault ≡ Memory };

    fn from(_error: AllocError) -> FormFault {
        FormFault::Memory
    }
}

impl<T: Drop> From<AllocFailed<T>> for FormFault {
    ghost use Rattle.policy.specs.declared.form.FormFault.TheVariants.{Memory};

    ghost from_gives = { λ _ fault. fault ≡ Memory };

    fn from(_error: AllocFailed<T>) -> FormFault {
        FormFault::Memory
    }
}

/// What a part of a document spells.
pub trait Form: Drop {
    /// What is spelled.
    ghost Spelled: { Type 0 };

    /// What a part of a document spells, if it has the form.
    ghost form_of: { Data → Option Spelled };

    /// What the value stands for.
    ghost seen: { Self → Spelled };

    fn read(alloc: Global, part: &Json) -> Result<Self, FormFault>
        ensures read { IfOk result (λ x. form_of (view part.now) ≡ Some (seen x)) }
        ensures refused { IsErrOf result FormFault.BadForm → form_of (view part.now) ≡ None };
}

impl Form for String {
    ghost use Rattle.std.specs.Prelude.{List, ℕ, string_bytes};
    ghost use Rattle.serde_json.specs.Find.{as_str};

    ghost Spelled = { List ℕ };

    ghost form_of = { as_str };

    ghost seen = { string_bytes };

    fn read(alloc: Global, part: &Json) -> Result<String, FormFault> {
        match part.as_str() {
            Some(text) => Ok(String::from_str(alloc, text)?),
            None => Err(FormFault::BadForm),
        }
    }
}

/// Reads one of these texts, for what stands beside it.
pub fn choice<T: Copy>(part: &Json, rows: &[(&str, T)]) -> Result<T, FormFault>
    ensures read { IfOk result (λ x. choice (map (λ row. (row.0.now, row.1)) rows.now) (view part.now) ≡ Some x) }
    ensures refused { IsErrOf result FormFault.BadForm → choice (map (λ row. (row.0.now, row.1)) rows.now) (view part.now) ≡ None }
{
    let Some(text) = part.as_str() else {
        return Err(FormFault::BadForm);
    };
    for row in rows {
        if text == row.0 {
            return Ok(row.1);
        }
    }
    Err(FormFault::BadForm)
}

/// Reads a member that must be there.
pub fn required<F: Form>(alloc: Global, document: &Json, name: &str) -> Result<F, FormFault>
    ensures read { IfOk result (λ x. field name.now F.form_of (view document.now) ≡ Some (F.seen x)) }
    ensures refused { IsErrOf result FormFault.BadForm → field name.now F.form_of (view document.now) ≡ None }
{
    match document.get(name) {
        Some(part) => F::read(alloc, part),
        None => Err(FormFault::BadForm),
    }
}

/// Reads a member that may be absent.
pub fn optional<F: Form>(alloc: Global, document: &Json, name: &str) -> Result<Option<F>, FormFault>
    ensures read { IfOk result (λ o. optional name.now F.form_of (view document.now) ≡ Some (option_map F.seen o)) }
    ensures refused { IsErrOf result FormFault.BadForm → optional name.now F.form_of (view document.now) ≡ None }
{
    match document.get(name) {
        Some(part) => Ok(Some(F::read(alloc, part)?)),
        None => Ok(None),
    }
}

/// Reads a list.
pub fn list<F: Form>(alloc: Global, part: &Json) -> Result<Vec<F>, FormFault>
    ensures read { IfOk result (λ v. list_of F.form_of (view part.now) ≡ Some (map F.seen v.items)) }
    ensures refused { IsErrOf result FormFault.BadForm → list_of F.form_of (view part.now) ≡ None }
{
    match part.as_array() {
        Some(items) => each(alloc, items),
        None => Err(FormFault::BadForm),
    }
}

#[tactic(auto, using(crate::proofs::Gathering::after_more, crate::proofs::Gathering::after_none))]
fn each<F: Form>(alloc: Global, items: &Vec<Json>) -> Result<Vec<F>, FormFault>
    ensures read { IfOk result (λ v. each F.form_of (items_view items.now.items) ≡ Some (map F.seen v.items)) }
    ensures refused { IsErrOf result FormFault.BadForm → each F.form_of (items_view items.now.items) ≡ None }
{
    let mut read = Vec::new(alloc);
    for item in items {
        let value = F::read(alloc, item)?;
        read.push(value)?;
    }
    Ok(read)
}

/// Reads a member that must be there and is a list.
pub fn required_list<F: Form>(
    alloc: Global,
    document: &Json,
    name: &str,
) -> Result<Vec<F>, FormFault>
    ensures read { IfOk result (λ v. field name.now (list_of F.form_of) (view document.now) ≡ Some (map F.seen v.items)) }
    ensures refused { IsErrOf result FormFault.BadForm → field name.now (list_of F.form_of) (view document.now) ≡ None }
{
    match document.get(name) {
        Some(part) => list(alloc, part),
        None => Err(FormFault::BadForm),
    }
}

/// Reads a list that may be absent, and is then empty.
pub fn optional_list<F: Form>(
    alloc: Global,
    document: &Json,
    name: &str,
) -> Result<Vec<F>, FormFault>
    ensures read { IfOk result (λ v. perhaps name.now (list_of F.form_of) [] (view document.now) ≡ Some (map F.seen v.items)) }
    ensures refused { IsErrOf result FormFault.BadForm → perhaps name.now (list_of F.form_of) [] (view document.now) ≡ None }
{
    match document.get(name) {
        Some(part) => list(alloc, part),
        None => Ok(Vec::new(alloc)),
    }
}

/// Whether the part is an object with no members but these.
pub fn has_only(part: &Json, names: &[&str]) -> bool
    ensures { result ≡ has_only (map (λ n. n.now) names.now) (view part.now) }
{
    match part.as_object() {
        Some(members) => all_among(members, names),
        None => false,
    }
}

fn all_among(members: &Map<String, Json>, names: &[&str]) -> bool
    ensures { result ≡ all_among (map (λ n. n.now) names.now) (members_view members.now.entries) }
{
    for (name, _) in members.iter() {
        if !is_among(name.as_str(), names) {
            return false;
        }
    }
    true
}

fn is_among(name: &str, names: &[&str]) -> bool
    ensures { result ≡ is_among (map (λ n. n.now) names.now) name.now }
{
    for known in names {
        if name == *known {
            return true;
        }
    }
    false
}

/// Reads a member that may be absent, for which the default then stands.
pub fn optional_or<F: Form>(
    alloc: Global,
    document: &Json,
    name: &str,
    default: F,
) -> Result<F, FormFault>
    ensures read { IfOk result (λ x. perhaps name.now F.form_of (F.seen default) (view document.now) ≡ Some (F.seen x)) }
    ensures refused { IsErrOf result FormFault.BadForm → perhaps name.now F.form_of (F.seen default) (view document.now) ≡ None }
{
    match document.get(name) {
        Some(part) => F::read(alloc, part),
        None => Ok(default),
    }
}

/// Reads a list of at least one item, a member that must be there.
#[tactic(auto, using(crate::proofs::Gathering::mapped_length))]
pub fn required_filled_list<F: Form>(
    alloc: Global,
    document: &Json,
    name: &str,
) -> Result<Vec<F>, FormFault>
    ensures read { IfOk result (λ v. field name.now (filled_list_of F.form_of) (view document.now) ≡ Some (map F.seen v.items)) }
    ensures refused { IsErrOf result FormFault.BadForm → field name.now (filled_list_of F.form_of) (view document.now) ≡ None }
{
    let items = required_list(alloc, document, name)?;
    if items.is_empty() {
        return Err(FormFault::BadForm);
    }
    Ok(items)
}

/// Reads the spec of an object that has no members but `apiVersion`, `kind`, `metadata` and `spec`: `None` where it has not
/// the form.
pub fn spec_of<F: Form>(alloc: Global, object: &Json) -> Result<Option<F>, AllocError>
    ensures spec { IfOk result (λ o. option_map F.seen o ≡ spec_of F.form_of (view object.now)) }
    // An object with other members is refused before any memory is taken.
    ensures others { has_only top_members (view object.now) ≡ false → OnErr result ⊥ }
{
    if !has_only(object, &["apiVersion", "kind", "metadata", "spec"]) {
        return Ok(None);
    }
    match required(alloc, object, "spec") {
        Ok(spec) => Ok(Some(spec)),
        Err(FormFault::BadForm) => Ok(None),
        Err(FormFault::Memory) => Err(AllocError),
    }
}
