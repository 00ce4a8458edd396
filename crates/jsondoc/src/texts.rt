//! The text of an object to which a member is put, written without a copy of the object.

ghost use Rattle.std.specs.Prelude.{◌≡◌, ◌++◌, ◌∷◌, false, true, IsTrue, string_bytes, IfOk, OnOk};
ghost use Rattle.serde_json.specs.Data.{Data, Members, member, put, string};
ghost use Rattle.serde_json.specs.View.{view, members_view};
ghost use Rattle.serde_json.specs.Written.{comma_if, members_text};
ghost use Rattle.jsondoc.specs.Json.{text, is_whole, members_are_whole};
ghost use Rattle.jsondoc.specs.Texts.{left_text};

use serde_json::{Map, Value};
use std::alloc::{AllocError, Global};
use std::cmp::Ordering;

/// A member of an object, given as its name and the text of its value.
#[derive(Clone, Copy)]
pub(crate) struct NewMember<'a> {
    /// Its name.
    pub name: &'a str,
    /// The text of its value.
    pub text: &'a str,
}

/// What stands in a text in front of a member or an item: a comma, where others stand before it.
pub fn comma_if(later: bool) -> &'static str
    ensures { result.now ≡ comma_if later }
{
    if later { "," } else { "" }
}

// Adds texts, one after the other.
#[tactic(auto, using(std::proofs::Common::append_assoc))]
fn push_four(out: &mut String, a: &str, b: &str, c: &str, d: &str) -> Result<(), AllocError>
    ensures { OnOk result (string_bytes out.new ≡ string_bytes out.old ++ (a.now ++ (b.now ++ (c.now ++ d.now)))) }
{
    out.push_str(a)?;
    out.push_str(b)?;
    out.push_str(c)?;
    out.push_str(d)
}

// The text of a string.
fn quoted(alloc: Global, bytes: &str) -> Result<String, AllocError>
    ensures { IfOk result (λ s. string_bytes s ≡ text (string bytes.now)) }
{
    Value::String(String::from_str(alloc, bytes)?).to_string(alloc)
}

// Adds a member at the end of the text of an object, behind a comma if others stand before it.
fn push_member(
    alloc: Global,
    out: &mut String,
    later: bool,
    name: &str,
    value_text: &str,
) -> Result<(), AllocError>
    ensures { OnOk result (string_bytes out.new ≡ string_bytes out.old ++ (comma_if later ++ (text (string name.now) ++ 58 ∷ value_text.now))) }
{
    let name = quoted(alloc, name)?;
    push_four(out, comma_if(later), name.as_str(), ":", value_text)
}

// Adds a member with this value.
fn push_value(
    alloc: Global,
    out: &mut String,
    later: bool,
    name: &str,
    value: &Value,
) -> Result<(), AllocError>
    requires { IsTrue (is_whole (view value.now)) }
    ensures { OnOk result (string_bytes out.new ≡ string_bytes out.old ++ (comma_if later ++ (text (string name.now) ++ 58 ∷ text (view value.now)))) }
{
    let value_text = value.to_string(alloc)?;
    push_member(alloc, out, later, name, value_text.as_str())
}

// Adds the next member of an object, and a new one where its place is: before it, or instead of it. Says whether the new one is put.
fn push_next(
    alloc: Global,
    out: &mut String,
    later: bool,
    is_put: bool,
    new: &NewMember<'_>,
    name: &str,
    value: &Value,
) -> Result<bool, AllocError>
    requires { IsTrue (is_whole (view value.now)) }
    ensures { (new_value : Data) (rest : Members) → new.now.text.now ≡ text new_value
        → IfOk result (λ now. string_bytes out.new ++ left_text now true new.now.name.now new_value rest
        ≡ string_bytes out.old ++ left_text is_put later new.now.name.now new_value (member name.now (view value.now) rest)) }
{
    if is_put {
        push_value(alloc, out, later, name, value)?;
        return Ok(true);
    }
    match new.name.cmp(name) {
        Ordering::Less => {
            push_member(alloc, out, later, new.name, new.text)?;
            push_value(alloc, out, true, name, value)?;
            Ok(true)
        }
        Ordering::Equal => {
            push_member(alloc, out, later, name, new.text)?;
            Ok(true)
        }
        Ordering::Greater => {
            push_value(alloc, out, later, name, value)?;
            Ok(false)
        }
    }
}

/// The text of an object with these members, to which a new one is put.
pub(crate) fn text_of_members(
    alloc: Global,
    members: &Map<String, Value>,
    new: &NewMember<'_>,
) -> Result<String, AllocError>
    requires { members_are_whole (members_view members.now.entries) ≡ true }
    ensures { (value : Data) → new.now.text.now ≡ text value
        → IfOk result (λ s. string_bytes s ≡ 123 ∷ members_text false (put new.now.name.now value (members_view members.now.entries))) }
{
    let mut out = String::from_str(alloc, "{")?;
    let mut later = false;
    let mut is_put = false;
    for (name, value) in members.iter() {
        is_put = push_next(alloc, &mut out, later, is_put, new, name.as_str(), value)?;
        later = true;
    }
    if !is_put {
        push_member(alloc, &mut out, later, new.name, new.text)?;
    }
    out.push_str("}")?;
    Ok(out)
}
