ghost use Rattle.std.specs.Prelude.{◌≡◌, ◌≢◌, ℕ, ◌≤◌, List, Bool, Option, Some, None, true, is_some, IsTrue, IfOk, OnOk, OnErr, IfSome, IsErrOf, IfErr, option_map, string_bytes, unwrap_or};
ghost use Rattle.std.specs.Prelude.{IsSome};
ghost use Rattle.serde_json.specs.Data.{Data, depth, null, boolean, number, string, array, object, no_items, no_members};
ghost use Rattle.serde_json.specs.Find.{get, as_str, as_object, as_array, of_integer};
ghost use Rattle.serde_json.specs.View.{view, items_view, members_view};
ghost use Rattle.jsondoc.specs.Json.{is_whole, text, reading, not_json, not_whole, document, with_member, without_member, with_item};

use crate::members::{push_item, put_member, remove_member};
use crate::texts::{NewMember, text_of_members};
use crate::whole::has_whole_numbers;
use serde_json::{Category, Map, Number, Value};
use std::alloc::{AllocError, Global};
use std::marker::Model;
use thiserror::Error;

/// Why bytes are no document.
#[derive(Clone, Copy, Debug, Drop, Error)]
pub enum JsonFault {
    /// They are no JSON: no UTF-8, against the grammar, nested above 127 deep, or with a number that no double holds.
    #[error("no JSON")]
    NotJson,
    /// A number has a fraction or an exponent, is `-0`, or does not fit 64 signed bits.
    #[error("a number that is not whole or does not fit 64 bits")]
    Number,
    /// Out of memory while reading them.
    #[error("out of memory")]
    Memory,
}

/// A document.
pub struct Doc {
    value: Value,
}

// Hand-written: derived drop glue is proved again in each crate.
impl Drop for Doc {
    fn drop(self) {
        let Doc { value: _ } = self;
    }
}

impl Model for Doc {
    ghost use Rattle.serde_json.specs.Data.{Data};
    ghost use Rattle.jsondoc.specs.DataCode.{coded_data};

    ghost Value = { Data };

    ghost coded = { coded_data };

    ghost use Rattle.std.specs.Prelude.{◌≡◌, IsTrue};
    ghost use Rattle.serde_json.specs.View.{view as data_of};
    ghost use Rattle.jsondoc.specs.Json.{is_whole};

    ghost view = { λ d. data_of d.value };

    ghost invariant = { λ d. IsTrue (is_whole (data_of d.value)) };
}

impl Doc {
    /// Reads a document.
    #[tactic(auto, using(crate::proofs::Json::reads_none))]
    pub fn read(alloc: Global, bytes: &[u8]) -> Result<Doc, JsonFault>
        ensures ok { IfOk result (λ d. reading bytes.now ≡ document d) }
        ensures nests { IfOk result (λ d. depth d ≤ 127) }
        ensures not_json { IsErrOf result JsonFault.NotJson → reading bytes.now ≡ not_json }
        ensures number { IsErrOf result JsonFault.Number → reading bytes.now ≡ not_whole }
    {
        match Value::from_slice(alloc, bytes) {
            Ok(value) => {
                if has_whole_numbers(&value) {
                    Ok(Doc { value })
                } else {
                    Err(JsonFault::Number)
                }
            }
            Err(error) => match error.classify() {
                Category::Memory => Err(JsonFault::Memory),
                Category::Syntax | Category::Eof | Category::Data | Category::Io => {
                    Err(JsonFault::NotJson)
                }
            },
        }
    }

    /// The one text of the document.
    pub fn text(&self, alloc: Global) -> Result<String, AllocError>
        ensures text { IfOk result (λ s. string_bytes s ≡ text self.now) }
        ensures reads_back { IfOk result (λ s. depth self.now ≤ 127 → reading (string_bytes s) ≡ document self.now) }
    {
        let text = self.value.to_string(alloc)?;
        Ok(text)
    }

    /// The text of the document with a member, in place of one of that name, as `put` would put it. The member is given as its text. What is no
    /// object has its own text. The document is not copied. `AllocError` when out of memory.
    pub fn text_with(
        &self,
        alloc: Global,
        name: &str,
        member_text: &str,
    ) -> Result<String, AllocError>
        ensures { (member : Data) → member_text.now ≡ text member → IfOk result (λ s. string_bytes s ≡ text (with_member name.now member self.now)) }
    {
        match self.value.as_object() {
            Some(members) => {
                let new = NewMember {
                    name,
                    text: member_text,
                };
                text_of_members(alloc, members, &new)
            }
            None => self.text(alloc),
        }
    }

    /// The document as a value of `serde_json`.
    pub fn value(&self) -> &Value
        ensures value { view result.now ≡ self.now }
        ensures whole { IsTrue (is_whole (view result.now)) }
    {
        &self.value
    }

    /// The text that the document is, if it is one.
    pub fn as_str(&self) -> Option<&str>
        ensures { option_map (λ s. s.now) result ≡ as_str self.now }
    {
        self.value.as_str()
    }

    /// The members of the object that the document is, if it is one, ascending by the bytes of their names.
    pub fn as_object(&self) -> Option<&Map<String, Value>>
        ensures { option_map (λ m. members_view m.now.entries) result ≡ as_object self.now }
    {
        self.value.as_object()
    }

    /// The items of the list that the document is, if it is one.
    pub fn as_array(&self) -> Option<&Vec<Value>>
        ensures { option_map (λ v. items_view v.now.items) result ≡ as_array self.now }
    {
        self.value.as_array()
    }

    /// The value of a member.
    pub fn get(&self, name: &str) -> Option<&Value>
        ensures value { option_map (λ v. view v.now) result ≡ get name.now self.now }
        ensures whole { IfSome result (λ v. IsTrue (is_whole (view v.now))) }
    {
        self.value.get(name)
    }

    /// Puts a member into the object that the document is, in place of one of that name. What is no object stays. After an
    /// error the document is as it was.
    pub fn put(&mut self, alloc: Global, name: &str, member: Doc) -> Result<(), AllocError>
        ensures ok { OnOk result (self.new ≡ with_member name.now member self.old) }
        ensures found { OnOk result (IsSome (as_object self.old) → get name.now self.new ≡ Some member) }
        ensures others { (other : List ℕ) → other ≢ name.now → get other self.new ≡ get other self.old }
        ensures err { OnErr result (self.new ≡ self.old) }
    {
        let Doc { value } = member;
        put_member(alloc, &mut self.value, name, value)
    }

    /// Takes a member out of the object that the document is, and gives its value.
    pub fn remove(&mut self, name: &str) -> Option<Doc>
        ensures removed { result ≡ get name.now self.old }
        ensures rest { self.new ≡ without_member name.now self.old }
        ensures gone { get name.now self.new ≡ None }
        ensures others { (other : List ℕ) → other ≢ name.now → get other self.new ≡ get other self.old }
    {
        let value = remove_member(&mut self.value, name)?;
        Some(Doc { value })
    }

    /// Adds an item at the end of the list that the document is. What is no list stays. After an error the document is as
    /// it was.
    pub fn push(&mut self, item: Doc) -> Result<(), AllocError>
        ensures ok { OnOk result (self.new ≡ with_item item self.old) }
        ensures err { OnErr result (self.new ≡ self.old) }
    {
        let Doc { value } = item;
        push_item(&mut self.value, value)
    }

    /// The document `null`.
    pub fn null() -> Doc
        ensures { result ≡ null }
    {
        Doc { value: Value::Null }
    }

    /// The document `{}`.
    pub fn empty_object(alloc: Global) -> Doc
        ensures { result ≡ object no_members }
    {
        Doc {
            value: Value::Object(Map::new(alloc)),
        }
    }

    /// The document `[]`.
    pub fn empty_list(alloc: Global) -> Doc
        ensures { result ≡ array no_items }
    {
        Doc {
            value: Value::Array(Vec::new(alloc)),
        }
    }

    /// A copy of a part of a document, as `get` lends it.
    pub fn copy_of(part: &Value) -> Result<Doc, AllocError>
        requires { IsTrue (is_whole (view part.now)) }
        ensures { IfOk result (λ d. d ≡ view part.now) }
    {
        let value = part.clone()?;
        Ok(Doc { value })
    }
}

impl Clone for Doc {
    ghost is_clone = { λ d copy. copy ≡ d };

    fn clone(&self) -> Result<Doc, AllocError> {
        Doc::copy_of(&self.value)
    }
}

impl From<String> for Doc {
    ghost from_gives = { λ s d. d ≡ string (string_bytes s) };

    fn from(text: String) -> Doc {
        Doc {
            value: Value::String(text),
        }
    }
}

impl From<i64> for Doc {
    ghost from_gives = { λ n d. d ≡ number (of_integer n) };

    fn from(number: i64) -> Doc {
        Doc {
            value: Value::Number(Number::from(number)),
        }
    }
}
