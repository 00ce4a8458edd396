//! Values and outcomes.

ghost use Rattle.std.specs.Prelude.{◌≡◌, IfOk};
ghost use Rattle.celmean.specs.Seen.{value_of, values_seen, entries_seen};
ghost use Rattle.celmean.specs.Value.{Sequence, Mapping, sequence, mapping};

use std::alloc::{AllocError, Global};
use std::rc::Rc;

/// What an expression gives where it has no error.
#[derive(Drop)]
pub enum Value {
    /// `null`
    Null,
    /// A truth value.
    Bool(bool),
    /// A signed number.
    Int(i64),
    /// An unsigned number.
    Uint(u64),
    /// A text.
    Text(String),
    /// A list. Its copies share it.
    List(Rc<Vec<Value>>),
    /// A map: keys and their values, in the order of the keys (false, true, numbers by value, texts by code points). Its
    /// copies share it.
    Map(Rc<Vec<(Value, Value)>>),
}

/// What an expression gives: a value, or the one error.
#[derive(Drop)]
pub enum Outcome {
    /// A value.
    Gives(Value),
    /// The error.
    Error,
}

impl Value {
    /// The list of these items.
    ///
    /// # Errors
    ///
    /// Out of memory.
    pub fn list(alloc: Global, items: Vec<Value>) -> Result<Value, AllocError>
        ensures { IfOk result (λ v. value_of v ≡ Sequence (sequence (values_seen items.items))) }
    {
        Ok(Value::List(Rc::new(alloc, items)?))
    }

    /// The map of these entries.
    ///
    /// # Errors
    ///
    /// Out of memory.
    pub fn map(alloc: Global, entries: Vec<(Value, Value)>) -> Result<Value, AllocError>
        ensures { IfOk result (λ v. value_of v ≡ Mapping (mapping (entries_seen entries.items))) }
    {
        Ok(Value::Map(Rc::new(alloc, entries)?))
    }
}

impl Clone for Value {
    ghost is_clone = { λ v w. value_of w ≡ value_of v };

    fn clone(&self) -> Result<Value, AllocError> {
        match self {
            Value::Null => Ok(Value::Null),
            Value::Bool(truth) => Ok(Value::Bool(*truth)),
            Value::Int(number) => Ok(Value::Int(*number)),
            Value::Uint(number) => Ok(Value::Uint(*number)),
            Value::Text(text) => Ok(Value::Text(text.clone()?)),
            Value::List(items) => Ok(Value::List(items.clone()?)),
            Value::Map(entries) => Ok(Value::Map(entries.clone()?)),
        }
    }
}

/// A copy of the values.
pub(crate) fn copy_items(items: &Vec<Value>) -> Result<Vec<Value>, AllocError>
    ensures { IfOk result (λ v. values_seen v.items ≡ values_seen items.now.items) }
{
    let mut copies = Vec::new(*items.allocator());
    for item in items {
        copies.push(item.clone()?)?;
    }
    Ok(copies)
}
