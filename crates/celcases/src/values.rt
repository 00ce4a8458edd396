//! Outcomes as text, as rows have them.

use crate::texts::{put, put_other, show};
use celmean::{Outcome, Value};
use std::alloc::Global;

#[cycle(put)]
fn put_value(out: &mut String, value: &Value) {
    match value {
        Value::Null => put(out, "null"),
        Value::Bool(true) => put(out, "true"),
        Value::Bool(false) => put(out, "false"),
        Value::Int(number) => show(out, number),
        Value::Uint(number) => {
            show(out, number);
            put(out, "u");
        }
        Value::Text(text) => {
            put(out, "'");
            put(out, text);
            put(out, "'");
        }
        Value::List(items) => put_items(out, items),
        Value::Map(entries) => put_entries(out, entries),
    }
}

#[cycle(put)]
fn put_items(out: &mut String, items: &Vec<Value>) {
    put(out, "[");
    for item in items {
        put(out, " ");
        put_value(out, item);
    }
    put(out, " ]");
}

#[cycle(put)]
fn put_entries(out: &mut String, entries: &Vec<(Value, Value)>) {
    put(out, "{");
    for (key, value) in entries {
        put(out, " ");
        put_value(out, key);
        put(out, ": ");
        put_value(out, value);
    }
    put(out, " }");
}

// A value, and its copy where that looks otherwise.
fn put_value_and_copy(alloc: Global, out: &mut String, value: &Value) {
    put_value(out, value);
    let mut copied = String::new(alloc);
    match value.clone() {
        Ok(copy) => put_value(&mut copied, &copy),
        Err(_) => put(&mut copied, "none"),
    }
    put_other(out, ", whose copy is ", copied.as_str());
}

/// An outcome as text.
pub(crate) fn shown_outcome(alloc: Global, outcome: &Option<Outcome>) -> String {
    let mut out = String::new(alloc);
    match outcome {
        Some(Outcome::Gives(value)) => put_value_and_copy(alloc, &mut out, value),
        Some(Outcome::Error) => put(&mut out, "error"),
        None => put(&mut out, "nothing"),
    }
    out
}
