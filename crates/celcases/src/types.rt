//! Types as rows have them.

use crate::texts::{put, put_other, show};
use celread::read;
use celtypes::{CelType, Env, TypeFault, check};
use std::alloc::Global;

// The type of an expression, or why it has none.
fn found(alloc: Global, text: &str, env: &Env<'_>) -> Result<CelType, &'static str> {
    let Ok(tree) = read(alloc, text) else {
        return Err("not read");
    };
    match check(alloc, &tree, env) {
        Ok(found) => Ok(found),
        Err(TypeFault::NoType) => Err("none"),
        Err(TypeFault::Memory) => Err("memory"),
    }
}

// A type that was found, and its copy where that looks otherwise.
fn put_type_and_copy(alloc: Global, out: &mut String, found: &CelType) {
    show(out, found);
    let mut copied = String::new(alloc);
    match found.clone() {
        Ok(copy) => show(&mut copied, &copy),
        Err(_) => put(&mut copied, "none"),
    }
    put_other(out, ", whose copy is ", copied.as_str());
}

/// The type of an expression as it is written in a row, or `none`.
pub(crate) fn type_text(alloc: Global, text: &str, env: &Env<'_>) -> String {
    let mut out = String::new(alloc);
    match found(alloc, text, env) {
        Ok(found) => put_type_and_copy(alloc, &mut out, &found),
        Err(why) => put(&mut out, why),
    }
    out
}
